//! The faults of a text of keys, and of keys that don't fit a configuration.

ghost use Rattle.std.specs.Prelude.{◌≡◌};

use ddt_path::Prefix;
use std::alloc::{AllocError, AllocFailed};
use thiserror::Error;

/// The members of the file's tables.
#[derive(Clone, Copy, Debug, PartialEq, Eq)]
pub enum Member {
    Key,
    Prefix,
    AcceptMoreSpecifics,
    Id,
    Algorithm,
    Secret,
    SecretHex,
    Replay,
    StaticEtrs,
}

impl Member {
    ghost use Rattle.ddt_map_server.specs.Keys.Table.{member_text};

    /// The member's name in the file.
    pub fn text(self) -> &'static str
        ensures { result.now ≡ member_text self }
    {
        match self {
            Member::Key => "key",
            Member::Prefix => "prefix",
            Member::AcceptMoreSpecifics => "accept_more_specifics",
            Member::Id => "id",
            Member::Algorithm => "algorithm",
            Member::Secret => "secret",
            Member::SecretHex => "secret_hex",
            Member::Replay => "replay",
            Member::StaticEtrs => "static_etrs",
        }
    }
}

/// The first fault of the keys.
#[derive(Clone, Copy, Debug, PartialEq, Eq, Error)]
pub enum KeysFault {
    /// The text is no TOML.
    #[error("1 Toml")]
    Toml,
    /// A required member is missing, or a member has a value of another type.
    #[error("2 Field")]
    Field(Member),
    /// The value of a member isn't of the member's form.
    #[error("3 Value")]
    Value(Member),
    /// A key has both `secret` and `secret_hex`.
    #[error("4 Secrets")]
    Secrets,
    /// A key of this prefix belongs to no site of the configuration.
    #[error("5 NoSite")]
    NoSite(Prefix),
    /// A key of this prefix has another `falls_back` than an earlier key of one of its sites.
    #[error("6 Disagree")]
    Disagree(Prefix),
    /// A key of this prefix has the Key ID and the algorithm of an earlier key of one of its sites.
    #[error("7 Twice")]
    Twice(Prefix),
    /// Memory ran out.
    #[error("8 Memory")]
    Memory,
}

impl<T: Drop> From<AllocFailed<T>> for KeysFault {
    ghost use Rattle.ddt_map_server.specs.declared.keys.fault.KeysFault.TheVariants.{Memory};

    ghost from_gives = { λ _ fault. fault ≡ Memory };

    fn from(_refused: AllocFailed<T>) -> KeysFault {
        KeysFault::Memory
    }
}

impl From<AllocError> for KeysFault {
    ghost use Rattle.ddt_map_server.specs.declared.keys.fault.KeysFault.TheVariants.{Memory};

    ghost from_gives = { λ _ fault. fault ≡ Memory };

    fn from(_refused: AllocError) -> KeysFault {
        KeysFault::Memory
    }
}
