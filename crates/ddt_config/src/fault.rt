//! The keys of a configuration, and the faults of a text that is no configuration.

ghost use Rattle.std.specs.Prelude.{◌≡◌};

use std::alloc::{AllocError, AllocFailed};
use thiserror::Error;

/// The keys of a configuration's tables.
#[derive(Clone, Copy, Debug, PartialEq, Eq)]
pub enum Key {
    Name,
    Kind,
    Locators,
    Authority,
    Prefix,
    Child,
    Site,
    Etrs,
}

impl Key {
    ghost use Rattle.ddt_config.specs.Table.{key_text};

    /// Returns the key as it is written in TOML.
    pub fn text(self) -> &'static str
        ensures { result.now ≡ key_text self }
    {
        match self {
            Key::Name => "name",
            Key::Kind => "kind",
            Key::Locators => "locators",
            Key::Authority => "authority",
            Key::Prefix => "prefix",
            Key::Child => "child",
            Key::Site => "site",
            Key::Etrs => "etrs",
        }
    }
}

/// The first fault of a text.
#[derive(Clone, Copy, Debug, PartialEq, Eq, Error)]
pub enum ConfigFault {
    /// It is no TOML.
    #[error("1 Toml")]
    Toml,
    /// A required key is missing, or a key has a value of another kind.
    #[error("2 Field")]
    Field(Key),
    /// The text of a key isn't of the form that the key asks for.
    #[error("3 Value")]
    Value(Key),
    /// The tables are well formed, but no server has such a configuration.
    #[error("4 Shape")]
    Shape,
    /// Out of memory.
    #[error("5 Memory")]
    Memory,
}

impl<T: Drop> From<AllocFailed<T>> for ConfigFault {
    ghost use Rattle.ddt_config.specs.declared.fault.ConfigFault.TheVariants.{Memory};

    ghost from_gives = { λ _ fault. fault ≡ Memory };

    fn from(_refused: AllocFailed<T>) -> ConfigFault {
        ConfigFault::Memory
    }
}

impl From<AllocError> for ConfigFault {
    ghost use Rattle.ddt_config.specs.declared.fault.ConfigFault.TheVariants.{Memory};

    ghost from_gives = { λ _ fault. fault ≡ Memory };

    fn from(_refused: AllocError) -> ConfigFault {
        ConfigFault::Memory
    }
}
