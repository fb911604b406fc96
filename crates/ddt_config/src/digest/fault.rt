//! Why a seal isn't that of its configuration.

ghost use Rattle.std.specs.Prelude.{◌≡◌};

use std::alloc::AllocError;
use thiserror::Error;

/// The keys of a seal, at the top of a configuration's text.
#[derive(Clone, Copy, Debug, PartialEq, Eq)]
pub enum Key {
    /// The number of authorities.
    Authorities,
    /// The number of children of all authorities.
    Children,
    /// The digest, as 64 hexadecimal digits.
    Digest,
    /// The number of sites of all authorities.
    Sites,
}

impl Key {
    ghost use Rattle.ddt_config.specs.Digest.Sealed.{key_text};

    /// Returns the key as it is written in TOML.
    pub fn text(self) -> &'static str
        ensures { result.now ≡ key_text self }
    {
        match self {
            Key::Authorities => "authorities",
            Key::Children => "children",
            Key::Digest => "digest",
            Key::Sites => "sites",
        }
    }
}

/// The first fault of a seal.
#[derive(Clone, Copy, Debug, PartialEq, Eq, Error)]
pub enum SealFault {
    /// The key is missing, and another key of the seal is there.
    #[error("a key of the seal is missing")]
    Missing(Key),
    /// The key holds no count of 0 to 4,294,967,295, or no 64 hexadecimal digits.
    #[error("a key of the seal holds another value")]
    Value(Key),
    /// The configuration has another count.
    #[error("{found} of {said}")]
    Count {
        key: Key,
        /// The count in the seal.
        said: u32,
        /// The count in the configuration.
        found: u32,
    },
    /// The counts are those of the configuration, and the digest is another.
    #[error("another digest")]
    Digest,
    /// Out of memory.
    #[error("out of memory")]
    Memory,
}

impl From<AllocError> for SealFault {
    ghost use Rattle.ddt_config.specs.declared.digest.fault.SealFault.TheVariants.{Memory};

    ghost from_gives = { λ _ fault. fault ≡ Memory };

    fn from(_refused: AllocError) -> SealFault {
        SealFault::Memory
    }
}
