//! The keys of settings, and the faults of a text that has no settings.

ghost use Rattle.std.specs.Prelude.{◌≡◌};

use ddt_path::Listed;
use std::alloc::{AllocError, AllocFailed};
use thiserror::Error;

/// The keys of the settings.
#[derive(Clone, Copy, Debug, PartialEq, Eq)]
pub enum Key {
    Roots,
    Listen,
    Allow,
}

impl Key {
    ghost use Rattle.ddt_config.specs.Settings.Table.{key_text};

    /// Returns the key as it is written in TOML.
    pub fn text(self) -> &'static str
        ensures { result.now ≡ key_text self }
    {
        match self {
            Key::Roots => "roots",
            Key::Listen => "listen",
            Key::Allow => "allow",
        }
    }
}

/// The first fault of a text.
#[derive(Debug, Error, Drop)]
pub enum SettingsFault {
    /// It is no TOML.
    #[error("1 Toml")]
    Toml,
    /// A required key is missing, or its value is no array of texts.
    #[error("2 Field")]
    Field(Key),
    /// This text at a key isn't of the form that the key asks for.
    #[error("3 Value")]
    Value(Key, Listed<u8>),
    /// A key has no locator, or more than 8 for the roots.
    #[error("4 Count")]
    Count(Key),
    /// `listen` has a wildcard, 0.0.0.0 or ::.
    #[error("5 Wildcard")]
    Wildcard,
    /// `listen` has a locator twice.
    #[error("6 Twice")]
    Twice,
    /// Out of memory.
    #[error("7 Memory")]
    Memory,
}

impl<T: Drop> From<AllocFailed<T>> for SettingsFault {
    ghost use Rattle.ddt_config.specs.declared.settings.fault.SettingsFault.TheVariants.{Memory};

    ghost from_gives = { λ _ fault. fault ≡ Memory };

    fn from(_refused: AllocFailed<T>) -> SettingsFault {
        SettingsFault::Memory
    }
}

impl From<AllocError> for SettingsFault {
    ghost use Rattle.ddt_config.specs.declared.settings.fault.SettingsFault.TheVariants.{Memory};

    ghost from_gives = { λ _ fault. fault ≡ Memory };

    fn from(_refused: AllocError) -> SettingsFault {
        SettingsFault::Memory
    }
}
