//! The fault that prevents steps from one register to another.

ghost use Rattle.std.specs.Prelude.{◌≡◌};

use ddt_path::Name;
use std::alloc::{AllocError, AllocFailed};
use thiserror::Error;

/// The fault that prevents steps from one register to another.
#[derive(Clone, Copy, Debug, PartialEq, Eq, Error)]
pub enum RolloutFault {
    /// The group has DDT nodes in one register and Map-Servers in the other. A group of another name has no such fault.
    #[error("1 Role")]
    Role(Name),
    /// The group has more than 8 locators in both registers together, so that no configuration has all of them.
    #[error("2 Locators")]
    Locators(Name),
    /// Out of memory.
    #[error("3 Memory")]
    Memory,
}

impl From<AllocError> for RolloutFault {
    ghost use Rattle.ddt_deploy.specs.declared.rollout.fault.RolloutFault.TheVariants.{Memory};

    ghost from_gives = { λ _ fault. fault ≡ Memory };

    fn from(_refused: AllocError) -> RolloutFault {
        RolloutFault::Memory
    }
}

impl<T: Drop> From<AllocFailed<T>> for RolloutFault {
    ghost use Rattle.ddt_deploy.specs.declared.rollout.fault.RolloutFault.TheVariants.{Memory};

    ghost from_gives = { λ _ fault. fault ≡ Memory };

    fn from(_refused: AllocFailed<T>) -> RolloutFault {
        RolloutFault::Memory
    }
}
