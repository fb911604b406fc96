//! The fault of a publication that is incomplete.

ghost use Rattle.std.specs.Prelude.{◌≡◌};

use crate::folders::file_name::FileName;
use std::alloc::{AllocError, AllocFailed};

/// The fault of a publication that is incomplete.
#[derive(Drop, PartialEq, Eq)]
pub enum PublishFault<E> {
    /// Out of memory. Nothing was touched.
    Memory,
    /// The folder failed at this file, and no further file was touched.
    Failed { name: FileName, fault: E },
}

impl<E> From<AllocError> for PublishFault<E> {
    ghost use Rattle.ddt_deploy.specs.declared.folders.fault.PublishFault.TheVariants.{Memory};

    ghost from_gives = { λ _ fault. fault ≡ Memory };

    fn from(_refused: AllocError) -> PublishFault<E> {
        PublishFault::Memory
    }
}

impl<E, T: Drop> From<AllocFailed<T>> for PublishFault<E> {
    ghost use Rattle.ddt_deploy.specs.declared.folders.fault.PublishFault.TheVariants.{Memory};

    ghost from_gives = { λ _ fault. fault ≡ Memory };

    fn from(_refused: AllocFailed<T>) -> PublishFault<E> {
        PublishFault::Memory
    }
}
