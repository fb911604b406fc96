//! The bytes of an open file.

ghost use Rattle.std.specs.Prelude.{◌≡◌, ◌⊎◌, ℕ, List, Some, IfOk, IfErr};
ghost use Rattle.ddt_commands.specs.declared.refusal.Refusal.TheVariants.{OutOfMemory};
ghost use Rattle.ddt_commands.specs.Refusal.{file_refusal};

use crate::refusal::Refusal;
use std::alloc::Global;
use std::io::{ErrorKind, Read};

/// The bytes of an open file. Where it can't be read, that is refused as `unread`.
pub fn bytes_of<F: Read + Drop>(
    alloc: Global,
    mut file: F,
    unread: Refusal<'_>,
) -> Result<Vec<u8>, Refusal<'_>>
    ensures read { IfOk result (λ bytes. (all : List ℕ) → F.remaining file ≡ Some all → bytes.items ≡ all) }
    ensures refused { IfErr result (λ why. (why ≡ unread.entry) ⊎ (why ≡ OutOfMemory)) }
{
    let mut bytes = Vec::new(alloc);
    match file.read_to_end(&mut bytes) {
        Ok(_count) => Ok(bytes),
        Err(error) => Err(refused_file(error.kind(), unread)),
    }
}

/// What is refused where reading ends in an error of this kind: out of memory if it is that, else `unread`.
fn refused_file(kind: ErrorKind, unread: Refusal<'_>) -> Refusal<'_>
    ensures { result ≡ file_refusal kind unread.entry }
{
    match kind {
        ErrorKind::OutOfMemory => Refusal::OutOfMemory,
        _ => unread,
    }
}
