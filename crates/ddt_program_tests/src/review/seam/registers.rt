//! Registers that meet, and names of groups.

use crate::comparison::same;
use ddt_check::{Accepted, check};
use ddt_path::Name;
use ddt_register::{ReadFault, Register, read_register};
use std::alloc::{AllocError, Global};
use std::collections::BTreeSet;
use std::process::Abort;
use std::test::Fail;

/// The register of a text, read again if memory was refused, which must be the only fault.
fn register(rt: &impl Abort, alloc: Global, text: &str) -> Result<Register, Fail> {
    match read_register(alloc, text.as_bytes()) {
        Ok(register) => Ok(register),
        Err(fault) => {
            same(rt, &fault, &ReadFault::Memory, &"the fault");
            Ok(read_register(alloc, text.as_bytes())?)
        },
    }
}

/// The same, accepted.
pub fn accepted(rt: &impl Abort, alloc: Global, text: &str) -> Result<Accepted, Fail> {
    match check(register(rt, alloc, text)?) {
        Ok(accepted) => Ok(accepted),
        Err(_refused) => Err("not accepted".into()),
    }
}

/// The names of groups; what is none is left out.
pub fn names(alloc: Global, words: &[&str]) -> Result<BTreeSet<Name>, AllocError> {
    let mut names = BTreeSet::new(alloc);
    for word in words {
        if let Some(name) = Name::of(word.as_bytes()) {
            names.insert(name)?;
        }
    }
    Ok(names)
}
