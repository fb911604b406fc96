//! Memory is refused: there is no list, and the next call returns all warnings.
//!
//! `.ci/memory` runs each of these tests with each growth refused in turn.

use crate::comparison::same;
use ddt_check::{Accepted, check};
use ddt_examples::registers::CAMPUS;
use ddt_register::{ReadFault, Register, read_register};
use ddt_review::warnings::{Finding, Warning, warnings};
use std::alloc::{AllocError, Global};
use std::process::Abort;
use std::test::Fail;

/// The register of a text, read again if memory was refused, which must be the only fault.
fn register(rt: &impl Abort, alloc: Global, text: &str) -> Result<Register, Fail> {
    match read_register(alloc, text.as_bytes()) {
        Ok(register) => Ok(register),
        Err(fault) => {
            same(rt, &fault, &ReadFault::Memory, &"the fault");
            Ok(read_register(alloc, text.as_bytes())?)
        },
    }
}

fn accepted(rt: &impl Abort, alloc: Global, text: &str) -> Result<Accepted, Fail> {
    match check(register(rt, alloc, text)?) {
        Ok(accepted) => Ok(accepted),
        Err(_refused) => Err("not accepted".into()),
    }
}

/// A register with a group that no zone names.
fn text_of(alloc: Global) -> Result<String, AllocError> {
    format!(in alloc; "{CAMPUS}group-ms,,idle,127.0.1.9\n")
}

#[test]
fn a_refused_list_is_told_by_the_next_call(rt: HostRuntime) -> Result<(), Fail> {
    let text = match text_of(rt.alloc()) {
        Ok(text) => text,
        Err(_refused) => text_of(rt.alloc())?,
    };
    let register = accepted(&rt, rt.alloc(), text.as_str())?;
    let told = match warnings(rt.alloc(), &register, &[]) {
        Ok(told) => told,
        Err(_refused) => warnings(rt.alloc(), &register, &[])?,
    };
    let idle = Warning {
        row: 9,
        finding: Finding::GroupWithoutZone,
    };
    same(&rt, &told.as_slice(), &[idle].as_slice(), &"the warnings");
    Ok(())
}
