//! Memory is refused to the list: all of it comes or nothing, and the next call gives it.
//!
//! `.ci/memory` runs each of these tests with each growth refused in turn.

use crate::comparison::same;
use ddt_check::Rule;
use ddt_examples::registers::COLUMNS;
use ddt_register::{ReadFault, Register, read_register};
use ddt_review::faults::{Broken, broken_rules};
use std::alloc::{AllocError, Global};
use std::process::Abort;
use std::test::Fail;

/// Rows of each kind, with faults.
const ROWS: &str = "group-node,,root,127.0.0.1
group-ms,,east,127.0.0.1
group-ms,,east,
node,*,root,
ms,[0]10.0.0.0/8,east,
ms,[0]10.0.0.0/8,west,
site,[0]10.1.0.0/16,,
site,[0]10.1.0.0/16,,
site,[0]11.0.0.0/8,,
";

/// The register of these rows, read again if memory was refused, which must be the only fault.
fn register(rt: &impl Abort, alloc: Global) -> Result<Register, Fail> {
    let text = written(alloc)?;
    match read_register(alloc, text.as_bytes()) {
        Ok(register) => Ok(register),
        Err(fault) => {
            same(rt, &fault, &ReadFault::Memory, &"the fault");
            Ok(read_register(alloc, text.as_bytes())?)
        }
    }
}

/// The text of the rows, written once more where memory is refused.
fn written(alloc: Global) -> Result<String, AllocError> {
    match joined(alloc) {
        Ok(text) => Ok(text),
        Err(_refused) => joined(alloc),
    }
}

fn joined(alloc: Global) -> Result<String, AllocError> {
    let mut text = String::from_str(alloc, COLUMNS)?;
    text.push_str(ROWS)?;
    Ok(text)
}

/// The list, asked once more where memory is refused.
fn all_broken(alloc: Global, register: &Register) -> Result<Vec<Broken>, AllocError> {
    match broken_rules(alloc, register) {
        Ok(list) => Ok(list),
        Err(_refused) => broken_rules(alloc, register),
    }
}

#[test]
fn faults_are_told_after_a_refusal(rt: HostRuntime) -> Result<(), Fail> {
    let register = register(&rt, rt.alloc())?;
    let list = all_broken(rt.alloc(), &register)?;
    let told = [
        (2, Rule::Locators, Some(1)),
        (3, Rule::Locators, None),
        (3, Rule::DuplicateGroup, Some(2)),
        (6, Rule::DuplicateZone, Some(5)),
        (6, Rule::UnknownGroup, None),
        (8, Rule::DuplicateSite, Some(7)),
        (9, Rule::SiteOutside, Some(4)),
    ];
    same(&rt, &list.len(), &told.len(), &"all faults");
    for (broken, (row, rule, other)) in list.iter().zip(told) {
        same(&rt, broken, &Broken { row, rule, other }, &row);
    }
    Ok(())
}
