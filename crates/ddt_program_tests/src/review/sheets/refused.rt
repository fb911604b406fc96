//! Memory is refused: the call fails with that fault, and the next call returns all faults.
//!
//! `.ci/memory` runs each of these tests with each growth refused in turn.

use crate::comparison::same;
use ddt_register::{ReadFault, Register};
use ddt_review::sheets::{BrokenRule, FaultLine, file_faults};
use std::alloc::Global;
use std::test::Fail;

/// A file in tabs with a record that can't be read.
const FILE: &[u8] = b"kind\tprefix\tgroup\taddresses\nnode\t*\t\t\n";

fn faults(alloc: Global) -> Result<Vec<FaultLine>, ReadFault> {
    file_faults(alloc, FILE, |_register: &Register| {
        let none: Vec<BrokenRule> = Vec::new(alloc);
        Ok(none)
    })
}

#[test]
fn want_of_memory_is_the_only_other_answer(rt: HostRuntime) -> Result<(), Fail> {
    let told = match faults(rt.alloc()) {
        Ok(told) => told,
        Err(fault) => {
            same(&rt, &fault, &ReadFault::Memory, &"the fault");
            faults(rt.alloc())?
        }
    };
    same(&rt, &told.len(), &2, &"the faults");
    Ok(())
}
