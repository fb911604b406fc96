//! Memory is refused to publishing: without a plan nothing is touched, a folder without room says so, and the next call
//! publishes all.
//!
//! `.ci/memory` runs each of these tests with each growth refused in turn.

use crate::command::companion::folder::registers::has;
use crate::comparison::{same, twice};
use crate::registers::accepted;
use ddt_check::{Accepted, check};
use ddt_config::{from_toml, to_toml};
use ddt_deploy::folders::{
    FileName, FolderInMemory, MemoryFault, Plan, PublishFault, carry_out, in_order, lines_of,
    plan_for, publish, read_file,
};
use ddt_examples::configurations::{EAST, EAST_BY_HAND};
use ddt_examples::registers::CAMPUS;
use ddt_path::Name;
use ddt_register::read_register;
use std::alloc::Global;
use std::collections::BTreeSet;
use std::process::Abort;
use std::test::Fail;

/// The campus, read once more where memory is refused, and accepted.
fn campus(alloc: Global) -> Result<Accepted, Fail> {
    let register = match read_register(alloc, CAMPUS.as_bytes()) {
        Ok(register) => register,
        Err(_refused) => read_register(alloc, CAMPUS.as_bytes())?,
    };
    match check(register) {
        Ok(accepted) => Ok(accepted),
        Err(_refused) => Err("not accepted".into()),
    }
}

/// A call that wasn't refused puts five files there. One without a plan touches none, and any other found no room.
fn is_told(
    rt: &impl Abort,
    end: &Result<Plan, PublishFault<MemoryFault>>,
    folder: &FolderInMemory,
) {
    match end {
        Ok(_plan) => same(rt, &folder.touches(), &5, &"the touches"),
        Err(PublishFault::Memory) => same(rt, &folder.touches(), &0, &"the touches"),
        Err(PublishFault::Failed { fault, .. }) => same(
            rt,
            fault,
            &MemoryFault::Full,
            &"the fault",
        ),
    }
}

/// Publishes the campus, once more where memory is refused: then its register is there.
fn publishes(
    rt: &impl Abort,
    alloc: Global,
    register: &Accepted,
    folder: &mut FolderInMemory,
) -> Result<(), Fail> {
    let nobody = BTreeSet::new(alloc);
    let end = publish(alloc, register, CAMPUS.as_bytes(), &nobody, false, folder);
    is_told(rt, &end, folder);
    if end.is_err()
        && publish(alloc, register, CAMPUS.as_bytes(), &nobody, false, folder).is_err()
    {
        return Err("refused twice".into());
    }
    has(rt, folder, FileName::Register, Some(CAMPUS));
    Ok(())
}

#[test]
fn a_refusal_of_memory_is_told_and_touches_nothing(rt: HostRuntime) -> Result<(), Fail> {
    let register = campus(rt.alloc())?;
    let mut folder = FolderInMemory::new(rt.alloc());
    publishes(&rt, rt.alloc(), &register, &mut folder)
}

/// What was done; None where memory was refused, which must be the only fault. A folder without room says so.
fn done<T>(rt: &impl Abort, made: Result<T, PublishFault<MemoryFault>>) -> Option<T> {
    match made {
        Ok(found) => Some(found),
        Err(PublishFault::Memory) => None,
        Err(PublishFault::Failed { fault, .. }) => {
            same(rt, &fault, &MemoryFault::Full, &"the fault");
            None
        }
    }
}

/// A file is put there or not, and then read.
fn sets(rt: &impl Abort, alloc: Global, folder: &mut FolderInMemory) -> Option<()> {
    let set = folder.set(FileName::Register, b"old");
    let found = folder.bytes(FileName::Register).is_some();
    same(rt, &found, &set.is_ok(), &"the file");
    set.ok()?;
    let bytes = done(rt, read_file(alloc, folder, &FileName::Register))??;
    same(rt, &bytes.as_slice(), &b"old".as_slice(), &"the bytes");
    Some(())
}

/// The register changes, and four files are new.
const LINES: &str =
    "changed register.csv\nnew east.toml\nnew root.toml\nnew ten.toml\nnew MANIFEST\nsame 0\n";

fn plans(rt: &impl Abort, alloc: Global) -> Option<()> {
    let mut folder = FolderInMemory::new(alloc);
    sets(rt, alloc, &mut folder).or_else(|| sets(rt, alloc, &mut folder))?;
    let register = accepted(alloc, CAMPUS)?;
    let nobody = BTreeSet::new(alloc);
    let plan = plan_for(
        alloc,
        &register,
        CAMPUS.as_bytes(),
        &nobody,
        false,
        &mut folder,
    );
    let plan = done(rt, plan)?;
    let lines = lines_of(alloc, &plan).ok()?;
    same(rt, &lines.as_slice(), &LINES.as_bytes(), &"the lines");
    done(rt, carry_out(&mut folder, plan.steps.as_slice()))?;
    has(rt, &folder, FileName::Register, Some(CAMPUS));
    Some(())
}

#[test]
fn a_plan_is_made_and_carried_out_whole(rt: HostRuntime) -> Result<(), Fail> {
    twice(|| plans(&rt, rt.alloc()))
}

fn names(rt: &impl Abort, alloc: Global) -> Option<()> {
    let name = FileName::Config(Name::of(b"east")?);
    let text = name.text(alloc).ok()?;
    same(rt, &text.as_slice(), &b"east.toml".as_slice(), &"the name");
    let beside = name.text_beside(alloc, Name::of(b"7")?).ok()?;
    same(
        rt,
        &beside.as_slice(),
        &b"east.toml.7.new".as_slice(),
        &"the name beside",
    );
    let ordered = in_order(alloc, from_toml(alloc, EAST_BY_HAND).ok()?).ok()?;
    let text = to_toml(alloc, &ordered).ok()?;
    same(rt, &text.as_str(), &EAST, &"the order");
    Some(())
}

#[test]
fn names_and_an_order_are_given_whole(rt: HostRuntime) -> Result<(), Fail> {
    twice(|| names(&rt, rt.alloc()))
}
