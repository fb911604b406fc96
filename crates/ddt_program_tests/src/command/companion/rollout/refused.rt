//! Memory is refused to rollouts, to registers on the loopback and to exports: each comes whole or not at all, and the next
//! call gives it.
//!
//! `.ci/memory` runs each of these tests with each growth refused in turn.

use crate::command::companion::folder::registers::has;
use crate::comparison::{given, holds, same, twice};
use crate::registers::accepted;
use ddt_check::Accepted;
use ddt_config::{Content, from_toml};
use ddt_deploy::export::oor_text;
use ddt_deploy::folders::{FileName, FolderInMemory};
use ddt_deploy::loopback::{moves_text, register_text, to_loopback};
use ddt_deploy::rollout::{
    RolloutFault, Stage, configurations_at, files_at, reason_of, rollout_lines, rollout_steps,
    steps_text, write_files,
};
use ddt_examples::configurations::EAST;
use ddt_examples::registers::CAMPUS;
use ddt_path::Name;
use std::alloc::Global;
use std::process::Abort;
use std::test::Fail;

fn are(rt: &impl Abort, bytes: &[u8], wanted: &str) {
    same(rt, &bytes, &wanted.as_bytes(), &"the text");
}

// ---- rollouts

/// A zone that goes from one group to another, as in `tests/ddtplan/rollout.lines`.
const WEST: &str = "kind,prefix,group,addresses
group-node,,root,192.0.2.1
group-node,,far,192.0.2.2
group-ms,,east,192.0.2.11
group-ms,,west,192.0.2.12
node,*,root,
node,[0]10.0.0.0/8,far,
ms,[0]10.1.0.0/16,west,
site,[0]10.1.1.0/24,,198.51.100.1
";

const TO_EAST: &str = "kind,prefix,group,addresses
group-node,,root,192.0.2.1
group-node,,far,192.0.2.2
group-ms,,east,192.0.2.11
group-ms,,west,192.0.2.12
node,*,root,
node,[0]10.0.0.0/8,far,
ms,[0]10.1.0.0/16,east,
site,[0]10.1.1.0/24,,198.51.100.1
";

const STEPS: &str =
    "step\t1\tload\teast\nstep\t2\tload\tfar\nwait\t2 days 4 seconds\nstep\t3\tload\twest\n";

fn steps(rt: &impl Abort, alloc: Global, west: &Accepted, east: &Accepted) -> Option<()> {
    are(rt, &steps_text(alloc, west, east).ok()?, STEPS);
    let steps = given(rt, rollout_steps(alloc, west, east), &RolloutFault::Memory)?;
    are(rt, &rollout_lines(alloc, west, east, &steps).ok()?, STEPS);
    let why = reason_of(alloc, RolloutFault::Role(Name::of(b"east")?)).ok()?;
    holds(
        rt,
        why.as_str().starts_with("group east is of DDT nodes"),
        &"why",
    );
    Some(())
}

/// At the first stage each of four groups has its configuration, and `west` still has its site.
fn stages(rt: &impl Abort, alloc: Global, west: &Accepted, east: &Accepted) -> Option<()> {
    let stage = Stage::From(0);
    let all = given(
        rt,
        configurations_at(alloc, west, east, stage),
        &RolloutFault::Memory,
    )?;
    let last = all.last()?;
    same(rt, &last.name.as_bytes(), &b"west".as_slice(), &"the last");
    for authority in last.authorities.as_slice() {
        holds(
            rt,
            matches!(authority.content, Content::Sites(_)),
            &"the sites",
        );
    }
    let files = given(
        rt,
        files_at(alloc, west, east, stage),
        &RolloutFault::Memory,
    )?;
    same(rt, &(all.len(), files.len()), &(4, 4), &"the files");
    let mut folder = FolderInMemory::new(alloc);
    let plan = write_files(alloc, &mut folder, files).ok()?;
    same(rt, &plan.steps.as_slice().len(), &4, &"the steps");
    holds(
        rt,
        folder.bytes(FileName::Config(Name::of(b"west")?)).is_some(),
        &"west",
    );
    has(rt, &folder, FileName::Register, None);
    Some(())
}

fn rollouts(rt: &impl Abort, alloc: Global) -> Option<()> {
    let west = accepted(alloc, WEST)?;
    let east = accepted(alloc, TO_EAST)?;
    steps(rt, alloc, &west, &east)?;
    stages(rt, alloc, &west, &east)
}

#[test]
fn steps_and_their_files_are_told_whole(rt: HostRuntime) -> Result<(), Fail> {
    twice(|| rollouts(&rt, rt.alloc()))
}

// ---- the loopback and exports

/// The locators of the campus, and those in their places.
const MOVES: &str =
    "127.0.0.1\t127.0.0.1\n127.0.0.10\t127.0.0.2\n127.0.1.1\t127.0.0.3\n127.0.1.2\t127.0.0.4\n";

fn moves(rt: &impl Abort, alloc: Global) -> Option<()> {
    let campus = accepted(alloc, CAMPUS)?;
    are(rt, &register_text(alloc, campus.register()).ok()?, CAMPUS);
    let moved = to_loopback(alloc, &campus).ok()?;
    are(
        rt,
        &moves_text(alloc, campus.register(), &moved).ok()?,
        MOVES,
    );
    Some(())
}

fn exports(rt: &impl Abort, alloc: Global) -> Option<()> {
    let file = oor_text(alloc, &from_toml(alloc, EAST).ok()?).ok()?;
    let mode = file
        .text
        .as_slice()
        .starts_with(b"# openoverlayrouter 1.3.0 (OOR): a Map-Server of");
    same(rt, &(mode, file.is_complete), &(true, true), &"east");
    Some(())
}

fn texts(rt: &impl Abort, alloc: Global) -> Option<()> {
    moves(rt, alloc)?;
    exports(rt, alloc)
}

#[test]
fn registers_and_exports_are_written_whole(rt: HostRuntime) -> Result<(), Fail> {
    twice(|| texts(&rt, rt.alloc()))
}
