//! Memory is refused: the call returns no report, and the next call returns all of it.
//!
//! `.ci/memory` runs each of these tests with each growth refused in turn.

use crate::comparison::{same, twice};
use crate::registers::accepted as accepted_at_once;
use crate::review::seam::registers::{accepted, names};
use ddt_check::Accepted;
use ddt_examples::registers::{CAMPUS, CAMPUS_GROWN};
use ddt_organisations::seam::{
    SeamReport, Verdict, group_runs, is_good, join, seam_lines, seam_verdict,
};
use ddt_organisations::{Organisation, seams, tree_faults};
use ddt_path::Name;
use std::alloc::{AllocError, Global};
use std::collections::BTreeSet;
use std::process::Abort;
use std::test::Fail;

fn told(
    alloc: Global,
    foreign: &BTreeSet<Name>,
    ours: &Accepted,
    theirs: &Accepted,
) -> Result<Option<SeamReport>, AllocError> {
    match seam_lines(alloc, foreign, ours, theirs) {
        Ok(told) => Ok(told),
        Err(AllocError) => seam_lines(alloc, foreign, ours, theirs),
    }
}

#[test]
fn a_seam_is_told_whole_or_not_at_all(rt: HostRuntime) -> Result<(), Fail> {
    let alloc = rt.alloc();
    let ours = accepted(&rt, alloc, CAMPUS)?;
    let theirs = accepted(&rt, alloc, CAMPUS_GROWN)?;
    let foreign = match names(alloc, &["ten"]) {
        Ok(names) => names,
        Err(AllocError) => names(alloc, &["ten"])?,
    };
    let wanted =
        "[0]10.0.0.0/8\tours delegates to node ten 127.0.0.10\ttheirs serves node ten 127.0.0.10\tgood\n";
    match told(alloc, &foreign, &ours, &theirs)? {
        Some(told) => {
            let text = std::str::from_utf8(&told.text).unwrap_or("");
            same(
                &rt,
                &(told.is_good, text),
                &(true, wanted),
                &"the campus and the grown one",
            );
        }
        None => same(
            &rt,
            &"too many rows",
            &"lines",
            &"the campus and the grown one",
        ),
    }
    Ok(())
}

/// The joined register has the four groups of both, each of which can be run, and is good.
fn joins(rt: &impl Abort, alloc: Global, ours: &Accepted, theirs: &Accepted) -> Option<()> {
    let foreign = names(alloc, &["ten"]).ok()?;
    let joined = join(alloc, ours, theirs).ok()??;
    same(
        rt,
        &joined.groups.as_slice().len(),
        &4,
        &"the joined groups",
    );
    match seam_verdict(alloc, &foreign, ours, theirs).ok()? {
        Verdict::Joined(joined, runs) => {
            let again = group_runs(alloc, &foreign, ours, theirs, &joined).ok()?;
            same(rt, &again.as_slice(), &runs.as_slice(), &"the groups");
            same(rt, &(runs.len(), is_good(&runs)), &(4, true), &"the seam");
            Some(())
        }
        _ => None,
    }
}

fn seam(rt: &impl Abort, alloc: Global) -> Option<()> {
    let ours = accepted_at_once(alloc, CAMPUS)?;
    let theirs = accepted_at_once(alloc, CAMPUS_GROWN)?;
    joins(rt, alloc, &ours, &theirs)
}

#[test]
fn a_seam_is_judged_whole(rt: HostRuntime) -> Result<(), Fail> {
    twice(|| seam(&rt, rt.alloc()))
}

/// One organisation that runs all groups of the campus makes a tree without a seam.
fn tree(rt: &impl Abort, alloc: Global) -> Option<()> {
    let groups = names(alloc, &["root", "ten", "east"]).ok()?;
    let all = [Organisation::of(accepted_at_once(alloc, CAMPUS)?, groups)];
    let pairs = seams(alloc, &all).ok()?;
    let faults = tree_faults(alloc, &all).ok()?;
    same(rt, &(pairs.len(), faults.len()), &(0, 0), &"the tree");
    Some(())
}

#[test]
fn a_tree_is_judged_whole(rt: HostRuntime) -> Result<(), Fail> {
    twice(|| tree(&rt, rt.alloc()))
}
