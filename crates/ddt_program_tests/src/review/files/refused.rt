//! Memory is refused to the lists of faults and warnings and to their lines: each comes whole or not at all, and the next
//! call gives it.
//!
//! `.ci/memory` runs each of these tests with each growth refused in turn.

use crate::comparison::{given, same, twice};
use crate::registers::accepted;
use ddt_check::Accepted;
use ddt_examples::registers::CAMPUS;
use ddt_path::{Locator, Prefix};
use ddt_register::{ReadFault, read_register};
use ddt_review::files::{OldFile, all_faults, faults_beside, warning_lines};
use ddt_review::sheets::{FaultLine, fault_lines_text};
use ddt_review::warnings::{Finding, LostSites, Warning, zoneless_sites};
use std::alloc::Global;
use std::collections::BTreeSet;
use std::process::Abort;
use std::test::Fail;

/// The campus without the zone of its sites, and without one of them.
const LESS: &str = "kind,prefix,group,addresses
group-node,,root,127.0.0.1
group-node,,ten,127.0.0.10
node,*,root,
node,[0]10.0.0.0/8,ten,
site,[0]10.1.2.0/24,,127.0.2.1
";

/// The one fault, as it is printed of a file alone.
const TOLD: &str =
    "new.csv:6: A8 SiteOutside: the zone of line 5 covers [0]10.1.2.0/24 and is one of DDT nodes\n1 fault\n";

fn faults(rt: &impl Abort, alloc: Global) -> Option<Vec<FaultLine>> {
    given(rt, all_faults(alloc, LESS.as_bytes()), &ReadFault::Memory)
}

/// Beside the campus the fault is told as that of the zone, which is missing.
fn beside(rt: &impl Abort, alloc: Global, before: &Accepted) -> Option<()> {
    let told = faults(rt, alloc)?;
    let text = fault_lines_text(alloc, "new.csv", &told).ok()?;
    same(rt, &text.as_slice(), &TOLD.as_bytes(), &"the faults");
    let old = OldFile {
        path: "old.csv",
        bytes: CAMPUS.as_bytes(),
    };
    let told = faults_beside(alloc, told, LESS.as_bytes(), old, before).ok()?;
    for fault in &told {
        let is_zone = fault.text.as_str().contains("[0]10.1.0.0/16");
        same(rt, &(told.len(), is_zone), &(1, true), &"beside the campus");
    }
    Some(())
}

/// A site of two is gone, and that of row 5 has lost its zone.
fn lacks(rt: &impl Abort, alloc: Global, before: &Accepted) -> Option<()> {
    let after = read_register(alloc, LESS.as_bytes()).ok()?;
    let lost = LostSites::of(alloc, before.register(), &after).ok()?;
    same(rt, &(lost.gone, lost.all), &(1, 2), &"the sites");
    let mut rows = BTreeSet::new(alloc);
    rows.insert(5).ok()?;
    let sites = zoneless_sites(alloc, before, &after, &rows).ok()?;
    let mut zones = sites.iter().map(|site| site.zone);
    same(
        rt,
        &zones.next(),
        &Prefix::block(0, Locator::V4(0x0a01_0000), 16).ok(),
        &"the zone",
    );
    same(rt, &zones.next(), &None, &"the zones");
    Some(())
}

fn warns(rt: &impl Abort, alloc: Global) -> Option<()> {
    let warning = Warning {
        row: 3,
        finding: Finding::GroupWithoutZone,
    };
    let text = warning_lines(alloc, "a.csv", CAMPUS.as_bytes(), &[warning]).ok()?;
    let is_at_its_line = text.starts_with(b"a.csv:4: group-without-zone: ");
    same(rt, &is_at_its_line, &true, &"the warning");
    Some(())
}

fn all(rt: &impl Abort, alloc: Global) -> Option<()> {
    let before = accepted(alloc, CAMPUS)?;
    beside(rt, alloc, &before)?;
    lacks(rt, alloc, &before)?;
    warns(rt, alloc)
}

#[test]
fn faults_and_warnings_are_told_whole(rt: HostRuntime) -> Result<(), Fail> {
    twice(|| all(&rt, rt.alloc()))
}
