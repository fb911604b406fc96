//! The lines of a seam, and whether it is good.

ghost use Rattle.std.specs.Prelude.{◌<◌, IfOk, MatchOption};
ghost use Rattle.std.specs.Ordering.{nat_cmp};
ghost use Rattle.std.specs.Cmp.Lexicographic.{slice_cmp};
ghost use Rattle.std.specs.BTreeSet.{contains};
ghost use Rattle.ddt_register.specs.Rows.{most_rows};
ghost use Rattle.ddt_organisations.specs.Seam.Joined.{joined_rows};
ghost use Rattle.ddt_organisations.specs.Seam.Verdict.{IsSaid};

use crate::seam::crossings::push_crossings;
use crate::seam::differences::push_differences;
use crate::seam::line::push_words;
use crate::seam::missing_items::push_missing_items;
use crate::seam::runs_by_group::{GroupRun, is_good};
use crate::seam::side::{Party, Side};
use crate::seam::verdict::{Verdict, seam_verdict};
use ddt_check::{Accepted, Fault};
use ddt_path::Name;
use ddt_register::Register;
use ddt_text::write_prefix;
use std::alloc::{AllocError, Global};
use std::collections::{BTreeMap, BTreeSet};

/// The report on the seam of two registers.
#[derive(Drop)]
pub struct SeamReport {
    /// The lines.
    pub text: Vec<u8>,
    pub is_good: bool,
}

/// The lines of the seam of two registers, and whether it is good. `foreign` has the names of the groups that the other
/// side runs. A good seam has a line for each zone that a server of one side delegates to servers of the other. Any
/// other has a line for each zone or site that isn't good, with what an identifier in it meets. None if both have more
/// than 65,535 rows together. Fails only if out of memory.
pub fn seam_lines(
    alloc: Global,
    foreign: &BTreeSet<Name>,
    ours: &Accepted,
    theirs: &Accepted,
) -> Result<Option<SeamReport>, AllocError>
    ensures { IfOk result (λ found. MatchOption found (most_rows < joined_rows ours.now theirs.now) (λ told.
        IsSaid (λ name. contains (slice_cmp nat_cmp) foreign.now name) ours.now theirs.now told.is_good)) }
{
    match seam_verdict(alloc, foreign, ours, theirs)? {
        Verdict::TooManyRows => Ok(None),
        Verdict::Refused(joined, fault) => {
            let text = refused_text(alloc, ours, theirs, &joined, fault)?;
            Ok(Some(SeamReport {
                text,
                is_good: false,
            }))
        }
        Verdict::Joined(joined, runs) => {
            let is_good = is_good(&runs);
            let text = joined_text(alloc, ours, theirs, &joined, &runs)?;
            Ok(Some(SeamReport { text, is_good }))
        }
    }
}

/// A line for each row in which the two differ. If they differ in none, a line for the rule that the rows of both
/// break.
fn refused_text(
    alloc: Global,
    ours: &Accepted,
    theirs: &Accepted,
    joined: &Register,
    fault: Fault,
) -> Result<Vec<u8>, AllocError> {
    let ours = Side::of(alloc, Party::Ours, ours)?;
    let theirs = Side::of(alloc, Party::Theirs, theirs)?;
    let mut text = Vec::new(alloc);
    push_differences(&mut text, &ours, &theirs)?;
    if text.is_empty() {
        let rule = format!(in alloc; "both\t{}\t", fault.rule)?;
        text.extend_from_slice(rule.as_bytes())?;
        push_item(&mut text, joined, fault.row)?;
        text.push(b'\n')?;
    }
    Ok(text)
}

/// Appends the prefix or the name of the item in a row.
fn push_item(text: &mut Vec<u8>, register: &Register, row: u32) -> Result<(), AllocError> {
    let (zones, sites) = (register.zones.as_slice(), register.sites.as_slice());
    if let Some(zone) = zones.iter().find(|zone| zone.row == row) {
        return write_prefix(text, zone.prefix);
    }
    if let Some(site) = sites.iter().find(|site| site.row == row) {
        return write_prefix(text, site.prefix);
    }
    match register
        .groups
        .as_slice()
        .iter()
        .find(|group| group.row == row)
    {
        Some(group) => text.extend_from_slice(group.name.as_bytes()),
        None => push_words(text, &["*"]),
    }
}

/// The lines of registers that are joined.
fn joined_text(
    alloc: Global,
    ours: &Accepted,
    theirs: &Accepted,
    joined: &Accepted,
    runs: &[GroupRun],
) -> Result<Vec<u8>, AllocError> {
    let runs_by_name = by_name(alloc, runs)?;
    let mut text = Vec::new(alloc);
    let whole = Side::of(alloc, Party::Ours, joined)?;
    if is_good(runs) {
        push_crossings(&mut text, &whole, &runs_by_name)?;
        return Ok(text);
    }
    let ours = Side::of(alloc, Party::Ours, ours)?;
    let theirs = Side::of(alloc, Party::Theirs, theirs)?;
    push_missing_items(&mut text, &whole.configs, &ours, &theirs, &runs_by_name)?;
    push_missing_items(&mut text, &whole.configs, &theirs, &ours, &runs_by_name)?;
    Ok(text)
}

fn by_name(alloc: Global, runs: &[GroupRun]) -> Result<BTreeMap<Name, GroupRun>, AllocError> {
    let mut all = BTreeMap::new(alloc);
    for run in runs {
        all.insert(run.group, *run)?;
    }
    Ok(all)
}
