//! The register that joins two: the rows of ours, and the rows of theirs that ours lacks.

ghost use Rattle.std.specs.Prelude.{◌≡◌, ◌<◌, ◌≤◌, ◌+◌, ◌++◌, Bool, true, length, map, IfOk, MatchOption};
ghost use Rattle.std.specs.List.{filter};
ghost use Rattle.ddt_path.specs.Matching.{AnswersAs};
ghost use Rattle.ddt_register.specs.Rows.{most_rows, zone_rows, site_rows, group_rows};
ghost use Rattle.ddt_organisations.specs.Seam.Joined.{IsJoined, joined_rows, numbered, zone_text, site_text, group_text, lacks_zone as lacks_zone_of, lacks_site as lacks_site_of, lacks_group as lacks_group_of};

use crate::seam::items_by_key::{
    etrs_by_prefix, lacks_group, lacks_site, lacks_zone, servers_by_name, zones_by_prefix,
};
use crate::seam::row::{Row, row_after};
use ddt_check::Accepted;
use ddt_register::{Group, Register, Site, Zone};
use std::alloc::{AllocError, Global};

/// The register that has the rows of both, each once, with new numbers: first the groups, then the zones, then the
/// sites, each list with ours before theirs. Rows that are equal but for their numbers are one row. None if there are
/// more than 65,535. If the two registers differ in a row, it has both, and `ddt_check` refuses it. Fails only if out
/// of memory.
pub fn join(
    alloc: Global,
    ours: &Accepted,
    theirs: &Accepted,
) -> Result<Option<Register>, AllocError>
    ensures { IfOk result (λ found. MatchOption found (most_rows < joined_rows ours.now theirs.now)
        (IsJoined ours.now theirs.now)) }
{
    let groups = joined_groups(alloc, ours, theirs)?;
    let zones = joined_zones(alloc, groups.len(), ours, theirs)?;
    let before = groups.len().saturating_add(zones.len());
    let sites = joined_sites(alloc, before, ours, theirs)?;
    Ok(Register::of(zones, sites, groups))
}

fn joined_zones(
    alloc: Global,
    before: usize,
    ours: &Accepted,
    theirs: &Accepted,
) -> Result<Vec<Zone>, AllocError>
    ensures text { IfOk result (λ rows. map zone_text rows.items ≡ map zone_text ours.now.zones
        ++ map zone_text (filter (lacks_zone_of ours.now) theirs.now.zones)) }
    ensures numbered { IfOk result (λ rows. before + length rows.items ≤ most_rows
        → numbered before (zone_rows rows.items) ≡ true) }
{
    let known = zones_by_prefix(alloc, ours)?;
    let zones = ours.register().zones.as_slice();
    let rows = appended(alloc, Vec::new(alloc), before, zones, |_| true)?;
    let zones = theirs.register().zones.as_slice();
    appended(alloc, rows, before, zones, |zone| lacks_zone(&known, zone))
}

fn joined_sites(
    alloc: Global,
    before: usize,
    ours: &Accepted,
    theirs: &Accepted,
) -> Result<Vec<Site>, AllocError>
    ensures text { IfOk result (λ rows. map site_text rows.items ≡ map site_text ours.now.sites
        ++ map site_text (filter (lacks_site_of ours.now) theirs.now.sites)) }
    ensures numbered { IfOk result (λ rows. before + length rows.items ≤ most_rows
        → numbered before (site_rows rows.items) ≡ true) }
{
    let known = etrs_by_prefix(alloc, ours)?;
    let sites = ours.register().sites.as_slice();
    let rows = appended(alloc, Vec::new(alloc), before, sites, |_| true)?;
    let sites = theirs.register().sites.as_slice();
    appended(alloc, rows, before, sites, |site| lacks_site(&known, site))
}

fn joined_groups(
    alloc: Global,
    ours: &Accepted,
    theirs: &Accepted,
) -> Result<Vec<Group>, AllocError>
    ensures text { IfOk result (λ rows. map group_text rows.items ≡ map group_text ours.now.groups
        ++ map group_text (filter (lacks_group_of ours.now) theirs.now.groups)) }
    ensures numbered { IfOk result (λ rows. length rows.items ≤ most_rows
        → numbered 0 (group_rows rows.items) ≡ true) }
{
    let known = servers_by_name(alloc, ours)?;
    let groups = ours.register().groups.as_slice();
    let rows = appended(alloc, Vec::new(alloc), 0, groups, |_| true)?;
    let groups = theirs.register().groups.as_slice();
    appended(alloc, rows, 0, groups, |group| lacks_group(&known, group))
}

/// The rows, followed by the items that pass a test. The numbers of these follow those of `before` other rows.
fn appended<T: Row, F: Fn(&T) -> bool + Drop>(
    alloc: Global,
    rows: Vec<T>,
    before: usize,
    items: &[T],
    test: F,
) -> Result<Vec<T>, AllocError>
    requires { F.IsAlwaysCallable test }
    ensures text { IfOk result (λ all. (passes : T → Bool) → AnswersAs F.Fn test passes
        → map T.text all.items ≡ map T.text rows.items ++ map T.text (filter passes items.now)) }
    ensures numbered { IfOk result (λ all. before + length all.items ≤ most_rows
        → numbered before (map T.row_of rows.items) ≡ true → numbered before (map T.row_of all.items) ≡ true) }
    ensures longer { IfOk result (λ all. length rows.items ≤ length all.items) }
{
    let mut all = rows;
    for item in items {
        if test(item) {
            let row = row_after(before.saturating_add(all.len()));
            all.push(item.in_row(alloc, row)?)?;
        }
    }
    Ok(all)
}
