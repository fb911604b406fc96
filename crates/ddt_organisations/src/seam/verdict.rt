//! The verdict on the seam of two registers.

ghost use Rattle.std.specs.Prelude.{IfOk};
ghost use Rattle.std.specs.Ordering.{nat_cmp};
ghost use Rattle.std.specs.Cmp.Lexicographic.{slice_cmp};
ghost use Rattle.std.specs.BTreeSet.{contains};
ghost use Rattle.ddt_organisations.specs.Seam.Verdict.{IsVerdict};

use crate::seam::joined::join;
use crate::seam::runs_by_group::{GroupRun, group_runs};
use ddt_check::{Accepted, Fault, check};
use ddt_path::Name;
use ddt_register::Register;
use std::alloc::{AllocError, Global};
use std::collections::BTreeSet;

/// The verdict on the seam of two registers.
#[derive(Drop)]
pub enum Verdict {
    /// They have more than 65,535 rows together.
    TooManyRows,
    /// Their rows break a rule. It has the register of these rows, and its first fault.
    Refused(Register, Fault),
    /// Their rows are an accepted register, and its groups can be run from these sides.
    Joined(Accepted, Vec<GroupRun>),
}

/// Joins two registers. If the joined one is accepted, the verdict has the sides from which the servers of each group
/// can be run; the seam is good if and only if each group can. `foreign` has the names of the groups that the other
/// side runs. Fails only if out of memory.
pub fn seam_verdict(
    alloc: Global,
    foreign: &BTreeSet<Name>,
    ours: &Accepted,
    theirs: &Accepted,
) -> Result<Verdict, AllocError>
    ensures { IfOk result (IsVerdict (λ name. contains (slice_cmp nat_cmp) foreign.now name) ours.now theirs.now) }
{
    let Some(rows) = join(alloc, ours, theirs)? else {
        return Ok(Verdict::TooManyRows);
    };
    match check(rows) {
        Ok(joined) => {
            let runs = group_runs(alloc, foreign, ours, theirs, &joined)?;
            Ok(Verdict::Joined(joined, runs))
        }
        Err((register, fault)) => Ok(Verdict::Refused(register, fault)),
    }
}
