//! The register, of two, from which the servers of each group can be run.

ghost use Rattle.std.specs.Prelude.{◌≡◌, ℕ, Bool, List, not, is_some, map, IfOk};
ghost use Rattle.std.specs.List.{list_all};
ghost use Rattle.std.specs.Ordering.{nat_cmp};
ghost use Rattle.std.specs.Cmp.Lexicographic.{slice_cmp};
ghost use Rattle.std.specs.BTreeSet.{contains};
ghost use Rattle.ddt_register.specs.declared.register.Register.{Register as ARegister};
ghost use Rattle.ddt_plan.specs.Groups.{change_of_group};
ghost use Rattle.ddt_organisations.specs.Seam.Seam.{run_of, is_good_run as is_good_run_of};

use ddt_check::Accepted;
use ddt_path::Name;
use ddt_plan::group_changes;
use ddt_register::Group;
use std::alloc::{AllocError, Global};
use std::collections::BTreeSet;

/// A group of the joined register, and from which registers its servers can be run: those that give them the
/// configuration that the joined register gives them.
#[derive(Clone, Copy, Debug, PartialEq, Eq)]
pub struct GroupRun {
    /// The name of the group.
    pub group: Name,
    /// Whether the other side is to run its servers.
    pub is_foreign: bool,
    /// Whether its servers can be run from our register.
    pub from_ours: bool,
    /// Whether its servers can be run from theirs.
    pub from_theirs: bool,
}

impl GroupRun {
    /// Whether a side can run the group; only theirs counts if it is foreign.
    pub fn is_good(&self) -> bool
        ensures { result ≡ is_good_run_of self.now }
    {
        self.from_theirs || (!self.is_foreign && self.from_ours)
    }
}

/// The groups of the register that joins ours and theirs, in the order of its rows, each with the sides from which its
/// servers can be run (RFC 8111, section 4). `foreign` has the names of the groups that the other side runs. The seam
/// is good if and only if each of them is. Fails only if out of memory.
pub fn group_runs(
    alloc: Global,
    foreign: &BTreeSet<Name>,
    ours: &Accepted,
    theirs: &Accepted,
    joined: &Accepted,
) -> Result<Vec<GroupRun>, AllocError>
    ensures { IfOk result (λ runs. runs.items ≡ map (run_of (λ name. contains (slice_cmp nat_cmp) foreign.now name)
        ours.now theirs.now joined.now) joined.now.groups) }
{
    let ours_changed = changed_groups(alloc, ours, joined)?;
    let theirs_changed = changed_groups(alloc, theirs, joined)?;
    let mut runs = Vec::new(alloc);
    for group in joined.register().groups.as_slice() {
        runs.push(run_of_group(foreign, &ours_changed, &theirs_changed, group))?;
    }
    Ok(runs)
}

/// From which registers a group can be run, by the names of the groups to which each side gives another configuration.
fn run_of_group(
    foreign: &BTreeSet<Name>,
    ours_changed: &BTreeSet<Name>,
    theirs_changed: &BTreeSet<Name>,
    group: &Group,
) -> GroupRun
    ensures { (ours theirs joined : ARegister)
        → ((name : List ℕ) → contains (slice_cmp nat_cmp) ours_changed.now name
        ≡ is_some (change_of_group ours joined name))
        → ((name : List ℕ) → contains (slice_cmp nat_cmp) theirs_changed.now name
        ≡ is_some (change_of_group theirs joined name))
        → result ≡ run_of (λ name. contains (slice_cmp nat_cmp) foreign.now name) ours theirs joined group.now }
{
    GroupRun {
        group: group.name,
        is_foreign: foreign.contains(&group.name),
        from_ours: !ours_changed.contains(&group.name),
        from_theirs: !theirs_changed.contains(&group.name),
    }
}

/// The names of the groups to which a side gives no configuration, or another one than the joined register gives.
fn changed_groups(
    alloc: Global,
    side: &Accepted,
    joined: &Accepted,
) -> Result<BTreeSet<Name>, AllocError>
    ensures { IfOk result (λ names. (name : List ℕ) → contains (slice_cmp nat_cmp) names name
        ≡ is_some (change_of_group side.now joined.now name)) }
{
    let changes = group_changes(alloc, side, joined)?;
    let mut names = BTreeSet::new(alloc);
    for change in &changes {
        names.insert(change.name)?;
    }
    Ok(names)
}

/// Whether each group can be run. For all groups of a joined register: whether the seam is good.
pub fn is_good(runs: &[GroupRun]) -> bool
    ensures { result ≡ list_all is_good_run_of runs.now }
{
    runs.iter().all(|run| run.is_good())
}
