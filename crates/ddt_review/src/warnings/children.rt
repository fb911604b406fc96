//! Which zones have zones directly below them, and which have some that aren't of the group directly above.

ghost use Rattle.std.specs.Prelude.{◌≡◌, ◌||◌, false, ℕ, List, IfOk, OnOk};
ghost use Rattle.std.specs.Option.{option_copied, option_map_or};
ghost use Rattle.std.specs.Ordering.{nat_cmp};
ghost use Rattle.std.specs.Cmp.Lexicographic.{slice_cmp};
ghost use Rattle.std.specs.BTreeSet.{contains};
ghost use Rattle.ddt_review.specs.Warnings.Found.{is_marked, is_outside_above, HasParents, HasMixed, IsTree};

use crate::warnings::zone_tree::ZoneTree;
use ddt_path::Prefix;
use ddt_register::Zone;
use std::alloc::{AllocError, Global};
use std::collections::BTreeSet;

/// The prefixes of zones that have zones directly below them.
#[derive(Drop)]
pub struct Children {
    /// The zones that have any.
    pub parents: BTreeSet<Prefix>,
    /// The zones that have one whose group isn't the group of the zone directly above them.
    pub mixed: BTreeSet<Prefix>,
}

/// The zones that have zones directly below them. Fails only if out of memory.
pub fn children_of(alloc: Global, tree: &ZoneTree) -> Result<Children, AllocError>
    requires { IsTree tree.now }
    ensures parents { IfOk result (λ found. HasParents tree.now.register.now found.parents) }
    ensures mixed { IfOk result (λ found. HasMixed tree.now.register.now found.mixed) }
{
    let mut parents = BTreeSet::new(alloc);
    let mut mixed = BTreeSet::new(alloc);
    for zone in tree.register.zones.as_slice() {
        let parent = tree.zone_above(zone);
        mark(&mut parents, parent, true)?;
        mark(&mut mixed, parent, is_outside(tree, zone, parent))?;
    }
    Ok(Children { parents, mixed })
}

/// Marks the prefix of a zone, if there is one and the mark is wanted.
fn mark(
    marks: &mut BTreeSet<Prefix>,
    zone: Option<&Zone>,
    is_wanted: bool,
) -> Result<(), AllocError>
    ensures { OnOk result ((p : List ℕ) → contains (slice_cmp nat_cmp) marks.new p
        ≡ (contains (slice_cmp nat_cmp) marks.old p || is_marked (option_copied zone.entry) is_wanted p)) }
{
    match zone {
        Some(zone) if is_wanted => {
            marks.insert(zone.prefix)?;
        }
        _ => {}
    }
    Ok(())
}

/// Whether a zone is of another group than the zone two levels above it; false if there is no such zone.
fn is_outside(tree: &ZoneTree, zone: &Zone, parent: Option<&Zone>) -> bool
    requires { IsTree tree.now }
    ensures { result
        ≡ option_map_or (is_outside_above tree.now.register.now zone.now) (option_copied parent.entry) false }
{
    let Some(parent) = parent else {
        return false;
    };
    match tree.zone_above(parent) {
        Some(above) => zone.group != above.group,
        None => false,
    }
}
