//! The rules on zones. A root is searched in the order of the rows. The other rules read zones that are sorted by their
//! prefixes, then by their rows.

ghost use Rattle.std.specs.Prelude.{◌≡◌, ◌<◌, ◌≤◌, ◌==◌, ◌&&◌, ◌||◌, not, nat_lt, is_some, true, false};
ghost use Rattle.std.specs.Prelude.{IsTrue, IsPermutation, map, length, if◌then◌else◌};
ghost use Rattle.std.specs.List.Sorted.{IsPartitionPoint};
ghost use Rattle.std.specs.Ordering.{nat_cmp, is_lt};
ghost use Rattle.std.specs.Cmp.Lexicographic.{slice_cmp};
ghost use Rattle.ddt_path.specs.Names.{is_name};
ghost use Rattle.ddt_check.specs.Fronts.{name_front as name_front_of};
ghost use Rattle.std.specs.List.{list_any};
ghost use Rattle.std.specs.Option.{option_map, option_map_or, option_copied};
ghost use Rattle.ddt_path.specs.Covers.{covers, is_strictly_below};
ghost use Rattle.ddt_register.specs.declared.register.Register.{Register as ARegister};
ghost use Rattle.ddt_register.specs.Rows.{first_row as first_row_of};
ghost use Rattle.ddt_check.specs.Rules.{IsLeastRow, broken, earlier_zone};
ghost use Rattle.ddt_check.specs.Rules.{is_root as is_root_zone, is_wrong_root as is_wrong_root_of};
ghost use Rattle.ddt_check.specs.Order.{AreZonesInOrder, AreGroupsInOrder};
ghost use Rattle.ddt_check.specs.Zones.{is_ms as is_ms_zone, is_same_role, group_named as group_of_name};
ghost use Rattle.ddt_check.specs.Sorted.{IsLeastOfZones, IsLeastOfBoth};

use crate::entries::SortEntry;
use crate::fault::Rule;
use crate::rules::{lower, lower_if};
use crate::sort_key_fronts::name_front;
use ddt_path::{Name, Role};
use ddt_register::{Group, Register, Zone, first_row};

fn is_root(z: &Zone) -> bool
    ensures { result ≡ is_root_zone z.now }
{
    z.prefix.len() == 0
}

/// Whether a zone covers everything.
fn has_root(register: &Register) -> bool
    ensures { result ≡ list_any is_root_zone register.now.zones }
{
    register.zones.as_slice().iter().any(|z| is_root(z))
}

fn is_after_root(register: &Register, z: &Zone) -> bool
    ensures { result ≡ earlier_zone register.now z.now is_root_zone }
{
    let zones = register.zones.as_slice();
    zones.iter().any(|y| y.row < z.row && is_root(y))
}

fn is_wrong_root(register: &Register, z: &Zone) -> bool
    ensures { result ≡ is_wrong_root_of register.now z.now }
{
    is_root(z) && (z.kind == Role::Ms || is_after_root(register, z))
}

/// The least row of a root of Map-Servers, or of a root after the first. It reads at most two roots.
fn wrong_root(register: &Register) -> Option<u32>
    ensures { result ≡ first_row_of (λ z. z.row) (is_wrong_root_of register.now) register.now.zones }
{
    first_row(register.zones.as_slice(), |z| is_wrong_root(register, z))
}

/// The least row that breaks the rule NoRoot: row 0 if there is no root.
pub fn no_root(register: &Register) -> Option<u32>
    ensures { IsLeastRow (broken register.now Rule.NoRoot) result }
{
    if has_root(register) {
        wrong_root(register)
    } else {
        Some(0)
    }
}

/// Whether a zone is strictly inside the zone `top`.
fn is_under(top: Option<&Zone>, z: &Zone) -> bool
    ensures { result
        ≡ option_map_or (is_strictly_below z.now.prefix) (option_map (λ y. y.prefix) (option_copied top.entry)) false }
{
    match top {
        Some(top) => z.prefix.is_strictly_below(top.prefix),
        None => false,
    }
}

/// Whether the zone `top` covers a zone.
fn is_within(top: Option<&Zone>, z: &Zone) -> bool
    ensures { result
        ≡ option_map_or (λ q. covers q z.now.prefix) (option_map (λ y. y.prefix) (option_copied top.entry)) false }
{
    match top {
        Some(top) => top.prefix.covers(z.prefix),
        None => false,
    }
}

/// Whether a zone is to replace `top`: a zone of Map-Servers that `top` doesn't cover.
fn is_top(top: Option<&Zone>, z: &Zone) -> bool
    ensures { result ≡ (is_ms_zone z.now.kind && not (option_map_or (λ q. covers q z.now.prefix)
        (option_map (λ y. y.prefix) (option_copied top.entry)) false)) }
{
    z.kind == Role::Ms && !is_within(top, z)
}

/// The least row of a zone strictly below a zone of Map-Servers. In this order the zones inside a zone follow it, so it
/// is enough to remember the widest zone of Map-Servers that may cover the next ones.
pub fn below_map_server(entries: &[SortEntry<Zone>]) -> Option<u32>
    requires { AreZonesInOrder (map (λ e. e.item.now) entries.now) }
    ensures { IsLeastOfZones (map (λ e. e.item.now) entries.now) Rule.BelowMapServer result }
{
    let mut least = None;
    let mut top: Option<&Zone> = None;
    for entry in entries {
        let z = entry.item;
        if is_under(top, z) {
            least = Some(lower(least, z.row));
        }
        if is_top(top, z) {
            top = Some(z);
        }
    }
    least
}

/// A name that is searched, with the first 64 bits of its sort key.
#[derive(Clone, Copy)]
struct Sought {
    name: Name,
    front: u64,
    ghost fronted: { front ≡ name_front_of name },
    ghost is_name: { IsTrue (is_name name) },
}

impl Sought {
    ghost use Rattle.std.specs.Prelude.{◌≡◌};

    fn of(name: Name) -> Sought
        ensures { result.name ≡ name }
    {
        let _bytes = name.as_bytes();
        let front = name_front(&name);
        Sought { name, front }
    }
}

/// Whether a group's name sorts before the name searched, by their numbers and, if these are equal, by the names.
fn is_before_by_front(entry: &SortEntry<Group>, sought: &Sought) -> bool
    ensures { result ≡ (nat_lt entry.now.front sought.now.front || (entry.now.front == sought.now.front
        && is_lt (slice_cmp nat_cmp entry.now.item.now.name sought.now.name))) }
{
    entry.front < sought.front || (entry.front == sought.front && entry.item.name < sought.name)
}

/// Whether a group's name sorts before the name searched.
fn is_before(entry: &SortEntry<Group>, sought: &Sought) -> bool
    ensures { result ≡ is_lt (slice_cmp nat_cmp entry.now.item.now.name sought.now.name) }
{
    is_before_by_front(entry, sought)
}

/// `number` if `counts`, else 0. The processor chooses without a branch.
fn counted(counts: bool, number: usize) -> usize
    ensures { result ≡ (if counts then number else 0) }
{
    if counts { number } else { 0 }
}

/// The number of entries with a lower front, by binary search. No step branches on what it finds.
fn lower_fronts(groups: &[SortEntry<Group>], front: u64) -> usize
    requires { AreGroupsInOrder (map (λ e. e.item.now) groups.now) }
    ensures bound { result ≤ length groups.now }
    ensures parted { IsPartitionPoint (λ e. e.front < front) (λ e. front ≤ e.front) groups.now result }
{
    let mut base = 0;
    let mut size = groups.len();
    while size > 0 {
        let half = size - size / 2;
        let middle = base + half - 1;
        let step = counted(groups[middle].front < front, half);
        base += step;
        size /= 2;
    }
    base
}

/// The place of the first group that doesn't sort before a name. The names are read only if the numbers are equal.
fn place_of(groups: &[SortEntry<Group>], sought: &Sought) -> usize
    requires { AreGroupsInOrder (map (λ e. e.item.now) groups.now) }
    ensures { IsPartitionPoint (λ g. is_lt (slice_cmp nat_cmp g.name sought.now.name) ≡ true)
        (λ g. is_lt (slice_cmp nat_cmp g.name sought.now.name) ≡ false) (map (λ e. e.item.now) groups.now) result }
{
    let at = lower_fronts(groups, sought.front);
    if at < groups.len() && is_before(&groups[at], sought) {
        return groups.partition_point(|entry| is_before(entry, sought));
    }
    at
}

/// The first group row of a name.
fn group_named<'a>(groups: &[SortEntry<'a, Group>], name: Name) -> Option<&'a Group>
    requires { AreGroupsInOrder (map (λ e. e.item.now) groups.now) }
    ensures { (r : ARegister) → IsPermutation r.groups (map (λ e. e.item.now) groups.now)
        → option_copied result ≡ group_of_name r name }
{
    let sought = Sought::of(name);
    let at = place_of(groups, &sought);
    if at < groups.len() {
        let group = groups[at].item;
        if group.name == name {
            return Some(group);
        }
    }
    None
}

/// Whether the group has no row.
fn is_unknown(group: Option<&Group>) -> bool
    ensures { result ≡ not (is_some (option_copied group.entry)) }
{
    group.is_none()
}

/// Whether a zone's group is of the other kind; false if the group has no row.
fn is_of_other_role(group: Option<&Group>, z: &Zone) -> bool
    ensures { result ≡ option_map_or (λ g. not (is_same_role g.kind z.now.kind)) (option_copied group.entry) false }
{
    match group {
        Some(group) => group.kind != z.kind,
        None => false,
    }
}

/// The least row of a zone whose group has no row, and of one whose group is of the other kind.
#[derive(Clone, Copy)]
pub struct WrongGroups {
    pub unknown: Option<u32>,
    pub role: Option<u32>,
}

/// The least rows of zones of wrong groups. Each zone's group is looked up once.
pub fn of_wrong_groups(zones: &[Zone], groups: &[SortEntry<Group>]) -> WrongGroups
    requires { AreGroupsInOrder (map (λ e. e.item.now) groups.now) }
    ensures unknown { IsLeastOfBoth zones.now (map (λ e. e.item.now) groups.now) Rule.UnknownGroup result.unknown }
    ensures role { IsLeastOfBoth zones.now (map (λ e. e.item.now) groups.now) Rule.Role result.role }
{
    let mut found = WrongGroups {
        unknown: None,
        role: None,
    };
    for z in zones {
        let group = group_named(groups, z.group);
        found.unknown = lower_if(found.unknown, is_unknown(group), z.row);
        found.role = lower_if(found.role, is_of_other_role(group, z), z.row);
    }
    found
}
