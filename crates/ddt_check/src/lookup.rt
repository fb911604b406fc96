//! Look-ups in the lists of a register: the zone and the site of a prefix, the zones of a server, the group of a name.

ghost use Rattle.std.specs.Prelude.{◌≡◌};
ghost use Rattle.std.specs.Option.{option_copied};
ghost use Rattle.ddt_check.specs.Says.{next_zone as next_zone_of};
ghost use Rattle.ddt_path.specs.Matching.{longest_match as longest_match_of};
ghost use Rattle.ddt_check.specs.Zones.{zone_of as zone_of_path, site_of as site_of_path, group_named as group_of_name, locators_of as locators_of_name, served_zones};

use ddt_path::{Locator, Name, Preference, Prefix, best_match, longest_match};
use ddt_register::{Group, Register, Site, Zone};

/// The longest zone that covers a prefix; of equal ones the first.
pub fn zone_of(register: &Register, x: Prefix) -> Option<Zone>
    ensures { result ≡ zone_of_path register.now x }
{
    longest_match(register.zones.as_slice(), x).copied()
}

/// The longest zone that a server with the locator serves and that covers a prefix; of equal ones the first.
pub fn served_zone(register: &Register, l: Locator, x: Prefix) -> Option<Zone>
    ensures { result ≡ longest_match_of (λ z. z.prefix) (served_zones register.now l) x }
{
    let zones = register.zones.as_slice();
    best_match(
        Preference::Longest,
        zones,
        x,
        |z| locators_of(register, z.group).contains(&l),
    )
    .copied()
}

/// The shortest zone of those longer than `len` that cover a prefix; of equal ones the first.
pub fn next_zone(register: &Register, len: u8, x: Prefix) -> Option<Zone>
    ensures { result ≡ next_zone_of register.now len x }
{
    let zones = register.zones.as_slice();
    best_match(Preference::Shortest, zones, x, |z| len < z.prefix.len()).copied()
}

/// The longest site that covers a prefix; of equal ones the first.
pub fn site_of(register: &Register, x: Prefix) -> Option<&Site>
    ensures { option_copied result ≡ site_of_path register.now x }
{
    longest_match(register.sites.as_slice(), x)
}

/// The first group row of a name.
pub fn group_named(register: &Register, name: Name) -> Option<&Group>
    ensures { option_copied result ≡ group_of_name register.now name }
{
    register.groups.as_slice().iter().find(|g| g.name == name)
}

/// The locators of the group of a name; none where no row has the name.
pub fn locators_of(register: &Register, name: Name) -> &[Locator]
    ensures { result.now ≡ locators_of_name register.now name }
{
    match group_named(register, name) {
        Some(group) => group.locators.as_slice(),
        None => &[],
    }
}
