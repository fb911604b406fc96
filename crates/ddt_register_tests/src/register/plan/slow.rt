//! Plain bodies, step by step as the definitions say: the reference for the walk.

ghost use Rattle.std.specs.Prelude.{◌≡◌, ◌&&◌, not};
ghost use Rattle.std.specs.List.{list_all};
ghost use Rattle.ddt_path.specs.Covers.{is_strictly_below};

use ddt_path::{Prefix, Xeid};
use ddt_register::{Register, Site, Zone};

/// Whether no zone and no site is strictly below a prefix.
fn is_undivided(register: &Register, at: Prefix) -> bool
    ensures { result ≡ (list_all (λ z. not (is_strictly_below z.prefix at)) register.now.zones
        && list_all (λ s. not (is_strictly_below s.prefix at)) register.now.sites) }
{
    no_zone_is_below(register.zones.as_slice(), at)
        && no_site_is_below(register.sites.as_slice(), at)
}

fn no_zone_is_below(zones: &[Zone], at: Prefix) -> bool
    ensures { result ≡ list_all (λ z. not (is_strictly_below z.prefix at)) zones.now }
{
    zones.iter().all(|zone| !zone.prefix.is_strictly_below(at))
}

fn no_site_is_below(sites: &[Site], at: Prefix) -> bool
    ensures { result ≡ list_all (λ s. not (is_strictly_below s.prefix at)) sites.now }
{
    sites.iter().all(|site| !site.prefix.is_strictly_below(at))
}

/// The block of an identifier over the zones and sites of several registers, inside a prefix that covers it: of its
/// fronts, from that prefix on, the first that none of these is strictly below.
pub fn block_inside(registers: &[&Register], inside: Prefix, x: Xeid) -> Prefix {
    for len in inside.len()..x.path_len() {
        let front = Prefix::cut(x, len);
        if registers
            .iter()
            .all(|register| is_undivided(register, front))
        {
            return front;
        }
    }
    Prefix::host(x)
}
