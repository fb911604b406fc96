//! What an honest server answers, over the lists of the register.

ghost use Rattle.std.specs.Prelude.{◌≡◌};
ghost use Rattle.ddt_path.specs.Path.{xeid_path};
ghost use Rattle.ddt_check.specs.Says.{says as says_of, says_from, referral_to};

use crate::accepted::Accepted;
use crate::assignment::{assign, servers_of};
use crate::lookup::{next_zone, served_zone};
use ddt_path::{Locator, Prefix, ReferralRecord, Xeid};
use ddt_register::Zone;

/// The record that an honest server with this locator answers for an identifier (RFC 8111, sections 6.1, 7.1 and 7.2).
/// It is NOT-AUTHORITATIVE where none of its zones covers the identifier, and a referral where the longest one that
/// does is delegated further. Else it is the record of the assignment. The call allocates nothing.
pub fn says(accepted: &Accepted, l: Locator, x: Xeid) -> ReferralRecord
    ensures { result ≡ says_of accepted.now l (xeid_path x) }
{
    match served_zone(accepted.register(), l, Prefix::host(x)) {
        Some(zone) => say_from(accepted, zone, x),
        None => ReferralRecord::not_authoritative(x),
    }
}

fn say_from(accepted: &Accepted, zone: Zone, x: Xeid) -> ReferralRecord
    ensures { result ≡ says_from accepted.now zone (xeid_path x) }
{
    match next_zone(accepted.register(), zone.prefix.len(), Prefix::host(x)) {
        Some(child) => refer_to(accepted, child),
        None => ReferralRecord::of(assign(accepted, x)),
    }
}

fn refer_to(accepted: &Accepted, child: Zone) -> ReferralRecord
    ensures { result ≡ referral_to accepted.now child }
{
    let servers = servers_of(accepted, child.group);
    ReferralRecord::referral(child.kind, child.prefix, servers)
}
