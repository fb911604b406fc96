//! The organisation whose register is in charge of an identifier.

ghost use Rattle.std.specs.Prelude.{◌≡◌, false, IfSome, IfNone};
ghost use Rattle.ddt_path.specs.Path.{xeid_path};
ghost use Rattle.ddt_check.specs.Zones.{zone_of as zone_of_path};
ghost use Rattle.ddt_organisations.specs.Meets.{is_run_by_some};
ghost use Rattle.ddt_organisations.specs.Laws.{TreesHandOn};
ghost use Rattle.ddt_organisations.specs.Faults.{MakeTree};
ghost use Rattle.ddt_organisations.specs.Asked.{IsInChargeAt, IsRunner, LeadsNowhere};

use crate::laws::trees_hand_on;
use crate::organisation::Organisation;
use ddt_path::{Name, Prefix, Xeid, longest_match};
use ddt_register::Zone;

/// The most organisations that refer an identifier to another one, in a tree: each refers to servers of a longer
/// prefix.
const MOST_HOPS: u8 = 162;

/// The index, from 0, of the organisation whose register is in charge of an identifier (RFC 8111, section 4). The
/// search begins at the first organisation. One that runs its longest zone that covers the identifier is in charge;
/// else the search continues at one that runs the group of that zone. None only if they are no tree: no organisation
/// runs the group, or the search doesn't end.
pub fn in_charge(all: &[Organisation], x: Xeid) -> Option<usize>
    ensures found { IfSome result (IsInChargeAt all.now (xeid_path x) 0) }
    ensures none { IfNone result (MakeTree all.now → ⊥) }
{
    trees_hand_on();
    let prefix = Prefix::host(x);
    // No prefix has more than 161 digits.
    let _len = prefix.len();
    asked(all, 0, prefix, MOST_HOPS)
}

/// The index of the organisation in charge, if the search begins at the one with index `number`.
fn asked(all: &[Organisation], number: usize, x: Prefix, hops: u8) -> Option<usize>
    requires { TreesHandOn }
    ensures found { IfSome result (IsInChargeAt all.now x number) }
    ensures none { IfNone result (LeadsNowhere all.now x number hops) }
{
    let organisation = all.get(number)?;
    let zone = zone_of(organisation, x)?;
    if organisation.runs(zone.group) {
        return Some(number);
    }
    if hops == 0 {
        return None;
    }
    asked(all, runner(all, zone.group)?, x, hops - 1)
}

/// The longest zone of an organisation's register that covers an identifier.
fn zone_of(organisation: &Organisation, x: Prefix) -> Option<Zone>
    ensures { result ≡ zone_of_path organisation.now.register x }
{
    longest_match(organisation.zones(), x).copied()
}

/// The index of the first organisation that runs the group of a name.
fn runner(all: &[Organisation], name: Name) -> Option<usize>
    ensures found { IfSome result (IsRunner all.now name) }
    ensures none { IfNone result (is_run_by_some all.now name ≡ false) }
{
    for (number, organisation) in all.iter().enumerate() {
        if organisation.runs(name) {
            return Some(number);
        }
    }
    None
}
