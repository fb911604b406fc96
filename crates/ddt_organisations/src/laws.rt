//! Laws of the registers of many organisations, over the definitions alone: the contracts of functions that do nothing.

ghost use Rattle.ddt_organisations.specs.Laws.{WalksEndInCharge, SomeoneIsInCharge, TreesHandOn};

use crate::seam::{good_seams_are_run, sides_answer_as_joined};
use ddt_check::{
    each_identifier_has_a_zone, each_zone_has_servers, honest_servers_lead_to_the_assignment,
};
use ddt_compile::a_compiled_configuration_answers_honestly;

/// If all seams of a tree of organisations are good, following referrals from the root, over the servers of all of
/// them, ends in what the register in charge of the identifier assigns (RFC 8111, section 7.3). No register has the
/// rows of all organisations, so together they may have more than the most rows of a register.
pub fn walks_end_in_charge()
    ensures { WalksEndInCharge }
{
    a_compiled_configuration_answers_honestly();
    sides_answer_as_joined();
    good_seams_are_run();
    each_identifier_has_a_zone();
    each_zone_has_servers();
    honest_servers_lead_to_the_assignment();
}

/// In such a tree each identifier has a register in charge of it.
pub fn someone_is_in_charge()
    ensures { SomeoneIsInCharge }
{
    a_compiled_configuration_answers_honestly();
    sides_answer_as_joined();
    good_seams_are_run();
    each_identifier_has_a_zone();
    each_zone_has_servers();
    honest_servers_lead_to_the_assignment();
}

/// In such a tree, an organisation that doesn't run its longest zone for an identifier refers to one that runs a longer
/// zone of its own register.
pub(crate) fn trees_hand_on()
    ensures { TreesHandOn }
{
    a_compiled_configuration_answers_honestly();
    sides_answer_as_joined();
    good_seams_are_run();
    each_identifier_has_a_zone();
    each_zone_has_servers();
    honest_servers_lead_to_the_assignment();
}
