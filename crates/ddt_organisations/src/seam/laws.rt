//! Laws of two registers and of the one that joins them, over the definitions alone: the contracts of functions that do
//! nothing.

ghost use Rattle.ddt_organisations.specs.Seam.Laws.{SidesAnswerAsJoined, GoodSeamsAreRun, WalksEndInTheAssignment};

use ddt_check::{
    each_identifier_has_a_zone, each_zone_has_servers, honest_servers_lead_to_the_assignment,
};
use ddt_compile::a_compiled_configuration_answers_honestly;

/// If a group can be run from one side, its configuration there answers as an honest server of the joined register does
/// (RFC 8111, sections 6.1, 7.1 and 7.2).
pub fn sides_answer_as_joined()
    ensures { SidesAnswerAsJoined }
{
    a_compiled_configuration_answers_honestly();
}

/// If a seam is good, each group of the joined register has such a configuration on one side.
pub fn good_seams_are_run()
    ensures { GoodSeamsAreRun }
{}

/// If each server is run from a side that can run it, following referrals from the root, over the servers of both
/// sides, ends in what longest match over the joined register assigns (RFC 8111, section 7.3).
pub fn walks_end_in_the_assignment()
    ensures { WalksEndInTheAssignment }
{
    sides_answer_as_joined();
    each_identifier_has_a_zone();
    each_zone_has_servers();
    honest_servers_lead_to_the_assignment();
}
