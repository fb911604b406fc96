//! Laws of how lookups end at a Map-Resolver, and where requests of ITRs go on to. Each function states a law of the
//! definitions, and does nothing.

ghost use Rattle.ddt_laws.specs.PositiveEnds.{EndsAreAssigned, RequestsGoToTheAssigned};
ghost use Rattle.ddt_laws.specs.ReplacedEnds.{LookupsEndTruly};

use ddt_check::honest_servers_lead_to_the_assignment;
use ddt_sim::{a_step_keeps_a_resolver_sound, a_step_keeps_starts_true, honest_replies_are_inside};
use ddt_wire::referral_laws;

/// Over any rounds, ticks, hastened lookups and renewals of a Map-Resolver: if packets from the servers that were asked
/// say what the register says, in any spelling that is read, each lookup that ends with an outcome ends with what the
/// register assigns to each request that waited for it. Each request that goes on has an identifier that is registered,
/// and goes to one of the servers of its assignment (RFC 8111, sections 7.2 and 7.3).
///
/// The run is that of the clauses of `MapResolver::receive`, `tick_due` and `hasten` of `ddt_daemon`, which
/// `ddtd resolve` calls.
pub fn lookups_end_as_assigned()
    ensures ends { EndsAreAssigned }
    ensures onward { RequestsGoToTheAssigned }
{
    a_step_keeps_a_resolver_sound();
    a_step_keeps_starts_true();
    honest_replies_are_inside();
}

/// The same where registers replace each other: if each reply says what a register says that was in force between
/// request and reply, each lookup that ends with an outcome ends with one that was true at a moment since it began.
/// A reply that reached beyond its zone, and was cut to it, is true of that zone. Each request that goes on goes to a
/// server that a register assigned which was in force less than 2,000 milliseconds before.
pub fn lookups_end_truly()
    ensures { LookupsEndTruly }
{
    honest_servers_lead_to_the_assignment();
    referral_laws();
}
