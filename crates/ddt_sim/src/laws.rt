//! Laws of a resolver over honest servers. Each function states a law of the definitions, and does nothing.

ghost use Rattle.ddt_sim.specs.Sound.{NewResolversAreSound, StepsKeepSoundness, HasteningKeepsSoundness, TimeKeepsSoundness, CancellingKeepsSoundness, ForgettingKeepsSoundness};
ghost use Rattle.ddt_sim.specs.Reply.{RequestsAreUnderstood};
ghost use Rattle.ddt_sim.specs.RunLaws.{LawsOfRuns};
ghost use Rattle.ddt_sim.specs.Trail.{HonestTrailsAreShort};
ghost use Rattle.ddt_sim.specs.Inside.{HonestRepliesAreInside, CutNegativesHold, NewStartsAreTrue, StepsKeepStarts, TimeKeepsStarts, HasteningKeepsStarts, CancellingKeepsStarts, ForgettingKeepsStarts};
ghost use Rattle.ddt_sim.specs.Passes.{PassesAreShort, PassesGoOn, HastePassesGoOn};

use ddt_check::{
    each_identifier_has_a_zone, honest_servers_lead_to_the_assignment,
    negatives_hold_of_all_that_they_cover,
};

/// A new resolver with the root's locators of a register is sound for it. One that is sound for an accepted register
/// stays sound after each step whose datagram, if it has one, is what the register says there. It also stays sound when
/// a lookup is hastened or cancelled, when a prefix is forgotten, and as time passes. The answer of a step is the
/// assignment, and so is the end of a hastened lookup. A lookup ends without an answer only for want of a reply or of
/// nonces.
pub fn a_step_keeps_a_resolver_sound()
    ensures new { NewResolversAreSound }
    ensures steps { StepsKeepSoundness }
    ensures hastening { HasteningKeepsSoundness }
    ensures time { TimeKeepsSoundness }
    ensures cancelling { CancellingKeepsSoundness }
    ensures forgetting { ForgettingKeepsSoundness }
{
    each_identifier_has_a_zone();
    honest_servers_lead_to_the_assignment();
    negatives_hold_of_all_that_they_cover();
}

/// Each request of a lookup that is under way, in a resolver that is sound for an accepted register, is a DDT
/// Map-Request to a server of it. The reply of an honest server is accepted and keeps the resolver sound. It ends the
/// lookup with the assignment, or without an outcome only if no nonce is left.
pub(crate) fn requests_are_understood()
    ensures { RequestsAreUnderstood }
{
    a_step_keeps_a_resolver_sound();
    honest_servers_lead_to_the_assignment();
}

/// The laws that the contract of `run` uses.
pub(crate) fn laws_of_runs()
    ensures { LawsOfRuns }
{
    a_step_keeps_a_resolver_sound();
    honest_servers_lead_to_the_assignment();
    negatives_hold_of_all_that_they_cover();
}

/// Over honest servers of an accepted register a lookup takes at most 7 hops more than there are zones that cover its
/// identifier. Each referral leads to a longer zone. Only the servers of the last one are all asked.
pub(crate) fn honest_trails_are_short()
    ensures { HonestTrailsAreShort }
{
    each_identifier_has_a_zone();
    honest_servers_lead_to_the_assignment();
    negatives_hold_of_all_that_they_cover();
}

/// Whatever a resolver receives: a lookup that stays pending over a step, or when one is hastened, stays in its pass,
/// with its saved prefix or a longer one, or begins its second pass. There is no third pass (RFC 8111, section 7.3).
pub fn a_lookup_has_two_passes()
    ensures steps { PassesGoOn }
    ensures hastening { HastePassesGoOn }
{}

/// Whatever the servers of a lookup reply, it has at most two passes. The second starts at the root, after a server
/// that a remembered entry led to turns out not to be in charge. Each pass follows at most one referral more than the
/// identifier has digits, since each referral has a longer prefix than the one before.
pub(crate) fn passes_are_short()
    ensures { PassesAreShort }
{}

/// The record of an honest server of one register for a lookup's identifier lies inside the zone for which the lookup
/// asked it, so no reply of such a server is cut. If registers replace each other, one may be cut: a negative record of
/// a register in force that is cut to a zone holds for each identifier of the zone.
pub fn honest_replies_are_inside()
    ensures inside { HonestRepliesAreInside }
    ensures negatives { CutNegativesHold }
{
    each_identifier_has_a_zone();
    honest_servers_lead_to_the_assignment();
    negatives_hold_of_all_that_they_cover();
}

/// The remembered entry at which a pending lookup started is true in a new resolver, which has none. It stays true
/// after each step of a sound one, when a lookup is hastened or cancelled, when a prefix is forgotten, and as time
/// passes.
pub fn a_step_keeps_starts_true()
    ensures new { NewStartsAreTrue }
    ensures steps { StepsKeepStarts }
    ensures time { TimeKeepsStarts }
    ensures hastening { HasteningKeepsStarts }
    ensures cancelling { CancellingKeepsStarts }
    ensures forgetting { ForgettingKeepsStarts }
{}
