//! The laws of a Map-Resolver's rounds.

ghost use Rattle.ddt_daemon.specs.Onward.{GoesOnAsItCame, IsStillRequest};
ghost use Rattle.ddt_daemon.specs.Runs.{RunsAsAResolver, OnlyRequestsGoOn, OnlyWhatCameIsLooped};

/// At its near wires a Map-Resolver is a running resolver, over any rounds, ticks and renewals. So
/// `fair_runs_are_right` of `ddt_loop` holds of it. If the servers that were asked send the truth, each negative
/// Map-Reply is for what the register assigns, with at most one for each request of an ITR.
///
/// At its far wires it sends only requests of ITRs, with the bit D set. `an_itr_request_goes_on_as_it_came` says what a
/// Map-Server does with one of these.
///
/// A request is dropped as one that comes back only if the same came before, from another address.
pub fn a_map_resolver_runs()
    ensures runs { RunsAsAResolver }
    ensures onward { OnlyRequestsGoOn }
    ensures looped { OnlyWhatCameIsLooped }
{}

/// With the bit D set, an ITR's request is a DDT Map-Request for the same identifier. A Map-Server whose configuration
/// has an ETR for it sends the first ETR exactly the bytes that the ITR sent (RFC 8111, section 7.2).
pub fn an_itr_request_goes_on_as_it_came()
    ensures request { IsStillRequest }
    ensures goes_on { GoesOnAsItCame }
{}
