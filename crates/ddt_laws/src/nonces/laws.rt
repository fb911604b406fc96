//! Laws of wires with random nonces. Each function states a law of the definitions, and does nothing.

ghost use Rattle.ddt_laws.specs.Nonces.Replies.{LiftedRepliesWereAsked};
ghost use Rattle.ddt_laws.specs.Nonces.Runs.{RunsAskOnce, TranslatedPacketsAreFair, TranslatedRepliesAreOwed};
ghost use Rattle.ddt_laws.specs.Nonces.Runs.{TranslatedRunsAreRight};

use ddt_loop::fair_runs_are_right;

/// Wires with random nonces return only a Map-Referral that answers a request of their caller, by the nonce that this
/// request had on the wires below.
pub fn lifted_replies_were_asked()
    ensures { LiftedRepliesWereAsked }
{}

/// A running resolver never asks for two identifiers with one nonce.
pub fn runs_ask_once()
    ensures { RunsAskOnce }
{}

/// Packets that are fair on the wires below are fair to the caller of wires with random nonces. Replies that are owed
/// to ITRs there are owed on the wires below.
pub fn translated_packets_are_fair()
    ensures fair { TranslatedPacketsAreFair }
    ensures owed { TranslatedRepliesAreOwed }
{}

/// A resolver over wires with random nonces is right if packets from the servers that were asked, by the nonces on the
/// wires below, are true.
pub fn translated_runs_are_right()
    ensures { TranslatedRunsAreRight }
{
    fair_runs_are_right();
    runs_ask_once();
    translated_packets_are_fair();
}
