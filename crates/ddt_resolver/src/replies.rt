//! Matching a datagram with a pending lookup: six tests in order, which change nothing.

ghost use Rattle.std.specs.Prelude.{◌≡◌, ◌≢◌, ◌<◌, ℕ, IsTrue, false, Some, IfOk, IfErr, OnErr, IfSome, IfNone, length};
ghost use Rattle.std.specs.FinMap as map;
ghost use Rattle.ddt_path.specs.declared.record.ReferralRecord.{ReferralRecord as RecordValue};
ghost use Rattle.ddt_resolver.specs.declared.pending.Pending.{Pending as APending};
ghost use Rattle.ddt_path.specs.Path.{xeid_path};
ghost use Rattle.ddt_path.specs.declared.locator.Locator.{Locator as ALocator};
ghost use Rattle.ddt_path.specs.Actions.{IsReferral};
ghost use Rattle.ddt_resolver.specs.Records.{IsAbout, NamesServer};
ghost use Rattle.ddt_resolver.specs.State.{server as server_of};
ghost use Rattle.ddt_resolver.specs.MatchReply.{IsReplyTo, IsTaken, Ignores};

use crate::pending::Pending;
use crate::resolver::Resolver;
use crate::results::Ignored;
use ddt_cache::Entry;
use ddt_path::{Action, Locator, ReferralRecord, Xeid};
use ddt_trie::PrefixMap;
use ddt_wire::read_referral;

/// A reply and the pending lookup that it is for.
#[derive(Clone, Copy, Debug)]
pub struct MatchedReply {
    /// The lookup's ticket.
    pub ticket: u64,
    /// The lookup.
    pub lookup: Pending,
    /// The reply's record.
    pub told: ReferralRecord,
}

impl<M: PrefixMap<Entry>> Resolver<M> {
    /// The identifier of the pending lookup whose last request has this nonce; None if there is none.
    pub fn identifier_of(&self, nonce: u64) -> Option<Xeid>
        ensures asked { IfSome result (λ x. (t : ℕ) × (l : APending) × (map.get self.now.pending t ≡ Some l)
            × (l.nonce ≡ nonce) × (l.x ≡ x)) }
        ensures none { IfNone result ((t : ℕ) (l : APending) → map.get self.now.pending t ≡ Some l → l.nonce ≢ nonce) }
    {
        match self.table.with_nonce(nonce) {
            Some((_ticket, lookup)) => Some(lookup.x),
            None => None,
        }
    }

    /// The lookup whose last request has the nonce of the reply in the bytes. Refused as 1 Undecodable, then as
    /// 2 UnknownNonce.
    pub(crate) fn reply(&self, bytes: &[u8]) -> Result<MatchedReply, Ignored>
        ensures found { IfOk result (λ r. IsReplyTo self.now bytes.now r.ticket r.lookup r.told) }
        ensures refused { (source : ALocator) → IfErr result (λ why. Ignores self.now source bytes.now why) }
        ensures none { OnErr result ((t : ℕ) (l : APending) (rec : RecordValue)
            → IsReplyTo self.now bytes.now t l rec → ⊥) }
    {
        let referral = match read_referral(bytes) {
            Ok(referral) => referral,
            Err(_fault) => return Err(Ignored::Undecodable),
        };
        match self.table.with_nonce(referral.nonce()) {
            Some((ticket, lookup)) => Ok(MatchedReply {
                ticket,
                lookup,
                told: referral.to_record(),
            }),
            None => Err(Ignored::UnknownNonce),
        }
    }

    /// Matches a datagram from a source with the pending lookup that waits for it. Refused, in this order, as
    /// 1 Undecodable, 2 UnknownNonce, 3 WrongSource, 4 Late, 5 NotCovering, 6 NoServers.
    pub(crate) fn match_reply(&self, source: Locator, bytes: &[u8]) -> Result<MatchedReply, Ignored>
        ensures taken { IfOk result (λ r. IsTaken self.now source bytes.now r.ticket r.lookup r.told) }
        ensures refused { IfErr result (λ why. Ignores self.now source bytes.now why) }
    {
        self.in_order();
        let reply = match self.reply(bytes) {
            Ok(reply) => reply,
            Err(why) => return Err(why),
        };
        if !is_asked(&reply.lookup, source) {
            return Err(Ignored::WrongSource);
        }
        if reply.lookup.deadline <= self.time().millis() {
            return Err(Ignored::Late);
        }
        if !is_about(&reply.told, reply.lookup.x) {
            return Err(Ignored::NotCovering);
        }
        if !names_server(&reply.told) {
            return Err(Ignored::NoServers);
        }
        Ok(reply)
    }
}

/// Whether a source is the server that the lookup asked last.
pub(crate) fn is_asked(lookup: &Pending, source: Locator) -> bool
    requires { lookup.now.server_index < length lookup.now.servers }
    ensures yes { (me : ALocator) → IsTrue result → source ≡ server_of me lookup.now }
    ensures no { (me : ALocator) → result ≡ false → source ≡ server_of me lookup.now → ⊥ }
{
    source == lookup.server()
}

/// Whether an action refers to other servers.
fn is_referral(action: Action) -> bool
    ensures yes { IsTrue result → IsReferral action }
    ensures no { result ≡ false → IsReferral action → ⊥ }
{
    match action {
        Action::NodeReferral | Action::MsReferral => true,
        _ => false,
    }
}

/// Whether a record is about an identifier: its prefix covers it, or its action is NOT-AUTHORITATIVE.
pub(crate) fn is_about(told: &ReferralRecord, x: Xeid) -> bool
    ensures yes { IsTrue result → IsAbout told.now (xeid_path x) }
    ensures no { result ≡ false → IsAbout told.now (xeid_path x) → ⊥ }
{
    match told.action {
        Action::NotAuthoritative => true,
        _ => told.prefix.covers_xeid(x),
    }
}

/// Whether a record names a server, if it refers to other servers; true if it doesn't.
fn names_server(told: &ReferralRecord) -> bool
    ensures yes { IsTrue result → NamesServer told.now }
    ensures no { result ≡ false → NamesServer told.now → ⊥ }
{
    !is_referral(told.action) || !told.servers.as_slice().is_empty()
}
