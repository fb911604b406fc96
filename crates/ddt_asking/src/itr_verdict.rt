//! The verdict on an ITR's question to a Map-Resolver: whether the ITR gets what the register demands.

ghost use Rattle.std.specs.Prelude.{◌≡◌, ◌↔◌, Some, IfOk, IsTrue};
ghost use Rattle.ddt_asking.specs.ItrVerdicts.{IsDue, IsItrVerdict, IsNegative, IsNegativeFor};

use crate::reply_match::is_forwarded;
use crate::verdict::Verdict;
use ddt_path::{Action, Listed, ReferralRecord, Xeid};
use ddt_wire::{NegativeReply, read_negative_reply};
use std::alloc::{AllocError, Global};

/// Returns the verdict on a message to an ITR that asked for the identifier `x` with this nonce, if the register
/// assigns the record `demanded` to `x`.
///
/// In a registered site the ITR, which is an ETR too, has to get its own request. Elsewhere it has to get a negative
/// Map-Reply with the record's TTL, for a prefix inside the record's that covers `x` (RFC 9301, section 5.4; RFC 8111,
/// section 7.3). Any spelling of these is accepted.
pub fn verdict_of_itr_reply(
    alloc: Global,
    x: Xeid,
    demanded: &ReferralRecord,
    nonce: u64,
    bytes: &[u8],
) -> Result<Verdict, AllocError>
    ensures { IfOk result (λ verdict. IsItrVerdict x demanded.now nonce (Some bytes.now) verdict) }
{
    if is_due(x, demanded, nonce, bytes) {
        return Ok(Verdict::Agrees);
    }
    let reply = Vec::from_slice(alloc, bytes)?;
    Ok(Verdict::Differs(Listed::of(reply)))
}

/// Returns whether the bytes are what the ITR has to get.
fn is_due(x: Xeid, demanded: &ReferralRecord, nonce: u64, bytes: &[u8]) -> bool
    ensures { IsTrue result ↔ IsDue x demanded.now nonce bytes.now }
{
    match demanded.action {
        Action::MsAck => is_forwarded(nonce, x, bytes),
        Action::MsNotRegistered | Action::DelegationHole => is_negative(x, demanded, nonce, bytes),
        Action::NodeReferral | Action::MsReferral | Action::NotAuthoritative => false,
    }
}

fn is_negative(x: Xeid, demanded: &ReferralRecord, nonce: u64, bytes: &[u8]) -> bool
    ensures { IsTrue result ↔ IsNegative x demanded.now nonce bytes.now }
{
    match read_negative_reply(bytes) {
        Ok(reply) => is_negative_for(x, demanded, nonce, &reply),
        Err(_fault) => false,
    }
}

fn is_negative_for(x: Xeid, demanded: &ReferralRecord, nonce: u64, reply: &NegativeReply) -> bool
    ensures { IsTrue result ↔ IsNegativeFor x demanded.now nonce reply.now }
{
    reply.nonce == nonce
        && reply.ttl == demanded.ttl
        && demanded.prefix.covers(reply.prefix)
        && reply.prefix.covers_xeid(x)
}
