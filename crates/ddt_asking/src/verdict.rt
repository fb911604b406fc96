//! The verdict on a question: whether the reply says what the register demands.

ghost use Rattle.std.specs.Prelude.{◌≡◌, ◌≤◌, ◌↔◌, Some, length, take, IfOk, IfSome, IsTrue};
ghost use Rattle.std.specs.Option.{option_map};
ghost use Rattle.ddt_wire.specs.Referral.{Spells, message_of};
ghost use Rattle.ddt_asking.specs.Asked.{IsVerdictFor};
ghost use Rattle.ddt_asking.specs.Verdicts.{IsVerdict, is_agreement};

use crate::itr_verdict::verdict_of_itr_reply;
use crate::probe_options::Client;
use crate::question::Question;
use crate::questions_of_change::is_same_record;
use crate::reply_match::AwaitedReply;
use ddt_path::{Listed, Locator, ReferralRecord};
use ddt_wire::{Locators, Referral, read_referral};
use std::alloc::{AllocError, Global};

/// The verdict on a question.
#[derive(Debug, Drop)]
pub enum Verdict {
    /// The reply says what the register demands.
    Agrees,
    /// The reply says something else, or can't be read. Has its bytes.
    Differs(Listed<u8>),
    /// No reply came in time.
    Silent,
    /// Nothing was asked, since the result can't be seen from here.
    NotJudged,
}

/// A question and its verdict.
#[derive(Debug, Drop)]
pub struct Finding {
    pub question: Question,
    pub verdict: Verdict,
}

impl Finding {
    /// Returns whether the reply says what the register demands.
    pub fn agrees(&self) -> bool
        ensures { result ≡ is_agreement self.now.verdict }
    {
        matches!(self.verdict, Verdict::Agrees)
    }
}

/// Returns the verdict on a server's reply to a question with this nonce, of which the record `demanded` is demanded.
/// It agrees if all of the bytes are a Map-Referral with the nonce and the record: its action, prefix, TTL, Incomplete
/// bit, and all its locators in their order (RFC 8111, section 6.4).
pub fn verdict_of_referral(
    alloc: Global,
    demanded: &ReferralRecord,
    nonce: u64,
    bytes: &[u8],
) -> Result<Verdict, AllocError>
    ensures { IfOk result (λ verdict. IsVerdict demanded.now nonce (Some bytes.now) verdict) }
{
    if is_said(demanded, nonce, bytes) {
        return Ok(Verdict::Agrees);
    }
    let reply = Vec::from_slice(alloc, bytes)?;
    Ok(Verdict::Differs(Listed::of(reply)))
}

/// Returns the verdict on a question, whose reply is the first `reply` bytes of the buffer; silent if it is None.
pub(crate) fn verdict_of(
    alloc: Global,
    demanded: &ReferralRecord,
    awaited: AwaitedReply,
    buffer: &[u8],
    reply: Option<usize>,
) -> Result<Verdict, AllocError>
    requires { IfSome reply (λ len. len ≤ length buffer.now) }
    ensures { IfOk result (IsVerdictFor awaited.client awaited.xeid demanded.now awaited.nonce
        (option_map (λ len. take len buffer.now) reply)) }
{
    match reply {
        Some(len) => verdict_of_bytes(alloc, demanded, awaited, &buffer[..len]),
        None => Ok(Verdict::Silent),
    }
}

/// Returns the verdict on the bytes of a reply, by the client that asked.
fn verdict_of_bytes(
    alloc: Global,
    demanded: &ReferralRecord,
    awaited: AwaitedReply,
    bytes: &[u8],
) -> Result<Verdict, AllocError>
    ensures { IfOk result (IsVerdictFor awaited.client awaited.xeid demanded.now awaited.nonce (Some bytes.now)) }
{
    match awaited.client {
        Client::Ddt => verdict_of_referral(alloc, demanded, awaited.nonce, bytes),
        Client::Itr => verdict_of_itr_reply(alloc, awaited.xeid, demanded, awaited.nonce, bytes),
    }
}

/// Returns whether the bytes are a Map-Referral with this nonce and record.
fn is_said(demanded: &ReferralRecord, nonce: u64, bytes: &[u8]) -> bool
    ensures { IsTrue result ↔ Spells bytes.now (message_of nonce demanded.now) }
{
    match read_referral(bytes) {
        Ok(referral) => is_message_of(&referral, nonce, demanded),
        Err(_fault) => false,
    }
}

/// Returns whether a Map-Referral has this nonce and record.
fn is_message_of(referral: &Referral<'_>, nonce: u64, demanded: &ReferralRecord) -> bool
    ensures { IsTrue result ↔ (referral.now ≡ message_of nonce demanded.now) }
{
    let said = ReferralRecord {
        action: referral.action(),
        prefix: referral.prefix(),
        ttl: referral.ttl(),
        incomplete: referral.incomplete(),
        servers: demanded.servers,
    };
    referral.nonce() == nonce
        && is_same_record(&said, demanded)
        && are_these(referral.locators(), demanded.servers.as_slice())
}

/// Returns whether the locators are these servers, in this order.
fn are_these(mut locators: Locators<'_>, servers: &[Locator]) -> bool
    ensures { IsTrue result ↔ (locators.entry ≡ servers.now) }
{
    for server in servers {
        if locators.next() != Some(*server) {
            return false;
        }
    }
    locators.next().is_none()
}
