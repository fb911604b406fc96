//! A cache, a resolver and the messages of ITRs when an allocation fails: all stays as it was, except the time, and the
//! next call does what the failed one would have done.
//!
//! The state of a resolver shows in its later results: they are the same as with enough memory, to the end of the
//! schedule. `.ci/memory` runs each of these tests with each growth refused in turn.

use crate::comparison::same;
use crate::resolver::calls::{
    Call, NOT_IN_CHARGE, ROOT, SampleReferral, TEN, TO_TEN, at, referral_record,
};
use ddt_cache::{Cache, Entry, Saved};
use ddt_ecm::read_request;
use ddt_examples::bytes_of;
use ddt_examples::messages::NEGATIVE_REPLY;
use ddt_path::{Action, Locator, LocatorSet, Outcome, Prefix, ReferralRecord, Xeid};
use ddt_resolver::{
    AskError, Asked, Front, Heard, Ignored, ItrRequest, MOST_PENDING, Moment, Outgoing, Resolver,
    Ticked, Ticket, Why,
};
use ddt_text::{parse_prefix, parse_xeid};
use ddt_trie::{ListMap, PrefixMap, TrieMap};
use ddt_wire::write_referral;
use std::alloc::{AllocError, Global};
use std::process::Abort;
use std::test::Fail;

const ME: Locator = Locator::V4(0x7f00_0035);

// ---- the cache

/// A record of a prefix: a referral to one server, or a hole.
fn record(action: Action, prefix: Prefix) -> Result<ReferralRecord, Fail> {
    let servers: &[Locator] = match action {
        Action::NodeReferral => &[TEN],
        _ => &[],
    };
    Ok(ReferralRecord {
        action,
        prefix,
        ttl: 15,
        incomplete: false,
        servers: LocatorSet::of(servers).ok_or("too many locators")?,
    })
}

/// A record that is saved at a moment, in milliseconds: its action and its prefix, and how many entries are live then.
type Row = (u64, Action, &'static str, usize);

/// Records in the order in which they are saved.
const RECORDS: &[Row] = &[
    (1, Action::NodeReferral, "[0]10.0.0.0/8", 1),
    (3, Action::DelegationHole, "[0]10.1.0.0/16", 2),
    (5, Action::DelegationHole, "[0]10.1.2.0/24", 3),
    (7, Action::NodeReferral, "[0]10.1.0.0/16", 3),
    (9, Action::DelegationHole, "[0]10.1.2.3/32", 4),
    (11, Action::NodeReferral, "[0]10.1.2.0/23", 5),
];

/// Identifiers, for each prefix one that no longer one covers, and one that none covers.
const IDENTIFIERS: &[&str] = &[
    "[0]10.9.9.9",
    "[0]10.1.9.9",
    "[0]10.1.2.9",
    "[0]10.1.2.3",
    "[0]10.1.3.9",
    "[0]11.0.0.1",
];

/// Of the rows whose prefixes cover an identifier, the last of those with the longest prefix.
fn longest_row(rows: &'static [Row], x: Xeid) -> Result<Option<&'static Row>, Fail> {
    let mut len = 0;
    let mut found = None;
    for row in rows {
        let prefix = parse_prefix(row.2.as_bytes())?;
        if prefix.covers_xeid(x) && prefix.len() >= len {
            len = prefix.len();
            found = Some(row);
        }
    }
    Ok(found)
}

/// What is found was saved by this row, and ends fifteen minutes later.
fn is_of_row(rt: &impl Abort, found: &(Prefix, Entry), row: &Row) -> Result<(), Fail> {
    let record = record(row.1, parse_prefix(row.2.as_bytes())?)?;
    let end = row.0.saturating_add(900_000);
    same(rt, &(found.0, found.1.end), &(record.prefix, end), row);
    same(
        rt,
        &(found.1.action, found.1.servers),
        &(record.action, record.servers),
        row,
    );
    Ok(())
}

/// What is found is the root.
fn is_root(rt: &impl Abort, found: &(Prefix, Entry)) -> Result<(), Fail> {
    let roots = LocatorSet::of(&[ROOT]).ok_or("too many locators")?;
    let entry = found.1;
    same(
        rt,
        &(found.0.len(), entry.action),
        &(0, Action::NodeReferral),
        &"the root",
    );
    same(
        rt,
        &(entry.servers, entry.end),
        &(roots, u64::MAX),
        &"the root",
    );
    Ok(())
}

/// The cache finds for an identifier what the rows, the last one last, have saved.
fn finds<M: PrefixMap<Entry>>(
    rt: &impl Abort,
    cache: &mut Cache<M>,
    now: Moment,
    rows: &'static [Row],
    text: &str,
) -> Result<(), Fail> {
    let x = parse_xeid(text.as_bytes())?;
    let found = cache.find_copied(now, x);
    match longest_row(rows, x)? {
        Some(row) => is_of_row(rt, &found, row),
        None => is_root(rt, &found),
    }
}

/// It is this moment, and the cache has all that these rows have saved, and no more.
fn has<M: PrefixMap<Entry>>(
    rt: &impl Abort,
    cache: &mut Cache<M>,
    now: Moment,
    rows: &'static [Row],
) -> Result<(), Fail> {
    let len = match rows.last() {
        Some(row) => row.3,
        None => 0,
    };
    same(
        rt,
        &(cache.time(), cache.len(now)),
        &(now, len),
        &"the time and the entries",
    );
    for text in IDENTIFIERS {
        finds(rt, cache, now, rows, text)?;
    }
    Ok(())
}

fn is_saved(rt: &impl Abort, saved: Saved) {
    same(rt, &saved, &Saved::Saved, &"a save");
}

/// Saves the record of a row behind others, once more where memory is refused: then nothing but the time is another.
fn saves<M: PrefixMap<Entry>>(
    rt: &impl Abort,
    cache: &mut Cache<M>,
    row: &Row,
    before: &'static [Row],
) -> Result<(), Fail> {
    let now = at(row.0)?;
    let record = record(row.1, parse_prefix(row.2.as_bytes())?)?;
    let saved = match cache.save(now, &record) {
        Ok(saved) => saved,
        Err(_refused) => {
            has(rt, cache, now, before)?;
            cache.save(now, &record)?
        }
    };
    is_saved(rt, saved);
    Ok(())
}

/// The first rows, so many of them.
fn first_rows(count: usize) -> &'static [Row] {
    &RECORDS[..count.min(RECORDS.len())]
}

/// Saves each of these, a millisecond after the cache was looked at.
fn fills<M: PrefixMap<Entry>>(rt: &impl Abort, alloc: Global) -> Result<(), Fail> {
    let roots = LocatorSet::of(&[ROOT]).ok_or("too many locators")?;
    let mut cache = Cache::<M>::new(alloc, roots);
    for (place, row) in RECORDS.iter().enumerate() {
        saves(rt, &mut cache, row, first_rows(place))?;
        has(
            rt,
            &mut cache,
            at(row.0)?,
            first_rows(place.saturating_add(1)),
        )?;
        cache.advance(at(row.0.saturating_add(1))?);
    }
    Ok(())
}

#[test]
fn a_refused_save_leaves_a_cache_on_a_list(rt: HostRuntime) -> Result<(), Fail> {
    fills::<ListMap<Entry>>(&rt, rt.alloc())
}

#[test]
fn a_refused_save_leaves_a_cache_on_a_trie(rt: HostRuntime) -> Result<(), Fail> {
    fills::<TrieMap<Entry>>(&rt, rt.alloc())
}

// ---- the resolver

type TrieResolver = Resolver<TrieMap<Entry>>;

/// A new resolver at 127.0.0.53, whose root's server is 127.0.0.1 and whose first nonce is 1.
fn rooted(alloc: Global) -> Result<TrieResolver, Fail> {
    let roots = LocatorSet::of(&[ROOT]).ok_or("too many locators")?;
    match roots.as_slice() {
        [] => Err("no root".into()),
        _ => Ok(Resolver::new(alloc, roots, ME, 1)),
    }
}

/// The expected result of a call; prefixes are texts. The first number is a ticket, 0 if nothing was pending.
#[derive(Clone, Copy, Debug)]
enum Want {
    /// A request to a server, under a nonce.
    Request(u64, Locator, u64),
    Hole(u64, &'static str),
    Registered(u64, &'static str),
    GaveUp(u64, Why),
    Nothing,
}

/// The result of a call.
#[derive(Clone, Copy, Debug, PartialEq)]
enum CallResult {
    Request(u64, Locator, u64),
    Hole(u64, Prefix),
    Registered(u64, Prefix),
    GaveUp(u64, Why),
    Ignored(Ignored),
    Nothing,
}

/// The expected result as a result, with prefixes in place of their texts.
fn wanted(want: &Want) -> Result<CallResult, Fail> {
    Ok(match want {
        Want::Request(ticket, to, nonce) => CallResult::Request(*ticket, *to, *nonce),
        Want::Hole(ticket, text) => CallResult::Hole(*ticket, parse_prefix(text.as_bytes())?),
        Want::Registered(ticket, text) => {
            CallResult::Registered(*ticket, parse_prefix(text.as_bytes())?)
        }
        Want::GaveUp(ticket, why) => CallResult::GaveUp(*ticket, *why),
        Want::Nothing => CallResult::Nothing,
    })
}

fn request(ticket: Ticket, sent: &Outgoing) -> Result<CallResult, Fail> {
    let nonce = read_request(sent.bytes.as_slice())?.nonce();
    Ok(CallResult::Request(ticket.number(), sent.to, nonce))
}

fn outcome(ticket: u64, outcome: Outcome) -> Result<CallResult, Fail> {
    match outcome {
        Outcome::Hole { prefix } => Ok(CallResult::Hole(ticket, prefix)),
        Outcome::Registered { prefix, .. } => Ok(CallResult::Registered(ticket, prefix)),
        Outcome::NotRegistered { .. } => Err("another outcome".into()),
    }
}

/// Asks, once more if memory is refused: then as many lookups are pending as before.
fn asks(
    rt: &impl Abort,
    resolver: &mut TrieResolver,
    now: Moment,
    x: Xeid,
) -> Result<Asked, AskError> {
    let before = resolver.pending();
    match resolver.ask(now, x) {
        Err(AskError::Memory) => {
            is_as_before(rt, resolver, now, before);
            resolver.ask(now, x)
        }
        asked => asked,
    }
}

/// The time has moved, and so many lookups are pending.
fn is_as_before(rt: &impl Abort, resolver: &TrieResolver, now: Moment, pending: usize) {
    same(
        rt,
        &(resolver.time(), resolver.pending()),
        &(now, pending),
        &"the lookups",
    );
}

fn after_ask(asked: &Asked) -> Result<CallResult, Fail> {
    match asked {
        Asked::Sent(ticket, sent) => request(*ticket, sent),
        Asked::Answer(answer) => outcome(0, *answer),
    }
}

fn asked(
    rt: &impl Abort,
    resolver: &mut TrieResolver,
    now: Moment,
    text: &str,
) -> Result<CallResult, Fail> {
    after_ask(&asks(rt, resolver, now, parse_xeid(text.as_bytes())?)?)
}

/// Hands over a datagram, once more if memory is refused: then as many lookups are pending as before.
fn hears(
    rt: &impl Abort,
    resolver: &mut TrieResolver,
    now: Moment,
    from: Locator,
    bytes: &[u8],
) -> Result<Heard, AllocError> {
    let before = resolver.pending();
    match resolver.datagram(now, from, bytes) {
        Ok(heard) => Ok(heard),
        Err(_refused) => {
            is_as_before(rt, resolver, now, before);
            resolver.datagram(now, from, bytes)
        }
    }
}

fn after_datagram(heard: &Heard) -> Result<CallResult, Fail> {
    match heard {
        Heard::Followed(ticket, sent) => request(*ticket, sent),
        Heard::Answer(ticket, answer) => outcome(ticket.number(), *answer),
        Heard::GaveUp(ticket, why) => Ok(CallResult::GaveUp(ticket.number(), *why)),
        Heard::Ignored(why) => Ok(CallResult::Ignored(*why)),
    }
}

fn heard(
    rt: &impl Abort,
    resolver: &mut TrieResolver,
    now: Moment,
    from: Locator,
    bytes: &[u8],
) -> Result<CallResult, Fail> {
    after_datagram(&hears(rt, resolver, now, from, bytes)?)
}

/// Ticks, once more if memory is refused: then as many lookups are pending as before.
fn ticks(rt: &impl Abort, resolver: &mut TrieResolver, now: Moment) -> Result<Ticked, AllocError> {
    let before = resolver.pending();
    match resolver.tick(now) {
        Ok(ticked) => Ok(ticked),
        Err(_refused) => {
            is_as_before(rt, resolver, now, before);
            resolver.tick(now)
        }
    }
}

fn after_tick(ticked: &Ticked) -> Result<CallResult, Fail> {
    match ticked {
        Ticked::Sent(ticket, sent) => request(*ticket, sent),
        Ticked::Answer(ticket, answer) => outcome(ticket.number(), *answer),
        Ticked::GaveUp(ticket, why) => Ok(CallResult::GaveUp(ticket.number(), *why)),
        Ticked::Nothing => Ok(CallResult::Nothing),
    }
}

fn ticked(rt: &impl Abort, resolver: &mut TrieResolver, now: Moment) -> Result<CallResult, Fail> {
    after_tick(&ticks(rt, resolver, now)?)
}

/// The bytes of a Map-Referral, written once more where memory is refused.
fn referral(alloc: Global, nonce: u64, told: &SampleReferral) -> Result<Vec<u8>, Fail> {
    let record = referral_record(told)?;
    match write_referral(alloc, nonce, &record) {
        Ok(bytes) => Ok(bytes),
        Err(_refused) => Ok(write_referral(alloc, nonce, &record)?),
    }
}

/// Makes a call, and returns its result.
fn made(
    rt: &impl Abort,
    alloc: Global,
    resolver: &mut TrieResolver,
    now: Moment,
    call: &Call,
) -> Result<CallResult, Fail> {
    match call {
        Call::Ask(text) => asked(rt, resolver, now, text),
        Call::Hear(from, nonce, told) | Call::HearCut(from, nonce, told) => {
            heard(rt, resolver, now, *from, &referral(alloc, *nonce, told)?)
        }
        Call::Tick => ticked(rt, resolver, now),
    }
}

/// A hole, and a site that is acknowledged.
const HOLE: SampleReferral = SampleReferral {
    action: Action::DelegationHole,
    prefix: "[0]10.2.0.0/15",
    servers: &[],
};

const SITE: SampleReferral = SampleReferral {
    action: Action::MsAck,
    prefix: "[0]10.1.2.0/24",
    servers: &[TEN],
};

/// Moments in milliseconds, calls, their expected results, and the number of pending lookups after each.
const SCHEDULE: &[(u64, Call, Want, usize)] = &[
    (0, Call::Ask("[0]10.1.2.3"), Want::Request(1, ROOT, 1), 1),
    (0, Call::Ask("[0]10.2.0.1"), Want::Request(2, ROOT, 2), 2),
    (1, Call::Hear(ROOT, 1, TO_TEN), Want::Request(1, TEN, 3), 2),
    (2000, Call::Tick, Want::Request(2, ROOT, 4), 2),
    (2000, Call::Tick, Want::Nothing, 2),
    (
        2000,
        Call::Hear(ROOT, 4, HOLE),
        Want::Hole(2, "[0]10.2.0.0/15"),
        1,
    ),
    (
        2000,
        Call::Ask("[0]10.2.5.5"),
        Want::Hole(0, "[0]10.2.0.0/15"),
        1,
    ),
    (2001, Call::Tick, Want::Request(1, TEN, 5), 1),
    (
        2001,
        Call::Hear(TEN, 5, SITE),
        Want::Registered(1, "[0]10.1.2.0/24"),
        0,
    ),
    (2001, Call::Ask("[0]10.1.2.9"), Want::Request(6, TEN, 6), 1),
    (
        2001,
        Call::Hear(TEN, 6, NOT_IN_CHARGE),
        Want::Request(6, ROOT, 7),
        1,
    ),
    (4001, Call::Tick, Want::Request(6, ROOT, 8), 1),
    (6001, Call::Tick, Want::GaveUp(6, Why::NoReply), 0),
];

fn is_wanted(rt: &impl Abort, came: CallResult, want: CallResult) {
    same(rt, &came, &want, &"a call");
}

fn has_pending(rt: &impl Abort, resolver: &TrieResolver, pending: usize) {
    same(rt, &resolver.pending(), &pending, &"pending");
}

#[test]
fn a_schedule_goes_on_as_with_ample_memory(rt: HostRuntime) -> Result<(), Fail> {
    let mut resolver = rooted(rt.alloc())?;
    for (millis, call, want, pending) in SCHEDULE {
        let came = made(&rt, rt.alloc(), &mut resolver, at(*millis)?, call)?;
        is_wanted(&rt, came, wanted(want)?);
        has_pending(&rt, &resolver, *pending);
    }
    Ok(())
}

// ---- calls that are not made again

/// The result of an ask that isn't repeated; None if memory is refused.
fn asked_once(
    resolver: &mut TrieResolver,
    now: Moment,
    text: &str,
) -> Result<Option<CallResult>, Fail> {
    match resolver.ask(now, parse_xeid(text.as_bytes())?) {
        Err(AskError::Memory) => Ok(None),
        asked => Ok(Some(after_ask(&asked?)?)),
    }
}

/// The same of a datagram.
fn heard_once(
    resolver: &mut TrieResolver,
    now: Moment,
    from: Locator,
    bytes: &[u8],
) -> Result<Option<CallResult>, Fail> {
    match resolver.datagram(now, from, bytes) {
        Ok(heard) => Ok(Some(after_datagram(&heard)?)),
        Err(_refused) => Ok(None),
    }
}

/// The same of a tick.
fn ticked_once(resolver: &mut TrieResolver, now: Moment) -> Result<Option<CallResult>, Fail> {
    match resolver.tick(now) {
        Ok(ticked) => Ok(Some(after_tick(&ticked)?)),
        Err(_refused) => Ok(None),
    }
}

/// The same of any call.
fn made_once(
    alloc: Global,
    resolver: &mut TrieResolver,
    now: Moment,
    call: &Call,
) -> Result<Option<CallResult>, Fail> {
    match call {
        Call::Ask(text) => asked_once(resolver, now, text),
        Call::Hear(from, nonce, told) | Call::HearCut(from, nonce, told) => {
            heard_once(resolver, now, *from, &referral(alloc, *nonce, told)?)
        }
        Call::Tick => ticked_once(resolver, now),
    }
}

/// A referral of another child of the root.
const TO_TWENTY: SampleReferral = SampleReferral {
    action: Action::NodeReferral,
    prefix: "[0]20.0.0.0/8",
    servers: &[TEN],
};

/// Moments in milliseconds, and how many times a call is made then. So many lookups are pending that a growth for the
/// next nonce comes in datagrams and ticks too.
const CROWDED: &[(u64, u32, Call)] = &[
    (0, 18, Call::Ask("[0]20.0.0.1")),
    (0, 1, Call::Ask("[0]10.1.2.3")),
    (0, 1, Call::Ask("[0]10.2.0.1")),
    (1, 1, Call::Hear(ROOT, 19, TO_TEN)),
    (1, 1, Call::Hear(ROOT, 20, HOLE)),
    (1, 1, Call::Ask("[0]10.2.5.5")),
    (1, 1, Call::Ask("[0]10.1.2.9")),
    (1, 1, Call::Hear(TEN, 22, NOT_IN_CHARGE)),
    (1, 1, Call::Ask("[0]10.3.0.1")),
    (2000, 19, Call::Tick),
    (2000, 1, Call::Hear(TEN, 21, SITE)),
    (2000, 1, Call::Hear(ROOT, 25, TO_TWENTY)),
    (2000, 1, Call::Ask("[0]20.0.0.1")),
    (2001, 3, Call::Tick),
    (2001, 2, Call::Hear(ROOT, 26, TO_TWENTY)),
    (4001, 24, Call::Tick),
    (4001, 1, Call::Ask("[0]10.1.2.3")),
    (4001, 1, Call::Ask("[0]10.2.5.6")),
    (4001, 1, Call::Ask("[0]10.3.0.1")),
    (4001, 1, Call::Ask("[0]20.0.0.1")),
];

/// A call on a resolver and on another one beside it, of which the same comes. Where memory is refused the first
/// isn't called again, and the other isn't called at all. Whether memory was refused.
fn goes_beside(
    rt: &impl Abort,
    alloc: Global,
    resolver: &mut TrieResolver,
    other: &mut TrieResolver,
    now: Moment,
    call: &Call,
) -> Result<bool, Fail> {
    let before = resolver.pending();
    let Some(came) = made_once(alloc, resolver, now, call)? else {
        is_as_before(rt, resolver, now, before);
        return Ok(true);
    };
    is_wanted(rt, came, made(rt, alloc, other, now, call)?);
    has_pending(rt, resolver, other.pending());
    Ok(false)
}

/// A call that is made so many times; how many of these were refused memory.
fn go_beside(
    rt: &impl Abort,
    alloc: Global,
    resolver: &mut TrieResolver,
    other: &mut TrieResolver,
    row: &(u64, u32, Call),
) -> Result<u32, Fail> {
    let now = at(row.0)?;
    let mut refused: u32 = 0;
    for _ in 0..row.1 {
        if goes_beside(rt, alloc, resolver, other, now, &row.2)? {
            refused = refused.saturating_add(1);
        }
    }
    Ok(refused)
}

/// All goes on as if what was refused memory had never been called.
#[test]
fn a_refused_call_that_is_not_made_again_leaves_nothing(rt: HostRuntime) -> Result<(), Fail> {
    let mut resolver = rooted(rt.alloc())?;
    let mut other = rooted(rt.alloc())?;
    for row in CROWDED {
        let _refused = go_beside(&rt, rt.alloc(), &mut resolver, &mut other, row)?;
    }
    Ok(())
}

// ---- as many lookups as may be pending

/// A new lookup of an address.
fn opens(rt: &impl Abort, resolver: &mut TrieResolver, address: u32) -> Result<(), Fail> {
    let x = Xeid {
        iid: 0,
        address: Locator::V4(address),
    };
    let _asked = asks(rt, resolver, at(0)?, x)?;
    Ok(())
}

fn is_too_many(rt: &impl Abort, resolver: &mut TrieResolver) -> Result<(), Fail> {
    let x = parse_xeid(b"[0]10.1.2.3")?;
    let refusal = resolver.ask(at(0)?, x).err();
    same(rt, &refusal, &Some(AskError::TooMany), &x);
    Ok(())
}

#[test]
fn one_more_ask_is_too_many_and_wants_no_memory(rt: HostRuntime) -> Result<(), Fail> {
    let mut resolver = rooted(rt.alloc())?;
    for address in 0..MOST_PENDING as u32 {
        opens(&rt, &mut resolver, address)?;
    }
    is_too_many(&rt, &mut resolver)
}

// ---- the side that ITRs see

/// The worked request of an ITR.
fn itr() -> Result<ItrRequest, Fail> {
    Ok(ItrRequest {
        xeid: parse_xeid(b"[0]10.2.0.1")?,
        nonce: 0x1122_3344_5566_7788,
        to: Locator::V4(0x7f00_003c),
        port: 50_000,
    })
}

/// What the ITR is sent, asked for once more where memory is refused.
fn reply(alloc: Global, hole: &Outcome) -> Result<Outgoing, Fail> {
    let request = itr()?;
    let reply = match Front::itr_reply(alloc, hole, &request) {
        Ok(reply) => reply,
        Err(_refused) => Front::itr_reply(alloc, hole, &request)?,
    };
    Ok(reply.ok_or("no reply")?)
}

/// The bytes of a worked message.
fn message(alloc: Global, fields: &str) -> Result<Vec<u8>, Fail> {
    match bytes_of(alloc, fields) {
        Ok(bytes) => Ok(bytes),
        Err(_refused) => Ok(bytes_of(alloc, fields)?),
    }
}

/// A datagram goes to the ITR's address and port, with these bytes.
fn goes(rt: &impl Abort, sent: &Outgoing, bytes: &[u8]) -> Result<(), Fail> {
    let itr = itr()?;
    same(rt, &(sent.to, sent.port), &(itr.to, itr.port), &"the ITR");
    same(rt, &sent.bytes.as_slice(), &bytes, &"the datagram");
    Ok(())
}

#[test]
fn an_itr_is_replied_to_whole(rt: HostRuntime) -> Result<(), Fail> {
    let wanted = message(rt.alloc(), NEGATIVE_REPLY)?;
    let hole = Outcome::Hole {
        prefix: parse_prefix(b"[0]10.2.0.0/15")?,
    };
    let reply = reply(rt.alloc(), &hole)?;
    goes(&rt, &reply, &wanted)
}
