//! Memory is refused to what lists the entries of a cache, and to what hastens lookups and cuts replies to their zones:
//! it comes whole or not at all, the lookups stay, and the next call gives it.
//!
//! `.ci/memory` runs each of these tests with each growth refused in turn.

use crate::comparison::{same, twice};
use crate::resolver::calls::{ROOT, TEN};
use ddt_cache::{Cache, Entry};
use ddt_ecm::read_request;
use ddt_examples::bytes_of;
use ddt_path::{Action, Locator, LocatorSet, Prefix, ReferralRecord, Xeid};
use ddt_resolver::{Input, Moment, Outgoing, Progress, Resolver, Ticked};
use ddt_trie::ListMap;
use ddt_wire::write_referral;
use std::alloc::Global;
use std::process::Abort;
use std::test::Fail;

const X: Xeid = Xeid {
    iid: 0,
    address: Locator::V4(0x0a01_0203),
};

const ME: Locator = Locator::V4(0x7f00_0035);

type ListResolver = Resolver<ListMap<Entry>>;

/// The EID-prefix 10.0.0.0/8.
fn ten() -> Option<Prefix> {
    Prefix::block(0, Locator::V4(0x0a00_0000), 8).ok()
}

/// The referral of 10.0.0.0/8 to its server.
fn to_ten() -> Option<ReferralRecord> {
    Some(ReferralRecord {
        action: Action::NodeReferral,
        prefix: ten()?,
        ttl: 1440,
        incomplete: false,
        servers: LocatorSet::of(&[TEN])?,
    })
}

/// The one row is that of 10.0.0.0/8.
fn is_ten(rt: &impl Abort, rows: &[(Prefix, Entry)]) {
    same(rt, &rows.len(), &1, &"the rows");
    for (prefix, entry) in rows {
        same(rt, &Some(*prefix), &ten(), &"the prefix");
        same(
            rt,
            &entry.servers.as_slice(),
            &[TEN].as_slice(),
            &"the servers",
        );
    }
}

fn lists(rt: &impl Abort, alloc: Global) -> Option<()> {
    let mut cache: Cache<ListMap<Entry>> = Cache::new(alloc, LocatorSet::of(&[ROOT])?);
    cache.save(Moment::at(1)?, &to_ten()?).ok()?;
    is_ten(rt, &cache.inside(alloc, Prefix::cut(X, 0)).ok()?);
    Some(())
}

#[test]
fn entries_are_listed_whole(rt: HostRuntime) -> Result<(), Fail> {
    twice(|| lists(&rt, rt.alloc()))
}

/// A hole of everything under nonce 3, and the same for 10.0.0.0/8.
const WIDE_HOLE: &str =
    "60000001 0000000000000003 0000000f 00 00 9000 0000 4003 0000 02 00 0006 00000000 0000";

const CUT_HOLE: &str = "60000001 0000000000000003 0000000f 00 08 9000 0000 0001 0a000000";

/// The request goes to this server, under this nonce.
fn goes_to(rt: &impl Abort, sent: &Outgoing, to: Locator, nonce: u64) -> Option<()> {
    let request = read_request(sent.bytes.as_slice()).ok()?;
    same(
        rt,
        &(sent.to, request.nonce()),
        &(to, nonce),
        &"the request",
    );
    Some(())
}

/// A step sends a request to this server under this nonce, or as many lookups are pending as before.
fn steps(
    rt: &impl Abort,
    resolver: &mut ListResolver,
    input: Input<'_>,
    to: Locator,
    nonce: u64,
) -> Option<()> {
    let before = resolver.pending();
    match resolver.step(Moment::at(1)?, input) {
        Ok(reply) => match reply.progress() {
            Progress::Sends(_ticket, sent) => goes_to(rt, &sent, to, nonce),
            _ => None,
        },
        Err(_refused) => {
            same(rt, &resolver.pending(), &before, &"the lookups");
            None
        }
    }
}

/// A new resolver, whose first nonce is 1.
fn rooted(alloc: Global) -> Option<ListResolver> {
    let roots = LocatorSet::of(&[ROOT])?;
    match roots.as_slice() {
        [] => None,
        _ => Some(Resolver::new(alloc, roots, ME, 1)),
    }
}

/// A resolver that asked the server of 10.0.0.0/8 for an identifier of that zone, under nonce 2.
fn asking(rt: &impl Abort, alloc: Global) -> Option<ListResolver> {
    let mut resolver = rooted(alloc)?;
    let bytes = write_referral(alloc, 1, &to_ten()?).ok()?;
    steps(rt, &mut resolver, Input::Ask(X), ROOT, 1).or_else(|| steps(
        rt,
        &mut resolver,
        Input::Ask(X),
        ROOT,
        1,
    ))?;
    let heard = Input::Datagram(ROOT, &bytes);
    if steps(rt, &mut resolver, heard, TEN, 2).is_none() {
        steps(rt, &mut resolver, heard, TEN, 2)?;
    }
    Some(resolver)
}

/// The server is asked once more under nonce 3.
fn asks_again(rt: &impl Abort, ticked: &Ticked) -> Option<()> {
    match ticked {
        Ticked::Sent(_ticket, sent) => goes_to(rt, sent, TEN, 3),
        _ => None,
    }
}

/// It is asked once more, or the lookup stays.
fn hastens(rt: &impl Abort, resolver: &mut ListResolver) -> Option<()> {
    match resolver.hasten(Moment::at(2)?, 2) {
        Ok(ticked) => asks_again(rt, &ticked),
        Err(_refused) => {
            same(rt, &resolver.pending(), &1, &"the lookups");
            None
        }
    }
}

/// What the server says of more than its zone is cut to that.
fn cuts(rt: &impl Abort, alloc: Global, resolver: &ListResolver) -> Option<()> {
    let bytes = bytes_of(alloc, WIDE_HOLE).ok()?;
    let wanted = bytes_of(alloc, CUT_HOLE).ok()?;
    let cut = resolver.cut_to_zone(TEN, &bytes).ok()??;
    same(rt, &cut.as_slice(), &wanted.as_slice(), &"the hole");
    Some(())
}

fn goes_on(rt: &impl Abort, alloc: Global) -> Option<()> {
    let mut resolver = asking(rt, alloc)?;
    is_ten(rt, &resolver.inside(Prefix::cut(X, 0)).ok()?);
    hastens(rt, &mut resolver).or_else(|| hastens(rt, &mut resolver))?;
    cuts(rt, alloc, &resolver)
}

#[test]
fn a_lookup_is_hastened_and_its_reply_cut(rt: HostRuntime) -> Result<(), Fail> {
    twice(|| goes_on(&rt, rt.alloc()))
}
