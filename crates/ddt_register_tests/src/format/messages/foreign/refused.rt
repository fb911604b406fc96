//! Memory is refused to what is taken of messages of other implementations: it comes whole or not at all, and the next
//! call gives it.
//!
//! `.ci/memory` runs each of these tests with each growth refused in turn.

use crate::comparison::{same, twice};
use ddt_examples::bytes_of;
use ddt_examples::foreign::NODE_REFERS_TO_NODE;
use ddt_examples::messages::DDT_REQUEST;
use ddt_foreign::{
    Ranked, plain_referral, plain_request, put_ranked, read_foreign, read_foreign_request,
};
use ddt_path::{Locator, Xeid};
use std::alloc::Global;
use std::process::Abort;
use std::test::Fail;

const ASKED: Xeid = Xeid {
    iid: 0,
    address: Locator::V4(0x0a01_0203),
};

const NODE: Locator = Locator::V4(0xc000_0204);

const IPV6_NODE: Locator = Locator::V6(0x2001_0db8_0000_0000_0000_0000_0000_0004);

/// The node's Map-Referral in the one spelling, by hand: locators of priority 1, weight 100 and multicast priority 255.
const PLAIN: &str =
    "60000001 337e1aaa1484e1e0 000005a0 02 08 1000 0000 0001 0a000000 01 64 ff 00 0001 0001 c0000204 01 64 ff 00 0001 0002 20010db8000000000000000000000004";

fn are(rt: &impl Abort, bytes: &[u8], wanted: &[u8]) {
    same(rt, &bytes, &wanted, &"the message");
}

/// Locators are put in the order of their priorities.
fn ranks(rt: &impl Abort, alloc: Global) -> Option<()> {
    let mut ranked = Vec::new(alloc);
    for (priority, address) in [(2, NODE), (1, IPV6_NODE)] {
        put_ranked(&mut ranked, Ranked { priority, address }).ok()?;
    }
    let mut addresses = ranked.iter().map(|one| one.address);
    same(rt, &addresses.next(), &Some(IPV6_NODE), &"the first");
    same(rt, &addresses.next(), &Some(NODE), &"the second");
    Some(())
}

fn reads(rt: &impl Abort, alloc: Global, bytes: &[u8]) -> Option<()> {
    let plain = read_foreign(alloc, bytes, ASKED).ok()?.ok()?;
    same(rt, &plain.nonce, &0x337e_1aaa_1484_e1e0, &"the nonce");
    same(
        rt,
        &plain.record.servers.as_slice(),
        &[NODE, IPV6_NODE].as_slice(),
        &"the servers",
    );
    Some(())
}

fn respells(rt: &impl Abort, alloc: Global, bytes: &[u8]) -> Option<()> {
    let wanted = bytes_of(alloc, PLAIN).ok()?;
    let given = plain_referral(alloc, bytes, ASKED).ok()??;
    are(rt, given.as_slice(), &wanted);
    Some(())
}

fn refers(rt: &impl Abort, alloc: Global) -> Option<()> {
    let bytes = bytes_of(alloc, NODE_REFERS_TO_NODE).ok()?;
    reads(rt, alloc, &bytes)?;
    respells(rt, alloc, &bytes)
}

/// A request in the one spelling is written as it was read.
fn requests(rt: &impl Abort, alloc: Global) -> Option<()> {
    let bytes = bytes_of(alloc, DDT_REQUEST).ok()?;
    let request = read_foreign_request(&bytes).ok()?;
    are(rt, &plain_request(alloc, &request, true).ok()?, &bytes);
    Some(())
}

fn all(rt: &impl Abort, alloc: Global) -> Option<()> {
    ranks(rt, alloc)?;
    refers(rt, alloc)?;
    requests(rt, alloc)
}

#[test]
fn what_is_taken_of_foreign_messages_comes_whole(rt: HostRuntime) -> Result<(), Fail> {
    twice(|| all(&rt, rt.alloc()))
}
