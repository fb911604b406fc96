//! Memory is refused to the registrar: a Map-Register is accepted whole or changes nothing, and the next call accepts
//! it. The end of a registration takes no memory.
//!
//! `.ci/memory` runs each of these tests with each growth refused in turn.

use crate::comparison::{given, holds, same, twice};
use crate::daemon::registrations::refused::message;
use crate::daemon::registrations::registrar::map_server::{EAST, MapServer, SOURCE, east};
use ddt_examples::bytes_of;
use ddt_examples::map_registers::{IPV4_NOTIFY, IPV4_REGISTER, TWO_RECORDS_REGISTER};
use ddt_foreign::Ranked;
use ddt_path::Locator;
use ddt_registrar::{
    Clock, KeyedSite, NotRestored, Refusal, Sender, push_etrs, push_sender, push_site,
    restore_sites,
};
use std::alloc::Global;
use std::process::Abort;
use std::test::Fail;

/// The index of the site of the second record of TWO_RECORDS_REGISTER, and the ETR of the first record.
const SECOND: usize = 3;

const FIRST_ETR: Locator = Locator::V4(0x7f00_0202);

/// The Map-Server, asked for once more where memory is refused.
fn map_server(alloc: Global) -> Result<MapServer, Fail> {
    let at = MapServer::build(alloc, false).or_else(|| MapServer::build(alloc, false));
    Ok(at.ok_or("no memory")?)
}

/// The Map-Notify for a Map-Register, which is sent once more where memory is refused.
fn takes(
    alloc: Global,
    rt: &impl Abort,
    at: &mut MapServer,
    bytes: &[u8],
) -> Result<Option<Vec<u8>>, Refusal> {
    let before = (at.counts(0), at.counts(SECOND), at.etr(rt, EAST));
    match at.take(alloc, rt, bytes, SOURCE) {
        Err(Refusal::Memory) => {
            let after = (at.counts(0), at.counts(SECOND), at.etr(rt, EAST));
            same(rt, &after, &before, &"all stays");
            at.take(alloc, rt, bytes, SOURCE)
        }
        taken => taken,
    }
}

#[test]
fn a_register_is_taken_or_changes_nothing(rt: HostRuntime) -> Result<(), Fail> {
    let alloc = rt.alloc();
    let register = message(alloc, IPV4_REGISTER)?;
    let wanted = message(alloc, IPV4_NOTIFY)?;
    let mut at = map_server(alloc)?;
    let notify = takes(alloc, &rt, &mut at, register.as_slice())?.ok_or("no Map-Notify")?;
    same(
        &rt,
        &notify.as_slice(),
        &wanted.as_slice(),
        &"the Map-Notify",
    );
    at.has_etrs(&rt, EAST, &[SOURCE]);
    same(&rt, &at.counts(0), &Some((1, 1, true)), &"registered once");
    Ok(())
}

#[test]
fn a_register_of_two_records_is_taken_or_changes_nothing(rt: HostRuntime) -> Result<(), Fail> {
    let alloc = rt.alloc();
    let register = message(alloc, TWO_RECORDS_REGISTER)?;
    let mut at = map_server(alloc)?;
    let notify = takes(alloc, &rt, &mut at, register.as_slice())?;
    holds(&rt, notify.is_none(), &"no Map-Notify");
    at.has_etrs(&rt, EAST, &[FIRST_ETR]);
    let once = Some((1, 1, true));
    same(
        &rt,
        &(at.counts(0), at.counts(SECOND)),
        &(once, once),
        &"registered once",
    );
    Ok(())
}

#[test]
fn a_registration_ends(rt: HostRuntime) -> Result<(), Fail> {
    let alloc = rt.alloc();
    let register = message(alloc, IPV4_REGISTER)?;
    let mut at = map_server(alloc)?;
    let notify = takes(alloc, &rt, &mut at, register.as_slice())?;
    holds(&rt, notify.is_some(), &"the Map-Notify");
    at.registrar.end(alloc, &mut at.server, 179_999);
    at.has_etrs(&rt, EAST, &[SOURCE]);
    at.registrar.end(alloc, &mut at.server, 180_000);
    at.has_etrs(&rt, EAST, &[]);
    same(&rt, &at.counts(0), &Some((0, 1, true)), &"none");
    Ok(())
}

// ---- a site, and its lines in the file of registrations

const CLOCK: Clock = Clock {
    moment: 0,
    wall: 1_000_000,
};

/// The file after the worked Map-Register, by hand: it lasts three minutes, and the digest is of Key ID, Algorithm ID,
/// 1 and the secret.
const FILE: &str = "ddtd registrations 1
site [0]10.1.2.0/24 registered
xtr 0102030405060708090a0b0c0d0e0f10/0000000000000007 1 2 5eeac67484ca694ad91dd10e4b8a339a 1180000 127.0.2.1/1
nonce 1 2 0000000000000001 0102030405060708090a0b0c0d0e0f10/0000000000000007
end
";

/// It has so many registrations and last nonces.
fn has(rt: &impl Abort, site: &KeyedSite, count: usize) {
    let counts = (site.live.len(), site.nonces.len(), site.has_registered);
    same(rt, &counts, &(count, count, count > 0), &"the site");
}

/// The Map-Server that has taken the worked Map-Register.
fn registered(rt: &impl Abort, alloc: Global) -> Option<MapServer> {
    let register = bytes_of(alloc, IPV4_REGISTER).ok()?;
    let mut at = MapServer::build(alloc, false)?;
    takes(alloc, rt, &mut at, register.as_slice()).ok()?;
    Some(at)
}

fn saves(rt: &impl Abort, alloc: Global) -> Option<()> {
    let at = registered(rt, alloc)?;
    let site = at.registrar.sites().first()?;
    has(rt, site, 1);
    let mut text = Vec::new(alloc);
    push_site(&mut text, site, CLOCK).ok()?;
    holds(rt, FILE.as_bytes().ends_with(&text), &"the lines");
    same(rt, &text.len(), &(FILE.len() - 21), &"the length");
    text.clear();
    push_sender(&mut text, Sender::At(SOURCE)).ok()?;
    let etr = Ranked {
        priority: 1,
        address: SOURCE,
    };
    push_etrs(&mut text, &[etr]).ok()?;
    same(
        rt,
        &text.as_slice(),
        &b"127.0.2.1 127.0.2.1/1".as_slice(),
        &"the ETR",
    );
    Some(())
}

fn restores(rt: &impl Abort, alloc: Global) -> Option<()> {
    let mut sites = Vec::new(alloc);
    sites.push(east(alloc)?).ok()?;
    let restored = restore_sites(alloc, FILE.as_bytes(), sites.as_mut_slice(), CLOCK);
    let unread = given(rt, restored, &NotRestored::Memory)?;
    same(rt, &unread, &0, &"the lines that were not read");
    for site in &sites {
        has(rt, site, 1);
    }
    Some(())
}

#[test]
fn a_site_is_saved_whole(rt: HostRuntime) -> Result<(), Fail> {
    twice(|| saves(&rt, rt.alloc()))
}

#[test]
fn a_site_is_restored_whole(rt: HostRuntime) -> Result<(), Fail> {
    twice(|| restores(&rt, rt.alloc()))
}
