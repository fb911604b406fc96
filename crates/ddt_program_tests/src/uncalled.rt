//! A call of each public function that no program calls, of those that no other module here calls. `tests/uncalled`
//! lists them. That each call is proved shows that it can be made as the function requires.

use crate::comparison::{holds, same};
use ddt_cache::{Cache, Entry, Moment};
use ddt_check::{Accepted, check};
use ddt_config::settings::ServerSettings;
use ddt_daemon::{AnswerCounts, ServerRecord, ServerSocket, serve_ready};
use ddt_deploy::folders::{FileName, FolderInMemory};
use ddt_examples::configurations::EAST;
use ddt_examples::map_registers::IPV4_REGISTER;
use ddt_examples::messages::{DDT_REQUEST, EAST_ACKNOWLEDGES};
use ddt_examples::registers::CAMPUS;
use ddt_examples::{Dice, bytes_of, with_locator};
use ddt_foreign::{plain_request, read_foreign_request};
use ddt_laws::registrations::keyed_sites_are_in_range;
use ddt_map_register::hmac::{hmac_sha1, hmac_sha256};
use ddt_map_register::read_register as read_map_register;
use ddt_map_server::keys::read_keys_text;
use ddt_node::Server;
use ddt_organisations::{Organisation, in_charge};
use ddt_path::{Locator, LocatorSet, Name, Prefix, Xeid, shortest_match};
use ddt_register::read_register;
use ddt_registrar::KeyedSite;
use ddt_review::warnings::truncation_of;
use ddt_sockets::nonces::RandomNonces;
use ddt_sockets::{MOST_BYTES, PolledWires, WiresInMemory};
use ddt_trie::ListMap;
use rand_pcg::Pcg32;
use std::alloc::Global;
use std::collections::BTreeSet;
use std::test::Fail;

const X: Xeid = Xeid {
    iid: 0,
    address: Locator::V4(0x0a01_0203),
};

#[test]
fn a_cache_is_purged(rt: HostRuntime) -> Result<(), Fail> {
    let roots = LocatorSet::of(&[Locator::V4(0x7f00_0001)]).ok_or("no roots")?;
    let mut cache: Cache<ListMap<Entry>> = Cache::new(rt.alloc(), roots);
    let now = Moment::at(60_000).ok_or("no moment")?;
    same(&rt, &cache.purge(now), &0, &"the entries");
    same(&rt, &cache.time().millis(), &60_000, &"the time");
    Ok(())
}

#[test]
fn referrals_are_summed(rt: HostRuntime) {
    let counts = AnswerCounts {
        ms_ack: 2,
        hole: 1,
        ..AnswerCounts::default()
    };
    same(&rt, &counts.referrals(), &3, &"the sum");
}

#[test]
fn a_folder_in_memory_fails(rt: HostRuntime) {
    let mut folder = FolderInMemory::new(rt.alloc());
    folder.fail_after(Some(0));
    let beside = folder.bytes_beside(FileName::Register);
    holds(&rt, beside.is_none(), &"beside");
}

#[test]
fn dice_give_one_of_some(rt: HostRuntime) {
    let mut dice = Dice::of(1);
    same(&rt, &dice.one_of(&[7, 7]), &7, &"one of sevens");
    same(&rt, &dice.below(1), &0, &"below one");
}

#[test]
fn a_locator_is_added(rt: HostRuntime) -> Result<(), Fail> {
    let referral = bytes_of(rt.alloc(), EAST_ACKNOWLEDGES)?;
    let len = referral.len();
    let longer = with_locator(referral, [127, 0, 0, 9], 3)?;
    same(&rt, &longer.len(), &(len + 12), &"a locator's length");
    Ok(())
}

#[test]
fn a_request_is_written_plainly(rt: HostRuntime) -> Result<(), Fail> {
    let bytes = bytes_of(rt.alloc(), DDT_REQUEST)?;
    let request = read_foreign_request(&bytes)?;
    let written = plain_request(rt.alloc(), &request, true)?;
    holds(&rt, !written.is_empty(), &"a request");
    Ok(())
}

#[test]
fn codes_have_their_first_bytes(rt: HostRuntime) {
    let parts: &[&[u8]] = &[b"what do ya want ", b"for nothing?"];
    same(&rt, &hmac_sha256(b"Jefe", parts)[0], &0x5b, &"SHA-256");
    same(&rt, &hmac_sha1(b"Jefe", parts)[0], &0xef, &"SHA-1");
}

#[test]
fn a_code_is_known(rt: HostRuntime) -> Result<(), Fail> {
    let bytes = bytes_of(rt.alloc(), IPV4_REGISTER)?;
    let register = read_map_register(&bytes)?;
    holds(&rt, register.head().has_known_code(), &"the code");
    same(&rt, &register.code().len(), &16, &"the code's length");
    let record = register.records().next().ok_or("no record")?;
    same(&rt, &record.flags(), &0x1000, &"the flags");
    Ok(())
}

#[test]
fn a_round_without_a_datagram_ends(rt: HostRuntime) -> Result<(), Fail> {
    let alloc = rt.alloc();
    let server: Server<ListMap<u32>> = Server::read(alloc, EAST.as_bytes())?;
    let settings = ServerSettings::none(alloc);
    let door = ServerSocket {
        alloc,
        at: X.address,
        settings: &settings,
    };
    let mut wires = WiresInMemory::new(alloc, 0);
    let mut done = ServerRecord::new(alloc);
    let mut buffer = [0; MOST_BYTES];
    let served = serve_ready(&mut wires, &server, &door, 1, &mut buffer, &mut done);
    same(&rt, &served, &0, &"the datagrams");
    Ok(())
}

#[test]
fn no_keys_are_read_of_an_empty_text(rt: HostRuntime) {
    holds(&rt, read_keys_text(rt.alloc(), "").is_err(), &"no keys");
}

/// The campus, accepted.
fn campus(alloc: Global) -> Result<Accepted, Fail> {
    match check(read_register(alloc, CAMPUS.as_bytes())?) {
        Ok(accepted) => Ok(accepted),
        Err(_refused) => Err("not accepted".into()),
    }
}

#[test]
fn who_runs_all_is_in_charge(rt: HostRuntime) -> Result<(), Fail> {
    let alloc = rt.alloc();
    let mut groups = BTreeSet::new(alloc);
    for name in ["root", "ten", "east"] {
        groups.insert(Name::of(name.as_bytes()).ok_or("no name")?)?;
    }
    let all = [Organisation::of(campus(alloc)?, groups)];
    same(&rt, &in_charge(&all, X), &Some(0), &"the one");
    Ok(())
}

#[test]
fn the_shortest_prefix_matches(rt: HostRuntime) {
    let items = [Prefix::cut(X, 1), Prefix::host(X)];
    let found = shortest_match(&items, Prefix::host(X)).copied();
    same(&rt, &found, &Some(Prefix::cut(X, 1)), &"the shortest");
}

#[test]
fn a_file_is_whole(rt: HostRuntime) {
    let cut = truncation_of(None, CAMPUS.as_bytes());
    holds(&rt, cut.is_none(), &"the campus");
}

#[test]
fn nonces_are_a_translation(rt: HostRuntime) {
    let wires = WiresInMemory::new(rt.alloc(), 0);
    let nonces = RandomNonces::new(rt.alloc(), wires, Pcg32::new(1, 1), true);
    nonces.is_translation();
    same(&rt, &nonces.outstanding(), &0, &"outstanding requests");
}

#[test]
fn nothing_is_ready_without_a_socket(rt: HostRuntime) {
    let wires = PolledWires::new(rt.alloc());
    holds(&rt, !wires.is_ready_at(X.address), &"no socket");
}

#[test]
fn a_law_holds_of_no_sites() {
    let sites: &[KeyedSite] = &[];
    keyed_sites_are_in_range(sites);
}
