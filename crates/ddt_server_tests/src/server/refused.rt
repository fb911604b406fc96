//! Maps and servers get no memory: they are unchanged, and the next call succeeds.
//!
//! `.ci/memory` runs each of these tests with each growth refused in turn.

use crate::comparison::{given, holds, same, twice};
use crate::server::trie::{DOCUMENTATION, TEN_ONE, finds_longest, front, gets, hole, put};
use crate::server::wires::{ETR, gave, tried};
use ddt_config::{ConfigFault, Content, ServerConfig, from_toml, to_toml};
use ddt_examples::configurations::{EAST, ROOT, SHARED_ROOT, TEN, TWO_AUTHORITIES};
use ddt_examples::messages::{DDT_REQUEST, EAST_ACKNOWLEDGES};
use ddt_examples::{bytes_of, changed};
use ddt_node::{Handled, Server, clear_ddt_bit, config_in, has_room_for, places};
use ddt_path::{Listed, Locator, Prefix, Xeid};
use ddt_sockets::nonces::{Outstanding, SentRequest};
use ddt_sockets::{Call, PolledWires, Served, WaitingDatagram, WiresInMemory, serve_turns};
use ddt_trie::{HashedMap, ListMap, MOST_ENTRIES, PrefixMap, TrieMap};
use std::alloc::{AllocError, Global};
use std::process::Abort;
use std::test::Fail;

// ---- maps

/// The identifiers and the lengths of the prefixes that are inserted, and their values, which count them from 0 on.
const INSERTED: &[(Locator, u8, u32)] = &[
    (Locator::V4(TEN_ONE), 41, 0),
    (Locator::V4(TEN_ONE), 49, 1),
    (Locator::V4(TEN_ONE), 65, 2),
    (Locator::V4(TEN_ONE), 57, 3),
    (Locator::V4(TEN_ONE), 45, 4),
    (Locator::V4(TEN_ONE), 33, 5),
    (Locator::V4(TEN_ONE), 20, 6),
    (Locator::V6(DOCUMENTATION), 161, 7),
    (Locator::V6(DOCUMENTATION), 160, 8),
    (Locator::V4(TEN_ONE), 64, 9),
];

/// The addresses of both identifiers.
const ADDRESSES: &[Locator] = &[Locator::V4(TEN_ONE), Locator::V6(DOCUMENTATION)];

fn identifier(address: Locator) -> Xeid {
    Xeid { iid: 0, address }
}

/// The prefix of a row.
fn prefix_of(rt: &impl Abort, row: &(Locator, u8, u32)) -> Prefix {
    front(rt, identifier(row.0), row.1)
}

/// Of the prefixes of the first rows, so many of them, the longest that covers the identifier, with its value.
fn longest_among(rt: &impl Abort, count: u32, x: Xeid) -> Option<(Prefix, u32)> {
    let mut len = 0;
    let mut found = None;
    for row in INSERTED {
        let prefix = prefix_of(rt, row);
        if row.2 < count && prefix.covers_xeid(x) && row.1 > len {
            len = row.1;
            found = Some((prefix, row.2));
        }
    }
    found
}

/// The map has the values of the first rows, so many of them, and none of the others.
fn has_values<M: PrefixMap<u32>>(rt: &impl Abort, map: &M, count: u32) {
    same(rt, &map.len(), &(count as usize), &"the length");
    for row in INSERTED {
        let value = if row.2 < count { Some(row.2) } else { None };
        gets(rt, map, prefix_of(rt, row), value);
    }
}

/// The map finds for both identifiers the longest of these prefixes.
fn has_longest<M: PrefixMap<u32>>(rt: &impl Abort, map: &M, count: u32) {
    for address in ADDRESSES {
        let x = identifier(*address);
        finds_longest(rt, map, x, longest_among(rt, count, x));
    }
}

/// The holes of both identifiers.
fn holes<M: PrefixMap<u32>>(rt: &impl Abort, map: &M) -> [Option<Prefix>; 2] {
    [
        hole(rt, map, identifier(Locator::V4(TEN_ONE))),
        hole(rt, map, identifier(Locator::V6(DOCUMENTATION))),
    ]
}

/// The map is as it was before the insert of this row, when this was free.
fn is_as_before<M: PrefixMap<u32>>(
    rt: &impl Abort,
    map: &M,
    count: u32,
    before: &[Option<Prefix>; 2],
) {
    has_values(rt, map, count);
    has_longest(rt, map, count);
    same(rt, &holes(rt, map), before, &count);
}

fn is_back(rt: &impl Abort, back: (Prefix, u32), prefix: Prefix, value: u32) {
    same(rt, &back, &(prefix, value), &"what comes back");
}

/// An insert of a new prefix. Refused memory it hands the pair back, the map answers as before, and the next inserts.
fn inserts<M: PrefixMap<u32>>(
    rt: &impl Abort,
    map: &mut M,
    prefix: Prefix,
    value: u32,
) -> Result<(), Fail> {
    let before = holes(rt, map);
    if let Err(back) = put(rt, map, prefix, value) {
        is_back(rt, back, prefix, value);
        is_as_before(rt, map, value, &before);
        put(rt, map, prefix, value).ok().ok_or("no memory")?;
    }
    Ok(())
}

/// Each of these is inserted, and then the map has those up to it.
fn fills<M: PrefixMap<u32>>(alloc: Global, rt: &impl Abort) -> Result<(), Fail> {
    let mut map = M::empty(alloc);
    for row in INSERTED {
        let count = row.2.saturating_add(1);
        inserts(rt, &mut map, prefix_of(rt, row), row.2)?;
        has_values(rt, &map, count);
        has_longest(rt, &map, count);
    }
    Ok(())
}

#[test]
fn list_map_is_left_by_a_refused_insert(rt: HostRuntime) -> Result<(), Fail> {
    fills::<ListMap<u32>>(rt.alloc(), &rt)
}

#[test]
fn trie_map_is_left_by_a_refused_insert(rt: HostRuntime) -> Result<(), Fail> {
    fills::<TrieMap<u32>>(rt.alloc(), &rt)
}

#[test]
fn hashed_map_is_left_by_a_refused_insert(rt: HostRuntime) -> Result<(), Fail> {
    fills::<HashedMap<u32>>(rt.alloc(), &rt)
}

// ---- servers

type TrieServer = Server<TrieMap<u32>>;

/// The configuration of a text, read once more where memory is refused.
fn config(alloc: Global, text: &str) -> Result<ServerConfig, Fail> {
    match from_toml(alloc, text) {
        Ok(config) => Ok(config),
        Err(_refused) => Ok(from_toml(alloc, text)?),
    }
}

/// Its text again.
fn text(alloc: Global, config: &ServerConfig) -> Result<String, AllocError> {
    match to_toml(alloc, config) {
        Ok(text) => Ok(text),
        Err(_refused) => to_toml(alloc, config),
    }
}

fn is_of(rt: &impl Abort, alloc: Global, config: &ServerConfig, wanted: &str) -> Result<(), Fail> {
    let text = text(alloc, config)?;
    same(rt, &text.as_str(), &wanted, &"the configuration");
    Ok(())
}

/// A server of a configuration, or the configuration.
fn built(rt: &impl Abort, alloc: Global, config: ServerConfig) -> Result<TrieServer, ServerConfig> {
    assert!(rt; has_room_for(&config));
    Server::build(alloc, config)
}

/// A server of a text. Refused memory the configuration has come back, and is built then.
fn server(rt: &impl Abort, alloc: Global, text: &str) -> Result<TrieServer, Fail> {
    match built(rt, alloc, config(alloc, text)?) {
        Ok(server) => Ok(server),
        Err(back) => {
            is_of(rt, alloc, &back, text)?;
            Ok(built(rt, alloc, back).ok().ok_or("no memory")?)
        },
    }
}

/// A server answers by each child that an authority holds.
fn has_children(rt: &impl Abort, server: &TrieServer, content: &Content) {
    let Content::Children(children) = content else {
        return;
    };
    for child in children.as_slice() {
        let answer = server.answer(child.prefix.inner());
        same(rt, &answer.prefix, &child.prefix, &"the child");
        let (found, wanted) = (answer.servers.as_slice(), child.locators.as_slice());
        same(rt, &found, &wanted, &"its locators");
    }
}

fn is_built(rt: &impl Abort, alloc: Global, text: &str) -> Result<(), Fail> {
    let server = server(rt, alloc, text)?;
    let wanted = config(alloc, text)?;
    same(rt, server.name(), &wanted.name, &"the name");
    same(rt, &server.role(), &wanted.role, &"the role");
    let locators = server.locators().as_slice();
    same(rt, &locators, &wanted.locators.as_slice(), &"the locators");
    for authority in wanted.authorities.as_slice() {
        has_children(rt, &server, &authority.content);
    }
    Ok(())
}

#[test]
fn a_server_is_built_or_its_configuration_comes_back(rt: HostRuntime) -> Result<(), Fail> {
    for text in [EAST, SHARED_ROOT, TWO_AUTHORITIES] {
        is_built(&rt, rt.alloc(), text)?;
    }
    Ok(())
}

/// The bytes of a worked message.
fn message(alloc: Global, fields: &str) -> Result<Vec<u8>, Fail> {
    match bytes_of(alloc, fields) {
        Ok(bytes) => Ok(bytes),
        Err(_refused) => Ok(bytes_of(alloc, fields)?),
    }
}

/// What a server sends for a datagram, asked for once more where memory is refused.
fn handled(alloc: Global, server: &TrieServer, bytes: &[u8]) -> Result<Handled, AllocError> {
    match server.handle(alloc, bytes) {
        Ok(handled) => Ok(handled),
        Err(_refused) => server.handle(alloc, bytes),
    }
}

/// The reply, and the request that goes on, with the ETR.
fn sent(handled: &Handled) -> Option<(&[u8], &[u8], Locator)> {
    match (&handled.reply, &handled.forward) {
        (Some(reply), Some(forward)) => {
            Some((reply.as_slice(), forward.bytes.as_slice(), forward.to))
        },
        _ => None,
    }
}

fn are_sent(rt: &impl Abort, handled: &Handled, reply: &[u8], forward: &[u8]) {
    let wanted = Some((reply, forward, ETR));
    same(rt, &sent(handled), &wanted, &"what is sent");
}

#[test]
fn a_request_is_handled_whole(rt: HostRuntime) -> Result<(), Fail> {
    let east = server(&rt, rt.alloc(), EAST)?;
    let request = message(rt.alloc(), DDT_REQUEST)?;
    let wanted = message(rt.alloc(), EAST_ACKNOWLEDGES)?;
    let handled = handled(rt.alloc(), &east, &request)?;
    are_sent(&rt, &handled, &wanted, &changed(request, &[(0, 0x80)]));
    Ok(())
}

/// The server has the configuration of this name, and answers by it with the prefix of this length.
fn is_server(rt: &impl Abort, server: &TrieServer, name: &str, len: u8) {
    same(rt, &server.name().as_bytes(), &name.as_bytes(), &"the name");
    let answer = server.answer(identifier(Locator::V4(TEN_ONE)));
    same(rt, &answer.prefix.len(), &len, &"the answer");
}

/// It takes the configuration of the bytes, or stays as it is.
fn adopts(rt: &impl Abort, alloc: Global, server: &mut TrieServer) -> Option<()> {
    let adopted = server.adopt(alloc, ROOT.as_bytes());
    match adopted {
        Ok(()) => is_server(rt, server, "root", 41),
        Err(_refused) => is_server(rt, server, "ten", 49),
    }
    given(rt, adopted, &ConfigFault::Memory)
}

fn adopts_config(rt: &impl Abort, alloc: Global, server: &mut TrieServer) -> Option<()> {
    let config = given(rt, config_in(alloc, TEN.as_bytes()), &ConfigFault::Memory)?;
    let adopted = server.adopt_config(alloc, config);
    match adopted {
        Ok(()) => is_server(rt, server, "ten", 49),
        Err(_refused) => is_server(rt, server, "root", 41),
    }
    given(rt, adopted, &ConfigFault::Memory)
}

fn reads(rt: &impl Abort, alloc: Global) -> Option<()> {
    let mut server = given(
        rt,
        TrieServer::read(alloc, TEN.as_bytes()),
        &ConfigFault::Memory,
    )?;
    is_server(rt, &server, "ten", 49);
    if adopts(rt, alloc, &mut server).is_none() {
        adopts(rt, alloc, &mut server)?;
    }
    adopts_config(rt, alloc, &mut server).or_else(|| adopts_config(rt, alloc, &mut server))
}

#[test]
fn a_configuration_is_taken_or_the_server_stays(rt: HostRuntime) -> Result<(), Fail> {
    twice(|| reads(&rt, rt.alloc()))
}

/// A request is answered into a buffer.
fn answers_into(rt: &impl Abort, alloc: Global, east: &TrieServer, request: &[u8]) -> Option<()> {
    let wanted = bytes_of(alloc, EAST_ACKNOWLEDGES).ok()?;
    let mut buffer = Vec::new(alloc);
    let sent = east.handle_into(alloc, request, &mut buffer).ok()?;
    same(rt, &buffer.as_slice(), &wanted.as_slice(), &"the reply");
    let to = sent.forward.map(|forward| forward.to);
    same(
        rt,
        &(sent.has_reply, to),
        &(true, Some(ETR)),
        &"what is sent",
    );
    let reply = east.reply(alloc, request).ok()??;
    same(rt, &reply.as_slice(), &wanted.as_slice(), &"the reply");
    Some(())
}

fn answers(rt: &impl Abort, alloc: Global) -> Option<()> {
    let east = TrieServer::read(alloc, EAST.as_bytes()).ok()?;
    let request = bytes_of(alloc, DDT_REQUEST).ok()?;
    answers_into(rt, alloc, &east, &request)?;
    let onward = clear_ddt_bit(alloc, &request).ok()?;
    let wanted = changed(request, &[(0, 0x80)]);
    same(rt, &onward.as_slice(), &wanted.as_slice(), &"the request");
    Some(())
}

#[test]
fn a_request_is_answered_whole_into_a_buffer(rt: HostRuntime) -> Result<(), Fail> {
    twice(|| answers(&rt, rt.alloc()))
}

/// Of two items of one prefix the place of the first counts.
fn has_places(rt: &impl Abort, alloc: Global, items: &[Prefix]) -> Option<()> {
    assert!(rt; items.len() < MOST_ENTRIES);
    let map: TrieMap<u32> = places(alloc, items).ok()?;
    for (prefix, place) in items.iter().zip([0, 1, 0]) {
        gets(rt, &map, *prefix, Some(place));
    }
    Some(())
}

/// A request is noted, or none is outstanding.
fn notes(rt: &impl Abort, queue: &mut Outstanding) -> Option<()> {
    let noted = queue.note(SentRequest {
        at: RESOLVER,
        to: SERVER,
        wire: 7,
        plain: 1,
        sent_at: 0,
        timer: None,
    });
    same(
        rt,
        &queue.len(),
        &usize::from(noted.is_ok()),
        &"outstanding",
    );
    noted.ok()
}

fn keeps(rt: &impl Abort, alloc: Global) -> Option<()> {
    let x = identifier(Locator::V4(TEN_ONE));
    let ten = Prefix::block(0, Locator::V4(0x0a00_0000), 8).ok()?;
    has_places(rt, alloc, &[ten, Prefix::host(x), ten])?;
    let mut wires = PolledWires::new(alloc);
    wires.watch(0).ok()?;
    let mut queue = Outstanding::new(alloc);
    notes(rt, &mut queue).or_else(|| notes(rt, &mut queue))?;
    holds(rt, queue.has(7), &"the nonce on the wire");
    Some(())
}

#[test]
fn places_and_requests_are_kept_whole(rt: HostRuntime) -> Result<(), Fail> {
    twice(|| keeps(&rt, rt.alloc()))
}

// ---- turns

const SERVER: Locator = Locator::V4(0x7f00_0101);

const RESOLVER: Locator = Locator::V4(0x7f00_0035);

/// The worked request.
fn request(alloc: Global) -> Result<WaitingDatagram, Fail> {
    Ok(WaitingDatagram {
        at: SERVER,
        from: RESOLVER,
        port: 4342,
        bytes: Listed::of(message(alloc, DDT_REQUEST)?),
    })
}

/// Wires at which the request waits three times.
fn busy(alloc: Global) -> Result<WiresInMemory, Fail> {
    let mut wires = WiresInMemory::new(alloc, 0);
    for _ in 0..3 {
        if wires.add(request(alloc)?).is_err() {
            wires.add(request(alloc)?)?;
        }
    }
    Ok(wires)
}

/// The request, the reply to it, and the request that goes on to the ETR.
#[derive(Drop)]
struct Messages {
    request: Vec<u8>,
    reply: Vec<u8>,
    onward: Vec<u8>,
}

fn all_messages(alloc: Global) -> Result<Messages, Fail> {
    Ok(Messages {
        request: message(alloc, DDT_REQUEST)?,
        reply: message(alloc, EAST_ACKNOWLEDGES)?,
        onward: changed(message(alloc, DDT_REQUEST)?, &[(0, 0x80)]),
    })
}

/// A call of a turn.
#[derive(Clone, Copy, Debug, PartialEq)]
enum Made {
    /// The poll, which gave the request.
    Polled,
    /// The reply to it was tried.
    Replied,
    /// The request was tried at the ETR.
    WentOn,
}

/// What a call is, by the call before it. A poll is followed by a reply, or by the poll of the next turn if the request
/// is lost. A reply is followed by the forwarded request, and that by the next poll.
fn made_behind(rt: &impl Abort, before: Made, call: &Call, messages: &Messages) -> Made {
    if before == Made::Replied {
        holds(rt, tried(Some(call), ETR, 4342, &messages.onward), call);
        return Made::WentOn;
    }
    if before == Made::Polled && tried(Some(call), RESOLVER, 4342, &messages.reply) {
        return Made::Replied;
    }
    holds(rt, gave(Some(call), 4342, &messages.request), call);
    Made::Polled
}

/// How many replies are among the calls of turns, whose last call is whole too.
fn replies(rt: &impl Abort, calls: &[Call], messages: &Messages) -> u32 {
    let mut last = Made::WentOn;
    let mut replies: u32 = 0;
    for call in calls {
        last = made_behind(rt, last, call, messages);
        if last == Made::Replied {
            replies = replies.saturating_add(1);
        }
    }
    holds(rt, last != Made::Replied, &last);
    replies
}

/// Three turns made these calls and no others.
fn are_calls(rt: &impl Abort, calls: &[Call], served: &Served, messages: &Messages) {
    let replies = replies(rt, calls, messages);
    same(
        rt,
        &(replies, calls.len() as u64),
        &(served.replied, 3 + 2 * u64::from(replies)),
        &"replies and calls",
    );
}

/// Three turns receive each request. Whether each was replied to: one growth that is refused loses one reply, and the
/// next turn goes on. Wires to which memory is refused tell no call.
fn are_served(
    rt: &impl Abort,
    wires: &WiresInMemory,
    served: &Served,
    messages: &Messages,
) -> Result<bool, Fail> {
    same(rt, &served.received, &3, &"received");
    if let Some(calls) = wires.recorded_calls() {
        are_calls(rt, calls, served, messages);
    }
    match served.replied {
        2 | 3 => Ok(served.replied == 3),
        _ => Err("memory for more than one datagram is wanted".into()),
    }
}

/// Three turns over wires at which the request waits three times; whether each was replied to.
fn is_round_whole(rt: &impl Abort, alloc: Global, east: &TrieServer) -> Result<bool, Fail> {
    let messages = all_messages(alloc)?;
    let mut wires = busy(alloc)?;
    let served = serve_turns(alloc, &mut wires, east, SERVER, 3);
    are_served(rt, &wires, &served, &messages)
}

/// Where one growth is refused, a second round has all memory.
#[test]
fn a_turn_without_memory_loses_one_datagram(rt: HostRuntime) -> Result<(), Fail> {
    let east = server(&rt, rt.alloc(), EAST)?;
    if is_round_whole(&rt, rt.alloc(), &east)? || is_round_whole(&rt, rt.alloc(), &east)? {
        return Ok(());
    }
    Err("two rounds lost a datagram".into())
}
