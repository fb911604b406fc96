//! Memory is refused to the servers of a register, to lookups, to schedules and to runs over wires. What the contracts
//! say stays, and the next call returns what this one would have returned.
//!
//! `.ci/memory` runs each of these tests with each growth refused in turn.

use crate::comparison::{holds, same};
use crate::lookup::sim::schedules::{A_ZONE_COMES_AND_GOES, Lines, SIDE_BY_SIDE, step_of};
use crate::lookup::texts::{identifier, locator, prefix};
use crate::lookup::turns::loopback::Loopback;
use crate::lookup::worlds::{ListResolver, ListServers, ME, moment};
use ddt_cache::Moment;
use ddt_check::{Accepted, check};
use ddt_ecm::read_request;
use ddt_examples::bytes_of;
use ddt_examples::messages::{DDT_REQUEST, ROOT_REFERS_TO_TEN};
use ddt_examples::registers::{CAMPUS, CAMPUS_GROWN};
use ddt_loop::{LoopEnd, SocketMap, SteppingClock, loop_turns};
use ddt_path::{Listed, Locator, LocatorSet, Outcome, Xeid};
use ddt_register::read_register;
use ddt_resolver::{AskError, Asked, Heard, Ignored, Resolver, Ticked, Why};
use ddt_sim::{Compiled, Event, Hop, Lookup, LookupError, Servers, Step, Transcript, lookup, run};
use std::alloc::{AllocError, Global};
use std::process::Abort;
use std::test::Fail;

// ---- registers, servers and resolvers

const ROOT: Locator = Locator::V4(0x7f00_0001);

/// A locator without a server.
const NOWHERE: Locator = Locator::V4(0x7f00_0009);

/// The accepted register of a text, read once more if memory is refused.
fn accepted(alloc: Global, text: &str) -> Result<Accepted, Fail> {
    let register = match read_register(alloc, text.as_bytes()) {
        Ok(register) => register,
        Err(_refused) => read_register(alloc, text.as_bytes())?,
    };
    match check(register) {
        Ok(accepted) => Ok(accepted),
        Err(_refused) => Err("not accepted".into()),
    }
}

/// The servers of a register, built once more if memory is refused.
fn servers(alloc: Global, text: &str) -> Result<ListServers, Fail> {
    let register = accepted(alloc, text)?;
    match Compiled::build(alloc, &register) {
        Ok(servers) => Ok(servers),
        Err(_refused) => Ok(Compiled::build(alloc, &register)?),
    }
}

/// A new resolver, which asks the root first.
fn resolver(alloc: Global) -> Result<ListResolver, Fail> {
    let roots = LocatorSet::of(&[ROOT]).ok_or("too many locators")?;
    match roots.as_slice() {
        [] => Err("no root".into()),
        _ => Ok(Resolver::new(alloc, roots, ME, 1)),
    }
}

/// The bytes of a worked message.
fn message(alloc: Global, fields: &str) -> Result<Vec<u8>, Fail> {
    match bytes_of(alloc, fields) {
        Ok(bytes) => Ok(bytes),
        Err(_refused) => Ok(bytes_of(alloc, fields)?),
    }
}

/// The identifier of the registered site, and one of a hole.
const SITE: &str = "[0]10.1.2.3";

const HOLE: &str = "[0]10.2.0.1";

/// The assignments of the campus to these identifiers.
fn assigned(text: &str) -> Result<Outcome, Fail> {
    if text == HOLE {
        return Ok(Outcome::Hole {
            prefix: prefix("[0]10.2.0.0/15")?,
        });
    }
    let servers = [locator("127.0.1.1")?, locator("127.0.1.2")?];
    Ok(Outcome::Registered {
        prefix: prefix("[0]10.1.2.0/24")?,
        servers: LocatorSet::of(&servers).ok_or("too many locators")?,
    })
}

// ---- servers

/// A server's reply, asked once more if memory is refused.
fn answered(
    alloc: Global,
    servers: &mut ListServers,
    to: Locator,
    request: &[u8],
) -> Result<Option<Listed<u8>>, AllocError> {
    match servers.answer(alloc, to, request) {
        Ok(reply) => Ok(reply),
        Err(_refused) => servers.answer(alloc, to, request),
    }
}

fn is_reply(rt: &impl Abort, reply: &Option<Listed<u8>>, wanted: &[u8]) {
    let bytes = match reply {
        Some(bytes) => bytes.as_slice(),
        None => &[],
    };
    same(rt, &bytes, &wanted, &"the reply");
}

/// The same, without a count of the lookup.
fn replied(
    alloc: Global,
    servers: &ListServers,
    request: &[u8],
) -> Result<Option<Listed<u8>>, AllocError> {
    match servers.reply(alloc, ROOT, request) {
        Ok(reply) => Ok(reply),
        Err(_refused) => servers.reply(alloc, ROOT, request),
    }
}

#[test]
fn a_server_answers_whole(rt: HostRuntime) -> Result<(), Fail> {
    let mut servers = servers(rt.alloc(), CAMPUS)?;
    let request = message(rt.alloc(), DDT_REQUEST)?;
    let wanted = message(rt.alloc(), ROOT_REFERS_TO_TEN)?;
    is_reply(
        &rt,
        &answered(rt.alloc(), &mut servers, ROOT, &request)?,
        &wanted,
    );
    is_reply(&rt, &replied(rt.alloc(), &servers, &request)?, &wanted);
    // Without a server, no memory is needed.
    is_reply(&rt, &servers.answer(rt.alloc(), NOWHERE, &request)?, &[]);
    Ok(())
}

// ---- lookups

/// The answer to a new ask for an identifier, asked once more if memory is refused.
fn asked(resolver: &mut ListResolver, now: Moment, text: &str) -> Result<Asked, Fail> {
    let x = identifier(text)?;
    match resolver.ask(now, x) {
        Err(AskError::Memory) => Ok(resolver.ask(now, x)?),
        asked => Ok(asked?),
    }
}

/// The nonce of a new lookup of an unknown identifier. The lookup stays pending.
fn next_nonce(resolver: &mut ListResolver) -> Result<u64, Fail> {
    let now = resolver.time();
    match &asked(resolver, now, "[0]11.0.0.1")? {
        Asked::Sent(ticket, _request) => Ok(ticket.number()),
        Asked::Answer(_outcome) => Err("an answer at once".into()),
    }
}

/// Checks that a hop asks for the identifier with this nonce, and has the reply of its server.
fn is_hop(
    rt: &impl Abort,
    alloc: Global,
    servers: &mut ListServers,
    x: Xeid,
    hop: &Hop,
    nonce: u64,
) -> Result<(), Fail> {
    let request = read_request(hop.request.as_slice())?;
    same(rt, &(request.nonce(), request.xeid()), &(nonce, x), &hop.to);
    let reply = answered(alloc, servers, hop.to, hop.request.as_slice())?;
    is_reply(rt, &reply, hop.reply.as_slice());
    Ok(())
}

/// Checks that the hops have the nonces after this one, and that no other was used.
fn are_all(
    rt: &impl Abort,
    alloc: Global,
    servers: &mut ListServers,
    x: Xeid,
    hops: &[Hop],
    nonces: (u64, u64),
) -> Result<(), Fail> {
    let mut nonce = nonces.0;
    for hop in hops {
        nonce = nonce.saturating_add(1);
        is_hop(rt, alloc, servers, x, hop, nonce)?;
    }
    same(rt, &nonce.saturating_add(1), &nonces.1, &x);
    Ok(())
}

fn is_outcome(rt: &impl Abort, outcome: &Outcome, text: &str) -> Result<(), Fail> {
    same(rt, outcome, &assigned(text)?, &text);
    Ok(())
}

/// Checks that a lookup of an identifier returns its assignment and each of its hops, or the error if memory is
/// refused.
fn looks_up(
    rt: &impl Abort,
    alloc: Global,
    servers: &mut ListServers,
    resolver: &mut ListResolver,
    text: &str,
) -> Result<Option<LookupError>, Fail> {
    let x = identifier(text)?;
    let first = next_nonce(resolver)?;
    let now = resolver.time();
    let found: Lookup = match lookup(alloc, servers, resolver, now, x) {
        Ok(found) => found,
        Err(why) => return Ok(Some(why)),
    };
    is_outcome(rt, &found.outcome, text)?;
    let next = next_nonce(resolver)?;
    are_all(rt, alloc, servers, x, found.hops.as_slice(), (first, next))?;
    Ok(None)
}

/// Checks that the lookup was refused memory and isn't pending; the one whose nonce was read before it is.
fn is_undone(rt: &impl Abort, why: LookupError, resolver: &ListResolver, before: usize) {
    same(
        rt,
        &(why, resolver.pending()),
        &(LookupError::Memory, before.saturating_add(1)),
        &"a lookup that was refused memory",
    );
}

/// A lookup, made once more if memory is refused: then no more lookups are pending than before.
fn is_found(
    rt: &impl Abort,
    alloc: Global,
    servers: &mut ListServers,
    resolver: &mut ListResolver,
    text: &str,
) -> Result<(), Fail> {
    let before = resolver.pending();
    let Some(why) = looks_up(rt, alloc, servers, resolver, text)? else {
        return Ok(());
    };
    is_undone(rt, why, resolver, before);
    match looks_up(rt, alloc, servers, resolver, text)? {
        None => Ok(()),
        Some(why) => Err(why.into()),
    }
}

/// Checks that lookups of both identifiers return their assignments.
fn are_found(
    rt: &impl Abort,
    alloc: Global,
    servers: &mut ListServers,
    resolver: &mut ListResolver,
) -> Result<(), Fail> {
    is_found(rt, alloc, servers, resolver, SITE)?;
    is_found(rt, alloc, servers, resolver, HOLE)
}

#[test]
fn a_lookup_gives_its_outcome(rt: HostRuntime) -> Result<(), Fail> {
    let mut servers = servers(rt.alloc(), CAMPUS)?;
    let mut resolver = resolver(rt.alloc())?;
    are_found(&rt, rt.alloc(), &mut servers, &mut resolver)
}

// ---- schedules

/// The texts of two registers.
type Registers = [&'static str; 2];

const CAMPUS_ALONE: Registers = [CAMPUS, CAMPUS];

const CAMPUS_GROWS: Registers = [CAMPUS, CAMPUS_GROWN];

/// The servers of two registers, of which the first are in force at first, and a resolver.
#[derive(Drop)]
struct Stage {
    members: [ListServers; 2],
    resolver: ListResolver,
}

fn new_stage(alloc: Global, registers: &Registers) -> Result<Stage, Fail> {
    Ok(Stage {
        members: [servers(alloc, registers[0])?, servers(alloc, registers[1])?],
        resolver: resolver(alloc)?,
    })
}

/// An empty list with room for `count` steps, made once more if memory is refused.
fn room(alloc: Global, count: usize) -> Result<Vec<Step>, AllocError> {
    match Vec::with_capacity(alloc, count) {
        Ok(room) => Ok(room),
        Err(_refused) => Vec::with_capacity(alloc, count),
    }
}

/// The steps of these lines.
fn steps(alloc: Global, lines: Lines) -> Result<Vec<Step>, Fail> {
    let mut steps = room(alloc, lines.len())?;
    for (act, _told) in lines {
        steps.push(step_of(*act)?)?;
    }
    Ok(steps)
}

/// The summary of an event, without bytes. A lookup has the number of its ticket, an answer at once 0.
#[derive(Clone, Copy, Debug, PartialEq)]
enum EventSummary {
    Asks(u64, Locator),
    Answer(u64, Outcome),
    GaveUp(u64, Why),
    Ignored(Ignored),
    Refused(AskError),
    Replied(u64),
    Silent,
    Passed(Moment),
    Replaced(u64),
    Nothing,
}

fn summary(event: &Event) -> EventSummary {
    match event {
        Event::Asked(asked) => asked_summary(asked),
        Event::Refused(why) => EventSummary::Refused(*why),
        Event::Replied(number) => EventSummary::Replied(*number),
        Event::Silent => EventSummary::Silent,
        Event::Heard(heard) => heard_summary(heard),
        Event::Passed(moment) => EventSummary::Passed(*moment),
        Event::Ticked(ticked) => ticked_summary(ticked),
        Event::Replaced(number) => EventSummary::Replaced(*number),
        Event::Nothing => EventSummary::Nothing,
    }
}

fn asked_summary(asked: &Asked) -> EventSummary {
    match asked {
        Asked::Sent(ticket, request) => EventSummary::Asks(ticket.number(), request.to),
        Asked::Answer(outcome) => EventSummary::Answer(0, *outcome),
    }
}

fn heard_summary(heard: &Heard) -> EventSummary {
    match heard {
        Heard::Ignored(why) => EventSummary::Ignored(*why),
        Heard::Followed(ticket, request) => EventSummary::Asks(ticket.number(), request.to),
        Heard::Answer(ticket, outcome) => EventSummary::Answer(ticket.number(), *outcome),
        Heard::GaveUp(ticket, why) => EventSummary::GaveUp(ticket.number(), *why),
    }
}

fn ticked_summary(ticked: &Ticked) -> EventSummary {
    match ticked {
        Ticked::Nothing => EventSummary::Nothing,
        Ticked::Sent(ticket, request) => EventSummary::Asks(ticket.number(), request.to),
        Ticked::Answer(ticket, outcome) => EventSummary::Answer(ticket.number(), *outcome),
        Ticked::GaveUp(ticket, why) => EventSummary::GaveUp(ticket.number(), *why),
    }
}

fn is_alike(rt: &impl Abort, one: &Event, other: &Event) {
    same(rt, &summary(one), &summary(other), &"an event");
}

fn are_alike(rt: &impl Abort, one: &[Event], other: &[Event]) {
    same(rt, &one.len(), &other.len(), &"the events");
    for (event, wanted) in one.iter().zip(other) {
        is_alike(rt, event, wanted);
    }
}

/// The transcript of these steps on a new stage.
fn runs_anew(
    alloc: Global,
    registers: &Registers,
    steps: &[Step],
) -> Result<Result<Transcript, AllocError>, Fail> {
    let mut stage = new_stage(alloc, registers)?;
    Ok(run(alloc, &mut stage.members, &mut stage.resolver, steps))
}

/// The same, once more if memory is refused.
fn wanted(alloc: Global, registers: &Registers, steps: &[Step]) -> Result<Transcript, Fail> {
    match runs_anew(alloc, registers, steps)? {
        Ok(told) => Ok(told),
        Err(_refused) => Ok(runs_anew(alloc, registers, steps)??),
    }
}

/// Checks that two transcripts have the same events, and as many datagrams.
fn is_whole(rt: &impl Abort, told: &Transcript, wanted: &Transcript) {
    let (sent, to_send) = (told.sent.as_slice(), wanted.sent.as_slice());
    same(rt, &sent.len(), &to_send.len(), &"the datagrams");
    are_alike(rt, told.events.as_slice(), wanted.events.as_slice());
}

/// The nonce of a new lookup of an identifier and the server that it asks; None if it is answered at once.
fn server_asked(
    resolver: &mut ListResolver,
    now: Moment,
    text: &str,
) -> Result<Option<(u64, Locator)>, Fail> {
    match &asked(resolver, now, text)? {
        Asked::Sent(ticket, sent) => Ok(Some((ticket.number(), sent.to))),
        Asked::Answer(_outcome) => Ok(None),
    }
}

/// What can be observed of a resolver: the number of pending lookups, and the nonces and servers of new lookups of two
/// identifiers.
#[derive(Clone, Copy, Debug, PartialEq)]
struct Seen {
    pending: usize,
    asked: [Option<(u64, Locator)>; 2],
}

fn look_at(resolver: &mut ListResolver, now: Moment) -> Result<Seen, Fail> {
    let pending = resolver.pending();
    let asked = [
        server_asked(resolver, now, SITE)?,
        server_asked(resolver, now, HOLE)?,
    ];
    Ok(Seen { pending, asked })
}

/// Whether another resolver is the same after these steps.
fn is_after(
    alloc: Global,
    stage: &Stage,
    other: &mut Stage,
    left: &Seen,
    first: &[Step],
) -> Result<bool, Fail> {
    let now = stage.resolver.time();
    let _told = run(alloc, &mut other.members, &mut other.resolver, first)?;
    Ok(look_at(&mut other.resolver, now)? == *left)
}

/// Checks that the same steps have the same effects on two stages.
fn go_on_alike(
    rt: &impl Abort,
    alloc: Global,
    one: &mut Stage,
    other: &mut Stage,
    steps: &[Step],
) -> Result<(), Fail> {
    let told = run(alloc, &mut one.members, &mut one.resolver, steps)?;
    let wanted = run(alloc, &mut other.members, &mut other.resolver, steps)?;
    is_whole(rt, &told, &wanted);
    Ok(())
}

/// Checks that a run without enough memory left its resolver as it is after some first steps. A second run goes on from
/// there.
fn is_after_some(
    rt: &impl Abort,
    alloc: Global,
    stage: &mut Stage,
    registers: &Registers,
    steps: &[Step],
) -> Result<(), Fail> {
    let now = stage.resolver.time();
    let left = look_at(&mut stage.resolver, now)?;
    for count in 0..=steps.len() {
        let mut other = new_stage(alloc, registers)?;
        if is_after(alloc, stage, &mut other, &left, &steps[..count])? {
            return go_on_alike(rt, alloc, stage, &mut other, steps);
        }
    }
    lost(rt, &left);
    Ok(())
}

fn lost(rt: &impl Abort, left: &Seen) {
    holds(rt, false, &("a resolver after no number of steps", left));
}

/// Checks that a run of these lines has the same events as on a new stage. If memory is refused it has none, and a
/// second run goes on where it stopped.
fn plays(
    rt: &impl Abort,
    alloc: Global,
    stage: &mut Stage,
    registers: &Registers,
    lines: Lines,
) -> Result<(), Fail> {
    let steps = steps(alloc, lines)?;
    match run(alloc, &mut stage.members, &mut stage.resolver, &steps) {
        Ok(told) => is_whole(rt, &told, &wanted(alloc, registers, &steps)?),
        Err(_refused) => is_after_some(rt, alloc, stage, registers, &steps)?,
    }
    Ok(())
}

fn asks_the_root(rt: &impl Abort, resolver: &mut ListResolver) -> Result<(), Fail> {
    let now = resolver.time();
    let asked = server_asked(resolver, now, "[0]11.0.0.1")?;
    let (_nonce, server) = asked.ok_or("an answer at once")?;
    same(rt, &server, &ROOT, &"the server that is asked");
    Ok(())
}

/// Runs these lines on a new stage, after which another identifier is unknown.
fn plays_and_asks(
    rt: &impl Abort,
    alloc: Global,
    stage: &mut Stage,
    registers: &Registers,
    lines: Lines,
) -> Result<(), Fail> {
    plays(rt, alloc, stage, registers, lines)?;
    asks_the_root(rt, &mut stage.resolver)
}

/// Checks that after a run of two lookups side by side, lookups of both identifiers return their assignments.
fn stays_sound(rt: &impl Abort, alloc: Global, stage: &mut Stage) -> Result<(), Fail> {
    plays_and_asks(rt, alloc, stage, &CAMPUS_ALONE, SIDE_BY_SIDE)?;
    are_found(rt, alloc, &mut stage.members[0], &mut stage.resolver)
}

/// Checks that the steps before the refusal keep their effects, and that what was saved is right: lookups of the
/// schedule's identifiers return their assignments.
#[test]
fn after_a_schedule_the_resolver_is_sound(rt: HostRuntime) -> Result<(), Fail> {
    let mut stage = new_stage(rt.alloc(), &CAMPUS_ALONE)?;
    stays_sound(&rt, rt.alloc(), &mut stage)
}

/// The same if servers are replaced, except that a hole is remembered which is no longer assigned.
#[test]
fn a_schedule_with_other_servers_is_told_or_undone(rt: HostRuntime) -> Result<(), Fail> {
    let mut stage = new_stage(rt.alloc(), &CAMPUS_GROWS)?;
    plays_and_asks(
        &rt,
        rt.alloc(),
        &mut stage,
        &CAMPUS_GROWS,
        A_ZONE_COMES_AND_GOES,
    )
}

// ---- runs over wires

/// The sockets of the campus's servers.
const SOCKETS: [Locator; 4] = [
    ROOT,
    Locator::V4(0x7f00_000a),
    Locator::V4(0x7f00_0101),
    Locator::V4(0x7f00_0102),
];

/// The servers of the campus, a resolver, a network and a clock.
#[derive(Drop)]
struct World {
    servers: ListServers,
    resolver: ListResolver,
    wires: Loopback,
    clock: SteppingClock,
}

/// The ends of both identifiers, in at most 20,000 turns of 5 milliseconds.
fn turned(alloc: Global, world: &mut World, ids: &[Xeid]) -> Result<Vec<LoopEnd>, AllocError> {
    loop_turns(
        &mut world.wires,
        &mut world.clock,
        &SocketMap {
            me: ME,
            sockets: &SOCKETS,
            servers: &world.servers,
        },
        &mut world.resolver,
        ids,
        20_000,
    )
}

/// What can be observed of a world: the numbers of calls and of pending lookups, the resolver's time and the clock's
/// next reading.
fn scene(world: &World) -> (u64, usize, Moment, Moment) {
    let (wires, resolver) = (&world.wires, &world.resolver);
    (
        wires.made(),
        resolver.pending(),
        resolver.time(),
        world.clock.next,
    )
}

fn is_as_before(rt: &impl Abort, world: &World, before: (u64, usize, Moment, Moment)) {
    same(
        rt,
        &scene(world),
        &before,
        &"a world that was refused memory",
    );
}

/// The same, once more if memory is refused to its own lists: then no call was made, no clock read, and no lookup is
/// pending.
fn ends(
    rt: &impl Abort,
    alloc: Global,
    world: &mut World,
    ids: &[Xeid],
) -> Result<Vec<LoopEnd>, AllocError> {
    let before = scene(world);
    match turned(alloc, world, ids) {
        Ok(ends) => Ok(ends),
        Err(_refused) => {
            is_as_before(rt, world, before);
            turned(alloc, world, ids)
        }
    }
}

/// Whether an end is the assigned outcome. The only other end is an ask that was refused memory, since one lost
/// datagram is sent again.
fn is_right(rt: &impl Abort, end: &LoopEnd, text: &str) -> Result<bool, Fail> {
    match end {
        LoopEnd::Answer(outcome) => is_outcome(rt, outcome, text)?,
        LoopEnd::Refused(AskError::Memory) => return Ok(false),
        _ => return Err("memory for more than one datagram is wanted".into()),
    }
    Ok(true)
}

/// The number of asks that were refused memory; each other one has its outcome.
fn refused(rt: &impl Abort, ends: &[LoopEnd]) -> Result<u64, Fail> {
    let mut refused: u64 = 0;
    for (end, text) in ends.iter().zip(&[SITE, HOLE]) {
        if !is_right(rt, end, text)? {
            refused = refused.saturating_add(1);
        }
    }
    Ok(refused)
}

/// Checks that there are two ends, and that no ask was refused whose request was to be sent.
fn are_two(rt: &impl Abort, ends: &[LoopEnd], refused: u64, sent: u64) {
    same(rt, &ends.len(), &2, &"the ends");
    holds(rt, refused.saturating_add(sent) <= 2, &(refused, sent));
}

/// Runs over a new network. Returns whether both identifiers have their outcomes.
fn is_run_whole(rt: &impl Abort, alloc: Global, world: &mut World) -> Result<bool, Fail> {
    let ids = [identifier(SITE)?, identifier(HOLE)?];
    world.wires = Loopback::new(alloc, 0);
    let ends = ends(rt, alloc, world, &ids)?;
    let refused = refused(rt, &ends)?;
    are_two(rt, &ends, refused, world.wires.sent_first());
    Ok(refused == 0)
}

fn new_world(alloc: Global) -> Result<World, Fail> {
    let next = moment(0)?;
    Ok(World {
        servers: servers(alloc, CAMPUS)?,
        resolver: resolver(alloc)?,
        wires: Loopback::new(alloc, 0),
        clock: SteppingClock { next, step: 5 },
    })
}

/// If one growth is refused, a second run has all memory.
fn is_run_whole_in_two(rt: &impl Abort, alloc: Global, world: &mut World) -> Result<(), Fail> {
    if is_run_whole(rt, alloc, world)? || is_run_whole(rt, alloc, world)? {
        return Ok(());
    }
    Err("two runs refused an ask".into())
}

#[test]
fn a_run_gives_its_outcomes(rt: HostRuntime) -> Result<(), Fail> {
    let mut world = new_world(rt.alloc())?;
    is_run_whole_in_two(&rt, rt.alloc(), &mut world)
}
