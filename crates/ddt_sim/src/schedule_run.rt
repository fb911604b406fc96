//! Running a schedule: each step, and the datagrams that it sends.

ghost use Rattle.std.specs.Prelude.{◌≡◌, ◌++◌, ◌<◌, ℕ, IfOk, OnOk, OnErr, IsOk, Some, false, [], List, length, slice_get};
ghost use Rattle.std.specs.Option.{option_map};
ghost use Rattle.ddt_register.specs.declared.register.Register.{Register};
ghost use Rattle.ddt_sim.specs.declared.schedule.Step.TheVariants as step_as;
ghost use Rattle.ddt_resolver.specs.Step.{ResolverCall, call_of};
ghost use Rattle.ddt_sim.specs.World.{world, members, at_place, request_at, sent_for, later as later_than, StillAre, OthersStay, ComesIntoForce, CallsResolver, call_at, Resolves, Serves, WorldStep, Stops};
ghost use Rattle.ddt_sim.specs.History.{Line, IsTranscriptOf, StopsAfter};
ghost use Rattle.ddt_sim.specs.Schedules.{KeepServers, StartsSound, AnswersAreRight, RepliesAreRight, TicketsEndOnce, FailuresAreRight};
ghost use Rattle.ddt_sim.specs.Tries.{NoRepliesAreRight};
ghost use Rattle.ddt_sim.specs.InForce.{AnswersAreSince, AnswersAreOfLate, RepliesAreInForce, FailuresAreInForce, NoRepliesAreInForce, TicketsEndOnceInForce};
ghost use Rattle.ddt_sim.specs.Sound.{IsSound};

use crate::laws::laws_of_runs;
use crate::one_lookup::can_be_asked;
use crate::schedule::{Datagram, Event, Step, Transcript};
use crate::servers::Servers;
use ddt_cache::{Entry, LAST_MOMENT, Moment};
use ddt_path::{Listed, Locator};
use ddt_resolver::{Input, Resolver};
use ddt_trie::PrefixMap;
use std::alloc::{AllocError, Global};

/// Runs a schedule of steps over servers and a resolver, starting at the resolver's time. The datagrams that steps send
/// are numbered from 0, requests and replies alike. A datagram is delivered only by a Deliver of its number, any number
/// of times; a request goes to the servers that are in force then. Pass changes the moment alone, at most to the last
/// one; the resolver's time follows at its next call.
///
/// At first the servers of number 0 are in force, and after a Replace those of its number, if there are any.
///
/// Fails only if out of memory. Then the resolver is as after some first steps, but for the time.
pub fn run<S: Servers, M: PrefixMap<Entry>>(
    alloc: Global,
    servers: &mut [S],
    resolver: &mut Resolver<M>,
    steps: &[Step],
) -> Result<Transcript, AllocError>
    requires { 0 < length servers.old }
    // If no step replaces the servers: over honest servers of an accepted register, and from a resolver that is
    // sound for it and has nothing pending, each answer is what the register assigns to the identifier of its own ask.
    ensures answers { IfOk result (λ t. AnswersAreRight (members S.honest S.silent servers.old) resolver.old steps.now t
        resolver.new) }
    // Each request that is delivered has its reply, which spells its nonce and what the register says there.
    ensures replies { IfOk result (λ t. RepliesAreRight (members S.honest S.silent servers.old) resolver.old steps.now t
        resolver.new) }
    // No ticket ends twice.
    ensures once { IfOk result (λ t. TicketsEndOnce (members S.honest S.silent servers.old) resolver.old steps.now t
        resolver.new) }
    // A lookup gives up only for want of a reply or of nonces, a reply is ignored only where it comes too late, and an
    // ask is refused only for want of room or of nonces.
    ensures failures { IfOk result (λ t. FailuresAreRight (members S.honest S.silent servers.old) resolver.old steps.now
        t resolver.new) }
    // A lookup gives up for want of a reply only where each server of its zone was asked twice. The deadline of each of
    // these requests had come, and no reply to it was handed over before.
    ensures no_reply { IfOk result (λ t. NoRepliesAreRight (members S.honest S.silent servers.old) resolver.old
        steps.now t resolver.new) }
    // The resolver is sound afterwards, also where memory stops it.
    ensures sound { (r : Register) → at_place S.honest servers.old 0 r → KeepServers steps.now
        → StartsSound r resolver.old → IsSound r resolver.new }
    // If steps replace the servers: over honest servers of accepted registers with the same root locators, which are
    // silent elsewhere, and from a resolver that is sound for the first and has nothing pending, each answer to a
    // ticket is what a register assigns to its identifier that was in force at some step since its ask.
    ensures replaced_answers { IfOk result (λ t. AnswersAreSince (members S.honest S.silent servers.old) resolver.old
        steps.now t resolver.new) }
    // Each answer at once is what a register assigns that was in force less than 902,000 milliseconds before.
    ensures replaced_remembered { IfOk result (λ t. AnswersAreOfLate (members S.honest S.silent servers.old)
        resolver.old steps.now t resolver.new) }
    // Each request that is delivered to a server of the register in force has its reply, which spells its nonce and
    // what that register says there. At every other locator it meets silence.
    ensures replaced_replies { IfOk result (λ t. RepliesAreInForce (members S.honest S.silent servers.old) resolver.old
        steps.now t resolver.new) }
    // A lookup gives up for want of a reply or of nonces, because it is led round, or because nobody is in charge.
    ensures replaced_failures { IfOk result (λ t. FailuresAreInForce (members S.honest S.silent servers.old)
        resolver.old steps.now t resolver.new) }
    // A lookup gives up for want of a reply only where each of its servers was asked twice since it turned to them. The
    // deadline of each of these requests had come, and no reply to it was handed over before.
    ensures replaced_no_reply { IfOk result (λ t. NoRepliesAreInForce (members S.honest S.silent servers.old)
        resolver.old steps.now t resolver.new) }
    // No ticket ends twice.
    ensures replaced_once { IfOk result (λ t. TicketsEndOnceInForce (members S.honest S.silent servers.old) resolver.old
        steps.now t resolver.new) }
    // Whatever the servers reply, and whichever are in force: the transcript tells a run of the resolver's steps, the
    // servers' replies and their replacements. Where servers are neither known to be honest nor to be silent, any reply
    // may come back from them, or none.
    ensures run { IfOk result (λ t. (past : List Line)
        × IsTranscriptOf (members S.honest S.silent servers.old) resolver.old
        steps.now t resolver.new past) }
    ensures stopped { OnErr result (StopsAfter (members S.honest S.silent servers.old) resolver.old steps.now
        resolver.new) }
    ensures stay { (k : ℕ) (r : Register) → at_place S.honest servers.old k r → at_place S.honest servers.new k r }
    ensures stay_silent { (k : ℕ) (r : Register) → at_place S.silent servers.old k r
        → at_place S.silent servers.new k r }
    // Servers that don't come into force are as before.
    ensures others { OthersStay (ComesIntoForce steps.now) servers.old servers.new }
    // No steps are never refused.
    ensures none { steps.now ≡ [] → IsOk result }
{
    laws_of_runs();
    resolver.in_order();
    let mut scene = RunState {
        moment: resolver.time(),
        member: 0,
        sent: Vec::new(alloc),
    };
    let mut events: Vec<Event> = Vec::new(alloc);
    for step in steps {
        let event = take_step(alloc, servers, resolver, &mut scene, *step)?;
        events.push(event)?;
    }
    Ok(Transcript {
        events: Listed::of(events),
        sent: Listed::of(scene.sent),
    })
}

/// The state of a run, besides its resolver.
#[derive(Drop)]
pub(crate) struct RunState {
    /// The moment.
    pub(crate) moment: Moment,
    /// The number of the servers in force.
    pub(crate) member: usize,
    /// All datagrams in the order of sending.
    pub(crate) sent: Vec<Datagram>,
}

/// Takes one step of a schedule.
fn take_step<S: Servers, M: PrefixMap<Entry>>(
    alloc: Global,
    servers: &mut [S],
    resolver: &mut Resolver<M>,
    scene: &mut RunState,
    step: Step,
) -> Result<Event, AllocError>
    requires { scene.old.member < length servers.old }
    ensures step { IfOk result (λ event. WorldStep (members S.honest S.silent servers.old)
        (world scene.old.moment scene.old.member scene.old.sent.items resolver.old) step event
        (world scene.new.moment scene.new.member scene.new.sent.items resolver.new)) }
    ensures stopped { OnErr result (Stops
        (world scene.old.moment scene.old.member scene.old.sent.items resolver.old) step resolver.new) }
    ensures within { scene.new.member < length servers.new }
    ensures stay { StillAre S.honest servers.old servers.new }
    ensures stay_silent { StillAre S.silent servers.old servers.new }
    ensures others { OthersStay (λ k. k ≡ scene.old.member) servers.old servers.new }
{
    match step {
        Step::Ask(x) => {
            can_be_asked(x, resolver.me());
            resolve(alloc, resolver, scene, step)
        }
        Step::Deliver(number) => deliver(alloc, servers, resolver, scene, number),
        Step::Pass(millis) => {
            scene.moment = later(scene.moment, millis);
            Ok(Event::Passed(scene.moment))
        }
        Step::Tick => resolve(alloc, resolver, scene, step),
        Step::Replace(number) => {
            if number >= servers.len() as u64 {
                return Ok(Event::Nothing);
            }
            scene.member = number as usize;
            Ok(Event::Replaced(number))
        }
    }
}

/// The moment `millis` milliseconds later, at most the last one.
fn later(moment: Moment, millis: u64) -> Moment
    ensures { result ≡ later_than moment millis }
{
    let now = moment.millis().saturating_add(millis).min(LAST_MOMENT);
    match Moment::at(now) {
        Some(moment) => moment,
        None => moment,
    }
}

/// Calls the resolver as a step says, and sends the request that follows, if any.
fn resolve<M: PrefixMap<Entry>>(
    alloc: Global,
    resolver: &mut Resolver<M>,
    scene: &mut RunState,
    step: Step,
) -> Result<Event, AllocError>
    requires { (call : ResolverCall)
        × CallsResolver (world scene.old.moment scene.old.member scene.old.sent.items resolver.old)
        step call }
    ensures step { IfOk result (λ event. Resolves
        (world scene.old.moment scene.old.member scene.old.sent.items resolver.old) step event
        (world scene.new.moment scene.new.member scene.new.sent.items resolver.new)) }
    ensures stopped { OnErr result (Stops
        (world scene.old.moment scene.old.member scene.old.sent.items resolver.old) step resolver.new) }
    ensures member { scene.new.member ≡ scene.old.member }
{
    let me = resolver.me();
    let input = input_of(step, scene.sent.as_slice());
    let event = Event::of(resolver.step(scene.moment, input)?);
    send(alloc, &mut scene.sent, me, &event)?;
    Ok(event)
}

/// The resolver's input of a step that calls it.
fn input_of(step: Step, sent: &[Datagram]) -> Input<'_>
    ensures { call_of result ≡ call_at sent.now step }
{
    match step {
        Step::Ask(x) => Input::Ask(x),
        Step::Deliver(number) => match sent.get(number as usize) {
            Some(reply) => Input::Datagram(reply.source, reply.bytes.as_slice()),
            None => Input::Tick,
        },
        Step::Tick | Step::Pass(_) | Step::Replace(_) => Input::Tick,
    }
}

/// Delivers a datagram: a request to the servers in force, a reply to the resolver.
fn deliver<S: Servers, M: PrefixMap<Entry>>(
    alloc: Global,
    servers: &mut [S],
    resolver: &mut Resolver<M>,
    scene: &mut RunState,
    number: u64,
) -> Result<Event, AllocError>
    requires { scene.old.member < length servers.old }
    ensures step { IfOk result (λ event. WorldStep (members S.honest S.silent servers.old)
        (world scene.old.moment scene.old.member scene.old.sent.items resolver.old) (step_as.Deliver number) event
        (world scene.new.moment scene.new.member scene.new.sent.items resolver.new)) }
    ensures stopped { OnErr result (Stops
        (world scene.old.moment scene.old.member scene.old.sent.items resolver.old) (step_as.Deliver number)
        resolver.new) }
    ensures member { scene.new.member ≡ scene.old.member }
    ensures stay { StillAre S.honest servers.old servers.new }
    ensures stay_silent { StillAre S.silent servers.old servers.new }
    ensures others { OthersStay (λ k. k ≡ scene.old.member) servers.old servers.new }
{
    match is_reply(scene.sent.as_slice(), number) {
        Some(true) => resolve(alloc, resolver, scene, Step::Deliver(number)),
        Some(false) => serve(alloc, &mut servers[scene.member], &mut scene.sent, number),
        None => Ok(Event::Nothing),
    }
}

/// Whether the datagram of a number is a reply; None if no datagram has it.
fn is_reply(sent: &[Datagram], number: u64) -> Option<bool>
    ensures { result ≡ option_map (λ d. d.is_reply) (slice_get sent.now number) }
{
    sent.get(number as usize).map(|d| d.is_reply)
}

/// Delivers a request to its server, and sends the reply.
fn serve<S: Servers>(
    alloc: Global,
    servers: &mut S,
    sent: &mut Vec<Datagram>,
    number: u64,
) -> Result<Event, AllocError>
    requires { option_map (λ d. d.is_reply) (slice_get sent.old.items number) ≡ Some false }
    ensures serves { IfOk result (Serves (S.honest servers.old) (S.silent servers.old) sent.old.items number
        sent.new.items) }
    ensures stay { (r : Register) → S.honest servers.old r → S.honest servers.new r }
    ensures stay_silent { (r : Register) → S.silent servers.old r → S.silent servers.new r }
{
    let request = &sent[number as usize];
    let source = request.to;
    let to = request.source;
    let Some(bytes) = servers.answer(alloc, source, request.bytes.as_slice())? else {
        return Ok(Event::Silent);
    };
    let next = sent.len() as u64;
    sent.push(Datagram {
        source,
        to,
        is_reply: true,
        bytes,
    })?;
    Ok(Event::Replied(next))
}

/// Sends the request of an event, if it has one.
fn send(
    alloc: Global,
    sent: &mut Vec<Datagram>,
    me: Locator,
    event: &Event,
) -> Result<(), AllocError>
    ensures { OnOk result (sent.new.items ≡ sent.old.items ++ sent_for me (request_at event.now)) }
{
    let Some(request) = event.request() else {
        return Ok(());
    };
    let mut bytes = Vec::new(alloc);
    bytes.extend_from_slice(request.bytes.as_slice())?;
    sent.push(Datagram {
        source: me,
        to: request.to,
        is_reply: false,
        bytes: Listed::of(bytes),
    })?;
    Ok(())
}
