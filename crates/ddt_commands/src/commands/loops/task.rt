//! The servers of a register and one resolver, over sockets of the loopback.

ghost use Rattle.std.specs.Prelude.{◌≡◌, None, Some, IfErr, IfOk, OnOk};
ghost use Rattle.ddt_path.specs.declared.locator.Locator.{Locator as ALocator};
ghost use Rattle.ddt_commands.specs.CommandLine.Call.{Call};
ghost use Rattle.ddt_commands.specs.Commands.Loop.{AreUntouched, CallsForTask, IsEndsText, IsWhyNoRun, LoopsOver, server_locators};
ghost use Rattle.ddt_commands.specs.Loopback.{first_outside as first_outside_of};
ghost use Rattle.ddt_commands.specs.Sockets.{Binds};
ghost use Rattle.ddt_commands.specs.declared.refusal.Refusal.TheVariants.{NoServer as IsNoServer};
ghost use Rattle.ddt_commands.specs.declared.refusal.server.ServerRefusal.TheVariants.{NotLoopback as IsNotLoopback};

use super::end_lines::{are_outcomes, end_lines};
use crate::lines::Lines;
use crate::loopback::first_outside;
use crate::refusal::{Refusal, ServerRefusal};
use crate::resolver::{Client, Servers};
use crate::sockets::bind_all;
use ddt_check::Accepted;
use ddt_loop::{Clock, SocketMap, loop_turns};
use ddt_path::{Locator, Xeid};
use ddt_resolver::Resolver;
use ddt_sim::{Compiled, a_step_keeps_a_resolver_sound};
use ddt_sockets::Wires;
use std::alloc::{AllocError, Global};
use std::io;

/// What is looked up, and by which resolver.
#[derive(Clone, Copy, Debug)]
pub struct Task<'a> {
    pub ids: &'a [Xeid],
    /// The resolver's own address.
    pub me: Locator,
    /// The nonce of the resolver's first request.
    pub seed: u64,
    /// The greatest number of turns.
    pub turns: u32,
}

/// The lines of what the lookups of these identifiers end in, one for each. A new resolver looks them up over the
/// servers of the register. The sockets are bound before: the resolver's own, and then the servers' in the order of the
/// groups' rows.
///
/// Refused where a server isn't at a loopback address, where a socket can't be bound, or if out of memory.
#[tactic(auto, using(crate::specs::Commands::Loop::no_memory))]
pub fn loop_over<W, C, B>(
    alloc: Global,
    register: &Accepted,
    task: Task<'_>,
    wires: &mut W,
    clock: &mut C,
    bind: &B,
) -> Result<Lines, Refusal<'static>>
where
    W: Wires,
    C: Clock,
    B: Fn(&mut W, Locator) -> io::Result<()> + Drop,
    requires { B.IsAlwaysCallable bind.now }
    ensures text { (call : Call) → CallsForTask call task.entry → IfOk result (λ lines. IsEndsText
        (LoopsOver (Binds B.Fn bind.now) W.calls C.readings wires.old wires.new clock.old clock.new)
        call register.now lines.complete lines.text.items) }
    ensures refused { (call : Call) → CallsForTask call task.entry → IfErr result (IsWhyNoRun
        (AreUntouched wires.old wires.new clock.old clock.new)
        (LoopsOver (Binds B.Fn bind.now) W.calls C.readings wires.old wires.new clock.old clock.new)
        call register.now) }
{
    a_step_keeps_a_resolver_sound();
    let sockets = locators_of_servers(alloc, register)?;
    are_on_loopback(&sockets)?;
    let servers: Servers = Compiled::build(alloc, register)?;
    let mut resolver: Client = Resolver::new(alloc, register.roots(), task.me, task.seed);
    bind_all(wires, bind, task.me, &sockets)?;
    let tree = SocketMap {
        me: task.me,
        sockets: &sockets,
        servers: &servers,
    };
    let ends = loop_turns(wires, clock, &tree, &mut resolver, task.ids, task.turns)?;
    Ok(Lines {
        text: end_lines(alloc, task.ids, &ends)?,
        complete: are_outcomes(&ends),
    })
}

/// Refused as NotLoopback where an address isn't a loopback address: the first such one is named.
fn are_on_loopback(addresses: &[Locator]) -> Result<(), Refusal<'static>>
    ensures inside { OnOk result (first_outside_of addresses.now ≡ None) }
    ensures outside { IfErr result (λ why. (at : ALocator) × (why ≡ IsNoServer (IsNotLoopback at))
        × (first_outside_of addresses.now ≡ Some at)) }
{
    match first_outside(addresses) {
        Some(at) => Err(Refusal::NoServer(ServerRefusal::NotLoopback(at))),
        None => Ok(()),
    }
}

/// The locators of all servers, in the order of the groups' rows.
fn locators_of_servers(alloc: Global, register: &Accepted) -> Result<Vec<Locator>, AllocError>
    ensures { IfOk result (λ locators. locators.items ≡ server_locators register.now) }
{
    let mut locators = Vec::new(alloc);
    for group in register.register().groups.as_slice() {
        locators.extend_from_slice(group.locators.as_slice())?;
    }
    Ok(locators)
}
