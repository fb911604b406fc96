//! A schedule of a new resolver among the servers of a register, and its lines.

ghost use Rattle.std.specs.Prelude.{◌≡◌, ◌∷◌, map, IfOk, MatchOption};
ghost use Rattle.std.specs.Bool.{Decides};
ghost use Rattle.std.specs.List.{All, AllByRecursion};
ghost use Rattle.ddt_check.specs.Rules.{IsAccepted};
ghost use Rattle.ddt_check.specs.Zones.{roots};
ghost use Rattle.ddt_sim.specs.Compiled.{configs_of};
ghost use Rattle.ddt_commands.specs.Commands.Replay.{IsFirstOther, IsRunText};

use super::event_lines::event_lines;
use crate::resolver::{Client, Servers};
use ddt_check::Accepted;
use ddt_path::{Locator, LocatorSet};
use ddt_resolver::Resolver;
use ddt_sim::{Compiled, Step, a_step_keeps_a_resolver_sound, run};
use std::alloc::{AllocError, Global};

/// The lines of these steps, one for each, over the servers of registers with the same root locators. Those of `first`
/// have the number 0 and are in force at first, and those of `others` have the numbers from 1 on. The resolver has this
/// address, its first request this nonce.
pub fn replay(
    alloc: Global,
    first: &Accepted,
    others: &[Accepted],
    me: Locator,
    seed: u64,
    steps: &[Step],
) -> Result<Vec<u8>, AllocError>
    requires { All (λ r. roots r ≡ roots first.now) others.now }
    ensures { IfOk result (λ text. IsRunText first.now others.now me seed steps.now text.items) }
{
    a_step_keeps_a_resolver_sound();
    let mut servers = servers_of(alloc, first, others)?;
    let mut resolver: Client = Resolver::new(alloc, first.roots(), me, seed);
    let transcript = run(alloc, &mut servers, &mut resolver, steps)?;
    event_lines(alloc, transcript.events.as_slice())
}

/// The servers of each register, in the order of their numbers.
fn servers_of(
    alloc: Global,
    first: &Accepted,
    others: &[Accepted],
) -> Result<Vec<Servers>, AllocError>
    ensures servers { IfOk result (λ servers. servers.items ≡ map configs_of (first.now ∷ others.now)) }
    ensures accepted { IfOk result (λ servers. AllByRecursion IsAccepted (first.now ∷ others.now)) }
{
    // The register that is lent is known to be accepted.
    let _first = first.register();
    let mut servers = Vec::with_capacity(alloc, others.len() + 1)?;
    servers.push(Compiled::build(alloc, first)?)?;
    for register in others {
        let _register = register.register();
        servers.push(Compiled::build(alloc, register)?)?;
    }
    Ok(servers)
}

/// The place of the first of these registers whose root locators aren't those of `first`; None where all are.
pub fn other_roots(first: &Accepted, others: &[Accepted]) -> Option<usize>
    ensures { MatchOption result (All (λ r. roots r ≡ roots first.now) others.now)
        (λ place. IsFirstOther first.now others.now place) }
{
    let own = first.roots();
    for place in 0..others.len() {
        if !has_roots(&others[place], &own) {
            return Some(place);
        }
    }
    None
}

/// Whether these are a register's root locators.
fn has_roots(register: &Accepted, own: &LocatorSet) -> bool
    ensures { Decides result (roots register.now ≡ own.now) }
{
    let found = register.roots();
    found.as_slice() == own.as_slice()
}
