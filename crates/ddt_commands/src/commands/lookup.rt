//! `ddt lookup REGISTER XEID... [--me ADDRESS] [--seed N]`: identifiers looked up one after the other by one resolver,
//! over the servers of the register.

ghost use Rattle.std.specs.Prelude.{◌≡◌, ◌≢◌, ◌++◌, Bool, false, IfOk, IfSome, OnErr, OnOk};
ghost use Rattle.std.specs.Fn.{FnReturnsAt};
ghost use Rattle.std.specs.List.{flat_map};
ghost use Rattle.ddt_register.specs.declared.register.Register.{Register};
ghost use Rattle.ddt_sim.specs.Compiled.{AreCompiled};
ghost use Rattle.ddt_commands.specs.CommandLine.Call.{call_of};
ghost use Rattle.ddt_sim.specs.Sound.{IsSound};
ghost use Rattle.ddt_sim.specs.declared.lookup_result.LookupError.TheVariants.{Memory as IsMemory};
ghost use Rattle.ddt_lines.specs.Lines.{ended, outcome_text};
ghost use Rattle.ddt_commands.specs.Commands.Assign.{RefusesOnlyMemory};
ghost use Rattle.ddt_commands.specs.Commands.Lookup.{AreAllTold, CallsForLookups, IsLookupText, IsLookupTold, bad_lookup, end_text, replied_line, why_text, lookup_prints};
ghost use Rattle.ddt_commands.specs.Over.{IsTextOver, IsWhyOver};
ghost use Rattle.ddt_commands.specs.Ends.{Ends, streams};

use crate::command_line::{Argument, Declaration, Words};
use crate::lines::Lines;
use crate::over_register::{OverRegister, lines_over};
use crate::refusal::{Refusal, WordRefusal};
use crate::resolver::{Client, Servers, first_nonce, identifiers, own_address, why_name};
use crate::status::Status;
use crate::streams::print_result;
use ddt_cache::Moment;
use ddt_check::Accepted;
use ddt_lines::{hop_line, outcome_line};
use ddt_path::{Locator, Xeid};
use ddt_resolver::Resolver;
use ddt_sim::{Compiled, Hop, LookupError, a_step_keeps_a_resolver_sound, lookup};
use ddt_wire::read_referral;
use std::alloc::{AllocError, Global};
use std::io::{Read, Write};

pub const WORDS: Declaration<'static> = Declaration {
    name: "lookup",
    arguments: &[
        Argument::One("register"),
        Argument::Several("xeid"),
        Argument::Setting("me"),
        Argument::Setting("seed"),
    ],
};

/// Prints the lines of a lookup of each identifier. Refused for the words from left to right, or the register.
pub fn run_lookup<F, O, P, E>(
    alloc: Global,
    words: &Words<'_>,
    open_file: &O,
    out: &mut P,
    err: &mut E,
) -> Status
where
    F: Read + Drop,
    O: Fn(&str) -> Option<F> + Drop,
    P: Write,
    E: Write,
    requires { O.IsAlwaysCallable open_file.now }
    ensures { Ends result (streams P.contents out.old out.new E.contents err.old err.new)
        (lookup_prints (FnReturnsAt O.Fn open_file.now) F.remaining (call_of words.now)) }
{
    let answer = lines_over::<Lookup, F, O>(alloc, words, open_file);
    print_result(alloc, &answer, out, err)
}

/// The identifiers, the resolver's own address, and the nonce of its first request.
#[derive(Debug, Drop)]
pub struct Lookup {
    /// None where memory ran out. A fault of the register is refused before that.
    ids: Option<Vec<Xeid>>,
    me: Locator,
    seed: u64,
}

impl OverRegister<'_> for Lookup {
    ghost bad_word = { bad_lookup };

    ghost asks = { λ call command. IfSome command.ids (λ ids. CallsForLookups call ids.items command.me command.seed) };

    ghost answers = { IsLookupText };

    ghost refuses = { RefusesOnlyMemory };

    fn of(alloc: Global, words: &Words<'_>) -> Result<Lookup, WordRefusal> {
        Ok(Lookup {
            ids: identifiers(alloc, words)?,
            me: own_address(words.setting("me"))?,
            seed: first_nonce(words.setting("seed"))?,
        })
    }

    fn lines(&self, alloc: Global, register: &Accepted) -> Result<Lines, Refusal<'static>> {
        let Some(ids) = &self.ids else {
            return Err(Refusal::OutOfMemory);
        };
        a_step_keeps_a_resolver_sound();
        let mut servers = Compiled::build(alloc, register)?;
        let mut resolver = Resolver::new(alloc, register.roots(), self.me, self.seed);
        Ok(look_up_each(alloc, &mut servers, &mut resolver, ids)?)
    }
}

/// The lines of the lookups of these identifiers, in order, all at the resolver's time. They are complete where each
/// has an outcome.
fn look_up_each(
    alloc: Global,
    servers: &mut Servers,
    resolver: &mut Client,
    ids: &[Xeid],
) -> Result<Lines, AllocError>
    ensures { (r : Register) → AreCompiled servers.old r → IsSound r resolver.old → IfOk result (λ lines.
        AreAllTold r resolver.old.known.time resolver.old ids.now lines.complete lines.text.items) }
{
    let now = resolver.time();
    let mut lines = Lines::whole(Vec::new(alloc));
    for x in ids {
        let more = look_up(alloc, servers, resolver, now, *x)?;
        lines.text.extend_from_slice(&more.text)?;
        lines.complete &= more.complete;
    }
    Ok(lines)
}

/// The lines of one lookup: one for each hop and that of the outcome, or that of its end without one. Fails only if out
/// of memory.
fn look_up(
    alloc: Global,
    servers: &mut Servers,
    resolver: &mut Client,
    now: Moment,
    x: Xeid,
) -> Result<Lines, AllocError>
    ensures told { (r : Register) → AreCompiled servers.old r → IsSound r resolver.old → IfOk result (λ lines.
        IsLookupTold r now x resolver.old lines.complete lines.text.items resolver.new) }
    ensures sound { (r : Register) → AreCompiled servers.old r → IsSound r resolver.old → IsSound r resolver.new }
    ensures stay { (r : Register) → AreCompiled servers.old r → AreCompiled servers.new r }
{
    match lookup(alloc, servers, resolver, now, x) {
        Ok(lookup) => Ok(Lines::whole(found_text(alloc, &lookup)?)),
        Err(error) => {
            let (end, why) = end_of(error)?;
            unfound(alloc, end, why)
        }
    }
}

/// The line of each hop, as its reply says it, and the line of the outcome.
fn found_text(alloc: Global, lookup: &ddt_sim::Lookup) -> Result<Vec<u8>, AllocError>
    ensures { IfOk result (λ text. text.items
        ≡ flat_map replied_line lookup.now.hops ++ ended (outcome_text lookup.now.outcome)) }
{
    let mut text = Vec::new(alloc);
    for hop in lookup.hops.as_slice() {
        push_hop(alloc, &mut text, hop)?;
    }
    text.extend_from_slice(&outcome_line(alloc, &lookup.outcome)?)?;
    Ok(text)
}

/// Appends the line of a hop, as its reply says it; nothing where the reply is no Map-Referral.
fn push_hop(alloc: Global, text: &mut Vec<u8>, hop: &Hop) -> Result<(), AllocError>
    ensures { OnOk result (text.new.items ≡ text.old.items ++ replied_line hop.now) }
{
    match read_referral(hop.reply.as_slice()) {
        Ok(referral) => text.extend_from_slice(&hop_line(alloc, hop.to, &referral)?),
        Err(_fault) => Ok(()),
    }
}

/// The words of the line of a lookup that ended with an error. Fails only if the lookup was out of memory.
fn end_of(error: LookupError) -> Result<(&'static str, &'static str), AllocError>
    ensures words { IfOk result (λ words. words.0.now ++ words.1.now ≡ end_text error) }
    ensures known { IfOk result (λ words. error ≢ IsMemory) }
    ensures memory { OnErr result (error ≡ IsMemory) }
{
    match error {
        LookupError::GaveUp(why) => Ok(("gave-up ", why_name(why))),
        LookupError::TooMany => Ok(("refused ", "TooMany")),
        LookupError::Memory => Err(AllocError),
    }
}

/// The line of a lookup that has no outcome.
fn unfound(alloc: Global, end: &str, why: &str) -> Result<Lines, AllocError>
    ensures text { IfOk result (λ lines. lines.text.items ≡ ended (end.now ++ why.now)) }
    ensures complete { IfOk result (λ lines. lines.complete ≡ false) }
{
    let line = format!(in alloc; "{end}{why}\n")?;
    Ok(Lines {
        text: line.into_bytes(),
        complete: false,
    })
}
