//! A script: a step of a schedule in each line. Line feeds separate lines; empty ones don't count.

ghost use Rattle.std.specs.Prelude.{◌≡◌, ◌≢◌, ◌++◌, ℕ, List, Err, IfErr, IfOk, MatchOption};
ghost use Rattle.ddt_text.specs.Grammar.{SpellsXeid};
ghost use Rattle.ddt_path.specs.declared.xeid.Xeid.{Xeid};
ghost use Rattle.ddt_sim.specs.declared.schedule.Step.{Step as AStep};
ghost use Rattle.ddt_sim.specs.declared.schedule.Step.TheVariants as step_as;
ghost use Rattle.ddt_commands.specs.declared.commands.replay.script.ScriptFault.TheVariants as fault_as;
ghost use Rattle.ddt_commands.specs.Commands.Script.{IsRefusedAt, ScriptsAreClear, SpellsScript, SpellsStep};

use ddt_sim::Step;
use ddt_text::{parse_xeid, read_number};
use std::alloc::{AllocError, Global};

/// The greatest number in a script.
const MOST: u64 = 4_294_967_295;

/// Why bytes are no script.
#[derive(Clone, Copy, Debug, PartialEq, Eq)]
pub enum ScriptFault {
    /// The line of this number, from 1, is the first that spells no step. Empty lines have no number.
    Line(usize),
    /// Memory ran out.
    Memory,
}

impl From<AllocError> for ScriptFault {
    ghost use Rattle.std.specs.Prelude.{◌≡◌};
    ghost use Rattle.ddt_commands.specs.declared.commands.replay.script.ScriptFault.TheVariants.{Memory};

    ghost from_gives = { λ e r. r ≡ Memory };

    fn from(_error: AllocError) -> Self {
        ScriptFault::Memory
    }
}

/// The steps that the lines of a script spell, in order: `ask XEID`, `deliver K`, `wait MS`, `tick`, `replace K`, where
/// K and MS are numbers up to 4294967295 without leading zeros. The first line that is none of these is refused.
#[tactic(auto, using(crate::proofs::ScriptLemmas::scripts_are_clear))]
pub fn read_script(alloc: Global, text: &[u8]) -> Result<Vec<Step>, ScriptFault>
    ensures spelled { IfOk result (λ steps. SpellsScript text.now steps.items) }
    ensures refused { (number : ℕ) → result ≡ Err (fault_as.Line number) → IsRefusedAt text.now number }
    // So a script that is spelled is never refused, and its steps are these.
    ensures clear { ScriptsAreClear }
{
    let mut steps = Vec::new(alloc);
    let lines = text.split(|byte| *byte == b'\n');
    for line in lines.filter(|line| !line.is_empty()) {
        match step_of(line, steps.len() + 1) {
            Ok(step) => steps.push(step).map_err(AllocError::from)?,
            Err(fault) => return Err(fault),
        }
    }
    Ok(steps)
}

/// The step that the line of a number spells; Line with that number where it spells none.
fn step_of(line: &[u8], number: usize) -> Result<Step, ScriptFault>
    ensures step { IfOk result (λ step. SpellsStep line.now step) }
    ensures none { IfErr result (λ fault. (fault ≡ fault_as.Line number)
        × ((step : AStep) → ¬ (SpellsStep line.now step))) }
{
    read_step(line).ok_or(ScriptFault::Line(number))
}

/// The step that a line spells, if it spells one.
fn read_step(line: &[u8]) -> Option<Step>
    ensures { MatchOption result ((step : AStep) → ¬ (SpellsStep line.now step)) (λ step. SpellsStep line.now step) }
{
    if let Some(text) = after_word(line, "ask ") {
        return read_ask(text);
    }
    if let Some(text) = after_word(line, "deliver ") {
        let number = read_number(text, MOST)?;
        return Some(Step::Deliver(number));
    }
    if let Some(text) = after_word(line, "wait ") {
        let millis = read_number(text, MOST)?;
        return Some(Step::Pass(millis));
    }
    if let Some(text) = after_word(line, "replace ") {
        let number = read_number(text, MOST)?;
        return Some(Step::Replace(number));
    }
    if line == b"tick".as_slice() {
        return Some(Step::Tick);
    }
    None
}

/// The rest of a line that begins with a word; None where it doesn't.
fn after_word<'a>(line: &'a [u8], word: &str) -> Option<&'a [u8]>
    ensures { MatchOption result ((rest : List ℕ) → line.now ≢ word.now ++ rest) (λ rest.
        line.now ≡ word.now ++ rest.now) }
{
    line.strip_prefix(word.as_bytes())
}

/// The ask for the identifier that a text spells.
fn read_ask(text: &[u8]) -> Option<Step>
    ensures { MatchOption result ((x : Xeid) → ¬ (SpellsXeid text.now x)) (λ step.
        (x : Xeid) × SpellsXeid text.now x × (step ≡ step_as.Ask x)) }
{
    match parse_xeid(text) {
        Ok(x) => Some(Step::Ask(x)),
        Err(_fault) => None,
    }
}
