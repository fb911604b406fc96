//! Reads the register at a path, and the prefix in a word.

ghost use Rattle.std.specs.Prelude.{◌≡◌, ◌≢◌, List, ℕ, Ok, Err, None, Some, IfOk, IfErr};
ghost use Rattle.std.specs.Fn.{FnReturnsAt};
ghost use Rattle.ddt_text.specs.FirstFault.{prefix_in};
ghost use Rattle.ddt_check.specs.Rules.{IsAccepted};
ghost use Rattle.ddt_commands.specs.Register.{HasBytes, Spell};
ghost use Rattle.ddt_plan_commands.specs.Answers.{IsOpened};
ghost use Rattle.ddt_plan_commands.specs.Refusals.{IsUnopened, IsWhyUnopened, bad_prefix};

use crate::refusal::PlanRefusal;
use ddt_check::Accepted;
use ddt_commands::register_at;
use ddt_path::Prefix;
use ddt_text::parse_prefix;
use std::alloc::Global;
use std::io::Read;

/// Returns the accepted register of a source. Refused as NoRegister if the source is None, since its path can't be
/// opened; if its bytes are no accepted register; or if out of memory.
pub fn register_of<F: Read + Drop>(
    alloc: Global,
    source: Option<F>,
    path: &str,
) -> Result<Accepted, PlanRefusal<'_>>
    ensures opened { IfOk result (λ a. source ≢ None) }
    ensures accepted { IfOk result (λ a. IsAccepted a) }
    ensures spelled { IfOk result (λ a. (bytes : List ℕ) → HasBytes F.remaining source bytes → Spell bytes a) }
    ensures refused { IfErr result (IsWhyUnopened F.remaining source path.now) }
{
    match register_at(alloc, source, path) {
        Ok(register) => Ok(register),
        Err(why) => Err(PlanRefusal::NoRegister { path, why }),
    }
}

/// Returns the accepted register at a path that `open_file` opens. Refused as `register_of`.
pub(crate) fn register_opened<'a, F, O>(
    alloc: Global,
    open_file: &O,
    path: &'a str,
) -> Result<Accepted, PlanRefusal<'a>>
where
    F: Read + Drop,
    O: Fn(&str) -> Option<F>,
    requires { O.IsAlwaysCallable open_file.now }
    ensures opened { IfOk result (IsOpened (FnReturnsAt O.Fn open_file.now) F.remaining path.entry.now) }
    ensures refused { IfErr result (IsUnopened (FnReturnsAt O.Fn open_file.now) F.remaining path.entry.now) }
{
    register_of(alloc, open_file(path), path)
}

/// Returns the prefix that a word spells. Refused as BadPrefix.
pub fn prefix_of(word: &str) -> Result<Prefix, PlanRefusal<'static>>
    ensures found { IfOk result (λ p. prefix_in word.now ≡ Ok p) }
    ensures refused { IfErr result (λ why. bad_prefix (prefix_in word.now) ≡ Some why) }
{
    match parse_prefix(word.as_bytes()) {
        Ok(prefix) => Ok(prefix),
        Err(fault) => Err(PlanRefusal::BadPrefix(fault)),
    }
}
