//! `ddt check REGISTER`: whether a register is accepted.

ghost use Rattle.std.specs.Prelude.{◌≡◌, ◌≢◌, Bool, ⊤};
ghost use Rattle.std.specs.Fn.{FnReturnsAt};
ghost use Rattle.ddt_commands.specs.CommandLine.Call.{call_of};
ghost use Rattle.ddt_commands.specs.Commands.Assign.{RefusesOnlyMemory};
ghost use Rattle.ddt_commands.specs.Commands.Check.{IsCheckText, no_bad_word, check_prints};
ghost use Rattle.ddt_commands.specs.Over.{IsTextOver, IsWhyOver, whole};
ghost use Rattle.ddt_commands.specs.Ends.{Ends, streams};

use crate::command_line::{Argument, Declaration, Words};
use crate::lines::Lines;
use crate::over_register::{OverRegister, lines_over};
use crate::refusal::{Refusal, WordRefusal};
use crate::status::Status;
use crate::streams::print_result;
use ddt_check::Accepted;
use ddt_lines::accepted_line;
use std::alloc::Global;
use std::io::{Read, Write};

pub const WORDS: Declaration<'static> = Declaration {
    name: "check",
    arguments: &[Argument::One("register")],
};

/// Prints how many zones, sites and groups the register has. Refused for the register.
pub fn run_check<F, O, P, E>(
    alloc: Global,
    words: &Words<'_>,
    open_file: &O,
    out: &mut P,
    err: &mut E,
) -> Status
where
    F: Read + Drop,
    O: Fn(&str) -> Option<F> + Drop,
    P: Write,
    E: Write,
    requires { O.IsAlwaysCallable open_file.now }
    ensures { Ends result (streams P.contents out.old out.new E.contents err.old err.new)
        (check_prints (FnReturnsAt O.Fn open_file.now) F.remaining (call_of words.now)) }
{
    let answer = lines_over::<Check, F, O>(alloc, words, open_file);
    print_result(alloc, &answer, out, err)
}

/// The words ask for the register alone.
#[derive(Clone, Copy, Debug)]
pub struct Check;

impl OverRegister<'_> for Check {
    ghost bad_word = { no_bad_word };

    ghost asks = { λ call command. ⊤ };

    ghost answers = { whole IsCheckText };

    ghost refuses = { RefusesOnlyMemory };

    fn of(_alloc: Global, _words: &Words<'_>) -> Result<Check, WordRefusal> {
        Ok(Check)
    }

    fn lines(&self, alloc: Global, register: &Accepted) -> Result<Lines, Refusal<'static>> {
        let counts = register.counts();
        let line = accepted_line(alloc, counts.zones, counts.sites, counts.groups)?;
        Ok(Lines::whole(line))
    }
}
