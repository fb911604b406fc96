//! `ddt assign REGISTER XEID`: what a register assigns to an identifier.

ghost use Rattle.std.specs.Prelude.{◌≡◌, ◌≢◌, Bool, Ok, IfOk, IfErr, Some};
ghost use Rattle.std.specs.Fn.{FnReturnsAt};
ghost use Rattle.ddt_text.specs.FirstFault.{xeid_in};
ghost use Rattle.ddt_commands.specs.CommandLine.Call.{call_of};
ghost use Rattle.ddt_commands.specs.Commands.Assign.{IsAssignText, RefusesOnlyMemory, bad_xeid, identifier_refusal, xeid_of, assign_prints};
ghost use Rattle.ddt_commands.specs.Over.{IsTextOver, IsWhyOver, whole};
ghost use Rattle.ddt_commands.specs.Ends.{Ends, streams};

use crate::command_line::{Argument, Declaration, Words};
use crate::lines::Lines;
use crate::over_register::{OverRegister, lines_over};
use crate::refusal::{Refusal, WordRefusal};
use crate::status::Status;
use crate::streams::print_result;
use ddt_check::{Accepted, assign as assignment};
use ddt_lines::outcome_line;
use ddt_path::Xeid;
use ddt_text::parse_xeid;
use std::alloc::Global;
use std::io::{Read, Write};

pub const WORDS: Declaration<'static> = Declaration {
    name: "assign",
    arguments: &[Argument::One("register"), Argument::One("xeid")],
};

/// Prints what the register assigns to the identifier. Refused for the identifier or the register.
pub fn run_assign<F, O, P, E>(
    alloc: Global,
    words: &Words<'_>,
    open_file: &O,
    out: &mut P,
    err: &mut E,
) -> Status
where
    F: Read + Drop,
    O: Fn(&str) -> Option<F> + Drop,
    P: Write,
    E: Write,
    requires { O.IsAlwaysCallable open_file.now }
    ensures { Ends result (streams P.contents out.old out.new E.contents err.old err.new)
        (assign_prints (FnReturnsAt O.Fn open_file.now) F.remaining (call_of words.now)) }
{
    let answer = lines_over::<Assign, F, O>(alloc, words, open_file);
    print_result(alloc, &answer, out, err)
}

/// The identifier to be looked up.
#[derive(Clone, Copy, Debug)]
pub struct Assign {
    xeid: Xeid,
}

impl OverRegister<'_> for Assign {
    ghost bad_word = { bad_xeid };

    ghost asks = { λ call command. xeid_of call ≡ Ok command.xeid };

    ghost answers = { whole IsAssignText };

    ghost refuses = { RefusesOnlyMemory };

    fn of(_alloc: Global, words: &Words<'_>) -> Result<Assign, WordRefusal> {
        Ok(Assign {
            xeid: identifier(words.value("xeid"))?,
        })
    }

    fn lines(&self, alloc: Global, register: &Accepted) -> Result<Lines, Refusal<'static>> {
        let line = outcome_line(alloc, &assignment(register, self.xeid))?;
        Ok(Lines::whole(line))
    }
}

/// The identifier that a word spells.
pub fn identifier(word: &str) -> Result<Xeid, WordRefusal>
    ensures found { IfOk result (λ x. xeid_in word.now ≡ Ok x) }
    ensures refused { IfErr result (λ why. identifier_refusal (xeid_in word.now) ≡ Some why) }
{
    match parse_xeid(word.as_bytes()) {
        Ok(x) => Ok(x),
        Err(fault) => Err(WordRefusal::Identifier(fault)),
    }
}
