//! `ddt compile REGISTER GROUP`: the configuration of the group's servers.

ghost use Rattle.std.specs.Prelude.{◌≡◌, ◌≢◌, Bool, None, Some, IfErr, IfOk};
ghost use Rattle.std.specs.Fn.{FnReturnsAt};
ghost use Rattle.ddt_commands.specs.CommandLine.Call.{call_of};
ghost use Rattle.ddt_commands.specs.declared.refusal.Refusal.TheVariants.{NoRegister as IsNoRegister};
ghost use Rattle.ddt_commands.specs.declared.refusal.register_file.RegisterRefusal.TheVariants.{NoSuchGroup as IsNoSuchGroup};
ghost use Rattle.ddt_commands.specs.Commands.Check.{no_bad_word};
ghost use Rattle.ddt_commands.specs.Commands.Compile.{IsConfigText, IsWhyNoGroup, group_of, compile_prints};
ghost use Rattle.ddt_commands.specs.Over.{IsTextOver, IsWhyOver, whole};
ghost use Rattle.ddt_commands.specs.Ends.{Ends, streams};

use crate::command_line::{Argument, Declaration, Words};
use crate::lines::Lines;
use crate::over_register::{OverRegister, lines_over};
use crate::refusal::{Refusal, RegisterRefusal, WordRefusal};
use crate::status::Status;
use crate::streams::print_result;
use ddt_check::Accepted;
use ddt_compile::compile_group;
use ddt_config::to_toml;
use ddt_path::Name;
use std::alloc::Global;
use std::io::{Read, Write};

pub const WORDS: Declaration<'static> = Declaration {
    name: "compile",
    arguments: &[Argument::One("register"), Argument::One("group")],
};

/// Prints the configuration of the group's servers. Refused for the register, or where it has no such group.
pub fn run_compile<'a, F, O, P, E>(
    alloc: Global,
    words: &Words<'a>,
    open_file: &O,
    out: &mut P,
    err: &mut E,
) -> Status
where
    F: Read + Drop,
    O: Fn(&str) -> Option<F> + Drop,
    P: Write,
    E: Write,
    requires { O.IsAlwaysCallable open_file.now }
    ensures { Ends result (streams P.contents out.old out.new E.contents err.old err.new)
        (compile_prints (FnReturnsAt O.Fn open_file.now) F.remaining (call_of words.now)) }
{
    let answer = lines_over::<Compile<'a>, F, O>(alloc, words, open_file);
    print_result(alloc, &answer, out, err)
}

/// The word that names the group.
#[derive(Clone, Copy, Debug)]
pub struct Compile<'a> {
    group: &'a str,
}

impl<'a> OverRegister<'a> for Compile<'a> {
    ghost bad_word = { no_bad_word };

    ghost asks = { λ call command. command.group.now ≡ group_of call };

    ghost answers = { whole IsConfigText };

    ghost refuses = { IsWhyNoGroup };

    fn of(_alloc: Global, words: &Words<'a>) -> Result<Compile<'a>, WordRefusal> {
        Ok(Compile {
            group: words.value("group"),
        })
    }

    fn lines(&self, alloc: Global, register: &Accepted) -> Result<Lines, Refusal<'static>> {
        let group = of_group(Name::of(self.group.as_bytes()))?;
        let config = of_group(compile_group(alloc, register, group)?)?;
        Ok(Lines::whole(to_toml(alloc, &config)?.into_bytes()))
    }
}

/// What was found for a word that is to name a group. Refused as NoSuchGroup where nothing was.
pub fn of_group<T>(found: Option<T>) -> Result<T, Refusal<'static>>
    ensures found { IfOk result (λ it. found ≡ Some it) }
    ensures none { IfErr result (λ why. (why ≡ IsNoRegister IsNoSuchGroup) × (found ≡ None)) }
{
    found.ok_or(Refusal::NoRegister(RegisterRefusal::NoSuchGroup))
}
