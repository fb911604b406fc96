//! What a command takes after its name, and the same as `clap`'s command.

ghost use Rattle.std.specs.Prelude.{◌≡◌, false, IfOk};
ghost use Rattle.clap.specs.Words.{app_of, rule_of};
ghost use Rattle.ddt_commands.specs.CommandLine.Line.{command_app, line, rule_of_argument};

use clap::{Arg, ArgAction, Command};
use std::alloc::{AllocError, Global};

/// An argument or option of a command, by its name.
#[derive(Clone, Copy, Debug)]
pub enum Argument<'a> {
    /// One word, which must be there.
    One(&'a str),
    /// One word or more, after all other arguments.
    Several(&'a str),
    /// Words, none or more, after all other arguments.
    Any(&'a str),
    /// `--NAME VALUE` or `--NAME=VALUE`, at most once.
    Setting(&'a str),
}

/// A command: its name, and what it takes, in order.
#[derive(Clone, Copy, Debug)]
pub struct Declaration<'a> {
    pub name: &'a str,
    pub arguments: &'a [Argument<'a>],
}

/// The command line of a program with these commands.
pub(crate) fn command_line<'a>(
    alloc: Global,
    commands: &[Declaration<'a>],
) -> Result<Command<'a>, AllocError>
    ensures { IfOk result (λ c. app_of c ≡ line commands.now) }
{
    let mut program = Command::new(alloc, "program")
        .disable_help_flag(true)
        .disable_help_subcommand(true)
        .subcommand_required(true);
    for declaration in commands {
        program = program.subcommand(command(alloc, declaration)?)?;
    }
    Ok(program)
}

/// A command with its arguments.
fn command<'a>(alloc: Global, declaration: &Declaration<'a>) -> Result<Command<'a>, AllocError>
    ensures { IfOk result (λ c. app_of c ≡ command_app declaration.now) }
{
    let mut command = Command::new(alloc, declaration.name);
    for argument in declaration.arguments {
        command = command.arg(taken(alloc, *argument))?;
    }
    Ok(command)
}

fn taken<'a>(alloc: Global, argument: Argument<'a>) -> Arg<'a>
    ensures rule { rule_of result ≡ rule_of_argument argument.entry }
    ensures local { result.global ≡ false }
{
    match argument {
        Argument::One(name) => Arg::new(alloc, name).required(true).action(ArgAction::Set),
        Argument::Several(name) => Arg::new(alloc, name)
            .required(true)
            .action(ArgAction::Append),
        Argument::Any(name) => Arg::new(alloc, name).action(ArgAction::Append),
        Argument::Setting(name) => Arg::new(alloc, name).long(name).action(ArgAction::Set),
    }
}
