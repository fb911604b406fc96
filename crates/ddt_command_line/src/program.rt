//! A program, and its command line.

use crate::declaration::{Declaration, command};
use clap::Command;
use std::alloc::{AllocError, Global};

/// A program: its name and version, and what its help says before and after its commands.
#[derive(Clone, Copy)]
pub struct Program<'a> {
    pub name: &'a str,
    pub version: &'a str,
    pub about: &'a str,
    pub after_help: &'a str,
}

/// The command line of a program with these commands, of which one must be given.
pub fn command_line<'a>(
    alloc: Global,
    program: &Program<'a>,
    commands: &[Declaration<'a>],
) -> Result<Command<'a>, AllocError> {
    let mut line = Command::new(alloc, program.name)
        .version(program.version)
        .about(program.about)
        .after_help(program.after_help)
        .subcommand_required(true);
    for declaration in commands {
        line = line.subcommand(command(alloc, declaration)?)?;
    }
    Ok(line)
}
