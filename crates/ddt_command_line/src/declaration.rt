//! A command of a program, and the same as `clap`'s.

use crate::argument::{Argument, taken};
use clap::Command;
use std::alloc::{AllocError, Global};

/// A command: its name, what its help says before and after its arguments, and what it takes, in order.
#[derive(Clone, Copy)]
pub struct Declaration<'a> {
    pub name: &'a str,
    pub about: &'a str,
    pub after_help: Option<&'a str>,
    pub arguments: &'a [Argument<'a>],
}

/// A command with its arguments.
pub(crate) fn command<'a>(
    alloc: Global,
    declaration: &Declaration<'a>,
) -> Result<Command<'a>, AllocError> {
    let mut command = Command::new(alloc, declaration.name).about(declaration.about);
    if let Some(text) = declaration.after_help {
        command = command.after_help(text);
    }
    for argument in declaration.arguments {
        command = command.arg(taken(alloc, argument)?)?;
    }
    Ok(command)
}
