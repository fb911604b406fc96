//! An argument or option of a command, and the same as `clap`'s.

use clap::builder::ValueParser;
use clap::{Arg, ArgAction};
use std::alloc::{AllocError, Global};

/// How the words of an argument are given.
#[derive(Clone, Copy)]
pub enum Given<'a> {
    /// One word, which must be there.
    One,
    /// One word, which must be there unless the argument of this name is.
    OneUnless(&'a str),
    /// One word, which may be left out.
    Optional,
    /// Words, none or more, after all other arguments.
    Any,
    /// `--NAME`, at most once.
    Flag,
    /// `--NAME VALUE` or `--NAME=VALUE`, at most once; with what the help calls the value.
    Setting(&'a str),
    /// The same, any number of times.
    Settings(&'a str),
}

/// What the words of an argument may be.
#[derive(Clone, Copy)]
pub enum Values<'a> {
    /// Any text.
    Texts,
    /// One of these words.
    Among(&'a [&'a str]),
    /// A whole number from the first to the last.
    Numbers { first: u32, last: u32 },
}

/// An argument or option of a command.
#[derive(Clone, Copy)]
pub struct Argument<'a> {
    pub name: &'a str,
    pub given: Given<'a>,
    pub values: Values<'a>,
    /// The arguments that may not be given with it.
    pub conflicts: &'a [&'a str],
    /// The arguments that must be given with it.
    pub needs: &'a [&'a str],
    pub help: &'a str,
}

impl Argument<'_> {
    /// Any text, one, which must be there, and may be given with each other argument.
    pub const PLAIN: Argument<'static> = Argument {
        name: "",
        given: Given::One,
        values: Values::Texts,
        conflicts: &[],
        needs: &[],
        help: "",
    };
}

/// The argument, with the others that it needs, and those that it is never given with.
pub(crate) fn taken<'a>(alloc: Global, argument: &Argument<'a>) -> Result<Arg<'a>, AllocError> {
    let arg = limited(named(alloc, argument), argument.values)
        .conflicts_with_all(argument.conflicts)?
        .requires_all(argument.needs)?;
    match argument.given {
        Given::OneUnless(other) => arg.required_unless_present(other),
        _ => Ok(arg),
    }
}

/// The argument by its name and its place.
fn named<'a>(alloc: Global, argument: &Argument<'a>) -> Arg<'a> {
    let arg = Arg::new(alloc, argument.name).help(argument.help);
    match argument.given {
        Given::One => arg.required(true).action(ArgAction::Set),
        Given::OneUnless(_) | Given::Optional => arg.action(ArgAction::Set),
        Given::Any => arg.action(ArgAction::Append),
        Given::Flag => arg.long(argument.name).action(ArgAction::SetTrue),
        Given::Setting(value) => arg
            .long(argument.name)
            .value_name(value)
            .action(ArgAction::Set),
        Given::Settings(value) => arg
            .long(argument.name)
            .value_name(value)
            .action(ArgAction::Append),
    }
}

/// The argument with what its words may be.
fn limited<'a>(arg: Arg<'a>, values: Values<'a>) -> Arg<'a> {
    match values {
        Values::Texts => arg,
        Values::Among(words) => arg.value_parser(words),
        Values::Numbers { first, last } => {
            arg.value_parser(ValueParser::signed(i64::from(first), i64::from(last)))
        }
    }
}
