//! The words of a process, read by the commands of `ddt` or by two of our own.

use ddt_commands::command_line::{Argument, Declaration, Words, WordsFault, read_call};
use ddt_commands::read_words;
use std::alloc::{AllocError, Global};

const COMMANDS: &[Declaration<'static>] = &[
    Declaration {
        name: "assign",
        arguments: &[Argument::One("register"), Argument::One("xeid")],
    },
    Declaration {
        name: "lookup",
        arguments: &[
            Argument::One("register"),
            Argument::Several("xeid"),
            Argument::Setting("me"),
            Argument::Setting("seed"),
        ],
    },
];

/// Reads words.
#[derive(Clone, Copy, Debug)]
pub enum Reader {
    /// By the nine commands.
    Nine,
    /// By two commands of our own.
    Two,
}

/// What the words of a process call.
pub fn read_by<'a>(
    reader: Reader,
    alloc: Global,
    words: &'a [String],
) -> Result<Words<'a>, WordsFault> {
    match reader {
        Reader::Nine => read_words(alloc, words),
        Reader::Two => read_call(alloc, COMMANDS, words),
    }
}

/// The words of a process, the program's name first.
pub fn process(alloc: Global, words: &[&str]) -> Result<Vec<String>, AllocError> {
    let mut all = Vec::new(alloc);
    all.push(String::from_str(alloc, "ddt")?)?;
    for word in words {
        all.push(String::from_str(alloc, word)?)?;
    }
    Ok(all)
}
