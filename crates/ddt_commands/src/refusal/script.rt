//! Files that give no script.

use std::fmt;

/// Why the file at a path gives no steps.
#[derive(Clone, Copy, Debug)]
pub enum ScriptRefusal<'a> {
    /// The file of this name can't be opened, or can't be read.
    CannotOpen(&'a str),
    /// The line of this number, from 1, spells no step. Empty lines have no number.
    RefusedLine(usize),
}

impl fmt::Display for ScriptRefusal<'_> {
    ghost use Rattle.ddt_commands.specs.Refusal.{script_refusal_text};

    ghost output = { script_refusal_text };

    fn fmt<W: fmt::Write>(&self, f: &mut fmt::Formatter<W>) -> fmt::Result {
        match self {
            ScriptRefusal::CannotOpen(path) => write!(f, "cannot open {path}"),
            ScriptRefusal::RefusedLine(number) => write!(f, "script refused line {number}"),
        }
    }
}
