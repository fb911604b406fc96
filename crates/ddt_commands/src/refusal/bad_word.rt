//! Words that aren't what a command takes.

use ddt_text::TextFault;
use std::fmt;

/// Why a word isn't what the command takes in its place.
#[derive(Clone, Copy, Debug)]
pub enum WordRefusal {
    /// It is no identifier.
    Identifier(TextFault),
    /// It is no address.
    Address,
    /// It is no number, written without a sign or a leading zero, or it is greater than its place takes.
    Number,
}

impl fmt::Display for WordRefusal {
    ghost use Rattle.ddt_commands.specs.Refusal.{word_refusal_text};

    ghost output = { word_refusal_text };

    fn fmt<W: fmt::Write>(&self, f: &mut fmt::Formatter<W>) -> fmt::Result {
        match self {
            WordRefusal::Identifier(fault) => write!(f, "bad identifier {fault}"),
            WordRefusal::Address => write!(f, "bad address"),
            WordRefusal::Number => write!(f, "bad number"),
        }
    }
}
