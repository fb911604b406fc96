//! Register files that can't be read or aren't accepted, and registers of which a command has no answer.

use ddt_check::Fault;
use ddt_register::ReadFault;
use std::fmt;

/// Why a command has no answer from the register at a path.
#[derive(Clone, Copy, Debug)]
pub enum RegisterRefusal<'a> {
    /// The file of this name can't be opened.
    CannotOpen(&'a str),
    /// The file's bytes spell no register.
    Unreadable(ReadFault),
    /// The file was opened, and reading it failed.
    CannotRead,
    /// The register breaks a rule.
    BreaksRule(Fault),
    /// The register has no group of the name that was asked for, or the word is no name.
    NoSuchGroup,
    /// The root locators of the register at this path aren't those of the first.
    OtherRoots(&'a str),
}

impl fmt::Display for RegisterRefusal<'_> {
    ghost use Rattle.ddt_commands.specs.Refusal.{register_refusal_text};

    ghost output = { register_refusal_text };

    fn fmt<W: fmt::Write>(&self, f: &mut fmt::Formatter<W>) -> fmt::Result {
        match self {
            RegisterRefusal::CannotOpen(path) => write!(f, "cannot open {path}"),
            RegisterRefusal::Unreadable(fault) => match fault.row() {
                Some(row) => write!(f, "unreadable {fault} row {row}"),
                None => write!(f, "unreadable {fault}"),
            },
            RegisterRefusal::CannotRead => write!(f, "unreadable 8 Read"),
            RegisterRefusal::BreaksRule(fault) => write!(f, "refused {fault}"),
            RegisterRefusal::NoSuchGroup => write!(f, "no such group"),
            RegisterRefusal::OtherRoots(path) => write!(f, "other root locators {path}"),
        }
    }
}
