//! The reason why a command gives no answer, and its text.

use ddt_commands::{Refusal, RegisterRefusal};
use ddt_text::TextFault;
use std::alloc::AllocError;
use std::fmt;

/// The reason why a command gives no answer.
#[derive(Clone, Copy)]
pub enum PlanRefusal<'a> {
    /// The word is no prefix.
    BadPrefix(TextFault),
    /// The file at this path has no register, or one that isn't accepted.
    NoRegister { path: &'a str, why: Refusal<'a> },
    /// There are more than 18446744073709551615 blocks of a kind.
    CountFull,
    OutOfMemory,
}

impl From<AllocError> for PlanRefusal<'_> {
    ghost use Rattle.std.specs.Prelude.{◌≡◌};
    ghost use Rattle.ddt_plan_commands.specs.declared.refusal.PlanRefusal.TheVariants.{OutOfMemory};

    ghost from_gives = { λ e r. r ≡ OutOfMemory };

    fn from(_error: AllocError) -> Self {
        PlanRefusal::OutOfMemory
    }
}

impl fmt::Display for PlanRefusal<'_> {
    ghost use Rattle.ddt_plan_commands.specs.Refusals.{plan_refusal_text};

    ghost output = { plan_refusal_text };

    fn fmt<W: fmt::Write>(&self, f: &mut fmt::Formatter<W>) -> fmt::Result {
        match self {
            PlanRefusal::BadPrefix(fault) => write!(f, "bad prefix {fault}"),
            PlanRefusal::NoRegister { path, why } => match why {
                Refusal::NoRegister(RegisterRefusal::CannotOpen(path)) => {
                    write!(f, "cannot open {path}")
                }
                Refusal::OutOfMemory => write!(f, "out of memory"),
                why => write!(f, "{path}: {why}"),
            },
            PlanRefusal::CountFull => write!(f, "too many blocks to count"),
            PlanRefusal::OutOfMemory => write!(f, "out of memory"),
        }
    }
}
