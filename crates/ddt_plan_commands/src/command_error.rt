//! The error that stops a command before its answer is complete, and its exit status.

ghost use Rattle.std.specs.Prelude.{◌≡◌, ◌⊎◌, IfOk, string_bytes};
ghost use Rattle.ddt_plan_commands.specs.declared.exit_status.ExitStatus.TheVariants.{Refused as EndsRefused, Unprinted as EndsUnprinted};
ghost use Rattle.ddt_plan_commands.specs.declared.command_error.CommandError.TheVariants.{Refused as StopsRefused};
ghost use Rattle.ddt_plan_commands.specs.Refusals.{HasRefused, HasRefusedFront, IsLineOf};

use crate::block_lines::LineFault;
use crate::exit_status::ExitStatus;
use crate::refusal::PlanRefusal;
use ddt_lines::print;
use ddt_plan::{CountFull, PlanFault};
use std::alloc::{AllocError, Global};
use std::io;
use std::io::Write;

/// The error that stops a command.
#[derive(Clone, Copy)]
pub enum CommandError<'a> {
    /// It refuses, for this reason.
    Refused(PlanRefusal<'a>),
    /// The writer of its answer failed.
    Unprinted,
}

impl<'a> From<PlanRefusal<'a>> for CommandError<'a> {
    ghost use Rattle.std.specs.Prelude.{◌≡◌};
    ghost use Rattle.ddt_plan_commands.specs.declared.command_error.CommandError.TheVariants.{Refused};

    ghost from_gives = { λ why stop. stop ≡ Refused why };

    fn from(why: PlanRefusal<'a>) -> Self {
        CommandError::Refused(why)
    }
}

impl From<AllocError> for CommandError<'_> {
    ghost use Rattle.std.specs.Prelude.{◌≡◌};
    ghost use Rattle.ddt_plan_commands.specs.declared.command_error.CommandError.TheVariants.{Refused};
    ghost use Rattle.ddt_plan_commands.specs.declared.refusal.PlanRefusal.TheVariants.{OutOfMemory};

    ghost from_gives = { λ error stop. stop ≡ Refused OutOfMemory };

    fn from(_error: AllocError) -> Self {
        CommandError::Refused(PlanRefusal::OutOfMemory)
    }
}

impl From<io::Error> for CommandError<'_> {
    ghost use Rattle.std.specs.Prelude.{◌≡◌};
    ghost use Rattle.ddt_plan_commands.specs.declared.command_error.CommandError.TheVariants.{Unprinted};

    ghost from_gives = { λ error stop. stop ≡ Unprinted };

    fn from(_error: io::Error) -> Self {
        CommandError::Unprinted
    }
}

impl From<PlanFault<LineFault>> for CommandError<'_> {
    ghost use Rattle.std.specs.Prelude.{◌≡◌};
    ghost use Rattle.ddt_plan_commands.specs.Refusals.{stop_of_lines};

    ghost from_gives = { λ fault stop. stop ≡ stop_of_lines fault };

    fn from(fault: PlanFault<LineFault>) -> Self {
        match fault {
            PlanFault::Memory | PlanFault::Refused(LineFault::Memory) => {
                CommandError::Refused(PlanRefusal::OutOfMemory)
            }
            PlanFault::Refused(LineFault::Unprinted) => CommandError::Unprinted,
        }
    }
}

impl From<PlanFault<CountFull>> for CommandError<'_> {
    ghost use Rattle.std.specs.Prelude.{◌≡◌};
    ghost use Rattle.ddt_plan_commands.specs.Refusals.{stop_of_counts};

    ghost from_gives = { λ fault stop. stop ≡ stop_of_counts fault };

    fn from(fault: PlanFault<CountFull>) -> Self {
        match fault {
            PlanFault::Memory => CommandError::Refused(PlanRefusal::OutOfMemory),
            PlanFault::Refused(CountFull) => CommandError::Refused(PlanRefusal::CountFull),
        }
    }
}

impl CommandError<'_> {
    /// Writes the line of a refusal to `err`, and returns the exit status of the command.
    pub fn report<E: Write>(&self, alloc: Global, err: &mut E) -> ExitStatus
        ensures ends { (result ≡ EndsRefused) ⊎ (result ≡ EndsUnprinted) }
        ensures told { result ≡ EndsRefused
            → HasRefused (λ why. self.now ≡ StopsRefused why) (E.contents err.old) (E.contents err.new) }
        ensures front { (err.new ≡ err.old)
            ⊎ HasRefusedFront (λ why. self.now ≡ StopsRefused why) (E.contents err.old) (E.contents err.new) }
    {
        match self {
            CommandError::Refused(why) => refuse(alloc, why, err),
            CommandError::Unprinted => ExitStatus::Unprinted,
        }
    }
}

/// Writes the line of a refusal, or `out of memory` if there is no memory for it.
fn refuse<E: Write>(alloc: Global, refusal: &PlanRefusal<'_>, err: &mut E) -> ExitStatus
    ensures ends { (result ≡ EndsRefused) ⊎ (result ≡ EndsUnprinted) }
    ensures told { result ≡ EndsRefused
        → HasRefused (λ why. refusal.now ≡ why) (E.contents err.old) (E.contents err.new) }
    ensures front { HasRefusedFront (λ why. refusal.now ≡ why) (E.contents err.old) (E.contents err.new) }
{
    let printed = match line_of(alloc, refusal) {
        Ok(line) => print(line.as_bytes(), err),
        Err(_) => print(b"out of memory\n", err),
    };
    match printed {
        Ok(()) => ExitStatus::Refused,
        Err(_) => ExitStatus::Unprinted,
    }
}

/// Returns the line of a refusal.
fn line_of(alloc: Global, refusal: &PlanRefusal<'_>) -> Result<String, AllocError>
    ensures { IfOk result (λ line. IsLineOf refusal.now (string_bytes line)) }
{
    format!(in alloc; "{refusal}\n")
}
