//! A sink that writes the line of each block as it is found.

ghost use Rattle.std.specs.Prelude.{◌≡◌, IfOk};
ghost use Rattle.ddt_plan_commands.specs.Sinks.{TakesBlock};
ghost use Rattle.ddt_plan_commands.specs.Written.{is_hole as is_hole_of, written_block};

use crate::arguments::Form;
use crate::lines::block_fields;
use crate::objects::block_object;
use ddt_lines::print;
use ddt_path::Outcome;
use ddt_plan::{Block, Sink};
use std::alloc::{AllocError, Global};
use std::io;
use std::io::Write;

/// The error of a line that isn't written completely.
#[derive(Clone, Copy, PartialEq, Eq)]
pub enum LineFault {
    /// Out of memory.
    Memory,
    /// The writer failed.
    Unprinted,
}

impl From<AllocError> for LineFault {
    ghost use Rattle.std.specs.Prelude.{◌≡◌};
    ghost use Rattle.ddt_plan_commands.specs.declared.block_lines.LineFault.TheVariants.{Memory};

    ghost from_gives = { λ error fault. fault ≡ Memory };

    fn from(_error: AllocError) -> Self {
        LineFault::Memory
    }
}

impl From<io::Error> for LineFault {
    ghost use Rattle.std.specs.Prelude.{◌≡◌};
    ghost use Rattle.ddt_plan_commands.specs.declared.block_lines.LineFault.TheVariants.{Unprinted};

    ghost from_gives = { λ error fault. fault ≡ Unprinted };

    fn from(_error: io::Error) -> Self {
        LineFault::Unprinted
    }
}

/// Writes a line for each block, or for each that is no delegation hole.
#[derive(Drop)]
pub struct BlockLines<W> {
    pub alloc: Global,
    pub form: Form,
    pub with_holes: bool,
    pub out: W,
}

/// Returns the line of a block in a form.
fn block_line(alloc: Global, form: Form, block: &Block) -> Result<Vec<u8>, AllocError>
    ensures { IfOk result (λ line. line.items ≡ written_block form block.now) }
{
    match form {
        Form::Text => block_fields(alloc, block),
        Form::Json => block_object(alloc, block),
    }
}

pub(crate) fn is_hole(outcome: &Outcome) -> bool
    ensures { result ≡ is_hole_of outcome.now }
{
    matches!(outcome, Outcome::Hole { .. })
}

impl<W: Write + Drop> Sink<Block> for BlockLines<W> {
    type Refusal = LineFault;

    ghost takes = { TakesBlock W.contents };

    fn give(&mut self, block: Block) -> Result<(), LineFault> {
        if !self.with_holes && is_hole(&block.outcome) {
            return Ok(());
        }
        let line = block_line(self.alloc, self.form, &block)?;
        print(&line, &mut self.out)?;
        Ok(())
    }
}
