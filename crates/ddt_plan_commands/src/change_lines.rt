//! A sink that writes the line of each change as it is found.

ghost use Rattle.std.specs.Prelude.{◌≡◌, IfOk};
ghost use Rattle.ddt_plan_commands.specs.Sinks.{TakesChange};
ghost use Rattle.ddt_plan_commands.specs.Written.{written_change};

use crate::arguments::Form;
use crate::block_lines::LineFault;
use crate::lines::change_fields;
use crate::objects::change_object;
use ddt_lines::print;
use ddt_plan::{Change, Sink};
use std::alloc::{AllocError, Global};
use std::io::Write;

/// Writes a line for each change.
#[derive(Drop)]
pub struct ChangeLines<W> {
    pub alloc: Global,
    pub form: Form,
    pub out: W,
}

/// Returns the line of a change in a form.
fn change_line(alloc: Global, form: Form, change: &Change) -> Result<Vec<u8>, AllocError>
    ensures { IfOk result (λ line. line.items ≡ written_change form change.now) }
{
    match form {
        Form::Text => change_fields(alloc, change),
        Form::Json => change_object(alloc, change),
    }
}

impl<W: Write + Drop> Sink<Change> for ChangeLines<W> {
    type Refusal = LineFault;

    ghost takes = { TakesChange W.contents };

    fn give(&mut self, change: Change) -> Result<(), LineFault> {
        let line = change_line(self.alloc, self.form, &change)?;
        print(&line, &mut self.out)?;
        Ok(())
    }
}
