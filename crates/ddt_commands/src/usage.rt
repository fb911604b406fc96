//! The usage, which words that fit no command are shown.

ghost use Rattle.std.specs.Prelude.{◌≡◌};
ghost use Rattle.ddt_lines.specs.Printing.{AppendsFront};
ghost use Rattle.ddt_commands.specs.declared.status.Status.TheVariants.{BadWords as IsBadWords};
ghost use Rattle.ddt_commands.specs.Commands.{command_list};
ghost use Rattle.ddt_commands.specs.Usage.{usage_of};

use crate::commands::USAGE;
use crate::status::Status;
use ddt_lines::print;
use std::io::Write;

/// Shows the commands: the words fit none. It allocates nothing.
pub fn show_usage<E: Write>(err: &mut E) -> Status
    ensures bad { result ≡ IsBadWords }
    ensures front { AppendsFront (E.contents err.old) (E.contents err.new) (usage_of command_list) }
{
    let _ = print(USAGE.as_bytes(), err);
    Status::BadWords
}
