//! The words of a process, read as the call of one of the program's commands.

ghost use Rattle.std.specs.Prelude.{◌≡◌, Err, IfOk, map, string_bytes};
ghost use Rattle.ddt_commands.specs.CommandLine.Call.{CallsCommand, call_of};
ghost use Rattle.ddt_commands.specs.declared.command_line.fault.WordsFault.TheVariants.{Bad as IsBad};
ghost use Rattle.ddt_commands.specs.Commands.{command_list as commands};
ghost use Rattle.ddt_commands.specs.Program.{CallNone};

use crate::command_line::{Words, WordsFault, read_call};
use crate::commands::command_list;
use std::alloc::Global;

/// The command that the words call, of which the first is the program's name, and the values of its arguments and
/// options. Refusals: 1 Bad where the words call none of the nine commands, as a request for help or the version does;
/// 2 Memory, which comes only if out of memory.
pub fn read_words<'a>(alloc: Global, words: &'a [String]) -> Result<Words<'a>, WordsFault>
    ensures found { IfOk result (λ w. CallsCommand commands (map string_bytes words.entry.now) (call_of w)) }
    ensures bad { result ≡ Err IsBad → CallNone (map string_bytes words.entry.now) }
{
    read_call(alloc, command_list(), words)
}
