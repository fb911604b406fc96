//! The words of a process, read as the call of a command.

ghost use Rattle.std.specs.Prelude.{◌≡◌, ◌≢◌, true, Err, [], map, string_bytes, IfOk};
ghost use Rattle.clap.specs.Words.{fault_of, is_simple_and_free};
ghost use Rattle.ddt_commands.specs.CommandLine.Call.{call_of, CallsCommand};
ghost use Rattle.ddt_commands.specs.CommandLine.Line.{line};
ghost use Rattle.ddt_commands.specs.declared.command_line.fault.WordsFault.TheVariants.{Bad as IsBad, Memory as IsMemory};

use crate::command_line::declaration::{Declaration, command_line};
use crate::command_line::fault::WordsFault;
use crate::command_line::words::Words;
use clap::error::ErrorKind;
use std::alloc::Global;

/// Which of the commands the words call, of which the first is the program's name. Refusals: 1 Bad where the words fit
/// none of the commands, as a request for help or the version does; 2 Memory, which comes only if out of memory.
pub fn read_call<'a>(
    alloc: Global,
    commands: &[Declaration<'a>],
    words: &'a [String],
) -> Result<Words<'a>, WordsFault>
    requires { is_simple_and_free (line commands.now) ≡ true }
    ensures found { IfOk result (λ w. CallsCommand commands.now (map string_bytes words.entry.now) (call_of w)) }
    ensures bad { result ≡ Err IsBad → fault_of (line commands.now) (map string_bytes words.entry.now) ≢ [] }
{
    let line = command_line(alloc, commands)?;
    let mut matches = match line.try_get_matches_from(words) {
        Ok(matches) => matches,
        Err(error) => return Err(fault(error.kind())),
    };
    match matches.remove_subcommand() {
        Some((command, matches)) => Ok(Words { command, matches }),
        None => Err(WordsFault::Bad),
    }
}

/// 2 Memory where clap ran out of memory, and 1 Bad for each other fault.
fn fault(kind: ErrorKind) -> WordsFault
    ensures bad { result ≡ IsBad → kind ≢ ErrorKind.OutOfMemory }
    ensures memory { result ≡ IsMemory → kind ≡ ErrorKind.OutOfMemory }
{
    match kind {
        ErrorKind::OutOfMemory => WordsFault::Memory,
        _ => WordsFault::Bad,
    }
}
