//! `ddt answer REGISTER GROUP XEID`: what the group's server answers to a request of nonce 1, in hexadecimal.

ghost use Rattle.std.specs.Prelude.{◌≡◌, ◌≢◌, ◌<◌, Bool, None, Ok, IfOk, MatchOption, option_map, string_bytes};
ghost use Rattle.std.specs.Fn.{FnReturnsAt};
ghost use Rattle.hex.specs.Hex.{encode_lower};
ghost use Rattle.ddt_path.specs.Path.{xeid_path};
ghost use Rattle.ddt_check.specs.Zones.{group_named};
ghost use Rattle.ddt_config.specs.Answer.{answer as answer_in};
ghost use Rattle.ddt_config.specs.Entries.{entry_count};
ghost use Rattle.ddt_config.specs.Table.{outline};
ghost use Rattle.ddt_trie.specs.PrefixMap.{most_entries};
ghost use Rattle.ddt_wire.specs.Referral.{written};
ghost use Rattle.ddt_lines.specs.Lines.{ended as as_line};
ghost use Rattle.ddt_commands.specs.CommandLine.Call.{call_of};
ghost use Rattle.ddt_commands.specs.Commands.Answer.{IsAnswerText, IsConfigOfGroup, group_answer, answer_prints};
ghost use Rattle.ddt_commands.specs.Commands.Assign.{bad_xeid, xeid_of};
ghost use Rattle.ddt_commands.specs.Commands.Compile.{IsWhyNoGroup, group_of};
ghost use Rattle.ddt_commands.specs.Over.{IsTextOver, IsWhyOver, whole};
ghost use Rattle.ddt_commands.specs.Ends.{Ends, streams};

use crate::command_line::{Argument, Declaration, Words};
use crate::commands::assign::identifier;
use crate::commands::compile::of_group;
use crate::lines::Lines;
use crate::over_register::{OverRegister, lines_over};
use crate::refusal::{Refusal, WordRefusal};
use crate::resolver::RESOLVER;
use crate::status::Status;
use crate::streams::print_result;
use ddt_check::Accepted;
use ddt_compile::compile_group;
use ddt_config::ServerConfig;
use ddt_ecm::write_request;
use ddt_node::Server;
use ddt_path::{Name, Xeid};
use ddt_trie::TrieMap;
use std::alloc::{AllocError, Global};
use std::io::{Read, Write};

pub const WORDS: Declaration<'static> = Declaration {
    name: "answer",
    arguments: &[
        Argument::One("register"),
        Argument::One("group"),
        Argument::One("xeid"),
    ],
};

/// Prints what the group's server answers to a request of nonce 1, in hexadecimal. Refused for the identifier, for the
/// register, or where it has no such group.
pub fn run_answer<'a, F, O, P, E>(
    alloc: Global,
    words: &Words<'a>,
    open_file: &O,
    out: &mut P,
    err: &mut E,
) -> Status
where
    F: Read + Drop,
    O: Fn(&str) -> Option<F> + Drop,
    P: Write,
    E: Write,
    requires { O.IsAlwaysCallable open_file.now }
    ensures { Ends result (streams P.contents out.old out.new E.contents err.old err.new)
        (answer_prints (FnReturnsAt O.Fn open_file.now) F.remaining (call_of words.now)) }
{
    let answer = lines_over::<Answer<'a>, F, O>(alloc, words, open_file);
    print_result(alloc, &answer, out, err)
}

/// The word that names the group, and the identifier.
#[derive(Clone, Copy, Debug)]
pub struct Answer<'a> {
    group: &'a str,
    xeid: Xeid,
}

impl<'a> OverRegister<'a> for Answer<'a> {
    ghost bad_word = { bad_xeid };

    ghost asks = { λ call command. (command.group.now ≡ group_of call) × (xeid_of call ≡ Ok command.xeid) };

    ghost answers = { whole IsAnswerText };

    ghost refuses = { IsWhyNoGroup };

    fn of(_alloc: Global, words: &Words<'a>) -> Result<Answer<'a>, WordRefusal> {
        Ok(Answer {
            group: words.value("group"),
            xeid: identifier(words.value("xeid"))?,
        })
    }

    fn lines(&self, alloc: Global, register: &Accepted) -> Result<Lines, Refusal<'static>> {
        let group = of_group(Name::of(self.group.as_bytes()))?;
        let digits = of_group(answer_hex(alloc, register, group, self.xeid)?)?;
        Ok(Lines::whole(ended(digits)?))
    }
}

/// A text and a line feed.
fn ended(text: String) -> Result<Vec<u8>, AllocError>
    ensures { IfOk result (λ line. line.items ≡ as_line (string_bytes text)) }
{
    let mut line = text.into_bytes();
    line.push(b'\n')?;
    Ok(line)
}

/// The bytes of the Map-Referral for nonce 1 that the group's server at its first locator answers; None if and only if
/// no group has the name.
pub fn answer_group(
    alloc: Global,
    accepted: &Accepted,
    group: Name,
    x: Xeid,
) -> Result<Option<Vec<u8>>, AllocError>
    ensures { IfOk result (λ answer. option_map (λ v. v.items) answer ≡ group_answer accepted.now group (xeid_path x)) }
{
    match config_of_group(alloc, accepted, group)? {
        Some(config) => Ok(Some(answer_by(alloc, config, x)?)),
        None => Ok(None),
    }
}

/// The configuration of the group of this name.
fn config_of_group(
    alloc: Global,
    accepted: &Accepted,
    group: Name,
) -> Result<Option<ServerConfig>, AllocError>
    ensures { IfOk result (λ found.
        MatchOption found (group_named accepted.now group ≡ None) (λ c. IsConfigOfGroup accepted.now group c)) }
{
    compile_group(alloc, accepted, group)
}

/// What a server of this configuration replies to a request of nonce 1.
fn answer_by(alloc: Global, config: ServerConfig, x: Xeid) -> Result<Vec<u8>, AllocError>
    requires { entry_count (outline config) < most_entries }
    ensures { IfOk result (λ bytes. bytes.items ≡ written 1 (answer_in (outline config) (xeid_path x))) }
{
    let Ok(server) = Server::<TrieMap<u32>>::build(alloc, config) else {
        return Err(AllocError);
    };
    let request = write_request(alloc, 1, x, &[RESOLVER], true)?;
    match server.reply(alloc, &request)? {
        Some(reply) => Ok(reply.into_vec()),
        None => unreachable!(),
    }
}

/// The same bytes as lower-case hexadecimal text.
pub fn answer_hex(
    alloc: Global,
    accepted: &Accepted,
    group: Name,
    x: Xeid,
) -> Result<Option<String>, AllocError>
    ensures { IfOk result (λ answer. option_map string_bytes answer
        ≡ option_map encode_lower (group_answer accepted.now group (xeid_path x))) }
{
    match answer_group(alloc, accepted, group, x)? {
        Some(bytes) => Ok(Some(hex::encode(alloc, bytes)?)),
        None => Ok(None),
    }
}
