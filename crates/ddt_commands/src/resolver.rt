//! What `lookup`, `loop` and `replay` share: a resolver and its servers, their words, and the names of their ends.

ghost use Rattle.std.specs.Prelude.{◌≡◌, ◌++◌, Ok, None, Some, IfOk, IfErr, IfSome, map, option_map};
ghost use Rattle.ddt_text.specs.FirstFault.{xeid_in};
ghost use Rattle.ddt_commands.specs.CommandLine.Call.{call_of};
ghost use Rattle.ddt_lines.specs.Lines.{ended};
ghost use Rattle.ddt_commands.specs.Commands.Lookup.{address_refusal, bad_identifier, me_in, number_refusal, seed_in, why_text, xeid_words};
ghost use Rattle.ddt_commands.specs.Commands.Replay.{ask_error_text};

use crate::command_line::Words;
use crate::commands::assign::identifier;
use crate::refusal::WordRefusal;
use ddt_cache::Entry;
use ddt_path::{Locator, Xeid};
use ddt_resolver::{AskError, Resolver, Why};
use ddt_sim::Compiled;
use ddt_text::{parse_locator, read_number};
use ddt_trie::TrieMap;
use std::alloc::{AllocError, Global};

/// The address of the resolver that asks, 127.0.0.53.
pub const RESOLVER: Locator = Locator::V4(0x7f00_0035);

/// The servers of a register.
pub type Servers = Compiled<TrieMap<u32>>;

/// The resolver that asks them.
pub type Client = Resolver<TrieMap<Entry>>;

/// The identifiers that the words of `xeid` spell, in their order; None where memory ran out. The first bad word is
/// refused, also then.
pub fn identifiers(alloc: Global, words: &Words<'_>) -> Result<Option<Vec<Xeid>>, WordRefusal>
    ensures good { IfOk result (λ found. bad_identifier (xeid_words (call_of words.now)) ≡ None) }
    ensures spelled { IfOk result (λ found. IfSome found (λ ids.
        map xeid_in (xeid_words (call_of words.now)) ≡ map Ok ids.items)) }
    ensures bad { IfErr result (λ why. bad_identifier (xeid_words (call_of words.now)) ≡ Some why) }
{
    identifiers_in(alloc, words.all_values("xeid").unwrap_or(&[]))
}

fn identifiers_in(alloc: Global, words: &[&str]) -> Result<Option<Vec<Xeid>>, WordRefusal>
    ensures good { IfOk result (λ found. bad_identifier (map (λ t. t.now) words.now) ≡ None) }
    ensures spelled { IfOk result (λ found. IfSome found (λ ids.
        map xeid_in (map (λ t. t.now) words.now) ≡ map Ok ids.items)) }
    ensures bad { IfErr result (λ why. bad_identifier (map (λ t. t.now) words.now) ≡ Some why) }
{
    let mut ids = Vec::new(alloc);
    let mut has_room = true;
    for word in words {
        let x = identifier(word)?;
        has_room &= ids.push(x).is_ok();
    }
    if has_room { Ok(Some(ids)) } else { Ok(None) }
}

/// The resolver's own address.
pub fn own_address(word: Option<&str>) -> Result<Locator, WordRefusal>
    ensures good { IfOk result (λ me. me_in (option_map (λ t. t.now) word.entry) ≡ Ok me) }
    ensures bad { IfErr result (λ why. address_refusal (me_in (option_map (λ t. t.now) word.entry)) ≡ Some why) }
{
    let Some(word) = word else {
        return Ok(RESOLVER);
    };
    match parse_locator(word.as_bytes()) {
        Ok(me) => Ok(me),
        Err(_fault) => Err(WordRefusal::Address),
    }
}

/// The nonce of the resolver's first request.
pub fn first_nonce(word: Option<&str>) -> Result<u64, WordRefusal>
    ensures good { IfOk result (λ seed. seed_in (option_map (λ t. t.now) word.entry) ≡ Some seed) }
    ensures bad { IfErr result (λ why. number_refusal (seed_in (option_map (λ t. t.now) word.entry)) ≡ Some why) }
{
    let Some(word) = word else {
        return Ok(1);
    };
    match read_number(word.as_bytes(), u64::MAX) {
        Some(seed) => Ok(seed),
        None => Err(WordRefusal::Number),
    }
}

/// A word, a further text, and a line feed.
pub fn plain_line(alloc: Global, word: &str, of: &str) -> Result<Vec<u8>, AllocError>
    ensures { IfOk result (λ line. line.items ≡ ended (word.now ++ of.now)) }
{
    Ok(format!(in alloc; "{word}{of}\n")?.into_bytes())
}

/// The name of why an ask is refused.
pub fn ask_error_name(why: AskError) -> &'static str
    ensures { result.now ≡ ask_error_text why }
{
    match why {
        AskError::TooMany => "TooMany",
        AskError::Exhausted => "Exhausted",
        AskError::Memory => "Memory",
    }
}

/// The name of why a lookup gave up.
pub fn why_name(why: Why) -> &'static str
    ensures { result.now ≡ why_text why }
{
    match why {
        Why::NoReply => "NoReply",
        Why::Loop => "Loop",
        Why::NotAuthoritative => "NotAuthoritative",
        Why::Exhausted => "Exhausted",
    }
}
