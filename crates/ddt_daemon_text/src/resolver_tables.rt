//! What a resolver knows as lines, for the commands `servers`, `cache`, `lookup` and `flush`, and for the log: its
//! servers, its cache, and lookups that gave up.

use crate::texts::{Message, push_locators, string_of};
use ddt_cache::{Entry, Moment};
use ddt_path::{Locator, Prefix, Xeid};
use ddt_resolver::{Resolver, Why};
use ddt_sockets::ip_of;
use ddt_sockets::nonces::Server;
use ddt_text::{parse_prefix, write_prefix, write_xeid};
use ddt_trie::TrieMap;
use std::alloc::{AllocError, Global};
use std::fmt;

/// The answer to `servers`: a line for each server, and last the number of servers.
///
/// A line has the address, `answers` or `silent`, the smoothed round-trip time and its variation, the wait for a reply,
/// the number of requests in a row without a reply, and the times since the server was last heard and asked. All times
/// are in milliseconds.
pub fn servers_text(alloc: Global, servers: &[Server], now: Moment) -> Message {
    let mut text = String::new(alloc);
    for server in servers {
        let line = ServerLine {
            server,
            now: now.millis(),
        };
        text.push_str(&format!(in alloc; "{line}\n")?)?;
    }
    text.push_str(&format!(in alloc; "servers={}\n", servers.len())?)?;
    Ok(text)
}

/// What is known of a server at a moment, in milliseconds.
#[derive(Clone, Copy)]
struct ServerLine<'a> {
    server: &'a Server,
    now: u64,
}

impl fmt::Display for ServerLine<'_> {
    fn fmt<W: fmt::Write>(&self, f: &mut fmt::Formatter<W>) -> fmt::Result {
        let server = self.server;
        let state = if server.is_silent(self.now) {
            "silent"
        } else {
            "answers"
        };
        write!(f, "{} {state}", ip_of(server.locator))?;
        if let Some(trip) = server.round_trip {
            write!(f, " rtt={} rttvar={}", trip.smoothed, trip.variation)?;
        }
        let (wait, unanswered) = (server.first_wait(), server.unanswered);
        write!(f, " wait={wait} unanswered={unanswered}")?;
        if let Some(heard) = server.heard {
            write!(f, " heard={}", self.now.saturating_sub(heard))?;
        }
        if let Some(asked) = server.asked {
            write!(f, " asked={}", self.now.saturating_sub(asked))?;
        }
        Ok(())
    }
}

/// The answer to `cache`: a line for each entry of the prefix in the argument and those inside it, or of all, in the
/// order in which they end. The last line is the number of entries.
pub fn cache_text(
    alloc: Global,
    resolver: &Resolver<TrieMap<Entry>>,
    argument: &str,
    now: Moment,
) -> Message {
    let Some(within) = prefix_in(argument) else {
        return format!(in alloc; "refused: {argument} is no prefix\n");
    };
    match resolver.inside(within) {
        Ok(entries) => entries_text(alloc, entries.as_slice(), now),
        Err(_) => format!(in alloc; "refused: out of memory\n"),
    }
}

/// The lines of the entries that haven't ended yet, and their number.
fn entries_text(alloc: Global, entries: &[(Prefix, Entry)], now: Moment) -> Message {
    let mut text = Vec::new(alloc);
    let mut count = 0u64;
    for (prefix, entry) in entries {
        if is_live(entry, now) {
            push_entry(&mut text, *prefix, entry, now)?;
            count = count.saturating_add(1);
        }
    }
    text.extend_from_slice(format!(in alloc; "entries={count}\n")?.as_bytes())?;
    string_of(alloc, &text)
}

/// Whether an entry hasn't ended yet.
pub fn is_live(entry: &Entry, now: Moment) -> bool {
    now.millis() < entry.end
}

/// The answer to `lookup`, for the longest match in the cache: the line of the entry.
pub fn entry_text(alloc: Global, prefix: Prefix, entry: &Entry, now: Moment) -> Message {
    let mut text = Vec::new(alloc);
    push_entry(&mut text, prefix, entry, now)?;
    string_of(alloc, &text)
}

/// The prefix in the argument of a command; for an empty argument, the prefix of all identifiers. None if the argument
/// is no prefix.
pub fn prefix_in(argument: &str) -> Option<Prefix> {
    if argument.is_empty() {
        return Some(Prefix::cut(
            Xeid {
                iid: 0,
                address: Locator::V4(0),
            },
            0,
        ));
    }
    parse_prefix(argument.as_bytes()).ok()
}

/// Appends the line of an entry: the prefix, the action, the seconds left, and the servers.
fn push_entry(
    text: &mut Vec<u8>,
    prefix: Prefix,
    entry: &Entry,
    now: Moment,
) -> Result<(), AllocError> {
    write_prefix(text, prefix)?;
    text.push(b' ')?;
    text.extend_from_slice(entry.action.name().as_bytes())?;
    push_left(text, entry.end, now.millis())?;
    push_locators(text, entry.servers.as_slice())?;
    text.push(b'\n')?;
    Ok(())
}

/// Appends the seconds left of an entry; `always` for the root's, which has no end.
fn push_left(text: &mut Vec<u8>, end: u64, now: u64) -> Result<(), AllocError> {
    if end == u64::MAX {
        return text.extend_from_slice(b" always");
    }
    let left = end.saturating_sub(now) / 1000;
    let word = format!(in *text.allocator(); " {left}")?;
    text.extend_from_slice(word.as_bytes())
}

/// The line of the log for a lookup that gave up: its XEID, the reason, and the longest cached zone for it with its
/// servers.
pub fn gave_up_text(
    alloc: Global,
    xeid: Xeid,
    why: Why,
    zone: Prefix,
    servers: &[Locator],
) -> Message {
    let mut line = Vec::from_slice(alloc, b"gave up on ")?;
    write_xeid(&mut line, xeid)?;
    line.extend_from_slice(b": ")?;
    line.extend_from_slice(why_text(why).as_bytes())?;
    line.extend_from_slice(b", zone ")?;
    write_prefix(&mut line, zone)?;
    line.extend_from_slice(b" at")?;
    push_locators(&mut line, servers)?;
    string_of(alloc, &line)
}

fn why_text(why: Why) -> &'static str {
    match why {
        Why::NoReply => "no reply",
        Why::Loop => "a referral that leads nowhere",
        Why::NotAuthoritative => "no server is in charge",
        Why::Exhausted => "no nonce is left",
    }
}
