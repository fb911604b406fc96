//! The line of each step of a replay: its event.

ghost use Rattle.std.specs.Prelude.{◌≡◌, ◌≤◌, ◌++◌, decimal, IfOk};
ghost use Rattle.ddt_lines.specs.Lines.{ended};
ghost use Rattle.ddt_commands.specs.Commands.Replay.{answer_text, datagrams_at, event_text, gave_up_text, ignored_text, lines_from, sent_text};
ghost use Rattle.ddt_resolver.specs.declared.results.Asked.TheVariants as asked_as;
ghost use Rattle.ddt_sim.specs.declared.schedule.Event.TheVariants as event_as;

use crate::resolver::{ask_error_name, plain_line, why_name};
use ddt_lines::outcome_line;
use ddt_path::Outcome;
use ddt_resolver::{Asked, Heard, Ignored, Outgoing, Ticked, Ticket, Why};
use ddt_sim::Event;
use ddt_text::write_locator;
use std::alloc::{AllocError, Global};

/// The lines of these events, in order. A request that an event sends has as its number how many datagrams were sent
/// before it.
pub fn event_lines(alloc: Global, events: &[Event]) -> Result<Vec<u8>, AllocError>
    ensures { IfOk result (λ text. text.items ≡ lines_from 0 events.now) }
{
    let mut text = Vec::new(alloc);
    let mut sent = 0;
    for event in events {
        text.extend_from_slice(&event_line(alloc, sent, event)?)?;
        sent += datagrams(event);
    }
    Ok(text)
}

/// How many datagrams are sent at an event.
fn datagrams(event: &Event) -> u64
    ensures count { result ≡ datagrams_at event.now }
    ensures one { result ≤ 1 }
{
    match event {
        Event::Asked(Asked::Sent(_, _)) => 1,
        Event::Heard(Heard::Followed(_, _)) => 1,
        Event::Ticked(Ticked::Sent(_, _)) => 1,
        Event::Replied(_) => 1,
        _ => 0,
    }
}

/// The line of an event; a request that it sends has this number.
fn event_line(alloc: Global, number: u64, event: &Event) -> Result<Vec<u8>, AllocError>
    ensures { IfOk result (λ line. line.items ≡ ended (event_text number event.now)) }
{
    match event {
        Event::Asked(asked) => asked_line(alloc, number, asked),
        Event::Refused(why) => plain_line(alloc, "refused ", ask_error_name(*why)),
        Event::Replied(number) => number_line(alloc, "reply ", *number),
        Event::Silent => plain_line(alloc, "silent", ""),
        Event::Heard(heard) => heard_line(alloc, number, heard),
        Event::Passed(moment) => number_line(alloc, "now ", moment.millis()),
        Event::Ticked(ticked) => ticked_line(alloc, number, ticked),
        Event::Replaced(number) => number_line(alloc, "replaced ", *number),
        Event::Nothing => plain_line(alloc, "nothing", ""),
    }
}

fn asked_line(alloc: Global, number: u64, asked: &Asked) -> Result<Vec<u8>, AllocError>
    ensures { IfOk result (λ line. line.items ≡ ended (event_text number (event_as.Asked asked.now))) }
{
    match asked {
        Asked::Answer(outcome) => remembered_line(alloc, outcome),
        Asked::Sent(ticket, request) => sent_line(alloc, *ticket, number, request),
    }
}

fn heard_line(alloc: Global, number: u64, heard: &Heard) -> Result<Vec<u8>, AllocError>
    ensures { IfOk result (λ line. line.items ≡ ended (event_text number (event_as.Heard heard.now))) }
{
    match heard {
        Heard::Ignored(why) => plain_line(alloc, "ignored ", ignored_name(*why)),
        Heard::Followed(ticket, request) => sent_line(alloc, *ticket, number, request),
        Heard::Answer(ticket, outcome) => answer_line(alloc, *ticket, outcome),
        Heard::GaveUp(ticket, why) => gave_up_line(alloc, *ticket, *why),
    }
}

fn ticked_line(alloc: Global, number: u64, ticked: &Ticked) -> Result<Vec<u8>, AllocError>
    ensures { IfOk result (λ line. line.items ≡ ended (event_text number (event_as.Ticked ticked.now))) }
{
    match ticked {
        Ticked::Nothing => plain_line(alloc, "nothing", ""),
        Ticked::Sent(ticket, request) => sent_line(alloc, *ticket, number, request),
        Ticked::Answer(ticket, outcome) => answer_line(alloc, *ticket, outcome),
        Ticked::GaveUp(ticket, why) => gave_up_line(alloc, *ticket, *why),
    }
}

/// A request was sent, as the datagram of this number.
fn sent_line(
    alloc: Global,
    ticket: Ticket,
    number: u64,
    request: &Outgoing,
) -> Result<Vec<u8>, AllocError>
    ensures { IfOk result (λ line. line.items ≡ ended (sent_text ticket number request.now)) }
{
    let ticket = ticket.number();
    let mut line = format!(in alloc; "ticket {ticket} sent {number} to ")?.into_bytes();
    write_locator(&mut line, request.to)?;
    line.push(b'\n')?;
    Ok(line)
}

/// A lookup ended with an outcome.
fn answer_line(alloc: Global, ticket: Ticket, outcome: &Outcome) -> Result<Vec<u8>, AllocError>
    ensures { IfOk result (λ line. line.items ≡ ended (answer_text ticket outcome.now)) }
{
    let ticket = ticket.number();
    let mut line = format!(in alloc; "ticket {ticket} answer ")?.into_bytes();
    line.extend_from_slice(&outcome_line(alloc, outcome)?)?;
    Ok(line)
}

/// A lookup ended without an outcome.
fn gave_up_line(alloc: Global, ticket: Ticket, why: Why) -> Result<Vec<u8>, AllocError>
    ensures { IfOk result (λ line. line.items ≡ ended (gave_up_text ticket why)) }
{
    let ticket = ticket.number();
    let why = why_name(why);
    Ok(format!(in alloc; "ticket {ticket} gave-up {why}\n")?.into_bytes())
}

/// An ask was answered at once.
fn remembered_line(alloc: Global, outcome: &Outcome) -> Result<Vec<u8>, AllocError>
    ensures { IfOk result (λ line. line.items ≡ ended (event_text 0 (event_as.Asked (asked_as.Answer outcome.now)))) }
{
    let mut line = Vec::from_slice(alloc, b"answer ")?;
    line.extend_from_slice(&outcome_line(alloc, outcome)?)?;
    Ok(line)
}

/// A word and a number.
fn number_line(alloc: Global, word: &str, number: u64) -> Result<Vec<u8>, AllocError>
    ensures { IfOk result (λ line. line.items ≡ ended (word.now ++ decimal number)) }
{
    Ok(format!(in alloc; "{word}{number}\n")?.into_bytes())
}

/// The name of why a datagram is ignored.
fn ignored_name(why: Ignored) -> &'static str
    ensures { result.now ≡ ignored_text why }
{
    match why {
        Ignored::Undecodable => "Undecodable",
        Ignored::UnknownNonce => "UnknownNonce",
        Ignored::WrongSource => "WrongSource",
        Ignored::Late => "Late",
        Ignored::NotCovering => "NotCovering",
        Ignored::NoServers => "NoServers",
    }
}
