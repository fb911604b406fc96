//! The outcome of a packet, or of a tick, for the ITRs that wait.

ghost use Rattle.std.specs.Prelude.{◌≡◌};
ghost use Rattle.ddt_resolver.specs.declared.step.Reply.TheVariants.{ToDatagram};
ghost use Rattle.ddt_loop.specs.PacketOutcomes.{outcome_of_request, outcome_of_reply};
ghost use Rattle.ddt_loop.specs.Ignoring.{ignored_of};

use ddt_path::{Locator, Outcome};
use ddt_resolver::{Heard, Ignored, Reply, Ticket, Why};

/// The end of a lookup that an ITR waited for.
#[derive(Clone, Copy, Debug)]
pub struct Ended {
    /// The number of the lookup's ticket.
    pub ticket: u64,
    /// Its outcome, or why it has none.
    pub end: Result<Outcome, Why>,
}

/// The outcome of a datagram that isn't an Encapsulated Control Message.
#[derive(Clone, Copy, Debug)]
pub struct DatagramOutcome {
    /// The end of the ITR's lookup that the datagram ended, if any.
    pub ended: Option<Ended>,
    /// Why the datagram is ignored; None if it isn't.
    pub ignored: Option<Ignored>,
}

/// The outcome of a packet for the ITRs that wait.
#[derive(Clone, Copy, Debug)]
pub enum PacketOutcome {
    /// The same ITRs wait as before.
    Nothing,
    /// An ITR waits for the lookup that its request started.
    Waits {
        /// The number of the lookup's ticket.
        ticket: u64,
        /// The number of bytes of the request.
        len: usize,
    },
    /// The packet ended the lookup of an ITR.
    Ended {
        /// The server that sent the packet.
        by: Locator,
        /// The lookup and its end.
        ended: Ended,
    },
}

/// The outcome of an ITR's request of `len` bytes that started the lookup of a ticket, or none.
pub(crate) fn request_outcome(ticket: Option<u64>, len: usize) -> PacketOutcome
    ensures { result ≡ outcome_of_request ticket len }
{
    match ticket {
        Some(ticket) => PacketOutcome::Waits { ticket, len },
        None => PacketOutcome::Nothing,
    }
}

/// The outcome of a server's datagram that ended a lookup, or none.
pub(crate) fn reply_outcome(by: Locator, ended: Option<Ended>) -> PacketOutcome
    ensures { result ≡ outcome_of_reply by ended }
{
    match ended {
        Some(ended) => PacketOutcome::Ended { by, ended },
        None => PacketOutcome::Nothing,
    }
}

/// The end of a ticket's lookup, for its ITR.
pub(crate) fn ended_lookup(ticket: Ticket, end: &Result<Outcome, Why>) -> Ended
    ensures ticket { result.ticket ≡ ticket }
    ensures end { result.end ≡ end.now }
{
    Ended {
        ticket: ticket.number(),
        end: *end,
    }
}

/// Why a step ignored the datagram; None if it didn't, or if there was none.
pub(crate) fn why_ignored(reply: &Reply) -> Option<Ignored>
    ensures { result ≡ ignored_of reply.now }
{
    match reply {
        Reply::ToAsk(_answer) => None,
        Reply::ToDatagram(heard) => ignored_in(heard),
        Reply::ToTick(_ticked) => None,
    }
}

fn ignored_in(heard: &Heard) -> Option<Ignored>
    ensures { result ≡ ignored_of (ToDatagram heard.now) }
{
    match heard {
        Heard::Ignored(why) => Some(*why),
        Heard::Followed(_ticket, _request) => None,
        Heard::Answer(_ticket, _outcome) => None,
        Heard::GaveUp(_ticket, _why) => None,
    }
}
