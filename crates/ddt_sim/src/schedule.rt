//! A schedule: the steps of a resolver and servers, the datagrams sent, and the event of each step.

ghost use Rattle.std.specs.Prelude.{◌≡◌};
ghost use Rattle.std.specs.Option.{option_copied};
ghost use Rattle.ddt_sim.specs.World.{event_of, request_at};

use ddt_cache::Moment;
use ddt_path::{Listed, Locator, Xeid};
use ddt_resolver::{AskError, Asked, Heard, Outgoing, Reply, Ticked};

/// A step of a schedule.
#[derive(Clone, Copy, Debug, PartialEq, Eq)]
pub enum Step {
    /// Asks the resolver for an identifier.
    Ask(Xeid),
    /// Delivers the datagram of this number: a request to its server, a reply to the resolver.
    Deliver(u64),
    /// Lets this many milliseconds pass.
    Pass(u64),
    /// Lets the resolver tick: a lookup whose deadline has come goes on or ends.
    Tick,
    /// Puts the servers of this number, counted from 0, in force.
    Replace(u64),
}

/// The event of a step.
#[derive(Debug, Drop)]
pub enum Event {
    /// The resolver answers the ask.
    Asked(Asked),
    /// The resolver refuses the ask: 1 TooMany or 2 Exhausted.
    Refused(AskError),
    /// The server replies with the datagram of this number.
    Replied(u64),
    /// The server gives no reply.
    Silent,
    /// The resolver handles the reply.
    Heard(Heard),
    /// The time is now this moment.
    Passed(Moment),
    /// The resolver answers the tick.
    Ticked(Ticked),
    /// The servers of this number are in force now.
    Replaced(u64),
    /// No datagram of this number has been sent yet, or no servers have this number.
    Nothing,
}

impl Event {
    /// The event of a resolver's answer.
    pub(crate) fn of(reply: Reply) -> Event
        ensures { result ≡ event_of reply }
    {
        match reply {
            Reply::ToAsk(Ok(asked)) => Event::Asked(asked),
            Reply::ToAsk(Err(error)) => Event::Refused(error),
            Reply::ToDatagram(heard) => Event::Heard(heard),
            Reply::ToTick(ticked) => Event::Ticked(ticked),
        }
    }

    /// The request that the resolver sends, if any.
    pub(crate) fn request(&self) -> Option<&Outgoing>
        ensures { option_copied result ≡ request_at self.now }
    {
        match self {
            Event::Asked(Asked::Sent(_, request)) => Some(request),
            Event::Heard(Heard::Followed(_, request)) => Some(request),
            Event::Ticked(Ticked::Sent(_, request)) => Some(request),
            _ => None,
        }
    }
}

/// A datagram of a schedule.
#[derive(Debug, Drop)]
pub struct Datagram {
    /// The sender.
    pub source: Locator,
    /// The receiver.
    pub to: Locator,
    /// Whether a server sent it, not the resolver.
    pub is_reply: bool,
    /// An Encapsulated Map-Request, or a server's reply to one.
    pub bytes: Listed<u8>,
}

/// The events and datagrams of a schedule.
#[derive(Debug, Drop)]
pub struct Transcript {
    /// The event of each step, in the order of the steps.
    pub events: Listed<Event>,
    /// All datagrams in the order of sending. The number of a datagram is its index, from 0.
    pub sent: Listed<Datagram>,
}
