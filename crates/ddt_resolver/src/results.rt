//! The results of an ask, a datagram and a tick, and the datagrams that a resolver sends.

use ddt_path::{Listed, Locator, LocatorSet, Outcome};
use std::marker::Model;
use thiserror::Error;

/// A lookup's ticket: the nonce of its first request, so no two lookups have the same. Contracts see the number.
#[derive(Clone, Copy, Debug, PartialEq, Eq)]
pub struct Ticket {
    number: u64,
}

impl Model for Ticket {
    ghost use Rattle.std.specs.Prelude.{ℕ};

    ghost Value = { ℕ };

    ghost view = { λ a. a.number };

    ghost inverse = { λ n. record { number = n } };
}

impl Ticket {
    ghost use Rattle.std.specs.Prelude.{◌≡◌};

    /// The ticket of this number.
    pub(crate) fn of(number: u64) -> Ticket
        ensures { result ≡ number }
    {
        Ticket { number }
    }

    /// Its number.
    pub fn number(self) -> u64
        ensures { result ≡ self }
    {
        self.number
    }
}

/// A datagram to send from the resolver's own address.
#[derive(Debug, Drop)]
pub struct Outgoing {
    /// The server or the ITR that it goes to.
    pub to: Locator,
    /// The UDP port there.
    pub port: u16,
    /// An Encapsulated Map-Request to a server, or a negative Map-Reply to an ITR.
    pub bytes: Listed<u8>,
}

/// The beginning of an ask.
#[derive(Clone, Copy, Debug)]
pub enum Beginning {
    /// The answer of a negative record in the cache.
    Answer(Outcome),
    /// The servers that a lookup asks first.
    Servers(LocatorSet),
}

/// The result of an ask.
#[derive(Debug, Drop)]
pub enum Asked {
    /// The outcome: a negative record in the cache covers the identifier.
    Answer(Outcome),
    /// A lookup is pending under this ticket; this is its first request, to be sent.
    Sent(Ticket, Outgoing),
}

/// Why an ask is refused.
#[derive(Clone, Copy, Debug, PartialEq, Eq, Error)]
pub enum AskError {
    /// 1,024 lookups are pending.
    #[error("1 TooMany")]
    TooMany,
    /// No nonce is left.
    #[error("2 Exhausted")]
    Exhausted,
    /// Memory ran out.
    #[error("3 Memory")]
    Memory,
}

/// Why a datagram is ignored, in the order of the tests.
#[derive(Clone, Copy, Debug, PartialEq, Eq, Error)]
pub enum Ignored {
    /// It isn't a Map-Referral that can be read.
    #[error("1 Undecodable")]
    Undecodable,
    /// No pending lookup's last request has its nonce.
    #[error("2 UnknownNonce")]
    UnknownNonce,
    /// It doesn't come from the server that the request went to.
    #[error("3 WrongSource")]
    WrongSource,
    /// The request's deadline has come.
    #[error("4 Late")]
    Late,
    /// Its prefix doesn't cover the identifier, and its action isn't NOT-AUTHORITATIVE.
    #[error("5 NotCovering")]
    NotCovering,
    /// It is a NODE-REFERRAL or an MS-REFERRAL and names no server.
    #[error("6 NoServers")]
    NoServers,
}

/// Why a lookup ends without an answer.
#[derive(Clone, Copy, Debug, PartialEq, Eq, Error)]
pub enum Why {
    /// Each server of the current set was asked twice, and no usable reply came in time, or before hastening.
    #[error("1 NoReply")]
    NoReply,
    /// A referral's prefix isn't longer than that of the referral before it.
    #[error("2 Loop")]
    Loop,
    /// A server isn't authoritative for the identifier, and the lookup can't start again at the root.
    #[error("3 NotAuthoritative")]
    NotAuthoritative,
    /// A request was to be sent and no nonce is left.
    #[error("4 Exhausted")]
    Exhausted,
}

/// The result of a datagram.
#[derive(Debug, Drop)]
pub enum Heard {
    /// The datagram is ignored: it isn't a reply that a pending lookup can use.
    Ignored(Ignored),
    /// The lookup goes on with this request.
    Followed(Ticket, Outgoing),
    /// The lookup ends with this outcome.
    Answer(Ticket, Outcome),
    /// The lookup ends without an outcome.
    GaveUp(Ticket, Why),
}

/// The result of a tick, or of hastening a lookup.
#[derive(Debug, Drop)]
pub enum Ticked {
    /// No pending lookup's deadline has come; or no lookup has the nonce to hasten.
    Nothing,
    /// A lookup goes on with this request.
    Sent(Ticket, Outgoing),
    /// A lookup ends with this outcome.
    Answer(Ticket, Outcome),
    /// A lookup ends without an outcome.
    GaveUp(Ticket, Why),
}
