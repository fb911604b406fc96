//! Bytes that are no message.

use ddt_ecm::RequestFault;
use ddt_wire::{ReferralFault, ReplyFault};
use std::fmt;

/// Why a word shows no message.
#[derive(Clone, Copy, Debug)]
pub enum MessageRefusal {
    /// The word is no hexadecimal text.
    NotHex,
    /// The datagram is empty, or its type is unknown.
    UnknownMessage,
    /// The datagram is of the type of a Map-Reply, and no negative one.
    NoReply(ReplyFault),
    /// The datagram is of the type of a Map-Referral, and none.
    NoReferral(ReferralFault),
    /// The datagram is of the type of an encapsulated Map-Request, and none.
    NoRequest(RequestFault),
}

impl fmt::Display for MessageRefusal {
    ghost use Rattle.ddt_commands.specs.Refusal.{message_refusal_text};

    ghost output = { message_refusal_text };

    fn fmt<W: fmt::Write>(&self, f: &mut fmt::Formatter<W>) -> fmt::Result {
        match self {
            MessageRefusal::NotHex => write!(f, "refused hex"),
            MessageRefusal::UnknownMessage => write!(f, "refused unknown message"),
            MessageRefusal::NoReply(fault) => write!(f, "refused {fault}"),
            MessageRefusal::NoReferral(fault) => write!(f, "refused {fault}"),
            MessageRefusal::NoRequest(fault) => write!(f, "refused {fault}"),
        }
    }
}
