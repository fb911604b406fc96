//! The types of control messages, in the first four bits of each (RFC 9301, section 5.1).

ghost use Rattle.std.specs.Prelude.{◌≡◌};
ghost use Rattle.ddt_wire.specs.MessageType.{is_of, number_of};

/// The type of a Map-Request (RFC 9301, section 5.2).
pub const MAP_REQUEST: u8 = 1;
/// The type of a Map-Reply (RFC 9301, section 5.4).
pub const MAP_REPLY: u8 = 2;
/// The type of a Map-Referral (RFC 8111, section 6.4).
pub const MAP_REFERRAL: u8 = 6;
/// The type of an Encapsulated Control Message (RFC 9301, section 5.8).
pub const ENCAPSULATED: u8 = 8;
/// How many bits stand behind the type in the first byte.
pub const TYPE_SHIFT: u32 = 4;

/// A type of control messages.
#[derive(Clone, Copy, Debug, PartialEq, Eq)]
pub enum MessageType {
    /// A Map-Request.
    MapRequest,
    /// A Map-Reply.
    MapReply,
    /// A Map-Referral.
    MapReferral,
    /// An Encapsulated Control Message.
    Encapsulated,
}

impl MessageType {
    /// Its number in the first four bits of a message.
    pub fn number(self) -> u8
        ensures { result ≡ number_of self }
    {
        match self {
            MessageType::MapRequest => MAP_REQUEST,
            MessageType::MapReply => MAP_REPLY,
            MessageType::MapReferral => MAP_REFERRAL,
            MessageType::Encapsulated => ENCAPSULATED,
        }
    }

    /// Whether the bytes begin as a message of this type: by the first four bits alone.
    pub fn is_of(self, bytes: &[u8]) -> bool
        ensures { result ≡ is_of self bytes.now }
    {
        match bytes {
            [first, ..] => *first >> TYPE_SHIFT == self.number(),
            [] => false,
        }
    }
}
