//! Why nothing is taken of a foreign Map-Referral, and nothing read of a foreign Map-Request.

use ddt_ecm::RequestFault;
use ddt_wire::AddressFault;
use thiserror::Error;

/// The first fault of a datagram, up to the end of the record that is taken.
#[derive(Clone, Copy, Debug, PartialEq, Eq, Error)]
pub enum ForeignFault {
    /// A field passes the end.
    #[error("1 Short")]
    Short,
    /// The first four bits aren't 6.
    #[error("2 MessageType")]
    MessageType,
    /// An EID-AFI isn't 1, 2 or 16387.
    #[error("3 EidFamily")]
    EidFamily,
    /// The LCAF of an EID isn't of type 2, or its inner AFI isn't 0, 1 or 2, or its length doesn't fit that.
    #[error("4 Lcaf")]
    Lcaf,
    /// A mask length is above the width.
    #[error("5 MaskLength")]
    MaskLength,
    /// A digit past the length of a range of instances isn't 0.
    #[error("6 TailNotZero")]
    TailNotZero,
    /// The AFI of a locator isn't 0, 1, 2 or 16387, as a MAC address's 16389: a message with an unrecognized AFI is
    /// dropped and logged (RFC 9301, section 5).
    #[error("7 UnrecognizedAfi")]
    UnrecognizedAfi,
    /// No record's prefix covers the identifier.
    #[error("8 NotCovering")]
    NotCovering,
    /// ACT of the record that covers the identifier is 6 or 7.
    #[error("9 BadAction")]
    BadAction,
}

/// The first fault of a datagram that is no foreign Map-Request, up to the end of its first record.
#[derive(Clone, Copy, Debug, PartialEq, Eq, Error)]
pub enum ForeignRequestFault {
    /// The headers around the Map-Request are refused, as by `ddt_ecm::read_request`.
    #[error("1 Headers {0}")]
    Headers(RequestFault),
    /// A field of the Map-Request passes the end.
    #[error("2 Short")]
    Short,
    /// The inner message isn't a Map-Request.
    #[error("3 RequestType")]
    RequestType,
    /// There is no record, or its EID's AFI is 0.
    #[error("4 NoEid")]
    NoEid,
    /// The AFI of the source EID, of an ITR-RLOC or of the EID isn't 0, 1, 2 or 16387, as a MAC address's 16389: a
    /// message with an unrecognized AFI is dropped and logged (RFC 9301, section 5).
    #[error("5 UnrecognizedAfi")]
    UnrecognizedAfi,
    /// The EID's LCAF isn't of type 2, or its inner AFI isn't 0, 1 or 2, or its length doesn't fit that.
    #[error("6 Lcaf")]
    Lcaf,
    /// The EID mask-len is above the width of the address, or the IID mask-len above 32.
    #[error("7 MaskLength")]
    MaskLength,
    /// The EID is a range of instances.
    #[error("8 ManyInstances")]
    ManyInstances,
    /// Of no ITR-RLOC the address is known.
    #[error("9 NoRloc")]
    NoRloc,
}

impl ForeignRequestFault {
    ghost use Rattle.std.specs.Prelude.{◌≡◌};
    ghost use Rattle.ddt_foreign.specs.Request.{from_rloc};

    /// A fault of an address as one of the request.
    pub(crate) fn of_address(fault: AddressFault) -> ForeignRequestFault
        ensures { result ≡ from_rloc fault }
    {
        match fault {
            AddressFault::Short => ForeignRequestFault::Short,
            AddressFault::Family => ForeignRequestFault::UnrecognizedAfi,
        }
    }
}
