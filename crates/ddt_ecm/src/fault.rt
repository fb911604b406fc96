//! Why bytes are no request.

use thiserror::Error;

/// The first fault of a datagram.
#[derive(Clone, Copy, Debug, PartialEq, Eq, Error)]
pub enum RequestFault {
    /// A field passes the end.
    #[error("1 Short")]
    Short,
    /// The first four bits aren't 8.
    #[error("2 MessageType")]
    MessageType,
    /// The bit S is set: the request is protected by LISP-SEC.
    #[error("3 Security")]
    Security,
    /// The inner IP version isn't 4 or 6.
    #[error("4 IpVersion")]
    IpVersion,
    /// A length of the inner IP header doesn't fit the bytes.
    #[error("5 IpLength")]
    IpLength,
    /// The sum over the inner IPv4 header is wrong.
    #[error("6 IpChecksum")]
    IpChecksum,
    /// The inner protocol isn't UDP.
    #[error("7 NotUdp")]
    NotUdp,
    /// The inner IPv4 packet is a fragment.
    #[error("8 Fragment")]
    Fragment,
    /// The UDP length doesn't fit the bytes.
    #[error("9 UdpLength")]
    UdpLength,
    /// The UDP checksum is there and wrong.
    #[error("10 UdpChecksum")]
    UdpChecksum,
    /// The inner destination port isn't 4342.
    #[error("11 Port")]
    Port,
    /// The message isn't a Map-Request.
    #[error("12 RequestType")]
    RequestType,
    /// The record count isn't 1.
    #[error("13 RecordCount")]
    RecordCount,
    /// The AFI of the source EID isn't 0, 1, 2 or 16387, or that of the EID isn't 1, 2 or 16387.
    #[error("14 EidFamily")]
    EidFamily,
    /// The EID's LCAF isn't of type 2, or its inner AFI isn't 0, 1 or 2, or its length doesn't fit that.
    #[error("15 Lcaf")]
    Lcaf,
    /// The EID isn't a single identifier: a range of instances, or a mask length that isn't the whole width.
    #[error("16 NotHost")]
    NotHost,
    /// The AFI of an ITR-RLOC isn't 1 or 2.
    #[error("17 RlocFamily")]
    RlocFamily,
    /// Bytes stand after the EID, and the bit M is clear.
    #[error("18 Trailing")]
    Trailing,
}
