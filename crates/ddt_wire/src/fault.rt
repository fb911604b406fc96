//! Why bytes spell no Map-Referral.

use thiserror::Error;

/// The first fault of a datagram.
#[derive(Clone, Copy, Debug, PartialEq, Eq, Error)]
pub enum ReferralFault {
    /// A field passes the end.
    #[error("1 Short")]
    Short,
    /// The first four bits aren't 6.
    #[error("2 MessageType")]
    MessageType,
    /// The record count isn't 1.
    #[error("3 RecordCount")]
    RecordCount,
    /// ACT is 6 or 7.
    #[error("4 BadAction")]
    BadAction,
    /// SigCnt isn't 0.
    #[error("5 Signed")]
    Signed,
    /// The EID-AFI isn't 1, 2 or 16387.
    #[error("6 EidFamily")]
    EidFamily,
    /// An LCAF isn't of type 2, or its inner AFI isn't 0, 1 or 2, or its length doesn't fit that.
    #[error("7 Lcaf")]
    Lcaf,
    /// A mask length is above the width.
    #[error("8 MaskLength")]
    MaskLength,
    /// A digit past the length of a range of instances isn't 0.
    #[error("9 TailNotZero")]
    TailNotZero,
    /// The AFI of a locator isn't 1 or 2.
    #[error("10 LocatorFamily")]
    LocatorFamily,
    /// Bytes stand after the last locator.
    #[error("11 Trailing")]
    Trailing,
}
