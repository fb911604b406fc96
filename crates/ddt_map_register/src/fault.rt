//! Why bytes spell no Map-Register.

use thiserror::Error;

/// The first fault of a datagram.
#[derive(Clone, Copy, Debug, PartialEq, Eq, Error)]
pub enum MapRegisterFault {
    /// A field passes the end.
    #[error("1 Short")]
    Short,
    /// The first four bits aren't 3.
    #[error("2 MessageType")]
    MessageType,
    /// An EID-AFI isn't 1, 2 or 16387.
    #[error("3 EidFamily")]
    EidFamily,
    /// The LCAF of an EID isn't of type 2, or its inner AFI isn't 0, 1 or 2, or its length doesn't fit that.
    #[error("4 Lcaf")]
    Lcaf,
    /// A mask length is above the width.
    #[error("5 MaskLength")]
    MaskLength,
    /// A digit past the length of a range of instances isn't 0.
    #[error("6 TailNotZero")]
    TailNotZero,
    /// The AFI of a locator isn't 1, 2 or 16387.
    #[error("7 LocatorFamily")]
    LocatorFamily,
    /// There are bytes after the last record, or after the Site-ID.
    #[error("8 Trailing")]
    Trailing,
}
