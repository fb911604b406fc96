//! Why a Map-Register is refused, and why a site isn't added to a registrar.

use thiserror::Error;

/// Why a Map-Register is refused: it changes nothing and gets no answer. The variants are in the order of the checks of
/// a record.
#[derive(Clone, Copy, Debug, PartialEq, Eq, Error)]
pub enum Refusal {
    /// It has no record.
    #[error("1 NoRecord")]
    NoRecord,
    /// No site with a key has exactly the prefix of a record.
    #[error("2 NoSite")]
    NoSite,
    /// The site has no key of the message's Key ID and Algorithm ID.
    #[error("3 NoKey")]
    NoKey,
    /// The message isn't authentic under the key.
    #[error("4 WrongCode")]
    WrongCode,
    /// The nonce isn't above the last one of the same xTR under a key whose nonces have to increase.
    #[error("5 Replayed")]
    Replayed,
    /// The record has more than 8 ETRs, or the site has 8 other xTRs; or the nonces of the key have to increase, and
    /// the site has the last nonces of 32 others.
    #[error("6 TooMany")]
    TooMany,
    /// Memory ran out.
    #[error("7 Memory")]
    Memory,
}

/// Why a site isn't added to those whose ETRs register.
#[derive(Clone, Copy, Debug, PartialEq, Eq, Error)]
pub enum NotAdded {
    /// There is a site of its prefix.
    #[error("1 Twice")]
    Twice,
    /// There are 1,048,576 sites.
    #[error("2 Full")]
    Full,
    /// Memory ran out.
    #[error("3 Memory")]
    Memory,
}
