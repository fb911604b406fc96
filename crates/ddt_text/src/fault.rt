//! Why a text spells nothing.

use thiserror::Error;

/// The first fault of a text.
#[derive(Clone, Copy, Debug, PartialEq, Eq, Error)]
pub enum TextFault {
    /// There are no bytes.
    #[error("1 Empty")]
    Empty,
    /// The text doesn't begin with `[`, or no `]` follows.
    #[error("2 Bracket")]
    Bracket,
    /// The Instance ID isn't a number of 0 to 4294967295 without leading zeros.
    #[error("3 Instance")]
    Instance,
    /// No address stands where one must, or no `*` behind a range.
    #[error("4 Address")]
    Address,
    /// The length is missing, is no number without leading zeros, or is out of bounds.
    #[error("5 Length")]
    Length,
    /// A digit past the length isn't 0.
    #[error("6 TailNotZero")]
    TailNotZero,
    /// Bytes stand after the end.
    #[error("7 Trailing")]
    Trailing,
}
