//! How a prefix is written down: a range of instances, or a block of addresses in one instance.

use crate::locator::Locator;
use thiserror::Error;

/// The written form of a prefix.
#[derive(Clone, Copy, Debug, PartialEq, Eq, Hash)]
pub enum Form {
    /// All identifiers whose Instance ID has the first `len` digits of `iid`, of 0 to 32.
    Range { iid: u32, len: u8 },
    /// The addresses of one instance and family that have the first `len` digits of `address`, of 0 to 32 or 128.
    Block { iid: u32, address: Locator, len: u8 },
}

impl Form {
    ghost use Rattle.std.specs.Prelude.{◌≡◌};
    ghost use Rattle.ddt_path.specs.FormOrder.{parts_of};

    /// Numbers that compare as the paths of forms do: the Instance ID, the family symbol or 0 of a range, the address
    /// and the length.
    pub(crate) fn parts(self) -> (u32, u8, u128, u8)
        ensures { result ≡ parts_of self }
    {
        match self {
            Form::Range { iid, len } => (iid, 0, 0, len),
            Form::Block {
                iid,
                address: Locator::V4(number),
                len,
            } => (iid, 4, u128::from(number), len),
            Form::Block {
                iid,
                address: Locator::V6(number),
                len,
            } => (iid, 6, number, len),
        }
    }
}

/// Why a form names no prefix.
#[derive(Clone, Copy, Debug, PartialEq, Eq, Error)]
pub enum PrefixFault {
    /// The length is above the width of the instance or the address.
    #[error("1 Length")]
    Length,
    /// A digit past the length isn't 0.
    #[error("2 TailNotZero")]
    TailNotZero,
}
