//! An extended endpoint identifier (RFC 8111, section 3): an instance and an address of one family.

use crate::locator::Locator;
use crate::masks::{digit32, shared32};

/// An identifier: its path has 65 digits for IPv4 and 161 for IPv6.
#[derive(Clone, Copy, Debug, PartialEq, Eq, PartialOrd, Ord, Hash)]
pub struct Xeid {
    /// The Instance ID.
    pub iid: u32,
    /// The address, whose family is that of the identifier.
    pub address: Locator,
}

impl Xeid {
    ghost use Rattle.std.specs.Prelude.{◌≡◌, ◌<◌, length, slice_get, Some};
    ghost use Rattle.ddt_path.specs.Path.{xeid_path};
    ghost use Rattle.ddt_path.specs.Covers.{shared_len};

    /// The length of its path: 65 for IPv4, 161 for IPv6.
    pub fn path_len(self) -> u8
        ensures { result ≡ length (xeid_path self) }
    {
        33 + self.address.width()
    }

    /// The digit of its path at a place, of which the first is 0: the family symbol, 4 or 6, at 32, and a binary digit
    /// elsewhere.
    pub fn digit(self, at: u8) -> u8
        requires { at < length (xeid_path self) }
        ensures { slice_get (xeid_path self) at ≡ Some result }
    {
        if at < 32 {
            digit32(self.iid, at)
        } else {
            self.address.symbol(at - 32)
        }
    }

    /// How many leading digits of the paths of two identifiers are the same.
    pub(crate) fn shared(self, other: Xeid) -> u8
        ensures { result ≡ shared_len (xeid_path self) (xeid_path other) }
    {
        let shared = shared32(self.iid, other.iid);
        if shared == 32 {
            32 + self.address.shared(other.address)
        } else {
            shared
        }
    }
}
