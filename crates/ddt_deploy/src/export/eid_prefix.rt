//! EID-prefixes in the form of OOR.

ghost use Rattle.std.specs.Prelude.{◌≡◌, IfOk};
ghost use Rattle.ddt_deploy.specs.Export.Rows.{IsNamedBy, block_path};

use crate::export::row::Missing;
use ddt_path::{Form, Locator, Prefix};

/// The highest Instance ID in OOR, which has 24 bits (RFC 8060, section 4.1).
const HIGHEST_IID: u32 = 0xff_ffff;

/// A block of addresses in one instance.
#[derive(Clone, Copy, PartialEq, Eq)]
pub(crate) struct EidPrefix {
    /// The Instance ID, at most 16,777,215.
    pub iid: u32,
    pub address: Locator,
    /// The length of the prefix in bits of the address.
    pub len: u8,
}

impl EidPrefix {
    /// Returns the same block of addresses. Refused as Range if the prefix is a range of instances, and as InstanceId
    /// if its Instance ID has more than 24 bits.
    pub(crate) fn of(prefix: Prefix) -> Result<EidPrefix, Missing>
        ensures { IsNamedBy prefix result }
    {
        match prefix.form() {
            Form::Range { .. } => Err(Missing::Range),
            Form::Block { iid, address, len } => {
                if iid > HIGHEST_IID {
                    Err(Missing::InstanceId)
                } else {
                    Ok(EidPrefix { iid, address, len })
                }
            }
        }
    }

    /// Returns the prefix of all addresses of its family in its instance.
    pub(crate) fn family(self) -> EidPrefix {
        let address = match self.address {
            Locator::V4(_number) => Locator::V4(0),
            Locator::V6(_number) => Locator::V6(0),
        };
        EidPrefix {
            iid: self.iid,
            address,
            len: 0,
        }
    }
}
