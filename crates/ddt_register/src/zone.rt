//! A zone: a prefix, and the server group that answers for it (RFC 8111, section 4: delegation of XEID-prefixes).

use ddt_path::{Name, Prefix, Role};

/// One row of kind `node` or `ms`.
#[derive(Clone, Copy, Debug, PartialEq, Eq)]
pub struct Zone {
    pub prefix: Prefix,
    /// Whether DDT nodes or Map-Servers serve it.
    pub kind: Role,
    /// The group that serves it.
    pub group: Name,
    /// Its row, 1 to 65,535.
    pub row: u32,
}
