//! A site: an EID-prefix that registers at Map-Servers, and its ETRs (RFC 9300, section 3).

use crate::etrs::Etrs;
use ddt_path::Prefix;

/// One row of kind `site`.
#[derive(Debug, Drop)]
pub struct Site {
    pub prefix: Prefix,
    /// Its ETRs in order; none where it isn't registered.
    pub etrs: Etrs,
    /// Its row, 1 to 65,535.
    pub row: u32,
}
