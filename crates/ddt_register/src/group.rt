//! A server group: servers that hold the same configuration, reached at any of their locators.

use ddt_path::{Listed, Locator, Name, Role};

/// One row of kind `group-node` or `group-ms`.
#[derive(Debug, Drop)]
pub struct Group {
    pub name: Name,
    /// Whether its servers are DDT nodes or Map-Servers.
    pub kind: Role,
    /// The locators of its servers in order.
    pub locators: Listed<Locator>,
    /// Its row, 1 to 65,535.
    pub row: u32,
}
