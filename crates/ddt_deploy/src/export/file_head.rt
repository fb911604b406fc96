//! The head of the file: comments for its reader, and the settings of the process.

use ddt_config::ServerConfig;
use ddt_path::{Locator, Role};
use ddt_text::write_locator;
use std::alloc::{AllocError, Global};

/// The text before the addresses.
const ADDRESSES: &[u8] = b".
#
# OOR answers at one IPv4 and one IPv6 address of its interface. They have to be of these:
";

/// The text after the addresses.
const COMMON: &[u8] = b"#
# Each FILL-IN is something that the register doesn't have. Where OOR answers otherwise than the register asks:
# - What is `not written` isn't served.
# - The locators of a referral come in ascending order, IPv4 before IPv6.
";

const NODE: &[u8] =
    b"# - The prefix of a hole may not hold the identifier: 11.2.0.0/15 for 10.2.0.1.
# - In a range of instances, outside the families in which it delegates: NOT-AUTHORITATIVE for DELEGATION-HOLE.
";

const MS: &[u8] = b"# - In a zone, outside its sites: NOT-AUTHORITATIVE for DELEGATION-HOLE.
# - MS-NOT-REGISTERED is for 15 minutes, and not for 1.
# - A record is for a whole site, also where another site is inside it.
# - Once an ETR registers itself, the ETRs of the site that are written here are gone.
";

/// Returns the head of the file of a group.
pub(crate) fn head_text(alloc: Global, config: &ServerConfig) -> Result<Vec<u8>, AllocError> {
    let mut text = Vec::from_slice(alloc, b"# openoverlayrouter 1.3.0 (OOR): ")?;
    text.extend_from_slice(servers(config.role).as_bytes())?;
    text.extend_from_slice(b" of the group ")?;
    text.extend_from_slice(config.name.as_bytes())?;
    text.extend_from_slice(ADDRESSES)?;
    push_addresses(&mut text, config.locators.as_slice())?;
    text.extend_from_slice(COMMON)?;
    text.extend_from_slice(differences(config.role))?;
    text.extend_from_slice(b"\ndebug = 0\ncontrol-iface = FILL-IN\noperating-mode = ")?;
    text.extend_from_slice(operating_mode(config.role).as_bytes())?;
    text.push(b'\n')?;
    Ok(text)
}

fn push_addresses(text: &mut Vec<u8>, locators: &[Locator]) -> Result<(), AllocError> {
    for locator in locators {
        text.extend_from_slice(b"#   ")?;
        write_locator(text, *locator)?;
        text.push(b'\n')?;
    }
    Ok(())
}

fn servers(role: Role) -> &'static str {
    match role {
        Role::Node => "a DDT node",
        Role::Ms => "a Map-Server",
    }
}

fn differences(role: Role) -> &'static [u8] {
    match role {
        Role::Node => NODE,
        Role::Ms => MS,
    }
}

fn operating_mode(role: Role) -> &'static str {
    match role {
        Role::Node => "DDT",
        Role::Ms => "MS",
    }
}
