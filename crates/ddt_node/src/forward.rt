//! The request of an ITR that is forwarded to an ETR, with the bit D clear (RFC 8111, section 7.2).

ghost use Rattle.std.specs.Prelude.{◌≡◌, IfOk};
ghost use Rattle.std.specs.Option.{option_map};
ghost use Rattle.ddt_node.specs.Server.{forward_to as forward_to_of, without_d};

use ddt_ecm::DDT;
use ddt_path::{Listed, Locator};
use std::alloc::{AllocError, Global};

/// A request to be forwarded to an ETR.
#[derive(Debug, Drop)]
pub struct Forward {
    /// The ETR.
    pub to: Locator,
    /// The request as it was received, but with the bit D clear.
    pub bytes: Listed<u8>,
}

/// The request to be forwarded to an ETR; None without an ETR. Fails only if out of memory.
pub fn forward_to(
    alloc: Global,
    etr: Option<Locator>,
    request: &[u8],
) -> Result<Option<Forward>, AllocError>
    ensures { IfOk result (λ forward. forward ≡ option_map (forward_to_of request.now) etr) }
{
    match etr {
        Some(to) => Ok(Some(Forward {
            to,
            bytes: Listed::of(clear_ddt_bit(alloc, request)?),
        })),
        None => Ok(None),
    }
}

/// A copy of an Encapsulated Control Message with the bit D of its header clear; an empty datagram has none to clear.
/// Fails only if out of memory.
pub fn clear_ddt_bit(alloc: Global, request: &[u8]) -> Result<Vec<u8>, AllocError>
    ensures { IfOk result (λ bytes. bytes.items ≡ without_d request.now) }
{
    let mut bytes = Vec::from_slice(alloc, request)?;
    if !bytes.is_empty() {
        bytes[0] &= !DDT;
    }
    Ok(bytes)
}
