//! The servers that a resolver asks, seen only by their bytes.

ghost use Rattle.std.specs.Prelude.{◌≡◌, IfOk, Ok, None};
ghost use Rattle.ddt_register.specs.declared.register.Register.{Register};
ghost use Rattle.ddt_ecm.specs.Request.{Message};
ghost use Rattle.ddt_node.specs.Server.{IsDdtRequest};
ghost use Rattle.ddt_sim.specs.Honest.{IsServer, IsHonestReply};

use ddt_path::{Listed, Locator};
use std::alloc::{AllocError, Global};

/// Servers that answer datagrams.
pub trait Servers {
    /// Whether they answer honestly for a register: at each locator of its groups, each DDT Map-Request with what the
    /// register says there.
    ghost honest: { Self → Register → Type 0 };

    /// Whether they give no reply at a locator that no group of a register lists.
    ghost silent: { Self → Register → Type 0 };

    /// The reply to a datagram that is sent to a locator; None if there is none. Fails only if out of memory. Honest
    /// servers stay honest, and silent ones silent.
    fn answer(
        &mut self,
        alloc: Global,
        to: Locator,
        request: &[u8],
    ) -> Result<Option<Listed<u8>>, AllocError>
        ensures says { (r : Register) (m : Message) → honest self.old r → IsServer r to
            → IsDdtRequest request.now m → IfOk result (IsHonestReply r to m) }
        ensures nothing { (r : Register) → silent self.old r → (IsServer r to → ⊥) → result ≡ Ok None }
        ensures stay { (r : Register) → honest self.old r → honest self.new r }
        ensures stay_silent { (r : Register) → silent self.old r → silent self.new r };
}
