//! The sockets that a command binds.

ghost use Rattle.std.specs.Prelude.{◌≡◌, ◌∷◌, IfErr, OnOk};
ghost use Rattle.std.specs.declared.io.Error.{Error};
ghost use Rattle.std.specs.IoError.{error_kind};
ghost use Rattle.ddt_path.specs.declared.locator.Locator.{Locator as ALocator};
ghost use Rattle.ddt_commands.specs.Sockets.{AreBound, Binds, IsUnbound, bind_refusal};

use crate::refusal::{Refusal, ServerRefusal};
use ddt_path::Locator;
use ddt_sockets::Wires;
use std::io;
use std::io::ErrorKind;

/// Binds a socket of the wires to the first locator, and then to each of the others, in their order. Refused where one
/// can't be bound; then those after it aren't tried.
pub fn bind_all<W, B>(
    wires: &mut W,
    bind: &B,
    first: Locator,
    others: &[Locator],
) -> Result<(), Refusal<'static>>
where
    W: Wires,
    B: Fn(&mut W, Locator) -> io::Result<()> + Drop,
    requires { B.IsAlwaysCallable bind.now }
    ensures bound { OnOk result (AreBound (Binds B.Fn bind.now) wires.old (first ∷ others.now) wires.new) }
    ensures refused { IfErr result (λ why. (at : ALocator) × (error : Error)
        × IsUnbound (Binds B.Fn bind.now) wires.old (first ∷ others.now) at error wires.new
        × (why ≡ bind_refusal at (error_kind error))) }
{
    if let Err(error) = bind(wires, first) {
        return Err(refused_bind(first, error.kind()));
    }
    for at in others {
        if let Err(error) = bind(wires, *at) {
            return Err(refused_bind(*at, error.kind()));
        }
    }
    Ok(())
}

/// What is refused where a socket isn't bound, with an error of this kind.
pub fn refused_bind(at: Locator, kind: ErrorKind) -> Refusal<'static>
    ensures { result ≡ bind_refusal at kind }
{
    match kind {
        ErrorKind::OutOfMemory => Refusal::OutOfMemory,
        _ => Refusal::NoServer(ServerRefusal::CannotBind(at)),
    }
}
