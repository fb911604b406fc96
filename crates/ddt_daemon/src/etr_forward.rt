//! Forwarding an ITR's own request towards an ETR: to the Map-Server, with the bit D set.

ghost use Rattle.std.specs.Prelude.{◌≡◌, ◌∷◌, [], List};
ghost use Rattle.ddt_sockets.specs.declared.wire_calls.Call.{Call as ACall};
ghost use Rattle.ddt_sockets.specs.Calls.{RecordsCalls};
ghost use Rattle.ddt_sockets.specs.Turns.{AreTried, first_went_out};
ghost use Rattle.ddt_daemon.specs.Onward.{with_d as with_d_of, onward, to_server};

use ddt_ecm::{CONTROL_PORT, DDT};
use ddt_path::{Listed, Locator, Outcome};
use ddt_resolver::Why;
use ddt_sockets::Wires;

/// The datagram with the bit D of an Encapsulated Control Message set (RFC 8111, section 5). Allocates nothing.
pub fn with_d(request: Listed<u8>) -> Listed<u8>
    ensures { result ≡ with_d_of request }
{
    let mut bytes = request.into_vec();
    if !bytes.is_empty() {
        bytes[0] |= DDT;
    }
    Listed::of(bytes)
}

/// Forwards the request of an ITR once if its lookup has ended as registered: to the server whose datagram ended it, at
/// UDP port 4342, with the bit D set. Sends nothing for another end, or if no request waits. Returns whether it was
/// sent without a fault. Allocates nothing.
pub fn send_on<V: Wires>(
    far: &mut V,
    me: Locator,
    by: Locator,
    end: &Result<Outcome, Why>,
    request: Option<Listed<u8>>,
) -> bool
    ensures { (tries : List ACall) × RecordsCalls (V.calls far.old) tries (V.calls far.new)
        × AreTried me (onward by end.now request) tries × (result ≡ first_went_out tries) }
{
    match (end, request) {
        (Ok(Outcome::Registered { .. }), Some(request)) => send_to(far, me, by, request),
        (Ok(_), _) => false,
        (Err(_why), _) => false,
    }
}

/// Tries to send a server the request of an ITR. Returns whether it was sent.
fn send_to<V: Wires>(far: &mut V, me: Locator, to: Locator, request: Listed<u8>) -> bool
    ensures { (tries : List ACall) × RecordsCalls (V.calls far.old) tries (V.calls far.new)
        × AreTried me (to_server to request ∷ []) tries × (result ≡ first_went_out tries) }
{
    let datagram = with_d(request);
    let sent = far.send(me, to, CONTROL_PORT, datagram.as_slice());
    sent.is_ok()
}
