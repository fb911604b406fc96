//! The xTR that sends a Map-Register.

ghost use Rattle.std.specs.Prelude.{◌≡◌};
ghost use Rattle.ddt_registrar.specs.Sender.{is_same_sender, is_same_id as is_same_id_of, is_same_xtr as is_same_xtr_of, sender_of as sender_of_message};
ghost use Rattle.ddt_map_register.specs.MapRegister.{Message};

use ddt_map_register::XtrId;
use ddt_path::Locator;

/// An xTR, identified by its xTR-ID and Site-ID, or else by the source address of its message (RFC 9301, section 5.6).
#[derive(Clone, Copy, Debug)]
pub enum Sender {
    Named(XtrId),
    At(Locator),
}

/// Whether two xTRs are the same.
fn is_same_xtr(one: XtrId, other: XtrId) -> bool
    ensures { result ≡ is_same_xtr_of one other }
{
    one.xtr == other.xtr && one.site == other.site
}

/// Whether two messages name the same xTR, or neither names one.
pub(crate) fn is_same_id(one: Option<XtrId>, other: Option<XtrId>) -> bool
    ensures { result ≡ is_same_id_of one other }
{
    match (one, other) {
        (Some(one), Some(other)) => is_same_xtr(one, other),
        (None, None) => true,
        _ => false,
    }
}

impl Sender {
    /// The sender of a message with this source address.
    pub fn of(id: Option<XtrId>, source: Locator) -> Sender
        ensures { result ≡ sender_of_message id source }
    {
        match id {
            Some(id) => Sender::Named(id),
            None => Sender::At(source),
        }
    }

    /// Whether two senders are the same xTR.
    pub fn is_same(&self, other: &Sender) -> bool
        ensures { result ≡ is_same_sender self.now other.now }
    {
        match (self, other) {
            (Sender::Named(one), Sender::Named(other)) => is_same_xtr(*one, *other),
            (Sender::At(one), Sender::At(other)) => one == other,
            _ => false,
        }
    }
}
