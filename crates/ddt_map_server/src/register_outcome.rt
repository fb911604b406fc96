//! The outcome of a Map-Register: accepted, or why it was dropped.

use ddt_map_register::MapRegisterFault;
use ddt_registrar::Refusal;

/// The outcome of a datagram that begins as a Map-Register.
#[derive(Clone, Copy, Debug, PartialEq, Eq)]
pub enum RegisterOutcome {
    /// Dropped: its source has sent too many in this second.
    Limited,
    /// Dropped: it has more than 1,500 bytes.
    TooLong,
    /// Dropped: it isn't a valid Map-Register.
    Malformed(MapRegisterFault),
    /// Dropped: the registrar refuses it.
    Refused(Refusal),
    /// Accepted.
    Taken {
        /// Whether a Map-Notify was sent for it without a fault.
        notified: bool,
    },
}
