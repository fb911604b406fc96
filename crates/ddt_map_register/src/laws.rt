//! What holds of the definitions: a function here is a law, and does nothing.

ghost use Rattle.ddt_map_register.specs.MapNotify.{NotifiesAreShort};

/// The Map-Notify is never longer than the Map-Register that it acknowledges.
pub fn notifies_are_short()
    ensures { NotifiesAreShort }
{}
