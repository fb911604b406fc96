//! The laws of a resolver's steps. Each law is the contract of a function that does nothing.

ghost use Rattle.ddt_resolver.specs.laws.Statements.{OrderIsKept, HasteningKeepsOrder, TimeKeepsOrder, UsableIsTaken, TicketsAreNew};

/// Each step keeps what holds of every resolver, and so do hastening a lookup and moving the time.
pub fn order_is_kept()
    ensures step { OrderIsKept }
    ensures hastening { HasteningKeepsOrder }
    ensures time { TimeKeepsOrder }
{}

/// A usable reply to a pending lookup's last request, from the server that was asked, is late or accepted.
pub fn usable_is_taken()
    ensures { UsableIsTaken }
{}

/// The next ticket is greater than every pending ticket.
pub fn tickets_are_new()
    ensures { TicketsAreNew }
{}
