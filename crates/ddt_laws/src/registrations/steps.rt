//! Laws of what a Map-Register, the clock and a reload change. Each function states a law of the definitions, and does
//! nothing.

ghost use Rattle.std.specs.Prelude.{ℕ, List, map};
ghost use Rattle.ddt_map_register.specs.MapRegister.{Message};
ghost use Rattle.ddt_map_register.specs.RegisterRecord.{RegisterRecord};
ghost use Rattle.ddt_registrar.specs.declared.sender.Sender.{Sender};
ghost use Rattle.ddt_registrar.specs.Carried.{carried_from};
ghost use Rattle.ddt_registrar.specs.State.{Site};
ghost use Rattle.ddt_registrar.specs.Taking.{after_all, site_at};
ghost use Rattle.ddt_laws.specs.Registrations.Steps.{MessagesAreTakenWhole, UnauthenticIsRefused, ReplaysAreRefused};
ghost use Rattle.ddt_laws.specs.Registrations.Steps.{NoMessageIsTakenTwice, OnlyUnderItsOwnKey, OthersStayRegistered};
ghost use Rattle.ddt_laws.specs.Registrations.Steps.{NoNonceIsForgotten, WhatIsOverIsGone, KeysStay};
ghost use Rattle.ddt_laws.specs.Registrations.Steps.{NoMessageIsTakenAfterReload, RevokedKeysEnd};

/// A message is accepted only if each of its records may be registered under a key of its site. A replay isn't
/// accepted.
pub fn messages_are_guarded()
    ensures whole { MessagesAreTakenWhole }
    ensures unauthentic { UnauthenticIsRefused }
    ensures replays { ReplaysAreRefused }
    ensures once { NoMessageIsTakenTwice }
{}

/// An accepted message changes nothing of sites of other keys, registrations and nonces of other xTRs, and all keys.
pub fn messages_leave_the_rest()
    ensures sites { OnlyUnderItsOwnKey }
    ensures registrations { OthersStayRegistered }
    ensures nonces { (now : ℕ) (m : Message) (x : Sender) (r : RegisterRecord) (s : Site)
        → NoNonceIsForgotten now m x r s }
    ensures keys { (now : ℕ) (m : Message) (x : Sender) (records : List RegisterRecord) (sites : List Site)
        → KeysStay sites (after_all now m x records sites) }
{}

/// The clock removes only registrations whose time is over.
pub fn the_clock_ends_registrations()
    ensures over { WhatIsOverIsGone }
    ensures keys { (now : ℕ) (sites : List Site) → KeysStay sites (map (site_at now) sites) }
{}

/// After a reload no message that was accepted is accepted again. A registration goes on exactly if the key that it was
/// made under does. The sites and their keys are those that were read.
pub fn reloads_are_guarded()
    ensures once { NoMessageIsTakenAfterReload }
    ensures revoked { RevokedKeysEnd }
    ensures keys { (before sites : List Site) → KeysStay sites (map (carried_from before) sites) }
{}
