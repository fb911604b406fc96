//! Laws of registers whose sites have other ETRs. Each function states a law of the definitions, and does nothing.

ghost use Rattle.ddt_laws.specs.Registrations.Statements.{EtrsAreCompiled, OtherEtrsAreAccepted, SomeRegisterIsInForce};

/// The configurations of a register in which a site has other ETRs are those of the register, with these ETRs.
pub fn etrs_are_compiled()
    ensures { EtrsAreCompiled }
{}

/// An accepted register stays accepted where a site has other ETRs, 8 at most.
pub fn other_etrs_are_accepted()
    ensures { OtherEtrsAreAccepted }
{}

/// Whatever is registered, the configurations in force are those of an accepted register, in which only the ETRs of
/// keyed sites differ.
pub fn some_register_is_in_force()
    ensures { SomeRegisterIsInForce }
{}
