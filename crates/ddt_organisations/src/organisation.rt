//! An organisation: its register, and the groups whose servers it runs.

ghost use Rattle.std.specs.Prelude.{◌≡◌};
ghost use Rattle.ddt_check.specs.Rules.{IsAccepted};

use ddt_check::Accepted;
use ddt_path::Name;
use std::collections::BTreeSet;

/// An organisation of a tree: its register, and the names of the groups whose servers it runs from it (RFC 8111,
/// section 4).
#[derive(Drop)]
pub struct Organisation {
    pub register: Accepted,
    pub groups: BTreeSet<Name>,
    pub ghost accepted: { IsAccepted register },
}

impl Organisation {
    /// The organisation of a register that runs the groups of these names.
    pub fn of(register: Accepted, groups: BTreeSet<Name>) -> Organisation
        ensures register { result.register ≡ register }
        ensures groups { result.groups ≡ groups }
    {
        let _is_accepted = register.register();
        Organisation { register, groups }
    }
}
