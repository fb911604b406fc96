//! A register that keeps all rules.

ghost use Rattle.std.specs.Prelude.{◌≡◌, [], length};
ghost use Rattle.std.specs.Option.{option_copied};
ghost use Rattle.ddt_check.specs.Rules.{IsAccepted};
ghost use Rattle.ddt_check.specs.Zones.{group_named as group_of_name, roots as roots_of};
ghost use Rattle.ddt_check.specs.laws.Statements.{AreServers};

use crate::assignment::servers_of;
use crate::lookup;
use ddt_path::{Locator, LocatorSet, Name, Prefix, Xeid};
use ddt_register::{Group, Register};
use std::marker::Model;

/// How many items a register has.
#[derive(Clone, Copy, Debug, PartialEq, Eq)]
pub struct Counts {
    pub zones: usize,
    pub sites: usize,
    pub groups: usize,
}

/// A register that was accepted. Contracts see the register.
#[derive(Debug, Drop)]
pub struct Accepted {
    register: Register,
}

impl Model for Accepted {
    ghost use Rattle.ddt_register.specs.declared.register.Register.{Register};
    ghost use Rattle.ddt_check.specs.Rules.{IsAccepted};

    ghost Value = { Register };

    ghost view = { λ a. a.register };

    ghost invariant = { λ a. IsAccepted a.register };
}

impl Accepted {
    /// A register that keeps all rules.
    pub(crate) fn of(register: Register) -> Accepted
        requires { IsAccepted register }
        ensures { result ≡ register }
    {
        Accepted { register }
    }

    /// The register inside.
    pub fn register(&self) -> &Register
        ensures register { result.now ≡ self.now }
        ensures accepted { IsAccepted self.now }
    {
        &self.register
    }

    /// How many zones, sites and groups it has.
    pub fn counts(&self) -> Counts
        ensures zones { result.zones ≡ length self.now.zones }
        ensures sites { result.sites ≡ length self.now.sites }
        ensures groups { result.groups ≡ length self.now.groups }
    {
        Counts {
            zones: self.register.zones.as_slice().len(),
            sites: self.register.sites.as_slice().len(),
            groups: self.register.groups.as_slice().len(),
        }
    }

    /// The group of a name; None where no row has it. The register keeps all rules, as each accepted one does.
    pub fn group_named(&self, name: Name) -> Option<&Group>
        ensures group { option_copied result ≡ group_of_name self.now name }
        ensures accepted { IsAccepted self.now }
    {
        lookup::group_named(&self.register, name)
    }

    /// The root's locators, where each lookup may start: those of the group that serves everything, 1 to 8 of them
    /// (RFC 8111, section 4). It allocates nothing.
    pub fn roots(&self) -> LocatorSet
        ensures group { result ≡ roots_of self.now }
        ensures count { AreServers result }
    {
        match lookup::zone_of(&self.register, everything()) {
            Some(zone) => servers_of(self, zone.group),
            None => LocatorSet::none(),
        }
    }
}

/// The prefix of everything.
fn everything() -> Prefix
    ensures { result ≡ [] }
{
    let any = Xeid {
        iid: 0,
        address: Locator::V4(0),
    };
    Prefix::cut(any, 0)
}
