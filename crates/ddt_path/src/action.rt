//! The action of a Map-Referral: its number on the wire and its name (RFC 8111, section 6.1).

use std::fmt;

/// The action of a Map-Referral.
#[derive(Clone, Copy, Debug, PartialEq, Eq, PartialOrd, Ord, Hash)]
pub enum Action {
    /// NODE-REFERRAL, number 0: ask the node that the prefix is delegated to.
    NodeReferral,
    /// MS-REFERRAL, number 1: ask the Map-Server that the prefix is delegated to.
    MsReferral,
    /// MS-ACK, number 2: a site of the prefix is registered.
    MsAck,
    /// MS-NOT-REGISTERED, number 3: a site of the prefix is known and not registered.
    MsNotRegistered,
    /// DELEGATION-HOLE, number 4: nothing is delegated for the prefix.
    DelegationHole,
    /// NOT-AUTHORITATIVE, number 5: the server isn't in charge of the identifier.
    NotAuthoritative,
}

impl Action {
    ghost use Rattle.std.specs.Prelude.{◌≡◌, ◌≤◌, ◌↔◌, Some};
    ghost use Rattle.ddt_path.specs.Actions.{number as number_of, name as name_of, action_of};

    /// Its number on the wire, 0 to 5 in the order of the variants.
    pub fn number(self) -> u8
        ensures number { result ≡ number_of self }
        ensures bound { result ≤ 5 }
    {
        match self {
            Action::NodeReferral => 0,
            Action::MsReferral => 1,
            Action::MsAck => 2,
            Action::MsNotRegistered => 3,
            Action::DelegationHole => 4,
            Action::NotAuthoritative => 5,
        }
    }

    /// The action of a number on the wire; None above 5.
    pub fn of_number(number: u8) -> Option<Action>
        ensures action { result ≡ action_of number }
        // An action is found by its number and by no other.
        ensures numbered { (action : Action) → (result ≡ Some action) ↔ (number_of action ≡ number) }
    {
        match number {
            0 => Some(Action::NodeReferral),
            1 => Some(Action::MsReferral),
            2 => Some(Action::MsAck),
            3 => Some(Action::MsNotRegistered),
            4 => Some(Action::DelegationHole),
            5 => Some(Action::NotAuthoritative),
            _ => None,
        }
    }

    /// Its name, as the RFC writes it: `NODE-REFERRAL`, for one.
    pub fn name(self) -> &'static str
        ensures { result.now ≡ name_of self }
    {
        match self {
            Action::NodeReferral => "NODE-REFERRAL",
            Action::MsReferral => "MS-REFERRAL",
            Action::MsAck => "MS-ACK",
            Action::MsNotRegistered => "MS-NOT-REGISTERED",
            Action::DelegationHole => "DELEGATION-HOLE",
            Action::NotAuthoritative => "NOT-AUTHORITATIVE",
        }
    }
}

/// The name.
impl fmt::Display for Action {
    ghost use Rattle.std.specs.Prelude.{Some};
    ghost use Rattle.ddt_path.specs.Actions.{name};

    ghost output = { λ action. Some (name action) };

    fn fmt<W: fmt::Write>(&self, f: &mut fmt::Formatter<W>) -> fmt::Result {
        f.write_str(self.name())
    }
}
