//! What a server answers (RFC 8111, sections 6.1 to 6.3: action, referral set, TTL, the Incomplete flag), and what a
//! lookup ends with.

ghost use Rattle.std.specs.Prelude.{◌≡◌};
ghost use Rattle.ddt_path.specs.Path.{xeid_path};
ghost use Rattle.ddt_path.specs.Records.{referral as referral_to, record_of, not_authoritative as not_authoritative_for};

use crate::action::Action;
use crate::locator_set::LocatorSet;
use crate::prefix::Prefix;
use crate::ttl::{HOLE_TTL, NOT_AUTHORITATIVE_TTL, NOT_REGISTERED_TTL, POSITIVE_TTL};
use crate::xeid::Xeid;

/// What a server group is: a DDT node, or the Map-Servers.
#[derive(Clone, Copy, Debug, PartialEq, Eq, PartialOrd, Ord, Hash)]
pub enum Role {
    /// DDT nodes, which refer to the servers of the zones below theirs.
    Node,
    /// Map-Servers, which know the sites in their zones.
    Ms,
}

/// The one record of a Map-Referral.
#[derive(Clone, Copy, Debug, PartialEq, Eq)]
pub struct ReferralRecord {
    pub action: Action,
    /// The prefix that the answer holds for.
    pub prefix: Prefix,
    /// How long it may be kept, in minutes.
    pub ttl: u32,
    /// The Incomplete bit: the referral set isn't the whole of it.
    pub incomplete: bool,
    /// The referral set.
    pub servers: LocatorSet,
}

/// Where a lookup ends.
#[derive(Clone, Copy, Debug, PartialEq, Eq)]
pub enum Outcome {
    /// A site of this prefix is registered at these Map-Servers.
    Registered { prefix: Prefix, servers: LocatorSet },
    /// A site of these Map-Servers has no registration.
    NotRegistered { prefix: Prefix, servers: LocatorSet },
    /// Nothing is delegated or registered for the identifiers of this prefix.
    Hole { prefix: Prefix },
}

impl ReferralRecord {
    /// The referral to the servers that a prefix is delegated to (RFC 8111, section 7.1).
    pub fn referral(role: Role, prefix: Prefix, servers: LocatorSet) -> ReferralRecord
        ensures { result ≡ referral_to role prefix servers }
    {
        let action = match role {
            Role::Node => Action::NodeReferral,
            Role::Ms => Action::MsReferral,
        };
        ReferralRecord {
            action,
            prefix,
            ttl: POSITIVE_TTL,
            incomplete: false,
            servers,
        }
    }

    /// The record of an outcome, as the Map-Servers or the node that knows it say it (RFC 8111, sections 7.1 and 7.2).
    pub fn of(outcome: Outcome) -> ReferralRecord
        ensures { result ≡ record_of outcome }
    {
        let (action, prefix, ttl, servers) = match outcome {
            Outcome::Registered { prefix, servers } => {
                (Action::MsAck, prefix, POSITIVE_TTL, servers)
            }
            Outcome::NotRegistered { prefix, servers } => {
                (Action::MsNotRegistered, prefix, NOT_REGISTERED_TTL, servers)
            }
            Outcome::Hole { prefix } => {
                (Action::DelegationHole, prefix, HOLE_TTL, LocatorSet::none())
            }
        };
        ReferralRecord {
            action,
            prefix,
            ttl,
            incomplete: false,
            servers,
        }
    }

    /// The record of a server that isn't in charge of the identifier (RFC 8111, section 6.1).
    pub fn not_authoritative(x: Xeid) -> ReferralRecord
        ensures { result ≡ not_authoritative_for (xeid_path x) }
    {
        ReferralRecord {
            action: Action::NotAuthoritative,
            prefix: Prefix::host(x),
            ttl: NOT_AUTHORITATIVE_TTL,
            incomplete: true,
            servers: LocatorSet::none(),
        }
    }
}
