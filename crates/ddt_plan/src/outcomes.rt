//! When two outcomes are the same.

ghost use Rattle.std.specs.Prelude.{◌≡◌};
ghost use Rattle.ddt_path.specs.Covers.{is_same_path};
ghost use Rattle.ddt_path.specs.Records.{record_of};
ghost use Rattle.ddt_plan.specs.Changes.{is_same_outcome as is_same_outcome_of, is_same_service as is_same_service_of, are_same_servers as are_same_servers_of};

use ddt_path::{LocatorSet, Outcome, Prefix};

/// How two outcomes are compared.
#[derive(Clone, Copy, Debug, PartialEq, Eq)]
pub enum Reading {
    /// The kind, the servers and the prefix.
    Exact,
    /// What matters to a user: the kind and the servers, whatever the prefix. A hole that became narrower is the same.
    Service,
}

/// Whether two outcomes are the same by this reading.
pub fn is_same_outcome(reading: Reading, a: &Outcome, b: &Outcome) -> bool
    ensures { result ≡ is_same_outcome_of reading a.now b.now }
{
    match reading {
        Reading::Exact => is_same_service(a, b) && is_same_prefix(a, b),
        Reading::Service => is_same_service(a, b),
    }
}

fn is_same_prefix(a: &Outcome, b: &Outcome) -> bool
    ensures { result ≡ is_same_path (record_of a.now).prefix (record_of b.now).prefix }
{
    prefix_of(a) == prefix_of(b)
}

fn prefix_of(outcome: &Outcome) -> Prefix
    ensures { result ≡ (record_of outcome.now).prefix }
{
    match outcome {
        Outcome::Registered { prefix, .. }
        | Outcome::NotRegistered { prefix, .. }
        | Outcome::Hole { prefix } => *prefix,
    }
}

fn is_same_service(a: &Outcome, b: &Outcome) -> bool
    ensures { result ≡ is_same_service_of a.now b.now }
{
    match (a, b) {
        (Outcome::Registered { servers: s, .. }, Outcome::Registered { servers: t, .. }) => {
            are_same_servers(s, t)
        }
        (Outcome::NotRegistered { servers: s, .. }, Outcome::NotRegistered { servers: t, .. }) => {
            are_same_servers(s, t)
        }
        (Outcome::Hole { .. }, Outcome::Hole { .. }) => true,
        _ => false,
    }
}

/// Whether they are the same locators in the same order.
pub fn are_same_servers(s: &LocatorSet, t: &LocatorSet) -> bool
    ensures { result ≡ are_same_servers_of s.now t.now }
{
    s.as_slice() == t.as_slice()
}
