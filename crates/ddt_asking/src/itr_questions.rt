//! The question of an ITR to a Map-Resolver, and whether the ITR sees the result.

ghost use Rattle.std.specs.Prelude.{◌≡◌};
ghost use Rattle.ddt_path.specs.Path.{xeid_path};
ghost use Rattle.ddt_path.specs.Records.{record_of};
ghost use Rattle.ddt_check.specs.Assignment.{assignment};
ghost use Rattle.ddt_asking.specs.ItrQuestions.{can_be_seen as can_be_seen_of, has_only, is_only_etr};

use crate::question::Question;
use ddt_check::{Accepted, assign};
use ddt_path::{Locator, Outcome, Prefix, ReferralRecord, Xeid, longest_match};

/// Returns the question to a Map-Resolver about an identifier. The record of its assignment says what an ITR has to
/// get.
pub fn itr_question(accepted: &Accepted, resolver: Locator, x: Xeid) -> Question
    ensures { result ≡ record { to = resolver; demanded = record_of (assignment accepted.now (xeid_path x)) } }
{
    Question {
        to: resolver,
        demanded: ReferralRecord::of(assign(accepted, x)),
    }
}

/// Returns whether an ITR, which may be an ETR at the address `etr`, sees the result of its question. It sees a
/// negative Map-Reply. In a registered site its request goes to an ETR, which is the ITR itself only if `etr` is the
/// site's only ETR.
pub fn can_be_seen(accepted: &Accepted, etr: Option<Locator>, x: Xeid) -> bool
    ensures { result ≡ can_be_seen_of accepted.now etr (xeid_path x) }
{
    match assign(accepted, x) {
        Outcome::Registered { .. } => has_only_etr(accepted, etr, x),
        Outcome::NotRegistered { .. } | Outcome::Hole { .. } => true,
    }
}

fn has_only_etr(accepted: &Accepted, etr: Option<Locator>, x: Xeid) -> bool
    ensures { result ≡ has_only accepted.now etr (xeid_path x) }
{
    match longest_match(accepted.register().sites.as_slice(), Prefix::host(x)) {
        Some(site) => is_only(site.etrs.as_slice(), etr),
        None => false,
    }
}

fn is_only(etrs: &[Locator], etr: Option<Locator>) -> bool
    ensures { result ≡ is_only_etr etrs.now etr }
{
    match etr {
        Some(etr) => etrs == [etr].as_slice(),
        None => false,
    }
}
