//! The questions of a register about an identifier: each server of each referral set, and the record it has to answer.

ghost use Rattle.std.specs.Prelude.{◌≡◌, ◌<◌, ◌++◌, length, map, IfOk, OnOk};
ghost use Rattle.ddt_path.specs.Path.{xeid_path};
ghost use Rattle.ddt_check.specs.Says.{says as says_of};
ghost use Rattle.ddt_check.specs.Zones.{first_locator};
ghost use Rattle.ddt_asking.specs.Questions.{AreQuestions, question_to, refers as refers_of, root_referral as root_referral_of};

use ddt_check::{
    Accepted, each_identifier_has_a_zone, each_zone_has_servers,
    honest_servers_lead_to_the_assignment, says,
};
use ddt_path::{Action, Locator, LocatorSet, Prefix, ReferralRecord, Role, Xeid};
use std::alloc::{AllocError, Global};

/// A question to a server about an identifier.
#[derive(Clone, Copy, Debug, PartialEq, Eq)]
pub struct Question {
    /// The server's locator.
    pub to: Locator,
    /// The record that an honest server answers.
    pub demanded: ReferralRecord,
}

/// Returns the questions about an identifier, in the order in which they are asked. They go to each server of the root,
/// and then to each server of each referral set that the register demands, down to the Map-Servers or to the nodes of a
/// delegation hole (RFC 8111, sections 6.1 and 7.3). They don't depend on what servers answer.
pub fn questions_of(
    alloc: Global,
    accepted: &Accepted,
    x: Xeid,
) -> Result<Vec<Question>, AllocError>
    ensures { IfOk result (λ questions. AreQuestions accepted.now (xeid_path x) questions.items) }
{
    // The laws of an accepted register, by which the referrals lead downwards.
    each_identifier_has_a_zone();
    each_zone_has_servers();
    honest_servers_lead_to_the_assignment();
    let _register = accepted.register();
    let mut questions = Vec::new(alloc);
    let mut referral = root_referral(accepted, x);
    while refers(referral.action) {
        push_set(&mut questions, accepted, referral.servers, x)?;
        referral = said_by(accepted, referral.servers, x);
    }
    Ok(questions)
}

/// Returns the referral to the root's servers, as if somebody had sent it.
fn root_referral(accepted: &Accepted, x: Xeid) -> ReferralRecord
    ensures { result ≡ root_referral_of accepted.now }
{
    ReferralRecord::referral(Role::Node, Prefix::cut(x, 0), accepted.roots())
}

/// Returns whether an action refers to other servers.
fn refers(action: Action) -> bool
    ensures { result ≡ refers_of action }
{
    match action {
        Action::NodeReferral | Action::MsReferral => true,
        Action::MsAck
        | Action::MsNotRegistered
        | Action::DelegationHole
        | Action::NotAuthoritative => false,
    }
}

/// Appends the question to each of these servers. If out of memory, some of them may have been appended.
fn push_set(
    questions: &mut Vec<Question>,
    accepted: &Accepted,
    servers: LocatorSet,
    x: Xeid,
) -> Result<(), AllocError>
    ensures { OnOk result (questions.new.items
        ≡ questions.old.items ++ map (question_to accepted.now (xeid_path x)) servers) }
{
    for server in servers.as_slice() {
        questions.push(Question {
            to: *server,
            demanded: says(accepted, *server, x),
        })?;
    }
    Ok(())
}

/// Returns the record that the first of these servers has to answer.
fn said_by(accepted: &Accepted, servers: LocatorSet, x: Xeid) -> ReferralRecord
    requires { 0 < length servers }
    ensures { result ≡ says_of accepted.now (first_locator servers) (xeid_path x) }
{
    says(accepted, servers.as_slice()[0], x)
}
