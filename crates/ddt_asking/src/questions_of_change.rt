//! The questions about an identifier that a change of the register touches.

ghost use Rattle.std.specs.Prelude.{◌≡◌, ◌↔◌, List, IfOk, IsTrue};
ghost use Rattle.std.specs.Cmp.Lexicographic.{pointwise};
ghost use Rattle.ddt_path.specs.Locators.{is_same_locator};
ghost use Rattle.ddt_path.specs.Path.{xeid_path};
ghost use Rattle.ddt_asking.specs.Questions.{AreQuestions};
ghost use Rattle.ddt_asking.specs.Changed.{AreChanged, IsTheSame};
ghost use Rattle.ddt_asking.specs.declared.question.Question.{Question as QuestionValue};

use crate::question::{Question, questions_of};
use ddt_check::{Accepted, says};
use ddt_path::{Locator, ReferralRecord, Xeid};
use std::alloc::{AllocError, Global};

/// Returns those questions of the register `after` about an identifier whose server had another record for it by the
/// register `before`, in their order. The other servers, if honest, answer as before. A locator that isn't a server's
/// in `before` counts as a server that isn't in charge, and so it is asked.
pub fn changed_questions(
    alloc: Global,
    before: &Accepted,
    after: &Accepted,
    x: Xeid,
) -> Result<Vec<Question>, AllocError>
    ensures { IfOk result (λ changed. (all : List QuestionValue) × AreQuestions after.now (xeid_path x) all
        × AreChanged before.now (xeid_path x) all changed.items) }
{
    let all = questions_of(alloc, after, x)?;
    of_other_records(alloc, before, &all, x)
}

/// Returns the questions whose server had another record by an earlier register.
fn of_other_records(
    alloc: Global,
    before: &Accepted,
    questions: &[Question],
    x: Xeid,
) -> Result<Vec<Question>, AllocError>
    ensures { IfOk result (λ changed. AreChanged before.now (xeid_path x) questions.now changed.items) }
{
    let mut changed = Vec::new(alloc);
    for question in questions {
        if !is_the_same(before, question, x) {
            changed.push(*question)?;
        }
    }
    Ok(changed)
}

/// Returns whether a question's server had the same record by an earlier register.
fn is_the_same(before: &Accepted, question: &Question, x: Xeid) -> bool
    ensures { IsTrue result ↔ IsTheSame before.now (xeid_path x) question.now }
{
    is_same_record(&says(before, question.to, x), &question.demanded)
}

/// Returns whether two records are the same.
pub(crate) fn is_same_record(one: &ReferralRecord, other: &ReferralRecord) -> bool
    ensures { IsTrue result ↔ (one.now ≡ other.now) }
{
    one.action == other.action
        && one.prefix == other.prefix
        && one.ttl == other.ttl
        && one.incomplete == other.incomplete
        && are_same(one.servers.as_slice(), other.servers.as_slice())
}

fn are_same(one: &[Locator], other: &[Locator]) -> bool
    ensures { IsTrue result ↔ (one.now ≡ other.now) }
{
    are_alike(one, other)
}

fn are_alike(one: &[Locator], other: &[Locator]) -> bool
    ensures { result ≡ pointwise is_same_locator one.now other.now }
{
    one == other
}
