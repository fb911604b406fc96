//! Memory is refused to the questions to servers, to the verdicts on their answers and to the lines of these: each comes
//! whole or not at all, and the next call gives it.
//!
//! `.ci/memory` runs each of these tests with each growth refused in turn.

use crate::comparison::{same, twice};
use crate::registers::accepted;
use ddt_asking::{
    Client, Finding, FindingCounts, ProbeOptions, Prober, Question, QuestionCounts, Verdict,
    block_identifiers, changed_identifiers, changed_questions, finding_line, itr_finding_line,
    questions_of, sampled, verdict_of_itr_reply, verdict_of_referral,
};
use ddt_cache::Moment;
use ddt_check::Accepted;
use ddt_examples::bytes_of;
use ddt_examples::messages::EAST_ACKNOWLEDGES;
use ddt_examples::registers::{CAMPUS, CAMPUS_GROWN, NESTED_SITES};
use ddt_loop::SteppingClock;
use ddt_path::{Locator, Xeid};
use ddt_sockets::WiresInMemory;
use rand_pcg::Pcg32;
use std::alloc::Global;
use std::process::Abort;
use std::test::Fail;

const X: Xeid = Xeid {
    iid: 0,
    address: Locator::V4(0x0a01_0203),
};

const OPTIONS: ProbeOptions = ProbeOptions {
    client: Client::Ddt,
    me: Locator::V4(0x7f00_0035),
    rate: 0,
    millis: 1,
    tries: 1,
};

fn are(rt: &impl Abort, bytes: &[u8], wanted: &str) {
    same(rt, &bytes, &wanted.as_bytes(), &"the line");
}

// ---- questions

/// One identifier for each block: of three nested sites of six, and of one that changes.
fn identifiers(rt: &impl Abort, alloc: Global, campus: &Accepted) -> Option<()> {
    let nested = accepted(alloc, NESTED_SITES)?;
    let all = block_identifiers(alloc, &nested).ok()?;
    same(rt, &all.len(), &63, &"the blocks");
    let changed = changed_identifiers(alloc, campus, &nested).ok()?;
    same(rt, &changed.len(), &3, &"the changes");
    let some = sampled(alloc, &mut Pcg32::new(1, 1), &all, 2).ok()?;
    same(rt, &some.len(), &2, &"the sample");
    Some(())
}

/// Both servers of the site's zone are asked, and those above; of another register's the one that refers to another.
fn questions(rt: &impl Abort, alloc: Global, campus: &Accepted) -> Option<()> {
    let questions = questions_of(alloc, campus, X).ok()?;
    same(rt, &questions.len(), &4, &"the questions");
    let grown = accepted(alloc, CAMPUS_GROWN)?;
    let changed = changed_questions(alloc, campus, &grown, X).ok()?;
    same(rt, &changed.len(), &0, &"the changed ones");
    asks(rt, alloc, &questions)
}

/// Nobody replies, so each question ends as silent.
fn asks(rt: &impl Abort, alloc: Global, questions: &[Question]) -> Option<()> {
    let mut wires = WiresInMemory::new(alloc, 0);
    let mut clock = SteppingClock {
        next: Moment::at(0)?,
        step: 1,
    };
    let prober = Prober::new(alloc, OPTIONS);
    let mut nonces = Pcg32::new(1, 1);
    let findings = prober
        .ask_each(&mut wires, &mut clock, &mut nonces, X, questions)
        .ok()?;
    let mut counts = FindingCounts::default();
    for finding in &findings {
        counts.count(&finding.verdict);
    }
    are(
        rt,
        &counts.line(alloc).ok()?,
        "0 agree, 0 differ, 4 are silent\n",
    );
    Some(())
}

fn all_questions(rt: &impl Abort, alloc: Global) -> Option<()> {
    let campus = accepted(alloc, CAMPUS)?;
    identifiers(rt, alloc, &campus)?;
    questions(rt, alloc, &campus)
}

#[test]
fn questions_are_asked_whole(rt: HostRuntime) -> Result<(), Fail> {
    twice(|| all_questions(&rt, rt.alloc()))
}

// ---- verdicts

/// The Map-Server's own question.
fn question(alloc: Global) -> Option<Question> {
    let campus = accepted(alloc, CAMPUS)?;
    Some(*questions_of(alloc, &campus, X).ok()?.last()?)
}

fn differs(rt: &impl Abort, verdict: &Verdict) {
    same(
        rt,
        &matches!(verdict, Verdict::Differs(_)),
        &true,
        &"the verdict",
    );
}

fn judges(rt: &impl Abort, alloc: Global, question: &Question) -> Option<()> {
    let bytes = bytes_of(alloc, EAST_ACKNOWLEDGES).ok()?;
    let demanded = &question.demanded;
    let verdict = verdict_of_referral(alloc, demanded, 1, &bytes).ok()?;
    same(
        rt,
        &matches!(verdict, Verdict::Agrees),
        &true,
        &"the verdict",
    );
    differs(rt, &verdict_of_referral(alloc, demanded, 2, &bytes).ok()?);
    differs(
        rt,
        &verdict_of_itr_reply(alloc, X, demanded, 1, &bytes).ok()?,
    );
    Some(())
}

fn lines(rt: &impl Abort, alloc: Global, question: Question) -> Option<()> {
    let finding = Finding {
        question,
        verdict: Verdict::Silent,
    };
    are(
        rt,
        &finding_line(alloc, X, &finding).ok()?,
        "[0]10.1.2.3 127.0.1.2 silent\n",
    );
    are(
        rt,
        &itr_finding_line(alloc, X, &finding).ok()?,
        "[0]10.1.2.3 127.0.1.2 silent\n",
    );
    let mut counts = QuestionCounts::default();
    counts.count(&finding.question);
    let line = counts.line(alloc, &OPTIONS).ok()?;
    are(
        rt,
        &line,
        "1 questions, 0 seconds at least; ETRs of registered sites get 1 of them\n",
    );
    Some(())
}

fn verdicts(rt: &impl Abort, alloc: Global) -> Option<()> {
    let question = question(alloc)?;
    judges(rt, alloc, &question)?;
    lines(rt, alloc, question)
}

#[test]
fn verdicts_and_their_lines_are_told_whole(rt: HostRuntime) -> Result<(), Fail> {
    twice(|| verdicts(&rt, rt.alloc()))
}
