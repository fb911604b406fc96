//! The scope of a probe: the register in force, the one before it, and whether the servers are asked or a
//! Map-Resolver.

use crate::foreign::{foreign_groups, our_locators};
use crate::identifiers_of_change::identifiers_of_change;
use crate::inputs::{Failure, accepted_at, no_memory};
use ddt_asking::{
    Finding, Question, QuestionCounts, Verdict, block_identifiers, can_be_seen, changed_questions,
    itr_question, questions_of,
};
use ddt_check::Accepted;
use ddt_path::{Locator, Xeid};
use ddt_plan_commands::AskAsked;
use ddt_text::parse_locator;
use std::alloc::{AllocError, Global};
use std::collections::BTreeSet;

/// A Map-Resolver, and this machine, which asks it as an ITR.
#[derive(Clone, Copy)]
pub struct AsItr {
    pub resolver: Locator,
    /// The address of this machine to which the Map-Resolver replies.
    pub me: Locator,
    /// The same, if it is an ETR too.
    pub etr: Option<Locator>,
}

impl AsItr {
    /// Reads the options of a Map-Resolver; None if there are none.
    fn read(rt: &HostRuntime, asked: &AskAsked<'_>) -> Result<Option<AsItr>, Failure> {
        let Some(resolver) = asked.resolver else {
            return Ok(None);
        };
        let resolver = locator_in(rt, resolver)?;
        let etr = match asked.as_etr {
            Some(address) => Some(locator_in(rt, address)?),
            None => None,
        };
        let itr = match asked.as_itr {
            Some(address) => Some(locator_in(rt, address)?),
            None => etr,
        };
        match itr {
            Some(me) => Ok(Some(AsItr { resolver, me, etr })),
            None => Err(format!(in rt.alloc(); "--resolver wants --as-itr or --as-etr")),
        }
    }
}

/// Returns the address that a word spells.
fn locator_in(rt: &HostRuntime, word: &str) -> Result<Locator, Failure> {
    match parse_locator(word.as_bytes()) {
        Ok(locator) => Ok(locator),
        Err(fault) => Err(format!(in rt.alloc(); "bad address {word}: {fault}")),
    }
}

/// Returns the locators of our groups if others run some; None if all are ours.
fn ours_in(
    rt: &HostRuntime,
    asked: &AskAsked<'_>,
    accepted: &Accepted,
) -> Result<Option<BTreeSet<Locator>>, Failure> {
    let foreign = foreign_groups(rt, &[accepted], asked.foreign.as_slice())?;
    if foreign.is_empty() {
        return Ok(None);
    }
    let ours = our_locators(rt.alloc(), accepted, &foreign).map_err(no_memory)?;
    Ok(Some(ours))
}

/// Returns the register that was in force before, if it is given.
fn accepted_before(rt: &HostRuntime, asked: &AskAsked<'_>) -> Result<Option<Accepted>, Failure> {
    match asked.before {
        Some(path) => match accepted_at(rt, path) {
            Ok(accepted) => Ok(Some(accepted)),
            Err(why) => Err(why),
        },
        None => Ok(None),
    }
}

/// The scope of a probe.
#[derive(Drop)]
pub struct ProbeScope {
    alloc: Global,
    /// The register that was in force before, if only what its change touches is asked.
    before: Option<Accepted>,
    /// The register that servers serve.
    after: Accepted,
    /// The Map-Resolver that is asked in place of the servers.
    pub as_itr: Option<AsItr>,
    /// The locators of our groups, if others run some: no other server is asked.
    ours: Option<BTreeSet<Locator>>,
}

impl ProbeScope {
    /// Reads the scope from the arguments of `ask`.
    pub fn read(rt: &HostRuntime, asked: &AskAsked<'_>) -> Result<ProbeScope, Failure> {
        let as_itr = AsItr::read(rt, asked)?;
        let before = accepted_before(rt, asked)?;
        let after = accepted_at(rt, asked.register)?;
        let ours = ours_in(rt, asked, &after)?;
        Ok(ProbeScope {
            alloc: rt.alloc(),
            before,
            after,
            as_itr,
            ours,
        })
    }

    /// Returns an identifier of each block, or of each that the change touches.
    pub fn identifiers(&self) -> Result<Vec<Xeid>, AllocError> {
        match &self.before {
            Some(before) => identifiers_of_change(self.alloc, before, &self.after),
            None => block_identifiers(self.alloc, &self.after),
        }
    }

    /// Returns the questions about an identifier.
    pub fn questions(&self, xeid: Xeid) -> Result<Vec<Question>, AllocError> {
        let mut questions = self.all_questions(xeid)?;
        if let Some(ours) = &self.ours {
            questions.retain(|question| ours.contains(&question.to));
        }
        Ok(questions)
    }

    /// Returns the questions about an identifier, also those to servers that others run.
    fn all_questions(&self, xeid: Xeid) -> Result<Vec<Question>, AllocError> {
        match (self.as_itr, &self.before) {
            (Some(itr), _before) => self.questions_to(itr, xeid),
            (None, Some(before)) => changed_questions(self.alloc, before, &self.after, xeid),
            (None, None) => questions_of(self.alloc, &self.after, xeid),
        }
    }

    /// Returns the question to a Map-Resolver about an identifier, if the result can be seen.
    fn questions_to(&self, itr: AsItr, xeid: Xeid) -> Result<Vec<Question>, AllocError> {
        let mut questions = Vec::new(self.alloc);
        if can_be_seen(&self.after, itr.etr, xeid) {
            questions.push(itr_question(&self.after, itr.resolver, xeid))?;
        }
        Ok(questions)
    }

    /// Returns the finding about an identifier for which a Map-Resolver isn't asked; None if it is asked.
    pub fn unseen(&self, xeid: Xeid) -> Option<Finding> {
        let itr = self.as_itr?;
        if can_be_seen(&self.after, itr.etr, xeid) {
            return None;
        }
        Some(Finding {
            question: itr_question(&self.after, itr.resolver, xeid),
            verdict: Verdict::NotJudged,
        })
    }

    /// Returns the number of questions about these identifiers.
    pub fn counts(&self, identifiers: &[Xeid]) -> Result<QuestionCounts, AllocError> {
        let mut counts = QuestionCounts::default();
        for xeid in identifiers {
            for question in &self.questions(*xeid)? {
                counts.count(question);
            }
        }
        Ok(counts)
    }
}
