//! `ddtplan ask REGISTER [XEID..]`: compares what running servers say with what the register demands.

use crate::inputs::{Failure, no_memory, print, xeid_in};
use crate::probe::{Probe, random_numbers};
use crate::probe_scope::ProbeScope;
use crate::progress_bar::ProgressBar;
use ddt_asking::{
    Client, Finding, FindingCounts, ProbeOptions, Question, finding_line, itr_finding_line, sampled,
};
use ddt_path::{Locator, Xeid};
use ddt_plan_commands::{AskAsked, ExitStatus};
use std::alloc::{AllocError, Global};
use std::io::Write;

/// The most questions in a second, if no option says it.
const RATE: u32 = 100;

/// The time that a try waits for a reply, in milliseconds, if no option says it.
const TIMEOUT: u32 = 2000;

/// The most tries of a question, if no option says it.
const TRIES: u32 = 2;

/// The ITR-RLOC of each request to a server; servers don't look at it.
const ME: Locator = Locator::V4(0x7f00_0035);

/// Asks servers or a Map-Resolver. Prints the number of questions, a line for each question, and the numbers of those
/// that agree, differ and are silent.
pub fn ask(rt: &HostRuntime, asked: &AskAsked<'_>) -> Result<ExitStatus, Failure> {
    if let Some(why) = refusal_of(asked) {
        return Err(format!(in rt.alloc(); "{why}"));
    }
    let named = identifiers_in(rt, asked.identifiers.as_slice())?;
    let scope = ProbeScope::read(rt, asked)?;
    ask_named(rt, asked, &scope, &named)
}

/// Asks about the named identifiers, or if there are none about those of the scope.
fn ask_named(
    rt: &HostRuntime,
    asked: &AskAsked<'_>,
    scope: &ProbeScope,
    named: &[Xeid],
) -> Result<ExitStatus, Failure> {
    if !named.is_empty() {
        return ask_about(rt, asked, scope, named);
    }
    let identifiers = drawn(rt, asked, scope)?;
    ask_about(rt, asked, scope, &identifiers)
}

/// Returns the reason why these arguments contradict each other, if they do.
fn refusal_of(asked: &AskAsked<'_>) -> Option<&'static str> {
    let draws = asked.before.is_some() || asked.sample.is_some();
    if draws && !asked.identifiers.is_empty() {
        return Some("where identifiers are given, neither --changed nor --sample is");
    }
    let is_itr = asked.as_itr.is_some() || asked.as_etr.is_some();
    if is_itr && asked.resolver.is_none() {
        return Some("--as-itr and --as-etr want --resolver");
    }
    if asked.as_itr.is_some() && asked.as_etr.is_some() {
        return Some("of --as-itr and --as-etr only one is given");
    }
    None
}

/// Returns the identifiers that the words spell.
fn identifiers_in(rt: &HostRuntime, words: &[&str]) -> Result<Vec<Xeid>, Failure> {
    let mut identifiers = Vec::new(rt.alloc());
    for word in words {
        let xeid = xeid_in(rt, word)?;
        identifiers.push(xeid).map_err(|_| Err(AllocError))?;
    }
    Ok(identifiers)
}

/// Returns as many identifiers of the scope as `--sample` says, drawn at random; all without it.
fn drawn(rt: &HostRuntime, asked: &AskAsked<'_>, scope: &ProbeScope) -> Result<Vec<Xeid>, Failure> {
    let identifiers = scope.identifiers().map_err(no_memory)?;
    let Some(amount) = asked.sample else {
        return Ok(identifiers);
    };
    let mut numbers = random_numbers(rt)?;
    sampled(rt.alloc(), &mut numbers, &identifiers, amount as usize).map_err(no_memory)
}

/// Asks about these identifiers.
fn ask_about(
    rt: &HostRuntime,
    asked: &AskAsked<'_>,
    scope: &ProbeScope,
    identifiers: &[Xeid],
) -> Result<ExitStatus, Failure> {
    let options = options_of(asked, scope);
    let mut probe = Probe::new(rt, options)?;
    let mut asking = Asking {
        quiet: asked.quiet,
        bar: ProgressBar::new(rt, say_number(rt, &options, scope, identifiers)?),
        counts: FindingCounts::default(),
    };
    asking.ask_each(rt, &mut probe, scope, identifiers)
}

/// Writes the number of questions and their time to standard error, and returns the number.
fn say_number(
    rt: &HostRuntime,
    options: &ProbeOptions,
    scope: &ProbeScope,
    identifiers: &[Xeid],
) -> Result<u64, Failure> {
    let counts = scope.counts(identifiers).map_err(no_memory)?;
    let line = counts.line(rt.alloc(), options).map_err(no_memory)?;
    let _ = rt.stderr().write_all(&line);
    Ok(counts.questions)
}

/// Returns the options of the probe.
fn options_of(asked: &AskAsked<'_>, scope: &ProbeScope) -> ProbeOptions {
    let (client, me) = match scope.as_itr {
        Some(itr) => (Client::Itr, itr.me),
        None => (Client::Ddt, ME),
    };
    ProbeOptions {
        client,
        me,
        rate: asked.rate.unwrap_or(RATE),
        millis: u64::from(asked.timeout.unwrap_or(TIMEOUT)),
        tries: asked.tries.unwrap_or(TRIES),
    }
}

/// The findings so far, and the progress.
#[derive(Drop)]
struct Asking {
    quiet: bool,
    bar: ProgressBar,
    counts: FindingCounts,
}

impl Asking {
    /// Asks about each of these identifiers, and prints the numbers of findings.
    fn ask_each(
        &mut self,
        rt: &HostRuntime,
        probe: &mut Probe<'_>,
        scope: &ProbeScope,
        identifiers: &[Xeid],
    ) -> Result<ExitStatus, Failure> {
        for xeid in identifiers {
            if let Some(end) = self.ask(rt, probe, scope, *xeid)? {
                return Ok(end);
            }
        }
        self.finish(rt)
    }

    /// Asks all questions about an identifier and prints the findings. Returns a status if they couldn't be printed.
    fn ask(
        &mut self,
        rt: &HostRuntime,
        probe: &mut Probe<'_>,
        scope: &ProbeScope,
        xeid: Xeid,
    ) -> Result<Option<ExitStatus>, Failure> {
        let questions = scope.questions(xeid).map_err(no_memory)?;
        let text = self
            .text_of(rt.alloc(), probe, scope, xeid, &questions)
            .map_err(no_memory)?;
        Ok(self.print(rt, &text, questions.len()))
    }

    /// Asks these questions about an identifier, and returns the lines that are printed.
    fn text_of(
        &mut self,
        alloc: Global,
        probe: &mut Probe<'_>,
        scope: &ProbeScope,
        xeid: Xeid,
        questions: &[Question],
    ) -> Result<Vec<u8>, AllocError> {
        let mut findings = probe.ask(xeid, questions)?;
        if let Some(finding) = scope.unseen(xeid) {
            findings.push(finding)?;
        }
        self.note(alloc, xeid, &findings, scope.as_itr.is_some())
    }

    /// Counts the findings about an identifier, and returns the lines that are printed.
    fn note(
        &mut self,
        alloc: Global,
        xeid: Xeid,
        findings: &[Finding],
        is_itr: bool,
    ) -> Result<Vec<u8>, AllocError> {
        let mut text = Vec::new(alloc);
        for finding in findings {
            self.counts.count(&finding.verdict);
            if !(self.quiet && finding.agrees()) {
                push_finding(&mut text, xeid, finding, is_itr)?;
            }
        }
        Ok(text)
    }

    /// Prints the lines of these questions and advances the bar. Returns a status if they couldn't be printed.
    fn print(&mut self, rt: &HostRuntime, text: &[u8], questions: usize) -> Option<ExitStatus> {
        if !text.is_empty() {
            self.bar.clear();
            let end = print(rt, text, ExitStatus::Answered);
            if end != ExitStatus::Answered {
                return Some(end);
            }
        }
        self.bar.add(rt, questions as u64);
        None
    }

    /// Prints the numbers of findings that agree, differ and are silent.
    fn finish(&mut self, rt: &HostRuntime) -> Result<ExitStatus, Failure> {
        self.bar.clear();
        let line = self.counts.line(rt.alloc()).map_err(no_memory)?;
        let end = if self.counts.all_agree() {
            ExitStatus::Answered
        } else {
            ExitStatus::Different
        };
        Ok(print(rt, &line, end))
    }
}

/// Appends the line of a finding about an identifier, of a Map-Resolver's answer or of a server's.
fn push_finding(
    text: &mut Vec<u8>,
    xeid: Xeid,
    finding: &Finding,
    is_itr: bool,
) -> Result<(), AllocError> {
    let alloc = *text.allocator();
    let line = if is_itr {
        itr_finding_line(alloc, xeid, finding)?
    } else {
        finding_line(alloc, xeid, finding)?
    };
    text.extend_from_slice(line.as_slice())
}
