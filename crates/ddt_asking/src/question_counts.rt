//! The number of questions, before any is asked.

ghost use Rattle.std.specs.Prelude.{◌≡◌, IfOk};
ghost use Rattle.ddt_lines.specs.Lines.{ended};
ghost use Rattle.ddt_asking.specs.Planned.{planned, seconds_at_least, planned_text};

use crate::finding_counts::push_count;
use crate::probe_options::ProbeOptions;
use crate::question::Question;
use ddt_path::Action;
use std::alloc::{AllocError, Global};

/// The number of questions, and of those that a Map-Server forwards to an ETR. A count stays at its maximum.
#[derive(Clone, Copy, Debug, Default, PartialEq, Eq)]
pub struct QuestionCounts {
    pub questions: u64,
    /// The questions that an honest server answers with MS-ACK, and whose requests it forwards to an ETR of the site
    /// (RFC 8111, section 7.2).
    pub forwarded: u64,
}

impl QuestionCounts {
    /// Counts one more question.
    pub fn count(&mut self, question: &Question)
        ensures { self.new ≡ planned self.old question.now }
    {
        self.questions = self.questions.saturating_add(1);
        if question.demanded.action == Action::MsAck {
            self.forwarded = self.forwarded.saturating_add(1);
        }
    }

    /// Returns the time that the pauses after these questions take, in seconds.
    fn seconds(&self, options: &ProbeOptions) -> u64
        ensures { result ≡ seconds_at_least self.now.questions options.now.rate }
    {
        self.questions.saturating_mul(options.pause()) / 1000
    }

    /// Returns the line `N questions, S seconds at least; ETRs of registered sites get M of them`, and a line feed.
    pub fn line(&self, alloc: Global, options: &ProbeOptions) -> Result<Vec<u8>, AllocError>
        ensures { IfOk result (λ line. line.items ≡ ended (planned_text self.now options.now.rate)) }
    {
        let mut line = Vec::new(alloc);
        push_count(&mut line, self.questions, " questions, ")?;
        push_count(
            &mut line,
            self.seconds(options),
            " seconds at least; ETRs of registered sites get ",
        )?;
        push_count(&mut line, self.forwarded, " of them")?;
        line.push(b'\n')?;
        Ok(line)
    }
}
