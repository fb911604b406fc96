//! The number of findings of each kind.

ghost use Rattle.std.specs.Prelude.{◌≡◌, ◌&&◌, ◌==◌, ◌++◌, decimal, IfOk, OnOk};
ghost use Rattle.ddt_lines.specs.Lines.{ended};
ghost use Rattle.ddt_asking.specs.Counted.{counted, counts_text, not_judged_text};

use crate::verdict::Verdict;
use std::alloc::{AllocError, Global};

/// The number of findings of each kind. A count stays at its maximum.
#[derive(Clone, Copy, Debug, Default, PartialEq, Eq)]
pub struct FindingCounts {
    pub agree: u64,
    pub differ: u64,
    pub silent: u64,
    pub not_judged: u64,
}

impl FindingCounts {
    /// Counts one more finding.
    pub fn count(&mut self, verdict: &Verdict)
        ensures { self.new ≡ counted self.old verdict.now }
    {
        match verdict {
            Verdict::Agrees => self.agree = self.agree.saturating_add(1),
            Verdict::Differs(_reply) => self.differ = self.differ.saturating_add(1),
            Verdict::Silent => self.silent = self.silent.saturating_add(1),
            Verdict::NotJudged => self.not_judged = self.not_judged.saturating_add(1),
        }
    }

    /// Returns whether no finding differs or is silent.
    pub fn all_agree(&self) -> bool
        ensures { result ≡ (self.now.differ == 0 && self.now.silent == 0) }
    {
        self.differ == 0 && self.silent == 0
    }

    /// Returns the line `N agree, M differ, K are silent`, then `, J are not judged` if there are any, and a line feed.
    pub fn line(&self, alloc: Global) -> Result<Vec<u8>, AllocError>
        ensures { IfOk result (λ line. line.items ≡ ended (counts_text self.now)) }
    {
        let mut line = Vec::new(alloc);
        push_count(&mut line, self.agree, " agree, ")?;
        push_count(&mut line, self.differ, " differ, ")?;
        push_count(&mut line, self.silent, " are silent")?;
        push_not_judged(&mut line, self.not_judged)?;
        line.push(b'\n')?;
        Ok(line)
    }
}

/// Appends the number of findings that are not judged, if there are any.
fn push_not_judged(line: &mut Vec<u8>, count: u64) -> Result<(), AllocError>
    ensures { OnOk result (line.new.items ≡ line.old.items ++ not_judged_text count) }
{
    if count == 0 {
        return Ok(());
    }
    line.extend_from_slice(b", ")?;
    push_count(line, count, " are not judged")
}

/// Appends a count and a text.
pub(crate) fn push_count(line: &mut Vec<u8>, count: u64, text: &str) -> Result<(), AllocError>
    ensures { OnOk result (line.new.items ≡ line.old.items ++ decimal count ++ text.now) }
{
    let digits = format!(in *line.allocator(); "{count}")?;
    line.extend_from_slice(digits.as_bytes())?;
    line.extend_from_slice(text.as_bytes())
}
