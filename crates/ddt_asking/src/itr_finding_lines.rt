//! The line of a finding about an ITR's question.

ghost use Rattle.std.specs.Prelude.{◌≡◌, ◌++◌, IfOk, OnOk};
ghost use Rattle.ddt_lines.specs.Lines.{ended};
ghost use Rattle.ddt_wire.specs.NegativeReply.{reply_in};
ghost use Rattle.ddt_asking.specs.ItrLines.{got_text, itr_difference_text, itr_finding_text, itr_verdict_text, negative_text};

use crate::finding_lines::{push_front, push_locator, push_text};
use crate::verdict::{Finding, Verdict};
use ddt_path::{ReferralRecord, Xeid};
use ddt_text::{write_prefix, write_xeid};
use ddt_wire::{NegativeReply, read_negative_reply};
use std::alloc::{AllocError, Global};

/// Returns the line of a finding about an ITR's question: `XEID ADDRESS agrees`, `silent` or `not judged`, where
/// ADDRESS is the Map-Resolver's; or `XEID ADDRESS differs: it gives negative PREFIX ttl MINUTES, the register says
/// ACTION PREFIX ttl MINUTES`; and a line feed. Another message is `no negative Map-Reply`.
pub fn itr_finding_line(alloc: Global, x: Xeid, finding: &Finding) -> Result<Vec<u8>, AllocError>
    ensures { IfOk result (λ line. line.items ≡ ended (itr_finding_text x finding.now)) }
{
    let mut line = Vec::new(alloc);
    write_xeid(&mut line, x)?;
    push_locator(&mut line, finding.question.to)?;
    push_verdict(&mut line, &finding.question.demanded, &finding.verdict)?;
    line.push(b'\n')?;
    Ok(line)
}

fn push_verdict(
    line: &mut Vec<u8>,
    demanded: &ReferralRecord,
    verdict: &Verdict,
) -> Result<(), AllocError>
    ensures { OnOk result (line.new.items ≡ line.old.items ++ itr_verdict_text demanded.now verdict.now) }
{
    match verdict {
        Verdict::Agrees => push_text(line, " agrees"),
        Verdict::Differs(reply) => push_difference(line, demanded, reply.as_slice()),
        Verdict::Silent => push_text(line, " silent"),
        Verdict::NotJudged => push_text(line, " not judged"),
    }
}

fn push_difference(
    line: &mut Vec<u8>,
    demanded: &ReferralRecord,
    reply: &[u8],
) -> Result<(), AllocError>
    ensures { OnOk result (line.new.items ≡ line.old.items ++ itr_difference_text demanded.now reply.now) }
{
    push_text(line, " differs: it gives ")?;
    push_reply(line, reply)?;
    push_text(line, ", the register says ")?;
    push_front(line, demanded.action, demanded.prefix, demanded.ttl)
}

fn push_reply(line: &mut Vec<u8>, bytes: &[u8]) -> Result<(), AllocError>
    ensures { OnOk result (line.new.items ≡ line.old.items ++ got_text (reply_in bytes.now)) }
{
    match read_negative_reply(bytes) {
        Ok(reply) => push_negative(line, &reply),
        Err(_fault) => push_text(line, "no negative Map-Reply"),
    }
}

fn push_negative(line: &mut Vec<u8>, reply: &NegativeReply) -> Result<(), AllocError>
    ensures { OnOk result (line.new.items ≡ line.old.items ++ negative_text reply.now) }
{
    push_text(line, "negative ")?;
    write_prefix(line, reply.prefix)?;
    let minutes = format!(in *line.allocator(); " ttl {}", reply.ttl)?;
    push_text(line, minutes.as_str())
}
