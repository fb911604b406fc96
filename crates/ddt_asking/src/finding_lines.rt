//! The line of a finding.

ghost use Rattle.std.specs.Prelude.{◌≡◌, ◌++◌, codes, IfOk, OnOk};
ghost use Rattle.ddt_text.specs.Written.{written_locator};
ghost use Rattle.ddt_lines.specs.Lines.{ended, spaced, whole_text};
ghost use Rattle.ddt_wire.specs.Referral.{message_of, message_in};
ghost use Rattle.ddt_asking.specs.Lines.{difference_text, finding_text, front_text, read_text, said_text, verdict_text};

use crate::verdict::{Finding, Verdict};
use ddt_path::{Action, Locator, Prefix, ReferralRecord, Xeid};
use ddt_text::{write_locator, write_prefix, write_xeid};
use ddt_wire::{Locators, Referral, read_referral};
use std::alloc::{AllocError, Global};

/// Returns the line of a finding: `XEID LOCATOR agrees`, `XEID LOCATOR silent`, `XEID LOCATOR not judged`, or `XEID
/// LOCATOR differs: it says RECORD, the register says RECORD`, and a line feed. A record is `ACTION PREFIX ttl MINUTES
/// complete LOCATORS`, with `incomplete` if the bit is set. A reply that can't be read is `no Map-Referral`.
pub fn finding_line(alloc: Global, x: Xeid, finding: &Finding) -> Result<Vec<u8>, AllocError>
    ensures { IfOk result (λ line. line.items ≡ ended (finding_text x finding.now)) }
{
    let mut line = Vec::new(alloc);
    write_xeid(&mut line, x)?;
    push_locator(&mut line, finding.question.to)?;
    push_verdict(&mut line, &finding.question.demanded, &finding.verdict)?;
    line.push(b'\n')?;
    Ok(line)
}

/// Appends the verdict on a question whose demanded record is `demanded`.
fn push_verdict(
    line: &mut Vec<u8>,
    demanded: &ReferralRecord,
    verdict: &Verdict,
) -> Result<(), AllocError>
    ensures { OnOk result (line.new.items ≡ line.old.items ++ verdict_text demanded.now verdict.now) }
{
    match verdict {
        Verdict::Agrees => push_text(line, " agrees"),
        Verdict::Differs(reply) => push_difference(line, demanded, reply.as_slice()),
        Verdict::Silent => push_text(line, " silent"),
        Verdict::NotJudged => push_text(line, " not judged"),
    }
}

/// Appends what the reply says, and the demanded record.
fn push_difference(
    line: &mut Vec<u8>,
    demanded: &ReferralRecord,
    reply: &[u8],
) -> Result<(), AllocError>
    ensures { OnOk result (line.new.items ≡ line.old.items ++ difference_text demanded.now reply.now) }
{
    push_text(line, " differs: it says ")?;
    push_reply(line, reply)?;
    push_text(line, ", the register says ")?;
    push_record(line, demanded)
}

/// Appends what the bytes of a reply say.
fn push_reply(line: &mut Vec<u8>, bytes: &[u8]) -> Result<(), AllocError>
    ensures { OnOk result (line.new.items ≡ line.old.items ++ read_text (message_in bytes.now)) }
{
    match read_referral(bytes) {
        Ok(referral) => push_referral(line, &referral),
        Err(_fault) => push_text(line, "no Map-Referral"),
    }
}

/// Appends the record of a Map-Referral.
fn push_referral(line: &mut Vec<u8>, referral: &Referral<'_>) -> Result<(), AllocError>
    ensures { OnOk result (line.new.items ≡ line.old.items ++ said_text referral.now) }
{
    push_front(line, referral.action(), referral.prefix(), referral.ttl())?;
    push_text(line, whole(referral.incomplete()))?;
    push_set(line, referral.locators())
}

/// Appends the locators of a Map-Referral.
fn push_set(line: &mut Vec<u8>, locators: Locators<'_>) -> Result<(), AllocError>
    ensures { OnOk result (line.new.items ≡ line.old.items ++ spaced locators.entry) }
{
    for locator in locators {
        push_locator(line, locator)?;
    }
    Ok(())
}

/// Appends a record.
fn push_record(line: &mut Vec<u8>, said: &ReferralRecord) -> Result<(), AllocError>
    ensures { OnOk result (line.new.items ≡ line.old.items ++ said_text (message_of 0 said.now)) }
{
    push_front(line, said.action, said.prefix, said.ttl)?;
    push_text(line, whole(said.incomplete))?;
    for locator in said.servers.as_slice() {
        push_locator(line, *locator)?;
    }
    Ok(())
}

/// Appends an action, a prefix and a TTL in minutes.
pub(crate) fn push_front(
    line: &mut Vec<u8>,
    action: Action,
    prefix: Prefix,
    ttl: u32,
) -> Result<(), AllocError>
    ensures { OnOk result (line.new.items ≡ line.old.items ++ front_text action prefix ttl) }
{
    push_text(line, action.name())?;
    push_text(line, " ")?;
    write_prefix(line, prefix)?;
    let minutes = format!(in *line.allocator(); " ttl {ttl}")?;
    push_text(line, minutes.as_str())
}

fn whole(incomplete: bool) -> &'static str
    ensures { result.now ≡ whole_text incomplete }
{
    if incomplete {
        " incomplete"
    } else {
        " complete"
    }
}

/// Appends a blank and a locator.
pub(crate) fn push_locator(line: &mut Vec<u8>, locator: Locator) -> Result<(), AllocError>
    ensures { OnOk result (line.new.items ≡ line.old.items ++ codes " " ++ written_locator locator) }
{
    line.push(b' ')?;
    write_locator(line, locator)
}

/// Appends a text.
pub(crate) fn push_text(line: &mut Vec<u8>, text: &str) -> Result<(), AllocError>
    ensures { OnOk result (line.new.items ≡ line.old.items ++ text.now) }
{
    line.extend_from_slice(text.as_bytes())
}
