//! Every fault of a register's file, each as a line.

ghost use Rattle.std.specs.Prelude.{◌≡◌, ◌<◌, ◌++◌, List, ℕ, map, length, true, IfOk, IfErr, OnOk};
ghost use Rattle.std.specs.Fn.{FnReturnsAt};
ghost use Rattle.csv.specs.Reading.{default_config, records, strip_bom};
ghost use Rattle.ddt_register.specs.Left.{stops};
ghost use Rattle.ddt_register.specs.Spelled.{lists_of, spelled};
ghost use Rattle.ddt_review.specs.Sheets.Told.{ReportsFaults, TellsBroken, fault_kinds, rules_of};

use crate::sheets::broken_rule::BrokenRule;
use crate::sheets::difference_notes::DifferenceNote;
use crate::sheets::fault_line::{FaultKind, FaultLine, FaultScope};
use crate::sheets::possible_causes::PossibleCauses;
use crate::sheets::reader::read_sheet;
use crate::sheets::rule_reasons::RuleReasons;
use crate::sheets::sheet::{Sheet, line_of};
use crate::sheets::unread_records::UnreadRecord;
use ddt_check::Rule;
use ddt_register::{ReadFault, Register, read_register};
use std::alloc::{AllocError, Global};

/// Writes the lines of the rules that a register breaks.
#[derive(Clone, Copy)]
struct FaultWriter<'a> {
    lined: RuleReasons<'a>,
    /// The records that can't be read.
    causes: &'a PossibleCauses,
}

impl FaultWriter<'_> {
    /// The line of a record that can't be read, if the broken rule may follow from it.
    fn cause(&self, broken: BrokenRule) -> Option<u64> {
        match broken.rule {
            Rule::NoRoot if broken.row == 0 => self.causes.of_no_zone(),
            Rule::SiteOutside => self.causes.of_no_zone(),
            Rule::UnknownGroup => self
                .causes
                .of_no_group(self.lined.group_of_zone(broken.row)?),
            _ => None,
        }
    }

    /// The line of a broken rule. Fails only if out of memory.
    fn rule_line(&self, broken: BrokenRule) -> Result<FaultLine, AllocError>
        ensures { IfOk result (λ fault. fault.about ≡ FaultKind.Rule broken) }
    {
        let alloc = self.lined.alloc;
        let rule = broken.rule;
        let reason = self.lined.reason(broken)?;
        let (scope, text) = match self.cause(broken) {
            Some(cause) => (
                FaultScope::Follows,
                format!(in alloc; "{rule}: {reason} (follows: line {cause} can't be read)")?,
            ),
            None => (FaultScope::Record, format!(in alloc; "{rule}: {reason}")?),
        };
        Ok(FaultLine {
            scope,
            line: line_of(self.lined.lines, broken.row),
            about: FaultKind::Rule(broken),
            text,
        })
    }

    /// Adds the line of each broken rule. Fails only if out of memory.
    fn push_rules(
        &self,
        broken: &[BrokenRule],
        faults: &mut Vec<FaultLine>,
    ) -> Result<(), AllocError>
        ensures { OnOk result (fault_kinds faults.new.items ≡ fault_kinds faults.old.items ++ rules_of broken.now) }
    {
        for rule in broken {
            faults.push(self.rule_line(*rule)?)?;
        }
        Ok(())
    }
}

/// The line of what a file differs in. Fails only if out of memory.
fn difference_line(alloc: Global, noted: &DifferenceNote) -> Result<FaultLine, AllocError> {
    let DifferenceNote { line, difference } = noted;
    let fault = difference.fault();
    Ok(FaultLine {
        scope: FaultScope::File,
        line: *line,
        about: FaultKind::Reading(fault),
        text: format!(in alloc; "{fault}: {difference}")?,
    })
}

/// The line of a record that can't be read. Fails only if out of memory.
fn record_line(alloc: Global, unread: &UnreadRecord) -> Result<FaultLine, AllocError> {
    let UnreadRecord {
        line,
        fault,
        reason,
        ..
    } = unread;
    Ok(FaultLine {
        scope: FaultScope::Record,
        line: *line,
        about: FaultKind::Reading(*fault),
        text: format!(in alloc; "{fault}: {reason}")?,
    })
}

/// The line of the fault for which `ddt` refuses a file. Fails only if out of memory.
fn refusal_line(alloc: Global, lines: &[u64], fault: ReadFault) -> Result<FaultLine, AllocError> {
    let line = line_of(lines, fault.row().unwrap_or(0));
    Ok(FaultLine {
        scope: FaultScope::File,
        line,
        about: FaultKind::Reading(fault),
        text: format!(in alloc; "{fault}: the file can't be read from here on")?,
    })
}

/// The lines of what a file differs in, and of the records that can't be read. Fails only if out of memory.
fn reading_lines(alloc: Global, sheet: &Sheet) -> Result<Vec<FaultLine>, AllocError> {
    let mut faults = Vec::new(alloc);
    for noted in &sheet.differences {
        faults.push(difference_line(alloc, noted)?)?;
    }
    push_records(alloc, &sheet.unread, &mut faults)?;
    Ok(faults)
}

fn push_records(
    alloc: Global,
    unread: &[UnreadRecord],
    faults: &mut Vec<FaultLine>,
) -> Result<(), AllocError> {
    for record in unread {
        faults.push(record_line(alloc, record)?)?;
    }
    Ok(())
}

/// The lines of the rules that a register breaks, which the file spells.
fn rule_fault_lines(
    alloc: Global,
    bytes: &[u8],
    register: &Register,
    broken: &[BrokenRule],
) -> Result<Vec<FaultLine>, ReadFault>
    ensures told { IfOk result (λ faults. fault_kinds faults.items ≡ rules_of broken.now) }
    ensures refused { IfErr result (λ fault. stops fault ≡ true) }
{
    let mut faults = Vec::new(alloc);
    if broken.is_empty() {
        return Ok(faults);
    }
    let sheet = read_sheet(alloc, bytes)?;
    let telling = FaultWriter {
        lined: RuleReasons {
            alloc,
            register,
            lines: &sheet.lines,
        },
        causes: &PossibleCauses::of(alloc, &[])?,
    };
    telling.push_rules(broken, &mut faults)?;
    Ok(faults)
}

/// The lines of the rules that `find` finds broken in a register, which the file spells.
fn found_rule_fault_lines<F>(
    alloc: Global,
    bytes: &[u8],
    register: &Register,
    find: F,
) -> Result<Vec<FaultLine>, ReadFault>
where
    F: Fn(&Register) -> Result<Vec<BrokenRule>, AllocError> + Drop,
    requires { F.IsAlwaysCallable find }
    ensures told { IfOk result (λ faults. TellsBroken (FnReturnsAt F.Fn find) (lists_of register.now)
        (fault_kinds faults.items)) }
    ensures refused { IfErr result (λ fault. stops fault ≡ true) }
{
    let broken = find(register)?;
    rule_fault_lines(alloc, bytes, register, &broken)
}

/// The lines of the faults of a file that spells no register, for this reason.
fn unread_fault_lines<F>(
    alloc: Global,
    bytes: &[u8],
    fault: ReadFault,
    find: F,
) -> Result<Vec<FaultLine>, ReadFault>
where
    F: Fn(&Register) -> Result<Vec<BrokenRule>, AllocError> + Drop,
    requires { F.IsAlwaysCallable find }
    ensures told { IfOk result (λ faults. 0 < length faults.items) }
    ensures refused { IfErr result (λ fault. stops fault ≡ true) }
{
    let sheet = read_sheet(alloc, bytes)?;
    let mut faults = reading_lines(alloc, &sheet)?;
    if let Some(register) = &sheet.register {
        let telling = FaultWriter {
            lined: RuleReasons {
                alloc,
                register,
                lines: &sheet.lines,
            },
            causes: &PossibleCauses::of(alloc, &sheet.unread)?,
        };
        telling.push_rules(&find(register)?, &mut faults)?;
    }
    if faults.is_empty() {
        let refusal = refusal_line(alloc, &sheet.lines, fault)?;
        faults.push(refusal).map_err(AllocError::from)?;
    }
    faults.sort_by_key(|fault| (fault.scope, fault.line))?;
    Ok(faults)
}

/// Every fault of a register's file with these bytes. `find` returns the rules that a register breaks.
///
/// - If `ddt` reads the file: the broken rules, in the order of `find`.
/// - Else, at least one: first the differences of the whole file, then the records that can't be read and the broken
///   rules by their lines, then the broken rules that may follow from a record that can't be read.
///
/// Refused as 8 Read if the reader fails, and as 9 Memory if out of memory.
pub fn file_faults<F>(alloc: Global, bytes: &[u8], find: F) -> Result<Vec<FaultLine>, ReadFault>
where
    F: Fn(&Register) -> Result<Vec<BrokenRule>, AllocError> + Drop,
    requires { F.IsAlwaysCallable find }
    ensures told { IfOk result (λ faults. ReportsFaults (FnReturnsAt F.Fn find)
        (spelled (records default_config (strip_bom bytes.now))) (fault_kinds faults.items)) }
    ensures refused { IfErr result (λ fault. stops fault ≡ true) }
{
    match read_register(alloc, bytes) {
        Ok(register) => found_rule_fault_lines(alloc, bytes, &register, find),
        Err(ReadFault::Read) => Err(ReadFault::Read),
        Err(ReadFault::Memory) => Err(ReadFault::Memory),
        Err(fault) => unread_fault_lines(alloc, bytes, fault, find),
    }
}
