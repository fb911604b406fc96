//! The marks of table rows.

ghost use Rattle.std.specs.Prelude.{◌≡◌};
ghost use Rattle.ddt_report.specs.Tables.{is_registered as is_registered_of, is_there as is_there_of, mark_between as mark_between_of, mark_class, mark_named as mark_named_of, mark_of as mark_of_table, mark_step as mark_step_of};

use crate::lines_and_fields::field;
use crate::tables::Table;
use ddt_path::Listed;

/// The mark of a row.
#[derive(Clone, Copy, Debug, PartialEq, Eq)]
pub(crate) enum Mark {
    /// No mark.
    Plain,
    /// Only the later register has it, or it is registered only there.
    Added,
    /// Only the earlier register has it, or it is registered only there.
    Removed,
    Changed,
    /// A step of the rollout.
    Step,
    /// A time to wait before the next step.
    Wait,
}

impl Mark {
    /// The row's class in CSS.
    pub(crate) fn class(self) -> &'static str
        ensures { result.now ≡ mark_class self }
    {
        match self {
            Mark::Plain => "plain",
            Mark::Added => "added",
            Mark::Removed => "removed",
            Mark::Changed => "changed",
            Mark::Step => "step",
            Mark::Wait => "wait",
        }
    }
}

/// The mark of the row of a line with these fields in a table.
pub(crate) fn mark_of(table: Table, fields: &[Listed<u8>]) -> Mark
    ensures { result ≡ mark_of_table table fields.now }
{
    match table {
        Table::Sites | Table::Groups => mark_named(field(fields, 2)),
        Table::Zones => mark_between(is_there(field(fields, 2)), is_there(field(fields, 3))),
        Table::Blocks => {
            mark_between(
                is_registered(field(fields, 1)),
                is_registered(field(fields, 2)),
            )
        }
        Table::Steps => mark_step(field(fields, 0)),
        Table::Summary | Table::Caches => Mark::Plain,
    }
}

fn mark_between(before: bool, after: bool) -> Mark
    ensures { result ≡ mark_between_of before after }
{
    match (before, after) {
        (true, false) => Mark::Removed,
        (false, true) => Mark::Added,
        (true, true) | (false, false) => Mark::Changed,
    }
}

fn mark_named(word: &[u8]) -> Mark
    ensures { result ≡ mark_named_of word.now }
{
    if word == b"added".as_slice() {
        Mark::Added
    } else if word == b"removed".as_slice() {
        Mark::Removed
    } else {
        Mark::Changed
    }
}

fn mark_step(word: &[u8]) -> Mark
    ensures { result ≡ mark_step_of word.now }
{
    if word == b"wait".as_slice() {
        Mark::Wait
    } else {
        Mark::Step
    }
}

fn is_there(shown: &[u8]) -> bool
    ensures { result ≡ is_there_of shown.now }
{
    shown != b"-".as_slice()
}

fn is_registered(outcome: &[u8]) -> bool
    ensures { result ≡ is_registered_of outcome.now }
{
    outcome.starts_with(b"registered ")
}
