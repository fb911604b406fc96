//! The records that can't be read and from which a broken rule may follow.

use crate::sheets::kind::RecordKind;
use crate::sheets::unread_records::UnreadRecord;
use ddt_path::Name;
use std::alloc::{AllocError, Global};
use std::collections::BTreeMap;

/// The lines of records that can't be read.
#[derive(Drop)]
pub(crate) struct PossibleCauses {
    /// The line of the first that may be of a zone.
    zone: Option<u64>,
    /// The line of the first that may be of a group.
    group: Option<u64>,
    /// The line of the first that is of the group of each name.
    named: BTreeMap<Name, u64>,
}

/// Whether a record may be of a kind: it is of that kind, or its kind is unknown.
fn may_be(unread: &UnreadRecord, kind: RecordKind) -> bool {
    match unread.kind {
        Some(other) => other == kind,
        None => true,
    }
}

/// The line of the first record that may be of a kind.
fn first_line(unread: &[UnreadRecord], kind: RecordKind) -> Option<u64> {
    let first = unread.iter().find(|record| may_be(record, kind))?;
    Some(first.line)
}

/// The line of the first record of each named group. Fails only if out of memory.
fn named_groups(alloc: Global, unread: &[UnreadRecord]) -> Result<BTreeMap<Name, u64>, AllocError> {
    let mut named = BTreeMap::new(alloc);
    for record in unread.iter().rev() {
        if let (Some(RecordKind::Group), Some(name)) = (record.kind, record.group) {
            named.insert(name, record.line)?;
        }
    }
    Ok(named)
}

impl PossibleCauses {
    /// The causes among the records that can't be read. Fails only if out of memory.
    pub(crate) fn of(alloc: Global, unread: &[UnreadRecord]) -> Result<PossibleCauses, AllocError> {
        Ok(PossibleCauses {
            zone: first_line(unread, RecordKind::Zone),
            group: first_line(unread, RecordKind::Group),
            named: named_groups(alloc, unread)?,
        })
    }

    /// The line of a record that may define the zone that is missing.
    pub(crate) fn of_no_zone(&self) -> Option<u64> {
        self.zone
    }

    /// The line of a record that may define the group of a name: the first with this name, else the first that may be
    /// of a group.
    pub(crate) fn of_no_group(&self, name: Name) -> Option<u64> {
        self.named.get(&name).copied().or(self.group)
    }
}
