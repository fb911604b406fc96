//! What a record defines, by its first field.

/// What a record defines.
#[derive(Clone, Copy, PartialEq, Eq)]
pub(crate) enum RecordKind {
    Group,
    Zone,
    Site,
}

impl RecordKind {
    /// What a record with this first field is meant to define, without regard to capital letters; None if unknown.
    pub(crate) fn named(text: &[u8]) -> Option<RecordKind> {
        let is = |name: &str| text.eq_ignore_ascii_case(name.as_bytes());
        if is("group-node") || is("group-ms") {
            Some(RecordKind::Group)
        } else if is("node") || is("ms") {
            Some(RecordKind::Zone)
        } else if is("site") {
            Some(RecordKind::Site)
        } else {
            None
        }
    }
}
