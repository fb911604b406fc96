//! The limits of a cache: its live entries, and the minutes for which a saved record is kept (RFC 8111, section 6.4).

use ddt_path::{HOLE_TTL, POSITIVE_TTL};

/// The most live entries, the root's not among them.
pub const MOST_LIVE_ENTRIES: usize = 65536;

/// The cap on the TTL of a saved positive record, in minutes: a day, the most that an honest server sets.
pub(crate) const POSITIVE_TTL_CAP_MINUTES: u32 = POSITIVE_TTL;

/// The cap on the TTL of a saved negative record, in minutes: 15, the most that an honest server sets for a hole.
pub(crate) const NEGATIVE_TTL_CAP_MINUTES: u32 = HOLE_TTL;
