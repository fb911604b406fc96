//! A stage of the change from one register's configurations to another's.

/// A stage of the change from one register to another.
#[derive(Clone, Copy, Debug, PartialEq, Eq)]
pub enum Stage {
    /// Each zone whose EID-prefix has at least this many digits is served as in the later register. The groups continue
    /// to serve the other zones that they served before.
    From(u8),
    /// Each zone is served as in the later register, for this many waits of 1,440 minutes and 2 seconds. The groups
    /// continue to serve what they served before if a cache may still lead there.
    After(u32),
    /// All is as in the later register.
    Last,
}
