//! The file of the register that was in force before.

/// The file of the register that was in force before.
#[derive(Clone, Copy)]
pub struct OldFile<'a> {
    /// Its path, as texts name it.
    pub path: &'a str,
    pub bytes: &'a [u8],
}
