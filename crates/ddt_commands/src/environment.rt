//! What a command runs in: files, sockets and a clock.

/// The files, the sockets and the clock of a process, or others in their place.
#[derive(Drop)]
pub struct Environment<O, W, C, B> {
    /// Opens the file at a path; None where it can't be opened.
    pub open_file: O,
    /// The wires that sockets send and receive over.
    pub wires: W,
    /// The clock.
    pub clock: C,
    /// Binds a socket of the wires to a locator.
    pub bind: B,
}
