//! The exit status of the program.

/// The exit status of the program.
#[derive(Clone, Copy)]
pub enum ExitStatus {
    /// 0: the command was answered, or the daemon was stopped.
    Answered,
    /// 2: it refused, with a message.
    Refused,
}

impl ExitStatus {
    /// The status as a number.
    pub fn number(self) -> u8 {
        match self {
            ExitStatus::Answered => 0,
            ExitStatus::Refused => 2,
        }
    }
}
