//! How a command ended.

/// The exit status of a command.
#[derive(Clone, Copy, Debug, PartialEq, Eq)]
pub enum Status {
    /// 0: it answered.
    Answered,
    /// 1: it answered, and an identifier has no outcome.
    Incomplete,
    /// 1: it refused and said why.
    Refused,
    /// 2: the words fit no command.
    BadWords,
    /// 1: a writer failed, so what it had to say isn't there.
    Unprinted,
}

impl Status {
    ghost use Rattle.std.specs.Prelude.{◌≡◌};
    ghost use Rattle.ddt_commands.specs.Status.{number_of};

    /// The number that the process ends with.
    pub fn number(self) -> u8
        ensures { result ≡ number_of self }
    {
        match self {
            Status::Answered => 0,
            Status::Incomplete => 1,
            Status::Refused => 1,
            Status::BadWords => 2,
            Status::Unprinted => 1,
        }
    }
}
