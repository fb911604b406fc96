//! The exit status of a command.

/// The exit status of a command, as that of `diff`.
#[derive(Clone, Copy, Debug, PartialEq, Eq)]
pub enum ExitStatus {
    /// 0: it answered, and nothing differs.
    Answered,
    /// 1: it answered, and something differs.
    Different,
    /// 2: it refused and said why. What it wrote before is the beginning of the answer.
    Refused,
    /// 2: a writer failed, so the output is incomplete.
    Unprinted,
}

impl ExitStatus {
    ghost use Rattle.std.specs.Prelude.{◌≡◌};
    ghost use Rattle.ddt_plan_commands.specs.Ends.{number_of};

    /// Returns the status of the process.
    pub fn number(self) -> u8
        ensures { result ≡ number_of self }
    {
        match self {
            ExitStatus::Answered => 0,
            ExitStatus::Different => 1,
            ExitStatus::Refused | ExitStatus::Unprinted => 2,
        }
    }
}
