//! The counts of Map-Registers at a Map-Server. Each count saturates.

ghost use Rattle.std.specs.Prelude.{◌≡◌};
ghost use Rattle.ddt_map_server.specs.Counted.{plus_one, with_registered, with_refused};

use crate::register_outcome::RegisterOutcome;
use ddt_registrar::Refusal;
use std::fmt;

/// The numbers of Map-Registers that were accepted, and of those that were dropped for each reason.
#[derive(Clone, Copy, Debug, Default, PartialEq, Eq)]
pub struct RegisterCounts {
    /// The accepted ones, and the Map-Notifies that were sent for them.
    pub taken: u64,
    pub notified: u64,
    /// The dropped ones, by reason.
    pub limited: u64,
    pub too_long: u64,
    pub malformed: u64,
    pub no_record: u64,
    pub no_site: u64,
    pub no_key: u64,
    pub wrong_code: u64,
    pub replayed: u64,
    pub too_many: u64,
    pub memory: u64,
}

/// The count plus one; a full count stays full.
fn one_more(count: u64) -> u64
    ensures { result ≡ plus_one count }
{
    count.saturating_add(1)
}

impl RegisterCounts {
    /// Counts a Map-Register by its outcome.
    pub fn count(&mut self, registered: RegisterOutcome)
        ensures { self.new ≡ with_registered self.old registered }
    {
        match registered {
            RegisterOutcome::Limited => self.limited = one_more(self.limited),
            RegisterOutcome::TooLong => self.too_long = one_more(self.too_long),
            RegisterOutcome::Malformed(_fault) => self.malformed = one_more(self.malformed),
            RegisterOutcome::Refused(refusal) => self.refuse(refusal),
            RegisterOutcome::Taken { notified } => {
                self.taken = one_more(self.taken);
                if notified {
                    self.notified = one_more(self.notified);
                }
            }
        }
    }

    /// The number of Map-Registers that were received.
    pub fn received(&self) -> u64 {
        let dropped = [
            self.limited,
            self.too_long,
            self.malformed,
            self.no_record,
            self.no_site,
            self.no_key,
            self.wrong_code,
            self.replayed,
            self.too_many,
            self.memory,
        ];
        dropped
            .iter()
            .fold(self.taken, |sum, count| sum.saturating_add(*count))
    }

    fn refuse(&mut self, refusal: Refusal)
        ensures { self.new ≡ with_refused self.old refusal }
    {
        match refusal {
            Refusal::NoRecord => self.no_record = one_more(self.no_record),
            Refusal::NoSite => self.no_site = one_more(self.no_site),
            Refusal::NoKey => self.no_key = one_more(self.no_key),
            Refusal::WrongCode => self.wrong_code = one_more(self.wrong_code),
            Refusal::Replayed => self.replayed = one_more(self.replayed),
            Refusal::TooMany => self.too_many = one_more(self.too_many),
            Refusal::Memory => self.memory = one_more(self.memory),
        }
    }
}

impl fmt::Display for RegisterCounts {
    fn fmt<W: fmt::Write>(&self, f: &mut fmt::Formatter<W>) -> fmt::Result {
        write!(f, "num.register.taken={}\n", self.taken)?;
        write!(f, "num.register.notified={}\n", self.notified)?;
        write!(f, "num.register.limited={}\n", self.limited)?;
        write!(f, "num.register.toolong={}\n", self.too_long)?;
        write!(f, "num.register.malformed={}\n", self.malformed)?;
        write!(f, "num.register.norecord={}\n", self.no_record)?;
        write!(f, "num.register.nosite={}\n", self.no_site)?;
        write!(f, "num.register.nokey={}\n", self.no_key)?;
        write!(f, "num.register.wrongcode={}\n", self.wrong_code)?;
        write!(f, "num.register.replayed={}\n", self.replayed)?;
        write!(f, "num.register.toomany={}\n", self.too_many)?;
        write!(f, "num.register.memory={}\n", self.memory)
    }
}
