//! The options of a probe.

ghost use Rattle.std.specs.Prelude.{◌≡◌};
ghost use Rattle.ddt_asking.specs.Asked.{pause_of, sets_d};

use ddt_path::Locator;

/// The milliseconds of a second.
const SECOND: u64 = 1000;

/// What the probe asks as.
#[derive(Clone, Copy, Debug, PartialEq, Eq)]
pub enum Client {
    /// A resolver, which asks DDT nodes and Map-Servers (RFC 8111, section 7.3).
    Ddt,
    /// An ITR, which asks a Map-Resolver (RFC 9301, section 5.8).
    Itr,
}

impl Client {
    /// Returns bit D of its requests (RFC 8111, section 5).
    pub(crate) fn is_ddt(self) -> bool
        ensures { result ≡ sets_d self }
    {
        match self {
            Client::Ddt => true,
            Client::Itr => false,
        }
    }
}

/// The options of a probe.
#[derive(Clone, Copy, Debug, PartialEq, Eq)]
pub struct ProbeOptions {
    pub client: Client,
    /// The locator of the socket that sends requests and receives replies. It is the one ITR-RLOC of each request.
    pub me: Locator,
    /// The most questions in a second; 0 for no limit.
    pub rate: u32,
    /// The time that each try waits for a reply, in milliseconds.
    pub millis: u64,
    /// The most tries of a question.
    pub tries: u32,
}

impl ProbeOptions {
    /// Returns the pause after each question, in milliseconds: a second divided by the rate, and 0 without a limit.
    pub(crate) fn pause(&self) -> u64
        ensures { result ≡ pause_of self.now.rate }
    {
        SECOND.checked_div(u64::from(self.rate)).unwrap_or(0)
    }
}
