//! Calls on a resolver, and the referrals that they hand over.

use ddt_path::{Action, Locator, LocatorSet, ReferralRecord};
use ddt_resolver::Moment;
use ddt_text::parse_prefix;
use std::test::Fail;

pub const ROOT: Locator = Locator::V4(0x7f00_0001);

pub const TEN: Locator = Locator::V4(0x7f00_000a);

/// The record of a Map-Referral; the prefix is a text. Its TTL is a day.
#[derive(Clone, Copy)]
pub struct SampleReferral {
    pub action: Action,
    pub prefix: &'static str,
    pub servers: &'static [Locator],
}

/// The referral of 10.0.0.0/8 to 127.0.0.10.
pub const TO_TEN: SampleReferral = SampleReferral {
    action: Action::NodeReferral,
    prefix: "[0]10.0.0.0/8",
    servers: &[TEN],
};

/// The NOT-AUTHORITATIVE of a server for the worked identifier.
pub const NOT_IN_CHARGE: SampleReferral = SampleReferral {
    action: Action::NotAuthoritative,
    prefix: "[0]10.1.2.3/32",
    servers: &[],
};

/// A call.
#[derive(Clone, Copy)]
pub enum Call {
    /// An ask for the identifier of a text.
    Ask(&'static str),
    /// A Map-Referral from a source under a nonce.
    Hear(Locator, u64, SampleReferral),
    /// The same without its last byte.
    HearCut(Locator, u64, SampleReferral),
    Tick,
}

/// The moment of so many milliseconds.
pub fn at(millis: u64) -> Result<Moment, Fail> {
    match Moment::at(millis) {
        Some(moment) => Ok(moment),
        None => Err("past the last moment".into()),
    }
}

/// A set of these locators.
pub fn set(locators: &[Locator]) -> Result<LocatorSet, Fail> {
    match LocatorSet::of(locators) {
        Some(set) => Ok(set),
        None => Err("too many locators".into()),
    }
}

/// The record of a Map-Referral.
pub fn referral_record(told: &SampleReferral) -> Result<ReferralRecord, Fail> {
    Ok(ReferralRecord {
        action: told.action,
        prefix: parse_prefix(told.prefix.as_bytes())?,
        ttl: 1440,
        incomplete: false,
        servers: set(told.servers)?,
    })
}
