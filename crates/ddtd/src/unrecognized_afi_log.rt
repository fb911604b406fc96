//! Logs messages that were dropped for an unrecognized AFI (RFC 9301, section 5), at a limited rate.

use crate::log::{Log, Priority};
use ddt_daemon::UnrecognizedMessage;
use ddt_daemon_text::LogRateLimit;
use ddt_sockets::ip_of;

/// The most messages logged in a round.
pub const MOST_MESSAGES: u32 = 64;

/// Logs a message that was dropped for its AFI, if the rate limit allows it.
pub fn log_unrecognized(
    rt: &HostRuntime,
    said: &mut LogRateLimit,
    one: UnrecognizedMessage,
    log: &mut Log,
) {
    if !said.may_say() {
        return;
    }
    let (kind, from) = match one {
        UnrecognizedMessage::Request(from) => ("Map-Request", from),
        UnrecognizedMessage::Referral(from) => ("Map-Referral", from),
    };
    let from = ip_of(from);
    let line = format!(in rt.alloc(); "dropped a {kind} of {from}: unrecognized AFI");
    log.say(rt, Priority::Warning, line);
}

/// Starts a new period after ten seconds, and logs the number of messages without a line in the old one.
pub fn end_period(rt: &HostRuntime, said: &mut LogRateLimit, now: u64, log: &mut Log) {
    if let Some(unsaid) = said.end_period(now) {
        let line = format!(in rt.alloc(); "{unsaid} more messages with an unrecognized AFI");
        log.say(rt, Priority::Warning, line);
    }
}
