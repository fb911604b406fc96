//! How long an answer may be kept, by its action (RFC 8111, sections 6.1 and 7.1).

/// How long a referral or an acknowledgement may be kept, in minutes.
pub const POSITIVE_TTL: u32 = 1440;

/// How long a hole may be kept, in minutes.
pub const HOLE_TTL: u32 = 15;

/// How long it may be kept that a site isn't registered, in minutes.
pub const NOT_REGISTERED_TTL: u32 = 1;

/// How long it may be kept that a server isn't in charge of an identifier, in minutes: not at all.
pub const NOT_AUTHORITATIVE_TTL: u32 = 0;
