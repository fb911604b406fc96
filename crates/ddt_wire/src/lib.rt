//! The bytes of Map-Referrals and of negative Map-Replies: the one spelling that is written, and what any bytes spell.
//!
//! In reading order: `message_type`, `address`, `addresses`, `eid`, `head`, `fault`, `locator_record`, `referral`,
//! `negative_reply`, `laws`.
//! Tests: tests/crates/format/messages/wire.
#![tactic(auto)]

mod address;
mod addresses;
mod eid;
mod fault;
mod head;
mod laws;
mod locator_record;
mod message_type;
mod negative_reply;
mod referral;

pub use address::{AddressFault, LCAF, NO_ADDRESS, read_address, write_address};
pub use addresses::{Addresses, write_addresses};
pub use eid::{EidFault, mask_len, read_eid, write_eid};
pub use fault::ReferralFault;
pub use laws::{eid_laws, referral_laws, reply_laws};
pub use locator_record::Locators;
pub use message_type::{
    ENCAPSULATED, MAP_REFERRAL, MAP_REPLY, MAP_REQUEST, MessageType, TYPE_SHIFT,
};
pub use negative_reply::{
    NegativeReply, ReplyFault, put_negative_reply, read_negative_reply, write_negative_reply,
};
pub use referral::{LentRecord, Referral, put_referral, read_referral, write_referral};
