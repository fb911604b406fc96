//! Memory is refused to the writers of messages: a message comes whole or not at all, and the next call writes it.
//!
//! `.ci/memory` runs each of these tests with each growth refused in turn.

use crate::comparison::{same, twice};
use ddt_ecm::write_request;
use ddt_examples::messages::{
    DDT_REQUEST, EAST_ACKNOWLEDGES, HOLE_OF_INSTANCES, IPV6_REQUEST, NEGATIVE_REPLY,
    NEGATIVE_REPLY_OF_INSTANCE_7, TEN_IS_NOT_IN_CHARGE,
};
use ddt_examples::{bytes_of, with_locator};
use ddt_path::{Locator, ReferralRecord};
use ddt_text::{parse_locator, parse_prefix, parse_xeid};
use ddt_wire::{
    LentRecord, put_negative_reply, put_referral, read_referral, write_address, write_addresses,
    write_eid, write_negative_reply, write_referral,
};
use std::alloc::{AllocError, Global};
use std::process::Abort;
use std::test::Fail;

const RESOLVER: Locator = Locator::V4(0x7f00_0035);

/// The bytes of a worked message.
fn message(alloc: Global, fields: &str) -> Result<Vec<u8>, Fail> {
    match bytes_of(alloc, fields) {
        Ok(bytes) => Ok(bytes),
        Err(_refused) => Ok(bytes_of(alloc, fields)?),
    }
}

fn are(rt: &impl Abort, bytes: &[u8], wanted: &[u8]) {
    same(rt, &bytes, &wanted, &"the message");
}

/// The record of a Map-Referral.
fn record(bytes: &[u8]) -> Result<ReferralRecord, Fail> {
    Ok(read_referral(bytes)?.to_record())
}

/// The Map-Referral of nonce 1 with a record, asked for once more where memory is refused.
fn referral(alloc: Global, record: &ReferralRecord) -> Result<Vec<u8>, AllocError> {
    match write_referral(alloc, 1, record) {
        Ok(bytes) => Ok(bytes),
        Err(_refused) => write_referral(alloc, 1, record),
    }
}

/// A Map-Referral is written as it was read.
fn refers(rt: &impl Abort, alloc: Global, fields: &str) -> Result<(), Fail> {
    let wanted = message(alloc, fields)?;
    let written = referral(alloc, &record(&wanted)?)?;
    are(rt, &written, &wanted);
    Ok(())
}

#[test]
fn a_referral_is_written_whole(rt: HostRuntime) -> Result<(), Fail> {
    for fields in [EAST_ACKNOWLEDGES, HOLE_OF_INSTANCES, TEN_IS_NOT_IN_CHARGE] {
        refers(&rt, rt.alloc(), fields)?;
    }
    Ok(())
}

/// The negative Map-Reply of fifteen minutes for a prefix, asked for once more where memory is refused.
fn reply(alloc: Global, nonce: u64, text: &str) -> Result<Vec<u8>, Fail> {
    let prefix = parse_prefix(text.as_bytes())?;
    match write_negative_reply(alloc, nonce, 15, prefix) {
        Ok(bytes) => Ok(bytes),
        Err(_refused) => Ok(write_negative_reply(alloc, nonce, 15, prefix)?),
    }
}

fn replies(rt: &impl Abort, alloc: Global, text: &str, fields: &str) -> Result<(), Fail> {
    let wanted = message(alloc, fields)?;
    are(rt, &reply(alloc, 0x1122_3344_5566_7788, text)?, &wanted);
    Ok(())
}

/// Prefixes, and the negative Map-Reply to the ITR of the worked messages.
const REPLIES: &[(&str, &str)] = &[
    ("[0]10.2.0.0/15", NEGATIVE_REPLY),
    ("[7]::/0", NEGATIVE_REPLY_OF_INSTANCE_7),
];

#[test]
fn a_negative_reply_is_written_whole(rt: HostRuntime) -> Result<(), Fail> {
    for &(text, fields) in REPLIES {
        replies(&rt, rt.alloc(), text, fields)?;
    }
    Ok(())
}

/// The resolver's request for an identifier, asked for once more where memory is refused.
fn request(alloc: Global, nonce: u64, text: &str) -> Result<Vec<u8>, Fail> {
    let x = parse_xeid(text.as_bytes())?;
    match write_request(alloc, nonce, x, &[RESOLVER], true) {
        Ok(bytes) => Ok(bytes),
        Err(_refused) => Ok(write_request(alloc, nonce, x, &[RESOLVER], true)?),
    }
}

fn requests(
    rt: &impl Abort,
    alloc: Global,
    nonce: u64,
    text: &str,
    fields: &str,
) -> Result<(), Fail> {
    let wanted = message(alloc, fields)?;
    are(rt, &request(alloc, nonce, text)?, &wanted);
    Ok(())
}

/// Nonces and identifiers, and the request.
const REQUESTS: &[(u64, &str, &str)] = &[
    (1, "[0]10.1.2.3", DDT_REQUEST),
    (2, "[0]2001:db8::1", IPV6_REQUEST),
];

#[test]
fn a_request_is_written_whole(rt: HostRuntime) -> Result<(), Fail> {
    for &(nonce, text, fields) in REQUESTS {
        requests(&rt, rt.alloc(), nonce, text, fields)?;
    }
    Ok(())
}

/// What was written before.
const BEFORE: &[u8] = b"\x60\x00\x00\x01";

/// A vector with what was written before.
fn begun(alloc: Global) -> Result<Vec<u8>, AllocError> {
    match Vec::from_slice(alloc, BEFORE) {
        Ok(out) => Ok(out),
        Err(_refused) => Vec::from_slice(alloc, BEFORE),
    }
}

/// No part of an EID is appended where memory is refused, and the whole of it where it isn't.
fn appends(rt: &impl Abort, alloc: Global, text: &str, fields: &str) -> Result<(), Fail> {
    let (prefix, wanted) = (parse_prefix(text.as_bytes())?, message(alloc, fields)?);
    let mut out = begun(alloc)?;
    if write_eid(&mut out, prefix).is_err() {
        are(rt, &out, BEFORE);
        write_eid(&mut out, prefix)?;
    }
    same(
        rt,
        &out.strip_prefix(BEFORE),
        &Some(wanted.as_slice()),
        &BEFORE,
    );
    Ok(())
}

/// Prefixes, and AFI and EID.
const EIDS: &[(&str, &str)] = &[
    ("[0]10.0.0.0/8", "0001 0a000000"),
    ("[2147483648/1]*", "4003 0000 02 01 0006 80000000 0000"),
    (
        "[7]::/0",
        "4003 0000 02 00 0016 00000007 0002 00000000000000000000000000000000",
    ),
];

#[test]
fn an_eid_is_appended_whole_or_not_at_all(rt: HostRuntime) -> Result<(), Fail> {
    for &(text, fields) in EIDS {
        appends(&rt, rt.alloc(), text, fields)?;
    }
    Ok(())
}

/// No part of an address is appended where memory is refused, and the whole of it where it isn't.
fn appends_address(rt: &impl Abort, alloc: Global, text: &str, fields: &str) -> Result<(), Fail> {
    let (address, wanted) = (parse_locator(text.as_bytes())?, message(alloc, fields)?);
    let mut out = begun(alloc)?;
    if write_address(&mut out, address).is_err() {
        are(rt, &out, BEFORE);
        write_address(&mut out, address)?;
    }
    same(
        rt,
        &out.strip_prefix(BEFORE),
        &Some(wanted.as_slice()),
        &BEFORE,
    );
    Ok(())
}

/// Locators, and AFI and address.
const ADDRESSES: &[(&str, &str)] = &[
    ("127.0.0.53", "0001 7f000035"),
    ("2001:db8::35", "0002 20010db8000000000000000000000035"),
];

#[test]
fn an_address_is_appended_whole_or_not_at_all(rt: HostRuntime) -> Result<(), Fail> {
    for &(text, fields) in ADDRESSES {
        appends_address(&rt, rt.alloc(), text, fields)?;
    }
    Ok(())
}

/// Addresses of both families.
const SEVERAL: &[Locator] = &[
    RESOLVER,
    Locator::V6(0x2001_0db8_0000_0000_0000_0000_0000_0035),
    Locator::V4(0x7f00_000a),
];

/// The same, each behind its AFI and two bytes.
const WRITTEN: &str =
    "abcd 0001 7f000035 abcd 0002 20010db8000000000000000000000035 abcd 0001 7f00000a";

/// No part of these is appended where memory is refused, and all of them where it isn't.
#[test]
fn addresses_are_appended_whole_or_not_at_all(rt: HostRuntime) -> Result<(), Fail> {
    let wanted = message(rt.alloc(), WRITTEN)?;
    let mut out = begun(rt.alloc())?;
    if write_addresses(&mut out, b"\xab\xcd", SEVERAL).is_err() {
        are(&rt, &out, BEFORE);
        write_addresses(&mut out, b"\xab\xcd", SEVERAL)?;
    }
    same(
        &rt,
        &out.strip_prefix(BEFORE),
        &Some(wanted.as_slice()),
        &BEFORE,
    );
    Ok(())
}

/// A Map-Referral is put into a buffer, which is empty where memory is refused.
fn puts_referral(rt: &impl Abort, alloc: Global, buffer: &mut Vec<u8>) -> Option<()> {
    let wanted = bytes_of(alloc, EAST_ACKNOWLEDGES).ok()?;
    let record = read_referral(&wanted).ok()?.to_record();
    if put_referral(buffer, 1, &LentRecord::of(&record)).is_err() {
        are(rt, buffer, b"");
        return None;
    }
    are(rt, buffer, &wanted);
    Some(())
}

fn puts_reply(rt: &impl Abort, alloc: Global, buffer: &mut Vec<u8>) -> Option<()> {
    let wanted = bytes_of(alloc, NEGATIVE_REPLY).ok()?;
    let prefix = parse_prefix(b"[0]10.2.0.0/15").ok()?;
    put_negative_reply(buffer, 0x1122_3344_5566_7788, 15, prefix).ok()?;
    are(rt, buffer, &wanted);
    Some(())
}

/// A locator is added as the last of a Map-Referral.
fn adds_locator(rt: &impl Abort, alloc: Global) -> Option<()> {
    let referral = bytes_of(alloc, EAST_ACKNOWLEDGES).ok()?;
    let longer = with_locator(referral, [127, 0, 0, 9], 3).ok()?;
    same(
        rt,
        &longer.strip_suffix(b"\x7f\x00\x00\x09").is_some(),
        &true,
        &"the last",
    );
    Some(())
}

fn puts(rt: &impl Abort, alloc: Global) -> Option<()> {
    let mut buffer = begun(alloc).ok()?;
    puts_referral(rt, alloc, &mut buffer)?;
    puts_reply(rt, alloc, &mut buffer)?;
    adds_locator(rt, alloc)
}

#[test]
fn messages_are_put_whole_into_a_buffer(rt: HostRuntime) -> Result<(), Fail> {
    twice(|| puts(&rt, rt.alloc()))
}
