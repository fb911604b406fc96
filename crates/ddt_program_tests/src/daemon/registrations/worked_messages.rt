//! The secret, and worked Map-Registers as bytes and as read.

use crate::daemon::registrations::vectors::{
    CUT_CODE_REGISTER, MANY_RECORDS_REGISTER, NO_RECORD_REGISTER,
};
use ddt_examples::bytes_of;
use ddt_examples::foreign::{
    XTR_INSTANCE_REGISTER, XTR_IPV6_REGISTER, XTR_NOTIFIED_REGISTER, XTR_REGISTER,
    XTR_TWO_LOCATORS_REGISTER,
};
use ddt_examples::map_registers::{
    INSTANCE_REGISTER, IPV4_REGISTER, TWO_RECORDS_REGISTER, WITHDRAWAL,
};
use ddt_map_register::{MapRegister, read_register};
use std::alloc::Global;
use std::process::Abort;

pub const SECRET: &[u8] = b"password";

pub const REGISTERS: &[&str] = &[
    IPV4_REGISTER,
    TWO_RECORDS_REGISTER,
    CUT_CODE_REGISTER,
    NO_RECORD_REGISTER,
    INSTANCE_REGISTER,
    WITHDRAWAL,
];

/// Those of another implementation.
pub const FOREIGN: &[&str] = &[
    XTR_REGISTER,
    XTR_NOTIFIED_REGISTER,
    XTR_IPV6_REGISTER,
    XTR_INSTANCE_REGISTER,
    XTR_TWO_LOCATORS_REGISTER,
];

/// The bytes of a worked message.
pub fn message(alloc: Global, rt: &impl Abort, fields: &str) -> Vec<u8> {
    bytes_of(alloc, fields).expect(rt, "no bytes")
}

/// The Map-Register that the bytes are.
pub fn read<'a>(rt: &impl Abort, bytes: &'a [u8]) -> MapRegister<'a> {
    read_register(bytes).expect(rt, "a Map-Register")
}

/// What comes before them, and 255 records, of 10.0.0.0/16 to 10.254.0.0/16, without locators.
pub fn with_many_records(alloc: Global, rt: &impl Abort, fields: &str) -> Vec<u8> {
    let mut bytes = message(alloc, rt, fields);
    for i in 0..u8::MAX {
        let record = [0, 0, 5, 0xa0, 0, 16, 0x10, 0, 0, 0, 0, 1, 10, i, 0, 0];
        bytes.extend_from_slice(&record).expect(rt, "out of memory");
    }
    bytes
}

/// The Map-Register of 255 records.
pub fn many_records(alloc: Global, rt: &impl Abort) -> Vec<u8> {
    with_many_records(alloc, rt, MANY_RECORDS_REGISTER)
}
