//! Memory is refused to the writer of Map-Notifies: a message comes whole or not at all, and the next call writes it.
//!
//! `.ci/memory` runs each of these tests with each growth refused in turn.

use crate::comparison::{same, twice};
use crate::daemon::registrations::worked_messages::SECRET;
use ddt_examples::bytes_of;
use ddt_examples::map_registers::{
    IPV4_NOTIFY, IPV4_REGISTER, TWO_RECORDS_NOTIFY, TWO_RECORDS_REGISTER,
};
use ddt_map_register::{MapRegister, read_register, write_notify};
use std::alloc::{AllocError, Global};
use std::process::Abort;
use std::test::Fail;

/// The bytes of a worked message, asked for once more where memory is refused.
pub fn message(alloc: Global, fields: &str) -> Result<Vec<u8>, Fail> {
    match bytes_of(alloc, fields) {
        Ok(bytes) => Ok(bytes),
        Err(_refused) => Ok(bytes_of(alloc, fields)?),
    }
}

/// The Map-Notify, asked for once more where memory is refused; nothing where it isn't authentic.
fn notify(alloc: Global, register: &MapRegister<'_>) -> Result<Vec<u8>, AllocError> {
    if !register.is_authentic(SECRET) {
        return Ok(Vec::new(alloc));
    }
    match register.notify(alloc, SECRET) {
        Ok(bytes) => Ok(bytes),
        Err(_refused) => register.notify(alloc, SECRET),
    }
}

fn acknowledges(rt: &impl Abort, alloc: Global, register: &str, wanted: &str) -> Result<(), Fail> {
    let bytes = message(alloc, register)?;
    let wanted = message(alloc, wanted)?;
    let written = notify(alloc, &read_register(bytes.as_slice())?)?;
    same(rt, &written.as_slice(), &wanted.as_slice(), &register);
    Ok(())
}

#[test]
fn a_map_notify_is_written_whole(rt: HostRuntime) -> Result<(), Fail> {
    acknowledges(&rt, rt.alloc(), IPV4_REGISTER, IPV4_NOTIFY)?;
    acknowledges(&rt, rt.alloc(), TWO_RECORDS_REGISTER, TWO_RECORDS_NOTIFY)
}

/// The Map-Notify is written of a message's parts.
fn writes(rt: &impl Abort, alloc: Global) -> Option<()> {
    let bytes = bytes_of(alloc, IPV4_REGISTER).ok()?;
    let wanted = bytes_of(alloc, IPV4_NOTIFY).ok()?;
    let register = read_register(&bytes).ok()?;
    let head = register.head();
    if !head.has_known_code() {
        return None;
    }
    let written = write_notify(alloc, &head, SECRET, register.record_bytes()).ok()?;
    same(rt, &written.as_slice(), &wanted.as_slice(), &"the parts");
    Some(())
}

#[test]
fn a_map_notify_is_written_whole_of_its_parts(rt: HostRuntime) -> Result<(), Fail> {
    twice(|| writes(&rt, rt.alloc()))
}
