//! Memory is refused to the writers of texts: what was written before stays, and the next call writes.
//!
//! `.ci/memory` runs each of these tests with each growth refused in turn.

use crate::comparison::same;
use ddt_path::{Locator, Prefix, Xeid};
use ddt_text::{parse_locator, parse_prefix, parse_xeid, write_locator, write_prefix, write_xeid};
use std::alloc::{AllocError, Global};
use std::process::Abort;
use std::test::Fail;

/// What a text is of.
#[derive(Clone, Copy, Debug)]
enum Kind {
    Xeid,
    Prefix,
    Locator,
}

/// What was written before.
const BEFORE: &[u8] = b"registered ";

/// What a text says.
#[derive(Clone, Copy, Debug)]
enum Value {
    Xeid(Xeid),
    Prefix(Prefix),
    Locator(Locator),
}

/// The value that a text spells.
fn read(kind: Kind, text: &str) -> Result<Value, Fail> {
    Ok(match kind {
        Kind::Xeid => Value::Xeid(parse_xeid(text.as_bytes())?),
        Kind::Prefix => Value::Prefix(parse_prefix(text.as_bytes())?),
        Kind::Locator => Value::Locator(parse_locator(text.as_bytes())?),
    })
}

/// Appends the text of a value.
fn append(out: &mut Vec<u8>, value: &Value) -> Result<(), AllocError> {
    match value {
        Value::Xeid(x) => write_xeid(out, *x),
        Value::Prefix(prefix) => write_prefix(out, *prefix),
        Value::Locator(locator) => write_locator(out, *locator),
    }
}

/// A vector with what was written before.
fn begun(alloc: Global) -> Result<Vec<u8>, AllocError> {
    match Vec::from_slice(alloc, BEFORE) {
        Ok(out) => Ok(out),
        Err(_refused) => Vec::from_slice(alloc, BEFORE),
    }
}

/// Nothing is appended where memory is refused, and the text where it isn't.
fn is_appended(rt: &impl Abort, alloc: Global, kind: Kind, text: &str) -> Result<(), Fail> {
    let value = read(kind, text)?;
    let mut out = begun(alloc)?;
    if append(&mut out, &value).is_err() {
        has(rt, &out, "");
        append(&mut out, &value)?;
    }
    has(rt, &out, text);
    Ok(())
}

/// The vector has a text behind what was written before.
fn has(rt: &impl Abort, out: &[u8], text: &str) {
    same(rt, &out.strip_prefix(BEFORE), &Some(text.as_bytes()), &text);
}

/// Texts that are written as they are read.
const TEXTS: &[(Kind, &str)] = &[
    (Kind::Xeid, "[0]10.1.2.3"),
    (Kind::Xeid, "[4294967295]2001:db8:1:2:3:4:5:ffff"),
    (Kind::Prefix, "*"),
    (Kind::Prefix, "[2147483648/1]*"),
    (Kind::Prefix, "[16]255.255.255.128/25"),
    (Kind::Prefix, "[4294967295]2001:db8:1:2:3:4:5:0/112"),
    (Kind::Locator, "127.0.0.53"),
    (Kind::Locator, "2001:db8:1:2:3:4:5:6"),
];

#[test]
fn texts_are_appended_whole_or_not_at_all(rt: HostRuntime) -> Result<(), Fail> {
    for &(kind, text) in TEXTS {
        is_appended(&rt, rt.alloc(), kind, text)?;
    }
    Ok(())
}
