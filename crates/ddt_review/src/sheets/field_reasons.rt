//! What is wrong with a field of a record, in words. All calls fail only if out of memory.

use crate::sheets::kind::RecordKind;
use crate::sheets::printed::printed;
use ddt_text::{TextFault, parse_locator, parse_prefix};
use std::alloc::{AllocError, Global};

/// Why a field isn't a kind.
pub(crate) fn kind_reason(alloc: Global, text: &[u8]) -> Result<String, AllocError> {
    let text = printed(alloc, text)?;
    format!(in alloc; "'{text}' is none of group-node, group-ms, node, ms and site")
}

/// Why a field must be empty and isn't.
fn not_empty(alloc: Global, column: &str, text: &[u8]) -> Result<String, AllocError> {
    let text = printed(alloc, text)?;
    format!(in alloc; "'{text}' stands where a row of its kind has no {column}")
}

/// Why a field isn't the prefix of a record of a kind.
pub(crate) fn prefix_reason(
    alloc: Global,
    kind: Option<RecordKind>,
    text: &[u8],
) -> Result<String, AllocError> {
    if kind == Some(RecordKind::Group) {
        return not_empty(alloc, "prefix", text);
    }
    if text.is_empty() {
        return format!(in alloc; "there is no prefix");
    }
    let words = match parse_prefix(text) {
        Ok(_) => "is no prefix",
        Err(fault) => prefix_words(text, fault),
    };
    let text = printed(alloc, text)?;
    format!(in alloc; "'{text}' {words}")
}

/// What is wrong with the text of a prefix, whose fault is given.
fn prefix_words(text: &[u8], fault: TextFault) -> &'static str {
    match fault {
        TextFault::Empty => "is empty",
        TextFault::Bracket => "doesn't begin with an Instance ID in brackets, as [0]",
        TextFault::Instance => "has an Instance ID that is no number up to 4294967295",
        TextFault::Address if is_of_instances(text) => "has no * behind its brackets",
        TextFault::Address => "has no IPv4 or IPv6 address behind its brackets",
        TextFault::Length => length_words(text),
        TextFault::TailNotZero => "has digits behind its length that aren't 0",
        TextFault::Trailing => "goes on behind its *",
    }
}

/// Whether the text of a prefix is one of Instance IDs: its brackets contain a length.
fn is_of_instances(text: &[u8]) -> bool {
    text.iter()
        .find(|byte| matches!(**byte, b'/' | b']'))
        .is_some_and(|byte| *byte == b'/')
}

/// The text after the first `/` of a prefix, and up to the bracket if it is one of Instance IDs; None without `/`.
fn length_text(text: &[u8]) -> Option<&[u8]> {
    let behind = text.splitn(2, |byte| *byte == b'/').nth(1)?;
    if is_of_instances(text) {
        behind.split(|byte| *byte == b']').next()
    } else {
        Some(behind)
    }
}

/// What is wrong with the length of a prefix.
fn length_words(text: &[u8]) -> &'static str {
    match length_text(text) {
        None => "has no length",
        Some([b'1'..=b'9', digits @ ..]) if digits.iter().all(u8::is_ascii_digit) => {
            if is_of_instances(text) {
                "is longer than an Instance ID"
            } else {
                "is longer than the address"
            }
        }
        Some(_) => "has a length that is no number from 1 on without leading zeros",
    }
}

/// Why a field isn't the name in a record of a kind.
pub(crate) fn name_reason(
    alloc: Global,
    kind: Option<RecordKind>,
    text: &[u8],
) -> Result<String, AllocError> {
    if kind == Some(RecordKind::Site) {
        return not_empty(alloc, "group", text);
    }
    if text.is_empty() {
        return format!(in alloc; "there is no name of a group");
    }
    let text = printed(alloc, text)?;
    format!(in alloc;
        "'{text}' is no name of a group: 1 to 63 lower-case letters, digits and hyphens"
    )
}

/// Why a field isn't the addresses of a record of a kind.
pub(crate) fn address_reason(
    alloc: Global,
    kind: Option<RecordKind>,
    text: &[u8],
) -> Result<String, AllocError> {
    if kind == Some(RecordKind::Zone) {
        return not_empty(alloc, "addresses", text);
    }
    match first_wrong_part(text) {
        None | Some([]) => format!(in alloc; "more than one blank stands between addresses"),
        Some(part) => {
            let part = printed(alloc, part)?;
            format!(in alloc; "'{part}' is no IPv4 or IPv6 address")
        }
    }
}

/// The first part of a text between blanks that is no address.
fn first_wrong_part(text: &[u8]) -> Option<&[u8]> {
    text.split(|byte| *byte == b' ')
        .find(|part| parse_locator(part).is_err())
}
