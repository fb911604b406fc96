//! `ddt show HEX`: what a datagram says, or the first fault in it.

ghost use Rattle.std.specs.Prelude.{◌≡◌, ◌≢◌, Bool, true, IfOk, IfErr, Ok, Some};
ghost use Rattle.ddt_commands.specs.CommandLine.Call.{call_of};
ghost use Rattle.ddt_commands.specs.declared.refusal.Refusal.TheVariants.{NoMessage as IsNoMessage};
ghost use Rattle.ddt_commands.specs.declared.refusal.message.MessageRefusal.TheVariants.{UnknownMessage as IsUnknownMessage};
ghost use Rattle.ddt_commands.specs.Ends.{Ends, streams};
ghost use Rattle.ddt_commands.specs.Commands.Show.{IsMessageText, IsShowText, IsUnknownType, IsWhyNoReply, IsWhyNoReferral, IsWhyNoRequest, IsWhyNotShown, hex_refusal, type_number, type_of, show_prints};

use crate::command_line::{Argument, Declaration, Words};
use crate::lines::Lines;
use crate::refusal::{MessageRefusal, Refusal};
use crate::status::Status;
use crate::streams::print_result;
use ddt_ecm::read_request;
use ddt_lines::{negative_reply_line, referral_line, request_line};
use ddt_wire::{
    ENCAPSULATED, MAP_REFERRAL, MAP_REPLY, TYPE_SHIFT, read_negative_reply, read_referral,
};
use hex::FromHexError;
use std::alloc::Global;
use std::io::Write;

pub const WORDS: Declaration<'static> = Declaration {
    name: "show",
    arguments: &[Argument::One("hex")],
};

/// Prints the line of the message that the word spells in hexadecimal, or its first fault. It opens no file.
pub fn run_show<P, E>(alloc: Global, words: &Words<'_>, out: &mut P, err: &mut E) -> Status
where
    P: Write,
    E: Write,
    ensures { Ends result (streams P.contents out.old out.new E.contents err.old err.new)
        (show_prints (call_of words.now)) }
{
    let answer = lines(alloc, words);
    print_result(alloc, &answer, out, err)
}

/// A type of message that is shown.
#[derive(Clone, Copy, Debug)]
pub enum MessageType {
    Reply,
    Referral,
    Request,
}

/// The line of the message that the word spells in hexadecimal. Refusals: a word that is no hexadecimal text, an
/// unknown type or no byte at all, the first fault of a message. It has no file to open.
pub fn lines(alloc: Global, words: &Words<'_>) -> Result<Lines, Refusal<'static>>
    ensures text { IfOk result (λ lines. IsShowText (call_of words.now) lines.text.items) }
    ensures complete { IfOk result (λ lines. lines.complete ≡ true) }
    ensures refused { IfErr result (IsWhyNotShown (call_of words.now)) }
{
    match message_text(alloc, words) {
        Ok(text) => Ok(Lines::whole(text)),
        Err(why) => Err(why),
    }
}

/// The line of that message.
fn message_text(alloc: Global, words: &Words<'_>) -> Result<Vec<u8>, Refusal<'static>>
    ensures text { IfOk result (λ text. IsShowText (call_of words.now) text.items) }
    ensures refused { IfErr result (IsWhyNotShown (call_of words.now)) }
{
    let bytes = match hex::decode(alloc, words.value("hex")) {
        Ok(bytes) => bytes,
        Err(fault) => return Err(refused_hex(fault)),
    };
    match message_type(&bytes)? {
        MessageType::Reply => reply_in(alloc, &bytes),
        MessageType::Referral => referral_in(alloc, &bytes),
        MessageType::Request => request_in(alloc, &bytes),
    }
}

/// The type of message that the first byte begins. Refused as UnknownMessage where it begins none, or there is no byte.
fn message_type(bytes: &[u8]) -> Result<MessageType, Refusal<'static>>
    ensures known { IfOk result (λ found. type_of bytes.now ≡ Some (type_number found)) }
    ensures unknown { IfErr result (λ why. (why ≡ IsNoMessage IsUnknownMessage) × IsUnknownType (type_of bytes.now)) }
{
    match bytes.first().map(|byte| byte >> TYPE_SHIFT) {
        Some(MAP_REPLY) => Ok(MessageType::Reply),
        Some(MAP_REFERRAL) => Ok(MessageType::Referral),
        Some(ENCAPSULATED) => Ok(MessageType::Request),
        _ => Err(Refusal::NoMessage(MessageRefusal::UnknownMessage)),
    }
}

/// What is refused where a word isn't decoded: out of memory if that is why, else a word that isn't hexadecimal.
fn refused_hex(fault: FromHexError) -> Refusal<'static>
    ensures { result ≡ hex_refusal fault }
{
    match fault {
        FromHexError::OutOfMemory => Refusal::OutOfMemory,
        _ => Refusal::NoMessage(MessageRefusal::NotHex),
    }
}

/// The line of the negative Map-Reply that the bytes are.
fn reply_in(alloc: Global, bytes: &[u8]) -> Result<Vec<u8>, Refusal<'static>>
    ensures text { IfOk result (λ text. IsMessageText bytes.now text.items) }
    ensures refused { IfErr result (IsWhyNoReply bytes.now) }
{
    match read_negative_reply(bytes) {
        Ok(reply) => Ok(negative_reply_line(alloc, reply)?),
        Err(fault) => Err(Refusal::NoMessage(MessageRefusal::NoReply(fault))),
    }
}

/// The line of the Map-Referral that the bytes are.
fn referral_in(alloc: Global, bytes: &[u8]) -> Result<Vec<u8>, Refusal<'static>>
    ensures text { IfOk result (λ text. IsMessageText bytes.now text.items) }
    ensures refused { IfErr result (IsWhyNoReferral bytes.now) }
{
    match read_referral(bytes) {
        Ok(referral) => Ok(referral_line(alloc, &referral)?),
        Err(fault) => Err(Refusal::NoMessage(MessageRefusal::NoReferral(fault))),
    }
}

/// The line of the request that the bytes are.
fn request_in(alloc: Global, bytes: &[u8]) -> Result<Vec<u8>, Refusal<'static>>
    ensures text { IfOk result (λ text. IsMessageText bytes.now text.items) }
    ensures refused { IfErr result (IsWhyNoRequest bytes.now) }
{
    match read_request(bytes) {
        Ok(request) => Ok(request_line(alloc, &request)?),
        Err(fault) => Err(Refusal::NoMessage(MessageRefusal::NoRequest(fault))),
    }
}
