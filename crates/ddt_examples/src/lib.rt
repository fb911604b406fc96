//! The worked registers, configurations and messages, each once, for the tests of all crates.
//!
//! `registers` and `rows` are CSV, `configurations` are TOML as `ddt compile` prints it, `messages` are hexadecimal,
//! field by field, as are those of another implementation in `foreign` and the registrations in `map_registers`.
//! `replays` are scripts with their lines.
//! `Dice` draw what tests try at random.
//! Tests: tests/crates/format/prefixes/examples.
#![tactic(auto)]

ghost use Rattle.std.specs.Prelude.{◌≡◌, ◌++◌, [], ◌∷◌, take, Ok, IfOk, OnOk};
ghost use Rattle.hex.specs.Hex.{decode_of};
ghost use Rattle.ddt_examples.specs.Changes.{with_changes};
ghost use Rattle.ddt_examples.specs.Digits.{digits_in};

pub mod configurations;
mod dice;
pub mod foreign;
pub mod map_registers;
pub mod messages;
pub mod registers;
pub mod replays;
pub mod rows;

pub use dice::Dice;
use hex::FromHexError;
use std::alloc::{AllocError, Global};

/// The bytes of a hexadecimal text whose fields stand apart by blanks. Refused where it is none, or if out of memory.
#[tactic(auto, using(crate::proofs::DigitLemmas::digits_more))]
pub fn bytes_of(alloc: Global, fields: &str) -> Result<Vec<u8>, FromHexError>
    ensures { IfOk result (λ bytes. decode_of (digits_in fields.now) ≡ Ok bytes.items) }
{
    let mut digits = Vec::new(alloc);
    for byte in fields.as_bytes() {
        push_digit(&mut digits, *byte)?;
    }
    hex::decode(alloc, digits.as_slice())
}

/// Appends a byte that is no blank. Fails only if out of memory.
fn push_digit(digits: &mut Vec<u8>, byte: u8) -> Result<(), AllocError>
    ensures { OnOk result (digits.new.items ≡ digits.old.items ++ digits_in (byte ∷ [])) }
{
    if byte != b' ' {
        digits.push(byte)?;
    }
    Ok(())
}

/// The message with another byte at each of these places, in their order. A place behind the end is none.
#[tactic(auto, using(std::proofs::lemmas::List::Sums::fold_more))]
pub fn changed(mut message: Vec<u8>, changes: &[(usize, u8)]) -> Vec<u8>
    ensures { result.items ≡ with_changes message.items changes.now }
{
    for (at, byte) in changes {
        if *at < message.len() {
            message[*at] = *byte;
        }
    }
    message
}

/// What a locator record of an IPv4 address has before the address: priorities and weights, flags, AFI 1.
pub const BEFORE_ADDRESS: [u8; 8] = [0x01, 0x64, 0xff, 0, 0, 1, 0, 1];

/// The Map-Referral with one more locator, an IPv4 address, at its end, whose count of locators is then this one. Fails
/// only if out of memory.
pub fn with_locator(
    mut referral: Vec<u8>,
    address: [u8; 4],
    count: u8,
) -> Result<Vec<u8>, AllocError>
    ensures { IfOk result (λ bytes. bytes.items
        ≡ with_changes (referral.items ++ BEFORE_ADDRESS ++ address) ((16, count) ∷ [])) }
{
    referral.extend_from_slice(&BEFORE_ADDRESS)?;
    referral.extend_from_slice(&address)?;
    Ok(changed(referral, &[(16, count)]))
}

/// So many bytes from the front, or all where there are fewer.
pub fn front(message: &[u8], count: usize) -> &[u8]
    ensures { result.now ≡ take count message.now }
{
    &message[..count.min(message.len())]
}
