//! The texts of prefixes: `*`, `[iid/len]*` and `[iid]address/len`.

ghost use Rattle.std.specs.Prelude.{◌≡◌, ◌++◌, ◌↔◌, List, ℕ, if◌then◌else◌, is_ok, OnOk};
ghost use Rattle.ddt_path.specs.declared.form.Form.{Form};
ghost use Rattle.ddt_path.specs.Path.{path, IsForm};
ghost use Rattle.ddt_text.specs.Grammar.{SpellsPrefix};
ghost use Rattle.ddt_text.specs.FirstFault.{prefix_or_fault, range_in, block_in, bracketed_prefix_in, prefix_in};
ghost use Rattle.ddt_text.specs.Written.{written_prefix};
ghost use Rattle.ddt_path.specs.Reader.{AreRead, IsAny};

use crate::address_text::{LocatorText, read_address};
use crate::fault::TextFault;
use crate::number::read_u32;
use crate::parts::{cut, split_brackets};
use ddt_path::{Form, Prefix, PrefixFault};
use std::alloc::AllocError;
use std::fmt;

/// The same fault in a text.
fn in_text(formed: Result<Prefix, PrefixFault>) -> Result<Prefix, TextFault>
    ensures { result ≡ prefix_or_fault formed }
{
    formed.map_err(|fault| match fault {
        PrefixFault::Length => TextFault::Length,
        PrefixFault::TailNotZero => TextFault::TailNotZero,
    })
}

/// The range with this Instance ID and this length, before what follows the bracket.
fn read_range(iid: &[u8], len: &[u8], rest: &[u8]) -> Result<Prefix, TextFault>
    ensures { result ≡ range_in iid.now len.now rest.now }
{
    let iid = read_u32(iid, u32::MAX).ok_or(TextFault::Instance)?;
    let len = read_u32(len, 32).ok_or(TextFault::Length)?;
    if len == 0 {
        return Err(TextFault::Length);
    }
    match rest {
        [b'*'] => in_text(Prefix::range(iid, len as u8)),
        [b'*', ..] => Err(TextFault::Trailing),
        _ => Err(TextFault::Address),
    }
}

/// The block with this Instance ID, and the address and the length that follow the bracket.
fn read_block(iid: &[u8], rest: &[u8]) -> Result<Prefix, TextFault>
    ensures { result ≡ block_in iid.now rest.now }
{
    let iid = read_u32(iid, u32::MAX).ok_or(TextFault::Instance)?;
    let (address, rest) = cut(rest, b'/');
    let address = read_address(address).ok_or(TextFault::Address)?;
    let [_, len @ ..] = rest else {
        return Err(TextFault::Length);
    };
    let len = read_u32(len, 128).ok_or(TextFault::Length)?;
    in_text(Prefix::block(iid, address, len as u8))
}

/// The range or the block that the text spells.
fn read_bracketed(text: &[u8]) -> Result<Prefix, TextFault>
    ensures { result ≡ bracketed_prefix_in text.now }
{
    let (inner, rest) = split_brackets(text)?;
    match cut(inner, b'/') {
        (iid, [_, len @ ..]) => read_range(iid, len, rest),
        (iid, []) => read_block(iid, rest),
    }
}

fn read_prefix(text: &[u8]) -> Result<Prefix, TextFault>
    ensures { result ≡ prefix_in text.now }
{
    match text {
        [b'*'] => in_text(Prefix::range(0, 0)),
        [b'*', ..] => Err(TextFault::Trailing),
        _ => read_bracketed(text),
    }
}

/// The prefix that the text spells. Refused, in this order:
///
/// - 1 Empty: there is no byte.
/// - 7 Trailing: bytes follow a `*` at the front.
/// - 2 Bracket: no `[` stands at the front, or no `]` follows.
/// - 3 Instance: the number after the `[` is no Instance ID.
///
/// Of a range:
///
/// - 5 Length: LEN isn't 1 to 32.
/// - 4 Address: no `*` stands after the bracket.
/// - 7 Trailing: something follows that `*`.
/// - 6 TailNotZero: a digit past LEN isn't 0.
///
/// Of a block:
///
/// - 4 Address: no address stands up to the next `/`.
/// - 5 Length: LEN is above its width, 32 or 128, or is no number.
/// - 6 TailNotZero: a digit past LEN isn't 0.
pub fn parse_prefix(text: &[u8]) -> Result<Prefix, TextFault>
    ensures spelled { (path : List ℕ) → (result ≡ Ok path) ↔ SpellsPrefix text.now path }
    ensures fault { result ≡ prefix_in text.now }
    ensures laws { AreRead IsAny SpellsPrefix prefix_in }
{
    read_prefix(text)
}

/// A prefix as it is written.
#[derive(Clone, Copy)]
struct PrefixText(Form);

impl fmt::Display for PrefixText {
    ghost use Rattle.std.specs.Prelude.{Some};
    ghost use Rattle.ddt_text.specs.Written.{written_form};

    ghost output = { λ text. Some (written_form text.0) };

    fn fmt<W: fmt::Write>(&self, f: &mut fmt::Formatter<W>) -> fmt::Result {
        match self.0 {
            Form::Range { len: 0, .. } => f.write_str("*"),
            Form::Range { iid, len } => write!(f, "[{iid}/{len}]*"),
            Form::Block { iid, address, len } => {
                write!(f, "[{iid}]{}/{len}", LocatorText(address))
            }
        }
    }
}

/// Appends the prefix as `*`, `[iid/len]*` or `[iid]address/len`. Fails only if out of memory, and then `text` is
/// unchanged.
#[tactic(auto, using(crate::proofs::AgainLemmas::laws))]
pub fn write_prefix(text: &mut Vec<u8>, prefix: Prefix) -> Result<(), AllocError>
    ensures appended { text.new.items ≡ (if is_ok result then text.old.items ++ written_prefix prefix
        else text.old.items) }
    ensures spelled { OnOk result (SpellsPrefix (written_prefix prefix) prefix) }
    ensures again { OnOk result (prefix_in (written_prefix prefix) ≡ Ok prefix) }
    // Whatever is written spells its value.
    ensures law { (form : Form) → IsForm form → SpellsPrefix (written_prefix (path form)) (path form) }
{
    let written = format!(in *text.allocator(); "{}", PrefixText(prefix.form()))?;
    text.extend_from_slice(written.as_bytes())
}
