//! A text cut at the bytes that separate its parts.

ghost use Rattle.std.specs.Prelude.{◌≡◌, ◌==◌, MatchResult};
ghost use Rattle.std.specs.List.{position};
ghost use Rattle.ddt_text.specs.FirstFault.{before, onward, brackets_in};

use crate::fault::TextFault;

/// Where the first such byte stands, if there is one.
fn place(text: &[u8], byte: u8) -> Option<usize>
    ensures { result ≡ position (λ b. b == byte) text.now }
{
    text.iter().position(|b| *b == byte)
}

/// What stands before the first such byte, and what begins with it; the whole text and nothing, if there is none.
pub(crate) fn cut(text: &[u8], byte: u8) -> (&[u8], &[u8])
    ensures front { result.0.now ≡ before byte text.now }
    ensures back { result.1.now ≡ onward byte text.now }
{
    text.split_at(place(text, byte).unwrap_or(text.len()))
}

/// What stands between `[` and the first `]`, and what follows it.
pub(crate) fn split_brackets(text: &[u8]) -> Result<(&[u8], &[u8]), TextFault>
    ensures { MatchResult result (λ parts. brackets_in text.now ≡ Ok (parts.0.now, parts.1.now)) (λ fault.
        brackets_in text.now ≡ Err fault) }
{
    let [first, rest @ ..] = text else {
        return Err(TextFault::Empty);
    };
    if *first != b'[' {
        return Err(TextFault::Bracket);
    }
    match cut(rest, b']') {
        (inner, [_, rest @ ..]) => Ok((inner, rest)),
        _ => Err(TextFault::Bracket),
    }
}
