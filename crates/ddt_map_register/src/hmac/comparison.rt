//! Comparisons of codes that look at every byte.

ghost use Rattle.std.specs.Prelude.{◌≡◌, ◌≤◌, ◌↔◌, IsTrue, length, take};

/// Whether two codes are the same. For codes of one length each byte of both is read, wherever they differ.
pub fn is_same_code(first: &[u8], second: &[u8]) -> bool
    ensures { IsTrue result ↔ (first.now ≡ second.now) }
{
    if first.len() != second.len() {
        return false;
    }
    let mut difference = 0u8;
    for i in 0..first.len() {
        difference |= first[i] ^ second[i];
    }
    difference == 0
}

/// Whether what was sent is the front of a code: all of it, or a code that is cut to the length of what was sent (RFC
/// 2104, section 5). Each byte that was sent is read, wherever they differ.
pub fn is_code_cut(code: &[u8], sent: &[u8]) -> bool
    requires { length sent.now ≤ length code.now }
    ensures { IsTrue result ↔ (take (length sent.now) code.now ≡ sent.now) }
{
    is_same_code(&code[..sent.len()], sent)
}
