//! The detection of referral loops: a referral whose prefix isn't longer than that of the referral before it (RFC 8111,
//! section 7.3).

ghost use Rattle.std.specs.Prelude.{◌≡◌, IsTrue, false};
ghost use Rattle.ddt_resolver.specs.Records.{IsBelow};

use ddt_path::Prefix;

/// Whether a prefix is longer than that of the last referral; true if there is none.
pub fn is_below(saved: Option<Prefix>, prefix: Prefix) -> bool
    ensures yes { IsTrue result → IsBelow saved prefix }
    ensures no { result ≡ false → IsBelow saved prefix → ⊥ }
{
    match saved {
        Some(saved) => saved.len() < prefix.len(),
        None => true,
    }
}
