//! The item of the longest, or of the shortest, prefix that covers a prefix or an identifier (RFC 8111, section 8.1).

ghost use Rattle.std.specs.Prelude.{◌≡◌, Bool};
ghost use Rattle.std.specs.List.{filter};
ghost use Rattle.std.specs.Option.{option_copied, option_map_or};
ghost use Rattle.ddt_path.specs.Matching.{is_better as is_better_of, better_of, best_match as best_match_of, AnswersAs, longest_match as longest_match_of, shortest_match as shortest_match_of};

use crate::prefix::Prefix;
use crate::prefixed::Prefixed;

/// Which of the items that cover is preferred.
#[derive(Clone, Copy, Debug, PartialEq, Eq)]
pub enum Preference {
    /// The one of the longest prefix, the most specific.
    Longest,
    /// The one of the shortest prefix, the least specific.
    Shortest,
}

/// The better of two items, where there is a first; of equal ones the first.
fn better<'a, T: Prefixed>(preference: Preference, best: Option<&'a T>, next: &'a T) -> &'a T
    ensures { let next = next.entry.now in
        result.now
        ≡ option_map_or (λ first. better_of preference T.path first (Some next)) (option_copied best.entry) next }
{
    match best {
        Some(best) if !is_better(preference, next.prefix().len(), best.prefix().len()) => best,
        _ => next,
    }
}

/// Whether a prefix of the one length is preferred to one of the other.
fn is_better(preference: Preference, len: u8, other: u8) -> bool
    ensures { result ≡ is_better_of preference len other }
{
    match preference {
        Preference::Longest => len > other,
        Preference::Shortest => len < other,
    }
}

/// Of the items that pass a test and whose prefix covers `x`, the one whose prefix is preferred; of equal prefixes the
/// first.
pub fn best_match<'a, T: Prefixed, F: Fn(&T) -> bool>(
    preference: Preference,
    items: &'a [T],
    x: Prefix,
    test: F,
) -> Option<&'a T>
    requires { F.IsAlwaysCallable test }
    ensures { (passes : T → Bool) → AnswersAs F.Fn test passes →
        option_copied result ≡ best_match_of preference T.path (filter passes items.now) x }
{
    let mut best: Option<&T> = None;
    for item in items {
        if item.prefix().covers(x) && test(item) {
            best = Some(better(preference, best, item));
        }
    }
    best
}

/// The item of the longest prefix that covers `x`; of equal prefixes the first.
pub fn longest_match<T: Prefixed>(items: &[T], x: Prefix) -> Option<&T>
    ensures { option_copied result ≡ longest_match_of T.path items.now x }
{
    best_match(Preference::Longest, items, x, |_| true)
}

/// The item of the shortest prefix that covers `x`; of equal prefixes the first.
pub fn shortest_match<T: Prefixed>(items: &[T], x: Prefix) -> Option<&T>
    ensures { option_copied result ≡ shortest_match_of T.path items.now x }
{
    best_match(Preference::Shortest, items, x, |_| true)
}
