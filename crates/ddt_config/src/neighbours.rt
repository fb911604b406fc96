//! Tests that no two prefixes of a list clash: it sorts them and compares neighbours alone.

ghost use Rattle.std.specs.Prelude.{◌≡◌, map, IfOk, IsPermutation, IsSorted};
ghost use Rattle.std.specs.Cmp.Lexicographic.{slice_cmp};
ghost use Rattle.std.specs.Ordering.{nat_cmp};
ghost use Rattle.ddt_config.specs.Shaped.{no_two};
ghost use Rattle.ddt_config.specs.Reading.{clashes};

use ddt_path::{Prefix, Prefixed};
use std::alloc::{AllocError, Global};

/// How two prefixes clash.
#[derive(Clone, Copy)]
pub enum Clash {
    /// They are equal.
    Same,
    /// They overlap.
    Overlap,
}

impl Clash {
    fn is_between(self, a: Prefix, b: Prefix) -> bool
        ensures { result ≡ clashes self a b }
    {
        match self {
            Clash::Same => a == b,
            Clash::Overlap => a.overlaps(b),
        }
    }
}

/// Whether the prefixes of no two items clash. Fails only if out of memory.
pub fn have_no_clash<T: Prefixed>(
    alloc: Global,
    items: &[T],
    clash: Clash,
) -> Result<bool, AllocError>
    ensures { IfOk result (λ answer. answer ≡ no_two (λ a b. clashes clash (T.path a) (T.path b)) items.now) }
{
    let prefixes = sorted_prefixes(alloc, items)?;
    Ok(no_neighbours_clash(&prefixes, clash))
}

fn sorted_prefixes<T: Prefixed>(alloc: Global, items: &[T]) -> Result<Vec<Prefix>, AllocError>
    ensures all { IfOk result (λ prefixes. IsPermutation (map T.path items.now) prefixes.items) }
    ensures sorted { IfOk result (λ prefixes. IsSorted (slice_cmp nat_cmp) prefixes.items) }
{
    let mut prefixes = Vec::with_capacity(alloc, items.len())?;
    for item in items {
        prefixes.push(item.prefix())?;
    }
    if prefixes.is_sorted() {
        return Ok(prefixes);
    }
    prefixes.sort_unstable();
    Ok(prefixes)
}

/// Whether no two clash. In a sorted list a prefix is directly before its equals, and before all that it covers.
fn no_neighbours_clash(prefixes: &[Prefix], clash: Clash) -> bool
    requires { IsSorted (slice_cmp nat_cmp) prefixes.now }
    ensures { result ≡ no_two (clashes clash) prefixes.now }
{
    for later in 1..prefixes.len() {
        if clash.is_between(prefixes[later - 1], prefixes[later]) {
            return false;
        }
    }
    true
}
