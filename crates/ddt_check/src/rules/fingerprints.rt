//! Fingerprints of 64 bits of the locators of all groups: if no fingerprint occurs twice, no locator does.

ghost use Rattle.std.specs.Prelude.{◌≡◌, ◌==◌, ◌≤◌, ◌↔◌, ◌++◌, true, IsTrue, IfOk, map, length};
ghost use Rattle.std.specs.List.{IsDistinct};
ghost use Rattle.std.specs.List.Sorted.{IsStrictlyIncreasing};
ghost use Rattle.ddt_path.specs.Locators.{are_distinct};
ghost use Rattle.ddt_check.specs.Fingerprints.{fingerprint as fingerprint_of, all_locators};

use ddt_path::{Locator, MOST_LOCATORS};
use ddt_register::Group;
use std::alloc::{AllocError, Global};

/// One more than the largest number of 64 bits.
const WHOLE: u128 = 1 << 64;

/// An odd number whose multiples lie far apart.
const SPREAD: u128 = 11_400_714_819_323_198_485;

/// The number of an IPv4 address; of an IPv6 address its halves, mixed so that few of one network have one number.
fn fingerprint(l: Locator) -> u64
    ensures { result ≡ fingerprint_of l }
{
    match l {
        Locator::V4(number) => u64::from(number),
        Locator::V6(number) => ((number / WHOLE * SPREAD + number % WHOLE) % WHOLE) as u64,
    }
}

/// Adds the fingerprints of a group's locators. Fails only if out of memory.
fn add_group(fingerprints: &mut Vec<u64>, g: &Group) -> Result<(), AllocError>
    ensures { IfOk result (λ done. fingerprints.new.items
        ≡ fingerprints.old.items ++ map fingerprint_of g.now.locators) }
{
    for l in g.locators.as_slice() {
        fingerprints.push(fingerprint(*l))?;
    }
    Ok(())
}

/// The fingerprints of all locators of the groups. Fails only if out of memory.
fn fingerprints_of(alloc: Global, groups: &[Group]) -> Result<Vec<u64>, AllocError>
    requires { length groups.now ≤ 65535 }
    ensures { IfOk result (λ v. v.items ≡ map fingerprint_of (all_locators groups.now)) }
{
    let mut fingerprints = Vec::with_capacity(alloc, groups.len() * MOST_LOCATORS)?;
    for g in groups {
        add_group(&mut fingerprints, g)?;
    }
    Ok(fingerprints)
}

/// Whether each number is above the one before it.
fn are_increasing(numbers: &[u64]) -> bool
    ensures { IsTrue result ↔ IsStrictlyIncreasing numbers.now }
{
    for at in 1..numbers.len() {
        if numbers[at] <= numbers[at - 1] {
            return false;
        }
    }
    true
}

/// Whether no number occurs twice. It sorts them.
fn are_different(numbers: &mut [u64]) -> bool
    ensures { IsTrue result ↔ IsDistinct ◌==◌ numbers.old }
{
    numbers.sort_unstable();
    are_increasing(numbers)
}

/// Whether the fingerprints show that no locator occurs twice in all of the groups. They don't if two locators have the
/// same fingerprint, nor if out of memory.
pub fn are_told_apart(alloc: Global, groups: &[Group]) -> bool
    requires { length groups.now ≤ 65535 }
    ensures { IsTrue result → are_distinct (all_locators groups.now) ≡ true }
{
    match fingerprints_of(alloc, groups) {
        Ok(mut fingerprints) => are_different(&mut fingerprints),
        Err(_) => false,
    }
}
