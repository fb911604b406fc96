//! The number of sites of an earlier register that a later one lacks.

ghost use Rattle.std.specs.Prelude.{◌≡◌, ◌*◌, not, nat_lt, List, ℕ, length, IfOk};
ghost use Rattle.std.specs.List.{count_by, list_any};
ghost use Rattle.std.specs.Ordering.{nat_cmp};
ghost use Rattle.std.specs.Cmp.Lexicographic.{slice_cmp};
ghost use Rattle.std.specs.BTreeSet.{contains};
ghost use Rattle.ddt_path.specs.Covers.{is_same_path};
ghost use Rattle.ddt_review.specs.Warnings.Lost.{has_site, exceeds as exceeds_of};

use ddt_path::Prefix;
use ddt_register::{Register, Site};
use std::alloc::{AllocError, Global};
use std::collections::BTreeSet;

/// The number of sites of an earlier register that a later one lacks.
#[derive(Clone, Copy, Debug, PartialEq, Eq)]
pub struct LostSites {
    /// The number of those whose EID-prefix no site of the later one has.
    pub gone: usize,
    /// The number of all sites of the earlier one.
    pub all: usize,
}

impl LostSites {
    /// Counts the sites of a register that a later one lacks. Fails only if out of memory.
    pub fn of(alloc: Global, before: &Register, after: &Register) -> Result<LostSites, AllocError>
        ensures gone { IfOk result (λ lost. lost.gone ≡ count_by (λ s. not (has_site after.now s)) before.now.sites) }
        ensures all { IfOk result (λ lost. lost.all ≡ length before.now.sites) }
    {
        let kept = prefixes_of(alloc, after.sites.as_slice())?;
        let sites = before.sites.as_slice();
        Ok(LostSites {
            gone: missing_in(&kept, sites),
            all: sites.len(),
        })
    }

    /// Whether more than `percent` percent of all are gone.
    pub fn exceeds(self, percent: u32) -> bool
        ensures { result ≡ exceeds_of percent self }
    {
        self.gone as u128 * 100 > self.all as u128 * u128::from(percent)
    }
}

/// The number of sites that have none of these prefixes.
fn missing_in(kept: &BTreeSet<Prefix>, sites: &[Site]) -> usize
    ensures { result ≡ count_by (λ s. not (contains (slice_cmp nat_cmp) kept.now s.prefix)) sites.now }
{
    sites.iter().filter(|s| !kept.contains(&s.prefix)).count()
}

/// The prefixes of some sites. Fails only if out of memory.
fn prefixes_of(alloc: Global, sites: &[Site]) -> Result<BTreeSet<Prefix>, AllocError>
    ensures { IfOk result (λ kept. (p : List ℕ) → contains (slice_cmp nat_cmp) kept p
        ≡ list_any (λ s. is_same_path p s.prefix) sites.now) }
{
    let mut kept = BTreeSet::new(alloc);
    for site in sites {
        kept.insert(site.prefix)?;
    }
    Ok(kept)
}
