//! Which of a record's locators are taken, and in which order (RFC 9301, section 5.4).

ghost use Rattle.std.specs.Prelude.{◌≡◌, ◌≤◌, ◌<◌, [], length, map, OnOk, IfOk, IsOk};
ghost use Rattle.std.specs.Vec.{vec_len, vec_capacity};
ghost use Rattle.ddt_foreign.specs.declared.order.Ranked.{Ranked as ARanked};
ghost use Rattle.ddt_path.specs.Locators.{most_locators};
ghost use Rattle.ddt_foreign.specs.Order.{has_usable as has_usable_of, place_of, placed, all_placed, servers_of};

use crate::entries::Entries;
use ddt_path::{Locator, LocatorSet, MOST_LOCATORS};
use std::alloc::{AllocError, Global};

/// The priority of a locator that isn't to be used.
const NOT_USED: u8 = 255;

/// An address with its priority.
#[derive(Clone, Copy, Debug)]
pub struct Ranked {
    pub priority: u8,
    pub address: Locator,
}

/// Whether some locator has an address and is to be used.
fn has_usable(entries: Entries<'_>) -> bool
    ensures { result ≡ has_usable_of entries.entry }
{
    let mut rest = entries;
    while let Some(entry) = rest.next() {
        if entry.address.is_some() && entry.priority != NOT_USED {
            return true;
        }
    }
    false
}

/// How many locators at the front come before one of this priority that is read later.
fn place(priority: u8, ranked: &[Ranked]) -> usize
    ensures is { result ≡ place_of priority ranked.now }
    ensures within { result ≤ length ranked.now }
{
    let mut at = 0;
    while at < ranked.len() && ranked[at].priority <= priority {
        at += 1;
    }
    at
}

/// Puts one more locator after those of its priority, and keeps the first eight. Fails only if out of memory; with
/// room for one more it doesn't fail.
pub fn put_ranked(ranked: &mut Vec<Ranked>, one: Ranked) -> Result<(), AllocError>
    ensures placed { OnOk result (ranked.new.items ≡ placed one ranked.old.items) }
    ensures room { vec_len ranked.old < vec_capacity ranked.old → IsOk result }
    ensures capacity { vec_capacity ranked.old ≤ vec_capacity ranked.new }
{
    let at = place(one.priority, ranked.as_slice());
    ranked.insert(at, one)?;
    ranked.truncate(MOST_LOCATORS);
    Ok(())
}

/// The wanted locators, by priority.
#[tactic(auto, using(crate::proofs::OrderLemmas::few_placed))]
fn ranked_of(alloc: Global, usable: bool, entries: Entries<'_>) -> Result<Vec<Ranked>, AllocError>
    ensures all { IfOk result (λ ranked. ranked.items ≡ all_placed usable entries.entry []) }
    ensures few { IfOk result (λ ranked. length ranked.items ≤ most_locators) }
{
    let mut ranked = Vec::new(alloc);
    let mut rest = entries;
    while let Some(entry) = rest.next() {
        if let Some(address) = entry.address {
            if !(usable && entry.priority == NOT_USED) {
                let one = Ranked {
                    priority: entry.priority,
                    address,
                };
                put_ranked(&mut ranked, one)?;
            }
        }
    }
    Ok(ranked)
}

/// Their addresses.
fn addresses_of(alloc: Global, ranked: &[Ranked]) -> Result<Vec<Locator>, AllocError>
    ensures all { IfOk result (λ addresses. addresses.items ≡ map (λ (r : ARanked). r.address) ranked.now) }
    ensures len { IfOk result (λ addresses. length addresses.items ≡ length ranked.now) }
{
    let mut addresses = Vec::new(alloc);
    for one in ranked {
        addresses.push(one.address)?;
    }
    Ok(addresses)
}

/// The referral set: by priority, first come first in each, at most eight; those of priority 255 only where there is no
/// other. Fails only if out of memory.
pub(crate) fn servers(alloc: Global, entries: &Entries<'_>) -> Result<LocatorSet, AllocError>
    ensures { IfOk result (λ set. set ≡ servers_of entries.now) }
{
    let usable = has_usable(entries.again());
    let ranked = ranked_of(alloc, usable, entries.again())?;
    let addresses = addresses_of(alloc, ranked.as_slice())?;
    Ok(LocatorSet::of_few(addresses.as_slice()))
}
