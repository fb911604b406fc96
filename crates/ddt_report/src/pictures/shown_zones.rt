//! The zones of a large tree that are shown.

use crate::pictures::differences::ZoneDifferences;
use crate::pictures::group_boxes::Item;
use ddt_path::Prefix;
use std::alloc::{AllocError, Global};
use std::collections::BTreeSet;

/// The zones that differ or have sites that differ, and those around them, until there are `most`. In the order of the
/// items the zones that cover an item come before it. Fails only if out of memory.
pub(crate) fn shown_zones(
    alloc: Global,
    items: &[Item<'_>],
    differing: &ZoneDifferences,
    most: usize,
) -> Result<BTreeSet<Prefix>, AllocError> {
    let mut shown = BTreeSet::new(alloc);
    let mut around: Vec<Prefix> = Vec::new(alloc);
    for item in items {
        leave(&mut around, item.prefix());
        if let Some(zone) = item.zone() {
            around.push(zone)?;
        }
        if shown.len() < most && item.differs(differing) {
            show(&mut shown, &around)?;
        }
    }
    Ok(shown)
}

/// Drops the innermost zones that don't cover a prefix.
fn leave(around: &mut Vec<Prefix>, next: Prefix) {
    for _ in 0..around.len() {
        match around.last() {
            Some(zone) if zone.covers(next) => return,
            _ => {
                let _left = around.pop();
            }
        }
    }
}

fn show(shown: &mut BTreeSet<Prefix>, zones: &[Prefix]) -> Result<(), AllocError> {
    for zone in zones {
        shown.insert(*zone)?;
    }
    Ok(())
}
