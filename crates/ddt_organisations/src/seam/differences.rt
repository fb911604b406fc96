//! The zones and the sites that are in two registers, but not the same in both.

use crate::seam::line::{Meets, push_site, push_zone};
use crate::seam::side::{Party, Served, Side};
use ddt_path::Prefix;
use std::alloc::AllocError;

/// Appends a line for each zone and each site of both in which they differ, in the order of their prefixes.
pub fn push_differences(text: &mut Vec<u8>, ours: &Side, theirs: &Side) -> Result<(), AllocError> {
    for (prefix, served) in &theirs.zones {
        match ours.zones.get(prefix) {
            Some(own) if own != served => push_difference(
                text, *prefix, ours, *own, theirs, *served,
            )?,
            _ => {}
        }
    }
    push_site_differences(text, ours, theirs)
}

fn push_site_differences(text: &mut Vec<u8>, ours: &Side, theirs: &Side) -> Result<(), AllocError> {
    for (prefix, etrs) in &theirs.sites {
        match ours.sites.get(prefix) {
            Some(own) if own != etrs => push_site(
                text,
                *prefix,
                (ours.party, own.as_slice()),
                (theirs.party, Some(etrs.as_slice())),
                Meets::OtherEtrs,
            )?,
            _ => {}
        }
    }
    Ok(())
}

/// Appends a zone in which the two differ. Our side serves it if it alone has a zone or a site directly in it; else
/// theirs does.
fn push_difference(
    text: &mut Vec<u8>,
    prefix: Prefix,
    ours: &Side,
    own: Served,
    theirs: &Side,
    served: Served,
) -> Result<(), AllocError> {
    if ours.is_filled(prefix) && !theirs.is_filled(prefix) {
        push_referred(text, prefix, theirs.party, served, ours, own)
    } else {
        push_referred(text, prefix, ours.party, own, theirs, served)
    }
}

/// Appends a zone that one side refers to some servers, with the servers of the other side.
fn push_referred(
    text: &mut Vec<u8>,
    prefix: Prefix,
    from: Party,
    referred: Served,
    side: &Side,
    serves: Served,
) -> Result<(), AllocError> {
    let meets = meets(prefix, &referred, side, &serves);
    let served = (side.party, Some(serves));
    push_zone(text, prefix, (from, referred), served, meets)
}

/// What an identifier in a zone meets that one side refers to some servers, and that the other side serves.
fn meets(prefix: Prefix, referred: &Served, side: &Side, serves: &Served) -> Meets {
    let Some(first) = referred.servers.as_slice().first() else {
        return Meets::Silent;
    };
    match side.group_at(*first) {
        None => Meets::Silent,
        Some(group) if group == serves.group => {
            if referred.kind == serves.kind {
                Meets::OtherServers
            } else {
                Meets::OtherKind
            }
        }
        Some(group) if side.serves_above(group, prefix) => Meets::Loop,
        Some(_) => Meets::NotAuthoritative,
    }
}
