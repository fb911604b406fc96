//! Keyed sites with their ETRs and registrations as lines, for the log and the command `sites`.

use crate::texts::{Message, push_locators, string_of};
use ddt_path::LocatorSet;
use ddt_registrar::{KeyedSite, Registration, push_etrs, push_sender};
use ddt_text::write_prefix;
use std::alloc::{AllocError, Global};

/// The line of a site without its end: its prefix, `registered`, `configured` or `not registered`, and `etrs`, its ETRs
/// in force.
pub fn site_text(alloc: Global, site: &KeyedSite, etrs: LocatorSet) -> Message {
    let mut text = Vec::new(alloc);
    push_line(&mut text, site, etrs)?;
    string_of(alloc, &text)
}

/// Appends a site's prefix, its state, and its ETRs in force.
fn push_line(text: &mut Vec<u8>, site: &KeyedSite, etrs: LocatorSet) -> Result<(), AllocError> {
    let state = if etrs.as_slice().is_empty() {
        "not registered"
    } else if is_registered(site) {
        "registered"
    } else {
        "configured"
    };
    write_prefix(text, site.prefix)?;
    text.push(b' ')?;
    text.extend_from_slice(state.as_bytes())?;
    push_locators(text, etrs.as_slice())
}

/// The answer to `sites`: a line for each keyed site, followed by a line for each of its registrations.
///
/// A site's line has its prefix, `registered`, `configured` or `not registered`, and its ETRs in force. A
/// registration's line has the sender, the seconds left, and the ETRs with their priorities. The last line has the
/// numbers of keyed sites and of registered ones. `moment` is in milliseconds.
pub fn sites_text(alloc: Global, sites: &[KeyedSite], moment: u64) -> Message {
    let mut text = Vec::new(alloc);
    let mut registered = 0u64;
    for site in sites {
        push_line(&mut text, site, site.etrs_in_force())?;
        text.push(b'\n')?;
        push_registrations(&mut text, site.live.as_slice(), moment)?;
        registered = registered.saturating_add(u64::from(is_registered(site)));
    }
    let last = format!(in alloc; "sites={} registered={registered}\n", sites.len())?;
    text.extend_from_slice(last.as_bytes())?;
    string_of(alloc, &text)
}

fn push_registrations(
    text: &mut Vec<u8>,
    live: &[Registration],
    moment: u64,
) -> Result<(), AllocError> {
    for registration in live {
        text.extend_from_slice(b"  from ")?;
        push_sender(text, registration.sender)?;
        let left = registration.deadline.saturating_sub(moment) / 1000;
        let word = format!(in *text.allocator(); " left={left}")?;
        text.extend_from_slice(word.as_bytes())?;
        push_etrs(text, registration.etrs.as_slice())?;
        text.push(b'\n')?;
    }
    Ok(())
}

/// The number of these sites that are registered.
pub fn registered_count(sites: &[KeyedSite]) -> u64 {
    sites.iter().filter(|site| is_registered(site)).count() as u64
}

/// Whether an xTR has registered an ETR for a site.
fn is_registered(site: &KeyedSite) -> bool {
    site.live.iter().any(|one| !one.etrs.is_empty())
}
