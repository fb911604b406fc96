//! Logs the keyed sites whose ETRs have changed.

use crate::log::{Log, Priority};
use ddt_daemon_text::site_text;
use ddt_path::LocatorSet;
use ddt_registrar::KeyedSite;
use std::alloc::{AllocError, Global};

/// The most sites whose changes are logged in a second.
const MOST_LINES: u32 = 100;

/// The ETRs in force of each keyed site, as last logged.
#[derive(Drop)]
pub struct LoggedSites {
    etrs: Vec<LocatorSet>,
}

impl LoggedSites {
    /// The current ETRs of these sites, as if they were logged.
    pub fn of(alloc: Global, sites: &[KeyedSite]) -> Result<LoggedSites, AllocError> {
        let mut etrs = Vec::with_capacity(alloc, sites.len())?;
        for site in sites {
            etrs.push(site.etrs_in_force())?;
        }
        Ok(LoggedSites { etrs })
    }

    /// The ETRs of no sites.
    pub fn none(alloc: Global) -> LoggedSites {
        LoggedSites {
            etrs: Vec::new(alloc),
        }
    }

    /// Logs the ETRs in force of each site where they have changed; of more than 100 sites at once, only the number of
    /// the others. If out of memory, they are logged the next time.
    pub fn log_changes(&mut self, rt: &HostRuntime, sites: &[KeyedSite], log: &mut Log) {
        if self.etrs.len() != sites.len() {
            if let Ok(fresh) = LoggedSites::of(rt.alloc(), sites) {
                *self = fresh;
            }
            return;
        }
        let mut changes = 0u32;
        for (logged, site) in self.etrs.iter_mut().zip(sites) {
            let etrs = site.etrs_in_force();
            if etrs != *logged {
                *logged = etrs;
                changes = changes.saturating_add(1);
                if changes <= MOST_LINES {
                    log.say(rt, Priority::Notice, site_text(rt.alloc(), site, etrs));
                }
            }
        }
        log_more(rt, changes.saturating_sub(MOST_LINES), log);
    }
}

/// Logs the number of changed sites without a line.
fn log_more(rt: &HostRuntime, changes: u32, log: &mut Log) {
    if changes > 0 {
        let line = format!(in rt.alloc(); "the ETRs of {changes} more sites have changed");
        log.say(rt, Priority::Notice, line);
    }
}
