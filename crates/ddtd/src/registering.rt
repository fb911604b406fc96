//! What a server does for registrations beside its rounds: the file of registrations, the log, the counts and `sites`.

use crate::command_line::ServeArgs;
use crate::log::Log;
use crate::registration_file::RegistrationFile;
use crate::site_changes::LoggedSites;
use ddt_daemon::ServerStatistics;
use ddt_daemon_text::{Message, not_added_text, registered_count, sites_text};
use ddt_map_server::{MapServer, RegisterCounts};
use ddt_path::Prefixed;
use ddt_registrar::{Clock, KeyedSite, Registrar};
use ddt_trie::HashedMap;
use std::alloc::{AllocError, Global};

/// The file of registrations and the logged ETRs of each site.
#[derive(Drop)]
pub struct Registering<'a> {
    /// Whether there is a file of keys.
    is_on: bool,
    file: RegistrationFile<'a>,
    logged: LoggedSites,
}

/// A registrar of these sites. Fails with a message for the first site that it refuses.
pub fn registrar_of(
    alloc: Global,
    sites: Vec<KeyedSite>,
) -> Result<Registrar<HashedMap<u32>>, Message> {
    let mut registrar = Registrar::new(alloc);
    for site in sites {
        let prefix = site.prefix();
        if let Err(fault) = registrar.add(site) {
            return Err(not_added_text(alloc, prefix, fault));
        }
    }
    Ok(registrar)
}

impl<'a> Registering<'a> {
    /// Writes the file of registrations anew, and notes the ETRs of these sites as logged.
    pub fn start(
        rt: &HostRuntime,
        args: &ServeArgs<'a>,
        sites: &[KeyedSite],
        clock: Clock,
    ) -> Result<Registering<'a>, Message> {
        let mut file = RegistrationFile::new(rt.alloc(), args.registrations);
        file.open(rt, sites, clock)?;
        let Ok(logged) = LoggedSites::of(rt.alloc(), sites) else {
            return Err(Err(AllocError));
        };
        Ok(Registering {
            is_on: args.keys.is_some(),
            file,
            logged,
        })
    }

    /// Continues with the sites of a reloaded configuration.
    pub fn renew(&mut self, rt: &HostRuntime, sites: &[KeyedSite], log: &mut Log) {
        self.file.renew(rt, log);
        self.logged = match LoggedSites::of(rt.alloc(), sites) {
            Ok(logged) => logged,
            Err(_refused) => LoggedSites::none(rt.alloc()),
        };
    }

    /// Writes to the file what has changed in a round.
    pub fn write_changes(
        &mut self,
        rt: &HostRuntime,
        server: &mut MapServer<HashedMap<u32>>,
        clock: Clock,
        log: &mut Log,
    ) {
        if self.is_on {
            let touched = server.changed_sites.prefixes();
            self.file
                .write_changes(rt, server.registrar(), touched, clock, log);
            server.changed_sites.clear();
        }
    }

    /// Ends expired registrations, and logs the sites whose ETRs have changed. `moment` is in milliseconds.
    pub fn end_expired(
        &mut self,
        rt: &HostRuntime,
        server: &mut MapServer<HashedMap<u32>>,
        moment: u64,
        log: &mut Log,
    ) {
        if self.is_on {
            server.end(rt.alloc(), moment);
            self.logged.log_changes(rt, server.registrar().sites(), log);
        }
    }

    /// The number of sites that have keys, and of those that are registered; empty without a file of keys.
    pub fn status_text(&self, alloc: Global, sites: &[KeyedSite]) -> Message {
        if !self.is_on {
            return Ok(String::new(alloc));
        }
        let keyed = sites.len();
        format!(in alloc;
            ", {keyed} with keys, {} registered",
            registered_count(sites)
        )
    }

    /// Corrects the counts of requests for Map-Registers. With keys they are left out; without keys they count as no
    /// request.
    pub fn correct_counts(&self, registers: RegisterCounts, statistics: &mut ServerStatistics) {
        let received = registers.received();
        let counts = &mut statistics.counts;
        counts.received = counts.received.saturating_add(received);
        if self.is_on {
            let others = &mut statistics.answers.not_encapsulated;
            *others = others.saturating_sub(received);
        } else {
            counts.no_request = counts.no_request.saturating_add(received);
        }
        let sent = &mut statistics.wires.sent;
        *sent = sent.saturating_sub(registers.notified);
    }

    /// The counts of Map-Registers, a line each; empty without a file of keys.
    pub fn statistics(&self, alloc: Global, server: &MapServer<HashedMap<u32>>) -> Message {
        if !self.is_on {
            return Ok(String::new(alloc));
        }
        let sites = server.registrar().sites();
        format!(in alloc;
            "{}now.keyed={}\nnow.registered={}\n",
            server.counts(),
            sites.len(),
            registered_count(sites)
        )
    }

    /// The answer to `sites`. `moment` is in milliseconds.
    pub fn answer(&self, alloc: Global, sites: &[KeyedSite], moment: u64) -> Message {
        if !self.is_on {
            return format!(in alloc; "refused: no site has a key\n");
        }
        sites_text(alloc, sites, moment)
    }
}
