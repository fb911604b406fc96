//! Reloading: reads the files of a server or a resolver again, compares them with what is in force, and adopts them. If
//! one is refused, what is in force stays in force, and the log and the answer have the reason.
//!
//! `Daemon::reload` has the steps that both roles share. `ServerRole::reload_configuration` and
//! `ResolverRole::reload_settings` have those of one role.

use crate::daemon::{Daemon, Role};
use crate::input_file::with_path;
use crate::loading::{load_configuration, load_server_settings, load_settings};
use crate::log::{Log, Priority};
use crate::map_resolver::{ResolverRole, bind_addresses, renew};
use crate::registering::registrar_of;
use crate::server::{ServerRole, addresses_in, bind_locators, locators_served, log_unknown_keys};
use crate::site_keys::load_keyed_sites;
use crate::system_clock::seconds;
use crate::systemd_notify::{State, notify};
use ddt_config::settings::Settings;
use ddt_config::{PlacedFault, ServerConfig};
use ddt_daemon_text::{LoadedConfiguration, Message, fault_text, name_text, printable, role_text};
use ddt_path::Locator;
use ddt_registrar::Registrar;
use ddt_trie::HashedMap;

impl<R: Role> Daemon<R> {
    /// Reloads the role's files, and logs and returns the result: `reloaded`, or `refused` with the reason.
    pub fn reload(&mut self, rt: &HostRuntime, log: &mut Log) -> Message {
        notify(rt, State::Reloading);
        let adopted = self.role.reload(rt, log);
        let answer = match adopted {
            Ok(()) => {
                self.times.reload = seconds(rt);
                self.log_status(rt, "reloaded", log);
                format!(in rt.alloc(); "reloaded\n")
            }
            Err(why) => self.refuse(rt, why, log),
        };
        notify(rt, State::Ready);
        answer
    }

    /// Counts and logs a refused reload, and returns the answer.
    fn refuse(&mut self, rt: &HostRuntime, why: Message, log: &mut Log) -> Message {
        self.refused = self.refused.saturating_add(1);
        let why = printable(rt.alloc(), &why?)?;
        let file = self.role.source_name();
        let line = format!(in rt.alloc(); "refused, the old {file} {}: {why}", goes_on(file));
        log.say(rt, Priority::Warning, line);
        format!(in rt.alloc(); "refused: {why}\n")
    }
}

/// The verb after the name of a file: "go on" after a plural such as settings.
fn goes_on(file: &str) -> &'static str {
    if file.ends_with('s') {
        "go on"
    } else {
        "goes on"
    }
}

impl<'a> ServerRole<'a> {
    /// Reads the configuration, the settings and the keys again, and adopts them. Sockets are bound and closed as the
    /// configuration in force has its locators. If anything is refused, all stays as it is.
    pub fn reload_configuration(&mut self, rt: &HostRuntime, log: &mut Log) -> Result<(), Message> {
        let loaded = load_configuration(rt, self.args.config)?;
        let settings = load_server_settings(rt, self.args.settings)?;
        log_unknown_keys(rt, self.args.config, loaded.unknown.as_slice(), log);
        let adopted = self.adopt(rt, loaded);
        if adopted.is_ok() {
            self.settings = settings;
            self.unbound.clear();
            let sites = self.server.registrar().sites();
            self.registering.renew(rt, sites, log);
        }
        adopted
    }

    /// Adopts a configuration with the keys of its sites.
    fn adopt(&mut self, rt: &HostRuntime, loaded: LoadedConfiguration) -> Result<(), Message> {
        let (addresses, registrar) = self.prepare(rt, &loaded.config)?;
        let adopted = self.adopt_at(rt, loaded, registrar, &addresses);
        // Only the sockets of the configuration that is now in force stay open.
        let places = locators_served(&addresses, self.server.server().locators());
        self.wires.wires.wires.sockets.keep(places);
        adopted
    }

    /// The addresses to serve a configuration at, from the arguments, and a registrar of its sites with keys.
    fn prepare(
        &self,
        rt: &HostRuntime,
        config: &ServerConfig,
    ) -> Result<(Vec<Locator>, Registrar<HashedMap<u32>>), Message> {
        self.expect_group(rt, config)?;
        let addresses = addresses_in(rt, self.args, config)?;
        let sites = load_keyed_sites(rt, self.args.keys, config)?;
        match registrar_of(rt.alloc(), sites) {
            Ok(registrar) => Ok((addresses, registrar)),
            Err(why) => Err(why),
        }
    }

    /// Refuses a configuration of another group or kind than the running one.
    fn expect_group(&self, rt: &HostRuntime, config: &ServerConfig) -> Result<(), Message> {
        let path = self.args.config;
        let own = self.server.server();
        if config.name != *own.name() {
            let (name, running) = (name_text(&config.name), name_text(own.name()));
            return Err(format!(in rt.alloc();
                "{path}: its name is {name}, and {running} is running"
            ));
        }
        if config.role != own.role() {
            let (kind, running) = (role_text(config.role), role_text(own.role()));
            return Err(format!(in rt.alloc();
                "{path}: its kind is {kind}, and a server of kind {running} is running"
            ));
        }
        Ok(())
    }

    /// Binds a socket at each locator of a configuration that has none, and adopts the configuration.
    fn adopt_at(
        &mut self,
        rt: &HostRuntime,
        loaded: LoadedConfiguration,
        registrar: Registrar<HashedMap<u32>>,
        addresses: &[Locator],
    ) -> Result<(), Message> {
        let places = locators_served(addresses, &loaded.config.locators);
        bind_locators(rt, self.args, places, &mut self.wires.wires.wires.sockets)?;
        let summary = loaded.summary;
        match self.server.adopt(rt.alloc(), loaded.config, registrar) {
            Ok(()) => {
                self.summary = summary;
                Ok(())
            }
            Err(fault) => {
                let text = fault_text(rt.alloc(), &PlacedFault::of_whole(fault));
                Err(with_path(rt, self.args.config, text))
            }
        }
    }
}

impl<'a> ResolverRole<'a> {
    /// Reads the settings again and adopts them. If they are refused, all stays as it is.
    pub fn reload_settings(&mut self, rt: &HostRuntime) -> Result<(), Message> {
        let settings = load_settings(rt, self.path)?;
        let adopted = self.adopt_settings(rt, &settings);
        if adopted.is_ok() {
            self.settings = settings;
        }
        // Only the sockets of the settings that are now in force stay open.
        let listen = self.settings.listen.as_slice();
        let near = &mut self.near.wires_mut().wires;
        near.listening.keep(listen);
        near.asking.keep(listen);
        self.far.wires.sockets.keep(listen);
        adopted
    }

    /// Binds a socket at each new address, and adopts the settings but for keeping them. The cache and the pending
    /// lookups stay if the roots and the resolver's first own address are the same.
    fn adopt_settings(&mut self, rt: &HostRuntime, settings: &Settings) -> Result<(), Message> {
        let listen = settings.listen.as_slice();
        let near = &mut self.near.wires_mut().wires;
        bind_addresses(rt, listen, near, &mut self.far.wires)?;
        let is_same = settings.roots == self.settings.roots
            && listen.first() == self.settings.listen.as_slice().first();
        if is_same {
            return Ok(());
        }
        renew(rt, &mut self.resolver, &mut self.near, settings)
    }
}
