//! `ddtd serve CONFIG [ADDRESS..]`: the role of a server, a DDT node or a Map-Server.

use crate::command_line::ServeArgs;
use crate::control_socket::ControlRequest;
use crate::daemon::{Role, run};
use crate::exit_status::ExitStatus;
use crate::file_watch::Watches;
use crate::input_file::with_path;
use crate::loading::{load_configuration, load_server_settings};
use crate::log::{Log, Priority};
use crate::poll::Poll;
use crate::registering::{Registering, registrar_of};
use crate::registration_file::restore;
use crate::site_keys::load_keyed_sites;
use crate::sockets::{ServerWires, Sockets};
use crate::system_clock::Moments;
use crate::unbound_locators::UnboundLocators;
use crate::unrecognized_afi_log::{MOST_MESSAGES, end_period, log_unrecognized};
use ddt_config::settings::ServerSettings;
use ddt_config::{PlacedFault, ServerConfig};
use ddt_daemon::{CountedAnswers, CountedWires, DaemonStatistics, ServerSocket, ServerStatistics};
use ddt_daemon_text::{
    Addresses, ConfigurationSummary, LogRateLimit, Message, UnknownKey, fault_text, name_text,
};
use ddt_ecm::CONTROL_PORT;
use ddt_map_server::MapServer;
use ddt_node::Server;
use ddt_path::{Locator, LocatorSet};
use ddt_registrar::{Clock, Registrar};
use ddt_sockets::{MOST_BYTES, ip_of};
use ddt_text::parse_locator;
use ddt_trie::HashedMap;
use std::alloc::{AllocError, Global};
use std::io;
use std::io::ErrorKind;

/// The longest wait for a datagram, in milliseconds.
const POLL_TIMEOUT_MS: i32 = 1000;

/// The most turns at one socket before the next socket's turn.
const TURNS_PER_SOCKET: u32 = 64;

/// A server with its configuration, sockets and clock.
#[derive(Drop)]
pub struct ServerRole<'a> {
    pub args: &'a ServeArgs<'a>,
    /// The server with its registrations; without keys it never has any.
    pub server: MapServer<HashedMap<u32>>,
    /// The counts and the digest of the configuration.
    pub summary: ConfigurationSummary,
    pub wires: CountedAnswers<CountedWires<ServerWires>>,
    pub buffer: Vec<u8>,
    pub settings: ServerSettings,
    pub registering: Registering<'a>,
    pub moments: Moments,
    pub unrecognized: LogRateLimit,
    pub watches: Watches<'a>,
    pub unbound: UnboundLocators,
    /// The second of the last check for what changes by itself (`check_each_second`).
    pub second: u64,
}

/// Serves the configuration until the command `stop`.
pub fn serve(rt: &HostRuntime, args: &ServeArgs<'_>, log: &mut Log) -> ExitStatus {
    let role = ServerRole::start(rt, args, log);
    run(rt, role, args.control, log)
}

/// The addresses to serve at, from the arguments. Each must be a locator of the configuration.
pub fn addresses_in(
    rt: &HostRuntime,
    args: &ServeArgs<'_>,
    config: &ServerConfig,
) -> Result<Vec<Locator>, Message> {
    let mut addresses = Vec::new(rt.alloc());
    for word in args.addresses.as_slice() {
        let Ok(address) = parse_locator(word.as_bytes()) else {
            return Err(format!(in rt.alloc(); "{word} is no address"));
        };
        if !config.locators.as_slice().contains(&address) {
            return Err(format!(in rt.alloc(); "{word} is no locator of {}", args.config));
        }
        if addresses.push(address).is_err() {
            return Err(Err(AllocError));
        }
    }
    Ok(addresses)
}

/// The locators to serve at: those given, or if there are none, all locators of the group.
pub fn locators_served<'a>(given: &'a [Locator], own: &'a LocatorSet) -> &'a [Locator] {
    if given.is_empty() {
        own.as_slice()
    } else {
        given
    }
}

/// Binds a socket at each address that has none. If no addresses were chosen, those that aren't this machine's are
/// skipped; at least one must be bound.
pub fn bind_locators(
    rt: &HostRuntime,
    args: &ServeArgs<'_>,
    addresses: &[Locator],
    sockets: &mut Sockets,
) -> Result<(), Message> {
    let is_chosen = !args.addresses.is_empty();
    for address in addresses {
        match bind(rt, *address, sockets) {
            Err(error) if !is_chosen && error.kind() == ErrorKind::AddrNotAvailable => {}
            Err(error) => return Err(format!(in rt.alloc(); "{}: {error}", ip_of(*address))),
            Ok(()) => {}
        }
    }
    if !addresses.iter().any(|address| sockets.has(*address)) {
        return Err(no_place_text(rt, args.config, addresses));
    }
    Ok(())
}

/// The message that no locator of a configuration is an address of this machine.
fn no_place_text(rt: &HostRuntime, path: &str, locators: &[Locator]) -> Message {
    let addresses = Addresses(locators);
    format!(in rt.alloc(); "{path}: no locator is this machine's:{addresses}")
}

/// Logs the unknown keys of the configuration.
pub fn log_unknown_keys(rt: &HostRuntime, path: &str, unknown: &[UnknownKey], log: &mut Log) {
    for key in unknown {
        log.say(
            rt,
            Priority::Warning,
            format!(in rt.alloc(); "{path}: {key}"),
        );
    }
}

/// Binds a socket at an address. Refuses a wildcard.
fn bind(rt: &HostRuntime, address: Locator, sockets: &mut Sockets) -> io::Result<()> {
    if ip_of(address).is_unspecified() {
        return Err(ErrorKind::InvalidInput.into());
    }
    sockets.bind(rt, address)
}

/// The sockets at the addresses to serve at.
fn bound_sockets(
    rt: &HostRuntime,
    args: &ServeArgs<'_>,
    config: &ServerConfig,
) -> Result<Sockets, Message> {
    let addresses = addresses_in(rt, args, config)?;
    let mut sockets = Sockets::new(rt.alloc(), CONTROL_PORT).shared(args.is_shared);
    let places = locators_served(&addresses, &config.locators);
    match bind_locators(rt, args, places, &mut sockets) {
        Ok(()) => Ok(sockets),
        Err(why) => Err(why),
    }
}

/// A registrar of the sites of a configuration that have keys, with the registrations that their file has.
fn restored_registrar(
    rt: &HostRuntime,
    args: &ServeArgs<'_>,
    config: &ServerConfig,
    clock: Clock,
    log: &mut Log,
) -> Result<Registrar<HashedMap<u32>>, Message> {
    let mut sites = load_keyed_sites(rt, args.keys, config)?;
    let unread = restore(rt, args.registrations, sites.as_mut_slice(), clock)?;
    if unread > 0 {
        let path = args.registrations.unwrap_or("");
        let line = format!(in rt.alloc(); "{path}: {unread} lines are not of its form");
        log.say(rt, Priority::Warning, line);
    }
    registrar_of(rt.alloc(), sites)
}

/// A Map-Server of a configuration, with the registrations of a registrar that aren't over.
fn map_server_of(
    rt: &HostRuntime,
    path: &str,
    config: ServerConfig,
    registrar: Registrar<HashedMap<u32>>,
    moment: u64,
) -> Result<MapServer<HashedMap<u32>>, Message> {
    let server = match Server::of_config(rt.alloc(), config) {
        Ok(server) => server,
        Err(fault) => {
            let text = fault_text(rt.alloc(), &PlacedFault::of_whole(fault));
            return Err(with_path(rt, path, text));
        }
    };
    let mut server = MapServer::new(rt.alloc(), server, registrar);
    server.end(rt.alloc(), moment);
    Ok(server)
}

/// The files to watch, if the server is to watch any.
fn watches_of<'a>(rt: &HostRuntime, args: &ServeArgs<'a>) -> Result<Watches<'a>, Message> {
    let mut watches = Watches::new(rt.alloc());
    if args.is_watched {
        let paths = [Some(args.config), args.keys, args.settings];
        for path in paths.into_iter().flatten() {
            watches.add(rt, path).map_err(Err)?;
        }
    }
    Ok(watches)
}

/// A Map-Server with its sockets and registrations.
#[derive(Drop)]
struct BoundServer<'a> {
    server: MapServer<HashedMap<u32>>,
    summary: ConfigurationSummary,
    wires: ServerWires,
    registering: Registering<'a>,
    moments: Moments,
    second: u64,
}

impl<'a> BoundServer<'a> {
    /// Reads the configuration, binds the sockets and restores the registrations.
    fn start(
        rt: &HostRuntime,
        args: &ServeArgs<'a>,
        log: &mut Log,
    ) -> Result<BoundServer<'a>, Message> {
        let loaded = load_configuration(rt, args.config)?;
        log_unknown_keys(rt, args.config, loaded.unknown.as_slice(), log);
        let mut moments = Moments::new(rt)?;
        let clock = moments.clock(rt);
        let sockets = bound_sockets(rt, args, &loaded.config)?;
        match BoundServer::register(rt, args, loaded.config, clock, log) {
            Ok((server, registering)) => Ok(BoundServer {
                server,
                summary: loaded.summary,
                wires: ServerWires { sockets },
                registering,
                moments,
                second: clock.moment / 1000,
            }),
            Err(why) => Err(why),
        }
    }

    /// The Map-Server of a configuration with its registrations, and their file.
    fn register(
        rt: &HostRuntime,
        args: &ServeArgs<'a>,
        config: ServerConfig,
        clock: Clock,
        log: &mut Log,
    ) -> Result<(MapServer<HashedMap<u32>>, Registering<'a>), Message> {
        let registrar = restored_registrar(rt, args, &config, clock, log)?;
        let server = map_server_of(rt, args.config, config, registrar, clock.moment)?;
        match Registering::start(rt, args, server.registrar().sites(), clock) {
            Ok(registering) => Ok((server, registering)),
            Err(why) => Err(why),
        }
    }
}

impl<'a> ServerRole<'a> {
    /// Reads the files, binds the sockets and restores the registrations.
    fn start(
        rt: &HostRuntime,
        args: &'a ServeArgs<'a>,
        log: &mut Log,
    ) -> Result<ServerRole<'a>, Message> {
        let watches = watches_of(rt, args)?;
        let settings = load_server_settings(rt, args.settings)?;
        let Ok(buffer) = Vec::from_elem(rt.alloc(), 0u8, MOST_BYTES) else {
            return Err(Err(AllocError));
        };
        match BoundServer::start(rt, args, log) {
            Ok(bound) => Ok(ServerRole {
                args,
                server: bound.server,
                summary: bound.summary,
                wires: CountedAnswers::new(CountedWires::new(bound.wires)),
                buffer,
                settings,
                registering: bound.registering,
                moments: bound.moments,
                unrecognized: LogRateLimit::new(),
                watches,
                unbound: UnboundLocators::new(rt.alloc()),
                second: bound.second,
            }),
            Err(why) => Err(why),
        }
    }

    fn sockets(&self) -> &Sockets {
        &self.wires.wires.wires.sockets
    }

    /// Once a second, ends expired registrations, looks at the watched files, and binds the locators that have no
    /// socket. Returns whether a watched file has changed.
    fn check_each_second(&mut self, rt: &HostRuntime, clock: Clock, log: &mut Log) -> bool {
        let second = clock.moment / 1000;
        if second == self.second {
            return false;
        }
        self.second = second;
        self.registering
            .end_expired(rt, &mut self.server, clock.moment, log);
        if self.watches.have_changed(rt) {
            return true;
        }
        self.bind_unbound(rt, log);
        false
    }

    /// Binds a socket at each locator that has none, unless the addresses were chosen.
    fn bind_unbound(&mut self, rt: &HostRuntime, log: &mut Log) {
        if self.args.addresses.is_empty() {
            let locators = self.server.server().locators().as_slice();
            let sockets = &mut self.wires.wires.wires.sockets;
            self.unbound.bind(rt, locators, sockets, log);
        }
    }

    /// Serves turns at the socket of a place.
    fn serve_at(&mut self, alloc: Global, place: usize, moment: u64) {
        if self.buffer.len() != MOST_BYTES {
            return;
        }
        if let Some(at) = self.sockets().at(place) {
            let door = ServerSocket {
                alloc,
                at,
                settings: &self.settings,
            };
            self.server.serve_ready(
                &mut self.wires,
                &door,
                moment,
                TURNS_PER_SOCKET,
                self.buffer.as_mut_slice(),
            );
        }
    }

    /// Logs the requests that were dropped for their AFI.
    fn log_unrecognized(&mut self, rt: &HostRuntime, log: &mut Log) {
        let said = &mut self.unrecognized;
        said.miss(self.server.done.take_missed_unrecognized());
        end_period(rt, said, self.second.saturating_mul(1000), log);
        for _message in 0..MOST_MESSAGES {
            let Some(one) = self.server.done.take_unrecognized() else {
                return;
            };
            log_unrecognized(rt, said, one, log);
        }
    }
}

impl<'a> Role for ServerRole<'a> {
    fn add_to(&self, poll: &mut Poll) {
        self.sockets().add_to(poll);
    }

    fn poll_timeout_ms(&mut self, _rt: &HostRuntime) -> i32 {
        POLL_TIMEOUT_MS
    }

    /// Serves each socket that has a datagram.
    fn round(&mut self, rt: &HostRuntime, poll: &Poll, log: &mut Log) -> bool {
        let clock = self.moments.clock(rt);
        for place in 0..self.sockets().len() {
            if poll.is_ready(place) {
                self.serve_at(rt.alloc(), place, clock.moment);
            }
        }
        self.registering
            .write_changes(rt, &mut self.server, clock, log);
        self.log_unrecognized(rt, log);
        self.check_each_second(rt, clock, log)
    }

    fn status_text(&self, rt: &HostRuntime) -> Message {
        let sites = self.server.registrar().sites();
        let registered = self.registering.status_text(rt.alloc(), sites)?;
        let name = name_text(self.server.server().name());
        let (sockets, summary) = (self.sockets(), self.summary);
        format!(in rt.alloc(); "{name}{sockets}, {summary}{registered}")
    }

    fn reload(&mut self, rt: &HostRuntime, log: &mut Log) -> Result<(), Message> {
        self.reload_configuration(rt, log)
    }

    /// Logs which locators aren't served.
    fn log_warnings(&mut self, rt: &HostRuntime, log: &mut Log) {
        self.bind_unbound(rt, log);
    }

    fn source_name(&self) -> &'static str {
        "configuration"
    }

    fn statistics(&self, rt: &HostRuntime, daemon: DaemonStatistics) -> Message {
        let holds = self.summary.seal.counts;
        let mut statistics = ServerStatistics {
            daemon,
            counts: self.server.done.counts,
            answers: self.wires.answers,
            wires: self.wires.wires.counts,
            sockets: self.sockets().len() as u64,
            authorities: u64::from(holds.authorities),
            children: u64::from(holds.children),
            sites: u64::from(holds.sites),
        };
        self.registering
            .correct_counts(self.server.counts(), &mut statistics);
        let registers = self.registering.statistics(rt.alloc(), &self.server)?;
        format!(in rt.alloc(); "{statistics}{registers}")
    }

    fn answer(&mut self, rt: &HostRuntime, request: &ControlRequest, _log: &mut Log) -> Message {
        self.run_command(rt, request)
    }
}
