//! `ddtd resolve SETTINGS`: the role of a Map-Resolver.

use crate::command_line::ResolveArgs;
use crate::control_socket::ControlRequest;
use crate::daemon::{Role, run};
use crate::exit_status::ExitStatus;
use crate::give_up_log::log_give_ups;
use crate::loading::load_settings;
use crate::log::{Log, Priority};
use crate::poll::Poll;
use crate::server_timeouts::{NearWires, TimeoutRound, log_silence, silent_count};
use crate::sockets::{FarWires, ResolverWires, Sockets};
use crate::system_clock::Moments;
use crate::unrecognized_afi_log::{MOST_MESSAGES, end_period, log_unrecognized};
use ddt_cache::{Entry, Moment};
use ddt_config::settings::Settings;
use ddt_daemon::{CountedWires, DaemonStatistics, MapResolver, ResolverStatistics};
use ddt_daemon_text::{Addresses, LogRateLimit, Message, warnings_of};
use ddt_path::Locator;
use ddt_resolver::Resolver;
use ddt_sockets::nonces::RandomNonces;
use ddt_sockets::{MOST_BYTES, ip_of};
use ddt_trie::TrieMap;
use rand::make_rng;
use rand_chacha::ChaCha20Rng;
use std::alloc::AllocError;

/// The longest wait for a datagram, in milliseconds.
const POLL_TIMEOUT_MS: u64 = 1000;

/// The most packets received before the deadlines are checked again.
const MOST_PACKETS: u32 = 64;

/// A Map-Resolver with its settings, sockets and clock.
#[derive(Drop)]
pub struct ResolverRole<'a> {
    /// The path of its settings.
    pub path: &'a str,
    pub resolver: MapResolver<TrieMap<Entry>>,
    pub settings: Settings,
    pub near: NearWires,
    pub far: CountedWires<FarWires>,
    /// Whether a socket that forwards requests of ITRs may have a datagram.
    pub is_far_ready: bool,
    pub buffer: Vec<u8>,
    pub moments: Moments,
    pub give_ups: LogRateLimit,
    pub unrecognized: LogRateLimit,
}

/// Resolves for ITRs until the command `stop`.
pub fn resolve(rt: &HostRuntime, args: &ResolveArgs<'_>, log: &mut Log) -> ExitStatus {
    let role = ResolverRole::start(rt, args.settings);
    run(rt, role, args.control, log)
}

/// Binds a socket of each kind at each address that has none: to listen, to ask, and to forward requests of ITRs.
pub fn bind_addresses(
    rt: &HostRuntime,
    addresses: &[Locator],
    near: &mut ResolverWires,
    far: &mut FarWires,
) -> Result<(), Message> {
    bind_each(rt, addresses, &mut near.listening)?;
    bind_each(rt, addresses, &mut near.asking)?;
    bind_each(rt, addresses, &mut far.sockets)
}

/// Binds a socket at each address that has none.
fn bind_each(
    rt: &HostRuntime,
    addresses: &[Locator],
    sockets: &mut Sockets,
) -> Result<(), Message> {
    for address in addresses {
        if let Err(error) = sockets.bind(rt, *address) {
            return Err(format!(in rt.alloc(); "{}: {error}", ip_of(*address)));
        }
    }
    Ok(())
}

/// Wires with a socket of each kind at each address.
fn wires_at(rt: &HostRuntime, addresses: &[Locator]) -> Result<(ResolverWires, FarWires), Message> {
    let mut near = ResolverWires::new(rt.alloc());
    let mut far = FarWires::new(rt.alloc());
    match bind_addresses(rt, addresses, &mut near, &mut far) {
        Ok(()) => Ok((near, far)),
        Err(why) => Err(why),
    }
}

/// A generator of unpredictable nonces. Fails if the system has no random numbers.
fn nonces(rt: &HostRuntime) -> Result<ChaCha20Rng, Message> {
    match make_rng::<ChaCha20Rng, _>(rt) {
        Ok(generator) => Ok(generator),
        Err(error) => Err(format!(in rt.alloc(); "no random numbers: {error}")),
    }
}

/// A resolver with an empty cache, which knows only the roots. Its first request has this nonce.
fn resolver_of(
    rt: &HostRuntime,
    settings: &Settings,
    nonce: u64,
) -> Result<Resolver<TrieMap<Entry>>, Message> {
    let Some(me) = settings.listen.as_slice().first() else {
        return Err(format!(in rt.alloc(); "it listens nowhere"));
    };
    if settings.roots.as_slice().is_empty() {
        return Err(format!(in rt.alloc(); "it knows no root"));
    }
    Ok(Resolver::new(rt.alloc(), settings.roots, *me, nonce))
}

fn map_resolver_of(
    rt: &HostRuntime,
    settings: &Settings,
) -> Result<MapResolver<TrieMap<Entry>>, Message> {
    let resolver = resolver_of(rt, settings, 1)?;
    match MapResolver::new(rt.alloc(), resolver) {
        Ok(resolver) => Ok(resolver),
        Err(_) => Err(Err(AllocError)),
    }
}

/// Replaces a resolver with one of these settings and an empty cache, which continues its nonces. Pending lookups end
/// without an answer.
pub fn renew(
    rt: &HostRuntime,
    resolver: &mut MapResolver<TrieMap<Entry>>,
    near: &mut NearWires,
    settings: &Settings,
) -> Result<(), Message> {
    let next = resolver.resolver().next_nonce();
    let renewed = resolver_of(rt, settings, next)?;
    match resolver.renew(renewed) {
        Ok(()) => {
            near.forget_all();
            Ok(())
        }
        Err(refused) => Err(Err(refused)),
    }
}

/// Logs the warnings about settings that are adopted.
fn warn(rt: &HostRuntime, path: &str, settings: &Settings, log: &mut Log) {
    let Ok(warnings) = warnings_of(rt.alloc(), settings) else {
        return;
    };
    for warning in warnings.as_slice() {
        let line = format!(in rt.alloc(); "{path}: {warning}");
        log.say(rt, Priority::Warning, line);
    }
}

/// A Map-Resolver without wires.
#[derive(Drop)]
struct UnwiredResolver {
    buffer: Vec<u8>,
    moments: Moments,
    resolver: MapResolver<TrieMap<Entry>>,
    generator: ChaCha20Rng,
}

impl UnwiredResolver {
    /// Starts with an empty cache.
    fn start(rt: &HostRuntime, settings: &Settings) -> Result<UnwiredResolver, Message> {
        let Ok(buffer) = Vec::from_elem(rt.alloc(), 0u8, MOST_BYTES) else {
            return Err(Err(AllocError));
        };
        let moments = Moments::new(rt)?;
        let resolver = map_resolver_of(rt, settings)?;
        match nonces(rt) {
            Ok(generator) => Ok(UnwiredResolver {
                buffer,
                moments,
                resolver,
                generator,
            }),
            Err(why) => Err(why),
        }
    }
}

impl<'a> ResolverRole<'a> {
    /// Reads the settings and binds the sockets.
    fn start(rt: &HostRuntime, path: &'a str) -> Result<ResolverRole<'a>, Message> {
        let settings = load_settings(rt, path)?;
        let (near, far) = wires_at(rt, settings.listen.as_slice())?;
        match UnwiredResolver::start(rt, &settings) {
            Ok(unwired) => Ok(ResolverRole {
                path,
                resolver: unwired.resolver,
                settings,
                near: RandomNonces::new(
                    rt.alloc(),
                    CountedWires::new(near),
                    unwired.generator,
                    false,
                ),
                far: CountedWires::new(far),
                is_far_ready: false,
                buffer: unwired.buffer,
                moments: unwired.moments,
                give_ups: LogRateLimit::new(),
                unrecognized: LogRateLimit::new(),
            }),
            Err(why) => Err(why),
        }
    }

    /// Receives a packet. Returns whether there was one, or one was lost.
    fn receive(&mut self, me: Locator, now: Moment) -> bool {
        if self.buffer.len() != MOST_BYTES {
            return false;
        }
        self.resolver.receive(
            &mut self.near,
            &mut self.far,
            &self.settings,
            me,
            now,
            self.buffer.as_mut_slice(),
        )
    }

    /// Receives packets, and then handles the lookups that are due or overdue.
    fn resolve(&mut self, now: Moment) {
        let me = self.resolver.resolver().me();
        self.near.set_time(now.millis());
        for _packet in 0..MOST_PACKETS {
            if !self.receive(me, now) {
                break;
            }
        }
        self.resolver
            .tick_due(&mut self.near, &mut self.far, me, now);
        TimeoutRound {
            resolver: &mut self.resolver,
            near: &mut self.near,
            far: &mut self.far,
            me,
            now,
        }
        .retry_overdue();
        if self.is_far_ready {
            self.far.wires.drain(self.buffer.as_mut_slice());
        }
    }

    /// Notes which sockets may have a datagram. Their places in the poll are those of `add_to`.
    fn note_ready(&mut self, poll: &Poll) {
        let near = &mut self.near.wires_mut().wires;
        let asking = near.listening.len();
        let far = asking.saturating_add(near.asking.len());
        let end = far.saturating_add(self.far.wires.sockets.len());
        near.note_ready(poll.may_be_ready(0..asking), poll.may_be_ready(asking..far));
        self.is_far_ready = poll.may_be_ready(far..end);
    }

    /// Logs the messages that were dropped for their AFI.
    fn log_unrecognized(&mut self, rt: &HostRuntime, now: Moment, log: &mut Log) {
        let said = &mut self.unrecognized;
        said.miss(self.resolver.take_missed_unrecognized());
        end_period(rt, said, now.millis(), log);
        for _message in 0..MOST_MESSAGES {
            let Some(one) = self.resolver.take_unrecognized() else {
                return;
            };
            log_unrecognized(rt, said, one, log);
        }
    }
}

impl<'a> Role for ResolverRole<'a> {
    fn add_to(&self, poll: &mut Poll) {
        let near = &self.near.wires().wires;
        near.listening.add_to(poll);
        near.asking.add_to(poll);
        self.far.wires.sockets.add_to(poll);
    }

    /// The time until the next deadline, at most a second.
    fn poll_timeout_ms(&mut self, rt: &HostRuntime) -> i32 {
        let now = self.moments.now(rt).millis();
        let deadline = self.resolver.resolver().next_deadline();
        let due = deadline
            .unwrap_or(u64::MAX)
            .min(self.near.next_timer().unwrap_or(u64::MAX));
        due.saturating_sub(now).min(POLL_TIMEOUT_MS) as i32
    }

    fn round(&mut self, rt: &HostRuntime, poll: &Poll, log: &mut Log) -> bool {
        let now = self.moments.now(rt);
        self.note_ready(poll);
        self.resolve(now);
        log_silence(rt, &mut self.near, log);
        log_give_ups(rt, &mut self.give_ups, &mut self.resolver, now, log);
        self.log_unrecognized(rt, now, log);
        false
    }

    fn reload(&mut self, rt: &HostRuntime, _log: &mut Log) -> Result<(), Message> {
        self.reload_settings(rt)
    }

    fn status_text(&self, rt: &HostRuntime) -> Message {
        let addresses = Addresses(self.settings.listen.as_slice());
        format!(in rt.alloc(); "resolving{addresses}")
    }

    fn log_warnings(&mut self, rt: &HostRuntime, log: &mut Log) {
        warn(rt, self.path, &self.settings, log);
    }

    fn source_name(&self) -> &'static str {
        "settings"
    }

    fn statistics(&self, rt: &HostRuntime, daemon: DaemonStatistics) -> Message {
        let near = &self.near.wires().wires;
        let statistics = ResolverStatistics {
            daemon,
            counts: self.resolver.counts(),
            near: self.near.wires().counts,
            far: self.far.counts,
            strays: near.strays,
            unasked: self.near.unasked(),
            silent: silent_count(&self.near, self.resolver.resolver().time()),
            sockets: near.listening.len() as u64,
            pending: self.resolver.resolver().pending() as u64,
            waiting: self.resolver.waiting() as u64,
            remembered: self.resolver.resolver().remembered() as u64,
        };
        format!(in rt.alloc(); "{statistics}")
    }

    fn answer(&mut self, rt: &HostRuntime, request: &ControlRequest, log: &mut Log) -> Message {
        self.run_command(rt, request, log)
    }
}
