//! The commands at the control socket, for both roles: what each one does, and its answer.

use crate::control_socket::ControlRequest;
use crate::daemon::{Daemon, Role};
use crate::log::{Log, Priority};
use crate::map_resolver::{ResolverRole, renew};
use crate::server::ServerRole;
use crate::system_clock::seconds;
use ddt_cache::Moment;
use ddt_daemon::{ControlWord, DaemonStatistics};
use ddt_daemon_text::{Message, cache_text, entry_text, is_live, prefix_in, servers_text};
use ddt_text::parse_xeid;

impl<R: Role> Daemon<R> {
    /// Runs the next command at the control socket, if there is one. Returns whether it was `stop`.
    pub fn handle_control(&mut self, rt: &HostRuntime, first: usize, log: &mut Log) -> bool {
        let Some(request) = self.control.take(&self.poll, first, seconds(rt)) else {
            return false;
        };
        let is_stop = request.word == Some(ControlWord::Stop) && request.argument.is_empty();
        let answer = self.answer(rt, &request, log);
        self.control.answer(request, answer);
        is_stop
    }

    /// Runs a command: those that both roles share here, the others as the role does.
    fn answer(&mut self, rt: &HostRuntime, request: &ControlRequest, log: &mut Log) -> Message {
        match request.word {
            Some(ControlWord::Stats | ControlWord::Reload | ControlWord::Sites | ControlWord::Stop)
                if !request.argument.is_empty() => {
                format!(in rt.alloc(); "refused: the word takes nothing after it\n")
            }
            Some(ControlWord::Stats) => self.statistics(rt, log),
            Some(ControlWord::Reload) => self.reload(rt, log),
            Some(ControlWord::Stop) => format!(in rt.alloc(); "stopping\n"),
            Some(_) => self.role.answer(rt, request, log),
            None => format!(in rt.alloc(); "refused: no such word\n"),
        }
    }

    /// The answer to `stats`: a line `name=value` for each count.
    fn statistics(&self, rt: &HostRuntime, log: &Log) -> Message {
        let daemon = DaemonStatistics {
            times: self.times,
            refused: self.refused,
            unlogged: log.lost(),
        };
        self.role.statistics(rt, daemon)
    }
}

impl<'a> ServerRole<'a> {
    /// Runs a command of a server: `sites`.
    pub fn run_command(&mut self, rt: &HostRuntime, request: &ControlRequest) -> Message {
        if request.word == Some(ControlWord::Sites) {
            let moment = self.moments.now(rt).millis();
            let sites = self.server.registrar().sites();
            return self.registering.answer(rt.alloc(), sites, moment);
        }
        format!(in rt.alloc(); "refused: only a resolver knows servers and has a cache\n")
    }
}

impl<'a> ResolverRole<'a> {
    /// Runs a command of a resolver: `flush`, `servers`, `cache` or `lookup`.
    pub fn run_command(
        &mut self,
        rt: &HostRuntime,
        request: &ControlRequest,
        log: &mut Log,
    ) -> Message {
        let now = self.moments.now(rt);
        match request.word {
            Some(ControlWord::Flush) => self.flush(rt, &request.argument, log),
            Some(ControlWord::Servers) if request.argument.is_empty() => {
                servers_text(rt.alloc(), self.near.servers().as_slice(), now)
            }
            Some(ControlWord::Cache) => {
                cache_text(rt.alloc(), self.resolver.resolver(), &request.argument, now)
            }
            Some(ControlWord::Lookup) => self.lookup(rt, &request.argument, now),
            Some(ControlWord::Sites) => {
                format!(in rt.alloc(); "refused: only a server has sites\n")
            }
            _ => format!(in rt.alloc(); "refused: no such word\n"),
        }
    }

    /// The longest match in the cache for an identifier, or the root's servers.
    fn lookup(&mut self, rt: &HostRuntime, argument: &str, now: Moment) -> Message {
        let Ok(xeid) = parse_xeid(argument.as_bytes()) else {
            return format!(in rt.alloc(); "refused: {argument} is no identifier\n");
        };
        let (prefix, entry) = self.resolver.longest(now, xeid);
        entry_text(rt.alloc(), prefix, &entry, now)
    }

    /// Drops cached referrals: those inside a prefix, or without one all of them, and then the pending lookups too.
    fn flush(&mut self, rt: &HostRuntime, argument: &str, log: &mut Log) -> Message {
        if !argument.is_empty() {
            return self.flush_inside(rt, argument, log);
        }
        match renew(rt, &mut self.resolver, &mut self.near, &self.settings) {
            Ok(()) => {
                log.say(rt, Priority::Notice, format!(in rt.alloc(); "flushed"));
                format!(in rt.alloc(); "flushed\n")
            }
            Err(why) => {
                let why = why?;
                format!(in rt.alloc(); "refused: {why}\n")
            }
        }
    }
    /// Drops the cached referrals inside a prefix.
    fn flush_inside(&mut self, rt: &HostRuntime, argument: &str, log: &mut Log) -> Message {
        let now = self.moments.now(rt);
        let Some(within) = prefix_in(argument) else {
            return format!(in rt.alloc(); "refused: {argument} is no prefix\n");
        };
        let Ok(entries) = self.resolver.resolver().inside(within) else {
            return format!(in rt.alloc(); "refused: out of memory\n");
        };
        let mut count = 0u64;
        for (prefix, entry) in entries.as_slice() {
            if self.resolver.forget(*prefix) && is_live(entry, now) {
                count = count.saturating_add(1);
            }
        }
        let line = format!(in rt.alloc(); "flushed {argument}: {count}");
        log.say(rt, Priority::Notice, line);
        format!(in rt.alloc(); "flushed {count}\n")
    }
}
