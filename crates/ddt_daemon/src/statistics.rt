//! The statistics of a daemon, printed as lines `name=value`.

use crate::answers::AnswerCounts;
use crate::counted_wires::WireCounts;
use crate::counts::{ResolverCounts, ServerCounts};
use std::fmt;

/// The times of a daemon, in seconds since 1970.
#[derive(Clone, Copy, Debug, Default, PartialEq, Eq)]
pub struct Times {
    /// The start of the daemon.
    pub start: u64,
    /// The last reload of the configuration or the settings.
    pub reload: u64,
}

impl fmt::Display for Times {
    fn fmt<W: fmt::Write>(&self, f: &mut fmt::Formatter<W>) -> fmt::Result {
        write!(
            f,
            "time.start={}\ntime.reload={}\n",
            self.start, self.reload
        )
    }
}

/// The statistics of either role.
#[derive(Clone, Copy, Debug, Default, PartialEq, Eq)]
pub struct DaemonStatistics {
    pub times: Times,
    /// Reloads that were refused.
    pub refused: u64,
    /// Lost lines of the log.
    pub unlogged: u64,
}

impl DaemonStatistics {
    /// Writes the counts of refused reloads and lost lines.
    fn write_losses<W: fmt::Write>(&self, f: &mut fmt::Formatter<W>) -> fmt::Result {
        write!(f, "num.reload.refused={}\n", self.refused)?;
        write!(f, "num.log.lost={}\n", self.unlogged)
    }
}

/// The statistics of a server.
#[derive(Clone, Copy, Debug, Default, PartialEq, Eq)]
pub struct ServerStatistics {
    pub daemon: DaemonStatistics,
    pub counts: ServerCounts,
    pub answers: AnswerCounts,
    pub wires: WireCounts,
    /// Addresses at which it serves.
    pub sockets: u64,
    /// The authorities of its configuration.
    pub authorities: u64,
    /// The children of all its authorities.
    pub children: u64,
    /// The sites of all its authorities.
    pub sites: u64,
}

impl ServerStatistics {
    /// The number of received Encapsulated Control Messages that aren't requests.
    fn no_request(&self) -> u64 {
        self.counts
            .no_request
            .saturating_sub(self.answers.not_encapsulated)
    }
}

impl fmt::Display for AnswerCounts {
    fn fmt<W: fmt::Write>(&self, f: &mut fmt::Formatter<W>) -> fmt::Result {
        write!(f, "num.answer.nodereferral={}\n", self.node_referral)?;
        write!(f, "num.answer.msreferral={}\n", self.ms_referral)?;
        write!(f, "num.answer.msack={}\n", self.ms_ack)?;
        write!(f, "num.answer.notregistered={}\n", self.not_registered)?;
        write!(f, "num.answer.hole={}\n", self.hole)?;
        write!(
            f,
            "num.answer.notauthoritative={}\n",
            self.not_authoritative
        )?;
        write!(f, "num.ignored.notencapsulated={}\n", self.not_encapsulated)
    }
}

impl fmt::Display for ServerStatistics {
    fn fmt<W: fmt::Write>(&self, f: &mut fmt::Formatter<W>) -> fmt::Result {
        let forwarded = self.wires.sent.saturating_sub(self.counts.replied);
        write!(f, "{}", self.daemon.times)?;
        write!(f, "num.received={}\n", self.counts.received)?;
        write!(f, "num.replied={}\n", self.counts.replied)?;
        write!(f, "num.forwarded={forwarded}\n")?;
        write!(f, "num.unreceived={}\n", self.wires.unreceived)?;
        write!(f, "num.unsent={}\n", self.wires.unsent)?;
        write!(f, "{}", self.answers)?;
        write!(f, "num.ignored.norequest={}\n", self.no_request())?;
        write!(
            f,
            "num.ignored.unrecognizedafi={}\n",
            self.counts.unrecognized_afi
        )?;
        write!(f, "num.ignored.probe={}\n", self.counts.probe)?;
        write!(f, "num.ignored.denied={}\n", self.counts.denied)?;
        write!(f, "num.clients={}\n", self.counts.clients)?;
        write!(f, "num.itrs={}\n", self.counts.itrs)?;
        write!(f, "now.sockets={}\n", self.sockets)?;
        write!(f, "now.authorities={}\n", self.authorities)?;
        write!(f, "now.children={}\n", self.children)?;
        write!(f, "now.sites={}\n", self.sites)?;
        self.daemon.write_losses(f)
    }
}

/// The statistics of a resolver.
#[derive(Clone, Copy, Debug, Default, PartialEq, Eq)]
pub struct ResolverStatistics {
    pub daemon: DaemonStatistics,
    pub counts: ResolverCounts,
    pub near: WireCounts,
    pub far: WireCounts,
    /// Addresses where it listens.
    pub sockets: u64,
    /// Lookups that are pending.
    pub pending: u64,
    /// Waiting requests of ITRs.
    pub waiting: u64,
    /// Cached referrals.
    pub remembered: u64,
    /// Datagrams dropped at a socket that doesn't take their kind.
    pub strays: u64,
    /// Map-Referrals that don't reply to an outstanding request.
    pub unasked: u64,
    /// Silent servers.
    pub silent: u64,
}

impl fmt::Display for ResolverStatistics {
    fn fmt<W: fmt::Write>(&self, f: &mut fmt::Formatter<W>) -> fmt::Result {
        write!(f, "{}", self.daemon.times)?;
        write!(f, "num.received={}\n", self.near.received)?;
        write!(f, "num.sent={}\n", self.near.sent)?;
        write!(f, "num.onward={}\n", self.far.sent)?;
        write!(
            f,
            "num.unreceived={}\n",
            self.near.unreceived.saturating_sub(self.strays)
        )?;
        write!(
            f,
            "num.unsent={}\n",
            self.near.unsent.saturating_add(self.far.unsent)
        )?;
        write!(f, "{}", self.counts)?;
        write!(f, "now.sockets={}\n", self.sockets)?;
        write!(f, "now.pending={}\n", self.pending)?;
        write!(f, "now.waiting={}\n", self.waiting)?;
        write!(f, "now.cached={}\n", self.remembered)?;
        write!(f, "num.strays={}\n", self.strays)?;
        write!(f, "num.ignored.unasked={}\n", self.unasked)?;
        write!(f, "now.silent={}\n", self.silent)?;
        self.daemon.write_losses(f)
    }
}

impl fmt::Display for ResolverCounts {
    fn fmt<W: fmt::Write>(&self, f: &mut fmt::Formatter<W>) -> fmt::Result {
        write!(f, "num.lookups={}\n", self.lookups)?;
        write!(f, "num.shared={}\n", self.shared)?;
        write!(f, "num.cut={}\n", self.cut)?;
        write!(f, "num.dropped.denied={}\n", self.denied)?;
        write!(f, "num.dropped.toolong={}\n", self.too_long)?;
        write!(f, "num.dropped.norequest={}\n", self.no_request)?;
        write!(f, "num.dropped.unrecognizedafi={}\n", self.unrecognized_afi)?;
        write!(f, "num.dropped.probe={}\n", self.probe)?;
        write!(f, "num.dropped.noreply={}\n", self.no_map_reply)?;
        write!(f, "num.dropped.ownaddress={}\n", self.own_address)?;
        write!(f, "num.dropped.looped={}\n", self.came_back)?;
        write!(f, "num.dropped.repeated={}\n", self.repeated)?;
        write!(f, "num.dropped.full={}\n", self.full)?;
        write!(f, "num.dropped.sourcefull={}\n", self.source_full)?;
        write!(f, "num.dropped.setfull={}\n", self.set_full)?;
        write!(f, "num.dropped.memory={}\n", self.memory)?;
        write!(f, "num.ignored.undecodable={}\n", self.undecodable)?;
        write!(f, "num.ignored.unknownnonce={}\n", self.unknown_nonce)?;
        write!(f, "num.ignored.wrongsource={}\n", self.wrong_source)?;
        write!(f, "num.ignored.late={}\n", self.late)?;
        write!(f, "num.ignored.notcovering={}\n", self.not_covering)?;
        write!(f, "num.ignored.noservers={}\n", self.no_servers)?;
        write!(f, "num.ended.registered={}\n", self.registered)?;
        write!(f, "num.ended.notregistered={}\n", self.not_registered)?;
        write!(f, "num.ended.hole={}\n", self.holes)?;
        write!(f, "num.gaveup.noreply={}\n", self.no_reply)?;
        write!(f, "num.gaveup.loop={}\n", self.looped)?;
        write!(
            f,
            "num.gaveup.notauthoritative={}\n",
            self.not_authoritative
        )?;
        write!(f, "num.gaveup.exhausted={}\n", self.exhausted)
    }
}
