//! The counts of a server and of a resolver. A count at its maximum stays there.

ghost use Rattle.std.specs.Prelude.{◌≡◌};
ghost use Rattle.ddt_daemon.specs.Counted.{plus, with_received_one as with_received, with_service, with_dropped, with_lookup, with_shared, with_cut, with_ignored, with_why, with_ended};

use crate::admission::Dropped;
use crate::service::{Service, ServiceResult};
use ddt_path::Outcome;
use ddt_resolver::{Ignored, Why};

/// The counts of a server.
#[derive(Clone, Copy, Debug, Default, PartialEq, Eq)]
pub struct ServerCounts {
    /// Packets received.
    pub received: u64,
    /// Replies sent.
    pub replied: u64,
    /// Requests of DDT clients, and served requests of ITRs.
    pub clients: u64,
    pub itrs: u64,
    /// Dropped datagrams, by the reason.
    pub no_request: u64,
    pub unrecognized_afi: u64,
    pub probe: u64,
    pub denied: u64,
}

impl ServerCounts {
    /// Counts a received datagram, by what was done with it.
    pub(crate) fn serve_one(&mut self, done: ServiceResult)
        ensures { self.new ≡ with_service (with_received self.old done.replied) done.service }
    {
        self.received = one_more(self.received);
        if done.replied {
            self.replied = one_more(self.replied);
        }
        match done.service {
            Service::NoRequest => self.no_request = one_more(self.no_request),
            Service::UnrecognizedAfi => self.unrecognized_afi = one_more(self.unrecognized_afi),
            Service::Probe => self.probe = one_more(self.probe),
            Service::Denied => self.denied = one_more(self.denied),
            Service::Client => self.clients = one_more(self.clients),
            Service::Itr => self.itrs = one_more(self.itrs),
        }
    }
}

/// The counts of a resolver.
#[derive(Clone, Copy, Debug, Default, PartialEq, Eq)]
pub struct ResolverCounts {
    /// Requests of ITRs that have started a lookup.
    pub lookups: u64,
    /// Requests of ITRs that share the lookup of another request.
    pub shared: u64,
    /// Replies that covered more than the zone of their server, and were cut to it.
    pub cut: u64,
    /// Dropped Encapsulated Control Messages, by the reason.
    pub denied: u64,
    pub too_long: u64,
    pub no_request: u64,
    pub unrecognized_afi: u64,
    pub probe: u64,
    pub no_map_reply: u64,
    pub own_address: u64,
    pub came_back: u64,
    pub repeated: u64,
    pub full: u64,
    pub source_full: u64,
    pub set_full: u64,
    pub memory: u64,
    /// Ignored datagrams from UDP port 4342, by the reason.
    pub undecodable: u64,
    pub unknown_nonce: u64,
    pub wrong_source: u64,
    pub late: u64,
    pub not_covering: u64,
    pub no_servers: u64,
    /// Lookups of ITRs that have ended, by the outcome.
    pub registered: u64,
    pub not_registered: u64,
    pub holes: u64,
    /// Lookups of ITRs that gave up, by the reason.
    pub no_reply: u64,
    pub looped: u64,
    pub not_authoritative: u64,
    pub exhausted: u64,
}

/// The count after one more.
pub(crate) fn one_more(count: u64) -> u64
    ensures { result ≡ plus count 1 }
{
    count.saturating_add(1)
}

impl ResolverCounts {
    /// Counts a dropped message.
    pub(crate) fn drop_one(&mut self, why: Dropped)
        ensures { self.new ≡ with_dropped self.old why }
    {
        match why {
            Dropped::Denied => self.denied = one_more(self.denied),
            Dropped::TooLong => self.too_long = one_more(self.too_long),
            Dropped::NoRequest => self.no_request = one_more(self.no_request),
            Dropped::UnrecognizedAfi => self.unrecognized_afi = one_more(self.unrecognized_afi),
            Dropped::Probe => self.probe = one_more(self.probe),
            Dropped::NoReply => self.no_map_reply = one_more(self.no_map_reply),
            Dropped::OwnAddress => self.own_address = one_more(self.own_address),
            Dropped::Looped => self.came_back = one_more(self.came_back),
            Dropped::Repeated => self.repeated = one_more(self.repeated),
            Dropped::Full => self.full = one_more(self.full),
            Dropped::SourceFull => self.source_full = one_more(self.source_full),
            Dropped::SetFull => self.set_full = one_more(self.set_full),
            Dropped::Memory => self.memory = one_more(self.memory),
        }
    }

    /// Counts a request that has started a lookup.
    pub(crate) fn start_one(&mut self)
        ensures { self.new ≡ with_lookup self.old }
    {
        self.lookups = one_more(self.lookups);
    }

    /// Counts a request that shares a lookup.
    pub(crate) fn share_one(&mut self)
        ensures { self.new ≡ with_shared self.old }
    {
        self.shared = one_more(self.shared);
    }

    /// Counts a reply that is cut to its zone.
    pub(crate) fn cut_one(&mut self)
        ensures { self.new ≡ with_cut self.old }
    {
        self.cut = one_more(self.cut);
    }

    /// Counts a datagram if it is ignored.
    pub(crate) fn hear_one(&mut self, ignored: Option<Ignored>)
        ensures { self.new ≡ with_why self.old ignored }
    {
        if let Some(why) = ignored {
            self.ignore_one(why);
        }
    }

    /// Counts an ignored datagram.
    fn ignore_one(&mut self, why: Ignored)
        ensures { self.new ≡ with_ignored self.old why }
    {
        match why {
            Ignored::Undecodable => self.undecodable = one_more(self.undecodable),
            Ignored::UnknownNonce => self.unknown_nonce = one_more(self.unknown_nonce),
            Ignored::WrongSource => self.wrong_source = one_more(self.wrong_source),
            Ignored::Late => self.late = one_more(self.late),
            Ignored::NotCovering => self.not_covering = one_more(self.not_covering),
            Ignored::NoServers => self.no_servers = one_more(self.no_servers),
        }
    }

    /// Counts the end of a lookup, by its outcome or reason.
    pub(crate) fn end_one(&mut self, end: &Result<Outcome, Why>)
        ensures { self.new ≡ with_ended self.old end.now }
    {
        match end {
            Ok(Outcome::Registered { .. }) => self.registered = one_more(self.registered),
            Ok(Outcome::NotRegistered { .. }) => {
                self.not_registered = one_more(self.not_registered);
            }
            Ok(Outcome::Hole { .. }) => self.holes = one_more(self.holes),
            Err(Why::NoReply) => self.no_reply = one_more(self.no_reply),
            Err(Why::Loop) => self.looped = one_more(self.looped),
            Err(Why::NotAuthoritative) => {
                self.not_authoritative = one_more(self.not_authoritative);
            }
            Err(Why::Exhausted) => self.exhausted = one_more(self.exhausted),
        }
    }
}
