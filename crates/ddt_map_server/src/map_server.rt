//! A Map-Server whose sites' ETRs register, and how it serves the datagrams of a socket.

ghost use Rattle.std.specs.Prelude.{◌≡◌, ◌≢◌, ◌⊎◌, ◌+◌, ◌≤◌, ◌∷◌, ℕ, List, length, map, Some, Ok, IfErr, OnOk, OnErr};
ghost use Rattle.ddt_config.specs.declared.fault.ConfigFault.TheVariants.{Shape as IsShape, Memory as IsMemory};
ghost use Rattle.ddt_config.specs.Table.{Outline, outline};
ghost use Rattle.ddt_node.specs.Spelled.{HasRoom};
ghost use Rattle.ddt_sockets.specs.declared.wire_calls.Call.{Call as ACall};
ghost use Rattle.ddt_sockets.specs.declared.wire_calls.Call.TheVariants.{Received};
ghost use Rattle.ddt_sockets.specs.Calls.{RecordsCalls};
ghost use Rattle.ddt_sockets.specs.Turns.{most_bytes as most_udp_bytes, is_received};
ghost use Rattle.ddt_registrar.specs.Carried.{carried_from};
ghost use Rattle.ddt_registrar.specs.Taking.{site_at};
ghost use Rattle.ddt_map_server.specs.Rates.{after_one};
ghost use Rattle.ddt_map_server.specs.Turns.{Follows, IsDone, IsMapServerTurn, AreMapServerTurns};

use crate::changed_sites::ChangedSites;
use crate::register_counts::RegisterCounts;
use crate::register_outcome::RegisterOutcome;
use crate::registering::{ReceivedDatagram, is_map_register, register};
use crate::source_rate_limit::SourceRateLimit;
use ddt_config::{ConfigFault, ServerConfig};
use ddt_daemon::{ServerRecord, ServerSocket, serve_packet};
use ddt_node::Server;
use ddt_registrar::Registrar;
use ddt_sockets::{Packet, Wires};
use ddt_trie::PrefixMap;
use std::alloc::Global;
use std::marker::Model;
use std::mem;

/// A Map-Server whose sites' ETRs register. Contracts see the configuration that it answers by, the registrations, the
/// number of Map-Registers of each source in this second, and the counts.
#[derive(Drop)]
pub struct MapServer<M: PrefixMap<u32>> {
    server: Server<M>,
    registrar: Registrar<M>,
    rates: SourceRateLimit,
    counts: RegisterCounts,
    /// The record of the requests that were served.
    pub done: ServerRecord,
    /// The sites for which something was registered or withdrawn.
    pub changed_sites: ChangedSites,
}

impl<M: PrefixMap<u32>> Model for MapServer<M> {
    ghost use Rattle.ddt_map_server.specs.Turns.{MapServer as AMapServer};

    ghost Value = { AMapServer };

    ghost view = { λ s. record {
      config = s.server;
      registering = record { sites = s.registrar; rates = s.rates; counts = s.counts };
    } };
}

impl<M: PrefixMap<u32>> MapServer<M> {
    /// A Map-Server of a server, which answers by its own configuration, and of a registrar. The registrations of the
    /// registrar are in force from now on.
    pub fn new(alloc: Global, mut server: Server<M>, registrar: Registrar<M>) -> MapServer<M>
        ensures { Follows server result × (result.registering.sites ≡ registrar) }
    {
        registrar.put_in_force(alloc, &mut server);
        MapServer {
            server,
            registrar,
            rates: SourceRateLimit::new(),
            counts: RegisterCounts::default(),
            done: ServerRecord::new(alloc),
            changed_sites: ChangedSites::new(alloc),
        }
    }

    /// The server, which answers requests.
    pub fn server(&self) -> &Server<M>
        ensures { result.now ≡ self.now.config }
    {
        &self.server
    }

    /// The registrar, which has the registrations.
    pub fn registrar(&self) -> &Registrar<M>
        ensures { result.now ≡ self.now.registering.sites }
    {
        &self.registrar
    }

    /// The counts of Map-Registers.
    pub fn counts(&self) -> RegisterCounts
        ensures { result ≡ self.now.registering.counts }
    {
        self.counts
    }

    /// Replaces the configuration and the registrar, and carries the registrations over. Refused as `adopt_config` of
    /// `ddt_node` refuses the configuration, and for memory; then nothing changes.
    pub fn adopt(
        &mut self,
        alloc: Global,
        config: ServerConfig,
        mut registrar: Registrar<M>,
    ) -> Result<(), ConfigFault>
        ensures taken { OnOk result (Follows (outline config) self.new × (self.new.registering ≡
            record {
              sites = map (carried_from self.old.registering.sites) registrar;
              rates = self.old.registering.rates;
              counts = self.old.registering.counts;
            })) }
        ensures refused { IfErr result (λ fault. fault ≢ IsMemory → (fault ≡ IsShape) × ¬ (HasRoom (outline config))) }
        ensures unchanged { OnErr result (self.new ≡ self.old) }
    {
        let mut server = Server::of_config(alloc, config)?;
        registrar.carry_over(mem::replace(&mut self.registrar, Registrar::new(alloc)));
        registrar.put_in_force(alloc, &mut server);
        self.registrar = registrar;
        self.server = server;
        Ok(())
    }

    /// Removes the registrations that are over at a moment, in milliseconds. Allocates nothing.
    pub fn end(&mut self, alloc: Global, moment: u64)
        ensures ended { self.new.registering ≡ record {
          sites = map (site_at moment) self.old.registering.sites;
          rates = self.old.registering.rates;
          counts = self.old.registering.counts;
        } }
        ensures follows { (c : Outline) → Follows c self.old → Follows c self.new }
    {
        self.registrar.end(alloc, &mut self.server, moment);
    }

    /// Serves the datagrams that wait at a socket, at a moment in milliseconds: at most `most`, and none after
    /// `receive` returns no packet. Each turn calls `receive` once. Returns the number of packets.
    ///
    /// A Map-Register is accepted or dropped, as `register` does, or dropped unread if its source has sent 1,000 in
    /// this second. Any other datagram is served as `serve_ready` of `ddt_daemon` does.
    pub fn serve_ready<W: Wires>(
        &mut self,
        wires: &mut W,
        door: &ServerSocket<'_>,
        moment: u64,
        most: u32,
        buffer: &mut [u8],
    ) -> u32
        requires { length buffer.old ≡ most_udp_bytes }
        ensures serves { (c : Outline) → Follows c self.old → Follows c self.new × (turns : ℕ)
            × (((turns ≡ most) × (result ≡ turns)) ⊎ ((turns ≤ most) × (turns ≡ result + 1)))
            × (calls : List ACall) × RecordsCalls (W.calls wires.old) calls (W.calls wires.new)
            × AreMapServerTurns c door.now.settings.now moment door.now.at self.old.registering self.new.registering
            turns calls }
        ensures room { length buffer.new ≡ most_udp_bytes }
    {
        let mut received = 0;
        for _turn in 0..most {
            if !self.turn(wires, door, moment, buffer) {
                return received;
            }
            received += 1;
        }
        received
    }

    /// Receives and serves one datagram. Returns whether there was one.
    fn turn<W: Wires>(
        &mut self,
        wires: &mut W,
        door: &ServerSocket<'_>,
        moment: u64,
        buffer: &mut [u8],
    ) -> bool
        requires { length buffer.old ≡ most_udp_bytes }
        ensures turn { (c : Outline) → Follows c self.old → Follows c self.new × (turn : List ACall)
            × RecordsCalls (W.calls wires.old) turn (W.calls wires.new)
            × IsMapServerTurn c door.now.settings.now moment door.now.at self.old.registering self.new.registering turn
            × (result ≡ is_received turn) }
        ensures room { length buffer.new ≡ most_udp_bytes }
    {
        match wires.receive(door.at, buffer) {
            Ok(Some(packet)) => {
                let datagram = ReceivedDatagram {
                    alloc: door.alloc,
                    at: door.at,
                    packet,
                    bytes: &buffer[..packet.len],
                    moment,
                };
                self.serve_datagram(wires, door, &datagram);
                true
            }
            Ok(None) => false,
            // The datagram is lost; the next round goes on.
            Err(_fault) => false,
        }
    }

    /// Serves a datagram that was received at a door.
    fn serve_datagram<W: Wires>(
        &mut self,
        wires: &mut W,
        door: &ServerSocket<'_>,
        datagram: &ReceivedDatagram<'_>,
    )
        requires { datagram.now.at ≡ door.now.at }
        ensures { (c : Outline) → Follows c self.old → Follows c self.new × (tries : List ACall)
            × RecordsCalls (W.calls wires.old) tries (W.calls wires.new)
            × IsMapServerTurn c door.now.settings.now datagram.now.moment door.now.at self.old.registering
            self.new.registering
            (Received door.now.at most_udp_bytes (Ok (Some datagram.now.packet)) datagram.now.bytes.now ∷ tries) }
    {
        if is_map_register(datagram.bytes) {
            let registered = self.admit(wires, datagram);
            self.counts.count(registered);
        } else {
            let done = serve_packet(wires, &self.server, door, datagram.packet, datagram.bytes);
            self.done.serve_one(datagram.packet.from, done);
        }
    }

    /// Accepts or drops a Map-Register, and returns the outcome.
    fn admit<W: Wires>(&mut self, wires: &mut W, datagram: &ReceivedDatagram<'_>) -> RegisterOutcome
        ensures done { (tries : List ACall) × RecordsCalls (W.calls wires.old) tries (W.calls wires.new)
            × IsDone datagram.now.moment datagram.now.at datagram.now.packet datagram.now.bytes.now
            self.old.registering.rates self.old.registering.sites self.new.registering.sites tries result }
        ensures counted { self.new.registering.rates
            ≡ after_one datagram.now.moment datagram.now.packet.from self.old.registering.rates }
        ensures counts { self.new.registering.counts ≡ self.old.registering.counts }
        ensures follows { (c : Outline) → Follows c self.old → Follows c self.new }
    {
        if !self.rates.admits(datagram.packet.from, datagram.moment) {
            return RegisterOutcome::Limited;
        }
        let registered = register(wires, &mut self.server, &mut self.registrar, datagram);
        if let RegisterOutcome::Taken { notified: _ } = registered {
            self.changed_sites.note(datagram.bytes);
        }
        registered
    }
}
