//! Memory is refused to a Map-Resolver: a packet is lost, and the next one gets its answer. It takes another resolver, or
//! all stays.
//!
//! `.ci/memory` runs each of these tests with each growth refused in turn.

use crate::comparison::{same, twice};
use ddt_cache::{Entry, Moment};
use ddt_config::settings::{Settings, from_toml};
use ddt_daemon::MapResolver;
use ddt_ecm::CONTROL_PORT;
use ddt_examples::bytes_of;
use ddt_examples::messages::{HOLE_OF_EVERYTHING, ITR_REQUEST};
use ddt_path::{Listed, Locator, LocatorSet};
use ddt_resolver::Resolver;
use ddt_sockets::{MOST_BYTES, WaitingDatagram, WiresInMemory};
use ddt_trie::ListMap;
use std::alloc::Global;
use std::process::Abort;
use std::test::Fail;

const ME: Locator = Locator::V4(0x7f00_0035);

/// The server of the root.
const ROOT: Locator = Locator::V4(0x7f00_0001);

/// The ITR of the worked request, and the port that it asks from.
const ITR: Locator = Locator::V4(0x7f00_003c);

const ITR_PORT: u16 = 50000;

const SETTINGS: &str =
    "roots = [\"127.0.0.1\"]\nlisten = [\"127.0.0.53\"]\nallow = [\"127.0.0.60/32\"]";

/// A Map-Resolver among wires in memory.
#[derive(Drop)]
struct World {
    resolver: MapResolver<ListMap<Entry>>,
    settings: Settings,
    near: WiresInMemory,
    far: WiresInMemory,
}

/// A resolver with an empty cache.
fn resolver(alloc: Global) -> Option<Resolver<ListMap<Entry>>> {
    let roots = LocatorSet::of(&[ROOT])?;
    match roots.as_slice() {
        [] => None,
        _ => Some(Resolver::new(alloc, roots, ME, 1)),
    }
}

/// A datagram for the Map-Resolver.
fn datagram(alloc: Global, from: Locator, port: u16, fields: &str) -> Option<WaitingDatagram> {
    Some(WaitingDatagram {
        at: ME,
        from,
        port,
        bytes: Listed::of(bytes_of(alloc, fields).ok()?),
    })
}

impl World {
    /// A Map-Resolver with an empty cache.
    fn new(alloc: Global) -> Option<World> {
        let settings = from_toml(alloc, SETTINGS).ok()?;
        Some(World {
            resolver: MapResolver::new(alloc, resolver(alloc)?).ok()?,
            settings,
            near: WiresInMemory::new(alloc, 0),
            far: WiresInMemory::new(alloc, 0),
        })
    }

    /// Delivers a message from an address and a port.
    fn deliver(&mut self, alloc: Global, from: Locator, port: u16, fields: &str) -> Option<()> {
        self.near.add(datagram(alloc, from, port, fields)?).ok()
    }

    /// Receives it. If memory is refused, it is lost.
    fn receive(&mut self) -> Option<()> {
        let mut buffer = [0; MOST_BYTES];
        let now = Moment::at(10)?;
        let came = self.resolver.receive(
            &mut self.near,
            &mut self.far,
            &self.settings,
            ME,
            now,
            &mut buffer,
        );
        if came { Some(()) } else { None }
    }

    /// Delivers a message, once more where memory is refused, and receives it.
    fn take(&mut self, alloc: Global, from: Locator, port: u16, fields: &str) -> Option<()> {
        if self.deliver(alloc, from, port, fields).is_none() {
            self.deliver(alloc, from, port, fields)?;
        }
        self.receive()
    }

    /// The ITR asks twice, so that one request may be lost, and the root replies twice.
    fn goes_on(&mut self, alloc: Global) -> Option<()> {
        self.take(alloc, ITR, ITR_PORT, ITR_REQUEST)?;
        self.take(alloc, ITR, ITR_PORT, ITR_REQUEST)?;
        self.take(alloc, ROOT, CONTROL_PORT, HOLE_OF_EVERYTHING)?;
        self.take(alloc, ROOT, CONTROL_PORT, HOLE_OF_EVERYTHING)
    }
}

/// The world, made once more where memory is refused.
fn a_world(alloc: Global) -> Result<World, Fail> {
    Ok(
        World::new(alloc)
            .or_else(|| World::new(alloc))
            .ok_or("no memory")?,
    )
}

/// Of two requests and two replies one may be lost: the lookup ends, and the ITR no longer waits.
#[test]
fn after_a_lost_packet_the_next_one_is_answered(rt: HostRuntime) -> Result<(), Fail> {
    let mut world = a_world(rt.alloc())?;
    world
        .goes_on(rt.alloc())
        .ok_or("memory for a packet is wanted")?;
    match (world.resolver.counts().holes, world.resolver.waiting()) {
        (1, 0) => Ok(()),
        _ => Err("memory for more than one packet is wanted".into()),
    }
}

/// It takes a new resolver, for which nothing waits, or stays as it is.
fn renews(rt: &impl Abort, alloc: Global, at: &mut World) -> Option<()> {
    let counts = at.resolver.counts();
    let renewed = at.resolver.renew(resolver(alloc)?);
    let waiting = usize::from(renewed.is_err());
    same(rt, &at.resolver.waiting(), &waiting, &"waiting");
    let pending = at.resolver.resolver().pending();
    same(rt, &pending, &waiting, &"the lookups");
    same(rt, &at.resolver.counts(), &counts, &"the counts");
    renewed.ok()
}

fn renews_at_last(rt: &impl Abort, alloc: Global) -> Option<()> {
    let mut at = World::new(alloc)?;
    at.take(alloc, ITR, ITR_PORT, ITR_REQUEST)?;
    if at.resolver.waiting() == 0 {
        return None;
    }
    renews(rt, alloc, &mut at).or_else(|| renews(rt, alloc, &mut at))
}

#[test]
fn a_resolver_is_renewed_or_all_stays(rt: HostRuntime) -> Result<(), Fail> {
    twice(|| renews_at_last(&rt, rt.alloc()))
}
