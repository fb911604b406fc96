//! Memory is refused to the reader of keys and to a Map-Server that takes up another configuration: all stays, and the
//! next call succeeds.
//!
//! `.ci/memory` runs each of these tests with each growth refused in turn.

use crate::comparison::{given, same, twice};
use crate::daemon::registrations::registrar::map_server::{
    AS_BEFORE, CONFIGURATION, EAST, MapServer as Registering, SOURCE, prefix,
};
use ddt_config::{ConfigFault, from_toml};
use ddt_examples::bytes_of;
use ddt_examples::map_registers::IPV4_REGISTER;
use ddt_map_server::MapServer;
use ddt_map_server::keys::{KeysFault, SiteKey, keyed_sites, read_keys, read_keys_text};
use ddt_registrar::Registrar;
use ddt_trie::HashedMap;
use std::alloc::Global;
use std::process::Abort;
use std::test::Fail;

// ---- keys

const KEYS: &str = "[[key]]
prefix = \"[0]10.1.2.0/24\"
id = 7
algorithm = \"sha256\"
secret = \"password\"
";

/// There is one key, which is that of the text.
fn are(rt: &impl Abort, keys: &[SiteKey]) {
    same(rt, &keys.len(), &1, &"the keys");
    for one in keys {
        same(rt, &one.prefix, &prefix(rt, EAST), &"the prefix");
        same(rt, &(one.key.id, one.key.algorithm), &(7, 2), &"the key");
        let secret = one.key.secret.as_slice();
        same(rt, &secret, &b"password".as_slice(), &"the secret");
    }
}

fn keys(rt: &impl Abort, alloc: Global) -> Option<()> {
    let keys = given(rt, read_keys_text(alloc, KEYS), &KeysFault::Memory)?;
    are(rt, keys.as_slice());
    let table = toml::table_from_str(alloc, KEYS).ok()?;
    let keys = given(rt, read_keys(alloc, &table), &KeysFault::Memory)?;
    are(rt, keys.as_slice());
    let config = given(rt, from_toml(alloc, CONFIGURATION), &ConfigFault::Memory)?;
    let sites = given(
        rt,
        keyed_sites(alloc, &config, keys.as_slice()),
        &KeysFault::Memory,
    )?;
    let mut prefixes = sites.as_slice().iter().map(|site| site.prefix);
    same(rt, &prefixes.next(), &Some(prefix(rt, EAST)), &"the site");
    same(rt, &prefixes.next(), &None, &"the sites");
    Some(())
}

#[test]
fn keys_are_read_whole_or_not_at_all(rt: HostRuntime) -> Result<(), Fail> {
    twice(|| keys(&rt, rt.alloc()))
}

// ---- another configuration

/// The Map-Server `west`, which has the site with the registration alone.
const WEST: &str = r#"kind = "ms"
locators = ["127.0.1.1"]
name = "west"

[[authority]]
prefix = "[0]10.1.0.0/16"

[[authority.site]]
etrs = []
prefix = "[0]10.1.2.0/24"
"#;

type HashedServer = MapServer<HashedMap<u32>>;

/// A Map-Server, for one of whose sites something is registered.
fn registered(rt: &impl Abort, alloc: Global) -> Option<HashedServer> {
    let bytes = bytes_of(alloc, IPV4_REGISTER).ok()?;
    let mut at = Registering::build(alloc, false)?;
    at.take(alloc, rt, &bytes, SOURCE).ok()??;
    let Registering {
        registrar,
        server,
        ..
    } = at;
    Some(MapServer::new(alloc, server, registrar))
}

/// A registrar with the same keys and without registrations.
fn unregistered(alloc: Global) -> Option<Registrar<HashedMap<u32>>> {
    let Registering { registrar, .. } = Registering::under(alloc, false, AS_BEFORE)?;
    Some(registrar)
}

/// It has this name, and something is registered for the site.
fn is_registered(rt: &impl Abort, at: &HashedServer, name: &[u8]) {
    same(rt, &at.server().name().as_bytes(), &name, &"the name");
    let etr = at.server().etr(prefix(rt, EAST).inner());
    same(rt, &etr, &Some(SOURCE), &"the ETR");
    let mut live = at.registrar().sites().iter().map(|site| site.live.len());
    same(rt, &live.next(), &Some(1), &"the registrations");
    same(rt, &live.count(), &6, &"the sites");
    same(rt, &at.counts(), &Default::default(), &"the counts");
}

/// It takes the other configuration, or stays as it is.
fn adopts(rt: &impl Abort, alloc: Global, at: &mut HashedServer) -> Option<()> {
    let config = from_toml(alloc, WEST).ok()?;
    let adopted = at.adopt(alloc, config, unregistered(alloc)?);
    let name = if adopted.is_ok() { "west" } else { "east" };
    is_registered(rt, at, name.as_bytes());
    given(rt, adopted, &ConfigFault::Memory)
}

fn adopts_at_last(rt: &impl Abort, alloc: Global) -> Option<()> {
    let mut at = registered(rt, alloc)?;
    adopts(rt, alloc, &mut at).or_else(|| adopts(rt, alloc, &mut at))
}

#[test]
fn another_configuration_is_taken_or_all_stays(rt: HostRuntime) -> Result<(), Fail> {
    twice(|| adopts_at_last(&rt, rt.alloc()))
}
