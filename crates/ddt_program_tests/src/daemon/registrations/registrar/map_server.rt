//! A Map-Server with seven sites whose ETRs register, each under the secret `password`.

use crate::comparison::same;
use crate::daemon::registrations::worked_messages::{SECRET, read};
use ddt_config::{SiteEntry, from_toml};
use ddt_map_register::{SHA1_96, SHA256_128};
use ddt_node::Server;
use ddt_path::{Action, Listed, Locator, LocatorSet, Prefix, Prefixed};
use ddt_registrar::{Key, KeyedSite, NotAdded, ReceivedRegister, Refusal, Registrar, Replay};
use ddt_text::parse_prefix;
use ddt_trie::HashedMap;
use std::alloc::{AllocError, Global};
use std::process::Abort;

/// The configuration: only the first site has an ETR, 127.0.2.9.
pub const CONFIGURATION: &str = r#"kind = "ms"
locators = ["127.0.1.1", "127.0.1.2"]
name = "east"

[[authority]]
prefix = "[0]10.1.0.0/16"

[[authority.site]]
etrs = ["127.0.2.9"]
prefix = "[0]10.1.2.0/24"

[[authority.site]]
etrs = []
prefix = "[0]10.1.9.0/24"

[[authority.site]]
etrs = []
prefix = "[0]10.1.1.0/24"

[[authority]]
prefix = "[0]2001:db8::/32"

[[authority.site]]
etrs = []
prefix = "[0]2001:db8::/64"

[[authority.site]]
etrs = []
prefix = "[0]2001:db8:a:1::/64"

[[authority]]
prefix = "[7]2001:db8::/32"

[[authority.site]]
etrs = []
prefix = "[7]2001:db8:a::/48"

[[authority]]
prefix = "[7]10.1.0.0/16"

[[authority.site]]
etrs = []
prefix = "[7]10.1.1.0/24"
"#;

/// The ETR that the configuration names.
pub const CONFIGURED: Locator = Locator::V4(0x7f00_0209);

/// The source of most messages.
pub const SOURCE: Locator = Locator::V4(0x7f00_0201);

/// The site of the worked Map-Registers, and one of another implementation's.
pub const EAST: &str = "[0]10.1.2.0/24";

pub const LAB: &str = "[0]10.1.9.0/24";

/// The Key ID and the Algorithm ID of a key, and how its nonces are.
pub type KeyRow = (u8, u8, Replay);

/// Keys of nonces that increase, and the one of an implementation whose nonces are random.
pub const EAST_KEYS: &[KeyRow] = &[
    (1, SHA256_128, Replay::Increasing),
    (7, SHA1_96, Replay::Increasing),
    (8, SHA256_128, Replay::Any),
];

/// The keys of EAST.
pub const AS_BEFORE: Keys = Keys {
    rows: EAST_KEYS,
    secret: SECRET,
};

const OTHER_KEYS: &[KeyRow] = &[
    (3, SHA1_96, Replay::Increasing),
    (7, SHA1_96, Replay::Increasing),
];

const LAB_KEYS: &[KeyRow] = &[
    (0, SHA1_96, Replay::Any),
    (1, SHA256_128, Replay::Increasing),
];

/// A site, the ETRs of its configuration, and its keys.
type SiteRow = (&'static str, &'static [Locator], &'static [KeyRow]);

const SITES: &[SiteRow] = &[
    (EAST, &[CONFIGURED], EAST_KEYS),
    (LAB, &[], LAB_KEYS),
    ("[0]10.1.1.0/24", &[], LAB_KEYS),
    ("[0]2001:db8::/64", &[], OTHER_KEYS),
    ("[0]2001:db8:a:1::/64", &[], LAB_KEYS),
    ("[7]2001:db8:a::/48", &[], OTHER_KEYS),
    ("[7]10.1.1.0/24", &[], LAB_KEYS),
];

/// The Map-Server, and the moment, in milliseconds.
#[derive(Drop)]
pub struct MapServer {
    pub registrar: Registrar<HashedMap<u32>>,
    pub server: Server<HashedMap<u32>>,
    pub moment: u64,
}

/// Keys of one secret.
#[derive(Clone, Copy, Debug)]
pub struct Keys {
    pub rows: &'static [KeyRow],
    pub secret: &'static [u8],
}

fn key(alloc: Global, row: KeyRow, of_key: &[u8]) -> Result<Key, AllocError> {
    let (id, algorithm, replay) = row;
    let mut secret = Vec::new(alloc);
    secret.extend_from_slice(of_key)?;
    Ok(Key {
        id,
        algorithm,
        secret,
        replay,
    })
}

fn keys_of(alloc: Global, all: Keys) -> Result<Vec<Key>, AllocError> {
    let mut keys = Vec::new(alloc);
    for row in all.rows {
        keys.push(key(alloc, *row, all.secret)?)?;
    }
    Ok(keys)
}

pub fn prefix(rt: &impl Abort, text: &str) -> Prefix {
    parse_prefix(text.as_bytes()).expect(rt, "no prefix")
}

/// The site EAST, for which nothing is registered yet.
pub fn east(alloc: Global) -> Option<KeyedSite> {
    site(alloc, &SITES[0], false, AS_BEFORE)
}

/// A site for which nothing is registered yet; that of EAST has these keys.
fn site(alloc: Global, row: &SiteRow, falls_back: bool, of_east: Keys) -> Option<KeyedSite> {
    let (text, configured, rows) = *row;
    let of_site = Keys {
        rows,
        secret: SECRET,
    };
    let of_site = if text == EAST { of_east } else { of_site };
    Some(KeyedSite {
        prefix: parse_prefix(text.as_bytes()).ok()?,
        keys: keys_of(alloc, of_site).ok()?,
        configured: LocatorSet::of(configured)?,
        falls_back,
        has_registered: false,
        live: Vec::new(alloc),
        nonces: Vec::new(alloc),
    })
}

/// The ETRs of the site of a prefix, if it is one of these.
fn etrs_among(sites: &[SiteEntry], prefix: Prefix) -> Option<LocatorSet> {
    match sites.iter().find(|site| site.prefix == prefix) {
        Some(site) => Some(site.etrs),
        None => None,
    }
}

impl MapServer {
    /// The Map-Server at moment 0. Its sites fall back, or not.
    pub fn new(alloc: Global, rt: &impl Abort, falls_back: bool) -> MapServer {
        MapServer::build(alloc, falls_back).expect(rt, "no Map-Server")
    }

    /// The same; None where memory is refused.
    pub fn build(alloc: Global, falls_back: bool) -> Option<MapServer> {
        MapServer::under(alloc, falls_back, AS_BEFORE)
    }

    /// The same, EAST with these keys.
    pub fn under(alloc: Global, falls_back: bool, of_east: Keys) -> Option<MapServer> {
        let config = from_toml(alloc, CONFIGURATION).ok()?;
        let server = Server::of_config(alloc, config).ok()?;
        let mut registrar = Registrar::new(alloc);
        for row in SITES {
            registrar.add(site(alloc, row, falls_back, of_east)?).ok()?;
        }
        Some(MapServer {
            registrar,
            server,
            moment: 0,
        })
    }

    /// The same at the same moment after its sites were read anew, EAST with these keys.
    pub fn reloaded(self, alloc: Global, rt: &impl Abort, of_east: Keys) -> MapServer {
        let mut fresh = MapServer::under(alloc, false, of_east).expect(rt, "no Map-Server");
        fresh.moment = self.moment;
        fresh.registrar.carry_over(self.registrar);
        fresh.registrar.put_in_force(alloc, &mut fresh.server);
        fresh
    }

    /// Adds its first site once more.
    pub fn add_again(&mut self, alloc: Global, rt: &impl Abort) -> Result<(), NotAdded> {
        let site = site(alloc, &SITES[0], true, AS_BEFORE);
        self.registrar.add(site.expect(rt, "no site"))
    }

    /// Takes a Map-Register that came from this address.
    pub fn take(
        &mut self,
        alloc: Global,
        rt: &impl Abort,
        bytes: &[u8],
        source: Locator,
    ) -> Result<Option<Vec<u8>>, Refusal> {
        let message = read(rt, bytes);
        let arrival = ReceivedRegister {
            message: &message,
            from: source,
            moment: self.moment,
        };
        self.registrar.take(alloc, &mut self.server, &arrival)
    }

    /// How many registrations and last nonces a site has, and whether an xTR has registered.
    pub fn counts(&self, site: usize) -> Option<(usize, usize, bool)> {
        let site = self.registrar.sites().get(site)?;
        Some((site.live.len(), site.nonces.len(), site.has_registered))
    }

    /// So many milliseconds pass, and what is over ends.
    pub fn wait(&mut self, alloc: Global, millis: u64) {
        self.moment = self.moment.saturating_add(millis);
        self.registrar.end(alloc, &mut self.server, self.moment);
    }

    /// The ETRs by which the server answers for the site of a prefix.
    pub fn etrs(&self, prefix: Prefix) -> LocatorSet {
        let mut etrs = LocatorSet::none();
        for authority in self.server.authorities() {
            etrs = etrs_among(authority.sites(), prefix).unwrap_or(etrs);
        }
        etrs
    }

    /// The ETR to which the server sends requests for a site on.
    pub fn etr(&self, rt: &impl Abort, text: &str) -> Option<Locator> {
        self.server.etr(prefix(rt, text).inner())
    }

    /// The server answers for a site by these ETRs: MS-ACK and the first of them, or MS-NOT-REGISTERED.
    pub fn has_etrs(&self, rt: &impl Abort, text: &str, wanted: &[Locator]) {
        let prefix = prefix(rt, text);
        same(rt, &self.etrs(prefix).as_slice(), &wanted, &text);
        same(rt, &self.etr(rt, text), &wanted.first().copied(), &text);
        let action = if wanted.is_empty() {
            Action::MsNotRegistered
        } else {
            Action::MsAck
        };
        let answer = self.server.answer(prefix.inner());
        same(rt, &answer.action, &action, &text);
    }
}
