//! A server of one configuration: its name, role, locators and authorities, and its answer for an identifier.

ghost use Rattle.std.specs.Prelude.{◌≡◌, ◌<◌, true, [], IfOk, IfErr, IsOk};
ghost use Rattle.ddt_path.specs.Path.{xeid_path};
ghost use Rattle.ddt_trie.specs.PrefixMap.{most_entries};
ghost use Rattle.ddt_config.specs.Table.{outline};
ghost use Rattle.ddt_config.specs.Answer.{answer as answer_of};
ghost use Rattle.ddt_config.specs.Entries.{entry_count};
ghost use Rattle.ddt_config.specs.Shaped.{is_shaped};
ghost use Rattle.ddt_node.specs.Etrs.{with_etrs};
ghost use Rattle.ddt_node.specs.Server.{first_etr};

use crate::place_index::{PlaceIndex, index};
use crate::served_authority::{ServedAuthority, served};
use crate::site_etrs::set_in_each;
use ddt_config::ServerConfig;
use ddt_path::{Locator, LocatorSet, Name, Prefix, ReferralRecord, Role, Xeid};
use ddt_trie::PrefixMap;
use std::alloc::{AllocError, Global};
use std::marker::Model;

/// A DDT node or a Map-Server with its configuration. Contracts see the content of the configuration.
#[derive(Drop)]
pub struct Server<M: PrefixMap<u32>> {
    name: Name,
    role: Role,
    locators: LocatorSet,
    pub(crate) authorities: Vec<ServedAuthority>,
    pub(crate) index: PlaceIndex<M>,
}

impl<M: PrefixMap<u32>> Model for Server<M> {
    ghost use Rattle.std.specs.Prelude.{◌≡◌, true, map};
    ghost use Rattle.ddt_config.specs.Shaped.{is_shaped};
    ghost use Rattle.ddt_config.specs.Table.{Outline};
    ghost use Rattle.ddt_node.specs.Places.{AreIndexed};

    ghost Value = { Outline };

    ghost view = { λ s. record {
      name = s.name;
      role = s.role;
      locators = s.locators;
      authorities = s.authorities.items;
    } };

    ghost invariant = { λ s. (is_shaped s.role s.locators s.authorities.items ≡ true)
        × AreIndexed s.authorities.items (M.content s.index.authorities) (map M.content s.index.contents.items) };
}

impl<M: PrefixMap<u32>> Server<M> {
    /// A server of this configuration. Its authorities, children and sites must be fewer than 1,048,576 in all. Returns
    /// the configuration if memory runs out. A configuration without authorities needs no memory.
    pub fn build(alloc: Global, config: ServerConfig) -> Result<Server<M>, ServerConfig>
        requires { entry_count (outline config) < most_entries }
        ensures built { IfOk result (λ server. server ≡ outline config) }
        ensures refused { IfErr result (λ back. back ≡ config) }
        ensures none { config.authorities ≡ [] → IsOk result }
    {
        match Server::of(alloc, &config) {
            Ok(server) => Ok(server),
            Err(_refused) => Err(config),
        }
    }

    /// The server of a configuration, as `build` makes it. Fails only if out of memory.
    fn of(alloc: Global, config: &ServerConfig) -> Result<Server<M>, AllocError>
        requires { entry_count (outline config.now) < most_entries }
        ensures built { IfOk result (λ server. server ≡ outline config.now) }
        ensures none { config.now.authorities ≡ [] → IsOk result }
    {
        let authorities = served(alloc, config.authorities.as_slice())?;
        let index = index(alloc, &authorities)?;
        Ok(Server {
            name: config.name,
            role: config.role,
            locators: config.locators,
            authorities,
            index,
        })
    }

    /// The name of the server's group.
    pub fn name(&self) -> &Name
        ensures { result.now ≡ self.now.name }
    {
        &self.name
    }

    /// The role of the server's group: DDT node or Map-Server.
    pub fn role(&self) -> Role
        ensures { result ≡ self.now.role }
    {
        self.role
    }

    /// The locators of the server's group.
    pub fn locators(&self) -> &LocatorSet
        ensures { result.now ≡ self.now.locators }
    {
        &self.locators
    }

    /// The authorities of the server. They meet what is asked of those of a configuration.
    pub fn authorities(&self) -> &[ServedAuthority]
        ensures authorities { result.now ≡ self.now.authorities }
        ensures shaped { is_shaped self.now.role self.now.locators self.now.authorities ≡ true }
    {
        self.authorities.as_slice()
    }

    /// The record that answers a request for an identifier, from the longest authority that covers it. It is a referral
    /// to a child; for a site MS-ACK, or MS-NOT-REGISTERED if it has no ETR; or else the delegation hole. It is
    /// NOT-AUTHORITATIVE if no authority covers the identifier (RFC 8111, sections 6.1, 7.1 and 7.2). Allocates
    /// nothing.
    pub fn answer(&self, x: Xeid) -> ReferralRecord
        ensures { result ≡ answer_of self.now (xeid_path x) }
    {
        let decision = self.decision(x);
        decision.record(&self.locators, x).to_record()
    }

    /// The ETR to which an acknowledged request for an identifier is forwarded: the first registered one of the site.
    /// None if `answer` isn't MS-ACK. Allocates nothing.
    pub fn etr(&self, x: Xeid) -> Option<Locator>
        ensures { result ≡ first_etr self.now (xeid_path x) }
    {
        self.decision(x).etr()
    }

    /// Sets the ETRs of the site of this prefix; without such a site nothing changes. The site is found by one look-up
    /// for each authority. The index stays valid, since no prefix changes. Allocates nothing (RFC 9301, section 5.6).
    pub fn set_etrs(&mut self, alloc: Global, prefix: Prefix, etrs: LocatorSet)
        ensures { self.new ≡ with_etrs prefix etrs self.old }
    {
        let _few = etrs.as_slice();
        let contents = self.index.contents.as_slice();
        set_in_each(alloc, &mut self.authorities, contents, prefix, etrs);
    }
}
