//! An authority of a server: its prefix, with its children or sites.

ghost use Rattle.std.specs.Prelude.{◌≡◌, ◌<◌, [], length, take, map, IfOk, IsOk};
ghost use Rattle.std.specs.List.{sum_by};
ghost use Rattle.ddt_trie.specs.PrefixMap.{most_entries};
ghost use Rattle.ddt_config.specs.Entries.{prefixes_in, count_in};
ghost use Rattle.ddt_node.specs.Served.{content_of, sites_in};

use crate::delegations::Delegations;
use ddt_config::{Authority, Content, SiteEntry};
use ddt_path::{Listed, Prefix, Prefixed};
use std::alloc::{AllocError, Global};
use std::marker::Model;

/// The content of an authority.
#[derive(Drop)]
pub enum ServedContent {
    /// The delegations of a DDT node.
    Children(Delegations),
    /// The sites of a Map-Server.
    Sites(Listed<SiteEntry>),
}

/// A prefix that a server is authoritative for, with its content. Contracts see the authority of the configuration.
#[derive(Drop)]
pub struct ServedAuthority {
    pub(crate) prefix: Prefix,
    pub(crate) content: ServedContent,
}

impl Model for ServedAuthority {
    ghost use Rattle.ddt_config.specs.declared.authority.Authority.{Authority as AuthorityValue};
    ghost use Rattle.ddt_node.specs.Served.{content_of};

    ghost Value = { AuthorityValue };

    ghost view = { λ a. record { prefix = a.prefix; content = content_of a.content } };
}

impl Prefixed for ServedAuthority {
    ghost path = { λ a. a.prefix };

    fn prefix(&self) -> Prefix {
        self.prefix
    }
}

impl ServedAuthority {
    /// The sites of the authority; one of a DDT node has none.
    pub fn sites(&self) -> &[SiteEntry]
        ensures { result.now ≡ sites_in self.now.content }
    {
        match &self.content {
            ServedContent::Children(_children) => &[],
            ServedContent::Sites(sites) => sites.as_slice(),
        }
    }
}

/// The content of an authority of a configuration. Fails only if out of memory.
fn served_content(alloc: Global, content: &Content) -> Result<ServedContent, AllocError>
    requires { length (prefixes_in content.now) < most_entries }
    ensures { IfOk result (λ served. content_of served ≡ content.now) }
{
    match content {
        Content::Children(children) => {
            let delegations = Delegations::of(alloc, children.as_slice())?;
            Ok(ServedContent::Children(delegations))
        }
        Content::Sites(sites) => {
            let sites = Vec::from_slice(alloc, sites.as_slice())?;
            Ok(ServedContent::Sites(Listed::of(sites)))
        }
    }
}

/// The authorities of a configuration, for a server. Fails only if out of memory; no authorities need none.
pub fn served(alloc: Global, authorities: &[Authority]) -> Result<Vec<ServedAuthority>, AllocError>
    requires { sum_by count_in authorities.now < most_entries }
    ensures served { IfOk result (λ served. served.items ≡ authorities.now) }
    ensures none { authorities.now ≡ [] → IsOk result }
{
    let mut served = Vec::with_capacity(alloc, authorities.len())?;
    for authority in authorities {
        served.push(ServedAuthority {
            prefix: authority.prefix,
            content: served_content(alloc, &authority.content)?,
        })?;
    }
    Ok(served)
}
