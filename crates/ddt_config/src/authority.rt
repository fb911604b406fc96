//! An authority: a prefix that the servers are authoritative for, with its children or its sites (RFC 8111, section
//! 4), and its table.

ghost use Rattle.std.specs.Prelude.{◌≡◌, IfOk, OnOk};
ghost use Rattle.toml.specs.Data.{table};
ghost use Rattle.toml.specs.View.{view};
ghost use Rattle.ddt_config.specs.Table.{authority_in};
ghost use Rattle.ddt_config.specs.Reading.{authority_fits};
ghost use Rattle.ddt_config.specs.Writing.{written_authority, content_data, content_key as content_key_of, IsContentSpelled, IsAuthoritySpelled};

use crate::child::{Child, ChildDraft};
use crate::config_item::{ConfigItem, are_read, finish_each, items_at};
use crate::fault::{ConfigFault, Key};
use crate::members::prefix_in;
use crate::site_entry::{SiteDraft, SiteEntry};
use crate::values::{Written, array_value, prefix_value, put};
use ddt_path::{Listed, Prefix, Prefixed, Role};
use std::alloc::{AllocError, Global};
use std::marker::Model;
use toml::{Table, Value};

/// The children or the sites of an authority.
#[derive(Debug, Drop)]
pub enum Content {
    /// The delegations of a DDT node.
    Children(Listed<Child>),
    /// The sites of a Map-Server.
    Sites(Listed<SiteEntry>),
}

/// A prefix that the servers are authoritative for (RFC 8111, section 4).
#[derive(Debug, Drop)]
pub struct Authority {
    pub prefix: Prefix,
    pub content: Content,
}

impl Prefixed for Authority {
    ghost path = { λ a. a.prefix };

    fn prefix(&self) -> Prefix {
        self.prefix
    }
}

/// The children or the sites in an authority's table.
#[derive(Debug, Drop)]
pub enum ContentDraft {
    Children(Listed<ChildDraft>),
    Sites(Listed<SiteDraft>),
}

/// An authority in its table, with any number of locators in each list. Contracts see it as an authority.
#[derive(Debug, Drop)]
pub struct AuthorityDraft {
    pub prefix: Prefix,
    pub content: ContentDraft,
}

impl Model for AuthorityDraft {
    ghost use Rattle.ddt_config.specs.declared.authority.Authority.{Authority as AuthorityValue};
    ghost use Rattle.ddt_config.specs.Reading.{content_of};

    ghost Value = { AuthorityValue };

    ghost view = { λ a. record { prefix = a.prefix; content = content_of a.content } };
}

impl Prefixed for AuthorityDraft {
    ghost path = { λ a. a.prefix };

    fn prefix(&self) -> Prefix {
        self.prefix
    }
}

impl ConfigItem for AuthorityDraft {
    type Finished = Authority;

    ghost item_in = { authority_in };

    ghost has_room = { authority_fits };

    ghost finished = { λ a. a };

    fn read(alloc: Global, role: Role, table: &Table) -> Result<AuthorityDraft, ConfigFault> {
        let prefix = prefix_in(table)?;
        let content = match role {
            Role::Node => ContentDraft::Children(items_at(alloc, role, table, Key::Child)?),
            Role::Ms => ContentDraft::Sites(items_at(alloc, role, table, Key::Site)?),
        };
        Ok(AuthorityDraft { prefix, content })
    }

    fn is_read(role: Role, table: &Table) -> bool {
        prefix_in(table).is_ok()
            && match role {
                Role::Node => are_read::<ChildDraft>(role, table, Key::Child),
                Role::Ms => are_read::<SiteDraft>(role, table, Key::Site),
            }
    }

    fn finish(&self, alloc: Global) -> Result<Authority, AllocError> {
        let content = match &self.content {
            ContentDraft::Children(children) => {
                Content::Children(finish_each(alloc, children.as_slice())?)
            }
            ContentDraft::Sites(sites) => Content::Sites(finish_each(alloc, sites.as_slice())?),
        };
        Ok(Authority {
            prefix: self.prefix,
            content,
        })
    }
}

impl Written for Authority {
    ghost written = { λ a. table (written_authority a) };

    ghost is_spelled = { IsAuthoritySpelled };

    fn write(&self, alloc: Global) -> Result<Value, AllocError> {
        let mut table = Table::new(alloc);
        let prefix = prefix_value(alloc, self.prefix)?;
        put(alloc, &mut table, Key::Prefix, prefix)?;
        let content = content_value(alloc, &self.content)?;
        put(alloc, &mut table, content_key(&self.content), content)?;
        Ok(Value::Table(table))
    }
}

fn content_key(content: &Content) -> Key
    ensures { result ≡ content_key_of content.now }
{
    match content {
        Content::Children(_) => Key::Child,
        Content::Sites(_) => Key::Site,
    }
}

fn content_value(alloc: Global, content: &Content) -> Result<Value, AllocError>
    ensures written { IfOk result (λ v. view v ≡ content_data content.now) }
    ensures spelled { OnOk result (IsContentSpelled content.now) }
{
    match content {
        Content::Children(children) => array_value(alloc, children.as_slice()),
        Content::Sites(sites) => array_value(alloc, sites.as_slice()),
    }
}
