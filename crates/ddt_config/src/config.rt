//! The configuration of the servers of one group: the delegations of a DDT node or the sites of a Map-Server (RFC
//! 8111, section 4).

ghost use Rattle.std.specs.Prelude.{◌≡◌, true};
ghost use Rattle.ddt_config.specs.Shaped.{is_shaped as is_shaped_of};

use crate::authority::{Authority, AuthorityDraft};
use crate::config_item::{finish_each, items_at};
use crate::fault::{ConfigFault, Key};
use crate::members::{locators_at, name_in, role_in};
use crate::shape::{is_shaped, require_shaped};
use crate::values::{array_value, name_value, put, role_value};
use ddt_path::{Listed, Locator, LocatorSet, Name, Role};
use std::alloc::{AllocError, Global};
use std::marker::Model;
use toml::Table;

/// The configuration of the servers of one group. Its authorities have distinct prefixes, and contain children where
/// the servers are DDT nodes, or sites where they are Map-Servers. Children don't overlap; sites have distinct
/// prefixes and may lie inside one another.
#[derive(Debug, Drop)]
pub struct ServerConfig {
    /// The name of the group.
    pub name: Name,
    /// Whether the servers are DDT nodes or Map-Servers.
    pub role: Role,
    /// Their locators, 1 to 8, no two alike.
    pub locators: LocatorSet,
    pub authorities: Listed<Authority>,
    pub ghost shaped: { is_shaped_of role locators authorities ≡ true },
}

/// A configuration as it is read, of any shape, with any number of locators in each list. Contracts see its outline.
#[derive(Debug, Drop)]
pub struct Draft {
    name: Name,
    role: Role,
    locators: Listed<Locator>,
    authorities: Listed<AuthorityDraft>,
}

impl Model for Draft {
    ghost use Rattle.ddt_config.specs.Table.{Outline};

    ghost Value = { Outline };

    ghost view = { λ d. record { name = d.name; role = d.role; locators = d.locators; authorities = d.authorities } };
}

impl Draft {
    ghost use Rattle.toml.specs.View.{table_view};
    ghost use Rattle.ddt_config.specs.Table.{outline_in};
    ghost use Rattle.ddt_config.specs.Reading.{Reads};

    /// Reads the draft in a table, whatever its shape.
    pub fn read(alloc: Global, table: &Table) -> Result<Draft, ConfigFault>
        ensures { Reads (outline_in (table_view table.now)) result }
    {
        let name = name_in(table)?;
        let role = role_in(table)?;
        let locators = locators_at(alloc, table, Key::Locators)?;
        let authorities = items_at::<AuthorityDraft>(alloc, role, table, Key::Authority)?;
        Ok(Draft {
            name,
            role,
            locators,
            authorities,
        })
    }
}

impl ServerConfig {
    ghost use Rattle.std.specs.Prelude.{◌≢◌, Ok, Err, IfOk, IfErr, OnOk};
    ghost use Rattle.toml.specs.View.{table_view};
    ghost use Rattle.ddt_config.specs.Table.{outline, with_shape, config_in};
    ghost use Rattle.ddt_config.specs.Writing.{written_config};

    /// Makes the configuration of a draft. Refused as 4 Shape where the draft isn't shaped, and as 5 Memory if out of
    /// memory.
    pub(crate) fn of(alloc: Global, draft: &Draft) -> Result<ServerConfig, ConfigFault>
        ensures found { IfOk result (λ c. with_shape draft.now ≡ Ok (outline c)) }
        ensures refused { IfErr result (λ fault. fault ≢ ConfigFault.Memory → with_shape draft.now ≡ Err fault) }
    {
        let locators = draft.locators.as_slice();
        let authorities = draft.authorities.as_slice();
        require_shaped(is_shaped(alloc, draft.role, locators, authorities))?;
        let authorities = finish_each(alloc, authorities)?;
        Ok(ServerConfig {
            name: draft.name,
            role: draft.role,
            locators: LocatorSet::of_few(locators),
            authorities,
        })
    }

    /// Returns the table of the configuration.
    pub(crate) fn write(&self, alloc: Global) -> Result<Table, AllocError>
        ensures written { IfOk result (λ t. table_view t ≡ written_config (outline self.now)) }
        ensures back { OnOk result (config_in (written_config (outline self.now)) ≡ Ok (outline self.now)) }
    {
        let mut table = Table::new(alloc);
        let name = name_value(alloc, self.name)?;
        put(alloc, &mut table, Key::Name, name)?;
        let role = role_value(alloc, self.role)?;
        put(alloc, &mut table, Key::Kind, role)?;
        let locators = array_value(alloc, self.locators.as_slice())?;
        put(alloc, &mut table, Key::Locators, locators)?;
        let authorities = array_value(alloc, self.authorities.as_slice())?;
        put(alloc, &mut table, Key::Authority, authorities)?;
        Ok(table)
    }
}
