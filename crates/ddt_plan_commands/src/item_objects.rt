//! Zones, sites and groups that differ as JSON objects, each a line. Each fails only if out of memory.

ghost use Rattle.std.specs.Prelude.{◌≡◌, IfOk};
ghost use Rattle.serde_json.specs.View.{view};
ghost use Rattle.serde_json.specs.Written.{compact_text};
ghost use Rattle.ddt_lines.specs.Lines.{ended};
ghost use Rattle.ddt_plan_commands.specs.ItemObjects.{
  group_servers_data,
  home_data,
  row_data,
  servers_data,
  site_data,
  zone_data,
};

use crate::item_lines::role_word;
use crate::objects::{line_of, name_value, prefix_value, server_values};
use ddt_path::{LocatorSet, Name, Prefix};
use ddt_plan::{GroupServers, ItemChange, ServingGroup};
use serde_json::{Value, json};
use std::alloc::{AllocError, Global};

/// The line of a site: its prefix, its ETRs before and its ETRs after.
#[tactic(auto, using(crate::proofs::FloatLemmas::no_floats))]
pub(crate) fn site_object(
    alloc: Global,
    site: &ItemChange<Prefix, LocatorSet>,
) -> Result<Vec<u8>, AllocError>
    ensures { IfOk result (λ line. line.items ≡ ended (compact_text (site_data site.now))) }
{
    line_of(alloc, site_value(alloc, site)?)
}

fn site_value(alloc: Global, site: &ItemChange<Prefix, LocatorSet>) -> Result<Value, AllocError>
    ensures { IfOk result (λ v. view v ≡ site_data site.now) }
{
    json!(in alloc; {
        "site": prefix_value(alloc, site.key)?,
        "before": row_value(alloc, &site.before)?,
        "after": row_value(alloc, &site.after)?
    })
}

/// The addresses of a row; null for no such row.
fn row_value(alloc: Global, row: &Option<LocatorSet>) -> Result<Value, AllocError>
    ensures { IfOk result (λ v. view v ≡ row_data row.now) }
{
    match row {
        Some(addresses) => {
            let values = server_values(alloc, addresses.as_slice())?;
            Ok(Value::Array(values))
        }
        None => Ok(Value::Null),
    }
}

/// The line of a zone: its prefix, its group and kind before, and its group and kind after.
#[tactic(auto, using(crate::proofs::FloatLemmas::no_floats))]
pub(crate) fn zone_object(
    alloc: Global,
    zone: &ItemChange<Prefix, ServingGroup>,
) -> Result<Vec<u8>, AllocError>
    ensures { IfOk result (λ line. line.items ≡ ended (compact_text (zone_data zone.now))) }
{
    line_of(alloc, zone_value(alloc, zone)?)
}

fn zone_value(alloc: Global, zone: &ItemChange<Prefix, ServingGroup>) -> Result<Value, AllocError>
    ensures { IfOk result (λ v. view v ≡ zone_data zone.now) }
{
    json!(in alloc; {
        "zone": prefix_value(alloc, zone.key)?,
        "before": home_value(alloc, &zone.before)?,
        "after": home_value(alloc, &zone.after)?
    })
}

/// The group and the kind of a zone; null for no such zone.
fn home_value(alloc: Global, home: &Option<ServingGroup>) -> Result<Value, AllocError>
    ensures { IfOk result (λ v. view v ≡ home_data home.now) }
{
    match home {
        Some(home) => {
            json!(in alloc; {
                "group": name_value(alloc, home.group)?,
                "kind": role_word(home.kind)
            })
        }
        None => Ok(Value::Null),
    }
}

/// The line of a group: its name, its kind and locators before, and its kind and locators after.
#[tactic(auto, using(crate::proofs::FloatLemmas::no_floats))]
pub(crate) fn group_servers_object(
    alloc: Global,
    group: &ItemChange<Name, GroupServers>,
) -> Result<Vec<u8>, AllocError>
    ensures { IfOk result (λ line. line.items ≡ ended (compact_text (group_servers_data group.now))) }
{
    line_of(alloc, group_servers_value(alloc, group)?)
}

fn group_servers_value(
    alloc: Global,
    group: &ItemChange<Name, GroupServers>,
) -> Result<Value, AllocError>
    ensures { IfOk result (λ v. view v ≡ group_servers_data group.now) }
{
    json!(in alloc; {
        "group": name_value(alloc, group.key)?,
        "before": servers_value(alloc, &group.before)?,
        "after": servers_value(alloc, &group.after)?
    })
}

/// The kind and the locators of a group; null for no such group.
fn servers_value(alloc: Global, servers: &Option<GroupServers>) -> Result<Value, AllocError>
    ensures { IfOk result (λ v. view v ≡ servers_data servers.now) }
{
    match servers {
        Some(servers) => {
            json!(in alloc; {
                "kind": role_word(servers.kind),
                "locators": server_values(alloc, servers.locators.as_slice())?
            })
        }
        None => Ok(Value::Null),
    }
}
