//! The items of a configuration, each a table of an array: authorities, and in them children or sites.

ghost use Rattle.std.specs.Prelude.{◌≡◌, true, map, is_ok, IfOk};
ghost use Rattle.std.specs.List.{list_all};
ghost use Rattle.toml.specs.View.{view, table_view};
ghost use Rattle.ddt_config.specs.Table.{each, item_of, items_in};
ghost use Rattle.ddt_config.specs.Reading.{Reads};

use crate::fault::{ConfigFault, Key};
use crate::members::{table_in, tables_at};
use ddt_path::{Listed, Role};
use std::alloc::{AllocError, Global};
use toml::{Table, Value};

/// An item of a configuration as its table has it: an authority, a child or a site.
pub trait ConfigItem: Drop {
    ghost use Rattle.std.specs.Prelude.{Bool, Result, is_ok};
    ghost use Rattle.toml.specs.Data.{Members};
    ghost use Rattle.ddt_path.specs.declared.record.Role.{Role as RoleValue};
    ghost use Rattle.ddt_config.specs.declared.fault.ConfigFault.{ConfigFault as FaultValue};

    /// The item of the finished configuration, whose locators are in sets of at most 8.
    type Finished: Drop;

    ghost item_in: { RoleValue → Members → Result Self FaultValue };

    ghost has_room: { Self → Bool };

    ghost finished: { Self → Self.Finished };

    /// Reads the item in a table, in the configuration of servers of this role.
    fn read(alloc: Global, role: Role, table: &Table) -> Result<Self, ConfigFault>
        ensures { Reads (item_in role (table_view table.now)) result };

    /// Whether the item can be read in a table.
    fn is_read(role: Role, table: &Table) -> bool
        ensures { result ≡ is_ok (item_in role (table_view table.now)) };

    /// Returns the item with its locators in sets. None of its lists of locators has more than 8.
    fn finish(&self, alloc: Global) -> Result<Self::Finished, AllocError>
        requires { has_room self.now ≡ true }
        ensures { IfOk result (λ item. item ≡ finished self.now) };
}

/// Reads the items at a key, in order; none if the key is missing.
pub fn items_at<T: ConfigItem>(
    alloc: Global,
    role: Role,
    table: &Table,
    key: Key,
) -> Result<Listed<T>, ConfigFault>
    ensures { Reads (items_in key (T.item_in role) (table_view table.now)) result }
{
    let values = tables_at(table, key)?;
    read_each::<T>(alloc, role, values, key)
}

/// Whether the items at a key can be read.
pub fn are_read<T: ConfigItem>(role: Role, table: &Table, key: Key) -> bool
    ensures { result ≡ is_ok (items_in key (T.item_in role) (table_view table.now)) }
{
    match tables_at(table, key) {
        Ok(values) => is_each_read::<T>(role, values, key),
        Err(_) => false,
    }
}

fn is_each_read<T: ConfigItem>(role: Role, values: &[Value], key: Key) -> bool
    ensures { result ≡ list_all (λ v. is_ok (item_of key (T.item_in role) (view v))) values.now }
{
    values
        .iter()
        .all(|value| is_item_read::<T>(role, value, key))
}

fn is_item_read<T: ConfigItem>(role: Role, value: &Value, key: Key) -> bool
    ensures { result ≡ is_ok (item_of key (T.item_in role) (view value.now)) }
{
    match table_in(value, key) {
        Ok(table) => T::is_read(role, table),
        Err(_) => false,
    }
}

fn read_each<T: ConfigItem>(
    alloc: Global,
    role: Role,
    values: &[Value],
    key: Key,
) -> Result<Listed<T>, ConfigFault>
    ensures { Reads (each (item_of key (T.item_in role)) (map view values.now)) result }
{
    let mut items = Vec::with_capacity(alloc, values.len())?;
    for value in values {
        let item = read_item::<T>(alloc, role, value, key)?;
        items.push(item)?;
    }
    Ok(Listed::of(items))
}

fn read_item<T: ConfigItem>(
    alloc: Global,
    role: Role,
    value: &Value,
    key: Key,
) -> Result<T, ConfigFault>
    ensures { Reads (item_of key (T.item_in role) (view value.now)) result }
{
    let table = table_in(value, key)?;
    T::read(alloc, role, table)
}

/// Finishes each item in order. None of their lists of locators has more than 8.
pub fn finish_each<T: ConfigItem>(
    alloc: Global,
    drafts: &[T],
) -> Result<Listed<T::Finished>, AllocError>
    requires { list_all T.has_room drafts.now ≡ true }
    ensures { IfOk result (λ items. items ≡ map T.finished drafts.now) }
{
    let mut items = Vec::with_capacity(alloc, drafts.len())?;
    for draft in drafts {
        items.push(draft.finish(alloc)?)?;
    }
    Ok(Listed::of(items))
}
