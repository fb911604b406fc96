//! The place of a fault in a configuration: in which table it is, and the text at fault.

ghost use Rattle.std.specs.Prelude.{◌≡◌, false, map, is_ok, Ok, IfOk, MatchOption, string_bytes};
ghost use Rattle.std.specs.Option.{option_map};
ghost use Rattle.toml.specs.View.{view, table_view};
ghost use Rattle.ddt_config.specs.Table.{tables_at as tables_at_of};
ghost use Rattle.ddt_config.specs.Place.{IsAt, IsWholeIfMemory, those_of, unread as unread_of, first_unread as first_unread_of, unread_below as unread_below_of, faulty_in_authority as faulty_in_authority_of, top_role as top_role_of, faulty_in as faulty_in_of};

use crate::authority::AuthorityDraft;
use crate::child::ChildDraft;
use crate::config_item::ConfigItem;
use crate::fault::{ConfigFault, Key};
use crate::members::{are_locators_at, name_in, prefix_in, role_in, tables_at, wrong_text};
use crate::site_entry::SiteDraft;
use ddt_path::Role;
use std::alloc::{AllocError, Global};
use toml::{Table, Value};

/// The table of a configuration that has a fault. The tables at a key are counted from 1, in the order of the file.
#[derive(Clone, Copy, Debug, PartialEq, Eq)]
pub enum Place {
    /// The top table.
    Top,
    /// The authority of this number.
    Authority(usize),
    /// A child of an authority: the authority's number, and the child's in it.
    Child(usize, usize),
    /// A site of an authority: the authority's number, and the site's in it.
    Site(usize, usize),
}

/// A fault of a configuration, with its place.
#[derive(Debug, Drop)]
pub struct PlacedFault {
    pub fault: ConfigFault,
    /// The table that has the fault: the top table for 1 Toml, 4 Shape and 5 Memory.
    pub place: Place,
    /// For 3 Value the text that isn't of its key's form, the first one of several; else none.
    pub text: Option<String>,
}

impl PlacedFault {
    ghost use Rattle.std.specs.Prelude.{◌≢◌, None};

    /// A fault of the whole configuration.
    pub fn of_whole(fault: ConfigFault) -> PlacedFault
        ensures { result ≡ record { fault = fault; place = Place.Top; text = None } }
    {
        PlacedFault {
            fault,
            place: Place::Top,
            text: None,
        }
    }

    /// The fault of a top table, at the first table that can't be read. It's 5 Memory, of the whole, if the fault is,
    /// and if its text can't be copied.
    pub(crate) fn in_table(alloc: Global, table: &Table, fault: ConfigFault) -> PlacedFault
        ensures placed { result.fault ≢ ConfigFault.Memory
            → (result.fault ≡ fault) × IsAt result (faulty_in_of (table_view table.now)) }
        ensures memory { IsWholeIfMemory result }
    {
        if fault == ConfigFault::Memory {
            return PlacedFault::of_whole(fault);
        }
        let (place, found) = faulty_in(table);
        match copied(alloc, wrong_text(found, fault)) {
            Ok(text) => PlacedFault { fault, place, text },
            Err(_) => PlacedFault::of_whole(ConfigFault::Memory),
        }
    }
}

fn copied(alloc: Global, text: Option<&str>) -> Result<Option<String>, AllocError>
    ensures { IfOk result (λ copy. option_map string_bytes copy ≡ option_map (λ t. t.now) text.entry) }
{
    match text {
        Some(text) => Ok(Some(String::from_str(alloc, text)?)),
        None => Ok(None),
    }
}

/// The tables at a key; none if they can't be read.
fn those_at<'t>(table: &'t Table, key: Key) -> &'t [Value]
    ensures { map view result.now ≡ those_of (tables_at_of key (table_view table.now)) }
{
    match tables_at(table, key) {
        Ok(values) => values,
        Err(_) => &[],
    }
}

/// The table that a value is, if the item can't be read in it.
fn unread<'t, T: ConfigItem>(role: Role, value: &'t Value) -> Option<&'t Table>
    ensures { option_map (λ t. table_view t.now) result
        ≡ unread_of (λ ms. is_ok (T.item_in role ms)) (view value.now) }
{
    let table = value.as_table()?;
    if T::is_read(role, table) {
        None
    } else {
        Some(table)
    }
}

/// The first table in which the item can't be read, with its number, counted from 1.
fn first_unread<'t, T: ConfigItem>(role: Role, values: &'t [Value]) -> Option<(usize, &'t Table)>
    ensures { option_map (λ found. (found.0, table_view found.1.now)) result
        ≡ first_unread_of (λ ms. is_ok (T.item_in role ms)) 1 (map view values.now) }
{
    for (index, value) in values.iter().enumerate() {
        if let Some(table) = unread::<T>(role, value) {
            return Some((index + 1, table));
        }
    }
    None
}

/// The first table below an authority that can't be read, with its place.
fn unread_below<'t>(role: Role, authority: usize, table: &'t Table) -> Option<(Place, &'t Table)>
    ensures { option_map (λ found. (found.0, table_view found.1.now)) result
        ≡ unread_below_of role authority (table_view table.now) }
{
    match role {
        Role::Node => {
            let (child, table) = first_unread::<ChildDraft>(role, those_at(table, Key::Child))?;
            Some((Place::Child(authority, child), table))
        }
        Role::Ms => {
            let (site, table) = first_unread::<SiteDraft>(role, those_at(table, Key::Site))?;
            Some((Place::Site(authority, site), table))
        }
    }
}

/// The table with the fault in the authority of this number, which can't be read.
fn faulty_in_authority<'t>(role: Role, authority: usize, table: &'t Table) -> (Place, &'t Table)
    ensures { (result.0, table_view result.1.now) ≡ faulty_in_authority_of role authority (table_view table.now) }
{
    let own = (Place::Authority(authority), table);
    if prefix_in(table).is_err() {
        return own;
    }
    match unread_below(role, authority, table) {
        Some(below) => below,
        None => own,
    }
}

/// Whether the servers are DDT nodes or Map-Servers, if the top table can be read but for its authorities.
fn top_role(table: &Table) -> Option<Role>
    ensures { MatchOption result (is_ok (top_role_of (table_view table.now)) ≡ false)
        (λ role. top_role_of (table_view table.now) ≡ Ok role) }
{
    if name_in(table).is_err() {
        return None;
    }
    match role_in(table) {
        Ok(role) if are_locators_at(table, Key::Locators) => Some(role),
        _ => None,
    }
}

/// The place of the table with the fault, and that table; the top table if each table can be read.
pub(crate) fn faulty_in<'t>(table: &'t Table) -> (Place, &'t Table)
    ensures { (result.0, table_view result.1.now) ≡ faulty_in_of (table_view table.now) }
{
    let Some(role) = top_role(table) else {
        return (Place::Top, table);
    };
    match first_unread::<AuthorityDraft>(role, those_at(table, Key::Authority)) {
        Some((authority, table)) => faulty_in_authority(role, authority, table),
        None => (Place::Top, table),
    }
}
