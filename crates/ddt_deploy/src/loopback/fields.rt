//! The fields of a row of a register as CSV.

ghost use Rattle.std.specs.Prelude.{◌≡◌, ◌++◌, ◌∷◌, [], IfOk, OnOk};
ghost use Rattle.csv.specs.Records.{fields_of};
ghost use Rattle.ddt_text.specs.Written.{written_prefix};
ghost use Rattle.ddt_deploy.specs.Loopback.Records.{group_fields, group_kind as group_kind_of, more_locators, site_fields, spaced, zone_fields, zone_kind as zone_kind_of};

use csv::ByteRecord;
use ddt_path::{Locator, Prefix, Role};
use ddt_register::{Group, Site, Zone};
use ddt_text::{write_locator, write_prefix};
use std::alloc::{AllocError, Global};

/// Returns the record of four fields.
pub(crate) fn record_of<'a>(
    alloc: Global,
    kind: &'a [u8],
    prefix: &'a [u8],
    group: &'a [u8],
    addresses: &'a [u8],
) -> Result<ByteRecord, AllocError>
    ensures { IfOk result (λ r. fields_of r ≡ kind.now ∷ prefix.now ∷ group.now ∷ addresses.now ∷ []) }
{
    ByteRecord::from_fields(alloc, &[kind, prefix, group, addresses])
}

fn zone_kind(kind: Role) -> &'static str
    ensures { result.now ≡ zone_kind_of kind }
{
    match kind {
        Role::Node => "node",
        Role::Ms => "ms",
    }
}

fn group_kind(kind: Role) -> &'static str
    ensures { result.now ≡ group_kind_of kind }
{
    match kind {
        Role::Node => "group-node",
        Role::Ms => "group-ms",
    }
}

/// Returns the text of a prefix.
fn prefix_text(alloc: Global, prefix: Prefix) -> Result<Vec<u8>, AllocError>
    ensures { IfOk result (λ text. text.items ≡ written_prefix prefix) }
{
    let mut text = Vec::new(alloc);
    write_prefix(&mut text, prefix)?;
    Ok(text)
}

/// Appends further locators, each after a space.
fn push_more(text: &mut Vec<u8>, locators: &[Locator]) -> Result<(), AllocError>
    ensures { OnOk result (text.new.items ≡ text.old.items ++ more_locators locators.now) }
{
    for locator in locators {
        text.push(b' ')?;
        write_locator(text, *locator)?;
    }
    Ok(())
}

/// Returns the text of locators, with one space between two of them.
fn locators_text(alloc: Global, locators: &[Locator]) -> Result<Vec<u8>, AllocError>
    ensures { IfOk result (λ text. text.items ≡ spaced locators.now) }
{
    let mut text = Vec::new(alloc);
    if let [first, more @ ..] = locators {
        write_locator(&mut text, *first)?;
        push_more(&mut text, more)?;
    }
    Ok(text)
}

/// Returns the record of a zone.
pub(crate) fn zone_record(alloc: Global, zone: &Zone) -> Result<ByteRecord, AllocError>
    ensures { IfOk result (λ r. fields_of r ≡ zone_fields zone.now) }
{
    let prefix = prefix_text(alloc, zone.prefix)?;
    record_of(
        alloc,
        zone_kind(zone.kind).as_bytes(),
        &prefix,
        zone.group.as_bytes(),
        b"",
    )
}

/// Returns the record of a site.
pub(crate) fn site_record(alloc: Global, site: &Site) -> Result<ByteRecord, AllocError>
    ensures { IfOk result (λ r. fields_of r ≡ site_fields site.now) }
{
    let prefix = prefix_text(alloc, site.prefix)?;
    let etrs = locators_text(alloc, site.etrs.as_slice())?;
    record_of(alloc, b"site", &prefix, b"", &etrs)
}

/// Returns the record of a server group.
pub(crate) fn group_record(alloc: Global, group: &Group) -> Result<ByteRecord, AllocError>
    ensures { IfOk result (λ r. fields_of r ≡ group_fields group.now) }
{
    let locators = locators_text(alloc, group.locators.as_slice())?;
    record_of(
        alloc,
        group_kind(group.kind).as_bytes(),
        b"",
        group.name.as_bytes(),
        &locators,
    )
}
