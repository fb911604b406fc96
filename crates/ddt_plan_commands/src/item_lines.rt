//! Zones, sites and groups that differ, as lines of fields that a tab divides. What appends fails only if out of
//! memory.

ghost use Rattle.std.specs.Prelude.{◌≡◌, ◌++◌, IfOk, OnOk};
ghost use Rattle.ddt_lines.specs.Lines.{ended, spaced};
ghost use Rattle.ddt_plan_commands.specs.Items.{
  addresses_text,
  group_lines as group_lines_of,
  home_text,
  kind_line as kind_line_of,
  locators_line as locators_line_of,
  other_locators_line as other_locators_line_of,
  role_word as role_word_of,
  row_text,
  site_text,
  site_word as site_word_of,
  zone_text,
};

use crate::effects::are_same_servers;
use ddt_path::{Locator, LocatorSet, Name, Prefix, Role};
use ddt_plan::{GroupServers, ItemChange, ServingGroup};
use ddt_text::{write_locator, write_prefix};
use std::alloc::{AllocError, Global};

/// `site`, its prefix, `added`, `removed` or `etrs`, its ETRs before and its ETRs after.
pub(crate) fn site_fields(
    alloc: Global,
    site: &ItemChange<Prefix, LocatorSet>,
) -> Result<Vec<u8>, AllocError>
    ensures { IfOk result (λ line. line.items ≡ ended (site_text site.now)) }
{
    let mut line = Vec::from_slice(alloc, b"site\t")?;
    write_prefix(&mut line, site.key)?;
    line.push(b'\t')?;
    line.extend_from_slice(site_word(&site.before, &site.after).as_bytes())?;
    line.push(b'\t')?;
    push_row(&mut line, &site.before)?;
    line.push(b'\t')?;
    push_row(&mut line, &site.after)?;
    line.push(b'\n')?;
    Ok(line)
}

/// What happens to a site, in a word.
fn site_word(before: &Option<LocatorSet>, after: &Option<LocatorSet>) -> &'static str
    ensures { result.now ≡ site_word_of before.now after.now }
{
    match (before, after) {
        (None, _) => "added",
        (Some(_), None) => "removed",
        (Some(_), Some(_)) => "etrs",
    }
}

/// Appends the addresses of a row; `-` for no such row.
fn push_row(line: &mut Vec<u8>, row: &Option<LocatorSet>) -> Result<(), AllocError>
    ensures { OnOk result (line.new.items ≡ line.old.items ++ row_text row.now) }
{
    match row {
        Some(addresses) => push_addresses(line, addresses.as_slice()),
        None => {
            line.push(b'-')?;
            Ok(())
        }
    }
}

/// Appends addresses with a blank between two; `-` for none.
fn push_addresses(line: &mut Vec<u8>, addresses: &[Locator]) -> Result<(), AllocError>
    ensures { OnOk result (line.new.items ≡ line.old.items ++ addresses_text addresses.now) }
{
    match addresses {
        [] => {
            line.push(b'-')?;
            Ok(())
        }
        [first, rest @ ..] => {
            write_locator(line, *first)?;
            push_spaced(line, rest)
        }
    }
}

/// Appends each address behind a blank.
fn push_spaced(line: &mut Vec<u8>, addresses: &[Locator]) -> Result<(), AllocError>
    ensures { OnOk result (line.new.items ≡ line.old.items ++ spaced addresses.now) }
{
    for address in addresses {
        line.push(b' ')?;
        write_locator(line, *address)?;
    }
    Ok(())
}

/// `zone`, its prefix, its kind and group before, and its kind and group after.
pub(crate) fn zone_fields(
    alloc: Global,
    zone: &ItemChange<Prefix, ServingGroup>,
) -> Result<Vec<u8>, AllocError>
    ensures { IfOk result (λ line. line.items ≡ ended (zone_text zone.now)) }
{
    let mut line = Vec::from_slice(alloc, b"zone\t")?;
    write_prefix(&mut line, zone.key)?;
    line.push(b'\t')?;
    push_home(&mut line, &zone.before)?;
    line.push(b'\t')?;
    push_home(&mut line, &zone.after)?;
    line.push(b'\n')?;
    Ok(line)
}

/// Appends the kind of a zone and its group; `-` for no such zone.
fn push_home(line: &mut Vec<u8>, home: &Option<ServingGroup>) -> Result<(), AllocError>
    ensures { OnOk result (line.new.items ≡ line.old.items ++ home_text home.now) }
{
    match home {
        Some(home) => {
            line.extend_from_slice(role_word(home.kind).as_bytes())?;
            line.push(b' ')?;
            line.extend_from_slice(home.group.as_bytes())
        }
        None => {
            line.push(b'-')?;
            Ok(())
        }
    }
}

/// The kind of a zone or a group, as a register has it.
pub(crate) fn role_word(kind: Role) -> &'static str
    ensures { result.now ≡ role_word_of kind }
{
    match kind {
        Role::Node => "node",
        Role::Ms => "ms",
    }
}

/// The lines of a group whose kind or locators differ.
pub(crate) fn group_lines(
    alloc: Global,
    group: &ItemChange<Name, GroupServers>,
) -> Result<Vec<u8>, AllocError>
    ensures { IfOk result (λ lines. lines.items ≡ group_lines_of group.now.key group.now.before group.now.after) }
{
    match (&group.before, &group.after) {
        (Some(before), Some(after)) => lines_of_both(alloc, &group.key, before, after),
        (Some(before), None) => { locators_line(alloc, &group.key, &Some(before.locators), &None) }
        (None, Some(after)) => locators_line(alloc, &group.key, &None, &Some(after.locators)),
        (None, None) => Ok(Vec::new(alloc)),
    }
}

/// The lines of a group that both registers have.
fn lines_of_both(
    alloc: Global,
    name: &Name,
    before: &GroupServers,
    after: &GroupServers,
) -> Result<Vec<u8>, AllocError>
    ensures { IfOk result (λ lines. lines.items ≡ kind_line_of name.now before.now.kind after.now.kind
        ++ other_locators_line_of name.now before.now.locators after.now.locators) }
{
    let mut lines = kind_line(alloc, name, before.kind, after.kind)?;
    let locators = other_locators_line(alloc, name, &before.locators, &after.locators)?;
    lines.extend_from_slice(&locators)?;
    Ok(lines)
}

/// `group`, its name, `kind`, its kind before and its kind after, if they differ.
fn kind_line(alloc: Global, name: &Name, before: Role, after: Role) -> Result<Vec<u8>, AllocError>
    ensures { IfOk result (λ line. line.items ≡ kind_line_of name.now before after) }
{
    if before == after {
        return Ok(Vec::new(alloc));
    }
    let mut line = Vec::from_slice(alloc, b"group\t")?;
    line.extend_from_slice(name.as_bytes())?;
    line.extend_from_slice(b"\tkind\t")?;
    line.extend_from_slice(role_word(before).as_bytes())?;
    line.push(b'\t')?;
    line.extend_from_slice(role_word(after).as_bytes())?;
    line.push(b'\n')?;
    Ok(line)
}

/// The line of the locators of a group that both registers have, if they differ.
fn other_locators_line(
    alloc: Global,
    name: &Name,
    before: &LocatorSet,
    after: &LocatorSet,
) -> Result<Vec<u8>, AllocError>
    ensures { IfOk result (λ line. line.items ≡ other_locators_line_of name.now before.now after.now) }
{
    if are_same_servers(before, after) {
        return Ok(Vec::new(alloc));
    }
    locators_line(alloc, name, &Some(*before), &Some(*after))
}

/// `group`, its name, `locators`, its locators before and its locators after.
fn locators_line(
    alloc: Global,
    name: &Name,
    before: &Option<LocatorSet>,
    after: &Option<LocatorSet>,
) -> Result<Vec<u8>, AllocError>
    ensures { IfOk result (λ line. line.items ≡ locators_line_of name.now before.now after.now) }
{
    let mut line = Vec::from_slice(alloc, b"group\t")?;
    line.extend_from_slice(name.as_bytes())?;
    line.extend_from_slice(b"\tlocators\t")?;
    push_row(&mut line, before)?;
    line.push(b'\t')?;
    push_row(&mut line, after)?;
    line.push(b'\n')?;
    Ok(line)
}
