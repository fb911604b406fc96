//! The text before and after the lines of the changes: the summary; the zones, sites and groups that differ, the groups
//! whose configuration changes, and for how long caches may answer the old way. A negative answer is cached for 15
//! minutes and a referral for a day (RFC 8111, section 6), and a reply that was on its way comes up to two seconds
//! later.

ghost use Rattle.std.specs.Prelude.{◌≡◌, ◌++◌, IfOk, OnOk};
ghost use Rattle.std.specs.List.{flat_map};
ghost use Rattle.ddt_plan_commands.specs.Ending.{
  written_caches,
  written_ending,
  written_heading,
  written_items,
  written_servers,
  written_site,
  written_zone,
};
ghost use Rattle.ddt_plan_commands.specs.Written.{negative_cache, parting as parting_of, server_cache, written_group};

use crate::arguments::Form;
use crate::item_lines::{group_lines, site_fields, zone_fields};
use crate::item_objects::{group_servers_object, site_object, zone_object};
use crate::lines::group_fields;
use crate::objects::{cache_object, group_object};
use crate::review::{Review, is_different};
use crate::summary::summary_in;
use ddt_path::{LocatorSet, Name, Prefix};
use ddt_plan::{GroupChange, GroupServers, ItemChange, ItemChanges, ServingGroup};
use std::alloc::{AllocError, Global};

/// Returns the text before the changes; empty if nothing differs.
pub(crate) fn heading(alloc: Global, form: Form, found: &Review) -> Result<Vec<u8>, AllocError>
    ensures { IfOk result (λ text. text.items ≡ written_heading form found.now) }
{
    if !is_different(found) {
        return Ok(Vec::new(alloc));
    }
    let mut text = summary_in(alloc, form, found)?;
    text.extend_from_slice(parting(form).as_bytes())?;
    Ok(text)
}

/// Returns the text after the changes; empty if nothing differs.
pub(crate) fn ending(alloc: Global, form: Form, found: &Review) -> Result<Vec<u8>, AllocError>
    ensures { IfOk result (λ text. text.items ≡ written_ending form found.now) }
{
    let mut text = Vec::new(alloc);
    if !is_different(found) {
        return Ok(text);
    }
    text.extend_from_slice(parting(form).as_bytes())?;
    push_items(&mut text, form, &found.items)?;
    push_groups(&mut text, form, found.groups.as_slice())?;
    push_caches(&mut text, form, found.effects.negative, found.outdated)?;
    Ok(text)
}

/// Returns the line between the changes and the rest.
fn parting(form: Form) -> &'static str
    ensures { result.now ≡ parting_of form }
{
    match form {
        Form::Text => "\n",
        Form::Json => "",
    }
}

fn push_items(text: &mut Vec<u8>, form: Form, items: &ItemChanges) -> Result<(), AllocError>
    ensures { OnOk result (text.new.items ≡ text.old.items ++ written_items form items.now) }
{
    push_sites(text, form, items.sites.as_slice())?;
    push_zones(text, form, items.zones.as_slice())?;
    push_servers(text, form, items.groups.as_slice())
}

fn push_sites(
    text: &mut Vec<u8>,
    form: Form,
    sites: &[ItemChange<Prefix, LocatorSet>],
) -> Result<(), AllocError>
    ensures { OnOk result (text.new.items ≡ text.old.items ++ flat_map (written_site form) sites.now) }
{
    for site in sites {
        let line = match form {
            Form::Text => site_fields(*text.allocator(), site)?,
            Form::Json => site_object(*text.allocator(), site)?,
        };
        text.extend_from_slice(&line)?;
    }
    Ok(())
}

fn push_zones(
    text: &mut Vec<u8>,
    form: Form,
    zones: &[ItemChange<Prefix, ServingGroup>],
) -> Result<(), AllocError>
    ensures { OnOk result (text.new.items ≡ text.old.items ++ flat_map (written_zone form) zones.now) }
{
    for zone in zones {
        let line = match form {
            Form::Text => zone_fields(*text.allocator(), zone)?,
            Form::Json => zone_object(*text.allocator(), zone)?,
        };
        text.extend_from_slice(&line)?;
    }
    Ok(())
}

fn push_servers(
    text: &mut Vec<u8>,
    form: Form,
    groups: &[ItemChange<Name, GroupServers>],
) -> Result<(), AllocError>
    ensures { OnOk result (text.new.items ≡ text.old.items ++ flat_map (written_servers form) groups.now) }
{
    for group in groups {
        let lines = match form {
            Form::Text => group_lines(*text.allocator(), group)?,
            Form::Json => group_servers_object(*text.allocator(), group)?,
        };
        text.extend_from_slice(&lines)?;
    }
    Ok(())
}

fn push_groups(text: &mut Vec<u8>, form: Form, groups: &[GroupChange]) -> Result<(), AllocError>
    ensures { OnOk result (text.new.items ≡ text.old.items ++ flat_map (written_group form) groups.now) }
{
    for group in groups {
        let line = group_line(*text.allocator(), form, group)?;
        text.extend_from_slice(&line)?;
    }
    Ok(())
}

fn group_line(alloc: Global, form: Form, group: &GroupChange) -> Result<Vec<u8>, AllocError>
    ensures { IfOk result (λ line. line.items ≡ written_group form group.now) }
{
    match form {
        Form::Text => group_fields(alloc, group),
        Form::Json => group_object(alloc, group),
    }
}

fn push_caches(
    text: &mut Vec<u8>,
    form: Form,
    negative: bool,
    outdated: bool,
) -> Result<(), AllocError>
    ensures { OnOk result (text.new.items ≡ text.old.items ++ written_caches form negative outdated) }
{
    if negative {
        push_negative_cache(text, form)?;
    }
    if outdated {
        push_server_cache(text, form)?;
    }
    Ok(())
}

fn push_negative_cache(text: &mut Vec<u8>, form: Form) -> Result<(), AllocError>
    ensures { OnOk result (text.new.items ≡ text.old.items ++ negative_cache form) }
{
    match form {
        Form::Text => text.extend_from_slice(b"caches\tnegative answers\t15 minutes 2 seconds\n"),
        Form::Json => {
            let line = cache_object(*text.allocator(), "negative answers", 902)?;
            text.extend_from_slice(&line)
        },
    }
}

fn push_server_cache(text: &mut Vec<u8>, form: Form) -> Result<(), AllocError>
    ensures { OnOk result (text.new.items ≡ text.old.items ++ server_cache form) }
{
    match form {
        Form::Text => text.extend_from_slice(b"caches\tservers\t1 day 2 seconds\n"),
        Form::Json => {
            let line = cache_object(*text.allocator(), "servers", 86_402)?;
            text.extend_from_slice(&line)
        },
    }
}
