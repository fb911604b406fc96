//! The blocks of OOR's configuration, and comments in place of those that are missing.

ghost use Rattle.std.specs.Prelude.{◌≡◌, ◌++◌, OnOk, decimal};
ghost use Rattle.ddt_deploy.specs.Export.Blocks.{authority_text, closing, delegation_text, delegation_type as delegation_type_of, eid_line, front_text, iid_line, lisp_site_text, listed_locators, locators_text, missing_text, more_locators, nodes_line, opening, referral_text, site_text, type_line, word_line, zone_text};

use crate::export::eid_prefix::EidPrefix;
use crate::export::nodes::Delegation;
use crate::export::row::{Missing, Row};
use ddt_config::{Child, SiteEntry};
use ddt_path::{Locator, LocatorSet, Prefix, Role};
use ddt_text::{write_locator, write_prefix};
use std::alloc::AllocError;

/// Appends a number.
fn push_number(text: &mut Vec<u8>, number: u32) -> Result<(), AllocError>
    ensures { OnOk result (text.new.items ≡ text.old.items ++ decimal number) }
{
    let digits = format!(in *text.allocator(); "{number}")?;
    text.extend_from_slice(digits.as_bytes())
}

/// Appends the comment that a prefix is missing, and why.
#[tactic(auto, unfolding(crate::specs::Export::Blocks::missing_text))]
fn push_missing(text: &mut Vec<u8>, prefix: Prefix, missing: Missing) -> Result<(), AllocError>
    ensures { OnOk result (text.new.items ≡ text.old.items ++ missing_text prefix missing) }
{
    text.extend_from_slice(b"\n# ")?;
    write_prefix(text, prefix)?;
    text.extend_from_slice(b": not written: ")?;
    text.extend_from_slice(missing.reason().as_bytes())?;
    text.extend_from_slice(b"\n")
}

/// Appends the line in which a block begins.
#[tactic(auto, unfolding(crate::specs::Export::Blocks::opening))]
fn push_opening(text: &mut Vec<u8>, name: &str) -> Result<(), AllocError>
    ensures { OnOk result (text.new.items ≡ text.old.items ++ opening name.now) }
{
    text.extend_from_slice(b"\n")?;
    text.extend_from_slice(name.as_bytes())?;
    text.extend_from_slice(b" {\n")
}

/// Appends the line of a block's prefix.
#[tactic(auto, unfolding(crate::specs::Export::Blocks::eid_line))]
fn push_eid_line(text: &mut Vec<u8>, eid: EidPrefix) -> Result<(), AllocError>
    ensures { OnOk result (text.new.items ≡ text.old.items ++ eid_line eid) }
{
    text.extend_from_slice(b"    eid-prefix = ")?;
    write_locator(text, eid.address)?;
    text.extend_from_slice(b"/")?;
    push_number(text, u32::from(eid.len))?;
    text.extend_from_slice(b"\n")
}

/// Appends the line of a block's Instance ID.
#[tactic(auto, unfolding(crate::specs::Export::Blocks::iid_line))]
fn push_iid_line(text: &mut Vec<u8>, eid: EidPrefix) -> Result<(), AllocError>
    ensures { OnOk result (text.new.items ≡ text.old.items ++ iid_line eid) }
{
    text.extend_from_slice(b"    iid = ")?;
    push_number(text, eid.iid)?;
    text.extend_from_slice(b"\n")
}

/// Appends the front of a block: its name and its prefix.
#[tactic(auto, unfolding(crate::specs::Export::Blocks::front_text))]
fn push_front(text: &mut Vec<u8>, name: &str, eid: EidPrefix) -> Result<(), AllocError>
    ensures { OnOk result (text.new.items ≡ text.old.items ++ front_text name.now eid) }
{
    push_opening(text, name)?;
    push_eid_line(text, eid)?;
    push_iid_line(text, eid)
}

/// Appends the line in which a block ends.
#[tactic(auto, unfolding(crate::specs::Export::Blocks::closing))]
fn push_closing(text: &mut Vec<u8>) -> Result<(), AllocError>
    ensures { OnOk result (text.new.items ≡ text.old.items ++ closing) }
{
    text.extend_from_slice(b"}\n")
}

/// Appends the line of a key that has one word.
#[tactic(auto, unfolding(crate::specs::Export::Blocks::word_line))]
fn push_word_line(text: &mut Vec<u8>, key: &str, word: &str) -> Result<(), AllocError>
    ensures { OnOk result (text.new.items ≡ text.old.items ++ word_line key.now word.now) }
{
    text.extend_from_slice(b"    ")?;
    text.extend_from_slice(key.as_bytes())?;
    text.extend_from_slice(b" = ")?;
    text.extend_from_slice(word.as_bytes())?;
    text.extend_from_slice(b"\n")
}

/// Appends further locators, each after a comma.
fn push_more(text: &mut Vec<u8>, locators: &[Locator]) -> Result<(), AllocError>
    ensures { OnOk result (text.new.items ≡ text.old.items ++ more_locators locators.now) }
{
    for locator in locators {
        text.extend_from_slice(b", ")?;
        write_locator(text, *locator)?;
    }
    Ok(())
}

/// Appends locators with commas between them.
fn push_listed(text: &mut Vec<u8>, locators: &[Locator]) -> Result<(), AllocError>
    ensures { OnOk result (text.new.items ≡ text.old.items ++ listed_locators locators.now) }
{
    match locators {
        [] => Ok(()),
        [first, more @ ..] => {
            write_locator(text, *first)?;
            push_more(text, more)
        }
    }
}

/// Appends a list of locators at a key.
#[tactic(auto, unfolding(crate::specs::Export::Blocks::locators_text))]
fn push_locators(text: &mut Vec<u8>, key: &str, locators: &[Locator]) -> Result<(), AllocError>
    ensures { OnOk result (text.new.items ≡ text.old.items ++ locators_text key.now locators.now) }
{
    text.extend_from_slice(b"    ")?;
    text.extend_from_slice(key.as_bytes())?;
    text.extend_from_slice(b" = { ")?;
    push_listed(text, locators)?;
    text.extend_from_slice(b" }\n")
}

/// Appends a prefix that a DDT node is authoritative for.
#[tactic(auto, unfolding(crate::specs::Export::Blocks::authority_text))]
pub(crate) fn push_authority(text: &mut Vec<u8>, eid: EidPrefix) -> Result<(), AllocError>
    ensures { OnOk result (text.new.items ≡ text.old.items ++ authority_text eid) }
{
    push_front(text, "ddt-auth-site", eid)?;
    push_closing(text)
}

/// Appends a zone.
pub(crate) fn push_zone(text: &mut Vec<u8>, row: &Row<Prefix>) -> Result<(), AllocError>
    ensures { OnOk result (text.new.items ≡ text.old.items ++ zone_text row.now) }
{
    match row.written {
        Ok(eid) => push_authority(text, eid),
        Err(missing) => push_missing(text, row.entry, missing),
    }
}

#[tactic(auto, unfolding(crate::specs::Export::Blocks::delegation_type))]
fn delegation_type(role: Role) -> &'static str
    ensures { result.now ≡ delegation_type_of role }
{
    match role {
        Role::Node => "CHILD_DDT_NODE",
        Role::Ms => "MAP_SERVER_DDT_NODE",
    }
}

/// Appends the line of what the servers of a delegation are.
#[tactic(auto, unfolding(crate::specs::Export::Blocks::type_line))]
fn push_type_line(text: &mut Vec<u8>, role: Role) -> Result<(), AllocError>
    ensures { OnOk result (text.new.items ≡ text.old.items ++ type_line role) }
{
    push_word_line(text, "delegation-type", delegation_type(role))
}

/// Appends the line of the locators of a delegation.
#[tactic(auto, unfolding(crate::specs::Export::Blocks::nodes_line))]
fn push_nodes_line(text: &mut Vec<u8>, locators: &LocatorSet) -> Result<(), AllocError>
    ensures { OnOk result (text.new.items ≡ text.old.items ++ nodes_line locators.now) }
{
    push_locators(text, "deleg-nodes", locators.as_slice())
}

#[tactic(auto, unfolding(crate::specs::Export::Blocks::referral_text))]
fn push_referral(text: &mut Vec<u8>, eid: EidPrefix, child: &Child) -> Result<(), AllocError>
    ensures { OnOk result (text.new.items ≡ text.old.items ++ referral_text eid child.now) }
{
    push_front(text, "ddt-deleg-site", eid)?;
    push_type_line(text, child.role)?;
    push_nodes_line(text, &child.locators)?;
    push_closing(text)?;
    Ok(())
}

/// Appends a delegation.
pub(crate) fn push_delegation(text: &mut Vec<u8>, row: &Row<Delegation>) -> Result<(), AllocError>
    ensures { OnOk result (text.new.items ≡ text.old.items ++ delegation_text row.now) }
{
    match row.written {
        Ok(eid) => push_referral(text, eid, &row.entry.child),
        Err(missing) => push_missing(text, row.entry.child.prefix, missing),
    }
}

#[tactic(auto, unfolding(crate::specs::Export::Blocks::lisp_site_text))]
fn push_lisp_site(text: &mut Vec<u8>, eid: EidPrefix, peers: &[Locator]) -> Result<(), AllocError>
    ensures { OnOk result (text.new.items ≡ text.old.items ++ lisp_site_text peers.now eid) }
{
    push_front(text, "lisp-site", eid)?;
    text.extend_from_slice(
        b"    key-type = 1\n    key = FILL-IN\n    accept-more-specifics = false\n",
    )?;
    push_locators(text, "ddt-ms-peers", peers)?;
    text.extend_from_slice(b"    ddt-ms-peers-complete = true\n}\n")
}

/// Appends a site of Map-Servers that have these locators.
pub(crate) fn push_site(
    text: &mut Vec<u8>,
    row: &Row<SiteEntry>,
    peers: &[Locator],
) -> Result<(), AllocError>
    ensures { OnOk result (text.new.items ≡ text.old.items ++ site_text peers.now row.now) }
{
    match row.written {
        Ok(eid) => push_lisp_site(text, eid, peers),
        Err(missing) => push_missing(text, row.entry.prefix, missing),
    }
}

/// Appends the ETRs of a site, if it has any. OOR sends requests to the one with the lowest priority. It also takes the
/// ETRs of a site inside another one, whose own block it drops.
pub(crate) fn push_etrs(text: &mut Vec<u8>, site: &SiteEntry) -> Result<(), AllocError> {
    let etrs = site.etrs.as_slice();
    match EidPrefix::of(site.prefix) {
        Ok(eid) if !etrs.is_empty() => {
            push_front(text, "ms-static-registered-site", eid)?;
            push_each(text, etrs)?;
            text.extend_from_slice(b"}\n")
        }
        _ => Ok(()),
    }
}

fn push_each(text: &mut Vec<u8>, etrs: &[Locator]) -> Result<(), AllocError> {
    for (place, etr) in etrs.iter().enumerate() {
        push_etr(text, place.saturating_add(1), *etr)?;
    }
    Ok(())
}

fn push_etr(text: &mut Vec<u8>, priority: usize, etr: Locator) -> Result<(), AllocError> {
    text.extend_from_slice(b"    rloc-address {\n        address = ")?;
    write_locator(text, etr)?;
    let rest = format!(in *text.allocator();
        "\n        priority = {priority}\n        weight = 100\n    }}\n"
    )?;
    text.extend_from_slice(rest.as_bytes())
}
