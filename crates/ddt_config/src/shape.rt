//! Tests the shape of a configuration: which authorities, children and sites its servers may have.

ghost use Rattle.std.specs.Prelude.{◌≡◌, ◌≢◌, true, false, Ok, OnOk, IfOk, IfErr};
ghost use Rattle.std.specs.List.{list_all};
ghost use Rattle.ddt_config.specs.declared.authority.Content.{Content};
ghost use Rattle.ddt_config.specs.declared.fault.ConfigFault.TheVariants.{Shape};
ghost use Rattle.ddt_config.specs.Table.{shape_verdict};
ghost use Rattle.ddt_config.specs.Shaped.{is_shaped as is_shaped_of, is_server_set as is_server_set_of, is_child_of as is_child_of_path, is_site_of as is_site_of_path, is_content_of as is_content_of_role, is_authority_of as is_authority_of_role};

use crate::authority::{AuthorityDraft, ContentDraft};
use crate::child::ChildDraft;
use crate::fault::ConfigFault;
use crate::neighbours::{Clash, have_no_clash};
use crate::site_entry::SiteDraft;
use ddt_path::{Locator, MOST_LOCATORS, Prefix, Role, are_distinct};
use std::alloc::{AllocError, Global};

/// Whether servers of this role and with these locators may have these authorities. Fails only if out of memory.
pub fn is_shaped(
    alloc: Global,
    role: Role,
    locators: &[Locator],
    authorities: &[AuthorityDraft],
) -> Result<bool, AllocError>
    ensures { IfOk result (λ answer. answer ≡ is_shaped_of role locators.now authorities.now) }
{
    if !is_server_set(locators) || !are_distinct(locators) {
        return Ok(false);
    }
    if !have_no_clash(alloc, authorities, Clash::Same)? {
        return Ok(false);
    }
    are_authorities_of(alloc, role, authorities)
}

/// Refuses a draft by the result of `is_shaped`: as 4 Shape if it isn't shaped, and as 5 Memory if the test ran out of
/// memory.
pub fn require_shaped(shaped: Result<bool, AllocError>) -> Result<(), ConfigFault>
    ensures exact { result ≡ shape_verdict shaped }
    ensures right { OnOk result (shaped ≡ Ok true) }
    ensures wrong { IfErr result (λ fault. fault ≢ ConfigFault.Memory → (shaped ≡ Ok false) × (fault ≡ Shape)) }
{
    match shaped {
        Ok(true) => Ok(()),
        Ok(false) => Err(ConfigFault::Shape),
        Err(AllocError) => Err(ConfigFault::Memory),
    }
}

fn is_server_set(locators: &[Locator]) -> bool
    ensures { result ≡ is_server_set_of locators.now }
{
    !locators.is_empty() && locators.len() <= MOST_LOCATORS
}

fn are_authorities_of(
    alloc: Global,
    role: Role,
    authorities: &[AuthorityDraft],
) -> Result<bool, AllocError>
    ensures { IfOk result (λ answer. answer ≡ list_all (is_authority_of_role role) authorities.now) }
{
    for authority in authorities {
        if !is_authority_of(alloc, role, authority)? {
            return Ok(false);
        }
    }
    Ok(true)
}

fn is_authority_of(
    alloc: Global,
    role: Role,
    authority: &AuthorityDraft,
) -> Result<bool, AllocError>
    ensures { IfOk result (λ answer. answer ≡ is_authority_of_role role authority.now) }
{
    match &authority.content {
        ContentDraft::Children(children) => {
            are_children_of(alloc, role, authority.prefix, children.as_slice())
        }
        ContentDraft::Sites(sites) => are_sites_of(alloc, role, authority.prefix, sites.as_slice()),
    }
}

fn are_children_of(
    alloc: Global,
    role: Role,
    authority: Prefix,
    children: &[ChildDraft],
) -> Result<bool, AllocError>
    ensures { IfOk result (λ answer. answer ≡ is_content_of_role role authority (Content.Children children.now)) }
{
    if role != Role::Node || !are_inside(authority, children) {
        return Ok(false);
    }
    have_no_clash(alloc, children, Clash::Overlap)
}

fn are_inside(authority: Prefix, children: &[ChildDraft]) -> bool
    ensures { result ≡ list_all (is_child_of_path authority) children.now }
{
    children.iter().all(|c| is_child_of(authority, c))
}

fn is_child_of(authority: Prefix, child: &ChildDraft) -> bool
    ensures { result ≡ is_child_of_path authority child.now }
{
    child.prefix.is_strictly_below(authority) && is_server_set(child.locators.as_slice())
}

fn are_sites_of(
    alloc: Global,
    role: Role,
    authority: Prefix,
    sites: &[SiteDraft],
) -> Result<bool, AllocError>
    ensures { IfOk result (λ answer. answer ≡ is_content_of_role role authority (Content.Sites sites.now)) }
{
    if role != Role::Ms || !are_covered(authority, sites) {
        return Ok(false);
    }
    have_no_clash(alloc, sites, Clash::Same)
}

fn are_covered(authority: Prefix, sites: &[SiteDraft]) -> bool
    ensures { result ≡ list_all (is_site_of_path authority) sites.now }
{
    sites.iter().all(|s| is_site_of(authority, s))
}

fn is_site_of(authority: Prefix, site: &SiteDraft) -> bool
    ensures { result ≡ is_site_of_path authority site.now }
{
    authority.covers(site.prefix) && site.etrs.as_slice().len() <= MOST_LOCATORS
}
