//! The OOR configuration file of a group's servers.

ghost use Rattle.std.specs.Prelude.{◌≡◌, ◌++◌, IfOk, OnOk};
ghost use Rattle.std.specs.List.{flat_map};
ghost use Rattle.ddt_deploy.specs.Export.Blocks.{authority_text, delegation_text, site_text, zone_text};
ghost use Rattle.ddt_deploy.specs.Export.Files.{IsFileOf, IsMapServerText, IsNodeText, is_whole as is_whole_of};

use crate::export::blocks::{push_authority, push_delegation, push_etrs, push_site, push_zone};
use crate::export::eid_prefix::EidPrefix;
use crate::export::file_head::head_text;
use crate::export::nodes::{Delegation, delegation_rows, families_of, zone_rows};
use crate::export::row::{Row, is_lost};
use crate::export::sites::{missing_zone_rows, site_rows};
use ddt_config::{ServerConfig, SiteEntry};
use ddt_path::{Locator, Prefix, Role};
use std::alloc::{AllocError, Global};

/// A configuration file that OOR reads.
#[derive(Drop)]
pub struct OorFile {
    pub text: Vec<u8>,
    /// Whether each delegation and each site is written, except delegations to the group itself.
    pub is_complete: bool,
}

/// Returns the configuration of a group's servers as a file of openoverlayrouter 1.3.0: of a DDT node (`operating-mode
/// = DDT`) or a Map-Server (`operating-mode = MS`), with authoritative prefixes, delegations, sites and their static
/// ETRs (RFC 8111, section 4).
///
/// The interface and the sites' keys, which the register doesn't have, are `FILL-IN`. Each zone, each delegation and
/// each site has a block. If OOR can't have it, it has a comment with its prefix and the reason.
pub fn oor_text(alloc: Global, config: &ServerConfig) -> Result<OorFile, AllocError>
    ensures { IfOk result (λ file. IsFileOf config.now file.text.items file.is_complete) }
{
    let mut text = head_text(alloc, config)?;
    let body = match config.role {
        Role::Node => node_body(alloc, config)?,
        Role::Ms => map_server_body(alloc, config)?,
    };
    text.extend_from_slice(&body.text)?;
    Ok(OorFile {
        text,
        is_complete: body.is_complete,
    })
}

/// The zones and the delegations of a DDT node.
fn node_body(alloc: Global, config: &ServerConfig) -> Result<OorFile, AllocError>
    ensures { IfOk result (λ body. IsNodeText config.now body.text.items body.is_complete) }
{
    let delegations = delegation_rows(alloc, config)?;
    let families = families_of(alloc, &delegations)?;
    let zones = zone_rows(alloc, config.authorities.as_slice(), &families)?;
    let mut text = Vec::new(alloc);
    push_zones(&mut text, &zones)?;
    push_families(&mut text, &families)?;
    push_delegations(&mut text, &delegations)?;
    Ok(OorFile {
        text,
        is_complete: are_delegations_whole(&delegations),
    })
}

/// The zones and the sites of a Map-Server.
fn map_server_body(alloc: Global, config: &ServerConfig) -> Result<OorFile, AllocError>
    ensures { IfOk result (λ body. IsMapServerText config.now body.text.items body.is_complete) }
{
    let authorities = config.authorities.as_slice();
    let zones = missing_zone_rows(alloc, authorities)?;
    let sites = site_rows(alloc, authorities)?;
    let etrs = etrs_text(alloc, &sites)?;
    let mut text = Vec::new(alloc);
    push_zones(&mut text, &zones)?;
    push_sites(&mut text, &sites, config.locators.as_slice())?;
    text.extend_from_slice(&etrs)?;
    Ok(OorFile {
        text,
        is_complete: are_sites_whole(&sites),
    })
}

fn are_delegations_whole(rows: &[Row<Delegation>]) -> bool
    ensures { result ≡ is_whole_of rows.now }
{
    rows.iter().all(|row| !is_lost(row.written))
}

fn are_sites_whole(rows: &[Row<SiteEntry>]) -> bool
    ensures { result ≡ is_whole_of rows.now }
{
    rows.iter().all(|row| !is_lost(row.written))
}

fn push_zones(text: &mut Vec<u8>, zones: &[Row<Prefix>]) -> Result<(), AllocError>
    ensures { OnOk result (text.new.items ≡ text.old.items ++ flat_map zone_text zones.now) }
{
    for zone in zones {
        push_zone(text, zone)?;
    }
    Ok(())
}

fn push_families(text: &mut Vec<u8>, families: &[EidPrefix]) -> Result<(), AllocError>
    ensures { OnOk result (text.new.items ≡ text.old.items ++ flat_map authority_text families.now) }
{
    for family in families {
        push_authority(text, *family)?;
    }
    Ok(())
}

fn push_delegations(text: &mut Vec<u8>, delegations: &[Row<Delegation>]) -> Result<(), AllocError>
    ensures { OnOk result (text.new.items ≡ text.old.items ++ flat_map delegation_text delegations.now) }
{
    for delegation in delegations {
        push_delegation(text, delegation)?;
    }
    Ok(())
}

fn push_sites(
    text: &mut Vec<u8>,
    sites: &[Row<SiteEntry>],
    peers: &[Locator],
) -> Result<(), AllocError>
    ensures { OnOk result (text.new.items ≡ text.old.items ++ flat_map (site_text peers.now) sites.now) }
{
    for site in sites {
        push_site(text, site, peers)?;
    }
    Ok(())
}

/// The static ETRs of all sites.
fn etrs_text(alloc: Global, sites: &[Row<SiteEntry>]) -> Result<Vec<u8>, AllocError> {
    let mut text = Vec::new(alloc);
    for site in sites {
        push_etrs(&mut text, &site.entry)?;
    }
    Ok(text)
}
