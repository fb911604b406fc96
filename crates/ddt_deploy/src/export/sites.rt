//! The zones and the sites of Map-Servers (RFC 8111, section 4).

ghost use Rattle.std.specs.Prelude.{◌≡◌, ◌++◌, IfOk, IsPermutation, OnOk, map};
ghost use Rattle.std.specs.List.{All, flat_map};
ghost use Rattle.ddt_deploy.specs.Export.Rows.{IsNamedBy, sites_of as sites_of_authority};

use crate::export::nodes::{apart, last_written, zones_of};
use crate::export::row::{Missing, Row};
use ddt_config::{Authority, Content, SiteEntry};
use ddt_path::Prefix;
use std::alloc::{AllocError, Global};

/// Returns the sites of all zones, in the order of their prefixes.
pub(crate) fn site_rows(
    alloc: Global,
    authorities: &[Authority],
) -> Result<Vec<Row<SiteEntry>>, AllocError>
    ensures all { IfOk result (λ rows. IsPermutation (flat_map sites_of_authority authorities.now)
        (map (λ r. r.entry) rows.items)) }
    ensures named { IfOk result (λ rows. All (λ r. IsNamedBy r.entry.prefix r.written) rows.items) }
{
    let mut sites = sites_of(alloc, authorities)?;
    sites.sort_unstable_by_key(|site| site.prefix);
    written_sites(alloc, &sites)
}

fn sites_of(alloc: Global, authorities: &[Authority]) -> Result<Vec<SiteEntry>, AllocError>
    ensures { IfOk result (λ all. all.items ≡ flat_map sites_of_authority authorities.now) }
{
    let mut all = Vec::new(alloc);
    for authority in authorities {
        push_sites(&mut all, authority)?;
    }
    Ok(all)
}

fn push_sites(all: &mut Vec<SiteEntry>, authority: &Authority) -> Result<(), AllocError>
    ensures { OnOk result (all.new.items ≡ all.old.items ++ sites_of_authority authority.now) }
{
    match &authority.content {
        Content::Children(_children) => Ok(()),
        Content::Sites(sites) => all.extend_from_slice(sites.as_slice()),
    }
}

fn written_sites(alloc: Global, sites: &[SiteEntry]) -> Result<Vec<Row<SiteEntry>>, AllocError>
    ensures all { IfOk result (λ rows. map (λ r. r.entry) rows.items ≡ sites.now) }
    ensures named { IfOk result (λ rows. All (λ r. IsNamedBy r.entry.prefix r.written) rows.items) }
{
    let mut rows = Vec::new(alloc);
    let mut outer = None;
    for site in sites {
        let written = apart(site.prefix, &outer);
        outer = last_written(&outer, site.prefix, &written);
        rows.push(Row {
            entry: *site,
            written,
        })?;
    }
    Ok(rows)
}

/// Returns the zones of Map-Servers, none of which OOR has, in the order of the configuration.
pub(crate) fn missing_zone_rows(
    alloc: Global,
    authorities: &[Authority],
) -> Result<Vec<Row<Prefix>>, AllocError>
    ensures all { IfOk result (λ rows. map (λ r. r.entry) rows.items ≡ map (λ a. a.prefix) authorities.now) }
    ensures named { IfOk result (λ rows. All (λ r. IsNamedBy r.entry r.written) rows.items) }
{
    let mut rows = Vec::new(alloc);
    for authority in authorities {
        rows.push(Row {
            entry: authority.prefix,
            written: Err(Missing::MapServerZone),
        })?;
    }
    Ok(rows)
}
