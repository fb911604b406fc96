//! A configuration in an order that doesn't depend on the order of the register's rows.

ghost use Rattle.std.specs.Prelude.{◌≡◌, true, map, IfOk};
ghost use Rattle.std.specs.List.{list_all};
ghost use Rattle.ddt_config.specs.Shaped.{have_own_prefixes};
ghost use Rattle.ddt_config.specs.Table.{outline};
ghost use Rattle.ddt_plan.specs.Entries.{holds_own_prefixes};
ghost use Rattle.ddt_deploy.specs.Folders.Ordered.{by_prefix as by_prefix_of, ordered as ordered_of, ordered_authority as ordered_authority_of};

use ddt_config::{Authority, Content, ServerConfig};
use ddt_path::{Listed, Prefixed};
use std::alloc::{AllocError, Global};

/// Returns the same configuration with its authorities, and the children or the sites of each, in the order of their
/// prefixes. Locators keep their order, which has a meaning.
pub fn in_order(alloc: Global, config: ServerConfig) -> Result<ServerConfig, AllocError>
    ensures { IfOk result (λ c. outline c ≡ ordered_of (outline config)) }
{
    let ServerConfig {
        name,
        role,
        locators,
        authorities,
    } = config;
    let authorities = by_prefix(ordered_each(alloc, authorities)?);
    Ok(ServerConfig {
        name,
        role,
        locators,
        authorities,
    })
}

/// Returns each authority with its children or its sites in order.
fn ordered_each(
    alloc: Global,
    authorities: Listed<Authority>,
) -> Result<Listed<Authority>, AllocError>
    ensures { list_all (λ a. holds_own_prefixes a.content) authorities ≡ true
        → IfOk result (λ all. all ≡ map ordered_authority_of authorities) }
{
    let mut ordered = Vec::new(alloc);
    for authority in authorities.into_vec() {
        ordered.push(ordered_authority(authority))?;
    }
    Ok(Listed::of(ordered))
}

fn ordered_authority(authority: Authority) -> Authority
    ensures { holds_own_prefixes authority.content ≡ true → result ≡ ordered_authority_of authority }
{
    let Authority { prefix, content } = authority;
    let content = match content {
        Content::Children(children) => Content::Children(by_prefix(children)),
        Content::Sites(sites) => Content::Sites(by_prefix(sites)),
    };
    Authority { prefix, content }
}

/// Returns the items in the order of their prefixes, if no two have the same prefix.
fn by_prefix<T: Prefixed + Drop>(items: Listed<T>) -> Listed<T>
    ensures { have_own_prefixes T.path items ≡ true → result ≡ by_prefix_of T.path items }
{
    let mut sorted = items.into_vec();
    sorted.sort_unstable_by_key(|item| item.prefix());
    Listed::of(sorted)
}
