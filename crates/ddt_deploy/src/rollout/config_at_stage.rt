//! The configuration of a group at a stage.

ghost use Rattle.std.specs.Prelude.{◌≡◌, ◌≢◌, ◌&&◌, [], Some, None, true, not, IfOk, IfErr};
ghost use Rattle.std.specs.List.{filter};
ghost use Rattle.std.specs.Ordering.{nat_cmp};
ghost use Rattle.std.specs.Cmp.Lexicographic.{slice_cmp};
ghost use Rattle.std.specs.BTreeSet.{contains};
ghost use Rattle.std.specs.Option.{option_map, option_copied, SomeIff};
ghost use Rattle.ddt_path.specs.Locators.{lists};
ghost use Rattle.ddt_check.specs.Zones.{is_same_role as is_same_role_of};
ghost use Rattle.ddt_config.specs.Table.{outline};
ghost use Rattle.ddt_deploy.specs.Rollout.Between.{HasZones, are_group_locators};
ghost use Rattle.ddt_deploy.specs.Rollout.Between.{authorities_at as authorities_at_of, with_authorities as with_authorities_of};
ghost use Rattle.ddt_deploy.specs.Rollout.Between.{config_at as config_at_of, config_before_last, config_between as config_between_of};
ghost use Rattle.ddt_deploy.specs.Rollout.Between.{locators_between as locators_between_of, authorities_in_force as authorities_in_force_of};
ghost use Rattle.ddt_deploy.specs.Rollout.Between.{continues as continues_of, is_in_force as is_in_force_of, may_be_cached as may_be_cached_of};
ghost use Rattle.ddt_deploy.specs.Rollout.Between.{refusal_at, refusal_before_last, refusal_between};

use crate::rollout::fault::RolloutFault;
use crate::rollout::stage::Stage;
use ddt_config::{Authority, ServerConfig};
use ddt_path::{Listed, Locator, LocatorSet, Prefix, Role, are_distinct};
use std::alloc::{AllocError, Global};
use std::collections::{BTreeMap, BTreeSet};

/// The number of waits for which each lost zone stays served, by its prefix. A zone whose prefix isn't there always
/// stays.
pub(crate) type Waits = BTreeMap<Prefix, u32>;

/// Returns the configuration of a group at a stage, by its configurations in both registers; None if it has none at the
/// stage. Refused as Role, Locators or Memory, as `configurations_at` is.
pub(crate) fn config_at(
    alloc: Global,
    stage: Stage,
    kept: &Waits,
    earlier: Option<ServerConfig>,
    later: Option<ServerConfig>,
) -> Result<Option<ServerConfig>, RolloutFault>
    ensures found { IfOk result (λ found. option_map outline found
        ≡ config_at_of stage kept.now (option_map outline earlier) (option_map outline later)) }
    ensures good { IfOk result (λ _. refusal_at stage (option_map outline earlier) (option_map outline later)
        ≡ None) }
    ensures refused { IfErr result (λ fault. fault ≢ RolloutFault.Memory
        → refusal_at stage (option_map outline earlier) (option_map outline later) ≡ Some fault) }
{
    match stage {
        Stage::Last => Ok(later),
        Stage::From(_) | Stage::After(_) => before_last(alloc, stage, kept, earlier, later),
    }
}

/// Returns the configuration before the last stage.
fn before_last(
    alloc: Global,
    stage: Stage,
    kept: &Waits,
    earlier: Option<ServerConfig>,
    later: Option<ServerConfig>,
) -> Result<Option<ServerConfig>, RolloutFault>
    ensures found { IfOk result (λ found. option_map outline found ≡ config_before_last stage kept.now
        (option_map outline earlier) (option_map outline later)) }
    ensures good { IfOk result (λ _. refusal_before_last (option_map outline earlier) (option_map outline later)
        ≡ None) }
    ensures refused { IfErr result (λ fault. fault ≢ RolloutFault.Memory
        → refusal_before_last (option_map outline earlier) (option_map outline later) ≡ Some fault) }
{
    match (earlier, later) {
        (None, None) => Ok(None),
        (Some(earlier), None) => Ok(Some(removed_group_config(alloc, stage, kept, earlier)?)),
        (None, Some(later)) => Ok(Some(added_group_config(alloc, stage, kept, later)?)),
        (Some(earlier), Some(later)) => {
            Ok(Some(config_between(alloc, stage, kept, earlier, later)?))
        }
    }
}

/// Returns the configuration of a group that the later register lacks.
fn removed_group_config(
    alloc: Global,
    stage: Stage,
    kept: &Waits,
    earlier: ServerConfig,
) -> Result<ServerConfig, AllocError>
    ensures { IfOk result (λ c. outline c ≡ with_authorities_of (outline earlier)
        (authorities_at_of stage kept.now (outline earlier).authorities [])) }
{
    let ServerConfig {
        name,
        role,
        locators,
        authorities,
    } = earlier;
    let none = Listed::of(Vec::new(alloc));
    let authorities = authorities_at(alloc, stage, kept, authorities, none)?;
    Ok(ServerConfig {
        name,
        role,
        locators,
        authorities,
    })
}

/// Returns the configuration of a group that the earlier register lacks.
fn added_group_config(
    alloc: Global,
    stage: Stage,
    kept: &Waits,
    later: ServerConfig,
) -> Result<ServerConfig, AllocError>
    ensures { IfOk result (λ c. outline c ≡ with_authorities_of (outline later)
        (authorities_at_of stage kept.now [] (outline later).authorities)) }
{
    let ServerConfig {
        name,
        role,
        locators,
        authorities,
    } = later;
    let none = Listed::of(Vec::new(alloc));
    let authorities = authorities_at(alloc, stage, kept, none, authorities)?;
    Ok(ServerConfig {
        name,
        role,
        locators,
        authorities,
    })
}

/// Returns the configuration of a group that is in both registers. Refused as Role if it has two roles, and as Locators
/// if it has more locators than a group may have.
fn config_between(
    alloc: Global,
    stage: Stage,
    kept: &Waits,
    earlier: ServerConfig,
    later: ServerConfig,
) -> Result<ServerConfig, RolloutFault>
    ensures found { IfOk result (λ c. outline c
        ≡ config_between_of stage kept.now (outline earlier) (outline later)) }
    ensures good { IfOk result (λ _. refusal_between (outline earlier) (outline later) ≡ None) }
    ensures refused { IfErr result (λ fault. fault ≢ RolloutFault.Memory
        → refusal_between (outline earlier) (outline later) ≡ Some fault) }
{
    let name = earlier.name;
    let role = earlier.role;
    if !is_same_role(role, later.role) {
        return Err(RolloutFault::Role(name));
    }
    let both = locators_between(
        alloc,
        earlier.locators.as_slice(),
        later.locators.as_slice(),
    )?;
    let Some(locators) = both else {
        return Err(RolloutFault::Locators(name));
    };
    let authorities = authorities_at(alloc, stage, kept, earlier.authorities, later.authorities)?;
    Ok(ServerConfig {
        name,
        role,
        locators,
        authorities,
    })
}

fn is_same_role(one: Role, other: Role) -> bool
    ensures { result ≡ is_same_role_of one other }
{
    match (one, other) {
        (Role::Node, Role::Node) | (Role::Ms, Role::Ms) => true,
        _ => false,
    }
}

/// Returns the new locators, followed by the others of before; None if they can't be those of a group.
fn locators_between(
    alloc: Global,
    earlier: &[Locator],
    later: &[Locator],
) -> Result<Option<LocatorSet>, AllocError>
    ensures { IfOk result (λ found. SomeIff found
        (are_group_locators (locators_between_of earlier.now later.now) ≡ true)
        (locators_between_of earlier.now later.now)) }
{
    let mut all = Vec::from_slice(alloc, later)?;
    all.extend_from_slice(&others(alloc, earlier, later)?)?;
    if all.is_empty() || !are_distinct(&all) {
        return Ok(None);
    }
    Ok(LocatorSet::of(&all))
}

/// Returns the earlier locators that the later ones lack.
fn others(alloc: Global, earlier: &[Locator], later: &[Locator]) -> Result<Vec<Locator>, AllocError>
    ensures { IfOk result (λ v. v.items ≡ filter (λ l. not (lists later.now l)) earlier.now) }
{
    let mut others = Vec::from_slice(alloc, earlier)?;
    others.retain(|locator| !later.contains(locator));
    Ok(others)
}

/// Returns the earlier authorities that continue, and the later ones that are in force at the stage.
fn authorities_at(
    alloc: Global,
    stage: Stage,
    kept: &Waits,
    earlier: Listed<Authority>,
    later: Listed<Authority>,
) -> Result<Listed<Authority>, AllocError>
    ensures { IfOk result (λ all. all ≡ authorities_at_of stage kept.now earlier later) }
{
    let taken = authorities_in_force(stage, later);
    let zones = zones_of(alloc, &taken)?;
    let mut all = left(stage, kept, &zones, earlier);
    for authority in taken {
        all.push(authority)?;
    }
    Ok(Listed::of(all))
}

/// Returns the authorities of the later register that are in force at the stage.
fn authorities_in_force(stage: Stage, later: Listed<Authority>) -> Vec<Authority>
    ensures { result.items ≡ authorities_in_force_of stage later }
{
    let mut taken = later.into_vec();
    taken.retain(|authority| is_in_force(stage, authority));
    taken
}

fn is_in_force(stage: Stage, authority: &Authority) -> bool
    ensures { result ≡ is_in_force_of stage authority.now }
{
    match stage {
        Stage::From(least) => least <= authority.prefix.len(),
        Stage::After(_) | Stage::Last => true,
    }
}

/// Returns the prefixes of authorities.
fn zones_of(alloc: Global, authorities: &[Authority]) -> Result<BTreeSet<Prefix>, AllocError>
    ensures { IfOk result (HasZones authorities.now) }
{
    let mut zones = BTreeSet::new(alloc);
    for authority in authorities {
        zones.insert(authority.prefix)?;
    }
    Ok(zones)
}

/// Returns the earlier authorities that continue, if the later zones of these prefixes are in force.
fn left(
    stage: Stage,
    kept: &Waits,
    zones: &BTreeSet<Prefix>,
    earlier: Listed<Authority>,
) -> Vec<Authority>
    ensures { result.items ≡ filter (λ a. not (contains (slice_cmp nat_cmp) zones.now a.prefix)
        && continues_of stage kept.now a) earlier }
{
    let mut left = earlier.into_vec();
    left.retain(|authority| {
        !zones.contains(&authority.prefix) && continues(stage, kept, authority)
    });
    left
}

/// Returns whether an earlier authority continues, if no later zone of its prefix is in force.
fn continues(stage: Stage, kept: &Waits, authority: &Authority) -> bool
    ensures { result ≡ continues_of stage kept.now authority.now }
{
    match stage {
        Stage::After(waits) => may_be_cached(waits, kept.get(&authority.prefix)),
        Stage::From(_) | Stage::Last => true,
    }
}

/// Returns whether a cache may still lead to a zone after `waits` waits, of the `most` for which it stays served.
fn may_be_cached(waits: u32, most: Option<&u32>) -> bool
    ensures { result ≡ may_be_cached_of waits (option_copied most.entry) }
{
    match most {
        Some(most) => waits < *most,
        None => true,
    }
}
