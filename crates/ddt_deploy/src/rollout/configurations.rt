//! The configurations of all groups at a stage.

ghost use Rattle.std.specs.Prelude.{◌≡◌, ◌≢◌, ◌++◌, [], ℕ, List, Some, None, map, IfOk, IfErr, OnOk};
ghost use Rattle.std.specs.List.{cons_option, filter_map};
ghost use Rattle.std.specs.Option.{option_map};
ghost use Rattle.std.specs.Ordering.{nat_cmp};
ghost use Rattle.std.specs.Cmp.Lexicographic.{slice_cmp};
ghost use Rattle.std.specs.BTreeMap.{IsOrdered};
ghost use Rattle.ddt_path.specs.laws.Member.{IsIn};
ghost use Rattle.ddt_config.specs.Table.{outline};
ghost use Rattle.ddt_plan.specs.declared.versions.Versions.{Versions as GroupVersions};
ghost use Rattle.ddt_plan.specs.Versions.{earlier as earlier_of, later as later_of};
ghost use Rattle.ddt_deploy.specs.Rollout.Between.{config_at as config_at_of, refusal_at};
ghost use Rattle.ddt_deploy.specs.Rollout.Configurations.{AreConfigurationsAt, config_in, refusal_in, refusal_of};

use crate::rollout::config_at_stage::{Waits, config_at};
use crate::rollout::fault::RolloutFault;
use crate::rollout::lost_zone_waits::waits_of;
use crate::rollout::stage::Stage;
use ddt_check::Accepted;
use ddt_config::ServerConfig;
use ddt_path::Name;
use ddt_plan::{Versions, versions_by_name};
use std::alloc::{AllocError, Global};
use std::collections::BTreeMap;

/// Returns the configuration of each group's servers at a stage, in the order of the groups' names. Those of a stage
/// may be loaded in any order, after all servers have loaded those of the stage before.
///
/// Refused as 1 Role and 2 Locators, each with a group's name, except at the last stage; as 3 Memory if out of memory.
pub fn configurations_at(
    alloc: Global,
    before: &Accepted,
    after: &Accepted,
    stage: Stage,
) -> Result<Vec<ServerConfig>, RolloutFault>
    ensures found { IfOk result (λ configs. AreConfigurationsAt before.now after.now stage
        (map outline configs.items)) }
    ensures good { IfOk result (λ _. (name : List ℕ) → refusal_of before.now after.now stage name ≡ None) }
    ensures refused { IfErr result (λ fault. fault ≢ RolloutFault.Memory
        → (name : List ℕ) × (refusal_of before.now after.now stage name ≡ Some fault)) }
{
    let kept = waits_of(alloc, before, after)?;
    let versions = versions_by_name(alloc, before, after)?;
    configurations_of(alloc, stage, &kept, versions)
}

/// Returns the configurations at a stage, by those of both registers.
fn configurations_of(
    alloc: Global,
    stage: Stage,
    kept: &Waits,
    versions: BTreeMap<Name, Versions>,
) -> Result<Vec<ServerConfig>, RolloutFault>
    ensures made { IfOk result (λ configs. map outline configs.items
        ≡ filter_map (config_in stage kept.now) versions.entries × IsOrdered (slice_cmp nat_cmp) versions) }
    ensures good { IfOk result (λ _. IsOrdered (slice_cmp nat_cmp) versions
        × ((e : List ℕ × GroupVersions) → IsIn e versions.entries → refusal_in stage e ≡ None)) }
    ensures refused { IfErr result (λ fault. fault ≢ RolloutFault.Memory → IsOrdered (slice_cmp nat_cmp) versions
        × ((e : List ℕ × GroupVersions) × IsIn e versions.entries × (refusal_in stage e ≡ Some fault))) }
{
    let mut configs = Vec::new(alloc);
    for (_name, of_group) in versions {
        let config = config_of(alloc, stage, kept, of_group)?;
        push_if(&mut configs, config)?;
    }
    Ok(configs)
}

/// Appends a configuration, if there is one.
fn push_if(configs: &mut Vec<ServerConfig>, config: Option<ServerConfig>) -> Result<(), AllocError>
    ensures { OnOk result (configs.new.items ≡ configs.old.items ++ cons_option config []) }
{
    match config {
        Some(config) => {
            configs.push(config)?;
            Ok(())
        }
        None => Ok(()),
    }
}

/// Returns the configuration of a group at a stage; None if it has none there.
fn config_of(
    alloc: Global,
    stage: Stage,
    kept: &Waits,
    versions: Versions,
) -> Result<Option<ServerConfig>, RolloutFault>
    ensures found { IfOk result (λ found. option_map outline found
        ≡ config_at_of stage kept.now (earlier_of (Some versions)) (later_of (Some versions))) }
    ensures good { IfOk result (λ _. refusal_at stage (earlier_of (Some versions)) (later_of (Some versions)) ≡ None) }
    ensures refused { IfErr result (λ fault. fault ≢ RolloutFault.Memory
        → refusal_at stage (earlier_of (Some versions)) (later_of (Some versions)) ≡ Some fault) }
{
    match versions {
        Versions::Before(earlier) => config_at(alloc, stage, kept, Some(earlier), None),
        Versions::After(later) => config_at(alloc, stage, kept, None, Some(later)),
        Versions::Both(earlier, later) => {
            config_at(alloc, stage, kept, Some(earlier), Some(later))
        }
    }
}
