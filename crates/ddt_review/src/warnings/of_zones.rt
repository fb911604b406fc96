//! The warnings of zones.

ghost use Rattle.std.specs.Prelude.{◌≡◌, ◌&&◌, not, false, Some, IfSome};
ghost use Rattle.std.specs.Option.{option_map_or};
ghost use Rattle.std.specs.List.{Contains};
ghost use Rattle.ddt_check.specs.Zones.{is_ms};
ghost use Rattle.ddt_review.specs.Warnings.Found.{IsWarningFound};
ghost use Rattle.ddt_review.specs.Warnings.Index.{IsIndex, register_of, resolvers_of};
ghost use Rattle.ddt_review.specs.Warnings.Named.{IsTrueFinding};
ghost use Rattle.ddt_review.specs.Warnings.Warnings.{zone_has, zone_above, is_zone_between, has_child as has_child_of, has_child_outside as has_child_outside_of, is_put_under as is_put_under_of, is_strange as is_strange_of, is_of_strange_group as is_of_strange_group_of};

use crate::warnings::delegations::delegation_of;
use crate::warnings::has_warnings::HasWarnings;
use crate::warnings::index::Index;
use crate::warnings::kind::Kind;
use crate::warnings::warning::Finding;
use ddt_path::Role;
use ddt_register::Zone;

impl HasWarnings for Zone {
    ghost items_of = { λ r. r.zones };

    ghost has = { λ r resolvers. zone_has r };

    fn find(&self, index: &Index, kind: Kind) -> Option<Finding> {
        match kind {
            Kind::NodeZoneWithoutChild => {
                is_childless(index, self).then_some(Finding::NodeZoneWithoutChild)
            }
            Kind::ZoneBetween => zone_between(index, self),
            Kind::ZoneOfStrangeGroup => {
                is_of_strange_group(index, self).then_some(Finding::ZoneOfStrangeGroup)
            }
            _ => None,
        }
    }
}

/// Whether a zone of DDT nodes has no zone directly below it.
fn is_childless(index: &Index, zone: &Zone) -> bool
    requires index { IsIndex index.now }
    requires member { Contains (register_of index.now).zones zone.now }
    ensures { result ≡ (not (is_ms zone.now.kind) && not (has_child_of (register_of index.now) zone.now)) }
{
    is_of_nodes(zone) && !has_child(index, zone)
}

fn is_of_nodes(zone: &Zone) -> bool
    ensures { result ≡ not (is_ms zone.now.kind) }
{
    zone.kind != Role::Ms
}

fn has_child(index: &Index, zone: &Zone) -> bool
    requires index { IsIndex index.now }
    requires member { Contains (register_of index.now).zones zone.now }
    ensures { result ≡ has_child_of (register_of index.now) zone.now }
{
    index.children.parents.contains(&zone.prefix)
}

/// Whether a zone directly below is of another group than the zone directly above.
fn has_child_outside(index: &Index, zone: &Zone, above: &Zone) -> bool
    requires index { IsIndex index.now }
    requires member { Contains (register_of index.now).zones zone.now }
    requires above { zone_above (register_of index.now) zone.now ≡ Some above.now }
    ensures { result ≡ has_child_outside_of (register_of index.now) above.now.group zone.now }
{
    let _above = above;
    index.children.mixed.contains(&zone.prefix)
}

/// Whether the zone directly above a zone and all zones directly below it share a group that isn't the zone's own.
fn is_put_under(index: &Index, zone: &Zone, above: &Zone) -> bool
    requires index { IsIndex index.now }
    requires member { Contains (register_of index.now).zones zone.now }
    requires above { zone_above (register_of index.now) zone.now ≡ Some above.now }
    ensures { result ≡ is_put_under_of (register_of index.now) zone.now above.now }
{
    zone.group != above.group && (has_child(index, zone) && !has_child_outside(index, zone, above))
}

/// The finding of a zone of DDT nodes between zones that share another group.
fn zone_between(index: &Index, zone: &Zone) -> Option<Finding>
    requires index { IsIndex index.now }
    requires member { Contains (register_of index.now).zones zone.now }
    ensures found { IsWarningFound (is_zone_between (register_of index.now) zone.now) Kind.ZoneBetween result }
    ensures named { IfSome result
        (IsTrueFinding (register_of index.now) (resolvers_of index.now) zone.now.row) }
{
    let above = index.tree.zone_above(zone)?;
    let is_between = is_of_nodes(zone) && is_put_under(index, zone, above);
    is_between.then_some(Finding::ZoneBetween { above: above.row })
}

/// Whether the delegation of a zone is strange by `Delegations::is_stranger`, and that of the zone directly above
/// isn't.
fn is_of_strange_group(index: &Index, zone: &Zone) -> bool
    requires { IsIndex index.now }
    ensures { result ≡ is_of_strange_group_of (register_of index.now) zone.now }
{
    is_strange(index, zone) && !is_strange_above(index, zone)
}

fn is_strange(index: &Index, zone: &Zone) -> bool
    requires { IsIndex index.now }
    ensures { result ≡ is_strange_of (register_of index.now) zone.now }
{
    match delegation_of(&index.tree, zone) {
        Some(delegation) => index.delegations.is_stranger(&delegation),
        None => false,
    }
}

fn is_strange_above(index: &Index, zone: &Zone) -> bool
    requires { IsIndex index.now }
    ensures { result
        ≡ option_map_or (is_strange_of (register_of index.now)) (zone_above (register_of index.now) zone.now) false }
{
    match index.tree.zone_above(zone) {
        Some(above) => is_strange(index, above),
        None => false,
    }
}
