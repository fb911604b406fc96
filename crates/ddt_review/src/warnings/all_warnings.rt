//! The warnings of a register.

ghost use Rattle.std.specs.Prelude.{◌≡◌, ◌||◌, ◌&&◌, ◌==◌, ℕ, All, IfOk, OnOk, IsSorted};
ghost use Rattle.std.specs.List.{Contains};
ghost use Rattle.ddt_check.specs.Rules.{item_at};
ghost use Rattle.ddt_review.specs.declared.warnings.kind.Kind.{Kind as AKind};
ghost use Rattle.ddt_review.specs.Warnings.Findings.{tells, in_told_order};
ghost use Rattle.ddt_review.specs.Warnings.Index.{IsIndex, register_of, resolvers_of};
ghost use Rattle.ddt_review.specs.Warnings.Named.{IsTrueWarning};
ghost use Rattle.ddt_review.specs.Warnings.Warnings.{warns};

use crate::warnings::has_warnings::HasWarnings;
use crate::warnings::index::Index;
use crate::warnings::kind::Kind;
use crate::warnings::warning::Warning;
use ddt_check::Accepted;
use ddt_path::Locator;
use std::alloc::{AllocError, Global};

/// The warnings of an accepted register, each of a row and a kind, in the order of the rows, then of the kinds. They
/// are mostly mistakes. `resolvers` are the addresses of the known Map-Resolvers: an ETR that is one of them has a
/// warning. Fails only if out of memory.
pub fn warnings(
    alloc: Global,
    accepted: &Accepted,
    resolvers: &[Locator],
) -> Result<Vec<Warning>, AllocError>
    ensures each { IfOk result (λ told. (kind : AKind) (row : ℕ)
        → tells told.items kind row ≡ warns accepted.now resolvers.now kind row) }
    // What a warning names, a locator, a reason or another row, is what the register has.
    ensures named { IfOk result (λ told. All (IsTrueWarning accepted.now resolvers.now) told.items) }
    ensures order { IfOk result (λ told. IsSorted in_told_order told.items) }
{
    let index = Index::of(alloc, accepted, resolvers)?;
    let register = accepted.register();
    let mut told = Vec::new(alloc);
    tell(&mut told, &index, register.groups.as_slice())?;
    tell(&mut told, &index, register.sites.as_slice())?;
    tell(&mut told, &index, register.zones.as_slice())?;
    told.sort_unstable_by_key(|w| (w.row, w.finding.kind().place()));
    Ok(told)
}

/// Adds the warnings of items.
fn tell<T: HasWarnings>(
    told: &mut Vec<Warning>,
    index: &Index,
    items: &[T],
) -> Result<(), AllocError>
    requires index { IsIndex index.now }
    requires items { items.now ≡ T.items_of (register_of index.now) }
    ensures each { OnOk result ((kind : AKind) (row : ℕ) → tells told.new.items kind row
        ≡ (tells told.old.items kind row
        || item_at T.row_of (T.has (register_of index.now) (resolvers_of index.now) kind) items.now row)) }
    ensures named { OnOk result (All (IsTrueWarning (register_of index.now) (resolvers_of index.now)) told.old.items
        → All (IsTrueWarning (register_of index.now) (resolvers_of index.now)) told.new.items) }
{
    for item in items {
        tell_item(told, index, item)?;
    }
    Ok(())
}

fn tell_item<T: HasWarnings>(
    told: &mut Vec<Warning>,
    index: &Index,
    item: &T,
) -> Result<(), AllocError>
    requires index { IsIndex index.now }
    requires member { Contains (T.items_of (register_of index.now)) item.now }
    ensures each { OnOk result ((kind : AKind) (row : ℕ) → tells told.new.items kind row
        ≡ (tells told.old.items kind row
        || (T.row_of item.now == row && T.has (register_of index.now) (resolvers_of index.now) kind item.now))) }
    ensures named { OnOk result (All (IsTrueWarning (register_of index.now) (resolvers_of index.now)) told.old.items
        → All (IsTrueWarning (register_of index.now) (resolvers_of index.now)) told.new.items) }
{
    for kind in Kind::ALL {
        if let Some(finding) = item.find(index, kind) {
            told.push(Warning {
                row: item.row(),
                finding,
            })?;
        }
    }
    Ok(())
}
