//! All broken rules of a register.

ghost use Rattle.std.specs.Prelude.{◌≡◌, ◌++◌, IfOk, OnOk};
ghost use Rattle.std.specs.List.{filter_map};
ghost use Rattle.ddt_register.specs.declared.register.Register.{Register as ARegister};
ghost use Rattle.ddt_check.specs.Rules.{all_rules};
ghost use Rattle.ddt_review.specs.Faults.Broken.{AreBroken};
ghost use Rattle.ddt_review.specs.Faults.Told.{IsIndexOf, IsInRow, told};

use crate::faults::index::Index;
use crate::faults::items_in_row::{ItemsInRow, end_of_rows};
use ddt_check::Rule;
use ddt_register::Register;
use std::alloc::{AllocError, Global};

/// A broken rule.
#[derive(Clone, Copy, Debug, PartialEq, Eq)]
pub struct Broken {
    /// The row that breaks it; 0 if no row is at fault.
    pub row: u32,
    pub rule: Rule,
    /// The row of the other item of the fault, if there is one: the first root, the first item of the same prefix or
    /// name, the group of another kind, the first earlier group that shares a locator, the nearest zone of Map-Servers
    /// above, or the longest zone that covers the site.
    pub other: Option<u32>,
}

/// All broken rules of a register, by row and then by the number of the rule, none twice: the list has a rule and a row
/// if and only if that row breaks the rule (RFC 8111, section 4: the delegation tree). An accepted register has none.
///
/// Fails only if out of memory.
pub fn broken_rules(alloc: Global, register: &Register) -> Result<Vec<Broken>, AllocError>
    ensures { IfOk result (λ list. AreBroken register.now list.items) }
{
    let index = Index::of(alloc, register)?;
    let mut list = Vec::new(alloc);
    for row in 0..end_of_rows(register) {
        push_faults(&mut list, &index, row, ItemsInRow::of(register, row))?;
    }
    Ok(list)
}

/// Appends the rules that a row with these items breaks. Fails only if out of memory.
fn push_faults(
    list: &mut Vec<Broken>,
    index: &Index,
    row: u32,
    items: ItemsInRow,
) -> Result<(), AllocError>
    ensures { (r : ARegister) → IsIndexOf r index.now → IsInRow r row items.entry
        → OnOk result (list.new.items ≡ list.old.items ++ filter_map (told r row) all_rules) }
{
    for rule in Rule::ALL {
        if let Some(broken) = index.fault(rule, row, items) {
            list.push(broken)?;
        }
    }
    Ok(())
}
