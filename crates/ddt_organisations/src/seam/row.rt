//! Rows of a register whose numbers can be changed.

ghost use Rattle.std.specs.Prelude.{◌≡◌, ◌<◌, ◌+◌, IfOk};
ghost use Rattle.ddt_organisations.specs.Seam.Joined.{zone_text, site_text, group_text};

use ddt_path::Listed;
use ddt_register::{Etrs, Group, Item, Site, Zone};
use std::alloc::{AllocError, Global};

/// An item that can be moved to another row.
pub trait Row: Item + Drop {
    /// The item without its row number.
    ghost text: { Self → Self };

    /// The same item in another row. Fails only if out of memory.
    fn in_row(&self, alloc: Global, row: u32) -> Result<Self, AllocError>
        ensures text { IfOk result (λ item. text item ≡ text self.now) }
        ensures row { IfOk result (λ item. Self.row_of item ≡ row) };
}

impl Row for Zone {
    ghost text = { zone_text };

    fn in_row(&self, _alloc: Global, row: u32) -> Result<Zone, AllocError> {
        Ok(Zone { row, ..*self })
    }
}

impl Row for Site {
    ghost text = { site_text };

    fn in_row(&self, alloc: Global, row: u32) -> Result<Site, AllocError> {
        Ok(Site {
            prefix: self.prefix,
            etrs: Etrs::of(Vec::from_slice(alloc, self.etrs.as_slice())?),
            row,
        })
    }
}

impl Row for Group {
    ghost text = { group_text };

    fn in_row(&self, alloc: Global, row: u32) -> Result<Group, AllocError> {
        Ok(Group {
            name: self.name,
            kind: self.kind,
            locators: Listed::of(Vec::from_slice(alloc, self.locators.as_slice())?),
            row,
        })
    }
}

/// The number of the row after `rows` others. After the last row of a register, a number that no row may have.
pub fn row_after(rows: usize) -> u32
    ensures { rows < 65535 → result ≡ rows + 1 }
{
    match u32::try_from(rows) {
        Ok(rows) => rows.saturating_add(1),
        Err(_) => u32::MAX,
    }
}
