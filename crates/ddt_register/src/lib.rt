//! The register of a mapping system: its zones, its sites and its server groups, each with the row that it stands in.
//!
//! In reading order: `zone`, `etrs`, `site`, `group`, `item`, `row_order`, `register`; `csv_row`, `items`, `reader`,
//! `fault`; `laws`.
//! Tests: tests/crates/register/reading.
#![tactic(auto)]

mod csv_row;
mod etrs;
mod fault;
mod group;
mod item;
mod items;
mod laws;
mod reader;
mod register;
mod row_order;
mod site;
mod zone;

pub use csv_row::{Row, read_row};
pub use etrs::Etrs;
pub use fault::ReadFault;
pub use group::Group;
pub use item::{Item, first_row};
pub use laws::a_register_is_in_range;
pub use reader::read_register;
pub use register::{MOST_ROWS, Register};
pub use site::Site;
pub use zone::Zone;
