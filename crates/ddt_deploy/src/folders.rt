//! All configurations of a register in a folder, and a manifest of them. The steps are planned first, and then taken
//! file by file, so that at any time each file is the old one or the new one.
//!
//! In reading order: `publication`, `plan`, `file_changes`, `gone_files`, `config_files`, `order`, `manifest`,
//! `plan_lines`; `folder`, `folder_in_memory`; `step`, `file_name`, `fault` below them; and `laws`.
//! Tests: tests/crates/command/companion/folder.

mod config_files;
mod fault;
mod file_changes;
mod file_name;
mod folder;
mod folder_in_memory;
mod gone_files;
mod laws;
mod manifest;
mod order;
mod plan;
mod plan_lines;
mod publication;
mod step;

pub use fault::PublishFault;
pub use file_changes::read_file;
pub(crate) use file_changes::{Draft, compare_one};
pub use file_name::FileName;
pub use folder::Folder;
pub use folder_in_memory::{FolderInMemory, MemoryFault};
pub use laws::{a_plan_that_is_carried_out_publishes, the_order_of_rows_does_not_matter};
pub use order::in_order;
pub use plan::{Plan, plan_for};
pub use plan_lines::lines_of;
pub use publication::{carry_out, publish};
pub use step::{ListedConfig, NamedFile, Step};
