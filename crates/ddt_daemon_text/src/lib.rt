//! What a daemon reads and prints as text: its files, its log, and the commands and answers of its control socket.
//!
//! In reading order: `texts`, `control_characters`, `log_rate_limit`; of files `toml_table`, `fault_texts`,
//! `unknown_keys`, `configuration_file`, `settings_file`, `settings_warnings`, `file_kind`, `check_lines`; of the control
//! socket `control_line`, `resolver_tables`, `site_table`, `statistics_format`.
//!
//! Calls that return `AllocError` fail only if out of memory.
//! Tests, of the program: tests/ddtd, tests/configurations, tests/service.sh and tests/registrations.sh.
#![tactic(auto)]

mod check_lines;
mod configuration_file;
mod control_characters;
mod control_line;
mod fault_texts;
mod file_kind;
mod log_rate_limit;
mod resolver_tables;
mod settings_file;
mod settings_warnings;
mod site_table;
mod statistics_format;
mod texts;
mod toml_table;
mod unknown_keys;

pub use check_lines::{configuration_lines, good_lines, settings_lines};
pub use configuration_file::{
    ConfigurationSummary, LoadedConfiguration, configuration_in, configuration_of,
};
pub use control_characters::{printable, printable_lines};
pub use control_line::{ControlLine, LineState};
pub use fault_texts::{fault_text, not_added_text};
pub use file_kind::FileKind;
pub use log_rate_limit::LogRateLimit;
pub use resolver_tables::{cache_text, entry_text, gave_up_text, is_live, prefix_in, servers_text};
pub use settings_file::{server_settings_in, server_settings_of, settings_in, settings_of};
pub use settings_warnings::{SettingsWarning, warnings_of};
pub use site_table::{registered_count, site_text, sites_text};
pub use statistics_format::{StatisticsFormat, formatted};
pub use texts::{Addresses, Message, name_text, prefix_text, role_text};
pub use toml_table::{table_of, text_of};
pub use unknown_keys::{UnknownKey, refuse_unknown, unknown_in_list};
