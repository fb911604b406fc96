//! Reads settings from a text or a table.

ghost use Rattle.std.specs.Prelude.{◌≡◌, ◌≢◌, ◌⊎◌, Ok, Err, IfOk, IfErr};
ghost use Rattle.toml.specs.Errors.{IsMemory};
ghost use Rattle.toml.specs.View.{table_view};
ghost use Rattle.ddt_config.specs.declared.settings.resolver_settings.Settings.{Settings as SettingsValue};
ghost use Rattle.ddt_config.specs.Settings.Table.{settings_in, settings_in_text};
ghost use Rattle.ddt_config.specs.Settings.Reading.{IsReportedAs};

use crate::settings::fault::SettingsFault;
use crate::settings::resolver_settings::Settings;
use std::alloc::Global;
use toml::{Table, de};

/// Reads the settings of a Map-Resolver from a text in TOML. The top table has `roots`, an array of the texts of 1 to
/// 8 locators; `listen`, an array of the texts of locators of this machine, at least one, no wildcard, and each once;
/// and `allow`, an array of the texts of prefixes of RLOCs, which may be missing. Other keys are ignored.
///
/// Refused, by the first fault in the order of these keys:
///
/// - 1 Toml: the text is no TOML.
/// - 2 Field: a required key is missing, or its value is no array of texts.
/// - 3 Value: a text isn't of its key's form.
/// - 4 Count: `roots` or `listen` has no locator, or `roots` has more than 8.
/// - 5 Wildcard: `listen` has 0.0.0.0 or ::.
/// - 6 Twice: `listen` has a locator twice.
/// - 7 Memory: out of memory; it may replace any other fault.
pub fn from_toml(alloc: Global, text: &str) -> Result<Settings, SettingsFault>
    ensures found { IfOk result (λ s. settings_in_text text.now ≡ Ok s) }
    ensures every { (s : SettingsValue) → settings_in_text text.now ≡ Ok s
        → (result ≡ Ok s) ⊎ (result ≡ Err SettingsFault.Memory) }
    ensures refused { IfErr result (λ fault. fault ≢ SettingsFault.Memory → settings_in_text text.now ≡ Err fault) }
{
    match toml::table_from_str(alloc, text) {
        Ok(table) => from_table(alloc, &table),
        Err(fault) => Err(toml_fault(&fault)),
    }
}

/// Reads the settings of a Map-Resolver from a table. Refused as `from_toml` refuses a text of this table, but never
/// as 1 Toml.
pub fn from_table(alloc: Global, table: &Table) -> Result<Settings, SettingsFault>
    ensures found { IfOk result (λ s. settings_in (table_view table.now) ≡ Ok s) }
    ensures refused { IfErr result (λ fault. fault ≢ SettingsFault.Memory → settings_in (table_view table.now)
        ≡ Err fault) }
{
    Settings::read(alloc, table)
}

/// The fault of a text that `toml` refuses: 7 Memory if and only if it is out of memory.
fn toml_fault(fault: &de::Error) -> SettingsFault
    ensures { IsReportedAs (IsMemory fault.now) result }
{
    if fault.is_memory() {
        SettingsFault::Memory
    } else {
        SettingsFault::Toml
    }
}
