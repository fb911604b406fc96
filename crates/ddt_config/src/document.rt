//! The text of a configuration.

ghost use Rattle.std.specs.Prelude.{◌≡◌, ◌≢◌, ◌⊎◌, ◌≤◌, false, true, Ok, Err, IfOk, IfErr, string_bytes};
ghost use Rattle.toml.specs.Data.{members_depth, members_have_valid_dates};
ghost use Rattle.toml.specs.Errors.{IsMemory};
ghost use Rattle.toml.specs.Text.{IsDocumentText};
ghost use Rattle.toml.specs.View.{table_view};
ghost use Rattle.ddt_config.specs.declared.config.ServerConfig.{ServerConfig as ConfigValue};
ghost use Rattle.ddt_config.specs.Table.{config_in, config_in_text, outline, outline_in, StandsFor};
ghost use Rattle.ddt_config.specs.Place.{IsFirstFault, IsWholeIfMemory, ReadsOrPlaces};
ghost use Rattle.ddt_config.specs.Reading.{IsReportedAs, Reads};
ghost use Rattle.ddt_config.specs.Writing.{written_config};

use crate::config::{Draft, ServerConfig};
use crate::fault::ConfigFault;
use crate::place::PlacedFault;
use std::alloc::{AllocError, Global};
use toml::{Table, de, ser};

/// Reads a configuration from a text in TOML. The top table has `name`, `kind` (`node` or `ms`), `locators`, an array
/// of texts, and `authority`, an array of tables. Such a table has `prefix`. The authority of a DDT node also has
/// `child`, tables of `prefix`, `kind` and `locators`; that of a Map-Server has `site`, tables of `prefix` and `etrs`.
/// The arrays of tables may be missing, and other keys are ignored.
///
/// Refused, by the first fault in the order of keys, the shape last:
///
/// - 1 Toml: the text is no TOML.
/// - 2 Field: a required key is missing, or a key has a value of another kind.
/// - 3 Value: a text isn't of its key's form.
/// - 4 Shape: each text is right, but no server has such a configuration.
/// - 5 Memory: out of memory; it may replace any other fault.
pub fn from_toml(alloc: Global, text: &str) -> Result<ServerConfig, ConfigFault>
    ensures found { IfOk result (StandsFor text.now) }
    ensures every { (c : ConfigValue) → StandsFor text.now c → (result ≡ Ok c) ⊎ (result ≡ Err ConfigFault.Memory) }
    ensures refused { IfErr result (λ fault. fault ≢ ConfigFault.Memory → config_in_text text.now ≡ Err fault) }
{
    match toml::table_from_str(alloc, text) {
        Ok(table) => from_table(alloc, table),
        Err(fault) => Err(toml_fault(&fault)),
    }
}

/// The fault of a text that `toml` refuses: 5 Memory if and only if it is out of memory.
fn toml_fault(fault: &de::Error) -> ConfigFault
    ensures { IsReportedAs (IsMemory fault.now) result }
{
    if fault.is_memory() {
        ConfigFault::Memory
    } else {
        ConfigFault::Toml
    }
}

/// Reads a configuration from a table, which is dropped before the configuration is made. Refused as
/// `from_toml` refuses a text of this table: as 2 Field, 3 Value, 4 Shape or 5 Memory.
pub fn from_table(alloc: Global, table: Table) -> Result<ServerConfig, ConfigFault>
    ensures found { IfOk result (λ c. config_in (table_view table) ≡ Ok (outline c)) }
    ensures refused { IfErr result (λ fault. fault ≢ ConfigFault.Memory → config_in (table_view table)
        ≡ Err fault) }
{
    let draft = read_draft(alloc, table)?;
    ServerConfig::of(alloc, &draft)
}

fn read_draft(alloc: Global, table: Table) -> Result<Draft, ConfigFault>
    ensures { Reads (outline_in (table_view table)) result }
{
    Draft::read(alloc, &table)
}

/// Reads a configuration from a table, as `from_table` does, with the place of the fault. Refused as 2 Field, 3 Value,
/// 4 Shape or 5 Memory, as `from_toml` refuses a text of this table; 5 Memory has the top table, and no text.
pub fn read_table(alloc: Global, table: Table) -> Result<ServerConfig, PlacedFault>
    ensures found { IfOk result (λ c. config_in (table_view table) ≡ Ok (outline c)) }
    ensures refused { IfErr result (λ e. e.fault ≢ ConfigFault.Memory → IsFirstFault (table_view table) e) }
    ensures memory { IfErr result IsWholeIfMemory }
{
    let draft = read_placed(alloc, table)?;
    match ServerConfig::of(alloc, &draft) {
        Ok(config) => Ok(config),
        Err(fault) => Err(PlacedFault::of_whole(fault)),
    }
}

fn read_placed(alloc: Global, table: Table) -> Result<Draft, PlacedFault>
    ensures placed { ReadsOrPlaces (table_view table) result }
    ensures memory { IfErr result IsWholeIfMemory }
{
    match Draft::read(alloc, &table) {
        Ok(draft) => Ok(draft),
        Err(fault) => Err(PlacedFault::in_table(alloc, &table, fault)),
    }
}

/// Writes the configuration as a text in TOML, which `from_toml` reads as the same configuration. The top table has
/// `name`, `kind` (`node` or `ms`), `locators` and `authority`. Each authority has `prefix` and either `child`, tables
/// of `prefix`, `kind` and `locators`, or `site`, tables of `prefix` and `etrs`. There are no other keys, and an empty
/// list is written too. Fails only if out of memory.
pub fn to_toml(alloc: Global, config: &ServerConfig) -> Result<String, AllocError>
    ensures printed { IfOk result (λ text. IsDocumentText false (written_config (outline config.now))
        (string_bytes text)) }
    ensures read_back { IfOk result (λ text. StandsFor (string_bytes text) config.now) }
{
    let table = to_table(alloc, config)?;
    match toml::table_to_string(alloc, &table) {
        Ok(text) => Ok(text),
        Err(ser::Error::OutOfMemory) => Err(AllocError),
        Err(ser::Error::DateInvalid) => unreachable!(),
    }
}

/// Returns the configuration as a table: `to_toml` writes it as a text, and `from_table` reads it as the same
/// configuration. It nests at most 5 deep and has no date that TOML can't write. Fails only if out of memory.
pub fn to_table(alloc: Global, config: &ServerConfig) -> Result<Table, AllocError>
    ensures written { IfOk result (λ t. table_view t ≡ written_config (outline config.now)) }
    ensures read_back { IfOk result (λ t. config_in (table_view t) ≡ Ok (outline config.now)) }
    ensures shallow { IfOk result (λ t. members_depth (table_view t) ≤ 5) }
    ensures dated { IfOk result (λ t. members_have_valid_dates (table_view t) ≡ true) }
{
    config.write(alloc)
}
