//! What holds of every table: each function is a law of the definitions, and does nothing.

ghost use Rattle.ddt_config.specs.laws.Statements.{FaultsAreAtTheirPlaces, TablesAreRead};

/// A table is read as an outline if and only if each of its keys holds what the outline says, whichever is examined
/// first, and the outline is shaped.
pub fn a_table_is_read_as_what_it_stands_for()
    ensures { TablesAreRead }
{}

/// The first fault of a configuration is the first one in the table at its place, read without the tables in it.
pub fn a_fault_is_at_its_place()
    ensures { FaultsAreAtTheirPlaces }
{}
