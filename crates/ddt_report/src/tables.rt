//! The tables of a page.

ghost use Rattle.std.specs.Prelude.{◌≡◌};
ghost use Rattle.ddt_report.specs.Sections.{columns_of, command_of, title_of};
ghost use Rattle.ddt_report.specs.Tables.{has_row as has_row_of};

/// A table of the page.
#[derive(Clone, Copy, Debug, PartialEq, Eq)]
pub(crate) enum Table {
    /// The numbers of identifiers, sites and zones that change.
    Summary,
    /// Sites that differ.
    Sites,
    /// Zones that differ.
    Zones,
    /// Groups that differ, and those whose configuration does.
    Groups,
    /// Blocks that are answered differently.
    Blocks,
    /// What caches keep, and for how long.
    Caches,
    /// The steps of the rollout.
    Steps,
}

impl Table {
    /// Whether this line is one of its rows.
    pub(crate) fn has_row(self, line: &[u8]) -> bool
        ensures { result ≡ has_row_of self line.now }
    {
        match self {
            Table::Summary => line.starts_with(b"summary\t"),
            Table::Sites => line.starts_with(b"site\t"),
            Table::Zones => line.starts_with(b"zone\t"),
            Table::Groups => line.starts_with(b"group\t"),
            Table::Blocks => line.starts_with(b"*") || line.starts_with(b"["),
            Table::Caches => line.starts_with(b"caches\t"),
            Table::Steps => !line.is_empty(),
        }
    }

    /// The title of its section.
    #[tactic(auto, unfolding(crate::specs::Sections::title_of))]
    pub(crate) fn title(self) -> &'static str
        ensures { result.now ≡ title_of self }
    {
        match self {
            Table::Summary => "Summary",
            Table::Sites => "Sites that differ",
            Table::Zones => "Zones that differ",
            Table::Groups => "Groups that differ, or whose servers load another configuration",
            Table::Blocks => "Blocks of identifiers that are answered otherwise",
            Table::Caches => "What caches keep after the change",
            Table::Steps => "Rollout, step by step",
        }
    }

    /// The heads of its columns.
    #[tactic(auto, unfolding(crate::specs::Sections::columns_of))]
    pub(crate) fn columns(self) -> &'static str
        ensures { result.now ≡ columns_of self }
    {
        match self {
            Table::Summary => "<th></th><th>What</th><th colspan='3'>How many</th>",
            Table::Sites => {
                "<th></th><th>EID-prefix</th><th>Change</th><th>ETRs before</th><th>ETRs after</th>"
            }
            Table::Zones => {
                "<th></th><th>EID-prefix</th><th>Group before</th><th>Group after</th>"
            }
            Table::Groups => {
                "<th></th><th>Group</th><th>Change</th><th>Before</th><th>After</th>"
            }
            Table::Blocks => "<th>Block</th><th>Outcome before</th><th>Outcome after</th>",
            Table::Caches => "<th></th><th>What</th><th>For at most</th>",
            Table::Steps => {
                "<th></th><th>Number or time</th><th>What</th><th>Group or locators</th>"
            }
        }
    }

    /// The command that lists all its rows.
    #[tactic(auto, unfolding(crate::specs::Sections::command_of))]
    pub(crate) fn command(self) -> &'static str
        ensures { result.now ≡ command_of self }
    {
        match self {
            Table::Steps => "ddtplan rollout",
            _ => "ddtplan diff",
        }
    }
}
