//! What is wrong with a register that isn't accepted: a rule, and a row that breaks it.

use thiserror::Error;

/// The rules that an accepted register keeps. Of several broken rules the first is reported.
#[derive(Clone, Copy, Debug, PartialEq, Eq, PartialOrd, Ord, Error)]
pub enum Rule {
    /// Exactly one zone covers everything, and DDT nodes serve it (RFC 8111, section 4: the root).
    #[error("A1 NoRoot")]
    NoRoot,
    /// No two zones have one prefix.
    #[error("A2 DuplicateZone")]
    DuplicateZone,
    /// No two sites have one prefix. A site may lie inside another's prefix.
    #[error("A3 DuplicateSite")]
    DuplicateSite,
    /// Each zone's group has a row.
    #[error("A4 UnknownGroup")]
    UnknownGroup,
    /// A zone is of its group's kind.
    #[error("A5 Role")]
    Role,
    /// A group has 1 to 8 locators, and no locator occurs twice, in it or in two groups.
    #[error("A6 Locators")]
    Locators,
    /// No zone is strictly below a zone of Map-Servers.
    #[error("A7 BelowMapServer")]
    BelowMapServer,
    /// The longest zone that covers a site is one of Map-Servers.
    #[error("A8 SiteOutside")]
    SiteOutside,
    /// A site has at most 8 ETRs.
    #[error("A9 TooManyEtrs")]
    TooManyEtrs,
    /// No two groups have one name.
    #[error("A10 DuplicateGroup")]
    DuplicateGroup,
}

impl Rule {
    /// All rules, in the order of their numbers.
    pub const ALL: [Rule; 10] = [
        Rule::NoRoot,
        Rule::DuplicateZone,
        Rule::DuplicateSite,
        Rule::UnknownGroup,
        Rule::Role,
        Rule::Locators,
        Rule::BelowMapServer,
        Rule::SiteOutside,
        Rule::TooManyEtrs,
        Rule::DuplicateGroup,
    ];
}

/// A broken rule, and the row that breaks it: row 0 where no row is at fault.
#[derive(Clone, Copy, Debug, PartialEq, Eq, Error)]
#[error("{rule} row {row}")]
pub struct Fault {
    pub rule: Rule,
    pub row: u32,
}
