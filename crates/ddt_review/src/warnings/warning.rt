//! A warning: a row of the register, and what was found in it.

ghost use Rattle.std.specs.Prelude.{◌≡◌};
ghost use Rattle.ddt_review.specs.Warnings.Findings.{kind_of as kind_of_finding, other_of};

use crate::warnings::kind::Kind;
use crate::warnings::unreachable_locators::UnreachableReason;
use ddt_path::Locator;
use std::fmt;
use std::net::{Ipv4Addr, Ipv6Addr};

/// What was found in a row. Numbers are rows of the register.
#[derive(Clone, Copy, Debug, PartialEq, Eq)]
pub enum Finding {
    /// The first locator of the group that can't be reached, and why.
    UnreachableLocator {
        locator: Locator,
        reason: UnreachableReason,
    },
    /// The first ETR of the site that can't be reached, and why.
    UnreachableEtr {
        etr: Locator,
        reason: UnreachableReason,
    },
    /// The first ETR that occurs twice in the site.
    RepeatedEtr {
        etr: Locator,
    },
    /// The first ETR of the site that is a server's, and the row of the server's group.
    EtrIsServer {
        etr: Locator,
        group: u32,
    },
    /// The first ETR of the site that is a known Map-Resolver's.
    EtrIsResolver {
        etr: Locator,
    },
    /// The first ETR of the site whose address is inside the site's EID-prefix.
    EtrInsideSite {
        etr: Locator,
    },
    /// The first locator of the group that a site covers, and the row of the longest such site.
    LocatorInsideEids {
        locator: Locator,
        site: u32,
    },
    GroupWithoutZone,
    NodeZoneWithoutChild,
    /// The row of the zone directly above.
    ZoneBetween {
        above: u32,
    },
    ZoneOfStrangeGroup,
    /// The rows of the sites just before and just after.
    SiteInOtherRegion {
        before: u32,
        behind: u32,
    },
}

/// A row, and what was found in it, which is mostly a mistake.
#[derive(Clone, Copy, Debug, PartialEq, Eq)]
pub struct Warning {
    /// The row of the group, site or zone, 1 to 65,535.
    pub row: u32,
    pub finding: Finding,
}

impl Finding {
    /// Its kind, by which it can be turned off.
    pub fn kind(self) -> Kind
        ensures { result ≡ kind_of_finding self }
    {
        match self {
            Finding::UnreachableLocator { .. } => Kind::UnreachableLocator,
            Finding::UnreachableEtr { .. } => Kind::UnreachableEtr,
            Finding::RepeatedEtr { .. } => Kind::RepeatedEtr,
            Finding::EtrIsServer { .. } => Kind::EtrIsServer,
            Finding::EtrIsResolver { .. } => Kind::EtrIsResolver,
            Finding::EtrInsideSite { .. } => Kind::EtrInsideSite,
            Finding::LocatorInsideEids { .. } => Kind::LocatorInsideEids,
            Finding::GroupWithoutZone => Kind::GroupWithoutZone,
            Finding::NodeZoneWithoutChild => Kind::NodeZoneWithoutChild,
            Finding::ZoneBetween { .. } => Kind::ZoneBetween,
            Finding::ZoneOfStrangeGroup => Kind::ZoneOfStrangeGroup,
            Finding::SiteInOtherRegion { .. } => Kind::SiteInOtherRegion,
        }
    }
}

impl Finding {
    /// The row of the other item of the finding, if there is one: the group of a server, the site that covers a
    /// locator, the zone directly above, or the site just before.
    pub fn other(self) -> Option<u32>
        ensures { result ≡ other_of self }
    {
        match self {
            Finding::EtrIsServer { group, .. } => Some(group),
            Finding::LocatorInsideEids { site, .. } => Some(site),
            Finding::ZoneBetween { above } => Some(above),
            Finding::SiteInOtherRegion { before, .. } => Some(before),
            _ => None,
        }
    }
}

/// A locator as it is written.
#[derive(Clone, Copy)]
struct LocatorText(Locator);

impl fmt::Display for LocatorText {
    ghost use Rattle.std.specs.Prelude.{Some};
    ghost use Rattle.ddt_text.specs.Written.{written_locator};

    ghost output = { λ shown. Some (written_locator shown.0) };

    #[tactic(auto, using(ddt_text::specs::laws::Written::shown))]
    fn fmt<W: fmt::Write>(&self, f: &mut fmt::Formatter<W>) -> fmt::Result {
        match self.0 {
            Locator::V4(number) => write!(f, "{}", Ipv4Addr::from_bits(number)),
            Locator::V6(number) => write!(f, "{}", Ipv6Addr::from_bits(number).hex_groups()),
        }
    }
}

/// The reason, without the rows.
impl fmt::Display for Finding {
    ghost use Rattle.std.specs.Prelude.{Some};
    ghost use Rattle.ddt_review.specs.Warnings.Findings.{text_of};

    ghost output = { λ finding. Some (text_of finding) };

    fn fmt<W: fmt::Write>(&self, f: &mut fmt::Formatter<W>) -> fmt::Result {
        match self {
            Finding::UnreachableLocator { locator, reason } => {
                write!(f, "the locator {} is {reason}", LocatorText(*locator))
            }
            Finding::UnreachableEtr { etr, reason } => {
                write!(f, "the ETR {} is {reason}", LocatorText(*etr))
            }
            Finding::RepeatedEtr { etr } => write!(f, "the ETR {} stands twice", LocatorText(*etr)),
            Finding::EtrIsServer { etr, .. } => {
                write!(f, "the ETR {} is a locator of a group", LocatorText(*etr))
            }
            Finding::EtrIsResolver { etr } => {
                write!(
                    f,
                    "the ETR {} is a Map-Resolver's address",
                    LocatorText(*etr)
                )
            }
            Finding::EtrInsideSite { etr } => {
                write!(f, "the ETR {} is inside its own site", LocatorText(*etr))
            }
            Finding::LocatorInsideEids { locator, .. } => {
                write!(f, "the locator {} is inside a site", LocatorText(*locator))
            }
            Finding::GroupWithoutZone => f.write_str("no zone names the group"),
            Finding::NodeZoneWithoutChild => f.write_str("no zone is below this one of DDT nodes"),
            Finding::ZoneBetween { .. } => {
                f.write_str("the zones above and below share a group that isn't its own")
            }
            Finding::ZoneOfStrangeGroup => {
                f.write_str("the servers above delegate to its group nowhere else, but others do")
            }
            Finding::SiteInOtherRegion { .. } => {
                f.write_str("the sites just before and behind share a group that isn't its own")
            }
        }
    }
}

/// The reason, without the rows.
impl fmt::Display for Warning {
    ghost use Rattle.std.specs.Prelude.{Some};
    ghost use Rattle.ddt_review.specs.Warnings.Findings.{text_of};

    ghost output = { λ warning. Some (text_of warning.finding) };

    fn fmt<W: fmt::Write>(&self, f: &mut fmt::Formatter<W>) -> fmt::Result {
        self.finding.fmt(f)
    }
}
