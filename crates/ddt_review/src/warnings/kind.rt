//! The kinds of warnings, and their names.

ghost use Rattle.std.specs.Prelude.{◌≡◌, ◌≢◌, MatchOption};
ghost use Rattle.ddt_review.specs.declared.warnings.kind.Kind.{Kind as AKind};
ghost use Rattle.ddt_review.specs.Warnings.Names.{name_of, kind_number};

use std::fmt;

/// A kind of warning, in the order in which the warnings of a row are reported.
#[derive(Clone, Copy, Debug, PartialEq, Eq, PartialOrd, Ord)]
pub enum Kind {
    /// A group's locator that can't be reached from elsewhere: unspecified, link-local, multicast or broadcast; a
    /// loopback one too, unless the register is wholly on the loopback.
    UnreachableLocator,
    /// An ETR of a site that can't be reached from elsewhere, for the same reasons.
    UnreachableEtr,
    /// An ETR occurs twice in a site.
    RepeatedEtr,
    /// An ETR of a site is a locator of a group.
    EtrIsServer,
    /// An ETR of a site is a known Map-Resolver's address.
    EtrIsResolver,
    /// An ETR's address is inside its own site's EID-prefix, in whichever instance.
    EtrInsideSite,
    /// A site covers a group's locator in instance 0.
    LocatorInsideEids,
    /// No zone names the group.
    GroupWithoutZone,
    /// A zone of DDT nodes has no zone below it.
    NodeZoneWithoutChild,
    /// A zone of DDT nodes is between a zone and those directly below it, which share another group.
    ZoneBetween,
    /// The servers above the zone delegate to its group nowhere else, but often to other groups; and its group often
    /// has zones that other servers delegate.
    ZoneOfStrangeGroup,
    /// The sites just before and just after a site are near and served by one group, and the site by another.
    SiteInOtherRegion,
}

impl Kind {
    /// All kinds, in their order.
    pub const ALL: [Kind; 12] = [
        Kind::UnreachableLocator,
        Kind::UnreachableEtr,
        Kind::RepeatedEtr,
        Kind::EtrIsServer,
        Kind::EtrIsResolver,
        Kind::EtrInsideSite,
        Kind::LocatorInsideEids,
        Kind::GroupWithoutZone,
        Kind::NodeZoneWithoutChild,
        Kind::ZoneBetween,
        Kind::ZoneOfStrangeGroup,
        Kind::SiteInOtherRegion,
    ];

    /// The kind of this name; None of any other text.
    pub fn of(name: &str) -> Option<Kind>
        ensures { MatchOption result ((kind : AKind) → name_of kind ≢ name.now) (λ kind. name_of kind ≡ name.now) }
    {
        match name {
            "unreachable-locator" => Some(Kind::UnreachableLocator),
            "unreachable-etr" => Some(Kind::UnreachableEtr),
            "repeated-etr" => Some(Kind::RepeatedEtr),
            "etr-is-server" => Some(Kind::EtrIsServer),
            "etr-is-resolver" => Some(Kind::EtrIsResolver),
            "etr-inside-site" => Some(Kind::EtrInsideSite),
            "locator-inside-eids" => Some(Kind::LocatorInsideEids),
            "group-without-zone" => Some(Kind::GroupWithoutZone),
            "node-zone-without-child" => Some(Kind::NodeZoneWithoutChild),
            "zone-between" => Some(Kind::ZoneBetween),
            "zone-of-strange-group" => Some(Kind::ZoneOfStrangeGroup),
            "site-in-other-region" => Some(Kind::SiteInOtherRegion),
            _ => None,
        }
    }

    /// Its place in `ALL`, from 0.
    pub(crate) fn place(self) -> u8
        ensures { result ≡ kind_number self }
    {
        match self {
            Kind::UnreachableLocator => 0,
            Kind::UnreachableEtr => 1,
            Kind::RepeatedEtr => 2,
            Kind::EtrIsServer => 3,
            Kind::EtrIsResolver => 4,
            Kind::EtrInsideSite => 5,
            Kind::LocatorInsideEids => 6,
            Kind::GroupWithoutZone => 7,
            Kind::NodeZoneWithoutChild => 8,
            Kind::ZoneBetween => 9,
            Kind::ZoneOfStrangeGroup => 10,
            Kind::SiteInOtherRegion => 11,
        }
    }

    /// Its name.
    pub fn name(self) -> &'static str
        ensures { result.now ≡ name_of self }
    {
        match self {
            Kind::UnreachableLocator => "unreachable-locator",
            Kind::UnreachableEtr => "unreachable-etr",
            Kind::RepeatedEtr => "repeated-etr",
            Kind::EtrIsServer => "etr-is-server",
            Kind::EtrIsResolver => "etr-is-resolver",
            Kind::EtrInsideSite => "etr-inside-site",
            Kind::LocatorInsideEids => "locator-inside-eids",
            Kind::GroupWithoutZone => "group-without-zone",
            Kind::NodeZoneWithoutChild => "node-zone-without-child",
            Kind::ZoneBetween => "zone-between",
            Kind::ZoneOfStrangeGroup => "zone-of-strange-group",
            Kind::SiteInOtherRegion => "site-in-other-region",
        }
    }
}

/// The name.
impl fmt::Display for Kind {
    ghost use Rattle.std.specs.Prelude.{Some};
    ghost use Rattle.ddt_review.specs.Warnings.Names.{name_of};

    ghost output = { λ kind. Some (name_of kind) };

    fn fmt<W: fmt::Write>(&self, f: &mut fmt::Formatter<W>) -> fmt::Result {
        f.write_str(self.name())
    }
}
