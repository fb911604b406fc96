//! The entries of a configuration, each with its prefix in OOR.

ghost use Rattle.std.specs.Prelude.{◌≡◌};
ghost use Rattle.ddt_deploy.specs.Export.Rows.{is_loss as is_loss_of, is_lost as is_lost_of, reason as reason_of};

use crate::export::eid_prefix::EidPrefix;

/// Why OOR's configuration can't have a zone, a delegation or a site.
#[derive(Clone, Copy, PartialEq, Eq)]
pub(crate) enum Missing {
    /// It is a range of instances.
    Range,
    /// Its Instance ID has more than 24 bits.
    InstanceId,
    /// It is a delegation of all addresses of a family in an instance, which would be the zone itself.
    WholeFamily,
    /// It is a delegation to this group.
    OwnZone,
    /// It is inside another zone, delegation or site that is written.
    Inside,
    /// It is a zone of Map-Servers.
    MapServerZone,
}

impl Missing {
    /// Returns whether identifiers of a delegation or a site that is missing for this reason get a wrong answer.
    pub(crate) fn is_loss(self) -> bool
        ensures { result ≡ is_loss_of self }
    {
        match self {
            Missing::OwnZone => false,
            _ => true,
        }
    }

    /// Returns the reason in words.
    pub(crate) fn reason(self) -> &'static str
        ensures { result.now ≡ reason_of self }
    {
        match self {
            Missing::Range => "OOR has no ranges of instances",
            Missing::InstanceId => "OOR has no Instance ID above 16777215",
            Missing::WholeFamily => "OOR can't delegate a whole family of an instance",
            Missing::OwnZone => "it is a zone of this group, and what it delegates is here",
            Missing::Inside => "OOR drops what is inside another one of these",
            Missing::MapServerZone => "OOR's Map-Server has only sites",
        }
    }
}

/// An entry of a configuration, with its prefix in OOR or the reason why it is missing there.
#[derive(Clone, Copy)]
pub(crate) struct Row<T> {
    pub entry: T,
    pub written: Result<EidPrefix, Missing>,
}

/// Returns whether identifiers of a delegation or a site get a wrong answer.
pub(crate) fn is_lost(written: Result<EidPrefix, Missing>) -> bool
    ensures { result ≡ is_lost_of written }
{
    match written {
        Ok(_written) => false,
        Err(missing) => missing.is_loss(),
    }
}
