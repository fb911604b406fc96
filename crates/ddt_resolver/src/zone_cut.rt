//! Cutting a reply to the zone that its server was asked for: a server's reply counts for nothing beyond that zone.

ghost use Rattle.std.specs.Prelude.{◌≡◌, IfOk, IfSome, IfNone, OnErr};
ghost use Rattle.ddt_path.specs.declared.record.ReferralRecord.{ReferralRecord as RecordValue};
ghost use Rattle.ddt_resolver.specs.declared.pending.Pending.{Pending as APending};
ghost use Rattle.ddt_resolver.specs.Within.{IsBeyond, IsWide, IsCut};

use crate::pending::Pending;
use crate::replies::{is_about, is_asked};
use crate::resolver::Resolver;
use ddt_cache::Entry;
use ddt_path::{Action, Listed, Locator, Prefix, ReferralRecord};
use ddt_trie::PrefixMap;
use ddt_wire::write_referral;
use std::alloc::AllocError;

/// A reply whose prefix reaches beyond the zone that its server was asked for.
#[derive(Clone, Copy, Debug)]
struct Wide {
    /// The lookup that it is for.
    lookup: Pending,
    /// The reply's record.
    told: ReferralRecord,
    /// The zone.
    zone: Prefix,
}

impl<M: PrefixMap<Entry>> Resolver<M> {
    /// The bytes to handle in place of a datagram from a source; None to handle the datagram as it is. A reply whose
    /// prefix isn't inside the zone that its server was asked for is cut: the bytes are the same record for that zone.
    /// This applies to a Map-Referral for a pending lookup's last request, from the server that was asked, that is
    /// about the identifier.
    ///
    /// The zone is that of the last referral that was followed, or of the cache entry at which the lookup started; the
    /// root is asked for no zone. NOT-AUTHORITATIVE is never cut.
    ///
    /// Fails only if out of memory, for a reply that is to be cut.
    pub fn cut_to_zone(
        &self,
        source: Locator,
        bytes: &[u8],
    ) -> Result<Option<Listed<u8>>, AllocError>
        ensures cut { IfOk result (λ heard. IsCut self.now source bytes.now heard) }
        ensures wanted { OnErr result ((l : APending) × (rec : RecordValue) × (zone : _)
            × IsWide self.now source bytes.now l rec zone) }
    {
        let Some(wide) = self.wide(source, bytes) else {
            return Ok(None);
        };
        let cut = ReferralRecord {
            prefix: wide.zone,
            ..wide.told
        };
        match write_referral(self.alloc, wide.lookup.nonce, &cut) {
            Ok(bytes) => Ok(Some(Listed::of(bytes))),
            Err(refused) => Err(refused),
        }
    }

    /// The reply in a datagram from a source, if it reaches beyond its zone; otherwise None.
    fn wide(&self, source: Locator, bytes: &[u8]) -> Option<Wide>
        ensures wide { IfSome result (λ w. IsWide self.now source bytes.now w.lookup w.told w.zone) }
        ensures none { IfNone result ((l : APending) (rec : RecordValue) (zone : _)
            → IsWide self.now source bytes.now l rec zone → ⊥) }
    {
        self.in_order();
        let reply = match self.reply(bytes) {
            Ok(reply) => reply,
            Err(_why) => return None,
        };
        if !is_asked(&reply.lookup, source) {
            return None;
        }
        if !is_about(&reply.told, reply.lookup.x) {
            return None;
        }
        match zone_beyond(&reply.lookup, &reply.told) {
            Some(zone) => Some(Wide {
                lookup: reply.lookup,
                told: reply.told,
                zone,
            }),
            None => None,
        }
    }
}

/// The zone that a lookup's server was asked for, if the record reaches beyond it; None for NOT-AUTHORITATIVE.
fn zone_beyond(lookup: &Pending, told: &ReferralRecord) -> Option<Prefix>
    ensures beyond { IfSome result (λ zone. IsBeyond lookup.now told.now zone) }
    ensures none { IfNone result ((zone : _) → IsBeyond lookup.now told.now zone → ⊥) }
{
    match told.action {
        Action::NotAuthoritative => None,
        _ => match lookup.asked_within() {
            Some(zone) => {
                if zone.covers(told.prefix) {
                    None
                } else {
                    Some(zone)
                }
            }
            None => None,
        },
    }
}
