//! The decision of a server for an identifier: the longest authority that covers it, and then the longest child or site
//! in it, or the delegation hole.

ghost use Rattle.std.specs.Prelude.{◌≡◌, ◌<◌, ◌≤◌, IsTrue, List, None, Some, length, map, slice_get, IfSome, IfNone};
ghost use Rattle.std.specs.FinMap.{keys};
ghost use Rattle.std.specs.Option.{option_map};
ghost use Rattle.ddt_path.specs.declared.locator.Locator.{Locator as ALocator};
ghost use Rattle.ddt_path.specs.Locators.{most_locators};
ghost use Rattle.ddt_path.specs.Records.{record_of, referral_action as referral_action_of};
ghost use Rattle.ddt_path.specs.Path.{xeid_path};
ghost use Rattle.ddt_path.specs.Covers.{covers};
ghost use Rattle.ddt_path.specs.Free.{hole_of};
ghost use Rattle.ddt_path.specs.Matching.{longest_match};
ghost use Rattle.ddt_config.specs.Answer.{answer as answer_of, answer_in as answer_in_of, site_outcome as site_outcome_of, referral_to as referral_to_child};
ghost use Rattle.ddt_config.specs.Entries.{prefixes_in};
ghost use Rattle.ddt_trie.specs.PrefixMap.{keys_below};
ghost use Rattle.ddt_wire.specs.Referral.{lent_record};
ghost use Rattle.ddt_node.specs.Places.{places as places_of};
ghost use Rattle.ddt_node.specs.declared.decision.Decision.TheVariants.{Hole};
ghost use Rattle.ddt_node.specs.Decisions.{etr_by, record_by, whole_record};
ghost use Rattle.ddt_node.specs.Served.{content_of};
ghost use Rattle.ddt_node.specs.Server.{etr_in, first_etr};

use crate::delegations::{Delegations, ReferralSet};
use crate::served_authority::{ServedAuthority, ServedContent};
use crate::server::Server;
use ddt_config::SiteEntry;
use ddt_path::{
    Action, HOLE_TTL, Locator, LocatorSet, NOT_AUTHORITATIVE_TTL, NOT_REGISTERED_TTL, POSITIVE_TTL,
    Prefix, Prefixed, Role, Xeid,
};
use ddt_trie::PrefixMap;
use ddt_wire::LentRecord;

/// The index of the item with the longest prefix that covers the identifier; None if no item covers it. A single item
/// is compared directly.
pub fn longest<T: Prefixed, M: PrefixMap<u32>>(items: &[T], places: &M, x: Xeid) -> Option<usize>
    requires { M.content places.now ≡ places_of (map T.path items.now) }
    ensures inside { IfSome result (λ at. at < length items.now) }
    ensures found { IfSome result (λ at. longest_match T.path items.now (xeid_path x) ≡ slice_get items.now at) }
    ensures none { IfNone result (longest_match T.path items.now (xeid_path x) ≡ None) }
{
    if let [alone] = items {
        return alone.prefix().covers_xeid(x).then_some(0);
    }
    match places.longest(x) {
        Some(found) => Some(*found.1 as usize),
        None => None,
    }
}

/// The action of a referral to servers of this role.
fn referral_action(role: Role) -> Action
    ensures { result ≡ referral_action_of role }
{
    match role {
        Role::Node => Action::NodeReferral,
        Role::Ms => Action::MsReferral,
    }
}

/// A record with a complete referral set: the bit Incomplete is clear.
fn whole(action: Action, prefix: Prefix, ttl: u32, servers: &[Locator]) -> LentRecord<'_>
    ensures record { lent_record result ≡ whole_record action prefix ttl servers.now }
    ensures servers { result.servers.now ≡ servers.now }
{
    LentRecord {
        action,
        prefix,
        ttl,
        incomplete: false,
        servers,
    }
}

/// The decision for an identifier, from which its record is made. It borrows the referral set of a child.
#[derive(Clone, Copy, Debug)]
pub enum Decision<'a> {
    /// A referral to the child of this prefix, with its referral set.
    Child {
        prefix: Prefix,
        set: &'a ReferralSet,
    },
    /// The site of this prefix has ETRs. The request is forwarded to the first, `etr`.
    Registered {
        prefix: Prefix,
        etr: Locator,
    },
    /// The site has no ETR. The prefix is the part of the site around the identifier.
    NotRegistered {
        prefix: Prefix,
    },
    /// The delegation hole of this prefix.
    Hole {
        prefix: Prefix,
    },
    /// No authority covers the identifier.
    Outside,
}

impl<'a> Decision<'a> {
    /// The record of the decision for an identifier, at servers with these locators. It borrows the locators that it
    /// has.
    pub fn record(&self, servers: &'a LocatorSet, x: Xeid) -> LentRecord<'a>
        ensures record { lent_record result ≡ record_by servers.now (xeid_path x) self.now }
        ensures few { length result.servers.now ≤ most_locators }
    {
        match *self {
            Decision::Child { prefix, set } => {
                let action = referral_action(set.role);
                whole(action, prefix, POSITIVE_TTL, set.locators.as_slice())
            }
            Decision::Registered { prefix, .. } => {
                whole(Action::MsAck, prefix, POSITIVE_TTL, servers.as_slice())
            }
            Decision::NotRegistered { prefix } => {
                let action = Action::MsNotRegistered;
                whole(action, prefix, NOT_REGISTERED_TTL, servers.as_slice())
            }
            Decision::Hole { prefix } => whole(Action::DelegationHole, prefix, HOLE_TTL, &[]),
            Decision::Outside => LentRecord {
                action: Action::NotAuthoritative,
                prefix: Prefix::host(x),
                ttl: NOT_AUTHORITATIVE_TTL,
                incomplete: true,
                servers: &[],
            },
        }
    }

    /// The ETR to which the request is forwarded; None unless it is acknowledged.
    pub fn etr(&self) -> Option<Locator>
        ensures { result ≡ etr_by self.now }
    {
        match *self {
            Decision::Registered { etr, .. } => Some(etr),
            _ => None,
        }
    }
}

/// The delegation hole around an identifier that no child or site of the authority covers. It is the least specific
/// prefix in the authority that covers the identifier and overlaps none of them (RFC 8111, section 7.1.2).
fn hole<M: PrefixMap<u32>>(authority: Prefix, places: &M, x: Xeid) -> Decision<'static>
    requires { IsTrue (covers authority (xeid_path x)) }
    ensures { result ≡ Hole (hole_of authority (keys (M.content places.now)) (xeid_path x)) }
{
    Decision::Hole {
        prefix: places.free(authority, x).unwrap_or(Prefix::host(x)),
    }
}

/// The part of a site around an identifier: the least specific prefix in the site that covers the identifier and
/// overlaps none of the prefixes inside the site.
fn part_of<M: PrefixMap<u32>>(site: Prefix, places: &M, x: Xeid) -> Prefix
    requires { IsTrue (covers site (xeid_path x)) }
    ensures { result ≡ hole_of site (keys_below (M.content places.now) site) (xeid_path x) }
{
    places.free_below(site, x).unwrap_or(Prefix::host(x))
}

/// The decision in the site that an identifier belongs to: registered with the first ETR of the site, if it has one.
fn site_decision<M: PrefixMap<u32>>(site: &SiteEntry, places: &M, x: Xeid) -> Decision<'static>
    requires { IsTrue (covers site.now.prefix (xeid_path x)) }
    ensures record { (servers : List ALocator) → record_by servers (xeid_path x) result
        ≡ record_of (site_outcome_of servers (keys (M.content places.now)) (xeid_path x) site.now) }
    ensures etr { etr_by result ≡ slice_get site.now.etrs 0 }
{
    match site.etrs.as_slice().first() {
        Some(etr) => Decision::Registered {
            prefix: site.prefix,
            etr: *etr,
        },
        None => Decision::NotRegistered {
            prefix: part_of(site.prefix, places, x),
        },
    }
}

/// The decision in the longest child that covers the identifier. None if no child covers it.
fn child_decision<'a, M: PrefixMap<u32>>(
    children: &'a Delegations,
    places: &M,
    x: Xeid,
) -> Option<Decision<'a>>
    requires { M.content places.now ≡ places_of (map (λ c. c.prefix) children.now) }
    ensures record { IfSome result (λ d. (servers : List ALocator) → Some (record_by servers (xeid_path x) d)
        ≡ option_map referral_to_child (longest_match (λ c. c.prefix) children.now (xeid_path x))) }
    ensures etr { IfSome result (λ d. etr_by d ≡ None) }
    ensures none { IfNone result (longest_match (λ c. c.prefix) children.now (xeid_path x) ≡ None) }
{
    match places.longest(x) {
        Some(found) => {
            let set = children.set_at(*found.1 as usize);
            let prefix = found.0;
            Some(Decision::Child { prefix, set })
        }
        None => None,
    }
}

/// The decision in an authority of this prefix and content, which covers the identifier.
fn decision_by<'a, M: PrefixMap<u32>>(
    authority: Prefix,
    content: &'a ServedContent,
    places: &M,
    x: Xeid,
) -> Decision<'a>
    requires places { M.content places.now ≡ places_of (prefixes_in (content_of content.now)) }
    requires inside { IsTrue (covers authority (xeid_path x)) }
    ensures record { (servers : List ALocator) → record_by servers (xeid_path x) result
        ≡ answer_in_of servers authority (content_of content.now) (xeid_path x) }
    ensures etr { etr_by result ≡ etr_in (xeid_path x) (content_of content.now) }
{
    match content {
        ServedContent::Children(children) => match child_decision(children, places, x) {
            Some(decision) => decision,
            None => hole(authority, places, x),
        },
        ServedContent::Sites(sites) => match longest(sites.as_slice(), places, x) {
            Some(at) => site_decision(&sites.as_slice()[at], places, x),
            None => hole(authority, places, x),
        },
    }
}

/// The decision in an authority that covers the identifier.
pub fn decision_in<'a, M: PrefixMap<u32>>(
    authority: &'a ServedAuthority,
    places: &M,
    x: Xeid,
) -> Decision<'a>
    requires places { M.content places.now ≡ places_of (prefixes_in authority.now.content) }
    requires inside { IsTrue (covers authority.now.prefix (xeid_path x)) }
    ensures record { (servers : List ALocator) → record_by servers (xeid_path x) result
        ≡ answer_in_of servers authority.now.prefix authority.now.content (xeid_path x) }
    ensures etr { etr_by result ≡ etr_in (xeid_path x) authority.now.content }
{
    decision_by(authority.prefix, &authority.content, places, x)
}

impl<M: PrefixMap<u32>> Server<M> {
    /// The decision for an identifier, made in the longest authority of the server that covers it; `Outside` where none
    /// does. It allocates nothing.
    pub(crate) fn decision(&self, x: Xeid) -> Decision<'_>
        ensures record { record_by self.now.locators (xeid_path x) result ≡ answer_of self.now (xeid_path x) }
        ensures etr { etr_by result ≡ first_etr self.now (xeid_path x) }
    {
        let authorities = self.authorities.as_slice();
        match longest(authorities, &self.index.authorities, x) {
            Some(at) => decision_in(&authorities[at], &self.index.contents[at], x),
            None => Decision::Outside,
        }
    }
}
