//! Laws of every accepted register, over the definitions alone: each is the contract of a function that does nothing.
//! From them it follows that referrals followed from the root over honest servers end in the assignment.

ghost use Rattle.ddt_register.specs.declared.register.Register.{Register};
ghost use Rattle.ddt_check.specs.Rules.{IsAccepted};
ghost use Rattle.ddt_check.specs.laws.Statements.{EachIdentifierHasOneZone, TheRootIsServed, EachLocatorIsOfOneGroup, EachZoneHasServers, EachGroupHasAFirstLocator, ServersReferDownwards, ReferralsAreToZones, FinalAnswersAreTheAssignment, AnswersCover, AnswersHaveServers, ServersOfAGroupAgree, AnswersCanBeSent, RegisteredPrefixesAreSites, NegativesHoldOfAll, HolesAreFree, PartsOfSitesAreFree};

/// One zone is the longest that covers an identifier; DDT nodes serve everything at 1 to 8 locators, the roots; and a
/// locator serves the zones of one group alone (RFC 8111, section 4).
pub fn each_identifier_has_a_zone()
    ensures one_zone { (r : Register) → IsAccepted r → EachIdentifierHasOneZone r }
    ensures root { (r : Register) → IsAccepted r → TheRootIsServed r }
    ensures one_group { (r : Register) → IsAccepted r → EachLocatorIsOfOneGroup r }
{}

/// Each zone is served: its group has a row with 1 to 8 locators, and they are the zone's; and each group row has a
/// first locator. So what looks up the locators of a zone's group, or the first of a group, never meets its default.
pub fn each_zone_has_servers()
    ensures served { (r : Register) → IsAccepted r → EachZoneHasServers r }
    ensures first { (r : Register) → IsAccepted r → EachGroupHasAFirstLocator r }
{}

/// What an honest server answers for an identifier that one of its zones covers: a referral strictly downwards, to a
/// zone that covers the identifier, or the record of the assignment (RFC 8111, sections 6.1, 7.1 and 7.2).
pub fn honest_servers_lead_to_the_assignment()
    ensures downwards { (r : Register) → IsAccepted r → ServersReferDownwards r }
    ensures to_zones { (r : Register) → IsAccepted r → ReferralsAreToZones r }
    ensures decided { (r : Register) → IsAccepted r → FinalAnswersAreTheAssignment r }
    ensures cover { (r : Register) → IsAccepted r → AnswersCover r }
    ensures servers { (r : Register) → IsAccepted r → AnswersHaveServers r }
    ensures sendable { (r : Register) → IsAccepted r → AnswersCanBeSent r }
    ensures agree { (r : Register) → IsAccepted r → ServersOfAGroupAgree r }
{}

/// What the assignment of one identifier implies for others. A registered prefix is a site, and implies nothing for
/// them. Each identifier that the prefix of a hole, or of a part of a site that isn't registered, covers is assigned
/// the same.
pub fn negatives_hold_of_all_that_they_cover()
    ensures registered { (r : Register) → IsAccepted r → RegisteredPrefixesAreSites r }
    ensures negative { (r : Register) → IsAccepted r → NegativesHoldOfAll r }
    ensures hole { (r : Register) → IsAccepted r → HolesAreFree r }
    ensures part { (r : Register) → IsAccepted r → PartsOfSitesAreFree r }
{}
