//! What holds of the definitions: each function here is a law, and does nothing.

ghost use Rattle.ddt_foreign.specs.Grammar.{SpelledIsTaken, TakenIsSpelled, NoneIsTaken, PlainIsTaken, OwnersAreRead, GivenAgain};
ghost use Rattle.ddt_foreign.specs.Ordered.{AreOrdered};
ghost use Rattle.ddt_foreign.specs.RequestLaws.{RequestsStay, OnlyDdtChanges, FirstIsLookedUp, RlocsAreFew};
ghost use Rattle.ddt_foreign.specs.Alike.{ReadsTheSame, RecordsStay, RecordsStayBut};

/// What the core reads of bytes, of a prefix that covers the identifier, is taken here too: nonce, action, prefix, TTL,
/// the Incomplete bit, and the addresses in order.
pub fn what_the_core_reads_is_taken()
    ensures { ReadsTheSame }
{}

/// Where, besides, its locators have one priority, it isn't incomplete and its TTL isn't above what is kept of its
/// action, the very record is given; and in any case but for the order of its locators and how long it is kept.
pub fn what_the_core_reads_stays()
    ensures same { RecordsStay }
    ensures but { RecordsStayBut }
{}

/// Of the locators that were read at most eight are given, by priority; none of priority 255 if another is there.
pub fn locators_are_ordered()
    ensures { AreOrdered }
{}

/// Of records that are spelled the first that covers the identifier is taken, whatever follows it: with signature
/// sections, and with locators in LCAFs. What is taken is spelled so, and nothing is taken exactly where nothing is
/// spelled. What is given has its action, its prefix, its bit I and its locators. Of an LCAF of type 11 the address
/// that owns the keys is read.
pub fn what_is_spelled_is_taken()
    ensures taken { SpelledIsTaken }
    ensures spelled { TakenIsSpelled }
    ensures none { NoneIsTaken }
    ensures plain { PlainIsTaken }
    ensures owners { OwnersAreRead }
{}

/// Of Map-Requests: what the core reads is read here too, with the same nonce, bit D, port, identifier and ITR-RLOCs,
/// and with the prefix that is this identifier. Another bit D in the first byte changes nothing but the bit D of what
/// is read. What is looked up is the first address of the EID-prefix. There are 1 to 32 ITR-RLOCs whose address is
/// known.
pub fn foreign_request_laws()
    ensures stay { RequestsStay }
    ensures ddt { OnlyDdtChanges }
    ensures first { FirstIsLookedUp }
    ensures few { RlocsAreFew }
{}

/// What is given for an identifier is given again of what is written of it.
pub fn what_is_given_stays()
    ensures { GivenAgain }
{}
