//! Laws of every register, over the definitions alone: each is the contract of a function that does nothing.

ghost use Rattle.ddt_register.specs.declared.register.Register.{Register};
ghost use Rattle.ddt_check.specs.Rules.{IsAccepted};
ghost use Rattle.ddt_plan.specs.Laws.{IsAssignedAlike, NegativesAreBlocks, IsReadOffItsBlock, ExactIsEqual};

/// If no zone and no site is strictly below a prefix, all identifiers that it covers are assigned the same.
pub fn a_block_is_assigned_alike()
    ensures { (r : Register) → IsAssignedAlike r }
{}

/// In an accepted register the prefix of a hole, or of the part of a site that isn't registered, is the block of the
/// identifier; and the zone and the site of a block decide what is assigned to all of it.
pub fn a_negative_is_its_block()
    ensures negative { (r : Register) → IsAccepted r → NegativesAreBlocks r }
    ensures read_off { (r : Register) → IsAccepted r → IsReadOffItsBlock r }
{}

/// By the reading Exact, two outcomes are the same if and only if they are equal.
pub fn exactly_the_same_is_equal()
    ensures { ExactIsEqual }
{}
