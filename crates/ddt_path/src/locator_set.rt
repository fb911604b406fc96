//! The locators of a referral set or of a server group, in order (RFC 8111, section 6.2).

ghost use Rattle.std.specs.Prelude.{◌≡◌, ◌≤◌, [], length};
ghost use Rattle.std.specs.Option.{SomeIff};
ghost use Rattle.ddt_path.specs.Locators.{most_locators};
ghost use Rattle.std.specs.Cmp.Rules.{comparing};
ghost use Rattle.std.proofs.Common.{rules};
ghost use Rattle.std.specs.Cmp.Lexicographic.{pointwise, lists_per, lists_equiv};

use crate::locator::Locator;
use std::marker::Model;

/// How many locators a set holds at most.
pub const MOST_LOCATORS: usize = 8;

const FILLER: Locator = Locator::V4(0);

/// 0 to 8 locators in order. Contracts see the list.
#[derive(Clone, Copy, Debug)]
pub struct LocatorSet {
    slots: [Locator; MOST_LOCATORS],
    len: usize,
}

impl Model for LocatorSet {
    ghost use Rattle.std.specs.Prelude.{List, ℕ, take, length};
    ghost use Rattle.std.proofs.Common.{ap, ◌∙◌};
    ghost use Rattle.ddt_path.specs.declared.locator.Locator.{Locator};
    ghost use Rattle.ddt_path.specs.declared.locator.Locator.TheVariants.{V4};

    ghost Value = { List Locator };

    ghost use Rattle.ddt_path.specs.Locators.{most_locators};
    ghost use Rattle.ddt_path.specs.Slots.{IsFilled, filled, filled-take, length-filled_items};
    ghost use Rattle.ddt_path.specs.declared.locator_set.LocatorSet.TheInside.{Inside};

    ghost view = { λ a. take a.len a.slots };

    ghost invariant = { λ a. IsFilled most_locators (V4 0) a.slots a.len };

    ghost inverse = { λ items. record { slots = filled most_locators (V4 0) items; len = length items } };

    ghost inverse_ok = { λ a h. ap (λ (s : List Locator).
        let r : Inside = record { slots = s; len = length (take a.len a.slots) } in r)
        (filled-take most_locators (V4 0) a.slots a.len h) ∙ ap (λ (n : ℕ).
        let r : Inside = record { slots = a.slots; len = n } in r) (length-filled_items most_locators (V4 0) a.slots
        a.len h) };
}

impl LocatorSet {
    /// The set of these locators, in their order; None where they are more than 8.
    pub fn of(locators: &[Locator]) -> Option<LocatorSet>
        ensures { SomeIff result (length locators.now ≤ most_locators) locators.now }
    {
        if locators.len() > MOST_LOCATORS {
            return None;
        }
        Some(LocatorSet::of_few(locators))
    }

    /// The set of these locators, at most 8 of them, in their order.
    pub fn of_few(locators: &[Locator]) -> LocatorSet
        requires { length locators.now ≤ most_locators }
        ensures { result ≡ locators.now }
    {
        let mut slots = [FILLER; MOST_LOCATORS];
        slots[..locators.len()].copy_from_slice(locators);
        LocatorSet {
            slots,
            len: locators.len(),
        }
    }

    /// The set of no locator.
    pub fn none() -> LocatorSet
        ensures { result ≡ [] }
    {
        LocatorSet {
            slots: [FILLER; MOST_LOCATORS],
            len: 0,
        }
    }

    /// The locators in order.
    pub fn as_slice(&self) -> &[Locator]
        ensures items { result.now ≡ self.now }
        ensures bound { length self.now ≤ most_locators }
    {
        &self.slots[..self.len]
    }
}

impl PartialEq for LocatorSet {
    ghost eq = { pointwise ⟦<Locator as PartialEq>⟧.eq };

    ghost laws = { lists_per (Prim.search (comparing, rules)) };

    fn eq(&self, other: &LocatorSet) -> bool {
        self.as_slice() == other.as_slice()
    }
}

impl Eq for LocatorSet {
    ghost laws = { lists_equiv (Prim.search (comparing, rules)) };
}
