//! The ETRs of a site, which contracts see as the list of their locators.

ghost use Rattle.std.specs.Prelude.{◌≡◌, [], ◌∷◌};

use ddt_path::Locator;
use std::marker::Model;

/// The locators of a site's ETRs in order. Contracts see the list itself.
#[derive(Debug, Drop)]
pub struct Etrs {
    held: Held,
}

/// Most sites have exactly one ETR. Its locator is held in place and takes no memory elsewhere.
#[derive(Debug, Drop)]
enum Held {
    One([Locator; 1]),
    Many(Vec<Locator>),
}

impl Model for Etrs {
    ghost use Rattle.std.specs.Prelude.{List};
    ghost use Rattle.ddt_path.specs.declared.locator.Locator.{Locator};

    ghost Value = { List Locator };

    ghost use Rattle.ddt_register.specs.Held.{held_locators};

    ghost view = { λ a. held_locators a.held };
}

impl Etrs {
    /// The list of a vector's locators. It allocates nothing.
    pub fn of(items: Vec<Locator>) -> Etrs
        ensures { result ≡ items.items }
    {
        Etrs {
            held: Held::Many(items),
        }
    }

    /// The list of this locator alone. It allocates nothing.
    pub fn one(locator: Locator) -> Etrs
        ensures { result ≡ locator ∷ [] }
    {
        Etrs {
            held: Held::One([locator]),
        }
    }

    /// The locators in order.
    pub fn as_slice(&self) -> &[Locator]
        ensures { result.now ≡ self.now }
    {
        match &self.held {
            Held::One(locators) => locators.as_slice(),
            Held::Many(locators) => locators.as_slice(),
        }
    }
}
