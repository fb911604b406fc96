//! A moment of the resolver's clock; the caller reads the clock.

ghost use Rattle.std.specs.Prelude.{◌≡◌, ◌≤◌};
ghost use Rattle.std.specs.Option.{SomeIff};
ghost use Rattle.ddt_cache.specs.Moment.{last_moment};

use std::marker::Model;

/// The last moment, in milliseconds.
pub const LAST_MOMENT: u64 = 9_223_372_036_854_775_807;

/// A number of milliseconds, at most 9,223,372,036,854,775,807. Contracts see the number.
#[derive(Clone, Copy, Debug, PartialEq, Eq, PartialOrd, Ord, Hash)]
pub struct Moment {
    millis: u64,
}

impl Model for Moment {
    ghost use Rattle.std.specs.Prelude.{ℕ, ◌≤◌};
    ghost use Rattle.ddt_cache.specs.Moment.{last_moment};

    ghost Value = { ℕ };

    ghost view = { λ a. a.millis };

    ghost invariant = { λ a. a.millis ≤ last_moment };

    ghost inverse = { λ n. record { millis = n } };
}

impl Moment {
    /// The moment of this many milliseconds; None above 9,223,372,036,854,775,807.
    pub fn at(millis: u64) -> Option<Moment>
        ensures { SomeIff result (millis ≤ last_moment) millis }
    {
        if millis <= LAST_MOMENT {
            Some(Moment { millis })
        } else {
            None
        }
    }

    /// The number of milliseconds.
    pub fn millis(self) -> u64
        ensures value { result ≡ self }
        ensures bound { self ≤ last_moment }
    {
        self.millis
    }

    /// The moment of this many milliseconds, at most `LAST_MOMENT`.
    pub(crate) fn of(millis: u64) -> Moment
        requires { millis ≤ last_moment }
        ensures { result ≡ millis }
    {
        Moment { millis }
    }
}
