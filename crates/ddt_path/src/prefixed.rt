//! Items that have a prefix: zones, sites, and what stands in a configuration under one.

ghost use Rattle.std.specs.Prelude.{◌≡◌, List, ℕ};

use crate::prefix::Prefix;

/// An item that has a prefix.
pub trait Prefixed {
    /// The path of its prefix.
    ghost path: { Self → List ℕ };

    /// Its prefix.
    fn prefix(&self) -> Prefix
        ensures { result ≡ path self.now };
}

/// An entry of a map from prefixes.
impl<V> Prefixed for (Prefix, V) {
    ghost path = { λ entry. entry.0 };

    fn prefix(&self) -> Prefix {
        self.0
    }
}

impl Prefixed for Prefix {
    ghost path = { λ p. p };

    fn prefix(&self) -> Prefix {
        *self
    }
}
