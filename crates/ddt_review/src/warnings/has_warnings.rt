//! The trait of the items of a register that may have warnings.

ghost use Rattle.std.specs.Prelude.{Bool, List, IfSome};
ghost use Rattle.std.specs.List.{Contains, list_any};
ghost use Rattle.ddt_path.specs.declared.locator.Locator.{Locator as ALocator};
ghost use Rattle.ddt_register.specs.declared.register.Register.{Register as ARegister};
ghost use Rattle.ddt_review.specs.declared.warnings.kind.Kind.{Kind as AKind};
ghost use Rattle.ddt_review.specs.Warnings.Found.{IsWarningFound, FindsAs, IsFoundFirst};
ghost use Rattle.ddt_review.specs.Warnings.Index.{IsIndex, register_of, resolvers_of};
ghost use Rattle.ddt_review.specs.Warnings.Named.{IsTrueFinding};

use crate::warnings::index::Index;
use crate::warnings::kind::Kind;
use crate::warnings::warning::Finding;
use ddt_path::Locator;
use ddt_register::Item;

/// A group, a site or a zone.
pub trait HasWarnings: Item {
    /// All items of this type in a register.
    ghost items_of: { ARegister → List Self };

    /// Whether an item has a warning of a kind, if Map-Resolvers have these addresses.
    ghost has: { ARegister → List ALocator → AKind → Self → Bool };

    /// The finding of its warning of a kind, if it has one.
    fn find(&self, index: &Index, kind: Kind) -> Option<Finding>
        requires index { IsIndex index.now }
        requires member { Contains (items_of (register_of index.now)) self.now }
        ensures found { IsWarningFound (has (register_of index.now) (resolvers_of index.now) kind self.now) kind
            result }
        ensures named { IfSome result
            (IsTrueFinding (register_of index.now) (resolvers_of index.now) (Self.row_of self.now)) };
}

/// The first finding among the locators of a list.
pub(crate) fn first_found<F: Fn(&Locator) -> Option<Finding>>(
    locators: &[Locator],
    find: F,
) -> Option<Finding>
    requires { F.IsAlwaysCallable find }
    ensures found { (has : ALocator → Bool) (kind : AKind) → FindsAs F.Fn find has kind
        → IsWarningFound (list_any has locators.now) kind result }
    ensures first { (has : ALocator → Bool) (kind : AKind) → FindsAs F.Fn find has kind
        → IfSome result (IsFoundFirst F.Fn find has locators.now) }
{
    for locator in locators {
        let found = find(locator);
        if found.is_some() {
            return found;
        }
    }
    None
}
