//! Which groups are compiled.

ghost use Rattle.std.specs.Prelude.{◌≡◌};
ghost use Rattle.ddt_compile.specs.GroupConfig.{is_wanted as is_wanted_of};

use ddt_path::Name;

/// Whether the group of this name is compiled: each is, or the one of the name in `only` alone.
pub fn is_wanted(only: &Option<Name>, group: Name) -> bool
    ensures { result ≡ is_wanted_of only.now group }
{
    match only {
        Some(name) => group == *name,
        None => true,
    }
}
