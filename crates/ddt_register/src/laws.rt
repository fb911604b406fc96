//! Laws of registers, over the definitions alone: each is the contract of a function that does nothing.

ghost use Rattle.std.specs.Prelude.{IsTrue, map};
ghost use Rattle.std.specs.List.{list_all};
ghost use Rattle.ddt_path.specs.Path.{is_prefix_path};
ghost use Rattle.ddt_register.specs.declared.register.Register.{Register as ARegister};
ghost use Rattle.ddt_register.specs.Ranges.{is_in_range};

/// The numbers of each register are in the ranges of their types, so that each prefix in it is the front of an
/// identifier's path.
pub fn a_register_is_in_range()
    ensures items { (r : ARegister) → IsTrue (is_in_range r.zones r.sites r.groups) }
    ensures zones { (r : ARegister) → IsTrue (list_all is_prefix_path (map (λ z. z.prefix) r.zones)) }
    ensures sites { (r : ARegister) → IsTrue (list_all is_prefix_path (map (λ s. s.prefix) r.sites)) }
{}
