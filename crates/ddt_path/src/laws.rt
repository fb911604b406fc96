//! Laws of holes (RFC 8111, section 7.1.2), over the definitions alone: each is the contract of a function that does
//! nothing.

ghost use Rattle.std.specs.Prelude.{◌≡◌, ℕ, IsTrue, List, None, Some};
ghost use Rattle.std.specs.List.{list_any, list_all};
ghost use Rattle.ddt_path.specs.Path.{is_path, is_prefix_path};
ghost use Rattle.ddt_path.specs.Covers.{covers, is_same_path};
ghost use Rattle.ddt_path.specs.Free.{free, is_free};

/// The least specific free prefix that is found for one identifier is the one of each identifier that it covers.
pub fn one_hole_for_all_it_covers()
    ensures { (authority : List ℕ) (keys : List (List ℕ)) (x y hole : List ℕ) →
        free authority keys x ≡ Some hole → IsTrue (covers hole y) → free authority keys y ≡ Some hole }
{}

/// The least specific free prefix covers the identifier, lies inside the authority and overlaps no key.
pub fn a_hole_is_free()
    ensures { (authority : List ℕ) (keys : List (List ℕ)) (x hole : List ℕ) →
        IsTrue (covers authority x) → free authority keys x ≡ Some hole → IsTrue (is_free authority keys x hole) }
{}

/// Nothing is free for an identifier that a key covers.
pub fn no_hole_under_a_key()
    ensures { (authority : List ℕ) (keys : List (List ℕ)) (x key : List ℕ) →
        IsTrue (list_any (is_same_path key) keys) → IsTrue (covers key x) → free authority keys x ≡ None }
{}

/// Where nothing is free for an identifier inside the authority, a key covers it.
pub fn none_free_is_covered()
    ensures { (authority : List ℕ) (keys : List (List ℕ)) (x : List ℕ) →
        IsTrue (is_path x) → IsTrue (list_all is_prefix_path keys) → IsTrue (covers authority x) →
        free authority keys x ≡ None → IsTrue (list_any (λ key. covers key x) keys) }
{}
