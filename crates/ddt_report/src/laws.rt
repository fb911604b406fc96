//! Laws of each text that is escaped, over the definitions alone: each is the contract of a function that does nothing.

ghost use Rattle.std.specs.Prelude.{◌≡◌, ℕ, List, IsTrue};
ghost use Rattle.std.specs.List.{list_all};
ghost use Rattle.ddt_report.specs.Html.{escaped};
ghost use Rattle.ddt_report.specs.Markup.{has_whole_references, is_inert, shown};

/// No text becomes markup: an escaped text has no `<`, `>`, `"` or `'`, and an `&` only where one of the five character
/// references begins.
pub fn escaping_leaves_no_markup()
    ensures inert { (text : List ℕ) → IsTrue (list_all is_inert (escaped text)) }
    ensures references { (text : List ℕ) → IsTrue (has_whole_references (escaped text)) }
{}

/// Escaping loses nothing: a browser that reads the references shows the text.
pub fn escaping_loses_nothing()
    ensures { (text : List ℕ) → shown (escaped text) ≡ text }
{}
