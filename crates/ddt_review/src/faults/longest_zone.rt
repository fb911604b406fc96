//! The longest zone of a map that covers a prefix.

ghost use Rattle.std.specs.Prelude.{◌≡◌, List};
ghost use Rattle.std.specs.Option.{option_map};
ghost use Rattle.ddt_path.specs.Matching.{longest_match};
ghost use Rattle.ddt_register.specs.declared.zone.Zone.{Zone as AZone};
ghost use Rattle.ddt_trie.specs.Trie.{trie_content};
ghost use Rattle.ddt_review.specs.Faults.Told.{HasFirstOf, row_of_zone};

use crate::faults::first_items::RowAndKind;
use ddt_path::Prefix;
use ddt_trie::TrieMap;

/// The zone of the longest prefix that covers this one; of equal ones the first.
pub fn longest(first: &TrieMap<RowAndKind>, prefix: Prefix) -> Option<RowAndKind>
    ensures { (zones : List AZone) → HasFirstOf (trie_content first.now) zones
        → result ≡ option_map row_of_zone (longest_match (λ z. z.prefix) zones prefix) }
{
    match first.longest_over(prefix) {
        Some(found) => Some(*found.1),
        None => None,
    }
}
