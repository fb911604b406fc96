//! Whether two configurations are the same but for the order of their authorities, children and sites.

ghost use Rattle.std.specs.Prelude.{◌≡◌, ◌==◌, ◌&&◌, true, length, IsPermutation, IsSorted};
ghost use Rattle.std.specs.List.{list_all, zip};
ghost use Rattle.std.specs.Ordering.{nat_cmp};
ghost use Rattle.std.specs.Cmp.Lexicographic.{slice_cmp};
ghost use Rattle.ddt_path.specs.Covers.{is_same_path};
ghost use Rattle.ddt_check.specs.Zones.{is_same_role};
ghost use Rattle.ddt_config.specs.Table.{outline};
ghost use Rattle.ddt_config.specs.Shaped.{have_own_prefixes};
ghost use Rattle.ddt_plan.specs.Changes.{are_same_servers as are_same_servers_of};
ghost use Rattle.ddt_plan.specs.Groups.{are_alike as are_alike_of, is_same_content, is_same_config as is_same_config_of};
ghost use Rattle.ddt_plan.specs.Entries.{holds_own_prefixes};

use ddt_config::{Authority, Child, Content, ServerConfig, SiteEntry};
use ddt_path::{Listed, Prefixed};

/// An item of a configuration that has a prefix: an authority, a child or a site.
pub trait ComparedItem: Prefixed + Drop {
    ghost use Rattle.std.specs.Prelude.{Bool};

    /// Whether no list in it has a prefix twice.
    ghost is_whole: { Self → Bool };

    /// Whether two items are the same but for their prefixes.
    ghost same: { Self → Self → Bool };

    /// Whether it is the same as another but for their prefixes. No list of either has a prefix twice.
    fn says_same(self, other: Self) -> bool
        ensures { is_whole self ≡ true → is_whole other ≡ true → result ≡ same self other };
}

impl ComparedItem for Child {
    ghost is_whole = { λ _. true };

    ghost same = { λ c d. is_same_role c.role d.role && are_same_servers_of c.locators d.locators };

    fn says_same(self, other: Child) -> bool {
        self.role == other.role && self.locators == other.locators
    }
}

impl ComparedItem for SiteEntry {
    ghost is_whole = { λ _. true };

    ghost same = { λ s t. are_same_servers_of s.etrs t.etrs };

    fn says_same(self, other: SiteEntry) -> bool {
        self.etrs == other.etrs
    }
}

impl ComparedItem for Authority {
    ghost is_whole = { λ a. holds_own_prefixes a.content };

    ghost same = { λ a b. is_same_content a.content b.content };

    fn says_same(self, other: Authority) -> bool {
        match (self.content, other.content) {
            (Content::Children(before), Content::Children(after)) => are_alike(before, after),
            (Content::Sites(before), Content::Sites(after)) => are_alike(before, after),
            _ => false,
        }
    }
}

/// Whether two configurations are the same but for the order of their authorities, children and sites.
pub fn is_same_config(before: ServerConfig, after: ServerConfig) -> bool
    ensures { result ≡ is_same_config_of (outline before) (outline after) }
{
    have_same_servers(&before, &after) && are_alike(before.authorities, after.authorities)
}

/// Whether they are of the same kind and have the same locators, in the same order.
fn have_same_servers(before: &ServerConfig, after: &ServerConfig) -> bool
    ensures { result ≡ (is_same_role before.now.role after.now.role
        && are_same_servers_of before.now.locators after.now.locators) }
{
    before.role == after.role && before.locators == after.locators
}

/// Whether each item of either list has the same item in the other list. It allocates nothing.
fn are_alike<T: ComparedItem>(before: Listed<T>, after: Listed<T>) -> bool
    ensures { have_own_prefixes T.path before ≡ true → have_own_prefixes T.path after ≡ true
        → list_all T.is_whole before ≡ true → list_all T.is_whole after ≡ true
        → result ≡ are_alike_of (λ x y. is_same_path (T.path x) (T.path y) && T.same x y) before after }
{
    let before = in_order(before);
    let after = in_order(after);
    before.len() == after.len() && are_same_in_turn(before, after)
}

/// The items in the order of their prefixes.
fn in_order<T: ComparedItem>(entries: Listed<T>) -> Vec<T>
    ensures moved { IsPermutation entries result.items }
    ensures sorted { IsSorted (λ x y. slice_cmp nat_cmp (T.path x) (T.path y)) result.items }
{
    let mut sorted = entries.into_vec();
    sorted.sort_unstable_by_key(|entry| entry.prefix());
    sorted
}

/// Whether each item is the same as the one at its place in the other list.
fn are_same_in_turn<T: ComparedItem>(before: Vec<T>, after: Vec<T>) -> bool
    ensures { list_all T.is_whole before.items ≡ true → list_all T.is_whole after.items ≡ true
        → result ≡ list_all (λ p. is_same_path (T.path p.0) (T.path p.1) && T.same p.0 p.1)
        (zip before.items after.items) }
{
    before.into_iter().zip(after).all(|(old, new)| old.prefix() == new.prefix()
        && old.says_same(new))
}
