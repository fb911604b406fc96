//! A binary tree of prefixes: insertion, removal, the longest match, and the least specific hole.
//!
//! A level of the tree is a digit of a prefix: 32 digits of the Instance ID, one of the address family, and up to 128
//! of the address. A prefix that is alone below a node is a leaf there, however much longer it is. An entry is
//! allocated apart from its node, so that a node without one is small. Each call but `retain` goes down one path of 162
//! nodes at most.

ghost use Rattle.std.specs.Prelude.{true, false, not, None, Some, ◌≡◌, ◌≤◌, ◌+◌, length, take, drop, IsTrue, IsSome};
ghost use Rattle.std.specs.Prelude.{IfOk, IfErr, IfSome, IfNone, ◌&&◌, ◌||◌, nat_le, nat_lt, is_some};
ghost use Rattle.std.specs.Option.{option_copied};
ghost use Rattle.std.specs.Fn.{FnReturnsAt};
ghost use Rattle.ddt_path.specs.Path.{xeid_path};
ghost use Rattle.ddt_path.specs.Covers.{covers};
ghost use Rattle.ddt_trie.specs.Tree.{lookup, count, one_if, is_filled, is_held, is_leaf, is_pruned, is_pruned_below};
ghost use Rattle.ddt_trie.specs.Tree.{value_in, is_rooted, IsRootedAs, IsPathBranch, IsSet, HasKept};
ghost use Rattle.ddt_trie.specs.Tree.{HasSameEntries, HasSameEntriesAt};
ghost use Rattle.ddt_trie.specs.Tree.{IsUncovered, IsLongestBelow, IsMet, IsHoleBelow};
ghost use Rattle.ddt_trie.specs.PrefixMap.{IsKept};
ghost use Rattle.ddt_trie.specs.declared.tree.Tree.TheVariants.{Empty, Leaf};

use ddt_path::{Prefix, Xeid};
use std::alloc::Global;
use std::mem;

/// The prefixes that begin with the same digits: none, a single one, or those of a node.
#[derive(Drop)]
#[cycle(tree)]
pub enum Tree<V> {
    Empty,
    Leaf(Box<TreeEntry<V>>),
    Fork(Box<Node<V>>),
}

/// A prefix and its value. The prefix of a leaf is the only one that begins with the digits above it.
#[derive(Drop)]
pub struct TreeEntry<V> {
    prefix: Prefix,
    value: V,
}

/// A prefix, and the longer ones that begin with it.
#[derive(Drop)]
#[cycle(tree)]
pub struct Node<V> {
    /// The entry of the prefix that ends here.
    entry: Option<Box<TreeEntry<V>>>,
    /// The prefixes whose next digit is 0, or whose family is IPv4.
    zero: Tree<V>,
    /// The prefixes whose next digit is 1, or whose family is IPv6.
    one: Tree<V>,
}

/// The branch that a prefix takes at a node.
pub enum Branch {
    /// None: the prefix ends at the node.
    End,
    /// The branch of the digit 0, or of IPv4.
    Zero,
    /// The branch of the digit 1, or of IPv6.
    One,
}

/// The branch that a prefix takes after its first `at` digits; it has at least `at`.
pub fn branch_at(prefix: Prefix, at: u8) -> Branch
    requires { at ≤ length prefix }
    ensures { IsPathBranch at prefix result }
{
    // A digit is 0 or 1, the family's 4 or 6, and no prefix has more than 161 of them.
    let _form = prefix.form();
    let _len = prefix.len();
    match prefix.digit(at) {
        None => Branch::End,
        Some(0 | 4) => Branch::Zero,
        Some(_) => Branch::One,
    }
}

/// The branch that the first `len` digits of an identifier take after the first `at` of them.
fn branch_of_xeid(x: Xeid, len: u8, at: u8) -> Branch
    requires within { at ≤ len }
    requires fits { len ≤ length (xeid_path x) }
    ensures { IsPathBranch at (take len (xeid_path x)) result }
{
    if at == len {
        return Branch::End;
    }
    // A digit is 0 or 1, the family's 4 or 6.
    if x.digit(at) % 4 == 0 {
        Branch::Zero
    } else {
        Branch::One
    }
}

/// A node at depth `at` with this leaf below it, or as its own entry if the leaf's prefix ends there. The leaf's prefix
/// and `prefix` share their first `at` digits. Returns the leaf if memory runs out.
#[tactic(auto, using(crate::proofs::WayLemmas::over_leaf_rules))]
fn node_over<V: Drop>(
    alloc: Global,
    leaf: Box<TreeEntry<V>>,
    prefix: &Prefix,
    at: u8,
) -> Result<Tree<V>, Box<TreeEntry<V>>>
    requires within { at ≤ length prefix.now }
    requires rooted { IsTrue (covers (take at prefix.now) leaf.value.prefix) }
    ensures same { IfOk result (λ tree. HasSameEntriesAt at (Leaf leaf) tree) }
    ensures node { IfOk result (λ tree. is_leaf tree ≡ false) }
    ensures filled { IfOk result (λ tree. IsTrue (is_filled tree)) }
    ensures pruned { IfOk result (λ tree. IsTrue (is_pruned tree)) }
    ensures rooted { IfOk result (λ tree. IsTrue (is_rooted (take at prefix.now) tree)) }
    ensures back { IfErr result (λ back. back ≡ leaf) }
{
    let mut node = match Box::new(
        alloc,
        Node {
            entry: None,
            zero: Tree::Empty,
            one: Tree::Empty,
        },
    ) {
        Ok(node) => node,
        Err(_refused) => return Err(leaf),
    };
    match branch_at(leaf.prefix, at) {
        Branch::End => node.entry = Some(leaf),
        Branch::Zero => node.zero = Tree::Leaf(leaf),
        Branch::One => node.one = Tree::Leaf(leaf),
    }
    Ok(Tree::Fork(node))
}

/// A new entry of this prefix with the value of `value`, which is None afterwards. Returns None if memory runs out;
/// then `value` is unchanged.
fn entry_of<V: Drop>(
    alloc: Global,
    prefix: Prefix,
    value: &mut Option<V>,
) -> Option<Box<TreeEntry<V>>>
    requires given { IsTrue (is_some value.old) }
    ensures key { IfSome result (λ entry. entry.value.prefix ≡ prefix) }
    ensures set { IfSome result (λ entry. Some entry.value.value ≡ value.old) }
    ensures taken { IfSome result (λ entry. value.new ≡ None) }
    ensures back { IfNone result (value.new ≡ value.old) }
{
    let given = value.take()?;
    match Box::new(
        alloc,
        TreeEntry {
            prefix,
            value: given,
        },
    ) {
        Ok(entry) => Some(entry),
        Err(refused) => {
            *value = Some(refused.value.value);
            None
        }
    }
}

/// Sets the value of a node's own entry to that of `value`, and `value` to the one before. Only a new entry is
/// allocated: if memory runs out, the result is false and nothing is changed.
fn set_entry<V: Drop>(
    entry: &mut Option<Box<TreeEntry<V>>>,
    alloc: Global,
    prefix: Prefix,
    value: &mut Option<V>,
) -> bool
    requires given { IsTrue (is_some value.old) }
    ensures before { IsTrue result → value.new ≡ value_in entry.old }
    ensures set { IsTrue result → value_in entry.new ≡ value.old }
    ensures still { IsTrue (is_some entry.old) → IsTrue (is_some entry.new) }
    ensures filled { IsTrue result → IsTrue (is_some entry.new) }
    ensures back { result ≡ false → value.new ≡ value.old }
    ensures unchanged { result ≡ false → entry.new ≡ entry.old }
    ensures replaced { IsSome (value_in entry.old) → result ≡ true }
{
    match entry {
        Some(held) => {
            if let Some(given) = value {
                mem::swap(&mut held.value, given);
            }
            true
        }
        None => match entry_of(alloc, prefix, value) {
            Some(new) => {
                *entry = Some(new);
                true
            }
            None => false,
        },
    }
}

/// Removes an entry and returns its value.
fn take_value<V: Drop>(entry: &mut Option<Box<TreeEntry<V>>>) -> Option<V>
    ensures value { result ≡ value_in entry.old }
    ensures none { entry.new ≡ None }
{
    let taken = entry.take()?;
    Some(Box::into_inner(taken).value)
}

impl<V: Drop> Node<V> {
    /// The value of the node's own prefix.
    fn value(&self) -> Option<&V>
        ensures { option_copied result ≡ value_in self.now.entry }
    {
        match &self.entry {
            Some(entry) => Some(&entry.value),
            None => None,
        }
    }

    /// Whether the node's prefix, of `at` digits, has a value and at least `least` digits.
    fn counts(&self, at: u8, least: u8) -> bool
        ensures { result ≡ (nat_le least at && is_some self.now.entry) }
    {
        least <= at && self.entry.is_some()
    }

    /// Whether the node's prefix, of `at` digits, has fewer than `least`, and there is no longer prefix below it.
    fn ends_short(&self, at: u8, least: u8) -> bool
        ensures { result ≡ (nat_lt at least && not (is_filled self.now.zero || is_filled self.now.one)) }
    {
        at < least && self.zero.is_empty() && self.one.is_empty()
    }
}

impl<V: Drop> Tree<V> {
    /// Whether the tree has no entry: each node has one, or has one below it.
    fn is_empty(&self) -> bool
        ensures { result ≡ not (is_filled self.now) }
    {
        matches!(self, Tree::Empty)
    }

    /// The value of a prefix, found by its digits after the first `at`.
    pub fn get(&self, prefix: Prefix, at: u8) -> Option<&V>
        requires within { at ≤ length prefix }
        requires rooted { IsTrue (is_rooted (take at prefix) self.now) }
        ensures { option_copied result ≡ lookup at self.now (drop at prefix) }
    {
        match self {
            Tree::Empty => None,
            Tree::Leaf(leaf) => (leaf.prefix == prefix).then_some(&leaf.value),
            Tree::Fork(node) => match branch_at(prefix, at) {
                Branch::End => node.value(),
                Branch::Zero => node.zero.get(prefix, at + 1),
                Branch::One => node.one.get(prefix, at + 1),
            },
        }
    }

    /// Sets the value of a prefix to that of `value`, and `value` to the one before. A leaf of another prefix moves
    /// down to where the two prefixes differ. If memory runs out, the result is false, and the entries and `value` are
    /// unchanged. The recursive call is the last step, so that it is compiled as a loop.
    #[tactic(auto, using(crate::proofs::WayLemmas::way_rules))]
    pub fn insert(&mut self, alloc: Global, prefix: &Prefix, at: u8, value: &mut Option<V>) -> bool
        requires within { at ≤ length prefix.now }
        requires pruned { IsTrue (is_pruned self.old) }
        requires rooted { IsTrue (is_rooted (take at prefix.now) self.old) }
        requires given { IsTrue (is_some value.old) }
        ensures before { IsTrue result → value.new ≡ lookup at self.old (drop at prefix.now) }
        ensures set { IsTrue result → IsSet at self.old self.new (drop at prefix.now) value.old }
        ensures filled { IsTrue result → IsTrue (is_filled self.new) }
        ensures still { IsTrue (is_filled self.old) → IsTrue (is_filled self.new) }
        ensures pruned { IsTrue (is_pruned self.new) }
        ensures rooted { IsTrue (is_rooted (take at prefix.now) self.new) }
        ensures back { result ≡ false → value.new ≡ value.old }
        ensures unchanged { result ≡ false → HasSameEntriesAt at self.old self.new }
        ensures replaced { IsSome (lookup at self.old (drop at prefix.now)) → result ≡ true }
    {
        if !self.split_leaf(alloc, prefix, at) {
            return false;
        }
        match self {
            Tree::Empty => self.insert_into_empty(alloc, *prefix, at, value),
            Tree::Leaf(leaf) => {
                if let Some(given) = value {
                    mem::swap(&mut leaf.value, given);
                }
                true
            }
            Tree::Fork(node) => match branch_at(*prefix, at) {
                Branch::End => set_entry(&mut node.entry, alloc, *prefix, value),
                Branch::Zero => node.zero.insert(alloc, prefix, at + 1, value),
                Branch::One => node.one.insert(alloc, prefix, at + 1, value),
            },
        }
    }

    /// Whether the tree is a leaf of another prefix. That prefix and this one share their first `at` digits.
    fn is_other_leaf(&self, prefix: Prefix, at: u8) -> bool
        requires within { at ≤ length prefix }
        requires rooted { IsTrue (is_rooted (take at prefix) self.now) }
        ensures leaf { IsTrue result → IsTrue (is_leaf self.now) × (lookup at self.now (drop at prefix) ≡ None) }
        ensures found { result ≡ false → IsTrue (is_leaf self.now) → IsSome (lookup at self.now (drop at prefix)) }
    {
        match self {
            Tree::Leaf(leaf) => leaf.prefix != prefix,
            _ => false,
        }
    }

    /// Replaces a leaf of another prefix by a node that has this leaf below it, or as its own entry if the leaf's
    /// prefix ends there. Any other tree is unchanged. If memory runs out, the result is false and the tree is
    /// unchanged.
    fn split_leaf(&mut self, alloc: Global, prefix: &Prefix, at: u8) -> bool
        requires within { at ≤ length prefix.now }
        requires pruned { IsTrue (is_pruned self.old) }
        requires rooted { IsTrue (is_rooted (take at prefix.now) self.old) }
        ensures same { HasSameEntriesAt at self.old self.new }
        ensures own { IsTrue result → IsTrue (is_leaf self.new) → IsSome (lookup at self.new (drop at prefix.now)) }
        ensures still { IsTrue (is_filled self.old) → IsTrue (is_filled self.new) }
        ensures pruned { IsTrue (is_pruned self.new) }
        ensures rooted { IsTrue (is_rooted (take at prefix.now) self.new) }
        ensures replaced { IsSome (lookup at self.old (drop at prefix.now)) → result ≡ true }
    {
        if !self.is_other_leaf(*prefix, at) {
            return true;
        }
        let Tree::Leaf(leaf) = mem::replace(self, Tree::Empty) else {
            return true;
        };
        match node_over(alloc, leaf, prefix, at) {
            Ok(tree) => {
                *self = tree;
                true
            }
            Err(leaf) => {
                *self = Tree::Leaf(leaf);
                false
            }
        }
    }

    /// `insert` for a tree without entries.
    #[tactic(auto, using(ddt_path::specs::laws::Cover::front_covered))]
    fn insert_into_empty(
        &mut self,
        alloc: Global,
        prefix: Prefix,
        at: u8,
        value: &mut Option<V>,
    ) -> bool
        requires within { at ≤ length prefix }
        requires empty { self.old ≡ Empty }
        requires given { IsTrue (is_some value.old) }
        ensures before { IsTrue result → value.new ≡ None }
        ensures set { IsTrue result → IsSet at Empty self.new (drop at prefix) value.old }
        ensures filled { IsTrue result → IsTrue (is_filled self.new) }
        ensures pruned { IsTrue (is_pruned self.new) }
        ensures rooted { IsTrue (is_rooted (take at prefix) self.new) }
        ensures back { result ≡ false → value.new ≡ value.old }
        ensures unchanged { result ≡ false → self.new ≡ self.old }
    {
        let Some(leaf) = entry_of(alloc, prefix, value) else {
            return false;
        };
        *self = Tree::Leaf(leaf);
        true
    }

    /// Whether the tree is empty, or a node with neither an entry nor a child.
    fn is_vacant(&self) -> bool
        ensures { result ≡ not (is_held self.now) }
    {
        match self {
            Tree::Empty => true,
            Tree::Leaf(_) => false,
            Tree::Fork(node) => {
                node.entry.is_none() && node.zero.is_empty() && node.one.is_empty()
            }
        }
    }

    /// Removes a node that has neither an entry nor a child.
    fn prune(&mut self)
        requires { IsTrue (is_pruned_below self.old) }
        ensures same { HasSameEntries self.old self.new }
        ensures rooted { IsRootedAs self.old self.new }
        ensures count { count self.new ≡ count self.old }
        ensures pruned { IsTrue (is_pruned self.new) }
    {
        if self.is_vacant() {
            *self = Tree::Empty;
        }
    }

    /// Removes a prefix and returns its value. Each node that is then empty is removed on the way back.
    #[tactic(auto, using(crate::proofs::WayLemmas::way_rules))]
    pub fn remove(&mut self, prefix: Prefix, at: u8) -> Option<V>
        requires within { at ≤ length prefix }
        requires pruned { IsTrue (is_pruned self.old) }
        requires rooted { IsTrue (is_rooted (take at prefix) self.old) }
        ensures before { result ≡ lookup at self.old (drop at prefix) }
        ensures set { IsSet at self.old self.new (drop at prefix) None }
        ensures pruned { IsTrue (is_pruned self.new) }
        ensures rooted { IsTrue (is_rooted (take at prefix) self.new) }
    {
        let before = match self {
            Tree::Empty => None,
            Tree::Leaf(_) => self.remove_leaf(prefix, at),
            Tree::Fork(node) => match branch_at(prefix, at) {
                Branch::End => take_value(&mut node.entry),
                Branch::Zero => node.zero.remove(prefix, at + 1),
                Branch::One => node.one.remove(prefix, at + 1),
            },
        };
        self.prune();
        before
    }

    /// `remove` for a leaf.
    fn remove_leaf(&mut self, prefix: Prefix, at: u8) -> Option<V>
        requires within { at ≤ length prefix }
        requires leaf { IsTrue (is_leaf self.old) }
        requires rooted { IsTrue (is_rooted (take at prefix) self.old) }
        ensures before { result ≡ lookup at self.old (drop at prefix) }
        ensures set { IsSet at self.old self.new (drop at prefix) None }
        ensures pruned { IsTrue (is_pruned self.new) }
        ensures rooted { IsTrue (is_rooted (take at prefix) self.new) }
    {
        if self.is_other_leaf(prefix, at) {
            return None;
        }
        match mem::replace(self, Tree::Empty) {
            Tree::Leaf(leaf) => Some(Box::into_inner(leaf).value),
            _ => None,
        }
    }

    /// Keeps the entries for whose value `keep` returns true, and removes each node that is then empty. The entries of
    /// this tree are among `len` entries in all; the result is how many of those are left.
    pub fn retain<F: Fn(&V) -> bool>(&mut self, keep: &F, len: usize) -> usize
        requires callable { F.IsAlwaysCallable keep.now }
        requires pruned { IsTrue (is_pruned self.old) }
        requires counted { count self.old ≤ len }
        ensures kept { HasKept (FnReturnsAt F.Fn keep.now) self.old self.new }
        ensures pruned { IsTrue (is_pruned self.new) }
        ensures rooted { IsRootedAs self.old self.new }
        ensures counted { result + count self.old ≡ len + count self.new }
    {
        let left = match self {
            Tree::Empty => len,
            Tree::Leaf(_) => self.retain_leaf(keep, len),
            Tree::Fork(node) => {
                let left = node.zero.retain(keep, len);
                let left = node.one.retain(keep, left);
                retain_entry(&mut node.entry, keep, left)
            }
        };
        self.prune();
        left
    }

    /// `retain` for a leaf.
    fn retain_leaf<F: Fn(&V) -> bool>(&mut self, keep: &F, total: usize) -> usize
        requires callable { F.IsAlwaysCallable keep.now }
        requires leaf { IsTrue (is_leaf self.old) }
        requires counted { count self.old ≤ total }
        ensures kept { HasKept (FnReturnsAt F.Fn keep.now) self.old self.new }
        ensures pruned { IsTrue (is_pruned self.new) }
        ensures rooted { IsRootedAs self.old self.new }
        ensures counted { result + count self.old ≡ total + count self.new }
    {
        let is_kept = match &*self {
            Tree::Leaf(leaf) => keep(&leaf.value),
            _ => return total,
        };
        if is_kept {
            return total;
        }
        *self = Tree::Empty;
        total - 1
    }

    /// The longest match: of the prefixes with a value that cover `prefix` and have at least `at` digits, the length
    /// and the value of the longest. None if there is none.
    pub fn longest(&self, prefix: Prefix, at: u8) -> Option<(u8, &V)>
        requires within { at ≤ length prefix }
        requires rooted { IsTrue (is_rooted (take at prefix) self.now) }
        ensures found { IfSome result (λ found. IsLongestBelow at self.now (drop at prefix) found.0 found.1.now) }
        ensures none { IfNone result (IsUncovered at self.now (drop at prefix)) }
    {
        let x = prefix.inner();
        let len = prefix.len();
        let mut tree = self;
        let mut depth = at;
        let mut best = None;
        while let Tree::Fork(node) = tree {
            if let Some(entry) = &node.entry {
                best = Some((depth, &entry.value));
            }
            match branch_of_xeid(x, len, depth) {
                Branch::End => return best,
                Branch::Zero => tree = &node.zero,
                Branch::One => tree = &node.one,
            }
            depth += 1;
        }
        let Tree::Leaf(leaf) = tree else {
            return best;
        };
        if !leaf.prefix.covers(prefix) {
            return best;
        }
        Some((leaf.prefix.len(), &leaf.value))
    }

    /// The length of the least specific hole around `prefix` (RFC 8111, section 7.1.2). The hole is made of the first
    /// digits of `prefix`, at least `at` of them, and overlaps no entry of at least `least` digits. Each shorter one of
    /// `least - 1` digits or more overlaps such an entry. None if `prefix` itself overlaps one. `least` is at most one
    /// more than the length of `prefix`.
    #[tactic(auto, using(crate::proofs::WayLemmas::way_rules))]
    pub fn least_specific_hole(&self, prefix: Prefix, at: u8, least: u8) -> Option<u8>
        requires within { at ≤ length prefix }
        requires near { least ≤ length prefix + 1 }
        requires pruned { IsTrue (is_pruned self.now) }
        requires rooted { IsTrue (is_rooted (take at prefix) self.now) }
        ensures found { IfSome result (λ len. IsHoleBelow at self.now (drop at prefix) least len) }
        ensures none { IfNone result (IsMet at self.now (drop at prefix) least) }
    {
        match self {
            Tree::Empty => Some(at),
            Tree::Leaf(leaf) => {
                if leaf.prefix.len() < least {
                    return Some(at);
                }
                if leaf.prefix.overlaps(prefix) {
                    return None;
                }
                Some(leaf.prefix.longest_common(prefix).len() + 1)
            }
            Tree::Fork(node) => {
                if node.ends_short(at, least) {
                    return Some(at);
                }
                if node.counts(at, least) {
                    return None;
                }
                match branch_at(prefix, at) {
                    Branch::End => None,
                    Branch::Zero => node.zero.least_specific_hole(prefix, at + 1, least),
                    Branch::One => node.one.least_specific_hole(prefix, at + 1, least),
                }
            }
        }
    }
}

/// Drops an entry for whose value `keep` returns false, and returns how many of `len` entries are left.
fn retain_entry<V: Drop, F: Fn(&V) -> bool>(
    entry: &mut Option<Box<TreeEntry<V>>>,
    keep: &F,
    len: usize,
) -> usize
    requires callable { F.IsAlwaysCallable keep.now }
    requires counted { one_if entry.old ≤ len }
    ensures kept { IsKept (FnReturnsAt F.Fn keep.now) (value_in entry.old) (value_in entry.new) }
    ensures counted { result + one_if entry.old ≡ len + one_if entry.new }
{
    let is_kept = match &*entry {
        Some(kept) => keep(&kept.value),
        None => return len,
    };
    if is_kept {
        return len;
    }
    *entry = None;
    len - 1
}
