//! The name of a server group.

ghost use Rattle.std.specs.Prelude.{◌≡◌, ◌==◌, IsTrue, length, Some, refl};
ghost use Rattle.std.specs.List.{list_all};
ghost use Rattle.std.specs.Option.{SomeIff};
ghost use Rattle.std.specs.Cmp.{partial_equiv_from_equiv};
ghost use Rattle.std.specs.Ordering.{nat_cmp};
ghost use Rattle.std.specs.Cmp.Lexicographic.{pointwise, slice_cmp, nat_list_eq_equiv, nat_list_cmp_total, texts_ties, texts_po};
ghost use Rattle.ddt_path.specs.Names.{is_name as is_name_of, is_name_byte as is_name_byte_of};

use std::cmp::Ordering;
use std::marker::Model;

/// How many bytes a name has at most.
pub const LONGEST_NAME: usize = 63;

/// Lower-case letters, digits and hyphens: at least one, at most 63. Contracts see the bytes.
#[derive(Clone, Copy, Debug)]
pub struct Name {
    slots: [u8; LONGEST_NAME],
    len: usize,
}

impl Model for Name {
    ghost use Rattle.std.specs.Prelude.{◌≡◌, List, ℕ, take, length, true};
    ghost use Rattle.std.proofs.Common.{ap, ◌∙◌};

    ghost Value = { List ℕ };

    ghost use Rattle.ddt_path.specs.Names.{is_name};
    ghost use Rattle.ddt_path.specs.Slots.{IsFilled, filled, filled-take, length-filled_items};
    ghost use Rattle.ddt_path.specs.declared.name.Name.TheInside.{Inside};

    ghost view = { λ a. take a.len a.slots };

    ghost invariant = { λ a. IsFilled 63 0 a.slots a.len × (is_name (take a.len a.slots) ≡ true) };

    ghost inverse = { λ bytes. record { slots = filled 63 0 bytes; len = length bytes } };

    ghost inverse_ok = { λ a h. ap (λ (s : List ℕ).
        let r : Inside = record { slots = s; len = length (take a.len a.slots) } in r)
        (filled-take 63 0 a.slots a.len h.0) ∙ ap (λ (n : ℕ). let r : Inside = record { slots = a.slots; len = n } in r)
        (length-filled_items 63 0 a.slots a.len h.0) };
}

impl Name {
    /// The name of these bytes; None where they are no name.
    pub fn of(bytes: &[u8]) -> Option<Name>
        ensures { SomeIff result (IsTrue (is_name_of bytes.now)) bytes.now }
    {
        if !is_name(bytes) {
            return None;
        }
        let mut slots = [0; LONGEST_NAME];
        slots[..bytes.len()].copy_from_slice(bytes);
        Some(Name {
            slots,
            len: bytes.len(),
        })
    }

    /// The bytes of the name, 1 to 63 of them.
    pub fn as_bytes(&self) -> &[u8]
        ensures bytes { result.now ≡ self.now }
        ensures name { IsTrue (is_name_of self.now) }
    {
        &self.slots[..self.len]
    }
}

fn is_name(bytes: &[u8]) -> bool
    ensures { result ≡ is_name_of bytes.now }
{
    !bytes.is_empty() && bytes.len() <= LONGEST_NAME && are_name_bytes(bytes)
}

fn are_name_bytes(bytes: &[u8]) -> bool
    ensures { result ≡ list_all is_name_byte_of bytes.now }
{
    bytes.iter().all(|b| is_name_byte(*b))
}

fn is_name_byte(byte: u8) -> bool
    ensures { result ≡ is_name_byte_of byte }
{
    matches!(byte, b'a'..=b'z' | b'0'..=b'9' | b'-')
}

impl PartialEq for Name {
    ghost eq = { pointwise ◌==◌ };

    ghost laws = { partial_equiv_from_equiv nat_list_eq_equiv };

    fn eq(&self, other: &Name) -> bool {
        self.as_bytes() == other.as_bytes()
    }
}

impl Eq for Name {
    ghost laws = { nat_list_eq_equiv };
}

impl PartialOrd for Name {
    ghost partial_cmp = { λ a b. Some (slice_cmp nat_cmp a b) };

    ghost laws = { texts_po };

    fn partial_cmp(&self, other: &Name) -> Option<Ordering> {
        Some(self.cmp(other))
    }
}

/// By the bytes.
impl Ord for Name {
    ghost cmp = { slice_cmp nat_cmp };

    ghost total = { nat_list_cmp_total };

    ghost matches_partial_cmp = { λ a b. refl };

    ghost matches_eq = { texts_ties };

    fn cmp(&self, other: &Name) -> Ordering {
        self.as_bytes().cmp(other.as_bytes())
    }
}
