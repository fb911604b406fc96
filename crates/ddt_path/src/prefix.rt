//! A prefix, seen by contracts as its path (RFC 8111, section 3: an XEID-prefix).

ghost use Rattle.std.specs.Prelude.{◌≡◌, ◌≤◌, ◌==◌, IsTrue, List, ℕ, take, length, slice_get, Some, refl};
ghost use Rattle.std.specs.Cmp.Lexicographic.{pointwise, slice_cmp, nat_list_eq_equiv, nat_list_cmp_total, texts_ties, texts_po};
ghost use Rattle.std.specs.Ordering.{nat_cmp};
ghost use Rattle.std.specs.Cmp.{partial_equiv_from_equiv};
ghost use Rattle.ddt_path.specs.Path.{path, xeid_path, prefix_of, is_path, is_prefix_path, IsForm, IsInRange};
ghost use Rattle.ddt_path.specs.declared.xeid.Xeid.{Xeid as AnXeid};
ghost use Rattle.ddt_path.specs.declared.form.Form.{Form as AForm};
ghost use Rattle.ddt_path.specs.Covers.{covers, overlaps, is_strictly_below, shared_len};

use crate::form::{Form, PrefixFault};
use crate::locator::Locator;
use crate::masks::{front32, is_front32};
use crate::xeid::Xeid;
use std::cmp::Ordering;
use std::marker::Model;
use std::mem::size_of;

/// The first digits of the paths of identifiers: everything, a range of instances, or a block of addresses in one
/// instance. Its length is from 0 to 65 or 161. Contracts see the path. It keeps the numbers of its form in 24 bytes,
/// where the form takes 64.
#[derive(Clone, Copy, Debug)]
pub struct Prefix {
    /// The first 64 digits of an IPv6 address; else 0.
    high: u64,
    /// An IPv4 address, the last 64 digits of an IPv6 address, or 0.
    low: u64,
    iid: u32,
    /// The family symbol of a block, 4 or 6; 0 of a range.
    family: u8,
    /// The length as the form has it.
    len: u8,
}

const _: () = prove!(size_of::<Prefix>() == 24);

/// How many values half an IPv6 address has.
const HALF: u128 = 1 << 64;

impl Model for Prefix {
    ghost use Rattle.std.specs.Prelude.{◌≡◌, List, ℕ};

    ghost Value = { List ℕ };

    ghost use Rattle.ddt_path.specs.Path.{path, IsForm};
    ghost use Rattle.ddt_path.specs.FormOf.{form_of};
    ghost use Rattle.ddt_path.specs.Packed.{form_at, packed};
    ghost use Rattle.ddt_path.specs.FormLemmas.{form_of-path};
    ghost use Rattle.std.proofs.Common.{ap, ◌∙◌};

    ghost view = { λ a. path (form_at a) };

    ghost invariant = { λ a. IsForm (form_at a) × (packed (form_at a) ≡ a) };

    ghost inverse = { λ ds. packed (form_of ds) };

    ghost inverse_ok = { λ a h. ap packed (form_of-path (form_at a) h.0) ∙ h.1 };
}

impl Prefix {
    /// The range of the instances whose Instance ID has the first `len` digits of `iid`; of length 0, everything.
    /// Refused as 1 Length where `len` is above 32, then as 2 TailNotZero where a digit of `iid` past it isn't 0.
    pub fn range(iid: u32, len: u8) -> Result<Prefix, PrefixFault>
        ensures { result ≡ prefix_of (Form.Range iid len) }
    {
        if len > 32 {
            return Err(PrefixFault::Length);
        }
        if !is_front32(iid, len) {
            return Err(PrefixFault::TailNotZero);
        }
        Ok(Prefix::of_form(Form::Range { iid, len }))
    }

    /// The addresses of one instance and family that have the first `len` digits of `address`. Refused as 1 Length
    /// where `len` is above the width, 32 or 128, then as 2 TailNotZero where a digit of `address` past it isn't 0.
    pub fn block(iid: u32, address: Locator, len: u8) -> Result<Prefix, PrefixFault>
        ensures { result ≡ prefix_of (Form.Block iid address len) }
    {
        if len > address.width() {
            return Err(PrefixFault::Length);
        }
        if !address.is_front(len) {
            return Err(PrefixFault::TailNotZero);
        }
        Ok(Prefix::of_form(Form::Block { iid, address, len }))
    }

    /// The prefix that covers this identifier alone. Being a path is a test on lists, which just the paths of
    /// identifiers pass.
    pub fn host(x: Xeid) -> Prefix
        ensures whole { result ≡ xeid_path x }
        ensures passes { IsTrue (is_path (xeid_path x)) }
        ensures only { (ds : List ℕ) → IsTrue (is_path ds) → (y : AnXeid) × IsInRange y × (xeid_path y ≡ ds) }
    {
        let len = x.address.width();
        Prefix::of_form(Form::Block {
            iid: x.iid,
            address: x.address,
            len,
        })
    }

    /// The first `len` digits of the identifier's path; `len` is at most 65 for IPv4 and 161 for IPv6.
    pub fn cut(x: Xeid, len: u8) -> Prefix
        requires { len ≤ length (xeid_path x) }
        ensures { result ≡ take len (xeid_path x) }
    {
        if len <= 32 {
            return Prefix::of_form(Form::Range {
                iid: front32(x.iid, len),
                len,
            });
        }
        let len = len - 33;
        let address = x.address.front(len);
        Prefix::of_form(Form::Block {
            iid: x.iid,
            address,
            len,
        })
    }

    /// The prefix that this form names.
    fn of_form(form: Form) -> Prefix
        requires { IsForm form }
        ensures { result ≡ path form }
    {
        let (iid, family, number, len) = form.parts();
        Prefix {
            high: (number / HALF) as u64,
            low: (number % HALF) as u64,
            iid,
            family,
            len,
        }
    }

    /// How the prefix is written down: a range, or a block. Being the path of a prefix is a test on lists, which just
    /// the paths of forms pass.
    pub fn form(self) -> Form
        ensures path { path result ≡ self }
        ensures kept { IsForm result }
        ensures passes { IsTrue (is_prefix_path self) }
        ensures only { (ds : List ℕ) → IsTrue (is_prefix_path ds) → (f : AForm) × IsForm f × (path f ≡ ds) }
    {
        match self.family {
            0 => Form::Range {
                iid: self.iid,
                len: self.len,
            },
            4 => Form::Block {
                iid: self.iid,
                address: Locator::V4(self.low as u32),
                len: self.len,
            },
            _ => Form::Block {
                iid: self.iid,
                address: Locator::V6(u128::from(self.high) * HALF + u128::from(self.low)),
                len: self.len,
            },
        }
    }

    /// The number of digits, 0 to 65 or 161.
    pub fn len(self) -> u8
        ensures digits { result ≡ length self }
        ensures bound { result ≤ 161 }
    {
        match self.form() {
            Form::Range { len, .. } => len,
            Form::Block { len, .. } => 33 + len,
        }
    }

    /// The digit at a place, of which the first is 0: the family symbol, 4 or 6, at 32, and a binary digit elsewhere.
    /// None from its length on.
    pub fn digit(self, at: u8) -> Option<u8>
        ensures { result ≡ slice_get self at }
    {
        if at < self.len() {
            Some(self.inner().digit(at))
        } else {
            None
        }
    }

    /// The prefix of its first `len` digits, at most its length: it covers this one.
    pub fn front(self, len: u8) -> Prefix
        requires { len ≤ length self }
        ensures { result ≡ take len self }
    {
        Prefix::cut(self.inner(), len)
    }

    /// An identifier that the prefix covers, as any of instance 0 for everything.
    pub fn inner(self) -> Xeid
        ensures front { take (length self) (xeid_path result) ≡ self }
        ensures fits { length self ≤ length (xeid_path result) }
    {
        match self.form() {
            Form::Range { iid, .. } => Xeid {
                iid,
                address: Locator::V4(0),
            },
            Form::Block { iid, address, .. } => Xeid { iid, address },
        }
    }

    /// Whether each identifier that `other` covers is covered by this prefix, itself included.
    pub fn covers(self, other: Prefix) -> bool
        ensures { result ≡ covers self other }
    {
        self.len() <= other.len() && self.len() <= self.inner().shared(other.inner())
    }

    /// Whether the prefix covers the identifier.
    pub fn covers_xeid(self, x: Xeid) -> bool
        ensures { result ≡ covers self (xeid_path x) }
    {
        self.covers(Prefix::host(x))
    }

    /// Whether one of the two covers the other.
    pub fn overlaps(self, other: Prefix) -> bool
        ensures { result ≡ overlaps self other }
    {
        self.covers(other) || other.covers(self)
    }

    /// Whether the prefix is strictly below another, which covers it and is shorter.
    pub fn is_strictly_below(self, other: Prefix) -> bool
        ensures { result ≡ is_strictly_below self other }
    {
        other.covers(self) && !self.covers(other)
    }

    /// The longest prefix that covers both: the digits with which both begin.
    pub fn longest_common(self, other: Prefix) -> Prefix
        ensures both { IsTrue (covers result self) × IsTrue (covers result other) }
        ensures longest { (front : List ℕ) → IsTrue (covers front self) → IsTrue (covers front other)
            → IsTrue (covers front result) }
        ensures digits { result ≡ take (shared_len self other) self }
    {
        let x = self.inner();
        let shared = x.shared(other.inner());
        Prefix::cut(x, shared.min(self.len()).min(other.len()))
    }
}

impl PartialEq for Prefix {
    ghost eq = { pointwise ◌==◌ };

    ghost laws = { partial_equiv_from_equiv nat_list_eq_equiv };

    fn eq(&self, other: &Prefix) -> bool {
        self.covers(*other) && other.covers(*self)
    }
}

impl Eq for Prefix {
    ghost laws = { nat_list_eq_equiv };
}

impl PartialOrd for Prefix {
    ghost partial_cmp = { λ p q. Some (slice_cmp nat_cmp p q) };

    ghost laws = { texts_po };

    fn partial_cmp(&self, other: &Prefix) -> Option<Ordering> {
        Some(self.cmp(other))
    }
}

/// By the digits: a prefix stands before all that it covers, and what it covers stands together.
impl Ord for Prefix {
    ghost cmp = { slice_cmp nat_cmp };

    ghost total = { nat_list_cmp_total };

    ghost matches_partial_cmp = { λ p q. refl };

    ghost matches_eq = { texts_ties };

    fn cmp(&self, other: &Prefix) -> Ordering {
        let parts = self.form().parts();
        parts.cmp(&other.form().parts())
    }
}
