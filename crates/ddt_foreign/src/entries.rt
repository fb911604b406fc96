//! The locators of a record, one after the other.

ghost use Rattle.std.specs.Prelude.{◌≡◌, Err, IfOk, IfErr};
ghost use Rattle.std.specs.Iterator.{YieldsFirst, item_count};
ghost use Rattle.ddt_path.specs.Steps.{IsReadAs};
ghost use Rattle.ddt_foreign.specs.Several.{several_at, ComesAfter};
ghost use Rattle.ddt_foreign.specs.Entry.{entry_at};

use crate::entry::{Entry, read_entry};
use crate::fault::ForeignFault;
use std::marker::Model;

/// Locators in order, read from the datagram one by one. Contracts see the list of those that are left.
#[derive(Debug, Drop)]
pub struct Entries<'a> {
    left: u8,
    bytes: &'a [u8],
}

impl<'a> Model for Entries<'a> {
    ghost use Rattle.std.specs.Prelude.{◌≡◌, true, List, is_ok};
    ghost use Rattle.ddt_foreign.specs.declared.entry.Entry.{Entry as AnEntry};
    ghost use Rattle.ddt_foreign.specs.Several.{several_at, several_in};
    ghost use Rattle.ddt_foreign.specs.Entry.{entry_at};

    ghost Value = { List AnEntry };

    ghost view = { λ a. several_in entry_at a.left a.bytes.now };

    ghost invariant = { λ a. is_ok (several_at entry_at a.left a.bytes.now) ≡ true };
}

/// The bytes after so many locators, or the first fault of these.
fn skip(count: u8, bytes: &[u8]) -> Result<&[u8], ForeignFault>
    ensures read { IfOk result (λ rest. ComesAfter entry_at count bytes.now rest.now) }
    ensures fault { IfErr result (λ e. several_at entry_at count bytes.now ≡ Err e) }
{
    let mut rest = bytes;
    for _ in 0..count {
        let (_entry, after) = read_entry(rest)?;
        rest = after;
    }
    Ok(rest)
}

impl<'a> Entries<'a> {
    /// So many locators from the front of the bytes, and the bytes after them.
    pub(crate) fn read(count: u8, bytes: &'a [u8]) -> Result<(Self, &'a [u8]), ForeignFault>
        ensures { IsReadAs (λ x. (x.0, x.1.now)) result (several_at entry_at count bytes.now) }
    {
        let rest = skip(count, bytes)?;
        Ok((Entries { left: count, bytes }, rest))
    }

    /// The same locators once more.
    pub fn again(&self) -> Self
        ensures { result ≡ self.now }
    {
        Entries {
            left: self.left,
            bytes: self.bytes,
        }
    }
}

impl<'a> Iterator for Entries<'a> {
    type Item = Entry;

    ghost next_gives = { YieldsFirst (λ entries. entries) };

    ghost remaining = { item_count (λ entries. entries) };

    fn next(&mut self) -> Option<Entry> {
        if self.left == 0 {
            return None;
        }
        match read_entry(self.bytes) {
            Ok((entry, after)) => {
                self.left -= 1;
                self.bytes = after;
                Some(entry)
            }
            Err(_fault) => unreachable!(),
        }
    }
}
