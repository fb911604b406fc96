//! The locators of a record, one after the other.

ghost use Rattle.std.specs.Prelude.{◌≡◌, Err, IfOk, IfErr};
ghost use Rattle.std.specs.Iterator.{YieldsFirst, item_count};
ghost use Rattle.ddt_path.specs.Steps.{IsReadAs};
ghost use Rattle.ddt_foreign.specs.Several.{several_at, ComesAfter};
ghost use Rattle.ddt_map_register.specs.RegisteredLocator.{locator_at};

use crate::fault::MapRegisterFault;
use crate::registered_locator::{RegisteredLocator, read_locator};
use std::marker::Model;

/// Locators in order, read from the datagram one by one. Contracts see the list of those that are left.
#[derive(Debug, Drop)]
pub struct RegisteredLocators<'a> {
    left: u8,
    bytes: &'a [u8],
}

impl<'a> Model for RegisteredLocators<'a> {
    ghost use Rattle.std.specs.Prelude.{◌≡◌, true, List, is_ok};
    ghost use Rattle.ddt_map_register.specs.declared.registered_locator.RegisteredLocator.{RegisteredLocator as ALocator};
    ghost use Rattle.ddt_foreign.specs.Several.{several_at, several_in};
    ghost use Rattle.ddt_map_register.specs.RegisteredLocator.{locator_at};

    ghost Value = { List ALocator };

    ghost view = { λ a. several_in locator_at a.left a.bytes.now };

    ghost invariant = { λ a. is_ok (several_at locator_at a.left a.bytes.now) ≡ true };
}

/// The bytes after so many locators, or the first fault of these.
fn skip(count: u8, bytes: &[u8]) -> Result<&[u8], MapRegisterFault>
    ensures read { IfOk result (λ rest. ComesAfter locator_at count bytes.now rest.now) }
    ensures fault { IfErr result (λ e. several_at locator_at count bytes.now ≡ Err e) }
{
    let mut rest = bytes;
    for _ in 0..count {
        let (_locator, after) = read_locator(rest)?;
        rest = after;
    }
    Ok(rest)
}

impl<'a> RegisteredLocators<'a> {
    /// So many locators from the front of the bytes, and the bytes after them.
    pub(crate) fn read(count: u8, bytes: &'a [u8]) -> Result<(Self, &'a [u8]), MapRegisterFault>
        ensures { IsReadAs (λ x. (x.0, x.1.now)) result (several_at locator_at count bytes.now) }
    {
        let rest = skip(count, bytes)?;
        Ok((RegisteredLocators { left: count, bytes }, rest))
    }

    /// The same locators once more.
    pub fn again(&self) -> Self
        ensures { result ≡ self.now }
    {
        RegisteredLocators {
            left: self.left,
            bytes: self.bytes,
        }
    }
}

impl<'a> Iterator for RegisteredLocators<'a> {
    type Item = RegisteredLocator;

    ghost next_gives = { YieldsFirst (λ locators. locators) };

    ghost remaining = { item_count (λ locators. locators) };

    fn next(&mut self) -> Option<RegisteredLocator> {
        if self.left == 0 {
            return None;
        }
        match read_locator(self.bytes) {
            Ok((locator, after)) => {
                self.left -= 1;
                self.bytes = after;
                Some(locator)
            }
            Err(_fault) => unreachable!(),
        }
    }
}
