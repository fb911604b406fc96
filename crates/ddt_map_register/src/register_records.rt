//! The records of a Map-Register, one after the other.

ghost use Rattle.std.specs.Prelude.{◌≡◌, ◌≤◌, Err, IfOk, IfErr, length};
ghost use Rattle.std.specs.Iterator.{YieldsFirst, item_count};
ghost use Rattle.ddt_path.specs.Steps.{IsReadAs};
ghost use Rattle.ddt_foreign.specs.Several.{several_at, ComesAfter};
ghost use Rattle.ddt_map_register.specs.RegisterRecord.{record_at};

use crate::fault::MapRegisterFault;
use crate::register_record::{RegisterRecord, read_record};
use std::marker::Model;

/// Records in order, read from the datagram one by one. Contracts see the list of those that are left.
#[derive(Debug, Drop)]
pub struct RegisterRecords<'a> {
    left: u8,
    bytes: &'a [u8],
}

impl<'a> Model for RegisterRecords<'a> {
    ghost use Rattle.std.specs.Prelude.{◌≡◌, true, List, is_ok};
    ghost use Rattle.ddt_foreign.specs.Several.{several_at, several_in};
    ghost use Rattle.ddt_map_register.specs.RegisterRecord.{RegisterRecord as ARecord, record_at};

    ghost Value = { List ARecord };

    ghost view = { λ a. several_in record_at a.left a.bytes.now };

    ghost invariant = { λ a. is_ok (several_at record_at a.left a.bytes.now) ≡ true };
}

/// The bytes after so many records, or the first fault of these.
fn skip(count: u8, bytes: &[u8]) -> Result<&[u8], MapRegisterFault>
    ensures read { IfOk result (λ rest. ComesAfter record_at count bytes.now rest.now) }
    ensures fault { IfErr result (λ e. several_at record_at count bytes.now ≡ Err e) }
{
    let mut rest = bytes;
    for _ in 0..count {
        let (_record, after) = read_record(rest)?;
        rest = after;
    }
    Ok(rest)
}

impl<'a> RegisterRecords<'a> {
    /// So many records from the front of the bytes, and the bytes after them.
    pub(crate) fn read(count: u8, bytes: &'a [u8]) -> Result<(Self, &'a [u8]), MapRegisterFault>
        ensures read { IsReadAs (λ x. (x.0, x.1.now)) result (several_at record_at count bytes.now) }
        ensures len { IfOk result (λ x. length x.1.now ≤ length bytes.now) }
    {
        let rest = skip(count, bytes)?;
        Ok((RegisterRecords { left: count, bytes }, rest))
    }

    /// The same records once more.
    pub fn again(&self) -> Self
        ensures { result ≡ self.now }
    {
        RegisterRecords {
            left: self.left,
            bytes: self.bytes,
        }
    }
}

impl<'a> Iterator for RegisterRecords<'a> {
    type Item = RegisterRecord<'a>;

    ghost next_gives = { YieldsFirst (λ records. records) };

    ghost remaining = { item_count (λ records. records) };

    fn next(&mut self) -> Option<RegisterRecord<'a>> {
        if self.left == 0 {
            return None;
        }
        match read_record(self.bytes) {
            Ok((record, after)) => {
                self.left -= 1;
                self.bytes = after;
                Some(record)
            }
            Err(_fault) => unreachable!(),
        }
    }
}
