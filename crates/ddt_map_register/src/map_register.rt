//! A Map-Register (RFC 9301, section 5.6): `head`, its authentication data, records, and who sent it.

ghost use Rattle.std.specs.Prelude.{◌≡◌, ◌≤◌, Ok, IfOk};
ghost use Rattle.ddt_map_register.specs.MapRegister.{Message, SpellsRegister, message_in, id_at};

use crate::authentication::{SHA1_96, SHA256_128, sha1_code, sha256_code, zeros};
use crate::fault::MapRegisterFault;
use crate::hmac::is_code_cut;
use crate::map_notify::write_notify;
use crate::register_head::{BEFORE_CODE, RegisterHead, read_head};
use crate::register_records::RegisterRecords;
use byteorder::{BigEndian, ByteOrder};
use std::alloc::{AllocError, Global};
use std::marker::Model;

/// How many bytes xTR-ID and Site-ID take.
const ID_LEN: usize = 24;

/// Who sent a Map-Register: an xTR of a site.
#[derive(Clone, Copy, Debug, PartialEq, Eq)]
pub struct XtrId {
    /// The xTR-ID.
    pub xtr: u128,
    /// The Site-ID.
    pub site: u64,
}

/// What a Map-Register says. It lends the datagram. Contracts see the message.
#[derive(Debug, Drop)]
pub struct MapRegister<'a> {
    head: RegisterHead,
    /// The bytes before the authentication data.
    before: &'a [u8],
    code: &'a [u8],
    /// The bytes after the authentication data.
    after: &'a [u8],
    /// Those of them that are its records.
    record_bytes: &'a [u8],
    records: RegisterRecords<'a>,
    id: Option<XtrId>,
}

impl<'a> Model for MapRegister<'a> {
    ghost use Rattle.std.specs.Prelude.{◌≡◌, ◌++◌, length, replicate};
    ghost use Rattle.ddt_map_register.specs.MapRegister.{Message};

    ghost Value = { Message };

    ghost view = { λ a. record {
      head = a.head;
      code = a.code.now;
      covered = a.before.now ++ replicate (length a.code.now) 0 ++ a.after.now;
      record_bytes = a.record_bytes.now;
      records = a.records;
      id = a.id;
    } };

    ghost invariant = { λ a. length a.code.now ≡ a.head.code_len };
}

impl<'a> MapRegister<'a> {
    ghost use Rattle.std.specs.Prelude.{◌≡◌, ◌↔◌, IsTrue, IfOk};
    ghost use Rattle.ddt_map_register.specs.Authentic.{IsAuthentic, is_known};
    ghost use Rattle.ddt_map_register.specs.MapNotify.{notify_to};

    /// The fields of its head.
    pub fn head(&self) -> RegisterHead
        ensures { result ≡ self.now.head }
    {
        self.head
    }

    /// The authentication data.
    pub fn code(&self) -> &'a [u8]
        ensures { result.now ≡ self.now.code }
    {
        self.code
    }

    /// Whether it bears its code under the secret, by Algorithm ID 1 or 2; any other algorithm is unknown. Each byte of
    /// the code is read, wherever it differs.
    pub fn is_authentic(&self, secret: &[u8]) -> bool
        ensures { IsTrue result ↔ IsAuthentic secret.now self.now }
    {
        let len = self.code.len();
        match self.head.algorithm {
            SHA256_128 if len == 16 => {
                let code = sha256_code(secret, self.before, zeros(len), self.after);
                is_code_cut(&code, self.code)
            }
            SHA1_96 if len == 12 || len == 20 => {
                let code = sha1_code(secret, self.before, zeros(len), self.after);
                is_code_cut(&code, self.code)
            }
            _ => false,
        }
    }

    /// Its records in order, read from the datagram.
    pub fn records(&self) -> RegisterRecords<'a>
        ensures { result ≡ self.now.records }
    {
        self.records.again()
    }

    /// The bytes of its records.
    pub fn record_bytes(&self) -> &'a [u8]
        ensures { result.now ≡ self.now.record_bytes }
    {
        self.record_bytes
    }

    /// Who sent it, if it says so.
    pub fn id(&self) -> Option<XtrId>
        ensures { result ≡ self.now.id }
    {
        self.id
    }

    /// The Map-Notify that acknowledges it, with all its records, authentic under the secret (RFC 9301, section 5.7).
    /// It is never longer than the Map-Register. An authentic Map-Register meets the requirement. Fails only if out of
    /// memory.
    pub fn notify(&self, alloc: Global, secret: &[u8]) -> Result<Vec<u8>, AllocError>
        requires { IsTrue (is_known self.now.head.algorithm self.now.head.code_len) }
        ensures { IfOk result (λ bytes. bytes.items ≡ notify_to secret.now self.now) }
    {
        write_notify(alloc, &self.head, secret, self.record_bytes)
    }
}

/// What comes after the records.
#[tactic(auto, unfolding(crate::specs::MapRegister::id_at))]
fn read_id(has_id: bool, bytes: &[u8]) -> Result<Option<XtrId>, MapRegisterFault>
    ensures { result ≡ id_at has_id bytes.now }
{
    if has_id {
        if bytes.len() < ID_LEN {
            return Err(MapRegisterFault::Short);
        }
        if bytes.len() != ID_LEN {
            return Err(MapRegisterFault::Trailing);
        }
        return Ok(Some(XtrId {
            xtr: BigEndian::read_u128(bytes),
            site: BigEndian::read_u64(&bytes[16..]),
        }));
    }
    if !bytes.is_empty() {
        return Err(MapRegisterFault::Trailing);
    }
    Ok(None)
}

/// The Map-Register that the bytes are, or the first fault.
#[tactic(auto, unfolding(crate::specs::MapRegister::message_in))]
fn register(bytes: &[u8]) -> Result<MapRegister<'_>, MapRegisterFault>
    ensures { result ≡ message_in bytes.now }
{
    let head = read_head(bytes)?;
    let (before, from_code) = bytes.split_at(BEFORE_CODE);
    let (code, after) = from_code.split_at(head.code_len as usize);
    let (records, rest) = RegisterRecords::read(head.count, after)?;
    let (record_bytes, _rest) = after.split_at(after.len() - rest.len());
    let id = read_id(head.has_id, rest)?;
    Ok(MapRegister {
        head,
        before,
        code,
        after,
        record_bytes,
        records,
        id,
    })
}

/// What the datagram says, all of it being one Map-Register. Refused, in this order:
///
/// - 1 Short: fewer than 16 bytes.
/// - 2 MessageType: the first four bits aren't 3.
/// - 1 Short: the authentication data is cut.
/// - of the first wrong record: 1 Short, fewer than 12 bytes; its EID's fault, as of `read_eid`; of its first wrong
///   locator 1 Short, fewer than 8 bytes, then 1 Short, an LCAF that is cut, or 7 LocatorFamily, then 1 Short, an
///   address that is cut.
/// - 1 Short: I is set and fewer than 24 bytes are left for xTR-ID and Site-ID.
/// - 8 Trailing: there are bytes after all that.
///
/// Reserved bits are ignored.
pub fn read_register(bytes: &[u8]) -> Result<MapRegister<'_>, MapRegisterFault>
    // The bytes spell what is read.
    ensures found { IfOk result (λ v. SpellsRegister bytes.now v) }
    // What they spell is read.
    ensures only { (v : Message) → SpellsRegister bytes.now v → result ≡ Ok v }
    // Which fault it is.
    ensures exact { result ≡ message_in bytes.now }
{
    register(bytes)
}
