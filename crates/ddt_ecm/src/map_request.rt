//! A Map-Request for one identifier (RFC 9301, section 5.2).
//!
//! ```text
//!  0        1        2        3
//! +----+-+-+--------+---+----+--------+
//! |  1 |A|M| flags  |   |IRC | count 1|   0
//! +----+-+-+--------+---+----+--------+
//! |              nonce                |   4
//! |                                   |   8
//! +-----------------+-----------------+
//! | source EID-AFI  | source EID ...  |  12
//! +-----------------+-----------------+
//! |  IRC + 1 ITR-RLOCs, each an AFI   |
//! |  and an address ...               |
//! +--------+--------+-----------------+
//! |reserved|EID mask|  EID-AFI,       |
//! |        |  len   |  EID ...        |
//! +--------+--------+-----------------+
//! ```
//!
//! IRC has five bits. The source EID is skipped, and all flags but M are ignored.

ghost use Rattle.std.specs.Prelude.{◌≡◌, ◌≤◌, length, OnOk, IfOk};
ghost use Rattle.ddt_path.specs.FormOf.{form_of};
ghost use Rattle.ddt_ecm.specs.laws.Statements.{IsRequest};
ghost use Rattle.ddt_ecm.specs.MapRequest.{written_map_request, lcaf_at, source_at, host_of, xeid_at, head_at, map_request_at};

use crate::fault::RequestFault;
use byteorder::{BigEndian, ByteOrder};
use ddt_path::{Form, Locator, Prefix, Xeid};
use ddt_wire::{
    AddressFault, Addresses, EidFault, LCAF, MAP_REQUEST, NO_ADDRESS, TYPE_SHIFT, read_address,
    read_eid, write_addresses, write_eid,
};
use std::alloc::{AllocError, Global};

/// How many bits stand behind the bit M in the first byte.
const M_SHIFT: u32 = 2;
/// IRC is below this: it has five bits.
const IRC_LIMIT: u8 = 1 << 5;
/// How many bytes stand before the source EID.
const BEFORE_SOURCE: usize = 12;

/// The ITR-RLOCs of a request in order, read from the datagram one by one: to these addresses a Map-Reply may be sent.
pub type Rlocs<'a> = Addresses<'a, 0>;

/// How many ITR-RLOCs follow, where what stands before the source EID is right.
#[tactic(auto, unfolding(crate::specs::MapRequest::head_at))]
fn read_head(message: &[u8]) -> Result<u8, RequestFault>
    ensures exact { result ≡ head_at message.now }
    ensures len { OnOk result (12 ≤ length message.now) }
{
    if message.len() < BEFORE_SOURCE {
        return Err(RequestFault::Short);
    }
    if message[0] >> TYPE_SHIFT != MAP_REQUEST {
        return Err(RequestFault::RequestType);
    }
    if message[3] != 1 {
        return Err(RequestFault::RecordCount);
    }
    Ok(message[2] % IRC_LIMIT + 1)
}

/// How many bytes an LCAF takes, by its length.
fn skip_lcaf(bytes: &[u8]) -> Result<usize, RequestFault>
    ensures exact { result ≡ lcaf_at bytes.now }
    ensures within { IfOk result (λ taken. taken ≤ length bytes.now) }
{
    if bytes.len() < 8 {
        return Err(RequestFault::Short);
    }
    let taken = 8 + usize::from(BigEndian::read_u16(&bytes[6..]));
    if bytes.len() < taken {
        return Err(RequestFault::Short);
    }
    Ok(taken)
}

/// How many bytes the source EID takes, its AFI among them.
#[tactic(auto, unfolding(crate::specs::MapRequest::source_at))]
fn skip_source(bytes: &[u8]) -> Result<usize, RequestFault>
    ensures exact { result ≡ source_at bytes.now }
    ensures within { IfOk result (λ taken. taken ≤ length bytes.now) }
{
    if bytes.len() < 2 {
        return Err(RequestFault::Short);
    }
    match BigEndian::read_u16(bytes) {
        NO_ADDRESS => Ok(2),
        LCAF => skip_lcaf(bytes),
        _ => match read_address(bytes) {
            Ok((_address, taken)) => Ok(taken),
            Err(AddressFault::Short) => Err(RequestFault::Short),
            Err(AddressFault::Family) => Err(RequestFault::EidFamily),
        },
    }
}

/// The one identifier that a prefix covers.
fn host(prefix: Prefix) -> Result<Xeid, RequestFault>
    ensures { result ≡ host_of (form_of prefix) }
{
    match prefix.form() {
        Form::Range { .. } => Err(RequestFault::NotHost),
        Form::Block { iid, address, len } => {
            if len == address.width() {
                Ok(Xeid { iid, address })
            } else {
                Err(RequestFault::NotHost)
            }
        }
    }
}

/// The identifier behind a reserved byte and its mask length, and how many bytes they take.
#[tactic(auto, unfolding(crate::specs::MapRequest::xeid_at))]
fn read_xeid(bytes: &[u8]) -> Result<(Xeid, usize), RequestFault>
    ensures exact { result ≡ xeid_at bytes.now }
    ensures within { IfOk result (λ x. x.1 ≤ length bytes.now) }
{
    if bytes.len() < 2 {
        return Err(RequestFault::Short);
    }
    let (_mask, from_eid) = bytes.split_at(2);
    let (prefix, taken) = match read_eid(from_eid, bytes[1]) {
        Ok(read) => read,
        Err(EidFault::Short) => return Err(RequestFault::Short),
        Err(EidFault::EidFamily) => return Err(RequestFault::EidFamily),
        Err(EidFault::Lcaf) => return Err(RequestFault::Lcaf),
        Err(EidFault::MaskLength | EidFault::TailNotZero) => return Err(RequestFault::NotHost),
    };
    let xeid = host(prefix)?;
    Ok((xeid, 2 + taken))
}

/// Nonce, identifier and ITR-RLOCs of a Map-Request.
#[tactic(auto, unfolding(crate::specs::MapRequest::map_request_at))]
pub(crate) fn read_map_request(message: &[u8]) -> Result<(u64, Xeid, Rlocs<'_>), RequestFault>
    ensures { result ≡ map_request_at message.now }
{
    let count = read_head(message)?;
    let (_head, from_source) = message.split_at(BEFORE_SOURCE);
    let source = skip_source(from_source)?;
    let (_source, from_rlocs) = from_source.split_at(source);
    let (rlocs, rest) = match Rlocs::read(count, from_rlocs) {
        Ok(read) => read,
        Err(AddressFault::Short) => return Err(RequestFault::Short),
        Err(AddressFault::Family) => return Err(RequestFault::RlocFamily),
    };
    let (xeid, taken) = read_xeid(rest)?;
    if (message[0] >> M_SHIFT) % 2 == 0 && rest.len() != taken {
        return Err(RequestFault::Trailing);
    }
    Ok((BigEndian::read_u64(&message[4..]), xeid, rlocs))
}

/// A Map-Request has at most as many bytes beside its ITR-RLOCs.
const MOST_BESIDE: usize = 46;
/// An ITR-RLOC, with its AFI, has at most as many.
const MOST_OF_AN_RLOC: usize = 18;

/// A Map-Request, of at most 622 bytes.
pub(crate) fn map_request(
    alloc: Global,
    nonce: u64,
    x: Xeid,
    rlocs: &[Locator],
) -> Result<Vec<u8>, AllocError>
    requires some { 1 ≤ length rlocs.now }
    requires few { length rlocs.now ≤ 32 }
    ensures written { IfOk result (λ bytes. bytes.items ≡ written_map_request nonce x rlocs.now) }
    ensures fits { OnOk result (IsRequest nonce x rlocs.now) }
{
    let mut bytes = Vec::with_capacity(alloc, MOST_BESIDE + MOST_OF_AN_RLOC * rlocs.len())?;
    bytes.extend_from_slice(&[MAP_REQUEST << TYPE_SHIFT, 0, (rlocs.len() - 1) as u8, 1])?;
    bytes.extend_from_slice(&nonce.to_be_bytes())?;
    bytes.extend_from_slice(&NO_ADDRESS.to_be_bytes())?;
    write_addresses(&mut bytes, &[], rlocs)?;
    bytes.extend_from_slice(&[0, x.address.width()])?;
    write_eid(&mut bytes, Prefix::host(x))?;
    Ok(bytes)
}
