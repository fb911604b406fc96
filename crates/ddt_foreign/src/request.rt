//! A foreign Map-Request inside an Encapsulated Control Message (RFC 9301, sections 5.2 and 5.8).
//!
//! ```text
//!  0        1        2        3
//! +----+-+-+-+-+----+---+----+--------+
//! |  1 |A|M|P|S|flags |D|IRC | records|   0
//! +----+-+-+-+-+----+---+----+--------+
//! |              nonce                |   4
//! |                                   |   8
//! +-----------------+-----------------+
//! | source EID-AFI  | source EID ...  |  12
//! +-----------------+-----------------+
//! |  IRC + 1 ITR-RLOCs ...            |
//! +--------+--------+-----------------+
//! |reserved|EID mask|  EID-AFI,       |
//! |        |  len   |  EID ...        |
//! +--------+--------+-----------------+
//! |  ignored ...                      |
//! ```

ghost use Rattle.std.specs.Prelude.{◌≡◌, ◌≤◌, length, slice_get, not, Ok, Some, OnOk, IfOk};
ghost use Rattle.byteorder.specs.Endian.{big_number};
ghost use Rattle.ddt_path.specs.FormOf.{form_of};
ghost use Rattle.ddt_path.specs.Steps.{IsReadAs};
ghost use Rattle.ddt_ecm.specs.Request.{message_in, written as spelling};
ghost use Rattle.ddt_ecm.specs.laws.Statements.{message_of};
ghost use Rattle.ddt_foreign.specs.Request.{after_source, family_fault, prefix_at, first_of, count_at, asked_in, request_in};

use crate::fault::ForeignRequestFault;
use crate::itr_rlocs::{ItrRlocs, read_content};
use byteorder::{BigEndian, ByteOrder};
use ddt_ecm::{DDT, read_inner, write_request};
use ddt_path::{Form, Locator, Prefix, Xeid};
use ddt_wire::{EidFault, LCAF, MAP_REQUEST, NO_ADDRESS, TYPE_SHIFT, read_address, read_eid};
use std::alloc::{AllocError, Global};
use std::marker::Model;

/// How many bytes there are before the source EID.
const BEFORE_SOURCE: usize = 12;
/// The bit P in the first byte: a probe.
const PROBE: u8 = 1 << 1;
/// IRC is below this: it has five bits. The bit D before it says that no Map-Reply is wanted.
const IRC_LIMIT: u8 = 1 << 5;

/// What a foreign Map-Request says. It lends the datagram for its ITR-RLOCs. Contracts see what is asked.
#[derive(Debug, Drop)]
pub struct ForeignRequest<'a> {
    nonce: u64,
    ddt: bool,
    port: u16,
    probe: bool,
    reply: bool,
    prefix: Prefix,
    xeid: Xeid,
    rlocs: ItrRlocs<'a>,
}

impl<'a> Model for ForeignRequest<'a> {
    ghost use Rattle.std.specs.Prelude.{◌≤◌, length};
    ghost use Rattle.ddt_foreign.specs.Request.{Asked};

    ghost Value = { Asked };

    ghost view = { λ a. record {
      nonce = a.nonce;
      ddt = a.ddt;
      port = a.port;
      probe = a.probe;
      reply = a.reply;
      prefix = a.prefix;
      xeid = a.xeid;
      rlocs = a.rlocs;
    } };

    ghost invariant = { λ a. (1 ≤ length a.rlocs) × (length a.rlocs ≤ 32) };
}

impl<'a> ForeignRequest<'a> {
    /// The nonce, which the answer repeats.
    pub fn nonce(&self) -> u64
        ensures { result ≡ self.now.nonce }
    {
        self.nonce
    }

    /// The bit D of the Encapsulated Control Message: a DDT client asks, and no ITR.
    pub fn ddt(&self) -> bool
        ensures { result ≡ self.now.ddt }
    {
        self.ddt
    }

    /// The inner source port.
    pub fn port(&self) -> u16
        ensures { result ≡ self.now.port }
    {
        self.port
    }

    /// The bit P: an RLOC is probed. A Map-Resolver or Map-Server drops such a request (RFC 9301, section 5.2).
    pub fn is_probe(&self) -> bool
        ensures { result ≡ self.now.probe }
    {
        self.probe
    }

    /// The bit D of the Map-Request, the dont-map-reply bit, is clear (RFC 9301, section 5.2).
    pub fn wants_reply(&self) -> bool
        ensures { result ≡ self.now.reply }
    {
        self.reply
    }

    /// The EID-prefix that is asked for: a single identifier or a block of addresses, in one instance.
    pub fn prefix(&self) -> Prefix
        ensures { result ≡ self.now.prefix }
    {
        self.prefix
    }

    /// The first address of the EID-prefix, which is looked up.
    pub fn xeid(&self) -> Xeid
        ensures { result ≡ self.now.xeid }
    {
        self.xeid
    }

    /// The ITR-RLOCs whose address is known, 1 to 32 in order, read from the datagram.
    pub fn itr_rlocs(&self) -> ItrRlocs<'a>
        ensures all { result ≡ self.now.rlocs }
        ensures some { 1 ≤ length result }
        ensures few { length result ≤ 32 }
    {
        self.rlocs.again()
    }

    /// The first ITR-RLOC whose address is known.
    pub fn first_rloc(&self) -> Locator
        ensures { slice_get self.now.rlocs 0 ≡ Some result }
    {
        match self.rlocs.again().next() {
            Some(address) => address,
            None => unreachable!(),
        }
    }
}

/// How many ITR-RLOCs follow, where what comes before the source EID is right.
#[tactic(auto, unfolding(crate::specs::Request::count_at))]
fn read_count(message: &[u8]) -> Result<u8, ForeignRequestFault>
    ensures exact { result ≡ count_at message.now }
    ensures len { OnOk result (12 ≤ length message.now) }
    ensures few { IfOk result (λ n. n ≤ 32) }
{
    if message.len() < BEFORE_SOURCE {
        return Err(ForeignRequestFault::Short);
    }
    if message[0] >> TYPE_SHIFT != MAP_REQUEST {
        return Err(ForeignRequestFault::RequestType);
    }
    if message[3] == 0 {
        return Err(ForeignRequestFault::NoEid);
    }
    Ok(message[2] % IRC_LIMIT + 1)
}

/// The bytes after the source EID.
#[tactic(auto, unfolding(crate::specs::Request::after_source))]
fn skip_source(bytes: &[u8]) -> Result<&[u8], ForeignRequestFault>
    ensures { IsReadAs (λ x. x.now) result (after_source bytes.now) }
{
    if bytes.len() < 2 {
        return Err(ForeignRequestFault::Short);
    }
    let afi = BigEndian::read_u16(bytes);
    if afi == NO_ADDRESS {
        let (_afi, rest) = bytes.split_at(2);
        return Ok(rest);
    }
    if afi == LCAF {
        let (_content, rest) = read_content(bytes)?;
        return Ok(rest);
    }
    let (_address, taken) = read_address(bytes).map_err(ForeignRequestFault::of_address)?;
    let (_source, rest) = bytes.split_at(taken);
    Ok(rest)
}

/// The fault of an EID whose AFI isn't that of an address or an LCAF.
fn unreadable_family(from_eid: &[u8]) -> ForeignRequestFault
    requires { 2 ≤ length from_eid.now }
    ensures { result ≡ family_fault (big_number 2 from_eid.now) }
{
    if BigEndian::read_u16(from_eid) == NO_ADDRESS {
        ForeignRequestFault::NoEid
    } else {
        ForeignRequestFault::UnrecognizedAfi
    }
}

/// The EID-prefix after a reserved byte and its mask length.
#[tactic(auto, unfolding(crate::specs::Request::prefix_at))]
fn read_prefix(bytes: &[u8]) -> Result<Prefix, ForeignRequestFault>
    ensures { result ≡ prefix_at bytes.now }
{
    if bytes.len() < 4 {
        return Err(ForeignRequestFault::Short);
    }
    let (_mask, from_eid) = bytes.split_at(2);
    match read_eid(from_eid, bytes[1]) {
        Ok((prefix, _taken)) => Ok(prefix),
        Err(EidFault::Short) => Err(ForeignRequestFault::Short),
        Err(EidFault::EidFamily) => Err(unreadable_family(from_eid)),
        Err(EidFault::Lcaf) => Err(ForeignRequestFault::Lcaf),
        Err(EidFault::MaskLength) => Err(ForeignRequestFault::MaskLength),
        Err(EidFault::TailNotZero) => Err(ForeignRequestFault::ManyInstances),
    }
}

/// The first address of an EID-prefix.
fn first(prefix: Prefix) -> Result<Xeid, ForeignRequestFault>
    ensures { result ≡ first_of (form_of prefix) }
{
    match prefix.form() {
        Form::Range { .. } => Err(ForeignRequestFault::ManyInstances),
        Form::Block { iid, address, .. } => Ok(Xeid { iid, address }),
    }
}

/// What the Map-Request asks, with this bit D and inner source port.
#[tactic(auto, unfolding(crate::specs::Request::asked_in))]
fn asked(ddt: bool, port: u16, message: &[u8]) -> Result<ForeignRequest<'_>, ForeignRequestFault>
    ensures { result ≡ asked_in ddt port message.now }
{
    let count = read_count(message)?;
    let (_head, from_source) = message.split_at(BEFORE_SOURCE);
    let from_rlocs = skip_source(from_source)?;
    let (rlocs, from_prefix) = ItrRlocs::read(count, from_rlocs)?;
    let prefix = read_prefix(from_prefix)?;
    let xeid = first(prefix)?;
    if rlocs.again().next().is_none() {
        return Err(ForeignRequestFault::NoRloc);
    }
    Ok(ForeignRequest {
        nonce: BigEndian::read_u64(&message[4..]),
        ddt,
        port,
        probe: message[0] / PROBE % 2 == 1,
        reply: message[2] / IRC_LIMIT % 2 != 1,
        prefix,
        xeid,
        rlocs,
    })
}

/// What the datagram says: an Encapsulated Map-Request as any LISP implementation writes it (RFC 9301, sections 5.2 and
/// 5.8). What follows the first record is ignored. Refused, in this order:
///
/// - 1 Headers: as 1 Short to 11 Port by `ddt_ecm::read_request`.
/// - 2 Short: fewer than 12 bytes of the Map-Request.
/// - 3 RequestType: the inner message isn't a Map-Request.
/// - 4 NoEid: there is no record.
/// - 2 Short, 5 UnrecognizedAfi: the source EID, of AFI 0, 1, 2 or 16387, as an LCAF of any type.
/// - 2 Short, 5 UnrecognizedAfi: an ITR-RLOC, of AFI 0, 1, 2 or 16387.
/// - 2 Short, 4 NoEid, 5 UnrecognizedAfi, 6 Lcaf, 7 MaskLength: the EID, of AFI 1, 2 or 16387.
/// - 8 ManyInstances: the EID is a range of instances.
/// - 9 NoRloc: of no ITR-RLOC the address is known.
#[tactic(auto, unfolding(crate::specs::Request::request_in))]
pub fn read_foreign_request(bytes: &[u8]) -> Result<ForeignRequest<'_>, ForeignRequestFault>
    ensures exact { result ≡ request_in bytes.now }
{
    let (port, message) = read_inner(bytes).map_err(ForeignRequestFault::Headers)?;
    asked(bytes[0] / DDT % 2 == 1, port, message)
}

/// The ITR-RLOCs in a vector.
fn rlocs_of(alloc: Global, rlocs: ItrRlocs<'_>) -> Result<Vec<Locator>, AllocError>
    ensures { IfOk result (λ addresses. addresses.items ≡ rlocs.entry) }
{
    let mut rest = rlocs;
    let mut addresses = Vec::new(alloc);
    while let Some(address) = rest.next() {
        addresses.push(address)?;
    }
    Ok(addresses)
}

/// The one spelling of a foreign Map-Request, with the bit D or without: of the same nonce, for the first address of
/// its EID-prefix, with those of its ITR-RLOCs whose address is known. Fails only if out of memory.
pub fn plain_request(
    alloc: Global,
    request: &ForeignRequest<'_>,
    ddt: bool,
) -> Result<Vec<u8>, AllocError>
    ensures written { IfOk result (λ bytes. bytes.items
        ≡ spelling request.now.nonce request.now.xeid request.now.rlocs ddt) }
    // What was written is read by the core.
    ensures read { IfOk result (λ bytes. message_in bytes.items
        ≡ Ok (message_of request.now.nonce request.now.xeid request.now.rlocs ddt)) }
{
    let rlocs = rlocs_of(alloc, request.itr_rlocs())?;
    write_request(
        alloc,
        request.nonce(),
        request.xeid(),
        rlocs.as_slice(),
        ddt,
    )
}
