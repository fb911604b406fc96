//! Admission: which Encapsulated Control Messages of ITRs a resolver starts a lookup for, and why it drops others.

ghost use Rattle.std.specs.Prelude.{◌≡◌, ◌<◌, ◌∷◌, ℕ, [], IsTrue, IfOk, IfErr};
ghost use Rattle.ddt_path.specs.Path.{xeid_path, is_path};
ghost use Rattle.ddt_ecm.specs.laws.Statements.{IsRequest};
ghost use Rattle.ddt_foreign.specs.Request.{request_in};
ghost use Rattle.ddt_daemon.specs.Admitted.{IsAllowed, IsDropped};
ghost use Rattle.ddt_daemon.specs.Resolving.{Resolving as AResolving};
ghost use Rattle.ddt_daemon.specs.Requests.{classified, is_one as is_one_of, names_one as names_one_of};

use ddt_config::settings::Settings;
use ddt_foreign::{ForeignRequestFault, ItrRlocs, read_foreign_request};
use ddt_path::{Listed, Locator, LocatorSet, Outcome, Prefix};
use ddt_resolver::ItrRequest;

/// The most bytes of a request that can wait.
pub const MOST_KEPT_BYTES: usize = 1500;

/// The most waiting requests of one source: an eighth of all that may wait.
pub const MOST_OF_SOURCE: usize = 128;

/// The most waiting requests whose lookups begin at one referral set: a quarter of all.
pub const MOST_OF_SET: usize = 256;

/// The reason why an Encapsulated Control Message is dropped, in the order of the tests.
#[derive(Clone, Copy, Debug, PartialEq, Eq)]
pub enum Dropped {
    /// Its source address isn't allowed.
    Denied,
    /// It is longer than 1,500 bytes.
    TooLong,
    /// It isn't a request of an ITR.
    NoRequest,
    /// It has an AFI that RFC 9301, section 5, calls unrecognized.
    UnrecognizedAfi,
    /// It probes an RLOC (RFC 9301, section 5.2).
    Probe,
    /// It wants no Map-Reply (RFC 9301, section 5.2).
    NoReply,
    /// One of its ITR-RLOCs is an address of the resolver itself.
    OwnAddress,
    /// The same request is already waiting.
    Repeated,
    /// No answer is cached, and as many requests wait as lookups can be pending.
    Full,
    /// No answer is cached, and 128 requests from its address wait.
    SourceFull,
    /// No answer is cached, and 256 requests wait whose lookups begin at the same referral set.
    SetFull,
    /// The same request came from another address less than 4,000 milliseconds ago: it was forwarded and came back.
    Looped,
    /// There is no memory for it.
    Memory,
}

/// How a request of an ITR is answered.
#[derive(Clone, Copy, Debug)]
pub(crate) enum Place {
    /// With this cached answer.
    Answered(Outcome),
    /// After a lookup.
    Waits(Lookup),
}

/// The lookup that a request waits for.
#[derive(Clone, Copy, Debug)]
pub(crate) enum Lookup {
    /// The lookup of this ticket, which another request has started.
    Shared(u64),
    /// A new lookup, which begins at this referral set.
    Own(LocatorSet),
}

/// A request of an ITR that is admitted.
#[derive(Debug, Drop)]
pub(crate) enum Admitted {
    /// Its answer is cached.
    Answered(Ready),
    /// It waits for a lookup.
    Waits(Waiter),
}

/// A request of an ITR with its cached answer.
#[derive(Clone, Copy, Debug)]
pub(crate) struct Ready {
    pub(crate) request: ItrRequest,
    pub(crate) outcome: Outcome,
}

/// A request of an ITR that is to wait for a lookup, with all that is stored of it.
#[derive(Debug, Drop)]
pub(crate) struct Waiter {
    pub(crate) request: ItrRequest,
    /// The source address.
    pub(crate) from: Locator,
    pub(crate) lookup: Lookup,
    /// The request's bytes, as they came.
    pub(crate) bytes: Listed<u8>,
}

/// Reads an ITR's request in any spelling that `ddt_foreign` reads. Refuses one that is dropped whatever else waits,
/// with the reason.
pub(crate) fn allowed_request(
    settings: &Settings,
    from: Locator,
    bytes: &[u8],
) -> Result<ItrRequest, Dropped>
    ensures allowed { IfOk result (IsAllowed settings.now from bytes.now) }
    ensures dropped { IfErr result (λ why. (now : ℕ) (w : AResolving) → IsDropped settings.now now w from bytes.now
        why) }
{
    if !settings.allows(from) {
        return Err(Dropped::Denied);
    }
    if bytes.len() > MOST_KEPT_BYTES {
        return Err(Dropped::TooLong);
    }
    match classify_request(settings.listen.as_slice(), bytes) {
        Ok(request) => {
            fits(request);
            Ok(request)
        }
        Err(why) => Err(why),
    }
}

/// States that the numbers of a request are in the ranges of their types. The call does nothing.
fn fits(request: ItrRequest)
    ensures message { IsRequest request.nonce request.xeid (request.to ∷ []) }
    ensures port { request.port < 65536 }
    ensures identifier { IsTrue (is_path (xeid_path request.xeid)) }
{
    let _identifier = Prefix::host(request.xeid);
}

/// Reads the request of an ITR to a resolver with these addresses, or returns the reason why it is dropped.
fn classify_request(own: &[Locator], bytes: &[u8]) -> Result<ItrRequest, Dropped>
    ensures { result ≡ classified own.now (request_in bytes.now) }
{
    let request = match read_foreign_request(bytes) {
        Ok(request) => request,
        Err(ForeignRequestFault::UnrecognizedAfi) => return Err(Dropped::UnrecognizedAfi),
        Err(_fault) => return Err(Dropped::NoRequest),
    };
    if request.ddt() {
        return Err(Dropped::NoRequest);
    }
    if request.is_probe() {
        return Err(Dropped::Probe);
    }
    if !request.wants_reply() {
        return Err(Dropped::NoReply);
    }
    if has_one(request.itr_rlocs(), own) {
        return Err(Dropped::OwnAddress);
    }
    Ok(ItrRequest {
        xeid: request.xeid(),
        nonce: request.nonce(),
        to: request.first_rloc(),
        port: request.port(),
    })
}

/// Whether one of a request's ITR-RLOCs is one of the addresses `own`.
fn has_one(rlocs: ItrRlocs<'_>, own: &[Locator]) -> bool
    ensures { result ≡ names_one_of own.now rlocs.entry }
{
    for rloc in rlocs {
        if is_one(rloc, own) {
            return true;
        }
    }
    false
}

pub(crate) fn is_one(locator: Locator, own: &[Locator]) -> bool
    ensures { result ≡ is_one_of own.now locator }
{
    own.iter().any(|address| *address == locator)
}
