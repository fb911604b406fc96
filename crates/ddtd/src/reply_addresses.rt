//! The addresses that replies go to if a resolver listens over one address family and ITRs name RLOCs of both: the
//! first ITR-RLOC of the resolver's family (RFC 9301, section 5.5).

use ddt_foreign::read_foreign_request;
use ddt_path::Locator;
use ddt_wire::read_negative_reply;
use std::alloc::Global;

/// The most requests remembered; one more drops the oldest.
const MOST_REQUESTS: usize = 1024;

/// A request whose first ITR-RLOC is of a family that the resolver doesn't listen over.
#[derive(Clone, Copy)]
struct Redirected {
    nonce: u64,
    port: u16,
    first: Locator,
    /// The first ITR-RLOC of the other family.
    reachable: Locator,
}

/// The recent requests whose first ITR-RLOC the resolver can't reach.
#[derive(Drop)]
pub struct ReplyAddresses {
    requests: Vec<Redirected>,
}

impl ReplyAddresses {
    /// No request yet.
    pub fn new(alloc: Global) -> ReplyAddresses {
        ReplyAddresses {
            requests: Vec::new(alloc),
        }
    }

    /// Remembers a request if its first ITR-RLOC isn't of the family of `from`, and a later one is. The resolver
    /// listens only over the family of `from`. If out of memory, the request isn't remembered.
    pub fn note(&mut self, from: Locator, bytes: &[u8]) {
        let Ok(request) = read_foreign_request(bytes) else {
            return;
        };
        let first = request.first_rloc();
        if first.width() == from.width() {
            return;
        }
        let mut rlocs = request.itr_rlocs();
        let Some(reachable) = rlocs.find(|rloc| rloc.width() == from.width()) else {
            return;
        };
        if self.requests.len() >= MOST_REQUESTS {
            let _oldest = self.requests.remove(0);
        }
        let _added = self.requests.push(Redirected {
            nonce: request.nonce(),
            port: request.port(),
            first,
            reachable,
        });
    }

    /// The ITR-RLOC that a negative Map-Reply goes to instead of `first` at `port`; None if its request isn't
    /// remembered.
    pub fn instead(&self, first: Locator, port: u16, bytes: &[u8]) -> Option<Locator> {
        let nonce = read_negative_reply(bytes).ok()?.nonce;
        let mut requests = self.requests.as_slice().iter();
        let request = requests.find(|request| {
            request.nonce == nonce && request.port == port && request.first == first
        })?;
        Some(request.reachable)
    }
}
