//! The nonces of requests that weren't sent.

use std::alloc::Global;
use std::collections::VecDeque;

/// The most nonces of unsent requests that are kept.
pub const MOST_UNSENT: usize = 1024;

/// The senders' nonces of requests that weren't sent, in order. At most `MOST_UNSENT` are kept; one more drops the
/// oldest.
#[derive(Debug, Drop)]
pub(crate) struct UnsentNonces {
    nonces: VecDeque<u64>,
}

impl UnsentNonces {
    /// Creates an empty queue.
    pub fn new(alloc: Global) -> UnsentNonces {
        UnsentNonces {
            nonces: VecDeque::new(alloc),
        }
    }

    /// Appends a nonce. If out of memory it isn't kept.
    pub fn note(&mut self, nonce: u64) {
        if self.nonces.len() >= MOST_UNSENT {
            let _oldest = self.nonces.pop_front();
        }
        let _kept: Result<_, _> = self.nonces.push_back(nonce);
    }

    /// Removes and returns the oldest nonce.
    pub fn take(&mut self) -> Option<u64> {
        self.nonces.pop_front()
    }

    /// Removes all nonces.
    pub fn forget_all(&mut self) {
        self.nonces.clear();
    }
}
