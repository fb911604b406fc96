//! Waits for all descriptors of the daemon at once.

use libc::net::{POLLIN, POLLOUT, poll};
use libc::types::pollfd;
use std::alloc::Global;
use std::ops::Range;
use std::os::fd::AsRawFd;

/// The descriptors to wait for; each is known by its place.
#[derive(Drop)]
pub struct Poll {
    asked: Vec<pollfd>,
    /// Whether the last wait failed.
    has_failed: bool,
}

impl Poll {
    /// A poll without descriptors.
    pub fn new(alloc: Global) -> Poll {
        Poll {
            asked: Vec::new(alloc),
            has_failed: false,
        }
    }

    /// Removes all descriptors. The memory is kept.
    pub fn clear(&mut self) {
        self.asked.clear();
    }

    /// The number of descriptors.
    pub fn len(&self) -> usize {
        self.asked.len()
    }

    /// Adds a descriptor, to wait until it can be read. It is left out if out of memory.
    pub fn add<F: AsRawFd>(&mut self, source: &F) {
        let _added = self.asked.push(pollfd {
            fd: source.as_raw_fd(),
            events: POLLIN,
            revents: 0,
        });
    }

    /// Adds a descriptor, to wait until it can be written. It is left out if out of memory.
    pub fn add_writer<F: AsRawFd>(&mut self, sink: &F) {
        let _added = self.asked.push(pollfd {
            fd: sink.as_raw_fd(),
            events: POLLOUT,
            revents: 0,
        });
    }

    /// Waits until a descriptor is ready, at most `millis` milliseconds. Returns whether the system could wait.
    pub fn wait(&mut self, millis: i32) -> bool {
        self.has_failed = poll(self.asked.as_mut_slice(), millis) < 0;
        !self.has_failed
    }

    /// Whether the descriptor at a place is ready.
    pub fn is_ready(&self, place: usize) -> bool {
        match self.asked.as_slice().get(place) {
            Some(asked) => asked.revents != 0,
            None => false,
        }
    }

    /// Whether one of these places may be ready; true for all if the last wait failed.
    pub fn may_be_ready(&self, mut places: Range<usize>) -> bool {
        self.has_failed || places.any(|place| self.is_ready(place))
    }
}
