//! The counts of a server, and its events for the log.

use crate::counts::ServerCounts;
use crate::log_events::UnrecognizedMessage;
use crate::log_queue::LogQueue;
use crate::service::{Service, ServiceResult};
use ddt_path::Locator;
use std::alloc::Global;

/// The counts of a server, and its events for the log.
#[derive(Debug, Drop)]
pub struct ServerRecord {
    pub counts: ServerCounts,
    /// The requests that were dropped for their AFI and aren't logged yet.
    unrecognized: LogQueue<UnrecognizedMessage>,
}

impl ServerRecord {
    /// A record with all counts 0.
    pub fn new(alloc: Global) -> ServerRecord {
        ServerRecord {
            counts: ServerCounts::default(),
            unrecognized: LogQueue::new(alloc),
        }
    }

    /// Counts a datagram from an address, by what was done with it.
    pub fn serve_one(&mut self, from: Locator, done: ServiceResult) {
        self.counts.serve_one(done);
        if done.service == Service::UnrecognizedAfi {
            self.unrecognized.keep(UnrecognizedMessage::Request(from));
        }
    }

    /// Removes the first event of a request that was dropped for its AFI. Of more than 64 events the others are only
    /// counted, by `take_missed_unrecognized`.
    pub fn take_unrecognized(&mut self) -> Option<UnrecognizedMessage> {
        self.unrecognized.take()
    }

    /// The number of requests dropped for their AFI that `take_unrecognized` doesn't return, since the last call.
    pub fn take_missed_unrecognized(&mut self) -> u64 {
        self.unrecognized.take_missed()
    }
}
