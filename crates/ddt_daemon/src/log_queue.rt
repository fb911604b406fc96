//! A queue of events that are still to be logged, in the order in which they happened.

use std::alloc::Global;
use std::collections::VecDeque;

/// The most events in a queue. Others are only counted.
const MOST_KEPT: usize = 64;

/// The events of one kind that aren't logged yet.
#[derive(Debug, Drop)]
pub(crate) struct LogQueue<T: Drop> {
    kept: VecDeque<T>,
    /// The number of events that found no room.
    missed: u64,
}

impl<T: Drop> LogQueue<T> {
    /// An empty queue.
    pub(crate) fn new(alloc: Global) -> LogQueue<T> {
        LogQueue {
            kept: VecDeque::new(alloc),
            missed: 0,
        }
    }

    /// Adds an event. If the queue has 64, or if out of memory, the event is only counted.
    pub(crate) fn keep(&mut self, one: T) {
        if self.kept.len() >= MOST_KEPT || self.kept.push_back(one).is_err() {
            self.missed = self.missed.saturating_add(1);
        }
    }

    /// The number of events that found no room since the last call.
    pub(crate) fn take_missed(&mut self) -> u64 {
        let missed = self.missed;
        self.missed = 0;
        missed
    }

    /// Removes the first event.
    pub(crate) fn take(&mut self) -> Option<T> {
        self.kept.pop_front()
    }
}
