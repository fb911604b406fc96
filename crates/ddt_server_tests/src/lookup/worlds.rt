//! Resolvers and servers over list maps, and their moments.

use ddt_cache::{Entry, Moment};
use ddt_path::Locator;
use ddt_resolver::Resolver;
use ddt_sim::Compiled;
use ddt_trie::ListMap;
use std::test::Fail;

/// A resolver over list maps.
pub type ListResolver = Resolver<ListMap<Entry>>;

/// Servers over list maps.
pub type ListServers = Compiled<ListMap<u32>>;

/// The address of each resolver, 127.0.0.53.
pub const ME: Locator = Locator::V4(0x7f00_0035);

/// The moment of a number of milliseconds.
pub fn moment(millis: u64) -> Result<Moment, Fail> {
    match Moment::at(millis) {
        Some(moment) => Ok(moment),
        None => Err("past the last moment".into()),
    }
}
