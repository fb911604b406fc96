//! Of a server's crates: `ddt_trie`, `ddt_node` and `ddt_sockets`.

pub mod callers;
pub mod refused;
pub mod trie;
pub mod wires;
