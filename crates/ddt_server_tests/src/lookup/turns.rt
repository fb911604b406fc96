//! Of `ddt_loop`.

pub mod loopback;
