//! Of `ddt_sim` and `ddt_loop`.

pub mod refused;
pub mod sim;
pub mod texts;
pub mod turns;
pub mod worlds;
