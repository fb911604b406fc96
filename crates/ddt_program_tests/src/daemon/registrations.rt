//! Of registrations: `ddt_map_register`, in `registrar` `ddt_registrar`, and in `keys` `ddt_map_server`.

pub mod keys;
pub mod refused;
pub mod registrar;
pub mod vectors;
pub mod worked_messages;
