//! Why a server or a resolver doesn't run: an address, a configuration, a socket.

ghost use Rattle.std.specs.Prelude.{Some};
ghost use Rattle.ddt_text.specs.Written.{written_locator};

use ddt_config::ConfigFault;
use ddt_path::Locator;
use std::fmt;
use std::net::{Ipv4Addr, Ipv6Addr};

/// Why no server and no resolver can run.
#[derive(Clone, Copy, Debug)]
pub enum ServerRefusal<'a> {
    /// An address that a socket is to be bound to isn't one of 127.0.0.0/8.
    NotLoopback(Locator),
    /// The file of this name can't be opened, or can't be read.
    CannotOpen(&'a str),
    /// The file's bytes spell no configuration of which a server can be built.
    BadConfig(ConfigFault),
    /// No socket can be bound to this address.
    CannotBind(Locator),
}

impl fmt::Display for ServerRefusal<'_> {
    ghost use Rattle.ddt_commands.specs.Refusal.{server_refusal_text};

    ghost output = { server_refusal_text };

    fn fmt<W: fmt::Write>(&self, f: &mut fmt::Formatter<W>) -> fmt::Result {
        match self {
            ServerRefusal::NotLoopback(at) => {
                write!(f, "not a loopback address {}", Address(*at))
            }
            ServerRefusal::CannotOpen(path) => write!(f, "cannot open {path}"),
            ServerRefusal::BadConfig(fault) => write!(f, "bad configuration {fault}"),
            ServerRefusal::CannotBind(at) => write!(f, "cannot bind {}", Address(*at)),
        }
    }
}

/// An address as it is written: IPv6 in the form of RFC 5952, section 4, without a dotted part.
#[derive(Clone, Copy)]
struct Address(Locator);

impl fmt::Display for Address {
    ghost output = { λ address. Some (written_locator address.0) };

    #[tactic(auto, using(ddt_text::specs::laws::Written::shown))]
    fn fmt<W: fmt::Write>(&self, f: &mut fmt::Formatter<W>) -> fmt::Result {
        match self.0 {
            Locator::V4(number) => write!(f, "{}", Ipv4Addr::from_bits(number)),
            Locator::V6(number) => write!(f, "{}", Ipv6Addr::from_bits(number).hex_groups()),
        }
    }
}
