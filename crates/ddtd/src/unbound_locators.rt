//! Locators of a configuration that have no socket, such as those that aren't addresses of this machine yet. They are
//! tried again each second.

use crate::log::{Log, Priority};
use crate::sockets::Sockets;
use ddt_path::Locator;
use ddt_sockets::ip_of;
use std::alloc::{AllocError, Global};
use std::io;
use std::io::ErrorKind;

/// The error for a locator that has no socket, as the log has it.
#[derive(Clone, Copy)]
struct Logged {
    at: Locator,
    kind: ErrorKind,
}

/// The locators that have no socket, with the errors that are in the log.
#[derive(Drop)]
pub struct UnboundLocators {
    logged: Vec<Logged>,
}

impl UnboundLocators {
    /// No error is in the log yet.
    pub fn new(alloc: Global) -> UnboundLocators {
        UnboundLocators {
            logged: Vec::new(alloc),
        }
    }

    /// Forgets which errors are in the log, so that all are logged again.
    pub fn clear(&mut self) {
        self.logged.clear();
    }

    /// Binds a socket at each of these locators that has none. Logs which are served now, and once for each of the
    /// others, the error.
    pub fn bind(
        &mut self,
        rt: &HostRuntime,
        locators: &[Locator],
        sockets: &mut Sockets,
        log: &mut Log,
    ) {
        for at in locators {
            if !sockets.has(*at) {
                self.bind_at(rt, *at, sockets, log);
            }
        }
    }

    fn bind_at(&mut self, rt: &HostRuntime, at: Locator, sockets: &mut Sockets, log: &mut Log) {
        match sockets.bind(rt, at) {
            Ok(()) => {
                self.logged.retain(|logged| logged.at != at);
                let line = format!(in rt.alloc(); "served now: {}", ip_of(at));
                log.say(rt, Priority::Notice, line);
            }
            Err(error) if self.is_new(at, error.kind()) => {
                log.say(rt, Priority::Warning, unserved_text(rt, at, &error));
            }
            Err(_) => {}
        }
    }

    /// Whether this error of a locator isn't in the log yet, and notes that it is now. If out of memory, it is logged
    /// again.
    fn is_new(&mut self, at: Locator, kind: ErrorKind) -> bool {
        let is_logged = |logged: &Logged| logged.at == at && logged.kind == kind;
        if self.logged.as_slice().iter().any(is_logged) {
            return false;
        }
        self.logged.retain(|logged| logged.at != at);
        let _added = self.logged.push(Logged { at, kind });
        true
    }
}

fn unserved_text(rt: &HostRuntime, at: Locator, error: &io::Error) -> Result<String, AllocError> {
    let ip = ip_of(at);
    match error.kind() {
        ErrorKind::AddrNotAvailable => {
            format!(in rt.alloc(); "not served: {ip} isn't this machine's")
        }
        _ => format!(in rt.alloc(); "not served: {ip}: {error}"),
    }
}
