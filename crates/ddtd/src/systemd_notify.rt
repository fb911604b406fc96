//! Reports the daemon's state to systemd, at the socket that NOTIFY_SOCKET names.

ghost use Rattle.std.specs.Prelude.{◌≤◌, IfSome};

use libc::net::{AF_UNIX, MSG_DONTWAIT, MSG_NOSIGNAL, SOCK_CLOEXEC, SOCK_DGRAM, sendto, socket};
use os::FromRawFd;
use std::env;
use std::net::UdpSocket;

/// The most bytes of a socket's name in an address.
const LONGEST: usize = 107;

/// The daemon's state.
#[derive(Clone, Copy)]
pub enum State {
    /// It serves by the files that it adopted last.
    Ready,
    /// It reloads its files.
    Reloading,
    /// It stops.
    Stopping,
}

impl State {
    fn text(self) -> &'static str {
        match self {
            State::Ready => "READY=1\n",
            State::Reloading => "RELOADING=1\n",
            State::Stopping => "STOPPING=1\n",
        }
    }
}

/// Reports the state if NOTIFY_SOCKET is set. A report that can't be sent is lost.
pub fn notify(rt: &HostRuntime, state: State) {
    if let Ok(name) = env::var(rt, "NOTIFY_SOCKET") {
        let _sent = send(name.as_bytes(), state.text().as_bytes());
    }
}

/// Sends a text to the socket of this name; None if that fails.
fn send(name: &[u8], text: &[u8]) -> Option<()> {
    let mut address = [0; 128];
    let len = write_address(&mut address, name)?;
    let fd = unsafe { socket(AF_UNIX, SOCK_DGRAM | SOCK_CLOEXEC, 0) };
    if fd < 0 {
        return None;
    }
    // Closes the descriptor at the end.
    let _held = unsafe { UdpSocket::from_raw_fd(fd) };
    let sent = unsafe { sendto(fd, text, MSG_NOSIGNAL | MSG_DONTWAIT, &address, len) };
    (sent == text.len() as isize).then_some(())
}

/// Writes the address of a socket's name: a path, or an abstract name that begins with `@`. Returns the address's
/// length in bytes; None for a name that is empty or too long.
fn write_address(bytes: &mut [u8; 128], name: &[u8]) -> Option<u32>
    ensures { IfSome result (λ len. len ≤ 128) }
{
    if name.is_empty() || name.len() > LONGEST {
        return None;
    }
    bytes[0] = AF_UNIX as u8;
    bytes[2..2 + name.len()].copy_from_slice(name);
    if name[0] == b'@' {
        bytes[2] = 0;
        return Some(2 + name.len() as u32);
    }
    Some(3 + name.len() as u32)
}
