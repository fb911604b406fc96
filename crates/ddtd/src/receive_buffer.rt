//! The size of a socket's receive buffer.

use libc::net::{SO_RCVBUF, SOL_SOCKET, setsockopt};
use std::os::fd::AsRawFd;

/// The requested size in bytes, enough for the datagrams that arrive during the reload of a large configuration.
const RECEIVE_BUFFER: i32 = 4 << 20;

/// Requests a receive buffer of 4 MiB. The system grants at most `net.core.rmem_max`; if it refuses, the size stays.
pub fn enlarge<F: AsRawFd>(socket: &F) {
    let mut value = [0; 16];
    value[..4].copy_from_slice(&RECEIVE_BUFFER.to_ne_bytes());
    // std has no call for this option. It takes a number and no pointer.
    let _status = unsafe { setsockopt(socket.as_raw_fd(), SOL_SOCKET, SO_RCVBUF, &value, 4) };
}
