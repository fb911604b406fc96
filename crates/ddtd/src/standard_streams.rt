//! Keeps descriptors 0 to 2 for the standard streams, so that no socket or file gets them.

use libc::net::{POLLNVAL, poll};
use libc::types::pollfd;
use std::fs::File;
use std::io;
use std::os::fd::IntoRawFd;

/// Opens `/dev/null` at each closed descriptor of 0 to 2. Otherwise the first sockets would get these numbers, and the
/// log would be sent from a socket. Fails if the system refuses to open it.
pub fn open_closed(rt: &HostRuntime) -> io::Result<()> {
    for _stream in 0..3 {
        if are_open() {
            return Ok(());
        }
        let null = File::options()
            .read(true)
            .write(true)
            .open(rt, "/dev/null")?;
        // It gets the lowest free descriptor, and is never closed.
        let _descriptor = null.into_raw_fd();
    }
    Ok(())
}

fn are_open() -> bool {
    let mut streams = [stream(0), stream(1), stream(2)];
    poll(&mut streams, 0) >= 0 && streams.iter().all(|stream| stream.revents & POLLNVAL == 0)
}

/// A descriptor, to ask whether it is open.
fn stream(fd: i32) -> pollfd {
    pollfd {
        fd,
        events: 0,
        revents: 0,
    }
}
