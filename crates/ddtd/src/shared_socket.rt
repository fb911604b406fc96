//! A UDP socket whose address other processes may share (SO_REUSEPORT). The system gives each datagram to one of them.
//!
//! std binds no such socket, so this file calls the C library. Those calls take no handle; `bind_shared` takes one for
//! the network.

use ddt_path::Locator;
use libc::net::{
    AF_INET, AF_INET6, SO_REUSEPORT, SOCK_CLOEXEC, SOCK_DGRAM, SOL_SOCKET, bind, setsockopt, socket,
};
use os::FromRawFd;
use std::io;
use std::net::{Net, UdpSocket};

/// The bytes of an IPv4 address with its port.
const V4_BYTES: u32 = 16;

/// The bytes of an IPv6 address with its port, flow and scope.
const V6_BYTES: u32 = 28;

/// Binds a socket to an address and port that processes of the same user may share, if they bind them the same way.
/// Fails if the system refuses it.
pub fn bind_shared<N: Net>(_net: &N, at: Locator, port: u16) -> io::Result<UdpSocket> {
    let (family, len) = match at {
        Locator::V4(_) => (AF_INET, V4_BYTES),
        Locator::V6(_) => (AF_INET6, V6_BYTES),
    };
    let fd = unsafe { socket(family, SOCK_DGRAM | SOCK_CLOEXEC, 0) };
    if fd < 0 {
        return Err(io::Error::from_raw_os_error(os::errno()));
    }
    // Closes the descriptor if it can't be bound.
    let made = unsafe { UdpSocket::from_raw_fd(fd) };
    done(unsafe { setsockopt(fd, SOL_SOCKET, SO_REUSEPORT, &is_on(), 4) })?;
    done(unsafe { bind(fd, &address_of(at, port), len) })?;
    Ok(made)
}

/// The value of a socket option that is on.
fn is_on() -> [u8; 16] {
    let mut value = [0; 16];
    value[..4].copy_from_slice(&1i32.to_ne_bytes());
    value
}

/// An address and a port in the layout of the system's `sockaddr`.
fn address_of(at: Locator, port: u16) -> [u8; 128] {
    let mut bytes = [0; 128];
    bytes[2..4].copy_from_slice(&port.to_be_bytes());
    match at {
        Locator::V4(number) => {
            bytes[0] = AF_INET as u8;
            bytes[4..8].copy_from_slice(&number.to_be_bytes());
        }
        Locator::V6(number) => {
            bytes[0] = AF_INET6 as u8;
            bytes[8..24].copy_from_slice(&number.to_be_bytes());
        }
    }
    bytes
}

/// The result of a call that returns 0, or -1 with an error.
fn done(status: i32) -> io::Result<()> {
    if status == 0 {
        Ok(())
    } else {
        Err(io::Error::from_raw_os_error(os::errno()))
    }
}
