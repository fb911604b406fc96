//! The UDP sockets of a daemon, and the wires over them. No call waits; the daemon polls all sockets at once.

ghost use Rattle.std.specs.Prelude.{◌≤◌, length, IfOk, IfSome};

use crate::poll::Poll;
use crate::receive_buffer;
use crate::reply_addresses::ReplyAddresses;
use crate::shared_socket::bind_shared;
use ddt_ecm::CONTROL_PORT;
use ddt_path::Locator;
use ddt_sockets::{NetFault, Packet, Wires, ip_of, locator_of};
use ddt_wire::MessageType;
use std::alloc::Global;
use std::io::ErrorKind;
use std::net::{Net, SocketAddr, UdpSocket};
use std::{fmt, io};

/// A socket and the address that it is bound to.
#[derive(Drop)]
struct Bound {
    at: Locator,
    socket: UdpSocket,
}

impl Bound {
    fn bind<N: Net>(net: &N, at: Locator, port: u16, is_shared: bool) -> io::Result<Bound> {
        let socket = if is_shared {
            bind_shared(net, at, port)?
        } else {
            UdpSocket::bind(net, SocketAddr::new(ip_of(at), port))?
        };
        socket.set_nonblocking(true)?;
        receive_buffer::enlarge(&socket);
        Ok(Bound { at, socket })
    }

    /// The next datagram; None if there is none now.
    fn receive(&self, buffer: &mut [u8]) -> Result<Option<Packet>, NetFault>
        ensures fits { IfOk result (λ answer. IfSome answer (λ packet. packet.len ≤ length buffer.new)) }
    {
        match self.socket.recv_from(buffer) {
            Ok((len, source)) if len < buffer.len() => Ok(Some(Packet {
                from: locator_of(source.ip()),
                port: source.port(),
                len,
            })),
            Err(error) if error.kind() == ErrorKind::WouldBlock => Ok(None),
            Ok(_) | Err(_) => Err(NetFault::Receive),
        }
    }

    fn send(&self, to: Locator, port: u16, bytes: &[u8]) -> Result<(), NetFault> {
        match self.socket.send_to(bytes, SocketAddr::new(ip_of(to), port)) {
            Ok(len) if len == bytes.len() => Ok(()),
            Ok(_) | Err(_) => Err(NetFault::Send),
        }
    }
}

/// UDP sockets, each bound to another address.
#[derive(Drop)]
pub struct Sockets {
    bound: Vec<Bound>,
    port: u16,
    /// Whether other processes may bind sockets to the same addresses.
    is_shared: bool,
    /// The place of the socket that was read last.
    last: usize,
}

impl Sockets {
    /// No sockets yet. Each that is bound later gets this port, or with 0 a port of the system's choice.
    pub fn new(alloc: Global, port: u16) -> Sockets {
        Sockets {
            bound: Vec::new(alloc),
            port,
            is_shared: false,
            last: 0,
        }
    }

    /// The same, and whether other processes may bind sockets to the same addresses.
    pub fn shared(mut self, is_shared: bool) -> Sockets {
        self.is_shared = is_shared;
        self
    }

    /// Binds a socket to an address, if it has none. Fails if the system refuses it, or if out of memory.
    pub fn bind<N: Net>(&mut self, net: &N, at: Locator) -> io::Result<()> {
        if self.socket_at(at).is_none() {
            let bound = Bound::bind(net, at, self.port, self.is_shared)?;
            self.bound.push(bound)?;
        }
        Ok(())
    }

    /// Closes each socket whose address isn't in `addresses`.
    pub fn keep(&mut self, addresses: &[Locator]) {
        self.bound.retain(|bound| addresses.contains(&bound.at));
    }

    /// Whether a socket is bound to an address.
    pub fn has(&self, at: Locator) -> bool {
        self.socket_at(at).is_some()
    }

    /// Whether a socket is bound to an address of the same family as `locator`.
    fn has_family_of(&self, locator: Locator) -> bool {
        self.bound
            .as_slice()
            .iter()
            .any(|bound| bound.at.width() == locator.width())
    }

    /// Whether sockets are bound to addresses of both families.
    fn has_both_families(&self) -> bool {
        let mut widths = self.bound.as_slice().iter().map(|bound| bound.at.width());
        match widths.next() {
            Some(first) => widths.any(|width| width != first),
            None => false,
        }
    }

    /// The number of sockets.
    pub fn len(&self) -> usize {
        self.bound.len()
    }

    /// The address of the socket at a place.
    pub fn at(&self, place: usize) -> Option<Locator> {
        Some(self.bound.as_slice().get(place)?.at)
    }

    /// Adds all sockets to the poll, in their order.
    pub fn add_to(&self, poll: &mut Poll) {
        for bound in self.bound.as_slice() {
            poll.add(&bound.socket);
        }
    }

    fn socket_at(&self, at: Locator) -> Option<&Bound> {
        self.bound.as_slice().iter().find(|b| b.at == at)
    }

    /// The next datagram at the socket of an address.
    fn receive_at(&self, at: Locator, buffer: &mut [u8]) -> Result<Option<Packet>, NetFault>
        ensures fits { IfOk result (λ answer. IfSome answer (λ packet. packet.len ≤ length buffer.new)) }
    {
        match self.socket_at(at) {
            Some(bound) => bound.receive(buffer),
            None => Err(NetFault::Receive),
        }
    }

    /// The next datagram at any socket. The sockets take turns.
    fn receive_any(&mut self, buffer: &mut [u8]) -> Result<Option<Packet>, NetFault>
        ensures fits { IfOk result (λ answer. IfSome answer (λ packet. packet.len ≤ length buffer.new)) }
    {
        for _place in 0..self.bound.len() {
            match self.receive_next(buffer) {
                Ok(None) => {}
                answer => return answer,
            }
        }
        Ok(None)
    }

    /// The next datagram at the socket after the one that was read last.
    fn receive_next(&mut self, buffer: &mut [u8]) -> Result<Option<Packet>, NetFault>
        ensures fits { IfOk result (λ answer. IfSome answer (λ packet. packet.len ≤ length buffer.new)) }
    {
        let next = self.last.saturating_add(1);
        self.last = if next < self.bound.len() { next } else { 0 };
        match self.bound.as_slice().get(self.last) {
            Some(bound) => bound.receive(buffer),
            None => Ok(None),
        }
    }

    /// Sends a datagram from the socket of an address. To an address of the other family, sends it from the first
    /// socket of that family.
    fn send_from(&self, at: Locator, to: Locator, port: u16, bytes: &[u8]) -> Result<(), NetFault> {
        if at.width() != to.width() {
            return self.send_any(to, port, bytes);
        }
        match self.socket_at(at) {
            Some(bound) => bound.send(to, port, bytes),
            None => Err(NetFault::Send),
        }
    }

    /// Sends a datagram from the first socket of the destination's family.
    fn send_any(&self, to: Locator, port: u16, bytes: &[u8]) -> Result<(), NetFault> {
        let mut sockets = self.bound.as_slice().iter();
        match sockets.find(|bound| bound.at.width() == to.width()) {
            Some(bound) => bound.send(to, port, bytes),
            None => Err(NetFault::Send),
        }
    }
}

/// The addresses of the sockets, each after a space.
impl fmt::Display for Sockets {
    fn fmt<W: fmt::Write>(&self, f: &mut fmt::Formatter<W>) -> fmt::Result {
        for bound in self.bound.as_slice() {
            write!(f, " {}", ip_of(bound.at))?;
        }
        Ok(())
    }
}

/// The most datagrams dropped in a round.
const MOST_DRAINED: u32 = 64;

/// The most datagrams in a row from the listening sockets while the asking sockets have some. It is small, so that
/// replies are cached before the next lookup begins, which then sends fewer requests.
const MOST_REQUESTS: u32 = 4;

/// The most datagrams in a row from the asking sockets while the listening sockets have some: three replies for each
/// request, such as those of the root, a node and a Map-Server.
const MOST_REPLIES: u32 = 3 * MOST_REQUESTS;

/// The wires of a server: each socket is that of the locator it is bound to. A datagram to an ETR of the other address
/// family goes out of the first socket of that family.
#[derive(Drop)]
pub struct ServerWires {
    pub sockets: Sockets,
}

impl Wires for ServerWires {
    fn receive(&mut self, at: Locator, buffer: &mut [u8]) -> Result<Option<Packet>, NetFault> {
        self.sockets.receive_at(at, buffer)
    }

    fn send(&mut self, at: Locator, to: Locator, port: u16, bytes: &[u8]) -> Result<(), NetFault> {
        self.sockets.send_from(at, to, port, bytes)
    }
}

/// The near wires of a resolver, to ITRs and to the servers it asks. All its sockets count as its one address.
///
/// The listening sockets take only Encapsulated Control Messages, and send the replies to ITRs. The asking sockets send
/// the resolver's own requests, and take only other messages; each has a port of the system's choice, which a forger of
/// replies must guess. A datagram goes out of the socket of its address family. A reply without such a socket goes to
/// the first ITR-RLOC of the other family.
#[derive(Drop)]
pub struct ResolverWires {
    /// The sockets that ITRs send to, at port 4342.
    pub listening: Sockets,
    /// The sockets for requests to servers.
    pub asking: Sockets,
    /// Whether the next datagram comes from the listening sockets.
    listens: bool,
    /// The number of datagrams left before the other side's turn.
    left: u32,
    /// Whether a listening socket may have a datagram.
    is_listening_ready: bool,
    /// Whether an asking socket may have a datagram.
    is_asking_ready: bool,
    /// The other addresses of replies whose own address can't be reached.
    reply_addresses: ReplyAddresses,
    /// The number of datagrams dropped at a socket that doesn't take their kind.
    pub strays: u64,
}

impl ResolverWires {
    /// Wires without sockets.
    pub fn new(alloc: Global) -> ResolverWires {
        ResolverWires {
            listening: Sockets::new(alloc, CONTROL_PORT),
            asking: Sockets::new(alloc, 0),
            listens: true,
            left: MOST_REQUESTS,
            is_listening_ready: false,
            is_asking_ready: false,
            reply_addresses: ReplyAddresses::new(alloc),
            strays: 0,
        }
    }

    /// Notes which sides may have datagrams. A side without any isn't read until the next note.
    pub fn note_ready(&mut self, is_listening_ready: bool, is_asking_ready: bool) {
        self.is_listening_ready = is_listening_ready;
        self.is_asking_ready = is_asking_ready;
    }

    /// The next datagram at the sockets of one side.
    fn receive_on(&mut self, listens: bool, buffer: &mut [u8]) -> Result<Option<Packet>, NetFault>
        ensures fits { IfOk result (λ answer. IfSome answer (λ packet. packet.len ≤ length buffer.new)) }
    {
        if !self.is_ready(listens) {
            return Ok(None);
        }
        let answer = if listens {
            self.listening.receive_any(buffer)
        } else {
            self.asking.receive_any(buffer)
        };
        if let Ok(None) = answer {
            self.note_empty(listens);
        }
        answer
    }

    fn is_ready(&self, listens: bool) -> bool {
        if listens {
            self.is_listening_ready
        } else {
            self.is_asking_ready
        }
    }

    fn note_empty(&mut self, listens: bool) {
        if listens {
            self.is_listening_ready = false;
        } else {
            self.is_asking_ready = false;
        }
    }

    /// Passes the turn to the other side.
    fn turn(&mut self) {
        self.listens = !self.listens;
        self.left = if self.listens {
            MOST_REQUESTS
        } else {
            MOST_REPLIES
        };
    }

    /// The next datagram at the sockets of the side whose turn it is.
    fn receive_here(&mut self, buffer: &mut [u8]) -> Result<Option<Packet>, NetFault>
        ensures fits { IfOk result (λ answer. IfSome answer (λ packet. packet.len ≤ length buffer.new)) }
    {
        let listens = self.listens;
        match self.receive_on(listens, buffer) {
            Ok(Some(packet)) if MessageType::Encapsulated.is_of(&buffer[..packet.len]) != listens =>
                {
                    self.strays = self.strays.saturating_add(1);
                    Err(NetFault::Receive)
                }
            Ok(Some(packet)) if listens && !self.listening.has_both_families() => {
                self.reply_addresses
                    .note(packet.from, &buffer[..packet.len]);
                Ok(Some(packet))
            }
            answer => answer,
        }
    }
}

impl Wires for ResolverWires {
    fn receive(&mut self, _at: Locator, buffer: &mut [u8]) -> Result<Option<Packet>, NetFault> {
        if self.left == 0 {
            self.turn();
        }
        self.left = self.left.saturating_sub(1);
        match self.receive_here(buffer) {
            Ok(None) => {
                self.turn();
                self.receive_here(buffer)
            }
            answer => answer,
        }
    }

    fn send(&mut self, _at: Locator, to: Locator, port: u16, bytes: &[u8]) -> Result<(), NetFault> {
        if MessageType::Encapsulated.is_of(bytes) {
            return self.asking.send_any(to, port, bytes);
        }
        let to = if self.listening.has_family_of(to) {
            to
        } else {
            self.reply_addresses.instead(to, port, bytes).unwrap_or(to)
        };
        self.listening.send_any(to, port, bytes)
    }
}

/// The far wires of a resolver, which forward requests of ITRs to Map-Servers. Datagrams that arrive there are dropped.
#[derive(Drop)]
pub struct FarWires {
    pub sockets: Sockets,
}

impl FarWires {
    /// Wires without sockets.
    pub fn new(alloc: Global) -> FarWires {
        FarWires {
            sockets: Sockets::new(alloc, 0),
        }
    }

    /// Drops the datagrams that have arrived, so that the next poll waits for new ones.
    pub fn drain(&mut self, buffer: &mut [u8]) {
        for _datagram in 0..MOST_DRAINED {
            if let Ok(None) = self.sockets.receive_any(buffer) {
                return;
            }
        }
    }
}

impl Wires for FarWires {
    fn receive(&mut self, _at: Locator, buffer: &mut [u8]) -> Result<Option<Packet>, NetFault> {
        self.sockets.receive_any(buffer)
    }

    fn send(&mut self, _at: Locator, to: Locator, port: u16, bytes: &[u8]) -> Result<(), NetFault> {
        self.sockets.send_any(to, port, bytes)
    }
}
