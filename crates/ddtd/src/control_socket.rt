//! The control socket: a client sends one line, gets one answer, and is disconnected.

use crate::file_identity::FileIdentity;
use crate::poll::Poll;
use crate::system_clock::pause;
use ddt_daemon::ControlWord;
use ddt_daemon_text::{ControlLine, LineState, Message};
use std::alloc::Global;
use std::io::{ErrorKind, Read, Write};
use std::os::unix::fs::FileTypeExt;
use std::os::unix::net::{UnixListener, UnixStream};
use std::{fs, io};

/// The most clients at once; one more disconnects the oldest.
const MOST_CLIENTS: usize = 8;

/// The most tries to write the unsent answers before the daemon ends, 10 milliseconds apart.
const MOST_TRIES: u32 = 100;

/// A connected client, and the bytes that it has sent.
#[derive(Drop)]
struct Client {
    stream: UnixStream,
    line: ControlLine,
}

impl Client {
    /// Reads the bytes that are available. Returns what has been received of the line.
    fn read(&mut self) -> LineState {
        match self.stream.read(self.line.room()) {
            Ok(0) => LineState::Over,
            Ok(count) => self.line.add(count),
            Err(error) if error.kind() == ErrorKind::WouldBlock => LineState::Partial,
            Err(_) => LineState::Over,
        }
    }
}

/// A command that a client has sent, and the client's stream, which still gets the answer.
#[derive(Drop)]
pub struct ControlRequest {
    stream: UnixStream,
    /// The command; None if the word is unknown.
    pub word: Option<ControlWord>,
    /// The text after the word: a prefix or an identifier, or empty.
    pub argument: String,
}

/// An answer that isn't written to the end yet.
#[derive(Drop)]
struct UnsentAnswer {
    stream: UnixStream,
    answer: String,
    /// The number of bytes written.
    written: usize,
}

impl UnsentAnswer {
    /// Writes as much as the stream takes now. Returns whether something is left.
    fn write(&mut self) -> bool {
        let Some(rest) = self.answer.as_bytes().get(self.written..) else {
            return false;
        };
        match self.stream.write(rest) {
            Ok(0) => false,
            Ok(count) => {
                self.written = self.written.saturating_add(count);
                self.written < self.answer.len()
            }
            Err(error) => error.kind() == ErrorKind::WouldBlock,
        }
    }
}

/// The control socket with its clients; without a path, a socket that nobody can reach.
#[derive(Drop)]
pub struct Control {
    alloc: Global,
    listener: Option<UnixListener>,
    /// The identity of the socket's file.
    file: Option<FileIdentity>,
    clients: Vec<Client>,
    unsent: Vec<UnsentAnswer>,
    /// The second in which `accept` last failed.
    refused_in: Option<u64>,
}

impl Control {
    /// Opens the control socket at `path`, and replaces one there at which no process listens any more. Refuses an
    /// empty path, and whatever the system refuses, with a message.
    pub fn open(rt: &HostRuntime, path: Option<&str>) -> Result<Control, Message> {
        let Some(path) = path else {
            return Ok(Control::new(rt.alloc(), None, None));
        };
        match listen_at(rt, path) {
            Ok((listener, file)) => Ok(Control::new(rt.alloc(), Some(listener), Some(file))),
            Err(error) => Err(format!(in rt.alloc(); "the control socket: {error}")),
        }
    }

    /// A control socket without clients.
    fn new(alloc: Global, listener: Option<UnixListener>, file: Option<FileIdentity>) -> Control {
        Control {
            alloc,
            listener,
            file,
            clients: Vec::new(alloc),
            unsent: Vec::new(alloc),
            refused_in: None,
        }
    }

    /// Removes the socket's file at `path`, unless another file has replaced it.
    pub fn remove_file(&self, rt: &HostRuntime, path: Option<&str>) {
        let Some(path) = path else {
            return;
        };
        let Ok(metadata) = fs::symlink_metadata(rt, path) else {
            return;
        };
        if self.file == Some(FileIdentity::of(&metadata)) {
            let _removed = fs::remove_file(rt, path);
        }
    }

    /// Adds to the poll, in this order, the clients, the streams of unsent answers, and the listener. The listener is
    /// left out in a second in which `accept` has failed.
    pub fn add_to(&self, poll: &mut Poll, second: u64) {
        for client in self.clients.as_slice() {
            poll.add(&client.stream);
        }
        self.add_unsent_to(poll);
        if let Some(listener) = &self.listener
            && self.refused_in != Some(second)
        {
            poll.add(listener);
        }
    }

    fn add_unsent_to(&self, poll: &mut Poll) {
        for answer in self.unsent.as_slice() {
            poll.add_writer(&answer.stream);
        }
    }

    /// The next command, from the first client that has sent a whole line. The places of the poll from `first` on are
    /// those of `add_to`. Also writes unsent answers and accepts a client.
    pub fn take(&mut self, poll: &Poll, first: usize, second: u64) -> Option<ControlRequest> {
        let clients = self.clients.len();
        let listener = first
            .saturating_add(clients)
            .saturating_add(self.unsent.len());
        if !self.unsent.is_empty() {
            self.unsent.retain_mut(|answer| answer.write());
        }
        for place in 0..clients {
            if poll.is_ready(first.saturating_add(place)) {
                return self.read(place);
            }
        }
        if poll.is_ready(listener) {
            self.accept(second);
        }
        None
    }

    /// Writes what is left of the answers, for at most one second.
    pub fn finish(&mut self, rt: &HostRuntime) {
        for _try in 0..MOST_TRIES {
            if self.unsent.is_empty() {
                return;
            }
            pause(rt);
            self.unsent.retain_mut(|answer| answer.write());
        }
    }

    /// Writes an answer as far as the stream takes it, and keeps the rest. An answer for which there was no memory is
    /// lost; so is the oldest unsent answer if there are too many.
    pub fn answer(&mut self, request: ControlRequest, answer: Message) {
        let Ok(answer) = answer else {
            return;
        };
        let mut unsent = UnsentAnswer {
            stream: request.stream,
            answer,
            written: 0,
        };
        if !unsent.write() {
            return;
        }
        if self.unsent.len() >= MOST_CLIENTS {
            let _first = self.unsent.remove(0);
        }
        let _added = self.unsent.push(unsent);
    }

    /// Reads from the client at a place. Returns its command once the line is whole.
    fn read(&mut self, place: usize) -> Option<ControlRequest> {
        if place >= self.clients.len() {
            return None;
        }
        match self.clients[place].read() {
            LineState::Partial => None,
            LineState::Over => {
                let _client = self.clients.remove(place);
                None
            }
            LineState::Whole => {
                let client = self.clients.remove(place);
                request_of(self.alloc, client)
            }
        }
    }

    /// Accepts a client.
    fn accept(&mut self, second: u64) {
        let Some(listener) = &self.listener else {
            return;
        };
        match listener.accept() {
            Ok((stream, _address)) => self.add(stream),
            Err(error) if error.kind() == ErrorKind::WouldBlock => {}
            // Such as too many open files: the client is still there in the next second.
            Err(_) => self.refused_in = Some(second),
        }
    }

    /// Adds a client, and disconnects the oldest one if there are too many.
    fn add(&mut self, stream: UnixStream) {
        if stream.set_nonblocking(true).is_err() {
            return;
        }
        if self.clients.len() >= MOST_CLIENTS {
            let _longest = self.clients.remove(0);
        }
        let _added = self.clients.push(Client {
            stream,
            line: ControlLine::new(),
        });
    }
}

/// Listens at `path`. Returns also the identity of the socket's file.
fn listen_at(rt: &HostRuntime, path: &str) -> io::Result<(UnixListener, FileIdentity)> {
    let listener = listen(rt, path)?;
    let metadata = fs::symlink_metadata(rt, path)?;
    Ok((listener, FileIdentity::of(&metadata)))
}

fn listen(rt: &HostRuntime, path: &str) -> io::Result<UnixListener> {
    // For an empty path the system would choose an abstract address, which any process can connect to.
    if path.is_empty() {
        return Err(io::Error::new(ErrorKind::InvalidInput, "its path is empty"));
    }
    let listener = match UnixListener::bind(rt, path) {
        Err(error) if error.kind() == ErrorKind::AddrInUse => listen_again(rt, path)?,
        bound => bound?,
    };
    listener.set_nonblocking(true)?;
    Ok(listener)
}

/// Replaces a socket at which no process listens. Any other file stays, and is refused.
fn listen_again(rt: &HostRuntime, path: &str) -> io::Result<UnixListener> {
    let is_socket = fs::symlink_metadata(rt, path)?.file_type().is_socket();
    if !is_socket || UnixStream::connect(rt, path).is_ok() {
        return Err(ErrorKind::AddrInUse.into());
    }
    fs::remove_file(rt, path)?;
    UnixListener::bind(rt, path)
}

/// The command on a client's line. None if out of memory; the client is then disconnected.
fn request_of(alloc: Global, client: Client) -> Option<ControlRequest> {
    let (word, argument) = client.line.parts();
    let word = ControlWord::of(word);
    let argument = String::from_str(alloc, argument).ok()?;
    Some(ControlRequest {
        stream: client.stream,
        word,
        argument,
    })
}
