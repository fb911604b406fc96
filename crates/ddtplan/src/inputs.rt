//! What commands read and print over the files and the streams of a process.

use ddt_check::Accepted;
use ddt_path::{Prefix, Xeid};
use ddt_plan_commands::{ExitStatus, register_of};
use ddt_text::{parse_prefix, parse_xeid};
use std::alloc::{AllocError, Global};
use std::fs::File;
use std::io::{Read, Stdin, Write};
use std::{fs, io};

/// The failure of a command: the reason, in words, or no memory for them.
pub type Failure = Result<String, AllocError>;

/// Returns the failure of a refused allocation.
pub fn no_memory(refused: AllocError) -> Failure {
    Err(refused)
}

/// The source of a register's bytes.
#[derive(Drop)]
pub enum Source {
    File(File),
    Stdin(Stdin),
}

impl Read for Source {
    fn read(&mut self, buf: &mut [u8]) -> io::Result<usize> {
        match self {
            Source::File(file) => file.read(buf),
            Source::Stdin(stdin) => stdin.read(buf),
        }
    }
}

/// Returns the source at a path, where `-` is standard input; None if it can't be opened.
pub fn source_at(rt: &HostRuntime, path: &str) -> Option<Source> {
    match path {
        "-" => Some(Source::Stdin(rt.stdin())),
        path => fs::open(rt, path).ok().map(Source::File),
    }
}

/// Returns all bytes of the source at a path.
pub fn bytes_at(rt: &HostRuntime, path: &str) -> Result<Vec<u8>, Failure> {
    let Some(mut source) = source_at(rt, path) else {
        return Err(format!(in rt.alloc(); "cannot open {path}"));
    };
    let mut bytes = Vec::new(rt.alloc());
    match source.read_to_end(&mut bytes) {
        Ok(_count) => Ok(bytes),
        Err(error) => Err(format!(in rt.alloc(); "{path}: {error}")),
    }
}

/// Returns the accepted register in the bytes of a path.
pub fn accepted_in(rt: &HostRuntime, path: &str, bytes: &[u8]) -> Result<Accepted, Failure> {
    match register_of(rt.alloc(), Some(bytes), path) {
        Ok(accepted) => Ok(accepted),
        Err(refusal) => Err(format!(in rt.alloc(); "{refusal}")),
    }
}

/// Returns the accepted register at a path.
pub fn accepted_at(rt: &HostRuntime, path: &str) -> Result<Accepted, Failure> {
    let bytes = bytes_at(rt, path)?;
    accepted_in(rt, path, &bytes)
}

/// Returns the identifier that a word spells.
pub fn xeid_in(rt: &HostRuntime, word: &str) -> Result<Xeid, Failure> {
    match parse_xeid(word.as_bytes()) {
        Ok(xeid) => Ok(xeid),
        Err(fault) => Err(format!(in rt.alloc(); "bad identifier {fault}")),
    }
}

/// Returns the prefix that a word spells.
pub fn prefix_in(rt: &HostRuntime, word: &str) -> Result<Prefix, Failure> {
    match parse_prefix(word.as_bytes()) {
        Ok(prefix) => Ok(prefix),
        Err(fault) => Err(format!(in rt.alloc(); "bad prefix {fault}")),
    }
}

/// Prints an answer with its control characters escaped. Returns the given exit status, or Unprinted if standard output
/// doesn't take all.
pub fn print(rt: &HostRuntime, answer: &[u8], end: ExitStatus) -> ExitStatus {
    let mut out = rt.stdout();
    match write_shown(rt.alloc(), &mut out, answer) {
        Ok(()) => end,
        Err(_error) => ExitStatus::Unprinted,
    }
}

/// Writes a line to standard error with its control characters escaped.
pub fn say(rt: &HostRuntime, line: &str) {
    let mut err = rt.stderr();
    let _ = write_shown(rt.alloc(), &mut err, line.as_bytes());
    let _ = err.write_all(b"\n");
}

/// Writes the reason why a list was refused to standard error, escaped in the same way. If it is empty, memory was
/// refused.
pub fn say_why(rt: &HostRuntime, end: ExitStatus, why: &[u8]) {
    if why.is_empty() && end == ExitStatus::Refused {
        say(rt, "out of memory");
    } else {
        let _ = write_shown(rt.alloc(), &mut rt.stderr(), why);
    }
}

/// Writes a text with its control characters escaped, except tabs and line feeds: a file name or a word must not move a
/// terminal's cursor.
fn write_shown<W: Write>(alloc: Global, out: &mut W, text: &[u8]) -> io::Result<()> {
    if text.iter().any(|byte| is_control(*byte)) {
        let shown = escaped(alloc, text)?;
        out.write_all(shown.as_slice())?;
    } else {
        out.write_all(text)?;
    }
    out.flush()
}

/// Returns a text with `\xNN` for each control character but tabs and line feeds.
fn escaped(alloc: Global, text: &[u8]) -> Result<Vec<u8>, AllocError> {
    let mut shown = Vec::new(alloc);
    for byte in text {
        if is_control(*byte) {
            let escape = format!(in alloc; "\\x{byte:02x}")?;
            shown.extend_from_slice(escape.as_bytes())?;
        } else {
            shown.push(*byte)?;
        }
    }
    Ok(shown)
}

/// Returns whether a byte is an ASCII control character, but no tab and no line feed.
fn is_control(byte: u8) -> bool {
    byte.is_ascii_control() && byte != b'\t' && byte != b'\n'
}
