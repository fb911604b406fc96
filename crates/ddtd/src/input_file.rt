//! Reading a file: it must be a regular file, and not larger than its limit.

use ddt_daemon_text::Message;
use std::alloc::Global;
use std::fs::File;
use std::io::Read;
use std::os::unix::fs::PermissionsExt;
use std::{fs, io};

/// The most bytes of a configuration: 64 MiB.
pub const MOST_CONFIGURATION: u64 = 67_108_864;

/// The most bytes of the settings of a resolver: 1 MiB.
pub const MOST_SETTINGS: u64 = 1_048_576;

/// The most bytes of a file of keys: 64 MiB.
pub const MOST_KEYS: u64 = 67_108_864;

/// The mode bits that give users other than the owner any access.
const OTHERS: u32 = 0o077;

/// The content of a path.
#[derive(Drop)]
enum Found {
    Bytes(Vec<u8>),
    /// A folder, a FIFO, a device or a socket.
    NoFile,
    /// More bytes than the limit.
    TooLarge,
}

/// The bytes of the regular file at a path, at most `most`. Any other kind of file is refused without opening it, so
/// that nothing waits for a writer of a FIFO.
pub fn read(rt: &HostRuntime, path: &str, most: u64) -> Result<Vec<u8>, Message> {
    match find(rt, path, most) {
        Ok(Found::Bytes(bytes)) => Ok(bytes),
        Ok(Found::NoFile) => Err(format!(in rt.alloc(); "{path}: no regular file")),
        Ok(Found::TooLarge) => Err(with_path(rt, path, too_large(rt.alloc(), most))),
        Err(error) => Err(format!(in rt.alloc(); "{path}: {error}")),
    }
}

/// The bytes of the regular file at a path. Refuses a file that users other than its owner may read or write.
pub fn read_secret(rt: &HostRuntime, path: &str, most: u64) -> Result<Vec<u8>, Message> {
    match refuse_shared(rt, path) {
        Ok(()) => read(rt, path, most),
        Err(why) => Err(with_path(rt, path, why)),
    }
}

/// Refuses a file that users other than its owner may read or write. The message is without the path.
pub fn refuse_shared(rt: &HostRuntime, path: &str) -> Result<(), Message> {
    match fs::metadata(rt, path) {
        Ok(metadata) if metadata.permissions().mode() & OTHERS == 0 => Ok(()),
        Ok(_) => Err(format!(in rt.alloc(); "others than its owner may read or write it")),
        Err(error) => Err(format!(in rt.alloc(); "{error}")),
    }
}

/// The message for a file that has more than `most` bytes.
pub fn too_large(alloc: Global, most: u64) -> Message {
    format!(in alloc; "larger than {most} bytes")
}

/// The message after the path and a colon.
pub fn with_path(rt: &HostRuntime, path: &str, text: Message) -> Message {
    let text = text?;
    format!(in rt.alloc(); "{path}: {text}")
}

fn find(rt: &HostRuntime, path: &str, most: u64) -> io::Result<Found> {
    let metadata = fs::metadata(rt, path)?;
    if !metadata.is_file() {
        return Ok(Found::NoFile);
    }
    if metadata.len() > most {
        return Ok(Found::TooLarge);
    }
    // The file may have grown since.
    let mut bytes = Vec::with_capacity(rt.alloc(), (metadata.len() as usize).saturating_add(1))?;
    let mut file = File::open(rt, path)?.take(most.saturating_add(1));
    file.read_to_end(&mut bytes)?;
    if bytes.len() as u64 > most {
        Ok(Found::TooLarge)
    } else {
        Ok(Found::Bytes(bytes))
    }
}
