//! A new file, of a name that nobody can foresee, and its bytes.

use ddt_path::Name;
use std::fs::File;
use std::io;
use std::io::{ErrorKind, Write};
use std::random::RandomSource;

/// How many names are tried for a new file where each is taken.
const NAMES: u32 = 8;

/// Returns a new file, and its path. Nobody can foresee the path, which `path_of` gives for a mark, and if something
/// has it already another one is tried: neither a file nor a link that somebody put there is ever opened.
pub fn new_file<F>(rt: &HostRuntime, path_of: F) -> io::Result<(File, String)>
where
    F: Fn(Name) -> io::Result<String> + Drop,
    requires { F.IsAlwaysCallable path_of }
{
    for _try in 0..NAMES {
        let path = path_of(random_mark(rt)?)?;
        match File::create_new(rt, path.as_str()) {
            Ok(file) => return Ok((file, path)),
            Err(error) if error.kind() == ErrorKind::AlreadyExists => {}
            Err(error) => return Err(error),
        }
    }
    Err(io::Error::from(ErrorKind::AlreadyExists))
}

/// Returns a name that nobody can foresee, of decimal digits.
fn random_mark(rt: &HostRuntime) -> io::Result<Name> {
    let mut bytes = [0u8; 8];
    rt.fill_bytes(&mut bytes)?;
    let digits = format!(in rt.alloc(); "{}", u64::from_le_bytes(bytes))?;
    Name::of(digits.as_bytes()).ok_or(io::Error::from(ErrorKind::InvalidData))
}

/// Writes all bytes, and forces them to the disk.
pub fn write_whole(mut file: File, bytes: &[u8]) -> io::Result<()> {
    file.write_all(bytes)?;
    file.sync_all()
}
