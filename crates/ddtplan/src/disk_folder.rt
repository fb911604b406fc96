//! A folder on a disk, to which configurations are published.

use crate::inputs::Failure;
use crate::new_file::{new_file, write_whole};
use ddt_deploy::folders::{FileName, Folder, Plan, PublishFault};
use std::alloc::{AllocError, Global};
use std::fs::{File, TryLockError};
use std::io::ErrorKind;
use std::{fs, io};

/// A folder on a disk. Others may write there too, so nothing is known of what it holds.
#[derive(Drop)]
pub struct DiskFolder<'a> {
    rt: &'a HostRuntime,
    path: &'a str,
    /// The folder itself, whose lock keeps other runs out. The system drops the lock when the process ends, however it
    /// ends.
    locked: File,
    /// The path of the file that was written beside one and isn't in its place yet.
    beside: Option<String>,
}

impl<'a> DiskFolder<'a> {
    /// The folder at a path, locked for this run. Refused if there is none, and if another run has the lock.
    pub fn open(rt: &'a HostRuntime, path: &'a str) -> Result<DiskFolder<'a>, Failure> {
        let locked = match opened(rt, path) {
            Ok(Some(locked)) => locked,
            Ok(None) => return Err(format!(in rt.alloc(); "{path}: not a folder")),
            Err(error) => return Err(format!(in rt.alloc(); "{path}: {error}")),
        };
        match locked.try_lock() {
            Ok(()) => Ok(DiskFolder {
                rt,
                path,
                locked,
                beside: None,
            }),
            Err(error) => Err(unlocked(rt, path, error)),
        }
    }

    /// The path of a name in the folder.
    fn path_of(&self, name: &[u8]) -> io::Result<String> {
        let name = std::str::from_utf8(name).unwrap_or("");
        Ok(format!(in self.rt.alloc(); "{}/{name}", self.path)?)
    }

    /// The path of a file in the folder.
    fn path_at(&self, name: FileName) -> io::Result<String> {
        self.path_of(name.text(self.rt.alloc())?.as_slice())
    }

    /// A new file beside one, and its path.
    fn new_beside(&self, name: FileName) -> io::Result<(File, String)> {
        new_file(self.rt, |mark| {
            self.path_of(name.text_beside(self.rt.alloc(), mark)?.as_slice())
        })
    }

    /// Removes the file at a path, which a step that failed wrote. If that fails too, it is left.
    fn discard(&self, path: &str) {
        let _ = fs::remove_file(self.rt, path);
    }

    /// Forces the names of the files to the disk.
    fn sync(&self) -> io::Result<()> {
        self.locked.sync_all()
    }
}

/// Opens a folder; None if the path is of something else.
fn opened(rt: &HostRuntime, path: &str) -> io::Result<Option<File>> {
    if !fs::metadata(rt, path)?.is_dir() {
        return Ok(None);
    }
    Ok(Some(File::open(rt, path)?))
}

/// Why a folder isn't locked.
fn unlocked(rt: &HostRuntime, path: &str, error: TryLockError) -> Failure {
    match error {
        TryLockError::WouldBlock => {
            format!(in rt.alloc(); "{path}: another run of compile has its lock")
        }
        TryLockError::Error(error) => {
            format!(in rt.alloc(); "{path}: it can't be locked: {error}")
        }
    }
}

impl Folder for DiskFolder<'_> {
    ghost holds = { λ folder contents. ⊥ };

    type Fault = io::Error;

    fn read(&mut self, _alloc: Global, name: FileName) -> Result<Option<Vec<u8>>, io::Error> {
        let path = self.path_at(name)?;
        match fs::read(self.rt, path.as_str()) {
            Ok(bytes) => Ok(Some(bytes)),
            Err(error) if error.kind() == ErrorKind::NotFound => Ok(None),
            Err(error) => Err(error),
        }
    }

    fn write_beside(&mut self, name: FileName, bytes: &[u8]) -> Result<(), io::Error> {
        let (file, path) = self.new_beside(name)?;
        match write_whole(file, bytes) {
            Ok(()) => {
                self.beside = Some(path);
                Ok(())
            }
            Err(error) => {
                self.discard(path.as_str());
                Err(error)
            }
        }
    }

    fn put_in_place(&mut self, name: FileName) -> Result<(), io::Error> {
        let path = self.path_at(name)?;
        let Some(beside) = self.beside.take() else {
            return Err(io::Error::from(ErrorKind::NotFound));
        };
        match fs::rename(self.rt, beside.as_str(), path.as_str()) {
            Ok(()) => Ok(()),
            Err(error) => {
                self.discard(beside.as_str());
                Err(error)
            }
        }
    }

    fn remove(&mut self, name: FileName) -> Result<(), io::Error> {
        let path = self.path_at(name)?;
        fs::remove_file(self.rt, path.as_str())
    }
}

/// Returns the plan that was carried out in a folder, once the names of the files are forced to the disk.
pub fn carried_out(
    folder: &DiskFolder<'_>,
    done: Result<Plan, PublishFault<io::Error>>,
) -> Result<Plan, Failure> {
    let (rt, path) = (folder.rt, folder.path);
    match done {
        Ok(plan) => match folder.sync() {
            Ok(()) => Ok(plan),
            Err(error) => Err(format!(in rt.alloc(); "{path}: {error}")),
        },
        Err(PublishFault::Memory) => Err(Err(AllocError)),
        Err(PublishFault::Failed { name, fault }) => Err(failed(rt, path, name, fault)),
    }
}

/// Where the folder at a path failed, and why.
pub fn failed(rt: &HostRuntime, path: &str, name: FileName, fault: io::Error) -> Failure {
    let path = shown_path(rt, path, name)?;
    format!(in rt.alloc(); "{path}: {fault}")
}

/// The path of a file of the folder at a path.
pub fn shown_path(rt: &HostRuntime, folder: &str, name: FileName) -> Result<String, AllocError> {
    let name = name.text(rt.alloc())?;
    let name = std::str::from_utf8(name.as_slice()).unwrap_or("");
    format!(in rt.alloc(); "{folder}/{name}")
}
