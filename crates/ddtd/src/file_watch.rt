//! Watches files for changes (`--watch`).

use crate::file_identity::FileIdentity;
use std::alloc::{AllocError, Global};
use std::fs;
use std::os::unix::fs::MetadataExt;
use std::time::SystemTime;

/// What identifies a file's content. A file that is renamed into place has another identity, even with the same length
/// and time. A file that is written in place has another time of change, whatever its modification time is set to.
#[derive(Clone, Copy, PartialEq, Eq)]
struct Look {
    file: FileIdentity,
    modified: SystemTime,
    /// The seconds and nanoseconds of its last change.
    changed: (i64, i64),
    len: u64,
}

/// A watched file, and what was seen of it.
#[derive(Clone, Copy)]
struct Watch<'a> {
    path: &'a str,
    /// What was seen when it was last loaded.
    loaded: Option<Look>,
    /// What was seen at the last look.
    last: Option<Look>,
}

impl Watch<'_> {
    /// Looks at the file. Returns whether it has changed: the last two looks are the same, and aren't what was loaded.
    fn has_changed(&mut self, rt: &HostRuntime) -> bool {
        let look = look_at(rt, self.path);
        let is_changed = look.is_some() && look == self.last && look != self.loaded;
        self.last = look;
        if is_changed {
            self.loaded = look;
        }
        is_changed
    }
}

/// The watched files. All are reloaded when one has changed.
#[derive(Drop)]
pub struct Watches<'a> {
    files: Vec<Watch<'a>>,
}

impl<'a> Watches<'a> {
    /// A watch of no file.
    pub fn new(alloc: Global) -> Watches<'a> {
        Watches {
            files: Vec::new(alloc),
        }
    }

    /// Adds a file, which is loaded now.
    pub fn add(&mut self, rt: &HostRuntime, path: &'a str) -> Result<(), AllocError> {
        let look = look_at(rt, path);
        self.files.push(Watch {
            path,
            loaded: look,
            last: look,
        })?;
        Ok(())
    }

    /// Looks at each file. Returns whether one has changed.
    pub fn have_changed(&mut self, rt: &HostRuntime) -> bool {
        let mut changed = false;
        for file in &mut self.files {
            changed |= file.has_changed(rt);
        }
        changed
    }
}

fn look_at(rt: &HostRuntime, path: &str) -> Option<Look> {
    let metadata = fs::metadata(rt, path).ok()?;
    Some(Look {
        file: FileIdentity::of(&metadata),
        modified: metadata.modified().ok()?,
        changed: (metadata.ctime(), metadata.ctime_nsec()),
        len: metadata.len(),
    })
}
