//! The file of registrations, which keeps them over a restart.
//!
//! The lines of a site are appended whenever its registrations have changed. Once the file has grown a lot, a successor
//! is written with the lines of each site once, some sites in each round, and renamed into its place.

use crate::input_file::read;
use crate::log::{Log, Priority};
use ddt_daemon_text::Message;
use ddt_path::Prefix;
use ddt_registrar::{
    Clock, KeyedSite, NotRestored, Registrar, SAVED_HEADER, push_site, restore_sites,
};
use ddt_trie::HashedMap;
use std::alloc::{AllocError, Global};
use std::fs::{File, OpenOptions};
use std::io::{ErrorKind, Write};
use std::os::unix::fs::OpenOptionsExt;
use std::{fs, io};

/// The most bytes of a file of registrations that is read: 1 GiB.
const MOST_BYTES: u64 = 1_073_741_824;

/// The file's mode: only its owner reads and writes it, since it has digests of secrets.
const MODE: u32 = 0o600;

/// The file is written anew once it has twice the bytes that it had after the last time, and this many more.
const GROWTH: u64 = 1_048_576;

/// The most sites whose lines are written to the successor in a round.
const MOST_SITES: usize = 256;

/// A file that is written to replace the current one.
#[derive(Drop)]
struct Successor {
    file: File,
    len: u64,
    /// The place of the next site to write.
    next: usize,
}

/// The file of registrations, if there is one.
#[derive(Drop)]
pub struct RegistrationFile<'a> {
    path: Option<&'a str>,
    /// The open file; None after a write has failed.
    file: Option<File>,
    len: u64,
    /// The bytes that the file had when it was last written anew.
    first: u64,
    successor: Option<Successor>,
    text: Vec<u8>,
    /// Whether the log has it that the file can't be written.
    is_failure_logged: bool,
    /// The second of the last try to write a file while none is open.
    tried: Option<u64>,
}

/// Restores the registrations of sites from a file, by the last lines of each site. Returns the number of lines that
/// couldn't be read. Without a file, nothing was registered.
pub fn restore(
    rt: &HostRuntime,
    path: Option<&str>,
    sites: &mut [KeyedSite],
    clock: Clock,
) -> Result<u64, Message> {
    let Some(path) = path else {
        return Ok(0);
    };
    match fs::exists(rt, path) {
        Ok(false) => return Ok(0),
        _ => {}
    }
    let bytes = read(rt, path, MOST_BYTES)?;
    match restore_sites(rt.alloc(), &bytes, sites, clock) {
        Ok(unread) => Ok(unread),
        Err(NotRestored::Header) => {
            Err(format!(in rt.alloc(); "{path}: no file of registrations"))
        }
        Err(NotRestored::Memory) => Err(Err(AllocError)),
    }
}

/// Creates a file at a path. A file that is there is removed, and no link is followed.
fn new_file(rt: &HostRuntime, path: &str) -> io::Result<File> {
    match fs::remove_file(rt, path) {
        Err(error) if error.kind() != ErrorKind::NotFound => return Err(error),
        _ => {}
    }
    let mut options = OpenOptions::new();
    options.write(true).create_new(true).mode(MODE);
    options.open(rt, path)
}

impl<'a> RegistrationFile<'a> {
    /// The file at a path. Nothing is written yet.
    pub fn new(alloc: Global, path: Option<&'a str>) -> RegistrationFile<'a> {
        RegistrationFile {
            path,
            file: None,
            len: 0,
            first: 0,
            successor: None,
            text: Vec::new(alloc),
            is_failure_logged: false,
            tried: None,
        }
    }

    /// Writes the file with all sites, and keeps it open. Fails with a message if the system refuses to write it.
    pub fn open(
        &mut self,
        rt: &HostRuntime,
        sites: &[KeyedSite],
        clock: Clock,
    ) -> Result<(), Message> {
        let Some(path) = self.path else {
            return Ok(());
        };
        match self.write_anew(rt, path, sites, clock) {
            Ok(()) => Ok(()),
            Err(error) => Err(format!(in rt.alloc(); "{path}: {error}")),
        }
    }

    fn write_anew(
        &mut self,
        rt: &HostRuntime,
        path: &str,
        sites: &[KeyedSite],
        clock: Clock,
    ) -> io::Result<()> {
        self.begin(rt, path)?;
        for _round in 0..sites.len() {
            if self.successor.is_none() {
                return Ok(());
            }
            self.write_successor(rt, path, sites, clock)?;
        }
        self.write_successor(rt, path, sites, clock)
    }

    /// Starts a successor, such as after a reload with other sites.
    pub fn renew(&mut self, rt: &HostRuntime, log: &mut Log) {
        if let Some(path) = self.path {
            let done = self.begin(rt, path);
            self.log_outcome(rt, path, done, log);
        }
    }

    /// Writes the sites that have changed, and more of the successor. `touched` has the sites that have changed; with
    /// None all may have.
    pub fn write_changes(
        &mut self,
        rt: &HostRuntime,
        registrar: &Registrar<HashedMap<u32>>,
        touched: Option<&[Prefix]>,
        clock: Clock,
        log: &mut Log,
    ) {
        let Some(path) = self.path else {
            return;
        };
        let done = self.try_to_write(rt, path, registrar, touched, clock);
        self.log_outcome(rt, path, done, log);
    }

    fn try_to_write(
        &mut self,
        rt: &HostRuntime,
        path: &str,
        registrar: &Registrar<HashedMap<u32>>,
        touched: Option<&[Prefix]>,
        clock: Clock,
    ) -> io::Result<()> {
        if self.file.is_none() && self.successor.is_none() {
            return self.begin_again(rt, path, clock.moment / 1000);
        }
        match touched {
            Some(prefixes) => self.append(registrar, prefixes, clock)?,
            None => self.begin(rt, path)?,
        }
        if self.successor.is_some() {
            return self.write_successor(rt, path, registrar.sites(), clock);
        }
        if self.is_grown() {
            // If no successor can be written, this file grows on.
            self.first = self.len;
            self.begin(rt, path)?;
        }
        Ok(())
    }

    /// Whether the file has grown so much that a successor is to be written.
    fn is_grown(&self) -> bool {
        let most = self.first.saturating_mul(2).saturating_add(GROWTH);
        self.len > most.min(MOST_BYTES / 2)
    }

    /// Starts a file while none is open, once a second.
    fn begin_again(&mut self, rt: &HostRuntime, path: &str, second: u64) -> io::Result<()> {
        if self.tried == Some(second) {
            return Ok(());
        }
        self.tried = Some(second);
        self.begin(rt, path)
    }

    /// Appends the lines of the sites that have changed.
    fn append(
        &mut self,
        registrar: &Registrar<HashedMap<u32>>,
        prefixes: &[Prefix],
        clock: Clock,
    ) -> io::Result<()> {
        self.text.clear();
        let mut last = None;
        for prefix in prefixes {
            if last != Some(*prefix)
                && let Some(site) = registrar.site(*prefix)
            {
                push_site(&mut self.text, site, clock)?;
            }
            last = Some(*prefix);
        }
        let written = self.write_text();
        if written.is_err() {
            // A part of a line may be written, so both files are given up.
            self.file = None;
            self.successor = None;
        }
        written
    }

    /// Writes the prepared lines to the open file and the successor.
    fn write_text(&mut self) -> io::Result<()> {
        let len = self.text.len() as u64;
        if let Some(file) = &mut self.file {
            file.write_all(self.text.as_slice())?;
            self.len = self.len.saturating_add(len);
        }
        if let Some(successor) = &mut self.successor {
            successor.file.write_all(self.text.as_slice())?;
            successor.len = successor.len.saturating_add(len);
        }
        Ok(())
    }

    /// Starts a successor.
    fn begin(&mut self, rt: &HostRuntime, path: &str) -> io::Result<()> {
        let mut file = new_file(rt, &format!(in rt.alloc(); "{path}.new")?)?;
        file.write_all(SAVED_HEADER.as_bytes())?;
        self.successor = Some(Successor {
            file,
            len: SAVED_HEADER.len() as u64,
            next: 0,
        });
        Ok(())
    }

    /// Writes some more sites to the successor. After the last site, it replaces the file.
    fn write_successor(
        &mut self,
        rt: &HostRuntime,
        path: &str,
        sites: &[KeyedSite],
        clock: Clock,
    ) -> io::Result<()> {
        let Some(mut successor) = self.successor.take() else {
            return Ok(());
        };
        let first = successor.next.min(sites.len());
        let last = first.saturating_add(MOST_SITES).min(sites.len());
        self.prepare_sites(&sites[first..last], clock)?;
        successor.file.write_all(self.text.as_slice())?;
        successor.len = successor.len.saturating_add(self.text.len() as u64);
        successor.next = last;
        if last < sites.len() {
            self.successor = Some(successor);
            return Ok(());
        }
        fs::rename(rt, &format!(in rt.alloc(); "{path}.new")?, path)?;
        self.first = successor.len;
        self.len = successor.len;
        self.file = Some(successor.file);
        Ok(())
    }

    /// Prepares the lines of the sites of which there is something to keep.
    fn prepare_sites(&mut self, sites: &[KeyedSite], clock: Clock) -> Result<(), AllocError> {
        self.text.clear();
        for site in sites {
            if site.has_registered || !site.nonces.is_empty() {
                push_site(&mut self.text, site, clock)?;
            }
        }
        Ok(())
    }

    /// Logs once that the file can't be written, and once that it can be written again.
    fn log_outcome(&mut self, rt: &HostRuntime, path: &str, done: io::Result<()>, log: &mut Log) {
        match done {
            Ok(()) if self.is_failure_logged && self.file.is_some() => {
                self.is_failure_logged = false;
                let line = format!(in rt.alloc(); "registrations are kept again: {path}");
                log.say(rt, Priority::Notice, line);
            }
            Ok(()) => {}
            Err(error) if !self.is_failure_logged => {
                self.is_failure_logged = true;
                let line = format!(in rt.alloc(); "registrations aren't kept: {path}: {error}");
                log.say(rt, Priority::Warning, line);
            }
            Err(_) => {}
        }
    }
}
