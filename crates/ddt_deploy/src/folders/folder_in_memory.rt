//! A folder in memory for tests, which can be made to fail at any call.

ghost use Rattle.std.specs.Prelude.{◌≡◌, ◌+◌, None, Some, IfOk, OnOk, OnErr};
ghost use Rattle.std.specs.Option.{option_map};
ghost use Rattle.ddt_deploy.specs.declared.folders.file_name.FileName.{FileName as AName};
ghost use Rattle.ddt_deploy.specs.Folders.Contents.{put};
ghost use Rattle.ddt_deploy.specs.Folders.Memory.{HoldsOf, held};

use crate::folders::file_name::FileName;
use crate::folders::folder::Folder;
use ddt_path::{Listed, Name};
use std::alloc::{AllocError, AllocFailed, Global};
use std::collections::BTreeMap;

/// Why a call of a folder in memory failed.
#[derive(Clone, Copy, Debug, PartialEq, Eq)]
pub enum MemoryFault {
    /// The failure that `fail_after` asked for.
    Injected,
    /// There is no such file.
    Missing,
    /// Out of memory, or the number of touched files overflows.
    Full,
}

impl From<AllocError> for MemoryFault {
    fn from(_refused: AllocError) -> MemoryFault {
        MemoryFault::Full
    }
}

impl<T: Drop> From<AllocFailed<T>> for MemoryFault {
    fn from(_refused: AllocFailed<T>) -> MemoryFault {
        MemoryFault::Full
    }
}

/// Files by their names.
#[derive(Drop)]
pub struct Files {
    register: Option<Listed<u8>>,
    configs: BTreeMap<Name, Listed<u8>>,
    manifest: Option<Listed<u8>>,
}

impl Files {
    /// Returns no files.
    fn none(alloc: Global) -> Files
        ensures { (name : AName) → held result name ≡ None }
    {
        Files {
            register: None,
            configs: BTreeMap::new(alloc),
            manifest: None,
        }
    }

    fn get(&self, name: &FileName) -> Option<&[u8]>
        ensures { option_map (λ bytes. bytes.now) result ≡ held self.now name.now }
    {
        let found = match name {
            FileName::Register => self.register.as_ref(),
            FileName::Config(name) => self.configs.get(name),
            FileName::Manifest => self.manifest.as_ref(),
        };
        Some(found?.as_slice())
    }

    /// Puts a file there. If out of memory, nothing changes.
    fn put(&mut self, name: &FileName, bytes: Listed<u8>) -> Result<(), AllocError>
        ensures put { OnOk result ((other : AName) → held self.new other
            ≡ put name.now (Some bytes) (held self.old) other) }
        ensures refused { OnErr result ((other : AName) → held self.new other ≡ held self.old other) }
    {
        match name {
            FileName::Register => self.register = Some(bytes),
            FileName::Config(name) => {
                self.configs.insert(*name, bytes)?;
            }
            FileName::Manifest => self.manifest = Some(bytes),
        }
        Ok(())
    }

    /// Removes a file.
    fn take(&mut self, name: &FileName)
        ensures { (other : AName) → held self.new other ≡ put name.now None (held self.old) other }
    {
        match name {
            FileName::Register => self.register = None,
            FileName::Config(name) => {
                self.configs.remove(name);
            }
            FileName::Manifest => self.manifest = None,
        }
    }
}

/// A folder in memory.
#[derive(Drop)]
pub struct FolderInMemory {
    alloc: Global,
    files: Files,
    beside: Files,
    /// The number of files that were put in place or removed.
    touches: u64,
    /// The number of calls that succeed before all others fail; None if none fails.
    calls: Option<u64>,
}

impl FolderInMemory {
    /// Returns an empty folder.
    pub fn new(alloc: Global) -> FolderInMemory {
        FolderInMemory {
            alloc,
            files: Files::none(alloc),
            beside: Files::none(alloc),
            touches: 0,
            calls: None,
        }
    }

    /// Makes the calls after the next `calls` fail, until it is set again; with None none fails.
    pub fn fail_after(&mut self, calls: Option<u64>) {
        self.calls = calls;
    }

    /// Returns the bytes of a file; None if there is none.
    pub fn bytes(&self, name: FileName) -> Option<&[u8]>
        ensures { option_map (λ bytes. bytes.now) result ≡ held self.now.files name }
    {
        self.files.get(&name)
    }

    /// Returns the bytes of the file beside one; None if there is none.
    pub fn bytes_beside(&self, name: FileName) -> Option<&[u8]>
        ensures { option_map (λ bytes. bytes.now) result ≡ held self.now.beside name }
    {
        self.beside.get(&name)
    }

    /// Returns the number of files that were put in place or removed.
    pub fn touches(&self) -> u64
        ensures { result ≡ self.now.touches }
    {
        self.touches
    }

    /// Puts a file there, as another program would.
    pub fn set(&mut self, name: FileName, bytes: &[u8]) -> Result<(), AllocError>
        ensures { OnOk result ((other : AName) → held self.new.files other
            ≡ put name (Some bytes.now) (held self.old.files) other) }
    {
        let bytes = Vec::from_slice(self.alloc, bytes)?;
        self.files.put(&name, Listed::of(bytes))
    }

    /// Counts a call. Refused as Injected if it has to fail.
    fn begin(&mut self) -> Result<(), MemoryFault>
        ensures files { self.new.files ≡ self.old.files }
        ensures beside { self.new.beside ≡ self.old.beside }
        ensures touches { self.new.touches ≡ self.old.touches }
    {
        match self.calls {
            Some(0) => Err(MemoryFault::Injected),
            Some(calls) => {
                self.calls = Some(calls - 1);
                Ok(())
            }
            None => Ok(()),
        }
    }

    /// Returns the number of touched files and one more.
    fn one_touch_more(&self) -> Result<u64, MemoryFault>
        ensures { IfOk result (λ touches. touches ≡ self.now.touches + 1) }
    {
        self.touches.checked_add(1).ok_or(MemoryFault::Full)
    }

    /// Puts a file beside that of this name. If out of memory, nothing changes.
    fn put_beside(&mut self, name: &FileName, bytes: &[u8]) -> Result<(), MemoryFault>
        ensures files { self.new.files ≡ self.old.files }
        ensures touches { self.new.touches ≡ self.old.touches }
        ensures put { OnOk result ((other : AName) → held self.new.beside other
            ≡ put name.now (Some bytes.now) (held self.old.beside) other) }
        ensures refused { OnErr result ((other : AName) → held self.new.beside other ≡ held self.old.beside other) }
    {
        let bytes = Vec::from_slice(self.alloc, bytes)?;
        self.beside.put(name, Listed::of(bytes))?;
        Ok(())
    }

    /// Returns the bytes of the file beside that of this name. Refused as Missing if there is none.
    fn copy_beside(&self, name: &FileName) -> Result<Listed<u8>, MemoryFault>
        ensures { IfOk result (λ bytes. held self.now.beside name.now ≡ Some bytes) }
    {
        match self.beside.get(name) {
            Some(bytes) => Ok(Listed::of(Vec::from_slice(self.alloc, bytes)?)),
            None => Err(MemoryFault::Missing),
        }
    }
}

impl Folder for FolderInMemory {
    type Fault = MemoryFault;

    ghost holds = { HoldsOf };

    fn read(&mut self, alloc: Global, name: FileName) -> Result<Option<Vec<u8>>, MemoryFault> {
        self.begin()?;
        match self.files.get(&name) {
            Some(bytes) => Ok(Some(Vec::from_slice(alloc, bytes)?)),
            None => Ok(None),
        }
    }

    /// If it has to fail, half of the file is written.
    fn write_beside(&mut self, name: FileName, bytes: &[u8]) -> Result<(), MemoryFault> {
        match self.begin() {
            Ok(()) => self.put_beside(&name, bytes),
            Err(fault) => {
                let _ = self.put_beside(&name, &bytes[..bytes.len() / 2]);
                Err(fault)
            }
        }
    }

    fn put_in_place(&mut self, name: FileName) -> Result<(), MemoryFault> {
        self.begin()?;
        let touches = self.one_touch_more()?;
        let bytes = self.copy_beside(&name)?;
        self.files.put(&name, bytes)?;
        self.beside.take(&name);
        self.touches = touches;
        Ok(())
    }

    fn remove(&mut self, name: FileName) -> Result<(), MemoryFault> {
        self.begin()?;
        let touches = self.one_touch_more()?;
        if self.files.get(&name).is_none() {
            return Err(MemoryFault::Missing);
        }
        self.files.take(&name);
        self.touches = touches;
        Ok(())
    }
}
