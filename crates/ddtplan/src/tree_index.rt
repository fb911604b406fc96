//! The index of a tree of registers: a CSV file with a row for each group that is run, and the register that it is run
//! from.

use crate::inputs::{Failure, no_memory};
use csv::{ReaderBuilder, StringRecord};
use ddt_path::Name;
use std::alloc::{AllocError, Global};
use std::collections::{BTreeMap, BTreeSet};

/// The first line of an index.
const HEAD: [&str; 2] = ["register", "group"];

/// The file of a register, and the names of the groups that are run from it.
#[derive(Drop)]
pub struct Runner {
    pub file: String,
    pub groups: BTreeSet<Name>,
}

/// Who runs which groups, in the order in which an index names the registers.
#[derive(Drop)]
struct Runners {
    all: Vec<Runner>,
    /// The place of each file among them.
    places: BTreeMap<String, usize>,
}

/// Who runs which groups, in the order in which an index names the registers. Refused where it is no CSV, where its
/// head is another, where a row has no file or no name of a group, where two rows say the same, and where it has none.
pub fn runners_in(rt: &HostRuntime, path: &str, bytes: &[u8]) -> Result<Vec<Runner>, Failure> {
    let mut runners = Runners {
        all: Vec::new(rt.alloc()),
        places: BTreeMap::new(rt.alloc()),
    };
    read_rows(rt, path, bytes, &mut runners)?;
    if runners.all.is_empty() {
        return Err(format!(in rt.alloc(); "{path}: it names no register"));
    }
    Ok(runners.all)
}

/// Adds what all rows say.
fn read_rows(
    rt: &HostRuntime,
    path: &str,
    bytes: &[u8],
    runners: &mut Runners,
) -> Result<(), Failure> {
    let reader = ReaderBuilder::new()
        .has_headers(false)
        .from_reader(rt.alloc(), bytes);
    let mut is_head = true;
    for record in reader.into_records() {
        read_row(rt, path, record, is_head, runners)?;
        is_head = false;
    }
    Ok(())
}

/// Adds what a row says, unless it is the head.
fn read_row(
    rt: &HostRuntime,
    path: &str,
    record: Result<StringRecord, csv::Error>,
    is_head: bool,
    runners: &mut Runners,
) -> Result<(), Failure> {
    match record {
        Ok(record) if is_head => refuse_other_head(rt, path, &record),
        Ok(record) => add_row(rt, path, runners, &record),
        Err(error) => Err(format!(in rt.alloc(); "{path}: {error}")),
    }
}

fn refuse_other_head(rt: &HostRuntime, path: &str, record: &StringRecord) -> Result<(), Failure> {
    let [register, group] = HEAD;
    if record.len() == 2 && record.get(0) == Some(register) && record.get(1) == Some(group) {
        return Ok(());
    }
    Err(format!(in rt.alloc(); "{path}:1: the head isn't {register},{group}"))
}

/// Adds what a row says.
fn add_row(
    rt: &HostRuntime,
    path: &str,
    runners: &mut Runners,
    record: &StringRecord,
) -> Result<(), Failure> {
    let line = record.position().map_or(0, |position| position.line());
    let (file, group) = (record.get(0).unwrap_or(""), record.get(1).unwrap_or(""));
    let name = match Name::of(group.as_bytes()) {
        Some(name) if !file.is_empty() => name,
        _ => return Err(format!(in rt.alloc(); "{path}:{line}: a register and a group are wanted")),
    };
    if runners.add(rt.alloc(), file, name).map_err(no_memory)? {
        return Ok(());
    }
    Err(format!(in rt.alloc(); "{path}:{line}: {file},{group} is there twice"))
}

impl Runners {
    /// Adds a group to the register of a file. Whether it wasn't there.
    fn add(&mut self, alloc: Global, file: &str, group: Name) -> Result<bool, AllocError> {
        let place = match self.places.get(file) {
            Some(place) => *place,
            None => self.all.len(),
        };
        if place == self.all.len() {
            self.places.insert(String::from_str(alloc, file)?, place)?;
            self.all.push(Runner {
                file: String::from_str(alloc, file)?,
                groups: BTreeSet::new(alloc),
            })?;
        }
        match self.all.get_mut(place) {
            Some(runner) => Ok(runner.groups.insert(group)?),
            None => Ok(false),
        }
    }
}
