//! Memory is refused to what reads and writes registers and configurations: the whole comes or nothing, and the next
//! call gives it.
//!
//! `.ci/memory` runs each of these tests with each growth refused in turn.

use crate::comparison::{given, same, twice};
use crate::registers::accepted as accepted_at_once;
use csv::ByteRecord;
use ddt_check::{Accepted, check};
use ddt_compile::{compile, compile_group, locators_by_name};
use ddt_config::{ConfigFault, Key, PlacedFault, ServerConfig, from_toml, read_table, to_toml};
use ddt_examples::configurations::{EAST, NESTED_EAST, ROOT, TEN, TWO_AUTHORITIES};
use ddt_examples::registers::{CAMPUS, NESTED_SITES};
use ddt_path::{Listed, Name};
use ddt_register::{Group, ReadFault, Register, Row, Site, read_register, read_row};
use std::alloc::{AllocError, Global};
use std::process::Abort;
use std::test::Fail;

/// The register of a text, read again if memory was refused, which must be the only fault.
fn register(rt: &impl Abort, alloc: Global, text: &str) -> Result<Register, Fail> {
    match read_register(alloc, text.as_bytes()) {
        Ok(register) => Ok(register),
        Err(fault) => {
            same(rt, &fault, &ReadFault::Memory, &"the fault");
            Ok(read_register(alloc, text.as_bytes())?)
        },
    }
}

/// The same, accepted.
fn accepted(rt: &impl Abort, alloc: Global, text: &str) -> Result<Accepted, Fail> {
    match check(register(rt, alloc, text)?) {
        Ok(accepted) => Ok(accepted),
        Err(_refused) => Err("not accepted".into()),
    }
}

/// How many zones, sites and groups a register has, and the rows of the last of each.
type Shape = [(usize, Option<u32>); 3];

fn shape(register: &Register) -> Shape {
    let (zones, sites) = (register.zones.as_slice(), register.sites.as_slice());
    let groups = register.groups.as_slice();
    [
        (zones.len(), zones.last().map(|zone| zone.row)),
        (sites.len(), sites.last().map(|site| site.row)),
        (groups.len(), groups.last().map(|group| group.row)),
    ]
}

/// Registers, and what they have.
const SHAPES: &[(&str, Shape)] = &[
    (CAMPUS, [(3, Some(6)), (2, Some(8)), (3, Some(3))]),
    (NESTED_SITES, [(3, Some(6)), (4, Some(10)), (3, Some(3))]),
];

fn is_site(rt: &impl Abort, site: &Site, other: &Site) {
    same(
        rt,
        &(site.prefix, site.row),
        &(other.prefix, other.row),
        &"the site",
    );
    same(rt, &site.etrs.as_slice(), &other.etrs.as_slice(), &site.row);
}

fn is_group(rt: &impl Abort, group: &Group, other: &Group) {
    same(
        rt,
        &(group.name, group.kind, group.row),
        &(other.name, other.kind, other.row),
        &"the group",
    );
    same(
        rt,
        &group.locators.as_slice(),
        &other.locators.as_slice(),
        &group.row,
    );
}

fn are_sites(rt: &impl Abort, sites: &[Site], others: &[Site]) {
    for (site, other) in sites.iter().zip(others) {
        is_site(rt, site, other);
    }
}

fn are_groups(rt: &impl Abort, groups: &[Group], others: &[Group]) {
    for (group, other) in groups.iter().zip(others) {
        is_group(rt, group, other);
    }
}

/// A register has this shape and the items of another one.
fn is_register(rt: &impl Abort, register: &Register, other: &Register, wanted: &Shape) {
    same(rt, &shape(register), wanted, &"one register");
    same(rt, &shape(other), wanted, &"the other");
    same(
        rt,
        &register.zones.as_slice(),
        &other.zones.as_slice(),
        &"the zones",
    );
    are_sites(rt, register.sites.as_slice(), other.sites.as_slice());
    are_groups(rt, register.groups.as_slice(), other.groups.as_slice());
}

/// A text is read twice, each time as the same register.
fn is_read(rt: &impl Abort, alloc: Global, text: &str, wanted: &Shape) -> Result<(), Fail> {
    let first = register(rt, alloc, text)?;
    let second = register(rt, alloc, text)?;
    is_register(rt, &first, &second, wanted);
    Ok(())
}

#[test]
fn a_register_is_read_whole(rt: HostRuntime) -> Result<(), Fail> {
    for (text, wanted) in SHAPES {
        is_read(&rt, rt.alloc(), text, wanted)?;
    }
    Ok(())
}

/// The configuration of a text, read again if memory was refused, which must be the only fault.
fn config(rt: &impl Abort, alloc: Global, text: &str) -> Result<ServerConfig, Fail> {
    match from_toml(alloc, text) {
        Ok(config) => Ok(config),
        Err(fault) => {
            same(rt, &fault, &ConfigFault::Memory, &"the fault");
            Ok(from_toml(alloc, text)?)
        },
    }
}

/// The text of a configuration, written once more where memory is refused.
fn text(alloc: Global, config: &ServerConfig) -> Result<String, AllocError> {
    match to_toml(alloc, config) {
        Ok(text) => Ok(text),
        Err(_refused) => to_toml(alloc, config),
    }
}

fn is_text(
    rt: &impl Abort,
    alloc: Global,
    config: &ServerConfig,
    wanted: &str,
) -> Result<(), Fail> {
    let text = text(alloc, config)?;
    same(rt, &text.as_str(), &wanted, &"the configuration");
    Ok(())
}

#[test]
fn a_configuration_is_read_and_written_whole(rt: HostRuntime) -> Result<(), Fail> {
    for wanted in [EAST, TWO_AUTHORITIES] {
        let config = config(&rt, rt.alloc(), wanted)?;
        is_text(&rt, rt.alloc(), &config, wanted)?;
    }
    Ok(())
}

/// The first fault of a configuration's table, read again if memory was refused.
fn fault(alloc: Global, rt: &impl Abort, text: &str) -> Result<PlacedFault, Fail> {
    for _try in 0..2 {
        let Ok(table) = toml::table_from_str(alloc, text) else {
            continue;
        };
        let found = read_table(alloc, table).err().expect(rt, "a fault");
        if found.fault != ConfigFault::Memory {
            return Ok(found);
        }
    }
    Err("no fault".into())
}

/// A node whose second locator is none.
const NO_LOCATOR: &str = "name = \"a\"\nkind = \"node\"\nlocators = [\"192.0.2.1\", \"x\"]\n";

#[test]
fn a_fault_has_its_whole_text(rt: HostRuntime) -> Result<(), Fail> {
    let found = fault(rt.alloc(), &rt, NO_LOCATOR)?;
    same(
        &rt,
        &found.fault,
        &ConfigFault::Value(Key::Locators),
        &"the fault",
    );
    let text = found.text.as_ref().map(|text| text.as_str());
    same(&rt, &text, &Some("x"), &"the text");
    Ok(())
}

/// All configurations of a register, compiled once more where memory is refused.
fn all(alloc: Global, register: &Accepted) -> Result<Listed<ServerConfig>, AllocError> {
    match compile(alloc, register) {
        Ok(configs) => Ok(configs),
        Err(_refused) => compile(alloc, register),
    }
}

fn are_texts(
    rt: &impl Abort,
    alloc: Global,
    configs: &[ServerConfig],
    texts: &[&str],
) -> Result<(), Fail> {
    same(rt, &configs.len(), &texts.len(), &"the groups");
    for (config, wanted) in configs.iter().zip(texts) {
        is_text(rt, alloc, config, wanted)?;
    }
    Ok(())
}

/// Registers, and the configurations of their groups.
const COMPILED: &[(&str, [&str; 3])] = &[
    (CAMPUS, [ROOT, TEN, EAST]),
    (NESTED_SITES, [ROOT, TEN, NESTED_EAST]),
];

fn compiles(rt: &impl Abort, alloc: Global, text: &str, texts: &[&str]) -> Result<(), Fail> {
    let configs = all(alloc, &accepted(rt, alloc, text)?)?;
    are_texts(rt, alloc, configs.as_slice(), texts)
}

#[test]
fn all_groups_are_compiled(rt: HostRuntime) -> Result<(), Fail> {
    for &(text, texts) in COMPILED {
        compiles(&rt, rt.alloc(), text, &texts)?;
    }
    Ok(())
}

/// The configuration of one group, compiled once more where memory is refused.
fn alone(
    alloc: Global,
    register: &Accepted,
    name: Name,
) -> Result<Option<ServerConfig>, AllocError> {
    match compile_group(alloc, register, name) {
        Ok(config) => Ok(config),
        Err(_refused) => compile_group(alloc, register, name),
    }
}

fn compiles_alone(rt: &impl Abort, alloc: Global, group: &str, wanted: &str) -> Result<(), Fail> {
    let register = accepted(rt, alloc, NESTED_SITES)?;
    let name = Name::of(group.as_bytes()).ok_or("no name")?;
    let config = alone(alloc, &register, name)?.ok_or("no group")?;
    is_text(rt, alloc, &config, wanted)
}

#[test]
fn one_group_is_compiled(rt: HostRuntime) -> Result<(), Fail> {
    for (group, wanted) in [("east", NESTED_EAST), ("ten", TEN)] {
        compiles_alone(&rt, rt.alloc(), group, wanted)?;
    }
    Ok(())
}

/// A record of a site is read as row 7.
fn reads_row(rt: &impl Abort, alloc: Global) -> Option<()> {
    let site: [&[u8]; 4] = [b"site", b"[0]10.1.2.0/24", b"", b"127.0.2.1"];
    let fields = ByteRecord::from_fields(alloc, &site).ok()?;
    assert!(rt; fields.len() == 4);
    match given(rt, read_row(alloc, 7, &fields), &ReadFault::Memory)? {
        Row::Site(site) => {
            same(
                rt,
                &(site.row, site.etrs.as_slice().len()),
                &(7, 1),
                &"the site",
            );
            Some(())
        }
        _ => None,
    }
}

fn reads_locators(rt: &impl Abort, alloc: Global) -> Option<()> {
    let register = accepted_at_once(alloc, CAMPUS)?;
    let sets = locators_by_name(alloc, &register).ok()?;
    let east = sets.get(&Name::of(b"east")?)?;
    same(
        rt,
        &(sets.len(), east.as_slice().len()),
        &(3, 2),
        &"the locators",
    );
    Some(())
}

fn reads(rt: &impl Abort, alloc: Global) -> Option<()> {
    reads_row(rt, alloc)?;
    reads_locators(rt, alloc)
}

#[test]
fn a_row_and_locators_are_read_whole(rt: HostRuntime) -> Result<(), Fail> {
    twice(|| reads(&rt, rt.alloc()))
}
