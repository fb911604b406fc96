//! The zones that servers of one side delegate to servers of the other.

use crate::seam::line::{Meets, push_zone};
use crate::seam::runs_by_group::GroupRun;
use crate::seam::side::{Party, Side};
use ddt_config::{Child, Content, ServerConfig};
use ddt_path::Name;
use std::alloc::AllocError;
use std::collections::BTreeMap;

/// Appends a line for each zone of the joined register that is delegated from one side to the other.
pub fn push_crossings(
    text: &mut Vec<u8>,
    joined: &Side,
    runs: &BTreeMap<Name, GroupRun>,
) -> Result<(), AllocError> {
    for config in &joined.configs {
        push_of_group(text, joined, runs, config)?;
    }
    Ok(())
}

fn push_of_group(
    text: &mut Vec<u8>,
    joined: &Side,
    runs: &BTreeMap<Name, GroupRun>,
    config: &ServerConfig,
) -> Result<(), AllocError> {
    let from = party_of(runs, config.name);
    for authority in config.authorities.as_slice() {
        if let Content::Children(children) = &authority.content {
            push_of_zone(text, joined, runs, from, children.as_slice())?;
        }
    }
    Ok(())
}

fn push_of_zone(
    text: &mut Vec<u8>,
    joined: &Side,
    runs: &BTreeMap<Name, GroupRun>,
    from: Option<Party>,
    children: &[Child],
) -> Result<(), AllocError> {
    for child in children {
        let Some(served) = joined.zones.get(&child.prefix) else {
            continue;
        };
        if let Some((delegates, serves)) = crossing(from, party_of(runs, served.group)) {
            push_zone(
                text,
                child.prefix,
                (delegates, *served),
                (serves, Some(*served)),
                Meets::Good,
            )?;
        }
    }
    Ok(())
}

/// The side that runs a group: theirs if it is foreign, else the one from which it can be run; None if both can.
fn party_of(runs: &BTreeMap<Name, GroupRun>, group: Name) -> Option<Party> {
    let run = runs.get(&group)?;
    match (run.from_ours && !run.is_foreign, run.from_theirs) {
        (true, false) => Some(Party::Ours),
        (false, true) => Some(Party::Theirs),
        _ => None,
    }
}

/// Which side delegates to which, if the servers of a zone and those of the zone above it are of different sides. If
/// both sides can run those above, the other side does.
fn crossing(above: Option<Party>, below: Option<Party>) -> Option<(Party, Party)> {
    match (above, below) {
        (Some(Party::Ours) | None, Some(Party::Theirs)) => Some((Party::Ours, Party::Theirs)),
        (Some(Party::Theirs) | None, Some(Party::Ours)) => Some((Party::Theirs, Party::Ours)),
        _ => None,
    }
}
