//! Memory is refused to the pictures of a register: each comes whole or not at all, and the next call gives it.
//!
//! `.ci/memory` runs each of these tests with each growth refused in turn.

use crate::comparison::{same, twice};
use crate::registers::accepted;
use ddt_check::Accepted;
use ddt_examples::registers::{CAMPUS, CAMPUS_GROWN};
use ddt_path::{Action, Locator, Prefix, Xeid};
use ddt_report::pictures::{boxes_under, change_picture, hops_of, ladder_picture, tree_picture};
use std::alloc::Global;
use std::process::Abort;
use std::test::Fail;

const X: Xeid = Xeid {
    iid: 0,
    address: Locator::V4(0x0a01_0203),
};

/// It is drawn to its end, with this text.
fn is_drawn(rt: &impl Abort, picture: &[u8], text: &str) {
    let svg = std::str::from_utf8(picture).unwrap_or("");
    let is_whole = svg.starts_with("<svg ") && svg.ends_with("</svg>\n");
    same(rt, &(is_whole, svg.contains(text)), &(true, true), &text);
}

fn draws(rt: &impl Abort, alloc: Global, campus: &Accepted) -> Option<()> {
    let tree = tree_picture(alloc, campus, Prefix::cut(X, 0), 9).ok()?;
    is_drawn(rt, &tree, "127.0.1.2");
    let ladder = ladder_picture(alloc, campus, X).ok()?;
    is_drawn(rt, &ladder, "MS-ACK");
    let grown = accepted(alloc, CAMPUS_GROWN)?;
    is_drawn(rt, &change_picture(alloc, campus, &grown).ok()?, "far");
    Some(())
}

/// The groups of the tree, and the servers of a lookup: root, ten and east.
fn lists(rt: &impl Abort, alloc: Global, campus: &Accepted) -> Option<()> {
    let boxes = boxes_under(alloc, campus, Prefix::cut(X, 0), 9).ok()?;
    let east = boxes.last()?.group;
    same(
        rt,
        &(boxes.len(), east.as_bytes()),
        &(3, b"east".as_slice()),
        &"the boxes",
    );
    let hops = hops_of(alloc, campus, X).ok()?;
    let last = hops.last()?;
    same(
        rt,
        &(hops.len(), last.said.action),
        &(3, Action::MsAck),
        &"the hops",
    );
    Some(())
}

fn all(rt: &impl Abort, alloc: Global) -> Option<()> {
    let campus = accepted(alloc, CAMPUS)?;
    lists(rt, alloc, &campus)?;
    draws(rt, alloc, &campus)
}

#[test]
fn pictures_are_drawn_whole(rt: HostRuntime) -> Result<(), Fail> {
    twice(|| all(&rt, rt.alloc()))
}
