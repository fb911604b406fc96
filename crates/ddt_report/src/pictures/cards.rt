//! The texts in each box of a picture of the delegation tree.

use crate::pictures::group_boxes::{GroupBox, Tally};
use crate::pictures::strip::Strip;
use crate::pictures::svg::text_width;
use ddt_check::Accepted;
use ddt_path::{Locator, Name, Role};
use ddt_register::Group;
use ddt_text::{write_locator, write_prefix};
use std::alloc::{AllocError, Global};
use std::collections::BTreeMap;

/// The height of a line of text, in pixels.
pub(crate) const LINE: usize = 16;

/// The distance of a text from the border of its box, in pixels.
pub(crate) const PADDING: usize = 8;

/// The height of the strip of a zone and the space below it, in pixels.
pub(crate) const STRIP: usize = 18;

/// The texts of a box.
#[derive(Drop)]
pub(crate) struct Card {
    /// What the box above delegates: a prefix, or how many.
    pub label: Vec<u8>,
    /// Its lines, of which the first is the name of the group.
    pub lines: Vec<Vec<u8>>,
    pub kind: Role,
    /// What is delegated or registered, if the box has one zone.
    pub strip: Option<Strip>,
    pub parent: Option<usize>,
    pub depth: usize,
}

impl Card {
    /// The height of its box, in pixels.
    pub(crate) fn height(&self) -> usize {
        let strip = if self.strip.is_some() { STRIP } else { 0 };
        self.lines
            .len()
            .saturating_mul(LINE)
            .saturating_add(strip)
            .saturating_add(2 * PADDING)
    }

    /// The width of its longest line, in pixels.
    pub(crate) fn width(&self) -> usize {
        let mut widest = 0;
        for line in &self.lines {
            widest = text_width(line.len()).max(widest);
        }
        widest
    }
}

/// The place of each group in the register, by its name.
type Places = BTreeMap<Name, usize>;

fn places_of(alloc: Global, groups: &[Group]) -> Result<Places, AllocError> {
    let mut places = BTreeMap::new(alloc);
    for (place, group) in groups.iter().enumerate() {
        places.insert(group.name, place)?;
    }
    Ok(places)
}

/// Whether a box is of DDT nodes or of Map-Servers, in words.
fn kind_text(kind: Role) -> &'static str {
    match kind {
        Role::Node => "DDT nodes",
        Role::Ms => "Map-Servers",
    }
}

/// The prefix of a box, or how many it has.
fn label_of(alloc: Global, shown: &GroupBox) -> Result<Vec<u8>, AllocError> {
    let mut label = Vec::new(alloc);
    if shown.here.zones > 1 {
        let many = format!(in alloc; "{} prefixes", shown.here.zones)?;
        label.extend_from_slice(many.as_bytes())?;
    } else {
        write_prefix(&mut label, shown.first)?;
    }
    Ok(label)
}

fn push_line(lines: &mut Vec<Vec<u8>>, alloc: Global, text: &[u8]) -> Result<(), AllocError> {
    lines.push(Vec::from_slice(alloc, text)?)?;
    Ok(())
}

/// Adds a line for each locator.
fn push_locators(
    lines: &mut Vec<Vec<u8>>,
    alloc: Global,
    locators: &[Locator],
) -> Result<(), AllocError> {
    for locator in locators {
        let mut line = Vec::new(alloc);
        write_locator(&mut line, *locator)?;
        lines.push(line)?;
    }
    Ok(())
}

/// Adds a line of the sites in a box, if it has any.
fn push_sites(lines: &mut Vec<Vec<u8>>, alloc: Global, here: Tally) -> Result<(), AllocError> {
    let sites = here.registered.saturating_add(here.unregistered);
    if sites == 0 {
        return Ok(());
    }
    let text = match here.unregistered {
        0 => format!(in alloc; "sites: {sites}")?,
        without => format!(in alloc; "sites: {sites}, {without} without an ETR")?,
    };
    push_line(lines, alloc, text.as_bytes())
}

/// Adds a line of what is too deep to be shown, if anything is.
fn push_deeper(lines: &mut Vec<Vec<u8>>, alloc: Global, deeper: Tally) -> Result<(), AllocError> {
    let sites = deeper.registered.saturating_add(deeper.unregistered);
    if deeper.zones == 0 {
        return Ok(());
    }
    let zones = deeper.zones;
    let text = format!(in alloc; "deeper zones: {zones}, with sites: {sites}")?;
    push_line(lines, alloc, text.as_bytes())
}

/// The texts of a box.
fn card_of(alloc: Global, shown: &GroupBox, group: Option<&Group>) -> Result<Card, AllocError> {
    let mut lines = Vec::new(alloc);
    push_line(&mut lines, alloc, shown.group.as_bytes())?;
    push_line(&mut lines, alloc, kind_text(shown.kind).as_bytes())?;
    if let Some(group) = group {
        push_locators(&mut lines, alloc, group.locators.as_slice())?;
    }
    push_sites(&mut lines, alloc, shown.here)?;
    push_deeper(&mut lines, alloc, shown.deeper)?;
    Ok(Card {
        label: label_of(alloc, shown)?,
        lines,
        kind: shown.kind,
        strip: if shown.here.zones == 1 {
            Some(shown.strip)
        } else {
            None
        },
        parent: shown.parent,
        depth: shown.depth,
    })
}

/// The texts of boxes, in their order. Fails only if out of memory.
pub(crate) fn cards_of(
    alloc: Global,
    accepted: &Accepted,
    boxes: &[GroupBox],
) -> Result<Vec<Card>, AllocError> {
    let groups = accepted.register().groups.as_slice();
    let places = places_of(alloc, groups)?;
    let mut cards = Vec::with_capacity(alloc, boxes.len())?;
    for shown in boxes {
        let group = match places.get(&shown.group) {
            Some(place) => groups.get(*place),
            None => None,
        };
        cards.push(card_of(alloc, shown, group)?)?;
    }
    Ok(cards)
}
