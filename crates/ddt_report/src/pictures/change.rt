//! The delegation trees of two registers, one below the other, with what differs marked.

use crate::pictures::cards::{Card, cards_of};
use crate::pictures::differences::Differences;
use crate::pictures::group_boxes::{Changes, GroupBox, boxes_with};
use crate::pictures::layout::{Columns, MARGIN, TITLE, placed};
use crate::pictures::svg::{
    Point, Size, Style, push_end, push_frame, push_head, push_text, text_width,
};
use crate::pictures::tree::{push_cards, push_edges};
use ddt_check::Accepted;
use std::alloc::{AllocError, Global};

/// The most zones of a tree in which all zones have boxes.
const MOST_ZONES: usize = 200;

/// Which of two registers is drawn.
#[derive(Clone, Copy, Debug, PartialEq, Eq)]
enum Side {
    Before,
    After,
}

impl Side {
    fn title(self) -> &'static str {
        match self {
            Side::Before => "Before",
            Side::After => "After",
        }
    }

    /// The word for a zone that only this register has.
    fn word(self) -> &'static str {
        match self {
            Side::Before => "removed",
            Side::After => "added",
        }
    }

    /// The colour of a box with such a zone.
    fn colour(self) -> &'static str {
        match self {
            Side::Before => "#c62828",
            Side::After => "#2e7d32",
        }
    }
}

/// A tree that is drawn.
#[derive(Drop)]
struct DrawnTree {
    side: Side,
    cards: Vec<Card>,
    /// The colour of each box that is marked.
    frames: Vec<Option<&'static str>>,
    columns: Columns,
    tops: Vec<Point>,
    size: Size,
    /// The number of zones of the register, if not all of them have boxes.
    zones: Option<usize>,
}

/// The line of zones that only one register has, or that moved.
fn counted(alloc: Global, what: &str, count: usize) -> Result<Vec<u8>, AllocError> {
    let text = match count {
        1 => format!(in alloc; "{what}")?,
        _ => format!(in alloc; "{what}: {count} zones")?,
    };
    Vec::from_slice(alloc, text.as_bytes())
}

/// The line of zones that another group serves in the other register.
fn moved_line(alloc: Global, side: Side, changes: &Changes) -> Result<Vec<u8>, AllocError> {
    let way = match side {
        Side::Before => "moves to ",
        Side::After => "moved from ",
    };
    let Some(group) = changes.other_group else {
        return Ok(Vec::new(alloc));
    };
    if changes.moved > 1 {
        return counted(alloc, "served by other groups", changes.moved);
    }
    let mut line = Vec::from_slice(alloc, way.as_bytes())?;
    line.extend_from_slice(group.as_bytes())?;
    Ok(line)
}

/// Adds lines of what differs to a box.
fn add_lines(
    card: &mut Card,
    alloc: Global,
    side: Side,
    changes: &Changes,
) -> Result<(), AllocError> {
    if changes.missing > 0 {
        card.lines
            .push(counted(alloc, side.word(), changes.missing)?)?;
    }
    if changes.moved > 0 {
        card.lines.push(moved_line(alloc, side, changes)?)?;
    }
    if changes.has_other_locators {
        card.lines.push(Vec::from_slice(alloc, b"other locators")?)?;
    }
    if changes.sites > 0 {
        let text = format!(in alloc; "sites that differ: {}", changes.sites)?;
        card.lines.push(Vec::from_slice(alloc, text.as_bytes())?)?;
    }
    Ok(())
}

/// The colour of a box, if something differs in it.
fn frame_of(side: Side, changes: &Changes) -> Option<&'static str> {
    if changes.missing > 0 {
        Some(side.colour())
    } else if changes.moved > 0 {
        Some("#8e24aa")
    } else if changes.has_other_locators || changes.sites > 0 {
        Some("#e08600")
    } else {
        None
    }
}

/// Adds lines of what differs to each box, and returns the colours of the boxes.
fn mark_cards(
    alloc: Global,
    cards: &mut [Card],
    boxes: &[GroupBox],
    side: Side,
) -> Result<Vec<Option<&'static str>>, AllocError> {
    let mut frames = Vec::with_capacity(alloc, boxes.len())?;
    for (card, shown) in cards.iter_mut().zip(boxes) {
        add_lines(card, alloc, side, &shown.changes)?;
        frames.push(frame_of(side, &shown.changes))?;
    }
    Ok(frames)
}

/// The tree of one of two registers.
fn tree_of(
    alloc: Global,
    accepted: &Accepted,
    other: &Accepted,
    side: Side,
) -> Result<DrawnTree, AllocError> {
    let differences = Differences::of(alloc, accepted.register(), other.register())?;
    let boxes = boxes_with(alloc, accepted, differences, MOST_ZONES)?;
    let mut cards = cards_of(alloc, accepted, &boxes)?;
    let frames = mark_cards(alloc, &mut cards, &boxes, side)?;
    let columns = Columns::of(&cards);
    let (tops, size) = placed(alloc, &cards, columns)?;
    let all = accepted.register().zones.as_slice().len();
    Ok(DrawnTree {
        side,
        cards,
        frames,
        columns,
        tops,
        size,
        zones: (all > MOST_ZONES).then_some(all),
    })
}

/// Moves a tree down.
fn lower(tops: &mut [Point], by: usize) {
    for top in tops {
        top.y = top.y.saturating_add(by);
    }
}

/// Appends the title of a tree, and which of its zones are shown.
fn push_tree_title(svg: &mut Vec<u8>, tree: &DrawnTree, from: usize) -> Result<(), AllocError> {
    let alloc = *svg.allocator();
    let title = match tree.zones {
        None => format!(in alloc; "{}", tree.side.title())?,
        Some(zones) => format!(in alloc;
            "{}: of {zones} zones only those that differ and those above them, {MOST_ZONES} or a few more at most",
            tree.side.title()
        )?,
    };
    let at = Point {
        x: MARGIN,
        y: from.saturating_add(TITLE / 2),
    };
    push_text(svg, at, Style::Bold, title.as_bytes())
}

/// Appends the frames of the boxes that are marked.
fn push_frames(svg: &mut Vec<u8>, tree: &DrawnTree) -> Result<(), AllocError> {
    let width = tree.columns.width;
    for ((card, at), frame) in tree.cards.iter().zip(&tree.tops).zip(&tree.frames) {
        if let Some(colour) = frame {
            let height = card.height();
            push_frame(svg, *at, Size { width, height }, colour)?;
        }
    }
    Ok(())
}

/// Appends a tree whose boxes are at their final places.
fn push_tree(svg: &mut Vec<u8>, tree: &DrawnTree, from: usize) -> Result<(), AllocError> {
    push_tree_title(svg, tree, from)?;
    push_edges(svg, &tree.cards, &tree.tops, tree.columns)?;
    push_cards(svg, &tree.cards, &tree.tops, tree.columns)?;
    push_frames(svg, tree)
}

/// The delegation trees of two registers as one SVG, the earlier one above the later one. A box is marked by a frame
/// and by lines if its zones are only in one register or served by another group in the other, if its group has other
/// locators there, or if sites in it differ. Of a register with more than 200 zones only such zones are shown, and
/// those above them; the others are counted in the boxes above. Fails only if out of memory.
pub fn change_picture(
    alloc: Global,
    before: &Accepted,
    after: &Accepted,
) -> Result<Vec<u8>, AllocError> {
    let upper = tree_of(alloc, before, after, Side::Before)?;
    let mut under = tree_of(alloc, after, before, Side::After)?;
    lower(&mut under.tops, upper.size.height);
    let least = text_width(110).saturating_add(2 * MARGIN);
    let size = Size {
        width: upper.size.width.max(under.size.width).max(least),
        height: upper.size.height.saturating_add(under.size.height),
    };
    let mut svg = Vec::new(alloc);
    push_head(&mut svg, size)?;
    push_tree(&mut svg, &upper, 0)?;
    push_tree(&mut svg, &under, upper.size.height)?;
    push_end(&mut svg)?;
    Ok(svg)
}
