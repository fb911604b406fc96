//! The delegation tree of a register, as a picture (RFC 8111, section 4).

use crate::pictures::cards::{Card, LINE, PADDING, STRIP, cards_of};
use crate::pictures::group_boxes::boxes_under;
use crate::pictures::layout::{CORNER, Columns, MARGIN, TITLE, placed};
use crate::pictures::strip::Strip;
use crate::pictures::svg::{
    Point, Size, Style, push_box, push_end, push_head, push_line, push_text, text_width,
};
use ddt_check::Accepted;
use ddt_path::{Prefix, Role};
use ddt_text::write_prefix;
use std::alloc::{AllocError, Global};

/// The width of a cell of a strip, in pixels.
const CELL: usize = 2;

/// The height of the cells of a strip, in pixels.
const CELL_HEIGHT: usize = 8;

/// What the cells of a strip mean.
const LEGEND: &[u8] =
    b"A strip is a zone in 64 parts: filled where something is delegated or registered, shaded in a hole.";

fn fill_of(kind: Role) -> &'static str {
    match kind {
        Role::Node => "#cfe2f3",
        Role::Ms => "#d9ead3",
    }
}

fn cell_fill(is_used: bool) -> &'static str {
    if is_used { "#3d85c6" } else { "url(#hole)" }
}

/// A place further to the right and further down.
fn moved(at: Point, x: usize, y: usize) -> Point {
    Point {
        x: at.x.saturating_add(x),
        y: at.y.saturating_add(y),
    }
}

/// The place of a text above a line.
fn above(at: Point) -> Point {
    Point {
        x: at.x,
        y: at.y.saturating_sub(5),
    }
}

/// Appends the lines of a box.
fn push_lines(svg: &mut Vec<u8>, at: Point, lines: &[Vec<u8>]) -> Result<(), AllocError> {
    let mut style = Style::Bold;
    let mut base = moved(at, PADDING, PADDING.saturating_add(12));
    for line in lines {
        push_text(svg, base, style, line)?;
        style = Style::Plain;
        base = moved(base, 0, LINE);
    }
    Ok(())
}

/// Appends `count` cells of one kind.
fn push_cells(svg: &mut Vec<u8>, at: Point, count: usize, is_used: bool) -> Result<(), AllocError> {
    let size = Size {
        width: count.saturating_mul(CELL),
        height: CELL_HEIGHT,
    };
    push_box(svg, at, size, cell_fill(is_used))
}

/// Appends the cells of a strip, neighbours of one kind together.
fn push_strip(svg: &mut Vec<u8>, at: Point, strip: &Strip) -> Result<(), AllocError> {
    let mut start = at;
    let mut count = 0;
    let mut kind = false;
    for is_used in strip.cells() {
        if *is_used != kind && count > 0 {
            push_cells(svg, start, count, kind)?;
            start = moved(start, count.saturating_mul(CELL), 0);
            count = 0;
        }
        kind = *is_used;
        count = count.saturating_add(1);
    }
    push_cells(svg, start, count, kind)
}

/// Appends a box with its texts.
fn push_card(svg: &mut Vec<u8>, at: Point, width: usize, card: &Card) -> Result<(), AllocError> {
    let height = card.height();
    push_box(svg, at, Size { width, height }, fill_of(card.kind))?;
    push_lines(svg, at, &card.lines)?;
    match &card.strip {
        Some(strip) => push_strip(svg, moved(at, PADDING, height.saturating_sub(STRIP)), strip),
        None => Ok(()),
    }
}

/// Appends the line from a box to one that it delegates to, and what it delegates.
fn push_edge(
    svg: &mut Vec<u8>,
    from: Point,
    to: Point,
    columns: Columns,
    label: &[u8],
) -> Result<(), AllocError> {
    let half = LINE.saturating_add(4);
    let start = moved(from, columns.width, half);
    let corner = moved(from, columns.width.saturating_add(CORNER), half);
    let end = moved(to, 0, half);
    let turn = Point {
        x: corner.x,
        y: end.y,
    };
    push_line(svg, start, corner, "")?;
    push_line(svg, corner, turn, "")?;
    push_line(svg, turn, end, " marker-end='url(#tip)'")?;
    push_text(svg, above(moved(turn, 8, 0)), Style::Plain, label)
}

/// Appends the edges to all boxes but the first.
pub(crate) fn push_edges(
    svg: &mut Vec<u8>,
    cards: &[Card],
    tops: &[Point],
    columns: Columns,
) -> Result<(), AllocError> {
    for (card, to) in cards.iter().zip(tops) {
        if let Some(parent) = card.parent
            && let Some(from) = tops.get(parent)
        {
            push_edge(svg, *from, *to, columns, &card.label)?;
        }
    }
    Ok(())
}

/// Appends all boxes.
pub(crate) fn push_cards(
    svg: &mut Vec<u8>,
    cards: &[Card],
    tops: &[Point],
    columns: Columns,
) -> Result<(), AllocError> {
    for (card, at) in cards.iter().zip(tops) {
        push_card(svg, *at, columns.width, card)?;
    }
    Ok(())
}

/// Appends the title: the prefix under which the tree is drawn, and that of the first box.
fn push_title(svg: &mut Vec<u8>, cards: &[Card], under: Prefix) -> Result<(), AllocError> {
    let mut title = Vec::from_slice(*svg.allocator(), b"Delegation tree under ")?;
    write_prefix(&mut title, under)?;
    if let Some(first) = cards.first() {
        title.extend_from_slice(b", in the zone ")?;
        title.extend_from_slice(&first.label)?;
    }
    let at = Point {
        x: MARGIN,
        y: TITLE.saturating_sub(LINE),
    };
    push_text(svg, at, Style::Bold, &title)
}

/// The delegation tree of a register under a prefix, as a standalone SVG: from left to right the server groups, each as
/// a box with its kind and its locators, and lines for what one delegates to another. The first box is that of the
/// longest zone that covers the prefix. Zones that one box delegates to one group are in one box. Those that are more
/// than `most` boxes below the first are counted in the box above. Sites are counted in the boxes of their Map-Servers.
/// A box of one zone has a strip in which holes are shaded. Fails only if out of memory.
pub fn tree_picture(
    alloc: Global,
    accepted: &Accepted,
    under: Prefix,
    most: usize,
) -> Result<Vec<u8>, AllocError> {
    let boxes = boxes_under(alloc, accepted, under, most)?;
    let cards = cards_of(alloc, accepted, &boxes)?;
    let columns = Columns::of(&cards);
    let (tops, size) = placed(alloc, &cards, columns)?;
    let width = size
        .width
        .max(text_width(LEGEND.len()).saturating_add(2 * MARGIN));
    let height = size.height.saturating_add(LINE);
    let mut svg = Vec::new(alloc);
    push_head(&mut svg, Size { width, height })?;
    push_title(&mut svg, &cards, under)?;
    push_edges(&mut svg, &cards, &tops, columns)?;
    push_cards(&mut svg, &cards, &tops, columns)?;
    let at = Point {
        x: MARGIN,
        y: size.height,
    };
    push_text(&mut svg, at, Style::Plain, LEGEND)?;
    push_end(&mut svg)?;
    Ok(svg)
}
