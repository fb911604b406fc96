//! The places of the boxes of a delegation tree: a column for each depth, from left to right, and in a column one below
//! the other. No box is higher than the one that delegates to it.

use crate::pictures::cards::{Card, PADDING};
use crate::pictures::svg::{Point, Size, text_width};
use std::alloc::{AllocError, Global};

/// The margin of the picture, in pixels.
pub(crate) const MARGIN: usize = 24;

/// The space above the boxes for the title, in pixels.
pub(crate) const TITLE: usize = 40;

/// The distance between two boxes of a column, in pixels.
const APART: usize = 16;

/// The distance of the corner of a line from the box on its left, and of its text from the corner, in pixels.
pub(crate) const CORNER: usize = 16;

/// The columns of boxes.
#[derive(Clone, Copy, Debug)]
pub(crate) struct Columns {
    /// The width of each box, in pixels.
    pub width: usize,
    /// The distance between two columns, in pixels.
    pub gap: usize,
}

impl Columns {
    /// The columns in which the texts of all cards fit.
    pub(crate) fn of(cards: &[Card]) -> Columns {
        let mut columns = Columns {
            width: 160,
            gap: 64,
        };
        for card in cards {
            let label = text_width(card.label.len());
            columns.width = columns.width.max(card.width().saturating_add(2 * PADDING));
            columns.gap = columns.gap.max(label.saturating_add(3 * CORNER));
        }
        columns
    }

    /// The distance of the boxes of a depth from the left edge, in pixels.
    pub(crate) fn left(self, depth: usize) -> usize {
        let column = self.width.saturating_add(self.gap);
        MARGIN.saturating_add(column.saturating_mul(depth))
    }
}

/// The lowest edge of the boxes in each column and in all columns on its right.
#[derive(Drop)]
struct Floors {
    edges: Vec<usize>,
}

impl Floors {
    /// The edge below which a column and all on its right are still empty.
    fn at(&self, depth: usize) -> usize {
        match self.edges.get(depth) {
            Some(edge) => *edge,
            None => TITLE,
        }
    }

    /// Records that a box of a column reaches down to an edge.
    fn lower(&mut self, depth: usize, edge: usize) -> Result<(), AllocError> {
        for column in 0..depth.saturating_add(1) {
            match self.edges.get_mut(column) {
                Some(lowest) => *lowest = (*lowest).max(edge),
                None => self.edges.push(edge)?,
            }
        }
        Ok(())
    }
}

/// The height of the box at a place, if it has one already.
fn top_of(tops: &[Point], parent: Option<usize>) -> usize {
    match parent {
        Some(place) => match tops.get(place) {
            Some(top) => top.y,
            None => TITLE,
        },
        None => TITLE,
    }
}

/// Where each box begins, in their order, and the size of the whole picture. Fails only if out of memory.
pub(crate) fn placed(
    alloc: Global,
    cards: &[Card],
    columns: Columns,
) -> Result<(Vec<Point>, Size), AllocError> {
    let mut tops = Vec::with_capacity(alloc, cards.len())?;
    let mut floors = Floors {
        edges: Vec::new(alloc),
    };
    let mut right = 0;
    for card in cards {
        let top = Point {
            x: columns.left(card.depth),
            y: top_of(&tops, card.parent).max(floors.at(card.depth)),
        };
        let bottom = top.y.saturating_add(card.height());
        floors.lower(card.depth, bottom.saturating_add(APART))?;
        right = top.x.saturating_add(columns.width).max(right);
        tops.push(top)?;
    }
    let size = Size {
        width: right.saturating_add(MARGIN),
        height: floors.at(0).saturating_add(MARGIN),
    };
    Ok((tops, size))
}
