//! The parts of a zone that are delegated or registered, as a strip of cells.

use ddt_path::Prefix;

/// The number of cells of a strip.
pub(crate) const CELLS: usize = 64;

/// The number of digits that identify a cell.
const DIGITS: u8 = 6;

/// The identifiers of a zone in the order of their digits, in 64 parts of equal size: whether a prefix in each part is
/// delegated or registered. All other parts are holes.
#[derive(Clone, Copy, Debug)]
pub(crate) struct Strip {
    zone: Prefix,
    cells: [bool; CELLS],
}

/// Which cells a prefix touches.
#[derive(Clone, Copy)]
struct Span {
    start: usize,
    count: usize,
}

/// The half of a span that a digit selects: the second half for a 1 and for the symbol of IPv6.
fn half(span: Span, digit: u8) -> Span {
    let count = span.count / 2;
    let start = match digit {
        1 | 6 => span.start.saturating_add(count),
        _ => span.start,
    };
    Span { start, count }
}

impl Strip {
    /// The strip of a zone in which nothing is delegated.
    pub(crate) fn of(zone: Prefix) -> Strip {
        Strip {
            zone,
            cells: [false; CELLS],
        }
    }

    /// The cells that a prefix in the zone touches.
    fn span(&self, inside: Prefix) -> Span {
        let mut span = Span {
            start: 0,
            count: CELLS,
        };
        for step in 0..DIGITS {
            match inside.digit(self.zone.len().saturating_add(step)) {
                Some(digit) => span = half(span, digit),
                None => break,
            }
        }
        span
    }

    /// Marks a prefix in the zone as delegated or registered.
    pub(crate) fn mark(&mut self, inside: Prefix) {
        let span = self.span(inside);
        for place in span.start..span.start.saturating_add(span.count.max(1)) {
            if let Some(cell) = self.cells.get_mut(place) {
                *cell = true;
            }
        }
    }

    /// The cells in order.
    pub(crate) fn cells(&self) -> &[bool] {
        &self.cells
    }
}
