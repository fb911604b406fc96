//! Shapes of a picture in SVG 1.1, each appended to the picture so far. All calls fail only if out of memory.

ghost use Rattle.std.specs.Prelude.{◌≡◌, ◌++◌, OnOk};
ghost use Rattle.std.specs.List.{flat_map};
ghost use Rattle.ddt_report.specs.Pictures.Escaped.{escaped_byte};

use std::alloc::AllocError;

/// A place, in pixels from the left and from the top.
#[derive(Clone, Copy, Debug, PartialEq, Eq)]
pub(crate) struct Point {
    pub x: usize,
    pub y: usize,
}

/// A width and a height, in pixels.
#[derive(Clone, Copy, Debug, PartialEq, Eq)]
pub(crate) struct Size {
    pub width: usize,
    pub height: usize,
}

/// The style of a text.
#[derive(Clone, Copy, Debug, PartialEq, Eq)]
pub(crate) enum Style {
    Plain,
    Bold,
    /// Centred at its place, and bold.
    Heading,
    /// Centred at its place, and grey.
    Note,
}

impl Style {
    /// The attributes of a text in this style.
    fn attributes(self) -> &'static str {
        match self {
            Style::Plain => "",
            Style::Bold => " font-weight='bold'",
            Style::Heading => " font-weight='bold' text-anchor='middle'",
            Style::Note => " fill='#555555' text-anchor='middle'",
        }
    }
}

/// The most pixels that a text with this number of characters is wide: 7.2 for each.
pub(crate) fn text_width(characters: usize) -> usize {
    characters.saturating_mul(36) / 5
}

/// The shading of holes.
const HOLE: &[u8] = b"<pattern id='hole' width='6' height='6' patternUnits='userSpaceOnUse'>
<rect width='6' height='6' fill='#ffffff'/><path d='M0 6L6 0' stroke='#999999'/></pattern>
";

/// The tip of an arrow.
const TIP: &[u8] =
    b"<marker id='tip' viewBox='0 0 10 10' refX='10' refY='5' markerWidth='8' markerHeight='8'
 orient='auto'><path d='M0 0L10 5L0 10z' fill='#333333'/></marker>
";

/// Appends the beginning of a picture of this size, with a white background.
pub(crate) fn push_head(svg: &mut Vec<u8>, size: Size) -> Result<(), AllocError> {
    let (width, height) = (size.width, size.height);
    let alloc = *svg.allocator();
    svg.extend_from_slice(
        b"<svg xmlns='http://www.w3.org/2000/svg' font-family='sans-serif' font-size='12'",
    )?;
    let sizes = format!(in alloc;
        " width='{width}' height='{height}' viewBox='0 0 {width} {height}'>\n"
    )?;
    svg.extend_from_slice(sizes.as_bytes())?;
    svg.extend_from_slice(b"<defs>\n")?;
    svg.extend_from_slice(HOLE)?;
    svg.extend_from_slice(TIP)?;
    svg.extend_from_slice(b"</defs>\n<rect width='100%' height='100%' fill='#ffffff'/>\n")
}

/// Appends the end of a picture.
pub(crate) fn push_end(svg: &mut Vec<u8>) -> Result<(), AllocError> {
    svg.extend_from_slice(b"</svg>\n")
}

/// Appends a rectangle with a border.
pub(crate) fn push_box(
    svg: &mut Vec<u8>,
    at: Point,
    size: Size,
    fill: &str,
) -> Result<(), AllocError> {
    let (x, y, width, height) = (at.x, at.y, size.width, size.height);
    let alloc = *svg.allocator();
    let place = format!(in alloc; "<rect x='{x}' y='{y}' width='{width}' height='{height}'")?;
    svg.extend_from_slice(place.as_bytes())?;
    let colours = format!(in alloc; " fill='{fill}' stroke='#555555'/>\n")?;
    svg.extend_from_slice(colours.as_bytes())
}

/// Appends a thick frame around a rectangle.
pub(crate) fn push_frame(
    svg: &mut Vec<u8>,
    at: Point,
    size: Size,
    colour: &str,
) -> Result<(), AllocError> {
    let (x, y, width, height) = (at.x, at.y, size.width, size.height);
    let alloc = *svg.allocator();
    let place = format!(in alloc; "<rect x='{x}' y='{y}' width='{width}' height='{height}'")?;
    svg.extend_from_slice(place.as_bytes())?;
    let rest = format!(in alloc; " fill='none' stroke='{colour}' stroke-width='4'/>\n")?;
    svg.extend_from_slice(rest.as_bytes())
}

/// Appends a line from one place to another.
pub(crate) fn push_line(
    svg: &mut Vec<u8>,
    from: Point,
    to: Point,
    attributes: &str,
) -> Result<(), AllocError> {
    let (x1, y1, x2, y2) = (from.x, from.y, to.x, to.y);
    let alloc = *svg.allocator();
    let ends = format!(in alloc; "<line x1='{x1}' y1='{y1}' x2='{x2}' y2='{y2}'")?;
    svg.extend_from_slice(ends.as_bytes())?;
    let rest = format!(in alloc; " stroke='#333333'{attributes}/>\n")?;
    svg.extend_from_slice(rest.as_bytes())
}

/// Appends a text whose base line begins at a place.
pub(crate) fn push_text(
    svg: &mut Vec<u8>,
    at: Point,
    style: Style,
    text: &[u8],
) -> Result<(), AllocError> {
    let (x, y) = (at.x, at.y);
    let attributes = style.attributes();
    let alloc = *svg.allocator();
    svg.extend_from_slice(
        b"<text paint-order='stroke' stroke='#ffffff' stroke-opacity='0.8' stroke-width='3'",
    )?;
    let tag = format!(in alloc; " x='{x}' y='{y}'{attributes}>")?;
    svg.extend_from_slice(tag.as_bytes())?;
    push_escaped(svg, text)?;
    svg.extend_from_slice(b"</text>\n")
}

/// Appends a text as XML writes it.
fn push_escaped(svg: &mut Vec<u8>, text: &[u8]) -> Result<(), AllocError>
    ensures { OnOk result (svg.new.items ≡ svg.old.items ++ flat_map escaped_byte text.now) }
{
    for byte in text {
        match byte {
            b'&' => svg.extend_from_slice(b"&amp;")?,
            b'<' => svg.extend_from_slice(b"&lt;")?,
            b'>' => svg.extend_from_slice(b"&gt;")?,
            _ => svg.push(*byte)?,
        }
    }
    Ok(())
}
