//! Texts in HTML. All calls fail only if out of memory.

ghost use Rattle.std.specs.Prelude.{◌≡◌, ◌++◌, OnOk};
ghost use Rattle.std.specs.List.{flat_map};
ghost use Rattle.ddt_report.specs.Html.{cell_text, escaped};

use ddt_path::Listed;
use std::alloc::AllocError;

/// Appends HTML as it is.
pub(crate) fn push_text(html: &mut Vec<u8>, text: &[u8]) -> Result<(), AllocError>
    ensures { OnOk result (html.new.items ≡ html.old.items ++ text.now) }
{
    html.extend_from_slice(text)
}

/// Appends a text, with character references for the characters that HTML reserves.
pub(crate) fn push_escaped(html: &mut Vec<u8>, text: &[u8]) -> Result<(), AllocError>
    ensures { OnOk result (html.new.items ≡ html.old.items ++ escaped text.now) }
{
    for byte in text {
        match byte {
            b'"' => html.extend_from_slice(b"&quot;")?,
            b'&' => html.extend_from_slice(b"&amp;")?,
            b'\'' => html.extend_from_slice(b"&#39;")?,
            b'<' => html.extend_from_slice(b"&lt;")?,
            b'>' => html.extend_from_slice(b"&gt;")?,
            _ => html.push(*byte)?,
        }
    }
    Ok(())
}

/// Appends a field as a cell.
#[tactic(auto, unfolding(crate::specs::Html::cell_text))]
fn push_cell(html: &mut Vec<u8>, field: &[u8]) -> Result<(), AllocError>
    ensures { OnOk result (html.new.items ≡ html.old.items ++ cell_text field.now) }
{
    push_text(html, b"<td>")?;
    push_escaped(html, field)?;
    push_text(html, b"</td>")
}

/// Appends each field as a cell.
pub(crate) fn push_cells(html: &mut Vec<u8>, fields: &[Listed<u8>]) -> Result<(), AllocError>
    ensures { OnOk result (html.new.items ≡ html.old.items ++ flat_map cell_text fields.now) }
{
    for field in fields {
        push_cell(html, field.as_slice())?;
    }
    Ok(())
}
