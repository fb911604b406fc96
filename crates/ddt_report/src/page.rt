//! The page. All calls fail only if out of memory.

ghost use Rattle.std.specs.Prelude.{◌≡◌, ◌++◌, IfOk, OnOk};
ghost use Rattle.ddt_report.specs.Page.{causes_text, closing_text, effects_text, figure_text, page_text, paths_text, picture_text, picture_title as picture_title_of};

use crate::head::push_head;
use crate::html::{push_escaped, push_text};
use crate::sections::{push_heading, push_section};
use crate::tables::Table;
use ddt_path::Listed;
use std::alloc::{AllocError, Global};

/// The texts that a page is made of.
#[derive(Debug, Drop)]
pub struct Report {
    /// The path of the register that is in force.
    pub before: Listed<u8>,
    /// The path of the register that is to replace it.
    pub after: Listed<u8>,
    /// The lines of `ddtplan diff`.
    pub changes: Listed<u8>,
    /// The lines of `ddtplan rollout`.
    pub steps: Listed<u8>,
    /// A picture of the zones, an element `svg`.
    pub picture: Listed<u8>,
}

/// The page: the summary, the picture, the sites, zones and groups that differ, the blocks that are answered
/// differently, the steps of the rollout, and what caches keep. Each of its tables has at most 1,000 rows, and a line
/// with the number of rows left out. Each field of a line is escaped; the picture is not. Fails only if out of memory.
#[tactic(auto, unfolding(crate::specs::Page::page_text))]
pub fn report_page(alloc: Global, report: &Report) -> Result<Vec<u8>, AllocError>
    ensures { IfOk result (λ page. page.items ≡ page_text report.now) }
{
    let mut html = Vec::new(alloc);
    push_head(&mut html)?;
    push_paths(&mut html, report.before.as_slice(), report.after.as_slice())?;
    push_section(&mut html, Table::Summary, report.changes.as_slice())?;
    push_picture(&mut html, report.picture.as_slice())?;
    push_causes(&mut html, report.changes.as_slice())?;
    push_effects(&mut html, report)?;
    push_closing(&mut html)?;
    Ok(html)
}

/// Appends which registers are compared, and what the marks mean.
#[tactic(auto, unfolding(crate::specs::Page::paths_text))]
fn push_paths(html: &mut Vec<u8>, before: &[u8], after: &[u8]) -> Result<(), AllocError>
    ensures { OnOk result (html.new.items ≡ html.old.items ++ paths_text before.now after.now) }
{
    push_text(html, b"<p>From <code>")?;
    push_escaped(html, before)?;
    push_text(html, b"</code> to <code>")?;
    push_escaped(html, after)?;
    push_text(html, b"</code>.</p>\n")?;
    push_text(
        html,
        b"<p class='legend'><span class='added'>added, or registered only now</span>",
    )?;
    push_text(
        html,
        b"<span class='removed'>removed, or no longer registered</span>",
    )?;
    push_text(html, b"<span class='changed'>changed</span></p>\n")
}

/// Appends the section of the picture.
#[tactic(auto, unfolding(crate::specs::Page::picture_text))]
fn push_picture(html: &mut Vec<u8>, picture: &[u8]) -> Result<(), AllocError>
    ensures { OnOk result (html.new.items ≡ html.old.items ++ picture_text picture.now) }
{
    push_heading(html, picture_title())?;
    push_figure(html, picture)
}

#[tactic(auto, unfolding(crate::specs::Page::picture_title))]
fn picture_title() -> &'static str
    ensures { result.now ≡ picture_title_of }
{
    "Zones before and after"
}

#[tactic(auto, unfolding(crate::specs::Page::figure_text))]
fn push_figure(html: &mut Vec<u8>, picture: &[u8]) -> Result<(), AllocError>
    ensures { OnOk result (html.new.items ≡ html.old.items ++ figure_text picture.now) }
{
    push_text(html, b"<figure>\n")?;
    push_text(html, picture)?;
    push_text(html, b"</figure>\n")
}

/// Appends what differs in the rows.
#[tactic(auto, unfolding(crate::specs::Page::causes_text))]
fn push_causes(html: &mut Vec<u8>, changes: &[u8]) -> Result<(), AllocError>
    ensures { OnOk result (html.new.items ≡ html.old.items ++ causes_text changes.now) }
{
    push_section(html, Table::Sites, changes)?;
    push_section(html, Table::Zones, changes)?;
    push_section(html, Table::Groups, changes)
}

/// Appends what changes for resolvers: the blocks, the steps of the rollout, and the caches.
#[tactic(auto, unfolding(crate::specs::Page::effects_text))]
fn push_effects(html: &mut Vec<u8>, report: &Report) -> Result<(), AllocError>
    ensures { OnOk result (html.new.items ≡ html.old.items ++ effects_text report.now) }
{
    push_section(html, Table::Blocks, report.changes.as_slice())?;
    push_section(html, Table::Steps, report.steps.as_slice())?;
    push_section(html, Table::Caches, report.changes.as_slice())
}

#[tactic(auto, unfolding(crate::specs::Page::closing_text))]
fn push_closing(html: &mut Vec<u8>) -> Result<(), AllocError>
    ensures { OnOk result (html.new.items ≡ html.old.items ++ closing_text) }
{
    push_text(html, b"</body>\n</html>\n")
}
