//! `ddtplan report OLD NEW PAGE`: a page of HTML that shows a change.

use crate::inputs::{Failure, accepted_in, bytes_at, no_memory};
use crate::new_file::{new_file, write_whole};
use ddt_check::Accepted;
use ddt_deploy::rollout::steps_text;
use ddt_path::Listed;
use ddt_plan::Reading;
use ddt_plan_commands::{DiffAsked, DiffOutput, ExitStatus, Form, ReportAsked, run_diff};
use ddt_report::pictures::change_picture;
use ddt_report::{Report, report_page};
use std::alloc::{AllocError, Global};
use std::{fs, io};

/// Writes the page. It is put in the place of what was there once it is whole; if anything fails, that stays.
pub fn report(rt: &HostRuntime, asked: &ReportAsked<'_>) -> Result<ExitStatus, Failure> {
    let page = page_of(rt, asked)?;
    match put_in_place(rt, asked.page, &page) {
        Ok(()) => Ok(ExitStatus::Answered),
        Err(error) => Err(format!(in rt.alloc(); "{}: {error}", asked.page)),
    }
}

/// Returns the page of the registers at the paths.
fn page_of(rt: &HostRuntime, asked: &ReportAsked<'_>) -> Result<Vec<u8>, Failure> {
    let old = bytes_at(rt, asked.before)?;
    let new = bytes_at(rt, asked.after)?;
    page_between(rt, asked, &old, &new)
}

/// Returns the page of the registers with these bytes.
fn page_between(
    rt: &HostRuntime,
    asked: &ReportAsked<'_>,
    old: &[u8],
    new: &[u8],
) -> Result<Vec<u8>, Failure> {
    let before = accepted_in(rt, asked.before, old)?;
    let after = accepted_in(rt, asked.after, new)?;
    let changes = changes_of(rt.alloc(), asked, old, new).map_err(no_memory)?;
    page_with(rt.alloc(), asked, changes, &before, &after).map_err(no_memory)
}

/// Returns the page of two registers, with the lines of what changes.
fn page_with(
    alloc: Global,
    asked: &ReportAsked<'_>,
    changes: Vec<u8>,
    before: &Accepted,
    after: &Accepted,
) -> Result<Vec<u8>, AllocError> {
    let report = Report {
        changes: Listed::of(changes),
        before: listed(alloc, asked.before)?,
        after: listed(alloc, asked.after)?,
        steps: Listed::of(steps_text(alloc, before, after)?),
        picture: Listed::of(change_picture(alloc, before, after)?),
    };
    report_page(alloc, &report)
}

fn listed(alloc: Global, text: &str) -> Result<Listed<u8>, AllocError> {
    Ok(Listed::of(Vec::from_slice(alloc, text.as_bytes())?))
}

/// Returns the lines of `diff` on two registers that are accepted. Fails only if out of memory.
fn changes_of(
    alloc: Global,
    asked: &ReportAsked<'_>,
    old: &[u8],
    new: &[u8],
) -> Result<Vec<u8>, AllocError> {
    let diff = DiffAsked {
        before: asked.before,
        after: asked.after,
        reading: Reading::Service,
        output: DiffOutput::Changes,
        form: Form::Text,
    };
    let open_file = |path: &str| Some(if path == asked.before { old } else { new });
    let mut why = Vec::new(alloc);
    let (end, lines) = run_diff(alloc, &diff, open_file, Vec::new(alloc), &mut why);
    match end {
        ExitStatus::Answered | ExitStatus::Different => Ok(lines),
        ExitStatus::Refused | ExitStatus::Unprinted => Err(AllocError),
    }
}

/// Writes a new file beside the path and renames it. What is at the path is replaced, and a link there is never
/// followed.
fn put_in_place(rt: &HostRuntime, path: &str, page: &[u8]) -> io::Result<()> {
    let (file, beside) = new_file(rt, |mark| {
        let digits = std::str::from_utf8(mark.as_bytes()).unwrap_or("");
        Ok(format!(in rt.alloc(); "{path}.{digits}.new")?)
    })?;
    let renamed = match write_whole(file, page) {
        Ok(()) => fs::rename(rt, beside.as_str(), path),
        Err(error) => Err(error),
    };
    if renamed.is_err() {
        let _ = fs::remove_file(rt, beside.as_str());
    }
    renamed
}
