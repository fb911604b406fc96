//! Pages of a few lines.

use ddt_path::Listed;
use ddt_report::{Report, report_page};
use std::alloc::{AllocError, Global};

const STEPS: &str = "step\t1\tload\teast\nwait\t1 day 2 seconds\nstep\t2\tstop\told\n";

fn listed(alloc: Global, text: &str) -> Result<Listed<u8>, AllocError> {
    Ok(Listed::of(Vec::from_slice(alloc, text.as_bytes())?))
}

/// The page of these texts.
pub fn page_of(alloc: Global, before: &str, changes: &str) -> Result<Vec<u8>, AllocError> {
    let report = Report {
        before: listed(alloc, before)?,
        after: listed(alloc, "new.csv")?,
        changes: listed(alloc, changes)?,
        steps: listed(alloc, STEPS)?,
        picture: listed(alloc, "<svg></svg>\n")?,
    };
    report_page(alloc, &report)
}
