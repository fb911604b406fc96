//! The files that the tests read, and what a command has written.

use ddt_examples::registers::{CAMPUS, CAMPUS_GROWN, COLUMNS};
use ddt_plan::Reading;
use ddt_plan_commands::{
    BlocksAsked, DiffAsked, DiffOutput, ExitStatus, Form, run_blocks, run_diff,
};
use std::alloc::Global;

/// The campus, of which the sites have changed places, with other servers for them.
pub const CAMPUS_MOVED: &str = "kind,prefix,group,addresses
group-node,,root,127.0.0.1
site,[0]10.1.4.0/24,,127.0.2.9
group-node,,ten,127.0.0.10
node,*,root,
ms,[0]10.1.0.0/16,east,
node,[0]10.0.0.0/8,ten,
group-ms,,east,127.0.1.3
";

/// The campus, of which a site has another ETR.
const CAMPUS_RENUMBERED: &str = "kind,prefix,group,addresses
group-node,,root,127.0.0.1
group-node,,ten,127.0.0.10
group-ms,,east,127.0.1.1 127.0.1.2
node,*,root,
node,[0]10.0.0.0/8,ten,
ms,[0]10.1.0.0/16,east,
site,[0]10.1.2.0/24,,127.0.2.7
site,[0]10.1.4.0/24,,
";

/// What `diff` writes of the campus and the grown one.
pub const GROWN: &str = "summary\tbecome holes\tblocks 0\tIPv4 addresses 0\tIPv6 addresses 0
summary\tlose registration\tblocks 0\tIPv4 addresses 0\tIPv6 addresses 0
summary\tchange servers\tblocks 0\tIPv4 addresses 0\tIPv6 addresses 0
summary\tsites\tlost 0\tgained 0\tchanged 0
summary\tzones\tlost 0\tgained 1\tchanged 0
summary\tgroups to reload\t2


zone\t[0]10.2.0.0/16\t-\tnode far
group\tfar\tlocators\t-\t127.0.0.9
group\tfar\tadded
group\tten\tchanged
";

/// The bytes at a path; None where there is no file.
pub fn file_at(path: &str) -> Option<&'static [u8]> {
    match path {
        "campus.csv" => Some(CAMPUS.as_bytes()),
        "grown.csv" => Some(CAMPUS_GROWN.as_bytes()),
        "moved.csv" => Some(CAMPUS_MOVED.as_bytes()),
        "renumbered.csv" => Some(CAMPUS_RENUMBERED.as_bytes()),
        "columns.csv" => Some(COLUMNS.as_bytes()),
        "semicolons.csv" => Some(b"kind;prefix;group;addresses\n"),
        _ => None,
    }
}

/// How a command ended, and what it wrote.
#[derive(Drop)]
pub struct Written {
    pub end: ExitStatus,
    pub out: Vec<u8>,
    pub err: Vec<u8>,
}

/// What `blocks` is asked of the campus.
pub fn of_campus(inside: &str, with_holes: bool, counted: bool, form: Form) -> BlocksAsked<'_> {
    BlocksAsked {
        register: "campus.csv",
        inside,
        with_holes,
        counted,
        form,
    }
}

/// What `diff` is asked of the campus and a later one.
pub fn to(after: &str, reading: Reading, output: DiffOutput, form: Form) -> DiffAsked<'_> {
    DiffAsked {
        before: "campus.csv",
        after,
        reading,
        output,
        form,
    }
}

/// What `blocks` writes.
pub fn blocks_written(alloc: Global, asked: &BlocksAsked<'_>) -> Written {
    let mut err = Vec::new(alloc);
    let (end, out) = run_blocks(alloc, asked, file_at, Vec::new(alloc), &mut err);
    Written { end, out, err }
}

/// What `diff` writes.
pub fn diff_written(alloc: Global, asked: &DiffAsked<'_>) -> Written {
    let mut err = Vec::new(alloc);
    let (end, out) = run_diff(alloc, asked, file_at, Vec::new(alloc), &mut err);
    Written { end, out, err }
}
