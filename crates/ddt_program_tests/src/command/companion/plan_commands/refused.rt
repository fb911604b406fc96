//! Memory is refused to the commands: the writer has a front of the answer, and the next call writes all.
//!
//! `.ci/memory` runs each of these tests with each growth refused in turn.

use crate::command::companion::plan_commands::files::{
    GROWN, Written, blocks_written, diff_written, of_campus, to,
};
use crate::comparison::{holds, same};
use ddt_plan::Reading::Service;
use ddt_plan_commands::Form::Text;
use ddt_plan_commands::{DiffOutput, ExitStatus};
use std::process::Abort;

/// Whether it ended so with all of the answer, or as out of memory with a front of it.
fn is_whole_or_front(rt: &impl Abort, written: &Written, end: ExitStatus, whole: &str) -> bool {
    let front = written.out.as_slice();
    if written.end == end {
        same(rt, &front, &whole.as_bytes(), &"the answer");
        return true;
    }
    holds(rt, whole.as_bytes().starts_with(front), &"the front");
    holds(
        rt,
        matches!(written.end, ExitStatus::Refused | ExitStatus::Unprinted),
        &"the end",
    );
    false
}

const BLOCKS: &str = "[0]10.1.2.0/24\tregistered [0]10.1.2.0/24 127.0.1.1 127.0.1.2
[0]10.1.4.0/24\tnot-registered [0]10.1.4.0/24 127.0.1.1 127.0.1.2
";

#[test]
fn blocks_are_written_up_to_the_refusal(rt: HostRuntime) {
    let alloc = rt.alloc();
    let asked = of_campus("*", false, false, Text);
    let first = blocks_written(alloc, &asked);
    if !is_whole_or_front(&rt, &first, ExitStatus::Answered, BLOCKS) {
        let next = blocks_written(alloc, &asked);
        is_whole_or_front(&rt, &next, ExitStatus::Answered, BLOCKS);
    }
}

#[test]
fn changes_are_written_up_to_the_refusal(rt: HostRuntime) {
    let alloc = rt.alloc();
    let asked = to("grown.csv", Service, DiffOutput::Changes, Text);
    let first = diff_written(alloc, &asked);
    if !is_whole_or_front(&rt, &first, ExitStatus::Different, GROWN) {
        let next = diff_written(alloc, &asked);
        is_whole_or_front(&rt, &next, ExitStatus::Different, GROWN);
    }
}
