//! Memory is refused: there is no page, and the next call gives all of it.
//!
//! `.ci/memory` runs each of these tests with each growth refused in turn.

use crate::comparison::holds;
use crate::review::report::pages::page_of;
use std::alloc::AllocError;
use std::test::Fail;

#[test]
fn a_page_is_made_whole_or_not_at_all(rt: HostRuntime) -> Result<(), Fail> {
    let alloc = rt.alloc();
    let page = match page_of(alloc, "old.csv", "group\teast\tchanged\n") {
        Ok(page) => page,
        Err(AllocError) => page_of(alloc, "old.csv", "group\teast\tchanged\n")?,
    };
    holds(&rt, page.ends_with(b"</html>\n"), &"its end");
    Ok(())
}
