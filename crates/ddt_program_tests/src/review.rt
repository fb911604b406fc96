//! Of `ddt_review`, `ddt_organisations` and `ddt_report`.

pub mod faults;
pub mod files;
pub mod pictures;
pub mod report;
pub mod seam;
pub mod sheets;
pub mod warnings;
