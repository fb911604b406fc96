//! The files of a folder.

use crate::comparison::same;
use ddt_deploy::folders::{FileName, FolderInMemory};
use std::process::Abort;

/// A file has this text, or isn't there.
pub fn has(rt: &impl Abort, folder: &FolderInMemory, name: FileName, text: Option<&str>) {
    match (folder.bytes(name), text) {
        (Some(bytes), Some(text)) => same(rt, &bytes, &text.as_bytes(), &name),
        (found, text) => same(rt, &found.is_some(), &text.is_some(), &name),
    }
}
