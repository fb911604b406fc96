//! A line of a seam: a zone or a site, what each side has of it, and what an identifier in it meets.

use crate::seam::side::{Party, Served};
use ddt_path::{Locator, Prefix, Role};
use ddt_text::{write_locator, write_prefix};
use std::alloc::AllocError;

/// What an identifier of a zone meets when one side refers it to the other.
#[derive(Clone, Copy, Debug, PartialEq, Eq)]
pub enum Meets {
    /// The other side's servers, which answer.
    Good,
    /// An address that no server of the other side has.
    Silent,
    /// NOT-AUTHORITATIVE: the servers have no zone that covers it.
    NotAuthoritative,
    /// DELEGATION-HOLE: the servers of the zone above don't have it.
    Hole,
    /// A referral to the same zone again.
    Loop,
    /// DDT nodes after a referral to Map-Servers, or Map-Servers after one to DDT nodes.
    OtherKind,
    /// The servers of the zone, which have other locators or another group name on the other side.
    OtherServers,
    /// A site with other ETRs.
    OtherEtrs,
}

impl Meets {
    /// The last field of a line.
    pub fn word(self) -> &'static str {
        match self {
            Meets::Good => "good",
            Meets::Silent => "silent",
            Meets::NotAuthoritative => "not-authoritative",
            Meets::Hole => "hole",
            Meets::Loop => "loop",
            Meets::OtherKind => "other-kind",
            Meets::OtherServers => "other-servers",
            Meets::OtherEtrs => "other-etrs",
        }
    }
}

/// Appends `PREFIX`, a tab, `PARTY delegates to KIND GROUP LOCATOR ..`, a tab, what the other side serves in the same
/// words, a tab, and what an identifier meets.
pub fn push_zone(
    text: &mut Vec<u8>,
    prefix: Prefix,
    delegates: (Party, Served),
    serves: (Party, Option<Served>),
    meets: Meets,
) -> Result<(), AllocError> {
    write_prefix(text, prefix)?;
    push_words(text, &["\t", delegates.0.word(), " delegates to"])?;
    push_served(text, delegates.1)?;
    push_words(text, &["\t", serves.0.word(), " serves"])?;
    match serves.1 {
        Some(served) => push_served(text, served)?,
        None => push_words(text, &[" nothing"])?,
    }
    push_words(text, &["\t", meets.word(), "\n"])
}

/// Appends `PREFIX`, a tab, `PARTY registers ETR ..`, a tab, what the other side registers in the same words, a tab,
/// and what an identifier meets.
pub fn push_site(
    text: &mut Vec<u8>,
    prefix: Prefix,
    first: (Party, &[Locator]),
    second: (Party, Option<&[Locator]>),
    meets: Meets,
) -> Result<(), AllocError> {
    write_prefix(text, prefix)?;
    push_words(text, &["\t", first.0.word(), " registers"])?;
    push_locators(text, first.1)?;
    push_words(text, &["\t", second.0.word(), " registers"])?;
    match second.1 {
        Some(etrs) => push_locators(text, etrs)?,
        None => push_words(text, &[" nothing"])?,
    }
    push_words(text, &["\t", meets.word(), "\n"])
}

/// Appends a blank and the kind, a blank and the group's name, and the locators.
fn push_served(text: &mut Vec<u8>, served: Served) -> Result<(), AllocError> {
    push_words(text, &[" ", kind_word(served.kind), " "])?;
    text.extend_from_slice(served.group.as_bytes())?;
    push_locators(text, served.servers.as_slice())
}

fn push_locators(text: &mut Vec<u8>, locators: &[Locator]) -> Result<(), AllocError> {
    for locator in locators {
        text.push(b' ')?;
        write_locator(text, *locator)?;
    }
    Ok(())
}

/// Appends words.
pub fn push_words(text: &mut Vec<u8>, words: &[&str]) -> Result<(), AllocError> {
    for word in words {
        text.extend_from_slice(word.as_bytes())?;
    }
    Ok(())
}

fn kind_word(kind: Role) -> &'static str {
    match kind {
        Role::Node => "node",
        Role::Ms => "ms",
    }
}
