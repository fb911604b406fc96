//! A picture of one lookup as a ladder: a vertical line for each party, and an arrow for each message.

use crate::pictures::hops::{Hop, hops_of};
use crate::pictures::svg::{
    Point, Size, Style, push_end, push_head, push_line, push_text, text_width,
};
use ddt_check::Accepted;
use ddt_path::{Action, Locator, Prefix, Xeid, longest_match};
use ddt_register::Site;
use ddt_text::{write_locator, write_prefix, write_xeid};
use std::alloc::{AllocError, Global};

/// The place of the ITR's line, and of the Map-Resolver's.
const ITR: usize = 0;

const RESOLVER: usize = 1;

/// The distance between two messages, in pixels.
const ROW: usize = 36;

/// The space above the messages, in pixels.
const HEAD: usize = 96;

/// The margin of the picture, in pixels.
const MARGIN: usize = 24;

/// A party of the lookup: its name, and its address.
#[derive(Drop)]
struct Party {
    role: &'static str,
    address: Vec<u8>,
}

/// A message from one party to another.
#[derive(Drop)]
struct Message {
    from: usize,
    to: usize,
    text: Vec<u8>,
}

/// The parties, and their messages in order.
#[derive(Drop)]
struct Ladder {
    alloc: Global,
    parties: Vec<Party>,
    messages: Vec<Message>,
}

/// A part of the text of a message.
#[derive(Clone, Copy)]
enum Part {
    Word(&'static str),
    Prefix(Prefix),
    Xeid(Xeid),
    /// For how long an answer may be cached.
    Minutes(u32),
}

/// The text of some parts, with a space between two of them.
fn text_of(alloc: Global, parts: &[Part]) -> Result<Vec<u8>, AllocError> {
    let mut text = Vec::new(alloc);
    for part in parts {
        if !text.is_empty() {
            text.push(b' ')?;
        }
        match part {
            Part::Word(word) => text.extend_from_slice(word.as_bytes())?,
            Part::Prefix(prefix) => write_prefix(&mut text, *prefix)?,
            Part::Xeid(x) => write_xeid(&mut text, *x)?,
            Part::Minutes(minutes) => {
                let kept = format!(in alloc; "kept {minutes} min")?;
                text.extend_from_slice(kept.as_bytes())?;
            }
        }
    }
    Ok(text)
}

impl Ladder {
    fn push_party(&mut self, role: &'static str, address: Vec<u8>) -> Result<(), AllocError> {
        self.parties.push(Party { role, address })?;
        Ok(())
    }

    fn push(&mut self, from: usize, to: usize, parts: &[Part]) -> Result<(), AllocError> {
        let text = text_of(self.alloc, parts)?;
        self.messages.push(Message { from, to, text })?;
        Ok(())
    }

    /// The question to a server, and its answer.
    fn push_hop(&mut self, hop: &Hop, x: Xeid) -> Result<(), AllocError> {
        let place = self.parties.len();
        let mut address = Vec::new(self.alloc);
        write_locator(&mut address, hop.server)?;
        self.push_party(role_of(hop.said.action), address)?;
        self.push(RESOLVER, place, &[Part::Word("Map-Request"), Part::Xeid(x)])?;
        self.push(
            place,
            RESOLVER,
            &[
                Part::Word("Map-Referral"),
                Part::Word(hop.said.action.name()),
                Part::Prefix(hop.said.prefix),
                Part::Minutes(hop.said.ttl),
            ],
        )
    }

    /// The messages after an acknowledgement: the Map-Server forwards the request, and the ETR replies to the ITR.
    fn push_reply(&mut self, site: Option<&Site>, x: Xeid) -> Result<(), AllocError> {
        let server = self.parties.len().saturating_sub(1);
        let mut address = Vec::new(self.alloc);
        if let Some(site) = site
            && let Some(etr) = site.etrs.as_slice().first()
        {
            write_locator(&mut address, *etr)?;
        }
        let etr = self.parties.len();
        self.push_party("ETR", address)?;
        self.push(server, etr, &[Part::Word("Map-Request"), Part::Xeid(x)])?;
        let Some(site) = site else {
            return Ok(());
        };
        self.push(
            etr,
            ITR,
            &[
                Part::Word("Map-Reply"),
                Part::Prefix(site.prefix),
                Part::Word("kept as long as the ETR says"),
            ],
        )
    }

    /// The negative Map-Reply to the ITR.
    fn push_negative(&mut self, hop: &Hop) -> Result<(), AllocError> {
        self.push(
            RESOLVER,
            ITR,
            &[
                Part::Word("negative Map-Reply"),
                Part::Prefix(hop.said.prefix),
                Part::Minutes(hop.said.ttl),
            ],
        )
    }

    /// The distance between the lines of two parties, in pixels.
    fn column(&self) -> usize {
        let mut widest = 120;
        for party in &self.parties {
            widest = text_width(party.address.len()).max(widest);
        }
        widest.saturating_add(MARGIN)
    }

    /// The distance of a party's line from the left edge, in pixels.
    fn line(&self, place: usize) -> usize {
        let column = self.column();
        column.saturating_mul(place).saturating_add(column / 2)
    }

    /// The size of the picture.
    fn size(&self) -> Size {
        let mut width = self.column().saturating_mul(self.parties.len());
        for message in &self.messages {
            let start = self.line(message.from.min(message.to));
            let end = start.saturating_add(text_width(message.text.len()));
            width = end.saturating_add(MARGIN).max(width);
        }
        let rows = self.messages.len().saturating_mul(ROW);
        Size {
            width: width.saturating_add(MARGIN),
            height: HEAD.saturating_add(rows).saturating_add(MARGIN),
        }
    }
}

/// What a server is, by its answer.
fn role_of(action: Action) -> &'static str {
    match action {
        Action::NodeReferral | Action::MsReferral => "DDT node",
        Action::MsAck | Action::MsNotRegistered => "Map-Server",
        Action::DelegationHole | Action::NotAuthoritative => "DDT server",
    }
}

/// Appends the line of a party, with its name and address.
fn push_party(svg: &mut Vec<u8>, x: usize, bottom: usize, party: &Party) -> Result<(), AllocError> {
    let (role, address, top) = (58, 74, 82);
    push_line(
        svg,
        Point { x, y: top },
        Point { x, y: bottom },
        " stroke-opacity='0.5'",
    )?;
    push_text(
        svg,
        Point { x, y: role },
        Style::Heading,
        party.role.as_bytes(),
    )?;
    push_text(svg, Point { x, y: address }, Style::Note, &party.address)
}

/// Appends the arrow of a message, with its text above the left end.
fn push_message(
    svg: &mut Vec<u8>,
    from: usize,
    to: usize,
    y: usize,
    text: &[u8],
) -> Result<(), AllocError> {
    let (start, end) = (Point { x: from, y }, Point { x: to, y });
    push_line(svg, start, end, " marker-end='url(#tip)'")?;
    let at = Point {
        x: from.min(to).saturating_add(8),
        y: y.saturating_sub(6),
    };
    push_text(svg, at, Style::Plain, text)
}

/// Appends all lines of the parties.
fn push_parties(svg: &mut Vec<u8>, ladder: &Ladder, bottom: usize) -> Result<(), AllocError> {
    for (place, party) in ladder.parties.iter().enumerate() {
        push_party(svg, ladder.line(place), bottom, party)?;
    }
    Ok(())
}

/// Appends all messages, one below the other.
fn push_messages(svg: &mut Vec<u8>, ladder: &Ladder) -> Result<(), AllocError> {
    let mut y = HEAD.saturating_add(ROW / 2);
    for message in &ladder.messages {
        let (from, to) = (ladder.line(message.from), ladder.line(message.to));
        push_message(svg, from, to, y, &message.text)?;
        y = y.saturating_add(ROW);
    }
    Ok(())
}

/// The messages of a lookup.
fn ladder_of(alloc: Global, accepted: &Accepted, x: Xeid) -> Result<Ladder, AllocError> {
    let mut ladder = Ladder {
        alloc,
        parties: Vec::new(alloc),
        messages: Vec::new(alloc),
    };
    ladder.push_party("ITR", Vec::new(alloc))?;
    ladder.push_party("Map-Resolver", Vec::new(alloc))?;
    ladder.push(ITR, RESOLVER, &[Part::Word("Map-Request"), Part::Xeid(x)])?;
    let asked = hops_of(alloc, accepted, x)?;
    for hop in &asked {
        ladder.push_hop(hop, x)?;
    }
    match asked.last() {
        Some(hop) if hop.said.action == Action::MsAck => {
            let sites = accepted.register().sites.as_slice();
            ladder.push_reply(longest_match(sites, Prefix::host(x)), x)?;
        }
        Some(hop) => ladder.push_negative(hop)?,
        None => {}
    }
    Ok(ladder)
}

/// A lookup of an identifier by a Map-Resolver that remembers nothing, as a standalone SVG: a vertical line for the
/// ITR, the Map-Resolver, each server that is asked, which is the first of its referral set, and the ETR; and from the
/// top down an arrow for each message, with the time for which an answer may be cached (RFC 8111, section 8). Fails
/// only if out of memory.
pub fn ladder_picture(alloc: Global, accepted: &Accepted, x: Xeid) -> Result<Vec<u8>, AllocError> {
    let ladder = ladder_of(alloc, accepted, x)?;
    let size = ladder.size();
    let mut svg = Vec::new(alloc);
    push_head(&mut svg, size)?;
    let title = text_of(alloc, &[Part::Word("Lookup of"), Part::Xeid(x)])?;
    push_text(&mut svg, Point { x: MARGIN, y: 28 }, Style::Bold, &title)?;
    push_parties(&mut svg, &ladder, size.height.saturating_sub(MARGIN))?;
    push_messages(&mut svg, &ladder)?;
    push_end(&mut svg)?;
    Ok(svg)
}
