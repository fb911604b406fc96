//! The line of an encapsulated Map-Request (RFC 9301, sections 5.2 and 5.8).

ghost use Rattle.std.specs.Prelude.{◌≡◌, ◌++◌, IfOk, OnOk};
ghost use Rattle.ddt_lines.specs.Lines.{client_text, ended, request_text, spaced};

use crate::text::{push_locator, push_nonce, push_number, push_text};
use ddt_ecm::{Request, Rlocs};
use ddt_text::write_xeid;
use std::alloc::{AllocError, Global};

/// `request nonce NONCE ddt XEID port PORT itr LOCATORS`, with `plain` where an ITR asks, and a line feed. Fails only
/// if out of memory.
pub fn request_line(alloc: Global, request: &Request<'_>) -> Result<Vec<u8>, AllocError>
    ensures { IfOk result (λ line. line.items ≡ ended (request_text request.now)) }
{
    let mut line = Vec::from_slice(alloc, b"request nonce ")?;
    push_nonce(&mut line, request.nonce())?;
    push_text(&mut line, client(request.ddt()))?;
    write_xeid(&mut line, request.xeid())?;
    push_text(&mut line, " port ")?;
    push_number(&mut line, request.port() as usize)?;
    push_text(&mut line, " itr")?;
    push_itr_rlocs(&mut line, request.itr_rlocs())?;
    line.push(b'\n')?;
    Ok(line)
}

fn client(ddt: bool) -> &'static str
    ensures { result.now ≡ client_text ddt }
{
    if ddt { " ddt " } else { " plain " }
}

fn push_itr_rlocs(line: &mut Vec<u8>, rlocs: Rlocs<'_>) -> Result<(), AllocError>
    ensures { OnOk result (line.new.items ≡ line.old.items ++ spaced rlocs.entry) }
{
    for rloc in rlocs {
        push_locator(line, rloc)?;
    }
    Ok(())
}
