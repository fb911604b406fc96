//! The line of a negative Map-Reply (RFC 9301, section 5.4).

ghost use Rattle.std.specs.Prelude.{◌≡◌, IfOk};
ghost use Rattle.ddt_lines.specs.Lines.{ended, reply_text};

use crate::text::{push_nonce, push_number, push_text};
use ddt_text::write_prefix;
use ddt_wire::NegativeReply;
use std::alloc::{AllocError, Global};

/// `negative nonce NONCE PREFIX ttl MINUTES`, and a line feed. Fails only if out of memory.
pub fn negative_reply_line(alloc: Global, reply: NegativeReply) -> Result<Vec<u8>, AllocError>
    ensures { IfOk result (λ line. line.items ≡ ended (reply_text reply)) }
{
    let mut line = Vec::from_slice(alloc, b"negative nonce ")?;
    push_nonce(&mut line, reply.nonce)?;
    push_text(&mut line, " ")?;
    write_prefix(&mut line, reply.prefix)?;
    push_text(&mut line, " ttl ")?;
    push_number(&mut line, reply.ttl as usize)?;
    line.push(b'\n')?;
    Ok(line)
}
