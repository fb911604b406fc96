//! The Map-Referral and the forwarded request that a server sends for a datagram.

ghost use Rattle.std.specs.Prelude.{◌≡◌, is_some, None, Some, Ok, IfOk, OnOk};
ghost use Rattle.ddt_ecm.specs.Request.{Message};
ghost use Rattle.ddt_path.specs.Path.{xeid_path};
ghost use Rattle.ddt_config.specs.Answer.{answer as answer_of};
ghost use Rattle.ddt_wire.specs.Referral.{written};
ghost use Rattle.ddt_node.specs.Decisions.{record_by};
ghost use Rattle.ddt_node.specs.Server.{ddt_request as ddt_request_of, handled as handled_of, in_buffer, ignored as ignored_of, nothing_sent, acknowledges, IsDdtRequest, HasReply, reply_to};

use crate::decision::Decision;
use crate::forward::{Forward, forward_to};
use crate::server::Server;
use ddt_ecm::{Request, read_request};
use ddt_path::Listed;
use ddt_trie::PrefixMap;
use ddt_wire::put_referral;
use std::alloc::{AllocError, Global};

/// What a server sends for a datagram.
#[derive(Debug, Drop)]
pub struct Handled {
    /// The Map-Referral, to the source of the datagram.
    pub reply: Option<Listed<u8>>,
    /// The request that is forwarded to an ETR of the site, if the answer is MS-ACK.
    pub forward: Option<Forward>,
}

/// What a server sends for a datagram, when the reply is in a buffer of the caller.
#[derive(Debug, Drop)]
pub struct BufferedReply {
    /// Whether there is a reply in the buffer.
    pub has_reply: bool,
    /// The request that is forwarded to an ETR of the site, if the answer is MS-ACK.
    pub forward: Option<Forward>,
}

impl<M: PrefixMap<u32>> Server<M> {
    /// What is sent for a datagram. A DDT Map-Request, whose bit D is set, is answered by a Map-Referral to its source,
    /// with its nonce and the answer for its identifier. On MS-ACK the datagram is also forwarded to the first ETR of
    /// the site, with that bit clear (RFC 8111, sections 7.1 and 7.2). For any other datagram nothing is sent, and
    /// nothing is allocated. Fails only if out of memory.
    pub fn handle(&self, alloc: Global, bytes: &[u8]) -> Result<Handled, AllocError>
        ensures handled { IfOk result (λ h. h ≡ handled_of self.now bytes.now) }
        ensures replied { (m : Message) → IsDdtRequest bytes.now m
            → IfOk result (λ h. HasReply h.reply (reply_to self.now m)) }
        ensures acknowledged { IfOk result (λ h. is_some h.forward ≡ acknowledges self.now bytes.now) }
        ensures ignored { ddt_request_of bytes.now ≡ None → result ≡ Ok ignored_of }
    {
        let mut buffer = Vec::new(alloc);
        let BufferedReply { has_reply, forward } = self.handle_into(alloc, bytes, &mut buffer)?;
        Ok(Handled {
            reply: if has_reply {
                Some(Listed::of(buffer))
            } else {
                None
            },
            forward,
        })
    }

    /// Does what `handle` does, but writes the reply to a buffer, in place of its content. If nothing is sent, the
    /// buffer is unchanged. Allocates only what the buffer lacks, and the forwarded request. Fails only if out of
    /// memory.
    #[tactic(auto, using(crate::proofs::AnswerLemmas::acknowledged))]
    pub fn handle_into(
        &self,
        alloc: Global,
        bytes: &[u8],
        buffer: &mut Vec<u8>,
    ) -> Result<BufferedReply, AllocError>
        ensures handled { IfOk result (λ b. in_buffer buffer.new.items b ≡ handled_of self.now bytes.now) }
        ensures replied { (m : Message) → IsDdtRequest bytes.now m
            → IfOk result (λ b. HasReply (in_buffer buffer.new.items b).reply (reply_to self.now m)) }
        ensures acknowledged { IfOk result (λ b. is_some b.forward ≡ acknowledges self.now bytes.now) }
        ensures ignored { ddt_request_of bytes.now ≡ None → result ≡ Ok nothing_sent }
        ensures kept { ddt_request_of bytes.now ≡ None → buffer.new.items ≡ buffer.old.items }
    {
        match ddt_request(bytes) {
            Some(request) => {
                let decision = self.decision(request.xeid());
                self.put_reply(&request, &decision, buffer)?;
                let forward = forward_to(alloc, decision.etr(), bytes)?;
                Ok(BufferedReply {
                    has_reply: true,
                    forward,
                })
            }
            None => Ok(BufferedReply {
                has_reply: false,
                forward: None,
            }),
        }
    }

    /// The reply of `handle` to a datagram, without a forwarded request. Fails only if out of memory.
    pub fn reply(&self, alloc: Global, bytes: &[u8]) -> Result<Option<Listed<u8>>, AllocError>
        ensures reply { IfOk result (λ r. r ≡ (handled_of self.now bytes.now).reply) }
        ensures replied { (m : Message) → IsDdtRequest bytes.now m
            → IfOk result (λ r. HasReply r (reply_to self.now m)) }
        ensures ignored { ddt_request_of bytes.now ≡ None → result ≡ Ok None }
    {
        match ddt_request(bytes) {
            Some(request) => {
                let mut buffer = Vec::new(alloc);
                let decision = self.decision(request.xeid());
                self.put_reply(&request, &decision, &mut buffer)?;
                Ok(Some(Listed::of(buffer)))
            }
            None => Ok(None),
        }
    }

    /// Writes the reply to a DDT Map-Request with this decision to a buffer, in place of its content. Fails only if out
    /// of memory.
    fn put_reply(
        &self,
        request: &Request<'_>,
        decision: &Decision<'_>,
        buffer: &mut Vec<u8>,
    ) -> Result<(), AllocError>
        requires { record_by self.now.locators (xeid_path request.now.xeid) decision.now
            ≡ answer_of self.now (xeid_path request.now.xeid) }
        ensures put { OnOk result (buffer.new.items
            ≡ written request.now.nonce (answer_of self.now (xeid_path request.now.xeid))) }
        ensures spelled { OnOk result (HasReply (Some buffer.new.items) (reply_to self.now request.now)) }
    {
        let record = decision.record(self.locators(), request.xeid());
        put_referral(buffer, request.nonce(), &record)
    }
}

/// The DDT Map-Request in these bytes. None if they are no request, or if its bit D is clear.
fn ddt_request(bytes: &[u8]) -> Option<Request<'_>>
    ensures { result ≡ ddt_request_of bytes.now }
{
    match read_request(bytes) {
        Ok(request) if request.ddt() => Some(request),
        _ => None,
    }
}
