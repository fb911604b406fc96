//! One step of a resolver, whichever call it is: the input, the reply, and the progress of the pending lookups (RFC
//! 8111, section 7.3).

ghost use Rattle.std.specs.Prelude.{◌≡◌, ◌≢◌, Ok, Err, IfOk, OnOk, OnErr};
ghost use Rattle.ddt_resolver.specs.State.{moved};
ghost use Rattle.ddt_resolver.specs.declared.results.AskError.TheVariants.{Memory};
ghost use Rattle.ddt_resolver.specs.declared.step.Reply.TheVariants.{ToAsk, ToDatagram, ToTick};
ghost use Rattle.ddt_resolver.specs.Step.{Step, Wants, call_of, progress_of};

use crate::resolver::Resolver;
use crate::results::{AskError, Asked, Heard, Outgoing, Ticked, Ticket, Why};
use ddt_cache::{Entry, Moment};
use ddt_path::{Locator, Outcome, Xeid};
use ddt_trie::PrefixMap;
use std::alloc::AllocError;

/// The input of a step.
#[derive(Clone, Copy, Debug)]
pub enum Input<'a> {
    /// An ask for an identifier.
    Ask(Xeid),
    /// A datagram from a source, with its bytes. Its UDP source port is 4342: the caller drops any other.
    Datagram(Locator, &'a [u8]),
    /// A tick, for a lookup whose deadline has come.
    Tick,
}

/// The reply of a step.
#[derive(Debug, Drop)]
pub enum Reply {
    /// To an ask. Never 3 Memory: a step that is out of memory fails.
    ToAsk(Result<Asked, AskError>),
    /// To a datagram.
    ToDatagram(Heard),
    /// To a tick.
    ToTick(Ticked),
}

/// The progress of the pending lookups in a step.
#[derive(Debug, Drop)]
pub enum Progress {
    /// All lookups stay as they are: an ask was answered from the cache or refused, a datagram was ignored, or no
    /// deadline has come.
    Stays,
    /// The lookup of a ticket starts or goes on with this request.
    Sends(Ticket, Outgoing),
    /// The lookup of a ticket ends with an outcome, or with the reason why there is none.
    Ends(Ticket, Result<Outcome, Why>),
}

impl Reply {
    /// The progress of the pending lookups. It leaves out an answer from the cache, and why an ask was refused or a
    /// datagram ignored.
    pub fn progress(self) -> Progress
        ensures { result ≡ progress_of self }
    {
        match self {
            Reply::ToAsk(answer) => after_ask(answer),
            Reply::ToDatagram(heard) => after_datagram(heard),
            Reply::ToTick(ticked) => after_tick(ticked),
        }
    }
}

fn after_ask(answer: Result<Asked, AskError>) -> Progress
    ensures { result ≡ progress_of (ToAsk answer) }
{
    match answer {
        Ok(asked) => after_asked(asked),
        Err(_why) => Progress::Stays,
    }
}

fn after_asked(asked: Asked) -> Progress
    ensures { result ≡ progress_of (ToAsk (Ok asked)) }
{
    match asked {
        Asked::Answer(_outcome) => Progress::Stays,
        Asked::Sent(ticket, request) => Progress::Sends(ticket, request),
    }
}

fn after_datagram(heard: Heard) -> Progress
    ensures { result ≡ progress_of (ToDatagram heard) }
{
    match heard {
        Heard::Ignored(_why) => Progress::Stays,
        Heard::Followed(ticket, request) => Progress::Sends(ticket, request),
        Heard::Answer(ticket, outcome) => Progress::Ends(ticket, Ok(outcome)),
        Heard::GaveUp(ticket, why) => Progress::Ends(ticket, Err(why)),
    }
}

fn after_tick(ticked: Ticked) -> Progress
    ensures { result ≡ progress_of (ToTick ticked) }
{
    match ticked {
        Ticked::Nothing => Progress::Stays,
        Ticked::Sent(ticket, request) => Progress::Sends(ticket, request),
        Ticked::Answer(ticket, outcome) => Progress::Ends(ticket, Ok(outcome)),
        Ticked::GaveUp(ticket, why) => Progress::Ends(ticket, Err(why)),
    }
}

impl<M: PrefixMap<Entry>> Resolver<M> {
    /// Does one step at `now`, in milliseconds: calls `ask`, `datagram` or `tick` (RFC 8111, section 7.3). The reply
    /// has their refusals: of an ask 1 TooMany or 2 Exhausted, of a datagram 1 Undecodable to 6 NoServers. A lookup
    /// ends with an outcome or as 1 NoReply to 4 Exhausted. A tick handles one lookup, so the caller repeats it until
    /// it returns Nothing.
    ///
    /// Fails only if out of memory, when a request is to be sent or a record to be added; then nothing changes but the
    /// time.
    pub fn step(&mut self, now: Moment, input: Input<'_>) -> Result<Reply, AllocError>
        ensures step { IfOk result (λ reply. Step (moved now self.old) (call_of input.entry) self.new reply) }
        ensures unchanged { OnErr result (self.new ≡ moved now self.old) }
        ensures wanted { OnErr result (Wants (moved now self.old) (call_of input.entry)) }
    {
        match input {
            Input::Ask(x) => unless_out_of_memory(self.ask(now, x)),
            Input::Datagram(from, bytes) => Ok(Reply::ToDatagram(self.datagram(now, from, bytes)?)),
            Input::Tick => Ok(Reply::ToTick(self.tick(now)?)),
        }
    }
}

/// The reply to an ask; fails if the ask is refused as 3 Memory.
fn unless_out_of_memory(answer: Result<Asked, AskError>) -> Result<Reply, AllocError>
    ensures reply { IfOk result (λ reply. reply ≡ ToAsk answer) }
    ensures answered { OnOk result (answer ≢ Err Memory) }
    ensures memory { OnErr result (answer ≡ Err Memory) }
{
    match answer {
        Ok(asked) => Ok(Reply::ToAsk(Ok(asked))),
        Err(AskError::TooMany) => Ok(Reply::ToAsk(Err(AskError::TooMany))),
        Err(AskError::Exhausted) => Ok(Reply::ToAsk(Err(AskError::Exhausted))),
        Err(AskError::Memory) => Err(AllocError),
    }
}
