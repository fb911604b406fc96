//! Wires of a server that count its Map-Referrals by action, and the datagrams that are no Encapsulated Control
//! Message.

ghost use Rattle.std.specs.Prelude.{◌≡◌, ◌≤◌, [], ◌∷◌, length, IfOk, IfSome};
ghost use Rattle.ddt_path.specs.declared.action.Action.{Action as AnAction};
ghost use Rattle.ddt_sockets.specs.declared.wire_calls.Call.TheVariants.{Tried};
ghost use Rattle.ddt_sockets.specs.Calls.{RecordsCalls, received};
ghost use Rattle.ddt_daemon.specs.Answers.{none_answered, with_action, with_came, with_given, with_answer};

use crate::counts::one_more;
use ddt_path::{Action, Locator};
use ddt_sockets::{NetFault, Packet, Wires};
use ddt_wire::{MessageType, read_referral};

/// The counts of a server's Map-Referrals by action (RFC 8111, section 6.4), whether they could be sent or not.
#[derive(Clone, Copy, Debug, Default, PartialEq, Eq)]
pub struct AnswerCounts {
    /// Received datagrams that are no Encapsulated Control Message. A server drops them.
    pub not_encapsulated: u64,
    /// Map-Referrals, by their action.
    pub node_referral: u64,
    pub ms_referral: u64,
    pub ms_ack: u64,
    pub not_registered: u64,
    pub hole: u64,
    pub not_authoritative: u64,
}

impl AnswerCounts {
    /// Counts a received datagram.
    fn come_one(&mut self, bytes: &[u8])
        ensures { self.new ≡ with_came self.old bytes.now }
    {
        if !MessageType::Encapsulated.is_of(bytes) {
            self.not_encapsulated = one_more(self.not_encapsulated);
        }
    }

    /// Counts a sent datagram, if it is a Map-Referral.
    fn answer_one(&mut self, bytes: &[u8])
        ensures { self.new ≡ with_answer self.old bytes.now }
    {
        if let Ok(referral) = read_referral(bytes) {
            self.add(referral.action());
        }
    }

    fn add(&mut self, action: Action)
        ensures { self.new ≡ with_action self.old action }
    {
        match action {
            Action::NodeReferral => self.node_referral = one_more(self.node_referral),
            Action::MsReferral => self.ms_referral = one_more(self.ms_referral),
            Action::MsAck => self.ms_ack = one_more(self.ms_ack),
            Action::MsNotRegistered => self.not_registered = one_more(self.not_registered),
            Action::DelegationHole => self.hole = one_more(self.hole),
            Action::NotAuthoritative => {
                self.not_authoritative = one_more(self.not_authoritative);
            }
        }
    }

    /// The number of all Map-Referrals.
    pub fn referrals(&self) -> u64 {
        [
            self.node_referral,
            self.ms_referral,
            self.ms_ack,
            self.not_registered,
            self.hole,
            self.not_authoritative,
        ]
        .into_iter()
        .fold(0, u64::saturating_add)
    }
}

/// Wires of a server that count its answers.
#[derive(Drop)]
pub struct CountedAnswers<W: Wires + Drop> {
    pub wires: W,
    pub answers: AnswerCounts,
}

impl<W: Wires + Drop> CountedAnswers<W> {
    /// Wraps wires, with all counts 0.
    pub fn new(wires: W) -> CountedAnswers<W>
        ensures wires { result.wires ≡ wires }
        ensures answers { result.answers ≡ none_answered }
    {
        CountedAnswers {
            wires,
            answers: AnswerCounts::default(),
        }
    }
}

impl<W: Wires + Drop> Wires for CountedAnswers<W> {
    ghost calls = { λ counted. W.calls counted.wires };

    fn receive(&mut self, at: Locator, buffer: &mut [u8]) -> Result<Option<Packet>, NetFault>
        ensures fits { IfOk result (λ answer. IfSome answer (λ packet. packet.len ≤ length buffer.new)) }
        ensures told { RecordsCalls (W.calls self.old.wires) (received at result buffer.new ∷ [])
            (W.calls self.new.wires) }
        ensures counts { self.new.answers ≡ with_given self.old.answers result buffer.new }
    {
        let answer = self.wires.receive(at, buffer);
        if let Ok(Some(packet)) = answer {
            self.answers.come_one(&buffer[..packet.len]);
        }
        answer
    }

    fn send(&mut self, at: Locator, to: Locator, port: u16, bytes: &[u8]) -> Result<(), NetFault>
        ensures told { RecordsCalls (W.calls self.old.wires) (Tried at to port bytes.now result ∷ [])
            (W.calls self.new.wires) }
        ensures counts { self.new.answers ≡ with_answer self.old.answers bytes.now }
    {
        self.answers.answer_one(bytes);
        self.wires.send(at, to, port, bytes)
    }
}
