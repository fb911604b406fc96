//! A prober, which asks the questions about an identifier one after the other.

ghost use Rattle.std.specs.Prelude.{◌≡◌, ◌⊎◌, List, length, map, IfOk, OnErr};
ghost use Rattle.rand_core.specs.Stream.{next_u64};
ghost use Rattle.ddt_path.specs.Path.{xeid_path};
ghost use Rattle.ddt_sockets.specs.Turns.{most_bytes};
ghost use Rattle.ddt_asking.specs.Questions.{AreQuestions};
ghost use Rattle.ddt_asking.specs.Steps.{WireStep as AStep, HasDone};
ghost use Rattle.ddt_asking.specs.Asked.{IsAskedOfServer, IsPause, HasAsked, IsBegun, HasStopped};
ghost use Rattle.ddt_asking.specs.declared.question.Question.{Question as QuestionValue};

use crate::await_reply::{Wait, await_reply};
use crate::probe_options::ProbeOptions;
use crate::question::{Question, questions_of};
use crate::reply_match::AwaitedReply;
use crate::retries::try_until_reply;
use crate::verdict::{Finding, verdict_of};
use ddt_check::Accepted;
use ddt_ecm::write_request;
use ddt_loop::Clock;
use ddt_path::Xeid;
use ddt_sockets::{MOST_BYTES, Wires};
use rand_core::Rng;
use std::alloc::{AllocError, Global};

/// Asks servers questions over wires.
#[derive(Clone, Copy)]
pub struct Prober {
    alloc: Global,
    options: ProbeOptions,
}

impl Prober {
    /// Returns a prober with these options.
    pub fn new(alloc: Global, options: ProbeOptions) -> Prober
        ensures { result.options ≡ options }
    {
        Prober { alloc, options }
    }

    /// Asks the questions of an accepted register about an identifier, each with its own nonce, and returns a finding
    /// for each, in their order. A question is an Encapsulated DDT Map-Request, as a resolver sends it, to UDP port
    /// 4342 of a server. Its reply is the first packet from there that has its nonce and comes in time (RFC 8111,
    /// sections 6 and 7.3). There is a pause after each question; packets that come meanwhile are lost.
    ///
    /// If out of memory, it stops before the first question, or at one of them after asking those before it.
    pub fn ask<W: Wires, C: Clock, R: Rng>(
        &self,
        wires: &mut W,
        clock: &mut C,
        nonces: &mut R,
        accepted: &Accepted,
        x: Xeid,
    ) -> Result<Vec<Finding>, AllocError>
        // Each server of each set that the register demands is asked, and the register's record is demanded of it.
        ensures complete { IfOk result (λ findings.
            AreQuestions accepted.now (xeid_path x) (map (λ f. f.question) findings.items)) }
        // What is found follows from what comes over the wires, and when.
        ensures asked { IfOk result (λ findings. (steps : List AStep)
            × HasDone (W.calls wires.old) (W.calls wires.new) (C.readings clock.old) (C.readings clock.new) steps
            × HasAsked self.now.options x (R.stream nonces.old) steps findings.items (R.stream nonces.new)) }
        // Where memory runs out, nothing was asked but the questions up to one of them.
        ensures stopped { OnErr result (
            ((W.calls wires.new ≡ W.calls wires.old) × (C.readings clock.new ≡ C.readings clock.old)
            × (R.stream nonces.new ≡ R.stream nonces.old))
            ⊎ ((questions : List QuestionValue) × AreQuestions accepted.now (xeid_path x) questions
            × (steps : List AStep)
            × HasDone (W.calls wires.old) (W.calls wires.new) (C.readings clock.old) (C.readings clock.new) steps
            × HasStopped self.now.options x (R.stream nonces.old) questions steps (R.stream nonces.new))) }
    {
        let questions = questions_of(self.alloc, accepted, x)?;
        self.ask_each(wires, clock, nonces, x, &questions)
    }

    /// Asks these questions about an identifier, as `ask` asks those of a register, and returns a finding for each, in
    /// their order. If out of memory, it stops at one of them after asking those before it.
    pub fn ask_each<W: Wires, C: Clock, R: Rng>(
        &self,
        wires: &mut W,
        clock: &mut C,
        nonces: &mut R,
        x: Xeid,
        questions: &[Question],
    ) -> Result<Vec<Finding>, AllocError>
        ensures each { IfOk result (λ findings. map (λ f. f.question) findings.items ≡ questions.now) }
        ensures asked { IfOk result (λ findings. (steps : List AStep)
            × HasDone (W.calls wires.old) (W.calls wires.new) (C.readings clock.old) (C.readings clock.new) steps
            × HasAsked self.now.options x (R.stream nonces.old) steps findings.items (R.stream nonces.new)) }
        ensures stopped { OnErr result ((steps : List AStep)
            × HasDone (W.calls wires.old) (W.calls wires.new) (C.readings clock.old) (C.readings clock.new) steps
            × HasStopped self.now.options x (R.stream nonces.old) questions.now steps (R.stream nonces.new)) }
    {
        let mut buffer = [0; MOST_BYTES];
        let mut findings = Vec::new(self.alloc);
        for question in questions {
            let nonce = nonces.next_u64();
            let finding = self.ask_one(wires, clock, &mut buffer, x, nonce, *question)?;
            findings.push(finding)?;
            self.pause(wires, clock, &mut buffer);
        }
        Ok(findings)
    }

    /// Asks one question about an identifier with this nonce.
    fn ask_one<W: Wires, C: Clock>(
        &self,
        wires: &mut W,
        clock: &mut C,
        buffer: &mut [u8],
        x: Xeid,
        nonce: u64,
        question: Question,
    ) -> Result<Finding, AllocError>
        requires { length buffer.old ≡ most_bytes }
        ensures question { IfOk result (λ finding. finding.question ≡ question) }
        ensures asked { IfOk result (λ finding. (steps : List AStep)
            × HasDone (W.calls wires.old) (W.calls wires.new) (C.readings clock.old) (C.readings clock.new) steps
            × IsAskedOfServer self.now.options x nonce steps finding) }
        ensures begun { OnErr result ((steps : List AStep)
            × HasDone (W.calls wires.old) (W.calls wires.new) (C.readings clock.old) (C.readings clock.new) steps
            × IsBegun self.now.options x nonce question steps) }
        ensures room { length buffer.new ≡ most_bytes }
    {
        let client = self.options.client;
        let request = write_request(self.alloc, nonce, x, &[self.options.me], client.is_ddt())?;
        let awaited = AwaitedReply {
            client,
            from: question.to,
            nonce,
            xeid: x,
        };
        let reply = try_until_reply(wires, clock, buffer, &self.options, &request, awaited);
        let verdict = verdict_of(self.alloc, &question.demanded, awaited, buffer, reply)?;
        Ok(Finding { question, verdict })
    }

    /// Pauses after a question.
    fn pause<W: Wires, C: Clock>(&self, wires: &mut W, clock: &mut C, buffer: &mut [u8])
        requires { length buffer.old ≡ most_bytes }
        ensures pause { (steps : List AStep)
            × HasDone (W.calls wires.old) (W.calls wires.new) (C.readings clock.old) (C.readings clock.new) steps
            × IsPause self.now.options steps }
        ensures room { length buffer.new ≡ most_bytes }
    {
        let pause = self.options.pause();
        if pause == 0 {
            return;
        }
        let _lost = wires.receive(self.options.me, buffer);
        let since = clock.now().millis();
        let _none = await_reply(
            wires,
            clock,
            buffer,
            &Wait {
                at: self.options.me,
                awaited: None,
                since,
                millis: pause,
            },
        );
    }
}
