//! A probe of running servers: sockets, a clock, and nonces that nobody can predict.

use crate::inputs::Failure;
use ddt_asking::{BlockingWires, Client, Finding, ProbeOptions, Prober, Question};
use ddt_loop::SystemClock;
use ddt_path::Xeid;
use rand_core::SeedableRng;
use rand_pcg::Pcg32;
use std::alloc::AllocError;
use std::random::RandomSource;

/// Returns a generator of random numbers, with a seed from the system.
pub fn random_numbers(rt: &HostRuntime) -> Result<Pcg32, Failure> {
    let mut seed = [0u8; 16];
    match rt.fill_bytes(&mut seed) {
        Ok(()) => Ok(Pcg32::from_seed(seed)),
        Err(error) => Err(format!(in rt.alloc(); "no random numbers: {error}")),
    }
}

/// Binds the sockets of a probe.
fn wires_of(rt: &HostRuntime, options: &ProbeOptions) -> Result<BlockingWires, Failure> {
    let bound = match options.client {
        Client::Ddt => BlockingWires::bind(rt.alloc(), rt, options.me),
        Client::Itr => BlockingWires::bind_at(rt.alloc(), rt, options.me),
    };
    match bound {
        Ok(wires) => Ok(wires),
        Err(error) => Err(format!(in rt.alloc(); "no socket: {error}")),
    }
}

/// Asks questions over sockets.
#[derive(Drop)]
pub struct Probe<'a> {
    prober: Prober,
    wires: BlockingWires,
    clock: SystemClock<&'a HostRuntime>,
    nonces: Pcg32,
}

impl<'a> Probe<'a> {
    /// Binds the sockets. It asks servers from ports of the system's choice, and a Map-Resolver from port 4342 of the
    /// ITR's address.
    pub fn new(rt: &'a HostRuntime, options: ProbeOptions) -> Result<Probe<'a>, Failure> {
        let wires = wires_of(rt, &options)?;
        let Ok(clock) = SystemClock::new(rt) else {
            return Err(format!(in rt.alloc(); "the system tells no time"));
        };
        let nonces = random_numbers(rt)?;
        Ok(Probe {
            prober: Prober::new(rt.alloc(), options),
            wires,
            clock,
            nonces,
        })
    }

    /// Asks these questions about an identifier, and returns a finding for each.
    pub fn ask(&mut self, xeid: Xeid, questions: &[Question]) -> Result<Vec<Finding>, AllocError> {
        self.prober.ask_each(
            &mut self.wires,
            &mut self.clock,
            &mut self.nonces,
            xeid,
            questions,
        )
    }
}
