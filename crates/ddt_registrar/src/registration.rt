//! The registration of an xTR for a site, and the last nonce of the xTR.

use crate::lists::Keyed;
use crate::sender::{Sender, is_same_id};
use ddt_foreign::Ranked;
use ddt_map_register::XtrId;
use std::marker::Model;

/// The ETRs that an xTR has registered for a site.
#[derive(Debug, Drop)]
pub struct Registration {
    pub sender: Sender,
    /// The Key ID and the Algorithm ID of the key that its message named.
    pub key_id: u8,
    pub algorithm: u8,
    /// The ETRs with their priorities, in the order of the message; at most eight.
    pub etrs: Vec<Ranked>,
    /// The moment at which it is over, in milliseconds.
    pub deadline: u64,
}

impl Model for Registration {
    ghost use Rattle.ddt_registrar.specs.State.{Registration as ARegistration};

    ghost Value = { ARegistration };

    ghost view = { λ r. record {
      sender = r.sender;
      key_id = r.key_id;
      algorithm = r.algorithm;
      etrs = r.etrs.items;
      deadline = r.deadline;
    } };
}

impl Keyed for Registration {
    ghost same = { is_same_registrant };

    ghost use Rattle.ddt_registrar.specs.Registration.{is_same_registrant};

    fn is_same(&self, other: &Self) -> bool {
        self.sender.is_same(&other.sender)
    }
}

/// The nonce of the last message that was accepted from an xTR under a key whose nonces have to increase. It outlives
/// the registration.
#[derive(Clone, Copy, Debug)]
pub struct LastNonce {
    /// The Key ID and the Algorithm ID of the key.
    pub key_id: u8,
    pub algorithm: u8,
    /// The xTR-ID and Site-ID, if the message had them.
    pub xtr: Option<XtrId>,
    pub nonce: u64,
}

impl Keyed for LastNonce {
    ghost same = { is_of_same_xtr };

    ghost use Rattle.ddt_registrar.specs.Registration.{is_of_same_xtr};

    fn is_same(&self, other: &Self) -> bool {
        self.key_id == other.key_id
            && self.algorithm == other.algorithm
            && is_same_id(self.xtr, other.xtr)
    }
}
