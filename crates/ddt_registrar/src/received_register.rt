//! A received Map-Register, and how its records change a site: registration, withdrawal, lifetime and nonce.

ghost use Rattle.std.specs.Prelude.{◌≡◌, not, filter, Some, IfOk};
ghost use Rattle.std.specs.Option.{option_map};
ghost use Rattle.ddt_registrar.specs.Prepared.{live_count, nonce_count, HasRoom, IsPrepared, site_changed};
ghost use Rattle.ddt_registrar.specs.Registration.{etr_of as etr_of_locator, etrs_in, lifetime as lifetime_of};
ghost use Rattle.ddt_registrar.specs.Sender.{is_same_sender, sender_of};
ghost use Rattle.ddt_registrar.specs.Taking.{end_of};

use crate::key::is_remembered;
use crate::keyed_site::KeyedSite;
use crate::lists::{list_with_room, put};
use crate::register_checks::{etr_of, nonce_of};
use crate::registration::Registration;
use crate::sender::Sender;
use crate::site_change::SiteChange;
use ddt_foreign::Ranked;
use ddt_map_register::{MapRegister, RegisterRecord};
use ddt_path::Locator;
use std::alloc::{AllocError, Global};

/// A minute, in milliseconds.
const MINUTE: u64 = 60_000;
/// The longest lifetime of a registration, in minutes.
const MOST_MINUTES: u32 = 1_440;
/// The lifetime of a registration if the bit T is clear, in minutes.
const MINUTES: u64 = 3;

/// A Map-Register that was received.
#[derive(Clone, Copy, Debug)]
pub struct ReceivedRegister<'m, 'd> {
    pub message: &'m MapRegister<'d>,
    /// The source address.
    pub from: Locator,
    /// The moment of reception, in milliseconds.
    pub moment: u64,
}

/// The ETRs of a record, in the order of its locators. Fails only if out of memory.
fn etrs_of(alloc: Global, record: &RegisterRecord<'_>) -> Result<Vec<Ranked>, AllocError>
    ensures { IfOk result (λ etrs. etrs.items ≡ etrs_in record.now) }
{
    let mut etrs = Vec::new(alloc);
    let mut rest = record.locators();
    while let Some(locator) = rest.next() {
        if let Some(etr) = etr_of(&locator) {
            etrs.push(etr)?;
        }
    }
    Ok(etrs)
}

/// The lifetime of a record's registration, in milliseconds: its TTL, at most 1,440 minutes, if the bit T is set; else
/// three minutes.
fn lifetime(message: &MapRegister<'_>, record: &RegisterRecord<'_>) -> u64
    ensures { result ≡ lifetime_of message.now record.now }
{
    if message.head().use_ttl {
        record.ttl().min(MOST_MINUTES) as u64 * MINUTE
    } else {
        MINUTES * MINUTE
    }
}

/// How many registrations and how many last nonces a site has, if there is one.
fn counts_of(site: Option<&KeyedSite>) -> (usize, usize)
    ensures live { result.0 ≡ live_count (option_map (λ s. s.now) site.entry) }
    ensures nonces { result.1 ≡ nonce_count (option_map (λ s. s.now) site.entry) }
{
    match site {
        Some(site) => (site.live.len(), site.nonces.len()),
        None => (0, 0),
    }
}

/// Removes the registration of an xTR.
fn withdraw(live: &mut Vec<Registration>, sender: Sender)
    ensures { live.new.items ≡ filter (λ g. not (is_same_sender g.sender sender)) live.old.items }
{
    live.retain(|old| !old.sender.is_same(&sender));
}

impl<'m, 'd> ReceivedRegister<'m, 'd> {
    /// The xTR that sent it: the one that the message names, or else the one at the source address (RFC 9301, section
    /// 5.6).
    pub fn sender(&self) -> Sender
        ensures { result ≡ sender_of self.now.message.now.id self.now.from }
    {
        Sender::of(self.message.id(), self.from)
    }

    /// The moment at which a record's registration is over, in milliseconds.
    fn deadline(&self, record: &RegisterRecord<'_>) -> u64
        ensures { result ≡ end_of self.now.moment self.now.message.now record.now }
    {
        self.moment.saturating_add(lifetime(self.message, record))
    }

    /// Prepares the change by a record of a site, if there is one, that as many records before it may have changed.
    /// Fails only if out of memory.
    pub(crate) fn prepare(
        &self,
        alloc: Global,
        site: Option<&KeyedSite>,
        record: &RegisterRecord<'_>,
        before: usize,
    ) -> Result<SiteChange, AllocError>
        ensures { IfOk result (λ change. IsPrepared self.now.moment self.now.message.now
            (sender_of self.now.message.now.id self.now.from) (option_map (λ s. s.now) site.entry) before record.now
            change) }
    {
        let head = self.message.head();
        let (live, nonces) = counts_of(site);
        Ok(SiteChange {
            prefix: record.prefix(),
            registration: Registration {
                sender: self.sender(),
                key_id: head.key_id,
                algorithm: head.algorithm,
                etrs: etrs_of(alloc, record)?,
                deadline: self.deadline(record),
            },
            is_withdrawal: record.ttl() == 0,
            live: list_with_room(alloc, live, before)?,
            nonces: list_with_room(alloc, nonces, before)?,
        })
    }

    /// Changes a site as prepared: withdraws the registration of the xTR, or registers its ETRs. The nonce is recorded
    /// if the nonces of its key have to increase. Allocates nothing.
    pub(crate) fn change(&self, site: &mut KeyedSite, change: SiteChange)
        requires { HasRoom (Some site.old) 0 change }
        ensures { site.new ≡ site_changed self.now.message.now
            (sender_of self.now.message.now.id self.now.from) change site.old }
    {
        let SiteChange {
            registration,
            is_withdrawal,
            live,
            nonces,
            ..
        } = change;
        if is_withdrawal {
            withdraw(&mut site.live, self.sender());
        } else {
            put(&mut site.live, live, registration);
            site.has_registered = true;
        }
        if is_remembered(site.keys.as_slice(), &self.message.head()) {
            put(&mut site.nonces, nonces, nonce_of(self.message));
        }
    }
}
