//! The servers that a lookup asks one after the other, and what each answers (RFC 8111, section 8.1).

ghost use Rattle.std.specs.Prelude.{◌≡◌, IfOk};
ghost use Rattle.ddt_path.specs.Path.{xeid_path};
ghost use Rattle.ddt_check.specs.Zones.{roots};
ghost use Rattle.ddt_report.specs.Pictures.Hops.{AreHops};

use ddt_check::{Accepted, says};
use ddt_path::{Action, Locator, ReferralRecord, Xeid};
use std::alloc::{AllocError, Global};

/// The most servers that a lookup asks: each referral is to a longer prefix, of at most 161 digits.
const MOST_HOPS: u8 = 162;

/// A server that is asked, and what it answers.
#[derive(Clone, Copy, Debug)]
pub struct Hop {
    pub server: Locator,
    pub said: ReferralRecord,
}

fn is_referral(action: Action) -> bool {
    matches!(action, Action::NodeReferral | Action::MsReferral)
}

/// The servers that a lookup asks for an identifier, and what each answers: first a root, and then the first locator of
/// each referral. Fails only if out of memory.
pub fn hops_of(alloc: Global, accepted: &Accepted, x: Xeid) -> Result<Vec<Hop>, AllocError>
    ensures { IfOk result (λ hops. AreHops accepted.now (xeid_path x) (roots accepted.now) hops.items) }
{
    let mut hops = Vec::new(alloc);
    let mut servers = accepted.roots();
    for _ in 0..MOST_HOPS {
        let Some(server) = servers.as_slice().first().copied() else {
            break;
        };
        let said = says(accepted, server, x);
        let goes_on = is_referral(said.action);
        servers = said.servers;
        hops.push(Hop { server, said })?;
        if !goes_on {
            break;
        }
    }
    Ok(hops)
}
