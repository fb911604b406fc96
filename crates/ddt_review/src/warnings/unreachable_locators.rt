//! Why a locator can't be reached from elsewhere.

ghost use Rattle.std.specs.Prelude.{◌≡◌};
ghost use Rattle.ddt_review.specs.Warnings.UnreachableReason.{reach4, reach6, unreachable_reason as reach_of_locator, is_loopback as is_loopback_of, is_out_of_reach as is_out_of_reach_of};

use ddt_path::Locator;
use std::fmt;

/// Why a locator can't be reached from elsewhere (RFC 6890 lists the blocks).
#[derive(Clone, Copy, Debug, PartialEq, Eq)]
pub enum UnreachableReason {
    /// 0.0.0.0 or ::.
    Unspecified,
    /// 127.0.0.0/8 or ::1.
    Loopback,
    /// 169.254.0.0/16 or fe80::/10.
    LinkLocal,
    /// 224.0.0.0/4 or ff00::/8.
    Multicast,
    /// 255.255.255.255.
    Broadcast,
}

impl UnreachableReason {
    ghost use Rattle.std.specs.Prelude.{◌≡◌};
    ghost use Rattle.ddt_review.specs.Warnings.UnreachableReason.{reach_text};

    /// Its name.
    pub fn name(self) -> &'static str
        ensures { result.now ≡ reach_text self }
    {
        match self {
            UnreachableReason::Unspecified => "unspecified",
            UnreachableReason::Loopback => "loopback",
            UnreachableReason::LinkLocal => "link-local",
            UnreachableReason::Multicast => "multicast",
            UnreachableReason::Broadcast => "broadcast",
        }
    }
}

/// The name.
impl fmt::Display for UnreachableReason {
    ghost use Rattle.std.specs.Prelude.{Some};
    ghost use Rattle.ddt_review.specs.Warnings.UnreachableReason.{reach_text};

    ghost output = { λ reason. Some (reach_text reason) };

    fn fmt<W: fmt::Write>(&self, f: &mut fmt::Formatter<W>) -> fmt::Result {
        f.write_str(self.name())
    }
}

/// Why a locator can't be reached from elsewhere; None if it can.
pub fn unreachable_reason(locator: Locator) -> Option<UnreachableReason>
    ensures { result ≡ reach_of_locator locator }
{
    match locator {
        Locator::V4(number) => reach_of_v4(number),
        Locator::V6(number) => reach_of_v6(number),
    }
}

fn reach_of_v4(number: u32) -> Option<UnreachableReason>
    ensures { result ≡ reach4 number }
{
    if number == 0 {
        Some(UnreachableReason::Unspecified)
    } else if number >> 24 == 127 {
        Some(UnreachableReason::Loopback)
    } else if number >> 16 == 0xa9fe {
        Some(UnreachableReason::LinkLocal)
    } else if number >> 28 == 0xe {
        Some(UnreachableReason::Multicast)
    } else if number == u32::MAX {
        Some(UnreachableReason::Broadcast)
    } else {
        None
    }
}

fn reach_of_v6(number: u128) -> Option<UnreachableReason>
    ensures { result ≡ reach6 number }
{
    if number == 0 {
        Some(UnreachableReason::Unspecified)
    } else if number == 1 {
        Some(UnreachableReason::Loopback)
    } else if number >> 118 == 0x3fa {
        Some(UnreachableReason::LinkLocal)
    } else if number >> 120 == 0xff {
        Some(UnreachableReason::Multicast)
    } else {
        None
    }
}

/// Whether the reason is that an address is a loopback address.
pub(crate) fn is_loopback(reason: Option<UnreachableReason>) -> bool
    ensures { result ≡ is_loopback_of reason }
{
    matches!(reason, Some(UnreachableReason::Loopback))
}

/// Whether an address can't be reached. In a register that is wholly on the loopback, loopback addresses can.
pub(crate) fn is_out_of_reach(rig: bool, reason: Option<UnreachableReason>) -> bool
    ensures { result ≡ is_out_of_reach_of rig reason }
{
    match reason {
        None => false,
        Some(UnreachableReason::Loopback) => !rig,
        Some(_) => true,
    }
}
