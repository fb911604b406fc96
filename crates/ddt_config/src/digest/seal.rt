//! The seal of a configuration, and its check against a configuration.

ghost use Rattle.std.specs.Prelude.{◌≡◌, ◌≢◌, IfOk, IfErr, IfSome};
ghost use Rattle.ddt_config.specs.Table.{outline};
ghost use Rattle.ddt_config.specs.declared.digest.fault.SealFault.TheVariants.{Memory};
ghost use Rattle.ddt_config.specs.Digest.Sealed.{IsSealOf, IsOtherSeal, same_count as same_count_of, compared as compared_with};

use crate::digest::counts::{Counts, counts_of};
use crate::digest::fault::{Key, SealFault};
use crate::{ServerConfig, to_toml};
use sha2::{Digest, Sha256};
use std::alloc::{AllocError, Global};

/// The counts and the digest of a configuration.
#[derive(Clone, Copy, Debug, PartialEq, Eq)]
pub struct Seal {
    pub counts: Counts,
    /// The SHA-256 of the text that `to_toml` returns for the configuration.
    pub digest: [u8; 32],
}

/// Returns the seal of a configuration. Fails only if out of memory.
pub fn seal_of(alloc: Global, config: &ServerConfig) -> Result<Seal, AllocError>
    ensures { IfOk result (λ seal. IsSealOf seal (outline config.now)) }
{
    let text = to_toml(alloc, config)?;
    Ok(Seal {
        counts: counts_of(config),
        digest: Sha256::digest(text.as_bytes()),
    })
}

/// Returns the configuration's own seal, where `said` is None or equal to it. Refused by the first difference, in the
/// order authorities, children, sites, digest; or as Memory.
pub fn check_seal(
    alloc: Global,
    said: Option<Seal>,
    config: &ServerConfig,
) -> Result<Seal, SealFault>
    ensures own { IfOk result (λ own. IsSealOf own (outline config.now)) }
    ensures same { IfOk result (λ own. IfSome said (λ seal. seal ≡ own)) }
    ensures other { IfErr result (λ fault. fault ≢ Memory → IsOtherSeal said (outline config.now) fault) }
{
    let own = seal_of(alloc, config)?;
    match said {
        None => Ok(own),
        Some(seal) => match compared(seal, own) {
            Ok(()) => Ok(own),
            Err(fault) => Err(fault),
        },
    }
}

/// Returns the first difference between the seal in a text and the configuration's own.
fn compared(said: Seal, own: Seal) -> Result<(), SealFault>
    ensures { result ≡ compared_with said own }
{
    same_count(
        Key::Authorities,
        said.counts.authorities,
        own.counts.authorities,
    )?;
    same_count(Key::Children, said.counts.children, own.counts.children)?;
    same_count(Key::Sites, said.counts.sites, own.counts.sites)?;
    if said.digest == own.digest {
        Ok(())
    } else {
        Err(SealFault::Digest)
    }
}

fn same_count(key: Key, said: u32, found: u32) -> Result<(), SealFault>
    ensures { result ≡ same_count_of key said found }
{
    if said == found {
        Ok(())
    } else {
        Err(SealFault::Count { key, said, found })
    }
}
