//! Warnings about valid settings of a resolver.

use ddt_config::settings::Settings;
use ddt_path::Locator;
use ddt_sockets::ip_of;
use std::alloc::{AllocError, Global};
use std::fmt;

/// An address that `allow` covers although it must not ask: if a register names the resolver as an ETR, requests would
/// loop.
#[derive(Clone, Copy)]
pub enum SettingsWarning {
    /// A root server.
    Root(Locator),
    /// One of the resolver's own addresses.
    Own(Locator),
}

impl fmt::Display for SettingsWarning {
    fn fmt<W: fmt::Write>(&self, f: &mut fmt::Formatter<W>) -> fmt::Result {
        match self {
            SettingsWarning::Root(at) => write!(f, "allow covers a root: {}", ip_of(*at)),
            SettingsWarning::Own(at) => write!(
                f,
                "allow covers the resolver's own address: {}",
                ip_of(*at)
            ),
        }
    }
}

/// A warning for each root server and own address that `allow` covers.
pub fn warnings_of(alloc: Global, settings: &Settings) -> Result<Vec<SettingsWarning>, AllocError> {
    let mut warnings = Vec::new(alloc);
    for root in settings.roots.as_slice() {
        if settings.allows(*root) {
            warnings.push(SettingsWarning::Root(*root))?;
        }
    }
    push_own(&mut warnings, settings)?;
    Ok(warnings)
}

fn push_own(warnings: &mut Vec<SettingsWarning>, settings: &Settings) -> Result<(), AllocError> {
    for own in settings.listen.as_slice() {
        if settings.allows(*own) {
            warnings.push(SettingsWarning::Own(*own))?;
        }
    }
    Ok(())
}
