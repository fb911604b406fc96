//! The sites whose registrations have changed since the caller last cleared the list.

use ddt_map_register::{MapRegister, read_register};
use ddt_path::Prefix;
use std::alloc::{AllocError, Global};

/// The sites for which something was registered or withdrawn since the last `clear`.
#[derive(Debug, Drop)]
pub struct ChangedSites {
    prefixes: Vec<Prefix>,
    /// Whether there was no memory for a site.
    is_short: bool,
}

impl ChangedSites {
    /// An empty list.
    pub fn new(alloc: Global) -> ChangedSites {
        ChangedSites {
            prefixes: Vec::new(alloc),
            is_short: false,
        }
    }

    /// The EID-prefixes of the changed sites; some may occur more than once. None if there was no memory for one of
    /// them: then any site may have changed.
    pub fn prefixes(&self) -> Option<&[Prefix]> {
        if self.is_short {
            return None;
        }
        Some(self.prefixes.as_slice())
    }

    /// Empties the list.
    pub fn clear(&mut self) {
        self.prefixes.clear();
        self.is_short = false;
    }

    /// Adds the sites of the Map-Register in these bytes.
    pub(crate) fn note(&mut self, bytes: &[u8]) {
        if let Ok(message) = read_register(bytes)
            && self.note_all(&message).is_err()
        {
            self.is_short = true;
        }
    }

    fn note_all(&mut self, message: &MapRegister<'_>) -> Result<(), AllocError> {
        let mut rest = message.records();
        while let Some(record) = rest.next() {
            self.prefixes.push(record.prefix())?;
        }
        Ok(())
    }
}
