//! Which groups and zones an organisation runs.

ghost use Rattle.std.specs.Prelude.{◌≡◌};
ghost use Rattle.ddt_organisations.specs.Meets.{seen, runs_root as runs_root_of};

use crate::organisation::Organisation;
use ddt_path::Name;
use ddt_register::Zone;

impl Organisation {
    /// Whether it runs the group of a name.
    pub fn runs(&self, name: Name) -> bool
        ensures { result ≡ (seen self.now).runs name }
    {
        self.groups.contains(&name)
    }

    /// The zones of its register.
    pub(crate) fn zones(&self) -> &[Zone]
        ensures { result.now ≡ self.now.register.zones }
    {
        self.register.register().zones.as_slice()
    }

    /// Whether it runs the root.
    pub(crate) fn runs_root(&self) -> bool
        ensures { result ≡ runs_root_of (seen self.now) }
    {
        self.zones()
            .iter()
            .all(|z| z.prefix.len() != 0 || self.runs(z.group))
    }
}
