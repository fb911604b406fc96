//! Rows of a register, to stand behind those of a worked one.

/// A registered site inside the campus's silent site.
pub const REGISTERED_INSIDE: &str = "site,[0]10.1.4.128/25,,127.0.2.2\n";

/// A silent site inside the campus's registered site.
pub const SILENT_INSIDE: &str = "site,[0]10.1.2.64/26,,\n";

/// A row with too few fields.
pub const TOO_FEW_FIELDS: &str = "node,*\n";

/// A row of a kind that isn't there.
pub const NO_KIND: &str = "zone,*,root,\n";

/// A zone whose prefix has host bits.
pub const HOST_BITS: &str = "node,[0]10.0.0.1/8,ten,\n";

/// A zone of a group with a capital in its name.
pub const CAPITAL: &str = "node,[0]12.0.0.0/8,Ten,\n";

/// A site with an ETR that is no address.
pub const NO_ADDRESS: &str = "site,[0]10.1.5.0/24,,10.0.0.256\n";
