//! Configurations, a group each, as `ddt compile` prints them; those of the campus are in `examples/campus`.

/// The servers of group `root`.
pub const ROOT: &str = r#"kind = "node"
locators = ["127.0.0.1"]
name = "root"

[[authority]]
prefix = "*"

[[authority.child]]
kind = "node"
locators = ["127.0.0.10"]
prefix = "[0]10.0.0.0/8"
"#;

/// The servers of group `ten`.
pub const TEN: &str = r#"kind = "node"
locators = ["127.0.0.10"]
name = "ten"

[[authority]]
prefix = "[0]10.0.0.0/8"

[[authority.child]]
kind = "ms"
locators = ["127.0.1.1", "127.0.1.2"]
prefix = "[0]10.1.0.0/16"
"#;

/// The servers of group `east`.
pub const EAST: &str = r#"kind = "ms"
locators = ["127.0.1.1", "127.0.1.2"]
name = "east"

[[authority]]
prefix = "[0]10.1.0.0/16"

[[authority.site]]
etrs = ["127.0.2.1"]
prefix = "[0]10.1.2.0/24"

[[authority.site]]
etrs = []
prefix = "[0]10.1.4.0/24"
"#;

/// Group `east` as a person may write it: the keys in another order.
pub const EAST_BY_HAND: &str = r#"name = "east"
kind = "ms"
locators = ["127.0.1.1", "127.0.1.2"]
[[authority]]
prefix = "[0]10.1.0.0/16"
[[authority.site]]
prefix = "[0]10.1.2.0/24"
etrs = ["127.0.2.1"]
[[authority.site]]
prefix = "[0]10.1.4.0/24"
etrs = []
"#;

/// The servers of group `east` of the nested sites: `examples/nested_sites/east.toml`. The other groups are the
/// campus's.
pub const NESTED_EAST: &str = r#"kind = "ms"
locators = ["127.0.1.1", "127.0.1.2"]
name = "east"

[[authority]]
prefix = "[0]10.1.0.0/16"

[[authority.site]]
etrs = ["127.0.2.1"]
prefix = "[0]10.1.2.0/24"

[[authority.site]]
etrs = []
prefix = "[0]10.1.4.0/24"

[[authority.site]]
etrs = ["127.0.2.2"]
prefix = "[0]10.1.4.128/25"

[[authority.site]]
etrs = []
prefix = "[0]10.1.2.64/26"
"#;

/// The servers of group `root` of the shared group, which are in charge of a zone below another group's too.
pub const SHARED_ROOT: &str = r#"kind = "node"
locators = ["127.0.0.1"]
name = "root"

[[authority]]
prefix = "*"

[[authority.child]]
kind = "node"
locators = ["127.0.0.10"]
prefix = "[0]10.0.0.0/8"

[[authority]]
child = []
prefix = "[0]10.1.0.0/16"
"#;

/// A node group with two authorities, the first with a node and a Map-Server below it.
pub const TWO_AUTHORITIES: &str = r#"kind = "node"
locators = ["127.0.0.1", "2001:db8::1"]
name = "root"

[[authority]]
prefix = "*"

[[authority.child]]
kind = "node"
locators = ["127.0.0.10"]
prefix = "[0]10.0.0.0/8"

[[authority.child]]
kind = "ms"
locators = ["127.0.1.1", "127.0.1.2"]
prefix = "[16/28]*"

[[authority]]
child = []
prefix = "[7]2001:db8::/32"
"#;

/// The same as a person may write it: the keys in another order, and no empty list.
pub const TWO_AUTHORITIES_BY_HAND: &str = r#"name = "root"
kind = "node"
locators = ["127.0.0.1", "2001:db8::1"]
[[authority]]
prefix = "*"
[[authority.child]]
prefix = "[0]10.0.0.0/8"
kind = "node"
locators = ["127.0.0.10"]
[[authority.child]]
prefix = "[16/28]*"
kind = "ms"
locators = ["127.0.1.1", "127.0.1.2"]
[[authority]]
prefix = "[7]2001:db8::/32"
"#;

/// Group `east` of the scattered rows, as a person may write it.
pub const SCATTERED_EAST: &str = r#"name = "east"
kind = "ms"
locators = ["127.0.1.1"]
[[authority]]
prefix = "[0]10.1.0.0/16"
[[authority.site]]
prefix = "[0]10.1.2.0/24"
etrs = ["127.0.2.1"]
[[authority]]
prefix = "[0]10.2.0.0/16"
[[authority.site]]
prefix = "[0]10.2.0.0/16"
etrs = []
"#;

/// Group `ten` of the scattered rows, as a person may write it.
pub const SCATTERED_TEN: &str = r#"name = "ten"
kind = "node"
locators = ["127.0.0.10"]
[[authority]]
prefix = "[0]10.0.0.0/8"
[[authority.child]]
prefix = "[0]10.1.0.0/16"
kind = "ms"
locators = ["127.0.1.1"]
[[authority.child]]
prefix = "[0]10.2.0.0/16"
kind = "ms"
locators = ["127.0.1.1"]
"#;

/// Map-Servers with a site of two ETRs.
pub const TWO_ETRS: &str = r#"name = "west"
kind = "ms"
locators = ["127.0.3.1"]
[[authority]]
prefix = "[7]2001:db8::/32"
[[authority.site]]
prefix = "[7]2001:db8:1::/48"
etrs = ["2001:db8::2", "2001:db8::1"]
"#;
