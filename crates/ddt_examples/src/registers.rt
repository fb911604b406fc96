//! Registers, as CSV.

/// The line that each register begins with.
pub const COLUMNS: &str = "kind,prefix,group,addresses\n";

/// The root, a node for 10.0.0.0/8, and Map-Servers for 10.1.0.0/16 with two sites: `examples/campus.csv`.
pub const CAMPUS: &str = r#"kind,prefix,group,addresses
group-node,,root,127.0.0.1
group-node,,ten,127.0.0.10
group-ms,,east,127.0.1.1 127.0.1.2
node,*,root,
node,[0]10.0.0.0/8,ten,
ms,[0]10.1.0.0/16,east,
site,[0]10.1.2.0/24,,127.0.2.1
site,[0]10.1.4.0/24,,
"#;

/// The campus with a zone more: `examples/campus_grown.csv`.
pub const CAMPUS_GROWN: &str = r#"kind,prefix,group,addresses
group-node,,root,127.0.0.1
group-node,,ten,127.0.0.10
group-ms,,east,127.0.1.1 127.0.1.2
node,*,root,
node,[0]10.0.0.0/8,ten,
ms,[0]10.1.0.0/16,east,
site,[0]10.1.2.0/24,,127.0.2.1
site,[0]10.1.4.0/24,,
group-node,,far,127.0.0.9
node,[0]10.2.0.0/16,far,
"#;

/// Node zones alone; that of `ten` is wider than in the campus: `examples/wider_zone.csv`.
pub const WIDER_ZONE: &str = r#"kind,prefix,group,addresses
group-node,,root,127.0.0.1
group-node,,ten,127.0.0.10
group-node,,far,127.0.0.9
node,*,root,
node,[0]10.0.0.0/7,ten,
node,[0]10.0.0.0/8,far,
"#;

/// The campus with a site inside each of its two sites: `examples/nested_sites.csv`.
pub const NESTED_SITES: &str = r#"kind,prefix,group,addresses
group-node,,root,127.0.0.1
group-node,,ten,127.0.0.10
group-ms,,east,127.0.1.1 127.0.1.2
node,*,root,
node,[0]10.0.0.0/8,ten,
ms,[0]10.1.0.0/16,east,
site,[0]10.1.2.0/24,,127.0.2.1
site,[0]10.1.4.0/24,,
site,[0]10.1.4.128/25,,127.0.2.2
site,[0]10.1.2.64/26,,
"#;

/// One group that serves the root, and a zone inside another group's zone: `examples/shared_group.csv`.
pub const SHARED_GROUP: &str = r#"kind,prefix,group,addresses
group-node,,root,127.0.0.1
group-node,,ten,127.0.0.10
node,*,root,
node,[0]10.0.0.0/8,ten,
node,[0]10.1.0.0/16,root,
"#;

/// The root alone: `examples/lone_root.csv`.
pub const LONE_ROOT: &str = r#"kind,prefix,group,addresses
group-node,,root,127.0.0.1
node,*,root,
"#;

/// The root, and a node for one address.
pub const FAR_HOST: &str = r#"kind,prefix,group,addresses
group-node,,root,127.0.0.1
node,*,root,
group-node,,far,127.0.0.9
node,[0]10.9.9.9/32,far,
"#;

/// Rows in no order: each zone before the one above it, and a site before its zone.
pub const SCATTERED: &str = r#"kind,prefix,group,addresses
ms,[0]10.1.0.0/16,east,
site,[0]10.2.0.0/16,,
node,[0]10.0.0.0/8,ten,
site,[0]10.1.2.0/24,,127.0.2.1
node,*,root,
ms,[0]10.2.0.0/16,east,
group-ms,,east,127.0.1.1
group-node,,ten,127.0.0.10
group-node,,root,127.0.0.1
"#;

/// Zones of one group inside one another, some with a zone of another group between, and sites inside sites; the rows
/// stand in no order.
pub const NESTED_ZONES: &str = r#"kind,prefix,group,addresses
site,[0]10.1.2.128/25,,127.0.2.1
ms,[0]10.1.2.0/24,east,
node,[0]10.1.0.0/16,ten,
site,[0]10.9.0.0/24,,
node,[0]10.0.0.0/8,root,
ms,[0]10.9.0.0/16,west,
node,[0]10.1.3.0/24,root,
group-ms,,west,127.0.1.9
ms,[0]10.1.3.128/25,east,
site,[0]10.1.2.0/24,,127.0.2.2 127.0.2.3
node,*,ten,
site,[0]10.1.3.192/26,,
ms,[1]2001:db8::/32,east,
site,[1]2001:db8:1::/48,,127.0.2.4
group-node,,ten,127.0.0.10
group-ms,,east,127.0.1.1
group-node,,root,127.0.0.1
node,[0]10.1.3.64/26,ten,
"#;
