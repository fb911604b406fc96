//! The kind of a file, by its keys.

use toml::Table;

/// The kind of a file.
#[derive(Clone, Copy, PartialEq, Eq)]
pub enum FileKind {
    /// The configuration of a server.
    Configuration,
    /// The settings of a resolver.
    ResolverSettings,
    /// The settings of a server.
    ServerSettings,
    /// The keys of sites.
    Keys,
}

impl FileKind {
    /// The kind by the keys at the top: `roots` or `listen` for a resolver's settings, `name` or `kind` for a
    /// configuration, `allow` for a server's settings, and `key` or `keys` for keys of sites. With none of them it is a
    /// configuration.
    pub fn of(table: &Table) -> FileKind {
        let has = |key: &str| table.get(key).is_some();
        if has("roots") || has("listen") {
            FileKind::ResolverSettings
        } else if has("name") || has("kind") {
            FileKind::Configuration
        } else if has("allow") {
            FileKind::ServerSettings
        } else if has("key") || has("keys") {
            FileKind::Keys
        } else {
            FileKind::Configuration
        }
    }

    /// Whether the file has settings.
    pub fn has_settings(self) -> bool {
        matches!(self, FileKind::ResolverSettings | FileKind::ServerSettings)
    }
}
