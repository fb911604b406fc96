//! The commands at a daemon's control socket.

ghost use Rattle.std.specs.Prelude.{◌≡◌, ◌↔◌, Some};
ghost use Rattle.ddt_daemon.specs.declared.control_word.ControlWord.{ControlWord as AWord};
ghost use Rattle.ddt_daemon.specs.Words.{word_text};

/// A command for a daemon.
#[derive(Clone, Copy, Debug, PartialEq, Eq)]
pub enum ControlWord {
    /// Report the counts.
    Stats,
    /// Reload the configuration or the settings.
    Reload,
    /// Drop the cached referrals: all, or those inside a prefix.
    Flush,
    /// Report the state of each server.
    Servers,
    /// Report the registrations of each site that has a key.
    Sites,
    /// Report the cached referrals: all, or those inside a prefix.
    Cache,
    /// Report the cached referral for an identifier.
    Lookup,
    /// Stop the daemon.
    Stop,
}

/// The words of the commands, in the order of the variants.
pub const WORDS: [&str; 8] = [
    "stats", "reload", "flush", "servers", "sites", "cache", "lookup", "stop",
];

impl ControlWord {
    /// The word of the command.
    pub fn text(self) -> &'static str
        ensures { result.now ≡ word_text self }
    {
        match self {
            ControlWord::Stats => "stats",
            ControlWord::Reload => "reload",
            ControlWord::Flush => "flush",
            ControlWord::Servers => "servers",
            ControlWord::Sites => "sites",
            ControlWord::Cache => "cache",
            ControlWord::Lookup => "lookup",
            ControlWord::Stop => "stop",
        }
    }

    /// The command with this word; None for any other text.
    pub fn of(line: &str) -> Option<ControlWord>
        ensures { (w : AWord) → (result ≡ Some w) ↔ (line.now ≡ word_text w) }
    {
        if line == "stats" {
            Some(ControlWord::Stats)
        } else if line == "reload" {
            Some(ControlWord::Reload)
        } else if line == "flush" {
            Some(ControlWord::Flush)
        } else if line == "servers" {
            Some(ControlWord::Servers)
        } else if line == "sites" {
            Some(ControlWord::Sites)
        } else if line == "cache" {
            Some(ControlWord::Cache)
        } else if line == "lookup" {
            Some(ControlWord::Lookup)
        } else if line == "stop" {
            Some(ControlWord::Stop)
        } else {
            None
        }
    }
}
