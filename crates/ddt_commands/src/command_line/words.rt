//! A command that was called, and its values as texts.

ghost use Rattle.std.specs.Prelude.{◌≡◌, map, option_map};
ghost use Rattle.ddt_commands.specs.CommandLine.Call.{all_values, call_of, setting, value};

use clap::ArgMatches;

/// A command that was called: its name, and the values of its arguments and options.
#[derive(Debug, Drop)]
pub struct Words<'a> {
    pub(crate) command: &'a str,
    pub(crate) matches: ArgMatches<'a>,
}

impl<'a> Words<'a> {
    /// The command's name.
    pub fn command(&self) -> &'a str
        ensures { result.now ≡ (call_of self.now).0 }
    {
        self.command
    }

    /// The word of an argument; the empty text where the command has no argument of this name.
    pub fn value(&self, name: &str) -> &'a str
        ensures { result.now ≡ value name.now (call_of self.now) }
    {
        self.matches.get_str(name).unwrap_or("")
    }

    /// The value of an option; None where it wasn't given.
    pub fn setting(&self, name: &str) -> Option<&'a str>
        ensures { option_map (λ s. s.now) result ≡ setting name.now (call_of self.now) }
    {
        self.matches.get_str(name)
    }

    /// The words of an argument that takes several, in order; None where the command has no argument of this name, or
    /// was given no word of it.
    pub fn all_values(&self, name: &str) -> Option<&[&'a str]>
        ensures { option_map (λ s. map (λ t. t.now) s.now) result ≡ all_values name.now (call_of self.now) }
    {
        self.matches.get_raw(name)
    }
}
