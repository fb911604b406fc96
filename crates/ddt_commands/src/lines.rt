//! What a command prints.

ghost use Rattle.std.specs.Prelude.{◌≡◌, true};

/// What a command prints: whole lines, and whether they answer all that was asked.
#[derive(Debug, Drop)]
pub struct Lines {
    pub text: Vec<u8>,
    /// Whether each identifier that was asked for has an outcome.
    pub complete: bool,
}

impl Lines {
    /// Lines that answer all that was asked.
    pub fn whole(text: Vec<u8>) -> Lines
        ensures text { result.text ≡ text }
        ensures complete { result.complete ≡ true }
    {
        Lines {
            text,
            complete: true,
        }
    }
}
