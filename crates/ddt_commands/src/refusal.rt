//! Why a command gives no answer, and the line that says so. Each source of refusals has a type of its own.

mod bad_word;
mod message;
mod register_file;
mod script;
mod server;

pub use bad_word::WordRefusal;
pub use message::MessageRefusal;
pub use register_file::RegisterRefusal;
pub use script::ScriptRefusal;
pub use server::ServerRefusal;
use std::alloc::AllocError;
use std::fmt;

/// Why a command refuses.
#[derive(Clone, Copy, Debug)]
pub enum Refusal<'a> {
    /// One of the words isn't what the command takes.
    BadWord(WordRefusal),
    /// The file gives no register, or the register isn't one that the command can answer of.
    NoRegister(RegisterRefusal<'a>),
    /// The file gives no script.
    NoScript(ScriptRefusal<'a>),
    /// A server or the resolver has no address, configuration or socket to run with.
    NoServer(ServerRefusal<'a>),
    /// The bytes are no message.
    NoMessage(MessageRefusal),
    OutOfMemory,
}

impl From<AllocError> for Refusal<'_> {
    ghost use Rattle.std.specs.Prelude.{◌≡◌};
    ghost use Rattle.ddt_commands.specs.declared.refusal.Refusal.TheVariants.{OutOfMemory};

    ghost from_gives = { λ e r. r ≡ OutOfMemory };

    fn from(_error: AllocError) -> Self {
        Refusal::OutOfMemory
    }
}

impl fmt::Display for Refusal<'_> {
    ghost use Rattle.ddt_commands.specs.Refusal.{refusal_text};

    ghost output = { refusal_text };

    fn fmt<W: fmt::Write>(&self, f: &mut fmt::Formatter<W>) -> fmt::Result {
        match self {
            Refusal::BadWord(why) => write!(f, "{why}"),
            Refusal::NoRegister(why) => write!(f, "{why}"),
            Refusal::NoScript(why) => write!(f, "{why}"),
            Refusal::NoServer(why) => write!(f, "{why}"),
            Refusal::NoMessage(why) => write!(f, "{why}"),
            Refusal::OutOfMemory => write!(f, "out of memory"),
        }
    }
}
