//! What commands over one register share: the register is opened, read and checked, and then the command answers.

ghost use Rattle.std.specs.Prelude.{◌≡◌, ℕ, Bool, List, Option, None, Some, Err, IsErr, IfOk, IfErr};
ghost use Rattle.std.specs.Fn.{FnReturnsAt};
ghost use Rattle.ddt_register.specs.declared.register.Register.{Register as ARegister};
ghost use Rattle.ddt_check.specs.Rules.{IsAccepted};
ghost use Rattle.ddt_commands.specs.CommandLine.Call.{Call, call_of};
ghost use Rattle.ddt_commands.specs.declared.refusal.Refusal.{Refusal as ARefusal};
ghost use Rattle.ddt_commands.specs.declared.refusal.bad_word.WordRefusal.{WordRefusal as AWordRefusal};
ghost use Rattle.ddt_commands.specs.Over.{IsTextOver, IsWhyOver};
ghost use Rattle.ddt_commands.specs.Refusal.{reading_refusal};
ghost use Rattle.ddt_commands.specs.Register.{IsRuleBroken, IsWhyNoRegister, Spell, HasBytes};

use crate::command_line::Words;
use crate::lines::Lines;
use crate::refusal::{Refusal, RegisterRefusal, WordRefusal};
use ddt_check::{Accepted, check};
use ddt_register::{ReadFault, Register, read_register};
use std::alloc::Global;
use std::io::Read;

/// A command over one register, whose path is the word of its argument `register`.
pub trait OverRegister<'a>: Sized {
    /// The first bad word of a call, from left to right.
    ghost bad_word: { Call → Option AWordRefusal };
    /// The call asks for this.
    ghost asks: { Call → Self → Type 0 };
    /// The text that a call answers of a register, where it is complete and where it isn't.
    ghost answers: { Bool → Call → ARegister → List ℕ → Type 0 };
    /// Why a call has no answer of a register.
    ghost refuses: { Call → ARegister → ARefusal → Type 0 };

    /// What the words ask for, or the first bad word.
    fn of(alloc: Global, words: &Words<'a>) -> Result<Self, WordRefusal>
        ensures good { IfOk result (λ command. bad_word (call_of words.now) ≡ None) }
        ensures asks { IfOk result (asks (call_of words.now)) }
        ensures bad { IfErr result (λ why. bad_word (call_of words.now) ≡ Some why) };

    /// The lines of the command for each call that asks for this, or why the register has none.
    fn lines(&self, alloc: Global, register: &Accepted) -> Result<Lines, Refusal<'static>>
        ensures text { (call : Call) → asks call self.now → IfOk result (λ lines.
            answers lines.complete call register.now lines.text.items) }
        ensures refused { (call : Call) → asks call self.now → IfErr result (refuses call register.now) };
}

/// The lines of a command over its register, or why there are none. The words are checked first. Then the file is opened
/// and read, the register's rules are checked, and the command answers.
pub fn lines_over<'a, C, F, O>(
    alloc: Global,
    words: &Words<'a>,
    open_file: &O,
) -> Result<Lines, Refusal<'a>>
where
    C: OverRegister<'a> + Drop,
    F: Read + Drop,
    O: Fn(&str) -> Option<F> + Drop,
    requires { O.IsAlwaysCallable open_file.now }
    ensures text { IfOk result (λ lines. IsTextOver (FnReturnsAt O.Fn open_file.now) F.remaining
        C.bad_word (C.answers lines.complete) (call_of words.now) lines.text.items) }
    ensures refused { IfErr result (IsWhyOver (FnReturnsAt O.Fn open_file.now) F.remaining
        C.bad_word C.refuses (call_of words.now)) }
{
    let command = match C::of(alloc, words) {
        Ok(command) => command,
        Err(why) => return Err(Refusal::BadWord(why)),
    };
    let path = words.value("register");
    let register = register_at(alloc, open_file(path), path)?;
    command.lines(alloc, &register)
}

/// The accepted register of a source that could be opened, or why there is none.
pub fn register_at<F: Read + Drop>(
    alloc: Global,
    source: Option<F>,
    path: &str,
) -> Result<Accepted, Refusal<'_>>
    ensures accepted { IfOk result (λ a. IsAccepted a) }
    ensures spelled { IfOk result (λ a. (bytes : List ℕ) → HasBytes F.remaining source bytes → Spell bytes a) }
    ensures refused { IfErr result (IsWhyNoRegister F.remaining source path.now) }
    ensures closed { source ≡ None → IsErr result }
{
    let Some(file) = source else {
        return Err(Refusal::NoRegister(RegisterRefusal::CannotOpen(path)));
    };
    match read_register(alloc, file) {
        Ok(register) => checked(register),
        Err(fault) => Err(refused_reading(fault)),
    }
}

/// What is refused where reading ends in a fault: 9 Memory is out of memory, 8 Read a register that can't be read, and
/// each other fault an unreadable register.
fn refused_reading(fault: ReadFault) -> Refusal<'static>
    ensures { result ≡ reading_refusal fault }
{
    match fault {
        ReadFault::Memory => Refusal::OutOfMemory,
        ReadFault::Read => Refusal::NoRegister(RegisterRefusal::CannotRead),
        fault => Refusal::NoRegister(RegisterRefusal::Unreadable(fault)),
    }
}

/// The accepted register, or the rule that it breaks. It allocates nothing.
fn checked(register: Register) -> Result<Accepted, Refusal<'static>>
    ensures accepted { IfOk result (λ a. (a ≡ register) × IsAccepted register) }
    ensures refused { IfErr result (IsRuleBroken register) }
{
    match check(register) {
        Ok(accepted) => Ok(accepted),
        Err((_, fault)) => Err(Refusal::NoRegister(RegisterRefusal::BreaksRule(fault))),
    }
}
