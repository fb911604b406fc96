//! Memory is refused to what groups answer, to the words of a process and to lines: each comes whole or not at all, and
//! the next call gives it.
//!
//! `.ci/memory` runs each of these tests with each growth refused in turn.

use crate::command::words::{Reader, process, read_by};
use crate::comparison::{same, twice};
use ddt_check::{Accepted, check};
use ddt_command_line::{Program, command_line};
use ddt_commands::command_line::{Words, WordsFault};
use ddt_commands::{answer_group, answer_hex, register_at};
use ddt_ecm::read_request;
use ddt_examples::bytes_of;
use ddt_examples::messages::{
    DDT_REQUEST, EAST_ACKNOWLEDGES, NEGATIVE_REPLY, TEN_IS_NOT_IN_CHARGE,
};
use ddt_examples::registers::CAMPUS;
use ddt_lines::{
    accepted_line, hop_line, negative_reply_line, outcome_line, push_outcome, referral_line,
    request_line,
};
use ddt_path::{Locator, LocatorSet, Name, Outcome, Xeid};
use ddt_plan_commands::register_of;
use ddt_register::read_register;
use ddt_text::{parse_prefix, parse_xeid};
use ddt_wire::{read_negative_reply, read_referral};
use std::alloc::{AllocError, Global};
use std::process::Abort;
use std::test::Fail;

/// The campus, read once more where memory is refused, and accepted.
fn campus(alloc: Global) -> Result<Accepted, Fail> {
    let register = match read_register(alloc, CAMPUS.as_bytes()) {
        Ok(register) => register,
        Err(_refused) => read_register(alloc, CAMPUS.as_bytes())?,
    };
    match check(register) {
        Ok(accepted) => Ok(accepted),
        Err(_refused) => Err("not accepted".into()),
    }
}

/// The bytes of a worked message.
fn message(alloc: Global, fields: &str) -> Result<Vec<u8>, Fail> {
    match bytes_of(alloc, fields) {
        Ok(bytes) => Ok(bytes),
        Err(_refused) => Ok(bytes_of(alloc, fields)?),
    }
}

/// The group `east`, and an identifier of its site.
fn question() -> Result<(Name, Xeid), Fail> {
    Ok((
        Name::of(b"east").ok_or("no name")?,
        parse_xeid(b"[0]10.1.2.3")?,
    ))
}

/// What the group answers, asked for once more where memory is refused.
fn answer(alloc: Global, register: &Accepted) -> Result<Vec<u8>, Fail> {
    let (group, x) = question()?;
    let answer = match answer_group(alloc, register, group, x) {
        Ok(answer) => answer,
        Err(_refused) => answer_group(alloc, register, group, x)?,
    };
    Ok(answer.ok_or("no group")?)
}

/// The same as hexadecimal text.
fn digits(alloc: Global, register: &Accepted) -> Result<String, Fail> {
    let (group, x) = question()?;
    let answer = match answer_hex(alloc, register, group, x) {
        Ok(answer) => answer,
        Err(_refused) => answer_hex(alloc, register, group, x)?,
    };
    Ok(answer.ok_or("no group")?)
}

fn are(rt: &impl Abort, bytes: &[u8], wanted: &[u8]) {
    same(rt, &bytes, &wanted, &"the bytes");
}

#[test]
fn a_group_answers_whole(rt: HostRuntime) -> Result<(), Fail> {
    let register = campus(rt.alloc())?;
    let wanted = message(rt.alloc(), EAST_ACKNOWLEDGES)?;
    are(&rt, &answer(rt.alloc(), &register)?, &wanted);
    Ok(())
}

/// The text of the bytes.
fn encoded(alloc: Global, bytes: &[u8]) -> Result<String, AllocError> {
    match hex::encode(alloc, bytes) {
        Ok(text) => Ok(text),
        Err(_refused) => hex::encode(alloc, bytes),
    }
}

#[test]
fn a_group_answers_its_whole_text(rt: HostRuntime) -> Result<(), Fail> {
    let register = campus(rt.alloc())?;
    let message = message(rt.alloc(), EAST_ACKNOWLEDGES)?;
    let wanted = encoded(rt.alloc(), &message)?;
    are(
        &rt,
        digits(rt.alloc(), &register)?.as_bytes(),
        wanted.as_bytes(),
    );
    Ok(())
}

/// The words of a process, made once more where memory is refused.
fn made(alloc: Global, words: &[&str]) -> Result<Vec<String>, AllocError> {
    match process(alloc, words) {
        Ok(all) => Ok(all),
        Err(_refused) => process(alloc, words),
    }
}

/// The call, read once more where memory is refused. It has no other fault.
fn call<'a>(
    rt: &impl Abort,
    alloc: Global,
    reader: Reader,
    words: &'a [String],
) -> Result<Words<'a>, Fail> {
    match read_by(reader, alloc, words) {
        Ok(call) => Ok(call),
        Err(fault) => {
            same(rt, &fault, &WordsFault::Memory, &words);
            Ok(read_by(reader, alloc, words)?)
        },
    }
}

/// Words that call a command, and the values of the call.
struct Wanted {
    reader: Reader,
    words: &'static [&'static str],
    values: &'static [(&'static str, &'static str)],
    several: &'static [(&'static str, &'static [&'static str])],
    settings: &'static [(&'static str, Option<&'static str>)],
}

fn have_values(rt: &impl Abort, call: &Words<'_>, values: &[(&str, &str)]) {
    for (name, value) in values {
        same(rt, &call.value(name), value, name);
    }
}

fn have_several(rt: &impl Abort, call: &Words<'_>, several: &[(&str, &[&str])]) {
    for (name, words) in several {
        // An argument without a word has no list.
        let wanted = if words.is_empty() { None } else { Some(*words) };
        same(rt, &call.all_values(name), &wanted, name);
    }
}

fn have_settings(rt: &impl Abort, call: &Words<'_>, settings: &[(&str, Option<&str>)]) {
    for (name, setting) in settings {
        same(rt, &call.setting(name), setting, name);
    }
}

/// The call has just these words.
fn is_called(rt: &impl Abort, call: &Words<'_>, called: &Wanted) {
    same(
        rt,
        &Some(&call.command()),
        &called.words.first(),
        &called.words,
    );
    have_values(rt, call, called.values);
    have_several(rt, call, called.several);
    have_settings(rt, call, called.settings);
}

fn calls(rt: &impl Abort, alloc: Global, called: &Wanted) -> Result<(), Fail> {
    let all = made(alloc, called.words)?;
    let call = call(rt, alloc, called.reader, &all)?;
    is_called(rt, &call, called);
    Ok(())
}

/// Words that call commands.
const CALLED: &[Wanted] = &[
    Wanted {
        reader: Reader::Nine,
        words: &["check", "r"],
        values: &[("register", "r"), ("group", "")],
        several: &[("register", &["r"])],
        settings: &[],
    },
    Wanted {
        reader: Reader::Nine,
        words: &["answer", "r", "g", "x"],
        values: &[("register", "r"), ("group", "g"), ("xeid", "x")],
        several: &[("register", &["r"]), ("group", &["g"]), ("xeid", &["x"])],
        settings: &[],
    },
    Wanted {
        reader: Reader::Nine,
        words: &[
            "loop",
            "r",
            "--turns=9",
            "x",
            "y",
            "--me",
            "m",
            "--seed",
            "s",
        ],
        values: &[("register", "r")],
        several: &[("register", &["r"]), ("xeid", &["x", "y"])],
        settings: &[("turns", Some("9")), ("me", Some("m")), ("seed", Some("s"))],
    },
    Wanted {
        reader: Reader::Nine,
        words: &["replay", "--me=m", "r", "t", "u", "v", "w"],
        values: &[("register", "r"), ("script", "t")],
        several: &[
            ("register", &["r"]),
            ("script", &["t"]),
            ("registers", &["u", "v", "w"]),
        ],
        settings: &[("me", Some("m")), ("seed", None)],
    },
    Wanted {
        reader: Reader::Nine,
        words: &["replay", "r", "t", "u", "--seed", "s", "v"],
        values: &[("register", "r"), ("script", "t")],
        several: &[("registers", &["u", "v"])],
        settings: &[("me", None), ("seed", Some("s"))],
    },
    Wanted {
        reader: Reader::Nine,
        words: &["replay", "--me=m", "r", "t"],
        values: &[("register", "r"), ("script", "t")],
        several: &[("registers", &[])],
        settings: &[("me", Some("m")), ("seed", None)],
    },
    Wanted {
        reader: Reader::Nine,
        words: &["assign", "r", "x"],
        values: &[("register", "r"), ("xeid", "x")],
        several: &[],
        settings: &[],
    },
    Wanted {
        reader: Reader::Nine,
        words: &["compile", "r", "g"],
        values: &[("register", "r"), ("group", "g")],
        several: &[],
        settings: &[],
    },
    Wanted {
        reader: Reader::Nine,
        words: &["lookup", "r", "x", "--seed", "s", "y", "z"],
        values: &[("register", "r")],
        several: &[("xeid", &["x", "y", "z"])],
        settings: &[("me", None), ("seed", Some("s"))],
    },
    Wanted {
        reader: Reader::Nine,
        words: &["serve", "c", "a", "9"],
        values: &[("config", "c"), ("address", "a"), ("turns", "9")],
        several: &[],
        settings: &[],
    },
    Wanted {
        reader: Reader::Nine,
        words: &["show", "00ff"],
        values: &[("hex", "00ff")],
        several: &[],
        settings: &[],
    },
    Wanted {
        reader: Reader::Two,
        words: &["lookup", "--seed", "7", "r", "x", "y", "z"],
        values: &[("register", "r")],
        several: &[("register", &["r"]), ("xeid", &["x", "y", "z"])],
        settings: &[("seed", Some("7")), ("me", None)],
    },
    Wanted {
        reader: Reader::Two,
        words: &["lookup", "r", "x", "y", "--seed", "7", "--me=m"],
        values: &[("register", "r")],
        several: &[("xeid", &["x", "y"])],
        settings: &[("seed", Some("7")), ("me", Some("m"))],
    },
    Wanted {
        reader: Reader::Two,
        words: &["lookup", "r", "--seed=7", "x", "--me", "m", "y"],
        values: &[("register", "r")],
        several: &[("xeid", &["x", "y"])],
        settings: &[("seed", Some("7")), ("me", Some("m"))],
    },
    Wanted {
        reader: Reader::Two,
        words: &["assign", "a register.csv", "x"],
        values: &[("register", "a register.csv"), ("xeid", "x"), ("group", "")],
        several: &[("xeid", &["x"])],
        settings: &[],
    },
];

#[test]
fn words_are_read_whole(rt: HostRuntime) -> Result<(), Fail> {
    for called in CALLED {
        calls(&rt, rt.alloc(), called)?;
    }
    Ok(())
}

// ---- lines

/// What a line is of.
#[derive(Clone, Copy, Debug)]
enum LineOf {
    /// An outcome, by its word.
    Outcome(&'static str),
    /// A Map-Referral, a hop to 127.0.0.1 with one, a negative Map-Reply or a request, with these bytes.
    Referral,
    Hop,
    Reply,
    Request,
    /// The counts of a register.
    Counts(usize, usize, usize),
}

const ROOT: Locator = Locator::V4(0x7f00_0001);

/// An outcome of the prefix 10.1.2.0/24, with two servers; by a hole's word, of the prefix alone.
fn outcome(word: &str) -> Result<Outcome, Fail> {
    let prefix = parse_prefix(b"[0]10.1.2.0/24")?;
    let servers = LocatorSet::of(&[ROOT, Locator::V6(0x35)]).ok_or("too many locators")?;
    Ok(match word {
        "hole" => Outcome::Hole { prefix },
        "registered" => Outcome::Registered { prefix, servers },
        _ => Outcome::NotRegistered { prefix, servers },
    })
}

/// The line of a message with these bytes, or of another value.
fn line(alloc: Global, of: &LineOf, bytes: &[u8]) -> Result<Result<Vec<u8>, AllocError>, Fail> {
    Ok(match of {
        LineOf::Outcome(word) => outcome_line(alloc, &outcome(word)?),
        LineOf::Referral => referral_line(alloc, &read_referral(bytes)?),
        LineOf::Hop => hop_line(alloc, ROOT, &read_referral(bytes)?),
        LineOf::Reply => negative_reply_line(alloc, read_negative_reply(bytes)?),
        LineOf::Request => request_line(alloc, &read_request(bytes)?),
        LineOf::Counts(zones, sites, groups) => accepted_line(alloc, *zones, *sites, *groups),
    })
}

/// The same, made once more where memory is refused.
fn whole_line(alloc: Global, of: &LineOf, bytes: &[u8]) -> Result<Vec<u8>, Fail> {
    match line(alloc, of, bytes)? {
        Ok(line) => Ok(line),
        Err(_refused) => Ok(line(alloc, of, bytes)??),
    }
}

/// The line is this one, without its line feed.
fn has_line(
    rt: &impl Abort,
    alloc: Global,
    of: &LineOf,
    fields: &str,
    wanted: &str,
) -> Result<(), Fail> {
    let bytes = message(alloc, fields)?;
    let line = whole_line(alloc, of, &bytes)?;
    same(
        rt,
        &line.strip_suffix(b"\n"),
        &Some(wanted.as_bytes()),
        &wanted,
    );
    Ok(())
}

/// Messages, and their lines.
const LINES: &[(LineOf, &str, &str)] = &[
    (
        LineOf::Referral,
        EAST_ACKNOWLEDGES,
        "referral nonce 0000000000000001 MS-ACK [0]10.1.2.0/24 ttl 1440 complete 127.0.1.1 127.0.1.2",
    ),
    (
        LineOf::Referral,
        TEN_IS_NOT_IN_CHARGE,
        "referral nonce 0000000000000001 NOT-AUTHORITATIVE [0]11.0.0.1/32 ttl 0 incomplete",
    ),
    (
        LineOf::Hop,
        EAST_ACKNOWLEDGES,
        "127.0.0.1 MS-ACK [0]10.1.2.0/24 1440 127.0.1.1 127.0.1.2",
    ),
    (
        LineOf::Reply,
        NEGATIVE_REPLY,
        "negative nonce 1122334455667788 [0]10.2.0.0/15 ttl 15",
    ),
    (
        LineOf::Request,
        DDT_REQUEST,
        "request nonce 0000000000000001 ddt [0]10.1.2.3 port 4342 itr 127.0.0.53",
    ),
    (LineOf::Outcome("hole"), "", "hole [0]10.1.2.0/24"),
    (
        LineOf::Outcome("registered"),
        "",
        "registered [0]10.1.2.0/24 127.0.0.1 ::35",
    ),
    (
        LineOf::Outcome("not-registered"),
        "",
        "not-registered [0]10.1.2.0/24 127.0.0.1 ::35",
    ),
    (
        LineOf::Counts(3, 20, 100),
        "",
        "accepted 3 zones 20 sites 100 groups",
    ),
];

#[test]
fn lines_are_written_whole(rt: HostRuntime) -> Result<(), Fail> {
    for (of, fields, wanted) in LINES {
        has_line(&rt, rt.alloc(), of, fields, wanted)?;
    }
    Ok(())
}

// ---- registers of sources, and the command line

const PROGRAM: Program<'static> = Program {
    name: "ddt",
    version: "1",
    about: "",
    after_help: "",
};

fn opens(rt: &impl Abort, alloc: Global) -> Option<()> {
    let campus = register_at(alloc, Some(CAMPUS.as_bytes()), "campus.csv").ok()?;
    same(
        rt,
        &campus.register().groups.as_slice().len(),
        &3,
        &"the groups",
    );
    let campus = register_of(alloc, Some(CAMPUS.as_bytes()), "campus.csv").ok()?;
    same(
        rt,
        &campus.register().groups.as_slice().len(),
        &3,
        &"the groups",
    );
    let mut line = Vec::new(alloc);
    let prefix = parse_prefix(b"[0]10.1.2.0/24").ok()?;
    push_outcome(&mut line, &Outcome::Hole { prefix }).ok()?;
    are(rt, &line, b"hole [0]10.1.2.0/24");
    let _line = command_line(alloc, &PROGRAM, &[]).ok()?;
    Some(())
}

#[test]
fn sources_are_read_whole(rt: HostRuntime) -> Result<(), Fail> {
    twice(|| opens(&rt, rt.alloc()))
}
