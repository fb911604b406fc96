//! The command line: its commands, options and help, and the arguments of each command.

use clap::{ArgMatches, Command, Error};
use ddt_command_line::{Argument, Declaration, Given, Program, Values, command_line};
use ddt_daemon::{ControlWord, WORDS};
use ddt_daemon_text::StatisticsFormat;
use std::alloc::{AllocError, Global};

/// The arguments of `check`.
#[derive(Clone, Copy)]
pub struct CheckArgs<'a> {
    /// The path of the file.
    pub file: &'a str,
    /// The path of the keys that go with a configuration.
    pub keys: Option<&'a str>,
}

/// The arguments of `serve`.
#[derive(Drop)]
pub struct ServeArgs<'a> {
    /// The path of the configuration.
    pub config: &'a str,
    /// The path of its settings.
    pub settings: Option<&'a str>,
    /// The addresses to serve at; if there are none, all locators of the configuration that are this machine's.
    pub addresses: Vec<&'a str>,
    /// The path of the keys under which ETRs register.
    pub keys: Option<&'a str>,
    /// The path of the file of registrations.
    pub registrations: Option<&'a str>,
    /// The path of the control socket.
    pub control: Option<&'a str>,
    /// Whether the files are watched for changes.
    pub is_watched: bool,
    /// Whether other processes may serve at the same addresses.
    pub is_shared: bool,
}

/// The arguments of `resolve`.
#[derive(Clone, Copy)]
pub struct ResolveArgs<'a> {
    /// The path of the settings.
    pub settings: &'a str,
    /// The path of the control socket.
    pub control: Option<&'a str>,
}

/// The arguments of `tell`.
#[derive(Clone, Copy)]
pub struct TellArgs<'a> {
    /// The path of the daemon's control socket.
    pub socket: &'a str,
    pub word: ControlWord,
    /// The text after the word: a prefix or an identifier.
    pub argument: Option<&'a str>,
    /// The format in which counts are printed.
    pub form: StatisticsFormat,
}

/// A command with its arguments.
#[derive(Drop)]
pub enum Invocation<'a> {
    Check(CheckArgs<'a>),
    Serve(ServeArgs<'a>),
    Resolve(ResolveArgs<'a>),
    Tell(TellArgs<'a>),
}

const SERVE_HELP: &str = "Examples:
  ddtd serve node.toml                          at all locators of the file that are this machine's
  ddtd serve node.toml 192.0.2.3 --control /run/ddtd/serve.sock
  ddtd serve node.toml --share                  beside other processes that share its addresses

The settings of a Map-Server:
  allow = [\"192.0.2.0/24\", \"2001:db8::/32\"]     which ITRs may ask it; by default none

The keys of a Map-Server, which only its owner may read, a table [[key]] for each:
  prefix = \"[0]10.1.9.0/24\"                    a site of the configuration
  id = 1                                       the Key ID, 0 to 255
  algorithm = \"sha256\"                         or \"sha1\"
  secret = \"...\"                               or secret_hex
  replay = \"increasing\"                        or \"any\", where nonces are random
  static_etrs = \"until_registered\"             or \"fallback\"
  accept_more_specifics = false                whether sites inside the prefix have it too

Status: 0 if it was told to stop, 2 if it refuses.";

const TELL_HELP: &str = "The words:
  stats             print what it has counted
  reload            take up its file anew
  servers           print what is known of each server
  sites             print what is registered for each site that has a key
  cache [PREFIX]    print what is remembered of referrals, of all or inside a prefix
  lookup XEID       print what is remembered for an identifier
  flush [PREFIX]    forget what is remembered, of all or inside a prefix
  stop              end

Status: 0 if it did so, 2 if it refuses or doesn't answer.";

const RESOLVE_HELP: &str = "The settings:
  roots = [\"192.0.2.3\", \"2001:db8::3\"]          the root's servers, 1 to 8
  listen = [\"192.0.2.2\"]                        where ITRs ask, at UDP port 4342
  allow = [\"192.0.2.0/24\", \"2001:db8::/32\"]     which ITRs may ask; by default none

Status: 0 if it was told to stop, 2 if it refuses.";

/// The names of the formats of counts.
const FORMATS: [&str; 3] = ["lines", "json", "prometheus"];

const PROGRAM: Program<'static> = Program {
    name: "ddtd",
    version: "1.0.0",
    about: "A LISP-DDT node, Map-Server or Map-Resolver that runs until it is stopped.",
    after_help: "ddtd(8) says what each command reads, logs and counts.",
};

/// The program's command line.
fn program_line<'a>(alloc: Global) -> Result<Command<'a>, AllocError> {
    let commands = [check(), serve(), resolve(), tell()];
    command_line(alloc, &PROGRAM, &commands)
}

const CHECK: &[Argument<'static>] = &[
    Argument {
        name: "config",
        help: "The configuration, the settings or the keys, a TOML file",
        ..Argument::PLAIN
    },
    Argument {
        name: "keys",
        given: Given::Setting("FILE"),
        help: "The keys of sites of the configuration, a TOML file",
        ..Argument::PLAIN
    },
];

fn check() -> Declaration<'static> {
    Declaration {
        name: "check",
        about: "Say whether a configuration, settings of a resolver or a server, or keys are good.",
        after_help: None,
        arguments: CHECK,
    }
}

const SERVE: &[Argument<'static>] = &[
    Argument {
        name: "config",
        help: "The configuration, a TOML file",
        ..Argument::PLAIN
    },
    Argument {
        name: "address",
        given: Given::Any,
        help: "Where it serves, each a locator of the configuration",
        ..Argument::PLAIN
    },
    Argument {
        name: "settings",
        given: Given::Setting("FILE"),
        help: "Answer the ITRs that this TOML file allows",
        ..Argument::PLAIN
    },
    Argument {
        name: "keys",
        given: Given::Setting("FILE"),
        help: "Let ETRs register under the keys of this TOML file",
        ..Argument::PLAIN
    },
    Argument {
        name: "registrations",
        given: Given::Setting("FILE"),
        needs: &["keys"],
        help: "Keep in this file, over a restart, what is registered",
        ..Argument::PLAIN
    },
    CONTROL,
    Argument {
        name: "watch",
        given: Given::Flag,
        help: "Take the files up whenever one has changed",
        ..Argument::PLAIN
    },
    Argument {
        name: "share",
        given: Given::Flag,
        conflicts: &["keys"],
        help: "Let other processes serve at the same addresses",
        ..Argument::PLAIN
    },
];

fn serve() -> Declaration<'static> {
    Declaration {
        name: "serve",
        about: "Serve a configuration as a DDT node or a Map-Server.",
        after_help: Some(SERVE_HELP),
        arguments: SERVE,
    }
}

const RESOLVE: &[Argument<'static>] = &[
    Argument {
        name: "settings",
        help: "The settings, a TOML file",
        ..Argument::PLAIN
    },
    CONTROL,
];

fn resolve() -> Declaration<'static> {
    Declaration {
        name: "resolve",
        about: "Resolve for ITRs as a Map-Resolver.",
        after_help: Some(RESOLVE_HELP),
        arguments: RESOLVE,
    }
}

const TELL: &[Argument<'static>] = &[
    Argument {
        name: "socket",
        help: "The daemon's control socket",
        ..Argument::PLAIN
    },
    Argument {
        name: "word",
        values: Values::Among(&WORDS),
        help: "What it is to do",
        ..Argument::PLAIN
    },
    Argument {
        name: "argument",
        given: Given::Optional,
        help: "A prefix or an identifier, where the word takes one",
        ..Argument::PLAIN
    },
    Argument {
        name: "format",
        given: Given::Setting("FORM"),
        values: Values::Among(&FORMATS),
        help: "Print counts in this form",
        ..Argument::PLAIN
    },
];

fn tell() -> Declaration<'static> {
    Declaration {
        name: "tell",
        about: "Tell a running daemon what to do, and print what it answers.",
        after_help: Some(TELL_HELP),
        arguments: TELL,
    }
}

/// The option `--control`, the path of the control socket.
const CONTROL: Argument<'static> = Argument {
    name: "control",
    given: Given::Setting("SOCKET"),
    help: "Listen at this Unix socket for what it is told",
    ..Argument::PLAIN
};

/// The command that the arguments of the process ask for; the first argument is the program's name. A request for help
/// or for the version is an error that prints it, as in clap.
pub fn parse_command_line<'a>(alloc: Global, words: &'a [String]) -> Result<Invocation<'a>, Error> {
    let mut matches = program_line(alloc)?.try_get_matches_from(words)?;
    match matches.remove_subcommand() {
        Some((name, matches)) => Ok(invocation_of(alloc, name, &matches)?),
        // clap requires a command.
        None => Ok(Invocation::Check(CheckArgs {
            file: "",
            keys: None,
        })),
    }
}

fn invocation_of<'a>(
    alloc: Global,
    name: &str,
    matches: &ArgMatches<'a>,
) -> Result<Invocation<'a>, AllocError> {
    Ok(match name {
        "serve" => Invocation::Serve(serve_args(alloc, matches)?),
        "resolve" => Invocation::Resolve(ResolveArgs {
            settings: matches.get_str("settings").unwrap_or(""),
            control: matches.get_str("control"),
        }),
        "tell" => Invocation::Tell(tell_args(matches)),
        _ => Invocation::Check(CheckArgs {
            file: matches.get_str("config").unwrap_or(""),
            keys: matches.get_str("keys"),
        }),
    })
}

fn serve_args<'a>(alloc: Global, matches: &ArgMatches<'a>) -> Result<ServeArgs<'a>, AllocError> {
    let addresses = match matches.get_raw("address") {
        Some(addresses) => Vec::from_slice(alloc, addresses)?,
        None => Vec::new(alloc),
    };
    Ok(ServeArgs {
        config: matches.get_str("config").unwrap_or(""),
        settings: matches.get_str("settings"),
        addresses,
        keys: matches.get_str("keys"),
        registrations: matches.get_str("registrations"),
        control: matches.get_str("control"),
        is_watched: matches.get_flag("watch"),
        is_shared: matches.get_flag("share"),
    })
}

fn tell_args<'a>(matches: &ArgMatches<'a>) -> TellArgs<'a> {
    let word = matches.get_str("word").unwrap_or("");
    TellArgs {
        socket: matches.get_str("socket").unwrap_or(""),
        word: ControlWord::of(word).unwrap_or(ControlWord::Stats),
        argument: matches.get_str("argument"),
        form: StatisticsFormat::of(matches.get_str("format").unwrap_or("")),
    }
}
