//! The arguments of each command, read from the words of a command line.

use crate::command_line::program_line;
use clap::{ArgMatches, Error};
use ddt_plan::Reading;
use std::alloc::{AllocError, Global};

/// The form in which an answer is written.
#[derive(Clone, Copy, Debug, PartialEq, Eq)]
pub enum Form {
    /// Lines of fields with tabs between them.
    Text,
    /// A JSON object on each line.
    Json,
}

/// The arguments of `blocks`.
#[derive(Clone, Copy)]
pub struct BlocksAsked<'a> {
    /// The path of the register.
    pub register: &'a str,
    /// The prefix whose identifiers are listed, as text; `*` is all.
    pub inside: &'a str,
    /// Whether holes are listed.
    pub with_holes: bool,
    /// Whether only the number of blocks of each kind is written.
    pub counted: bool,
    pub form: Form,
}

/// The output of `diff`.
#[derive(Clone, Copy, Debug, PartialEq, Eq)]
pub enum DiffOutput {
    /// The summary, and all that differs.
    Changes,
    /// The summary only.
    Summary,
    /// Only the number of changed blocks of each kind.
    Counts,
}

/// The arguments of `diff`.
#[derive(Clone, Copy)]
pub struct DiffAsked<'a> {
    /// The path of the register that is in force.
    pub before: &'a str,
    /// The path of the register that is to come into force.
    pub after: &'a str,
    pub reading: Reading,
    pub output: DiffOutput,
    pub form: Form,
}

/// The arguments of `faults`.
#[derive(Clone, Copy)]
pub struct FaultsAsked<'a> {
    /// The path of the file.
    pub register: &'a str,
    /// The path of the register that was in force before, if it is given.
    pub old: Option<&'a str>,
}

/// The arguments of `warn`.
#[derive(Drop)]
pub struct WarnAsked<'a> {
    /// The path of the register.
    pub register: &'a str,
    /// The path of the register that was in force before, if it is given.
    pub old: Option<&'a str>,
    /// The addresses of Map-Resolvers, as text.
    pub resolvers: Vec<&'a str>,
    /// The names of the kinds of warnings that are turned off.
    pub off: Vec<&'a str>,
    /// The names of the groups whose servers others run.
    pub foreign: Vec<&'a str>,
}

/// The arguments of `compile`.
#[derive(Drop)]
pub struct CompileAsked<'a> {
    /// The path of the register.
    pub register: &'a str,
    /// The path of the folder.
    pub folder: &'a str,
    /// The names of the groups whose servers others run, and whose configurations aren't written.
    pub foreign: Vec<&'a str>,
    /// Whether files of groups that are gone are removed.
    pub removes: bool,
    /// The most percent of the sites in the folder's register that may be gone, if there is a limit.
    pub max_lost: Option<u32>,
    /// The step of a rollout whose configurations are written; None for all of the register.
    pub step: Option<StepAsked<'a>>,
}

/// A step of a rollout.
#[derive(Clone, Copy)]
pub struct StepAsked<'a> {
    /// The path of the register that is in force before the first step.
    pub from: &'a str,
    /// The number of the step, from 1.
    pub number: u32,
}

/// The arguments of `rollout`.
#[derive(Clone, Copy)]
pub struct RolloutAsked<'a> {
    /// The path of the register that is in force.
    pub before: &'a str,
    /// The path of the register that is to come into force.
    pub after: &'a str,
}

/// The arguments of `report`.
#[derive(Clone, Copy)]
pub struct ReportAsked<'a> {
    /// The path of the register that is in force.
    pub before: &'a str,
    /// The path of the register that is to come into force.
    pub after: &'a str,
    /// The path of the page.
    pub page: &'a str,
}

/// The arguments of `loopback`.
#[derive(Clone, Copy)]
pub struct LoopbackAsked<'a> {
    /// The path of the register.
    pub register: &'a str,
    /// Whether only the table of old and new addresses is written.
    pub as_table: bool,
}

/// The arguments of `export`. The only implementation is openoverlayrouter.
#[derive(Clone, Copy)]
pub struct ExportAsked<'a> {
    /// The path of the register.
    pub register: &'a str,
    /// The name of the group.
    pub group: &'a str,
}

/// The arguments of `ask`. A number is None if it isn't given.
#[derive(Drop)]
pub struct AskAsked<'a> {
    /// The path of the register.
    pub register: &'a str,
    /// The identifiers; empty for one of each block.
    pub identifiers: Vec<&'a str>,
    /// The path of the register that was in force, if only what a change touches is asked.
    pub before: Option<&'a str>,
    /// The number of blocks that are drawn; None for all.
    pub sample: Option<u32>,
    /// Whether findings that agree are left out.
    pub quiet: bool,
    /// The address of the Map-Resolver that is asked in place of the servers.
    pub resolver: Option<&'a str>,
    /// The address of this machine to which the Map-Resolver replies.
    pub as_itr: Option<&'a str>,
    /// The same, if it is an ETR of the register too.
    pub as_etr: Option<&'a str>,
    /// The names of the groups whose servers others run; these servers aren't asked.
    pub foreign: Vec<&'a str>,
    /// The most questions in a second.
    pub rate: Option<u32>,
    /// The time that a try waits for a reply, in milliseconds.
    pub timeout: Option<u32>,
    /// The most tries of a question.
    pub tries: Option<u32>,
}

/// The arguments of `tree`.
#[derive(Clone, Copy)]
pub struct TreeAsked<'a> {
    /// The path of the register.
    pub register: &'a str,
    /// The prefix whose zones are drawn, as text; `*` is the root.
    pub under: &'a str,
    /// The number of levels of zones that are drawn; None if it isn't given.
    pub depth: Option<u32>,
}

/// The arguments of `ladder`.
#[derive(Clone, Copy)]
pub struct LadderAsked<'a> {
    /// The path of the register.
    pub register: &'a str,
    pub identifier: &'a str,
}

/// The two registers of a seam.
#[derive(Drop)]
pub struct PairAsked<'a> {
    /// The path of our register.
    pub ours: &'a str,
    /// The path of the register of the other side.
    pub theirs: &'a str,
    /// The names of the groups whose servers the other side runs.
    pub foreign: Vec<&'a str>,
}

/// The arguments of `seam`: two registers, or all that an index names.
#[derive(Drop)]
pub enum SeamAsked<'a> {
    Pair(PairAsked<'a>),
    /// The path of the index.
    Index(&'a str),
}

/// A command and its arguments.
#[derive(Drop)]
pub enum Asked<'a> {
    Blocks(BlocksAsked<'a>),
    Diff(DiffAsked<'a>),
    Seam(SeamAsked<'a>),
    Faults(FaultsAsked<'a>),
    Warn(WarnAsked<'a>),
    Compile(CompileAsked<'a>),
    Rollout(RolloutAsked<'a>),
    Report(ReportAsked<'a>),
    Loopback(LoopbackAsked<'a>),
    Export(ExportAsked<'a>),
    Ask(AskAsked<'a>),
    Tree(TreeAsked<'a>),
    Ladder(LadderAsked<'a>),
}

/// Reads the words of a command line, of which the first is the program's name. A request for help or for the version
/// is an error that shows it, as in clap.
pub fn read_asked<'a>(alloc: Global, words: &'a [String]) -> Result<Asked<'a>, Error> {
    let mut matches = program_line(alloc)?.try_get_matches_from(words)?;
    match matches.remove_subcommand() {
        Some((command, matches)) => Ok(asked_of(alloc, command, &matches)?),
        // The command line requires one of its commands.
        None => Ok(Asked::Faults(FaultsAsked {
            register: "-",
            old: None,
        })),
    }
}

/// Returns the arguments of a command. All commands name a register or a file.
fn asked_of<'a>(
    alloc: Global,
    command: &str,
    matches: &ArgMatches<'a>,
) -> Result<Asked<'a>, AllocError> {
    let register = matches.get_str("register").unwrap_or("-");
    match command {
        "seam" => seam_asked(alloc, matches),
        "warn" => warn_asked(alloc, register, matches),
        "compile" => compile_asked(alloc, register, matches),
        "ask" => ask_asked(alloc, register, matches),
        _ => Ok(asked_once(command, register, matches)),
    }
}

/// Returns the arguments of a command, each of which is given once at most.
fn asked_once<'a>(command: &str, register: &'a str, matches: &ArgMatches<'a>) -> Asked<'a> {
    match command {
        "blocks" => Asked::Blocks(blocks_asked(register, matches)),
        "diff" => Asked::Diff(diff_asked(matches)),
        "rollout" => Asked::Rollout(RolloutAsked {
            before: matches.get_str("old").unwrap_or("-"),
            after: matches.get_str("new").unwrap_or("-"),
        }),
        "report" => Asked::Report(report_asked(matches)),
        "loopback" => Asked::Loopback(LoopbackAsked {
            register,
            as_table: matches.get_flag("table"),
        }),
        "export" => Asked::Export(export_asked(register, matches)),
        "tree" => Asked::Tree(TreeAsked {
            register,
            under: matches.get_str("under").unwrap_or("*"),
            depth: matches.get_one("depth"),
        }),
        "ladder" => Asked::Ladder(LadderAsked {
            register,
            identifier: matches.get_str("identifier").unwrap_or(""),
        }),
        _ => Asked::Faults(FaultsAsked {
            register,
            old: matches.get_str("old"),
        }),
    }
}

fn blocks_asked<'a>(register: &'a str, matches: &ArgMatches<'a>) -> BlocksAsked<'a> {
    BlocksAsked {
        register,
        inside: matches.get_str("prefix").unwrap_or("*"),
        with_holes: !matches.get_flag("no-holes"),
        counted: matches.get_flag("count"),
        form: form_asked(matches),
    }
}

fn diff_asked<'a>(matches: &ArgMatches<'a>) -> DiffAsked<'a> {
    DiffAsked {
        before: matches.get_str("old").unwrap_or("-"),
        after: matches.get_str("new").unwrap_or("-"),
        reading: if matches.get_flag("exact") {
            Reading::Exact
        } else {
            Reading::Service
        },
        output: output_asked(matches),
        form: form_asked(matches),
    }
}

fn output_asked(matches: &ArgMatches<'_>) -> DiffOutput {
    if matches.get_flag("count") {
        DiffOutput::Counts
    } else if matches.get_flag("summary") {
        DiffOutput::Summary
    } else {
        DiffOutput::Changes
    }
}

fn seam_asked<'a>(alloc: Global, matches: &ArgMatches<'a>) -> Result<Asked<'a>, AllocError> {
    if let Some(index) = matches.get_str("index") {
        return Ok(Asked::Seam(SeamAsked::Index(index)));
    }
    Ok(Asked::Seam(SeamAsked::Pair(PairAsked {
        ours: matches.get_str("ours").unwrap_or("-"),
        theirs: matches.get_str("theirs").unwrap_or("-"),
        foreign: values_of(alloc, matches, "foreign")?,
    })))
}

fn warn_asked<'a>(
    alloc: Global,
    register: &'a str,
    matches: &ArgMatches<'a>,
) -> Result<Asked<'a>, AllocError> {
    Ok(Asked::Warn(WarnAsked {
        register,
        old: matches.get_str("old"),
        resolvers: values_of(alloc, matches, "resolver")?,
        off: values_of(alloc, matches, "off")?,
        foreign: values_of(alloc, matches, "foreign")?,
    }))
}

fn compile_asked<'a>(
    alloc: Global,
    register: &'a str,
    matches: &ArgMatches<'a>,
) -> Result<Asked<'a>, AllocError> {
    Ok(Asked::Compile(CompileAsked {
        register,
        folder: matches.get_str("folder").unwrap_or(""),
        foreign: values_of(alloc, matches, "foreign")?,
        removes: matches.get_flag("remove"),
        max_lost: matches.get_one("max-lost"),
        step: step_asked(matches),
    }))
}

fn step_asked<'a>(matches: &ArgMatches<'a>) -> Option<StepAsked<'a>> {
    let from = matches.get_str("from")?;
    let number = matches.get_one("step")?;
    Some(StepAsked { from, number })
}

fn report_asked<'a>(matches: &ArgMatches<'a>) -> ReportAsked<'a> {
    ReportAsked {
        before: matches.get_str("old").unwrap_or("-"),
        after: matches.get_str("new").unwrap_or("-"),
        page: matches.get_str("page").unwrap_or(""),
    }
}

fn export_asked<'a>(register: &'a str, matches: &ArgMatches<'a>) -> ExportAsked<'a> {
    ExportAsked {
        register,
        group: matches.get_str("group").unwrap_or(""),
    }
}

fn ask_asked<'a>(
    alloc: Global,
    register: &'a str,
    matches: &ArgMatches<'a>,
) -> Result<Asked<'a>, AllocError> {
    Ok(Asked::Ask(AskAsked {
        register,
        identifiers: values_of(alloc, matches, "identifier")?,
        before: matches.get_str("changed"),
        sample: matches.get_one("sample"),
        quiet: matches.get_flag("quiet"),
        resolver: matches.get_str("resolver"),
        as_itr: matches.get_str("as-itr"),
        as_etr: matches.get_str("as-etr"),
        foreign: values_of(alloc, matches, "foreign")?,
        rate: matches.get_one("rate"),
        timeout: matches.get_one("timeout"),
        tries: matches.get_one("tries"),
    }))
}

/// Returns the values of an argument that may be given several times.
fn values_of<'a>(
    alloc: Global,
    matches: &ArgMatches<'a>,
    name: &str,
) -> Result<Vec<&'a str>, AllocError> {
    match matches.get_raw(name) {
        Some(values) => Vec::from_slice(alloc, values),
        None => Ok(Vec::new(alloc)),
    }
}

fn form_asked(matches: &ArgMatches<'_>) -> Form {
    if matches.get_flag("json") {
        Form::Json
    } else {
        Form::Text
    }
}
