//! The words of the program, as clap reads them.

use clap::Command;
use ddt_command_line::{Argument, Declaration, Given, Program, Values, command_line};
use std::alloc::{AllocError, Global};

const HELP: &str =
    "A register that is named - is read from standard input. ddtplan(1) says what is printed.";

const BLOCKS_HELP: &str = "Examples:
  ddtplan blocks register.csv '[0]10.0.0.0/8'   what is assigned inside 10.0.0.0/8 of instance 0
  ddtplan blocks --count register.csv           how many blocks there are of each kind

Status: 0, or 2 if it refuses.";

const DIFF_HELP: &str = "Examples:
  ddtplan diff old.csv new.csv                  the identifiers whose servers change
  git show HEAD:register.csv | ddtplan diff - register.csv

Status: 0 if nothing changes, 1 if something does, 2 if it refuses.";

const SEAM_HELP: &str = "Examples:
  ddtplan seam ours.csv theirs.csv --foreign ten   the servers of the group ten are run from theirs.csv
  ddtplan seam --index tree.csv                    all registers of a tree, and which groups each runs

Status: 0 if the seam or the tree is good, 1 if it isn't, 2 if it refuses.";

const FAULTS_HELP: &str =
    "Each fault has a line: FILE:LINE: NUMBER NAME: reason. The last line says how many there are. With --old, sites that
lost their zone have one line, which names the zone.

Status: 0 for none, 1 if there are faults, 2 if the file can't be read.";

const WARN_HELP: &str = "Example:
  ddtplan warn --off node-zone-without-child register.csv
  ddtplan warn --old old.csv --resolver 198.51.100.53 --foreign ten register.csv

Status: 0 for none, 1 if it warns, 2 if it refuses.";

const COMPILE_HELP: &str =
    "Each file is written beside the old one and renamed. Files that stay the same are left alone. Where the register is
refused, nothing is touched, nor where more of its sites are gone than --max-lost allows. `sha256sum -c MANIFEST` checks
the files.

Status: 0, or 2 if it refuses.";

const ROLLOUT_HELP: &str = "Example:
  ddtplan rollout old.csv new.csv
  ddtplan compile --from old.csv --step 1 new.csv folder

Each step is taken once all servers have taken the one before.

Status: 0, or 2 if it refuses.";

const REPORT_HELP: &str = "Example:
  ddtplan report old.csv new.csv change.html

The page has no script and loads nothing. A page that is there is replaced; where anything fails it stays.

Status: 0, or 2 if it refuses.";

const LOOPBACK_HELP: &str = "Example:
  ddtplan loopback register.csv > here.csv && ddt loop here.csv '[0]10.1.2.3'

Status: 0, or 2 if it refuses.";

const EXPORT_HELP: &str = "Example:
  ddtplan export oor register.csv root > oor.conf

In the file, replace each FILL-IN: the interface and the sites' keys.

Status: 0, 1 if a delegation or a site can't be written, 2 if it refuses.";

/// The implementations whose configurations `export` prints.
const IMPLEMENTATIONS: [&str; 1] = ["oor"];

const ASK_HELP: &str = "Examples:
  ddtplan ask --quiet --changed old.csv new.csv   what servers of new.csv have to say otherwise than by old.csv
  ddtplan ask --sample 100 register.csv           one identifier of each of 100 blocks
  ddtplan ask --resolver 10.0.0.53 --as-itr 10.0.0.7 register.csv

Each question has a line: the identifier, the server, and `agrees`, `differs`, `silent` or `not judged`. A Map-Server
forwards questions about registered sites to their ETRs.

Status: 0 if all agree, 1 if not, 2 if it refuses.";

const TREE_HELP: &str = "Example:
  ddtplan tree register.csv --under '[0]10.0.0.0/8' > tree.svg

Status: 0, or 2 if it refuses.";

const LADDER_HELP: &str = "Example:
  ddtplan ladder register.csv '[0]10.1.2.3' > ladder.svg

Status: 0, or 2 if it refuses.";

/// A number above 0.
const NUMBER: Values<'static> = Values::Numbers {
    first: 1,
    last: u32::MAX,
};

/// A number up to 100.
const PERCENT: Values<'static> = Values::Numbers {
    first: 0,
    last: 100,
};

const PROGRAM: Program<'static> = Program {
    name: "ddtplan",
    version: "1.0.0",
    about: "Review a LISP-DDT register: its faults, what it says of all identifiers, and what a change of it changes.",
    after_help: HELP,
};

/// The program's command line.
pub(crate) fn program_line<'a>(alloc: Global) -> Result<Command<'a>, AllocError> {
    let commands = [
        blocks(),
        diff(),
        seam(),
        faults(),
        warn(),
        compile(),
        rollout(),
        report(),
        loopback(),
        export(),
        ask(),
        tree(),
        ladder(),
    ];
    command_line(alloc, &PROGRAM, &commands)
}

const BLOCKS: &[Argument<'static>] = &[
    Argument {
        name: "register",
        help: "The register, a CSV file",
        ..Argument::PLAIN
    },
    Argument {
        name: "prefix",
        given: Given::Optional,
        help: "The identifiers that are asked for; all, where it isn't given",
        ..Argument::PLAIN
    },
    Argument {
        name: "no-holes",
        given: Given::Flag,
        help: "Leave out the holes",
        ..Argument::PLAIN
    },
    Argument {
        name: "count",
        given: Given::Flag,
        help: "Print only how many blocks there are of each kind",
        ..Argument::PLAIN
    },
    Argument {
        name: "json",
        given: Given::Flag,
        help: "Print a JSON object a line",
        ..Argument::PLAIN
    },
];

fn blocks() -> Declaration<'static> {
    Declaration {
        name: "blocks",
        about: "List the blocks of identifiers that a register assigns alike, and what it assigns to each.",
        after_help: Some(BLOCKS_HELP),
        arguments: BLOCKS,
    }
}

const DIFF: &[Argument<'static>] = &[
    Argument {
        name: "old",
        help: "The register that is in force, a CSV file",
        ..Argument::PLAIN
    },
    Argument {
        name: "new",
        help: "The register that is to come into force, a CSV file",
        ..Argument::PLAIN
    },
    Argument {
        name: "exact",
        given: Given::Flag,
        help: "List also where only the prefix of an outcome differs",
        ..Argument::PLAIN
    },
    Argument {
        name: "count",
        given: Given::Flag,
        help: "Print only how many changed blocks there are of each kind",
        ..Argument::PLAIN
    },
    Argument {
        name: "summary",
        given: Given::Flag,
        conflicts: &["count"],
        help: "Print only the summary",
        ..Argument::PLAIN
    },
    Argument {
        name: "json",
        given: Given::Flag,
        help: "Print a JSON object a line",
        ..Argument::PLAIN
    },
];

fn diff() -> Declaration<'static> {
    Declaration {
        name: "diff",
        about: "List the blocks of identifiers whose assignment changes, and how.",
        after_help: Some(DIFF_HELP),
        arguments: DIFF,
    }
}

const SEAM: &[Argument<'static>] = &[
    Argument {
        name: "ours",
        given: Given::OneUnless("index"),
        help: "Our register, a CSV file",
        ..Argument::PLAIN
    },
    Argument {
        name: "theirs",
        given: Given::OneUnless("index"),
        help: "The register of the other side, a CSV file",
        ..Argument::PLAIN
    },
    Argument {
        name: "index",
        given: Given::Setting("FILE"),
        conflicts: &["ours", "theirs", "foreign"],
        help: "The registers of a tree, and the groups that each runs, a CSV file",
        ..Argument::PLAIN
    },
    Argument {
        name: "foreign",
        given: Given::Settings("GROUP"),
        help: "A group whose servers the other side runs",
        ..Argument::PLAIN
    },
];

fn seam() -> Declaration<'static> {
    Declaration {
        name: "seam",
        about: "Say whether the servers of two registers, each run from its own, are those of one tree.",
        after_help: Some(SEAM_HELP),
        arguments: SEAM,
    }
}

const FAULTS: &[Argument<'static>] = &[
    Argument {
        name: "register",
        help: "The file, as people and spreadsheets write it",
        ..Argument::PLAIN
    },
    Argument {
        name: "old",
        given: Given::Setting("OLD"),
        help: "The register that was in force before, a CSV file",
        ..Argument::PLAIN
    },
];

fn faults() -> Declaration<'static> {
    Declaration {
        name: "faults",
        about: "List every fault of a register's file, with its line.",
        after_help: Some(FAULTS_HELP),
        arguments: FAULTS,
    }
}

const WARN: &[Argument<'static>] = &[
    Argument {
        name: "register",
        help: "The register, a CSV file",
        ..Argument::PLAIN
    },
    Argument {
        name: "old",
        given: Given::Setting("OLD"),
        help: "The register that was in force before, a CSV file",
        ..Argument::PLAIN
    },
    Argument {
        name: "resolver",
        given: Given::Settings("ADDRESS"),
        help: "A Map-Resolver's address, which no ETR may have",
        ..Argument::PLAIN
    },
    Argument {
        name: "off",
        given: Given::Settings("KIND"),
        help: "Turn a kind of warning off",
        ..Argument::PLAIN
    },
    Argument {
        name: "foreign",
        given: Given::Settings("GROUP"),
        help: "A group whose servers others run; its zones may differ from their neighbours",
        ..Argument::PLAIN
    },
];

fn warn() -> Declaration<'static> {
    Declaration {
        name: "warn",
        about: "List what a register has that is mostly a mistake.",
        after_help: Some(WARN_HELP),
        arguments: WARN,
    }
}

const COMPILE: &[Argument<'static>] = &[
    Argument {
        name: "register",
        help: "The register, a CSV file",
        ..Argument::PLAIN
    },
    Argument {
        name: "folder",
        help: "The folder",
        ..Argument::PLAIN
    },
    Argument {
        name: "remove",
        given: Given::Flag,
        help: "Remove the files of groups that are gone",
        ..Argument::PLAIN
    },
    Argument {
        name: "max-lost",
        given: Given::Setting("PERCENT"),
        values: PERCENT,
        help: "Refuse where more of the sites in the folder's register are gone",
        ..Argument::PLAIN
    },
    Argument {
        name: "from",
        given: Given::Setting("OLD"),
        conflicts: &["remove"],
        needs: &["step"],
        help: "The register in force; write only the configurations of a step of `rollout`",
        ..Argument::PLAIN
    },
    Argument {
        name: "step",
        given: Given::Setting("N"),
        values: NUMBER,
        needs: &["from"],
        help: "The number of the step",
        ..Argument::PLAIN
    },
    Argument {
        name: "foreign",
        given: Given::Settings("GROUP"),
        help: "A group whose servers others run; its file isn't written",
        ..Argument::PLAIN
    },
];

fn compile() -> Declaration<'static> {
    Declaration {
        name: "compile",
        about: "Write the configuration of each group into a folder, with a manifest.",
        after_help: Some(COMPILE_HELP),
        arguments: COMPILE,
    }
}

const ROLLOUT: &[Argument<'static>] = &[
    Argument {
        name: "old",
        help: "The register that is in force, a CSV file",
        ..Argument::PLAIN
    },
    Argument {
        name: "new",
        help: "The register that is to come into force, a CSV file",
        ..Argument::PLAIN
    },
];

fn rollout() -> Declaration<'static> {
    Declaration {
        name: "rollout",
        about: "Print in which steps a change is rolled out, so that everybody is answered meanwhile.",
        after_help: Some(ROLLOUT_HELP),
        arguments: ROLLOUT,
    }
}

const REPORT: &[Argument<'static>] = &[
    Argument {
        name: "old",
        help: "The register that is in force, a CSV file",
        ..Argument::PLAIN
    },
    Argument {
        name: "new",
        help: "The register that is to come into force, a CSV file",
        ..Argument::PLAIN
    },
    Argument {
        name: "page",
        help: "The page, a file",
        ..Argument::PLAIN
    },
];

fn report() -> Declaration<'static> {
    Declaration {
        name: "report",
        about: "Write a page of HTML that shows a change, to be read in a browser.",
        after_help: Some(REPORT_HELP),
        arguments: REPORT,
    }
}

const LOOPBACK: &[Argument<'static>] = &[
    Argument {
        name: "register",
        help: "The register, a CSV file",
        ..Argument::PLAIN
    },
    Argument {
        name: "table",
        given: Given::Flag,
        help: "Print only which address became which",
        ..Argument::PLAIN
    },
];

fn loopback() -> Declaration<'static> {
    Declaration {
        name: "loopback",
        about: "Print the register with its servers at addresses of 127.0.0.0/8.",
        after_help: Some(LOOPBACK_HELP),
        arguments: LOOPBACK,
    }
}

const EXPORT: &[Argument<'static>] = &[
    Argument {
        name: "implementation",
        values: Values::Among(&IMPLEMENTATIONS),
        help: "The implementation; oor is openoverlayrouter 1.3.0",
        ..Argument::PLAIN
    },
    Argument {
        name: "register",
        help: "The register, a CSV file",
        ..Argument::PLAIN
    },
    Argument {
        name: "group",
        help: "The name of the group",
        ..Argument::PLAIN
    },
];

fn export() -> Declaration<'static> {
    Declaration {
        name: "export",
        about: "Print a group's configuration as another implementation reads it.",
        after_help: Some(EXPORT_HELP),
        arguments: EXPORT,
    }
}

const ASK: &[Argument<'static>] = &[
    Argument {
        name: "register",
        help: "The register, a CSV file",
        ..Argument::PLAIN
    },
    Argument {
        name: "identifier",
        given: Given::Any,
        help: "What is asked for; one identifier of each block, where none is given",
        ..Argument::PLAIN
    },
    Argument {
        name: "changed",
        given: Given::Setting("OLD"),
        help: "Ask only what differs from this register",
        ..Argument::PLAIN
    },
    Argument {
        name: "sample",
        given: Given::Setting("N"),
        values: NUMBER,
        help: "Ask for so many blocks, drawn at random",
        ..Argument::PLAIN
    },
    Argument {
        name: "quiet",
        given: Given::Flag,
        help: "Leave out what agrees",
        ..Argument::PLAIN
    },
    Argument {
        name: "resolver",
        given: Given::Setting("ADDRESS"),
        help: "Ask this Map-Resolver, as an ITR does",
        ..Argument::PLAIN
    },
    Argument {
        name: "as-itr",
        given: Given::Setting("ADDRESS"),
        help: "The address of this machine to which the Map-Resolver replies",
        ..Argument::PLAIN
    },
    Argument {
        name: "as-etr",
        given: Given::Setting("ADDRESS"),
        help: "The same, where the address is an ETR of the register",
        ..Argument::PLAIN
    },
    Argument {
        name: "foreign",
        given: Given::Settings("GROUP"),
        conflicts: &["resolver"],
        help: "A group whose servers others run; they aren't asked",
        ..Argument::PLAIN
    },
    Argument {
        name: "rate",
        given: Given::Setting("N"),
        values: NUMBER,
        help: "Questions a second; 100, where it isn't given",
        ..Argument::PLAIN
    },
    Argument {
        name: "timeout",
        given: Given::Setting("N"),
        values: NUMBER,
        help: "Milliseconds for a reply; 2000, where it isn't given",
        ..Argument::PLAIN
    },
    Argument {
        name: "tries",
        given: Given::Setting("N"),
        values: NUMBER,
        help: "Requests to a server that is silent; 2, where it isn't given",
        ..Argument::PLAIN
    },
];

fn ask() -> Declaration<'static> {
    Declaration {
        name: "ask",
        about: "Ask the servers of a register, and compare what they say with it.",
        after_help: Some(ASK_HELP),
        arguments: ASK,
    }
}

const TREE: &[Argument<'static>] = &[
    Argument {
        name: "register",
        help: "The register, a CSV file",
        ..Argument::PLAIN
    },
    Argument {
        name: "under",
        given: Given::Setting("PREFIX"),
        help: "Draw what is inside this prefix",
        ..Argument::PLAIN
    },
    Argument {
        name: "depth",
        given: Given::Setting("N"),
        values: NUMBER,
        help: "How many levels of zones are drawn",
        ..Argument::PLAIN
    },
];

fn tree() -> Declaration<'static> {
    Declaration {
        name: "tree",
        about: "Draw the tree of a register as SVG.",
        after_help: Some(TREE_HELP),
        arguments: TREE,
    }
}

const LADDER: &[Argument<'static>] = &[
    Argument {
        name: "register",
        help: "The register, a CSV file",
        ..Argument::PLAIN
    },
    Argument {
        name: "identifier",
        help: "What is looked up",
        ..Argument::PLAIN
    },
];

fn ladder() -> Declaration<'static> {
    Declaration {
        name: "ladder",
        about: "Draw the messages of a lookup as SVG.",
        after_help: Some(LADDER_HELP),
        arguments: LADDER,
    }
}
