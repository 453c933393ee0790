/// What a command asks for.
#[derive(Clone, Copy)]
pub enum Asks {
    Deck,
    Serve,
    Check,
    Recover,
    Unload,
    Copy,
    Salvage,
    Reload,
    Show,
    Rows,
    Stream,
    Operands,
    Explain,
}

/// A command that stands behind the program's name.
#[derive(Clone, Copy)]
pub struct Verb {
    pub name: &'static str,
    pub asks: Asks,
    /// What the command does, as the help says it.
    pub about: &'static str,
    /// The words that may follow it, in the order of the help.
    pub words: &'static [Word],
}

/// A word that may follow a command.
#[derive(Clone, Copy)]
pub struct Word {
    pub name: &'static str,
    /// What the word is, as the help says it.
    pub help: &'static str,
    pub kind: Kind,
}

/// How a word is given, and which ones there are.
#[derive(Clone, Copy)]
pub enum Kind {
    /// Any word in its place, always.
    Needed,
    /// Any word in its place, or none.
    Optional,
    /// A number of blocks in its place, always.
    Blocks,
    /// Any word behind an option, under the name that the help has for it; perhaps only beside the word that is named last.
    Behind(&'static str, &'static str, Option<&'static str>),
    /// Any word behind an option, under the name that the help has for it; never beside the word that is named last.
    BehindAlone(&'static str, &'static str, &'static str),
    /// A number of blocks behind an option, under the name that the help has for it.
    BlocksBehind(&'static str, &'static str),
    /// A number of calls behind an option, under the name that the help has for it.
    CallsBehind(&'static str, &'static str),
    /// An option that stands alone.
    Flag(&'static str),
}

/// The least number of blocks that a word may say.
pub const LEAST_BLOCKS: i64 = 1;

/// The greatest number of blocks that a word may say.
pub const MOST_BLOCKS: i64 = 65_536;

/// The greatest number of calls that a word may say.
pub const MOST_CALLS: i64 = 1_000_000_000;

/// The file with the DBD source that every command over a database reads.
const DBD: Word = Word {
    name: "DBD",
    help: "The file with the DBD source",
    kind: Kind::Needed,
};

/// The file with the source of a program's PCBs.
const PSB: Word = Word {
    name: "PSB",
    help: "The file with the PSB source",
    kind: Kind::Needed,
};

/// A volume over which calls are made.
const CHANGED_VOLUME: Word = Word {
    name: "VOLUME",
    help: "The volume, which is changed as one unit: what is left by an end in the midst is as it was",
    kind: Kind::Needed,
};

/// A volume that a command reads.
const VOLUME: Word = Word {
    name: "VOLUME",
    help: "The volume, which is not changed",
    kind: Kind::Needed,
};

/// How many blocks of a volume are kept in memory.
const CACHE: Word = Word {
    name: "CACHE",
    help: "The blocks of the volume that are kept in memory, 1 to 65536; if it is not given 64, and 16 megabytes of them for deck and serve",
    kind: Kind::BlocksBehind("cache", "BLOCKS"),
};

/// Behind how many calls of a deck there is a commit.
const COMMIT: Word = Word {
    name: "COMMIT",
    help: "Commit behind every so many calls too, 1 to 1000000000; if it is not given the deck is one unit",
    kind: Kind::CallsBehind("commit", "CALLS"),
};

/// That what a deck expects of its calls is compared.
const EXPECT: Word = Word {
    name: "EXPECT",
    help: "Compare what the calls answer with what the deck expects, as a comment * expect GE behind a call says it",
    kind: Kind::Flag("expect"),
};

/// That a command ends before what it wrote is on the disk.
const NO_SYNC: Word = Word {
    name: "NOSYNC",
    help: "Do not wait until what is written is on the disk",
    kind: Kind::Flag("no-sync"),
};

/// That the end of the input commits nothing.
const COMMIT_ON_REQUEST: Word = Word {
    name: "ONREQUEST",
    help: "Commit only what a request asks for: what was changed behind the last one is taken back where the input ends",
    kind: Kind::Flag("commit-on-request"),
};

/// That all faults are listed.
const ALL: Word = Word {
    name: "ALL",
    help: "List all faults of the first phase of the check that finds any, and those of the index beside faults of pointers, with the segments that they touch",
    kind: Kind::Flag("all"),
};

/// That values are written and read by the TYPEs of their fields.
const TYPED: Word = Word {
    name: "TYPED",
    help: "Write and read the fields of TYPE=P, F and H as numbers, and in CSV bytes that are no text as \\x12",
    kind: Kind::Flag("types"),
};

/// The commands, in the order of the help.
pub fn verbs() -> &'static [Verb] {
    VERBS
}

const VERBS: &[Verb] = &[
    Verb {
        name: "deck",
        asks: Asks::Deck,
        about: "Plays a deck of DL/I calls over a volume, which it checks first",
        words: &[
            DBD,
            PSB,
            CHANGED_VOLUME,
            Word {
                name: "DECK",
                help: "The file with the calls",
                kind: Kind::Needed,
            },
            COMMIT,
            EXPECT,
            CACHE,
            NO_SYNC,
        ],
    },
    Verb {
        name: "serve",
        asks: Asks::Serve,
        about: "Serves a program's DL/I calls over a volume, which it checks first: they come as frames on standard input",
        words: &[DBD, PSB, CHANGED_VOLUME, COMMIT_ON_REQUEST, CACHE, NO_SYNC],
    },
    Verb {
        name: "check",
        asks: Asks::Check,
        about: "Says whether a volume is sound, or names its first fault",
        words: &[DBD, VOLUME, ALL, CACHE],
    },
    Verb {
        name: "recover",
        asks: Asks::Recover,
        about: "Copies the commits that stand in a volume's log into the volume, and checks it",
        words: &[
            DBD,
            Word {
                name: "VOLUME",
                help: "The volume, into which the commits are copied",
                kind: Kind::Needed,
            },
            Word {
                name: "LOG",
                help: "The log; if it is not given, VOLUME-log. It is taken for this volume's, though it was written beside another file, as where both were copied",
                kind: Kind::Optional,
            },
            CACHE,
        ],
    },
    Verb {
        name: "unload",
        asks: Asks::Unload,
        about: "Checks a volume, and writes its unload stream",
        words: &[
            DBD,
            VOLUME,
            Word {
                name: "OUT",
                help: "The unload stream, made where there is none; a file that stands keeps what it has until the whole stream is written",
                kind: Kind::Needed,
            },
            CACHE,
            NO_SYNC,
        ],
    },
    Verb {
        name: "copy",
        asks: Asks::Copy,
        about: "Checks a volume, and copies it",
        words: &[
            DBD,
            VOLUME,
            Word {
                name: "OUT",
                help: "The copy, made where there is none; a file that stands keeps what it has until the whole copy is written",
                kind: Kind::Needed,
            },
            CACHE,
            NO_SYNC,
        ],
    },
    Verb {
        name: "salvage",
        asks: Asks::Salvage,
        about: "Writes an unload stream of what a volume still holds that does not pass a check, and says what is left out",
        words: &[
            DBD,
            VOLUME,
            Word {
                name: "OUT",
                help: "The unload stream, made where there is none; a file that stands keeps what it has until the whole stream is written",
                kind: Kind::Needed,
            },
            Word {
                name: "ORPHANS",
                help: "Write what is left out into this file, a line a row: its address, and the row as hd rows writes it",
                kind: Kind::Behind("orphans", "FILE", None),
            },
            CACHE,
            NO_SYNC,
        ],
    },
    Verb {
        name: "reload",
        asks: Asks::Reload,
        about: "Makes a volume of an unload stream",
        words: &[
            DBD,
            Word {
                name: "IN",
                help: "The unload stream",
                kind: Kind::Needed,
            },
            Word {
                name: "VOLUME",
                help: "The volume, made where there is none; a file that stands keeps what it has until the whole volume is written",
                kind: Kind::Needed,
            },
            Word {
                name: "BLOCKS",
                help: "The most blocks that the volume may have, 1 to 65536",
                kind: Kind::Blocks,
            },
            CACHE,
            NO_SYNC,
        ],
    },
    Verb {
        name: "show",
        asks: Asks::Show,
        about: "Draws the hierarchy that a DBD describes; or a volume, which it checks",
        words: &[
            DBD,
            Word {
                name: "VOLUME",
                help: "The volume, which is not changed",
                kind: Kind::Optional,
            },
            Word {
                name: "FILE",
                help: "Draw the volume as a picture in SVG, into this file",
                kind: Kind::Behind("svg", "FILE", Some("VOLUME")),
            },
            CACHE,
            NO_SYNC,
        ],
    },
    Verb {
        name: "rows",
        asks: Asks::Rows,
        about: "Checks a volume, and writes its segments in hierarchic sequence, a line each",
        words: &[
            DBD,
            VOLUME,
            Word {
                name: "TYPE",
                help: "Write the segments of this type alone, as CSV, with the keys of their parents",
                kind: Kind::Behind("csv", "TYPE", None),
            },
            Word {
                name: "FOLDER",
                help: "Write a table for each type into this folder, as --csv writes it, in TYPE.csv",
                kind: Kind::BehindAlone("tables", "FOLDER", "TYPE"),
            },
            TYPED,
            CACHE,
            NO_SYNC,
        ],
    },
    Verb {
        name: "stream",
        asks: Asks::Stream,
        about: "Makes an unload stream, which hd reload takes, of a text of rows as hd rows writes it",
        words: &[
            DBD,
            Word {
                name: "IN",
                help: "The text of rows; twins may stand in any order",
                kind: Kind::Needed,
            },
            Word {
                name: "OUT",
                help: "The unload stream, made where there is none; a file that stands keeps what it has until the whole stream is written",
                kind: Kind::Needed,
            },
            Word {
                name: "TABLES",
                help: "IN is a folder with a table for each type, as hd rows --csv writes it, in TYPE.csv",
                kind: Kind::Flag("csv"),
            },
            TYPED,
            NO_SYNC,
        ],
    },
    Verb {
        name: "operands",
        asks: Asks::Operands,
        about: "Lists the operands of a DBD or PSB source, one on a line, for scripts",
        words: &[Word {
            name: "SOURCE",
            help: "The file with the source",
            kind: Kind::Needed,
        }],
    },
    Verb {
        name: "explain",
        asks: Asks::Explain,
        about: "Says what a fault, status or refusal means; without a word it lists them all",
        words: &[Word {
            name: "WORD",
            help: "The number of a fault of a volume, or a code, status or refusal, such as 14, M4, GE or Full",
            kind: Kind::Optional,
        }],
    },
];
