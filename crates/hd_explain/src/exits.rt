use crate::entry::{Entry, Explanation, Kind};

/// The statuses with which `hd` ends. Their words are not the numbers alone, which are those of faults.
pub const EXIT_STATUSES: &[Explanation] = &[
    Entry {
        word: "exit0",
        kind: Kind::ExitStatus,
        summary: "done",
        text: "The command did its work, and what it checked has passed. The calls of a deck may have answered any\n\
               status, or Full or Area, which their lines tell.",
    },
    Entry {
        word: "exit1",
        kind: Kind::ExitStatus,
        summary: "a volume or a stream is refused",
        text: "The volume has a fault; or it holds segments, and the program loads; or it is of an older version,\n\
               and a deck is to be played over it; or a stream is refused, or does not fit; or a call of hd deck\n\
               --expect answered something else. The line on standard error says which, and hd explain knows it.",
    },
    Entry {
        word: "exit2",
        kind: Kind::ExitStatus,
        summary: "a text is refused",
        text: "The DBD, the PSB, the deck, or a text of rows or a table of hd stream has a fault; or hd serve can't\n\
               tell a type of more than 255 fields. The line on standard error gives the place, and a code or words\n\
               that hd explain knows.",
    },
    Entry {
        word: "exit3",
        kind: Kind::ExitStatus,
        summary: "a file failed, or is in use",
        text: "A file could not be opened, a read or a write failed, or an input is too long: device failed. Or\n\
               another program has the volume: volume is in use. Look at the files' names and rights, and at the\n\
               room on the disk. Where hd deck or hd serve ended so, the volume is as it was before; had the\n\
               commit begun, it may have all that was changed, and the next command says which. A log that is\n\
               refused stands in a file of the volume's name and -log: hd recover copies it by word.",
    },
    Entry {
        word: "exit4",
        kind: Kind::ExitStatus,
        summary: "no memory",
        text: "There was no memory for the command, or for a call of a deck, whose line then says Memory. Give hd\n\
               more memory, or fewer blocks to keep by --cache.",
    },
    Entry {
        word: "exit64",
        kind: Kind::ExitStatus,
        summary: "the command line was not understood",
        text: "hd does not understand its words, or help or the version was asked for, or hd explain does not know\n\
               a word, or the DBD has no type of the name behind --csv, or an output file is also an input, or two\n\
               outputs are one file. Nothing was changed. Ask hd --help for the commands and their words.",
    },
];
