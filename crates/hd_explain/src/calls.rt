use crate::entry::{Entry, Explanation, Kind};

/// The status codes of calls, and of the records of a load.
pub const STATUS_CODES: &[Explanation] = &[
    Entry {
        word: "blank",
        kind: Kind::Status,
        summary: "done",
        text: "The status is two blanks, and the call was done. GA and GK mean done too, and are answered by GN and\n\
               GNP without arguments alone, and by their hold forms.",
    },
    Entry {
        word: "GA",
        kind: Kind::Status,
        summary: "done: the segment is on a higher level than the one before",
        text: "A GN or GNP without arguments, or its hold form, gave a segment. It is on a higher level, nearer to\n\
               the root, than the segment that the PCB returned or inserted last. Nothing is wrong.",
    },
    Entry {
        word: "GK",
        kind: Kind::Status,
        summary: "done: the segment is of another type on the same level",
        text: "A GN or GNP without arguments, or its hold form, gave a segment. It is on the level of the segment\n\
               that the PCB returned or inserted last, and of another type. Nothing is wrong.",
    },
    Entry {
        word: "GB",
        kind: Kind::Status,
        summary: "the end of the database",
        text: "A GN or GHN without qualifications found no segment any more. The PCB is back at the start, without\n\
               a parent and without a hold: the next GN begins again. Nothing is wrong.",
    },
    Entry {
        word: "GE",
        kind: Kind::Status,
        summary: "no such segment",
        text: "No segment satisfies the arguments, or for an ISRT there is no parent as they ask for it. A GNP\n\
               looks only below the parent, and a GN, without command code F, only from the PCB's position on. The\n\
               position is as before, and nothing is held. Correct the arguments, or take it that there is none.",
    },
    Entry {
        word: "GP",
        kind: Kind::Status,
        summary: "a GNP without a parent, or for a type that is not below it",
        text: "The PCB has no parent, or the last argument's type is not below the parent's type. A GU or GN that\n\
               gives a segment makes it the parent, and an ISRT mostly does so too; GB, and a deletion of the\n\
               parent, leave none. Get the parent by a GU or GN first.",
    },
    Entry {
        word: "II",
        kind: Kind::Status,
        summary: "a twin has this unique key",
        text: "An ISRT would put a segment beside a twin with the same key, and the keys of its type are unique.\n\
               Nothing was inserted. Use another key, or get the twin with a hold and replace it.",
    },
    Entry {
        word: "V1",
        kind: Kind::Status,
        summary: "a segment of variable length says a wrong length",
        text: "The segments of the type vary in length: the first two bytes of one, the higher first, say how many\n\
               it has, themselves counted. In the area of an ISRT or REPL they say a length that the type does not\n\
               allow, or more bytes than the area has left. Nothing was inserted or replaced, and a hold has ended.\n\
               Correct the two bytes, or the bytes behind them.",
    },
    Entry {
        word: "DA",
        kind: Kind::Status,
        summary: "a REPL would change a key",
        text: "In the key of a held segment, its sequence field, the area has other bytes. Nothing was replaced,\n\
               and the hold has ended. For another key, delete the segment with all that depends on it, and insert\n\
               it anew.",
    },
    Entry {
        word: "DJ",
        kind: Kind::Status,
        summary: "nothing is held",
        text: "A REPL or DLET needs a segment that the PCB holds, and the argument of a DLET names the type of one\n\
               that is held. A hold is made by GHU, GHN or GHNP, and lasts until the PCB's next call that answers a\n\
               status. It also ends when another PCB replaces or deletes what is held. Get the segment with a hold\n\
               again, and look at it before you change it.",
    },
    Entry {
        word: "LB",
        kind: Kind::Status,
        summary: "a load: the twin before has the same unique key",
        text: "The segment that is loaded, by an ISRT under PROCOPT L or from a stream, has the key of the twin\n\
               before it, and the keys of its type are unique. The segment was not loaded; a stream is refused as a\n\
               whole. Leave out one of the two, or correct its key.",
    },
    Entry {
        word: "LC",
        kind: Kind::Status,
        summary: "a load: the twin before has a greater key",
        text: "The segment that is loaded, by an ISRT under PROCOPT L or from a stream, has a lesser key than the\n\
               twin before it. The segment was not loaded; a stream is refused as a whole. Load in hierarchic\n\
               sequence, twins in the order of their keys, or insert by a PCB that does not load.",
    },
    Entry {
        word: "LD",
        kind: Kind::Status,
        summary: "a load: no parent on the path of the segment before",
        text: "A segment is loaded, by an ISRT under PROCOPT L or from a stream, below the last segment of its\n\
               parent type. There is none on the path of the segment before. It was not loaded; a stream is refused\n\
               as a whole. Load the parent first, and its dependents at once behind it.",
    },
    Entry {
        word: "LE",
        kind: Kind::Status,
        summary: "a load: a later type stands before it below the same parent",
        text: "Below the same parent a segment of a type that comes later in the DBD is loaded already. The segment\n\
               was not loaded; a stream is refused as a whole. Below each parent load the types in the order of\n\
               their SEGMs.",
    },
    Entry {
        word: "AC",
        kind: Kind::Status,
        summary: "an argument's type does not fit",
        text: "An argument names a type that the PCB does not see, or one that is not below the type of the\n\
               argument before. Or an ISRT's path leaves a level out, or there are over 15 arguments. Correct the\n\
               name in its eight places, or the order, or add a SENSEG to the PSB.",
    },
    Entry {
        word: "AD",
        kind: Kind::Status,
        summary: "the function is none",
        text: "The function is none of GU, GN, GNP, GHU, GHN, GHNP, ISRT, REPL and DLET. Correct it; in a deck it\n\
               stands in columns 7 to 10.",
    },
    Entry {
        word: "AH",
        kind: Kind::Status,
        summary: "an ISRT without an argument",
        text: "The last argument of an ISRT names the type of the segment that is inserted, and there was no\n\
               argument. Add it; in a deck it stands from column 12 on.",
    },
    Entry {
        word: "AJ",
        kind: Kind::Status,
        summary: "an argument is ill formed",
        text: "An argument is a name in eight places, then a star and command codes if one likes, then the end, a\n\
               blank or a qualification in brackets. A qualification is a field in eight places, an operator in two\n\
               and a value as long as the field. Or what is inserted, replaced or deleted is qualified, or a DLET,\n\
               or an ISRT that loads, has more than one argument. Count the places: most often a blank behind a\n\
               name is lacking, or the value has another length.",
    },
    Entry {
        word: "AK",
        kind: Kind::Status,
        summary: "a field that the type does not have",
        text: "A qualification names a field that the DBD does not give to the argument's type. Correct the name,\n\
               which takes eight places, or add a FIELD to the DBD.",
    },
    Entry {
        word: "AM",
        kind: Kind::Status,
        summary: "the PCB may not do that",
        text: "PROCOPT of the PCB, or of the type's SENSEG, does not allow the call. G allows gets, I inserts, R\n\
               replaces, D deletes, A all of these, and P beside them gets of a path by command code D. R and D\n\
               allow gets too; L allows an ISRT that loads, and nothing else. Use another PCB, or change PROCOPT in\n\
               the PSB.",
    },
];

/// Why a call gave no status.
pub const REFUSALS: &[Explanation] = &[
    Entry {
        word: "Full",
        kind: Kind::Refusal,
        summary: "the volume has no room",
        text: "There is no room for what an ISRT inserts, and nothing was changed; or hd reload has none for a\n\
               record of the stream, and BLOCKS is too small. A root may need two blocks, one of them for the\n\
               index. Unload the volume, and reload the stream with more BLOCKS; a deck itself goes on.",
    },
    Entry {
        word: "Area",
        kind: Kind::Refusal,
        summary: "the I/O area has a wrong length",
        text: "An ISRT takes as many bytes as the segments that it inserts have, and a REPL as many as all that is\n\
               held; a segment that varies in length has as many as its first two bytes say. Nothing was changed, a\n\
               hold still stands, and a deck goes on. Correct the bytes of the D and H lines; a blank at a line's\n\
               end counts.",
    },
    Entry {
        word: "Memory",
        kind: Kind::Refusal,
        summary: "no memory for the call",
        text: "There was no memory for the call, and nothing was changed. The deck goes on, and hd ends with status\n\
               4. Give hd more memory, or fewer blocks to keep by --cache.",
    },
    Entry {
        word: "Device",
        kind: Kind::Refusal,
        summary: "an access of the volume failed",
        text: "A read or a write of the volume failed, and the deck ended with this call. What the volume holds now\n\
               is not known. Look after the disk, and let hd check judge the volume.",
    },
    Entry {
        word: "Broken",
        kind: Kind::Refusal,
        summary: "the session has ended",
        text: "An access failed in an earlier call of the session, which answered Device, and every later call\n\
               answers this. Only programs that make calls themselves meet it: a deck ends with Device. Open a new\n\
               session, which checks the volume.",
    },
];
