use crate::entry::{Entry, Explanation, Kind};

/// The faults of a deck.
pub const DECK_FAULTS: &[Explanation] = &[
    Entry {
        word: "K1",
        kind: Kind::DeckFault,
        summary: "column 1 begins no line of a deck",
        text: "A line of a deck has S, L, C, D or H in column 1, or a star, which makes it a comment; a line of\n\
               blanks is passed over. Most often a blank stands in front of the letter, or it is in lower case.\n\
               Correct column 1.",
    },
    Entry {
        word: "K2",
        kind: Kind::DeckFault,
        summary: "the function of a call is none, or not in its columns",
        text: "An L line has its function in columns 7 to 10, one to four letters A to Z with blanks behind them,\n\
               and columns 6 and 11 are blank. Count the columns, and put the first argument into column 12. A\n\
               function of other letters than the nine is no fault of the deck: its call answers AD.",
    },
    Entry {
        word: "K3",
        kind: Kind::DeckFault,
        summary: "S without the number of a PCB of the program",
        text: "Behind the S stands a number, from 1 to the number of PCBs that the PSB has, with blanks around it\n\
               as one likes. Correct the number, or use the PSB for which the deck was written.",
    },
    Entry {
        word: "K4",
        kind: Kind::DeckFault,
        summary: "a C, D or H line that belongs to no call",
        text: "Such a line adds an argument, or bytes of the area, to the L line before it. At the beginning of a\n\
               deck and behind an S there is none. Put the L line in front of it.",
    },
    Entry {
        word: "K5",
        kind: Kind::DeckFault,
        summary: "a repeat count that is not a number from 1 to 9,999",
        text: "Columns 2 to 5 of an L line have a number from 1 to 9,999, or blanks, which mean once. Most often\n\
               the function stands there: it begins in column 7. Correct the columns.",
    },
    Entry {
        word: "K6",
        kind: Kind::DeckFault,
        summary: "a line of more than 255 bytes",
        text: "A line of the deck has more than 255 bytes, its end not counted; comments are judged too. Bytes of\n\
               an area may be divided among several D or H lines, which stand one behind the other.",
    },
    Entry {
        word: "K7",
        kind: Kind::DeckFault,
        summary: "hexadecimal digits that are none, or an odd number of them",
        text: "An H line has two hexadecimal digits for each byte from column 2 on, 0 to 9 and a to f in lower\n\
               case, and nothing else. Take out blanks, also at the line's end, write the letters in lower case,\n\
               and count the digits.",
    },
];

/// The faults of the spelling of an unload stream; those of its order are statuses of a load.
pub const STREAM_FAULTS: &[Explanation] = &[
    Entry {
        word: "U1",
        kind: Kind::StreamFault,
        summary: "the header of the stream is another",
        text: "The first 18 bytes are not HDUNLOAD, version 1, and the name of the DBD's database, padded to eight\n\
               bytes. It is another file, or the stream of another database. Name the right stream, or the DBD with\n\
               which it was made.",
    },
    Entry {
        word: "U2",
        kind: Kind::StreamFault,
        summary: "the stream ends too early",
        text: "The stream ends in its header, which is record 0, or in the record that is named, or where that one\n\
               should begin, or in the number at its end. A copy was cut short, or an unload was broken off. Copy\n\
               or unload again.",
    },
    Entry {
        word: "U3",
        kind: Kind::StreamFault,
        summary: "a code that is no type of the database",
        text: "The record begins with a code that no type of the DBD has. The DBD has lost types since the unload,\n\
               or the stream is damaged. Use the DBD of the unload, or unload again.",
    },
    Entry {
        word: "U4",
        kind: Kind::StreamFault,
        summary: "a wrong length, or a wrong end",
        text: "The type may not have segments of the record's length, or they vary and the first two bytes of this\n\
               one say another; or at the end the number of records is wrong, or bytes follow it. The DBD gives the\n\
               type other lengths than at the unload, or the stream is damaged. Use the DBD of the unload, or\n\
               unload again.",
    },
];
