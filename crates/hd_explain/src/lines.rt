use crate::entry::{Entry, Explanation, Kind};

/// The lines that `hd` prints of what it did, or why it did not, by the words that each of them has.
pub const LINES: &[Explanation] = &[
    Entry {
        word: "device failed",
        kind: Kind::Line,
        summary: "a file could not be opened, read or written",
        text: "The system refused to open, to read or to write a file, or a text is longer than hd reads. On a\n\
               terminal, and with --explain always, the next line names the file and says what the system said.\n\
               Look at the file's name and rights, and at the room on the disk. The status is 3.",
    },
    Entry {
        word: "no memory",
        kind: Kind::Line,
        summary: "there was no memory for the command",
        text: "The system gave hd no more memory. Nothing was changed, or all that was changed was taken back. Give\n\
               hd more memory, or fewer blocks to keep by --cache. The status is 4.",
    },
    Entry {
        word: "volume is in use",
        kind: Kind::Line,
        summary: "another program has the volume, or the file of a result",
        text: "A program that changes a volume has it alone, and while others read it nobody changes it; one that\n\
               writes a result has alone the file that it replaces. hd waits for none of them. Try again when the\n\
               other program has ended. The status is 3.",
    },
    Entry {
        word: "volume is not empty",
        kind: Kind::Line,
        summary: "the program loads, and the volume has segments",
        text: "The PCB has PROCOPT L, which loads an empty database, and the volume has segments. Use a PSB whose\n\
               PCBs do not load, or make an empty volume by hd reload of a stream without records. The status is 1.",
    },
    Entry {
        word: "volume of version",
        kind: Kind::Line,
        summary: "the volume is of an older version, which is only read",
        text: "A deck or a program of hd serve changes volumes of the newest version alone. Write the older one's\n\
               stream by hd unload, and make a new volume of it by hd reload. The status is 1.",
    },
    Entry {
        word: "the last commit stands in the log alone",
        kind: Kind::Line,
        summary: "the system does not let the log be copied into the volume",
        text: "A program ended before its commits were copied from the log into the volume, and the system refuses\n\
               to write the volume now. Who may write it copies the log by hd recover, or by any command that opens\n\
               the volume. Keep volume and log together until then. The status is 3.",
    },
    Entry {
        word: "the commit stands in the log alone",
        kind: Kind::Line,
        summary: "all is committed, and not copied into the volume yet",
        text: "What the calls changed is committed and lasts, but the system refused to copy it from the log into\n\
               the volume. The next command that opens the volume copies it. Keep volume and log together until\n\
               then.",
    },
    Entry {
        word: "log of another volume",
        kind: Kind::Line,
        summary: "the log beside the volume was written for another file",
        text: "Beside the volume stands a log with commits, and it says that it is another file's: one of the two\n\
               was copied, moved or restored without the other. Nothing was written. If the two belong together,\n\
               name the log to hd recover; else remove it. The status is 3.",
    },
    Entry {
        word: "log of another version",
        kind: Kind::Line,
        summary: "another version of hd wrote the log beside the volume",
        text: "Beside the volume stands a log that this version of hd can't read. Nothing was written. The version\n\
               that wrote it copies it into the volume. The status is 3.",
    },
    Entry {
        word: "recovered:",
        kind: Kind::Line,
        summary: "what an earlier program left in the log was settled first",
        text: "An earlier program was ended in the midst of its work. What it had committed was copied from the log\n\
               into the volume, or what it had not committed is gone; the line says which. The command then did its\n\
               own work.",
    },
    Entry {
        word: "nothing to recover",
        kind: Kind::Line,
        summary: "no log stands beside the volume",
        text: "No program left a log beside the volume, which is that of the last commit. The next line is that of\n\
               a check.",
    },
    Entry {
        word: "went back to the last commit",
        kind: Kind::Line,
        summary: "the log had nothing that was committed",
        text: "A program was ended before it committed what it changed. That is gone, the log is removed, and the\n\
               volume is that of the last commit. The next line is that of a check.",
    },
    Entry {
        word: "copied the last commit",
        kind: Kind::Line,
        summary: "the commits in the log are in the volume now",
        text: "A program was ended before its commits were copied from the log into the volume. They are there now.\n\
               The next line is that of a check.",
    },
    Entry {
        word: "taken back",
        kind: Kind::Line,
        summary: "a program of hd serve ended without a commit",
        text: "What the program's calls changed since its last commit is gone, and the volume is that of this\n\
               commit.",
    },
    Entry {
        word: "output file is also an input",
        kind: Kind::Line,
        summary: "the command would write over a file that it reads",
        text: "Two words of the command line lead to one file, one to be read and one to be written. Nothing was\n\
               changed. Name another file for the result. The status is 64.",
    },
    Entry {
        word: "both output files are one",
        kind: Kind::Line,
        summary: "both results of hd salvage --orphans would go into one file",
        text: "FILE of --orphans and OUT lead to one file. Nothing was changed. Name two files. The status is 64.",
    },
    Entry {
        word: "is not UTF-8",
        kind: Kind::Line,
        summary: "a word of the command line is no text",
        text: "A word of the command line, as the name of a file, has bytes that are no UTF-8. Give the file\n\
               another name. The status is 64.",
    },
    Entry {
        word: "has no type of this name",
        kind: Kind::Line,
        summary: "hd rows --csv names a type that the DBD does not have",
        text: "Behind --csv stands the name of a segment type, as in NAME of a SEGM of the DBD, in upper case. hd\n\
               show DBD lists them. The status is 64.",
    },
    Entry {
        word: "more than 255 fields",
        kind: Kind::Line,
        summary: "hd serve can't tell a type with so many fields",
        text: "The first frame of hd serve tells programs the fields of each type, of which it counts at most 255.\n\
               Other commands take the DBD. The status is 2.",
    },
    Entry {
        word: "frame refused",
        kind: Kind::Line,
        summary: "a program sent hd serve what is no call",
        text: "The bytes on standard input are no frame of a call: the line says in what. What was changed since\n\
               the last commit is gone. Correct the program that writes the frames. The status is 3.",
    },
    Entry {
        word: "IN refused",
        kind: Kind::Line,
        summary: "a text of rows, or a table, has a fault",
        text: "The line names the first line with a fault, and what is wrong with it: a type, a field or a range\n\
               that the DBD does not have, a value that is too long or ill formed, bytes that are given twice and\n\
               differ, a row without its parent, a key that a twin has. Of a table it names the file, and of one\n\
               whose name is no type's the line 1. No stream was written. The status is 2.",
    },
    Entry {
        word: "nothing is known of",
        kind: Kind::Line,
        summary: "hd explain does not know the word",
        text: "hd explain knows the words that it lists where no word is given, and the lines that hd prints, in\n\
               quotes. The status is 64.",
    },
    Entry {
        word: "expected,",
        kind: Kind::Line,
        summary: "a call of hd deck --expect answered something else",
        text: "Behind the call the deck says, by a comment * expect, what it should answer; the line names the call\n\
               and its line, what is expected, and what was answered. What the calls changed is committed all the\n\
               same. Correct the deck, or look for what changed the volume. The status is 1.",
    },
    Entry {
        word: "committed: at least",
        kind: Kind::Line,
        summary: "how far a deck with --commit came that failed",
        text: "The commit behind so many calls was done for certain: the volume has what they changed. Later calls\n\
               may be committed too, or not: hd check, and calls that look, say which. Play the rest of the deck.",
    },
    Entry {
        word: "calls answered Full",
        kind: Kind::Line,
        summary: "so many calls of a deck found no room in the volume",
        text: "The rows of these calls are not in the volume; the others are. Write the stream by hd unload, make a\n\
               volume with more BLOCKS of it by hd reload, and make the calls again.",
    },
    Entry {
        word: "warning:",
        kind: Kind::Line,
        summary: "hd show warns of what an unload and a reload mend",
        text: "The volume is nearly full, its index has more levels than it needs, or a chain of twins is long. No\n\
               fault is meant: the volume passes or not, whatever is said. hd unload and hd reload with more BLOCKS\n\
               mend the first two; of a long chain other types or keys.",
    },
    Entry {
        word: "passes:",
        kind: Kind::Line,
        summary: "the volume has no fault",
        text: "hd check judged every block, segment, pointer and index entry of the volume, and found no fault. The\n\
               numbers are those of its blocks, the header among them, its segments and its roots. The status is 0.",
    },
    Entry {
        word: "faults of the index",
        kind: Kind::Line,
        summary: "hd check --all found faults of pointers, and of the index too",
        text: "The index is judged by itself: the lines behind this one are all faults of its first phase that finds\n\
               any. hd salvage and hd reload make the index anew, and no row is lost by it. The status is 1.",
    },
    Entry {
        word: "unloaded",
        kind: Kind::Line,
        summary: "the stream of a volume was written",
        text: "The volume passed, and the unload stream of its segments, so many, is whole and has its name. The\n\
               status is 0.",
    },
    Entry {
        word: "salvaged",
        kind: Kind::Line,
        summary: "a stream of what a volume still holds was written",
        text: "The stream has so many segments, and so many were left out, since nothing that agrees leads to them.\n\
               The lines in front of this one say which faults were met, and of which types segments were left out.\n\
               The stream reloads. The status is 0.",
    },
    Entry {
        word: "left out",
        kind: Kind::Line,
        summary: "so many segments of a type are not in a salvaged stream",
        text: "hd salvage found segments of the type that no chain of pointers that agrees leads to from a root:\n\
               most often their parent, or a twin before them, is lost.",
    },
    Entry {
        word: "reloaded",
        kind: Kind::Line,
        summary: "a volume was made of a stream",
        text: "The volume has every segment of the stream, so many, in so many blocks, and has its name. The status\n\
               is 0.",
    },
    Entry {
        word: "copied",
        kind: Kind::Line,
        summary: "a volume that passes was copied",
        text: "The volume passed, and the copy has every block of it, so many, and has its name. The status is 0.",
    },
    Entry {
        word: "wrote",
        kind: Kind::Line,
        summary: "a table for each type was written",
        text: "The volume passed, and the folder has a table for each segment type, with all segments of the volume.\n\
               hd stream --csv takes the folder. The status is 0.",
    },
    Entry {
        word: "made a stream",
        kind: Kind::Line,
        summary: "an unload stream was made of rows or tables",
        text: "The stream has every row, so many, in hierarchic sequence, and has its name. hd reload makes a\n\
               volume of it. The status is 0.",
    },
];
