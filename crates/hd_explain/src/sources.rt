use crate::entry::{Entry, Explanation, Kind};

/// The faults of a DBD or PSB source, and those of the database or the program that it describes.
pub const SOURCE_FAULTS: &[Explanation] = &[
    Entry {
        word: "M1",
        kind: Kind::SourceFault,
        summary: "a line of more than 80 bytes",
        text: "A line of the DBD or PSB source has more than 80 bytes, its end not counted; comments are judged\n\
               too. Shorten the line, or go on with the statement in the next line by a character in column 72.",
    },
    Entry {
        word: "M2",
        kind: Kind::SourceFault,
        summary: "a byte that is not ASCII",
        text: "A line of the DBD or PSB source has a byte that is not ASCII; comments and columns 73 to 80 are\n\
               judged too. Most often it is a letter with an accent, or a mark that an editor put in front of the\n\
               file. Write the line in ASCII.",
    },
    Entry {
        word: "M3",
        kind: Kind::SourceFault,
        summary: "a continuation line is wrong or missing",
        text: "The line before has a character in column 72, so that this line should go on with its statement. It\n\
               has text in columns 1 to 15, or a blank in column 16 where operands go on, or it is missing. Begin\n\
               the text in column 16, or make column 72 of the line before blank.",
    },
    Entry {
        word: "M4",
        kind: Kind::SourceFault,
        summary: "operand text that is none",
        text: "Operands are KEY=value or KEY=(..), parted by commas, and end with the first blank. Values are of A\n\
               to Z, 0 to 9, $, #, @ and the period, so that lower case letters and quotes are faults. A comma at\n\
               the end needs a line that goes on, by a character in column 72. A remark behind a statement without\n\
               operands, as in DBDGEN REMARK, is read as operands.",
    },
    Entry {
        word: "G1",
        kind: Kind::SourceFault,
        summary: "a statement that the source does not have",
        text: "A DBD source has DBD, DATASET, SEGM, FIELD, LCHILD, DBDGEN, FINISH and END; a PSB source has PCB,\n\
               SENSEG, PSBGEN and END. Most often the operation begins in column 1, where it is taken for a label.\n\
               Put a blank in front of it, or correct its name.",
    },
    Entry {
        word: "G2",
        kind: Kind::SourceFault,
        summary: "a statement that may not stand where it stands, or the end is missing",
        text: "A DBD source is DBD, at most one DATASET, one or more SEGM, each with its FIELDs behind it and the\n\
               root also with its LCHILDs, and DBDGEN; FINISH and END may follow. A PSB source is one or more PCB,\n\
               each with its SENSEGs behind it, and PSBGEN; END may follow. Where DBDGEN or PSBGEN is missing, the\n\
               line that is named is the one behind the last. Move the statement, or add what is missing.",
    },
    Entry {
        word: "G3",
        kind: Kind::SourceFault,
        summary: "an operand, or a value of one, that is not supported",
        text: "The statement has an operand that hd does not know, or a value of another form than hd reads, or an\n\
               LCHILD stands below a type that is not the root. hd describes HIDAM databases, and not all that IMS\n\
               has for them. Leave the operand out, or give it a value that hd reads.",
    },
    Entry {
        word: "G4",
        kind: Kind::SourceFault,
        summary: "a value that is ill formed, given twice or of another database",
        text: "A name or a number is none, an operand stands twice, a type has a second sequence field, or a PCB\n\
               names another database than the DBD's. A name has 1 to 8 characters of A to Z, 0 to 9, $, # and @,\n\
               the first a letter; a number is below 4,294,967,296. PTR and POINTER are one operand, and so are\n\
               NAME and DBDNAME of a PCB.",
    },
    Entry {
        word: "G5",
        kind: Kind::SourceFault,
        summary: "a needed operand is missing",
        text: "DBD needs NAME and ACCESS; SEGM needs NAME and BYTES; FIELD needs NAME, BYTES and START. LCHILD and\n\
               SENSEG need NAME; PCB needs TYPE, DBDNAME and PROCOPT. Add the operand; if it stands in the next\n\
               line, put a character in column 72 of the line before.",
    },
    Entry {
        word: "B1",
        kind: Kind::SourceFault,
        summary: "the database has no segment type",
        text: "A program that makes the types itself handed over none; a source without SEGM is G2. Give the\n\
               database a root.",
    },
    Entry {
        word: "B2",
        kind: Kind::SourceFault,
        summary: "more than 255 segment types",
        text: "A segment's code is one byte and never 0, so that a database has at most 255 types. Leave types out,\n\
               or divide the database.",
    },
    Entry {
        word: "B3",
        kind: Kind::SourceFault,
        summary: "more than 15 levels",
        text: "The type stands on level 16, and a hierarchy has at most 15 levels, the root's counted. Put the type\n\
               below one that is higher up.",
    },
    Entry {
        word: "B4",
        kind: Kind::SourceFault,
        summary: "a parent that is no earlier type, or a root with a parent",
        text: "The first type is the root and has no parent; every other type has one, whose SEGM stands before its\n\
               own. Either PARENT names no type before this one, or it is 0 or missing in a type that is not the\n\
               first. Correct the name, or put the SEGMs in another order.",
    },
    Entry {
        word: "B5",
        kind: Kind::SourceFault,
        summary: "no byte, a wrong least length, or a field or key outside its segment",
        text: "BYTES is 0, in the segment or in one of its fields; or of BYTES=(max,min) min is below 2 or above\n\
               max; or a field does not lie inside its segment, or inside the shortest where they vary. START\n\
               counts from 1, and START and BYTES of a field together are at most one more than BYTES of its\n\
               segment, or than min. Correct BYTES or START.",
    },
    Entry {
        word: "B6",
        kind: Kind::SourceFault,
        summary: "the root has no unique key",
        text: "The first type needs a sequence field whose keys are unique, since roots are found by it. Write its\n\
               FIELD as NAME=(field,SEQ,U), where the U may be left out, and not with M.",
    },
    Entry {
        word: "B7",
        kind: Kind::SourceFault,
        summary: "a name that is there already",
        text: "The type has the name of an earlier type, or two of its fields have one name. Change one of the\n\
               names; fields of different types may share one.",
    },
    Entry {
        word: "B8",
        kind: Kind::SourceFault,
        summary: "a segment, or the index, does not fit into a block",
        text: "The longest segment of the type, with its prefix and rounded up to a multiple of 8, has more bytes\n\
               than a block without its first 8. Or, with type 1, the root's key is so long that three entries of\n\
               the index do not fit into a block. Make SIZE of the DATASET statement larger, or the segment or the\n\
               key smaller.",
    },
    Entry {
        word: "B9",
        kind: Kind::SourceFault,
        summary: "a key of more than 255 bytes",
        text: "The sequence field of the type has more than 255 bytes. Make BYTES of that FIELD 255 or less.",
    },
    Entry {
        word: "B10",
        kind: Kind::SourceFault,
        summary: "a block size or a free space out of range",
        text: "SIZE of the DATASET statement is no multiple of 8 from 128 to 32,768, or FRSPC=(fbff,fspf) is out of\n\
               range. There fbff is 0 or from 2 to 100, and fspf is from 0 to 99. Correct the DATASET statement;\n\
               without SIZE a block has 2,048 bytes.",
    },
    Entry {
        word: "P1",
        kind: Kind::SourceFault,
        summary: "a SENSEG that names no segment of the DBD",
        text: "A SENSEG of this PCB has a NAME that is no type of the database. Correct the name, or use the DBD\n\
               for which the PSB was written.",
    },
    Entry {
        word: "P2",
        kind: Kind::SourceFault,
        summary: "a SENSEG with another parent than the DBD's, or whose parent is not seen",
        text: "PARENT of a SENSEG is not the parent that the type has in the DBD, or the PCB has no SENSEG for that\n\
               parent. A PCB that sees a type sees its parent too; the root has PARENT=0, or none. Correct PARENT,\n\
               or add the parent's SENSEG.",
    },
    Entry {
        word: "P3",
        kind: Kind::SourceFault,
        summary: "SENSEGs out of the order of the DBD, or one twice",
        text: "The SENSEGs of a PCB stand in the order in which the DBD has their SEGMs, and each at most once. Put\n\
               them in that order, or take out the second.",
    },
    Entry {
        word: "P4",
        kind: Kind::SourceFault,
        summary: "a PROCOPT that is none",
        text: "PROCOPT has one letter or more of G, I, R, D and A, and P beside them if one likes; or it is L, or\n\
               LS. A PROCOPT of this PCB or of one of its SENSEGs is otherwise, or L stands on only one of the two.\n\
               Correct the letters.",
    },
    Entry {
        word: "P5",
        kind: Kind::SourceFault,
        summary: "a PCB that loads stands beside others",
        text: "The PCB has PROCOPT L, which loads an empty database, and such a PCB is the only one of its PSB.\n\
               Load by a PSB of its own, and make the other calls by another PSB afterwards.",
    },
    Entry {
        word: "P6",
        kind: Kind::SourceFault,
        summary: "no PCB, too many of them, or a PCB without SENSEG",
        text: "With pcb 0 the program has no PCB, or more than 255; with another number that PCB has no SENSEG. Add\n\
               what is missing, or divide the program.",
    },
];
