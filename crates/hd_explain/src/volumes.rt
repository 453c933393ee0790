use crate::entry::{Entry, Explanation, Kind};

/// The faults of a volume, by their numbers.
pub const VOLUME_FAULTS: &[Explanation] = &[
    Entry {
        word: "1",
        kind: Kind::VolumeFault,
        summary: "the file is no whole volume of the DBD's block size",
        text: "A program was ended while it changed the volume, or while it made it: reload the last unload stream,\n\
               or bring back the last copy that passes. Or it is a file of another kind, as a DBD, a stream or\n\
               another program's file, or the DBD has another block size: name the right files. Or it was cut, as a\n\
               copy that was made while the file was written, or on a full disk: copy it again. The fault says that\n\
               the file is shorter than a block, does not begin with HDVOLUME, is not as long as its count of\n\
               blocks times the DBD's block size, or has a largest count that is below its count or above 65,536.\n\
               The program's exit status 1 is told by hd explain exit1.",
    },
    Entry {
        word: "2",
        kind: Kind::VolumeFault,
        summary: "the version of the volume's layout is unknown",
        text: "The header gives the layout a version that this program does not know; other is that version. A\n\
               newer program wrote the volume, or its first block is damaged: use the program that made it, or else\n\
               the last copy that passes. Or it is of version 1 or 2, and the DBD has segments that vary in length,\n\
               which no volume of these versions has: name the DBD with which it was made. The program's exit\n\
               status 2 is told by hd explain exit2.",
    },
    Entry {
        word: "3",
        kind: Kind::VolumeFault,
        summary: "the volume is of another database, or of another block size",
        text: "The database's name, or the block size, in the header is not the DBD's. The DBD is that of another\n\
               database, or it was changed after the volume was made. Name the DBD with which the volume was made.\n\
               The program's exit status 3 is told by hd explain exit3.",
    },
    Entry {
        word: "4",
        kind: Kind::VolumeFault,
        summary: "the chain of free elements in a data block is broken",
        text: "In the data block at this address a free element's offset or length is below 8, no multiple of 8 or\n\
               past the block, or it is not past the end of the one before, or its task identifier is not 0. The\n\
               block is damaged, and none of its segments can be trusted. Keep the file, and take the last copy\n\
               that passes, or reload the last unload stream. The program's exit status 4 is told by hd explain\n\
               exit4.",
    },
    Entry {
        word: "5",
        kind: Kind::VolumeFault,
        summary: "a place in a data block holds no segment of the database",
        text: "This place of a data block begins no free element, and no segment of the database stands there, or\n\
               one that runs over the next free element or the block's end. The block is damaged from that place\n\
               on, or the DBD has other types than when the volume was made. Name the DBD with which it was made;\n\
               if that is the one, keep the file, and take the last copy that passes.",
    },
    Entry {
        word: "6",
        kind: Kind::VolumeFault,
        summary: "the delete byte of a segment is not 0",
        text: "The delete byte of the segment at this address is not 0; other is that byte. The segment's first\n\
               bytes are damaged, or another program wrote the volume: hd marks no segment as deleted. Keep the\n\
               file, and take the last copy that passes, or reload the last unload stream.",
    },
    Entry {
        word: "7",
        kind: Kind::VolumeFault,
        summary: "a pointer leads to a place where no segment begins",
        text: "A pointer of the segment at this address, or of the header where that is 0, leads to a place where\n\
               no segment begins; other is the pointer. The segment or the header is damaged, or the pointer's\n\
               target is lost. Keep the file, and take the last copy that passes, or reload the last unload stream.",
    },
    Entry {
        word: "8",
        kind: Kind::VolumeFault,
        summary: "a pointer leads to a segment of another type than it should",
        text: "A pointer of the segment at this address, or of the header where that is 0, leads to a segment of\n\
               another type than it should; other is the pointer. The segment or the header is damaged. Keep the\n\
               file, and take the last copy that passes, or reload the last unload stream.",
    },
    Entry {
        word: "9",
        kind: Kind::VolumeFault,
        summary: "a segment has two predecessors",
        text: "Two pointers or more lead to the segment at this address, by twin forward, by first child or as the\n\
               header's first root; other is the address of who has the second. One of them was changed, and what\n\
               it should lead to is lost from its chain. Keep the file, and take the last copy that passes, or\n\
               reload the last unload stream.",
    },
    Entry {
        word: "10",
        kind: Kind::VolumeFault,
        summary: "a segment has no predecessor",
        text: "No segment leads to the one at this address by twin forward or first child, nor does the header by\n\
               first root. The twin before it, its parent or the header lost a pointer, and what hangs below it is\n\
               not reached either. Keep the file, and take the last copy that passes, or reload the last unload\n\
               stream.",
    },
    Entry {
        word: "11",
        kind: Kind::VolumeFault,
        summary: "the twin backward pointer of a segment is wrong",
        text: "The twin backward pointer of the segment at this address is not the twin before it, or is not 0 in\n\
               the first twin; other is that pointer. The segment's prefix is damaged, which by itself does not\n\
               touch reading forward. Keep the file, and take the last copy that passes, or reload the last unload\n\
               stream.",
    },
    Entry {
        word: "12",
        kind: Kind::VolumeFault,
        summary: "the first and the last child of a parent do not agree",
        text: "The parent at this address has a first child of a type and no last one, or a last and no first, or\n\
               its last is not the end of the chain from the first; other is the last child. The parent's prefix is\n\
               damaged, or the chain was cut. Keep the file, and take the last copy that passes, or reload the last\n\
               unload stream.",
    },
    Entry {
        word: "13",
        kind: Kind::VolumeFault,
        summary: "twins are not in the order of their keys",
        text: "The key of the segment at this address is less than that of the twin before it, or equal to it where\n\
               keys are unique; other is the twin before. Bytes of a key were changed, or twins were exchanged by\n\
               their pointers. Keep the file, and take the last copy that passes, or reload the last unload stream.",
    },
    Entry {
        word: "14",
        kind: Kind::VolumeFault,
        summary: "a segment is not reached from the first root",
        text: "The segment at this address has one predecessor and is yet not reached from the first root: it is in\n\
               a ring, or below one. Pointers were changed so that a part of a chain leads back into itself. Keep\n\
               the file, and take the last copy that passes, or reload the last unload stream.",
    },
    Entry {
        word: "15",
        kind: Kind::VolumeFault,
        summary: "the blocks of the index are not as they should be",
        text: "At 0 one of the header's top and height is 0 alone, the height is above 64, in version 1 above 1, or\n\
               top is no index block of the highest level; other is the number of top. At another address an index\n\
               block has a wrong level, too many entries or none, or a wrong next, names a wrong block, or is named\n\
               twice. The first block, or the block at the address, is damaged. The segments and their pointers are\n\
               sound: only the index is not. Keep the file, and take the last copy that passes, or reload the last\n\
               unload stream.",
    },
    Entry {
        word: "16",
        kind: Kind::VolumeFault,
        summary: "the keys of the index do not ascend",
        text: "In the index block at this address a key is not above the one before it, or an upper key does not\n\
               bound the keys below it; other is what the key's entry names. Entries of the block are damaged. The\n\
               segments and their pointers are sound: only the index is not. Keep the file, and take the last copy\n\
               that passes, or reload the last unload stream.",
    },
    Entry {
        word: "17",
        kind: Kind::VolumeFault,
        summary: "an entry of the index names no root of its key",
        text: "In the index block at this address an entry does not name a root that has its key; other is the\n\
               address in the entry. The entry or the root's key is damaged. The segments and their pointers are\n\
               sound: only the index is not. Keep the file, and take the last copy that passes, or reload the last\n\
               unload stream.",
    },
    Entry {
        word: "18",
        kind: Kind::VolumeFault,
        summary: "a root has no entry in the index",
        text: "No entry of the index names the root at this address: by its key it is not found, though reading in\n\
               sequence comes to it. An entry is lost. The segments and their pointers are sound: only the index is\n\
               not. Keep the file, and take the last copy that passes, or reload the last unload stream.",
    },
    Entry {
        word: "19",
        kind: Kind::VolumeFault,
        summary: "a block is neither data, index nor free, or the index does not reach it",
        text: "Byte 2 of the block at this address is none of 1, 2 and 3; or it is 2, and no way leads from the top\n\
               of the index to the block. The start of the block is damaged, or the index block that named it lost\n\
               its number. Keep the file, and take the last copy that passes, or reload the last unload stream.",
    },
    Entry {
        word: "20",
        kind: Kind::VolumeFault,
        summary: "the first and the last root of the header do not agree",
        text: "The header has a first root and no last one, or a last and no first, or its last root is not the end\n\
               of the chain from the first; other is the last root. The first block is damaged, or the chain of\n\
               roots was cut. Keep the file, and take the last copy that passes, or reload the last unload stream.",
    },
];
