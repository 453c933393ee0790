//! Tests that play lists of calls, with each access failing in turn, and that count accesses.
ghost use Rattle.std.specs.Prelude.{◌≤◌, ◌<◌};

use crate::lists::{STUDENT, play};
use crate::text::{cut, is_end, is_list_end, line_of, numbers_in};
use crate::trial::Trial;
use hd_dbd::{Dbd, DbdFault, FreeSpace, Name8, Refused, SegType};
use hd_position::Position;
use hd_sample::{database, image, put, segment_type};
use std::alloc::{AllocError, Global};
use std::test::Fail;

/// The sample, linked row by row.
const SAMPLE: &[u8] = b"link 0 0 1:101ALGEB=136
link 136 0 2:01AB=176
link 176 0 3:ADAM01=200
link 176 200 3:EVE 02=216
link 136 176 2:02CD=232
link 136 0 4:EULER=264
link 0 136 1:205LOGIC=280";

/// Lists of calls. The first line of each names the database, and says whether the volume is new at first, or has the sample (1), or is that of three
/// blocks (2), and whether all is refused where an access fails (1). Behind the calls a list says what bytes the volume then has: at a place `@`, at a
/// place of each block but the first `*`, those of the three blocks from a place to another `~`, how many `#`, or more than how many `>`.
const LISTS: &[u8] =
    b"KINDS 0 0:each sort of pointer is mended as rows of four types are linked: behind none, behind the first, between, and as the first
link 0 0 1:001ROOT.=136
link 136 0 2:1.=184
link 136 184 2:3.=192
link 136 184 2:2.=200
link 136 0 2:0.=208
link 136 0 3:1.=216
link 136 216 3:3.=224
link 136 216 3:2.=232
link 136 0 3:0.=240
link 136 0 4:1.=264
link 136 264 4:3.=280
link 136 264 4:2.=296
link 136 0 4:0.=312
link 136 0 5:1.=328
link 136 328 5:3.=344
link 136 328 5:2.=360
link 136 0 5:0.=392
end
@ 136:\x01\0\0\0\0\0\0\0\0\0\0\0\0\xd0\0\0\0\xf0\0\0\0\xe0\0\0\x01\x38\0\0\x01\x88\0\0\x01\x58001ROOT.
@ 184:\x02\0\0\0\0\xc81.\x02\0\0\0\0\x003.\x02\0\0\0\0\xc02.\x02\0\0\0\0\xb80.
@ 216:\x03\0\0\0\0\xe81.\x03\0\0\0\0\x003.\x03\0\0\0\0\xe02.\x03\0\0\0\0\xd80.
@ 264:\x04\0\0\0\x01\x28\0\0\x01\x381.\0\0\0\0\x04\0\0\0\0\0\0\0\x01\x283.\0\0\0\0\x04\0\0\0\x01\x18\0\0\x01\x082.\0\0\0\0\x04\0\0\0\x01\x08\0\0\0\x000.\0\0\0\0
@ 328:\x05\0\0\0\x01\x68\0\0\x01\x881.\0\0\0\0\x05\0\0\0\0\0\0\0\x01\x683.\0\0\0\0\x05\0\0\0\x01\x58\0\0\x01\x482.\0\0\0\0
@ 392:\x05\0\0\0\x01\x48\0\0\0\x000.
%EDU 1 0:a walk over the sample is its sequence
walk:101ALGEB/01AB/ADAM01/EVE 02/02CD/EULER/205LOGIC/=7
%EDU 1 1:a class is unlinked with its students
before 136 232=176
unlink 136 176
walk:101ALGEB/02CD/EULER/205LOGIC/=4
end
@ 128:\0\x30
@ 146:\0\0\0\xe8\0\0\0\xe8
@ 176:\0\0\0\x38\0\0\0\0
@ 238:\0\0\0\0
%EDU 1 0:the first root from a key on, where it is the first
seek 136:000=136
seek 136:101=136
unlink 136
walk:205LOGIC/=1
%EDU 1 0:the first root from a key on, where it is the second, or none
seek 136:102=280
seek 136:205=280
seek 136:206=0
walk:101ALGEB/01AB/ADAM01/EVE 02/02CD/EULER/205LOGIC/=7
unlink 280
walk:101ALGEB/01AB/ADAM01/EVE 02/02CD/EULER/=6
%LEVELS 0 0:a chain of fifteen levels is walked and unlinked
link 0 0 1:a=136;link ^ 0 2:b;link ^ 0 3:c;link ^ 0 4:d;link ^ 0 5:e;link ^ 0 6:f;link ^ 0 7:g;link ^ 0 8:h
link ^ 0 9:i;link ^ 0 10:j;link ^ 0 11:k;link ^ 0 12:l;link ^ 0 13:m;link ^ 0 14:n;link ^ 0 15:o
walk:a/b/c/d/e/f/g/h/i/j/k/l/m/n/o/=15
unlink 136
walk:=0
end
@ 28:\0\0\0\0\0\0\0\0
* 0:\0\x08
* 8:\0\0\0\x78
%EDU 0 0:five thousand twins are unlinked by one call
link 0 0 1:101ALGEB=136
many 136 5000 0
unlink 136
walk:=0
end
> 89600
@ 28:\0\0\0\0\0\0\0\0
* 0:\0\x08
* 8:\0\0\0\x78
%EDU 1 1:a PCB stands and goes back in the sample, behind gets with holds, a deletion, and insertions with and without parentage
Before 136=0
Before 136 176=136
Before 136 176 200=136 176
Before 136 176 216=136 176 200
Before 136 232=136 176 216
Before 136 264=136 232
Before 280=136 264
Ahead=136
Stand 136 176 216:U23
It=216 216 216 0 1 33
Ahead=136 232
Stand 136 176:N
Stand 136 176 200:P3
It=200 200 176 1 0 33
Move 176 304
It=200 200 304 1 0 33
Move 304 176
Delete 136 176
It=136 136 0 0 0 33
Ahead=136 232
New 136 232
It=232 232 232 0 0 22
Stand 136:U
New 136 264
It=264 264 136 0 0 24
end
%EDU 1 1:a row gets other bytes
change 136 264 4:GAUSS=264
end
@ 264:\x04\0\0\0\0\0\0\0\0\0GAUSS
%EDU 1 0:a moved row is named on the path
Stand 136 176 216:U
Move 216 304
Move 136 320
Move 200 336
Path=320 176 304
%EDU 2 0:segments go into the first large enough hole, then into the free block, an index block is one more, and a freed hole is taken again
put 1 0=176
put 1 1=192
put 1 1=264
put 1 1=304
put 1 1=344
grab=3
free 136=0
put 1 0=136
%EDU 2 0:a segment is written over another of its size
over 136:\x03\0\0\0\0\0BETH02\0\0\0\0=136
end
~ 0 136
@ 136:\x03\0\0\0\0\0BETH02\0\0\0\0
~ 152 384
# 384
%EDU 0 0:a new volume has one block
Volume=3 1 1024
end
# 128
@ 0:HDVOLUME\0\x03\0\x80\0\0\0\x01\0\0\x04\0EDU     ";

/// Types of a database whose root has a child type of each sort: without twin backward and last child, with one of them, and with both. A line has
/// a name, the parent, the lengths of segments and of their keys, and whether there are these two pointers.
const KINDS: &[u8] = b"ROOT 0 8 3 1 0
PLAIN 1 2 0 0 0
ENDED 1 2 0 0 1
TWINNED 1 2 0 1 0
BOTH 1 2 0 1 1";

/// Types of a database of 15, each below the one before it.
const LEVELS: &[u8] =
    b"LA 0 1 1 1 0;LB 1 1 0 1 1;LC 2 1 0 1 1;LD 3 1 0 1 1;LE 4 1 0 1 1;LF 5 1 0 1 1;LG 6 1 0 1 1;LH 7 1 0 1 1
LI 8 1 0 1 1;LJ 9 1 0 1 1;LK 10 1 0 1 1;LL 11 1 0 1 1;LM 12 1 0 1 1;LN 13 1 0 1 1;LO 14 1 0 1 1";

/// The type that a line says.
fn type_of(alloc: Global, line: &[u8]) -> Option<SegType> {
    let mut padded = [b' '; 8];
    for (own, byte) in padded.iter_mut().zip(cut(line, b' ').0) {
        *own = *byte;
    }
    let [_, parent, length, key, backward, last] = numbers_in(line, 0);
    let above = if parent == 0 {
        None
    } else {
        u8::try_from(parent).ok()
    };
    let mut own = segment_type(alloc, Name8::from_padded(padded)?, above, length, key);
    own.backward = backward > 0;
    own.last_pointer = last > 0;
    Some(own)
}

/// The database that a list's first line names.
fn database_of(alloc: Global, word: u8) -> Result<Dbd, DbdFault> {
    let text = match word {
        b'K' => KINDS,
        b'L' => LEVELS,
        _ => return database(alloc),
    };
    let mut types = Vec::new(alloc);
    for line in text.split(is_end) {
        if let Some(own) = type_of(alloc, line) {
            types.push(own).map_err(AllocError::from)?;
        }
    }
    let name = Name8::from_padded(*b"TYPES   ").unwrap();
    Dbd::new(alloc, name, 128, FreeSpace { fbff: 0, fspf: 0 }, types)
}

/// A volume of a data block with two students and two holes, and a free block.
fn three_blocks(alloc: Global) -> Result<Vec<u8>, AllocError> {
    let mut bytes = Vec::new(alloc);
    bytes.resize(384, 0)?;
    put(
        &mut bytes,
        0,
        b"HDVOLUME\0\x03\0\x80\0\0\0\x03\0\x01\0\0EDU     ",
    );
    put(&mut bytes, 128, b"\0\x18\x01");
    put(&mut bytes, 136, STUDENT);
    put(&mut bytes, 152, b"\0\x30\0\x08");
    put(&mut bytes, 160, STUDENT);
    put(&mut bytes, 176, b"\0\0\0\x50");
    put(&mut bytes, 258, b"\x03");
    Ok(bytes)
}

/// What came of lists: the first line that was answered otherwise than it wants, or a refusal; how many accesses came; and the bytes of the store.
type Outcome = (Result<Option<usize>, Refused>, u64, Vec<u8>);

/// Plays a list, and then another, over a volume of these bytes, or over a new one where there are none; the access behind so many fails.
fn outcome_of(alloc: Global, dbd: &Dbd, bytes: Vec<u8>, lists: [&[u8]; 2], passes: u64) -> Outcome {
    let mut trial = match Trial::over(alloc, dbd, bytes, 1024, passes) {
        Ok(trial) => trial,
        Err((bytes, accesses, refused)) => return (Err(refused), accesses, bytes),
    };
    let mut position = Position::start();
    let mut wrong = play(&mut trial, &mut position, lists[0]);
    if wrong == Ok(None) {
        wrong = play(&mut trial, &mut position, lists[1]);
    }
    let (bytes, accesses) = trial.close();
    (wrong, accesses, bytes)
}

/// Plays a list whose first line says over what; the access behind so many fails.
fn list_outcome(alloc: Global, list: &[u8], passes: u64) -> Option<Outcome> {
    let head = line_of(list, 0);
    let dbd = database_of(alloc, head.word).ok()?;
    let bytes = match head.numbers[1] {
        2 => three_blocks(alloc).ok()?,
        _ => Vec::new(alloc),
    };
    let first = if head.numbers[1] == 1 { SAMPLE } else { &[] };
    Some(outcome_of(alloc, &dbd, bytes, [first, list], passes))
}

/// There are these bytes at a place.
fn has_bytes(bytes: &[u8], place: usize, wanted: &[u8]) -> bool {
    bytes.get(place..place.saturating_add(wanted.len())) == Some(wanted)
}

/// Each block but the first has these bytes at a place.
fn have_bytes(image: &[u8], place: usize, wanted: &[u8]) -> bool {
    for block in image.chunks(128).skip(1) {
        if !has_bytes(block, place, wanted) {
            return false;
        }
    }
    true
}

/// Whether a volume has the bytes that the lines of a list say.
fn shows_all(image: &[u8], list: &[u8], three_blocks: &[u8]) -> bool {
    for text in list.split(is_end) {
        let line = line_of(text, 0);
        let (place, end) = (line.numbers[1] as usize, line.numbers[2] as usize);
        let is_shown = match line.word {
            b'@' => has_bytes(image, place, line.bytes),
            b'*' => have_bytes(image, place, line.bytes),
            b'~' => image.get(place..end) == three_blocks.get(place..end),
            b'#' => image.len() == place,
            b'>' => image.len() > place,
            _ => true,
        };
        if !is_shown {
            return false;
        }
    }
    true
}

/// Each line of the lists is answered as it says, and the bytes of the volume are then those that it says.
#[test]
fn plays_lists(rt: HostRuntime) -> Result<(), Fail> {
    let blocks = three_blocks(rt.alloc())?;
    for (number, list) in LISTS.split(is_list_end).enumerate() {
        let (wrong, _, bytes) = list_outcome(rt.alloc(), list, u64::MAX).expect(&rt, "a volume");
        assert!(rt; wrong == Ok(None), "list {number}");
        assert!(rt; shows_all(&bytes, list, &blocks), "list {number}");
    }
    Ok(())
}

/// Each access that fails is told as `Device`.
#[test]
fn answers_device_at_each_access(rt: HostRuntime) {
    for (number, list) in LISTS.split(is_list_end).enumerate() {
        if line_of(list, 0).numbers[2] == 1 {
            let (_, all, _) = list_outcome(rt.alloc(), list, u64::MAX).expect(&rt, "a volume");
            assert!(rt; all > 4, "list {number}: {all} accesses");
            for passes in 0..all {
                let (wrong, _, _) = list_outcome(rt.alloc(), list, passes).expect(&rt, "a volume");
                assert!(rt; wrong == Err(Refused::Device), "list {number}: {passes}");
            }
        }
    }
}

/// The sample that is linked row by row has the bytes of the sample volume but for its index and its header's version, and so it has with other bytes in
/// a row.
#[test]
fn links_the_sample_row_by_row(rt: HostRuntime) {
    let alloc = rt.alloc();
    let dbd = database(alloc).expect(&rt, "a database");
    for (list, book) in [
        (b"end".as_slice(), b"EULER"),
        (b"change 136 264 4:GAUSS=264\nend".as_slice(), b"GAUSS"),
    ] {
        let mut want = image();
        put(&mut want, 274, book);
        let lists = [SAMPLE, list];
        let (wrong, _, bytes) = outcome_of(alloc, &dbd, Vec::new(alloc), lists, u64::MAX);
        assert!(rt; wrong == Ok(None));
        assert!(rt; bytes.get(28..36) == want.get(28..36));
        assert!(rt; bytes.get(128..) == want.get(128..384));
    }
}

/// How many accesses come where rows are linked below the second root of the sample, as a list says.
fn accesses_of(alloc: Global, dbd: &Dbd, list: &[u8]) -> Option<u64> {
    match outcome_of(alloc, dbd, Vec::new(alloc), [SAMPLE, list], u64::MAX) {
        (Ok(None), accesses, _) => Some(accesses),
        _ => None,
    }
}

/// Lists that link 500 and 1,000 rows: each behind the one before it, each as the first, and each as the last.
const TWINS: [[&[u8]; 2]; 3] = [
    [b"many 280 500 0\nend", b"many 280 1000 0\nend"],
    [b"many 280 500 1\nend", b"many 280 1000 1\nend"],
    [b"many 280 500 2\nend", b"many 280 1000 2\nend"],
];

/// A row is linked behind a known twin, as the first, or as the last where last child is kept, in eight accesses at most, however many twins there are.
#[test]
fn links_in_a_constant_number_of_accesses(rt: HostRuntime) {
    let dbd = database(rt.alloc()).expect(&rt, "a database");
    for [few, many] in TWINS {
        let first = accesses_of(rt.alloc(), &dbd, few).expect(&rt, "links");
        let second = accesses_of(rt.alloc(), &dbd, many).expect(&rt, "links");
        assert!(rt;
            first <= 4000 && second <= first.saturating_add(4000),
            "{first}, {second}"
        );
    }
}

#[test]
fn reads_no_block_in_vain(rt: HostRuntime) {
    let alloc = rt.alloc();
    let dbd = database(alloc).expect(&rt, "a database");
    let lists = [b"put 5000 10\nend".as_slice(), b""];
    let (wrong, accesses, bytes) = outcome_of(alloc, &dbd, Vec::new(alloc), lists, u64::MAX);
    assert!(rt; wrong == Ok(None));
    // block 0 is read; each block is added and written once
    assert!(rt; accesses == 1 + 2 * (bytes.len() as u64 / 128));
    assert!(rt; has_bytes(&bytes, 0, b"HDVOLUME\0\x03\0\x80"));
    assert!(rt; has_bytes(&bytes, 16, b"\0\0\x04\0EDU     "));
    assert!(rt; has_bytes(&bytes, 28, &[0; 20]));
}

/// Lists that put courses until the volume of three blocks grows, and then a student, set its first root, and write all that is changed.
const FILL: [&[u8]; 2] = [b"put 7 1", b"put 1 0\nhead 176\nend"];

#[test]
fn writes_block_0_after_all_others(rt: HostRuntime) -> Result<(), Fail> {
    let alloc = rt.alloc();
    let dbd = database(alloc).expect(&rt, "a database");
    let old = three_blocks(alloc)?;
    let (wrong, all, new) = outcome_of(alloc, &dbd, three_blocks(alloc)?, FILL, u64::MAX);
    assert!(rt; wrong == Ok(None) && all > 7 && new.get(..128) != old.get(..128));
    let mut last = Vec::new(alloc);
    for passes in 0..all {
        let (wrong, _, bytes) = outcome_of(alloc, &dbd, three_blocks(alloc)?, FILL, passes);
        let is_whole = bytes.get(..128) == old.get(..128) || bytes == new;
        assert!(rt;
            is_whole && wrong == Err(Refused::Device),
            "access {passes}"
        );
        last = bytes;
    }
    assert!(rt; last.get(..128) == old.get(..128));
    assert!(rt; last.get(128..) == new.get(128..));
    Ok(())
}
