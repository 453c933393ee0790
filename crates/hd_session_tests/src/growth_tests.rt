//! Growths of the store that find no memory, in sessions and in decks.

use crate::acts::{Act, DONE, NO_MEMORY};
use crate::sources::{Base, Holds};
use crate::trial::{Bench, Refusing, Row, Told, are_told, bench_of, lines_in, nothing, outcome};
use hd_sample::put;
use std::process::Abort;

/// Short rows: several go into one block.
const SHORT: &[u8] =
    b"HDUNLOAD\0\x01EDU     \x01\0\x05\0\x05101\x02\0\x04\0\x04AA\x02\0\x04\0\x04BB\x02\0\x04\0\x04ZZ\x01\0\x05\0\x05205\x02\0\x04\0\x04CC\x02\0\x04\0\x04DD\x02\0\x04\0\x04ZZ\x01\0\x05\0\x05307\x02\0\x04\0\x04EE\x02\0\x04\0\x04FF\x02\0\x04\0\x04ZZ\0\0\0\0\x0c";

/// REPLs that make a course and its first book longer, and then its second book: each of these rows takes a whole block.
const LENGTHEN: &[u8] = b"L     GHU  COURSE  *D(NUM     EQ101)
C          BOOK    *-
L     REPL
H0066
D101.................................................................................................
H006e
DAA..........................................................................................................
L     GHN  BOOK    *-
L     REPL
H006e
DBB..........................................................................................................
L     GHU  COURSE  *D(NUM     EQ205)
C          BOOK    *-
L     REPL
H0066
D205.................................................................................................
H006e
DCC..........................................................................................................
L     GHN  BOOK    *-
L     REPL
H006e
DDD..........................................................................................................
L     GHU  COURSE  *D(NUM     EQ307)
C          BOOK    *-
L     REPL
H0066
D307.................................................................................................
H006e
DEE..........................................................................................................
L     GHN  BOOK    *-
L     REPL
H006e
DFF..........................................................................................................
";

const LONGER_LINES: &[u8] = b"1 1 GHU  [  ] 02 BOOK     key=101 area=\\x00\\x05101\\x00\\x04AA
2 1 REPL [  ] 02 BOOK     key=101 area=
3 1 GHN  [  ] 02 BOOK     key=101 area=\\x00\\x04BB
4 1 REPL [  ] 02 BOOK     key=101 area=
5 1 GHU  [  ] 02 BOOK     key=205 area=\\x00\\x05205\\x00\\x04CC
6 1 REPL [  ] 02 BOOK     key=205 area=
7 1 GHN  [  ] 02 BOOK     key=205 area=\\x00\\x04DD
8 1 REPL [  ] 02 BOOK     key=205 area=
9 1 GHU  [  ] 02 BOOK     key=307 area=\\x00\\x05307\\x00\\x04EE
10 1 REPL [  ] 02 BOOK     key=307 area=
11 1 GHN  [  ] 02 BOOK     key=307 area=\\x00\\x04FF
12 1 REPL [  ] 02 BOOK     key=307 area=
";

/// ISRTs of rows that take a block each, of a path of two of them, and of a short one. One of a root finds memory for two blocks of the
/// index too, one on its level and one above it, which the next calls may take.
const INSERT: &[u8] = b"L     ISRT COURSE  *-
H0066
D401.................................................................................................
L     ISRT COURSE  (NUM     EQ401)
C          BOOK    *-
H006e
DAA..........................................................................................................
L     ISRT COURSE  (NUM     EQ401)
C          BOOK    *-
H0004
DBB
L     ISRT COURSE  *D
C          BOOK    *-
H0066
D402.................................................................................................
H006e
DCC..........................................................................................................
L     ISRT COURSE  (NUM     EQ205)
C          BOOK    *-
H006e
DDD..........................................................................................................
L     ISRT COURSE  (NUM     EQ307)
C          BOOK    *-
H006e
DEE..........................................................................................................
L     ISRT COURSE  (NUM     EQ307)
C          BOOK    *-
H006e
DFF..........................................................................................................
L     ISRT COURSE  (NUM     EQ307)
C          BOOK    *-
H006e
DGG..........................................................................................................
L     ISRT COURSE  *-
H0066
D403.................................................................................................
";

const INSERTED_LINES: &[u8] = b"1 1 ISRT [  ] 01 COURSE   key=401 area=
2 1 ISRT [  ] 02 BOOK     key=401 area=
3 1 ISRT [  ] 02 BOOK     key=401 area=
4 1 ISRT [  ] 02 BOOK     key=402 area=
5 1 ISRT [  ] 02 BOOK     key=205 area=
6 1 ISRT [  ] 02 BOOK     key=307 area=
7 1 ISRT [  ] 02 BOOK     key=307 area=
8 1 ISRT [  ] 02 BOOK     key=307 area=
9 1 ISRT [  ] 01 COURSE   key=403 area=
";

/// So many calls in a session, of which one that finds no memory is made again, or is the last.
fn session(most: usize, again: bool) -> Act {
    Act::Session { most, again }
}

/// Sessions in which each growth finds no memory in turn.
const SESSIONS: &[Row] = &[
    Row {
        act: Act::Session {
            most: usize::MAX,
            again: true,
        },
        base: Base::Long,
        holds: Holds::Rows(SHORT),
        given: LENGTHEN,
        lines: LONGER_LINES,
        least: 6,
        in_calls: [0, 0],
        calls: &[2, 4, 6, 8, 10, 12],
    },
    Row {
        act: Act::Session {
            most: usize::MAX,
            again: true,
        },
        base: Base::Long,
        holds: Holds::Rows(SHORT),
        given: INSERT,
        lines: INSERTED_LINES,
        least: 5,
        in_calls: [0, 0],
        calls: &[1, 4, 7, 8, 9],
    },
];

/// Where a growth finds no memory nothing is changed, and made again the call is answered, and the volume has the bytes, as if it had not been made before. The number
/// of the call.
fn expect_unchanged<R: AllocGlobal + Abort>(
    rt: &R,
    bench: &Bench<'_>,
    plain: &Told,
    growth: u32,
) -> usize {
    let refusing = Refusing {
        growth,
        ..nothing(session(usize::MAX, true))
    };
    let again = outcome(rt.alloc(), bench, refusing).expect(rt, "memory");
    assert_eq!(rt; again.end, NO_MEMORY, "growth {growth}");
    assert!(rt;
        again.out == plain.out && again.bytes == plain.bytes,
        "growth {growth}"
    );
    let refusing = Refusing {
        growth,
        ..nothing(session(usize::MAX, false))
    };
    let stopped = outcome(rt.alloc(), bench, refusing).expect(rt, "memory");
    assert_eq!(rt; stopped.end, NO_MEMORY, "growth {growth}");
    let made = lines_in(&stopped.out);
    let before = outcome(rt.alloc(), bench, nothing(session(made, false))).expect(rt, "memory");
    assert_eq!(rt; before.end, DONE, "growth {growth}");
    assert!(rt;
        stopped.out == before.out && stopped.bytes == before.bytes,
        "growth {growth}"
    );
    made.saturating_add(1)
}

/// The calls in which growths found no memory, of all growths in turn.
fn refuse_each<R: AllocGlobal + Abort>(rt: &R, bench: &Bench<'_>) -> Vec<(usize, u8)> {
    let plain = outcome(rt.alloc(), bench, nothing(bench.row.act)).expect(rt, "memory");
    assert_eq!(rt; plain.end, DONE);
    assert_eq!(rt; plain.out.as_slice(), bench.row.lines);
    let mut told = Vec::new(rt.alloc());
    for growth in 0..plain.growths {
        let call = expect_unchanged(rt, bench, &plain, growth);
        told.push((call, b'g')).expect(rt, "memory");
    }
    told
}

#[test]
fn changes_nothing_where_a_growth_finds_no_memory(rt: HostRuntime) {
    for row in SESSIONS {
        let bench = bench_of(rt.alloc(), row).expect(&rt, "a volume");
        let told = refuse_each(&rt, &bench);
        assert!(rt;
            told.len() >= row.least && are_told(&told, row.calls, b'g'),
            "{told:?}"
        );
    }
}

/// The sample's rows and two more, which fill their blocks.
const FULL: &[u8] =
    b"HDUNLOAD\0\x01EDU     \x01\0\x08101ALGEB\x02\0\x0401AB\x03\0\x06ADAM01\x03\0\x06EVE 02\x02\0\x0402CD\x04\0\x05EULER\x01\0\x08205LOGIC\x01\0\x08307MUSIC\x02\0\x0401EF\0\0\0\0\x09";

/// A course, a class and three students, which leave a hole of 8 bytes.
const STUDENTS: &[u8] =
    b"HDUNLOAD\0\x01EDU     \x01\0\x08101ALGEB\x02\0\x0401AB\x03\0\x06ADAM01\x03\0\x06CARL03\x03\0\x06EVE 02\0\0\0\0\x05";

/// A course.
const ONE: &[u8] = b"HDUNLOAD\0\x01EDU     \x01\0\x08\0\x08101ABC\0\0\0\0\x01";

/// A course is held, a book that takes a block is put in below it, and the course is replaced; and so once more.
const TWICE: &[u8] = b"L     GHU  COURSE  *-
L     ISRT COURSE  *-
C          BOOK    *-
H006e
DAA..........................................................................................................
L     REPL
H0008
D101XYZ
L     GHU  COURSE  *-
L     ISRT COURSE  *-
C          BOOK    *-
H006e
DBB..........................................................................................................
L     REPL
H0008
D101XYZ
";

/// A deck as `hd deck` plays it, and what it prints where a growth finds no memory.
#[derive(Drop)]
struct Lacking {
    base: Base,
    rows: &'static [u8],
    deck: &'static [u8],
    growth: u32,
    lines: &'static [u8],
    /// The bytes at a place by which the volume is then another; nothing is said of one that is longer.
    left: Option<(usize, &'static [u8])>,
}

/// A call that finds no memory changes nothing and ends no hold, and the calls behind it go on.
const DECKS: &[Lacking] = &[
    Lacking {
        base: Base::Sample,
        rows: STUDENTS,
        deck: b"L     GHU  CLASS   (ED      EQ01)
L     ISRT CLASS   (ED      EQ01)
C          STUD    
DDORA04
L     REPL
D01XY
L     ISRT CLASS   (ED      EQ01)
C          STUD    
DDORA04
L     GU   CLASS   
",
        growth: 0,
        lines: b"1 1 GHU  [  ] 02 CLASS    key=10101 area=01AB
2 1 ISRT [!!] Memory
3 1 REPL [  ] 02 CLASS    key=10101 area=
4 1 ISRT [  ] 03 STUD     key=10101DORA area=
5 1 GU   [  ] 02 CLASS    key=10101 area=01XY
",
        left: None,
    },
    Lacking {
        base: Base::Sample,
        rows: FULL,
        deck: b"L     ISRT COURSE  *-
D301HISTO
L     GN
",
        growth: 0,
        lines: b"1 1 ISRT [!!] Memory
2 1 GN   [  ] 01 COURSE   key=101 area=101ALGEB
",
        left: Some((0, b"HDVOLUME")),
    },
    Lacking {
        base: Base::Sample,
        rows: FULL,
        deck: b"L     GHU  CLASS   *-
L     ISRT COURSE  *-
C          BOOK    *-
DGAUSS
L     REPL
D01XY
L     GU   CLASS   *-
",
        growth: 0,
        lines: b"1 1 GHU  [  ] 02 CLASS    key=10101 area=01AB
2 1 ISRT [!!] Memory
3 1 REPL [  ] 02 CLASS    key=10101 area=
4 1 GU   [  ] 02 CLASS    key=10101 area=01XY
",
        left: Some((190, b"01XY")),
    },
    Lacking {
        base: Base::Sample,
        rows: FULL,
        deck: b"L     GHU  CLASS   *-
L   2 ISRT COURSE  *-
C          BOOK    *-
DGAUSS
L     REPL
D01XY
L     GU   BOOK    *-
L     GN   BOOK    *-
",
        growth: 0,
        lines: b"1 1 GHU  [  ] 02 CLASS    key=10101 area=01AB
2 1 ISRT [!!] Memory
3 1 ISRT [  ] 02 BOOK     key=101 area=
4 1 REPL [DJ] 00          key= area=
5 1 GU   [  ] 02 BOOK     key=101 area=EULER
6 1 GN   [  ] 02 BOOK     key=101 area=GAUSS
",
        left: None,
    },
    Lacking {
        base: Base::Long,
        rows: ONE,
        deck: TWICE,
        growth: 0,
        lines: b"1 1 GHU  [  ] 01 COURSE   key=101 area=\\x00\\x08101ABC
2 1 ISRT [!!] Memory
3 1 REPL [  ] 01 COURSE   key=101 area=
4 1 GHU  [  ] 01 COURSE   key=101 area=\\x00\\x08101XYZ
5 1 ISRT [  ] 02 BOOK     key=101 area=
6 1 REPL [DJ] 00          key= area=
",
        left: None,
    },
    Lacking {
        base: Base::Long,
        rows: ONE,
        deck: TWICE,
        growth: 1,
        lines: b"1 1 GHU  [  ] 01 COURSE   key=101 area=\\x00\\x08101ABC
2 1 ISRT [  ] 02 BOOK     key=101 area=
3 1 REPL [DJ] 00          key= area=
4 1 GHU  [  ] 01 COURSE   key=101 area=\\x00\\x08101ABC
5 1 ISRT [!!] Memory
6 1 REPL [  ] 01 COURSE   key=101 area=
",
        left: None,
    },
];

#[test]
fn a_deck_goes_on_where_a_growth_finds_no_memory(rt: HostRuntime) {
    for lacking in DECKS {
        let row = Row {
            act: Act::Deck,
            base: lacking.base,
            holds: Holds::Rows(lacking.rows),
            given: lacking.deck,
            lines: lacking.lines,
            least: 1,
            in_calls: [0, 0],
            calls: &[],
        };
        let mut bench = bench_of(rt.alloc(), &row).expect(&rt, "a volume");
        let refusing = Refusing {
            growth: lacking.growth,
            ..nothing(row.act)
        };
        let made = outcome(rt.alloc(), &bench, refusing).expect(&rt, "memory");
        assert_eq!(rt; (made.end, made.err.len()), (NO_MEMORY, 0));
        assert_eq!(rt; made.out.as_slice(), row.lines);
        if let Some((place, bytes)) = lacking.left {
            put(&mut bench.bytes, place, bytes);
            assert!(rt; made.bytes == bench.bytes);
        }
    }
}
