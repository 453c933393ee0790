//! The acts in which each access, and each write of standard output, is refused.

use crate::acts::Act;
use crate::serve_act::ANSWERS;
use crate::sources::{Base, Holds};
use crate::trial::Row;

/// The line on standard error where an access or a write failed.
pub const FAILED: &[u8] = b"device failed\n";

/// The sample's unload stream.
const STREAM: &[u8] =
    b"HDUNLOAD\0\x01EDU     \x01\0\x08101ALGEB\x02\0\x0401AB\x03\0\x06ADAM01\x03\0\x06EVE 02\x02\0\x0402CD\x04\0\x05EULER\x01\0\x08205LOGIC\0\0\0\0\x07";

/// Rows of which no two go into one block.
const APART: &[u8] =
    b"HDUNLOAD\0\x01EDU     \x01\0(\0(101...................................\x02\00\00A.............................................\x02\00\00B.............................................\x02\00\00C.............................................\x01\0(\0(205...................................\x02\00\00D.............................................\x01\0(\0(307...................................\0\0\0\0\x07";

/// Gets in sequence.
const GETS: &[u8] = b"L   9 GN\n";

const GET_LINES: &[u8] = b"1 1 GN   [  ] 01 COURSE   key=101 area=101ALGEB
2 1 GN   [  ] 02 CLASS    key=10101 area=01AB
3 1 GN   [  ] 03 STUD     key=10101ADAM area=ADAM01
4 1 GN   [  ] 03 STUD     key=10101EVE  area=EVE 02
5 1 GN   [GA] 02 CLASS    key=10102 area=02CD
6 1 GN   [GK] 02 BOOK     key=101 area=EULER
7 1 GN   [GA] 01 COURSE   key=205 area=205LOGIC
8 1 GN   [GB] 00          key= area=
9 1 GN   [  ] 01 COURSE   key=101 area=101ALGEB
";

/// A book is taken out, and a course is put in.
const CHANGES: &[u8] = b"L     GHU  BOOK    *-
L     DLET
L     ISRT COURSE  *-
D303TITLE
L   6 GN
";

const CHANGE_LINES: &[u8] = b"1 1 GHU  [  ] 02 BOOK     key=101 area=EULER
2 1 DLET [  ] 02 BOOK     key=101 area=
3 1 ISRT [  ] 01 COURSE   key=303 area=
4 1 GN   [GB] 00          key= area=
5 1 GN   [  ] 01 COURSE   key=101 area=101ALGEB
6 1 GN   [  ] 02 CLASS    key=10101 area=01AB
7 1 GN   [  ] 03 STUD     key=10101ADAM area=ADAM01
8 1 GN   [  ] 03 STUD     key=10101EVE  area=EVE 02
9 1 GN   [GA] 02 CLASS    key=10102 area=02CD
";

/// Calls of each sort by one PCB.
const CALLS: &[u8] = b"L     GU   CLASS   *-
L     GHU  STUD    *-
L     REPL
DADAM77
L     ISRT CLASS   *-
C          STUD    *-
DCARL03
L     DLET
L     GN
L     GHU  BOOK    *-
L     DLET
L     GN
L     GU   STUD    *-
";

const CALL_LINES: &[u8] = b"1 1 GU   [  ] 02 CLASS    key=10101 area=01AB
2 1 GHU  [  ] 03 STUD     key=10101ADAM area=ADAM01
3 1 REPL [  ] 03 STUD     key=10101ADAM area=
4 1 ISRT [  ] 03 STUD     key=10101CARL area=
5 1 DLET [DJ] 00          key= area=
6 1 GN   [  ] 03 STUD     key=10101EVE  area=EVE 02
7 1 GHU  [  ] 02 BOOK     key=101 area=EULER
8 1 DLET [  ] 02 BOOK     key=101 area=
9 1 GN   [GA] 01 COURSE   key=205 area=205LOGIC
10 1 GU   [  ] 03 STUD     key=10101ADAM area=ADAM77
";

/// REPLs of rows of which no two go into one block. The first leaves a course where it stands, in a block that has to be written before the next
/// one is done; the second moves a book on which the other PCB stands, into a block by which the volume grows; and the third moves a course
/// above a book on which it stands, into the place that the book had.
const MOVES: &[u8] = b"S 2
L   2 GN   BOOK    *-
S 1
L     GHN  COURSE  *-
L     REPL
H0028
D101...................................
L   2 GHN  BOOK    *-
L     REPL
H0038
DB.....................................................
S 2
L   2 GN   BOOK    *-
S 1
L     GHN  COURSE  *-
L     REPL
H0030
D205...........................................
S 2
L     GN   COURSE  *-
L     GU   COURSE  (NUM     EQ205)
L     GN   BOOK    *-
S 1
L     GU   BOOK    *-
L     GN   BOOK    *-
";

const MOVE_LINES: &[u8] =
    b"1 2 GN   [  ] 02 BOOK     key=101 area=\\x000A.............................................
2 2 GN   [  ] 02 BOOK     key=101 area=\\x000B.............................................
3 1 GHN  [  ] 01 COURSE   key=101 area=\\x00(101...................................
4 1 REPL [  ] 01 COURSE   key=101 area=
5 1 GHN  [  ] 02 BOOK     key=101 area=\\x000A.............................................
6 1 GHN  [  ] 02 BOOK     key=101 area=\\x000B.............................................
7 1 REPL [  ] 02 BOOK     key=101 area=
8 2 GN   [  ] 02 BOOK     key=101 area=\\x000C.............................................
9 2 GN   [  ] 02 BOOK     key=205 area=\\x000D.............................................
10 1 GHN  [  ] 01 COURSE   key=205 area=\\x00(205...................................
11 1 REPL [  ] 01 COURSE   key=205 area=
12 2 GN   [  ] 01 COURSE   key=307 area=\\x00(307...................................
13 2 GU   [  ] 01 COURSE   key=205 area=\\x000205...........................................
14 2 GN   [  ] 02 BOOK     key=205 area=\\x000D.............................................
15 1 GU   [  ] 02 BOOK     key=101 area=\\x000A.............................................
16 1 GN   [  ] 02 BOOK     key=101 area=\\x008B.....................................................
";

/// Each block is read at least once, as the volume is opened. At most five blocks are in memory then, and seven where five are kept; each other one to
/// which a call comes is read in a call.
pub const ROWS: &[Row] = &[
    // check, unload, and reload, in which each of four blocks is added and written
    Row {
        act: Act::Check,
        base: Base::Sample,
        holds: Holds::Spread,
        given: b"",
        lines: b"EDU passes: 9 blocks, 7 segments, 2 roots\n",
        least: 9,
        in_calls: [0, 0],
        calls: &[],
    },
    Row {
        act: Act::Unload,
        base: Base::Sample,
        holds: Holds::Spread,
        given: b"",
        lines: b"unloaded 7 segments\n",
        least: 9,
        in_calls: [0, 0],
        calls: &[],
    },
    Row {
        act: Act::Reload,
        base: Base::Sample,
        holds: Holds::Nothing,
        given: STREAM,
        lines: b"reloaded 7 segments into 4 blocks\n",
        least: 8,
        in_calls: [0, 0],
        calls: &[],
    },
    // decks: the gets come to the seven blocks of rows
    Row {
        act: Act::Deck,
        base: Base::Sample,
        holds: Holds::Spread,
        given: GETS,
        lines: GET_LINES,
        least: 9,
        in_calls: [3, 1],
        calls: &[],
    },
    Row {
        act: Act::Run,
        base: Base::Sample,
        holds: Holds::Spread,
        given: GETS,
        lines: GET_LINES,
        least: 9,
        in_calls: [3, 1],
        calls: &[],
    },
    Row {
        act: Act::Run,
        base: Base::Sample,
        holds: Holds::Spread,
        given: CHANGES,
        lines: CHANGE_LINES,
        least: 9,
        in_calls: [3, 1],
        calls: &[],
    },
    Row {
        act: Act::Run,
        base: Base::Long,
        holds: Holds::Rows(APART),
        given: MOVES,
        lines: MOVE_LINES,
        least: 9,
        in_calls: [3, 1],
        calls: &[7, 11],
    },
    // sessions: opened and closed, and with calls that come to six of the blocks of rows
    Row {
        act: Act::Session {
            most: usize::MAX,
            again: false,
        },
        base: Base::Sample,
        holds: Holds::Sample,
        given: b"",
        lines: b"",
        least: 4,
        in_calls: [0, 0],
        calls: &[],
    },
    Row {
        act: Act::Session {
            most: usize::MAX,
            again: false,
        },
        base: Base::Sample,
        holds: Holds::Spread,
        given: CALLS,
        lines: CALL_LINES,
        least: 9,
        in_calls: [2, 0],
        calls: &[],
    },
    // frames, with calls that come to six of the blocks of rows
    Row {
        act: Act::Serve {
            is_slow: false,
            left: usize::MAX,
        },
        base: Base::Sample,
        holds: Holds::Spread,
        given: b"",
        lines: ANSWERS,
        least: 9,
        in_calls: [2, 0],
        calls: &[],
    },
];
