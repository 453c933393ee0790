//! What calls cost, in accesses of the store.

use crate::list_text::number_of;
use crate::played::{play, volume_of};
use crate::texts::{base_of, deck_of, part, stream_of};
use hd_dbd::{Dbd, Psb};
use std::alloc::Global;
use std::test::Fail;

/// The sample database; and two of courses and books that vary in length, of which the books keep twin backward or do not.
const DATABASES: &[u8] = b"  DBD NAME=EDU,ACCESS=HIDAM
  DATASET SIZE=128
  SEGM NAME=COURSE,BYTES=8,PTR=TB
  FIELD NAME=(NUM,SEQ,U),BYTES=3,START=1
  SEGM NAME=CLASS,PARENT=((COURSE,DBLE)),BYTES=4,PTR=TB
  FIELD NAME=(ED,SEQ,U),BYTES=2,START=1
  SEGM NAME=STUD,PARENT=CLASS,BYTES=6
  FIELD NAME=(SNAME,SEQ,M),BYTES=4,START=1
  SEGM NAME=BOOK,PARENT=((COURSE,DBLE)),BYTES=5,PTR=TB
         DBDGEN
!  PCB TYPE=DB,DBDNAME=EDU,PROCOPT=A
  SENSEG NAME=COURSE
  SENSEG NAME=CLASS,PARENT=COURSE
  SENSEG NAME=STUD,PARENT=CLASS
  SENSEG NAME=BOOK,PARENT=COURSE
         PSBGEN
%  DBD NAME=EDU,ACCESS=HIDAM
  DATASET SIZE=128
  SEGM NAME=COURSE,BYTES=(70,6),PTR=TB
  FIELD NAME=(NUM,SEQ,U),BYTES=4,START=3
  SEGM NAME=BOOK,PARENT=((COURSE,DBLE)),BYTES=(70,6),PTR=TB
         DBDGEN
!  PCB TYPE=DB,DBDNAME=EDU,PROCOPT=A
  SENSEG NAME=COURSE
  SENSEG NAME=BOOK,PARENT=COURSE
         PSBGEN
%  DBD NAME=EDU,ACCESS=HIDAM
  DATASET SIZE=128
  SEGM NAME=COURSE,BYTES=(70,6),PTR=TB
  FIELD NAME=(NUM,SEQ,U),BYTES=4,START=3
  SEGM NAME=BOOK,PARENT=((COURSE,DBLE)),BYTES=(70,6)
         DBDGEN
!  PCB TYPE=DB,DBDNAME=EDU,PROCOPT=A
  SENSEG NAME=COURSE
  SENSEG NAME=BOOK,PARENT=COURSE
         PSBGEN
";

/// A line with a sign of percent has the database; how many blocks its volume has, or 0 where that is not asked; the records; and how many blocks are kept in memory, or the
/// fewest. The lines below it are cases: a deck, and
/// a longer one; and the least and the most accesses that this makes beyond those of the first, with so many more for each block and for each level of the index.
///
/// A REPL of a row that stays in its place writes one block. A longer one moves the row: the blocks of the twin before, of the twin behind and of the new place are read
/// and written, two accesses each; the block of the old place, in memory since the hold, is written. That makes seven; where the volume grows there are the growth and the header's
/// write, too, and the block of the new place is not read. For a root a block of each level of the index is read, and the lowest written. Without
/// twin backward the twins before are read: the parent names the first of them, and each names the next.
///
/// A DLET goes through its span a few times. A walk reads each block about once, for the keys of the rows above are known from call to call.
const CASES: &[u8] = b"%0;0;1,1,8,101ALGEB/2,1,4,01AB/3,50,6,ADAM01/2,1,4,02CD;64
L     GHU  COURSE  (NUM     EQ101)/C          CLASS   (ED      EQ01);L     GHU  COURSE  (NUM     EQ101)/C          CLASS   (ED      EQ01)/L     REPL/D01XY;1;1
L     GHU  COURSE  (NUM     EQ101)/C          CLASS   (ED      EQ01);L     GHU  COURSE  (NUM     EQ101)/C          CLASS   (ED      EQ01)/L     DLET;0;10;4
%0;0;1,1,8,101ALGEB/2,1,4,01AB/3,100,6,ADAM01/2,1,4,02CD;64
L     GHU  COURSE  (NUM     EQ101)/C          CLASS   (ED      EQ01);L     GHU  COURSE  (NUM     EQ101)/C          CLASS   (ED      EQ01)/L     DLET;0;10;4
%0;0;1,1,8,101ALGEB/2,1,4,01AB/3,200,6,ADAM01/2,1,4,02CD;64
L     GHU  COURSE  (NUM     EQ101)/C          CLASS   (ED      EQ01);L     GHU  COURSE  (NUM     EQ101)/C          CLASS   (ED      EQ01)/L     DLET;0;10;4
%0;0;1,1,8,101ALGEB/2,1,4,01AB/3,400,6,ADAM01/2,1,4,02CD;64
L     GHU  COURSE  (NUM     EQ101)/C          CLASS   (ED      EQ01);L     GHU  COURSE  (NUM     EQ101)/C          CLASS   (ED      EQ01)/L     DLET;0;10;4
%0;717;1,1,8,101ALGEB/2,1,4,01AB/3,5000,6,ADAM01
;L5002 GN;700;750
;L     GHU  COURSE  (NUM     EQ101)/C          CLASS   (ED      EQ01)/C          STUD    /L     REPL/DADAM99/L     GHU  COURSE  (NUM     EQ101)/C          CLASS   (ED      EQ01)/C          STUD    /L     DLET;0;100
%1;0;1~,1,45,0001/2~,50,53,;64
L  25 GHN  BOOK    ;L  25 GHN  BOOK    /L     REPL/H0035/D...................................................;1;1
L  25 GHN  BOOK    ;L  25 GHN  BOOK    /L     REPL/H001e/D............................;1;1
L  25 GHN  BOOK    ;L  25 GHN  BOOK    /L     REPL/H0036/D....................................................;1;1
L  25 GHN  BOOK    ;L  25 GHN  BOOK    /L     REPL/H003e/D............................................................;0;8
L     GHU  COURSE  /C          BOOK    *L/L     DLET/L     GU   COURSE  /L  25 GHN  BOOK    ;L     GHU  COURSE  /C          BOOK    *L/L     DLET/L     GU   COURSE  /L  25 GHN  BOOK    /L     REPL/H003e/D............................................................;0;7
%2;0;1~,1,45,0001/2~,50,53,;64
L  25 GHN  BOOK    ;L  25 GHN  BOOK    /L     REPL/H003e/D............................................................;0;33
%1;0;1~,1,45,0001/2~,500,53,;64
L 250 GHN  BOOK    ;L 250 GHN  BOOK    /L     REPL/H0035/D...................................................;1;1
L 250 GHN  BOOK    ;L 250 GHN  BOOK    /L     REPL/H001e/D............................;1;1
L 250 GHN  BOOK    ;L 250 GHN  BOOK    /L     REPL/H0036/D....................................................;1;1
L 250 GHN  BOOK    ;L 250 GHN  BOOK    /L     REPL/H003e/D............................................................;0;8
L     GHU  COURSE  /C          BOOK    *L/L     DLET/L     GU   COURSE  /L 250 GHN  BOOK    ;L     GHU  COURSE  /C          BOOK    *L/L     DLET/L     GU   COURSE  /L 250 GHN  BOOK    /L     REPL/H003e/D............................................................;0;7
%2;0;1~,1,45,0001/2~,500,53,;64
L 250 GHN  BOOK    ;L 250 GHN  BOOK    /L     REPL/H003e/D............................................................;0;258
%1;0;1~,1,45,0001/2~,5000,53,;64
L2500 GHN  BOOK    ;L2500 GHN  BOOK    /L     REPL/H0035/D...................................................;1;1
L2500 GHN  BOOK    ;L2500 GHN  BOOK    /L     REPL/H001e/D............................;1;1
L2500 GHN  BOOK    ;L2500 GHN  BOOK    /L     REPL/H0036/D....................................................;1;1
L2500 GHN  BOOK    ;L2500 GHN  BOOK    /L     REPL/H003e/D............................................................;0;8
L     GHU  COURSE  /C          BOOK    *L/L     DLET/L     GU   COURSE  /L2500 GHN  BOOK    ;L     GHU  COURSE  /C          BOOK    *L/L     DLET/L     GU   COURSE  /L2500 GHN  BOOK    /L     REPL/H003e/D............................................................;0;7
%2;0;1~,1,45,0001/2~,5000,53,;64
L2500 GHN  BOOK    ;L2500 GHN  BOOK    /L     REPL/H003e/D............................................................;0;2508
%1;0;1~,50,45,####;64
L     GHU  COURSE  (NUM     EQ0025);L     GHU  COURSE  (NUM     EQ0025)/L     REPL/H002d/D0025.......................................;1;1
L     GHU  COURSE  (NUM     EQ0025);L     GHU  COURSE  (NUM     EQ0025)/L     REPL/H001e/D0025........................;1;1
L     GHU  COURSE  (NUM     EQ0025);L     GHU  COURSE  (NUM     EQ0025)/L     REPL/H002e/D0025........................................;1;1
L     GHU  COURSE  (NUM     EQ0025);L     GHU  COURSE  (NUM     EQ0025)/L     REPL/H003e/D0025........................................................;0;9;;1
%1;0;1~,500,45,####;64
L     GHU  COURSE  (NUM     EQ0250);L     GHU  COURSE  (NUM     EQ0250)/L     REPL/H002d/D0250.......................................;1;1
L     GHU  COURSE  (NUM     EQ0250);L     GHU  COURSE  (NUM     EQ0250)/L     REPL/H001e/D0250........................;1;1
L     GHU  COURSE  (NUM     EQ0250);L     GHU  COURSE  (NUM     EQ0250)/L     REPL/H002e/D0250........................................;1;1
L     GHU  COURSE  (NUM     EQ0250);L     GHU  COURSE  (NUM     EQ0250)/L     REPL/H003e/D0250........................................................;0;9;;1
%1;0;1~,5000,45,####;64
L     GHU  COURSE  (NUM     EQ2500);L     GHU  COURSE  (NUM     EQ2500)/L     REPL/H002d/D2500.......................................;1;1
L     GHU  COURSE  (NUM     EQ2500);L     GHU  COURSE  (NUM     EQ2500)/L     REPL/H001e/D2500........................;1;1
L     GHU  COURSE  (NUM     EQ2500);L     GHU  COURSE  (NUM     EQ2500)/L     REPL/H002e/D2500........................................;1;1
L     GHU  COURSE  (NUM     EQ2500);L     GHU  COURSE  (NUM     EQ2500)/L     REPL/H003e/D2500........................................................;0;9;;1
";

/// Whether a line's status says that the call was done.
fn has_done(line: &[u8]) -> bool {
    line.windows(4)
        .any(|part| matches!(part, b"[  ]" | b"[GA]" | b"[GK]"))
}

/// The accesses that a deck makes; `None` where a call is not answered with blanks, GA or GK.
fn accesses(
    alloc: Global,
    dbd: &Dbd,
    psb: &Psb,
    image: &[u8],
    kept: usize,
    lines: &[u8],
) -> Option<u64> {
    let deck = deck_of(alloc, lines).ok()?;
    let played = play(alloc, dbd, psb, image, &deck, kept)?;
    let done = played
        .lines
        .split(|byte| *byte == b'\n')
        .all(|line| line.is_empty() || has_done(line));
    if done { Some(played.accesses) } else { None }
}

/// A number of a line.
fn asked(line: &[u8], place: usize) -> u64 {
    u64::from(number_of(part(line, b';', place)))
}

/// What a case costs over a volume of so many blocks, and whether that is what it should.
fn cost_of(
    alloc: Global,
    dbd: &Dbd,
    psb: &Psb,
    image: &[u8],
    blocks: u32,
    kept: usize,
    case: &[u8],
) -> Option<(u64, bool)> {
    let before = accesses(alloc, dbd, psb, image, kept, part(case, b';', 0))?;
    let behind = accesses(alloc, dbd, psb, image, kept, part(case, b';', 1))?;
    let cost = behind.saturating_sub(before);
    let levels = u64::from(image.get(43).copied().unwrap_or(0));
    let most = asked(case, 3)
        .saturating_add(asked(case, 4).saturating_mul(u64::from(blocks)))
        .saturating_add(asked(case, 5).saturating_mul(levels));
    Some((cost, asked(case, 2) <= cost && cost <= most))
}

/// The first of some cases over one volume that costs what it should not, and its cost; no case where none does.
fn wrong_of(alloc: Global, cases: &'static [u8]) -> Option<(u64, &'static [u8])> {
    let given = part(cases, b'\n', 0);
    let (dbd, psb) = base_of(alloc, part(DATABASES, b'%', asked(given, 0) as usize))?;
    let stream = stream_of(alloc, &dbd, part(given, b';', 2)).ok()?;
    let (image, blocks) = volume_of(alloc, &dbd, &stream)?;
    let wanted = asked(given, 1);
    let kept = asked(given, 3) as usize;
    if wanted != 0 && wanted != u64::from(blocks) {
        return Some((u64::from(blocks), given));
    }
    for case in cases.split(|byte| *byte == b'\n').skip(1) {
        if !case.is_empty() {
            let (cost, is_right) = cost_of(alloc, &dbd, &psb, &image, blocks, kept, case)?;
            if !is_right {
                return Some((cost, case));
            }
        }
    }
    Some((0, &[]))
}

#[test]
fn calls_make_few_accesses(rt: HostRuntime) -> Result<(), Fail> {
    for cases in CASES.split(|byte| *byte == b'%').skip(1) {
        let (cost, case) = wrong_of(rt.alloc(), cases).expect(&rt, "a run");
        let text = str::from_utf8(case).unwrap_or("");
        assert_eq!(rt; text, "", "{cost} accesses");
    }
    Ok(())
}

#[test]
fn a_volume_that_keeps_all_blocks_reads_each_once(rt: HostRuntime) -> Result<(), Fail> {
    let alloc = rt.alloc();
    let (dbd, psb) = base_of(alloc, part(DATABASES, b'%', 0)).expect(&rt, "a database");
    let stream = stream_of(alloc, &dbd, b"1,1,8,101ALGEB/2,1,4,01AB/3,5000,6,ADAM01")?;
    let (image, blocks) = volume_of(alloc, &dbd, &stream).expect(&rt, "a volume");
    assert_eq!(rt; blocks, 717);
    // Three walks from the first segment to the last, each ended by GB.
    let walks = b"L5003 GN\nL5003 GN\nL5003 GN\n";
    let played = play(alloc, &dbd, &psb, &image, walks, 1024).expect(&rt, "a run");
    assert!(rt; played.accesses <= 1600, "{}", played.accesses);
    Ok(())
}
