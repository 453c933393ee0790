//! Volumes of several databases, each with every byte changed in turn, and with two bytes changed at random: each has a fault, or holds rows over which
//! calls answer as over a volume that was reloaded of them.

use crate::played::{Played, play, volume_of};
use crate::texts::{base_of, deck_of, part, stream_of};
use hd_check::{CheckFault, check};
use hd_dbd::{Dbd, Psb};
use hd_sample::{WAYS, byte_at, changed, set_byte};
use hd_session::{OpenFault, Session};
use hd_stores::MemStore;
use hd_unload::unload;
use hd_volume::Volume;
use std::alloc::{AllocError, Global};
use std::test::Fail;

/// How many times two bytes are changed.
const PAIRS: usize = 3000;

/// The calls that are played over each volume that passes, of those of its database.
const CALLS: usize = 12;

/// Databases, each with a program, the records of a volume, and calls, parted by `?`: the sample; one whose index has three levels; one with types of every sort; one
/// of which a load leaves free space; and a chain of five types.
const DATABASES: &[u8] = b"  DBD NAME=EDU,ACCESS=HIDAM
  DATASET SIZE=128
  SEGM NAME=COURSE,BYTES=8,PTR=TB
  FIELD NAME=(NUM,SEQ,U),BYTES=3,START=1
  SEGM NAME=CLASS,PARENT=((COURSE,DBLE)),BYTES=4,PTR=TB
  FIELD NAME=(ED,SEQ,U),BYTES=2,START=1
  SEGM NAME=STUD,PARENT=CLASS,BYTES=6
  FIELD NAME=(SNAME,SEQ,M),BYTES=4,START=1
  SEGM NAME=BOOK,PARENT=((COURSE,DBLE)),BYTES=5,PTR=TB
         DBDGEN
!  PCB TYPE=DB,DBDNAME=EDU,PROCOPT=AP
  SENSEG NAME=COURSE
  SENSEG NAME=CLASS,PARENT=COURSE
  SENSEG NAME=STUD,PARENT=CLASS
  SENSEG NAME=BOOK,PARENT=COURSE
  PCB TYPE=DB,DBDNAME=EDU,PROCOPT=A
  SENSEG NAME=COURSE
  SENSEG NAME=CLASS,PARENT=COURSE
  SENSEG NAME=BOOK,PARENT=COURSE
         PSBGEN
!1,1,8,101ALGEB/2,1,4,01AB/3,1,6,ADAM01/3,1,6,EVE 02/2,1,4,02CD/4,1,5,EULER/1,1,8,205LOGIC!
L   4 GN
?L     GHU  CLASS   (ED      EQ01)/L     REPL/D01XY
?L     ISRT COURSE  (NUM     EQ101)/C          CLASS   /D00ZZ
?L   2 GNP
?S 2/L   5 GN
?L     GHN  BOOK    /L     DLET
?L     ISRT COURSE  *D/C          CLASS   /C          STUD    /D150GRAPH01GGKATE11
?L     GU   COURSE  *D(NUM     GT101)/C          STUD    *L
?L     ISRT BOOK    *L/DGAUSS
?L     GHU  STUD    (SNAME   GEADAM*SNAME   LTFRED)/L     REPL/DADAM77
?L     GHN  COURSE  /S 2/L     GHU  CLASS   *L/L     DLET/S 1/L     GN
?L     GU   COURSE  (NUM     NE101+NUM     =>205)/L     GNP  BOOK    /L     GNP  CLASS   *F
?L     GHU  COURSE  *D/C          BOOK    *D/L     REPL COURSE  *N/DXXXXXXXXGAUSS
?L     GHU  COURSE  /L     DLET/L   3 GN
?L     ISRT COURSE  /D205LOGIC
?L   9 GHN
%  DBD NAME=ROOTS,ACCESS=HIDAM
  DATASET SIZE=128
  SEGM NAME=ROOT,BYTES=28,PTR=TB
  FIELD NAME=(KEY,SEQ,U),BYTES=26,START=1
  FIELD NAME=FRONT,BYTES=4,START=1
         DBDGEN
!  PCB TYPE=DB,DBDNAME=ROOTS,PROCOPT=A
  SENSEG NAME=ROOT
         PSBGEN
!1,10,28,####!
L   3 GN
?L     ISRT ROOT    /D00035.......................
?L     GHU  ROOT    (FRONT   EQ0004)/L     DLET
?L     GU   ROOT    (KEY     GE0007......................)
?L     GHN  ROOT    /L     DLET/L   2 GHN/L     DLET
?L     ISRT ROOT    /D0011......................AB
?L     ISRT ROOT    /D0000......................AB
?L     ISRT ROOT    /D0000......................CD
?L     GHU  ROOT    (FRONT   EQ0001)/L     REPL/D0001......................XY
?L     GU   ROOT    (KEY     EQ0001......................+FRONT   EQ0009)
?L  12 GHN/L     DLET
?L     GHU  ROOT    /L     DLET/L     GHN/L     DLET/L     GHN/L     DLET
?L     ISRT ROOT    /D00045.......................
%  DBD NAME=SORTS,ACCESS=HIDAM
  DATASET SIZE=128
  SEGM NAME=ITEM,BYTES=(12,5),PTR=T
  FIELD NAME=(KEY,SEQ,U),BYTES=3,START=3
  SEGM NAME=NOTE,PARENT=ITEM,BYTES=(9,3),RULES=(,FIRST)
  SEGM NAME=STOCK,PARENT=((ITEM,DBLE)),BYTES=6,PTR=TB,RULES=(,HERE)
  FIELD NAME=(PLACE,SEQ,M),BYTES=2,START=2
  FIELD NAME=COUNT,BYTES=3,START=4
  SEGM NAME=LOT,PARENT=STOCK,BYTES=(20,4),PTR=TB
  FIELD NAME=(LOTNO,SEQ,U),BYTES=2,START=3
  SEGM NAME=MARK,PARENT=((STOCK,DBLE)),BYTES=3
         DBDGEN
!  PCB TYPE=DB,DBDNAME=SORTS,PROCOPT=AP
  SENSEG NAME=ITEM
  SENSEG NAME=NOTE,PARENT=ITEM
  SENSEG NAME=STOCK,PARENT=ITEM
  SENSEG NAME=LOT,PARENT=STOCK
  SENSEG NAME=MARK,PARENT=STOCK
  PCB TYPE=DB,DBDNAME=SORTS,PROCOPT=GRD
  SENSEG NAME=ITEM
  SENSEG NAME=STOCK,PARENT=ITEM,PROCOPT=A
  SENSEG NAME=MARK,PARENT=STOCK
         PSBGEN
!1~,1,12,AAA/2~,2,9,OLD/3,2,6,-HA123/4~,3,10,##/5,2,3,/3,1,6,-KI456/4~,1,20,0001/5,1,3,END/1~,1,5,BBB/3,2,6,-HA789/1~,1,8,CCC/2~,1,3,!
L   6 GN
?L     GHU  NOTE    /L     REPL/H0004/DAB
?L     GHU  NOTE    /L     REPL/H0009/DLONGEST
?L     ISRT ITEM    (KEY     EQBBB)/C          NOTE    /H0005/DNEW
?L     GU   STOCK   (PLACE   EQHA*COUNT   GT123)/L     ISRT STOCK   /D-HA000
?S 2/L     GHN  STOCK   /L     DLET/S 1/L     GN
?L     GU   ITEM    *D/C          STOCK   *DL/C          LOT     *-
?L     GHU  ITEM    *D/C          STOCK   /C          LOT     *D/L     REPL ITEM    *N/C          LOT     /H000c/DAAA......./H0006/D01XY
?L     GNP  MARK    /L     GNP  LOT     *F/L     GNP
?L     ISRT ITEM    *D/C          STOCK   /C          LOT     /H0006/DABCD-HA321/H0005/D99X
?L     ISRT STOCK   *F/D-KI999
?L     GHU  ITEM    (KEY     GTAAA)/L     DLET/L   3 GN
?L     GHN  LOT     /L     REPL/H0014/D012345678901234567
?S 2/L   4 GN/L     GNP  STOCK   *L(COUNT   NE789)
?L     GHN  MARK    /L     DLET/L     GHN  MARK    /L     REPL/DNEW
%  DBD NAME=ROOMY,ACCESS=HIDAM
  DATASET SIZE=128,FRSPC=(3,40)
  SEGM NAME=AREA,BYTES=20,PTR=TB
  FIELD NAME=(NAME,SEQ,U),BYTES=2,START=19
  SEGM NAME=HOUSE,PARENT=((AREA,DBLE)),BYTES=7
  FIELD NAME=(STREET,SEQ,M),BYTES=3,START=1
  SEGM NAME=ROOM,PARENT=((HOUSE,DBLE)),BYTES=11,PTR=TB,RULES=(,FIRST)
  FIELD NAME=FLOOR,BYTES=1,START=11
         DBDGEN
!  PCB TYPE=DB,DBDNAME=ROOMY,PROCOPT=A
  SENSEG NAME=AREA
  SENSEG NAME=HOUSE,PARENT=AREA
  SENSEG NAME=ROOM,PARENT=HOUSE
         PSBGEN
!1,1,20,..................AA/2,3,7,EAS/3,5,11,####......2/2,1,7,WES/3,2,11,####......1/1,1,20,..................BB/2,2,7,NOR/1,1,20,..................CC!
L   5 GN
?L     GHU  AREA    (NAME    EQBB)/C          HOUSE   /L     REPL/DNORTHEN
?L     ISRT AREA    (NAME    EQAA)/C          HOUSE   /DEAST 01
?L     ISRT HOUSE   /C          ROOM    /DROOM......5
?L     GHU  ROOM    (FLOOR   =>2)/L     DLET
?L   7 GHN  ROOM    (FLOOR   LE2)/L     DLET
?L     GHN  HOUSE   *L/L     DLET/L   2 GN
?L     GU   AREA    (NAME    GTAA)/L   3 GNP
?L     GHN  AREA    /L     DLET/L     GN
?L     ISRT AREA    *D/C          HOUSE   /C          ROOM    /D..................ABEASTERNCELLAR....0
?L     GU   AREA    /C          ROOM    *L/L   2 GN
?L     ISRT ROOM    *L/DATTIC.....9
%  DBD NAME=CHAIN,ACCESS=HIDAM
  DATASET SIZE=128
  SEGM NAME=ONE,BYTES=4,PTR=TB
  FIELD NAME=(KEY,SEQ,U),BYTES=1,START=2
  SEGM NAME=TWO,PARENT=ONE,BYTES=(6,3)
  SEGM NAME=THREE,PARENT=((TWO,DBLE)),BYTES=5,RULES=(,HERE)
  SEGM NAME=FOUR,PARENT=THREE,BYTES=(7,4),PTR=TB
  FIELD NAME=(KEY,SEQ,M),BYTES=2,START=3
  SEGM NAME=FIVE,PARENT=((FOUR,DBLE)),BYTES=2,PTR=TB
  FIELD NAME=(KEY,SEQ,U),BYTES=2,START=1
         DBDGEN
!  PCB TYPE=DB,DBDNAME=CHAIN,PROCOPT=AP
  SENSEG NAME=ONE
  SENSEG NAME=TWO,PARENT=ONE
  SENSEG NAME=THREE,PARENT=TWO
  SENSEG NAME=FOUR,PARENT=THREE
  SENSEG NAME=FIVE,PARENT=FOUR
         PSBGEN
!1,1,4,.A/2~,1,6,/3,1,5,/4~,1,5,AA/5,9,2,0#/4~,2,7,AB/3,1,5,/2~,2,3,/3,2,5,/4~,1,4,XX/5,1,2,ZZ/1,1,4,.B/2~,1,4,/3,2,5,LAST!
L   4 GN
?L     GHU  ONE     *D/C          FOUR    *D/C          FIVE    /L     REPL FIVE    *N/D.Axx/H0006/DAAno/DXX
?L     GHN  FIVE    /L     DLET
?L     GU   THREE   *L/L     ISRT THREE   /DHERES
?L     ISRT ONE     (KEY     EQA)/C          TWO     *D/C          THREE   /C          FOUR    /H0003/DT12345/H0004/DAA
?L     GHN  FOUR    /L     REPL/H0007/DAALNG
?L     GNP  FIVE    (KEY     NEZZ)/L   2 GNP
?L     GHN  TWO     /L     REPL/H0006/DLONG/L     GN
?L     GHN  TWO     /L     DLET/L   2 GN
?L     GU   ONE     /C          TWO     *F/C          FIVE    *L/L     GN
?L     ISRT FOUR    (KEY     EQAA)/C          FIVE    /D05
?L     GHU  ONE     (KEY     EQB)/L     DLET/L     ISRT ONE     /D.B..
";

/// How many changed volumes passed, over how many of them calls were played, and how many had a fault; and what was first wrong with one, and how many were tried before.
#[derive(Debug, Drop)]
struct Changes {
    passed: usize,
    played: usize,
    faulty: usize,
    wrong: Option<(&'static str, usize)>,
}

/// What a check says of an image: the stream of what it holds where it passes, or none where it has a fault, which a session names too.
/// Text where they say anything else.
fn judge(
    alloc: Global,
    dbd: &Dbd,
    psb: &Psb,
    image: &[u8],
) -> Result<Result<Option<Vec<u8>>, &'static str>, AllocError> {
    let store = MemStore::new(dbd.block_size() as usize, image.to_vec(alloc)?);
    let Ok(mut volume) = Volume::load(alloc, store, dbd) else {
        return Err(AllocError);
    };
    match check(alloc, &mut volume, dbd) {
        Ok(passed) => {
            let mut stream = Vec::new(alloc);
            match unload(alloc, &mut volume, dbd, &mut stream) {
                Ok(segments) if segments == passed.segments => Ok(Ok(Some(stream))),
                _ => Ok(Err("check passes it and unload does not")),
            }
        }
        Err(CheckFault::Fault(fault)) => {
            if !psb.matches(dbd) {
                return Ok(Err("the program is for another database"));
            }
            match Session::open(alloc, volume, dbd, psb) {
                Err((_, OpenFault::Check(told))) if told == fault => Ok(Ok(None)),
                _ => Ok(Err("check names a fault that a session does not")),
            }
        }
        Err(_) => Ok(Err("check fails")),
    }
}

/// Some of the calls of a database, from one on and round.
fn some_calls(alloc: Global, calls: &[u8], first: usize) -> Result<Vec<u8>, AllocError> {
    let count = calls.split(|byte| *byte == b'?').count();
    let mut deck = Vec::new(alloc);
    for turn in 0..CALLS {
        let place = first.wrapping_add(turn);
        let lines = part(calls, b'?', if count == 0 { 0 } else { place % count });
        deck.extend_from_slice(b"S 1\n")?;
        deck.extend_from_slice(&deck_of(alloc, lines)?)?;
    }
    Ok(deck)
}

const OTHER_ROWS: &str = "calls leave other rows than over a fresh volume";

/// What is wrong with what calls left of a changed volume and of a fresh one: nothing where both printed the same lines, and pass for the same rows. A fresh one may have more
/// room, so that nothing is asked where a call finds no room.
fn fault_of_both(
    alloc: Global,
    dbd: &Dbd,
    psb: &Psb,
    one: &Played,
    other: &Played,
) -> Option<&'static str> {
    if one.lines.windows(8).any(|part| matches!(part, b"[!!] Ful")) {
        return Some("");
    }
    if one.lines != other.lines {
        return Some("calls answer otherwise than over a fresh volume");
    }
    let Ok(Some(left)) = judge(alloc, dbd, psb, &one.image).ok()? else {
        return Some(OTHER_ROWS);
    };
    let Ok(Some(fresh)) = judge(alloc, dbd, psb, &other.image).ok()? else {
        return Some(OTHER_ROWS);
    };
    if left == fresh {
        Some("")
    } else {
        Some(OTHER_ROWS)
    }
}

/// Judges a changed image, and plays calls over it where it passes and is of the newest version.
fn try_image(
    alloc: Global,
    dbd: &Dbd,
    psb: &Psb,
    image: &[u8],
    calls: &[u8],
    changes: &mut Changes,
) -> Option<()> {
    let mut wrong = "";
    match judge(alloc, dbd, psb, image).ok()? {
        Ok(Some(stream)) => {
            changes.passed = changes.passed.saturating_add(1);
            if image.get(8..10) == Some(&[0, 3]) {
                let deck = some_calls(alloc, calls, changes.passed).ok()?;
                let (fresh, _) = volume_of(alloc, dbd, &stream)?;
                let one = play(alloc, dbd, psb, image, &deck, 64)?;
                let other = play(alloc, dbd, psb, &fresh, &deck, 0)?;
                wrong = fault_of_both(alloc, dbd, psb, &one, &other)?;
                changes.played = changes.played.saturating_add(1);
            }
        }
        Ok(None) => changes.faulty = changes.faulty.saturating_add(1),
        Err(told) => wrong = told,
    }
    if !wrong.is_empty() && changes.wrong.is_none() {
        changes.wrong = Some((wrong, changes.passed.saturating_add(changes.faulty)));
    }
    Some(())
}

/// The next number below a limit, the same for the same state before.
fn below(state: &mut u64, limit: usize) -> usize {
    let mut next = *state;
    next ^= next << 13;
    next ^= next >> 7;
    next ^= next << 17;
    *state = next;
    let number = (next >> 11) as usize;
    if limit == 0 { 0 } else { number % limit }
}

/// What comes of every byte of a volume changed in turn, and of two bytes changed at random.
fn change(alloc: Global, text: &[u8]) -> Option<Changes> {
    let mut changes = Changes {
        passed: 0,
        played: 0,
        faulty: 0,
        wrong: None,
    };
    let (dbd, psb) = base_of(alloc, text)?;
    let stream = stream_of(alloc, &dbd, part(text, b'!', 2)).ok()?;
    let (mut image, _) = volume_of(alloc, &dbd, &stream)?;
    let calls = part(text, b'!', 3);
    for place in 0..image.len() {
        let own = byte_at(&image, place);
        for way in 0..WAYS {
            let byte = changed(own, way);
            if byte != own {
                set_byte(&mut image, place, byte);
                try_image(alloc, &dbd, &psb, &image, calls, &mut changes)?;
            }
        }
        set_byte(&mut image, place, own);
    }
    let mut state: u64 = 0x9e37_79b9_7f4a_7c15;
    for _ in 0..PAIRS {
        let one = below(&mut state, image.len());
        let other = below(&mut state, image.len());
        let own = byte_at(&image, one);
        let own_other = byte_at(&image, other);
        set_byte(&mut image, one, (below(&mut state, 256) & 255) as u8);
        set_byte(&mut image, other, (below(&mut state, 256) & 255) as u8);
        try_image(alloc, &dbd, &psb, &image, calls, &mut changes)?;
        set_byte(&mut image, other, own_other);
        set_byte(&mut image, one, own);
    }
    Some(changes)
}

#[test]
fn changed_volumes_are_judged(rt: HostRuntime) -> Result<(), Fail> {
    for text in DATABASES.split(|byte| *byte == b'%') {
        let changes = change(rt.alloc(), text).expect(&rt, "a volume");
        assert_eq!(rt; changes.wrong, None, "{changes:?}");
        assert!(rt; changes.played > 0 && changes.faulty > 0, "{changes:?}");
    }
    Ok(())
}
