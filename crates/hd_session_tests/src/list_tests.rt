//! Tests that play lists of calls, with each access failing in turn, and with each growth finding no memory in turn.

use crate::bases::Base;
use crate::list_text::{cut, is_list_end, number_of};
use crate::list_trial::{WHOLE, Way};
use crate::outcomes::{Played, begun, play_in, untold};
use hd_dbd::Refused;
use std::alloc::Global;

/// Lists of calls. The first line of each says what it begins with, and how many growths there are at least; each other is a call, or a search by a word of
/// small letters, with its answers. In an answer the numbers are those of the rows of a path, from 1 on, as they were at the beginning, and 0 is none.
const LISTS: &[u8] =
    b"X32;A:1234/G:1234/GI:1234;:the first test of a call that fails answers; GNP reads the parentage row, and REPL and DLET the held rows, which are no more in memory
1 GX  ;;AD0
1 GU  /COURSE;;AJ0
1 GU  /LAB     ;;AC0
1 GU  /COURSE  (NAME    EQ101);;AK0
2 ISRT/BOOK    ;GAUSS;AM0
1 ISRT;;AH0
1 REPL;101ALGEB;DJ0
1 GNP ;;GP0
1 GHU /COURSE  ;;  1
1 GHU /CLASS   ;;  1/2
2 GN  ;;  1,  1/2,  1/2/3,  1/2/4,GA1/5,GK1/6,GA7,GB0
1 GNP /COURSE  ;;GP1/2
1 GNP /STUD    ;;  1/2/3
3 GHU /CLASS   ;;  1/2
2 GN  ;;  1,  1/2,  1/2/3,  1/2/4,GA1/5,GK1/6,GA7,GB0
3 REPL;01XY;AM1/2
1 GHU /CLASS   ;;  1/2
2 GN  ;;  1,  1/2,  1/2/3,  1/2/4,GA1/5,GK1/6,GA7,GB0
1 DLET/COURSE  ;;DJ1/2
1 GHU /CLASS   ;;  1/2
2 GN  ;;  1,  1/2,  1/2/3,  1/2/4,GA1/5,GK1/6,GA7,GB0
1 REPL;01XY;  1/2
1 GHU /CLASS   ;;  1/2
1 DLET/CLASS   ;;  1
%X32;G:1234;:gets with each status, F, L and parentage; under arguments GA and GK are not told
1 GHN ;;  1,  1/2
1 GHN /CLASS   ;;  1/5
1 GHNP;;GE1/5
1 GHN ;;GK1/6,GA7
1 GHU /STUD    *L;;  1/2/4
1 GHN /STUD    *F;;  1/2/3
1 GHU /CLASS   ;;  1/2
1 GHNP;;  1/2/3
1 GHNP/STUD    ;;  1/2/4
1 GHNP/STUD    *F;;  1/2/3
1 GHNP/STUD    ;;  1/2/4
1 GHNP/CLASS   *F/STUD    ;;  1/2/3
1 GHN /STUD    ;;  1/2/4,GB0
1 GHNP;;GP0
1 GHN ;;  1
1 GHN /CLASS   ;;  1/2
1 GHN /BOOK    ;;  1/6
1 GHN /COURSE  ;;  7
%X32;AP:1234/AP:1234/AP:1234;:a REPL ends the holds of the rows that it changes, whoever has them, and no others; after Area a hold lasts
1 GHU /CLASS   *D/STUD    ;;  1/2/3
2 GHU /CLASS   *D/STUD    (SNAME   EQEVE );;  1/2/4
3 GHU /STUD    (SNAME   EQEVE );;  1/2/4
1 REPL/COURSE  ;01XY/ADAM99;  1/2/3
2 REPL;01QQ/EVE 03;DJ1/2/4
1 REPL;01XY/ADAM99;DJ1/2/3
1 GHU /CLASS   *D/STUD    ;;  1/2/3
1 REPL/STUD    *N;01ZZ/EVE 07;  1/2/3
1 GHU /CLASS   *D/STUD    ;;  1/2/3
1 REPL;02QQ/ADAM99;DA1/2/3
1 REPL;01QQ/ADAM99;DJ1/2/3
1 GHU /CLASS   *D/STUD    ;;  1/2/3
1 REPL;01QQ;Ar
1 REPL;01QQ/ADAM99/9;Ar
1 REPL;01QQ/ADAM99;  1/2/3
3 REPL;EVE 03;  1/2/4
%X32;AP:1234/AP:1234/A:1234;:a DLET takes a row out with all below it, and the PCBs that were there go back to the row before and stand on the one above
1 GHU /COURSE  *D/BOOK    ;;  1/6
1 DLET/BOOK    ;;  1/5
2 GU  /BOOK    ;;GE0
1 GHU /CLASS   *D/STUD    ;;  1/2/3
2 GHU /STUD    (SNAME   EQEVE );;  1/2/4
3 GHU /STUD    (SNAME   EQEVE );;  1/2/4
1 DLET;;  1
2 REPL;EVE 99;DJ1
2 GNP ;;GP1
2 ISRT/BOOK    ;GAUSS;  
3 DLET;;DJ1
3 GN  ;;GA1/5,GK
1 DLET;;DJ1
1 GHU /COURSE  (NUM     EQ205);;  7
1 DLET/COURSE  ;;  
1 GU  /COURSE  (NUM     EQ205);;GE
1 from/COURSE  (NUM     EQ205);;  0
1 GU  /COURSE  (NUM     EQ101);;  1
2 GN  ;;GB0
%X64;A:1234/A:1234/G:1234;3:ISRT below the parent of the position, below one that arguments name, and of a path with a root
1 GU  /BOOK    ;;  1/6
1 ISRT/BOOK    ;GAUSS;  
2 ISRT/COURSE  /CLASS   ;01ZZ;II0
2 ISRT/COURSE  /CLASS   ;00ZZ;  
2 ISRT/COURSE  *D/CLASS   /STUD    ;150GRAPH/07GT/KONIG5;  
2 ISRT/STUD    ;ABEL09;  
1 ISRT/STUD    ;DORA04;GE
1 ISRT/BOOK    ;GAUSS/9;Ar
1 ISRT/COURSE  /BOOK    *L;HILBE;  
3 GN  ;;  1,  ,  1/2,  1/2/3,  1/2/4,GA1/5,GK1/6,  ,  ,GA,  ,  ,  ,GA7,GB0
3 GU  /COURSE  (NUM     EQ150)/CLASS   /STUD    (SNAME   EQABEL);;  
%X64;A:1234/G:1234;1:an ISRT of a path with a root alone
1 ISRT/COURSE  *D/CLASS   /STUD    ;150GRAPH/07GT/KONIG5;  
2 GN  ;;  1,  1/2,  1/2/3,  1/2/4,GA1/5,GK1/6,GA,  ,  ,GA7,GB0
%X64;A:1234/G:1234;1:an ISRT of a path below a root alone, each row of which takes a block
1 ISRT/COURSE  (NUM     EQ205)/CLASS   *D/STUD    ;07GT/KONIG5;  
2 GN  ;;  1,  1/2,  1/2/3,  1/2/4,GA1/5,GK1/6,GA7,  ,  ,GB0
%N16;L:1234/G:1234;2:a load, with rows that may not follow the last one
1 ISRT/CLASS   ;01AB;LD
1 ISRT/COURSE  ;101ALGE;Ar
1 ISRT/COURSE  ;101ALGEB;  
1 ISRT/CLASS   ;01AB;  
1 ISRT/STUD    ;ADAM01;  
1 ISRT/STUD    ;EVE 020;Ar
1 ISRT/STUD    ;ABEL03;LC
1 ISRT/STUD    ;EVE 02;  
1 ISRT/CLASS   ;02CD;  
1 ISRT/CLASS   ;02XY;LB
1 ISRT/CLASS   ;01ZZ;LC
1 ISRT/BOOK    ;EULER;  
1 ISRT/CLASS   ;03EF;LE
1 ISRT/STUD    ;IDA 04;LD
1 ISRT/COURSE  ;205LOGIC;  
1 ISRT/COURSE  ;205OTHER;LB
1 ISRT/COURSE  ;101ALGEB;LC
1 ISRT/CLASS   ;03EF;  
2 GN  ;;  ,  ,  ,  ,GA,GK,GA,  ,GB
2 GU  /COURSE  (NUM     EQ205)/CLASS   (ED      EQ03);;  
%N1;L:1234;:a load without room for a root
1 ISRT/COURSE  ;101ALGEB;Fu
%N3;L:1234;1:a load with room for a block of rows
1 ISRT/COURSE  ;101ALGEB;  
1 ISRT/CLASS   ;01AB;  
1 ISRT/STUD    ;ADAM01;  ,  
1 ISRT/CLASS   ;02CD;  
1 ISRT/BOOK    ;EULER;Fu
%E16;G:1234/I:1234;:where a GU begins by the index, which row it finds, and which is named first; PCB 2 may read none
1 from/COURSE  ;;  1
1 seek/COURSE  ;;  1
1 name/COURSE  ;;  1
2 seek/COURSE  ;;  0
1 from/COURSE  (NUM     EQ205);;  7
1 seek/COURSE  (NUM     EQ205);;  7
1 name/COURSE  (NUM     EQ205);;  7
2 seek/COURSE  (NUM     EQ205);;  0
1 from/COURSE  (NUM     EQ150);;  7
1 seek/COURSE  (NUM     EQ150);;  0
1 name/COURSE  (NUM     EQ150);;  0
2 seek/COURSE  (NUM     EQ150);;  0
1 from/COURSE  (NUM     GT205);;  7
1 seek/COURSE  (NUM     GT205);;  0
1 name/COURSE  (NUM     GT205);;  0
2 seek/COURSE  (NUM     GT205);;  0
1 from/COURSE  (NUM     GE300);;  0
1 seek/COURSE  (NUM     GE300);;  0
1 name/COURSE  (NUM     GE300);;  0
2 seek/COURSE  (NUM     GE300);;  0
1 from/COURSE  (NUM     LT205)/BOOK    ;;  1
1 seek/COURSE  (NUM     LT205)/BOOK    ;;  1/6
1 name/COURSE  (NUM     LT205)/BOOK    ;;  1/6
2 seek/COURSE  (NUM     LT205)/BOOK    ;;  0
1 from/COURSE  (NUM     EQ205)/BOOK    ;;  7
1 seek/COURSE  (NUM     EQ205)/BOOK    ;;  0
1 name/COURSE  (NUM     EQ205)/BOOK    ;;  0
2 seek/COURSE  (NUM     EQ205)/BOOK    ;;  0
1 from/CLASS   (ED      EQ02);;  1
1 seek/CLASS   (ED      EQ02);;  1/5
1 name/CLASS   (ED      EQ02);;  1/5
2 seek/CLASS   (ED      EQ02);;  0
1 from/CLASS   (ED      EQ03);;  1
1 seek/CLASS   (ED      EQ03);;  0
1 name/CLASS   (ED      EQ03);;  0
2 seek/CLASS   (ED      EQ03);;  0
1 from/CLASS   (ED      GE01*ED      LT02);;  1
1 seek/CLASS   (ED      GE01*ED      LT02);;  1/2
1 name/CLASS   (ED      GE01*ED      LT02);;  1/2
2 seek/CLASS   (ED      GE01*ED      LT02);;  0
1 from/COURSE  (NUM     EQ101)/CLASS   *L ;;  1/5
1 seek/COURSE  (NUM     EQ101)/CLASS   *L ;;  1/5
1 name/COURSE  (NUM     EQ101)/CLASS   *L ;;  1/5
2 seek/COURSE  (NUM     EQ101)/CLASS   *L ;;  0
1 from/CLASS   *L(ED      EQ01+ED      EQ02);;  1
1 seek/CLASS   *L(ED      EQ01+ED      EQ02);;  1/5
1 name/CLASS   *L(ED      EQ01+ED      EQ02);;  1/5
2 seek/CLASS   *L(ED      EQ01+ED      EQ02);;  0
1 from/CLASS   *L(ED      EQ01);;  1
1 seek/CLASS   *L(ED      EQ01);;  1/2
1 name/CLASS   *L(ED      EQ01);;  1/2
2 seek/CLASS   *L(ED      EQ01);;  0
1 from/STUD    (SNAME   EQEVE );;  1
1 seek/STUD    (SNAME   EQEVE );;  1/2/4
1 name/STUD    (SNAME   EQEVE );;  1/2/4
2 seek/STUD    (SNAME   EQEVE );;  0
1 from/STUD    (SNAME   EQADAM+SNAME   EQEVE *SNAME   GTFRED);;  1
1 seek/STUD    (SNAME   EQADAM+SNAME   EQEVE *SNAME   GTFRED);;  1/2/3
1 name/STUD    (SNAME   EQADAM+SNAME   EQEVE *SNAME   GTFRED);;  1/2/3
2 seek/STUD    (SNAME   EQADAM+SNAME   EQEVE *SNAME   GTFRED);;  0
1 from/CLASS   (ED      EQ01)/STUD    *L;;  1
1 seek/CLASS   (ED      EQ01)/STUD    *L;;  1/2/4
1 name/CLASS   (ED      EQ01)/STUD    *L;;  1/2/4
2 seek/CLASS   (ED      EQ01)/STUD    *L;;  0
1 from/CLASS   (ED      EQ02)/STUD    ;;  1
1 seek/CLASS   (ED      EQ02)/STUD    ;;  0
1 name/CLASS   (ED      EQ02)/STUD    ;;  0
2 seek/CLASS   (ED      EQ02)/STUD    ;;  0
1 from/COURSE  (NUM     EQ101)/CLASS   (ED      EQ02);;  1/5
1 seek/COURSE  (NUM     EQ101)/CLASS   (ED      EQ02);;  1/5
1 name/COURSE  (NUM     EQ101)/CLASS   (ED      EQ02);;  1/5
2 seek/COURSE  (NUM     EQ101)/CLASS   (ED      EQ02);;  0
1 from/COURSE  (NUM     EQ101)/CLASS   (ED      EQ01)/STUD    (SNAME   EQEVE );;  1/2/4
1 seek/COURSE  (NUM     EQ101)/CLASS   (ED      EQ01)/STUD    (SNAME   EQEVE );;  1/2/4
1 name/COURSE  (NUM     EQ101)/CLASS   (ED      EQ01)/STUD    (SNAME   EQEVE );;  1/2/4
2 seek/COURSE  (NUM     EQ101)/CLASS   (ED      EQ01)/STUD    (SNAME   EQEVE );;  0
1 from/COURSE  (NUM     EQ101)/CLASS   (ED      GT00)/STUD    (SNAME   EQEVE );;  1/2
1 seek/COURSE  (NUM     EQ101)/CLASS   (ED      GT00)/STUD    (SNAME   EQEVE );;  1/2/4
1 name/COURSE  (NUM     EQ101)/CLASS   (ED      GT00)/STUD    (SNAME   EQEVE );;  1/2/4
2 seek/COURSE  (NUM     EQ101)/CLASS   (ED      GT00)/STUD    (SNAME   EQEVE );;  0
1 from/COURSE  (NUM     EQ101)/CLASS   (ED      EQ01)/STUD    (SNAME   EQBOB );;  1/2/4
1 seek/COURSE  (NUM     EQ101)/CLASS   (ED      EQ01)/STUD    (SNAME   EQBOB );;  0
1 name/COURSE  (NUM     EQ101)/CLASS   (ED      EQ01)/STUD    (SNAME   EQBOB );;  0
2 seek/COURSE  (NUM     EQ101)/CLASS   (ED      EQ01)/STUD    (SNAME   EQBOB );;  0
1 from/COURSE  (NUM     EQ101)/CLASS   (ED      EQ03);;  1
1 seek/COURSE  (NUM     EQ101)/CLASS   (ED      EQ03);;  0
1 name/COURSE  (NUM     EQ101)/CLASS   (ED      EQ03);;  0
2 seek/COURSE  (NUM     EQ101)/CLASS   (ED      EQ03);;  0
1 from/COURSE  (NUM     EQ101)/CLASS   *L(ED      EQ02);;  1/5
1 seek/COURSE  (NUM     EQ101)/CLASS   *L(ED      EQ02);;  1/5
1 name/COURSE  (NUM     EQ101)/CLASS   *L(ED      EQ02);;  1/5
2 seek/COURSE  (NUM     EQ101)/CLASS   *L(ED      EQ02);;  0
1 from/COURSE  (NUM     EQ150)/CLASS   (ED      EQ01);;  7
1 seek/COURSE  (NUM     EQ150)/CLASS   (ED      EQ01);;  0
1 name/COURSE  (NUM     EQ150)/CLASS   (ED      EQ01);;  0
2 seek/COURSE  (NUM     EQ150)/CLASS   (ED      EQ01);;  0
1 name;;  0
%E16;I:12;:the parent of a row, by a PCB that may read none
1 come/1/2/3;;  1/2/3
1 par2;;  1/2
1 come/7;;  7
1 par1/COURSE  ;;  7
1 par2/COURSE  /CLASS   ;;  1/2
1 come/1/2;;  1/2
1 par2/COURSE  /CLASS   *L;;  1/5
1 par4;;  0
1 come;;  0
1 par1/COURSE  ;;  1
1 come/1/6;;  1/6
1 par2;;  0
%K64;G:1;:the twin behind which a row goes in, by rule and sort of key
1 come;;  0
1 inF1/0;050;  0
1 inL1/0;200;  1
1 inF1/0;400;  26
1 inL1/0;100;II0
1 inL2/1;05;  0
1 inF2/1;25;  3
1 inF2/1;50;  5
1 inF2/1;10;II0
1 inL2/1;40;II0
1 inF3/1;05;  0
1 inL3/1;25;  7
1 inH3/1;50;  9
1 inL3/1;10;II0
1 inF3/1;40;II0
1 inL4/1;05;  0
1 inF4/1;20;  10
1 inL4/1;20;  12
1 inH4/1;20;  10
1 inF4/1;30;  12
1 inL4/1;30;  13
1 inF5/1;05;  0
1 inF5/1;20;  14
1 inL5/1;20;  16
1 inF5/1;40;  17
1 inF6/1;20;  0
1 inL6/1;20;  21
1 inH6/1;20;  0
1 inF7/1;20;  0
1 inL7/1;20;  25
1 come/1;;  1
1 inH1/0;200;  1
1 inH5/1;20;  14
1 come/26;;  26
1 inH1/0;300;II0
1 come/1/5;;  1/5
1 inH2/1;25;  3
1 come/1/3;;  1/3
1 inH2/1;20;II0
1 come/1/7;;  1/7
1 inH3/1;20;II0
1 come/1/11;;  1/11
1 inH4/1;20;  10
1 come/1/12;;  1/12
1 inH4/1;20;  11
1 come/1/13;;  1/13
1 inH4/1;20;  10
1 inH4/1;30;  12
1 come/1/16;;  1/16
1 inH4/1;20;  10
1 inH5/1;20;  15
1 come/1/14;;  1/14
1 inH5/1;10;  0
1 come/1/18;;  1/18
1 inH6/1;20;  0
1 come/1/21;;  1/21
1 inH6/1;99;  20
1 come/1/24;;  1/24
1 inH7/1;99;  23
1 come/1/20;;  1/20
1 inH7/1;20;  0
1 come;;  0
1 inF2/26;20;  0
1 inH3/26;20;  0
1 inL4/26;20;  0
1 inF5/26;20;  0
1 inL6/26;20;  0
1 inL7/26;20;  0";

/// Each call of the lists is answered as they say, and those updates that are refused change no byte: without them a list leaves the same.
#[test]
fn plays_lists(rt: HostRuntime) {
    for (number, list) in LISTS.split(is_list_end).enumerate() {
        let (base, lines) = begun(rt.alloc(), list).expect(&rt, "a volume");
        let whole = play_in(rt.alloc(), &base, [lines, b""], WHOLE).expect(&rt, "a play");
        assert!(rt;
            whole.right == Ok(true),
            "list {number}, call {}: {:?}",
            whole.made,
            whole.right
        );
        let is_tried = false;
        let way = Way { is_tried, ..WHOLE };
        let done = play_in(rt.alloc(), &base, [lines, b""], way).expect(&rt, "a play");
        assert!(rt;
            done.right == Ok(true) && done.bytes == whole.bytes,
            "list {number}"
        );
    }
}

/// Each access that fails is told as `Device`.
#[test]
fn answers_device_at_each_access(rt: HostRuntime) {
    for (number, list) in LISTS.split(is_list_end).enumerate() {
        let (base, lines) = begun(rt.alloc(), list).expect(&rt, "a volume");
        let whole = play_in(rt.alloc(), &base, [lines, b""], WHOLE).expect(&rt, "a play");
        assert!(rt;
            whole.accesses >= base.bytes.len() as u64 / 128,
            "list {number}"
        );
        let failed = untold(rt.alloc(), &base, [lines, b""], 0, whole.accesses);
        assert_eq!(rt; failed, None, "list {number}");
    }
}

/// Whether the call in which a growth finds no memory changes neither bytes nor places, and is then answered as if it were the first; `None` where there is
/// no such growth.
fn is_made_again(
    alloc: Global,
    base: &Base,
    lines: &[u8],
    growth: u32,
    whole: &Played,
) -> Option<bool> {
    let way = Way { growth, ..WHOLE };
    let stopped = play_in(alloc, base, [lines, b""], way)?;
    if stopped.memory == 0 {
        return None;
    }
    let calls = stopped.made;
    let before = play_in(alloc, base, [lines, b""], Way { calls, ..WHOLE })?;
    let is_again = true;
    let again = play_in(alloc, base, [lines, b""], Way { is_again, ..way })?;
    let is_kept = stopped.bytes == before.bytes && stopped.places == before.places;
    let is_done = again.bytes == whole.bytes && again.places == whole.places;
    let is_told = stopped.right == Err(Refused::Memory) && again.right == Ok(true);
    Some(is_kept && is_done && is_told && again.memory == 1)
}

/// How many growths of a list there are, each of which finds no memory in turn: up to the first that changes something.
fn growths_of(alloc: Global, base: &Base, lines: &[u8], whole: &Played) -> u32 {
    for growth in 0..100 {
        if is_made_again(alloc, base, lines, growth, whole) != Some(true) {
            return growth;
        }
    }
    100
}

/// A call that finds no memory changes nothing, and is answered when it is made again.
#[test]
fn changes_nothing_where_a_growth_finds_no_memory(rt: HostRuntime) {
    for (number, list) in LISTS.split(is_list_end).enumerate() {
        let (base, lines) = begun(rt.alloc(), list).expect(&rt, "a volume");
        let whole = play_in(rt.alloc(), &base, [lines, b""], WHOLE).expect(&rt, "a play");
        let growths = growths_of(rt.alloc(), &base, lines, &whole);
        let next = is_made_again(rt.alloc(), &base, lines, growths, &whole);
        let (least, _) = cut(cut(cut(list, b';').1, b';').1, b':');
        assert!(rt;
            next.is_none() && growths >= number_of(least),
            "list {number}: {growths}"
        );
    }
}
