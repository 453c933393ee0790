//! A test that counts the accesses of calls and searches.

use crate::bases::Base;
use crate::list_text::{cut, is_list_end, is_part_end, number_of};
use crate::list_trial::WHOLE;
use crate::outcomes::{begun, play_in, untold};
use std::alloc::Global;

/// Lists whose parts begin with `#` and how many accesses their calls take behind those of the first part, or from how many to how many: one for each block
/// that they come to, of rows or of the index, but those that are in memory: four, of which those not in hand stand in
/// slots by their numbers, so that one that is come to again is read again where its slot has another. A part begins anew.
const COUNTED: &[u8] =
    b"W200;G:1234:first the last rows are come to, so that no other of the four blocks in memory has a row that is sought
1 read/54/55;;  54/55
1 read/56/57;;  56/57
#1:the first row
1 seek/COURSE  ;;  1
#1
1 name/COURSE  ;;  1
#8/9:the index's one level, the course, its last class and its first, from the last back to the one before the class, that class again, two students
1 seek/COURSE  (NUM     EQ205)/CLASS   (ED      EQ05)/STUD    (SNAME   EQBETH);;  20/29/31
#8/9
1 name/COURSE  (NUM     EQ205)/CLASS   (ED      EQ05)/STUD    (SNAME   EQBETH);;  20/29/31
#1:a key behind the last: the index alone
1 seek/COURSE  (NUM     EQ400);;  0
#1
1 name/COURSE  (NUM     EQ400);;  0
#4:the first course, two classes, a student of the second, and none of the first
1 seek/CLASS   (ED      EQ03)/STUD    ;;  1/6/7
#4
1 name/CLASS   (ED      EQ03)/STUD    ;;  1/6/7
#7/8:a key that no class has: the index, the course, its last class and its first, three classes, the course again where its slot has a class, and the next course, whose key is greater too
1 seek/COURSE  (NUM     EQ101)/CLASS   (ED      EQ04);;  0
#7/8
1 name/COURSE  (NUM     EQ101)/CLASS   (ED      EQ04);;  0
#3:the index, the course, its first book
1 seek/COURSE  (NUM     EQ205)/BOOK    ;;  20/37
#3
1 name/COURSE  (NUM     EQ205)/BOOK    ;;  20/37
#3:the index, the course, its last class, which it keeps
1 seek/COURSE  (NUM     EQ205)/CLASS   *L;;  20/33
#2
1 name/COURSE  (NUM     EQ205)/CLASS   *L;;  20/33
#7:the index, the course, its last class and its first, which does not keep its last student, and all three students
1 seek/COURSE  (NUM     EQ205)/CLASS   (ED      EQ01)/STUD    *L;;  20/21/24
#7
1 name/COURSE  (NUM     EQ205)/CLASS   (ED      EQ01)/STUD    *L;;  20/21/24
#4:the index, the course, its last class, and the first student of that
1 seek/COURSE  (NUM     EQ309)/CLASS   *L/STUD    ;;  39/52/53
#4
1 name/COURSE  (NUM     EQ309)/CLASS   *L/STUD    ;;  39/52/53
#4:GNP from the first class, where it begins, to the last child, which the course keeps
1 GU  /COURSE  (NUM     EQ205);;  20
1 GNP /CLASS   *L;;  20/33
#4
1 GU  /COURSE  (NUM     EQ205);;  20
1 GNP /BOOK    *L;;  20/38
#53/75:a walk comes to each of the 57 rows, four of which are in memory, to each of the twelve classes again behind its students, and to each course behind its classes and behind its books
1 GN  ;;  1,  1/2,  1/2/3,  1/2/4,  1/2/5,GA1/6,  1/6/7,  1/6/8,  1/6/9,GA1/10,  1/10/11,  1/10/12,  1/10/13,GA1/14,  1/14/15,  1/14/16,  1/14/17,GA1/18,  1/19
1 GN  ;;GA20,  20/21,  20/21/22,  20/21/23,  20/21/24,GA20/25,  20/25/26,  20/25/27,  20/25/28,GA20/29,  20/29/30,  20/29/31,  20/29/32,GA20/33,  20/33/34,  20/33/35,  20/33/36,GA20/37,  20/38
1 GN  ;;GA39,  39/40,  39/40/41,  39/40/42,  39/40/43,GA39/44,  39/44/45,  39/44/46,  39/44/47,GA39/48,  39/48/49,  39/48/50,  39/48/51,GA39/52,  39/52/53,  39/52/54,  39/52/55,GA39/56,  39/57,GB0
%W200;G:14:students are off the way to what is seen
1 read/54/55;;  54/55
1 read/56/57;;  56/57
#19/27:three courses, twelve classes and six books, two of which are in memory, and each course again behind its classes and behind its books
1 GN  ;;  1,  1/18,  1/19,GA20,  20/37,  20/38,GA39,  39/56,  39/57,GB0
%F64;G:1234:where each course and its rows have one block, a walk reads each block once; the last is in memory at first
1 read/46/50;;  46/50
#9/10
1 GN  ;;  1,  1/2,  1/3,GK1/4,  1/5,GA6,  6/7,  6/8,GK6/9,  6/10,GA11,  11/12,  11/13,GK11/14,  11/15
1 GN  ;;GA16,  16/17,  16/18,GK16/19,  16/20,GA21,  21/22,  21/23,GK21/24,  21/25,GA26,  26/27,  26/28,GK26/29,  26/30
1 GN  ;;GA31,  31/32,  31/33,GK31/34,  31/35,GA36,  36/37,  36/38,GK36/39,  36/40,GA41,  41/42,  41/43,GK41/44,  41/45
1 GN  ;;GA46,  46/47,  46/48,GK46/49,  46/50,GB0
%S64;G:1234:where each course and its rows have two blocks, a walk reads each block once; the last two are in memory at first
1 read/31/40;;  31/40
#6/8
1 GN  ;;  1,  1/2,  1/3,  1/4,  1/5,  1/6,  1/7,GK1/8,  1/9,  1/10,GA11,  11/12,  11/13,  11/14,  11/15,  11/16,  11/17,GK11/18,  11/19,  11/20,GA21,  21/22,  21/23,  21/24,  21/25,  21/26,  21/27,GK21/28,  21/29,  21/30
1 GN  ;;GA31,  31/32,  31/33,  31/34,  31/35,  31/36,  31/37,GK31/38,  31/39,  31/40,GB0
%E16;A:1234:a row goes in behind a twin that is known: at most two blocks are read, and two written
1 come/1/6;;  1/6
#2/4
1 ISRT/BOOK    ;GAUSS;  
#2/4
1 ISRT/COURSE  /BOOK    *L;HILBE;  
%K64;G:1:the twins, and blocks of the index, that are read to find the place of a row; the parent and none of these is in memory
1 read/6/7;;  6/7
1 read/8/1;;  8/1
#0:without key the parent keeps the last twin
1 inL6/1;40;  21
#4:or else all four are read
1 inL7/1;40;  25
#0
1 inF7/1;40;  0
#1:a key that ascends is behind the last twin, where that is kept
1 inL4/1;40;  13
#1
1 inF2/1;50;  5
#4
1 inL5/1;40;  17
#4:the last, and three twins from the first one on, up to the one before which the row goes
1 inL2/1;25;  3
#1
1 inF5/1;05;  0
#2:the index, and the root that follows
1 inF1/0;200;  1
#1
1 inF1/0;400;  26
%K64;G:1:by HERE no other twin is read where the one before it is kept
1 read/6/7;;  6/7
1 read/8/1;;  8/1
1 come/1/20;;  1/20
#0
1 inH6/1;20;  19";

/// How many accesses the calls of a part take behind others; none where one is answered otherwise than it says, or does not tell that an access failed.
fn accesses_of(alloc: Global, base: &Base, lists: [&[u8]; 2]) -> Option<u64> {
    let first = play_in(alloc, base, [lists[0], b""], WHOLE)?;
    let whole = play_in(alloc, base, lists, WHOLE)?;
    let failed = untold(alloc, base, lists, first.accesses, whole.accesses);
    if whole.right != Ok(true) || failed.is_some() {
        return None;
    }
    Some(whole.accesses.saturating_sub(first.accesses))
}

/// The first part of a list, from 1 on, that takes more accesses or fewer than it says, and how many it takes.
fn miscounted(alloc: Global, base: &Base, list: &[u8]) -> Option<(usize, u64)> {
    let (first, _) = cut(list, b'#');
    for (number, part) in list.split(is_part_end).enumerate().skip(1) {
        let (head, lines) = cut(part, b'\n');
        let (least, most) = cut(cut(head, b':').0, b'/');
        let least = u64::from(number_of(least));
        let most = least.max(u64::from(number_of(most)));
        let accesses = accesses_of(alloc, base, [first, lines]).unwrap_or(u64::MAX);
        if accesses < least || accesses > most {
            return Some((number, accesses));
        }
    }
    None
}

/// Calls and searches take as many accesses as they need, and each that fails is told.
#[test]
fn counts_accesses(rt: HostRuntime) {
    for (number, list) in COUNTED.split(is_list_end).enumerate() {
        let (base, lines) = begun(rt.alloc(), list).expect(&rt, "a volume");
        let wrong = miscounted(rt.alloc(), &base, lines);
        assert_eq!(rt; wrong, None, "list {number}");
    }
}
