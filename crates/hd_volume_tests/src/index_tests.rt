//! Tests of the root index: its answers beside a map's, its blocks, and the accesses of single calls.

use crate::index::{Map, agree_at_all, agree_when_mixed, count_at_all, is_right, make, new_bytes};
use crate::text::{is_end, is_list_end, line_of};
use crate::trial::Trial;
use hd_dbd::{Dbd, Refused};
use hd_sample::{put, root_database};
use std::alloc::Global;
use std::collections::BTreeMap;

/// Enters so many keys of a length in an order, takes some out between, and compares the index with a map. Says its height, and how many blocks the volume
/// has; `None` where the two disagree.
fn mixed(alloc: Global, size: u32, key_length: u8, count: u32, step: u32) -> Option<[u32; 2]> {
    let dbd = root_database(alloc, size, key_length).ok()?;
    let mut trial = Trial::over(alloc, &dbd, Vec::new(alloc), 65536, u64::MAX).ok()?;
    let mut map = BTreeMap::new(alloc);
    if agree_when_mixed(&mut trial, &mut map, step, count) != Ok(true) {
        return None;
    }
    Some([trial.volume.height(), trial.volume.block_count()])
}

#[test]
fn agrees_with_a_map(rt: HostRuntime) {
    for step in [1, 9999, 7919] {
        let told = mixed(rt.alloc(), 2048, 3, 10_000, step);
        assert!(rt; told.is_some(), "by {step}");
    }
    let [_, blocks] = mixed(rt.alloc(), 128, 3, 4_000, 1).expect(&rt, "the map's answers");
    assert!(rt; blocks > 200, "{blocks} blocks");
}

/// The least block size of a database whose keys are so long: three entries fit behind the first 12 bytes, and it is a multiple of 8 from
/// 128 on.
fn least_size(key_length: u8) -> u32 {
    (12 + 3 * (u32::from(key_length) + 4))
        .next_multiple_of(8)
        .max(128)
}

/// Keys of a length that need three levels in blocks of a size: more than fill a top block of full blocks. Of one byte there are but 256.
fn three_levels_of(key_length: u8, size: u32) -> u32 {
    if key_length == 1 {
        return 256;
    }
    let room = size.saturating_sub(12).min(60_000) / (u32::from(key_length) + 4);
    room * room + room + 40
}

#[test]
fn keeps_keys_of_each_length(rt: HostRuntime) {
    for key_length in 1..=255u8 {
        let size = least_size(key_length);
        let smaller = root_database(rt.alloc(), size.saturating_sub(8), key_length);
        assert!(rt; smaller.is_err(), "{key_length}");
        let count = three_levels_of(key_length, size);
        for step in [1, 7919] {
            let told = mixed(rt.alloc(), size, key_length, count, step);
            let [height, _] = told.expect(&rt, "the map's answers");
            assert!(rt; height > 2 || key_length == 1, "{key_length} by {step}");
        }
    }
}

/// Lists of calls of an index. The first line of each says the size of blocks and the length of keys; a line of calls the first number, the step to the
/// next one, how many there are, and a modulus.
const LISTS: &[u8] = b"index 128 3:ascending keys fill the blocks of the sequence set
count=1
insert 0 1 1 999
count=2
insert 1 1 15 999
count=2
insert 16 1 1 999
count=4
insert 17 1 16 999
count=5
%index 128 3:an emptied block is free
insert 0 1 17 999
remove 0 1 16 999
least 0 0 1 1
remove 16 1 1 999
least 0 0 1 1
insert 0 1 1 999
least 0 0 1 1
count=4
%index 128 3:addresses are set, where there is a key
insert 0 1 300 999
set 1 2 300 999
find 0 1 600 999
height=3
%index 792 255:three long keys find room in a block
insert 0 7 20 20
find 0 1 20 20
> =7";

/// A list of more calls than a volume has blocks in hand: keys that come in falling order, and one that leaves.
const FALLING: &[u8] = b"index 128 3:keys in falling order
insert 400 400 400 401
remove 7 1 1 401
end";

/// Makes the calls of a list, of which the access after so many fails, and says the first line that is answered otherwise than it says, if there is one.
fn outcome_of(alloc: Global, list: &[u8], passes: u64) -> Result<Option<usize>, Refused> {
    let [_, size, key_length, _, _, _] = line_of(list, 0).numbers;
    let Ok(dbd) = root_database(alloc, size, (key_length % 256) as u8) else {
        return Err(Refused::Memory);
    };
    let mut trial = match Trial::over(alloc, &dbd, Vec::new(alloc), 65536, passes) {
        Ok(trial) => trial,
        Err((_, _, refused)) => return Err(refused),
    };
    let mut map = BTreeMap::new(alloc);
    for (number, text) in list.split(is_end).enumerate().skip(1) {
        if !is_right(&mut trial, &mut map, &line_of(text, 0))? {
            return Ok(Some(number));
        }
    }
    Ok(None)
}

#[test]
fn plays_lists(rt: HostRuntime) {
    for (number, list) in LISTS.split(is_list_end).enumerate() {
        let told = outcome_of(rt.alloc(), list, u64::MAX);
        assert!(rt; told == Ok(None), "list {number}");
    }
}

#[test]
fn says_device_of_each_refused_access(rt: HostRuntime) {
    let mut refused = 0;
    for passes in 0..2000u64 {
        let told = outcome_of(rt.alloc(), FALLING, passes);
        if told == Ok(None) {
            break;
        }
        assert!(rt; told == Err(Refused::Device), "after {passes} accesses");
        refused = passes + 1;
    }
    assert!(rt; refused > 20 && refused < 2000, "{refused} refused");
}

/// What a volume of version 2 and of a top index block with these bytes at its front finds, first the key 1, then the least key.
fn damaged(alloc: Global, dbd: &Dbd, front: &[u8]) -> Option<[Option<u32>; 2]> {
    let mut bytes = Vec::new(alloc);
    bytes.resize(256, 0).ok()?;
    put(&mut bytes, 0, b"HDVOLUME\0\x02\0\x80\0\0\0\x02\0\0\0\x10");
    put(&mut bytes, 39, b"\x01\0\0\0\x01");
    put(&mut bytes, 128, front);
    let mut trial = Trial::over(alloc, dbd, bytes, 16, u64::MAX).ok()?;
    let found = make(&mut trial, b'f', 1).ok()?;
    let next = make(&mut trial, b'n', 0).ok()?;
    Some([found, next])
}

#[test]
fn answers_over_a_damaged_index(rt: HostRuntime) {
    let dbd = root_database(rt.alloc(), 128, 3).expect(&rt, "a database");
    for (front, want) in [
        (b"\0\0\x02\0\0\0\0\0\0\0\0\x01", None),
        (b"\0\0\x02\0\0\0\0\0\0\0\0\x09", None),
        (b"\0\0\x02\0\xff\xff\0\0\0\0\0\0", Some(0)),
        (b"\0\0\x07\0\0\0\0\0\0\0\0\0", None),
    ] {
        assert!(rt; damaged(rt.alloc(), &dbd, front) == Some([None, want]));
    }
}

/// Makes calls with the keys of numbers, over the volume as it was left, and counts their accesses. Says the least and the greatest height that a call of each
/// sort came to; `None` where one is not as it should be.
fn heights_of(
    alloc: Global,
    dbd: &Dbd,
    start: Vec<u8>,
    map: &mut Map,
    calls: &[(u8, [u32; 4])],
) -> Option<[u32; 2]> {
    let mut bytes = start;
    let mut heights = [u32::MAX, 0];
    for (word, numbers) in calls {
        let (next, height) = count_at_all(alloc, dbd, bytes, map, *word, *numbers)?;
        bytes = next;
        heights = [heights[0].min(height), heights[1].max(height)];
    }
    Some(heights)
}

/// The least height that a call of each sort comes to over a new volume.
fn height_of(alloc: Global, size: u32, length: u8, calls: &[(u8, [u32; 4])]) -> Option<u32> {
    let dbd = root_database(alloc, size, length).ok()?;
    let bytes = new_bytes(alloc, &dbd)?;
    let mut map = BTreeMap::new(alloc);
    let [least, _] = heights_of(alloc, &dbd, bytes, &mut map, calls)?;
    Some(least)
}

#[test]
fn each_call_makes_a_few_accesses_a_level(rt: HostRuntime) {
    for (size, key_length, count, height) in [
        (128, 3, 1200u32, 3),
        (128, 34, 200, 5),
        (792, 255, 200, 5),
    ] {
        let last = count.saturating_sub(1);
        // in ascending, falling and mixed order; and out so that blocks are emptied from the left, from the right, or here and there
        for (step, back) in [
            (1, 1),
            (1, 7919),
            (7919, 1),
            (7919, 7907),
            (last, last),
            (7919, last),
        ] {
            let calls = [
                (b'i', [0, step, count, count]),
                (b'f', [0, 1, count, count]),
                (b'n', [0, 1, count, count]),
                (b'r', [0, back, count, count]),
            ];
            let told = height_of(rt.alloc(), size, key_length, &calls);
            assert!(rt; told.unwrap_or(0) >= height, "{step}, {back}");
        }
    }
}

#[test]
fn each_insert_between_two_keys_goes_down_twice(rt: HostRuntime) {
    for (size, key_length, count, room, height) in [
        (128, 3, 1200u32, 16u32, 3),
        (128, 34, 198, 3, 5),
        (792, 255, 198, 3, 5),
    ] {
        // so many keys fill a block; the one in the midst of each leaves, and comes again
        let midst = [room / 2, room, count / room.max(1), count];
        let calls = [(b'i', [0, 1, count, count]), (b'r', midst), (b'b', midst)];
        let told = height_of(rt.alloc(), size, key_length, &calls);
        assert!(rt; told.unwrap_or(0) >= height);
    }
}

/// As many keys of three bytes find room in an index block of 2,048: 12 + 290 * (3 + 4) = 2,042.
const ROOM: u32 = 290;

/// Blocks of the sequence set that a million keys fill.
const BLOCKS: u32 = 3449;

/// Above each number of the large index.
const ALL: u32 = 16_777_216;

/// Calls over the large index, whose keys are even numbers: keys that are spread over it, odd ones too, and one above all; the last keys of each tenth block,
/// which leave, and those behind them; a block that is emptied; and new keys in the midst of each twentieth block.
const LARGE: [(u8, [u32; 4]); 8] = [
    (b'f', [0, 2003, 1000, ALL]),
    (b'f', [2 * ROOM * BLOCKS, 0, 1, ALL]),
    (b'n', [0, 2003, 1000, ALL]),
    (b'n', [2 * ROOM * BLOCKS, 0, 1, ALL]),
    (b'r', [20 * ROOM - 2, 20 * ROOM, 339, ALL]),
    (b'n', [20 * ROOM - 2, 20 * ROOM, 339, ALL]),
    (b'r', [2 * ROOM * 1234, 2, ROOM, ALL]),
    (b'i', [40 * ROOM + 3, 40 * ROOM + 2, 169, ALL]),
];

/// Enters the keys of the large index, and counts the accesses of the first two of each block. Gives the volume's bytes.
fn large_index(alloc: Global, dbd: &Dbd, map: &mut Map) -> Option<Vec<u8>> {
    let mut bytes = new_bytes(alloc, dbd)?;
    for block in 0..BLOCKS {
        let first = 2 * ROOM * block;
        let (next, _) = count_at_all(alloc, dbd, bytes, map, b'i', [first, 2, 2, ALL])?;
        let mut trial = Trial::over(alloc, dbd, next, 65536, u64::MAX).ok()?;
        let rest = [first + 4, 2, ROOM - 2, ALL];
        let agreed = agree_at_all(&mut trial, map, b'i', rest);
        if agreed != Ok(true) || trial.volume.flush().is_err() {
            return None;
        }
        bytes = trial.close().0;
    }
    Some(bytes)
}

#[test]
fn a_million_keys_have_three_levels(rt: HostRuntime) {
    let alloc = rt.alloc();
    let dbd = root_database(alloc, 2048, 3).expect(&rt, "a database");
    let mut map = BTreeMap::new(alloc);
    let bytes = large_index(alloc, &dbd, &mut map).expect(&rt, "an index");
    assert!(rt; heights_of(alloc, &dbd, bytes, &mut map, &LARGE) == Some([3, 3]));
}

/// What so many keys in ascending order come to in a new volume: the height of the index, the volume's blocks, and the accesses made for it.
fn ascending(alloc: Global, dbd: &Dbd, count: u32) -> Option<(u32, u32, u64)> {
    let mut trial = Trial::over(alloc, dbd, Vec::new(alloc), 65536, u64::MAX).ok()?;
    let mut map = BTreeMap::new(alloc);
    if agree_at_all(&mut trial, &mut map, b'i', [0, 1, count, ALL]) != Ok(true) {
        return None;
    }
    let (height, blocks) = (trial.volume.height(), trial.volume.block_count());
    Some((height, blocks, trial.close().1))
}

/// The most accesses that one key more made of 150 to 210, where it took no block, and the height at the end.
fn most_of_one_more(alloc: Global, size: u32, key_length: u8) -> Option<(u64, u32)> {
    let dbd = root_database(alloc, size, key_length).ok()?;
    let mut before = ascending(alloc, &dbd, 150)?;
    let mut most = 0;
    for count in 151..211 {
        let own = ascending(alloc, &dbd, count)?;
        if own.1 == before.1 {
            most = most.max(own.2.saturating_sub(before.2));
        }
        before = own;
    }
    Some((most, before.0))
}

/// A key above all others reads the last block of the sequence set, and goes down once, which ends there again; as many blocks that were changed may
/// have to be written for these. With a way down before it would make more.
#[test]
fn a_key_above_all_others_goes_down_once(rt: HostRuntime) {
    for (size, key_length) in [(128, 34), (792, 255)] {
        let told = most_of_one_more(rt.alloc(), size, key_length);
        let (most, height) = told.expect(&rt, "an index");
        assert!(rt; height >= 5, "{height} levels");
        assert!(rt;
            most > 0 && most <= 2 * (u64::from(height) + 1),
            "{most} accesses"
        );
    }
}
