//! Where a check looks first for an address.
use hd_check_blocks::{Directory, Place};
use std::alloc::Global;

/// Places from address 128 on, so many times one for each size that is not 0, so many bytes behind the one before.
fn places_of(alloc: Global, sizes: [u32; 3], count: u32) -> Option<Vec<Place>> {
    let mut places = Vec::new(alloc);
    let mut address: u32 = 128;
    for number in 0..count.saturating_mul(3) {
        let size = sizes[number as usize % 3];
        if size > 0 {
            places.push(Place { address, code: 1 }).ok()?;
            address = address.saturating_add(size);
        }
    }
    Some(places)
}

/// By how much a directory tells too low a number for the address of a place, at most; none where it tells a greater one of a place, or any of an address
/// behind all, or a number that no place has.
fn most_below(alloc: Global, places: &[Place]) -> Option<usize> {
    let directory = Directory::of(alloc, places).ok()?;
    if directory.near(128) > places.len() || directory.near(u32::MAX) > 0 {
        return None;
    }
    let mut most: usize = 0;
    for number in 0..places.len() {
        let told = directory.near(places[number].address);
        if told > number {
            return None;
        }
        most = most.max(number - told);
    }
    Some(most)
}

/// Sizes by turns, how many turns, and by how much a number is told too low at most. A grain has 8 bytes or few more, in which one place begins; only of two
/// places in each 100,016 bytes it has 4,096, and a stretch of 64 grains has up to three such pairs, of each of which one place is not counted.
const TURNS: [([u32; 3], u32, usize); 16] = [
    ([16, 0, 0], 1000, 0),
    ([24, 0, 0], 1000, 0),
    ([16, 64, 0], 1000, 0),
    ([16, 24, 40], 1000, 0),
    ([1024, 0, 0], 1000, 0),
    ([32_768, 0, 0], 1000, 0),
    ([16, 100_000, 0], 1000, 3),
    ([16, 0, 0], 0, 0),
    ([16, 0, 0], 1, 0),
    ([16, 0, 0], 2, 0),
    ([16, 0, 0], 3, 0),
    ([16, 0, 0], 4, 0),
    ([16, 0, 0], 5, 0),
    ([16, 0, 0], 6, 0),
    ([16, 0, 0], 7, 0),
    ([16, 0, 0], 8, 0),
];

#[test]
fn a_directory_tells_where_a_place_is(rt: HostRuntime) {
    for (sizes, count, most) in TURNS {
        let places = places_of(rt.alloc(), sizes, count).expect(&rt, "places");
        let told = most_below(rt.alloc(), &places).expect(&rt, "numbers up to those of places");
        assert!(rt; told <= most, "{sizes:?}, {count} times: {told}");
    }
}
