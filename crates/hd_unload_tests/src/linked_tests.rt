//! Checks of volumes of which what is changed is still in memory.
ghost use Rattle.std.specs.Prelude.{◌≡◌, false};
ghost use Rattle.hd_dbd.specs.Facts.{stored_sizes};

use crate::trial::store_of;
use hd_check::{CheckFault, Fault, Line, Passed, check};
use hd_dbd::{Dbd, Refused};
use hd_forest::{Path, link, unlink_span};
use hd_index::insert;
use hd_sample::database;
use hd_stores::BlockStore;
use hd_unload::root_key;
use hd_volume::Volume;
use std::alloc::Global;

/// Links a root (0), and a class below it (1), enters the root's key (2), and takes the class out (3). `Area` says that a row does not fit its type.
fn take_step<S: BlockStore>(volume: &mut Volume<S>, dbd: &Dbd, step: u8) -> Result<(), Refused>
    requires unsound { volume.old.is_sound ≡ false }
    requires size { volume.old.size ≡ dbd.now.block_size }
    requires sizes { volume.old.sizes ≡ stored_sizes dbd.now.types }
    ensures unsound { volume.new.is_sound ≡ false }
    ensures size { volume.new.size ≡ volume.old.size }
    ensures sizes { volume.new.sizes ≡ volume.old.sizes }
{
    let (course, class) = (b"101ALGEB".as_slice(), b"01AB".as_slice());
    if !dbd.row_fits(1, course) {
        return Err(Refused::Area);
    }
    if !dbd.row_fits(2, class) {
        return Err(Refused::Area);
    }
    match step {
        0 => link(volume, dbd, 0, 0, 1, course)?,
        1 => link(volume, dbd, 136, 0, 2, class)?,
        2 => {
            insert(volume, dbd, root_key(dbd, course), 136)?;
            0
        }
        _ => {
            let mut path = Path::new();
            path.step(1, 136);
            path.step(2, 176);
            unlink_span(volume, dbd, &path)?;
            0
        }
    };
    Ok(())
}

/// What a check says of a new volume in which a root and a class are linked, and then one step or both steps more are taken; none where a step is refused.
fn check_of_linked(alloc: Global, dbd: &Dbd, more: u8) -> Option<Result<Passed, CheckFault>> {
    let store = store_of(dbd.block_size() as usize, Vec::new(alloc), u64::MAX);
    let Ok(mut volume) = Volume::create(alloc, store, dbd, 16) else {
        return None;
    };
    take_step(&mut volume, dbd, 0).ok()?;
    take_step(&mut volume, dbd, 1).ok()?;
    if more > 0 {
        take_step(&mut volume, dbd, 2).ok()?;
    }
    if more > 1 {
        take_step(&mut volume, dbd, 3).ok()?;
    }
    Some(check(alloc, &mut volume, dbd))
}

#[test]
fn a_volume_passes_once_its_root_is_entered(rt: HostRuntime) {
    let alloc = rt.alloc();
    let dbd = database(alloc).expect(&rt, "a database");
    let missing = CheckFault::Fault(Fault {
        line: Line::NoEntry,
        address: 136,
        other: 0,
    });
    let mut passed = Passed {
        blocks: 3,
        segments: 2,
        roots: 1,
    };
    assert_eq!(rt; check_of_linked(alloc, &dbd, 0), Some(Err(missing)));
    assert_eq!(rt; check_of_linked(alloc, &dbd, 1), Some(Ok(passed)));
    passed.segments = 1;
    assert_eq!(rt; check_of_linked(alloc, &dbd, 2), Some(Ok(passed)));
}
