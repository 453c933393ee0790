//! Logs by their bytes.

use crate::disks::{THREE_BLOCKS, change, committed, has_bytes, look_once};
use crate::torn_disk::TornDisk;
use hd_journal::Unopened;
use std::test::Fail;

/// The head of a log whose first commit has a frame of block 1 and one of block 0 behind it, over a volume of 48 bytes.
const HEAD: &[u8; 51] =
    b"\x01HDVOLLOG\0\x02\0\0\0\x10\0\0\0\x02\0\0\0\0\0\0\0\x30\0\0\0\0\0\0\0\x30\0\0\0\0\0\0\0\x03\0\0\0\0\0\0\0\x05";

#[test]
fn writes_a_log_byte_by_byte(rt: HostRuntime) -> Result<(), Fail> {
    let disk = committed(rt.alloc())?;
    let log = disk.log.now.as_slice();
    assert!(rt; log.get(..51) == Some(HEAD.as_slice()));
    assert!(rt; log.get(51..56) == Some(b"\0\0\0\x01\x09".as_slice()));
    assert!(rt; log.get(71..76) == Some(b"\0\0\0\0d".as_slice()));
    assert!(rt; log.get(91..96) == Some(b"\xff\xff\xff\xff\0".as_slice()));
    assert!(rt; log.len() == 111);
    Ok(())
}

/// A log that counts is refused beside another volume, and where it is of another version, with nothing written.
#[test]
fn refuses_the_log_of_another(rt: HostRuntime) -> Result<(), Fail> {
    let alloc = rt.alloc();
    let mut none = Vec::new(alloc);
    let mut disk = committed(alloc)?;
    disk.number = 6;
    let (mut disk, unopened) = look_once(alloc, disk, &mut none);
    assert!(rt; unopened == Some(Unopened::OtherVolume));
    assert!(rt; disk.volume.now.get(16) == Some(&101));
    assert!(rt; disk.log.now.first() == Some(&1));
    disk.number = 5;
    change(&mut disk.log.now, 10, 1);
    let (mut disk, unopened) = look_once(alloc, disk, &mut none);
    assert!(rt; unopened == Some(Unopened::OtherVersion));
    assert!(rt; disk.volume.now.get(16) == Some(&101));
    assert!(rt; none.is_empty());
    change(&mut disk.log.now, 10, 2);
    let (_, unopened) = look_once(alloc, disk, &mut none);
    assert!(rt; unopened.is_none());
    assert!(rt; none.as_slice() == [100, 9, 102].as_slice());
    Ok(())
}

/// Without its mark, or with sizes that do not fit, it is no log.
#[test]
fn takes_other_bytes_for_no_log(rt: HostRuntime) -> Result<(), Fail> {
    let alloc = rt.alloc();
    for place in [0usize, 1, 8, 11, 15, 19] {
        let mut disk = committed(alloc)?;
        change(&mut disk.log.now, place, 77);
        let mut found = Vec::new(alloc);
        let (disk, unopened) = look_once(alloc, disk, &mut found);
        assert!(rt; unopened.is_none());
        assert!(rt; found.as_slice() == [100, 101, 102].as_slice());
        assert!(rt; disk.log.now.first() != Some(&1));
    }
    Ok(())
}

/// The slots behind that head: the frames of its commit, and two commits more, of a frame each, the second of which lengthens the image by a block.
/// The gate behind them is shut.
const SLOTS: [&[u8; 20]; 7] = [
    b"\0\0\0\x01\t\t\t\t\t\t\t\t\t\t\t\t\t\t\t\t",
    b"\0\0\0\0dddddddddddddddd",
    b"\xff\xff\xff\xff\x01\0\0\0\x01\0\0\0\0\0\0\0\x30abc",
    b"\0\0\0\x02gggggggggggggggg",
    b"\xff\xff\xff\xff\x01\0\0\0\x01\0\0\0\0\0\0\0\x40abc",
    b"\0\0\0\x03hhhhhhhhhhhhhhhh",
    b"\xff\xff\xff\xff\0\0\0\0\0\0\0\0\0\0\0\0\0\0\0\0",
];

/// So many bytes of that log, a place whose byte is changed to another, and the blocks that it then stands for.
const LOGS: [(usize, usize, u8, &[u8]); 11] = [
    (191, 0, 1, b"d\tgh"),
    // it ends behind its last frame, or within it
    (171, 0, 1, b"d\tgh"),
    (170, 0, 1, b"d\tg"),
    // a gate is shut
    (191, 135, 0, b"d\tg"),
    (191, 95, 77, b"d\tf"),
    // a gate's slot has another number
    (191, 91, 0, b"d\tf"),
    // the image is shorter than the one before, or longer than blocks have numbers
    (191, 147, 0x2f, b"d\tg"),
    (191, 143, 16, b"d\tg"),
    // one of the frames is a gate, or is not there
    (191, 139, 2, b"d\tgh"),
    (191, 139, 3, b"d\tg"),
    // the log's gate is shut
    (191, 0, 0, b"def"),
];

#[test]
fn reads_logs_of_several_commits(rt: HostRuntime) -> Result<(), Fail> {
    let alloc = rt.alloc();
    for (len, place, byte, blocks) in LOGS {
        let mut bytes = Vec::new(alloc);
        bytes.extend_from_slice(HEAD)?;
        for slot in &SLOTS {
            bytes.extend_from_slice(*slot)?;
        }
        bytes.truncate(len);
        change(&mut bytes, place, byte);
        let disk = TornDisk::over(alloc, &bytes, THREE_BLOCKS, 1000)?;
        let mut found = Vec::new(alloc);
        let (disk, unopened) = look_once(alloc, disk, &mut found);
        assert!(rt; unopened.is_none());
        assert!(rt; found.as_slice() == blocks);
        assert!(rt; has_bytes(&disk.volume.now, blocks));
    }
    Ok(())
}
