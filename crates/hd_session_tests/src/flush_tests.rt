//! A flush and then the close of a session over a new volume, whose header is not yet in the store.

use crate::sources::{LOADER, SAMPLE};
use crate::stores::Sparing;
use hd_dbd::Refused;
use hd_gen::{read_dbd, read_psb};
use hd_session::Session;
use hd_stores::{BlockStore, FuseStore};
use hd_volume::Volume;
use std::alloc::Global;

/// What a flush and a close answer.
type Answers = (Result<(), Refused>, Result<(), Refused>);

/// What a flush and then the close answer in a session whose store is a fuse that passes so many accesses, and the bytes that are left. `None` where the
/// session is not opened.
fn flushed(alloc: Global, passes: u64) -> Option<(Answers, Vec<u8>)> {
    let dbd = read_dbd(alloc, SAMPLE).ok()?;
    let psb = read_psb(alloc, LOADER, &dbd).ok()?;
    let store = FuseStore::new(Sparing::new(alloc, Vec::new(alloc), u32::MAX), passes);
    if !psb.matches(&dbd) || store.block_size() != dbd.block_size() as usize {
        return None;
    }
    let volume = Volume::create(alloc, store, &dbd, 16).ok()?;
    let mut session = Session::open(alloc, volume, &dbd, &psb).ok()?;
    let answer = session.flush();
    let (store, closed) = session.close();
    Some(((answer, closed), store.into_inner().bytes))
}

/// The header of a volume of one block, of 16 at most.
const HEADER: &[u8] = b"HDVOLUME\0\x03\0\x80\0\0\0\x01\0\0\0\x10EDU     ";

#[test]
fn is_broken_after_a_failed_flush(rt: HostRuntime) {
    let mut broken = 0u32;
    for passes in 0..20 {
        if let Some((answers, bytes)) = flushed(rt.alloc(), passes) {
            if answers == (Ok(()), Ok(())) {
                assert_eq!(rt; bytes.get(..28), Some(HEADER));
                assert_eq!(rt; bytes.get(28..), Some([0; 100].as_slice()));
                assert_eq!(rt; broken, 1, "the header is one write");
            } else {
                assert_eq!(rt; answers, (Err(Refused::Device), Err(Refused::Broken)));
                assert_eq!(rt; bytes.as_slice(), [0; 128].as_slice());
                broken = broken.saturating_add(1);
            }
        }
    }
    assert_eq!(rt; broken, 1);
}
