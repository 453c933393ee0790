//! What is done over a disk by a journal, in steps, and what stands on the disk then.
ghost use Rattle.std.specs.Prelude.{◌≡◌, ◌≤◌, ◌<◌, length, true, IsTrue, IfOk};
ghost use Rattle.hd_bytes.specs.Blocks.{HasBlock};

use crate::torn_disk::TornDisk;
use hd_dbd::Refused;
use hd_journal::{Journaled, Unopened, is_open};
use hd_stores::{BlockStore, CommitStore, RunStore};
use std::alloc::Global;
use std::marker::Brand;
use std::sync::ledger::{Blank, Ledger};
use std::test::Fail;

/// The bytes of a block.
pub const SIZE: usize = 16;

/// Whether a store has block `n`.
fn has_block<S: BlockStore>(store: &S, n: u32) -> bool
    ensures there { result ≡ true → IsTrue (S.is_sound store.now) → HasBlock (S.size store.now) (S.contents store.now) n }
{
    let size = store.block_size() as u64;
    u64::from(n) * size + size <= store.length()
}

/// So many equal bytes.
fn bytes_of(alloc: Global, byte: u8, count: usize) -> Result<Vec<u8>, Refused>
    ensures { IfOk result (λ v. length v.items ≡ count) }
{
    let mut bytes = Vec::new(alloc);
    if bytes.resize(count, byte).is_err() {
        return Err(Refused::Memory);
    }
    Ok(bytes)
}

/// Writes block `n` full of a byte.
fn fill<S: BlockStore>(alloc: Global, store: &mut S, n: u32, byte: u8) -> Result<(), Refused> {
    let bytes = bytes_of(alloc, byte, store.block_size())?;
    if !has_block(store, n) {
        return Err(Refused::Broken);
    }
    store.write(n, &bytes)
}

/// The first byte of block `n`, or 255 where its bytes differ.
fn byte_of<S: BlockStore>(alloc: Global, store: &mut S, n: u32) -> Result<u8, Refused> {
    let mut bytes = bytes_of(alloc, 0, store.block_size())?;
    if !has_block(store, n) {
        return Err(Refused::Broken);
    }
    store.read(n, &mut bytes)?;
    let first = bytes.first().copied().unwrap_or(255);
    for byte in &bytes {
        if *byte != first {
            return Ok(255);
        }
    }
    Ok(first)
}

/// Adds to a list the byte of each block.
fn list<S: BlockStore>(alloc: Global, store: &mut S, told: &mut Vec<u8>) -> Result<(), Refused> {
    for n in 0..99 {
        if !has_block(store, n) {
            break;
        }
        let byte = byte_of(alloc, store, n)?;
        let _ = told.push(byte);
    }
    Ok(())
}

/// Adds to a list all bytes from block `n` on, which are read at once.
fn read_on<S: RunStore>(
    alloc: Global,
    store: &mut S,
    n: u32,
    told: &mut Vec<u8>,
) -> Result<(), Refused> {
    let start = u64::from(n) * store.block_size() as u64;
    let length = store.length();
    if start > length || length > 1000 {
        return Err(Refused::Broken);
    }
    let mut bytes = bytes_of(alloc, 7, (length - start) as usize)?;
    store.read_run(n, &mut bytes)?;
    let _ = told.extend_from_slice(&bytes);
    Ok(())
}

/// Adds to a list how many syncs there were, how many writes to the log, and whether the log counts.
fn count(disk: &TornDisk, told: &mut Vec<u8>) {
    let is_counted = is_open(disk) == Ok(true);
    let counts = [
        (disk.syncs & 255) as u8,
        (disk.log_writes & 255) as u8,
        u8::from(is_counted),
    ];
    let _ = told.extend_from_slice(&counts);
}

/// Takes a step of three bytes, the first of which says what is done: `w` writes a block, whose number is the digit, full of the third; `g` grows by so many;
/// `c` commits, `s` settles, and `b` goes back to the last commit; `l` lists the bytes of all blocks, `r` what is read from a block on, `#` counts, `v` the
/// volume's own byte at the front of a block, and `m` makes a mark.
fn take_step<L: Ledger>(
    alloc: Global,
    store: &mut Journaled<TornDisk, L>,
    step: &[u8],
    told: &mut Vec<u8>,
) -> Result<(), Refused> {
    let [verb, digit, byte] = step else {
        return Ok(());
    };
    let n = u32::from(digit.wrapping_sub(b'0'));
    match verb {
        b'w' => return fill(alloc, store, n, *byte),
        b'g' => return store.grow(n),
        b'c' => return store.commit(),
        b's' => return store.settle(),
        b'l' => return list(alloc, store, told),
        b'r' => return read_on(alloc, store, n, told),
        b'b' => store.roll_back(),
        b'#' => count(store.disk(), told),
        b'v' => {
            let place = n as usize * SIZE;
            let _ = told.push(store.disk().volume.now.get(place).copied().unwrap_or(0));
        }
        _ => {
            let _ = told.push(b'm');
        }
    }
    Ok(())
}

/// What a step answers, as a letter.
fn letter_of(answer: Result<(), Refused>) -> u8 {
    match answer {
        Ok(()) => b'.',
        Err(Refused::Device) => b'd',
        Err(_) => b'?',
    }
}

/// Takes steps up to the first that is refused; the answer to one whose third byte is `?` is told, and others follow.
fn take_steps<L: Ledger>(
    alloc: Global,
    store: &mut Journaled<TornDisk, L>,
    steps: &[u8],
    told: &mut Vec<u8>,
) {
    for step in steps.chunks(3) {
        let answer = take_step(alloc, store, step, told);
        if step.get(2) == Some(&b'?') {
            let _ = told.push(letter_of(answer));
        } else if answer.is_err() {
            return;
        }
    }
}

/// Opens a disk of blocks of a size, which may stop meanwhile, and takes steps. What they tell is added to a list; why there is no journal, if it is not opened.
fn play<L: Ledger>(
    alloc: Global,
    disk: TornDisk,
    size: u32,
    blank: Blank,
    steps: &[u8],
    told: &mut Vec<u8>,
) -> (TornDisk, Option<Unopened>)
    requires size { (16 ≤ size) × (size ≤ 32768) }
    requires name { blank.name ≡ L.name }
    requires parts { blank.parts ≡ L.parts }
    requires share { 0 < blank.parts }
{
    match Journaled::<TornDisk, L>::open(alloc, disk, size, blank) {
        Ok(mut store) => {
            take_steps(alloc, &mut store, steps, told);
            (store.into_disk(), None)
        }
        Err((disk, unopened)) => (disk, Some(unopened)),
    }
}

/// The same, with failed accesses counted in a ledger of the call's own.
pub fn play_once(
    alloc: Global,
    disk: TornDisk,
    size: u32,
    steps: &[u8],
    told: &mut Vec<u8>,
) -> (TornDisk, Option<Unopened>)
    requires size { (16 ≤ size) × (size ≤ 32768) }
{
    play::<Brand>(alloc, disk, size, Blank::new(1), steps, told)
}

/// Opens a disk and lists its blocks.
pub fn look_once(
    alloc: Global,
    disk: TornDisk,
    told: &mut Vec<u8>,
) -> (TornDisk, Option<Unopened>) {
    play_once(alloc, disk, 16, b"l..", told)
}

/// Whether these are blocks of so many bytes each, but for the first.
pub fn has_bytes(volume: &[u8], stage: &[u8]) -> bool {
    for (i, byte) in volume.iter().enumerate() {
        if i > 0 && stage.get(i / SIZE) != Some(byte) {
            return false;
        }
    }
    volume.len() / SIZE == stage.len()
}

/// Three blocks of 100, 101 and 102.
pub const THREE_BLOCKS: &[u8; 48] = b"ddddddddddddddddeeeeeeeeeeeeeeeeffffffffffffffff";

/// A disk that stands behind its second commit, with its gate open.
pub fn committed(alloc: Global) -> Result<TornDisk, Fail> {
    let disk = TornDisk::over(alloc, &[], THREE_BLOCKS, 1000)?;
    let mut told = Vec::new(alloc);
    let (disk, _) = play_once(alloc, disk, 16, b"w1\tc..", &mut told);
    Ok(disk)
}

/// Changes a byte.
pub fn change(bytes: &mut Vec<u8>, place: usize, byte: u8) {
    if let Some(at) = bytes.get_mut(place) {
        *at = byte;
    }
}
