ghost use Rattle.std.specs.Prelude.{◌≡◌, ◌+◌, ◌*◌, ◌<◌, ◌≤◌, true, vec_len, IsTrue, IfOk, OnOk, length};
ghost use Rattle.hd_dbd.specs.Refusals.{OnlyDevice};
ghost use Rattle.hd_bytes.specs.Blocks.{block_of};
ghost use Rattle.hd_stores.specs.Stores.{CountsDevice, StaysSound};
ghost use Rattle.hd_stores.specs.Runs.{IsReadAhead};

use crate::run::{Run, copy_out, fill, forget, no_run};
use crate::store::{BlockStore, CommitStore, RunStore};
use hd_dbd::Refused;
use std::alloc::Global;
use std::marker::Model;

/// A store that reads ahead: where blocks are asked for one after the other, from block 0 on, it reads several at once, two at first and each time
/// twice as many, up to 32,768 bytes. A block that comes next is copied from these. As long as the store below is sound, all answers and all bytes
/// are its own.
///
/// Where an access fails that would have read several blocks, the read that was asked for is refused, though its own block might be read.
#[derive(Drop)]
pub struct ReadAhead<S: RunStore> {
    store: S,
    run: Run,
    next: u32,
    last: u32,
}

impl<S: RunStore> Model for ReadAhead<S> {
    ghost use Rattle.std.specs.Prelude.{vec_len};
    ghost use Rattle.hd_stores.specs.Runs.{IsReadAhead};

    ghost Value = { S };

    ghost view = { λ a. a.store };

    ghost invariant = { λ a. IsReadAhead (S.size a.store) (S.contents a.store) (S.is_sound a.store) a.run };
}

impl<S: RunStore> ReadAhead<S> {
    /// A store over another. Where there is no memory it reads nothing ahead.
    pub fn new(alloc: Global, store: S) -> ReadAhead<S>
        ensures { result ≡ store }
    {
        let _size = store.block_size();
        ReadAhead {
            store,
            run: no_run(alloc),
            next: 0,
            last: 1,
        }
    }

    /// The store below.
    pub fn into_store(self) -> S
        ensures { result ≡ self }
    {
        self.store
    }
}

/// How many blocks are read from `n` on: where it comes next, twice as many as the last time, as far as they are there and have room; else one.
fn count_from<S: RunStore>(store: &S, run: &Run, n: u32, next: u32, last: u32) -> u32
    ensures fits { 1 < result → result * S.size store.now ≤ vec_len run.now.bytes }
    ensures there { 1 < result → IsTrue (S.is_sound store.now) → n * S.size store.now + result * S.size store.now ≤ length (S.contents store.now) }
{
    if n != next {
        return 1;
    }
    let size = store.block_size();
    let room = (run.bytes.len() / size) as u64;
    let left = (store.length() / size as u64).saturating_sub(u64::from(n));
    let wanted = u64::from(last.saturating_mul(2));
    wanted.min(room).min(left).max(1) as u32
}

/// Reads block `n` and those behind it at once, where they are more than one, and says whether it did. `Device` is a failed access.
fn reads_ahead<S: RunStore>(
    store: &mut S,
    run: &mut Run,
    n: u32,
    count: u32,
    buf: &mut [u8],
) -> Result<bool, Refused>
    requires block { length buf.old ≡ S.size store.old }
    requires kept { IsReadAhead (S.size store.old) (S.contents store.old) (S.is_sound store.old) run.old }
    requires fits { 1 < count → count * S.size store.old ≤ vec_len run.old.bytes }
    requires there { 1 < count → IsTrue (S.is_sound store.old) → n * S.size store.old + count * S.size store.old ≤ length (S.contents store.old) }
    ensures value { IfOk result (λ b. b ≡ true → IsTrue (S.is_sound store.old) → buf.new ≡ block_of (S.size store.old) (S.contents store.old) n) }
    ensures len { length buf.new ≡ length buf.old }
    ensures ahead { IsReadAhead (S.size store.new) (S.contents store.new) (S.is_sound store.new) run.new }
    ensures kept { OnOk result (IsTrue (S.is_sound store.old) → S.contents store.new ≡ S.contents store.old) }
    ensures refusal { OnlyDevice result }
    ensures counts { CountsDevice result (S.failures store.old) (S.failures store.new) }
    ensures sound { StaysSound result (S.is_sound store.old) (S.is_sound store.new) }
    ensures committed { S.committed store.new ≡ S.committed store.old }
    ensures size { S.size store.new ≡ S.size store.old }
    ensures room { S.room store.new ≡ S.room store.old }
{
    if count <= 1 {
        return Ok(false);
    }
    fill(store, run, n, count)?;
    Ok(copy_out(run, n, buf))
}

impl<S: RunStore> BlockStore for ReadAhead<S> {
    ghost size = { λ s. S.size s };

    ghost contents = { λ s. S.contents s };

    ghost is_sound = { λ s. S.is_sound s };

    ghost failures = { λ s. S.failures s };

    ghost room = { λ s. S.room s };

    ghost committed = { λ s. S.committed s };

    fn block_size(&self) -> usize {
        self.store.block_size()
    }

    fn length(&self) -> u64 {
        self.store.length()
    }

    fn read(&mut self, n: u32, buf: &mut [u8]) -> Result<(), Refused> {
        let next = self.next;
        self.next = n.saturating_add(1);
        if copy_out(&self.run, n, buf) {
            return Ok(());
        }
        let count = count_from(&self.store, &self.run, n, next, self.last);
        self.last = count;
        if reads_ahead(&mut self.store, &mut self.run, n, count, buf)? {
            return Ok(());
        }
        self.store.read(n, buf)
    }

    fn write(&mut self, n: u32, bytes: &[u8]) -> Result<(), Refused> {
        forget(&mut self.run, n);
        self.store.write(n, bytes)
    }

    fn reserve(&mut self, blocks: u32) -> Result<(), Refused> {
        self.store.reserve(blocks)
    }

    fn grow(&mut self, blocks: u32) -> Result<(), Refused> {
        self.store.grow(blocks)
    }
}

impl<S: RunStore + CommitStore> CommitStore for ReadAhead<S> {
    fn commit(&mut self) -> Result<(), Refused> {
        self.store.commit()
    }
}
