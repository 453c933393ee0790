ghost use Rattle.std.specs.Prelude.{◌<◌, ◌≡◌, ◌+◌, ◌-◌, ◌*◌, ◌≤◌, ◌&&◌, not, true, false, length, Err, IfErr, OnOk, IsTrue};
ghost use Rattle.hd_dbd.specs.Refusals.{OnlyDevice, OnlyMemory};
ghost use Rattle.hd_bytes.specs.Blocks.{grown, HasBlock};
ghost use Rattle.hd_stores.specs.Fuses.{fails_next, failed, after_access, Burns, ReadsBlock, ReadsRun, WritesBlock};
ghost use Rattle.hd_stores.specs.Stores.{CountsDevice, StaysSound, RefusesGrowth};

use crate::store::{BlockStore, RunStore};
use hd_dbd::Refused;
use std::marker::Model;

/// A store that passes so many accesses on to another, fails the next one, and passes all later ones that are of a block
/// which is there.
///
/// An access is a `read`, a `write` or a `grow`. The one that fails leaves the store below as it was. After it a
/// `read` or a `write` of a block that is not there answers `Ok` and reaches nothing.
#[derive(Drop)]
pub struct FuseStore<S: BlockStore> {
    inner: S,
    passes: u64,
    is_blown: bool,
    accesses: u64,
}

impl<S: BlockStore> Model for FuseStore<S> {
    ghost use Rattle.hd_stores.specs.Fuses.{Fused};

    ghost Value = { Fused S };

    ghost view = { λ f. record { inner = f.inner; passes = f.passes; is_blown = f.is_blown; accesses = f.accesses } };
}

impl<S: BlockStore> FuseStore<S> {
    /// A fuse over `inner` that passes `passes` accesses before the one that fails.
    pub fn new(inner: S, passes: u64) -> FuseStore<S>
        ensures { result ≡ record { inner = inner; passes = passes; is_blown = false; accesses = 0 } }
    {
        FuseStore {
            inner,
            passes,
            is_blown: false,
            accesses: 0,
        }
    }

    /// How many accesses came, the one that failed among them, at most to `u64::MAX`.
    pub fn accesses(&self) -> u64
        ensures { result ≡ self.now.accesses }
    {
        self.accesses
    }

    /// The store below.
    pub fn into_inner(self) -> S
        ensures { result ≡ self.inner }
    {
        self.inner
    }

    /// Counts an access. `Device` says that it is the one that fails.
    fn spend(&mut self) -> Result<(), Refused>
        ensures fuse { self.new ≡ after_access self.old self.old.inner }
        ensures inner { self.new.inner ≡ self.old.inner }
        ensures ok { fails_next self.old ≡ false → result ≡ Ok tt }
        ensures blown { OnOk result (self.new.is_blown ≡ self.old.is_blown) }
        ensures err { fails_next self.old ≡ true → result ≡ Err Refused.Device }
    {
        self.accesses = self.accesses.saturating_add(1);
        if self.passes > 0 {
            self.passes -= 1;
            return Ok(());
        }
        if self.is_blown {
            return Ok(());
        }
        self.is_blown = true;
        Err(Refused::Device)
    }

    /// An access to block `n` may reach the store below. After the failure callers are not asked for a block that is there.
    fn may_pass(&self, n: u32) -> bool
        ensures passes { self.now.is_blown ≡ false → result ≡ true }
        ensures there { result ≡ true → self.now.is_blown ≡ true → IsTrue (S.is_sound self.now.inner) → HasBlock (S.size self.now.inner) (S.contents self.now.inner) n }
        ensures finds { IsTrue (S.is_sound self.now.inner) → HasBlock (S.size self.now.inner) (S.contents self.now.inner) n → result ≡ true }
    {
        let size = self.inner.block_size() as u64;
        !self.is_blown || u64::from(n) * size + size <= self.inner.length()
    }
}

impl<S: BlockStore> BlockStore for FuseStore<S> {
    ghost size = { λ f. S.size f.inner };

    ghost contents = { λ f. S.contents f.inner };

    ghost is_sound = { λ f. S.is_sound f.inner && not f.is_blown };

    ghost failures = { λ f. S.failures f.inner + failed f };

    ghost room = { λ f. S.room f.inner };

    ghost committed = { λ f. S.committed f.inner };

    fn block_size(&self) -> usize {
        self.inner.block_size()
    }

    fn length(&self) -> u64
        ensures value { IsTrue (S.is_sound self.now.inner) → result ≡ length (S.contents self.now.inner) }
        ensures sound { IsTrue (S.is_sound self.now.inner && not self.now.is_blown) → result ≡ length (S.contents self.now.inner) }
    {
        self.inner.length()
    }

    fn read(&mut self, n: u32, buf: &mut [u8]) -> Result<(), Refused>
        requires whole { length buf.old ≡ S.size self.old.inner }
        requires there { IsTrue (S.is_sound self.old.inner && not self.old.is_blown) → HasBlock (S.size self.old.inner) (S.contents self.old.inner) n }
        ensures burns { Burns S.failures S.is_sound self.old result self.new }
        ensures counts { CountsDevice result (S.failures self.old.inner + failed self.old) (S.failures self.new.inner + failed self.new) }
        ensures sound { StaysSound result (S.is_sound self.old.inner && not self.old.is_blown) (S.is_sound self.new.inner && not self.new.is_blown) }
        ensures value { OnOk result (ReadsBlock (S.is_sound self.old.inner) (S.size self.old.inner) (S.contents self.old.inner) n buf.new) }
        ensures kept { OnOk result (IsTrue (S.is_sound self.old.inner) → S.contents self.new.inner ≡ S.contents self.old.inner) }
        ensures len { length buf.new ≡ length buf.old }
        ensures refusal { OnlyDevice result }
        ensures committed { S.committed self.new.inner ≡ S.committed self.old.inner }
        ensures size { S.size self.new.inner ≡ S.size self.old.inner }
        ensures room { S.room self.new.inner ≡ S.room self.old.inner }
    {
        self.spend()?;
        if !self.may_pass(n) {
            return Ok(());
        }
        self.inner.read(n, buf)
    }

    fn write(&mut self, n: u32, bytes: &[u8]) -> Result<(), Refused>
        requires whole { length bytes.now ≡ S.size self.old.inner }
        requires there { IsTrue (S.is_sound self.old.inner && not self.old.is_blown) → HasBlock (S.size self.old.inner) (S.contents self.old.inner) n }
        ensures burns { Burns S.failures S.is_sound self.old result self.new }
        ensures counts { CountsDevice result (S.failures self.old.inner + failed self.old) (S.failures self.new.inner + failed self.new) }
        ensures sound { StaysSound result (S.is_sound self.old.inner && not self.old.is_blown) (S.is_sound self.new.inner && not self.new.is_blown) }
        ensures beyond { OnOk result (IsTrue (S.is_sound self.old.inner) → (HasBlock (S.size self.old.inner) (S.contents self.old.inner) n → ⊥) → self.new.inner ≡ self.old.inner) }
        ensures value { OnOk result (WritesBlock (S.is_sound self.old.inner) (S.size self.old.inner) (S.contents self.old.inner) n bytes.now (S.contents self.new.inner)) }
        ensures len { OnOk result (IsTrue (S.is_sound self.old.inner) → length (S.contents self.new.inner) ≡ length (S.contents self.old.inner)) }
        ensures refusal { OnlyDevice result }
        ensures committed { S.committed self.new.inner ≡ S.committed self.old.inner }
        ensures size { S.size self.new.inner ≡ S.size self.old.inner }
        ensures room { S.room self.new.inner ≡ S.room self.old.inner }
    {
        self.spend()?;
        if !self.may_pass(n) {
            return Ok(());
        }
        self.inner.write(n, bytes)
    }

    fn reserve(&mut self, blocks: u32) -> Result<(), Refused>
        ensures fuse { self.new ≡ record self.old { inner = self.new.inner } }
        ensures room { OnOk result (blocks ≤ S.room self.new.inner) }
        ensures no_less { S.room self.old.inner ≤ S.room self.new.inner }
        ensures enough { IfErr result (λ _. S.room self.old.inner < blocks) }
        ensures room_kept { IfErr result (λ _. S.room self.new.inner ≡ S.room self.old.inner) }
        ensures kept { IsTrue (S.is_sound self.old.inner) → S.contents self.new.inner ≡ S.contents self.old.inner }
        ensures refusal { OnlyMemory result }
        ensures failures { S.failures self.new.inner ≡ S.failures self.old.inner }
        ensures sound { S.is_sound self.new.inner ≡ S.is_sound self.old.inner }
        ensures committed { S.committed self.new.inner ≡ S.committed self.old.inner }
        ensures size { S.size self.new.inner ≡ S.size self.old.inner }
    {
        self.inner.reserve(blocks)
    }

    fn grow(&mut self, blocks: u32) -> Result<(), Refused>
        ensures burns { Burns S.failures S.is_sound self.old result self.new }
        ensures counts { CountsDevice result (S.failures self.old.inner + failed self.old) (S.failures self.new.inner + failed self.new) }
        ensures sound { StaysSound result (S.is_sound self.old.inner && not self.old.is_blown) (S.is_sound self.new.inner && not self.new.is_blown) }
        ensures value { OnOk result (IsTrue (S.is_sound self.old.inner) → S.contents self.new.inner ≡ grown (S.size self.old.inner) (S.contents self.old.inner) blocks) }
        ensures room { OnOk result (S.room self.old.inner - blocks ≤ S.room self.new.inner) }
        ensures refusal { IfErr result (λ e. RefusesGrowth e (S.room self.old.inner) blocks) }
        ensures kept { IfErr result (λ e. e ≡ Refused.Memory → IsTrue (S.is_sound self.old.inner) → S.contents self.new.inner ≡ S.contents self.old.inner) }
        ensures room_kept { IfErr result (λ e. e ≡ Refused.Memory → S.room self.new.inner ≡ S.room self.old.inner) }
        ensures committed { S.committed self.new.inner ≡ S.committed self.old.inner }
        ensures size { S.size self.new.inner ≡ S.size self.old.inner }
    {
        self.spend()?;
        self.inner.grow(blocks)
    }
}

impl<S: RunStore> RunStore for FuseStore<S> {
    fn read_run(&mut self, n: u32, buf: &mut [u8]) -> Result<(), Refused>
        requires there { IsTrue (S.is_sound self.old.inner && not self.old.is_blown) → n * S.size self.old.inner + length buf.old ≤ length (S.contents self.old.inner) }
        ensures burns { Burns S.failures S.is_sound self.old result self.new }
        ensures counts { CountsDevice result (S.failures self.old.inner + failed self.old) (S.failures self.new.inner + failed self.new) }
        ensures sound { StaysSound result (S.is_sound self.old.inner && not self.old.is_blown) (S.is_sound self.new.inner && not self.new.is_blown) }
        ensures value { OnOk result (ReadsRun (S.is_sound self.old.inner) (S.size self.old.inner) (S.contents self.old.inner) n (length buf.old) buf.new) }
        ensures kept { OnOk result (IsTrue (S.is_sound self.old.inner) → S.contents self.new.inner ≡ S.contents self.old.inner) }
        ensures len { length buf.new ≡ length buf.old }
        ensures refusal { OnlyDevice result }
        ensures committed { S.committed self.new.inner ≡ S.committed self.old.inner }
        ensures size { S.size self.new.inner ≡ S.size self.old.inner }
        ensures room { S.room self.new.inner ≡ S.room self.old.inner }
    {
        self.spend()?;
        let size = self.inner.block_size() as u64;
        if self.is_blown && u64::from(n) * size + buf.len() as u64 > self.inner.length() {
            return Ok(());
        }
        self.inner.read_run(n, buf)
    }
}
