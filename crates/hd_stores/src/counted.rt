ghost use Rattle.std.specs.Prelude.{◌≡◌, ◌-◌, ◌<◌, ◌≤◌, IsTrue, IfErr, OnOk, OnErr, length};
ghost use Rattle.hd_dbd.specs.Refusals.{OnlyDevice, OnlyMemory};
ghost use Rattle.hd_bytes.specs.Blocks.{block_of, with_block, grown, HasBlock};
ghost use Rattle.hd_stores.specs.Stores.{IsCommit, FailsCommit, CountsDevice, StaysSound, RefusesGrowth};
ghost use Rattle.hd_output.specs.Counts.{one_more};

use crate::store::{BlockStore, CommitStore};
use hd_dbd::Refused;
use hd_output::{Progress, Work};
use std::marker::Model;

/// After so many accesses each the progress is told.
const OFTEN: u64 = 256;

/// A store that passes all accesses on to another, counts them, and now and then tells how many there were.
///
/// An access is a `read`, a `write` or a `grow`; a commit is none. All answers and all bytes are those of the store below.
#[derive(Drop)]
pub struct Counted<'p, S: BlockStore, P: Progress> {
    inner: S,
    accesses: u64,
    doing: &'p str,
    progress: &'p P,
}

impl<'p, S: BlockStore, P: Progress> Model for Counted<'p, S, P> {
    ghost use Rattle.hd_stores.specs.AccessCounts.{Count};

    ghost Value = { Count S };

    ghost view = { λ c. record { inner = c.inner; accesses = c.accesses } };
}

impl<'p, S: BlockStore, P: Progress> Counted<'p, S, P> {
    /// A store over another, for a command that is doing this.
    pub fn new(inner: S, doing: &'p str, progress: &'p P) -> Counted<'p, S, P>
        ensures { result ≡ record { inner = inner; accesses = 0 } }
    {
        Counted {
            inner,
            accesses: 0,
            doing,
            progress,
        }
    }

    /// How many accesses came, those that failed among them, at most to `u64::MAX`.
    pub fn accesses(&self) -> u64
        ensures { result ≡ self.now.accesses }
    {
        self.accesses
    }

    /// The store below.
    pub fn into_inner(self) -> S
        ensures { result ≡ self.entry.inner }
    {
        self.inner
    }

    /// Counts an access, and tells of it now and then.
    fn note(&mut self)
        ensures { self.new ≡ record { inner = self.old.inner; accesses = one_more self.old.accesses } }
    {
        self.accesses = self.accesses.saturating_add(1);
        if self.accesses % OFTEN == 0 {
            let blocks = self.inner.length() / self.inner.block_size() as u64;
            self.progress.tell(self.doing, self.accesses, blocks);
        }
    }
}

impl<'p, S: BlockStore, P: Progress> BlockStore for Counted<'p, S, P> {
    ghost size = { λ c. S.size c.inner };

    ghost contents = { λ c. S.contents c.inner };

    ghost is_sound = { λ c. S.is_sound c.inner };

    ghost failures = { λ c. S.failures c.inner };

    ghost room = { λ c. S.room c.inner };

    ghost committed = { λ c. S.committed c.inner };

    fn block_size(&self) -> usize {
        self.inner.block_size()
    }

    fn length(&self) -> u64 {
        self.inner.length()
    }

    fn begin_work(&self, all: u64, work: Work) {
        self.progress.begin(all, work);
    }

    #[inline(always)]
    fn work_done(&self, count: u64) {
        self.progress.done(count);
    }

    fn read(&mut self, n: u32, buf: &mut [u8]) -> Result<(), Refused>
        requires whole { length buf.old ≡ S.size self.old.inner }
        requires there { IsTrue (S.is_sound self.old.inner) → HasBlock (S.size self.old.inner) (S.contents self.old.inner) n }
        ensures counted { self.new.accesses ≡ one_more self.old.accesses }
        ensures value { OnOk result (IsTrue (S.is_sound self.old.inner) → buf.new ≡ block_of (S.size self.old.inner) (S.contents self.old.inner) n) }
        ensures len { length buf.new ≡ length buf.old }
        ensures kept { OnOk result (IsTrue (S.is_sound self.old.inner) → S.contents self.new.inner ≡ S.contents self.old.inner) }
        ensures refusal { OnlyDevice result }
        ensures counts { CountsDevice result (S.failures self.old.inner) (S.failures self.new.inner) }
        ensures sound { StaysSound result (S.is_sound self.old.inner) (S.is_sound self.new.inner) }
        ensures committed { S.committed self.new.inner ≡ S.committed self.old.inner }
        ensures size { S.size self.new.inner ≡ S.size self.old.inner }
        ensures room { S.room self.new.inner ≡ S.room self.old.inner }
    {
        self.note();
        self.inner.read(n, buf)
    }

    fn write(&mut self, n: u32, bytes: &[u8]) -> Result<(), Refused>
        requires whole { length bytes.now ≡ S.size self.old.inner }
        requires there { IsTrue (S.is_sound self.old.inner) → HasBlock (S.size self.old.inner) (S.contents self.old.inner) n }
        ensures counted { self.new.accesses ≡ one_more self.old.accesses }
        ensures value { OnOk result (IsTrue (S.is_sound self.old.inner) → S.contents self.new.inner ≡ with_block (S.size self.old.inner) (S.contents self.old.inner) n bytes.now) }
        ensures len { OnOk result (IsTrue (S.is_sound self.old.inner) → length (S.contents self.new.inner) ≡ length (S.contents self.old.inner)) }
        ensures refusal { OnlyDevice result }
        ensures counts { CountsDevice result (S.failures self.old.inner) (S.failures self.new.inner) }
        ensures sound { StaysSound result (S.is_sound self.old.inner) (S.is_sound self.new.inner) }
        ensures committed { S.committed self.new.inner ≡ S.committed self.old.inner }
        ensures size { S.size self.new.inner ≡ S.size self.old.inner }
        ensures room { S.room self.new.inner ≡ S.room self.old.inner }
    {
        self.note();
        self.inner.write(n, bytes)
    }

    fn reserve(&mut self, blocks: u32) -> Result<(), Refused>
        ensures counted { self.new.accesses ≡ self.old.accesses }
        ensures room { OnOk result (blocks ≤ S.room self.new.inner) }
        ensures no_less { S.room self.old.inner ≤ S.room self.new.inner }
        ensures enough { IfErr result (λ _. S.room self.old.inner < blocks) }
        ensures room_kept { IfErr result (λ _. S.room self.new.inner ≡ S.room self.old.inner) }
        ensures kept { IsTrue (S.is_sound self.old.inner) → S.contents self.new.inner ≡ S.contents self.old.inner }
        ensures refusal { OnlyMemory result }
        ensures failures { S.failures self.new.inner ≡ S.failures self.old.inner }
        ensures sound { S.is_sound self.new.inner ≡ S.is_sound self.old.inner }
        ensures committed { S.committed self.new.inner ≡ S.committed self.old.inner }
        ensures size { S.size self.new.inner ≡ S.size self.old.inner }
    {
        self.inner.reserve(blocks)
    }

    fn grow(&mut self, blocks: u32) -> Result<(), Refused>
        ensures counted { self.new.accesses ≡ one_more self.old.accesses }
        ensures value { OnOk result (IsTrue (S.is_sound self.old.inner) → S.contents self.new.inner ≡ grown (S.size self.old.inner) (S.contents self.old.inner) blocks) }
        ensures room { OnOk result (S.room self.old.inner - blocks ≤ S.room self.new.inner) }
        ensures refusal { IfErr result (λ e. RefusesGrowth e (S.room self.old.inner) blocks) }
        ensures kept { IfErr result (λ e. e ≡ Refused.Memory → IsTrue (S.is_sound self.old.inner) → S.contents self.new.inner ≡ S.contents self.old.inner) }
        ensures room_kept { IfErr result (λ e. e ≡ Refused.Memory → S.room self.new.inner ≡ S.room self.old.inner) }
        ensures counts { CountsDevice result (S.failures self.old.inner) (S.failures self.new.inner) }
        ensures sound { StaysSound result (S.is_sound self.old.inner) (S.is_sound self.new.inner) }
        ensures committed { S.committed self.new.inner ≡ S.committed self.old.inner }
        ensures size { S.size self.new.inner ≡ S.size self.old.inner }
    {
        self.note();
        self.inner.grow(blocks)
    }
}

impl<'p, S: CommitStore, P: Progress> CommitStore for Counted<'p, S, P> {
    fn commit(&mut self) -> Result<(), Refused>
        ensures counted { self.new.accesses ≡ self.old.accesses }
        ensures committed { OnOk result (IsCommit (S.is_sound self.old.inner) (S.contents self.old.inner) (S.contents self.new.inner) (S.committed self.old.inner) (S.committed self.new.inner)) }
        ensures fails { OnErr result (FailsCommit (S.is_sound self.old.inner) (S.contents self.old.inner) (S.committed self.old.inner) (S.committed self.new.inner)) }
        ensures refusal { OnlyDevice result }
        ensures counts { CountsDevice result (S.failures self.old.inner) (S.failures self.new.inner) }
        ensures sound { StaysSound result (S.is_sound self.old.inner) (S.is_sound self.new.inner) }
        ensures size { S.size self.new.inner ≡ S.size self.old.inner }
        ensures room { S.room self.new.inner ≡ S.room self.old.inner }
    {
        self.inner.commit()
    }
}
