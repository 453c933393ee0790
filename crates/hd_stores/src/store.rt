ghost use Rattle.std.specs.Prelude.{◌≡◌, ◌+◌, ◌-◌, ◌*◌, ◌<◌, ◌≤◌, ℕ, Bool, IsTrue, List, length, IfErr, OnOk, OnErr};
ghost use Rattle.hd_dbd.specs.Refusals.{OnlyDevice, OnlyMemory};
ghost use Rattle.hd_bytes.specs.Blocks.{block_of, with_block, grown, HasBlock};
ghost use Rattle.hd_bytes.specs.Ranges.{bytes_at};
ghost use Rattle.hd_stores.specs.Stores.{Committed, IsCommit, FailsCommit, CountsDevice, StaysSound, RefusesGrowth};

use hd_dbd::Refused;
use hd_output::Work;

/// Blocks of one size, read and written whole and numbered from 0.
///
/// A call answers `Device` exactly where it counted a failed access. From then on nothing is said of the bytes.
pub trait BlockStore {
    /// The bytes of a block.
    ghost size: { Self → ℕ };

    /// All bytes, in order. They say something of an honest store alone.
    ghost contents: { Self → List ℕ };

    /// It is honest, which is to say that it returns what was written, and no access has failed.
    ghost is_sound: { Self → Bool };

    /// How many accesses have failed.
    ghost failures: { Self → ℕ };

    /// Growths by so many blocks in all find memory.
    ghost room: { Self → ℕ };

    /// What a crash leaves of the store, which no call here changes.
    ghost committed: { Self → Committed };

    /// The bytes of a block, 1 to 32,768.
    fn block_size(&self) -> usize
        ensures value { result ≡ size self.now }
        ensures some { 0 < result }
        ensures small { result ≤ 32768 };

    /// All bytes, which need be no whole number of blocks.
    fn length(&self) -> u64
        ensures { IsTrue (is_sound self.now) → result ≡ length (contents self.now) };

    /// Is told that so many of these are to be done over the store. It is no access, and most stores pass over it; one that tells how far a command is tells this.
    fn begin_work(&self, _all: u64, _work: Work) {}

    /// Is told that so many more of them are done.
    fn work_done(&self, _count: u64) {}

    /// Reads block `n` into `buf`, which is as long as a block. `Device` is a failed access.
    fn read(&mut self, n: u32, buf: &mut [u8]) -> Result<(), Refused>
        requires whole { length buf.old ≡ size self.old }
        requires there { IsTrue (is_sound self.old) → HasBlock (size self.old) (contents self.old) n }
        ensures value { OnOk result (IsTrue (is_sound self.old) → buf.new ≡ block_of (size self.old) (contents self.old) n) }
        ensures len { length buf.new ≡ length buf.old }
        ensures kept { OnOk result (IsTrue (is_sound self.old) → contents self.new ≡ contents self.old) }
        ensures refusal { OnlyDevice result }
        ensures counts { CountsDevice result (failures self.old) (failures self.new) }
        ensures sound { StaysSound result (is_sound self.old) (is_sound self.new) }
        ensures committed { committed self.new ≡ committed self.old }
        ensures size { size self.new ≡ size self.old }
        ensures room { room self.new ≡ room self.old };

    /// Writes `bytes`, as many as a block has, to block `n`. `Device` is a failed access.
    fn write(&mut self, n: u32, bytes: &[u8]) -> Result<(), Refused>
        requires whole { length bytes.now ≡ size self.old }
        requires there { IsTrue (is_sound self.old) → HasBlock (size self.old) (contents self.old) n }
        ensures value { OnOk result (IsTrue (is_sound self.old) → contents self.new ≡ with_block (size self.old) (contents self.old) n bytes.now) }
        ensures len { OnOk result (IsTrue (is_sound self.old) → length (contents self.new) ≡ length (contents self.old)) }
        ensures refusal { OnlyDevice result }
        ensures counts { CountsDevice result (failures self.old) (failures self.new) }
        ensures sound { StaysSound result (is_sound self.old) (is_sound self.new) }
        ensures committed { committed self.new ≡ committed self.old }
        ensures size { size self.new ≡ size self.old }
        ensures room { room self.new ≡ room self.old };

    /// Finds memory for later growths by so many blocks in all, with no access. `Memory` leaves all as it was.
    fn reserve(&mut self, blocks: u32) -> Result<(), Refused>
        ensures room { OnOk result (blocks ≤ room self.new) }
        ensures no_less { room self.old ≤ room self.new }
        ensures enough { IfErr result (λ _. room self.old < blocks) }
        ensures room_kept { IfErr result (λ _. room self.new ≡ room self.old) }
        ensures kept { IsTrue (is_sound self.old) → contents self.new ≡ contents self.old }
        ensures refusal { OnlyMemory result }
        ensures failures { failures self.new ≡ failures self.old }
        ensures sound { is_sound self.new ≡ is_sound self.old }
        ensures committed { committed self.new ≡ committed self.old }
        ensures size { size self.new ≡ size self.old };

    /// Adds so many blocks of zeros. `Memory`, only beyond the room reserved, leaves all as it was; `Device` is a
    /// failed access.
    fn grow(&mut self, blocks: u32) -> Result<(), Refused>
        ensures value { OnOk result (IsTrue (is_sound self.old) → contents self.new ≡ grown (size self.old) (contents self.old) blocks) }
        ensures room { OnOk result (room self.old - blocks ≤ room self.new) }
        ensures refusal { IfErr result (λ e. RefusesGrowth e (room self.old) blocks) }
        ensures kept { IfErr result (λ e. e ≡ Refused.Memory → IsTrue (is_sound self.old) → contents self.new ≡ contents self.old) }
        ensures room_kept { IfErr result (λ e. e ≡ Refused.Memory → room self.new ≡ room self.old) }
        ensures counts { CountsDevice result (failures self.old) (failures self.new) }
        ensures sound { StaysSound result (is_sound self.old) (is_sound self.new) }
        ensures committed { committed self.new ≡ committed self.old }
        ensures size { size self.new ≡ size self.old };
}

/// A store that can read several blocks at once.
pub trait RunStore: BlockStore {
    /// Reads the blocks from `n` on that fill `buf`, at once. `Device` is a failed access.
    fn read_run(&mut self, n: u32, buf: &mut [u8]) -> Result<(), Refused>
        requires there { IsTrue (Self.is_sound self.old) → n * Self.size self.old + length buf.old ≤ length (Self.contents self.old) }
        ensures value { OnOk result (IsTrue (Self.is_sound self.old) → buf.new ≡ bytes_at (Self.contents self.old) (n * Self.size self.old) (length buf.old)) }
        ensures len { length buf.new ≡ length buf.old }
        ensures kept { OnOk result (IsTrue (Self.is_sound self.old) → Self.contents self.new ≡ Self.contents self.old) }
        ensures refusal { OnlyDevice result }
        ensures counts { CountsDevice result (Self.failures self.old) (Self.failures self.new) }
        ensures sound { StaysSound result (Self.is_sound self.old) (Self.is_sound self.new) }
        ensures committed { Self.committed self.new ≡ Self.committed self.old }
        ensures size { Self.size self.new ≡ Self.size self.old }
        ensures room { Self.room self.new ≡ Self.room self.old };
}

/// A store whose bytes can be made to last, all at once.
pub trait CommitStore: BlockStore {
    /// Makes the contents last: from `Ok` on a crash leaves them, whenever it comes.
    ///
    /// `Device` is a failed access. Then a crash leaves what it would have left before, or the contents; the next opening tells which.
    fn commit(&mut self) -> Result<(), Refused>
        ensures committed { OnOk result (IsCommit (Self.is_sound self.old) (Self.contents self.old) (Self.contents self.new) (Self.committed self.old) (Self.committed self.new)) }
        ensures fails { OnErr result (FailsCommit (Self.is_sound self.old) (Self.contents self.old) (Self.committed self.old) (Self.committed self.new)) }
        ensures refusal { OnlyDevice result }
        ensures counts { CountsDevice result (Self.failures self.old) (Self.failures self.new) }
        ensures sound { StaysSound result (Self.is_sound self.old) (Self.is_sound self.new) }
        ensures size { Self.size self.new ≡ Self.size self.old }
        ensures room { Self.room self.new ≡ Self.room self.old };
}
