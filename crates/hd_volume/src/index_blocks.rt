ghost use Rattle.std.specs.Prelude.{◌≡◌, ◌≢◌, ◌+◌, ◌≤◌, ◌<◌, ℕ, IsTrue, length, slice_index, IfOk, IfErr, OnOk};
ghost use Rattle.hd_dbd.specs.Refusals.{OnlyDevice, OnlyRoomOrDevice};
ghost use Rattle.hd_bytes.specs.Ranges.{with_bytes};
ghost use Rattle.hd_volume.specs.Volumes.{IsFormatted, IsKind, block_at};
ghost use Rattle.hd_volume.specs.Rooms.{spare, HasFreeBlock};
ghost use Rattle.hd_volume.specs.Calls.{IsCall, IsTakenBlock, IsGivenBlock, IsWrittenBlock};
ghost use Rattle.hd_volume.specs.Headers.{header_of};
ghost use Rattle.hd_volume.specs.Spacing.{IsLeftOut};
ghost use Rattle.hd_volume.specs.Steps.{IsStep, KeepsSpacing, IsMadeIndex};

use crate::space::{Content, FREE, INDEX, empty_block, fill_free};
use crate::volume::Volume;
use hd_dbd::Refused;
use hd_stores::BlockStore;

impl<S: BlockStore> Volume<S> {
    /// Makes a free block an index block of a level, with no entry.
    fn make_index(&mut self, n: u32, level: u8) -> Result<(), Refused>
        requires formatted { IsTrue self.old.is_sound → IsFormatted self.old }
        requires free { IsTrue self.old.is_sound → IsKind self.old 3 n }
        ensures step { IsStep self.old result self.new }
        ensures spacing { self.new.spacing ≡ self.old.spacing }
        ensures made { OnOk result (IsTrue self.old.is_sound → IsMadeIndex self.old n level self.new) }
        ensures some { 0 < self.old.size }
        ensures refusal { OnlyDevice result }
        ensures room { self.new.room ≡ self.old.room }
    {
        self.blocks.fetch(n)?;
        self.blocks
            .write_hand(0, &[0, 0, INDEX, level, 0, 0, 0, 0, 0, 0, 0, 0]);
        fill_free(
            &mut self.space,
            n,
            Content {
                kind: INDEX,
                hole: 0,
            },
        );
        Ok(())
    }

    /// Takes a free block, or one by which the volume grows, for an index block of a level with no entry, and says its
    /// number.
    ///
    /// `Full` says that there is no block to spare; `Memory` comes only where the volume would
    /// have to grow and no room is reserved.
    pub fn take_block(&mut self, level: u8) -> Result<u32, Refused>
        requires formatted { IsTrue self.old.is_sound → IsFormatted self.old }
        ensures call { IsCall self.old result self.new }
        ensures taken { IfOk result (λ n. IsTrue self.old.is_sound → IsTakenBlock self.old n level self.new) }
        ensures kept { IfErr result (λ _. IsTrue self.new.is_sound → self.new.image ≡ self.old.image) }
        ensures full { IfErr result (λ e. e ≡ Refused.Full → IsTrue self.old.is_sound → spare self.old ≡ 0) }
        ensures memory { IfErr result (λ e. e ≡ Refused.Memory → self.old.room ≡ 0) }
        ensures no_free { IfErr result (λ e. e ≡ Refused.Memory → IsTrue self.old.is_sound → HasFreeBlock self.old → ⊥) }
        ensures refusal { OnlyRoomOrDevice result }
        ensures room { IsTrue self.new.is_sound → self.old.room ≤ self.new.room + 1 }
    {
        self.take_index(level)
    }

    /// Takes a block that was not to be kept free, as long as the volume may grow by two.
    fn take_index(&mut self, level: u8) -> Result<u32, Refused>
        requires formatted { IsTrue self.old.is_sound → IsFormatted self.old }
        ensures step { IsStep self.old result self.new }
        ensures spacing { KeepsSpacing self.old self.new }
        ensures some { OnOk result (0 < self.old.size) }
        ensures may { IfOk result (λ n. IsTrue self.old.is_sound → (header_of self.new.image).count + 2 ≤ (header_of self.new.image).largest → IsLeftOut self.new.spacing n → ⊥) }
        ensures taken { IfOk result (λ n. IsTrue self.old.is_sound → IsTakenBlock self.old n level self.new) }
        ensures kept { IfErr result (λ _. IsTrue self.new.is_sound → self.new.image ≡ self.old.image) }
        ensures full { IfErr result (λ e. e ≡ Refused.Full → IsTrue self.old.is_sound → spare self.old ≡ 0) }
        ensures memory { IfErr result (λ e. e ≡ Refused.Memory → self.old.room ≡ 0) }
        ensures no_free { IfErr result (λ e. e ≡ Refused.Memory → IsTrue self.old.is_sound → HasFreeBlock self.old → ⊥) }
        ensures refusal { OnlyRoomOrDevice result }
        ensures room { IsTrue self.new.is_sound → self.old.room ≤ self.new.room + 1 }
    {
        let n = self.free_block()?;
        self.make_index(n, level)?;
        Ok(n)
    }

    /// The block of the index that was noted last, 0 for none. It only says where to look first: nothing is promised of it.
    pub fn noted_block(&self) -> u32 {
        self.noted
    }

    /// Notes a block of the index, at which the next insert looks first; 0 forgets it.
    pub fn note_block(&mut self, n: u32)
        ensures same { self.new ≡ self.old }
    {
        self.noted = n;
    }

    /// Makes an index block free.
    pub fn give_block(&mut self, n: u32) -> Result<(), Refused>
        requires formatted { IsTrue self.old.is_sound → IsFormatted self.old }
        requires there { IsTrue self.old.is_sound → IsKind self.old 2 n }
        ensures call { IsCall self.old result self.new }
        ensures given { OnOk result (IsTrue self.old.is_sound → IsGivenBlock self.old n self.new) }
        ensures refusal { OnlyDevice result }
        ensures room { self.new.room ≡ self.old.room }
    {
        self.give_index(n)
    }

    /// The same, without a word on what is kept free.
    fn give_index(&mut self, n: u32) -> Result<(), Refused>
        requires formatted { IsTrue self.old.is_sound → IsFormatted self.old }
        requires there { IsTrue self.old.is_sound → IsKind self.old 2 n }
        ensures step { IsStep self.old result self.new }
        ensures spacing { self.new.spacing ≡ self.old.spacing }
        ensures given { OnOk result (IsTrue self.old.is_sound → IsGivenBlock self.old n self.new) }
        ensures refusal { OnlyDevice result }
        ensures room { self.new.room ≡ self.old.room }
    {
        self.blocks.fetch(n)?;
        self.blocks.write_hand(2, &[FREE]);
        empty_block(&mut self.space, n);
        Ok(())
    }

    /// Writes bytes into an index block, behind its kind and level.
    pub fn write_block(&mut self, n: u32, offset: usize, bytes: &[u8]) -> Result<(), Refused>
        requires formatted { IsTrue self.old.is_sound → IsFormatted self.old }
        requires there { IsTrue self.old.is_sound → IsKind self.old 2 n }
        requires behind { 4 ≤ offset }
        requires within { offset + length bytes.now ≤ self.old.size }
        ensures call { IsCall self.old result self.new }
        ensures written { OnOk result (IsTrue self.old.is_sound → IsWrittenBlock self.old n offset bytes.now self.new) }
        ensures refusal { OnlyDevice result }
        ensures room { self.new.room ≡ self.old.room }
    {
        self.write_index(n, offset, bytes)
    }

    /// The same, without a word on what is kept free.
    fn write_index(&mut self, n: u32, offset: usize, bytes: &[u8]) -> Result<(), Refused>
        requires formatted { IsTrue self.old.is_sound → IsFormatted self.old }
        requires there { IsTrue self.old.is_sound → IsKind self.old 2 n }
        requires behind { 4 ≤ offset }
        requires within { offset + length bytes.now ≤ self.old.size }
        ensures step { IsStep self.old result self.new }
        ensures spacing { self.new.spacing ≡ self.old.spacing }
        ensures written { OnOk result (IsTrue self.old.is_sound → IsWrittenBlock self.old n offset bytes.now self.new) }
        ensures refusal { OnlyDevice result }
        ensures room { self.new.room ≡ self.old.room }
    {
        self.blocks.fetch(n)?;
        self.blocks.write_hand(offset, bytes);
        Ok(())
    }
}
