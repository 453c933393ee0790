ghost use Rattle.std.specs.Prelude.{◌≡◌, ◌≢◌, ◌⊎◌, ◌+◌, ◌-◌, ◌%◌, ◌≤◌, ◌<◌, ℕ, IsTrue, length, slice_index, true, false, IfOk, IfErr, IfSome, IfNone, OnOk};
ghost use Rattle.hd_dbd.specs.Refusals.{OnlyDevice, OnlyRoomOrDevice};
ghost use Rattle.hd_volume.specs.Headers.{header_of};
ghost use Rattle.hd_volume.specs.Volumes.{IsFormatted, IsKind, block_at};
ghost use Rattle.hd_volume.specs.Rooms.{spare, HasHole, HasFreeBlock};
ghost use Rattle.hd_volume.specs.Calls.{IsCall, IsRead, IsPut, GrowsByOne, AreZero};
ghost use Rattle.hd_volume.specs.Spacing.{IsPlain, IsLeftOut, HasLeft};
ghost use Rattle.hd_volume.specs.Steps.{IsStep, KeepsSpacing, IsOpenFor, HasNone, HasRoom, IsPutIn, HasFree, IsMade, IsReady, data_head};
ghost use Rattle.hd_volume.specs.declared.load.TheConstants.{MOST_BLOCKS};
ghost use Rattle.hd_block.specs.Sizes.{size_at};

use crate::load::MOST_BLOCKS;
use crate::seek::{seek_free, seek_hole, seek_size};
use crate::space::{Content, DATA, FREE, add_free, fill_free, make_room};
use crate::volume::{COUNT, LARGEST, Volume, head_number};
use hd_dbd::Refused;
use hd_stores::BlockStore;

impl<S: BlockStore> Volume<S> {
    /// Puts a segment into the hole of a data block.
    fn put_in(&mut self, n: u32, bytes: &[u8]) -> Result<u32, Refused>
        requires formatted { IsTrue self.old.is_sound → IsFormatted self.old }
        requires whole { (0 < length bytes.now) × (size_at self.old.sizes bytes.now 0 ≡ length bytes.now) }
        requires has_room { IsTrue self.old.is_sound → HasRoom self.old n (length bytes.now) }
        requires small { n < MOST_BLOCKS }
        ensures spacing { self.new.spacing ≡ self.old.spacing }
        ensures step { IsStep self.old result self.new }
        ensures placed { IfOk result (λ address. IsTrue self.old.is_sound → IsPutIn self.old n address bytes.now self.new) }
        ensures some { 0 < self.old.size }
        ensures refusal { OnlyDevice result }
        ensures room { self.new.room ≡ self.old.room }
    {
        let size = self.blocks.block_size();
        self.blocks.fetch(n)?;
        match self.blocks.take(&self.sizes, bytes.len() as u16) {
            None => Ok(0),
            Some(at) => {
                self.blocks.write_hand(at as usize, bytes);
                Ok(n * size as u32 + u32::from(at))
            }
        }
    }

    /// The lowest data block with a hole for a segment, if there is one.
    fn find_hole(&mut self, bytes: &[u8]) -> Result<Option<u32>, Refused>
        requires formatted { IsTrue self.old.is_sound → IsFormatted self.old }
        requires whole { (0 < length bytes.now) × (size_at self.old.sizes bytes.now 0 ≡ length bytes.now) }
        ensures read { IsRead self.old result self.new }
        ensures spacing { self.new.spacing ≡ self.old.spacing }
        ensures found { IfOk result (λ o. IsTrue self.old.is_sound → IfSome o (λ n. HasRoom self.old n (length bytes.now))) }
        ensures none { IfOk result (λ o. IsTrue self.old.is_sound → IfNone o (HasHole self.old (length bytes.now) → ⊥)) }
        ensures fits { length bytes.now + 8 ≤ self.old.size }
        ensures small { IfOk result (λ o. IfSome o (λ n. n < MOST_BLOCKS)) }
        ensures refusal { OnlyDevice result }
    {
        let found = seek_hole(
            &mut self.blocks,
            &mut self.space,
            &self.sizes,
            bytes.len() as u16,
        )?;
        Ok(found)
    }

    /// Makes a free block one for data, with one hole.
    fn make_data(&mut self, n: u32) -> Result<(), Refused>
        requires formatted { IsTrue self.old.is_sound → IsFormatted self.old }
        requires free { IsTrue self.old.is_sound → IsKind self.old 3 n }
        ensures spacing { self.new.spacing ≡ self.old.spacing }
        ensures step { IsStep self.old result self.new }
        ensures made { OnOk result (IsTrue self.old.is_sound → IsMade self.old n 1 self.new) }
        ensures has_room { OnOk result (IsTrue self.old.is_sound → HasRoom self.new n (self.old.size - 8)) }
        ensures empty { OnOk result (IsTrue self.old.is_sound → HasNone self.new.sizes (block_at self.new n)) }
        ensures unused { OnOk result (IsTrue self.old.is_sound → AreZero 3 5 (block_at self.new n)) }
        ensures refusal { OnlyDevice result }
        ensures room { self.new.room ≡ self.old.room }
    {
        let hole = self.blocks.block_size() as u16 - 8;
        self.blocks.fetch(n)?;
        self.blocks
            .write_hand(0, &data_head((hole / 256) as u8, (hole % 256) as u8));
        fill_free(&mut self.space, n, Content { kind: DATA, hole });
        self.hints.open(n);
        Ok(())
    }

    /// Grows the volume by a free block, and says its number.
    pub(crate) fn extend(&mut self) -> Result<u32, Refused>
        requires formatted { IsTrue self.old.is_sound → IsFormatted self.old }
        ensures spacing { self.new.spacing ≡ self.old.spacing }
        ensures step { IsStep self.old result self.new }
        ensures free { IfOk result (λ n. IsTrue self.old.is_sound → HasFree self.old n self.new) }
        ensures number { IfOk result (λ n. IsTrue self.old.is_sound → n ≡ (header_of self.old.image).count) }
        ensures small { IfOk result (λ n. n < MOST_BLOCKS) }
        ensures kept { IfErr result (λ _. IsTrue self.new.is_sound → self.new.image ≡ self.old.image) }
        ensures full { IfErr result (λ e. e ≡ Refused.Full → IsTrue self.old.is_sound → (header_of self.old.image).largest ≤ (header_of self.old.image).count) }
        ensures memory { IfErr result (λ e. e ≡ Refused.Memory → self.old.room ≡ 0) }
        ensures room_kept { IfErr result (λ e. e ≢ Refused.Device → self.old.room ≤ self.new.room) }
        ensures room_taken { OnOk result (self.old.room ≤ self.new.room + 1) }
        ensures positive { 0 < self.old.size }
        ensures refusal { OnlyRoomOrDevice result }
        ensures room { IsTrue self.new.is_sound → self.old.room ≤ self.new.room + 1 }
    {
        let n = self.space.contents.len() as u32;
        if n >= head_number(&self.blocks, LARGEST).min(MOST_BLOCKS) {
            return Err(Refused::Full);
        }
        make_room(&mut self.space)?;
        self.blocks.grow()?;
        self.blocks.write_head(COUNT, n + 1);
        self.blocks.fetch(n)?;
        self.blocks.write_hand(2, &[FREE]);
        add_free(&mut self.space);
        Ok(n)
    }

    /// The blocks to spare: those by which the volume may still grow, and the free ones.
    pub fn spare(&self) -> u32
        requires formatted { IsTrue self.now.is_sound → IsFormatted self.now }
        ensures { IsTrue self.now.is_sound → result ≡ spare self.now }
    {
        let count = self.space.contents.len() as u32;
        let growth = head_number(&self.blocks, LARGEST).saturating_sub(count);
        growth.saturating_add(self.space.free)
    }

    /// Some data block has a hole of at least so many bytes.
    pub fn has_hole(&mut self, size: u16) -> Result<bool, Refused>
        requires formatted { IsTrue self.old.is_sound → IsFormatted self.old }
        ensures read { IsRead self.old result self.new }
        ensures found { IfOk result (λ f. IsTrue self.old.is_sound → f ≡ true → HasHole self.old size) }
        ensures none { IfOk result (λ f. IsTrue self.old.is_sound → f ≡ false → HasHole self.old size → ⊥) }
        ensures refusal { OnlyDevice result }
    {
        let found = seek_size(&mut self.blocks, &mut self.space, &self.sizes, size)?;
        Ok(found)
    }

    /// The lowest free block, if there is one.
    fn lowest_free(&mut self) -> Option<u32>
        requires formatted { IsTrue self.old.is_sound → IsFormatted self.old }
        ensures same { self.new ≡ self.old }
        ensures found { IfSome result (λ n. IsTrue self.old.is_sound → IsKind self.old 3 n) }
        ensures none { IfNone result (IsTrue self.old.is_sound → (m : ℕ) → IsKind self.old 3 m → ⊥) }
        ensures some { 0 < self.old.size }
        ensures small { IfSome result (λ n. n < MOST_BLOCKS) }
    {
        if self.space.free == 0 {
            return None;
        }
        let n = seek_free(&mut self.space);
        if n == 0 { None } else { Some(n) }
    }

    /// A free block: one by which the volume grows past those that are to be kept free, where it keeps some and may grow so far; else the
    /// lowest; else one by which the volume grows.
    pub(crate) fn free_block(&mut self) -> Result<u32, Refused>
        requires formatted { IsTrue self.old.is_sound → IsFormatted self.old }
        ensures step { IsStep self.old result self.new }
        ensures spacing { KeepsSpacing self.old self.new }
        ensures free { IfOk result (λ n. IsTrue self.old.is_sound → HasFree self.old n self.new) }
        ensures may { IfOk result (λ n. IsTrue self.old.is_sound → (header_of self.new.image).count + 2 ≤ (header_of self.new.image).largest → IsLeftOut self.new.spacing n → ⊥) }
        ensures by_one { OnOk result (IsTrue self.old.is_sound → GrowsByOne self.old self.new) }
        ensures small { IfOk result (λ n. n < MOST_BLOCKS) }
        ensures kept { IfErr result (λ _. IsTrue self.new.is_sound → self.new.image ≡ self.old.image) }
        ensures full { IfErr result (λ e. e ≡ Refused.Full → IsTrue self.old.is_sound → spare self.old ≡ 0) }
        ensures memory { IfErr result (λ e. e ≡ Refused.Memory → self.old.room ≡ 0) }
        ensures no_free { IfErr result (λ e. e ≡ Refused.Memory → IsTrue self.old.is_sound → HasFreeBlock self.old → ⊥) }
        ensures last { IfErr result (λ _. IsTrue self.new.is_sound → IsPlain self.new ⊎ ((header_of self.old.image).largest < (header_of self.old.image).count + 2)) }
        ensures refusal { OnlyRoomOrDevice result }
        ensures room { IsTrue self.new.is_sound → self.old.room ≤ self.new.room + 1 }
    {
        match self.grow_past()? {
            Some(n) => Ok(n),
            None => self.lowest_or_new(),
        }
    }

    /// The lowest free block. The volume grows by one where there is none.
    fn lowest_or_new(&mut self) -> Result<u32, Refused>
        requires formatted { IsTrue self.old.is_sound → IsFormatted self.old }
        ensures step { IsStep self.old result self.new }
        ensures spacing { self.new.spacing ≡ self.old.spacing }
        ensures free { IfOk result (λ n. IsTrue self.old.is_sound → HasFree self.old n self.new) }
        ensures by_one { OnOk result (IsTrue self.old.is_sound → (header_of self.new.image).count ≤ (header_of self.old.image).count + 1) }
        ensures small { IfOk result (λ n. n < MOST_BLOCKS) }
        ensures kept { IfErr result (λ _. IsTrue self.new.is_sound → self.new.image ≡ self.old.image) }
        ensures full { IfErr result (λ e. e ≡ Refused.Full → IsTrue self.old.is_sound → spare self.old ≡ 0) }
        ensures memory { IfErr result (λ e. e ≡ Refused.Memory → self.old.room ≡ 0) }
        ensures no_free { IfErr result (λ e. e ≡ Refused.Memory → IsTrue self.old.is_sound → HasFreeBlock self.old → ⊥) }
        ensures refusal { OnlyRoomOrDevice result }
        ensures room { IsTrue self.new.is_sound → self.old.room ≤ self.new.room + 1 }
    {
        match self.lowest_free() {
            Some(n) => Ok(n),
            None => self.extend(),
        }
    }

    /// A data block with one hole, which was free or by which the volume has grown.
    fn new_block(&mut self) -> Result<u32, Refused>
        requires formatted { IsTrue self.old.is_sound → IsFormatted self.old }
        ensures step { IsStep self.old result self.new }
        ensures spacing { KeepsSpacing self.old self.new }
        ensures ready { IfOk result (λ n. IsTrue self.old.is_sound → (need : ℕ) → need + 8 ≤ self.old.size → (IsPlain self.old → HasHole self.old need → ⊥) → IsReady self.old n need self.new) }
        ensures may { IfOk result (λ n. IsTrue self.old.is_sound → (need : ℕ) → IsOpenFor self.new n need) }
        ensures small { IfOk result (λ n. n < MOST_BLOCKS) }
        ensures kept { IfErr result (λ _. IsTrue self.new.is_sound → self.new.image ≡ self.old.image) }
        ensures full { IfErr result (λ e. e ≡ Refused.Full → IsTrue self.old.is_sound → spare self.old ≡ 0) }
        ensures memory { IfErr result (λ e. e ≡ Refused.Memory → self.old.room ≡ 0) }
        ensures no_free { IfErr result (λ e. e ≡ Refused.Memory → IsTrue self.old.is_sound → HasFreeBlock self.old → ⊥) }
        ensures last { IfErr result (λ _. IsTrue self.new.is_sound → IsPlain self.new ⊎ ((header_of self.old.image).largest < (header_of self.old.image).count + 2)) }
        ensures refusal { OnlyRoomOrDevice result }
        ensures room { IsTrue self.new.is_sound → self.old.room ≤ self.new.room + 1 }
    {
        let n = self.free_block()?;
        self.make_data(n)?;
        Ok(n)
    }

    /// A data block with room for a segment, which may take it and keep free what is to be.
    fn ready_block(&mut self, bytes: &[u8]) -> Result<u32, Refused>
        requires formatted { IsTrue self.old.is_sound → IsFormatted self.old }
        requires whole { (0 < length bytes.now) × (size_at self.old.sizes bytes.now 0 ≡ length bytes.now) }
        ensures step { IsStep self.old result self.new }
        ensures spacing { KeepsSpacing self.old self.new }
        ensures ready { IfOk result (λ n. IsTrue self.old.is_sound → IsReady self.old n (length bytes.now) self.new) }
        ensures may { IfOk result (λ n. IsTrue self.old.is_sound → HasLeft self.old → IsOpenFor self.new n (length bytes.now)) }
        ensures small { IfOk result (λ n. n < MOST_BLOCKS) }
        ensures kept { IfErr result (λ _. IsTrue self.new.is_sound → self.new.image ≡ self.old.image) }
        ensures full { IfErr result (λ e. e ≡ Refused.Full → IsTrue self.old.is_sound → (spare self.old ≡ 0) × (HasHole self.old (length bytes.now) → ⊥)) }
        ensures memory { IfErr result (λ e. e ≡ Refused.Memory → self.old.room ≡ 0) }
        ensures no_free { IfErr result (λ e. e ≡ Refused.Memory → IsTrue self.old.is_sound → HasFreeBlock self.old → ⊥) }
        ensures no_hole { IfErr result (λ e. e ≡ Refused.Memory → IsTrue self.old.is_sound → HasHole self.old (length bytes.now) → ⊥) }
        ensures refusal { OnlyRoomOrDevice result }
        ensures room { IsTrue self.new.is_sound → self.old.room ≤ self.new.room + 1 }
    {
        if self.leaves_space() {
            self.spaced_block(bytes)
        } else {
            self.plain_block(bytes)
        }
    }

    /// The same where nothing is to be kept free: a hole is used where there is one.
    fn plain_block(&mut self, bytes: &[u8]) -> Result<u32, Refused>
        requires formatted { IsTrue self.old.is_sound → IsFormatted self.old }
        requires whole { (0 < length bytes.now) × (size_at self.old.sizes bytes.now 0 ≡ length bytes.now) }
        requires plain { IsPlain self.old }
        ensures step { IsStep self.old result self.new }
        ensures spacing { KeepsSpacing self.old self.new }
        ensures ready { IfOk result (λ n. IsTrue self.old.is_sound → IsReady self.old n (length bytes.now) self.new) }
        ensures may { IfOk result (λ n. IsTrue self.old.is_sound → HasLeft self.old → IsOpenFor self.new n (length bytes.now)) }
        ensures small { IfOk result (λ n. n < MOST_BLOCKS) }
        ensures kept { IfErr result (λ _. IsTrue self.new.is_sound → self.new.image ≡ self.old.image) }
        ensures full { IfErr result (λ e. e ≡ Refused.Full → IsTrue self.old.is_sound → (spare self.old ≡ 0) × (HasHole self.old (length bytes.now) → ⊥)) }
        ensures memory { IfErr result (λ e. e ≡ Refused.Memory → self.old.room ≡ 0) }
        ensures no_free { IfErr result (λ e. e ≡ Refused.Memory → IsTrue self.old.is_sound → HasFreeBlock self.old → ⊥) }
        ensures no_hole { IfErr result (λ e. e ≡ Refused.Memory → IsTrue self.old.is_sound → HasHole self.old (length bytes.now) → ⊥) }
        ensures refusal { OnlyRoomOrDevice result }
        ensures room { IsTrue self.new.is_sound → self.old.room ≤ self.new.room + 1 }
    {
        match self.find_hole(bytes)? {
            Some(n) => Ok(n),
            None => self.new_block(),
        }
    }

    /// The same where something is to be kept free: a hole is used where its block then still keeps so much.
    fn spaced_block(&mut self, bytes: &[u8]) -> Result<u32, Refused>
        requires formatted { IsTrue self.old.is_sound → IsFormatted self.old }
        requires whole { (0 < length bytes.now) × (size_at self.old.sizes bytes.now 0 ≡ length bytes.now) }
        requires spaced { IsPlain self.old → ⊥ }
        ensures step { IsStep self.old result self.new }
        ensures spacing { KeepsSpacing self.old self.new }
        ensures ready { IfOk result (λ n. IsTrue self.old.is_sound → IsReady self.old n (length bytes.now) self.new) }
        ensures may { IfOk result (λ n. IsTrue self.old.is_sound → HasLeft self.old → IsOpenFor self.new n (length bytes.now)) }
        ensures small { IfOk result (λ n. n < MOST_BLOCKS) }
        ensures kept { IfErr result (λ _. IsTrue self.new.is_sound → self.new.image ≡ self.old.image) }
        ensures full { IfErr result (λ e. e ≡ Refused.Full → IsTrue self.old.is_sound → (spare self.old ≡ 0) × (HasHole self.old (length bytes.now) → ⊥)) }
        ensures memory { IfErr result (λ e. e ≡ Refused.Memory → self.old.room ≡ 0) }
        ensures no_free { IfErr result (λ e. e ≡ Refused.Memory → IsTrue self.old.is_sound → HasFreeBlock self.old → ⊥) }
        ensures no_hole { IfErr result (λ e. e ≡ Refused.Memory → IsTrue self.old.is_sound → HasHole self.old (length bytes.now) → ⊥) }
        ensures refusal { OnlyRoomOrDevice result }
        ensures room { IsTrue self.new.is_sound → self.old.room ≤ self.new.room + 1 }
    {
        match self.find_spaced(bytes)? {
            Some(n) => Ok(n),
            None => self.new_block_or_hole(bytes),
        }
    }

    /// The same where no block with a hole keeps so much free: any hole is used where there is no other block.
    fn new_block_or_hole(&mut self, bytes: &[u8]) -> Result<u32, Refused>
        requires formatted { IsTrue self.old.is_sound → IsFormatted self.old }
        requires whole { (0 < length bytes.now) × (size_at self.old.sizes bytes.now 0 ≡ length bytes.now) }
        requires spaced { IsPlain self.old → ⊥ }
        requires fits { length bytes.now + 8 ≤ self.old.size }
        ensures step { IsStep self.old result self.new }
        ensures spacing { KeepsSpacing self.old self.new }
        ensures ready { IfOk result (λ n. IsTrue self.old.is_sound → IsReady self.old n (length bytes.now) self.new) }
        ensures may { IfOk result (λ n. IsTrue self.old.is_sound → HasLeft self.old → IsOpenFor self.new n (length bytes.now)) }
        ensures small { IfOk result (λ n. n < MOST_BLOCKS) }
        ensures kept { IfErr result (λ _. IsTrue self.new.is_sound → self.new.image ≡ self.old.image) }
        ensures full { IfErr result (λ e. e ≡ Refused.Full → IsTrue self.old.is_sound → (spare self.old ≡ 0) × (HasHole self.old (length bytes.now) → ⊥)) }
        ensures memory { IfErr result (λ e. e ≡ Refused.Memory → self.old.room ≡ 0) }
        ensures no_free { IfErr result (λ e. e ≡ Refused.Memory → IsTrue self.old.is_sound → HasFreeBlock self.old → ⊥) }
        ensures no_hole { IfErr result (λ e. e ≡ Refused.Memory → IsTrue self.old.is_sound → HasHole self.old (length bytes.now) → ⊥) }
        ensures refusal { OnlyRoomOrDevice result }
        ensures room { IsTrue self.new.is_sound → self.old.room ≤ self.new.room + 1 }
    {
        match self.new_block() {
            Ok(n) => Ok(n),
            Err(refused) => {
                if refused == Refused::Device {
                    return Err(refused);
                }
                self.any_hole(bytes, refused)
            }
        }
    }

    /// The lowest data block with a hole for a segment; where there is none, the refusal of a block.
    fn any_hole(&mut self, bytes: &[u8], refused: Refused) -> Result<u32, Refused>
        requires formatted { IsTrue self.old.is_sound → IsFormatted self.old }
        requires whole { (0 < length bytes.now) × (size_at self.old.sizes bytes.now 0 ≡ length bytes.now) }
        requires room { (refused ≡ Refused.Full) ⊎ (refused ≡ Refused.Memory) }
        ensures read { IsRead self.old result self.new }
        ensures spacing { self.new.spacing ≡ self.old.spacing }
        ensures found { IfOk result (λ n. IsTrue self.old.is_sound → HasRoom self.old n (length bytes.now)) }
        ensures none { IfErr result (λ e. e ≢ Refused.Device → (e ≡ refused) × (IsTrue self.old.is_sound → HasHole self.old (length bytes.now) → ⊥)) }
        ensures small { IfOk result (λ n. n < MOST_BLOCKS) }
        ensures refusal { OnlyRoomOrDevice result }
    {
        match self.find_hole(bytes)? {
            Some(n) => Ok(n),
            None => Err(refused),
        }
    }

    /// Puts a segment, its prefix first and padded to a multiple of 8, and says its address.
    ///
    /// `Full` says that there is no block to spare and no hole of its size; `Memory` comes only where the volume would have to
    /// grow and no room is reserved.
    pub fn put(&mut self, bytes: &[u8]) -> Result<u32, Refused>
        requires formatted { IsTrue self.old.is_sound → IsFormatted self.old }
        requires whole { (0 < length bytes.now) × (size_at self.old.sizes bytes.now 0 ≡ length bytes.now) }
        ensures call { IsCall self.old result self.new }
        ensures put { IfOk result (λ address. IsTrue self.old.is_sound → IsPut self.old address bytes.now self.new) }
        ensures kept { IfErr result (λ _. IsTrue self.new.is_sound → self.new.image ≡ self.old.image) }
        ensures full { IfErr result (λ e. e ≡ Refused.Full → IsTrue self.old.is_sound → (spare self.old ≡ 0) × (HasHole self.old (length bytes.now) → ⊥)) }
        ensures memory { IfErr result (λ e. e ≡ Refused.Memory → self.old.room ≡ 0) }
        ensures no_free { IfErr result (λ e. e ≡ Refused.Memory → IsTrue self.old.is_sound → HasFreeBlock self.old → ⊥) }
        ensures no_hole { IfErr result (λ e. e ≡ Refused.Memory → IsTrue self.old.is_sound → HasHole self.old (length bytes.now) → ⊥) }
        ensures refusal { OnlyRoomOrDevice result }
        ensures room { IsTrue self.new.is_sound → self.old.room ≤ self.new.room + 1 }
    {
        self.put_segment(bytes)
    }

    /// Puts a segment, and keeps free what was kept.
    fn put_segment(&mut self, bytes: &[u8]) -> Result<u32, Refused>
        requires formatted { IsTrue self.old.is_sound → IsFormatted self.old }
        requires whole { (0 < length bytes.now) × (size_at self.old.sizes bytes.now 0 ≡ length bytes.now) }
        ensures step { IsStep self.old result self.new }
        ensures spacing { KeepsSpacing self.old self.new }
        ensures space { OnOk result (IsTrue self.old.is_sound → HasLeft self.old → HasLeft self.new) }
        ensures put { IfOk result (λ address. IsTrue self.old.is_sound → IsPut self.old address bytes.now self.new) }
        ensures kept { IfErr result (λ _. IsTrue self.new.is_sound → self.new.image ≡ self.old.image) }
        ensures full { IfErr result (λ e. e ≡ Refused.Full → IsTrue self.old.is_sound → (spare self.old ≡ 0) × (HasHole self.old (length bytes.now) → ⊥)) }
        ensures memory { IfErr result (λ e. e ≡ Refused.Memory → self.old.room ≡ 0) }
        ensures no_free { IfErr result (λ e. e ≡ Refused.Memory → IsTrue self.old.is_sound → HasFreeBlock self.old → ⊥) }
        ensures no_hole { IfErr result (λ e. e ≡ Refused.Memory → IsTrue self.old.is_sound → HasHole self.old (length bytes.now) → ⊥) }
        ensures refusal { OnlyRoomOrDevice result }
        ensures room { IsTrue self.new.is_sound → self.old.room ≤ self.new.room + 1 }
    {
        let n = self.ready_block(bytes)?;
        let address = self.put_in(n, bytes)?;
        Ok(address)
    }
}

/// The first bytes of a data block with one hole, whose length has these two bytes.
fn data_head(high: u8, low: u8) -> [u8; 16]
    ensures { result ≡ data_head high low }
{
    [0, 8, DATA, 0, 0, 0, 0, 0, 0, 0, high, low, 0, 0, 0, 0]
}
