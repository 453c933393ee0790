ghost use Rattle.std.specs.Prelude.{◌≡◌, ◌≢◌, ◌+◌, ◌%◌, ◌≤◌, ◌<◌, ℕ, IsTrue, length, IfOk, IfErr};
ghost use Rattle.hd_dbd.specs.Refusals.{OnlyDevice, OnlyRoomOrDevice};
ghost use Rattle.hd_volume.specs.Volumes.{IsFormatted};
ghost use Rattle.hd_volume.specs.Rooms.{spare, HasHole, HasFreeBlock};
ghost use Rattle.hd_volume.specs.Calls.{IsCall, IsRead, HasSegment, IsRewritten};
ghost use Rattle.hd_volume.specs.Steps.{IsStep, IsLengthAt, IsShorter};
ghost use Rattle.hd_block.specs.Sizes.{size_at};

use crate::space::open_block;
use crate::volume::Volume;
use hd_block::size_at;
use hd_dbd::Refused;
use hd_stores::BlockStore;

impl<S: BlockStore> Volume<S> {
    /// Replaces the segment at an address by another of its type, its prefix first and padded to a multiple of 8, and says where it
    /// stands: where the old one stood if it is no longer, what it leaves being freed; else elsewhere, and the old one is freed.
    ///
    /// `Full` says that there is no block to spare and no hole of its size; `Memory` comes only where the volume would have to
    /// grow and no room is reserved.
    pub fn rewrite(&mut self, address: u32, bytes: &[u8]) -> Result<u32, Refused>
        requires formatted { IsTrue self.old.is_sound → IsFormatted self.old }
        requires there { IsTrue self.old.is_sound → HasSegment self.old address 0 }
        requires whole { (0 < length bytes.now) × (size_at self.old.sizes bytes.now 0 ≡ length bytes.now) }
        ensures call { IsCall self.old result self.new }
        ensures rewritten { IfOk result (λ to. IsTrue self.old.is_sound → IsRewritten self.old address to bytes.now self.new) }
        ensures kept { IfErr result (λ _. IsTrue self.new.is_sound → self.new.image ≡ self.old.image) }
        ensures full { IfErr result (λ e. e ≡ Refused.Full → IsTrue self.old.is_sound → (spare self.old ≡ 0) × (HasHole self.old (length bytes.now) → ⊥)) }
        ensures memory { IfErr result (λ e. e ≡ Refused.Memory → self.old.room ≡ 0) }
        ensures no_free { IfErr result (λ e. e ≡ Refused.Memory → IsTrue self.old.is_sound → HasFreeBlock self.old → ⊥) }
        ensures no_hole { IfErr result (λ e. e ≡ Refused.Memory → IsTrue self.old.is_sound → HasHole self.old (length bytes.now) → ⊥) }
        ensures refusal { OnlyRoomOrDevice result }
        ensures room { IsTrue self.new.is_sound → self.old.room ≤ self.new.room + 1 }
        ensures still { IfOk result (λ to. to ≡ address → IsTrue self.new.is_sound → self.old.room ≤ self.new.room) }
        ensures longer { IfErr result (λ e. e ≢ Refused.Device → IsTrue self.old.is_sound → IsShorter self.old address bytes.now) }
    {
        let len = self.segment_length(address)?;
        if bytes.len() <= len {
            return self.write_over(address, bytes, len);
        }
        self.move_segment(address, bytes)
    }

    /// The bytes that the segment at an address takes.
    fn segment_length(&mut self, address: u32) -> Result<usize, Refused>
        requires formatted { IsTrue self.old.is_sound → IsFormatted self.old }
        requires there { IsTrue self.old.is_sound → HasSegment self.old address 0 }
        ensures read { IsRead self.old result self.new }
        ensures length { IfOk result (λ n. IsTrue self.old.is_sound → IsLengthAt self.old address n) }
        ensures whole { IfOk result (λ n. n % 8 ≡ 0) }
        ensures refusal { OnlyDevice result }
    {
        let (n, at) = self.blocks.place(address);
        self.blocks.fetch(n)?;
        Ok(size_at(self.blocks.hand(), &self.sizes, at))
    }

    /// Writes a segment over the one of `len` bytes at an address, frees what that one took more, and says the address.
    fn write_over(&mut self, address: u32, bytes: &[u8], len: usize) -> Result<u32, Refused>
        requires formatted { IsTrue self.old.is_sound → IsFormatted self.old }
        requires there { IsTrue self.old.is_sound → HasSegment self.old address 0 }
        requires length { IsTrue self.old.is_sound → IsLengthAt self.old address len }
        requires fits { (length bytes.now ≤ len) × (len % 8 ≡ 0) }
        requires whole { (0 < length bytes.now) × (size_at self.old.sizes bytes.now 0 ≡ length bytes.now) }
        ensures call { IsCall self.old result self.new }
        ensures written { IfOk result (λ to. IsTrue self.old.is_sound → IsRewritten self.old address to bytes.now self.new) }
        ensures refusal { OnlyDevice result }
        ensures room { self.new.room ≡ self.old.room }
    {
        self.write_shorter(address, bytes, len)
    }

    /// The same, without a word on what is kept free.
    fn write_shorter(&mut self, address: u32, bytes: &[u8], len: usize) -> Result<u32, Refused>
        requires formatted { IsTrue self.old.is_sound → IsFormatted self.old }
        requires there { IsTrue self.old.is_sound → HasSegment self.old address 0 }
        requires length { IsTrue self.old.is_sound → IsLengthAt self.old address len }
        requires fits { (length bytes.now ≤ len) × (len % 8 ≡ 0) }
        requires whole { (0 < length bytes.now) × (size_at self.old.sizes bytes.now 0 ≡ length bytes.now) }
        ensures step { IsStep self.old result self.new }
        ensures spacing { self.new.spacing ≡ self.old.spacing }
        ensures in_place { IfOk result (λ to. to ≡ address) }
        ensures written { IfOk result (λ to. IsTrue self.old.is_sound → IsRewritten self.old address to bytes.now self.new) }
        ensures some { 0 < self.old.size }
        ensures refusal { OnlyDevice result }
        ensures room { self.new.room ≡ self.old.room }
    {
        let size = self.blocks.block_size();
        let (n, at) = self.blocks.place(address);
        self.blocks.fetch(n)?;
        if at < 8 || len > size - at {
            return Ok(address);
        }
        self.blocks.write_hand(at, bytes);
        if bytes.len() == len {
            return Ok(address);
        }
        let end = at + bytes.len();
        let rest = len - bytes.len();
        self.blocks.give(&self.sizes, end as u16, rest as u16);
        open_block(&mut self.space, n, size as u16);
        self.hints.forget();
        Ok(address)
    }

    /// Puts a segment elsewhere than the shorter one at an address, which is freed, and says where it stands.
    fn move_segment(&mut self, address: u32, bytes: &[u8]) -> Result<u32, Refused>
        requires formatted { IsTrue self.old.is_sound → IsFormatted self.old }
        requires there { IsTrue self.old.is_sound → HasSegment self.old address 0 }
        requires shorter { IsTrue self.old.is_sound → IsShorter self.old address bytes.now }
        requires whole { (0 < length bytes.now) × (size_at self.old.sizes bytes.now 0 ≡ length bytes.now) }
        ensures call { IsCall self.old result self.new }
        ensures moved { IfOk result (λ to. IsTrue self.old.is_sound → IsRewritten self.old address to bytes.now self.new) }
        ensures kept { IfErr result (λ _. IsTrue self.new.is_sound → self.new.image ≡ self.old.image) }
        ensures full { IfErr result (λ e. e ≡ Refused.Full → IsTrue self.old.is_sound → (spare self.old ≡ 0) × (HasHole self.old (length bytes.now) → ⊥)) }
        ensures memory { IfErr result (λ e. e ≡ Refused.Memory → self.old.room ≡ 0) }
        ensures no_free { IfErr result (λ e. e ≡ Refused.Memory → IsTrue self.old.is_sound → HasFreeBlock self.old → ⊥) }
        ensures no_hole { IfErr result (λ e. e ≡ Refused.Memory → IsTrue self.old.is_sound → HasHole self.old (length bytes.now) → ⊥) }
        ensures refusal { OnlyRoomOrDevice result }
        ensures room { IsTrue self.new.is_sound → self.old.room ≤ self.new.room + 1 }
    {
        let to = self.put(bytes)?;
        self.free(address)?;
        Ok(to)
    }
}
