ghost use Rattle.std.specs.Prelude.{◌≡◌, ◌≢◌, ℕ, ◌+◌, ◌*◌, ◌/◌, ◌%◌, ◌≤◌, ◌<◌, true, IsTrue, length, None, OnOk, OnErr, IfOk, IfErr, IfSome};
ghost use Rattle.hd_dbd.specs.Refusals.{OnlyDevice, OnlyMemory};
ghost use Rattle.hd_bytes.specs.Blocks.{block_of, grown, HasBlock};
ghost use Rattle.hd_bytes.specs.Ranges.{with_bytes};
ghost use Rattle.byteorder.specs.Endian.{big_bytes};
ghost use Rattle.hd_volume.specs.Edits.{IsTaken, IsGiven};
ghost use Rattle.hd_stores.specs.Stores.{IsCommit, FailsCommit, CountsDevice, StaysSound, RefusesGrowth, IsGivenBack};
ghost use Rattle.hd_volume.specs.Images.{ChangesBlock, KeepsFirst};
ghost use Rattle.hd_volume.specs.Buffers.{put_all, image_of, ChangesHand, ChangesHead};

use crate::buffer::{Buffer, bring, write_back};
use crate::slots::{
    add_buffer, bring_other, bring_zeros, empty_buffer, empty_buffers, is_held, write_all,
    write_first,
};
use hd_block::Block;
use hd_bytes::{write_bytes, write_u32};
use hd_dbd::{Refused, SegmentSize};
use hd_output::Work;
use hd_stores::{BlockStore, CommitStore};
use std::alloc::Global;
use std::marker::Model;

/// The blocks of a store, of which block 0 and some more are in memory: the one in hand, and those that were in hand
/// before it, each in the slot of its number.
#[derive(Drop)]
pub struct Blocks<S: BlockStore> {
    store: S,
    head: Buffer,
    hand: Buffer,
    aside: Vec<Buffer>,
    block_size: usize,
    kept: usize,
    alloc: Global,
}

impl<S: BlockStore> Model for Blocks<S> {
    ghost use Rattle.hd_volume.specs.Buffers.{Buffered, AreKept, put_all, image_of, number_of};

    ghost Value = { Buffered };

    ghost view = { λ v. record {
      image = image_of v.block_size (put_all v.block_size (S.contents v.store) v.aside.items) v.head v.hand;
      stored = S.contents v.store;
      is_sound = S.is_sound v.store;
      failures = S.failures v.store;
      room = S.room v.store;
      committed = S.committed v.store;
      size = v.block_size;
      hand = number_of v.hand;
    } };

    ghost invariant = { λ v. AreKept (S.size v.store) (S.contents v.store) (S.is_sound v.store) v.block_size v.head v.hand v.aside.items };
}

impl<S: BlockStore> Blocks<S> {
    /// The blocks of a store, whose block 0 is read if it has one, with a slot aside for each, so many at most and three at
    /// least; memory that is lacking beyond three only makes fewer. A refusal gives the store back.
    pub fn new(alloc: Global, mut store: S, kept: usize) -> Result<Blocks<S>, (S, Refused)>
        ensures image { IfOk result (λ b. IsTrue (S.is_sound store) → (b.image ≡ S.contents store) × (b.stored ≡ S.contents store)) }
        ensures store { IfOk result (λ b. (b.is_sound ≡ S.is_sound store) × (b.failures ≡ S.failures store) × (b.room ≡ S.room store) × (b.committed ≡ S.committed store) × (b.size ≡ S.size store)) }
        ensures refusal { IfErr result (λ e. IsGivenBack S.size S.contents S.is_sound S.failures S.committed store e) }
    {
        let block_size = store.block_size();
        let Ok(mut head) = empty_buffer(alloc, block_size) else {
            return Err((store, Refused::Memory));
        };
        let Ok(hand) = empty_buffer(alloc, block_size) else {
            return Err((store, Refused::Memory));
        };
        let count = (store.length() / block_size as u64).min(kept as u64) as usize;
        let Ok(aside) = empty_buffers(alloc, block_size, count) else {
            return Err((store, Refused::Memory));
        };
        if store.length() >= block_size as u64 {
            if let Err(refused) = bring(&mut store, &mut head, 0) {
                return Err((store, refused));
            }
        }
        Ok(Blocks {
            store,
            head,
            hand,
            aside,
            block_size,
            kept,
            alloc,
        })
    }

    /// The bytes of a block.
    pub fn block_size(&self) -> usize
        ensures value { result ≡ self.now.size }
        ensures some { 0 < result }
        ensures small { result ≤ 32768 }
    {
        self.block_size
    }

    /// The number of the block that an address is in, and the offset there.
    pub fn place(&self, address: u32) -> (u32, usize)
        ensures number { result.0 ≡ address / self.now.size }
        ensures offset { result.1 ≡ address % self.now.size }
        ensures within { result.1 < self.now.size }
    {
        let size = self.block_size as u32;
        // Where the size is a power of two, as it mostly is, a shift spares a division.
        let n = address.wrapping_shr(size.trailing_zeros());
        match offset_in(address, n, size) {
            Some(at) => (n, at),
            None => (address / size, (address % size) as usize),
        }
    }

    /// All bytes, which need be no whole number of blocks.
    pub fn length(&self) -> u64
        ensures { IsTrue self.now.is_sound → result ≡ length self.now.image }
    {
        self.store.length()
    }

    /// Tells the store that so many of these are to be done.
    pub fn begin_work(&self, all: u64, work: Work) {
        self.store.begin_work(all, work);
    }

    /// Tells the store that so many more of them are done.
    #[inline(always)]
    pub fn work_done(&self, count: u64) {
        self.store.work_done(count);
    }

    /// The bytes of block 0; zeros where there is none.
    pub fn head(&self) -> &[u8]
        ensures value { IsTrue self.now.is_sound → HasBlock self.now.size self.now.image 0 → result.now ≡ block_of self.now.size self.now.image 0 }
        ensures len { length result.now ≡ self.now.size }
    {
        &self.head.bytes
    }

    /// Writes a number of four bytes into block 0.
    pub fn write_head(&mut self, place: usize, number: u32)
        requires { place + 4 ≤ self.old.size }
        ensures rest { self.new ≡ record self.old { image = self.new.image } }
        ensures others { IsTrue self.old.is_sound → HasBlock self.old.size self.old.image 0 → ChangesBlock self.old.size 0 self.old.image self.new.image }
        ensures block { ChangesHead self.old (λ old new. new ≡ with_bytes old place (big_bytes 4 number)) self.new }
    {
        write_u32(&mut self.head.bytes, place, number);
        self.head.changed = true;
    }

    /// Writes bytes at the front of block 0.
    pub fn write_front(&mut self, bytes: &[u8])
        requires { length bytes.now ≤ self.old.size }
        ensures rest { self.new ≡ record self.old { image = self.new.image } }
        ensures others { IsTrue self.old.is_sound → HasBlock self.old.size self.old.image 0 → ChangesBlock self.old.size 0 self.old.image self.new.image }
        ensures block { ChangesHead self.old (λ old new. new ≡ with_bytes old 0 bytes.now) self.new }
    {
        write_bytes(&mut self.head.bytes, 0, bytes);
        self.head.changed = true;
    }

    /// Brings a block past block 0 to hand.
    pub fn fetch(&mut self, n: u32) -> Result<(), Refused>
        requires there { IsTrue self.old.is_sound → (0 < n) × HasBlock self.old.size self.old.image n }
        ensures image { OnOk result (IsTrue self.old.is_sound → self.new.image ≡ self.old.image) }
        ensures stands { OnOk result (IsTrue self.old.is_sound → self.old.stored ≡ self.old.image → self.new.stored ≡ self.old.image) }
        ensures hand { OnOk result (self.new.hand ≡ n) }
        ensures first { OnOk result (IsTrue self.old.is_sound → KeepsFirst self.old.size self.old.stored self.new.stored) }
        ensures refusal { OnlyDevice result }
        ensures counts { CountsDevice result self.old.failures self.new.failures }
        ensures sound { StaysSound result self.old.is_sound self.new.is_sound }
        ensures committed { self.new.committed ≡ self.old.committed }
        ensures size { self.new.size ≡ self.old.size }
        ensures room { self.new.room ≡ self.old.room }
    {
        if is_held(&self.hand, n) {
            return Ok(());
        }
        bring_other(&mut self.store, &mut self.hand, &mut self.aside, n)?;
        Ok(())
    }

    /// The offset of an address that is in the block in hand; `None` says nothing. Nothing is divided.
    fn offset_in_hand(&self, address: u32) -> Option<usize>
        ensures hand { IfSome result (λ at. self.now.hand ≡ address / self.now.size) }
        ensures offset { IfSome result (λ at. at ≡ address % self.now.size) }
        ensures within { IfSome result (λ at. at < self.now.size) }
    {
        if !self.hand.holds {
            return None;
        }
        offset_in(address, self.hand.number, self.block_size as u32)
    }

    /// Brings the block that an address past block 0 is in to hand, and says the offset there.
    pub fn reach(&mut self, address: u32) -> Result<usize, Refused>
        requires there { IsTrue self.old.is_sound → (0 < address / self.old.size) × HasBlock self.old.size self.old.image (address / self.old.size) }
        ensures offset { IfOk result (λ at. at ≡ address % self.old.size) }
        ensures within { IfOk result (λ at. at < self.old.size) }
        ensures image { OnOk result (IsTrue self.old.is_sound → self.new.image ≡ self.old.image) }
        ensures stands { OnOk result (IsTrue self.old.is_sound → self.old.stored ≡ self.old.image → self.new.stored ≡ self.old.image) }
        ensures hand { OnOk result (self.new.hand ≡ address / self.old.size) }
        ensures first { OnOk result (IsTrue self.old.is_sound → KeepsFirst self.old.size self.old.stored self.new.stored) }
        ensures refusal { OnlyDevice result }
        ensures counts { CountsDevice result self.old.failures self.new.failures }
        ensures sound { StaysSound result self.old.is_sound self.new.is_sound }
        ensures committed { self.new.committed ≡ self.old.committed }
        ensures size { self.new.size ≡ self.old.size }
        ensures room { self.new.room ≡ self.old.room }
    {
        if let Some(at) = self.offset_in_hand(address) {
            return Ok(at);
        }
        // As `fetch` does, in a form that stays short.
        let (n, at) = self.place(address);
        if is_held(&self.hand, n) {
            return Ok(at);
        }
        bring_other(&mut self.store, &mut self.hand, &mut self.aside, n)?;
        Ok(at)
    }

    /// The bytes of the block in hand.
    pub fn hand(&self) -> &[u8]
        ensures value { IsTrue self.now.is_sound → 0 < self.now.hand → result.now ≡ block_of self.now.size self.now.image self.now.hand }
        ensures len { length result.now ≡ self.now.size }
        ensures small { length result.now ≤ 32768 }
    {
        &self.hand.bytes
    }

    /// Writes bytes into the block in hand.
    pub fn write_hand(&mut self, at: usize, bytes: &[u8])
        requires { at + length bytes.now ≤ self.old.size }
        ensures rest { self.new ≡ record self.old { image = self.new.image } }
        ensures others { IsTrue self.old.is_sound → 0 < self.old.hand → ChangesBlock self.old.size self.old.hand self.old.image self.new.image }
        ensures block { ChangesHand self.old (λ old new. new ≡ with_bytes old at bytes.now) self.new }
    {
        write_bytes(&mut self.hand.bytes, at, bytes);
        self.hand.changed = true;
    }

    /// Takes the front of the first hole of the block in hand that is large enough.
    pub fn take(&mut self, sizes: &[SegmentSize], size: u16) -> Option<u16>
        requires block { 8 ≤ self.old.size }
        requires size { (0 < size) × (size % 8 ≡ 0) }
        ensures rest { self.new ≡ record self.old { image = self.new.image } }
        ensures others { IsTrue self.old.is_sound → 0 < self.old.hand → ChangesBlock self.old.size self.old.hand self.old.image self.new.image }
        ensures block { ChangesHand self.old (λ old new. IsTaken sizes.now size old result new) self.new }
        ensures fits { IfSome result (λ p. (8 ≤ p) × (p + size ≤ self.old.size)) }
    {
        self.hand.changed = true;
        take_from(&mut self.hand.bytes, sizes, size)
    }

    /// Gives back the segment at an offset in the block in hand.
    pub fn give(&mut self, sizes: &[SegmentSize], offset: u16, size: u16)
        requires offset { 8 ≤ offset }
        requires size { (8 ≤ size) × (size % 8 ≡ 0) }
        requires within { offset + size ≤ self.old.size }
        ensures rest { self.new ≡ record self.old { image = self.new.image } }
        ensures others { IsTrue self.old.is_sound → 0 < self.old.hand → ChangesBlock self.old.size self.old.hand self.old.image self.new.image }
        ensures block { ChangesHand self.old (λ old new. IsGiven sizes.now offset size old new) self.new }
    {
        self.hand.changed = true;
        give_to(&mut self.hand.bytes, sizes, offset, size);
    }

    /// Finds memory for the growth by so many blocks. `Memory` leaves all as it was.
    pub fn reserve(&mut self, blocks: u32) -> Result<(), Refused>
        ensures room { OnOk result (blocks ≤ self.new.room) }
        ensures no_less { self.old.room ≤ self.new.room }
        ensures enough { IfErr result (λ _. self.old.room < blocks) }
        ensures room_kept { IfErr result (λ _. self.new.room ≡ self.old.room) }
        ensures image { IsTrue self.old.is_sound → (self.new.image ≡ self.old.image) × (self.new.stored ≡ self.old.stored) }
        ensures refusal { OnlyMemory result }
        ensures failures { self.new.failures ≡ self.old.failures }
        ensures sound { self.new.is_sound ≡ self.old.is_sound }
        ensures committed { self.new.committed ≡ self.old.committed }
        ensures size { self.new.size ≡ self.old.size }
    {
        self.store.reserve(blocks)
    }

    /// Adds a block of zeros behind the last, which is in hand then and not read, where the last was whole; its slot is
    /// added, where there is one for each block. `Memory`, only beyond the room reserved, leaves all as it was.
    pub fn grow(&mut self) -> Result<(), Refused>
        requires there { IsTrue self.old.is_sound → HasBlock self.old.size self.old.image 0 }
        ensures image { OnOk result (IsTrue self.old.is_sound → self.new.image ≡ grown self.old.size self.old.image 1) }
        ensures room { OnOk result (self.old.room ≤ self.new.room + 1) }
        ensures refusal { IfErr result (λ e. RefusesGrowth e self.old.room 1) }
        ensures kept { IfErr result (λ e. e ≡ Refused.Memory → IsTrue self.old.is_sound → self.new.image ≡ self.old.image) }
        ensures room_kept { IfErr result (λ e. e ≡ Refused.Memory → self.new.room ≡ self.old.room) }
        ensures first { IsTrue self.new.is_sound → KeepsFirst self.old.size self.old.stored self.new.stored }
        ensures counts { CountsDevice result self.old.failures self.new.failures }
        ensures sound { StaysSound result self.old.is_sound self.new.is_sound }
        ensures committed { self.new.committed ≡ self.old.committed }
        ensures size { self.new.size ≡ self.old.size }
        ensures hand { OnOk result (IsTrue self.old.is_sound → (n : ℕ) → n < 4294967296 → length self.old.image ≡ n * self.old.size → self.new.hand ≡ n) }
    {
        let next = self.next_number();
        self.store.grow(1)?;
        let Some(n) = next else {
            return Ok(());
        };
        bring_zeros(&mut self.store, &mut self.hand, &mut self.aside, n)?;
        self.add_slot();
        Ok(())
    }

    /// Adds a slot for the block in hand, the last, where those before it have one each and more may be kept; want of
    /// memory leaves the slots as they are.
    fn add_slot(&mut self)
        requires last { IsTrue self.old.is_sound → (0 < self.old.hand) × (length self.old.image ≡ self.old.hand * self.old.size + self.old.size) }
        ensures { self.new ≡ self.old }
    {
        let count = self.aside.len();
        if self.hand.number as usize == count && count < self.kept {
            let _ = add_buffer(self.alloc, self.block_size, &mut self.aside);
        }
    }

    /// The number of a block that is added behind the last; `None` where the last is not whole, or the number too great.
    fn next_number(&self) -> Option<u32>
        ensures whole { IfSome result (λ n. IsTrue self.now.is_sound → length self.now.image ≡ n * self.now.size) }
        ensures none { result ≡ None → IsTrue self.now.is_sound → (n : ℕ) → n < 4294967296 → length self.now.image ≢ n * self.now.size }
    {
        let size = self.block_size as u64;
        let length = self.length();
        if length % size != 0 {
            return None;
        }
        u32::try_from(length / size).ok()
    }

    /// Writes what is changed to the store: the blocks aside, the block in hand, and then block 0.
    pub fn flush(&mut self) -> Result<(), Refused>
        ensures image { OnOk result (IsTrue self.old.is_sound → (self.new.image ≡ self.old.image) × (self.new.stored ≡ self.old.image)) }
        ensures refusal { OnlyDevice result }
        ensures counts { CountsDevice result self.old.failures self.new.failures }
        ensures sound { StaysSound result self.old.is_sound self.new.is_sound }
        ensures committed { self.new.committed ≡ self.old.committed }
        ensures size { self.new.size ≡ self.old.size }
        ensures room { self.new.room ≡ self.old.room }
    {
        write_all(&mut self.store, &mut self.aside)?;
        write_back(&mut self.store, &mut self.hand)?;
        write_first(&mut self.store, &mut self.head, &self.hand)?;
        Ok(())
    }

    /// The store as it stands; what is not flushed is lost.
    pub fn into_store(self) -> S
        ensures contents { S.contents result ≡ self.stored }
        ensures sound { S.is_sound result ≡ self.is_sound }
        ensures failures { S.failures result ≡ self.failures }
        ensures committed { S.committed result ≡ self.committed }
        ensures size { S.size result ≡ self.size }
        ensures room { S.room result ≡ self.room }
    {
        self.store
    }
}

impl<S: CommitStore> Blocks<S> {
    /// Writes what is changed to the store, and makes it last. `Device` is a failed access.
    pub fn commit(&mut self) -> Result<(), Refused>
        ensures committed { OnOk result (IsCommit self.old.is_sound self.old.image self.new.image self.old.committed self.new.committed) }
        ensures stored { OnOk result (IsTrue self.old.is_sound → self.new.stored ≡ self.old.image) }
        ensures fails { OnErr result (FailsCommit self.old.is_sound self.old.image self.old.committed self.new.committed) }
        ensures refusal { OnlyDevice result }
        ensures counts { CountsDevice result self.old.failures self.new.failures }
        ensures sound { StaysSound result self.old.is_sound self.new.is_sound }
        ensures size { self.new.size ≡ self.old.size }
        ensures room { self.new.room ≡ self.old.room }
    {
        self.flush()?;
        self.store.commit()
    }
}

fn take_from(bytes: &mut [u8], sizes: &[SegmentSize], size: u16) -> Option<u16>
    requires block { (8 ≤ length bytes.old) × (length bytes.old ≤ 32768) }
    requires size { (0 < size) × (size % 8 ≡ 0) }
    ensures len { length bytes.new ≡ length bytes.old }
    ensures taken { IsTaken sizes.now size bytes.old result bytes.new }
    ensures fits { IfSome result (λ p. (8 ≤ p) × (p + size ≤ length bytes.old)) }
{
    Block::new(bytes, sizes).take(size)
}

fn give_to(bytes: &mut [u8], sizes: &[SegmentSize], offset: u16, size: u16)
    requires block { length bytes.old ≤ 32768 }
    requires offset { 8 ≤ offset }
    requires size { (8 ≤ size) × (size % 8 ≡ 0) }
    requires within { offset + size ≤ length bytes.old }
    ensures len { length bytes.new ≡ length bytes.old }
    ensures given { IsGiven sizes.now offset size bytes.old bytes.new }
{
    Block::new(bytes, sizes).give(offset, size);
}

/// The offset of an address in the block of a number, of so many bytes; `None` where it is not in that. Nothing is divided.
fn offset_in(address: u32, n: u32, size: u32) -> Option<usize>
    ensures number { IfSome result (λ at. n ≡ address / size) }
    ensures offset { IfSome result (λ at. at ≡ address % size) }
    ensures within { IfSome result (λ at. at < size) }
{
    let first = u64::from(n) * u64::from(size);
    let at = u64::from(address).checked_sub(first)?;
    if at >= u64::from(size) {
        return None;
    }
    Some(at as usize)
}
