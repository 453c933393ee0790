ghost use Rattle.std.specs.Vec.{vec_capacity};
ghost use Rattle.std.specs.Prelude.{◌≡◌, ◌+◌, ◌-◌, ◌/◌, ◌%◌, ◌≤◌, ◌<◌, true, false, vec_len, IsTrue, length, min, slice_index, IfOk, IfErr, OnOk, OnErr, Some};
ghost use Rattle.hd_bytes.specs.Blocks.{block_of, HasBlock};
ghost use Rattle.hd_dbd.specs.Facts.{stored_sizes};
ghost use Rattle.hd_dbd.specs.Refusals.{OnlyDevice, OnlyMemory};
ghost use Rattle.hd_stores.specs.Stores.{IsCommit, FailsCommit, CountsDevice, StaysSound, IsGivenBack};
ghost use Rattle.hd_bytes.specs.Numbers.{number_at};
ghost use Rattle.hd_volume.specs.Headers.{header_of};
ghost use Rattle.hd_volume.specs.Volumes.{IsFormatted, block_at, kind_of};
ghost use Rattle.hd_volume.specs.declared.load.TheConstants.{MOST_BLOCKS};
ghost use Rattle.hd_volume.specs.Records.{find};
ghost use Rattle.hd_volume.specs.Spacing.{IsPlain};
ghost use Rattle.hd_volume.specs.Steps.{IsStep};
ghost use Rattle.hd_volume.specs.Calls.{IsCall, IsRead, HasSegment, KeepsSize, IsWritten, IsFreed};
ghost use Rattle.hd_block.specs.Sizes.{size_at};

use crate::blocks::Blocks;
use crate::load::{MOST_BLOCKS, size_table, survey};
use crate::slots::LEAST_ASIDE;
use crate::space::{Space, open_block};
use crate::spacing::{Hints, MOST_CALLS, NO_SPACING};
use hd_block::size_at;
use hd_bytes::read_u32;
use hd_dbd::{Dbd, FreeSpace, Refused, SegmentSize};
use hd_output::Work;
use hd_stores::{BlockStore, CommitStore};
use std::alloc::Global;
use std::marker::Model;

/// Where the header has its numbers of four bytes.
pub const COUNT: usize = 12;

pub const LARGEST: usize = 16;

pub const FIRST_ROOT: usize = 28;

pub const LAST_ROOT: usize = 32;

pub const TOP: usize = 36;

pub const HEIGHT: usize = 40;

/// A volume over a store: a finite map from addresses to segments, and blocks for an index.
///
/// It keeps block 0 and some blocks more in memory, and a few bytes of each block.
#[derive(Drop)]
pub struct Volume<S: BlockStore> {
    pub(crate) blocks: Blocks<S>,
    pub(crate) space: Space,
    pub(crate) sizes: Vec<SegmentSize>,
    pub(crate) spacing: FreeSpace,
    pub(crate) hints: Hints,
    /// The block of the index at which an insert looks first, 0 for none.
    pub(crate) noted: u32,
}

impl<S: BlockStore> Model for Volume<S> {
    ghost use Rattle.std.specs.Prelude.{vec_len};
    ghost use Rattle.std.specs.Vec.{vec_capacity};
    ghost use Rattle.hd_volume.specs.Volumes.{VolumeState};
    ghost use Rattle.hd_volume.specs.Spaces.{IsKeptVolume, volume_of, room_for};

    ghost Value = { VolumeState };

    ghost view = { λ v. volume_of v.blocks v.sizes.items v.spacing (room_for v.spacing v.blocks.room (vec_len v.space.contents) (vec_capacity v.space.contents)) };

    ghost invariant = { λ v. IsKeptVolume v.blocks.size v.sizes.items v.blocks.image v.blocks.is_sound v.space };
}

impl<S: BlockStore> Volume<S> {
    ghost use Rattle.std.specs.Borrow.{sem};
    ghost use Rattle.hd_volume.specs.Lends.{Rests};

    /// The volume over a store, whatever its bytes are. At most 65,536 whole blocks are read. A refusal gives the store
    /// back.
    pub fn load(alloc: Global, store: S, dbd: &Dbd) -> Result<Volume<S>, (S, Refused)>
        requires { S.size store ≡ dbd.now.block_size }
        ensures image { IfOk result (λ v. IsTrue (S.is_sound store) → (v.image ≡ S.contents store) × (v.stored ≡ S.contents store)) }
        ensures store { IfOk result (λ v. (v.is_sound ≡ S.is_sound store) × (v.failures ≡ S.failures store) × (v.committed ≡ S.committed store) × (v.size ≡ S.size store) × (v.sizes ≡ stored_sizes dbd.now.types) × IsPlain v) }
        ensures refusal { IfErr result (λ e. IsGivenBack S.size S.contents S.is_sound S.failures S.committed store e) }
    {
        Volume::load_keeping(alloc, store, dbd, LEAST_ASIDE)
    }

    /// The same, with so many blocks of the volume kept in memory beside block 0 and the one in hand, three at least and
    /// no more than are of use; memory that is lacking beyond three only keeps fewer.
    pub fn load_keeping(
        alloc: Global,
        store: S,
        dbd: &Dbd,
        kept: usize,
    ) -> Result<Volume<S>, (S, Refused)>
        requires { S.size store ≡ dbd.now.block_size }
        ensures image { IfOk result (λ v. IsTrue (S.is_sound store) → (v.image ≡ S.contents store) × (v.stored ≡ S.contents store)) }
        ensures store { IfOk result (λ v. (v.is_sound ≡ S.is_sound store) × (v.failures ≡ S.failures store) × (v.committed ≡ S.committed store) × (v.size ≡ S.size store) × (v.sizes ≡ stored_sizes dbd.now.types) × IsPlain v) }
        ensures refusal { IfErr result (λ e. IsGivenBack S.size S.contents S.is_sound S.failures S.committed store e) }
    {
        let kept = kept.min(MOST_BLOCKS as usize);
        Volume::load_with(alloc, store, dbd, kept)
    }

    /// The same, with room for so many blocks, three at least.
    pub(crate) fn load_with(
        alloc: Global,
        store: S,
        dbd: &Dbd,
        kept: usize,
    ) -> Result<Volume<S>, (S, Refused)>
        requires { S.size store ≡ dbd.now.block_size }
        ensures image { IfOk result (λ v. IsTrue (S.is_sound store) → (v.image ≡ S.contents store) × (v.stored ≡ S.contents store)) }
        ensures store { IfOk result (λ v. (v.is_sound ≡ S.is_sound store) × (v.failures ≡ S.failures store) × (v.committed ≡ S.committed store) × (v.size ≡ S.size store) × (v.sizes ≡ stored_sizes dbd.now.types) × IsPlain v) }
        ensures refusal { IfErr result (λ e. IsGivenBack S.size S.contents S.is_sound S.failures S.committed store e) }
    {
        let Ok(sizes) = size_table(alloc, dbd) else {
            return Err((store, Refused::Memory));
        };
        let mut blocks = match Blocks::new(alloc, store, kept) {
            Ok(blocks) => blocks,
            Err(given) => return Err(given),
        };
        match survey(alloc, &mut blocks, &sizes) {
            Ok(space) => Ok(Volume {
                blocks,
                space,
                sizes,
                spacing: NO_SPACING,
                hints: Hints::new(alloc),
                noted: 0,
            }),
            Err(refused) => Err((blocks.into_store(), refused)),
        }
    }

    /// The bytes of the segment at an address, its prefix first.
    pub fn segment_at(&mut self, address: u32) -> Result<&[u8], Refused>
        requires formatted { IsTrue self.old.is_sound → IsFormatted self.old }
        requires there { IsTrue self.old.is_sound → HasSegment self.old address 0 }
        ensures value { IfOk result (λ r. IsTrue self.old.is_sound → find self.old address ≡ Some r.now) }
        ensures* after { sem 𝓛 (Rests S.row S.BlockStore self.entry (λ new. IsRead self.old result new)) }
        ensures refusal { OnlyDevice result }
    {
        let at = self.blocks.reach(address)?;
        let end = segment_end(self.blocks.hand(), &self.sizes, at);
        Ok(&self.blocks.hand()[at..end])
    }

    /// Writes bytes into the segment at an address, from an offset on; it takes as many bytes as before.
    pub fn write_at(&mut self, address: u32, offset: usize, bytes: &[u8]) -> Result<(), Refused>
        requires formatted { IsTrue self.old.is_sound → IsFormatted self.old }
        requires keeps_size { IsTrue self.old.is_sound → KeepsSize self.old address offset bytes.now }
        requires there { IsTrue self.old.is_sound → HasSegment self.old address (offset + length bytes.now) }
        ensures call { IsCall self.old result self.new }
        ensures written { OnOk result (IsTrue self.old.is_sound → IsWritten self.old address offset bytes.now self.new) }
        ensures refusal { OnlyDevice result }
        ensures room { self.new.room ≡ self.old.room }
    {
        self.write_segment(address, offset, bytes)
    }

    /// The same, without a word on what is kept free.
    fn write_segment(&mut self, address: u32, offset: usize, bytes: &[u8]) -> Result<(), Refused>
        requires formatted { IsTrue self.old.is_sound → IsFormatted self.old }
        requires keeps_size { IsTrue self.old.is_sound → KeepsSize self.old address offset bytes.now }
        requires there { IsTrue self.old.is_sound → HasSegment self.old address (offset + length bytes.now) }
        ensures step { IsStep self.old result self.new }
        ensures spacing { self.new.spacing ≡ self.old.spacing }
        ensures written { OnOk result (IsTrue self.old.is_sound → IsWritten self.old address offset bytes.now self.new) }
        ensures refusal { OnlyDevice result }
        ensures room { self.new.room ≡ self.old.room }
    {
        let size = self.blocks.block_size();
        let (n, at) = self.blocks.place(address);
        self.blocks.fetch(n)?;
        if offset > size - at || bytes.len() > size - at - offset {
            return Ok(());
        }
        self.blocks.write_hand(at + offset, bytes);
        Ok(())
    }

    /// Frees the segment at an address. A data block that becomes empty stays one.
    pub fn free(&mut self, address: u32) -> Result<(), Refused>
        requires formatted { IsTrue self.old.is_sound → IsFormatted self.old }
        requires there { IsTrue self.old.is_sound → HasSegment self.old address 0 }
        ensures call { IsCall self.old result self.new }
        ensures freed { OnOk result (IsTrue self.old.is_sound → IsFreed self.old address self.new) }
        ensures refusal { OnlyDevice result }
        ensures room { self.new.room ≡ self.old.room }
    {
        self.free_segment(address)
    }

    /// The same, without a word on what is kept free.
    fn free_segment(&mut self, address: u32) -> Result<(), Refused>
        requires formatted { IsTrue self.old.is_sound → IsFormatted self.old }
        requires there { IsTrue self.old.is_sound → HasSegment self.old address 0 }
        ensures step { IsStep self.old result self.new }
        ensures spacing { self.new.spacing ≡ self.old.spacing }
        ensures freed { OnOk result (IsTrue self.old.is_sound → IsFreed self.old address self.new) }
        ensures refusal { OnlyDevice result }
        ensures room { self.new.room ≡ self.old.room }
    {
        let size = self.blocks.block_size();
        let (n, at) = self.blocks.place(address);
        self.blocks.fetch(n)?;
        let len = size_at(self.blocks.hand(), &self.sizes, at);
        if at < 8 || len < 8 || len > size - at {
            return Ok(());
        }
        self.blocks.give(&self.sizes, at as u16, len as u16);
        open_block(&mut self.space, n, size as u16);
        self.hints.forget();
        Ok(())
    }

    /// The bytes of a block.
    pub fn block(&mut self, n: u32) -> Result<&[u8], Refused>
        requires there { IsTrue self.old.is_sound → HasBlock self.old.size self.old.image n }
        ensures value { IfOk result (λ r. IsTrue self.old.is_sound → r.now ≡ block_at self.old n) }
        ensures* after { sem 𝓛 (Rests S.row S.BlockStore self.entry (λ new. IsRead self.old result new)) }
        ensures refusal { OnlyDevice result }
    {
        if n == 0 {
            return Ok(self.blocks.head());
        }
        self.blocks.fetch(n)?;
        Ok(self.blocks.hand())
    }

    /// The number of the block that an address is in.
    pub fn block_number(&self, address: u32) -> u32
        ensures { result ≡ address / self.now.size }
    {
        self.blocks.place(address).0
    }

    /// The kind of a block behind block 0, one of the first 65,536. No block is read.
    pub fn kind(&self, n: u32) -> u8
        ensures { IsTrue self.now.is_sound → 0 < n → n < MOST_BLOCKS → HasBlock self.now.size self.now.image n → result ≡ kind_of (block_at self.now n) }
    {
        match self.space.contents.get(n as usize) {
            Some(content) => content.kind,
            None => 0,
        }
    }

    /// The bytes of a block.
    pub fn block_size(&self) -> usize
        ensures value { result ≡ self.now.size }
        ensures least { 128 ≤ result }
        ensures most { result ≤ 32768 }
        ensures whole { result % 8 ≡ 0 }
    {
        self.blocks.block_size()
    }

    /// All bytes, which need be no whole number of blocks.
    pub fn length(&self) -> u64
        ensures { IsTrue self.now.is_sound → result ≡ length self.now.image }
    {
        self.blocks.length()
    }

    /// Tells the store that so many of these are to be done, for whoever shows how far a command is.
    pub fn begin_work(&self, all: u64, work: Work) {
        self.blocks.begin_work(all, work);
    }

    /// Tells the store that so many more of them are done.
    #[inline(always)]
    pub fn work_done(&self, count: u64) {
        self.blocks.work_done(count);
    }

    /// The address of the first root, 0 for none.
    pub fn first_root(&self) -> u32
        ensures { IsTrue self.now.is_sound → HasBlock self.now.size self.now.image 0 → result ≡ (header_of self.now.image).first_root }
    {
        head_number(&self.blocks, FIRST_ROOT)
    }

    /// The address of the last root, 0 for none.
    pub fn last_root(&self) -> u32
        ensures { IsTrue self.now.is_sound → HasBlock self.now.size self.now.image 0 → result ≡ (header_of self.now.image).last_root }
    {
        head_number(&self.blocks, LAST_ROOT)
    }

    /// The number of the top index block, 0 for none.
    pub fn top(&self) -> u32
        ensures { IsTrue self.now.is_sound → HasBlock self.now.size self.now.image 0 → result ≡ (header_of self.now.image).top }
    {
        head_number(&self.blocks, TOP)
    }

    /// The height of the index, 0 for none.
    pub fn height(&self) -> u32
        ensures { IsTrue self.now.is_sound → HasBlock self.now.size self.now.image 0 → result ≡ (header_of self.now.image).height }
    {
        head_number(&self.blocks, HEIGHT)
    }

    /// Finds memory for so many calls of `put` and `take_block`, each of which may grow by two blocks where some are kept free. `Memory` leaves
    /// all as it was.
    pub fn reserve(&mut self, blocks: u32) -> Result<(), Refused>
        ensures call { IsCall self.old result self.new }
        ensures room { OnOk result (blocks ≤ self.new.room) }
        ensures enough { IfErr result (λ _. self.old.room < blocks) }
        ensures no_less { self.old.room ≤ self.new.room }
        ensures image { IsTrue self.new.is_sound → (self.new.image ≡ self.old.image) × (self.new.stored ≡ self.old.stored) }
        ensures refusal { OnlyMemory result }
    {
        if self.spacing == NO_SPACING {
            return reserve_for(&mut self.blocks, &mut self.space, blocks);
        }
        if blocks > MOST_CALLS {
            return Err(Refused::Memory);
        }
        reserve_for(&mut self.blocks, &mut self.space, 2 * blocks)
    }

    /// Writes what is changed to the store, block 0 after all others.
    pub fn flush(&mut self) -> Result<(), Refused>
        ensures image { OnOk result (IsTrue self.old.is_sound → (self.new.image ≡ self.old.image) × (self.new.stored ≡ self.old.image)) }
        ensures refusal { OnlyDevice result }
        ensures counts { CountsDevice result self.old.failures self.new.failures }
        ensures sound { StaysSound result self.old.is_sound self.new.is_sound }
        ensures committed { self.new.committed ≡ self.old.committed }
        ensures size { self.new.size ≡ self.old.size }
        ensures sizes { self.new.sizes ≡ self.old.sizes }
        ensures spacing { self.new.spacing ≡ self.old.spacing }
        ensures room { self.new.room ≡ self.old.room }
    {
        self.blocks.flush()
    }

    /// The store as it stands; what is not flushed is lost.
    pub fn into_store(self) -> S
        ensures contents { S.contents result ≡ self.stored }
        ensures sound { S.is_sound result ≡ self.is_sound }
        ensures failures { S.failures result ≡ self.failures }
        ensures committed { S.committed result ≡ self.committed }
        ensures size { S.size result ≡ self.size }
    {
        self.blocks.into_store()
    }
}

impl<S: CommitStore> Volume<S> {
    /// Writes what is changed to the store, and makes it last: from `Ok` on a crash leaves this image. `Device` is a failed access.
    pub fn commit(&mut self) -> Result<(), Refused>
        ensures committed { OnOk result (IsCommit self.old.is_sound self.old.image self.new.image self.old.committed self.new.committed) }
        ensures stored { OnOk result (IsTrue self.old.is_sound → self.new.stored ≡ self.old.image) }
        ensures fails { OnErr result (FailsCommit self.old.is_sound self.old.image self.old.committed self.new.committed) }
        ensures refusal { OnlyDevice result }
        ensures counts { CountsDevice result self.old.failures self.new.failures }
        ensures sound { StaysSound result self.old.is_sound self.new.is_sound }
        ensures size { self.new.size ≡ self.old.size }
        ensures sizes { self.new.sizes ≡ self.old.sizes }
        ensures spacing { self.new.spacing ≡ self.old.spacing }
        ensures room { self.new.room ≡ self.old.room }
    {
        self.blocks.commit()
    }
}

/// Finds memory to grow by so many blocks, in the store and for what is kept of each. `Memory` leaves all as it was.
fn reserve_for<S: BlockStore>(
    blocks: &mut Blocks<S>,
    space: &mut Space,
    count: u32,
) -> Result<(), Refused>
    ensures room { OnOk result ((count ≤ blocks.new.room) × (count ≤ vec_capacity space.new.contents - vec_len space.new.contents)) }
    ensures enough { IfErr result (λ _. min blocks.old.room (vec_capacity space.old.contents - vec_len space.old.contents) < count) }
    ensures no_less { (blocks.old.room ≤ blocks.new.room) × (vec_capacity space.old.contents ≤ vec_capacity space.new.contents) }
    ensures contents { (space.new.contents.items ≡ space.old.contents.items) × (vec_len space.new.contents ≡ vec_len space.old.contents) }
    ensures kept { (space.new.lowest ≡ space.old.lowest) × (space.new.free ≡ space.old.free) × (space.new.lowest_free ≡ space.old.lowest_free) }
    ensures image { IsTrue blocks.old.is_sound → (blocks.new.image ≡ blocks.old.image) × (blocks.new.stored ≡ blocks.old.stored) }
    ensures refusal { OnlyMemory result }
    ensures failures { blocks.new.failures ≡ blocks.old.failures }
    ensures sound { blocks.new.is_sound ≡ blocks.old.is_sound }
    ensures committed { blocks.new.committed ≡ blocks.old.committed }
    ensures size { blocks.new.size ≡ blocks.old.size }
{
    if space.contents.reserve(count as usize).is_err() {
        return Err(Refused::Memory);
    }
    blocks.reserve(count)
}

/// Where the segment at a place of a block ends, at most at the end of the block.
fn segment_end(block: &[u8], sizes: &[SegmentSize], at: usize) -> usize
    requires { (at < length block.now) × (length block.now ≤ 32768) }
    ensures { result ≡ min (at + size_at sizes.now block.now at) (length block.now) }
{
    let len = size_at(block, sizes, at);
    at.saturating_add(len).min(block.len())
}

/// The number of four bytes at a place of block 0.
pub fn head_number<S: BlockStore>(blocks: &Blocks<S>, place: usize) -> u32
    requires { place + 4 ≤ blocks.now.size }
    ensures { IsTrue blocks.now.is_sound → HasBlock blocks.now.size blocks.now.image 0 → result ≡ number_at 4 blocks.now.image place }
{
    read_u32(blocks.head(), place)
}
