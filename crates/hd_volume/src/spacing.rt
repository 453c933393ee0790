//! What a volume keeps free as it grows: whole blocks, and bytes in each data block.
ghost use Rattle.std.specs.Prelude.{◌≡◌, ◌≢◌, ◌⊎◌, ℕ, ◌+◌, ◌-◌, ◌*◌, ◌/◌, min, ◌≤◌, ◌<◌, ◌%◌, length, vec_len, true, false, IsTrue, IfOk, IfSome, IfNone, OnOk, IfErr};
ghost use Rattle.hd_dbd.specs.Refusals.{OnlyDevice};
ghost use Rattle.hd_volume.specs.Buffers.{IsFetch};
ghost use Rattle.hd_volume.specs.Headers.{header_of};
ghost use Rattle.hd_volume.specs.Volumes.{IsFormatted};
ghost use Rattle.hd_volume.specs.Calls.{IsRead};
ghost use Rattle.hd_volume.specs.Spacing.{no_spacing, IsPlain, IsLeftOut};
ghost use Rattle.hd_volume.specs.Spaces.{IsSpaceOf, AreDivided, blocks_in};
ghost use Rattle.hd_volume.specs.Steps.{IsStep, KeepsSpacing, HasFree, IsSpacedAt, HasSpacedHole, HasSpacedRoom};
ghost use Rattle.hd_volume.specs.declared.load.TheConstants.{MOST_BLOCKS};
ghost use Rattle.hd_volume.specs.declared.spacing.TheConstants.{MOST_CALLS};
ghost use Rattle.hd_block.specs.Sizes.{size_at};

use crate::blocks::Blocks;
use crate::load::MOST_BLOCKS;
use crate::seek::content_of_block;
use crate::space::{DATA, Space, lower};
use crate::volume::Volume;
use hd_block::{free_bytes, largest_free};
use hd_dbd::{FreeSpace, Refused, SegmentSize};
use hd_stores::BlockStore;
use std::alloc::Global;

/// Nothing is kept free.
pub const NO_SPACING: FreeSpace = FreeSpace { fbff: 0, fspf: 0 };

/// The most calls for which memory is found beforehand where something is kept free.
pub const MOST_CALLS: u32 = 2_147_483_647;

/// What was last seen of the room of data blocks, so that few are read twice: for each multiple of 8 a block below which none
/// may take so many bytes and keep free what is asked for, and for each block how many it may take at most. What is not noted is not known.
#[derive(Drop)]
pub struct Hints {
    lowest: Vec<u32>,
    room: Vec<u16>,
}

impl Hints {
    /// Nothing is known.
    pub fn new(alloc: Global) -> Hints {
        Hints {
            lowest: Vec::new(alloc),
            room: Vec::new(alloc),
        }
    }

    /// Nothing is known any more.
    pub fn forget(&mut self) {
        self.lowest.clear();
        self.room.clear();
    }

    /// A block has become one for data, and may take what fits.
    pub fn open(&mut self, n: u32) {
        lower(&mut self.lowest, n);
    }

    /// A block below which none may take so many times 8 bytes.
    fn start(&self, eighths: usize) -> u32 {
        self.lowest.get(eighths).copied().unwrap_or(1)
    }

    /// Notes the lowest block that may take so many times 8 bytes, if there is memory for it.
    fn set_start(&mut self, eighths: usize, n: u32) {
        for _ in self.lowest.len()..=eighths {
            let _ = self.lowest.push(1);
        }
        if let Some(lowest) = self.lowest.get_mut(eighths) {
            *lowest = n;
        }
    }

    /// How many bytes a block may take.
    fn room(&self, n: u32) -> u16 {
        self.room.get(n as usize).copied().unwrap_or(u16::MAX)
    }

    /// Notes how many bytes a block may take, if there is memory for it.
    fn set_room(&mut self, n: u32, room: u16) {
        let n = n as usize;
        for _ in self.room.len()..=n {
            let _ = self.room.push(u16::MAX);
        }
        if let Some(own) = self.room.get_mut(n) {
            *own = room;
        }
    }
}

/// The block of a number is to be kept free.
pub fn is_left_out(spacing: FreeSpace, n: u32) -> bool
    ensures yes { result ≡ true → IsLeftOut spacing n }
    ensures no { IsLeftOut spacing n → result ≡ true }
{
    spacing.fbff > 1 && n % spacing.fbff == 0
}

/// By how many blocks a volume of so many grows to have one more that is not to be kept free.
fn blocks_past(spacing: FreeSpace, count: u32) -> u32
    ensures few { (0 < result) × (result ≤ 2) }
    ensures past { (n : ℕ) → n + 1 ≡ count + result → IsLeftOut spacing n → ⊥ }
{
    if is_left_out(spacing, count) { 2 } else { 1 }
}

/// The lowest data block that takes so many bytes, a multiple of 8, and keeps so many free, or has no segment yet; if there is one. Blocks
/// of which this is known not to be so are not read.
fn seek_spaced<S: BlockStore>(
    blocks: &mut Blocks<S>,
    space: &Space,
    hints: &mut Hints,
    sizes: &[SegmentSize],
    size: u16,
    leave: u32,
) -> Result<Option<u32>, Refused>
    requires some { 0 < size }
    requires least { (8 ≤ blocks.old.size) × (blocks.old.size ≤ 32768) }
    requires few { vec_len space.now.contents ≤ MOST_BLOCKS }
    requires space_is { IsTrue blocks.old.is_sound → IsSpaceOf blocks.old.size sizes.now blocks.old.image space.now }
    requires divided { IsTrue blocks.old.is_sound → AreDivided sizes.now blocks.old.size blocks.old.image }
    ensures fetch { IsFetch blocks.old result blocks.new }
    ensures found { IfOk result (λ o. IsTrue blocks.old.is_sound → IfSome o (λ n. IsSpacedAt sizes.now blocks.old.size blocks.old.image size leave n)) }
    ensures small { IfOk result (λ o. IfSome o (λ n. n < MOST_BLOCKS)) }
    ensures refusal { OnlyDevice result }
{
    let eighths = size as usize / 8;
    let start = hints.start(eighths).max(1);
    let count = space.contents.len() as u32;
    for n in start..count {
        if try_spaced(blocks, space, hints, sizes, n, size, leave)? {
            hints.set_start(eighths, n);
            return Ok(Some(n));
        }
    }
    hints.set_start(eighths, count);
    Ok(None)
}

/// A block is for data, takes so many bytes, and keeps so many free, or has no segment yet. It is read only where that may be so.
fn try_spaced<S: BlockStore>(
    blocks: &mut Blocks<S>,
    space: &Space,
    hints: &mut Hints,
    sizes: &[SegmentSize],
    n: u32,
    size: u16,
    leave: u32,
) -> Result<bool, Refused>
    requires some { 0 < size }
    requires least { (8 ≤ blocks.old.size) × (blocks.old.size ≤ 32768) }
    requires space_is { IsTrue blocks.old.is_sound → IsSpaceOf blocks.old.size sizes.now blocks.old.image space.now }
    requires divided { IsTrue blocks.old.is_sound → AreDivided sizes.now blocks.old.size blocks.old.image }
    requires there { IsTrue blocks.old.is_sound → (0 < n) × (n < blocks_in blocks.old.size blocks.old.image) }
    ensures fetch { IsFetch blocks.old result blocks.new }
    ensures found { IfOk result (λ f. IsTrue blocks.old.is_sound → f ≡ true → HasSpacedHole sizes.now blocks.old.size blocks.old.image size leave n) }
    ensures refusal { OnlyDevice result }
{
    let content = content_of_block(space, n);
    if content.kind != DATA || content.hole < size || hints.room(n) < size {
        return Ok(false);
    }
    blocks.fetch(n)?;
    let room = room_of(free_bytes(blocks.hand()), leave, blocks.hand().len());
    hints.set_room(n, room.min(u32::from(u16::MAX)) as u16);
    if room < u32::from(size) {
        return Ok(false);
    }
    Ok(largest_free(blocks.hand()) >= size)
}

/// How many bytes a block of so many, of which so many are free, may take: all where no segment stands in it, else those above what is to be
/// kept free.
fn room_of(free: u32, leave: u32, length: usize) -> u32
    ensures { (free + 8 ≡ length) ⊎ (result + leave ≤ free) ⊎ (result ≡ 0) }
{
    if free as usize + 8 == length {
        return free;
    }
    free.saturating_sub(leave)
}

impl<S: BlockStore> Volume<S> {
    /// What is kept free as the volume grows.
    pub fn spacing(&self) -> FreeSpace
        ensures { result ≡ self.now.spacing }
    {
        self.spacing
    }

    /// Sets what `put` and `take_block` keep free as the volume grows, until it is set anew; nothing for factors of 0. Each
    /// block whose number is a multiple of `fbff`, which is at least 2, is passed over and made a free block, and a hole is used only where
    /// its block then has one segment or still `fspf` percent of its bytes free. Where the largest count lets the volume grow no further,
    /// the lowest free block is taken, else the volume grows by the block that was to be passed over, else any hole is used.
    ///
    /// A volume that finds no memory to grow by two blocks keeps nothing free any more.
    pub fn set_spacing(&mut self, spacing: FreeSpace)
        ensures rest { self.new ≡ record self.old { spacing = spacing; room = self.new.room } }
        ensures none { spacing ≡ no_spacing → IsPlain self.old ⊎ ((2 * self.old.room ≤ self.new.room) × (self.old.room ≤ MOST_CALLS)) }
        ensures room { IsPlain self.old → min (self.old.room / 2) MOST_CALLS ≤ self.new.room }
        ensures more { spacing ≡ no_spacing → self.old.room ≤ self.new.room }
    {
        self.hints.forget();
        self.change_spacing(spacing);
    }

    /// The same, while what was seen of the blocks' room is known on.
    fn change_spacing(&mut self, spacing: FreeSpace)
        ensures rest { self.new ≡ record self.old { spacing = spacing; room = self.new.room } }
        ensures none { spacing ≡ no_spacing → IsPlain self.old ⊎ ((2 * self.old.room ≤ self.new.room) × (self.old.room ≤ MOST_CALLS)) }
        ensures room { IsPlain self.old → min (self.old.room / 2) MOST_CALLS ≤ self.new.room }
        ensures more { spacing ≡ no_spacing → self.old.room ≤ self.new.room }
    {
        self.spacing = spacing;
    }

    /// Whether something is kept free as the volume grows.
    pub fn leaves_space(&self) -> bool
        ensures yes { result ≡ true → IsPlain self.now → ⊥ }
        ensures no { result ≡ false → IsPlain self.now }
    {
        self.spacing.fbff != 0 || self.spacing.fspf != 0
    }

    /// Grows past the blocks that are to be kept free, if the largest count lets the volume grow so far, and says the number of the block
    /// behind them, which is free. Where no memory is found for it nothing is kept free any more.
    pub(crate) fn grow_past(&mut self) -> Result<Option<u32>, Refused>
        requires formatted { IsTrue self.old.is_sound → IsFormatted self.old }
        ensures step { IsStep self.old result self.new }
        ensures spacing { KeepsSpacing self.old self.new }
        ensures grown { IfOk result (λ o. IsTrue self.old.is_sound → IfSome o (λ n. HasFree self.old n self.new × (IsLeftOut self.new.spacing n → ⊥))) }
        ensures small { IfOk result (λ o. IfSome o (λ n. n < MOST_BLOCKS)) }
        ensures spaced { IfOk result (λ o. IfSome o (λ _. IsPlain self.old → ⊥)) }
        ensures same { IfOk result (λ o. IsTrue self.old.is_sound → IfNone o (self.new.image ≡ self.old.image)) }
        ensures none { IfOk result (λ o. IsTrue self.old.is_sound → IfNone o (IsPlain self.new ⊎ ((header_of self.old.image).largest < (header_of self.old.image).count + 2))) }
        ensures room { IsTrue self.new.is_sound → self.old.room ≤ self.new.room + 1 }
        ensures room_kept { IfOk result (λ o. IfNone o (self.old.room ≤ self.new.room)) }
        ensures refusal { OnlyDevice result }
    {
        if !self.leaves_space() {
            return Ok(None);
        }
        let spacing = self.spacing();
        let count = self.block_count();
        let more = blocks_past(spacing, count);
        if self.largest_count() < count.saturating_add(more) {
            return Ok(None);
        }
        self.change_spacing(NO_SPACING);
        if self.reserve(more).is_err() {
            return Ok(None);
        }
        self.grow_reserved(spacing, more)
    }

    /// Grows by one or two free blocks, for which there is room and memory, and keeps this free from then on.
    fn grow_reserved(&mut self, spacing: FreeSpace, more: u32) -> Result<Option<u32>, Refused>
        requires formatted { IsTrue self.old.is_sound → IsFormatted self.old }
        requires plain { IsPlain self.old }
        requires few { (0 < more) × (more ≤ 2) }
        requires memory { more ≤ self.old.room }
        requires room { IsTrue self.old.is_sound → (header_of self.old.image).count + more ≤ (header_of self.old.image).largest }
        ensures step { IsStep self.old result self.new }
        ensures spacing { (self.new.spacing ≡ spacing) ⊎ IsPlain self.new }
        ensures grown { IfOk result (λ o. IsTrue self.old.is_sound → IfSome o (λ n. HasFree self.old n self.new × (n + 1 ≡ (header_of self.old.image).count + more))) }
        ensures some { IfOk result (λ o. IsTrue self.old.is_sound → IfNone o ⊥) }
        ensures small { IfOk result (λ o. IfSome o (λ n. n < MOST_BLOCKS)) }
        ensures room { IsTrue self.new.is_sound → min (self.old.room - more) (2 * MOST_CALLS) ≤ 2 * self.new.room + 1 }
        ensures room_kept { IfOk result (λ o. IfNone o (self.old.room ≤ self.new.room + 1)) }
        ensures refusal { OnlyDevice result }
    {
        match self.extend_by(more)? {
            None => Ok(None),
            Some(n) => {
                self.change_spacing(spacing);
                Ok(Some(n))
            }
        }
    }

    /// Grows by one or two free blocks, for which there is room and memory, and says the number of the last.
    fn extend_by(&mut self, more: u32) -> Result<Option<u32>, Refused>
        requires formatted { IsTrue self.old.is_sound → IsFormatted self.old }
        requires plain { IsPlain self.old }
        requires few { (0 < more) × (more ≤ 2) }
        requires memory { more ≤ self.old.room }
        requires room { IsTrue self.old.is_sound → (header_of self.old.image).count + more ≤ (header_of self.old.image).largest }
        ensures step { IsStep self.old result self.new }
        ensures plain { IsPlain self.new }
        ensures grown { IfOk result (λ o. IsTrue self.old.is_sound → IfSome o (λ n. HasFree self.old n self.new × (n + 1 ≡ (header_of self.old.image).count + more))) }
        ensures some { IfOk result (λ o. IsTrue self.old.is_sound → IfNone o ⊥) }
        ensures small { IfOk result (λ o. IfSome o (λ n. n < MOST_BLOCKS)) }
        ensures room { IsTrue self.new.is_sound → self.old.room ≤ self.new.room + more }
        ensures room_kept { IfOk result (λ o. IfNone o (self.old.room ≤ self.new.room + 1)) }
        ensures refusal { OnlyDevice result }
    {
        match self.extend_one()? {
            Some(_) if more > 1 => self.extend_one(),
            grown => Ok(grown),
        }
    }

    /// Grows by a free block, for which there is room and memory, and says its number.
    fn extend_one(&mut self) -> Result<Option<u32>, Refused>
        requires formatted { IsTrue self.old.is_sound → IsFormatted self.old }
        ensures step { IsStep self.old result self.new }
        ensures spacing { self.new.spacing ≡ self.old.spacing }
        ensures grown { IfOk result (λ o. IsTrue self.old.is_sound → IfSome o (λ n. HasFree self.old n self.new × (n ≡ (header_of self.old.image).count))) }
        ensures some { IfOk result (λ o. IsTrue self.old.is_sound → 0 < self.old.room → (header_of self.old.image).count < (header_of self.old.image).largest → IfNone o ⊥) }
        ensures small { IfOk result (λ o. IfSome o (λ n. n < MOST_BLOCKS)) }
        ensures room { IsTrue self.new.is_sound → self.old.room ≤ self.new.room + 1 }
        ensures room_kept { IfOk result (λ o. IfNone o (self.old.room ≤ self.new.room)) }
        ensures room_taken { OnOk result (self.old.room ≤ self.new.room + 1) }
        ensures positive { 0 < self.old.size }
        ensures refusal { OnlyDevice result }
    {
        match self.extend() {
            Ok(n) => Ok(Some(n)),
            Err(Refused::Device) => Err(Refused::Device),
            Err(_) => Ok(None),
        }
    }

    /// The lowest data block with a hole for a segment that may take it and keep free what is asked for.
    pub(crate) fn find_spaced(&mut self, bytes: &[u8]) -> Result<Option<u32>, Refused>
        requires formatted { IsTrue self.old.is_sound → IsFormatted self.old }
        requires whole { (0 < length bytes.now) × (size_at self.old.sizes bytes.now 0 ≡ length bytes.now) }
        ensures read { IsRead self.old result self.new }
        ensures found { IfOk result (λ o. IsTrue self.old.is_sound → IfSome o (HasSpacedRoom self.old (length bytes.now))) }
        ensures small { IfOk result (λ o. IfSome o (λ n. n < MOST_BLOCKS)) }
        ensures spacing { self.new.spacing ≡ self.old.spacing }
        ensures fits { length bytes.now + 8 ≤ self.old.size }
        ensures some { 0 < self.old.size }
        ensures refusal { OnlyDevice result }
    {
        let leave = self.blocks.block_size() as u64 * u64::from(self.spacing.fspf) / 100;
        if leave > u64::from(u32::MAX) {
            return Ok(None);
        }
        seek_spaced(
            &mut self.blocks,
            &self.space,
            &mut self.hints,
            &self.sizes,
            bytes.len() as u16,
            leave as u32,
        )
    }
}
