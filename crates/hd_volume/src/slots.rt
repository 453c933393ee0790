ghost use Rattle.std.specs.Prelude.{◌≡◌, ◌+◌, ◌%◌, ◌≤◌, ◌<◌, true, false, vec_len, IsTrue, length, ◌∷◌, replicate, OnOk, OnErr, IfOk, max};
ghost use Rattle.std.specs.List.{AllByRecursion, AllZip};
ghost use Rattle.hd_dbd.specs.Refusals.{OnlyDevice};
ghost use Rattle.hd_bytes.specs.Blocks.{block_of, HasBlock};
ghost use Rattle.hd_stores.specs.Stores.{CountsDevice, StaysSound};
ghost use Rattle.hd_volume.specs.Images.{KeepsFirst};
ghost use Rattle.hd_volume.specs.declared.slots.TheConstants.{LEAST_ASIDE};
ghost use Rattle.hd_volume.specs.Buffers.{AreBuffers, AreLater, IsBlockLong, HoldsNot, StandInSlots, IsExchanged, IsTurned, AreInBytes, IsWrittenBack, HasMore, put_all, KeepsShown, image_of, KeepsImage};

use crate::buffer::{Buffer, bring, hold_zeros, write_back};
use hd_dbd::Refused;
use hd_stores::BlockStore;
use std::alloc::{AllocError, Global};
use std::mem::swap;

/// How many blocks at least are kept in memory beside block 0 and the one in hand.
pub const LEAST_ASIDE: usize = 3;

/// A buffer that holds no block.
pub fn empty_buffer(alloc: Global, block_size: usize) -> Result<Buffer, AllocError>
    ensures len { IfOk result (λ b. vec_len b.bytes ≡ block_size) }
    ensures empty { IfOk result (λ b. (b.holds ≡ false) × (b.number ≡ 0)) }
{
    let bytes = vec![in alloc; 0u8; block_size]?;
    Ok(Buffer {
        bytes,
        number: 0,
        holds: false,
        changed: false,
    })
}

/// So many of them, three at least; memory that is lacking beyond three only makes fewer.
pub fn empty_buffers(
    alloc: Global,
    block_size: usize,
    kept: usize,
) -> Result<Vec<Buffer>, AllocError>
    ensures len { IfOk result (λ v. AllByRecursion (IsBlockLong block_size) v.items) }
    ensures empty { IfOk result (λ v. AllByRecursion (λ b. b.holds ≡ false) v.items) }
    ensures least { IfOk result (λ v. LEAST_ASIDE ≤ vec_len v) }
    ensures most { IfOk result (λ v. vec_len v ≤ max LEAST_ASIDE kept) }
{
    let mut buffers = Vec::new(alloc);
    for _ in 0..LEAST_ASIDE {
        add_buffer(alloc, block_size, &mut buffers)?;
    }
    for _ in LEAST_ASIDE..kept {
        if add_buffer(alloc, block_size, &mut buffers).is_err() {
            return Ok(buffers);
        }
    }
    Ok(buffers)
}

/// Adds one that holds no block to several; want of memory leaves them as they were.
pub fn add_buffer(
    alloc: Global,
    block_size: usize,
    buffers: &mut Vec<Buffer>,
) -> Result<(), AllocError>
    ensures added { HasMore block_size buffers.old.items buffers.new.items }
    ensures more { OnOk result (vec_len buffers.new ≡ vec_len buffers.old + 1) }
    ensures same { OnErr result (vec_len buffers.new ≡ vec_len buffers.old) }
{
    buffers.push(empty_buffer(alloc, block_size)?)?;
    Ok(())
}

/// Whether a buffer holds a block.
pub fn is_held(buffer: &Buffer, n: u32) -> bool
    ensures held { result ≡ true → (buffer.now.holds ≡ true) × (buffer.now.number ≡ n) }
    ensures other { result ≡ false → HoldsNot n buffer.now }
{
    buffer.holds && buffer.number == n
}

/// Brings a block that is not in hand to hand.
pub fn bring_other<S: BlockStore>(
    store: &mut S,
    hand: &mut Buffer,
    aside: &mut [Buffer],
    n: u32,
) -> Result<(), Refused>
    requires len { AllByRecursion (IsBlockLong (S.size store.old)) (hand.old ∷ aside.old) }
    requires ready { IsTrue (S.is_sound store.old) → AreLater (S.size store.old) (S.contents store.old) (hand.old ∷ aside.old) }
    requires there { IsTrue (S.is_sound store.old) → (0 < n) × HasBlock (S.size store.old) (S.contents store.old) n }
    requires other { HoldsNot n hand.old }
    requires slots { IsTrue (S.is_sound store.old) → StandInSlots hand.old.number aside.old }
    ensures contents { OnOk result (IsTrue (S.is_sound store.old) → KeepsShown (S.size store.old) (S.contents store.old) hand.old aside.old (S.contents store.new) hand.new aside.new) }
    ensures length { OnOk result (IsTrue (S.is_sound store.old) → length (S.contents store.new) ≡ length (S.contents store.old)) }
    ensures first { OnOk result (IsTrue (S.is_sound store.old) → KeepsFirst (S.size store.old) (S.contents store.old) (S.contents store.new)) }
    ensures stands { OnOk result (IsTrue (S.is_sound store.old) → AreInBytes (S.size store.old) (S.contents store.old) hand.old aside.old → S.contents store.new ≡ S.contents store.old) }
    ensures ready { OnOk result (IsTrue (S.is_sound store.old) → AreLater (S.size store.old) (S.contents store.new) (hand.new ∷ aside.new)) }
    ensures holds { OnOk result ((hand.new.holds ≡ true) × (hand.new.number ≡ n)) }
    ensures slots { OnOk result (IsTrue (S.is_sound store.old) → StandInSlots hand.new.number aside.new) }
    ensures len { AllByRecursion (IsBlockLong (S.size store.old)) (hand.new ∷ aside.new) }
    ensures refusal { OnlyDevice result }
    ensures counts { CountsDevice result (S.failures store.old) (S.failures store.new) }
    ensures sound { StaysSound result (S.is_sound store.old) (S.is_sound store.new) }
    ensures committed { S.committed store.new ≡ S.committed store.old }
    ensures size { S.size store.new ≡ S.size store.old }
    ensures room { S.room store.new ≡ S.room store.old }
{
    if turn_to(hand, aside, n) {
        return Ok(());
    }
    bring(store, hand, n)?;
    Ok(())
}

/// Brings a block of zeros to hand, and reads nothing.
pub fn bring_zeros<S: BlockStore>(
    store: &mut S,
    hand: &mut Buffer,
    aside: &mut [Buffer],
    n: u32,
) -> Result<(), Refused>
    requires len { AllByRecursion (IsBlockLong (S.size store.old)) (hand.old ∷ aside.old) }
    requires ready { IsTrue (S.is_sound store.old) → AreLater (S.size store.old) (S.contents store.old) (hand.old ∷ aside.old) }
    requires there { IsTrue (S.is_sound store.old) → (0 < n) × HasBlock (S.size store.old) (S.contents store.old) n }
    requires zeros { IsTrue (S.is_sound store.old) → block_of (S.size store.old) (S.contents store.old) n ≡ replicate (S.size store.old) 0 }
    requires slots { IsTrue (S.is_sound store.old) → StandInSlots hand.old.number aside.old }
    ensures contents { OnOk result (IsTrue (S.is_sound store.old) → KeepsShown (S.size store.old) (S.contents store.old) hand.old aside.old (S.contents store.new) hand.new aside.new) }
    ensures length { OnOk result (IsTrue (S.is_sound store.old) → length (S.contents store.new) ≡ length (S.contents store.old)) }
    ensures first { OnOk result (IsTrue (S.is_sound store.old) → KeepsFirst (S.size store.old) (S.contents store.old) (S.contents store.new)) }
    ensures ready { OnOk result (IsTrue (S.is_sound store.old) → AreLater (S.size store.old) (S.contents store.new) (hand.new ∷ aside.new)) }
    ensures holds { OnOk result ((hand.new.holds ≡ true) × (hand.new.number ≡ n)) }
    ensures slots { OnOk result (IsTrue (S.is_sound store.old) → StandInSlots hand.new.number aside.new) }
    ensures len { AllByRecursion (IsBlockLong (S.size store.old)) (hand.new ∷ aside.new) }
    ensures refusal { OnlyDevice result }
    ensures counts { CountsDevice result (S.failures store.old) (S.failures store.new) }
    ensures sound { StaysSound result (S.is_sound store.old) (S.is_sound store.new) }
    ensures committed { S.committed store.new ≡ S.committed store.old }
    ensures size { S.size store.new ≡ S.size store.old }
    ensures room { S.room store.new ≡ S.room store.old }
{
    if is_held(hand, n) {
        return Ok(());
    }
    if turn_to(hand, aside, n) {
        return Ok(());
    }
    write_back(store, hand)?;
    hold_zeros(hand, n);
    Ok(())
}

/// Puts the block in hand into its slot, and takes in hand what stands in the slot of block n; whether that is block n.
fn turn_to(hand: &mut Buffer, aside: &mut [Buffer], n: u32) -> bool
    requires other { HoldsNot n hand.old }
    ensures turned { IsTurned n hand.old aside.old hand.new aside.new }
    ensures found { result ≡ true → (hand.new.holds ≡ true) × (hand.new.number ≡ n) }
    ensures none { result ≡ false → StandInSlots hand.old.number aside.old → AllByRecursion (HoldsNot n) (hand.new ∷ aside.new) }
{
    let own = hand.number;
    exchange(hand, aside, own);
    exchange(hand, aside, n);
    is_held(hand, n)
}

/// Exchanges the buffer in hand for the one in the slot of a block, where there are slots.
fn exchange(hand: &mut Buffer, aside: &mut [Buffer], n: u32)
    ensures { IsExchanged n hand.old aside.old hand.new aside.new }
{
    let count = aside.len();
    if count == 0 {
        return;
    }
    swap(hand, &mut aside[n as usize % count]);
}

/// Writes the blocks of several buffers to the store, those that were changed.
pub fn write_all<S: BlockStore>(store: &mut S, buffers: &mut [Buffer]) -> Result<(), Refused>
    requires len { AllByRecursion (IsBlockLong (S.size store.old)) buffers.old }
    requires ready { IsTrue (S.is_sound store.old) → AreLater (S.size store.old) (S.contents store.old) buffers.old }
    ensures contents { OnOk result (IsTrue (S.is_sound store.old) → S.contents store.new ≡ put_all (S.size store.old) (S.contents store.old) buffers.old) }
    ensures written { OnOk result (AllZip IsWrittenBack buffers.old buffers.new) }
    ensures len { AllByRecursion (IsBlockLong (S.size store.old)) buffers.new }
    ensures refusal { OnlyDevice result }
    ensures counts { CountsDevice result (S.failures store.old) (S.failures store.new) }
    ensures sound { StaysSound result (S.is_sound store.old) (S.is_sound store.new) }
    ensures committed { S.committed store.new ≡ S.committed store.old }
    ensures size { S.size store.new ≡ S.size store.old }
    ensures room { S.room store.new ≡ S.room store.old }
{
    for buffer in buffers {
        write_back(store, buffer)?;
    }
    Ok(())
}

/// Writes block 0 to the store, if it was changed, once the block in hand stands there.
pub fn write_first<S: BlockStore>(
    store: &mut S,
    head: &mut Buffer,
    hand: &Buffer,
) -> Result<(), Refused>
    requires len { (vec_len head.old.bytes ≡ S.size store.old) × (vec_len hand.now.bytes ≡ S.size store.old) }
    requires ready { IsTrue (S.is_sound store.old) → AreBuffers (S.size store.old) (S.contents store.old) head.old hand.now }
    requires number { head.old.number ≡ 0 }
    requires others_stand { IsTrue (S.is_sound store.old) → hand.now.holds ≡ true → hand.now.changed ≡ false }
    ensures contents { OnOk result (IsTrue (S.is_sound store.old) → S.contents store.new ≡ image_of (S.size store.old) (S.contents store.old) head.old hand.now) }
    ensures image { OnOk result (IsTrue (S.is_sound store.old) → KeepsImage (S.size store.old) (S.contents store.old) head.old hand.now (S.contents store.new) head.new) }
    ensures ready { OnOk result (IsTrue (S.is_sound store.old) → AreBuffers (S.size store.old) (S.contents store.new) head.new hand.now) }
    ensures len { vec_len head.new.bytes ≡ S.size store.old }
    ensures number { head.new.number ≡ 0 }
    ensures refusal { OnlyDevice result }
    ensures counts { CountsDevice result (S.failures store.old) (S.failures store.new) }
    ensures sound { StaysSound result (S.is_sound store.old) (S.is_sound store.new) }
    ensures committed { S.committed store.new ≡ S.committed store.old }
    ensures size { S.size store.new ≡ S.size store.old }
    ensures room { S.room store.new ≡ S.room store.old }
{
    let _ = hand;
    write_back(store, head)?;
    Ok(())
}
