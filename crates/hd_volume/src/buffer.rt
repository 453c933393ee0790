ghost use Rattle.std.specs.Prelude.{◌≡◌, true, false, vec_len, IsTrue, length, replicate, OnOk};
ghost use Rattle.hd_dbd.specs.Refusals.{OnlyDevice};
ghost use Rattle.hd_bytes.specs.Blocks.{HasBlock};
ghost use Rattle.hd_stores.specs.Stores.{CountsDevice, StaysSound};
ghost use Rattle.hd_volume.specs.Buffers.{put_in, IsBuffer, KeepsStoredHead};

use hd_dbd::Refused;
use hd_stores::BlockStore;

/// A block of a store in memory, if it holds one.
#[derive(Drop)]
pub struct Buffer {
    pub bytes: Vec<u8>,
    pub number: u32,
    pub holds: bool,
    pub changed: bool,
}

/// Writes the buffer's block to the store, if it was changed.
pub fn write_back<S: BlockStore>(store: &mut S, buffer: &mut Buffer) -> Result<(), Refused>
    requires len { vec_len buffer.old.bytes ≡ S.size store.old }
    requires ready { IsTrue (S.is_sound store.old) → IsBuffer (S.size store.old) (S.contents store.old) buffer.old }
    ensures contents { OnOk result (IsTrue (S.is_sound store.old) → S.contents store.new ≡ put_in (S.size store.old) (S.contents store.old) buffer.old) }
    ensures length { OnOk result (IsTrue (S.is_sound store.old) → length (S.contents store.new) ≡ length (S.contents store.old)) }
    ensures bytes { buffer.new.bytes ≡ buffer.old.bytes }
    ensures number { buffer.new.number ≡ buffer.old.number }
    ensures holds { buffer.new.holds ≡ buffer.old.holds }
    ensures unchanged { OnOk result (buffer.new.holds ≡ true → buffer.new.changed ≡ false) }
    ensures refusal { OnlyDevice result }
    ensures counts { CountsDevice result (S.failures store.old) (S.failures store.new) }
    ensures sound { StaysSound result (S.is_sound store.old) (S.is_sound store.new) }
    ensures committed { S.committed store.new ≡ S.committed store.old }
    ensures size { S.size store.new ≡ S.size store.old }
    ensures room { S.room store.new ≡ S.room store.old }
{
    if buffer.holds && buffer.changed {
        store.write(buffer.number, &buffer.bytes)?;
        buffer.changed = false;
    }
    Ok(())
}

/// Reads a block into the buffer. The one that it holds is written back first.
pub fn bring<S: BlockStore>(store: &mut S, buffer: &mut Buffer, n: u32) -> Result<(), Refused>
    requires len { vec_len buffer.old.bytes ≡ S.size store.old }
    requires ready { IsTrue (S.is_sound store.old) → IsBuffer (S.size store.old) (S.contents store.old) buffer.old }
    requires there { IsTrue (S.is_sound store.old) → HasBlock (S.size store.old) (S.contents store.old) n }
    ensures contents { OnOk result (IsTrue (S.is_sound store.old) → put_in (S.size store.old) (S.contents store.new) buffer.new ≡ put_in (S.size store.old) (S.contents store.old) buffer.old) }
    ensures length { OnOk result (IsTrue (S.is_sound store.old) → length (S.contents store.new) ≡ length (S.contents store.old)) }
    ensures first { OnOk result (IsTrue (S.is_sound store.old) → KeepsStoredHead (S.size store.old) (S.contents store.old) buffer.old (S.contents store.new)) }
    ensures stands { OnOk result (IsTrue (S.is_sound store.old) → put_in (S.size store.old) (S.contents store.old) buffer.old ≡ S.contents store.old → S.contents store.new ≡ S.contents store.old) }
    ensures ready { OnOk result (IsTrue (S.is_sound store.old) → IsBuffer (S.size store.old) (S.contents store.new) buffer.new) }
    ensures holds { OnOk result ((buffer.new.holds ≡ true) × (buffer.new.number ≡ n)) }
    ensures len { vec_len buffer.new.bytes ≡ S.size store.old }
    ensures refusal { OnlyDevice result }
    ensures counts { CountsDevice result (S.failures store.old) (S.failures store.new) }
    ensures sound { StaysSound result (S.is_sound store.old) (S.is_sound store.new) }
    ensures committed { S.committed store.new ≡ S.committed store.old }
    ensures size { S.size store.new ≡ S.size store.old }
    ensures room { S.room store.new ≡ S.room store.old }
{
    write_back(store, buffer)?;
    store.read(n, &mut buffer.bytes)?;
    buffer.number = n;
    buffer.holds = true;
    buffer.changed = false;
    Ok(())
}

/// Has the buffer hold a block of zeros. What it held is lost.
pub fn hold_zeros(buffer: &mut Buffer, n: u32)
    ensures bytes { buffer.new.bytes.items ≡ replicate (vec_len buffer.old.bytes) 0 }
    ensures len { vec_len buffer.new.bytes ≡ vec_len buffer.old.bytes }
    ensures number { buffer.new.number ≡ n }
    ensures holds { buffer.new.holds ≡ true }
    ensures unchanged { buffer.new.changed ≡ false }
{
    buffer.bytes.fill(0);
    buffer.number = n;
    buffer.holds = true;
    buffer.changed = false;
}
