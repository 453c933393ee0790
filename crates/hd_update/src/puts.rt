ghost use Rattle.std.specs.Prelude.{◌≡◌, ◌≢◌, ◌+◌, ◌<◌, [], ◌∷◌, length, true, false, IsTrue, IfOk, IfErr};
ghost use Rattle.hd_dbd.specs.Facts.{stored_sizes};
ghost use Rattle.hd_dbd.specs.Refusals.{OnlyDevice, OnlyRoomOrDevice};
ghost use Rattle.hd_dbd.specs.Rows.{row_fits, key_of};
ghost use Rattle.hd_volume.specs.Calls.{IsCall, IsRead};
ghost use Rattle.hd_volume.specs.Indexes.{root_key_length};
ghost use Rattle.hd_volume.specs.Rooms.{spare};
ghost use Rattle.hd_index.specs.Changes.{IsIndexOf};
ghost use Rattle.hd_changes.specs.Rooms.{HasRootRoomFor, HasRootMemoryFor};
ghost use Rattle.hd_update.specs.Putting.{PutsIn, IsFullFor, MayPut, CanPutRoot, LastsBelowRoot};

use hd_changes::{lacks_room, row_size};
use hd_dbd::{Dbd, Refused};
use hd_forest::link;
use hd_index::{growth, insert};
use hd_stores::BlockStore;
use hd_volume::Volume;

/// Puts in a row below another, behind its preceding twin, 0 for none, and says its address. A refusal leaves the bytes as they were.
fn put_dependent<S: BlockStore>(
    volume: &mut Volume<S>,
    dbd: &Dbd,
    parent: u32,
    after: u32,
    code: u8,
    bytes: &[u8],
) -> Result<u32, Refused>
    requires below { IsTrue volume.old.is_sound → parent ≢ 0 }
    requires sizes { volume.old.sizes ≡ stored_sizes dbd.now.types }
    requires fits { row_fits dbd.now.types (record { code = code; bytes = bytes.now }) ≡ true }
    requires may { IsTrue volume.old.is_sound → MayPut dbd.now volume.old parent after (record { code = code; bytes = bytes.now }) }
    ensures call { IsCall volume.old result volume.new }
    ensures put_in { IfOk result (λ a. PutsIn dbd.now volume.old parent after (record { code = code; bytes = bytes.now }) a volume.new) }
    ensures kept { IfErr result (λ _. IsTrue volume.new.is_sound → volume.new.image ≡ volume.old.image) }
    ensures full { IfErr result (λ e. IsFullFor dbd.now volume.old (record { code = code; bytes = bytes.now }) e) }
    ensures refusal { OnlyRoomOrDevice result }
{
    link(volume, dbd, parent, after, code, bytes)
}

/// Links a root behind its preceding twin, 0 for none, and enters it into the index, where there is room and memory for both.
pub fn link_root<S: BlockStore>(
    volume: &mut Volume<S>,
    dbd: &Dbd,
    after: u32,
    bytes: &[u8],
    key: &[u8],
) -> Result<u32, Refused>
    requires size { volume.old.size ≡ dbd.now.block_size }
    requires sizes { volume.old.sizes ≡ stored_sizes dbd.now.types }
    requires fits { row_fits dbd.now.types (record { code = 1; bytes = bytes.now }) ≡ true }
    requires key { key.now ≡ key_of dbd.now.types (record { code = 1; bytes = bytes.now }) }
    requires whole { length key.now ≡ root_key_length dbd.now.types }
    requires can { IsTrue volume.old.is_sound → CanPutRoot dbd.now volume.old after (record { code = 1; bytes = bytes.now }) key.now }
    ensures call { IsCall volume.old result volume.new }
    ensures put_in { IfOk result (λ a. PutsIn dbd.now volume.old 0 after (record { code = 1; bytes = bytes.now }) a volume.new) }
    ensures lasts { IfOk result (λ _. LastsBelowRoot dbd.now volume.old key.now (record { code = 1; bytes = bytes.now }) volume.new) }
    ensures only { IfErr result (λ e. IsTrue volume.old.is_sound → e ≡ Refused.Device) }
    ensures refusal { OnlyRoomOrDevice result }
{
    let address = link(volume, dbd, 0, after, 1, bytes)?;
    insert(volume, dbd, key, address)?;
    Ok(address)
}

/// Puts in a root behind its preceding twin, 0 for none, where memory is reserved for it and its entry, and says its address.
fn put_reserved_root<S: BlockStore>(
    volume: &mut Volume<S>,
    dbd: &Dbd,
    after: u32,
    bytes: &[u8],
) -> Result<u32, Refused>
    requires size { volume.old.size ≡ dbd.now.block_size }
    requires sizes { volume.old.sizes ≡ stored_sizes dbd.now.types }
    requires fits { row_fits dbd.now.types (record { code = 1; bytes = bytes.now }) ≡ true }
    requires may { IsTrue volume.old.is_sound → MayPut dbd.now volume.old 0 after (record { code = 1; bytes = bytes.now }) }
    requires memory { IsTrue volume.old.is_sound → HasRootMemoryFor volume.old (record { code = 1; bytes = bytes.now } ∷ []) }
    ensures call { IsCall volume.old result volume.new }
    ensures put_in { IfOk result (λ a. PutsIn dbd.now volume.old 0 after (record { code = 1; bytes = bytes.now }) a volume.new) }
    ensures kept { IfErr result (λ _. IsTrue volume.new.is_sound → volume.new.image ≡ volume.old.image) }
    ensures full { IfErr result (λ e. IsFullFor dbd.now volume.old (record { code = 1; bytes = bytes.now }) e) }
    ensures refusal { OnlyRoomOrDevice result }
{
    let key = dbd.key_of(1, bytes);
    if lacks_room(volume, dbd, key, 1, row_size(dbd, 1, bytes))? {
        return Err(Refused::Full);
    }
    link_root(volume, dbd, after, bytes, key)
}

/// Puts in a root behind its preceding twin, 0 for none, and says its address. A refusal leaves the bytes as they were.
fn put_root<S: BlockStore>(
    volume: &mut Volume<S>,
    dbd: &Dbd,
    after: u32,
    bytes: &[u8],
) -> Result<u32, Refused>
    requires size { volume.old.size ≡ dbd.now.block_size }
    requires sizes { volume.old.sizes ≡ stored_sizes dbd.now.types }
    requires fits { row_fits dbd.now.types (record { code = 1; bytes = bytes.now }) ≡ true }
    requires may { IsTrue volume.old.is_sound → MayPut dbd.now volume.old 0 after (record { code = 1; bytes = bytes.now }) }
    ensures call { IsCall volume.old result volume.new }
    ensures put_in { IfOk result (λ a. PutsIn dbd.now volume.old 0 after (record { code = 1; bytes = bytes.now }) a volume.new) }
    ensures kept { IfErr result (λ _. IsTrue volume.new.is_sound → volume.new.image ≡ volume.old.image) }
    ensures full { IfErr result (λ e. IsFullFor dbd.now volume.old (record { code = 1; bytes = bytes.now }) e) }
    ensures refusal { OnlyRoomOrDevice result }
{
    let blocks = growth(volume).saturating_add(1);
    volume.reserve(blocks)?;
    put_reserved_root(volume, dbd, after, bytes)
}

/// Puts in a row below a parent, 0 for a root, behind its preceding twin, 0 for none, and says its address. A refusal leaves the bytes as
/// they were.
pub fn put_row<S: BlockStore>(
    volume: &mut Volume<S>,
    dbd: &Dbd,
    parent: u32,
    after: u32,
    code: u8,
    bytes: &[u8],
) -> Result<u32, Refused>
    requires size { volume.old.size ≡ dbd.now.block_size }
    requires sizes { volume.old.sizes ≡ stored_sizes dbd.now.types }
    requires fits { row_fits dbd.now.types (record { code = code; bytes = bytes.now }) ≡ true }
    requires root { IsTrue volume.old.is_sound → code ≡ 1 → parent ≡ 0 }
    requires below { IsTrue volume.old.is_sound → code ≢ 1 → parent ≢ 0 }
    requires may { IsTrue volume.old.is_sound → MayPut dbd.now volume.old parent after (record { code = code; bytes = bytes.now }) }
    ensures call { IsCall volume.old result volume.new }
    ensures put_in { IfOk result (λ a. PutsIn dbd.now volume.old parent after (record { code = code; bytes = bytes.now }) a volume.new) }
    ensures kept { IfErr result (λ _. IsTrue volume.new.is_sound → volume.new.image ≡ volume.old.image) }
    ensures full { IfErr result (λ e. IsFullFor dbd.now volume.old (record { code = code; bytes = bytes.now }) e) }
    ensures refusal { OnlyRoomOrDevice result }
{
    if code == 1 {
        return put_root(volume, dbd, after, bytes);
    }
    put_dependent(volume, dbd, parent, after, code, bytes)
}
