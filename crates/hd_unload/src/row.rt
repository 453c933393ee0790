ghost use Rattle.std.specs.Prelude.{◌≡◌, ◌≢◌, ◌⊎◌, ◌+◌, ◌<◌, List, length, true, false, None, IsTrue, IfOk, IfErr, OnOk};
ghost use Rattle.hd_dbd.specs.Facts.{stored_sizes};
ghost use Rattle.hd_dbd.specs.DatabaseRules.{well_formed};
ghost use Rattle.hd_dbd.specs.Prefixes.{size_with};
ghost use Rattle.hd_dbd.specs.Segment.{Segment};
ghost use Rattle.hd_dbd.specs.Rows.{row_fits, key_of, next_path};
ghost use Rattle.hd_dbd.specs.Loads.{load_fault};
ghost use Rattle.hd_dbd.specs.Refusals.{OnlyDevice, OnlyRoomOrDevice};
ghost use Rattle.hd_volume.specs.Calls.{IsCall};
ghost use Rattle.hd_volume.specs.Indexes.{root_key_length};
ghost use Rattle.hd_index_blocks.specs.Needs.{entry_growth, IsHighest};
ghost use Rattle.hd_volume.specs.Rooms.{spare};
ghost use Rattle.hd_links.specs.LastRows.{segments_of};
ghost use Rattle.hd_index.specs.Changes.{IsIndexOf};
ghost use Rattle.hd_unload.specs.Steps.{row_of, HasRootRoom, CanLoadRoot, CanLoad, IsRootLoadedAt, IsLoadedAt, IsFullFor, IsLoadedTo, IsLoadedBehind};

use crate::judge::{parent_on, twin_on};
use crate::path::{LoadPath, Loaded};
use hd_changes::{lacks_room, row_size};
use hd_dbd::{Dbd, Refused};
use hd_forest::link;
use hd_index::{blocks_needed, growth, insert};
use hd_stores::BlockStore;
use hd_volume::{NO_SPACING, Volume};

/// The key of a root, which is as long as the keys of the index.
pub fn root_key<'a>(dbd: &Dbd, bytes: &'a [u8]) -> &'a [u8]
    requires { row_fits dbd.now.types (row_of 1 bytes.now) ≡ true }
    ensures key { result.now ≡ key_of dbd.now.types (row_of 1 bytes.now) }
    ensures whole { length result.now ≡ root_key_length dbd.now.types }
{
    dbd.key_of(1, bytes)
}

/// Keeps nothing free any more where a root's entry in the index needs all blocks that are to spare: a hole is all that is left for its segment then.
fn stop_spacing<S: BlockStore>(
    volume: &mut Volume<S>,
    dbd: &Dbd,
    bytes: &[u8],
) -> Result<(), Refused>
    requires fits { row_fits dbd.now.types (row_of 1 bytes.now) ≡ true }
    requires index { IsTrue volume.old.is_sound → IsIndexOf dbd.now volume.old }
    ensures call { IsCall volume.old result volume.new }
    ensures image { IsTrue volume.new.is_sound → volume.new.image ≡ volume.old.image }
    ensures refusal { OnlyDevice result }
{
    if !volume.leaves_space() || growth(volume) < volume.spare() {
        return Ok(());
    }
    let entry = blocks_needed(volume, dbd, root_key(dbd, bytes))?;
    if entry == volume.spare() {
        volume.set_spacing(NO_SPACING);
    }
    Ok(())
}

/// Links a root behind the last one, and enters it into the index, which have room for it.
fn load_root<S: BlockStore>(
    volume: &mut Volume<S>,
    dbd: &Dbd,
    after: u32,
    bytes: &[u8],
) -> Result<u32, Refused>
    requires sizes { (volume.old.size ≡ dbd.now.block_size) × (volume.old.sizes ≡ stored_sizes dbd.now.types) }
    requires fits { row_fits dbd.now.types (row_of 1 bytes.now) ≡ true }
    requires can { IsTrue volume.old.is_sound → CanLoadRoot dbd.now volume.old after (row_of 1 bytes.now) }
    requires room { IsTrue volume.old.is_sound → HasRootRoom dbd.now volume.old (row_of 1 bytes.now) }
    ensures call { IsCall volume.old result volume.new }
    ensures loaded { IfOk result (λ a. IsTrue volume.old.is_sound → IsRootLoadedAt dbd.now volume.old after (row_of 1 bytes.now) a volume.new) }
    ensures not_full { IfErr result (λ e. e ≡ Refused.Full → IsTrue volume.old.is_sound → ⊥) }
    ensures refusal { OnlyRoomOrDevice result }
{
    let address = link(volume, dbd, 0, after, 1, bytes)?;
    insert(volume, dbd, root_key(dbd, bytes), address)?;
    Ok(address)
}

/// Loads a root behind the last one where there is room for it.
fn load_root_with_room<S: BlockStore>(
    volume: &mut Volume<S>,
    dbd: &Dbd,
    after: u32,
    bytes: &[u8],
) -> Result<u32, Refused>
    requires sizes { (volume.old.size ≡ dbd.now.block_size) × (volume.old.sizes ≡ stored_sizes dbd.now.types) }
    requires fits { row_fits dbd.now.types (row_of 1 bytes.now) ≡ true }
    requires can { IsTrue volume.old.is_sound → CanLoadRoot dbd.now volume.old after (row_of 1 bytes.now) }
    ensures call { IsCall volume.old result volume.new }
    ensures loaded { IfOk result (λ a. IsTrue volume.old.is_sound → IsRootLoadedAt dbd.now volume.old after (row_of 1 bytes.now) a volume.new) }
    ensures full { IfErr result (λ e. IsFullFor dbd.now volume.old (row_of 1 bytes.now) e) }
    ensures refusal { OnlyRoomOrDevice result }
{
    stop_spacing(volume, dbd, bytes)?;
    if lacks_room(
        volume,
        dbd,
        root_key(dbd, bytes),
        1,
        row_size(dbd, 1, bytes),
    )? {
        return Err(Refused::Full);
    }
    load_root(volume, dbd, after, bytes)
}

/// Links a row that is no root behind the last row, and says its address.
fn load_dependent<S: BlockStore>(
    volume: &mut Volume<S>,
    dbd: &Dbd,
    parent: u32,
    after: u32,
    code: u8,
    bytes: &[u8],
) -> Result<u32, Refused>
    requires dependent { code ≢ 1 }
    requires sizes { volume.old.sizes ≡ stored_sizes dbd.now.types }
    requires fits { row_fits dbd.now.types (row_of code bytes.now) ≡ true }
    requires can { IsTrue volume.old.is_sound → CanLoad dbd.now volume.old parent after (row_of code bytes.now) }
    ensures call { IsCall volume.old result volume.new }
    ensures loaded { IfOk result (λ a. IsTrue volume.old.is_sound → IsLoadedAt dbd.now volume.old parent after (row_of code bytes.now) a volume.new) }
    ensures full { IfErr result (λ e. IsFullFor dbd.now volume.old (row_of code bytes.now) e) }
    ensures refusal { OnlyRoomOrDevice result }
{
    link(volume, dbd, parent, after, code, bytes)
}

/// Loads a row behind the last one, below its parent if it has one, and says its address.
fn load_behind<S: BlockStore>(
    volume: &mut Volume<S>,
    dbd: &Dbd,
    parent: u32,
    after: u32,
    code: u8,
    bytes: &[u8],
) -> Result<u32, Refused>
    requires sizes { (volume.old.size ≡ dbd.now.block_size) × (volume.old.sizes ≡ stored_sizes dbd.now.types) }
    requires fits { row_fits dbd.now.types (row_of code bytes.now) ≡ true }
    requires can { IsTrue volume.old.is_sound → CanLoad dbd.now volume.old parent after (row_of code bytes.now) }
    ensures call { IsCall volume.old result volume.new }
    ensures loaded { IfOk result (λ a. IsTrue volume.old.is_sound → IsLoadedAt dbd.now volume.old parent after (row_of code bytes.now) a volume.new) }
    ensures full { IfErr result (λ e. IsFullFor dbd.now volume.old (row_of code bytes.now) e) }
    ensures refusal { OnlyRoomOrDevice result }
{
    if code == 1 {
        load_root_with_room(volume, dbd, after, bytes)
    } else {
        load_dependent(volume, dbd, parent, after, code, bytes)
    }
}

/// Loads a row behind the last one; the path becomes that of the row.
pub fn load_row<'a, S: BlockStore>(
    volume: &mut Volume<S>,
    dbd: &Dbd,
    path: &mut LoadPath<'a>,
    code: u8,
    bytes: &'a [u8],
) -> Result<(), Refused>
    requires sizes { (volume.old.size ≡ dbd.now.block_size) × (volume.old.sizes ≡ stored_sizes dbd.now.types) }
    requires fits { row_fits dbd.now.types (row_of code bytes.now) ≡ true }
    requires may { load_fault dbd.now.types (segments_of path.old) (row_of code bytes.now) ≡ None }
    requires loaded { IsTrue volume.old.is_sound → (rows : List Segment) × IsLoadedTo dbd.now rows path.old volume.old }
    ensures call { IsCall volume.old result volume.new }
    ensures loaded { OnOk result (IsTrue volume.old.is_sound → IsLoadedBehind dbd.now volume.old path.old (row_of code bytes.now) path.new volume.new) }
    ensures path { OnOk result (segments_of path.new ≡ next_path dbd.now.types (segments_of path.old) (row_of code bytes.now)) }
    ensures fit { OnOk result (IsTrue (well_formed dbd.now.block_size dbd.now.frspc dbd.now.types)) }
    ensures full { IfErr result (λ e. IsFullFor dbd.now volume.old (row_of code bytes.now) e) }
    ensures refusal { OnlyRoomOrDevice result }
{
    let parent = parent_on(path, dbd, code);
    let after = twin_on(path, dbd, code);
    let address = load_behind(volume, dbd, parent, after, code, bytes)?;
    path.step(
        dbd.level(code),
        Loaded {
            address,
            code,
            bytes,
        },
    );
    Ok(())
}
