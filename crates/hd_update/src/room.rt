ghost use Rattle.std.specs.Prelude.{◌≡◌, ◌⊎◌, ◌+◌, ◌<◌, ◌≤◌, length, true, false, IsTrue, IfOk, OnOk, IfErr};
ghost use Rattle.hd_dbd.specs.DatabaseRules.{well_formed};
ghost use Rattle.hd_dbd.specs.Prefixes.{size_with};
ghost use Rattle.hd_dbd.specs.Refusals.{OnlyDevice, OnlyRoomOrDevice};
ghost use Rattle.hd_dbd.specs.Rows.{row_fits};
ghost use Rattle.hd_calls.specs.Runs.{stored_sizes};
ghost use Rattle.hd_volume.specs.Calls.{IsCall, IsRead};
ghost use Rattle.hd_index_blocks.specs.Needs.{entry_growth, IsHighest};
ghost use Rattle.hd_volume.specs.Rooms.{spare, HasHole};
ghost use Rattle.hd_volume.specs.Volumes.{IsFormatted};
ghost use Rattle.hd_index.specs.Changes.{IsIndexOf};
ghost use Rattle.hd_update.specs.NewRows.{codes_of, are_rows_in, rows_in, IsRoomMade};
ghost use Rattle.hd_update.specs.Putting.{AreFullFor};
ghost use Rattle.hd_get.specs.Starts.{HasRoots};
ghost use Rattle.hd_update.specs.Replacing.{AreInArea, IsRoomAsked, IsRoomMadeFor, LacksRoomToReplace, MakeLonger};
ghost use Rattle.hd_changes.specs.Rooms.{HasRoom, HasRootRoom};

use crate::area::front;
use crate::rewrites::{NewBytes, part_for};
use hd_changes::{has_hole, lacks_room, row_size};
use hd_dbd::{Dbd, Refused};
use hd_index::growth;
use hd_ssa::ResolvedSsa;
use hd_stores::BlockStore;
use hd_volume::Volume;

/// The bytes that the rows of at most 15 arguments, which an area has one behind the other, take together, each with its prefix and rounded
/// up.
fn sizes_of(dbd: &Dbd, ssas: &[ResolvedSsa<'_>], area: &[u8]) -> u32
    requires few { length ssas.now ≤ 15 }
    requires long { are_rows_in dbd.now.types (codes_of ssas.now) area.now ≡ true }
    ensures { result ≡ stored_sizes dbd.now.types (rows_in dbd.now.types (codes_of ssas.now) area.now) }
{
    let mut total: u32 = 0;
    let mut start = 0;
    for place in 0..ssas.len() {
        let code = ssas[place].code();
        let row = front(dbd, code, &area[start..]);
        total += row_size(dbd, code, row);
        start += row.len();
    }
    total
}

/// Makes sure of room and memory for so many rows below another, which take so many bytes together: a hole as large, or a block for each.
fn make_room_below<S: BlockStore>(
    volume: &mut Volume<S>,
    count: u32,
    total: u32,
) -> Result<(), Refused>
    requires formatted { IsTrue volume.old.is_sound → IsFormatted volume.old }
    requires small { volume.old.size ≤ 32768 }
    ensures call { IsCall volume.old result volume.new }
    ensures image { IsTrue volume.new.is_sound → volume.new.image ≡ volume.old.image }
    ensures room { OnOk result (IsTrue volume.old.is_sound → HasRoom count total volume.old) }
    ensures memory { OnOk result (IsTrue volume.old.is_sound → (count ≤ volume.new.room) ⊎ HasHole volume.old total) }
    ensures full { IfErr result (λ e. e ≡ Refused.Full → IsTrue volume.old.is_sound → (spare volume.old < count) × (HasHole volume.old total → ⊥)) }
    ensures refusal { OnlyRoomOrDevice result }
{
    if has_hole(volume, total)? {
        return Ok(());
    }
    if volume.spare() < count {
        return Err(Refused::Full);
    }
    volume.reserve(count)
}

/// Makes sure of room and memory for so many rows of one path, which take so many bytes together, of which the first is a root of a key: for
/// the rows, and for the root's entry in the index.
fn make_root_room<S: BlockStore>(
    volume: &mut Volume<S>,
    dbd: &Dbd,
    key: &[u8],
    count: u32,
    total: u32,
) -> Result<(), Refused>
    requires index { IsTrue volume.old.is_sound → IsIndexOf dbd.now volume.old }
    requires small { volume.old.size ≤ 32768 }
    requires few { count ≤ 15 }
    ensures call { IsCall volume.old result volume.new }
    ensures image { IsTrue volume.new.is_sound → volume.new.image ≡ volume.old.image }
    ensures room { OnOk result (IsTrue volume.old.is_sound → HasRootRoom dbd.now key.now count total volume.old) }
    ensures memory { OnOk result (IsTrue volume.old.is_sound → count + entry_growth volume.new ≤ volume.new.room) }
    ensures full { IfErr result (λ e. e ≡ Refused.Full → IsTrue volume.old.is_sound → (spare volume.old < count + entry_growth volume.old) ⊎ IsHighest volume.old) }
    ensures refusal { OnlyRoomOrDevice result }
{
    let blocks = growth(volume).saturating_add(count);
    if lacks_room(volume, dbd, key, count, total)? {
        return Err(Refused::Full);
    }
    volume.reserve(blocks)
}

/// Makes sure of room and memory for the rows of these arguments, which an area has one behind the other, each below the one before: so many
/// blocks are reserved as they may need, or none where one hole holds all of them and none is a root.
pub fn make_room<S: BlockStore>(
    volume: &mut Volume<S>,
    dbd: &Dbd,
    ssas: &[ResolvedSsa<'_>],
    area: &[u8],
) -> Result<(), Refused>
    requires some { 0 < length ssas.now }
    requires few { length ssas.now ≤ 15 }
    requires long { are_rows_in dbd.now.types (codes_of ssas.now) area.now ≡ true }
    requires size { volume.old.size ≡ dbd.now.block_size }
    requires holds { HasRoots dbd.now volume.old }
    ensures call { IsCall volume.old result volume.new }
    ensures image { IsTrue volume.new.is_sound → volume.new.image ≡ volume.old.image }
    ensures made { OnOk result (IsTrue volume.old.is_sound → IsRoomMade dbd.now volume.new (rows_in dbd.now.types (codes_of ssas.now) area.now)) }
    ensures full { IfErr result (λ e. AreFullFor dbd.now volume.old (rows_in dbd.now.types (codes_of ssas.now) area.now) e) }
    ensures refusal { OnlyRoomOrDevice result }
{
    let code = ssas[0].code();
    let key = dbd.key_of(code, front(dbd, code, area));
    let count = ssas.len() as u32;
    let total = sizes_of(dbd, ssas, area);
    if code == 1 {
        make_root_room(volume, dbd, key, count, total)
    } else {
        make_room_below(volume, count, total)
    }
}

/// How many of the rows that get new bytes are made longer, and how many bytes these take together then, each with its prefix and rounded up.
fn room_asked(dbd: &Dbd, area: &[u8], news: &[NewBytes]) -> (u32, u32)
    requires few { length news.now ≤ 15 }
    requires fit { AreInArea dbd.now.types area.now news.now }
    ensures { IsRoomAsked dbd.now.types area.now news.now result.0 result.1 }
{
    let (mut count, mut total): (u32, u32) = (0, 0);
    for place in 0..news.len() {
        let row = news[place];
        let size = row_size(dbd, row.code, part_for(area, &row));
        if row.had < row.length {
            count += 1;
            total += size;
        }
    }
    (count, total)
}

/// Makes sure of room and memory for the rows that new bytes make longer: a hole as large as all of them, or a block for each. Where no row is
/// made longer none is asked for.
pub fn make_room_to_replace<S: BlockStore>(
    volume: &mut Volume<S>,
    dbd: &Dbd,
    area: &[u8],
    news: &[NewBytes],
) -> Result<(), Refused>
    requires few { length news.now ≤ 15 }
    requires fit { AreInArea dbd.now.types area.now news.now }
    requires formatted { IsTrue volume.old.is_sound → IsFormatted volume.old }
    requires size { volume.old.size ≡ dbd.now.block_size }
    ensures call { IsCall volume.old result volume.new }
    ensures image { IsTrue volume.new.is_sound → volume.new.image ≡ volume.old.image }
    ensures made { OnOk result (IsTrue volume.old.is_sound → IsRoomMadeFor dbd.now.types area.now news.now volume.new) }
    ensures full { IfErr result (λ e. e ≡ Refused.Full → IsTrue volume.old.is_sound → LacksRoomToReplace dbd.now volume.old area.now news.now) }
    ensures longer { IfErr result (λ _. MakeLonger dbd.now.types area.now news.now) }
    ensures refusal { OnlyRoomOrDevice result }
{
    let _ = dbd.types();
    let (count, total) = room_asked(dbd, area, news);
    if count == 0 {
        return Ok(());
    }
    make_room_below(volume, count, total)
}
