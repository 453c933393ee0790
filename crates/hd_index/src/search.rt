ghost use Rattle.std.specs.Prelude.{◌≡◌, ◌≤◌, true, IsTrue, IfOk, IfSome, option_map};
ghost use Rattle.std.specs.Option.{is_some};
ghost use Rattle.hd_dbd.specs.Refusals.{OnlyDevice};
ghost use Rattle.hd_volume.specs.Calls.{IsRead};
ghost use Rattle.hd_index_blocks.specs.Maps.{address_of, address_from};
ghost use Rattle.hd_index_blocks.specs.Levels.{AreBelow};
ghost use Rattle.hd_index_blocks.specs.IndexSets.{index_entries, HasIndexSet};
ghost use Rattle.hd_index.specs.Changes.{IsIndexOf, entries_for, WhereSound};
ghost use Rattle.hd_index.specs.Searches.{IsSightOf};

use crate::descend::leaf;
use crate::look::{Sight, look, no_sight};
use hd_dbd::{Dbd, Refused};
use hd_index_blocks::root_key_length;
use hd_stores::BlockStore;
use hd_volume::Volume;

/// A root that a search from a key on came to: its address, and whether its key is that one.
#[derive(Clone, Copy, Debug)]
pub struct RootFrom {
    pub address: u32,
    pub is_equal: bool,
}

/// The address of the root of a key, if there is one.
///
/// Over a volume without an index it answers something, or `Device`.
pub fn find<S: BlockStore>(
    volume: &mut Volume<S>,
    dbd: &Dbd,
    key: &[u8],
) -> Result<Option<u32>, Refused>
    ensures read { IsRead volume.old result volume.new }
    ensures value { IfOk result (λ r. IsTrue volume.old.is_sound → IsIndexOf dbd.now volume.old → r ≡ address_of key.now (entries_for dbd.now volume.old)) }
    ensures refusal { OnlyDevice result }
{
    let key_length = root_key_length(dbd);
    let sight = look_up(volume, key_length, key)?;
    Ok(sight.equal)
}

/// The root of the least key that is not below a key, if there is one.
///
/// Over a volume without an index it answers something, or `Device`.
pub fn next_from<S: BlockStore>(
    volume: &mut Volume<S>,
    dbd: &Dbd,
    key: &[u8],
) -> Result<Option<RootFrom>, Refused>
    ensures read { IsRead volume.old result volume.new }
    ensures value { IfOk result (λ r. IsTrue volume.old.is_sound → IsIndexOf dbd.now volume.old → option_map (λ root. root.address) r ≡ address_from key.now (entries_for dbd.now volume.old)) }
    ensures equal { IfOk result (λ r. IfSome r (λ root. IsTrue volume.old.is_sound → IsIndexOf dbd.now volume.old → root.is_equal ≡ is_some (address_of key.now (entries_for dbd.now volume.old)))) }
    ensures refusal { OnlyDevice result }
{
    let key_length = root_key_length(dbd);
    let sight = look_up(volume, key_length, key)?;
    let is_equal = sight.equal.is_some();
    let Some(address) = look_on(volume, key_length, sight, key)? else {
        return Ok(None);
    };
    Ok(Some(RootFrom { address, is_equal }))
}

/// What the block of the sequence set that a key leads to says of it.
fn look_up<S: BlockStore>(
    volume: &mut Volume<S>,
    key_length: usize,
    key: &[u8],
) -> Result<Sight, Refused>
    requires short { key_length ≤ 255 }
    ensures read { IsRead volume.old result volume.new }
    ensures value { IfOk result (λ sight. IsTrue volume.old.is_sound → HasIndexSet key_length volume.old → IsSightOf key_length volume.old key.now sight) }
    ensures refusal { OnlyDevice result }
{
    let n = leaf(volume, key_length, key)?;
    if n == 0 {
        return Ok(no_sight());
    }
    let sight = look(volume, key_length, n, key)?;
    volume.note_block(n);
    Ok(sight)
}

/// The address at the least key that is not below a key, in the block that was looked at or else in the next.
fn look_on<S: BlockStore>(
    volume: &mut Volume<S>,
    key_length: usize,
    seen: Sight,
    key: &[u8],
) -> Result<Option<u32>, Refused>
    requires short { key_length ≤ 255 }
    ensures read { IsRead volume.old result volume.new }
    ensures value { WhereSound volume.old result (λ r. HasIndexSet key_length volume.old → IsSightOf key_length volume.old key.now seen → r ≡ address_from key.now (index_entries key_length volume.old)) }
    ensures refusal { OnlyDevice result }
{
    if seen.from.is_some() || seen.next == 0 {
        return Ok(seen.from);
    }
    let next = look(volume, key_length, seen.next, key)?;
    Ok(next.from)
}

/// A key is above all keys of the index.
pub fn is_above_all<S: BlockStore>(
    volume: &mut Volume<S>,
    key_length: usize,
    key: &[u8],
) -> Result<bool, Refused>
    requires short { key_length ≤ 255 }
    ensures read { IsRead volume.old result volume.new }
    ensures value { IfOk result (λ above. IsTrue volume.old.is_sound → HasIndexSet key_length volume.old → above ≡ true → AreBelow key.now (index_entries key_length volume.old)) }
    ensures refusal { OnlyDevice result }
{
    let sight = look_up(volume, key_length, key)?;
    let found = look_on(volume, key_length, sight, key)?;
    Ok(found.is_none())
}
