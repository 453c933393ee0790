ghost use Rattle.std.specs.Prelude.{◌≡◌, ◌≤◌, length, IsTrue, IfOk, OnOk};
ghost use Rattle.hd_dbd.specs.Rows.{key_of};
ghost use Rattle.hd_dbd.specs.Refusals.{OnlyDevice};
ghost use Rattle.hd_volume.specs.Calls.{IsCall, IsRead};
ghost use Rattle.hd_links.specs.Links.{segment_at};
ghost use Rattle.hd_image.specs.Records.{links_of};
ghost use Rattle.hd_forest.specs.Walks.{tip, parent_on};
ghost use Rattle.hd_get.specs.Meeting.{IsStored};
ghost use Rattle.hd_get.specs.Searches.{IsOf};
ghost use Rattle.hd_update.specs.Deleting.{IsPlacedSomewhere, TakesOut};

use hd_dbd::{Dbd, Refused};
use hd_forest::{Path, bytes_in, code_at, parent_on, tip_of, unlink_span};
use hd_index::remove;
use hd_stores::BlockStore;
use hd_volume::Volume;
use std::marker::Model;

/// The most bytes that a key has.
const LONGEST_KEY: usize = 255;

/// A copy of a key, which stays when the segment has left.
#[derive(Debug, Drop)]
struct KeyCopy {
    bytes: [u8; LONGEST_KEY],
    count: usize,
}

impl Model for KeyCopy {
    ghost use Rattle.std.specs.Prelude.{ℕ, List, take, ◌≤◌};

    ghost Value = { List ℕ };

    ghost view = { λ k. take k.count k.bytes };

    ghost invariant = { λ k. k.count ≤ 255 };
}

impl KeyCopy {
    /// A copy of a key, as far as there is room for it.
    fn of(key: &[u8]) -> KeyCopy
        ensures { length key.now ≤ 255 → result ≡ key.now }
    {
        let count = key.len().min(LONGEST_KEY);
        let mut bytes = [0; LONGEST_KEY];
        bytes[..count].copy_from_slice(&key[..count]);
        KeyCopy { bytes, count }
    }

    /// The bytes of the key.
    fn as_slice(&self) -> &[u8]
        ensures { result.now ≡ self.now }
    {
        &self.bytes[..self.count]
    }
}

/// A copy of the key of the segment at an address, of the type of a code.
fn key_at<S: BlockStore>(
    volume: &mut Volume<S>,
    dbd: &Dbd,
    address: u32,
    code: u8,
) -> Result<KeyCopy, Refused>
    requires of { IsOf dbd.now volume.old }
    requires there { IsStored dbd.now volume.old address }
    requires typed { IsTrue volume.old.is_sound → (links_of dbd.now.types volume.old).code address ≡ code }
    ensures read { IsRead volume.old result volume.new }
    ensures value { IfOk result (λ key. IsTrue volume.old.is_sound → key ≡ key_of dbd.now.types (segment_at (links_of dbd.now.types volume.old) address)) }
    ensures refusal { OnlyDevice result }
{
    let segment = volume.segment_at(address)?;
    Ok(KeyCopy::of(dbd.key_of(code, bytes_in(dbd, segment))))
}

/// A copy of the key of the last row of a path.
fn key_on<S: BlockStore>(volume: &mut Volume<S>, dbd: &Dbd, path: &Path) -> Result<KeyCopy, Refused>
    requires there { IsPlacedSomewhere dbd.now volume.old path.now }
    ensures read { IsRead volume.old result volume.new }
    ensures value { IfOk result (λ key. IsTrue volume.old.is_sound → key ≡ key_of dbd.now.types (segment_at (links_of dbd.now.types volume.old) (tip path.now))) }
    ensures refusal { OnlyDevice result }
{
    let address = tip_of(path);
    let code = code_at(volume, dbd, address)?;
    key_at(volume, dbd, address, code)
}

/// Unlinks the root of a path with all that depends on it, and takes its key out of the index.
fn delete_root<S: BlockStore>(volume: &mut Volume<S>, dbd: &Dbd, path: &Path) -> Result<(), Refused>
    requires there { IsPlacedSomewhere dbd.now volume.old path.now }
    requires root { parent_on path.now ≡ 0 }
    ensures call { IsCall volume.old result volume.new }
    ensures taken_out { OnOk result (TakesOut dbd.now volume.old path.now volume.new) }
    ensures refusal { OnlyDevice result }
{
    let key = key_on(volume, dbd, path)?;
    unlink_span(volume, dbd, path)?;
    remove(volume, dbd, key.as_slice())
}

/// Unlinks the last row of a path with all that depends on it; the key of a root leaves the index.
pub fn delete_span<S: BlockStore>(
    volume: &mut Volume<S>,
    dbd: &Dbd,
    path: &Path,
) -> Result<(), Refused>
    requires there { IsPlacedSomewhere dbd.now volume.old path.now }
    ensures call { IsCall volume.old result volume.new }
    ensures taken_out { OnOk result (TakesOut dbd.now volume.old path.now volume.new) }
    ensures refusal { OnlyDevice result }
{
    if parent_on(path) == 0 {
        return delete_root(volume, dbd, path);
    }
    unlink_span(volume, dbd, path)
}
