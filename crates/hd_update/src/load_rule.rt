ghost use Rattle.std.specs.Prelude.{◌≡◌, slice_get, IsTrue, IfOk};
ghost use Rattle.hd_dbd.specs.Loads.{order_fault, status_of_load};
ghost use Rattle.hd_dbd.specs.Refusals.{OnlyDevice};
ghost use Rattle.hd_volume.specs.Calls.{IsRead};
ghost use Rattle.hd_links.specs.Links.{segment_at};
ghost use Rattle.hd_image.specs.Records.{links_of};
ghost use Rattle.hd_get.specs.Meeting.{IsStored};
ghost use Rattle.hd_get.specs.Searches.{IsOf};
ghost use Rattle.hd_update.specs.Loading.{HasLastPath, IsCodeOn, IsKeyOrder, SaysParentLacks, IsLoadFault, IsOrderFault, IsLastTwin, last_parent};

use hd_changes::order_fault;
use hd_dbd::{Dbd, LoadFault, Refused, Status, compare_keys};
use hd_forest::{Path, bytes_in, code_at, code_in};
use hd_stores::BlockStore;
use hd_volume::Volume;
use std::cmp::Ordering;

/// The status that says why a row may not be loaded.
pub fn status_of(fault: LoadFault) -> Status
    ensures { result ≡ status_of_load fault }
{
    match fault {
        LoadFault::LB => Status::LB,
        LoadFault::LC => Status::LC,
        LoadFault::LD => Status::LD,
        LoadFault::LE => Status::LE,
    }
}

/// The address at a place, from 0, of a path; none where the path ends before.
fn address_on(path: &Path, place: usize) -> Option<u32>
    ensures { result ≡ slice_get path.now place }
{
    path.addresses().get(place).copied()
}

/// The code of what stands at a place, from 0, of the path of the last row; none where the path ends before. One access at most.
fn code_on<S: BlockStore>(
    volume: &mut Volume<S>,
    dbd: &Dbd,
    path: &Path,
    place: usize,
) -> Result<Option<u8>, Refused>
    requires last { HasLastPath dbd.now volume.old path.now }
    ensures read { IsRead volume.old result volume.new }
    ensures value { IfOk result (λ r. IsCodeOn dbd.now volume.old path.now place r) }
    ensures refusal { OnlyDevice result }
{
    match address_on(path, place) {
        None => Ok(None),
        Some(address) => {
            let code = code_at(volume, dbd, address)?;
            Ok(Some(code))
        }
    }
}

/// Whether the parent type of a row is not on the path of the last row. It could stand at its own level alone.
fn lacks_parent<S: BlockStore>(
    volume: &mut Volume<S>,
    dbd: &Dbd,
    path: &Path,
    code: u8,
) -> Result<bool, Refused>
    requires last { HasLastPath dbd.now volume.old path.now }
    ensures read { IsRead volume.old result volume.new }
    ensures value { IfOk result (λ r. SaysParentLacks dbd.now volume.old path.now code r) }
    ensures refusal { OnlyDevice result }
{
    match dbd.parent_of(code) {
        None => Ok(false),
        Some(parent) => {
            let place = (dbd.level(parent) as usize).saturating_sub(1);
            let there = code_on(volume, dbd, path, place)?;
            Ok(there != Some(parent))
        }
    }
}

/// How the key of the segment at an address, of the type of a code, stands to that of a row of the type. One access.
pub fn key_order<S: BlockStore>(
    volume: &mut Volume<S>,
    dbd: &Dbd,
    address: u32,
    code: u8,
    bytes: &[u8],
) -> Result<Ordering, Refused>
    requires of { IsOf dbd.now volume.old }
    requires there { IsStored dbd.now volume.old address }
    requires typed { IsTrue volume.old.is_sound → (links_of dbd.now.types volume.old).code address ≡ code }
    ensures read { IsRead volume.old result volume.new }
    ensures value { IfOk result (λ r. IsTrue volume.old.is_sound → IsKeyOrder dbd.now volume.old address (record { code = code; bytes = bytes.now }) r) }
    ensures refusal { OnlyDevice result }
{
    let segment = volume.segment_at(address)?;
    let before = dbd.key_of(code, bytes_in(dbd, segment));
    Ok(compare_keys(before, dbd.key_of(code, bytes)))
}

/// Why a row may not be loaded behind the one at an address, the last below its parent, if there is a reason.
fn order_fault_at<S: BlockStore>(
    volume: &mut Volume<S>,
    dbd: &Dbd,
    address: u32,
    code: u8,
    bytes: &[u8],
) -> Result<Option<LoadFault>, Refused>
    requires of { IsOf dbd.now volume.old }
    requires there { IsStored dbd.now volume.old address }
    ensures read { IsRead volume.old result volume.new }
    ensures value { IfOk result (λ r. IsTrue volume.old.is_sound → r ≡ order_fault dbd.now.types (segment_at (links_of dbd.now.types volume.old) address) (record { code = code; bytes = bytes.now })) }
    ensures refusal { OnlyDevice result }
{
    let segment = volume.segment_at(address)?;
    Ok(order_fault(dbd, code_in(segment), bytes_in(dbd, segment), code, bytes))
}

/// Why a row may not be loaded behind the last row of the path of the last row at its own level, if there is a reason.
fn fault_behind<S: BlockStore>(
    volume: &mut Volume<S>,
    dbd: &Dbd,
    path: &Path,
    code: u8,
    bytes: &[u8],
) -> Result<Option<LoadFault>, Refused>
    requires last { HasLastPath dbd.now volume.old path.now }
    ensures read { IsRead volume.old result volume.new }
    ensures value { IfOk result (λ r. IsOrderFault dbd.now volume.old path.now (record { code = code; bytes = bytes.now }) r) }
    ensures refusal { OnlyDevice result }
{
    let place = (dbd.level(code) as usize).saturating_sub(1);
    match address_on(path, place) {
        None => Ok(None),
        Some(address) => order_fault_at(volume, dbd, address, code, bytes),
    }
}

/// Why a row may not be loaded behind the last row, whose path is given, if there is a reason. Three accesses at most.
pub fn load_fault<S: BlockStore>(
    volume: &mut Volume<S>,
    dbd: &Dbd,
    path: &Path,
    code: u8,
    bytes: &[u8],
) -> Result<Option<LoadFault>, Refused>
    requires last { HasLastPath dbd.now volume.old path.now }
    ensures read { IsRead volume.old result volume.new }
    ensures value { IfOk result (λ r. IsLoadFault dbd.now volume.old path.now (record { code = code; bytes = bytes.now }) r) }
    ensures refusal { OnlyDevice result }
{
    if lacks_parent(volume, dbd, path, code)? {
        return Ok(Some(LoadFault::LD));
    }
    fault_behind(volume, dbd, path, code, bytes)
}

/// The address of the parent of a row that is loaded, on the path of the last row, 0 for a root.
pub fn last_parent(dbd: &Dbd, path: &Path, code: u8) -> u32
    ensures { result ≡ last_parent dbd.now.types path.now code }
{
    if dbd.parent_of(code).is_none() {
        return 0;
    }
    let place = (dbd.level(code) as usize).saturating_sub(2);
    address_on(path, place).unwrap_or(0)
}

/// The address of the preceding twin of a row that is loaded, on the path of the last row; 0 where it is the first of its type. One access at
/// most.
pub fn last_twin<S: BlockStore>(
    volume: &mut Volume<S>,
    dbd: &Dbd,
    path: &Path,
    code: u8,
) -> Result<u32, Refused>
    requires last { HasLastPath dbd.now volume.old path.now }
    ensures read { IsRead volume.old result volume.new }
    ensures value { IfOk result (λ r. IsLastTwin dbd.now volume.old path.now code r) }
    ensures refusal { OnlyDevice result }
{
    let place = (dbd.level(code) as usize).saturating_sub(1);
    let there = code_on(volume, dbd, path, place)?;
    if there != Some(code) {
        return Ok(0);
    }
    Ok(address_on(path, place).unwrap_or(0))
}
