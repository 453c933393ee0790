ghost use Rattle.std.specs.Prelude.{◌≡◌, []};
ghost use Rattle.hd_dbd.specs.Loads.{lacks_parent, load_fault};
ghost use Rattle.hd_links.specs.LastRows.{segments_of, parent_on_path, twin_on_path};

use crate::path::LoadPath;
use hd_changes::order_fault;
use hd_dbd::{Dbd, LoadFault};

/// Whether the parent type of a row is not on the path of the row loaded last.
fn lacks_parent(path: &LoadPath<'_>, dbd: &Dbd, code: u8) -> bool
    ensures { result ≡ lacks_parent dbd.now.types (segments_of path.now) (record { code = code; bytes = [] }) }
{
    match dbd.parent_of(code) {
        None => false,
        Some(parent) => !path.has_type(parent),
    }
}

/// Why a row may not be loaded behind the last row of a path, if there is a reason.
pub fn load_fault(path: &LoadPath<'_>, dbd: &Dbd, code: u8, bytes: &[u8]) -> Option<LoadFault>
    ensures { result ≡ load_fault dbd.now.types (segments_of path.now) (record { code = code; bytes = bytes.now }) }
{
    if lacks_parent(path, dbd, code) {
        return Some(LoadFault::LD);
    }
    let place = (dbd.level(code) as usize).saturating_sub(1);
    match path.row(place) {
        None => None,
        Some(before) => order_fault(dbd, before.code, before.bytes, code, bytes),
    }
}

/// The address of a row's parent on a path, 0 for a root.
pub fn parent_on(path: &LoadPath<'_>, dbd: &Dbd, code: u8) -> u32
    ensures { result ≡ parent_on_path dbd.now.types path.now (record { code = code; bytes = [] }) }
{
    if dbd.parent_of(code).is_none() {
        return 0;
    }
    let place = (dbd.level(code) as usize).saturating_sub(2);
    match path.row(place) {
        None => 0,
        Some(row) => row.address,
    }
}

/// The address of a row's preceding twin on a path, 0 where it is the first of its type.
pub fn twin_on(path: &LoadPath<'_>, dbd: &Dbd, code: u8) -> u32
    ensures { result ≡ twin_on_path dbd.now.types path.now (record { code = code; bytes = [] }) }
{
    let place = (dbd.level(code) as usize).saturating_sub(1);
    match path.row(place) {
        Some(row) if row.code == code => row.address,
        _ => 0,
    }
}
