ghost use Rattle.std.specs.Prelude.{◌≡◌, ℕ, ◌+◌, ◌≤◌, ◌<◌, true, length, IsTrue, IfSome, OnOk};
ghost use Rattle.hd_bytes.specs.Numbers.{number_at};
ghost use Rattle.hd_dbd.specs.declared.hierarchy.FreeSpace.{FreeSpace};
ghost use Rattle.hd_dbd.specs.Hierarchy.{Database};
ghost use Rattle.hd_dbd.specs.Prefixes.{prefix_length};
ghost use Rattle.hd_dbd.specs.DatabaseRules.{well_formed};
ghost use Rattle.hd_dbd.specs.Refusals.{OnlyDevice};
ghost use Rattle.hd_volume.specs.Volumes.{IsFormatted};
ghost use Rattle.hd_volume.specs.Spacing.{LeavesSpace};
ghost use Rattle.hd_volume.specs.Calls.{IsCall};
ghost use Rattle.hd_prefix.specs.Pointers.{place_of};
ghost use Rattle.hd_links.specs.Links.{IsSegment, is_child_type};
ghost use Rattle.hd_image.specs.Records.{links_of, IsVolumeOf};
ghost use Rattle.hd_image.specs.Pointing.{with_pointer};
ghost use Rattle.hd_forest.specs.Sets.{following, preceding, IsTwinPlace, IsRecorded};

use hd_bytes::write_u32;
use hd_dbd::{Dbd, Refused};
use hd_prefix::{Layout, Pointer};
use hd_stores::BlockStore;
use hd_volume::Volume;

/// Writes an address, 0 for none, into a pointer of a record of a type, code 0 for the header; nothing where the type does not
/// keep it.
pub fn set_pointer<S: BlockStore>(
    volume: &mut Volume<S>,
    dbd: &Dbd,
    holder: u32,
    code: u8,
    pointer: Pointer,
    address: u32,
) -> Result<(), Refused>
    requires of { IsTrue volume.old.is_sound → IsVolumeOf dbd.now volume.old }
    requires there { IsTrue volume.old.is_sound → (links_of dbd.now.types volume.old).here holder ≡ true }
    requires typed { IsTrue volume.old.is_sound → (links_of dbd.now.types volume.old).code holder ≡ code }
    ensures call { IsCall volume.old result volume.new }
    ensures set { OnOk result (IsTrue volume.old.is_sound → IsRecorded dbd.now volume.old (with_pointer (links_of dbd.now.types volume.old) pointer holder address) volume.new) }
    ensures refusal { OnlyDevice result }
    ensures room { volume.new.room ≡ volume.old.room }
{
    if holder == 0 {
        set_root(volume, pointer, address);
        return Ok(());
    }
    set_in_segment(volume, dbd, holder, code, pointer, address)
}

/// Names what comes next: the twin forward of a twin, or the first child of the parent where the twin is 0.
pub fn set_following<S: BlockStore>(
    volume: &mut Volume<S>,
    dbd: &Dbd,
    parent: u32,
    twin: u32,
    code: u8,
    address: u32,
) -> Result<(), Refused>
    requires of { IsTrue volume.old.is_sound → IsVolumeOf dbd.now volume.old }
    requires there { IsTrue volume.old.is_sound → IsTwinPlace dbd.now.types (links_of dbd.now.types volume.old) parent code twin }
    ensures call { IsCall volume.old result volume.new }
    ensures set { OnOk result (IsTrue volume.old.is_sound → IsRecorded dbd.now volume.old (following (links_of dbd.now.types volume.old) parent code twin address) volume.new) }
    ensures refusal { OnlyDevice result }
    ensures room { volume.new.room ≡ volume.old.room }
{
    if twin == 0 {
        set_pointer(
            volume,
            dbd,
            parent,
            parent_code(dbd, code),
            Pointer::FirstChild(code),
            address,
        )
    } else {
        set_pointer(volume, dbd, twin, code, Pointer::TwinForward, address)
    }
}

/// Names what came before: the twin backward of a twin, or the last child of the parent where the twin is 0.
pub fn set_preceding<S: BlockStore>(
    volume: &mut Volume<S>,
    dbd: &Dbd,
    parent: u32,
    twin: u32,
    code: u8,
    address: u32,
) -> Result<(), Refused>
    requires of { IsTrue volume.old.is_sound → IsVolumeOf dbd.now volume.old }
    requires there { IsTrue volume.old.is_sound → IsTwinPlace dbd.now.types (links_of dbd.now.types volume.old) parent code twin }
    ensures call { IsCall volume.old result volume.new }
    ensures set { OnOk result (IsTrue volume.old.is_sound → IsRecorded dbd.now volume.old (preceding (links_of dbd.now.types volume.old) parent code twin address) volume.new) }
    ensures refusal { OnlyDevice result }
    ensures room { volume.new.room ≡ volume.old.room }
{
    if twin == 0 {
        set_pointer(
            volume,
            dbd,
            parent,
            parent_code(dbd, code),
            Pointer::LastChild(code),
            address,
        )
    } else {
        set_pointer(volume, dbd, twin, code, Pointer::TwinBackward, address)
    }
}

/// The code of a type's parent, 0 for the root, whose parent is the header.
fn parent_code(dbd: &Dbd, code: u8) -> u8
    ensures { (c : ℕ) → is_child_type dbd.now.types c code ≡ true → result ≡ c }
{
    let _ = dbd.types();
    dbd.parent_of(code).unwrap_or(0)
}

/// Sets a root in the header: it is the header's first or last child of the root's type.
fn set_root<S: BlockStore>(volume: &mut Volume<S>, pointer: Pointer, address: u32)
    requires formatted { IsTrue volume.old.is_sound → IsFormatted volume.old }
    ensures set { IsTrue volume.old.is_sound → (d : Database) → IsVolumeOf d volume.old → IsRecorded d volume.old (with_pointer (links_of d.types volume.old) pointer 0 address) volume.new }
    ensures rest { volume.new ≡ record volume.old { image = volume.new.image } }
    ensures space { (spacing : FreeSpace) → LeavesSpace spacing volume.old → LeavesSpace spacing volume.new }
{
    match pointer {
        Pointer::FirstChild(1) => volume.set_first_root(address),
        Pointer::LastChild(1) => volume.set_last_root(address),
        _ => {}
    }
}

/// Writes an address into a pointer of a segment, where its type keeps it.
fn set_in_segment<S: BlockStore>(
    volume: &mut Volume<S>,
    dbd: &Dbd,
    holder: u32,
    code: u8,
    pointer: Pointer,
    address: u32,
) -> Result<(), Refused>
    requires of { IsTrue volume.old.is_sound → IsVolumeOf dbd.now volume.old }
    requires there { IsTrue volume.old.is_sound → IsSegment (links_of dbd.now.types volume.old) holder }
    requires typed { IsTrue volume.old.is_sound → (links_of dbd.now.types volume.old).code holder ≡ code }
    ensures call { IsCall volume.old result volume.new }
    ensures set { OnOk result (IsTrue volume.old.is_sound → IsRecorded dbd.now volume.old (with_pointer (links_of dbd.now.types volume.old) pointer holder address) volume.new) }
    ensures refusal { OnlyDevice result }
    ensures room { volume.new.room ≡ volume.old.room }
{
    match place_in(dbd, code, pointer) {
        Some(place) => volume.write_at(holder, place as usize, &address_bytes(address)),
        None => Ok(()),
    }
}

/// Where a pointer stands in the prefix of a type's segments, if they keep it.
fn place_in(dbd: &Dbd, code: u8, pointer: Pointer) -> Option<u16>
    ensures place { result ≡ place_of dbd.now.types code pointer }
    ensures inside { IfSome result (λ x. (2 ≤ x) × (x + 4 ≤ prefix_length dbd.now.types code)) }
    ensures fit { IsTrue (well_formed dbd.now.block_size dbd.now.frspc dbd.now.types) }
{
    let _ = dbd.types();
    Layout::of(dbd, code).place_of(pointer)
}

/// An address as it stands in a pointer.
fn address_bytes(address: u32) -> [u8; 4]
    ensures number { number_at 4 result 0 ≡ address }
    ensures length { length result ≡ 4 }
{
    let mut bytes = [0; 4];
    write_u32(&mut bytes, 0, address);
    bytes
}
