ghost use Rattle.std.specs.Prelude.{◌≡◌, ◌<◌, ◌≤◌, true, length, IsTrue, IfOk};
ghost use Rattle.hd_dbd.specs.Prefixes.{prefix_length};
ghost use Rattle.hd_dbd.specs.Refusals.{OnlyDevice};
ghost use Rattle.hd_volume.specs.Calls.{IsRead};
ghost use Rattle.hd_prefix.specs.declared.pointer.Pointer.TheVariants.{FirstChild, LastChild};
ghost use Rattle.hd_prefix.specs.Fields.{code_of, pointer_of, twin_forward_of};
ghost use Rattle.hd_links.specs.Links.{IsSegment, is_child_type};
ghost use Rattle.hd_links.specs.Steps.{LeadsDown};
ghost use Rattle.hd_links.specs.Changes.{CanUnlink};
ghost use Rattle.hd_image.specs.Records.{links_of, pointer_at, IsVolumeOf};
ghost use Rattle.hd_forest.specs.Walks.{tip, parent_on, HasForest};
ghost use Rattle.hd_forest.specs.Twins.{IsTwinWithin, IsBehind};

use crate::path::Path;
use hd_dbd::{Dbd, Refused};
use hd_prefix::{Layout, Pointer, twin_forward_of};
use hd_stores::BlockStore;
use hd_volume::Volume;

/// The code of a lent segment, 0 for no bytes.
pub fn code_in(segment: &[u8]) -> u8
    ensures { result ≡ code_of segment.now }
{
    segment.first().copied().unwrap_or(0)
}

/// The address in a pointer of a lent segment, 0 where it is shorter than its type's prefix.
pub fn pointer_in(dbd: &Dbd, segment: &[u8], pointer: Pointer) -> u32
    ensures { prefix_length dbd.now.types (code_of segment.now) ≤ length segment.now → result ≡ pointer_of dbd.now.types (code_of segment.now) pointer segment.now }
{
    let layout = Layout::of(dbd, code_in(segment));
    if segment.len() < layout.prefix_length() as usize {
        return 0;
    }
    layout.read(segment, pointer)
}

/// The address in twin forward of a lent segment, 0 where it is too short to have one.
pub fn twin_in(segment: &[u8]) -> u32
    ensures twin { 6 ≤ length segment.now → result ≡ twin_forward_of segment.now }
    ensures short { length segment.now < 6 → result ≡ 0 }
{
    if segment.len() < 6 {
        return 0;
    }
    twin_forward_of(segment)
}

/// The address in a pointer of the segment at an address, 0 for none and where it is not kept.
fn read_pointer<S: BlockStore>(
    volume: &mut Volume<S>,
    dbd: &Dbd,
    address: u32,
    pointer: Pointer,
) -> Result<u32, Refused>
    requires of { IsTrue volume.old.is_sound → IsVolumeOf dbd.now volume.old }
    requires there { IsTrue volume.old.is_sound → IsSegment (links_of dbd.now.types volume.old) address }
    ensures read { IsRead volume.old result volume.new }
    ensures value { IfOk result (λ r. IsTrue volume.old.is_sound → r ≡ pointer_at dbd.now.types volume.old pointer address) }
    ensures refusal { OnlyDevice result }
{
    let segment = volume.segment_at(address)?;
    Ok(pointer_in(dbd, segment, pointer))
}

/// The code of the segment at an address.
pub fn code_at<S: BlockStore>(
    volume: &mut Volume<S>,
    dbd: &Dbd,
    address: u32,
) -> Result<u8, Refused>
    requires of { IsTrue volume.old.is_sound → IsVolumeOf dbd.now volume.old }
    requires there { IsTrue volume.old.is_sound → IsSegment (links_of dbd.now.types volume.old) address }
    ensures read { IsRead volume.old result volume.new }
    ensures value { IfOk result (λ r. IsTrue volume.old.is_sound → r ≡ (links_of dbd.now.types volume.old).code address) }
    ensures refusal { OnlyDevice result }
{
    let segment = volume.segment_at(address)?;
    Ok(code_in(segment))
}

/// The address of the next twin of a segment, 0 for none.
pub fn next_twin<S: BlockStore>(
    volume: &mut Volume<S>,
    dbd: &Dbd,
    address: u32,
) -> Result<u32, Refused>
    requires of { IsTrue volume.old.is_sound → IsVolumeOf dbd.now volume.old }
    requires there { IsTrue volume.old.is_sound → IsSegment (links_of dbd.now.types volume.old) address }
    ensures read { IsRead volume.old result volume.new }
    ensures value { IfOk result (λ r. IsTrue volume.old.is_sound → r ≡ (links_of dbd.now.types volume.old).forward address) }
    ensures refusal { OnlyDevice result }
{
    read_pointer(volume, dbd, address, Pointer::TwinForward)
}

/// The address of the first child of a type below a parent, 0 for none; below the address 0, the header, the first root.
pub fn first_child<S: BlockStore>(
    volume: &mut Volume<S>,
    dbd: &Dbd,
    parent: u32,
    code: u8,
) -> Result<u32, Refused>
    requires of { IsTrue volume.old.is_sound → IsVolumeOf dbd.now volume.old }
    requires there { IsTrue volume.old.is_sound → (links_of dbd.now.types volume.old).here parent ≡ true }
    ensures read { IsRead volume.old result volume.new }
    ensures value { IfOk result (λ r. IsTrue volume.old.is_sound → r ≡ (links_of dbd.now.types volume.old).first_child parent code) }
    ensures refusal { OnlyDevice result }
{
    if parent == 0 {
        return Ok(volume.first_root());
    }
    read_pointer(volume, dbd, parent, Pointer::FirstChild(code))
}

/// The address of the last child of a type below a parent, 0 for none and where the type's parents do not keep it; below the
/// address 0, the header, the last root.
pub fn last_child<S: BlockStore>(
    volume: &mut Volume<S>,
    dbd: &Dbd,
    parent: u32,
    code: u8,
) -> Result<u32, Refused>
    requires of { IsTrue volume.old.is_sound → IsVolumeOf dbd.now volume.old }
    requires there { IsTrue volume.old.is_sound → (links_of dbd.now.types volume.old).here parent ≡ true }
    ensures read { IsRead volume.old result volume.new }
    ensures value { IfOk result (λ r. IsTrue volume.old.is_sound → r ≡ (links_of dbd.now.types volume.old).last_child parent code) }
    ensures refusal { OnlyDevice result }
{
    if parent == 0 {
        return Ok(volume.last_root());
    }
    read_pointer(volume, dbd, parent, Pointer::LastChild(code))
}

/// The first and the last of the children of a type below a parent, each 0 for none.
#[derive(Clone, Copy, Debug)]
pub struct EndChildren {
    pub first: u32,
    pub last: u32,
}

/// What a lent segment names as its first and its last child of a type.
fn ends_in(dbd: &Dbd, segment: &[u8], code: u8) -> EndChildren
    ensures first { prefix_length dbd.now.types (code_of segment.now) ≤ length segment.now → result.first ≡ pointer_of dbd.now.types (code_of segment.now) (FirstChild code) segment.now }
    ensures last { prefix_length dbd.now.types (code_of segment.now) ≤ length segment.now → result.last ≡ pointer_of dbd.now.types (code_of segment.now) (LastChild code) segment.now }
{
    let layout = Layout::of(dbd, code_in(segment));
    if segment.len() < layout.prefix_length() as usize {
        return EndChildren { first: 0, last: 0 };
    }
    EndChildren {
        first: layout.read(segment, Pointer::FirstChild(code)),
        last: layout.read(segment, Pointer::LastChild(code)),
    }
}

/// What the segment at an address names as its first and its last child of a type. One access.
fn read_ends<S: BlockStore>(
    volume: &mut Volume<S>,
    dbd: &Dbd,
    address: u32,
    code: u8,
) -> Result<EndChildren, Refused>
    requires of { IsTrue volume.old.is_sound → IsVolumeOf dbd.now volume.old }
    requires there { IsTrue volume.old.is_sound → IsSegment (links_of dbd.now.types volume.old) address }
    ensures read { IsRead volume.old result volume.new }
    ensures first { IfOk result (λ r. IsTrue volume.old.is_sound → r.first ≡ pointer_at dbd.now.types volume.old (FirstChild code) address) }
    ensures last { IfOk result (λ r. IsTrue volume.old.is_sound → r.last ≡ pointer_at dbd.now.types volume.old (LastChild code) address) }
    ensures refusal { OnlyDevice result }
{
    let segment = volume.segment_at(address)?;
    Ok(ends_in(dbd, segment, code))
}

/// The addresses of the first and the last child of a type below a parent, each 0 for none, and the last where the type's parents do not
/// keep it; below the address 0, the header, the first and the last root. One access.
pub fn first_and_last_child<S: BlockStore>(
    volume: &mut Volume<S>,
    dbd: &Dbd,
    parent: u32,
    code: u8,
) -> Result<EndChildren, Refused>
    requires of { IsTrue volume.old.is_sound → IsVolumeOf dbd.now volume.old }
    requires there { IsTrue volume.old.is_sound → (links_of dbd.now.types volume.old).here parent ≡ true }
    ensures read { IsRead volume.old result volume.new }
    ensures first { IfOk result (λ r. IsTrue volume.old.is_sound → r.first ≡ (links_of dbd.now.types volume.old).first_child parent code) }
    ensures last { IfOk result (λ r. IsTrue volume.old.is_sound → r.last ≡ (links_of dbd.now.types volume.old).last_child parent code) }
    ensures refusal { OnlyDevice result }
{
    if parent == 0 {
        return Ok(EndChildren {
            first: volume.first_root(),
            last: volume.last_root(),
        });
    }
    read_ends(volume, dbd, parent, code)
}

/// The last of some addresses, 0 for none.
pub fn last_of(addresses: &[u32]) -> u32
    ensures { result ≡ tip addresses.now }
{
    let mut last = 0;
    for address in addresses {
        last = *address;
    }
    last
}

/// The last address of a path, 0 for none.
pub fn tip_of(path: &Path) -> u32
    ensures { result ≡ tip path.now }
{
    last_of(path.addresses())
}

/// The address before the last of a path: 0, the header, above a root.
pub fn parent_on(path: &Path) -> u32
    ensures { result ≡ parent_on path.now }
{
    let addresses = path.addresses();
    let above = addresses.len().saturating_sub(1);
    last_of(&addresses[..above])
}

/// The address of the twin before one in the chain of twins from a first child, 0 before the first; before the address 0 stands the
/// last of the chain.
fn twin_before<S: BlockStore>(
    volume: &mut Volume<S>,
    dbd: &Dbd,
    first: u32,
    address: u32,
) -> Result<u32, Refused>
    requires of { IsTrue volume.old.is_sound → IsVolumeOf dbd.now volume.old }
    requires there { IsTrue volume.old.is_sound → IsTwinWithin (links_of dbd.now.types volume.old) (length volume.old.image) first address }
    ensures read { IsRead volume.old result volume.new }
    ensures value { IfOk result (λ r. IsTrue volume.old.is_sound → IsBehind (links_of dbd.now.types volume.old) first r address) }
    ensures refusal { OnlyDevice result }
{
    let most = volume.length();
    let mut before = 0;
    let mut twin = first;
    for _ in 0..most {
        if twin == address {
            return Ok(before);
        }
        before = twin;
        twin = next_twin(volume, dbd, twin)?;
    }
    Ok(before)
}

/// The address of the last of the twins of a type below a parent, 0 for none; below the address 0, the header, the last root. Where
/// the type's parents keep no last child the twins are read.
pub fn last_twin<S: BlockStore>(
    volume: &mut Volume<S>,
    dbd: &Dbd,
    parent: u32,
    code: u8,
) -> Result<u32, Refused>
    requires of { IsTrue volume.old.is_sound → IsVolumeOf dbd.now volume.old }
    requires holds { IsTrue volume.old.is_sound → HasForest dbd.now volume.old }
    requires there { IsTrue volume.old.is_sound → (links_of dbd.now.types volume.old).here parent ≡ true }
    requires typed { IsTrue volume.old.is_sound → is_child_type dbd.now.types ((links_of dbd.now.types volume.old).code parent) code ≡ true }
    ensures read { IsRead volume.old result volume.new }
    ensures value { IfOk result (λ r. IsTrue volume.old.is_sound → IsBehind (links_of dbd.now.types volume.old) ((links_of dbd.now.types volume.old).first_child parent code) r 0) }
    ensures refusal { OnlyDevice result }
{
    if dbd.keeps_last_child(code) {
        return last_child(volume, dbd, parent, code);
    }
    let first = first_child(volume, dbd, parent, code)?;
    twin_before(volume, dbd, first, 0)
}

/// The address of the twin before the last row of a path, 0 where it is the first. Where its type keeps no twin backward the
/// twins before it are read.
pub fn prev_twin<S: BlockStore>(
    volume: &mut Volume<S>,
    dbd: &Dbd,
    path: &Path,
) -> Result<u32, Refused>
    requires of { IsTrue volume.old.is_sound → IsVolumeOf dbd.now volume.old }
    requires holds { IsTrue volume.old.is_sound → HasForest dbd.now volume.old }
    requires there { IsTrue volume.old.is_sound → (0 < length path.now) × LeadsDown dbd.now.types (links_of dbd.now.types volume.old) 0 path.now }
    ensures read { IsRead volume.old result volume.new }
    ensures value { IfOk result (λ r. IsTrue volume.old.is_sound → CanUnlink dbd.now.types (links_of dbd.now.types volume.old) (parent_on path.now) r (tip path.now)) }
    ensures refusal { OnlyDevice result }
{
    let (parent, address) = (parent_on(path), tip_of(path));
    let code = code_at(volume, dbd, address)?;
    if dbd.keeps_backward(code) {
        return read_pointer(volume, dbd, address, Pointer::TwinBackward);
    }
    let first = first_child(volume, dbd, parent, code)?;
    twin_before(volume, dbd, first, address)
}
