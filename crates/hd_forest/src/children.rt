ghost use Rattle.std.specs.Prelude.{◌≡◌, ℕ, ◌≤◌, length, true, IsTrue, IfOk};
ghost use Rattle.hd_dbd.specs.Prefixes.{prefix_length, children_of};
ghost use Rattle.hd_dbd.specs.Refusals.{OnlyDevice};
ghost use Rattle.hd_volume.specs.Calls.{IsRead};
ghost use Rattle.hd_prefix.specs.declared.pointer.Pointer.TheVariants.{FirstChild};
ghost use Rattle.hd_prefix.specs.Fields.{code_of, pointer_of};
ghost use Rattle.hd_links.specs.Links.{IsSegment};
ghost use Rattle.hd_links.specs.Steps.{later_than};
ghost use Rattle.hd_image.specs.Records.{links_of, IsVolumeOf};
ghost use Rattle.hd_forest.specs.Children.{child_in, comes_before, last_named_in, last_type_of, child_behind};

use crate::read::{code_in, pointer_in};
use hd_dbd::{Dbd, Refused};
use hd_prefix::{Layout, Pointer};
use hd_stores::BlockStore;
use hd_volume::Volume;

/// The types that come behind a type, of some types in order.
fn later_than(code: u8, types: &[u8]) -> &[u8]
    ensures { result.now ≡ later_than code types.now }
{
    for (place, later) in types.iter().enumerate() {
        if code < *later {
            return &types[place..];
        }
    }
    &[]
}

/// Whether a lent segment has its prefix and names no children.
fn names_no_children(dbd: &Dbd, segment: &[u8]) -> bool
    ensures { result ≡ true → (t : ℕ) → pointer_of dbd.now.types (code_of segment.now) (FirstChild t) segment.now ≡ 0 }
{
    let layout = Layout::of(dbd, code_in(segment));
    segment.len() >= layout.prefix_length() as usize && layout.names_no_children(segment)
}

/// The first child that a lent segment names, of some types in order, 0 for none.
pub fn child_in(dbd: &Dbd, segment: &[u8], types: &[u8]) -> u32
    ensures { prefix_length dbd.now.types (code_of segment.now) ≤ length segment.now → result ≡ child_in dbd.now.types segment.now types.now }
{
    // One look at the prefix spares several pointers, but not one.
    if types.len() > 1 && names_no_children(dbd, segment) {
        return 0;
    }
    for code in types {
        let child = pointer_in(dbd, segment, Pointer::FirstChild(*code));
        if child != 0 {
            return child;
        }
    }
    0
}

/// Whether a type comes before another, if one is given.
fn comes_before(end: Option<u8>, code: u8) -> bool
    ensures { result ≡ comes_before end code }
{
    match end {
        Some(end) => code < end,
        None => true,
    }
}

/// The last type of which a lent segment names a first child, of some types in order up to before one, if one is given; 0 for none.
fn last_named_in(dbd: &Dbd, segment: &[u8], end: Option<u8>, types: &[u8]) -> u8
    ensures { prefix_length dbd.now.types (code_of segment.now) ≤ length segment.now → result ≡ last_named_in dbd.now.types segment.now end 0 types.now }
{
    let mut last = 0;
    for code in types {
        if !comes_before(end, *code) {
            return last;
        }
        if pointer_in(dbd, segment, Pointer::FirstChild(*code)) != 0 {
            last = *code;
        }
    }
    last
}

/// The first row below a segment of a type behind a type, 0 for none.
pub fn below_later<S: BlockStore>(
    volume: &mut Volume<S>,
    dbd: &Dbd,
    address: u32,
    code: u8,
) -> Result<u32, Refused>
    requires of { IsTrue volume.old.is_sound → IsVolumeOf dbd.now volume.old }
    requires there { IsTrue volume.old.is_sound → IsSegment (links_of dbd.now.types volume.old) address }
    ensures read { IsRead volume.old result volume.new }
    ensures value { IfOk result (λ r. IsTrue volume.old.is_sound → r ≡ child_behind dbd.now.types (links_of dbd.now.types volume.old) address code) }
    ensures refusal { OnlyDevice result }
{
    let segment = volume.segment_at(address)?;
    let types = later_than(code, dbd.children_of(code_in(segment)));
    Ok(child_in(dbd, segment, types))
}

/// The code of the last child type of which a segment has rows, 0 for none; where a type is given, of those before it. One segment is
/// read.
pub fn last_child_type<S: BlockStore>(
    volume: &mut Volume<S>,
    dbd: &Dbd,
    address: u32,
    end: Option<u8>,
) -> Result<u8, Refused>
    requires of { IsTrue volume.old.is_sound → IsVolumeOf dbd.now volume.old }
    requires there { IsTrue volume.old.is_sound → IsSegment (links_of dbd.now.types volume.old) address }
    ensures read { IsRead volume.old result volume.new }
    ensures value { IfOk result (λ r. IsTrue volume.old.is_sound → r ≡ last_type_of dbd.now.types (links_of dbd.now.types volume.old) address end) }
    ensures refusal { OnlyDevice result }
{
    let segment = volume.segment_at(address)?;
    let types = dbd.children_of(code_in(segment));
    Ok(last_named_in(dbd, segment, end, types))
}
