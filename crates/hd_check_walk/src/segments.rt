//! What a walk asks of one segment.
ghost use Rattle.std.specs.Prelude.{◌≡◌, ◌≤◌, ◌⊎◌, ℕ, List, length, take, true, Some, IfSome};
ghost use Rattle.hd_dbd.specs.Types.{SegmentType};
ghost use Rattle.hd_dbd.specs.Hierarchy.{Database};
ghost use Rattle.hd_dbd.specs.Prefixes.{prefix_length};
ghost use Rattle.hd_dbd.specs.Rows.{key_of};
ghost use Rattle.hd_prefix.specs.declared.pointer.Pointer.TheVariants.{TwinBackward};
ghost use Rattle.hd_prefix.specs.Fields.{pointer_of, twins_end};
ghost use Rattle.hd_links.specs.Links.{IsSegment, segment_at};
ghost use Rattle.hd_check_walk.specs.Reading.{AreZero, IsChildless, OfRead, IsKeyOf, IsAsSeen, key_front};
ghost use Rattle.hd_check_walk.specs.Forms.{IsFormOf};

use hd_bytes::read_u32;
use hd_check_blocks::{KeyPlace, key_at, key_place, whole_key};
use hd_dbd::{Dbd, number_of_key};
use hd_prefix::{delete_byte_of, twin_forward_of};

/// How many bytes of a key are seen.
pub const FRONT: usize = 8;

/// What a walk sees of a segment that is right by itself: its twin forward, its twin backward, 0 where it is not kept, the first eight bytes
/// of its key, zeros behind a shorter one, and whether it names no children.
#[derive(Clone, Copy)]
pub struct Seen {
    pub forward: u32,
    pub backward: u32,
    pub front: [u8; FRONT],
    pub is_childless: bool,
}

/// The first eight bytes of a key, zeros behind a shorter one.
fn key_front(key: &[u8]) -> [u8; FRONT]
    ensures { result ≡ key_front key.now }
{
    let length = key.len();
    let mut front = [0; FRONT];
    if length >= FRONT {
        front.copy_from_slice(&key[..FRONT]);
    } else if let Some(number) = number_of_key(key, length) {
        return number.to_be_bytes();
    } else {
        front[..length].copy_from_slice(key);
    }
    front
}

/// Where the segments of a type have what a walk asks of them, how long their prefix is and where the twin pointers in it end, and whether the type has no
/// child types.
#[derive(Clone, Copy)]
pub struct Form {
    pub key: Option<KeyPlace>,
    prefix: usize,
    twins_end: usize,
    is_leaf: bool,
}

/// Where the twin pointers of the segments of the type of a code end.
fn twins_end(dbd: &Dbd, code: u8) -> usize
    ensures { result ≡ twins_end dbd.now.types code }
{
    if dbd.keeps_backward(code) { 10 } else { 6 }
}

/// Where the segments of the type of a code have what a walk asks of them.
pub fn form_of(dbd: &Dbd, code: u8) -> Form
    ensures { IsFormOf dbd.now.types code result }
{
    Form {
        key: key_place(dbd, code),
        prefix: dbd.prefix_length(code) as usize,
        twins_end: twins_end(dbd, code),
        is_leaf: dbd.children_of(code).is_empty(),
    }
}

/// Whether the bytes of a segment from one place to before another are all 0, four and four.
fn are_zero(segment: &[u8], start: usize, end: usize) -> bool
    requires { end ≤ length segment.now }
    ensures { result ≡ true → AreZero segment.now start end }
{
    let length = end.saturating_sub(start);
    if length % 4 != 0 {
        return false;
    }
    for index in 0..length / 4 {
        if read_u32(segment, start + 4 * index) != 0 {
            return false;
        }
    }
    true
}

/// Whether a segment names no children.
fn names_no_children(form: &Form, segment: &[u8]) -> bool
    requires { form.now.prefix ≤ length segment.now }
    ensures { result ≡ true → (form.now.is_leaf ≡ true) ⊎ AreZero segment.now form.now.twins_end form.now.prefix }
{
    form.is_leaf || are_zero(segment, form.twins_end, form.prefix)
}

/// The address in the twin backward of a segment, 0 where it is not kept.
fn backward_in(form: &Form, segment: &[u8]) -> u32
    requires { form.now.twins_end ≤ length segment.now }
    ensures { (types : List SegmentType) (code : ℕ) → form.now.twins_end ≡ twins_end types code → result ≡ pointer_of types code TwinBackward segment.now }
{
    if form.twins_end < 10 {
        return 0;
    }
    read_u32(segment, 6)
}

/// What is seen of the segment of a form and a key with which some bytes begin; `None` where its delete byte is not 0.
fn seen_with(form: &Form, key: &[u8], bytes: &[u8]) -> Option<Seen>
    requires twins { (6 ≤ form.now.twins_end) × (form.now.twins_end ≤ form.now.prefix) }
    requires long { form.now.prefix ≤ length bytes.now }
    ensures { (d : Database) (code a n : ℕ) → IsFormOf d.types code form.now → IsKeyOf d.types code (take n bytes.now) key.now → OfRead d a code (take n bytes.now) (λ m. IfSome result (λ s. IsAsSeen d.types m s a)) }
{
    if delete_byte_of(bytes) != 0 {
        return None;
    }
    Some(Seen {
        forward: twin_forward_of(bytes),
        backward: backward_in(form, bytes),
        front: key_front(key),
        is_childless: names_no_children(form, bytes),
    })
}

/// What is seen of a segment by its bytes; `None` where it is not right by itself: it is shorter than its prefix, or its delete byte is not 0.
pub fn seen_in(form: &Form, dbd: &Dbd, code: u8, segment: &[u8]) -> Option<Seen>
    requires form { IsFormOf dbd.now.types code form.now }
    ensures whole { IfSome result (λ s. prefix_length dbd.now.types code ≤ length segment.now) }
    ensures delete_byte { (a : ℕ) → OfRead dbd.now a code segment.now (λ m. IfSome result (λ s. m.delete_byte a ≡ 0)) }
    ensures forward { (a : ℕ) → OfRead dbd.now a code segment.now (λ m. IfSome result (λ s. s.forward ≡ m.forward a)) }
    ensures backward { (a : ℕ) → OfRead dbd.now a code segment.now (λ m. IfSome result (λ s. s.backward ≡ m.backward a)) }
    ensures front { (a : ℕ) → OfRead dbd.now a code segment.now (λ m. IfSome result (λ s. s.front ≡ key_front (key_of dbd.now.types (segment_at m a)))) }
    ensures childless { (a : ℕ) → OfRead dbd.now a code segment.now (λ m. IfSome result (λ s. s.is_childless ≡ true → IsChildless dbd.now.types m a)) }
{
    if form.prefix < form.twins_end || segment.len() < form.prefix {
        return None;
    }
    seen_with(form, key_at(form.key, dbd, code, segment), segment)
}

/// What is seen of the segment of a type whose segments are all of one length, with which some bytes begin; `None` where it is not right by itself, and where
/// there are fewer bytes than it has.
pub fn seen_first(form: &Form, own: KeyPlace, dbd: &Dbd, code: u8, bytes: &[u8]) -> Option<Seen>
    requires form { IsFormOf dbd.now.types code form.now }
    requires own { form.now.key ≡ Some own }
    ensures { (a n : ℕ) → OfRead dbd.now a code (take n bytes.now) (λ m. IsSegment m a → IfSome result (λ s. IsAsSeen dbd.now.types m s a)) }
{
    let _types = dbd.types();
    if form.prefix < form.twins_end || bytes.len() < form.prefix {
        return None;
    }
    let key = whole_key(own, bytes)?;
    seen_with(form, key, bytes)
}
