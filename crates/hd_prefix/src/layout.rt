ghost use Rattle.std.specs.Prelude.{◌≡◌, ◌≢◌, ◌↔◌, ℕ, ◌+◌, ◌≤◌, length, true, IfSome, OnSome, MatchOption, None, IsTrue, IsFalse};
ghost use Rattle.hd_bytes.specs.Ranges.{ChangesOnly};
ghost use Rattle.hd_dbd.specs.Prefixes.{prefix_length, size_with};
ghost use Rattle.hd_dbd.specs.Rows.{row_fits};
ghost use Rattle.hd_prefix.specs.declared.pointer.Pointer.{Pointer};
ghost use Rattle.hd_prefix.specs.declared.pointer.Pointer.TheVariants.{TwinForward, TwinBackward, FirstChild, LastChild};
ghost use Rattle.hd_prefix.specs.Pointers.{is_child, place_of, IsApart};
ghost use Rattle.hd_prefix.specs.Fields.{pointer_of, bytes_of, twins_end, NamesNoChildren, IsWhole, new_segment, segment_with, IsPointerSet};

use crate::pointer::Pointer;
use hd_bytes::{read_u32, write_bytes, write_u32};
use hd_dbd::Dbd;

/// Where the fields of a type's segments stand: a view over what the database keeps of the type.
#[derive(Clone, Copy)]
pub struct Layout<'a> {
    dbd: &'a Dbd,
    code: u8,
}

impl<'a> Layout<'a> {
    ghost use Rattle.hd_prefix.specs.Layouts.{types_of, type_code, IsFit};

    /// The layout of the segments of the type of a code. Where the code has no type it has no prefix and keeps no
    /// pointer.
    pub fn of(dbd: &'a Dbd, code: u8) -> Layout<'a>
        ensures types { types_of result ≡ dbd.now.types }
        ensures code { type_code result ≡ code }
    {
        Layout { dbd, code }
    }

    /// The bytes of a prefix: code, delete byte and pointers; 0 for no type.
    pub fn prefix_length(&self) -> u16
        ensures { result ≡ prefix_length (types_of self.now) (type_code self.now) }
    {
        self.dbd.prefix_length(self.code)
    }

    /// Whether a stored segment has its prefix and all of its own bytes.
    pub fn is_whole(&self, segment: &[u8]) -> bool
        ensures whole { IsTrue result → IsWhole (types_of self.now) (type_code self.now) segment.now }
        ensures short { IsFalse result → IsWhole (types_of self.now) (type_code self.now) segment.now → ⊥ }
    {
        let prefix = self.prefix_length() as usize;
        match segment.get(prefix..) {
            Some(behind) => self.dbd.length_in(self.code, behind) <= behind.len(),
            None => false,
        }
    }

    /// The own bytes of a stored segment that has its prefix and all of these; `None` where it is shorter.
    pub fn own_bytes<'s>(&self, segment: &'s [u8]) -> Option<&'s [u8]>
        ensures whole { IfSome result (λ bytes. IsWhole (types_of self.now) (type_code self.now) segment.now × (bytes.now ≡ bytes_of (types_of self.now) (type_code self.now) segment.now)) }
        ensures short { result ≡ None → IsWhole (types_of self.now) (type_code self.now) segment.now → ⊥ }
    {
        let behind = segment.get(self.prefix_length() as usize..)?;
        behind.get(..self.dbd.length_in(self.code, behind))
    }

    /// Where a pointer stands in the prefix; `None` where the type does not keep it, or has no such child type. No two
    /// pointers have a byte in common.
    pub fn place_of(&self, pointer: Pointer) -> Option<u16>
        ensures place { result ≡ place_of (types_of self.now) (type_code self.now) pointer }
        ensures inside { IfSome result (λ x. (2 ≤ x) × (x + 4 ≤ prefix_length (types_of self.now) (type_code self.now))) }
        ensures apart { IfSome result (λ x. (other : Pointer) → other ≢ pointer → IfSome (place_of (types_of self.now) (type_code self.now) other) (λ y. IsApart x y)) }
    {
        match pointer {
            Pointer::TwinForward => self.forward_place(),
            Pointer::TwinBackward => self.backward_place(),
            Pointer::FirstChild(child) => self.first_place(child),
            Pointer::LastChild(child) => self.last_place(child),
        }
    }

    /// The address in a pointer of a stored segment; 0 for none, and where the pointer is not kept.
    pub fn read(&self, segment: &[u8], pointer: Pointer) -> u32
        requires { prefix_length (types_of self.now) (type_code self.now) ≤ length segment.now }
        ensures { result ≡ pointer_of (types_of self.now) (type_code self.now) pointer segment.now }
    {
        match self.place_of(pointer) {
            Some(place) => read_u32(segment, place as usize),
            None => 0,
        }
    }

    /// Whether a stored segment names no children: all bytes of its prefix behind the twin pointers are 0.
    pub fn names_no_children(&self, segment: &[u8]) -> bool
        requires { prefix_length (types_of self.now) (type_code self.now) ≤ length segment.now }
        ensures bytes { (result ≡ true) ↔ NamesNoChildren (types_of self.now) (type_code self.now) segment.now }
        ensures firsts { IsTrue result → (t : ℕ) → pointer_of (types_of self.now) (type_code self.now) (FirstChild t) segment.now ≡ 0 }
        ensures lasts { IsTrue result → (t : ℕ) → pointer_of (types_of self.now) (type_code self.now) (LastChild t) segment.now ≡ 0 }
    {
        let _types = self.dbd.types();
        let end = self.prefix_length() as usize;
        let mut place = twins_end(self.dbd, self.code) as usize;
        while place < end {
            if read_u32(segment, place) != 0 {
                return false;
            }
            place += 4;
        }
        true
    }

    /// Writes an address, 0 for none, into a pointer of a stored segment; nothing where the pointer is not kept.
    pub fn write(&self, segment: &mut [u8], pointer: Pointer, address: u32)
        requires { prefix_length (types_of self.now) (type_code self.now) ≤ length segment.old }
        ensures changes { MatchOption (place_of (types_of self.now) (type_code self.now) pointer) (segment.new ≡ segment.old) (λ x. ChangesOnly x 4 segment.old segment.new) }
        ensures set { OnSome (place_of (types_of self.now) (type_code self.now) pointer) (IsPointerSet (types_of self.now) (type_code self.now) pointer address segment.old segment.new) }
    {
        if let Some(place) = self.place_of(pointer) {
            write_u32(segment, place as usize, address);
        }
    }

    /// The segment's own bytes, without prefix and padding; none for no type.
    pub fn bytes<'s>(&self, segment: &'s [u8]) -> &'s [u8]
        requires { IsWhole (types_of self.now) (type_code self.now) segment.now }
        ensures { result.now ≡ bytes_of (types_of self.now) (type_code self.now) segment.now }
    {
        let behind = &segment[self.prefix_length() as usize..];
        &behind[..self.dbd.length_in(self.code, behind)]
    }

    /// Makes room of the size that a row of the type takes the row, as a whole stored segment that no pointer leads from.
    pub fn write_new(&self, segment: &mut [u8], bytes: &[u8])
        requires fits { row_fits (types_of self.now) (record { code = type_code self.now; bytes = bytes.now }) ≡ true }
        requires size { length segment.old ≡ size_with (types_of self.now) (type_code self.now) (length bytes.now) }
        ensures { segment.new ≡ new_segment (types_of self.now) (type_code self.now) bytes.now }
    {
        let prefix = self.prefix_length() as usize;
        segment.fill(0);
        segment[0] = self.code;
        write_bytes(segment, prefix, bytes);
    }

    /// Makes room of the size that a row of the type takes a stored segment of the type with the row's bytes in place of its own.
    pub fn write_with(&self, room: &mut [u8], segment: &[u8], bytes: &[u8])
        requires prefix { prefix_length (types_of self.now) (type_code self.now) ≤ length segment.now }
        requires fits { row_fits (types_of self.now) (record { code = type_code self.now; bytes = bytes.now }) ≡ true }
        requires size { length room.old ≡ size_with (types_of self.now) (type_code self.now) (length bytes.now) }
        ensures { room.new ≡ segment_with (types_of self.now) (type_code self.now) segment.now bytes.now }
    {
        let prefix = self.prefix_length() as usize;
        room.fill(0);
        write_bytes(room, 0, &segment[..prefix]);
        write_bytes(room, prefix, bytes);
    }

    fn forward_place(&self) -> Option<u16>
        ensures { result ≡ place_of (types_of self.now) (type_code self.now) TwinForward }
    {
        match self.dbd.type_of(self.code) {
            Some(_) => Some(2),
            None => None,
        }
    }

    fn backward_place(&self) -> Option<u16>
        ensures { result ≡ place_of (types_of self.now) (type_code self.now) TwinBackward }
    {
        if self.dbd.keeps_backward(self.code) {
            Some(6)
        } else {
            None
        }
    }

    fn first_place(&self, child: u8) -> Option<u16>
        ensures value { result ≡ place_of (types_of self.now) (type_code self.now) (FirstChild child) }
        ensures fit { IsFit self.now }
    {
        if self.is_child(child) {
            Some(self.dbd.pointers_at(child))
        } else {
            None
        }
    }

    fn last_place(&self, child: u8) -> Option<u16>
        ensures value { result ≡ place_of (types_of self.now) (type_code self.now) (LastChild child) }
        ensures fit { IsFit self.now }
    {
        if self.is_child(child) && self.dbd.keeps_last_child(child) {
            Some(self.dbd.pointers_at(child) + 4)
        } else {
            None
        }
    }

    fn is_child(&self, child: u8) -> bool
        ensures value { result ≡ is_child (types_of self.now) (type_code self.now) child }
        ensures fit { IsFit self.now }
    {
        match self.dbd.type_of(child) {
            Some(segment) => segment.parent == Some(self.code),
            None => false,
        }
    }
}

/// Where the twin pointers of the segments of a type end.
fn twins_end(dbd: &Dbd, code: u8) -> u16
    ensures { result ≡ twins_end dbd.now.types code }
{
    if dbd.keeps_backward(code) { 10 } else { 6 }
}
