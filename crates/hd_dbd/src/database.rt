ghost use Rattle.std.specs.Prelude.{◌≡◌, ◌⊎◌, true, is_none, ◌≤◌, length, Some, None, IsTrue, IfOk, OnOk, IfErr, option_copied};
ghost use Rattle.hd_dbd.specs.Hierarchy.{type_of, parent_of, level_of, is_under, longest_path};
ghost use Rattle.hd_dbd.specs.Prefixes.{is_backward_kept, is_last_kept, prefix_length, pointers_at, children_of, size_with, stored_size};
ghost use Rattle.hd_dbd.specs.Facts.{segment_size};
ghost use Rattle.hd_dbd.specs.Lengths.{length_in, some_vary};
ghost use Rattle.hd_dbd.specs.Rows.{key_of, row_fits, keys_in_order};
ghost use Rattle.hd_dbd.specs.Loads.{has_unique_key};
ghost use Rattle.hd_dbd.specs.DatabaseRules.{well_formed};
ghost use Rattle.hd_dbd.specs.DatabaseFaults.{size_fault, database_fault};

use crate::facts::{
    SegmentSize, TypeFacts, children_in, children_lists, facts_in, facts_of, levels_of,
    longest_path, type_of,
};
use crate::hierarchy::{FreeSpace, SegType};
use crate::keys::{compare_keys, key_in};
use crate::lengths::{length_fits, own_length};
use crate::naming::Name8;
use crate::rules::{block_size_fits, free_space_fits, types_fault};
use std::alloc::{AllocError, Global};
use std::fmt;
use std::marker::Model;
use thiserror::Error;

/// Why a DBD is refused: the rule that it breaks, with the code of the segment type that breaks it where the rule is
/// of one. `Memory` says nothing of the DBD.
#[derive(Clone, Copy, Debug, Drop, PartialEq, Eq, Error)]
pub enum DbdFault {
    /// No segment type.
    B1,
    /// More than 255 segment types.
    B2,
    /// More than 15 levels.
    B3(u8),
    /// A parent that is no earlier type; a root with a parent.
    B4(u8),
    /// A segment, field or key without a byte; a least length of fewer than the two bytes that say how many there are, or of
    /// more than the segment has; or a field or key outside the shortest segment.
    B5(u8),
    /// A root without a unique key.
    B6(u8),
    /// A name that an earlier type has, or that two fields of the type have.
    B7(u8),
    /// A segment, or three entries of the index, that do not fit into a block.
    B8(u8),
    /// A key of more than 255 bytes.
    B9(u8),
    /// A block size that is no multiple of 8 from 128 to 32,768, or FRSPC out of range.
    B10,
    /// No memory.
    Memory,
}

impl fmt::Display for DbdFault {
    fn fmt<W: fmt::Write>(&self, f: &mut fmt::Formatter<W>) -> fmt::Result {
        let (code, rule) = match *self {
            DbdFault::B1 => (0, 1),
            DbdFault::B2 => (0, 2),
            DbdFault::B3(code) => (code, 3),
            DbdFault::B4(code) => (code, 4),
            DbdFault::B5(code) => (code, 5),
            DbdFault::B6(code) => (code, 6),
            DbdFault::B7(code) => (code, 7),
            DbdFault::B8(code) => (code, 8),
            DbdFault::B9(code) => (code, 9),
            DbdFault::B10 => (0, 10),
            DbdFault::Memory => return f.write_str("no memory"),
        };
        write!(f, "type {code}, B{rule}")
    }
}

impl From<AllocError> for DbdFault {
    ghost use Rattle.hd_dbd.specs.declared.database.DbdFault.TheVariants.{Memory};
    ghost use Rattle.std.specs.Prelude.{◌≡◌};

    ghost from_gives = { λ _ e. e ≡ Memory };

    fn from(_refused: AllocError) -> DbdFault {
        DbdFault::Memory
    }
}

/// A well-formed database description: its name, its block size and FRSPC, and its segment types.
///
/// It also keeps what layers ask of a type again and again, so that nothing is worked out at an access.
#[derive(Drop)]
pub struct Dbd {
    name: Name8,
    block_size: u32,
    frspc: FreeSpace,
    types: Vec<SegType>,
    facts: Vec<TypeFacts>,
    children: Vec<Vec<u8>>,
    longest: usize,
}

impl Model for Dbd {
    ghost use Rattle.std.specs.Prelude.{◌≡◌, IsTrue, map};
    ghost use Rattle.hd_dbd.specs.Hierarchy.{Database, longest_path};
    ghost use Rattle.hd_dbd.specs.DatabaseRules.{well_formed};
    ghost use Rattle.hd_dbd.specs.Facts.{facts_of, children_lists};

    ghost Value = { Database };

    ghost view = { λ d. record { name = d.name; block_size = d.block_size; frspc = d.frspc; types = d.types.items } };

    ghost invariant = { λ d.
        IsTrue (well_formed d.block_size d.frspc d.types.items)
        × (d.facts.items ≡ facts_of d.types.items)
        × (map (λ v. v.items) d.children.items ≡ children_lists d.types.items)
        × (d.longest ≡ longest_path d.types.items) };
}

impl Dbd {
    ghost use Rattle.hd_dbd.specs.Facts.{facts_at};

    /// A database of these types, where they keep to the rules that `DbdFault` names; else the first fault. The block
    /// size is in bytes. B10, B1 and B2 are told without memory.
    pub fn new(
        alloc: Global,
        name: Name8,
        block_size: u32,
        frspc: FreeSpace,
        types: Vec<SegType>,
    ) -> Result<Dbd, DbdFault>
        ensures ok { IfOk result (λ d. d ≡ record { name = name; block_size = block_size; frspc = frspc; types = types.items }) }
        ensures well_formed { OnOk result (IsTrue (well_formed block_size frspc types.items)) }
        ensures none { OnOk result (database_fault block_size frspc types.items ≡ None) }
        ensures fault { IfErr result (λ f. (f ≡ DbdFault.Memory) ⊎ (database_fault block_size frspc types.items ≡ Some f)) }
        ensures memory { IfErr result (λ f. f ≡ DbdFault.Memory → is_none (size_fault block_size frspc types.items) ≡ true) }
    {
        if !block_size_fits(block_size) || !free_space_fits(&frspc) {
            return Err(DbdFault::B10);
        }
        if types.is_empty() {
            return Err(DbdFault::B1);
        }
        if types.len() > 255 {
            return Err(DbdFault::B2);
        }
        let levels = levels_of(alloc, &types)?;
        if let Some(fault) = types_fault(alloc, block_size, &types, &levels)? {
            return Err(fault);
        }
        let facts = facts_of(alloc, &types, &levels)?;
        let children = children_lists(alloc, &types)?;
        let longest = longest_path(alloc, &types)?;
        Ok(Dbd {
            name,
            block_size,
            frspc,
            types,
            facts,
            children,
            longest,
        })
    }

    /// The name in the DBD statement.
    pub fn name(&self) -> &Name8
        ensures { result.now ≡ self.now.name }
    {
        &self.name
    }

    /// The bytes of a block.
    pub fn block_size(&self) -> u32
        ensures value { result ≡ self.now.block_size }
        ensures bounds { (128 ≤ result) × (result ≤ 32768) }
    {
        self.block_size
    }

    /// How much space a load leaves free.
    pub fn frspc(&self) -> FreeSpace
        ensures { result ≡ self.now.frspc }
    {
        self.frspc
    }

    /// The segment types in the order of their codes, the first of which is 1.
    pub fn types(&self) -> &[SegType]
        ensures types { result.now ≡ self.now.types }
        ensures fit { IsTrue (well_formed self.now.block_size self.now.frspc self.now.types) }
    {
        &self.types
    }

    /// The type of a code, if there is one.
    pub fn type_of(&self, code: u8) -> Option<&SegType>
        ensures value { option_copied result ≡ type_of self.now.types code }
        ensures fit { IsTrue (well_formed self.now.block_size self.now.frspc self.now.types) }
    {
        type_of(&self.types, code)
    }

    /// The code of the type's parent; `None` for the root and for no type.
    pub fn parent_of(&self, code: u8) -> Option<u8>
        ensures { result ≡ parent_of self.now.types code }
    {
        self.type_of(code)?.parent
    }

    /// The type stands below the other, at any level.
    pub fn is_under(&self, code: u8, above: u8) -> bool
        ensures { result ≡ is_under self.now.types code above }
    {
        let mut below = code;
        let mut levels = self.level(code);
        while levels > 0 {
            levels -= 1;
            let Some(parent) = self.parent_of(below) else {
                return false;
            };
            if parent == above {
                return true;
            }
            below = parent;
        }
        false
    }

    /// The level of a type, 1 for the root; 0 for no type.
    pub fn level(&self, code: u8) -> u8
        ensures level { result ≡ level_of self.now.types code }
        ensures bound { result ≤ 15 }
        ensures fit { IsTrue (well_formed self.now.block_size self.now.frspc self.now.types) }
    {
        self.facts_of(code).level
    }

    /// The bytes of a type's prefix: code, delete byte and pointers; 0 for no type.
    pub fn prefix_length(&self, code: u8) -> u16
        ensures { result ≡ prefix_length self.now.types code }
    {
        self.facts_of(code).prefix
    }

    /// Where in the prefix of its parent the pointers to a type's twins stand; 0 for the root and for no type.
    pub fn pointers_at(&self, code: u8) -> u16
        ensures { result ≡ pointers_at self.now.types code }
    {
        self.facts_of(code).pointers
    }

    /// Segments of the type keep twin backward: the root's always, others where POINTER says so.
    pub fn keeps_backward(&self, code: u8) -> bool
        ensures { result ≡ is_backward_kept self.now.types code }
    {
        self.type_of(code)
            .is_some_and(|segment| code == 1 || segment.backward)
    }

    /// The parents of the type's segments keep last child, where PARENT says DBLE; above roots the header keeps last root.
    pub fn keeps_last_child(&self, code: u8) -> bool
        ensures { result ≡ is_last_kept self.now.types code }
    {
        code == 1
            || self
                .type_of(code)
                .is_some_and(|segment| segment.last_pointer)
    }

    /// The type has a unique key.
    pub fn has_unique_key(&self, code: u8) -> bool
        ensures { result ≡ has_unique_key self.now.types code }
    {
        let Some(segment) = self.type_of(code) else {
            return false;
        };
        segment.key.is_some_and(|key| key.unique)
    }

    /// The key in the bytes of a segment of the type, without bytes where there is none.
    pub fn key_of<'b>(&self, code: u8, bytes: &'b [u8]) -> &'b [u8]
        ensures value { result.now ≡ key_of self.now.types (record { code = code; bytes = bytes.now }) }
        ensures fit { IsTrue (well_formed self.now.block_size self.now.frspc self.now.types) }
    {
        match self.type_of(code) {
            Some(segment) => key_in(segment, bytes),
            None => &[],
        }
    }

    /// Of twins of the type, the second key may stand behind the first.
    pub fn keys_in_order(&self, code: u8, before: &[u8], after: &[u8]) -> bool
        ensures { result ≡ keys_in_order self.now.types code before.now after.now }
    {
        let Some(segment) = self.type_of(code) else {
            return false;
        };
        let Some(key) = &segment.key else {
            return true;
        };
        let order = compare_keys(before, after);
        if key.unique {
            order.is_lt()
        } else {
            order.is_le()
        }
    }

    /// The codes of a type's child types, in order; none for no type.
    pub fn children_of(&self, code: u8) -> &[u8]
        ensures { result.now ≡ children_of self.now.types code }
    {
        children_in(&self.children, code)
    }

    /// These may be the bytes of a segment of the type: as many as the type says, or, where its segments vary, as many as
    /// their first two say, no fewer and no more than it may have.
    pub fn row_fits(&self, code: u8, bytes: &[u8]) -> bool
        ensures { result ≡ row_fits self.now.types (record { code = code; bytes = bytes.now }) }
    {
        self.type_of(code)
            .is_some_and(|segment| length_fits(segment, bytes))
    }

    /// Whether the segments of some type vary in length.
    pub fn some_vary(&self) -> bool
        ensures { result ≡ some_vary self.now.types }
    {
        self.types.iter().any(|segment| segment.least.is_some())
    }

    /// How many bytes a segment of the type has that begins with these; 0 for no type.
    pub fn length_in(&self, code: u8, bytes: &[u8]) -> usize
        ensures { result ≡ length_in self.now.types code bytes.now }
    {
        match self.type_of(code) {
            Some(segment) => own_length(segment, bytes) as usize,
            None => 0,
        }
    }

    /// The bytes that a segment of the type takes in a block, with so many bytes of its own: these and its prefix, rounded up to
    /// a multiple of 8.
    pub fn size_with(&self, code: u8, count: usize) -> usize
        requires { count ≤ 4294967295 }
        ensures { result ≡ size_with self.now.types code count }
    {
        (self.prefix_length(code) as usize + count).div_ceil(8) * 8
    }

    /// The bytes that the longest segment of the type takes in a block: its prefix and its bytes, rounded up to a multiple
    /// of 8; 0 for no type.
    pub fn stored_size(&self, code: u8) -> u16
        ensures { result ≡ stored_size self.now.types code }
    {
        self.facts_of(code).size
    }

    /// The bytes that the segments of the type take in a block; 0 each for no type.
    pub fn segment_size(&self, code: u8) -> SegmentSize
        ensures { result ≡ segment_size self.now.types code }
    {
        let Some(segment) = self.type_of(code) else {
            return SegmentSize::Fixed(0);
        };
        match segment.least {
            Some(least) => SegmentSize::Varying(
                self.prefix_length(code),
                least as u16,
                segment.length as u16,
            ),
            None => SegmentSize::Fixed(self.stored_size(code)),
        }
    }

    /// The bytes of the longest path of segments, from a root down.
    pub fn longest_path(&self) -> usize
        ensures { result ≡ longest_path self.now.types }
    {
        self.longest
    }

    /// What is kept of a type; zeros for no type.
    fn facts_of(&self, code: u8) -> TypeFacts
        ensures value { result ≡ facts_at self.now.types code }
        ensures level { result.level ≤ 15 }
        ensures fit { IsTrue (well_formed self.now.block_size self.now.frspc self.now.types) }
    {
        facts_in(&self.facts, code)
    }
}
