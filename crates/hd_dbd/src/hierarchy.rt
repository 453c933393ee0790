use crate::naming::Name8;
use std::marker::Model;

/// RULES: where a new twin goes that has no unique key, before or behind the twins of equal key (of all, without
/// key), or before the one on which the position stands.
#[derive(Clone, Copy, Debug, PartialEq, Eq)]
pub enum Rule {
    First,
    Last,
    Here,
}

/// FRSPC: each `fbff`th block is left free for growth (0 for none), and `fspf` percent of every other block.
#[derive(Clone, Copy, PartialEq, Eq)]
pub struct FreeSpace {
    pub fbff: u32,
    pub fspf: u32,
}

/// The sequence field of a type: its first byte, counted from 1, and its length in bytes.
#[derive(Clone, Copy, PartialEq, Eq)]
pub struct Key {
    pub start: u32,
    pub length: u32,
    pub unique: bool,
}

/// What the bytes of a field are, by its `TYPE`: `C`, `X`, `P`, `F` and `H`. Comparisons do not ask for it; programs and tables do.
#[derive(Clone, Copy, PartialEq, Eq)]
pub enum DataType {
    Character,
    Hexadecimal,
    Packed,
    Fullword,
    Halfword,
}

impl DataType {
    ghost use Rattle.std.specs.Prelude.{◌≡◌};
    ghost use Rattle.hd_dbd.specs.DataTypes.{type_letter};

    /// The letter of `TYPE`.
    pub fn letter(self) -> u8
        ensures { result ≡ type_letter self }
    {
        match self {
            DataType::Character => b'C',
            DataType::Hexadecimal => b'X',
            DataType::Packed => b'P',
            DataType::Fullword => b'F',
            DataType::Halfword => b'H',
        }
    }
}

/// A field that a qualification may name: its first byte, counted from 1, its length in bytes, and what they are.
#[derive(Clone, Copy, PartialEq, Eq)]
pub struct Field {
    pub name: Name8,
    pub start: u32,
    pub length: u32,
    pub data_type: DataType,
}

/// A segment type. Its code is its place among the types of the database, from 1, and `parent` is the code of its
/// parent type. `length` is that of its segments in bytes. Where there is a `least` they vary: each has from `least` to
/// `length` bytes, and its first two say how many, themselves counted. `backward` and `last_pointer` say which pointers
/// are kept: twin backward in each segment, and last child in each parent.
#[derive(Drop)]
pub struct SegType {
    pub name: Name8,
    pub parent: Option<u8>,
    pub length: u32,
    pub least: Option<u32>,
    pub key: Option<Key>,
    pub rule: Rule,
    pub backward: bool,
    pub last_pointer: bool,
    pub fields: Vec<Field>,
}

impl Model for SegType {
    ghost use Rattle.hd_dbd.specs.Types.{SegmentType};

    ghost Value = { SegmentType };

    ghost view = { λ t. record {
      name = t.name;
      parent = t.parent;
      length = t.length;
      least = t.least;
      key = t.key;
      rule = t.rule;
      backward = t.backward;
      last_pointer = t.last_pointer;
      fields = t.fields.items;
    } };
}
