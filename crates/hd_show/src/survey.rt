//! What a survey of a volume finds.

use crate::tree::Order;
use hd_dbd::Dbd;

/// What a block is: the header, a data block, an index block of a level, a free block, or a block that reads as none of
/// these.
#[derive(Clone, Copy, PartialEq)]
pub enum Kind {
    Header,
    Data,
    Index(u8),
    Free,
    Damaged,
}

/// A block: what it is, and the bytes in it that segments or entries of the index take.
#[derive(Clone, Copy)]
pub struct BlockUse {
    pub kind: Kind,
    pub used: u16,
}

/// The segments of a type: how many they are, the bytes that they take in data blocks, and of these their own; how many parents
/// have such children, in how many twin chains they stand, and how many are in the longest, with the address of the first of them and, where that is long, of
/// its parent, 0 for none. Of damage, the twin forward
/// pointers that name no segment of the type, and the chains that come upon a segment that is passed already.
#[derive(Clone, Copy)]
pub struct TypeUse {
    pub segments: u32,
    pub stored: u64,
    pub data: u64,
    pub parents: u32,
    pub chains: u32,
    pub longest: u32,
    pub longest_first: u32,
    pub longest_parent: u32,
    pub nowhere: u32,
    pub looping: u32,
}

/// What a survey of a volume finds: what its header says, each of its blocks, and the segments of each type, in the
/// order of the types' codes. The address or the number of a block is 0 for none.
///
/// `counted` is the count of blocks in the header, `behind` are the bytes behind the last whole block, and
/// `index_room` those that entries can take in an index block.
#[derive(Drop)]
pub struct Survey {
    pub version: u16,
    pub counted: u32,
    pub largest: u32,
    pub first_root: u32,
    pub last_root: u32,
    pub top: u32,
    pub height: u32,
    pub behind: u64,
    pub block_size: u32,
    pub index_room: u32,
    pub blocks: Vec<BlockUse>,
    pub types: Vec<TypeUse>,
}

/// Blocks of one kind: how many they are, and the bytes in them that segments or entries take.
#[derive(Clone, Copy)]
pub struct Tally {
    pub blocks: u64,
    pub used: u64,
}

/// The segments of a type or of all types: how many they are, the bytes that they take in data blocks, and of these the
/// bytes of prefixes and of data, the rest being padding; and how many twin chains there are.
#[derive(Clone, Copy)]
pub struct TypeBytes {
    pub segments: u64,
    pub stored: u64,
    pub prefix: u64,
    pub data: u64,
    pub chains: u64,
}

/// The most twins of a chain through which a search goes quickly.
const MANY_TWINS: u32 = 1_000;

impl TypeUse {
    /// Of no segment.
    pub fn none() -> TypeUse {
        TypeUse {
            segments: 0,
            stored: 0,
            data: 0,
            parents: 0,
            chains: 0,
            longest: 0,
            longest_first: 0,
            longest_parent: 0,
            nowhere: 0,
            looping: 0,
        }
    }

    /// Whether the twin chains are damaged: a chain loops, a pointer names nothing, or there are more or fewer chains
    /// than parents.
    pub fn is_damaged(&self) -> bool {
        self.nowhere != 0 || self.looping != 0 || self.chains != self.parents
    }

    /// Whether a twin chain is so long that a search goes through it slowly.
    pub fn has_long_chain(&self) -> bool {
        self.longest > MANY_TWINS
    }

    /// The bytes of the segments, which are of the type of a code.
    pub fn bytes(&self, dbd: &Dbd, code: u8) -> TypeBytes {
        let segments = u64::from(self.segments);
        TypeBytes {
            segments,
            stored: self.stored,
            prefix: segments.saturating_mul(u64::from(dbd.prefix_length(code))),
            data: self.data,
            chains: u64::from(self.chains),
        }
    }
}

impl TypeBytes {
    /// Of no segment.
    pub fn none() -> TypeBytes {
        TypeBytes {
            segments: 0,
            stored: 0,
            prefix: 0,
            data: 0,
            chains: 0,
        }
    }

    /// These and others together.
    pub fn plus(&self, more: &TypeBytes) -> TypeBytes {
        TypeBytes {
            segments: self.segments.saturating_add(more.segments),
            stored: self.stored.saturating_add(more.stored),
            prefix: self.prefix.saturating_add(more.prefix),
            data: self.data.saturating_add(more.data),
            chains: self.chains.saturating_add(more.chains),
        }
    }
}

impl Survey {
    /// The blocks of a kind.
    pub fn tally(&self, kind: Kind) -> Tally {
        let mut tally = Tally { blocks: 0, used: 0 };
        for block in &self.blocks {
            if block.kind == kind {
                tally.blocks = tally.blocks.saturating_add(1);
                tally.used = tally.used.saturating_add(u64::from(block.used));
            }
        }
        tally
    }

    /// The highest level of which there is an index block, 0 where there is none.
    pub fn highest_level(&self) -> u8 {
        let mut highest = 0;
        for block in &self.blocks {
            if let Kind::Index(level) = block.kind {
                highest = level.max(highest);
            }
        }
        highest
    }

    /// How many levels of the index have blocks.
    pub fn levels(&self) -> u32 {
        match self.tally(Kind::Index(0)).blocks {
            0 => 0,
            _ => u32::from(self.highest_level()) + 1,
        }
    }

    /// The bytes that segments or entries can take in a block of a kind.
    pub fn room(&self, kind: Kind) -> u64 {
        match kind {
            Kind::Data => u64::from(self.block_size.saturating_sub(8)),
            Kind::Index(_) => u64::from(self.index_room),
            _ => 0,
        }
    }

    /// What is found of the type of a code.
    pub fn type_use(&self, code: u8) -> TypeUse {
        let place = (code as usize).saturating_sub(1);
        self.types.get(place).copied().unwrap_or(TypeUse::none())
    }

    /// The segments of all types.
    pub fn all_bytes(&self, dbd: &Dbd) -> TypeBytes {
        let mut all = TypeBytes::none();
        for code in Order::of(dbd) {
            all = all.plus(&self.type_use(code).bytes(dbd, code));
        }
        all
    }
}
