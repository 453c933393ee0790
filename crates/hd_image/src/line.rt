ghost use Rattle.std.specs.Prelude.{◌≡◌};
ghost use Rattle.hd_image.specs.Standing.{number_of};

/// A line of the fault table, in order of the phases of a check.
#[derive(Clone, Copy, Debug, Drop, PartialEq, Eq)]
pub enum Line {
    /// No volume: too short, wrongly marked or counted.
    NoVolume,
    /// A version that is not known.
    NoVersion,
    /// A volume of another database.
    AnotherDatabase,
    /// A data block's chain of free elements is wrong.
    WrongChain,
    /// A place with neither a free element nor a segment.
    WrongPlace,
    /// A block of no kind.
    NoKind,
    /// A delete byte that is not 0.
    Deleted,
    /// A pointer that names no segment's place.
    NamesNothing,
    /// A pointer that names a segment of another type.
    NamesAnother,
    /// A segment with two predecessors or more.
    TwoPredecessors,
    /// A segment without predecessor.
    NoPredecessor,
    /// Twin backward is not the twin before.
    WrongBackward,
    /// Last child, or the header's last root, is not the last twin of the chain from the first.
    WrongLast,
    /// A twin whose key is out of order.
    OutOfOrder,
    /// A segment that is not reached from the header.
    NotReached,
    /// Top and height of the index do not agree.
    WrongTop,
    /// An index block of a wrong form.
    WrongForm,
    /// An index block that is named twice.
    NamedTwice,
    /// An index block that is not reached from the top block.
    UnreachedBlock,
    /// An index block whose next one is not the one that follows on its level.
    WrongNext,
    /// An entry's key is not above the one to its left, or an upper key breaks its bounds.
    EntryOutOfOrder,
    /// An entry that names no root of its key.
    WrongEntry,
    /// A root that no entry names.
    NoEntry,
}

impl Line {
    /// The number of the line for a fault at an address, from 1 to 20; for the header, at address 0, a wrong last root has a number of
    /// its own.
    pub fn number(self, address: u32) -> u8
        ensures { result ≡ number_of self address }
    {
        match self {
            Line::NoVolume => 1,
            Line::NoVersion => 2,
            Line::AnotherDatabase => 3,
            Line::WrongChain => 4,
            Line::WrongPlace => 5,
            Line::NoKind => 19,
            Line::Deleted => 6,
            Line::NamesNothing => 7,
            Line::NamesAnother => 8,
            Line::TwoPredecessors => 9,
            Line::NoPredecessor => 10,
            Line::WrongBackward => 11,
            Line::WrongLast => { if address == 0 { 20 } else { 12 } }
            Line::OutOfOrder => 13,
            Line::NotReached => 14,
            Line::WrongTop => 15,
            Line::WrongForm => 15,
            Line::NamedTwice => 15,
            Line::UnreachedBlock => 19,
            Line::WrongNext => 15,
            Line::EntryOutOfOrder => 16,
            Line::WrongEntry => 17,
            Line::NoEntry => 18,
        }
    }
}
