ghost use Rattle.std.specs.Prelude.{◌≡◌};
ghost use Rattle.hd_dbd.specs.Statuses.{status_text};

/// The status code of a call, as DL/I puts it into the PCB. Blank, GA and GK mean done.
#[derive(Clone, Copy, Debug, PartialEq, Eq)]
pub enum Status {
    Blank,
    GA,
    GK,
    GB,
    GE,
    GP,
    II,
    V1,
    DA,
    DJ,
    LB,
    LC,
    LD,
    LE,
    AC,
    AD,
    AH,
    AJ,
    AK,
    AM,
}

/// Why a row may not be loaded behind the rows before it, by the names of the statuses that say so.
#[derive(Clone, Copy, Debug, PartialEq, Eq)]
pub enum LoadFault {
    /// The twin before it has the same key, which is unique.
    LB,
    /// The twin before it has a greater key.
    LC,
    /// No row of the parent type is on the path of the row before it.
    LD,
    /// A row of a later type stands before it below the same parent.
    LE,
}

/// Why a call gave no status: no memory, no room in the volume, a failed access, a session that an earlier
/// failed access has ended, or an I/O area of a wrong length.
#[derive(Clone, Copy, Debug, PartialEq, Eq)]
pub enum Refused {
    Memory,
    Full,
    Device,
    Broken,
    Area,
}

/// The two letters of a status, which are blanks where nothing is amiss.
pub fn status_text(status: Status) -> &'static [u8; 2]
    ensures { result.now ≡ status_text status }
{
    match status {
        Status::Blank => b"  ",
        Status::GA => b"GA",
        Status::GK => b"GK",
        Status::GB => b"GB",
        Status::GE => b"GE",
        Status::GP => b"GP",
        Status::II => b"II",
        Status::V1 => b"V1",
        Status::DA => b"DA",
        Status::DJ => b"DJ",
        Status::LB => b"LB",
        Status::LC => b"LC",
        Status::LD => b"LD",
        Status::LE => b"LE",
        Status::AC => b"AC",
        Status::AD => b"AD",
        Status::AH => b"AH",
        Status::AJ => b"AJ",
        Status::AK => b"AK",
        Status::AM => b"AM",
    }
}
