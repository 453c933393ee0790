/// Where a search goes from a row.
#[derive(Clone, Copy, Debug, PartialEq, Eq)]
pub enum Verdict {
    /// It has found the row.
    Found,
    /// To the next row; for a judge that admits every row.
    Next,
    /// Over the row's span; for a judge that admits every row.
    Over,
    /// To the first child of the type of this code; where there is none, as across.
    Down(u8),
    /// To the last child of the type of this code, which rows of the type's parent keep; where there is none, as across.
    DownToLast(u8),
    /// To the next twin; behind the last, across from the parent.
    Across,
    /// To the later twin at this address.
    AcrossTo(u32),
    /// To the first child of its parent of the type of this code, which comes later; where there is none, across from the parent.
    Beside(u8),
    /// To the last child of its parent of the type of this code, which is kept and comes later; where there is none, across from the
    /// parent.
    BesideToLast(u8),
    /// Over the rest of the parent's rows, and then across from the parent.
    Rest,
}

impl Verdict {
    ghost use Rattle.std.specs.Prelude.{◌≡◌};
    ghost use Rattle.hd_get.specs.Searches.{goes_below};

    /// Whether the search may go on below the row, which then is admitted; else no row of its span passes.
    pub fn goes_below(self) -> bool
        ensures { result ≡ goes_below self }
    {
        match self {
            Verdict::Found | Verdict::Next | Verdict::Down(_) | Verdict::DownToLast(_) => true,
            Verdict::Over
            | Verdict::Across
            | Verdict::AcrossTo(_)
            | Verdict::Beside(_)
            | Verdict::BesideToLast(_)
            | Verdict::Rest => false,
        }
    }
}
