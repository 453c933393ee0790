ghost use Rattle.std.specs.Prelude.{◌≡◌};
ghost use Rattle.hd_explain.specs.Entries.{name_of};

/// What a word is.
#[derive(Clone, Copy, PartialEq, Eq)]
pub enum Kind {
    VolumeFault,
    SourceFault,
    DeckFault,
    StreamFault,
    Status,
    Refusal,
    ExitStatus,
    Line,
}

/// A word and its meaning: what it is, a summary of one line, and a text of one to five sentences, in lines of at most 100 characters that
/// a line feed parts. The type of the texts is a parameter, since a clause can only so name a table of them.
#[derive(Clone, Copy)]
pub struct Entry<T> {
    pub word: T,
    pub kind: Kind,
    pub summary: T,
    pub text: T,
}

/// An entry of the table.
pub type Explanation = Entry<&'static str>;

impl Kind {
    /// What a word of this kind is, as one says it.
    pub fn name(self) -> &'static str
        ensures { result.now ≡ name_of self }
    {
        match self {
            Kind::VolumeFault => "a fault of a volume",
            Kind::SourceFault => "a fault of a DBD or PSB source",
            Kind::DeckFault => "a fault of a deck",
            Kind::StreamFault => "a fault of an unload stream",
            Kind::Status => "a status code",
            Kind::Refusal => "a refusal",
            Kind::ExitStatus => "an exit status",
            Kind::Line => "a line of hd",
        }
    }
}
