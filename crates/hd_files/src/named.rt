/// A file that a command reads or writes, by the word of the command line that names it.
#[derive(Clone, Copy, Debug, PartialEq, Eq)]
pub enum Named {
    Dbd,
    Psb,
    Volume,
    /// The log of a volume.
    Log,
    Deck,
    /// The unload stream that is read.
    Stream,
    /// The unload stream that is written.
    Out,
    /// A text of rows.
    Rows,
    /// A picture that is written.
    Picture,
    /// Standard input.
    Input,
    /// Standard output.
    Output,
}
