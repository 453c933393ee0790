/// What the work of a command is counted in.
#[derive(Clone, Copy, PartialEq, Eq)]
pub enum Work {
    Blocks,
    Bytes,
    Calls,
    Segments,
}

/// Where a command tells how far it is.
pub trait Progress {
    /// So many accesses were made of a volume that has so many blocks.
    fn tell(&self, doing: &str, accesses: u64, blocks: u64);

    /// So many of these are to be done, in place of what was begun before.
    fn begin(&self, all: u64, work: Work);

    /// So many more of them are done. It is called often, and seen with what is told next.
    fn done(&self, count: u64);

    /// Takes away what was told, and tells no more. It is called before a line on standard error, and at the end.
    fn end(&self);

    /// As `end`, where standard output is seen at the place of the progress. It is called before standard output is written.
    fn end_before_output(&self);
}

/// Tells nothing.
#[derive(Clone, Copy)]
pub struct Silent;

impl Progress for Silent {
    fn tell(&self, _doing: &str, _accesses: u64, _blocks: u64) {}

    fn begin(&self, _all: u64, _work: Work) {}

    fn done(&self, _count: u64) {}

    fn end(&self) {}

    fn end_before_output(&self) {}
}
