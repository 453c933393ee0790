use crate::progress::{Progress, Work};
use std::alloc::{AllocError, Global};
use std::cell::Cell;
use std::io::Write;
use std::time::{Clock, Instant};

/// The milliseconds of a command in which nothing is shown.
const FIRST: u64 = 1000;

/// The milliseconds from one line to the next.
const EVERY: u64 = 250;

/// What takes a line away: a carriage return, and the sequence that clears what is behind it.
const CLEAR: &[u8] = b"\r\x1b[K";

/// A terminal on which a line says how far a command is. The line stays one line, which is written over, at most four times a
/// second and not in the first second, and is taken away at the end.
#[derive(Drop)]
pub struct Terminal<'c, C: Clock, T: Write + Copy + Drop> {
    alloc: Global,
    clock: &'c C,
    screen: T,
    start: Option<Instant>,
    has_output: bool,
    due: Cell<u64>,
    done: Cell<u64>,
    all: Cell<u64>,
    work: Cell<Work>,
    is_shown: Cell<bool>,
}

impl<'c, C: Clock, T: Write + Copy + Drop> Terminal<'c, C, T> {
    /// A screen for a command that begins now. Nothing is written to one that is no terminal. It may have standard output too: then
    /// no line is shown from the first that is written there on.
    pub fn new(
        alloc: Global,
        clock: &'c C,
        screen: T,
        is_terminal: bool,
        has_output: bool,
    ) -> Terminal<'c, C, T> {
        let start = if is_terminal {
            Instant::now(clock).ok()
        } else {
            None
        };
        Terminal {
            alloc,
            clock,
            screen,
            start,
            has_output,
            due: Cell::new(FIRST),
            done: Cell::new(0),
            all: Cell::new(0),
            work: Cell::new(Work::Blocks),
            is_shown: Cell::new(false),
        }
    }

    /// The milliseconds since the command began; none where nothing is shown.
    fn time(&self) -> Option<u64> {
        let start = self.start?;
        let elapsed = start.elapsed(self.clock).ok()?;
        u64::try_from(elapsed.as_millis()).ok()
    }

    /// The time has come for a line.
    fn is_due(&self) -> bool {
        let Some(now) = self.time() else {
            return false;
        };
        if now < self.due.get() {
            return false;
        }
        self.due.set(now.saturating_add(EVERY));
        true
    }
}

impl<'c, C: Clock, T: Write + Copy + Drop> Progress for Terminal<'c, C, T> {
    fn tell(&self, doing: &str, accesses: u64, blocks: u64) {
        if !self.is_due() {
            return;
        }
        let share = share_of(self.alloc, self.done.get(), self.all.get(), self.work.get());
        if let Ok(line) = line_of(self.alloc, doing, share, accesses, blocks) {
            let mut screen = self.screen;
            self.is_shown.set(true);
            let _ = screen.write_all(line.as_bytes());
        }
    }

    fn begin(&self, all: u64, work: Work) {
        self.done.set(0);
        self.all.set(all);
        self.work.set(work);
    }

    #[inline(always)]
    fn done(&self, count: u64) {
        self.done.set(self.done.get().saturating_add(count));
    }

    fn end(&self) {
        self.due.set(u64::MAX);
        if self.is_shown.get() {
            let mut screen = self.screen;
            self.is_shown.set(false);
            let _ = screen.write_all(CLEAR);
        }
    }

    fn end_before_output(&self) {
        if self.has_output {
            self.end();
        }
    }
}

/// The line that says how far a command is, which is written over the one before.
fn line_of(
    alloc: Global,
    doing: &str,
    share: Result<String, AllocError>,
    accesses: u64,
    blocks: u64,
) -> Result<String, AllocError> {
    let share = share?;
    let accesses = grouped(alloc, accesses)?;
    let blocks = grouped(alloc, blocks)?;
    format!(in alloc; "\r{doing}: {share}{accesses} accesses to {blocks} blocks\x1b[K")
}

/// The name of what work is counted in.
fn name_of(work: Work) -> &'static str {
    match work {
        Work::Blocks => "blocks",
        Work::Bytes => "bytes",
        Work::Calls => "calls",
        Work::Segments => "segments",
    }
}

/// How much of all work is done, in front of the accesses; nothing before any was begun.
fn share_of(alloc: Global, done: u64, all: u64, work: Work) -> Result<String, AllocError> {
    if all == 0 {
        return Ok(String::new(alloc));
    }
    let done = grouped(alloc, done)?;
    let all = grouped(alloc, all)?;
    let work = name_of(work);
    format!(in alloc; "{done} of {all} {work}, ")
}

/// A number with commas between its thousands.
fn grouped(alloc: Global, number: u64) -> Result<String, AllocError> {
    let (millions, thousands, ones) = (number / 1_000_000, number / 1000 % 1000, number % 1000);
    if millions >= 1000 {
        let (billions, millions) = (millions / 1000, millions % 1000);
        return format!(in alloc; "{billions},{millions:03},{thousands:03},{ones:03}");
    }
    if millions > 0 {
        return format!(in alloc; "{millions},{thousands:03},{ones:03}");
    }
    if thousands > 0 {
        return format!(in alloc; "{thousands},{ones:03}");
    }
    format!(in alloc; "{ones}")
}
