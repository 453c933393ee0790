use crate::stop::Stop;
use hd_deck::Step;
use std::alloc::Global;
use std::io::{self, Write};

/// A status of two letters, or the word of a refusal, with blanks behind; a status of blanks is all blanks.
type Word = [u8; 8];

/// So much of a line is looked at: its call's number, PCB and function, and the brackets and the word behind them.
const HEAD: usize = 48;

/// What a deck expects of a call: a word, and the line that says so; and what the call was answered, if it was made.
#[derive(Clone, Copy)]
struct Expectation {
    call: u64,
    line: u64,
    wanted: Word,
    answered: Option<Word>,
}

/// What a deck expects of its calls, in their order, of each at most one.
#[derive(Drop)]
pub struct Expectations {
    each: Vec<Expectation>,
}

impl Expectations {
    /// None.
    pub fn none(alloc: Global) -> Expectations {
        Expectations {
            each: Vec::new(alloc),
        }
    }

    /// Those in the comments of a deck: `* expect GE` is of the call before it, of a repeated one of the last time that it is made. `* expect` alone expects
    /// blanks. Of two behind one call the later counts.
    pub fn read(alloc: Global, text: &[u8], steps: &[Step<'_>]) -> Result<Expectations, Stop> {
        let mut each: Vec<Expectation> = Vec::new(alloc);
        let mut step = 0usize;
        let mut call = 0u64;
        let mut line = 0u64;
        for bytes in text.split(|byte| *byte == b'\n') {
            line = line.saturating_add(1);
            if bytes.starts_with(b"L") {
                call = call.saturating_add(repeat_of(steps, step));
                step = step.saturating_add(1);
            }
            if let Some(wanted) = wanted_in(bytes)
                && step > 0
            {
                if each.last().is_some_and(|last| last.call == call) {
                    let _ = each.pop();
                }
                each.push(Expectation {
                    call,
                    line,
                    wanted,
                    answered: None,
                })?;
            }
        }
        Ok(Expectations { each })
    }

    /// Says of which calls something else is expected than they were answered. Whether there are any.
    pub fn tell<E: Write>(&self, err: &mut E) -> bool {
        let mut differs = false;
        for expectation in &self.each {
            if expectation.answered != Some(expectation.wanted) {
                differs = true;
                tell_one(expectation, err);
            }
        }
        differs
    }
}

/// Says of one call that it was answered something else than is expected.
fn tell_one<E: Write>(expectation: &Expectation, err: &mut E) {
    let (call, line) = (expectation.call, expectation.line);
    let _ = write!(err, "call {call}, line {line}: ");
    put_word(&expectation.wanted, err);
    let _ = err.write_all(b" expected, ");
    match &expectation.answered {
        Some(word) => {
            put_word(word, err);
            let _ = err.write_all(b" answered\n");
        }
        None => {
            let _ = err.write_all(b"not made\n");
        }
    }
}

/// Writes a word without the blanks behind it.
fn put_word<E: Write>(word: &Word, err: &mut E) {
    let text = word.trim_ascii_end();
    let said = if text.is_empty() { b"blanks" } else { text };
    let _ = err.write_all(said);
}

/// How often the call of a step is made.
fn repeat_of(steps: &[Step<'_>], step: usize) -> u64 {
    match steps.get(step) {
        Some(step) => u64::from(step.repeat),
        None => 0,
    }
}

/// The word that a line of a deck expects of the call before it, if it does.
fn wanted_in(line: &[u8]) -> Option<Word> {
    let comment = line.strip_prefix(b"*")?.trim_ascii();
    let wanted = comment.strip_prefix(b"expect")?;
    let word = wanted.trim_ascii();
    if word.len() == wanted.len() && !word.is_empty() || word.contains(&b' ') {
        return None;
    }
    Some(word_of(word))
}

/// The first bytes of a text, with blanks behind.
fn word_of(text: &[u8]) -> Word {
    let mut word = [b' '; 8];
    for (to, from) in word.iter_mut().zip(text) {
        *to = *from;
    }
    word
}

/// The word that a line of a call has in its brackets, or behind those of a refusal.
fn answer_in(line: &[u8]) -> Word {
    let mut parts = line.splitn(2, |byte| *byte == b'[');
    let _number = parts.next();
    let Some(behind) = parts.next() else {
        return word_of(b"");
    };
    match behind.strip_prefix(b"!!] ") {
        Some(refusal) => word_of(refusal.trim_ascii_end()),
        None => word_of(behind.get(..2).unwrap_or(b"").trim_ascii_end()),
    }
}

/// A writer in front of another, through which the lines of a deck's calls go: it notes what the calls are answered of which something is expected, and counts
/// those that are answered Full.
#[derive(Drop)]
pub struct Compared<W: Write> {
    inner: W,
    expectations: Expectations,
    /// The number of the expectation that comes next, and of its call; 0 where there is none.
    next: usize,
    due: u64,
    /// The lines that have ended, and what the one that goes on begins with, if it is that of the call that is due.
    lines: u64,
    head: [u8; HEAD],
    length: usize,
    /// Whether the last bytes were those before the word of a refusal, and how many calls were answered Full.
    refuses: bool,
    full: u64,
}

impl<W: Write> Compared<W> {
    /// A writer in front of another, for what is expected of the lines.
    pub fn over(inner: W, expectations: Expectations) -> Compared<W> {
        let due = call_of(&expectations, 0);
        Compared {
            inner,
            expectations,
            next: 0,
            due,
            lines: 0,
            head: [b' '; HEAD],
            length: 0,
            refuses: false,
            full: 0,
        }
    }

    /// The writer behind.
    pub fn inner(&self) -> &W {
        &self.inner
    }

    /// How many calls were answered Full.
    pub fn full(&self) -> u64 {
        self.full
    }

    /// Notes bytes of a line that went out.
    #[inline(always)]
    fn note(&mut self, bytes: &[u8]) {
        if bytes.ends_with(b"\n") {
            self.note_end(bytes);
        } else {
            self.note_part(bytes);
        }
    }

    /// Notes bytes that end a line.
    #[inline(always)]
    fn note_end(&mut self, bytes: &[u8]) {
        self.refuses = false;
        self.lines = self.lines.saturating_add(1);
        if self.due == self.lines {
            self.gather(bytes);
            self.judge();
        }
    }

    /// Notes bytes behind which their line goes on.
    fn note_part(&mut self, bytes: &[u8]) {
        if self.refuses && bytes == b"Full".as_slice() {
            self.full = self.full.saturating_add(1);
        }
        self.refuses = bytes == b" [!!] ".as_slice();
        if self.due == self.lines.saturating_add(1) {
            self.gather(bytes);
        }
    }

    /// Puts bytes behind those that the line of a call that is due begins with.
    fn gather(&mut self, bytes: &[u8]) {
        for byte in bytes {
            if let Some(place) = self.head.get_mut(self.length) {
                *place = *byte;
                self.length = self.length.saturating_add(1);
            }
        }
    }

    /// Notes what the call that is due was answered, as its line says.
    fn judge(&mut self) {
        let answered = match self.head.get(..self.length) {
            Some(head) => answer_in(head),
            None => word_of(b""),
        };
        if let Some(expectation) = self.expectations.each.get_mut(self.next) {
            expectation.answered = Some(answered);
        }
        self.next = self.next.saturating_add(1);
        self.due = call_of(&self.expectations, self.next);
        self.length = 0;
    }
}

impl<W: Write + Drop> Compared<W> {
    /// What is expected, with what was answered.
    pub fn into_expectations(self) -> Expectations {
        self.expectations
    }
}

/// The number of the call of an expectation; 0 where there is none.
fn call_of(expectations: &Expectations, number: usize) -> u64 {
    match expectations.each.get(number) {
        Some(expectation) => expectation.call,
        None => 0,
    }
}

impl<W: Write> Write for Compared<W> {
    fn write(&mut self, buf: &[u8]) -> io::Result<usize> {
        let count = self.inner.write(buf)?;
        self.note(buf.get(..count).unwrap_or(buf));
        Ok(count)
    }

    fn flush(&mut self) -> io::Result<()> {
        self.inner.flush()
    }

    #[inline(always)]
    fn write_all(&mut self, buf: &[u8]) -> io::Result<()> {
        self.inner.write_all(buf)?;
        self.note(buf);
        Ok(())
    }
}
