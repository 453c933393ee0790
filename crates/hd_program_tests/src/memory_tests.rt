//! Commands with almost no memory, and a reader that is interrupted.
use crate::words::words_of;
use hd_program::{DBD_SOURCE, PSB_SOURCE, Silent, play};
use hd_sample::{RECORDS, image, stream_of};
use std::alloc::Global;
use std::fs::{self, File};
use std::io::{self, ErrorKind, Read, Write};
use std::process::Abort;
use std::rt::Files;
use std::test::Fail;

/// A writer that keeps the first bytes in room of its own, and takes no memory.
#[derive(Drop)]
struct Page {
    bytes: [u8; 256],
    len: usize,
}

impl Page {
    fn blank() -> Page {
        Page {
            bytes: [0; 256],
            len: 0,
        }
    }

    fn text(&self) -> &[u8] {
        self.bytes.get(..self.len).unwrap_or(&[])
    }
}

impl Write for Page {
    fn write(&mut self, buf: &[u8]) -> io::Result<usize> {
        for byte in buf {
            if let Some(place) = self.bytes.get_mut(self.len) {
                *place = *byte;
                self.len = self.len.saturating_add(1);
            }
        }
        Ok(buf.len())
    }

    fn flush(&mut self) -> io::Result<()> {
        Ok(())
    }
}

/// Takes pieces of memory, the largest that there are, until none is left.
fn take_all(alloc: Global, taken: &mut Vec<Vec<u8>>) {
    let mut size: usize = 1 << 46;
    for _ in 0..65_536 {
        match Vec::with_capacity(alloc, size) {
            Ok(piece) => {
                if taken.push(piece).is_err() {
                    return;
                }
            }
            Err(_) => size /= 2,
        }
    }
}

/// Plays with almost no memory, again and again with one piece more, until there is enough: each time before, the program says that it has none, ends with
/// status 4 and does nothing, so that an output has as many bytes as it had. Says how often that was.
fn refusals_of_growth<R: Files<File = File> + AllocGlobal + Abort>(
    rt: &R,
    words: &[String],
    deck: &[u8],
    text: &[u8],
    output: &File,
) -> u32 {
    let mut spare = Vec::with_capacity(rt.alloc(), 8192).expect(rt, "memory");
    let mut taken = Vec::with_capacity(rt.alloc(), 65_536).expect(rt, "memory");
    for _ in 0..8192 {
        let piece: Vec<u8> = Vec::with_capacity(rt.alloc(), 512).expect(rt, "memory");
        let _ = spare.push(piece);
    }
    take_all(rt.alloc(), &mut taken);
    for refused in 0..8192u32 {
        let mut input = deck;
        let mut out = Page::blank();
        let mut err = Page::blank();
        let status = play(rt, words, false, &Silent, &mut input, &mut out, &mut err);
        if status == 0 {
            assert_eq!(rt; out.text(), text);
            return refused;
        }
        let length = output.metadata().ok().map(|metadata| metadata.len());
        assert_eq!(rt; (status, out.text().len(), length), (4, 0, Some(200)));
        assert_eq!(rt; err.text(), b"no memory\n".as_slice());
        let _ = spare.pop();
    }
    0
}

/// The files that the commands read.
fn write_files<R: Files<File = File> + AllocGlobal>(rt: &R) -> Result<(), Fail> {
    let mut bytes = image();
    fs::write(rt, "grown.dbd", DBD_SOURCE)?;
    fs::write(rt, "grown.psb", PSB_SOURCE)?;
    fs::write(rt, "old.volume", &bytes)?;
    bytes[9] = 3;
    fs::write(rt, "grown.volume", &bytes)?;
    fs::write(rt, "grown.deck", b"L     GN\n")?;
    fs::write(rt, "grown.in", &stream_of(rt.alloc(), RECORDS)?)?;
    Ok(())
}

/// Commands, each with a deck on standard input, and what they print when there is memory enough.
const COMMANDS: &[(&str, &[u8], &[u8])] = &[
    (
        "",
        b"S 3\nL     GN\n",
        b"1 3 GN   [  ] 01 COURSE   key=101 area=101ALGEB\n",
    ),
    (
        "check grown.dbd old.volume",
        b"",
        b"EDU passes: 4 blocks, 7 segments, 2 roots\n",
    ),
    (
        "deck grown.dbd grown.psb grown.volume grown.deck",
        b"",
        b"1 1 GN   [  ] 01 COURSE   key=101 area=101ALGEB\n",
    ),
    (
        "reload grown.dbd grown.in grown.out 16",
        b"",
        b"reloaded 7 segments into 4 blocks\n",
    ),
    (
        "unload grown.dbd old.volume grown.out",
        b"",
        b"unloaded 7 segments\n",
    ),
];

#[test]
fn commands_tell_of_each_growth_that_finds_no_memory(rt: HostRuntime) -> Result<(), Fail> {
    write_files(&rt)?;
    for (line, deck, text) in COMMANDS {
        fs::write(&rt, "grown.out", &[b'x'; 200])?;
        let output = File::open(&rt, "grown.out")?;
        let words = words_of(rt.alloc(), line)?;
        let refused = refusals_of_growth(&rt, &words, deck, text, &output);
        assert!(rt; refused > 0, "{line}");
    }
    Ok(())
}

/// A reader of one byte at a time, interrupted before each.
#[derive(Drop)]
struct Interrupted<'a> {
    rest: &'a [u8],
    was_interrupted: bool,
}

impl Read for Interrupted<'_> {
    fn read(&mut self, buf: &mut [u8]) -> io::Result<usize> {
        self.was_interrupted = !self.was_interrupted;
        if self.was_interrupted {
            return Err(io::Error::from(ErrorKind::Interrupted));
        }
        let Some((first, rest)) = self.rest.split_first() else {
            return Ok(0);
        };
        let Some(place) = buf.first_mut() else {
            return Ok(0);
        };
        *place = *first;
        self.rest = rest;
        Ok(1)
    }
}

#[test]
fn reads_on_after_an_interruption(rt: HostRuntime) {
    let mut input = Interrupted {
        rest: b"L     GN\n",
        was_interrupted: false,
    };
    let mut out = Page::blank();
    let mut err = Page::blank();
    let status = play(&rt, &[], false, &Silent, &mut input, &mut out, &mut err);
    assert_eq!(rt; status, 0);
    let line = b"1 1 GN   [  ] 01 COURSE   key=101 area=101ALGEB\n";
    assert_eq!(rt; out.text(), line.as_slice());
}
