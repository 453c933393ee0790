ghost use Rattle.std.specs.Prelude.{◌≡◌, ◌+◌, ◌-◌, ◌<◌, ◌≤◌, true, false, [], ◌++◌, length, take, IsOk, OnOk, OnErr, IfOk, IfErr};
ghost use Rattle.std.specs.Io.{WritesAtMost};
ghost use Rattle.std.specs.Io.KnownBytes.{Keeps, Appends, WriteAppends};
ghost use Rattle.hd_output.specs.Gathered.{contents_with, AppendsFront};

use std::alloc::{AllocError, Global};
use std::io::{self, ErrorKind, Write};
use std::marker::Model;

/// The bytes that are gathered before they are handed on.
const ROOM: usize = 65_536;

/// How many writes may go to one piece, those that were interrupted among them.
const WRITES: u32 = 16_777_216;

/// A writer that gathers bytes, and hands them on to another in large pieces: when those that come do not fit behind them, and at a flush.
///
/// Bytes that are more than the room go straight through, behind what was gathered. What a failed write has not taken stays gathered; no byte
/// is handed on twice. What is gathered when the writer is dropped is not handed on.
#[derive(Drop)]
pub struct Pieces<W: Write> {
    inner: W,
    room: Vec<u8>,
    start: usize,
    end: usize,
}

impl<W: Write> Model for Pieces<W> {
    ghost use Rattle.std.specs.Prelude.{◌≡◌, ◌-◌, ◌≤◌, take, drop, length};
    ghost use Rattle.hd_output.specs.Gathered.{Gathered};

    ghost Value = { Gathered W };

    ghost view = { λ p. record { inner = p.inner; bytes = drop p.start (take p.end p.room.items); left = 65536 - p.end } };

    ghost invariant = { λ p. (length p.room.items ≡ 65536) × (p.start ≤ p.end) × (p.end ≤ 65536) };
}

/// Writes until all is written or a write fails, and says how many bytes were written.
fn write_out<W: Write>(out: &mut W, bytes: &[u8]) -> (usize, io::Result<()>)
    ensures bound { result.0 ≤ length bytes.now }
    ensures all { OnOk result.1 (result.0 ≡ length bytes.now) }
    ensures bytes { Appends (W.contents out.old) (W.contents out.new) (take result.0 bytes.now) }
{
    let mut written = 0;
    'writes: for _ in 0..WRITES {
        if written >= bytes.len() {
            return (written, Ok(()));
        }
        match out.write(&bytes[written..]) {
            Ok(0) => {
                let message = "failed to write the buffered data";
                return (written, Err(io::Error::new(ErrorKind::WriteZero, message)));
            }
            Ok(count) => written += count,
            Err(error) => {
                if error.kind() != ErrorKind::Interrupted {
                    return (written, Err(error));
                }
            }
        }
    }
    (written, Err(io::Error::from(ErrorKind::TimedOut)))
}

/// Puts bytes at a place.
fn put(room: &mut [u8], at: usize, bytes: &[u8])
    requires { at + length bytes.now ≤ length room.old }
    ensures value { take (at + length bytes.now) room.new ≡ take at room.old ++ bytes.now }
    ensures len { length room.new ≡ length room.old }
{
    room[at..at + bytes.len()].copy_from_slice(bytes);
}

impl<W: Write> Pieces<W> {
    /// A writer in front of another. Where there is no memory, that is given back.
    pub fn new(alloc: Global, inner: W) -> Result<Pieces<W>, (W, AllocError)>
        ensures made { IfOk result (λ p. p ≡ record { inner = inner; bytes = []; left = 65536 }) }
        ensures back { IfErr result (λ e. e.0 ≡ inner) }
    {
        match vec![in alloc; 0; ROOM] {
            Ok(room) => Ok(Pieces {
                inner,
                room,
                start: 0,
                end: 0,
            }),
            Err(_) => Err((inner, AllocError)),
        }
    }

    /// Gathers bytes if they fit, and says whether they do.
    #[inline(always)]
    fn gathers(&mut self, bytes: &[u8]) -> bool
        ensures fit { length bytes.now ≤ self.old.left → (result ≡ true) × (self.new ≡ record { inner = self.old.inner; bytes = self.old.bytes ++ bytes.now; left = self.old.left - length bytes.now }) }
        ensures more { self.old.left < length bytes.now → (result ≡ false) × (self.new ≡ self.old) }
        ensures kept { result ≡ false → self.new ≡ self.old }
    {
        if bytes.len() > ROOM - self.end {
            return false;
        }
        put(&mut self.room, self.end, bytes);
        self.end += bytes.len();
        true
    }

    /// Hands on what is gathered.
    fn hand_on(&mut self) -> io::Result<()>
        ensures kept { Keeps (contents_with W.contents self.old) (contents_with W.contents self.new) }
        ensures all { OnOk result ((self.new.bytes ≡ []) × (self.new.left ≡ 65536)) }
    {
        let (written, done) = write_out(&mut self.inner, &self.room[self.start..self.end]);
        self.start += written;
        if self.start == self.end {
            self.start = 0;
            self.end = 0;
        }
        done
    }

    /// Hands on what is gathered, and then takes bytes that did not fit behind it: more than the room go straight through.
    #[cold]
    #[inline(never)]
    fn write_behind(&mut self, bytes: &[u8]) -> io::Result<()>
        ensures bytes { OnOk result (Appends (contents_with W.contents self.old) (contents_with W.contents self.new) bytes.now) }
        ensures front { OnErr result (AppendsFront (contents_with W.contents self.old) (contents_with W.contents self.new) bytes.now) }
        ensures gathered { OnOk result (length bytes.now ≤ 65536 → (self.new.bytes ≡ bytes.now) × (self.new.left ≡ 65536 - length bytes.now)) }
    {
        self.hand_on()?;
        if self.gathers(bytes) {
            return Ok(());
        }
        let (_, done) = write_out(&mut self.inner, bytes);
        done
    }
}

impl<W: Write> Write for Pieces<W> {
    ghost contents = { contents_with W.contents };

    fn write(&mut self, buf: &[u8]) -> io::Result<usize>
        ensures bound { WritesAtMost result buf.now }
        ensures bytes { WriteAppends (contents_with W.contents self.old) (contents_with W.contents self.new) result buf.now }
        ensures gathered { length buf.now ≤ self.old.left → IsOk result × (self.new ≡ record { inner = self.old.inner; bytes = self.old.bytes ++ buf.now; left = self.old.left - length buf.now }) }
    {
        if self.gathers(buf) {
            return Ok(buf.len());
        }
        self.hand_on()?;
        if self.gathers(buf) {
            return Ok(buf.len());
        }
        self.inner.write(buf)
    }

    fn flush(&mut self) -> io::Result<()>
        ensures bytes { Keeps (contents_with W.contents self.old) (contents_with W.contents self.new) }
        ensures all { OnOk result ((self.new.bytes ≡ []) × (self.new.left ≡ 65536)) }
    {
        // By the function that a write calls that does not fit, which stays out of line so: a write that fits is short.
        self.write_behind(&[])?;
        self.inner.flush()
    }

    #[inline(always)]
    fn write_all(&mut self, buf: &[u8]) -> io::Result<()>
        ensures bytes { OnOk result (Appends (contents_with W.contents self.old) (contents_with W.contents self.new) buf.now) }
        ensures front { OnErr result (AppendsFront (contents_with W.contents self.old) (contents_with W.contents self.new) buf.now) }
        ensures gathered { length buf.now ≤ self.old.left → IsOk result × (self.new ≡ record { inner = self.old.inner; bytes = self.old.bytes ++ buf.now; left = self.old.left - length buf.now }) }
    {
        if self.gathers(buf) {
            return Ok(());
        }
        self.write_behind(buf)
    }
}
