ghost use Rattle.std.specs.Prelude.{◌≡◌, ◌<◌, ◌≤◌, ◌+◌, ◌-◌, ◌++◌, ◌*◌, length, take, drop, nat_le, unwrap_or, replicate, codes, decimal, true, OnOk};
ghost use Rattle.std.specs.List.{list_all};
ghost use Rattle.std.specs.Io.KnownBytes.{Appends};
ghost use Rattle.hd_dbd.specs.Logs.{replied};
ghost use Rattle.hd_session.specs.Replies.{reply_of};
ghost use Rattle.hd_deck.specs.Printing.{hex_digit, is_plain, shown, shown_byte, two_digits, head_text, bracket_text, place_text, outcome_text, refused_text, refusal_text, answered_text};
ghost use Rattle.hd_deck.specs.declared.lines.TheConstants.{SHORT};

use hd_dbd::{Name8, Refused, Status, status_text};
use hd_session::{Answer, IoArea};
use itoa::{Buffer, write_digits};
use std::io::Write;
use thiserror::Error;

/// The bytes of a line that goes out in one write: the number has the first 20, head and place have 29, and the last block that is looked at goes past the
/// area.
const LINE_ROOM: usize = 256;

/// Where the number of a call ends in such a line.
const NUMBER_END: usize = 20;

/// The bytes that key and area have together at most in such a line.
const SHORT: usize = 168;

/// The bytes of a line that are looked at at once.
const BLOCK: usize = 32;

/// The bytes that key and area have together at most in such a line where not all are printed as they are: each then has up to four.
const FEW: usize = 50;

/// So many bytes are written at once where not all are printed as they are.
const CHUNK: usize = 32;

/// The bytes that so many have at most as they are printed.
const CHUNK_ROOM: usize = 128;

/// A write failed. How much went out before it is not known.
#[derive(Clone, Copy, Debug, Drop, PartialEq, Eq, Error)]
#[error("write failed")]
pub struct WriteFault;

/// Writes all of the bytes.
fn put<W: Write>(out: &mut W, bytes: &[u8]) -> Result<(), WriteFault>
    ensures { OnOk result (Appends (W.contents out.old) (W.contents out.new) bytes.now) }
{
    match out.write_all(bytes) {
        Ok(()) => Ok(()),
        Err(_) => Err(WriteFault),
    }
}

fn hex_digit(n: u8) -> u8
    requires { n < 16 }
    ensures { result ≡ hex_digit n }
{
    if n < 10 { b'0' + n } else { b'a' - 10 + n }
}

/// Whether a byte is printed as it is.
fn is_plain(byte: u8) -> bool
    ensures { result ≡ is_plain byte }
{
    (byte != b'\\') & (32 <= byte) & (byte <= 126)
}

/// Whether all bytes are printed as they are. No byte ends the loop, so that several are looked at at once.
fn are_plain(bytes: &[u8]) -> bool
    ensures plain { result ≡ list_all is_plain bytes.now }
    ensures same { result ≡ true → shown bytes.now ≡ bytes.now }
{
    let mut plain = true;
    for byte in bytes {
        plain &= is_plain(*byte);
    }
    plain
}

/// Writes bytes so that each is seen: 32 to 126 as they are, but a backslash doubled, and any other as `\x` and two hexadecimal digits.
pub fn put_shown<W: Write>(out: &mut W, bytes: &[u8]) -> Result<(), WriteFault>
    ensures { OnOk result (Appends (W.contents out.old) (W.contents out.new) (shown bytes.now)) }
{
    if are_plain(bytes) {
        return put(out, bytes);
    }
    put_each(out, bytes)
}

/// Writes bytes of which not all are printed as they are, so that each is seen.
fn put_each<W: Write>(out: &mut W, bytes: &[u8]) -> Result<(), WriteFault>
    ensures { OnOk result (Appends (W.contents out.old) (W.contents out.new) (shown bytes.now)) }
{
    for chunk in bytes.chunks(CHUNK) {
        put_chunk(out, chunk)?;
    }
    Ok(())
}

/// Writes a few bytes in one write, so that each is seen.
fn put_chunk<W: Write>(out: &mut W, bytes: &[u8]) -> Result<(), WriteFault>
    requires { length bytes.now ≤ 32 }
    ensures { OnOk result (Appends (W.contents out.old) (W.contents out.new) (shown bytes.now)) }
{
    let mut text = [0; CHUNK_ROOM];
    let end = add_each(&mut text, 0, bytes);
    put(out, &text[..end])
}

/// Adds bytes behind the first of a line, so that each is seen, and says how many it has then.
fn add_each(line: &mut [u8], end: usize, bytes: &[u8]) -> usize
    requires { end + 4 * length bytes.now ≤ length line.old }
    ensures end { (end ≤ result) × (result ≤ end + 4 * length bytes.now) }
    ensures line { take result line.new ≡ take end line.old ++ shown bytes.now }
    ensures room { length line.new ≡ length line.old }
{
    let mut behind = end;
    for byte in bytes {
        behind = add_shown(line, behind, *byte);
    }
    behind
}

/// Adds a byte behind the first of a line, so that it is seen, and says how many it has then.
fn add_shown(line: &mut [u8], end: usize, byte: u8) -> usize
    requires { end + 4 ≤ length line.old }
    ensures end { (end ≤ result) × (result ≤ end + 4) }
    ensures line { take result line.new ≡ take end line.old ++ shown_byte byte }
    ensures room { length line.new ≡ length line.old }
{
    match byte {
        b'\\' => add(line, end, b"\\\\"),
        32..=126 => add(line, end, &[byte]),
        _ => add(
            line,
            end,
            &[b'\\', b'x', hex_digit(byte / 16), hex_digit(byte % 16)],
        ),
    }
}

/// The PCB and the function, as they stand behind the number of a call, for a PCB of one digit.
fn short_head(pcb: u8, function: &[u8; 4]) -> [u8; 7]
    requires { pcb < 10 }
    ensures { result ≡ codes " " ++ decimal pcb ++ codes " " ++ function.now }
{
    let [first, second, third, fourth] = *function;
    [b' ', b'0' + pcb, b' ', first, second, third, fourth]
}

/// Writes the PCB and the function, as they stand behind the number of a call.
fn put_function<W: Write>(out: &mut W, pcb: u8, function: &[u8; 4]) -> Result<(), WriteFault>
    ensures { OnOk result (Appends (W.contents out.old) (W.contents out.new) (codes " " ++ decimal pcb ++ codes " " ++ function.now)) }
{
    if pcb < 10 {
        return put(out, &short_head(pcb, function));
    }
    put(out, b" ")?;
    put(out, Buffer::new().format(pcb).as_bytes())?;
    put(out, b" ")?;
    put(out, function)
}

/// Writes the number of the call, the PCB and the function.
fn put_head<W: Write>(
    out: &mut W,
    number: u64,
    pcb: u8,
    function: &[u8; 4],
) -> Result<(), WriteFault>
    ensures { OnOk result (Appends (W.contents out.old) (W.contents out.new) (head_text number pcb function.now)) }
{
    put(out, Buffer::new().format(number).as_bytes())?;
    put_function(out, pcb, function)
}

/// A number below 100 in two digits.
fn two_digits(number: u8) -> [u8; 2]
    ensures { result ≡ two_digits number }
{
    [b'0' + number / 10, b'0' + number % 10]
}

/// A segment's name, and blanks where there is none.
fn segment_text(segment: &Option<Name8>) -> [u8; 8]
    ensures { result ≡ unwrap_or segment.now (replicate 8 32) }
{
    match segment {
        Some(name) => *name.bytes(),
        None => *b"        ",
    }
}

/// The status in its brackets, level and segment, and the word before the key.
fn place_bytes(status: Status, level: u8, segment: &Option<Name8>) -> [u8; 22]
    ensures { result ≡ bracket_text status ++ place_text level segment.now ++ codes " key=" }
{
    let [s, t] = *status_text(status);
    let [tens, ones] = two_digits(level);
    let [a, b, c, d, e, f, g, h] = segment_text(segment);
    [
        b' ', b'[', s, t, b']', b' ', tens, ones, b' ', a, b, c, d, e, f, g, h, b' ', b'k', b'e',
        b'y', b'=',
    ]
}

/// Writes key and area, from the key's bytes on.
fn put_bytes<W: Write>(out: &mut W, io: &IoArea) -> Result<(), WriteFault>
    ensures { OnOk result (Appends (W.contents out.old) (W.contents out.new) (shown io.now.key ++ codes " area=" ++ shown io.now.area ++ codes "\n")) }
{
    put_shown(out, io.key())?;
    put(out, b" area=")?;
    put_shown(out, io.area())?;
    put(out, b"\n")
}

/// Writes an answer, from its status on.
fn put_answer<W: Write>(out: &mut W, answer: &Answer, io: &IoArea) -> Result<(), WriteFault>
    ensures { OnOk result (Appends (W.contents out.old) (W.contents out.new) (outcome_text (replied (reply_of answer.now io.now)))) }
{
    put(
        out,
        &place_bytes(answer.status, answer.level, &answer.segment),
    )?;
    put_bytes(out, io)
}

/// Adds bytes behind the first of a line, and says how many it has then.
fn add(line: &mut [u8], end: usize, bytes: &[u8]) -> usize
    requires { end + length bytes.now ≤ length line.old }
    ensures end { result ≡ end + length bytes.now }
    ensures line { take result line.new ≡ take end line.old ++ bytes.now }
    ensures room { length line.new ≡ length line.old }
{
    let behind = end + bytes.len();
    line[end..behind].copy_from_slice(bytes);
    behind
}

/// Whether a key and an area have room in one write with what stands beside them.
fn are_short(key: &[u8], area: &[u8]) -> bool
    ensures { result ≡ nat_le (length key.now + length area.now) SHORT }
{
    key.len() + area.len() <= SHORT
}

/// Whether the bytes of a line from one place to another are printed as they are, and those behind them up to the end of a block.
fn are_blocks_plain(line: &[u8; LINE_ROOM], start: usize, end: usize) -> bool
    requires { end ≤ 224 }
    ensures { result ≡ true → list_all is_plain (take (end - start) (drop start line.now)) ≡ true }
{
    let mut first = start;
    while first < end {
        if !are_plain(&line[first..first + BLOCK]) {
            return false;
        }
        first += BLOCK;
    }
    true
}

/// Writes the line of an answer part by part.
fn put_parts<W: Write>(
    out: &mut W,
    number: u64,
    pcb: u8,
    function: &[u8; 4],
    answer: &Answer,
    io: &IoArea,
) -> Result<(), WriteFault>
    ensures { OnOk result (Appends (W.contents out.old) (W.contents out.new)
        (head_text number pcb function.now ++ outcome_text (replied (reply_of answer.now io.now)))) }
{
    put_head(out, number, pcb, function)?;
    put_answer(out, answer, io)
}

/// Writes the line of an answer for a PCB of one digit, where a byte of key or area is not printed as it is: in one write, if there are few.
#[inline(never)]
fn put_seen<W: Write>(
    out: &mut W,
    number: u64,
    pcb: u8,
    function: &[u8; 4],
    answer: &Answer,
    io: &IoArea,
) -> Result<(), WriteFault>
    requires { pcb < 10 }
    ensures { OnOk result (Appends (W.contents out.old) (W.contents out.new)
        (head_text number pcb function.now ++ outcome_text (replied (reply_of answer.now io.now)))) }
{
    if io.key().len() + io.area().len() > FEW {
        return put_parts(out, number, pcb, function, answer, io);
    }
    let mut line = [b' '; LINE_ROOM];
    let place = place_bytes(answer.status, answer.level, &answer.segment);
    let end = add(&mut line, NUMBER_END, &short_head(pcb, function));
    let end = add(&mut line, end, &place);
    let end = add_each(&mut line, end, io.key());
    let end = add(&mut line, end, b" area=");
    let end = add_each(&mut line, end, io.area());
    let end = add(&mut line, end, b"\n");
    let first = write_digits(number, &mut line, NUMBER_END);
    put(out, &line[first..end])
}

/// Writes the line of an answer with a short key and area for a PCB of one digit: in one write, where both are printed as they are.
fn put_short<W: Write>(
    out: &mut W,
    number: u64,
    pcb: u8,
    function: &[u8; 4],
    answer: &Answer,
    io: &IoArea,
) -> Result<(), WriteFault>
    requires pcb { pcb < 10 }
    requires room { length io.now.key + length io.now.area ≤ SHORT }
    ensures { OnOk result (Appends (W.contents out.old) (W.contents out.new)
        (head_text number pcb function.now ++ outcome_text (replied (reply_of answer.now io.now)))) }
{
    let mut line = [b' '; LINE_ROOM];
    let place = place_bytes(answer.status, answer.level, &answer.segment);
    let end = add(&mut line, NUMBER_END, &short_head(pcb, function));
    let start = add(&mut line, end, &place);
    let end = add(&mut line, start, io.key());
    let end = add(&mut line, end, b" area=");
    let end = add(&mut line, end, io.area());
    if !are_blocks_plain(&line, start, end) {
        return put_seen(out, number, pcb, function, answer, io);
    }
    let end = add(&mut line, end, b"\n");
    let first = write_digits(number, &mut line, NUMBER_END);
    put(out, &line[first..end])
}

/// Writes the line of one call that was answered: the call's number, from 1, its PCB's number and its function, then
/// status, level, segment, key and area.
pub fn print_answer<W: Write>(
    out: &mut W,
    number: u64,
    pcb: u8,
    function: &[u8; 4],
    answer: &Answer,
    io: &IoArea,
) -> Result<(), WriteFault>
    ensures { OnOk result (Appends (W.contents out.old) (W.contents out.new)
        (head_text number pcb function.now ++ outcome_text (replied (reply_of answer.now io.now)))) }
{
    if pcb < 10 && are_short(io.key(), io.area()) {
        return put_short(out, number, pcb, function, answer, io);
    }
    put_parts(out, number, pcb, function, answer, io)
}

fn refused_text(refused: Refused) -> &'static [u8]
    ensures { result.now ≡ refused_text refused }
{
    match refused {
        Refused::Memory => b"Memory",
        Refused::Full => b"Full",
        Refused::Device => b"Device",
        Refused::Broken => b"Broken",
        Refused::Area => b"Area",
    }
}

/// Writes a refusal, from its brackets on.
fn put_refusal<W: Write>(out: &mut W, refused: Refused) -> Result<(), WriteFault>
    ensures { OnOk result (Appends (W.contents out.old) (W.contents out.new) (refusal_text refused)) }
{
    put(out, b" [!!] ")?;
    put(out, refused_text(refused))?;
    put(out, b"\n")
}

/// Writes the line of one call that was refused: the call's number, from 1, its PCB's number and its function, then the refusal's name.
pub fn print_refusal<W: Write>(
    out: &mut W,
    number: u64,
    pcb: u8,
    function: &[u8; 4],
    refused: Refused,
) -> Result<(), WriteFault>
    ensures { OnOk result (Appends (W.contents out.old) (W.contents out.new) (head_text number pcb function.now ++ refusal_text refused)) }
{
    put_head(out, number, pcb, function)?;
    put_refusal(out, refused)
}

/// Writes the line of one call.
pub(crate) fn print_outcome<W: Write>(
    out: &mut W,
    number: u64,
    pcb: u8,
    function: &[u8; 4],
    answered: &Result<Answer, Refused>,
    io: &IoArea,
) -> Result<(), WriteFault>
    ensures { OnOk result (Appends (W.contents out.old) (W.contents out.new) (head_text number pcb function.now ++ answered_text answered.now io.now)) }
{
    match answered {
        Ok(answer) => print_answer(out, number, pcb, function, answer, io),
        Err(refused) => print_refusal(out, number, pcb, function, *refused),
    }
}
