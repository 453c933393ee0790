//! Lists of calls of a volume and of a PCB's position, with what they are to answer.

use crate::text::{Line, is_end, line_of};
use crate::trial::Trial;
use hd_calls::GetKind;
use hd_dbd::{Dbd, Refused};
use hd_forest::{Path, code_at, last_child, next_row, prev_twin, tip_of, twin_from, unlink_span};
use hd_position::{Levels, Position, begin, row_before, row_on, stand, stand_on_new};
use hd_prefix::{Layout, code_of};

/// The path of these addresses, root first, which ends at a 0.
pub fn path_of(addresses: &[u32]) -> Path {
    let mut path = Path::new();
    for address in addresses {
        if *address != 0 {
            path.push(*address);
        }
    }
    path
}

/// The first addresses of a path, and zeros.
fn addresses_of(path: &Path) -> [u32; 6] {
    let mut addresses = [0; 6];
    for (own, address) in addresses.iter_mut().zip(path.addresses()) {
        *own = *address;
    }
    addresses
}

/// Links so many rows of a type below a parent: each behind the one before it, as the first, or, as last child says, as the last.
fn link_many(trial: &mut Trial<'_>, parent: u32, count: u32, way: u32) -> Result<u32, Refused> {
    let mut last = 0;
    for _ in 0..count {
        let after = match way {
            0 => last,
            1 => 0,
            _ => last_child(&mut trial.volume, trial.dbd, parent, 4)?,
        };
        last = trial.link(parent, after, 4, b"EULER")?;
    }
    Ok(last)
}

/// Whether the bytes of a segment begin a text, and a `/` behind them; then the rest of the text.
fn text_behind<'t>(dbd: &Dbd, segment: &[u8], text: &'t [u8]) -> Option<&'t [u8]> {
    if segment.is_empty() {
        return None;
    }
    let layout = Layout::of(dbd, code_of(segment));
    if !layout.is_whole(segment) {
        return None;
    }
    text.strip_prefix(layout.bytes(segment))?.strip_prefix(b"/")
}

/// How many rows a volume has that are those of a text, with a `/` behind each, as a walk comes to them from the first on; 1,000 where they are others.
fn walk(trial: &mut Trial<'_>, text: &[u8]) -> Result<u32, Refused> {
    let mut rest = text;
    let mut path = Path::new();
    for count in 0..100 {
        next_row(&mut trial.volume, trial.dbd, &mut path)?;
        let Some(address) = path.addresses().last() else {
            return Ok(if rest.is_empty() { count } else { 1000 });
        };
        let segment = trial.volume.segment_at(*address)?;
        match text_behind(trial.dbd, segment, rest) {
            Some(behind) => rest = behind,
            None => return Ok(1000),
        }
    }
    Ok(1000)
}

/// A student's segment.
pub const STUDENT: &[u8] = b"\x03\0\0\0\0\0ADAM01\0\0\0\0";

/// A course's segment.
const COURSE: &[u8] =
    b"\x01\0\0\0\0\0\0\0\0\0\0\0\0\0\0\0\0\0\0\0\0\0\0\0\0\x00205LOGIC\0\0\0\0\0\0";

/// Puts so many segments: each of so many, from the first on, is a course, and the others are students; where that is 0 all are. Says the address of the last.
fn put_many(trial: &mut Trial<'_>, count: u32, every: u32) -> Result<u32, Refused> {
    let mut last = 0;
    for n in 0..count {
        let segment = if every > 0 && n % every == 0 {
            COURSE
        } else {
            STUDENT
        };
        last = trial.put(None, segment)?;
    }
    Ok(last)
}

/// A call of a volume, as a line names it: `put` segments, write one `over` another, `grab` a block, `free` a segment, set the first root at the `head`, and
/// write all that is changed to the `end`. Another word is none.
fn segment_call(trial: &mut Trial<'_>, line: &Line<'_>) -> Result<u32, Refused> {
    let [_, a, b, _, _, _] = line.numbers;
    match line.word {
        b'p' => return put_many(trial, a, b),
        b'o' => return trial.put(Some(a), line.bytes),
        b'g' => return trial.volume.take_block(0),
        b'f' => trial.volume.free(a)?,
        b'e' => trial.volume.flush()?,
        b'h' => trial.volume.set_first_root(a),
        _ => {}
    }
    Ok(0)
}

/// A call that links rows or goes along their links, as a line names it: `link` a row behind a twin, `many` rows, `change` the bytes of one, `unlink` a
/// span, the twin `before`, `seek` a twin from a key on, and `walk` over rows.
fn link_call(trial: &mut Trial<'_>, line: &Line<'_>) -> Result<u32, Refused> {
    let [_, a, b, c, _, _] = line.numbers;
    match line.word {
        b'l' => trial.link(a, b, (c % 256) as u8, line.bytes),
        b'm' => link_many(trial, a, b, c),
        b'c' => trial.replace(&path_of(&[a, b]), (c % 256) as u8, line.bytes),
        b'u' => {
            unlink_span(&mut trial.volume, trial.dbd, &path_of(&[a, b]))?;
            Ok(0)
        }
        b'b' => prev_twin(&mut trial.volume, trial.dbd, &path_of(&[a, b])),
        b's' => {
            let code = code_at(&mut trial.volume, trial.dbd, a)?;
            twin_from(&mut trial.volume, trial.dbd, code, a, line.bytes)
        }
        b'w' => walk(trial, line.bytes),
        _ => segment_call(trial, line),
    }
}

/// The kind of a get and the levels of the rows that it holds, as `U13`.
fn held_in(text: &[u8]) -> (GetKind, Levels) {
    let mut held = Levels::new();
    for digit in text.iter().skip(1) {
        held.push(digit.wrapping_sub(b'0'));
    }
    let kind = match text.first() {
        Some(b'U') => GetKind::Unique,
        Some(b'P') => GetKind::NextInParent,
        _ => GetKind::Next,
    };
    (kind, held)
}

/// A call that moves a PCB, as a line names it: `Stand` on the row of a path, as a get leaves it, stand on a `New` one, `Delete` the row of a path, and
/// `Move` a row.
fn move_call(
    trial: &mut Trial<'_>,
    position: &mut Position,
    line: &Line<'_>,
) -> Result<(), Refused> {
    let path = path_of(&line.numbers[1..]);
    match line.word {
        b'S' => {
            let (kind, held) = held_in(line.bytes);
            stand(&mut trial.volume, trial.dbd, position, path, kind, held)
        }
        b'N' => stand_on_new(&mut trial.volume, trial.dbd, position, path),
        b'D' => {
            let before = row_before(&mut trial.volume, trial.dbd, &path)?;
            unlink_span(&mut trial.volume, trial.dbd, &path)?;
            position.leave_span(tip_of(&path), path.level(), &before);
            Ok(())
        }
        _ => {
            position.move_row(line.numbers[1], line.numbers[2]);
            Ok(())
        }
    }
}

/// A PCB's place by what its readers say: the rows of its path, of its standing and of its parentage, whether it holds the rows at 200 and 216, and the
/// level and type of the row last returned.
fn told(position: &Position) -> [u32; 6] {
    let path = position.path();
    let last = match position.last() {
        Some(last) => u32::from(last.level) * 10 + u32::from(last.code),
        None => 0,
    };
    [
        tip_of(path),
        row_on(path, position.standing()).unwrap_or(0),
        row_on(path, position.parent()).unwrap_or(0),
        u32::from(position.holds(200)),
        u32::from(position.holds(216)),
        last,
    ]
}

/// What is asked, as a line names it: how a PCB stands by `It`, its `Path`, the path `Ahead` of it, the path of the row `Before` that of a path, and the version,
/// the count of blocks and the largest count that the `Volume` says.
fn place_call(
    trial: &mut Trial<'_>,
    position: &Position,
    line: &Line<'_>,
) -> Result<[u32; 6], Refused> {
    match line.word {
        b'A' => {
            let path = begin(&mut trial.volume, trial.dbd, position)?;
            Ok(addresses_of(&path))
        }
        b'B' => {
            let path = path_of(&line.numbers[1..]);
            let before = row_before(&mut trial.volume, trial.dbd, &path)?;
            Ok(addresses_of(&before))
        }
        b'P' => Ok(addresses_of(position.path())),
        b'V' => {
            let volume = &trial.volume;
            let version = u32::from(volume.version());
            Ok([
                version,
                volume.block_count(),
                volume.largest_count(),
                0,
                0,
                0,
            ])
        }
        _ => Ok(told(position)),
    }
}

/// Makes the call of a line, and answers its numbers.
fn answer(
    trial: &mut Trial<'_>,
    position: &mut Position,
    line: &Line<'_>,
) -> Result<[u32; 6], Refused> {
    match line.word {
        b'A' | b'B' | b'I' | b'P' | b'V' => place_call(trial, position, line),
        b'D' | b'M' | b'N' | b'S' => {
            move_call(trial, position, line)?;
            Ok([0; 6])
        }
        _ => {
            let told = link_call(trial, line)?;
            Ok([told, 0, 0, 0, 0, 0])
        }
    }
}

/// Makes the calls of a list's lines, and says the first line that is answered otherwise than it wants. In a line `^` is what the one before it answered.
pub fn play(
    trial: &mut Trial<'_>,
    position: &mut Position,
    list: &[u8],
) -> Result<Option<usize>, Refused> {
    let mut known = 0;
    for (number, text) in list.split(is_end).enumerate() {
        let line = line_of(text, known);
        let told = answer(trial, position, &line)?;
        if line.is_asked && told != line.wanted {
            return Ok(Some(number));
        }
        known = told[0];
    }
    Ok(None)
}
