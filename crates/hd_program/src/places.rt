use hd_macro::Statement;

/// The column behind the last that may have text.
const LAST_COLUMN: usize = 71;

/// The columns in front of text that goes on.
const INDENTATION: usize = 15;

/// A line of a text, and a column in it, both from 1.
#[derive(Clone, Copy)]
pub struct Position {
    pub line: usize,
    pub column: usize,
}

/// A line without the carriage return at its end.
pub fn without_return(line: &[u8]) -> &[u8] {
    match line {
        [line @ .., b'\r'] => line,
        _ => line,
    }
}

/// The line of a text with a number, from 1, without its end; empty behind the last.
pub fn line_at(text: &[u8], number: usize) -> &[u8] {
    let before = number.saturating_sub(1);
    match text.split(|byte| *byte == b'\n').skip(before).next() {
        Some(line) => without_return(line),
        None => &[],
    }
}

/// Where a run of blanks, or of other bytes, ends that begins at a place.
fn end_of_run(line: &[u8], from: usize, are_blanks: bool) -> usize {
    for (place, byte) in line.iter().enumerate().skip(from) {
        if (*byte == b' ') != are_blanks {
            return place;
        }
    }
    line.len()
}

/// Where the operands of a statement begin in its first line: behind a label, if there is one, and the operation.
fn operands_at(line: &[u8]) -> usize {
    let behind_label = end_of_run(line, end_of_run(line, 0, false), true);
    end_of_run(line, end_of_run(line, behind_label, false), true)
}

/// What is left to be passed over of the operands of a statement: so many operands, with so many brackets open.
#[derive(Drop)]
struct Passing {
    operands: usize,
    depth: usize,
}

impl Passing {
    /// Passes over a byte.
    fn pass(&mut self, byte: u8) {
        match byte {
            b'(' => self.depth = self.depth.saturating_add(1),
            b')' => self.depth = self.depth.saturating_sub(1),
            b',' if self.depth == 0 => self.operands = self.operands.saturating_sub(1),
            _ => {}
        }
    }

    /// Passes over the operand text of a line, from a place on; gives the place where nothing is left to be passed over.
    fn pass_line(&mut self, line: &[u8], from: usize) -> Option<usize> {
        for (place, byte) in line.iter().enumerate().take(LAST_COLUMN).skip(from) {
            if *byte == b' ' {
                return None;
            }
            if self.operands == 0 {
                return Some(place);
            }
            self.pass(*byte);
        }
        None
    }
}

/// Whether column 72 of a line says that the next one goes on.
fn goes_on(line: &[u8]) -> bool {
    line.get(LAST_COLUMN).is_some_and(|byte| *byte != b' ')
}

/// Where the operand behind so many begins, of a statement of a text whose lines have no fault.
pub fn operand_at(text: &[u8], statement: &Statement, operands: usize) -> Option<Position> {
    let mut passing = Passing { operands, depth: 0 };
    let before = statement.line.saturating_sub(1);
    for (number, line) in text.split(|byte| *byte == b'\n').enumerate().skip(before) {
        let line = without_return(line);
        let from = if number == before {
            operands_at(line)
        } else {
            INDENTATION
        };
        if let Some(place) = passing.pass_line(line, from) {
            return Some(Position {
                line: number.saturating_add(1),
                column: place.saturating_add(1),
            });
        }
        if !goes_on(line) {
            return None;
        }
    }
    None
}

/// The part of a line's operand text that stands in front of a column and belongs to the operand there.
pub fn operand_before(line: &[u8], column: usize) -> &[u8] {
    let front = line.get(..column.saturating_sub(1)).unwrap_or(line);
    let mut start = 0;
    let mut passing = Passing {
        operands: 1,
        depth: 0,
    };
    for (place, byte) in front.iter().enumerate() {
        passing.pass(*byte);
        if *byte == b' ' || passing.operands == 0 {
            start = place.saturating_add(1);
            passing = Passing {
                operands: 1,
                depth: 0,
            };
        }
    }
    front.get(start..).unwrap_or(&[])
}

/// The byte of a line's text in a column, where one stands there.
pub fn byte_at(line: &[u8], column: usize) -> Option<u8> {
    if column > LAST_COLUMN {
        return None;
    }
    match line.get(column.checked_sub(1)?) {
        Some(b' ') | None => None,
        Some(byte) => Some(*byte),
    }
}

/// The column of the first byte of a line that is not ASCII.
pub fn other_byte_at(line: &[u8]) -> usize {
    for (place, byte) in line.iter().enumerate() {
        if !byte.is_ascii() {
            return place.saturating_add(1);
        }
    }
    0
}

/// The column in which a line is not what should go on: the first of the first fifteen that is not blank, or else the sixteenth; 0 where there is no line.
pub fn unblank_at(line: &[u8]) -> usize {
    if line.is_empty() {
        return 0;
    }
    for (place, byte) in line.iter().enumerate().take(INDENTATION) {
        if *byte != b' ' {
            return place.saturating_add(1);
        }
    }
    INDENTATION + 1
}
