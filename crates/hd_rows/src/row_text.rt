use crate::naming::without_padding;
use crate::part::{Part, parts_of};
use crate::typed::{Values, put_typed_value};
use crate::value::{put_value, shown_part};
use hd_dbd::{Dbd, SegType};
use std::alloc::{AllocError, Global};
use std::io::{self, Write};

/// A part of a type, with what a line has before its value.
#[derive(Drop)]
struct Labelled {
    part: Part,
    label: Vec<u8>,
}

/// What the lines of a type's rows have in common: their beginning, and their parts in order.
#[derive(Drop)]
pub struct LineForm {
    head: Vec<u8>,
    parts: Vec<Labelled>,
}

/// A part with a blank, its name and an equals sign.
fn with_label(alloc: Global, part: &Part) -> Result<Labelled, AllocError> {
    let mut label = Vec::new(alloc);
    label.extend_from_slice(b" ")?;
    part.push_label(&mut label)?;
    label.extend_from_slice(b"=")?;
    Ok(Labelled { part: *part, label })
}

/// The form of the lines of a type on a level: two blanks for each level above it, and the type's name.
fn form_of(alloc: Global, segment: &SegType, level: u8) -> Result<LineForm, AllocError> {
    let mut head = Vec::new(alloc);
    for _ in 1..level {
        head.extend_from_slice(b"  ")?;
    }
    head.extend_from_slice(without_padding(segment.name.bytes()))?;
    let mut parts = Vec::new(alloc);
    let all = parts_of(alloc, segment)?;
    for part in &all {
        parts.push(with_label(alloc, part)?)?;
    }
    Ok(LineForm { head, parts })
}

/// The forms of the lines of each type of a database.
pub fn forms_of(alloc: Global, dbd: &Dbd) -> Result<Vec<LineForm>, AllocError> {
    let mut forms = Vec::new(alloc);
    let mut code = 0u8;
    for segment in dbd.types() {
        code = code.saturating_add(1);
        forms.push(form_of(alloc, segment, dbd.level(code))?)?;
    }
    Ok(forms)
}

/// Writes a part's bytes in a segment as the value of a line.
fn put_part<W: Write>(out: &mut W, part: &Part, bytes: &[u8], values: Values) -> io::Result<()> {
    match values {
        Values::Bytes => put_value(out, shown_part(part, bytes)),
        Values::Typed => put_typed_value(out, part, part.bytes_in(bytes)),
    }
}

/// Writes the line of a row.
pub fn put_line<W: Write>(
    forms: &[LineForm],
    values: Values,
    code: u8,
    bytes: &[u8],
    out: &mut W,
) -> io::Result<()> {
    let place = (code as usize).saturating_sub(1);
    let Some(form) = forms.get(place) else {
        return Ok(());
    };
    out.write_all(&form.head)?;
    for labelled in &form.parts {
        out.write_all(&labelled.label)?;
        put_part(out, &labelled.part, bytes, values)?;
    }
    out.write_all(b"\n")
}
