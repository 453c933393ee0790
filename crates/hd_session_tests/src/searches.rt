//! Searches that no call asks for by itself.
ghost use Rattle.std.specs.Prelude.{◌≤◌, ◌<◌};

use crate::list_text::is_slash;
use crate::list_trial::Trial;
use hd_calls::{Function, GetKind};
use hd_dbd::{Refused, Rule, Status};
use hd_forest::{Path, code_at, tip_of};
use hd_get::{Named, Outcome, find, first_named, unique_by_key};
use hd_position::{Levels, Position, stand};
use hd_ssa::resolve;
use hd_update::{insert_parent, place_below};
use std::alloc::{AllocError, Global};

/// The texts of the arguments of a call.
pub fn texts_of(alloc: Global, call: &[u8]) -> Result<Vec<Vec<u8>>, AllocError> {
    let mut texts = Vec::new(alloc);
    for text in call.split(is_slash).skip(1) {
        texts.push(Vec::from_slice(alloc, text)?)?;
    }
    Ok(texts)
}

/// The path that a search by arguments finds for a PCB, empty for none, as its word says: `from` where a GU begins, `seek` the first row from there on that
/// the PCB may read, `name` the first that the arguments name, and `par2` the parent of an inserted row of type 2.
pub fn search(
    alloc: Global,
    trial: &mut Trial<'_>,
    positions: &[Position; 3],
    number: usize,
    word: [u8; 4],
    text: &[u8],
) -> Result<Path, Refused>
    requires { (0 < number) × (number ≤ 3) }
{
    let dbd = trial.dbd;
    let Some(pcb) = trial.base.pcbs.get(number - 1) else {
        return Err(Refused::Broken);
    };
    let Ok(texts) = texts_of(alloc, text) else {
        return Err(Refused::Memory);
    };
    let get = Function::Get(GetKind::Unique, false);
    let Ok(resolved) = resolve(alloc, get, &texts, pcb, dbd) else {
        return Err(Refused::Broken);
    };
    let ssas = resolved.ssas();
    if word[0] == b'p' {
        let code = word[3].wrapping_sub(b'0');
        let position = &positions[number - 1];
        let found = insert_parent(&mut trial.volume, dbd, ssas, position, code)?;
        return Ok(found.unwrap_or(Path::new()));
    }
    if word[0] == b'n' || ssas.is_empty() {
        let found = first_named(&mut trial.volume, dbd, ssas)?;
        return Ok(found.unwrap_or(Path::new()));
    }
    let (mut path, _) = unique_by_key(&mut trial.volume, dbd, ssas)?;
    if word[0] == b's' {
        let judge = Named {
            pcb: Some(pcb),
            ssas,
        };
        find(&mut trial.volume, dbd, &judge, 0, &mut path)?;
    }
    Ok(path)
}

/// The twin behind which a row goes in, as `inF2` and the like say: the rule's letter and the type's code. `numbers` are the rows of the parent's path.
pub fn place(
    trial: &mut Trial<'_>,
    positions: &[Position; 3],
    number: usize,
    word: [u8; 4],
    numbers: &[u8],
    bytes: &[u8],
) -> Result<(Outcome, Path), Refused>
    requires { (0 < number) × (number ≤ 3) }
{
    let [_, _, rule, code] = word;
    let rule = match rule {
        b'F' => Rule::First,
        b'L' => Rule::Last,
        _ => Rule::Here,
    };
    let code = code.wrapping_sub(b'0');
    if !trial.dbd.row_fits(code, bytes) {
        return Err(Refused::Area);
    }
    let parent = trial.path_of(numbers);
    let position = &positions[number - 1];
    let mut path = Path::new();
    match place_below(
        &mut trial.volume,
        trial.dbd,
        &parent,
        position,
        rule,
        code,
        bytes,
    )? {
        Some(0) => {}
        Some(address) => path.push(address),
        None => return Ok((Outcome::Missing(Status::II), path)),
    }
    Ok((Outcome::Found(Status::Blank), path))
}

/// Reads the first and the last row of a path, as `read` says; or, as `come` says, lets a PCB stand on the last, and before all rows where there is none.
pub fn come(
    trial: &mut Trial<'_>,
    positions: &mut [Position; 3],
    number: usize,
    word: [u8; 4],
    path: &Path,
) -> Result<(), Refused>
    requires { (0 < number) × (number ≤ 3) }
{
    let Some(first) = path.addresses().first() else {
        positions[number - 1] = Position::start();
        return Ok(());
    };
    if word[0] == b'r' {
        code_at(&mut trial.volume, trial.dbd, *first)?;
        code_at(&mut trial.volume, trial.dbd, tip_of(path))?;
        return Ok(());
    }
    stand(
        &mut trial.volume,
        trial.dbd,
        &mut positions[number - 1],
        path.copy(),
        GetKind::Unique,
        Levels::new(),
    )
}
