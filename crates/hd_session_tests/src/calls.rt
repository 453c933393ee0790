//! Lists of calls, with what each answers.
ghost use Rattle.std.specs.Prelude.{◌≡◌, ◌≤◌, ◌<◌};
ghost use Rattle.hd_update.specs.Inserting.{AreInsertArguments};

use crate::bases::filled;
use crate::list_text::{cut, is_comma, is_end};
use crate::list_trial::{Trial, places_of};
use crate::searches::{come, place, search, texts_of};
use hd_calls::Function;
use hd_dbd::{Pcb, Refused, Status, status_text};
use hd_forest::Path;
use hd_get::{Get, Outcome, get};
use hd_position::Position;
use hd_session::{function_of, last_test};
use hd_ssa::{ResolvedSsa, SsaFault, loads, resolve};
use hd_update::{dlet, isrt, load_row, repl};
use std::alloc::Global;

/// An update that passed its tests. `Broken` says that it asks for nothing.
fn update(
    trial: &mut Trial<'_>,
    positions: &mut [Position; 3],
    number: usize,
    pcb: &Pcb,
    function: Function,
    ssas: &[ResolvedSsa<'_>],
    area: &[u8],
) -> Result<Outcome, Refused>
    requires number { (0 < number) × (number ≤ 3) }
    requires arguments { function ≡ Function.Insert → AreInsertArguments trial.old.dbd.now.types ssas.now }
{
    let dbd = trial.dbd;
    let volume = &mut trial.volume;
    match function {
        Function::Replace => {
            if positions[number - 1].held().as_slice().is_empty() {
                return Err(Refused::Broken);
            }
            repl(volume, dbd, positions, number, ssas, area)
        }
        Function::Delete => dlet(volume, dbd, positions, number, ssas),
        Function::Get(..) => Err(Refused::Broken),
        Function::Insert => {
            if ssas.is_empty() {
                return Err(Refused::Broken);
            }
            if !loads(pcb) {
                return isrt(volume, dbd, positions, number, ssas, area);
            }
            let code = ssas[0].code();
            if dbd.type_of(code).is_none() {
                return Err(Refused::Broken);
            }
            load_row(volume, dbd, positions, number, code, area)
        }
    }
}

/// What a call comes to that failed a test.
fn failed(position: &mut Position, status: Status) -> Outcome {
    position.unhold();
    Outcome::Missing(status)
}

/// A call of a PCB: its tests, and its own work.
fn call(
    alloc: Global,
    trial: &mut Trial<'_>,
    positions: &mut [Position; 3],
    number: usize,
    func: [u8; 4],
    text: &[u8],
    area: &[u8],
) -> Result<Outcome, Refused>
    requires { (0 < number) × (number ≤ 3) }
{
    let dbd = trial.dbd;
    let Some(pcb) = trial.base.pcbs.get(number - 1) else {
        return Err(Refused::Broken);
    };
    let Ok(texts) = texts_of(alloc, text) else {
        return Err(Refused::Memory);
    };
    let position = &mut positions[number - 1];
    let Some(function) = function_of(func) else {
        return Ok(failed(position, Status::AD));
    };
    let resolved = match resolve(alloc, function, &texts, pcb, dbd) {
        Ok(resolved) => resolved,
        Err(SsaFault::Status(status)) => return Ok(failed(position, status)),
        Err(SsaFault::Memory) => return Err(Refused::Memory),
    };
    let ssas = resolved.ssas();
    if let Some(status) = last_test(&mut trial.volume, dbd, pcb, position, function, ssas)? {
        return Ok(failed(position, status));
    }
    if let Function::Get(kind, hold) = function {
        let call = Get {
            pcb,
            kind,
            hold,
            ssas,
        };
        return get(&mut trial.volume, dbd, &call, position);
    }
    update(trial, positions, number, pcb, function, ssas, area)
}

/// What a call comes to, or a search by its word, and the path where its PCB then is, or that was found. `Broken` says that a get or an ISRT does not leave
/// its PCB on the row, or that the call is none.
fn make(
    alloc: Global,
    trial: &mut Trial<'_>,
    positions: &mut [Position; 3],
    text: &[u8],
    area: &[u8],
) -> Result<(Outcome, Path), Refused> {
    let [digit, b' ', a, b, c, d, ..] = text else {
        return Err(Refused::Broken);
    };
    let (number, word) = (usize::from(digit.wrapping_sub(b'0')), [*a, *b, *c, *d]);
    let Ok(bytes) = filled(alloc, area, trial.base.width) else {
        return Err(Refused::Memory);
    };
    if number == 0 || number > 3 {
        return Err(Refused::Broken);
    }
    let numbers = cut(text, b'/').1;
    let path = match word[0] {
        b'i' => return place(trial, positions, number, word, numbers, &bytes),
        b'c' | b'r' => {
            let path = trial.path_of(numbers);
            come(trial, positions, number, word, &path)?;
            path
        }
        b'f' | b'n' | b'p' | b's' => search(alloc, trial, positions, number, word, text)?,
        _ => {
            let outcome = call(alloc, trial, positions, number, word, text, &bytes)?;
            let position = &positions[number - 1];
            let path = position.path().copy();
            let is_on_it = position.standing() == path.level();
            let is_asked = word[0] == b'G' || word[0] == b'I';
            if is_asked && !is_on_it && matches!(outcome, Outcome::Found(_)) {
                return Err(Refused::Broken);
            }
            return Ok((outcome, path));
        }
    };
    Ok((Outcome::Found(Status::Blank), path))
}

/// The first letters of what a call came to: those of its status, or of its refusal.
fn letters_of(told: &Result<(Outcome, Path), Refused>) -> &'static [u8; 2] {
    match told {
        Ok((Outcome::Found(status), _)) => match status {
            Status::Blank | Status::GA | Status::GK => status_text(*status),
            _ => b"??",
        },
        Ok((Outcome::Missing(status), _)) => match status {
            Status::Blank | Status::GA | Status::GK => b"??",
            _ => status_text(*status),
        },
        Err(Refused::Area) => b"Ar",
        Err(Refused::Full) => b"Fu",
        Err(_) => b"!!",
    }
}

/// Makes a call, and says whether its answer is this one: the status, and, where that is said, the path; or `Area` or `Full`. A call that is refused leaves
/// the PCBs where they were, and with a status it ends the hold of its own; GB goes to the start.
fn is_answered(
    alloc: Global,
    trial: &mut Trial<'_>,
    positions: &mut [Position; 3],
    text: &[u8],
    area: &[u8],
    answer: &[u8],
) -> Result<bool, Refused> {
    let mut kept = places_of(positions);
    let mut told = make(alloc, trial, positions, text, area);
    if let Err(Refused::Memory) = told {
        trial.memory = trial.memory.saturating_add(1);
        if trial.way.is_again && places_of(positions) == kept {
            told = make(alloc, trial, positions, text, area);
        }
    }
    let digit = text.first().copied().unwrap_or(0);
    if let (Ok(_), Some(own)) = (&told, kept.get_mut(usize::from(digit.wrapping_sub(b'1')))) {
        own[6] = 0;
        own[7] = 0;
        own[8] = 0;
    }
    let letters = letters_of(&told);
    let is_done = matches!(letters, b"  " | b"GA" | b"GB" | b"GK");
    let (status, numbers) = answer.split_at(answer.len().min(2));
    let is_right = letters.as_slice() == status && (is_done || places_of(positions) == kept);
    match told {
        Ok((_, path)) => {
            let wanted = trial.path_of(numbers);
            let is_there = numbers.is_empty() || path.addresses() == wanted.addresses();
            Ok(is_right && is_there)
        }
        Err(refused) => { if is_right { Ok(true) } else { Err(refused) } }
    }
}

/// Makes the call of a line once for each of its answers, and says whether they are right. A line `1 GU  /SSA/SSA;area;  1/2,GE` has the PCB, the function,
/// the arguments, the area, and the answers; one without a call is passed over, and so is an update that is refused, where such are not tried.
fn play_line(
    alloc: Global,
    trial: &mut Trial<'_>,
    positions: &mut [Position; 3],
    line: &[u8],
) -> Result<bool, Refused> {
    let (text, rest) = cut(line, b';');
    let (area, answers) = cut(rest, b';');
    let letter = text.get(2).copied().unwrap_or(b' ');
    let is_update = letter == b'I' || letter == b'R' || letter == b'D';
    if rest.is_empty() || is_update && !trial.way.is_tried && !answers.starts_with(b"  ") {
        return Ok(true);
    }
    for answer in answers.split(is_comma) {
        if trial.made >= trial.way.calls {
            return Ok(true);
        }
        if !is_answered(alloc, trial, positions, text, area, answer)? {
            return Ok(false);
        }
        trial.made = trial.made.saturating_add(1);
    }
    Ok(true)
}

/// Plays the lines of a list, and says whether all answers are right, up to the first that is not.
pub fn play(
    alloc: Global,
    trial: &mut Trial<'_>,
    positions: &mut [Position; 3],
    list: &[u8],
) -> Result<bool, Refused> {
    for line in list.split(is_end) {
        if !play_line(alloc, trial, positions, line)? {
            return Ok(false);
        }
    }
    Ok(true)
}
