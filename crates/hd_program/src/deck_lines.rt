use crate::compared::{Compared, Expectations};
use crate::lines::LINE;
use crate::stop::Stop;
use hd_commands::Refusal;
use hd_deck::Step;
use hd_files::Held;
use hd_output::{Answers, Pieces, Progress};
use std::alloc::Global;
use std::io::Write;

/// How many calls a deck has.
fn count_calls(steps: &[Step<'_>]) -> u64 {
    let mut calls = 0u64;
    for step in steps {
        calls = calls.saturating_add(u64::from(step.repeat));
    }
    calls
}

/// The lines of a deck's calls, which go out in large pieces; how many of the calls are answered is told.
pub fn lines_into<'p, O: Write, P: Progress>(
    alloc: Global,
    out: &'p mut O,
    steps: &[Step<'_>],
    progress: &'p P,
) -> Result<Answers<'p, Pieces<&'p mut O>, P>, Stop> {
    match Pieces::new(alloc, out) {
        Ok(pieces) => Ok(Answers::new(pieces, count_calls(steps), progress)),
        Err(_) => Err(Stop::from(Refusal::Memory)),
    }
}

/// The lines of a deck's calls, whose last go out when they are let go, and which are compared with what is expected; and room for what is said at the end.
pub fn held_lines<'p, O: Write, P: Progress>(
    alloc: Global,
    out: &'p mut O,
    steps: &[Step<'_>],
    expectations: Expectations,
    progress: &'p P,
) -> Result<(Held<Compared<Answers<'p, Pieces<&'p mut O>, P>>>, Vec<u8>), Stop> {
    let lines = lines_into(alloc, out, steps, progress)?;
    let said = Vec::with_capacity(alloc, LINE)?;
    Ok((Held::over(Compared::over(lines, expectations)), said))
}

/// Behind how many calls of a deck at least there was a commit, where so many have a line, and there is one behind every so many: a call has its line before
/// its commit, and that is done before the next call.
pub fn committed_calls(every: Option<u32>, answered: u64) -> Option<u64> {
    match every {
        Some(every) if every > 0 => {
            let before = answered.saturating_sub(1);
            Some(before - before % u64::from(every))
        }
        _ => None,
    }
}
