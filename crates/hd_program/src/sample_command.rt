ghost use Rattle.std.specs.Prelude.{◌≡◌, ◌<◌, ◌≤◌, ◌^◌, length, All, IfOk};
ghost use Rattle.hd_dbd.specs.ProgramRules.{type_names};
ghost use Rattle.hd_deck.specs.StepText.{StepFits};

use crate::deck_command::end_of;
use crate::deck_lines::lines_into;
use crate::sample;
use crate::stop::Stop;
use hd_commands::{Ended, play_deck};
use hd_dbd::{Dbd, Psb};
use hd_deck::{Step, read_deck};
use hd_files::{Named, read_whole};
use hd_output::Silent;
use hd_stores::BlockStore;
use std::alloc::Global;
use std::io::{Read, Write};

/// The sample database, and the sample program.
fn read_sample(alloc: Global) -> Result<(Dbd, Psb), Stop>
    ensures { IfOk result (λ p. p.1.made_for ≡ type_names p.0.types) }
{
    let dbd = match sample::database(alloc) {
        Ok(dbd) => dbd,
        Err(fault) => return Err(Stop::database(fault, Vec::new(alloc))),
    };
    match sample::program(alloc, &dbd) {
        Ok(psb) => Ok((dbd, psb)),
        Err(fault) => Err(Stop::program(fault, Vec::new(alloc))),
    }
}

/// The text that a reader holds.
fn read_input<I: Read>(alloc: Global, input: &mut I) -> Result<Vec<u8>, Stop>
    ensures { IfOk result (λ t. length t.items ≤ 2 ^ 30) }
{
    match read_whole(alloc, input) {
        Ok(text) => Ok(text),
        Err(error) => Err(Stop::file(Named::Input, error)),
    }
}

/// Plays a deck over a store, which is then of no more use.
fn play_over_blocks<S: BlockStore + Drop, O: Write, E: Write>(
    alloc: Global,
    dbd: &Dbd,
    psb: &Psb,
    steps: &[Step<'_>],
    store: S,
    out: &mut O,
    err: &mut E,
) -> Ended
    requires size { S.size store ≡ dbd.now.block_size }
    requires matches { psb.now.made_for ≡ type_names dbd.now.types }
    requires steps { All (StepFits (length psb.now.pcbs)) steps.now }
    requires count { length steps.now ≤ 2 ^ 30 }
{
    let (_, played) = play_deck(alloc, dbd, psb, sample::KEPT, steps, store, out, err);
    end_of(played)
}

/// Plays the deck that a reader holds over the sample, in memory. Says how it ended.
pub fn play_sample<I: Read, O: Write, E: Write>(
    alloc: Global,
    input: &mut I,
    out: &mut O,
    err: &mut E,
) -> Result<Ended, Stop> {
    let (dbd, psb) = read_sample(alloc)?;
    let text = read_input(alloc, input)?;
    let read = read_deck(alloc, &text, psb.pcbs().len() as u8);
    let steps = match read {
        Ok(steps) => steps,
        Err(fault) => {
            drop(read);
            return Err(Stop::deck(fault, text, Named::Input));
        }
    };
    let store = sample::volume(alloc, &dbd)?;
    let mut lines = lines_into(alloc, out, &steps, &Silent)?;
    Ok(play_over_blocks(alloc, &dbd, &psb, &steps, store, &mut lines, err))
}
