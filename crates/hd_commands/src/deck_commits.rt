ghost use Rattle.std.specs.Prelude.{◌≡◌, ◌≢◌, ◌^◌, ◌≤◌, length, All, Some, IfOk, IfErr, OnOk};
ghost use Rattle.hd_dbd.specs.ProgramRules.{type_names};
ghost use Rattle.hd_deck.specs.StepText.{StepFits};
ghost use Rattle.hd_commands.specs.Commands.{IsRefused};
ghost use Rattle.hd_deck.specs.Commits.{PlaysWithCommits};
ghost use Rattle.hd_commands.specs.Units.{PlaysInPart, AddsCommits};
ghost use Rattle.hd_commands.specs.Plays.{PlaySays, FailsOrStays};

use crate::ended::{Ended, refuse};
use crate::refusal::Refusal;
use hd_dbd::{Dbd, Psb};
use hd_deck::{RunFault, Step, run_with_commits};
use hd_stores::CommitStore;
use std::alloc::Global;
use std::io::Write;

/// Plays a deck over the volume in a store, with a commit behind every so many calls where that is wanted, and prints what its calls answer. Says how many of
/// them found no memory.
fn commit_and_print<S: CommitStore, O: Write>(
    alloc: Global,
    dbd: &Dbd,
    psb: &Psb,
    kept: usize,
    steps: &[Step<'_>],
    every: Option<u32>,
    store: S,
    out: &mut O,
) -> (S, Result<u64, Refusal>)
    requires size { S.size store ≡ dbd.now.block_size }
    requires matches { psb.now.made_for ≡ type_names dbd.now.types }
    requires steps { All (StepFits (length psb.now.pcbs)) steps.now }
    requires count { length steps.now ≤ 2 ^ 30 }
    ensures played { IfOk result.1 (PlaysWithCommits S.is_sound S.contents S.committed dbd.now psb.now.pcbs every steps.now store result.0 (O.contents out.old) (O.contents out.new)) }
    ensures failures { OnOk result.1 (S.failures result.0 ≡ S.failures store) }
    ensures refused { IfErr result.1 (PlaySays S.is_sound S.failures S.contents dbd.now psb.now.pcbs steps.now store result.0) }
    ensures part { IfErr result.1 (λ e. e ≡ Refusal.Device → PlaysInPart S.is_sound S.contents S.committed dbd.now psb.now.pcbs every steps.now store result.0) }
    ensures commits { IfErr result.1 (λ e. AddsCommits S.is_sound S.contents S.committed dbd.now psb.now.pcbs every steps.now store result.0) }
    ensures silent { IfErr result.1 (λ e. e ≢ Refusal.Device → out.new ≡ out.old) }
    ensures accesses { FailsOrStays S.is_sound S.failures store result.0 }
    ensures size { S.size result.0 ≡ S.size store }
{
    match run_with_commits(alloc, store, dbd, psb, kept, steps, every, out) {
        Ok(end) => match out.flush() {
            Ok(()) => (end.store, Ok(end.memory)),
            Err(_) => (end.store, Err(Refusal::Device)),
        },
        Err((store, fault)) => {
            if matches!(fault, RunFault::Device | RunFault::Write) {
                let _ = out.flush();
            }
            (store, Err(Refusal::of_run(fault)))
        }
    }
}

/// Plays a deck over the volume in a store, with a commit behind every so many calls where that is wanted; what is changed behind the last of them is not
/// committed. Says on `out` what its calls answer, or on `err` why they were not all made. Where they were, says how many of them found no memory. The store
/// is given back.
pub(crate) fn play_and_commit<S: CommitStore, O: Write, E: Write>(
    alloc: Global,
    dbd: &Dbd,
    psb: &Psb,
    kept: usize,
    steps: &[Step<'_>],
    every: Option<u32>,
    store: S,
    out: &mut O,
    err: &mut E,
) -> (S, Result<u64, Ended>)
    requires size { S.size store ≡ dbd.now.block_size }
    requires matches { psb.now.made_for ≡ type_names dbd.now.types }
    requires steps { All (StepFits (length psb.now.pcbs)) steps.now }
    requires count { length steps.now ≤ 2 ^ 30 }
    ensures played { IfOk result.1 (PlaysWithCommits S.is_sound S.contents S.committed dbd.now psb.now.pcbs every steps.now store result.0 (O.contents out.old) (O.contents out.new)) }
    ensures failures { OnOk result.1 (S.failures result.0 ≡ S.failures store) }
    ensures quiet { OnOk result.1 (err.new ≡ err.old) }
    ensures refused { IfErr result.1 (λ e. IsRefused (PlaySays S.is_sound S.failures S.contents dbd.now psb.now.pcbs steps.now store result.0) e (E.contents err.old) (E.contents err.new)) }
    ensures part { IfErr result.1 (λ e. e.refusal ≡ Some Refusal.Device → PlaysInPart S.is_sound S.contents S.committed dbd.now psb.now.pcbs every steps.now store result.0) }
    ensures commits { AddsCommits S.is_sound S.contents S.committed dbd.now psb.now.pcbs every steps.now store result.0 }
    ensures silent { IfErr result.1 (λ e. e.status ≢ 3 → out.new ≡ out.old) }
    ensures accesses { FailsOrStays S.is_sound S.failures store result.0 }
    ensures size { S.size result.0 ≡ S.size store }
{
    let (store, played) = commit_and_print(alloc, dbd, psb, kept, steps, every, store, out);
    match played {
        Ok(memory) => (store, Ok(memory)),
        Err(refusal) => (store, Err(refuse(refusal, err))),
    }
}
