ghost use Rattle.std.specs.Prelude.{◌≡◌, ◌≢◌, ◌^◌, ◌<◌, ◌≤◌, length, All, IsTrue, true, false, Some, IfOk, IfErr, OnOk, OnErr};
ghost use Rattle.hd_dbd.specs.ProgramRules.{type_names};
ghost use Rattle.hd_deck.specs.StepText.{StepFits};
ghost use Rattle.hd_dbd.specs.Refusals.{OnlyDevice};
ghost use Rattle.hd_stores.specs.Stores.{IsCommit, CountsDevice, StaysSound};
ghost use Rattle.hd_journal.specs.Framed.{IsSafe};
ghost use Rattle.hd_deck.specs.Runs.{turns_of};
ghost use Rattle.hd_deck.specs.Commits.{stored_in, PlaysWithCommits};
ghost use Rattle.hd_commands.specs.Commands.{IsRefused};
ghost use Rattle.hd_commands.specs.Units.{PlaysInPart, AddsCommits, IsWritten, MayCommit, PlaysUnit, UnitCommits};
ghost use Rattle.hd_commands.specs.Plays.{UnitSays, FailsOrStays};

use crate::deck_commits::play_and_commit;
use crate::ended::{Ended, refuse};
use crate::refusal::Refusal;
use hd_dbd::{Dbd, Psb, Refused};
use hd_deck::Step;
use hd_journal::{Disk, Journaled};
use hd_output::Progress;
use hd_stores::{CommitStore, Counted, ReadAhead};
use std::alloc::Global;
use std::io::Write;
use std::sync::ledger::Ledger;

/// Whether what a play left is to last: it made all calls, or some up to a line that could not be written. Where an access failed instead, the store
/// refuses it.
fn is_wanted(played: &Result<u64, Ended>) -> bool
    ensures played { result ≡ true → IfErr played.now (λ e. e.refusal ≡ Some Refusal.Device) }
    ensures all { OnOk played.now (result ≡ true) }
{
    match played {
        Ok(_) => true,
        Err(ended) => ended.refusal == Some(Refusal::Device),
    }
}

/// Makes last what was written, if that is wanted.
fn commit_if<D: Disk, L: Ledger>(store: &mut Journaled<D, L>, wanted: bool) -> Result<(), Refused>
    ensures crash { IsTrue D.is_honest → IsSafe store.new.committed (D.state store.new.disk) }
    ensures commits { IsTrue D.is_honest → MayCommit wanted store.old.is_sound store.old.contents store.old.committed store.new.committed }
    ensures contents { OnOk result (IsTrue store.old.is_sound → store.new.contents ≡ store.old.contents) }
    ensures lasts { OnOk result (wanted ≡ true → IsCommit store.old.is_sound store.old.contents store.new.contents store.old.committed store.new.committed) }
    ensures refusal { OnlyDevice result }
    ensures counts { CountsDevice result store.old.failures store.new.failures }
    ensures sound { StaysSound result store.old.is_sound store.new.is_sound }
    ensures size { store.new.size ≡ store.old.size }
{
    store.assure();
    if !wanted {
        return Ok(());
    }
    let committed = store.commit();
    store.assure();
    committed
}

/// Plays a deck over a store, of whose volume so many blocks are kept in memory, with a commit behind every so many calls where that is wanted, and gives
/// the store back with what it was answered.
fn play_through<D: Disk, L: Ledger, P: Progress, O: Write, E: Write>(
    alloc: Global,
    dbd: &Dbd,
    psb: &Psb,
    steps: &[Step<'_>],
    every: Option<u32>,
    store: Journaled<D, L>,
    kept: usize,
    progress: &P,
    out: &mut O,
    err: &mut E,
) -> (Journaled<D, L>, Result<u64, Ended>)
    requires size { store.size ≡ dbd.now.block_size }
    requires matches { psb.now.made_for ≡ type_names dbd.now.types }
    requires steps { All (StepFits (length psb.now.pcbs)) steps.now }
    requires count { length steps.now ≤ 2 ^ 30 }
    ensures played { IfOk result.1 (PlaysWithCommits (λ s. s.is_sound) (λ s. s.contents) (λ s. s.committed) dbd.now psb.now.pcbs every steps.now store result.0 (O.contents out.old) (O.contents out.new)) }
    ensures refused { IfErr result.1 (λ e. IsRefused (UnitSays (λ s. s.is_sound) (λ s. s.failures) (λ s. s.contents) dbd.now psb.now.pcbs steps.now store result.0) e (E.contents err.old) (E.contents err.new)) }
    ensures part { IfErr result.1 (λ e. e.refusal ≡ Some Refusal.Device → PlaysInPart (λ s. s.is_sound) (λ s. s.contents) (λ s. s.committed) dbd.now psb.now.pcbs every steps.now store result.0) }
    ensures commits { AddsCommits (λ s. s.is_sound) (λ s. s.contents) (λ s. s.committed) dbd.now psb.now.pcbs every steps.now store result.0 }
    ensures accesses { FailsOrStays (λ s. s.is_sound) (λ s. s.failures) store result.0 }
    ensures failures { OnOk result.1 (result.0.failures ≡ store.failures) }
    ensures quiet { OnOk result.1 (err.new ≡ err.old) }
    ensures silent { IfErr result.1 (λ e. e.status ≢ 3 → out.new ≡ out.old) }
    ensures size { result.0.size ≡ store.size }
{
    let counted = Counted::new(ReadAhead::new(alloc, store), "playing", progress);
    let (counted, played) = play_and_commit(alloc, dbd, psb, kept, steps, every, counted, out, err);
    (counted.into_inner().into_store(), played)
}

/// Plays a deck over a volume and its log, with so many blocks of the volume kept in memory, and makes last what its calls made of the volume. Says what the
/// calls answer on `out`, or on `err` why they were not all made. Where they were, says how many of them found no memory.
///
/// There is a commit behind every so many calls, if a number is given, and one at the end: without a number the deck is one unit. From `Ok` on a crash leaves
/// what the calls left, whenever it comes. Until then, and behind a refusal, it leaves the image of the last commit, which is that before the deck until there
/// is one among its calls, or, where a commit is under way, that one's: never what only a part of a call made. Of a moment before the deck it leaves what the
/// commits before it say. Where a line could not be written, what was called before is committed too.
pub fn play_unit<D: Disk, L: Ledger, P: Progress, O: Write, E: Write>(
    alloc: Global,
    dbd: &Dbd,
    psb: &Psb,
    steps: &[Step<'_>],
    every: Option<u32>,
    store: Journaled<D, L>,
    kept: usize,
    progress: &P,
    out: &mut O,
    err: &mut E,
) -> (Journaled<D, L>, Result<u64, Ended>)
    requires size { store.size ≡ dbd.now.block_size }
    requires matches { psb.now.made_for ≡ type_names dbd.now.types }
    requires steps { All (StepFits (length psb.now.pcbs)) steps.now }
    requires count { length steps.now ≤ 2 ^ 30 }
    ensures crash { IsTrue D.is_honest → IsSafe result.0.committed (D.state result.0.disk) }
    ensures commits { IsTrue store.is_sound → IsTrue D.is_honest → UnitCommits dbd.now psb.now.pcbs (stored_in (λ s. s.contents) (λ s. s.committed) store) every (turns_of steps.now) result.0.committed }
    ensures played { IfOk result.1 (PlaysUnit (λ s. s.is_sound) (λ s. s.contents) (λ s. s.committed) dbd.now psb.now.pcbs every steps.now store result.0 (O.contents out.old) (O.contents out.new)) }
    ensures refused { IfErr result.1 (λ e. IsRefused (UnitSays (λ s. s.is_sound) (λ s. s.failures) (λ s. s.contents) dbd.now psb.now.pcbs steps.now store result.0) e (E.contents err.old) (E.contents err.new)) }
    ensures accesses { FailsOrStays (λ s. s.is_sound) (λ s. s.failures) store result.0 }
    ensures failures { OnOk result.1 (result.0.failures ≡ store.failures) }
    ensures quiet { OnOk result.1 (err.new ≡ err.old) }
    ensures silent { IfErr result.1 (λ e. e.status ≢ 3 → out.new ≡ out.old) }
    ensures size { result.0.size ≡ store.size }
{
    let (mut store, played) = play_through(
        alloc, dbd, psb, steps, every, store, kept, progress, out, err,
    );
    let wanted = is_wanted(&played);
    let committed = commit_if(&mut store, wanted);
    match played {
        Err(ended) => (store, Err(ended)),
        Ok(memory) => match committed {
            Err(_) => (store, Err(refuse(Refusal::Device, err))),
            Ok(()) => (store, Ok(memory)),
        },
    }
}
