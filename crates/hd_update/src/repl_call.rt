ghost use Rattle.std.specs.Prelude.{◌≡◌, ◌≢◌, ◌<◌, ◌≤◌, length, true, IsTrue, IfOk, IfErr};
ghost use Rattle.hd_dbd.specs.Facts.{stored_sizes};
ghost use Rattle.hd_dbd.specs.Refusals.{OnlyRoomOrDevice};
ghost use Rattle.hd_volume.specs.Calls.{IsCall};
ghost use Rattle.hd_update.specs.States.{HasState, IsUndone, kept_of};
ghost use Rattle.hd_update.specs.Calls.{IsReplaceDone, IsReplaceAreaWrong, IsReplaceFull, ReplaceLengthens, HaveState, AreRewritesDone, AreRewritesFull, RewritesLengthen};
ghost use Rattle.hd_update.specs.Replacing.{AreInArea};

use crate::area::answer_fault;
use crate::held::held_rows;
use crate::positions::{end_hold, follow_all};
use crate::replacements::{keep_keys, replace_rows};
use crate::rewrites::{NewBytes, rewrites_of};
use crate::room::make_room_to_replace;
use hd_dbd::{Dbd, Refused, Status};
use hd_get::Outcome;
use hd_position::Position;
use hd_ssa::ResolvedSsa;
use hd_stores::BlockStore;
use hd_volume::Volume;

/// REPL by the PCB of a number, counted from 1, once its tests are passed: the I/O area is the rows that it holds, one behind the other. V1
/// where the new bytes of a row whose type varies have a wrong length, DA where the key of a row would change. Each row that no argument
/// excepts by N gets its part of the area, the PCB's hold ends, and so does that of every other PCB that holds such a row. A row that is made
/// longer than its place has room for moves, and every PCB's path names it where it then stands.
///
/// `Area` says that bytes of the area lack or are left over, `Full` and `Memory` that there is no room or no memory for the rows that are made
/// longer; nothing is changed then. Where none is, no memory is taken.
///
/// The blocks of the held rows are read and written, and no other where none moves; for one that does, also those of its neighbours, of its
/// parent and of the place where it goes, and for a root its entry in the index.
pub fn repl<S: BlockStore>(
    volume: &mut Volume<S>,
    dbd: &Dbd,
    positions: &mut [Position],
    number: usize,
    ssas: &[ResolvedSsa<'_>],
    area: &[u8],
) -> Result<Outcome, Refused>
    requires number { (0 < number) × (number ≤ length positions.old) }
    requires size { volume.old.size ≡ dbd.now.block_size }
    requires sizes { volume.old.sizes ≡ stored_sizes dbd.now.types }
    requires state { HasState dbd.now volume.old positions.old }
    requires held { 0 < length (kept_of positions.old number).held }
    ensures call { IsCall volume.old result volume.new }
    ensures done { IfOk result (λ o. IsReplaceDone dbd.now volume.old positions.old number ssas.now area.now o volume.new positions.new) }
    ensures undone { IfErr result (λ _. IsUndone volume.old positions.old volume.new positions.new) }
    ensures area { IfErr result (λ e. IsReplaceAreaWrong dbd.now volume.old positions.old number ssas.now area.now e) }
    ensures full { IfErr result (λ e. IsReplaceFull dbd.now volume.old positions.old number ssas.now area.now e) }
    ensures memory { IfErr result (λ e. e ≡ Refused.Memory → ReplaceLengthens dbd.now volume.old positions.old number ssas.now area.now) }
    ensures refusal { IfErr result (λ e. e ≢ Refused.Broken) }
{
    let held = held_rows(volume, dbd, &positions[number - 1])?;
    let news = match rewrites_of(dbd, ssas, held.as_slice(), area) {
        Ok(news) => news,
        Err(fault) => return answer_fault(positions, number, fault),
    };
    replace_held(volume, dbd, positions, number, area, news.as_slice())
}

/// REPL, where the area has these new bytes for rows that the PCB of a number holds.
fn replace_held<S: BlockStore>(
    volume: &mut Volume<S>,
    dbd: &Dbd,
    positions: &mut [Position],
    number: usize,
    area: &[u8],
    news: &[NewBytes],
) -> Result<Outcome, Refused>
    requires number { (0 < number) × (number ≤ length positions.old) }
    requires few { length news.now ≤ 15 }
    requires fit { AreInArea dbd.now.types area.now news.now }
    requires size { volume.old.size ≡ dbd.now.block_size }
    requires sizes { volume.old.sizes ≡ stored_sizes dbd.now.types }
    requires state { HaveState dbd.now volume.old positions.old number area.now news.now }
    ensures call { IsCall volume.old result volume.new }
    ensures done { IfOk result (λ o. AreRewritesDone dbd.now volume.old positions.old number area.now news.now o volume.new positions.new) }
    ensures undone { IfErr result (λ _. IsUndone volume.old positions.old volume.new positions.new) }
    ensures full { IfErr result (λ e. AreRewritesFull dbd.now volume.old positions.old number area.now news.now e) }
    ensures memory { IfErr result (λ e. e ≡ Refused.Memory → RewritesLengthen dbd.now volume.old positions.old number area.now news.now) }
    ensures refusal { OnlyRoomOrDevice result }
{
    if !keep_keys(volume, dbd, area, news)? {
        end_hold(positions, number);
        return Ok(Outcome::Missing(Status::DA));
    }
    make_room_to_replace(volume, dbd, area, news)?;
    let rows = replace_rows(volume, dbd, positions[number - 1].path(), area, news)?;
    follow_all(positions, rows.as_slice());
    end_hold(positions, number);
    Ok(Outcome::Found(Status::Blank))
}
