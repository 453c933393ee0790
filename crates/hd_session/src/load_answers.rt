ghost use Rattle.std.specs.Prelude.{◌≡◌, ◌≢◌, ◌<◌, ◌≤◌, length, is_some, true, IfOk, IfErr};
ghost use Rattle.hd_dbd.specs.Facts.{stored_sizes};
ghost use Rattle.hd_dbd.specs.Hierarchy.{longest_path, type_of};
ghost use Rattle.hd_volume.specs.Calls.{IsCall};
ghost use Rattle.hd_update.specs.Loading.{HasPassedAll, IsLoadAreaWrong, IsLoadFull};
ghost use Rattle.hd_session.specs.Replies.{reply_of};
ghost use Rattle.hd_session.specs.Giving.{IsEmpty};
ghost use Rattle.hd_session.specs.Sessions.{IsUndoneUnlessDevice};
ghost use Rattle.hd_session.specs.Loads.{IsLoadStep};

use crate::buffer::IoArea;
use crate::call_and_answer::Answer;
use crate::given_rows::{give, give_none};
use hd_dbd::{Dbd, Refused, Status};
use hd_get::Outcome;
use hd_position::{Levels, Position};
use hd_stores::BlockStore;
use hd_update::load_row;
use hd_volume::Volume;

/// ISRT of one row of the type of a code by the PCB of a number, counted from 1, that loads and has passed all rows, with its answer: the
/// row that went in, on which the PCB stands, without bytes.
///
/// `Device` may come of the read behind the call: then the row is in the volume, and the answer is lost.
pub fn answer_load<S: BlockStore>(
    volume: &mut Volume<S>,
    dbd: &Dbd,
    positions: &mut [Position],
    number: usize,
    code: u8,
    area: &[u8],
    io: &mut IoArea,
) -> Result<Answer, Refused>
    requires size { volume.old.size ≡ dbd.now.block_size }
    requires sizes { volume.old.sizes ≡ stored_sizes dbd.now.types }
    requires number { (0 < number) × (number ≤ length positions.old) }
    requires typed { is_some (type_of dbd.now.types code) ≡ true }
    requires last { HasPassedAll dbd.now volume.old positions.old number }
    requires room { longest_path dbd.now.types ≤ io.old.room }
    ensures call { IsCall volume.old result volume.new }
    ensures done { IfOk result (λ a. IsLoadStep dbd.now volume.old positions.old number code area.now (reply_of a io.new) volume.new positions.new) }
    ensures undone { IfErr result (λ e. IsUndoneUnlessDevice volume.old positions.old e volume.new positions.new) }
    ensures area { IfErr result (λ e. IsLoadAreaWrong dbd.now volume.old positions.old number code area.now e) }
    ensures full { IfErr result (λ e. IsLoadFull dbd.now volume.old positions.old number code area.now e) }
    ensures refusal { IfErr result (λ e. e ≢ Refused.Broken) }
    ensures empty { IfErr result (λ _. IsEmpty io.new) }
    ensures same_room { io.new.room ≡ io.old.room }
    ensures many { length positions.new ≡ length positions.old }
{
    io.clear();
    match load_row(volume, dbd, positions, number, code, area)? {
        Outcome::Found(_) => {
            let path = positions[number - 1].path();
            give(volume, dbd, path, &Levels::new(), Status::Blank, io)
        }
        Outcome::Missing(status) => Ok(give_none(status, io)),
    }
}
