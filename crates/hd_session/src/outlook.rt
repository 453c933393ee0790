ghost use Rattle.std.specs.Prelude.{◌≡◌, ◌≤◌, true, IfOk, IfErr};
ghost use Rattle.hd_dbd.specs.Facts.{stored_sizes};
ghost use Rattle.hd_dbd.specs.Hierarchy.{longest_path};
ghost use Rattle.hd_dbd.specs.Refusals.{OnlyDevice};
ghost use Rattle.hd_volume.specs.Calls.{IsRead};
ghost use Rattle.hd_session.specs.LastGiven.{AreKeysOf};
ghost use Rattle.hd_session.specs.Giving.{IsEmpty};
ghost use Rattle.hd_session.specs.Onward.{AreReadable};
ghost use Rattle.hd_session.specs.Replies.{reply_of};
ghost use Rattle.hd_session.specs.Foretelling.{is_get_call, can_be_foretold, HasOutlook, IsNextForetold};

use crate::buffer::IoArea;
use crate::call_and_answer::{Answer, Call};
use crate::calls::call_step;
use crate::functions::function_of;
use crate::last_given::LastGiven;
use hd_calls::Function;
use hd_dbd::{Dbd, Pcb, Refused};
use hd_position::Position;
use hd_ssa::loads;
use hd_stores::BlockStore;
use hd_volume::Volume;
use std::alloc::Global;
use std::marker::Model;

/// Where a PCB would be behind calls that are foretold and not made, as if it were the only one.
#[derive(Debug, Drop)]
pub struct Outlook {
    pub(crate) positions: [Position; 1],
}

impl Model for Outlook {
    ghost use Rattle.std.specs.Prelude.{List};
    ghost use Rattle.hd_position.specs.Kept.{Kept};

    ghost Value = { List Kept };

    ghost view = { λ o. o.positions };
}

/// Whether a call is a get: GU, GN or GNP, or its hold form.
fn is_get_call(call: &Call) -> bool
    ensures { result ≡ is_get_call call.now }
{
    matches!(function_of(call.func), Some(Function::Get(_, _)))
}

/// Whether a call of a PCB can be foretold: a get with four segment search arguments at most, by one that does not load.
pub(crate) fn can_be_foretold(pcb: &Pcb, call: &Call) -> bool
    ensures { result ≡ can_be_foretold pcb.now call.now }
{
    !loads(pcb) && is_get_call(call) && call.ssas.len() <= 4
}

/// What a call of a PCB that can be foretold would answer from an outlook, which goes on to where the PCB would be then.
pub(crate) fn foretell_call<S: BlockStore>(
    alloc: Global,
    volume: &mut Volume<S>,
    dbd: &Dbd,
    pcb: &Pcb,
    outlook: &mut Outlook,
    call: &Call,
    readable: &mut Option<u8>,
    last_given: &mut LastGiven,
    io: &mut IoArea,
) -> Result<Answer, Refused>
    requires can { can_be_foretold pcb.now call.now ≡ true }
    requires size { volume.old.size ≡ dbd.now.block_size }
    requires sizes { volume.old.sizes ≡ stored_sizes dbd.now.types }
    requires there { HasOutlook dbd.now volume.old outlook.old }
    requires readable { AreReadable dbd.now.types pcb.now readable.old }
    requires known { AreKeysOf dbd.now volume.old last_given.old }
    requires room { longest_path dbd.now.types ≤ io.old.room }
    ensures foretold { IfOk result (λ a. IsNextForetold dbd.now pcb.now call.now volume.old outlook.old (reply_of a io.new) volume.new outlook.new) }
    ensures there { IfOk result (λ _. HasOutlook dbd.now volume.new outlook.new) }
    ensures read { IsRead volume.old result volume.new }
    ensures readable { AreReadable dbd.now.types pcb.now readable.new }
    ensures known { IfOk result (λ _. AreKeysOf dbd.now volume.new last_given.new) }
    ensures refusal { OnlyDevice result }
    ensures empty { IfErr result (λ _. IsEmpty io.new) }
    ensures same_room { io.new.room ≡ io.old.room }
{
    let positions = &mut outlook.positions;
    call_step(
        alloc, volume, dbd, pcb, positions, 1, call, readable, last_given, io,
    )
}
