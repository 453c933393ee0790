//! The common get without arguments, which goes on to the next twin of its PCB's row: what is known of that row tells that it does.
ghost use Rattle.std.specs.Prelude.{◌≡◌, [], true, IfSome};
ghost use Rattle.hd_dbd.specs.Letters.{gives_get};
ghost use Rattle.hd_dbd.specs.Views.{may};
ghost use Rattle.hd_get.specs.Behind.{begins_behind};
ghost use Rattle.hd_forest.specs.Onward.{onward};
ghost use Rattle.hd_session.specs.LastGiven.{IsJustBelow};
ghost use Rattle.hd_session.specs.Onward.{IsReadable, AreReadable, IsKnownBehind};

use crate::last_given::LastGiven;
use hd_dbd::{Access, Dbd, Pcb, may};
use hd_forest::{tip_of, twin_ahead};
use hd_get::{Get, begins_behind};
use hd_position::Position;
use hd_ssa::loads;

/// The type that the PCB of a number was last found to read, where it does not load.
#[derive(Clone, Copy)]
pub struct Readable {
    pub pcb: u8,
    pub code: Option<u8>,
}

impl Readable {
    /// The type that was found of the PCB of a number; none where it was found of another.
    pub fn of(&self, pcb: u8) -> Option<u8>
        ensures { IfSome result (λ code. (self.now.pcb ≡ pcb) × (self.now.code ≡ Some code)) }
    {
        if self.pcb == pcb { self.code } else { None }
    }
}

/// Whether a PCB may read the type of a code, and does not load. A type that it is known to read is not asked for again.
fn is_readable(dbd: &Dbd, pcb: &Pcb, code: u8, readable: &mut Option<u8>) -> bool
    requires known { AreReadable dbd.now.types pcb.now readable.old }
    ensures value { result ≡ true → IsReadable dbd.now.types pcb.now code }
    ensures known { AreReadable dbd.now.types pcb.now readable.new }
{
    if let Some(known) = *readable {
        if known == code {
            return true;
        }
    }
    if loads(pcb) || !may(dbd, pcb, Access::Get, code) {
        return false;
    }
    *readable = Some(code);
    true
}

/// The row to which a get without arguments surely goes on, just below the rows above that are known, and that its PCB may read: its address and the code of its
/// type; `None` where that is not known. Nothing is read.
pub fn known_behind(
    dbd: &Dbd,
    call: &Get<'_>,
    position: &Position,
    readable: &mut Option<u8>,
    last_given: &LastGiven,
) -> Option<(u32, u8)>
    requires known { AreReadable dbd.now.types call.now.pcb readable.old }
    ensures behind { IfSome result (λ r. IsKnownBehind dbd.now position.now last_given.now r.0 r.1) }
    ensures below { IfSome result (λ r. IsJustBelow (onward dbd.now.types position.now.path r.0 r.1) last_given.now) }
    ensures begins { IfSome result (λ r. begins_behind dbd.now.types call.now.kind position.now r.1 ≡ true) }
    ensures readable { IfSome result (λ r. IsReadable dbd.now.types call.now.pcb r.1) }
    ensures known { AreReadable dbd.now.types call.now.pcb readable.new }
{
    let path = position.path();
    let Some(ahead) = last_given.ahead_of(tip_of(path)) else {
        return None;
    };
    let Some((twin, code)) = twin_ahead(ahead) else {
        return None;
    };
    if dbd.level(code) != last_given.level() + 1 || !last_given.begin(path) {
        return None;
    }
    if !begins_behind(dbd, call, position, code) {
        return None;
    }
    if !is_readable(dbd, call.pcb, code, readable) {
        return None;
    }
    Some((twin, code))
}
