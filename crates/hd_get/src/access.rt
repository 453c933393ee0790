ghost use Rattle.std.specs.Prelude.{◌≡◌, ◌&&◌};
ghost use Rattle.hd_dbd.specs.Letters.{gives_get};
ghost use Rattle.hd_dbd.specs.Views.{may};
ghost use Rattle.hd_calls.specs.Admits.{is_on_way};
ghost use Rattle.hd_calls.specs.SearchSpans.{reads_some_below};

use crate::ways::is_on_way;
use hd_dbd::{Access, Dbd, Pcb, may};

/// Whether a type is another or depends on it, and the PCB may read it.
fn reads_below(dbd: &Dbd, pcb: &Pcb, code: u8, other: u8) -> bool
    ensures { result ≡ (is_on_way dbd.now.types other code && may (record { types = dbd.now.types; pcb = pcb.now }) gives_get other) }
{
    is_on_way(dbd, other, code) && may(dbd, pcb, Access::Get, other)
}

/// Whether the PCB may read the type of a code, or one that depends on it. The types are looked at in order, up to the first that may
/// be read.
pub fn reads_some_below(dbd: &Dbd, pcb: &Pcb, code: u8) -> bool
    ensures { result ≡ reads_some_below (record { types = dbd.now.types; pcb = pcb.now }) code }
{
    let count = dbd.types().len();
    for place in 0..count {
        if reads_below(dbd, pcb, code, place as u8 + 1) {
            return true;
        }
    }
    false
}
