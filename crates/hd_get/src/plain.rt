ghost use Rattle.std.specs.Prelude.{◌≡◌};
ghost use Rattle.hd_get.specs.Asking.{verdict_plain};

use crate::access::reads_some_below;
use crate::judge::Judge;
use crate::verdict::Verdict;
use hd_dbd::{Access, Dbd, Pcb, Refused, may};
use hd_forest::{Path, code_at, tip_of};
use hd_stores::BlockStore;
use hd_volume::Volume;
use std::marker::Model;

/// What a call without segment search arguments asks of a row: that the PCB may read it.
#[derive(Drop)]
pub struct Plain<'a> {
    pub pcb: &'a Pcb,
}

impl<'a> Model for Plain<'a> {
    ghost use Rattle.hd_dbd.specs.Types.{View};

    ghost Value = { View };

    ghost view = { λ p. p.pcb.now };
}

/// Where a search for rows that the PCB may read goes from a row of a type.
pub(crate) fn verdict_plain(dbd: &Dbd, pcb: &Pcb, code: u8) -> Verdict
    ensures { result ≡ verdict_plain (record { types = dbd.now.types; pcb = pcb.now }) code }
{
    if may(dbd, pcb, Access::Get, code) {
        Verdict::Found
    } else if reads_some_below(dbd, pcb, code) {
        Verdict::Next
    } else {
        Verdict::Over
    }
}

impl<'a> Judge for Plain<'a> {
    ghost use Rattle.std.specs.Prelude.{[], true};
    ghost use Rattle.hd_calls.specs.Satisfies.{satisfies};

    ghost test = { λ s types rows i. satisfies (record { types = types; pcb = s }) rows [] i };

    ghost admits = { λ s types rows i. true };

    ghost suits = { λ s types. Unit {0} };

    fn judge<S: BlockStore>(
        &self,
        volume: &mut Volume<S>,
        dbd: &Dbd,
        path: &Path,
    ) -> Result<Verdict, Refused> {
        let code = code_at(volume, dbd, tip_of(path))?;
        Ok(verdict_plain(dbd, self.pcb, code))
    }
}
