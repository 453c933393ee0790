ghost use Rattle.std.specs.Prelude.{◌≡◌, option_copied, IsTrue, IfOk};
ghost use Rattle.hd_dbd.specs.Refusals.{OnlyDevice};
ghost use Rattle.hd_volume.specs.Calls.{IsRead};
ghost use Rattle.hd_image.specs.Records.{links_of};
ghost use Rattle.hd_forest.specs.Walks.{tip};
ghost use Rattle.hd_get.specs.Searches.{IsOf, IsThere};
ghost use Rattle.hd_get.specs.Asking.{may_read, verdict_beside, verdict_beside_to, verdict_to, verdict_down, verdict_from, GoesAcrossFrom};

use crate::arguments::{goes_to_last, least_key_of, seeks_later, target_code};
use crate::judge::Judge;
use crate::look::{admits_seen, look_at};
use crate::verdict::Verdict;
use crate::ways::{is_on_way, way_beside, way_down};
use hd_dbd::{Access, Dbd, Pcb, Refused, may};
use hd_forest::{Path, tip_of, twin_from};
use hd_ssa::ResolvedSsa;
use hd_stores::BlockStore;
use hd_volume::Volume;
use std::marker::Model;

/// What a call with segment search arguments asks of a row: that they name it, and that the PCB, if there is one, may read it.
#[derive(Drop)]
pub struct Named<'a> {
    pub pcb: Option<&'a Pcb>,
    pub ssas: &'a [ResolvedSsa<'a>],
}

impl<'a> Model for Named<'a> {
    ghost use Rattle.std.specs.Prelude.{option_copied};
    ghost use Rattle.hd_get.specs.Asking.{Asked};

    ghost Value = { Asked };

    ghost view = { λ n. record { pcb = option_copied n.pcb; ssas = n.ssas.now } };
}

/// Whether a PCB, if there is one, sees the type of a code and may read it.
fn may_read(dbd: &Dbd, pcb: Option<&Pcb>, code: u8) -> bool
    ensures { result ≡ may_read (option_copied pcb.entry) dbd.now.types code }
{
    match pcb {
        Some(pcb) => may(dbd, pcb, Access::Get, code),
        None => true,
    }
}

/// How a search goes beside to the children of the type of a code.
fn verdict_beside_to(dbd: &Dbd, ssas: &[ResolvedSsa<'_>], code: u8) -> Verdict
    ensures { result ≡ verdict_beside_to dbd.now.types ssas.now code }
{
    if goes_to_last(dbd, ssas, code) {
        Verdict::BesideToLast(code)
    } else {
        Verdict::Beside(code)
    }
}

/// Where a search for rows of the target type goes from a row of a type off the way.
fn verdict_beside(dbd: &Dbd, ssas: &[ResolvedSsa<'_>], target: u8, code: u8) -> Verdict
    ensures { result ≡ verdict_beside dbd.now.types ssas.now target code }
{
    match way_beside(dbd, target, code) {
        Some(beside) => {
            if code < beside {
                verdict_beside_to(dbd, ssas, beside)
            } else {
                Verdict::Rest
            }
        }
        None => Verdict::Rest,
    }
}

/// How a search goes down to the children of the type of a code.
fn verdict_to(dbd: &Dbd, ssas: &[ResolvedSsa<'_>], code: u8) -> Verdict
    ensures { result ≡ verdict_to dbd.now.types ssas.now code }
{
    if goes_to_last(dbd, ssas, code) {
        Verdict::DownToLast(code)
    } else {
        Verdict::Down(code)
    }
}

/// Where a search for rows of the target type goes from a row on the way that meets the arguments.
fn verdict_down(
    dbd: &Dbd,
    pcb: Option<&Pcb>,
    ssas: &[ResolvedSsa<'_>],
    target: u8,
    code: u8,
) -> Verdict
    ensures { result ≡ verdict_down (option_copied pcb.entry) dbd.now.types ssas.now target code }
{
    match way_down(dbd, target, code) {
        Some(child) => verdict_to(dbd, ssas, child),
        None => {
            if may_read(dbd, pcb, code) {
                Verdict::Found
            } else {
                Verdict::Across
            }
        }
    }
}

/// Where a search goes from a row at an address to the first of it and its later twins that may have what is asked, 0 for none.
fn verdict_from(address: u32, twin: u32) -> Verdict
    ensures { result ≡ verdict_from address twin }
{
    if twin == 0 {
        Verdict::Rest
    } else if twin == address {
        Verdict::Across
    } else {
        Verdict::AcrossTo(twin)
    }
}

/// Where a search goes from the last row of a path, of the type of a code on the way, that does not meet the arguments. Twins whose
/// keys are below the least that is asked for are read, but not judged.
fn verdict_across<S: BlockStore>(
    volume: &mut Volume<S>,
    dbd: &Dbd,
    ssas: &[ResolvedSsa<'_>],
    code: u8,
    path: &Path,
) -> Result<Verdict, Refused>
    requires of { IsOf dbd.now volume.old }
    requires there { IsThere dbd.now volume.old path.now }
    requires typed { IsTrue volume.old.is_sound → (links_of dbd.now.types volume.old).code (tip path.now) ≡ code }
    ensures read { IsRead volume.old result volume.new }
    ensures value { IfOk result (λ v. GoesAcrossFrom dbd.now volume.old ssas.now code path.now v) }
    ensures refusal { OnlyDevice result }
{
    let Some(key) = least_key_of(dbd, ssas, code) else {
        return Ok(Verdict::Across);
    };
    let address = tip_of(path);
    let twin = twin_from(volume, dbd, code, address, key)?;
    Ok(verdict_from(address, twin))
}

impl<'a> Judge for Named<'a> {
    ghost use Rattle.hd_get.specs.Asking.{SsasSuit, is_asked, is_admitted};

    ghost test = { λ s types rows i. is_asked s types rows i };

    ghost admits = { λ s types rows i. is_admitted s types rows i };

    ghost suits = { λ s types. SsasSuit types s.ssas };

    fn judge<S: BlockStore>(
        &self,
        volume: &mut Volume<S>,
        dbd: &Dbd,
        path: &Path,
    ) -> Result<Verdict, Refused> {
        let look = look_at(volume, dbd, self.ssas, tip_of(path))?;
        let code = look.code;
        let target = target_code(self.ssas);
        if !is_on_way(dbd, target, code) {
            return Ok(verdict_beside(dbd, self.ssas, target, code));
        }
        if admits_seen(volume, dbd, self.ssas, look, path)? {
            return Ok(verdict_down(dbd, self.pcb, self.ssas, target, code));
        }
        if look.is_past {
            return Ok(Verdict::Rest);
        }
        if seeks_later(volume, dbd, self.ssas, code, path)? {
            return Ok(Verdict::BesideToLast(code));
        }
        verdict_across(volume, dbd, self.ssas, code, path)
    }
}
