ghost use Rattle.std.specs.Prelude.{◌≡◌, ◌&&◌, ◌==◌, not, ◌<◌, length, find, option_copied, IfOk};
ghost use Rattle.std.specs.List.{list_any};
ghost use Rattle.hd_dbd.specs.Refusals.{OnlyDevice};
ghost use Rattle.hd_calls.specs.Ssas.{target_code};
ghost use Rattle.hd_volume.specs.Calls.{IsRead};
ghost use Rattle.hd_get.specs.Asking.{asks_last, goes_to_last, least_key_of, Admits, MeetsOwn, SeeksLater};
ghost use Rattle.hd_get.specs.Searches.{IsOf, IsThere};

use crate::twin_tests::{is_last_twin, meets};
use hd_dbd::{Dbd, Refused};
use hd_forest::Path;
use hd_ssa::ResolvedSsa;
use hd_stores::BlockStore;
use hd_volume::Volume;

/// The code of the last argument's type.
pub fn target_code(ssas: &[ResolvedSsa<'_>]) -> u8
    requires { 0 < length ssas.now }
    ensures { result ≡ target_code ssas.now }
{
    let last = &ssas[ssas.len() - 1];
    last.code()
}

/// Whether an argument is of the type of a code, and asks for the last twin alone.
fn asks_last(ssa: &ResolvedSsa<'_>, code: u8) -> bool
    ensures { result ≡ asks_last code ssa.now }
{
    ssa.code() == code && ssa.commands().last && !ssa.is_qualified()
}

/// Whether some argument is of the type of a code, and asks for the last twin alone.
fn some_asks_last(ssas: &[ResolvedSsa<'_>], code: u8) -> bool
    ensures { result ≡ list_any (λ a. asks_last code a) ssas.now }
{
    ssas.iter().any(|ssa| asks_last(ssa, code))
}

/// Whether parents keep the last child of the type of a code, and some argument asks for that alone.
pub fn goes_to_last(dbd: &Dbd, ssas: &[ResolvedSsa<'_>], code: u8) -> bool
    ensures { result ≡ goes_to_last dbd.now.types ssas.now code }
{
    dbd.keeps_last_child(code) && some_asks_last(ssas, code)
}

/// Whether the last row of a path, of the type of a code, meets an argument, if that is of its type.
fn meets_own<S: BlockStore>(
    volume: &mut Volume<S>,
    dbd: &Dbd,
    ssa: &ResolvedSsa<'_>,
    code: u8,
    path: &Path,
) -> Result<bool, Refused>
    requires of { IsOf dbd.now volume.old }
    requires there { IsThere dbd.now volume.old path.now }
    ensures read { IsRead volume.old result volume.new }
    ensures value { IfOk result (λ r. MeetsOwn dbd.now volume.old ssa.now code path.now r) }
    ensures refusal { OnlyDevice result }
{
    if ssa.code() != code {
        return Ok(true);
    }
    meets(volume, dbd, ssa, path)
}

/// Whether the last row of a path, of the type of a code, meets the arguments of its type.
pub fn admits<S: BlockStore>(
    volume: &mut Volume<S>,
    dbd: &Dbd,
    ssas: &[ResolvedSsa<'_>],
    code: u8,
    path: &Path,
) -> Result<bool, Refused>
    requires of { IsOf dbd.now volume.old }
    requires there { IsThere dbd.now volume.old path.now }
    ensures read { IsRead volume.old result volume.new }
    ensures value { IfOk result (λ r. Admits dbd.now volume.old ssas.now code path.now r) }
    ensures refusal { OnlyDevice result }
{
    for place in 0..ssas.len() {
        if !meets_own(volume, dbd, &ssas[place], code, path)? {
            return Ok(false);
        }
    }
    Ok(true)
}

/// The first argument of the type of a code, if there is one.
fn ssa_of<'s, 'a>(ssas: &'s [ResolvedSsa<'a>], code: u8) -> Option<&'s ResolvedSsa<'a>>
    ensures { option_copied result ≡ find (λ a. a.code == code) ssas.now }
{
    ssas.iter().find(|ssa| ssa.code() == code)
}

/// Of the type of a code, the key below which no row has what the argument of the type asks, if the type has a key and the argument
/// tells of one.
pub fn least_key_of<'a>(dbd: &Dbd, ssas: &[ResolvedSsa<'a>], code: u8) -> Option<&'a [u8]>
    ensures { option_copied result ≡ least_key_of dbd.now.types ssas.now code }
{
    let own = dbd.type_of(code)?;
    let key = own.key?;
    let ssa = ssa_of(ssas, code)?;
    ssa.least_key(key)
}

/// Whether the type of a code is not the root, and of its rows the last twin alone is asked for, which parents keep.
fn wants_last(dbd: &Dbd, ssas: &[ResolvedSsa<'_>], code: u8) -> bool
    ensures { result ≡ (not (code == 1) && goes_to_last dbd.now.types ssas.now code) }
{
    code != 1 && goes_to_last(dbd, ssas, code)
}

/// Whether of the twins of a path's last row, of the type of a code, the last alone is asked for, which is kept, and the row is not that
/// one. One access at most.
pub fn seeks_later<S: BlockStore>(
    volume: &mut Volume<S>,
    dbd: &Dbd,
    ssas: &[ResolvedSsa<'_>],
    code: u8,
    path: &Path,
) -> Result<bool, Refused>
    requires of { IsOf dbd.now volume.old }
    requires there { IsThere dbd.now volume.old path.now }
    ensures read { IsRead volume.old result volume.new }
    ensures value { IfOk result (λ r. SeeksLater dbd.now volume.old ssas.now code path.now r) }
    ensures refusal { OnlyDevice result }
{
    if !wants_last(dbd, ssas, code) {
        return Ok(false);
    }
    Ok(!is_last_twin(volume, dbd, path)?)
}
