ghost use Rattle.std.specs.Prelude.{◌≡◌, ◌==◌, ◌&&◌, ◌||◌, not, length, IfOk};
ghost use Rattle.hd_dbd.specs.Refusals.{OnlyDevice};
ghost use Rattle.hd_prefix.specs.Fields.{code_of, IsWhole};
ghost use Rattle.hd_calls.specs.Satisfies.{qualifies};
ghost use Rattle.hd_volume.specs.Calls.{IsRead};
ghost use Rattle.hd_calls.specs.SearchKeys.{is_ssa_past, is_past};
ghost use Rattle.hd_get.specs.Asking.{qualifies_own, stored_row, look_of, some_has_last, IsLook, AdmitsSeen};
ghost use Rattle.hd_get.specs.Meeting.{IsStored};
ghost use Rattle.hd_get.specs.Searches.{IsOf, IsThere};

use crate::arguments::admits;
use hd_dbd::{Dbd, Refused};
use hd_forest::{Path, bytes_in};
use hd_ssa::ResolvedSsa;
use hd_stores::BlockStore;
use hd_volume::Volume;

/// What one look at a segment tells a search: the code of its type, whether it has what the arguments of its type ask, L aside, and
/// whether its key is past what one of them asks.
#[derive(Clone, Copy, Debug)]
pub struct Look {
    pub code: u8,
    pub qualifies: bool,
    pub is_past: bool,
}

/// Whether a segment of the type of a code, with these bytes, has an argument's qualification, if that is of its type.
fn qualifies_own(ssa: &ResolvedSsa<'_>, code: u8, bytes: &[u8]) -> bool
    ensures { result ≡ (not (ssa.now.code == code) || qualifies ssa.now (record { code = code; bytes = bytes.now })) }
{
    ssa.code() != code || ssa.holds(bytes)
}

/// Whether a segment of the type of a code, with these bytes, has the qualifications of the arguments of its type.
fn qualifies_all(ssas: &[ResolvedSsa<'_>], code: u8, bytes: &[u8]) -> bool
    ensures { result ≡ qualifies_own ssas.now (record { code = code; bytes = bytes.now }) }
{
    ssas.iter().all(|ssa| qualifies_own(ssa, code, bytes))
}

/// Whether an argument is of the type of a code, and the key of a segment of that type with these bytes is past what it asks.
fn is_ssa_past(dbd: &Dbd, ssa: &ResolvedSsa<'_>, code: u8, bytes: &[u8]) -> bool
    ensures { result ≡ is_ssa_past dbd.now.types (record { code = code; bytes = bytes.now }) ssa.now }
{
    if ssa.code() != code {
        return false;
    }
    match dbd.type_of(code) {
        Some(segment) => ssa.is_past(segment, bytes),
        None => false,
    }
}

/// Whether the key of a segment of the type of a code, with these bytes, is past what an argument asks.
fn is_key_past(dbd: &Dbd, ssas: &[ResolvedSsa<'_>], code: u8, bytes: &[u8]) -> bool
    ensures { result ≡ is_past dbd.now.types ssas.now (record { code = code; bytes = bytes.now }) }
{
    ssas.iter().any(|ssa| is_ssa_past(dbd, ssa, code, bytes))
}

/// What a look at a segment of the type of a code, with these bytes, tells.
fn look_of(dbd: &Dbd, ssas: &[ResolvedSsa<'_>], code: u8, bytes: &[u8]) -> Look
    ensures { result ≡ look_of dbd.now.types ssas.now (record { code = code; bytes = bytes.now }) }
{
    let qualifies = qualifies_all(ssas, code, bytes);
    Look {
        code,
        qualifies,
        is_past: !qualifies && is_key_past(dbd, ssas, code, bytes),
    }
}

/// What a look at a lent segment tells.
fn look_in(dbd: &Dbd, ssas: &[ResolvedSsa<'_>], segment: &[u8]) -> Look
    ensures { IsWhole dbd.now.types (code_of segment.now) segment.now → result ≡ look_of dbd.now.types ssas.now (stored_row dbd.now.types segment.now) }
{
    let code = segment.first().copied().unwrap_or(0);
    look_of(dbd, ssas, code, bytes_in(dbd, segment))
}

/// What a look at the segment at an address tells. One access.
pub fn look_at<S: BlockStore>(
    volume: &mut Volume<S>,
    dbd: &Dbd,
    ssas: &[ResolvedSsa<'_>],
    address: u32,
) -> Result<Look, Refused>
    requires of { IsOf dbd.now volume.old }
    requires there { IsStored dbd.now volume.old address }
    ensures read { IsRead volume.old result volume.new }
    ensures value { IfOk result (λ look. IsLook dbd.now volume.old ssas.now address look) }
    ensures refusal { OnlyDevice result }
{
    let segment = volume.segment_at(address)?;
    Ok(look_in(dbd, ssas, segment))
}

/// Whether some argument of the type of a code has L.
fn some_has_last(ssas: &[ResolvedSsa<'_>], code: u8) -> bool
    ensures { result ≡ some_has_last ssas.now code }
{
    ssas.iter()
        .any(|ssa| ssa.code() == code && ssa.commands().last)
}

/// Whether the last row of a path, of which a look told this, meets the arguments of its type. Only where one of these has L is more
/// read.
pub fn admits_seen<S: BlockStore>(
    volume: &mut Volume<S>,
    dbd: &Dbd,
    ssas: &[ResolvedSsa<'_>],
    look: Look,
    path: &Path,
) -> Result<bool, Refused>
    requires of { IsOf dbd.now volume.old }
    requires there { IsThere dbd.now volume.old path.now }
    ensures read { IsRead volume.old result volume.new }
    ensures value { IfOk result (λ r. AdmitsSeen dbd.now volume.old ssas.now look path.now r) }
    ensures refusal { OnlyDevice result }
{
    if !look.qualifies {
        return Ok(false);
    }
    if !some_has_last(ssas, look.code) {
        return Ok(true);
    }
    admits(volume, dbd, ssas, look.code, path)
}
