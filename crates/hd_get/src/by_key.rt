ghost use Rattle.std.specs.Prelude.{◌≡◌, true, None, Some, IsTrue, IfOk, IfSome, option_copied};
ghost use Rattle.hd_dbd.specs.Refusals.{OnlyDevice};
ghost use Rattle.hd_dbd.specs.Hierarchy.{parent_of};
ghost use Rattle.hd_volume.specs.Calls.{IsRead};
ghost use Rattle.hd_links.specs.Links.{is_child_type};
ghost use Rattle.hd_image.specs.Records.{links_of};
ghost use Rattle.hd_forest.specs.Walks.{tip};
ghost use Rattle.hd_calls.specs.Admits.{Descend};
ghost use Rattle.hd_get.specs.Searches.{IsOf, IsThere};
ghost use Rattle.hd_get.specs.Starts.{least_root_key, HasRoots, LeadsToRoot, BeginsUnique, RefusesRootsBelow};
ghost use Rattle.hd_get.specs.Asking.{least_key_of};
ghost use Rattle.hd_get.specs.Descents.{GoesBelow, key_asked_of, asks_for, ask_for, StepsDown, GoesOnward, AdmitsTip, HasTipKey, is_root_first};

use crate::arguments::{goes_to_last, least_key_of};
use crate::look::{admits_seen, look_at};
use crate::search_starts::unique;
use hd_dbd::{Dbd, Refused, compare_keys};
use hd_forest::{
    Path, first_and_last_child, last_child, tip_of, twin_places, twins_around_between,
};
use hd_index::next_from;
use hd_ssa::ResolvedSsa;
use hd_stores::BlockStore;
use hd_volume::Volume;

/// The key below which no root has what the first argument asks, if that is the root's and tells of one.
fn least_root_key<'a>(dbd: &Dbd, ssas: &[ResolvedSsa<'a>]) -> Option<&'a [u8]>
    ensures value { option_copied result ≡ least_root_key dbd.now.types ssas.now }
    ensures below { IfSome result (λ key. RefusesRootsBelow dbd.now.types ssas.now key.now) }
{
    let ssa = ssas.first()?;
    if ssa.code() != 1 {
        return None;
    }
    let root = dbd.type_of(1)?;
    ssa.least_key(root.key?)
}

/// The path of the first root whose key is not below a key, and whether its key is that one; empty where there is none.
fn root_from<S: BlockStore>(
    volume: &mut Volume<S>,
    dbd: &Dbd,
    key: &[u8],
) -> Result<(Path, bool), Refused>
    requires holds { HasRoots dbd.now volume.old }
    ensures read { IsRead volume.old result volume.new }
    ensures value { IfOk result (λ r. LeadsToRoot dbd.now volume.old key.now r.0) }
    ensures key { IfOk result (λ r. r.1 ≡ true → HasTipKey dbd.now volume.old key.now r.0) }
    ensures refusal { OnlyDevice result }
{
    let mut path = Path::new();
    let Some(root) = next_from(volume, dbd, key)? else {
        return Ok((path, false));
    };
    path.push(root.address);
    Ok((path, root.is_equal))
}

/// Goes down from the last row of a path to its first child, of the type of a code, whose key is not below a key, and says whether its key is equal;
/// `None` where there is no such child, and where the type has no key. The row is read, and the blocks of the twins up to that child, from the
/// first on, or, where its last child and twin backward are kept and the key is nearer to the last's, back from the last.
fn go_below<S: BlockStore>(
    volume: &mut Volume<S>,
    dbd: &Dbd,
    code: u8,
    key: &[u8],
    path: &mut Path,
) -> Result<Option<bool>, Refused>
    requires of { IsOf dbd.now volume.old }
    requires there { IsThere dbd.now volume.old path.old }
    requires typed { IsTrue volume.old.is_sound → is_child_type dbd.now.types ((links_of dbd.now.types volume.old).code (tip path.old)) code ≡ true }
    ensures read { IsRead volume.old result volume.new }
    ensures value { IfOk result (λ r. GoesBelow dbd.now volume.old key.now code path.old r path.new) }
    ensures refusal { OnlyDevice result }
{
    let Some(places) = twin_places(dbd, code) else {
        return Ok(None);
    };
    let ends = first_and_last_child(volume, dbd, tip_of(path), code)?;
    if ends.first == 0 {
        return Ok(None);
    }
    let around = twins_around_between(volume, dbd, places, ends.first, ends.last, key)?;
    if around.from == 0 {
        return Ok(None);
    }
    path.push(around.from);
    Ok(Some(around.is_equal))
}

/// Whether an argument asks for a key, and neither its qualification nor L for anything else.
fn asks_for(dbd: &Dbd, ssa: &ResolvedSsa<'_>, key: &[u8]) -> bool
    ensures { result ≡ asks_for dbd.now.types key.now ssa.now }
{
    if ssa.commands().last {
        return false;
    }
    match key_asked_of(dbd, ssa) {
        Some(asked) => compare_keys(asked, key).is_eq(),
        None => false,
    }
}

/// The key that an argument's qualification asks its type's segments for, where it asks for nothing else; L aside.
fn key_asked_of<'a>(dbd: &Dbd, ssa: &ResolvedSsa<'a>) -> Option<&'a [u8]>
    ensures { option_copied result ≡ key_asked_of dbd.now.types ssa.now }
{
    let own = dbd.type_of(ssa.code())?;
    ssa.key_asked(own.key?)
}

/// Whether each argument of the type of a code asks for a key, and for nothing else.
fn ask_for(dbd: &Dbd, ssas: &[ResolvedSsa<'_>], code: u8, key: &[u8]) -> bool
    ensures { result ≡ ask_for dbd.now.types ssas.now code key.now }
{
    ssas.iter()
        .all(|ssa| ssa.code() != code || asks_for(dbd, ssa, key))
}

/// Goes down from the last row of a path to its first child, of the type of a code, whose key is not below the least that the argument of that type asks
/// for. `Some` where the key is equal, and then whether that is known to be all that is asked; `None` where the key is another, and where there is no
/// such child or the type has no key. The row is read, and the blocks of the twins up to that child.
fn step_to_key<S: BlockStore>(
    volume: &mut Volume<S>,
    dbd: &Dbd,
    ssas: &[ResolvedSsa<'_>],
    code: u8,
    key: &[u8],
    path: &mut Path,
) -> Result<Option<bool>, Refused>
    requires of { IsOf dbd.now volume.old }
    requires there { IsThere dbd.now volume.old path.old }
    requires parent { IsTrue volume.old.is_sound → parent_of dbd.now.types code ≡ Some ((links_of dbd.now.types volume.old).code (tip path.old)) }
    requires least { least_key_of dbd.now.types ssas.now code ≡ Some key.now }
    ensures read { IsRead volume.old result volume.new }
    ensures value { IfOk result (λ r. StepsDown dbd.now volume.old ssas.now code path.old r path.new) }
    ensures refusal { OnlyDevice result }
{
    let Some(is_equal) = go_below(volume, dbd, code, key, path)? else {
        return Ok(None);
    };
    if !is_equal {
        return Ok(None);
    }
    Ok(Some(ask_for(dbd, ssas, code, key)))
}

/// Goes down from the last row of a path to its last child, of the type of a code, where the last twin alone is asked for and parents keep it, which is
/// then all that is asked; `None`, with the path as it was, where not, and where there is no such child. The row is read, and no twin.
fn step_to_last<S: BlockStore>(
    volume: &mut Volume<S>,
    dbd: &Dbd,
    ssas: &[ResolvedSsa<'_>],
    code: u8,
    path: &mut Path,
) -> Result<Option<bool>, Refused>
    requires descend { Descend dbd.now.types None ssas.now }
    requires of { IsOf dbd.now volume.old }
    requires there { IsThere dbd.now volume.old path.old }
    requires parent { IsTrue volume.old.is_sound → parent_of dbd.now.types code ≡ Some ((links_of dbd.now.types volume.old).code (tip path.old)) }
    ensures read { IsRead volume.old result volume.new }
    ensures value { IfOk result (λ r. StepsDown dbd.now volume.old ssas.now code path.old r path.new) }
    ensures refusal { OnlyDevice result }
{
    if !goes_to_last(dbd, ssas, code) {
        return Ok(None);
    }
    let child = last_child(volume, dbd, tip_of(path), code)?;
    if child == 0 {
        return Ok(None);
    }
    path.push(child);
    Ok(Some(true))
}

/// Goes down from the last row of a path, of one type, to a child, of another, that the argument of that type asks for by its key or as the last twin.
/// `Some` where there is one, and then whether it is known to have what is asked; `None` behind a child of another key, and, with the path as it was,
/// where the other is no child type, the argument tells of neither, or there is no such child.
fn step_down<S: BlockStore>(
    volume: &mut Volume<S>,
    dbd: &Dbd,
    ssas: &[ResolvedSsa<'_>],
    above: u8,
    code: u8,
    path: &mut Path,
) -> Result<Option<bool>, Refused>
    requires descend { Descend dbd.now.types None ssas.now }
    requires of { IsOf dbd.now volume.old }
    requires there { IsThere dbd.now volume.old path.old }
    requires above { IsTrue volume.old.is_sound → (links_of dbd.now.types volume.old).code (tip path.old) ≡ above }
    ensures read { IsRead volume.old result volume.new }
    ensures value { IfOk result (λ r. StepsDown dbd.now volume.old ssas.now code path.old r path.new) }
    ensures refusal { OnlyDevice result }
{
    if dbd.parent_of(code) != Some(above) {
        return Ok(None);
    }
    match least_key_of(dbd, ssas, code) {
        Some(key) => step_to_key(volume, dbd, ssas, code, key, path),
        None => step_to_last(volume, dbd, ssas, code, path),
    }
}

/// Goes down from a root, argument by argument, to the first child whose key is not below the least that the argument asks for, or, where it asks for
/// the last twin alone and parents keep that, to the last child. It stops behind a child of another key, and where a type is left out, an argument
/// tells of neither, or there is no such child. Says whether the arguments are known to name the row where it came, if the root meets its own: each
/// was gone by, and asks for the key that was found and nothing else, or for the last twin alone.
fn descend<S: BlockStore>(
    volume: &mut Volume<S>,
    dbd: &Dbd,
    ssas: &[ResolvedSsa<'_>],
    path: &mut Path,
) -> Result<bool, Refused>
    requires first { is_root_first ssas.now ≡ true }
    requires descend { Descend dbd.now.types None ssas.now }
    requires of { IsOf dbd.now volume.old }
    requires there { IsThere dbd.now volume.old path.old }
    requires root { IsTrue volume.old.is_sound → (links_of dbd.now.types volume.old).code (tip path.old) ≡ 1 }
    ensures read { IsRead volume.old result volume.new }
    ensures value { IfOk result (λ r. GoesOnward dbd.now volume.old ssas.now path.old r path.new) }
    ensures refusal { OnlyDevice result }
{
    let mut above = 1;
    let mut is_named = true;
    for place in 1..ssas.len() {
        let code = ssas[place].code();
        let Some(is_met) = step_down(volume, dbd, ssas, above, code, path)? else {
            return Ok(false);
        };
        is_named = is_named & is_met;
        above = code;
    }
    Ok(is_named)
}

/// Whether the last row of a path meets the arguments of its type. One access, and more only where one of these has L and is not the root's.
fn admits_tip<S: BlockStore>(
    volume: &mut Volume<S>,
    dbd: &Dbd,
    ssas: &[ResolvedSsa<'_>],
    path: &Path,
) -> Result<bool, Refused>
    requires of { IsOf dbd.now volume.old }
    requires there { IsThere dbd.now volume.old path.now }
    ensures read { IsRead volume.old result volume.new }
    ensures value { IfOk result (λ r. AdmitsTip dbd.now volume.old ssas.now path.now r) }
    ensures refusal { OnlyDevice result }
{
    let look = look_at(volume, dbd, ssas, tip_of(path))?;
    admits_seen(volume, dbd, ssas, look, path)
}

/// Whether a root, the last row of a path, meets the arguments of its type; where its key is known to be one, and that is all they ask for, it is not
/// read.
fn admits_root<S: BlockStore>(
    volume: &mut Volume<S>,
    dbd: &Dbd,
    ssas: &[ResolvedSsa<'_>],
    path: &Path,
    key: &[u8],
    is_equal: bool,
) -> Result<bool, Refused>
    requires of { IsOf dbd.now volume.old }
    requires there { IsThere dbd.now volume.old path.now }
    requires root { IsTrue volume.old.is_sound → (links_of dbd.now.types volume.old).code (tip path.now) ≡ 1 }
    requires key { is_equal ≡ true → HasTipKey dbd.now volume.old key.now path.now }
    ensures read { IsRead volume.old result volume.new }
    ensures value { IfOk result (λ r. AdmitsTip dbd.now volume.old ssas.now path.now r) }
    ensures refusal { OnlyDevice result }
{
    if is_equal && ask_for(dbd, ssas, 1, key) {
        return Ok(true);
    }
    admits_tip(volume, dbd, ssas, path)
}

/// The path of the first root whose key is not below a key, or, where it meets its arguments, of a row below it to which the others lead, and whether
/// the arguments are known to name that row; empty where there is no such root.
fn descend_from<S: BlockStore>(
    volume: &mut Volume<S>,
    dbd: &Dbd,
    ssas: &[ResolvedSsa<'_>],
    key: &[u8],
) -> Result<(Path, bool), Refused>
    requires first { is_root_first ssas.now ≡ true }
    requires descend { Descend dbd.now.types None ssas.now }
    requires of { IsOf dbd.now volume.old }
    requires holds { HasRoots dbd.now volume.old }
    requires below { RefusesRootsBelow dbd.now.types ssas.now key.now }
    ensures read { IsRead volume.old result volume.new }
    ensures begins { IfOk result (λ r. BeginsUnique dbd.now volume.old ssas.now r.0 r.1) }
    ensures refusal { OnlyDevice result }
{
    let (mut path, is_equal) = root_from(volume, dbd, key)?;
    if path.addresses().is_empty() {
        return Ok((path, false));
    }
    if !admits_root(volume, dbd, ssas, &path, key, is_equal)? {
        return Ok((path, false));
    }
    let is_named = descend(volume, dbd, ssas, &mut path)?;
    Ok((path, is_named))
}

/// The path of the row where GU begins, empty where no root is left, and whether the arguments are known to name that row; none before it is named.
/// Where the root's argument tells of a least key, it is the first root whose key is not below that, which the index has, and, if this meets its
/// arguments, from there down as far as the arguments tell of keys, or ask for the last twin alone where parents keep it, and such are found, or one
/// child further; else it is the first root.
///
/// One block of each level of the index is read, the root unless its key is all that is asked for, and below it each row that is gone down from and, on the way to a key, the ends of the twins and those
/// that are passed over from the nearer end on; or one row.
pub fn unique_by_key<S: BlockStore>(
    volume: &mut Volume<S>,
    dbd: &Dbd,
    ssas: &[ResolvedSsa<'_>],
) -> Result<(Path, bool), Refused>
    requires descend { Descend dbd.now.types None ssas.now }
    requires of { IsOf dbd.now volume.old }
    requires holds { HasRoots dbd.now volume.old }
    ensures read { IsRead volume.old result volume.new }
    ensures begins { IfOk result (λ r. BeginsUnique dbd.now volume.old ssas.now r.0 r.1) }
    ensures refusal { OnlyDevice result }
{
    match least_root_key(dbd, ssas) {
        Some(key) => descend_from(volume, dbd, ssas, key),
        None => {
            let path = unique(volume, dbd)?;
            Ok((path, false))
        }
    }
}
