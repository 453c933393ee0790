ghost use Rattle.std.specs.Prelude.{◌≡◌, ◌<◌, ◌≤◌, ◌-◌, ℕ, List, [], ◌∷◌, true, IsTrue, IfOk, IfErr, OnOk, length, option_map, take};
ghost use Rattle.hd_dbd.specs.Hierarchy.{longest_path, type_of};
ghost use Rattle.hd_dbd.specs.Types.{SegmentType};
ghost use Rattle.hd_dbd.specs.Calls.{bare};
ghost use Rattle.hd_dbd.specs.Refusals.{OnlyDevice};
ghost use Rattle.hd_volume.specs.Calls.{IsRead};
ghost use Rattle.hd_volume.specs.Volumes.{VolumeState};
ghost use Rattle.hd_prefix.specs.Fields.{code_of};
ghost use Rattle.hd_links.specs.Links.{Links};
ghost use Rattle.hd_image.specs.Records.{links_of};
ghost use Rattle.hd_forest.specs.Walks.{IsAhead};
ghost use Rattle.hd_get.specs.Meeting.{IsStored};
ghost use Rattle.hd_get.specs.Searches.{IsOf, IsThere};
ghost use Rattle.hd_session.specs.Replies.{reply_of};
ghost use Rattle.hd_session.specs.Giving.{IsGiven, IsEmpty, IsSegmentAdded, HasRoom, with_row, is_among, with_path, IsAnswerOf, IsCodeOn, HasAdded};
ghost use Rattle.hd_session.specs.LastGiven.{AreKeysIn, AreKeysOf, IsJustBelow, are_below};

use crate::buffer::IoArea;
use crate::call_and_answer::Answer;
use crate::last_given::LastGiven;
use hd_dbd::{Dbd, Name8, Refused, Status};
use hd_forest::{Ahead, Path, ahead_of, bytes_in, look_ahead, tip_of};
use hd_position::Levels;
use hd_stores::BlockStore;
use hd_volume::Volume;

/// Whether a level is one of these.
pub fn is_among(levels: &Levels, level: u8) -> bool
    ensures { result ≡ is_among levels.now level }
{
    levels.as_slice().iter().any(|own| *own == level)
}

/// Whether all of these levels are below one.
fn are_below(levels: &Levels, level: u8) -> bool
    ensures { result ≡ are_below levels.now level }
{
    levels.as_slice().iter().all(|own| *own > level)
}

/// Adds the key in the bytes of a segment of the type of a code, and the bytes where they are given.
fn add_row(dbd: &Dbd, code: u8, bytes: &[u8], is_given: bool, io: &mut IoArea)
    ensures added { HasRoom dbd.now.types (record { code = code; bytes = bytes.now }) io.old → io.new ≡ with_row dbd.now.types is_given (record { code = code; bytes = bytes.now }) io.old }
    ensures same_room { io.new.room ≡ io.old.room }
{
    let key = dbd.key_of(code, bytes);
    if !key.is_empty() {
        io.add_key(key);
    }
    if is_given {
        io.add_area(bytes);
    }
}

/// The code of a lent segment, 0 for no bytes.
fn code_in(segment: &[u8]) -> u8
    ensures { result ≡ code_of segment.now }
{
    segment.first().copied().unwrap_or(0)
}

/// Adds the key of the segment at an address, and its bytes where they are given, and says its code. One access.
fn add_segment<S: BlockStore>(
    volume: &mut Volume<S>,
    dbd: &Dbd,
    address: u32,
    is_given: bool,
    io: &mut IoArea,
) -> Result<u8, Refused>
    requires of { IsOf dbd.now volume.old }
    requires there { IsStored dbd.now volume.old address }
    ensures read { IsRead volume.old result volume.new }
    ensures code { IfOk result (λ code. IsTrue volume.old.is_sound → code ≡ (links_of dbd.now.types volume.old).code address) }
    ensures added { OnOk result (IsTrue volume.old.is_sound → IsSegmentAdded dbd.now volume.old address is_given io.old io.new) }
    ensures same_room { io.new.room ≡ io.old.room }
    ensures refusal { OnlyDevice result }
{
    let segment = volume.segment_at(address)?;
    let code = code_in(segment);
    add_row(dbd, code, bytes_in(dbd, segment), is_given, io);
    Ok(code)
}

/// Adds the key of the segment at an address, and its bytes, and says its code and what it names ahead of it. One access.
fn add_seen<S: BlockStore>(
    volume: &mut Volume<S>,
    dbd: &Dbd,
    address: u32,
    io: &mut IoArea,
) -> Result<(u8, Ahead), Refused>
    requires of { IsOf dbd.now volume.old }
    requires there { IsStored dbd.now volume.old address }
    ensures read { IsRead volume.old result volume.new }
    ensures code { IfOk result (λ r. IsTrue volume.old.is_sound → r.0 ≡ (links_of dbd.now.types volume.old).code address) }
    ensures ahead { IfOk result (λ r. IsTrue volume.old.is_sound → IsAhead dbd.now.types (links_of dbd.now.types volume.old) address r.1) }
    ensures added { OnOk result (IsTrue volume.old.is_sound → IsSegmentAdded dbd.now volume.old address true io.old io.new) }
    ensures same_room { io.new.room ≡ io.old.room }
    ensures refusal { OnlyDevice result }
{
    let segment = volume.segment_at(address)?;
    let code = code_in(segment);
    add_row(dbd, code, bytes_in(dbd, segment), true, io);
    Ok((code, ahead_of(dbd, segment)))
}

/// Adds the keys of the rows on a path, and the bytes of those at the levels: behind what so many rows gave, what those up to another give. Says the code of
/// the last of them.
fn add_path<S: BlockStore>(
    volume: &mut Volume<S>,
    dbd: &Dbd,
    path: &Path,
    levels: &Levels,
    from: usize,
    to: usize,
    io: &mut IoArea,
) -> Result<u8, Refused>
    requires of { IsOf dbd.now volume.old }
    requires there { IsThere dbd.now volume.old path.now }
    requires part { (from ≤ to) × (to ≤ length path.now) }
    requires before { HasAdded dbd.now volume.old path.now levels.now from io.old }
    requires room { longest_path dbd.now.types ≤ io.old.room }
    ensures read { IsRead volume.old result volume.new }
    ensures added { OnOk result (HasAdded dbd.now volume.old path.now levels.now to io.new) }
    ensures code { IfOk result (λ code. from < to → IsCodeOn dbd.now volume.old path.now to code) }
    ensures same_room { io.new.room ≡ io.old.room }
    ensures refusal { OnlyDevice result }
{
    let addresses = path.addresses();
    let mut code = 0;
    for place in from..to {
        let is_given = is_among(levels, place as u8 + 1);
        code = add_segment(volume, dbd, addresses[place], is_given, io)?;
    }
    Ok(code)
}

/// Adds the keys of the rows above to an empty area, where a path goes on below them and no bytes of theirs are given, and answers how
/// many rows they are.
fn add_above(path: &Path, levels: &Levels, last_given: &LastGiven, io: &mut IoArea) -> usize
    requires empty { IsEmpty io.old }
    ensures few { result ≤ length path.now - 1 }
    ensures added { (types : List SegmentType) (m : Links) → AreKeysIn types m last_given.now → io.new ≡ with_path types m levels.now io.new.room (take result path.now) }
    ensures same_room { io.new.room ≡ io.old.room }
{
    let level = last_given.level();
    if !last_given.begin(path) || !are_below(levels, level) {
        return 0;
    }
    io.push_key(last_given.keys());
    level as usize
}

/// Adds the keys of the rows on a path to an empty area, and the bytes of those at the levels. What is known of the rows above is not read
/// again, and the rows above the last are noted, unless all of them are known. Says the code of the last.
fn add_known<S: BlockStore>(
    volume: &mut Volume<S>,
    dbd: &Dbd,
    path: &Path,
    levels: &Levels,
    last_given: &mut LastGiven,
    io: &mut IoArea,
) -> Result<u8, Refused>
    requires of { IsOf dbd.now volume.old }
    requires there { IsThere dbd.now volume.old path.now }
    requires known { AreKeysOf dbd.now volume.old last_given.old }
    requires empty { IsEmpty io.old }
    requires room { longest_path dbd.now.types ≤ io.old.room }
    ensures read { IsRead volume.old result volume.new }
    ensures added { OnOk result (HasAdded dbd.now volume.old path.now levels.now (length path.now) io.new) }
    ensures code { IfOk result (λ code. IsCodeOn dbd.now volume.old path.now (length path.now) code) }
    ensures known { OnOk result (AreKeysOf dbd.now volume.new last_given.new) }
    ensures same_room { io.new.room ≡ io.old.room }
    ensures refusal { OnlyDevice result }
{
    let rows = path.addresses().len();
    let last = rows.saturating_sub(1);
    let known = add_above(path, levels, last_given, io);
    if known == last {
        return add_path(volume, dbd, path, levels, last, rows, io);
    }
    add_path(volume, dbd, path, levels, known, last, io)?;
    last_given.note(path, io.key());
    add_path(volume, dbd, path, levels, last, rows, io)
}

/// Adds the keys of the rows on a path to an empty area, whose last stands just below the rows above that are known, and the bytes of the last; notes what that
/// names ahead of it. Says its code. One access.
fn add_below<S: BlockStore>(
    volume: &mut Volume<S>,
    dbd: &Dbd,
    path: &Path,
    last_given: &mut LastGiven,
    io: &mut IoArea,
) -> Result<u8, Refused>
    requires of { IsOf dbd.now volume.old }
    requires there { IsThere dbd.now volume.old path.now }
    requires known { AreKeysOf dbd.now volume.old last_given.old }
    requires below { IsJustBelow path.now last_given.old }
    requires empty { IsEmpty io.old }
    requires room { longest_path dbd.now.types ≤ io.old.room }
    ensures read { IsRead volume.old result volume.new }
    ensures added { OnOk result (HasAdded dbd.now volume.old path.now (length path.now ∷ []) (length path.now) io.new) }
    ensures code { IfOk result (λ code. IsCodeOn dbd.now volume.old path.now (length path.now) code) }
    ensures known { OnOk result (AreKeysOf dbd.now volume.new last_given.new) }
    ensures same_room { io.new.room ≡ io.old.room }
    ensures refusal { OnlyDevice result }
{
    io.push_key(last_given.keys());
    let addresses = path.addresses();
    let address = addresses[addresses.len() - 1];
    let (code, ahead) = add_seen(volume, dbd, address, io)?;
    last_given.see(address, ahead);
    Ok(code)
}

/// The name of the type of a code.
fn name_of(dbd: &Dbd, code: u8) -> Option<Name8>
    ensures { result ≡ option_map (λ t. t.name) (type_of dbd.now.types code) }
{
    dbd.type_of(code).map(|segment| segment.name)
}

/// The answer that gives the last row of a path, of the type of a code, beside what its rows gave.
fn answer_of(dbd: &Dbd, path: &Path, code: u8, status: Status) -> Answer
    ensures given { (v : VolumeState) → IsOf dbd.now v → IsCodeOn dbd.now v path.now (length path.now) code → IsAnswerOf dbd.now v path.now status result }
{
    Answer {
        status,
        level: path.level(),
        segment: name_of(dbd, code),
    }
}

/// The answer that gives the last row of a path, into an empty area.
fn give_path<S: BlockStore>(
    volume: &mut Volume<S>,
    dbd: &Dbd,
    path: &Path,
    levels: &Levels,
    status: Status,
    io: &mut IoArea,
) -> Result<Answer, Refused>
    requires of { IsOf dbd.now volume.old }
    requires there { IsThere dbd.now volume.old path.now }
    requires empty { IsEmpty io.old }
    requires room { longest_path dbd.now.types ≤ io.old.room }
    ensures read { IsRead volume.old result volume.new }
    ensures given { IfOk result (λ a. IsGiven dbd.now volume.old path.now levels.now status (reply_of a io.new)) }
    ensures same_room { io.new.room ≡ io.old.room }
    ensures refusal { OnlyDevice result }
{
    let code = add_path(volume, dbd, path, levels, 0, path.addresses().len(), io)?;
    Ok(answer_of(dbd, path, code, status))
}

/// The same, where the rows above may be known.
fn give_known_path<S: BlockStore>(
    volume: &mut Volume<S>,
    dbd: &Dbd,
    path: &Path,
    levels: &Levels,
    status: Status,
    last_given: &mut LastGiven,
    io: &mut IoArea,
) -> Result<Answer, Refused>
    requires of { IsOf dbd.now volume.old }
    requires there { IsThere dbd.now volume.old path.now }
    requires known { AreKeysOf dbd.now volume.old last_given.old }
    requires empty { IsEmpty io.old }
    requires room { longest_path dbd.now.types ≤ io.old.room }
    ensures read { IsRead volume.old result volume.new }
    ensures given { IfOk result (λ a. IsGiven dbd.now volume.old path.now levels.now status (reply_of a io.new)) }
    ensures known { IfOk result (λ _. AreKeysOf dbd.now volume.new last_given.new) }
    ensures same_room { io.new.room ≡ io.old.room }
    ensures refusal { OnlyDevice result }
{
    let code = add_known(volume, dbd, path, levels, last_given, io)?;
    Ok(answer_of(dbd, path, code, status))
}

/// The answer that gives the last row of a path: its level and name, and into the I/O area, which is emptied first, the keys on the path
/// and the bytes of the rows at the levels. One access a row of the path, and no memory is taken.
pub fn give<S: BlockStore>(
    volume: &mut Volume<S>,
    dbd: &Dbd,
    path: &Path,
    levels: &Levels,
    status: Status,
    io: &mut IoArea,
) -> Result<Answer, Refused>
    requires of { IsOf dbd.now volume.old }
    requires there { IsThere dbd.now volume.old path.now }
    requires room { longest_path dbd.now.types ≤ io.old.room }
    ensures read { IsRead volume.old result volume.new }
    ensures given { IfOk result (λ a. IsGiven dbd.now volume.old path.now levels.now status (reply_of a io.new)) }
    ensures empty { IfErr result (λ _. IsEmpty io.new) }
    ensures same_room { io.new.room ≡ io.old.room }
    ensures refusal { OnlyDevice result }
{
    io.clear();
    let given = give_path(volume, dbd, path, levels, status, io);
    if given.is_err() {
        io.clear();
    }
    given
}

/// The same answer. Where the path goes on below the rows above that are known, their keys are not read again; the rows above the last are
/// known from then on.
pub fn give_known<S: BlockStore>(
    volume: &mut Volume<S>,
    dbd: &Dbd,
    path: &Path,
    levels: &Levels,
    status: Status,
    last_given: &mut LastGiven,
    io: &mut IoArea,
) -> Result<Answer, Refused>
    requires of { IsOf dbd.now volume.old }
    requires there { IsThere dbd.now volume.old path.now }
    requires known { AreKeysOf dbd.now volume.old last_given.old }
    requires room { longest_path dbd.now.types ≤ io.old.room }
    ensures read { IsRead volume.old result volume.new }
    ensures given { IfOk result (λ a. IsGiven dbd.now volume.old path.now levels.now status (reply_of a io.new)) }
    ensures known { IfOk result (λ _. AreKeysOf dbd.now volume.new last_given.new) }
    ensures empty { IfErr result (λ _. IsEmpty io.new) }
    ensures same_room { io.new.room ≡ io.old.room }
    ensures refusal { OnlyDevice result }
{
    io.clear();
    let given = give_known_path(volume, dbd, path, levels, status, last_given, io);
    if given.is_err() {
        io.clear();
    }
    given
}

/// The same answer, into an empty area. What the last row of the path names ahead of it is known from then on; that is one access more.
pub fn give_and_look<S: BlockStore>(
    volume: &mut Volume<S>,
    dbd: &Dbd,
    path: &Path,
    levels: &Levels,
    status: Status,
    last_given: &mut LastGiven,
    io: &mut IoArea,
) -> Result<Answer, Refused>
    requires of { IsOf dbd.now volume.old }
    requires there { IsThere dbd.now volume.old path.now }
    requires known { AreKeysOf dbd.now volume.old last_given.old }
    requires empty { IsEmpty io.old }
    requires room { longest_path dbd.now.types ≤ io.old.room }
    ensures read { IsRead volume.old result volume.new }
    ensures given { IfOk result (λ a. IsGiven dbd.now volume.old path.now levels.now status (reply_of a io.new)) }
    ensures known { IfOk result (λ _. AreKeysOf dbd.now volume.new last_given.new) }
    ensures empty { IfErr result (λ _. IsEmpty io.new) }
    ensures same_room { io.new.room ≡ io.old.room }
    ensures refusal { OnlyDevice result }
{
    let address = tip_of(path);
    let ahead = look_ahead(volume, dbd, address)?;
    let answer = give_known(volume, dbd, path, levels, status, last_given, io)?;
    last_given.see(address, ahead);
    Ok(answer)
}

/// The answer that gives the last row of a path, just below the rows above that are known, into an empty area. What the row names ahead of it is known from then
/// on. One access, and no memory is taken.
pub fn give_below<S: BlockStore>(
    volume: &mut Volume<S>,
    dbd: &Dbd,
    path: &Path,
    status: Status,
    last_given: &mut LastGiven,
    io: &mut IoArea,
) -> Result<Answer, Refused>
    requires of { IsOf dbd.now volume.old }
    requires there { IsThere dbd.now volume.old path.now }
    requires known { AreKeysOf dbd.now volume.old last_given.old }
    requires below { IsJustBelow path.now last_given.old }
    requires empty { IsEmpty io.old }
    requires room { longest_path dbd.now.types ≤ io.old.room }
    ensures read { IsRead volume.old result volume.new }
    ensures given { IfOk result (λ a. IsGiven dbd.now volume.old path.now (length path.now ∷ []) status (reply_of a io.new)) }
    ensures known { IfOk result (λ _. AreKeysOf dbd.now volume.new last_given.new) }
    ensures empty { IfErr result (λ _. IsEmpty io.new) }
    ensures same_room { io.new.room ≡ io.old.room }
    ensures refusal { OnlyDevice result }
{
    match add_below(volume, dbd, path, last_given, io) {
        Ok(code) => Ok(answer_of(dbd, path, code, status)),
        Err(refused) => {
            io.clear();
            Err(refused)
        }
    }
}

/// The answer of a status that gives no row.
pub fn give_none(status: Status, io: &mut IoArea) -> Answer
    ensures reply { reply_of result io.new ≡ bare status }
    ensures same_room { io.new.room ≡ io.old.room }
{
    io.clear();
    Answer {
        status,
        level: 0,
        segment: None,
    }
}
