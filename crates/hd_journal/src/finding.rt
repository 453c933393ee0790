ghost use Rattle.std.specs.Prelude.{◌≡◌, ◌≢◌, ◌+◌, ◌*◌, ◌≤◌, None, true, false, IsTrue, length, IfOk, IfSome};
ghost use Rattle.hd_journal.specs.Log.{mark, no_block, with_next, follows, is_next, through, fits, is_open};
ghost use Rattle.hd_journal.specs.Finds.{Stamps, Finds, HasSizes};

use crate::disk::{Disk, Failed};
use crate::head::{
    GATE_LEN, HEAD_LEN, Head, LEAST_SIZE, MARK, NO_BLOCK, NUMBERS_LEN, OPEN, STAMP_LEN, VERSION,
    frame_place, read_head, read_u64,
};
use hd_bytes::{read_u16, read_u32};

/// What the gate, the mark and the version of a log say.
enum Stamp {
    /// It is shut, or no log.
    Absent,
    /// It is an open log of another version.
    Foreign,
    /// It is a log of this version, whose gate is open.
    Current,
}

/// What a log is found to be.
pub enum Found {
    /// None that counts.
    Nothing,
    /// One of another version.
    Other,
    /// One that counts, with this head.
    Open(Head),
}

/// The stamp that the first eleven bytes of a log are.
fn stamp_of(gate: u8, sign: u64, version: u16) -> Stamp
    ensures current { result ≡ Stamp.Current → (gate ≡ 1) × (sign ≡ mark) × (version ≡ 2) }
    ensures foreign { result ≡ Stamp.Foreign → (gate ≡ 1) × (sign ≡ mark) × (version ≢ 2) }
    ensures absent { result ≡ Stamp.Absent → (gate ≡ 1) → (sign ≡ mark) → ⊥ }
{
    if gate != OPEN || sign != MARK {
        return Stamp::Absent;
    }
    if version != VERSION {
        return Stamp::Foreign;
    }
    Stamp::Current
}

/// Reads the stamp of a log of so many bytes.
fn read_stamp<D: Disk>(disk: &D, log_len: u64) -> Result<Stamp, Failed>
    requires { IsTrue D.is_honest → log_len ≡ length (D.state disk.now).log }
    ensures { IfOk result (λ s. IsTrue D.is_honest → Stamps s (D.state disk.now).log (D.state disk.now).volume) }
{
    if log_len < STAMP_LEN as u64 {
        return Ok(Stamp::Absent);
    }
    let mut bytes = [0u8; STAMP_LEN];
    disk.read_log(0, &mut bytes)?;
    Ok(stamp_of(bytes[0], read_u64(&bytes, 1), read_u16(&bytes, 9)))
}

/// The most bytes that an image has: each block has a number.
pub fn most_len(head: Head) -> u64
    ensures { result ≡ no_block * head.size }
{
    u64::from(NO_BLOCK) * u64::from(head.size)
}

/// The sizes that a head tells fit a log and a volume of these lengths.
fn head_fits(head: Head, log_len: u64, volume_len: u64) -> bool
    ensures { result ≡ fits head log_len volume_len }
{
    head.size >= LEAST_SIZE
        && head.size <= 32768
        && frame_place(head, head.count) <= log_len
        && head.base <= volume_len
        && head.base <= head.len
        && head.len <= most_len(head)
}

/// A head with one commit more, of so many frames, and an image of so many bytes, if its sizes fit a log of so many bytes.
fn follow(head: Head, count: u32, len: u64, log_len: u64) -> Option<Head>
    requires small { head.size ≤ 32768 }
    ensures some { IfSome result (λ next. (next ≡ record head { count = head.count + 1 + count; len = len }) × (follows next head.len log_len ≡ true)) }
    ensures none { result ≡ None → (next : Head) → next ≡ record head { count = head.count + 1 + count; len = len } → follows next head.len log_len ≡ false }
{
    let Some(total) = head.count.checked_add(1).and_then(|n| n.checked_add(count)) else {
        return None;
    };
    let next = Head {
        size: head.size,
        count: total,
        base: head.base,
        len,
        device: head.device,
        number: head.number,
    };
    if frame_place(next, total) <= log_len && head.len <= len && len <= most_len(next) {
        return Some(next);
    }
    None
}

/// Reads the slot behind those of a head, in a log of so many bytes: the head with the next commit, if it counts.
fn read_next<D: Disk>(disk: &D, head: Head, log_len: u64) -> Result<Option<Head>, Failed>
    requires some { 16 ≤ head.size }
    requires small { head.size ≤ 32768 }
    requires len { IsTrue D.is_honest → log_len ≡ length (D.state disk.now).log }
    ensures some { IfOk result (λ o. IfSome o (λ next. (next.size ≡ head.size) × (IsTrue D.is_honest → (is_next (D.state disk.now).log head ≡ true) × (next ≡ with_next (D.state disk.now).log head)))) }
    ensures none { IfOk result (λ o. o ≡ None → IsTrue D.is_honest → is_next (D.state disk.now).log head ≡ false) }
{
    let place = frame_place(head, head.count);
    if place + u64::from(head.size) + 4 > log_len {
        return Ok(None);
    }
    let mut slot = [0u8; GATE_LEN];
    disk.read_log(place, &mut slot)?;
    if read_u32(&slot, 0) != NO_BLOCK || slot[4] != OPEN {
        return Ok(None);
    }
    Ok(follow(head, read_u32(&slot, 5), read_u64(&slot, 9), log_len))
}

/// Reads the gates behind the first commit, in a log of so many bytes: the head with all commits that count.
fn read_through<D: Disk>(disk: &D, first: Head, log_len: u64) -> Result<Head, Failed>
    requires some { 16 ≤ first.size }
    requires small { first.size ≤ 32768 }
    requires len { IsTrue D.is_honest → log_len ≡ length (D.state disk.now).log }
    ensures size { IfOk result (λ head. head.size ≡ first.size) }
    ensures head { IfOk result (λ head. IsTrue D.is_honest → head ≡ through log_len (D.state disk.now).log first) }
{
    let mut head = first;
    for _ in 0..log_len {
        match read_next(disk, head, log_len)? {
            Some(next) => head = next,
            None => return Ok(head),
        }
    }
    Ok(head)
}

/// Reads the head of a log of so many bytes whose stamp is current.
fn find_head<D: Disk>(disk: &D, log_len: u64) -> Result<Found, Failed>
    requires len { IsTrue D.is_honest → log_len ≡ length (D.state disk.now).log }
    requires stamped { IsTrue D.is_honest → Stamps Stamp.Current (D.state disk.now).log (D.state disk.now).volume }
    ensures finds { IfOk result (λ f. IsTrue D.is_honest → Finds f (D.state disk.now).log (D.state disk.now).volume) }
    ensures sizes { IfOk result (λ f. HasSizes f) }
{
    if log_len < HEAD_LEN as u64 {
        return Ok(Found::Nothing);
    }
    let volume_len = disk.volume_len()?;
    let mut bytes = [0u8; NUMBERS_LEN];
    disk.read_log(STAMP_LEN as u64, &mut bytes)?;
    let first = read_head(&bytes);
    if first.size < LEAST_SIZE || first.size > 32768 {
        return Ok(Found::Nothing);
    }
    let head = read_through(disk, first, log_len)?;
    if head_fits(head, log_len, volume_len) {
        return Ok(Found::Open(head));
    }
    Ok(Found::Nothing)
}

/// What the log beside a volume is.
pub fn find_log<D: Disk>(disk: &D) -> Result<Found, Failed>
    ensures finds { IfOk result (λ f. IsTrue D.is_honest → Finds f (D.state disk.now).log (D.state disk.now).volume) }
    ensures sizes { IfOk result (λ f. HasSizes f) }
{
    let log_len = disk.log_len()?;
    match read_stamp(disk, log_len)? {
        Stamp::Absent => Ok(Found::Nothing),
        Stamp::Foreign => Ok(Found::Other),
        Stamp::Current => find_head(disk, log_len),
    }
}

/// Whether the log counts, so that the volume alone is not what was committed. A program that only reads asks this, with no write.
pub fn is_open<D: Disk>(disk: &D) -> Result<bool, Failed>
    ensures { IfOk result (λ b. IsTrue D.is_honest → b ≡ is_open (D.state disk.now).log (D.state disk.now).volume) }
{
    match find_log(disk)? {
        Found::Open(_) => Ok(true),
        Found::Nothing | Found::Other => Ok(false),
    }
}
