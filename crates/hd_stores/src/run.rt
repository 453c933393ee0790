ghost use Rattle.std.specs.Prelude.{◌≡◌, ◌+◌, ◌-◌, ◌*◌, ◌<◌, ◌≤◌, ◌⊎◌, true, false, vec_len, IsTrue, OnOk, length, take};
ghost use Rattle.hd_bytes.specs.Ranges.{bytes_at};
ghost use Rattle.hd_dbd.specs.Refusals.{OnlyDevice};
ghost use Rattle.hd_stores.specs.Stores.{CountsDevice, StaysSound};
ghost use Rattle.hd_stores.specs.Runs.{IsReadRun};

use crate::store::RunStore;
use hd_dbd::Refused;
use std::alloc::Global;

/// The bytes that a run has room for.
const ROOM: usize = 32_768;

/// Blocks of a store that were read at once: so many, from the first on, and room behind them.
#[derive(Drop)]
pub struct Run {
    pub bytes: Vec<u8>,
    pub first: u32,
    pub count: u32,
}

/// A run of no block, without room where there is no memory.
pub fn no_run(alloc: Global) -> Run
    ensures { result.count ≡ 0 }
{
    let bytes = match vec![in alloc; 0u8; ROOM] {
        Ok(bytes) => bytes,
        Err(_) => Vec::new(alloc),
    };
    Run {
        bytes,
        first: 0,
        count: 0,
    }
}

/// Copies a block out of a run, and says whether it did.
pub fn copy_out(run: &Run, n: u32, buf: &mut [u8]) -> bool
    requires fits { run.now.count * length buf.old ≤ vec_len run.now.bytes }
    ensures len { length buf.new ≡ length buf.old }
    ensures there { result ≡ true → (run.now.first ≤ n) × (n - run.now.first < run.now.count) }
    ensures found { result ≡ true → buf.new ≡ bytes_at run.now.bytes.items ((n - run.now.first) * length buf.old) (length buf.old) }
{
    if n < run.first || n - run.first >= run.count {
        return false;
    }
    let at = (n - run.first) as usize * buf.len();
    let size = buf.len();
    buf.copy_from_slice(&run.bytes[at..at + size]);
    true
}

/// Reads so many blocks from `n` on, in place of those of the run. `Device` is a failed access.
pub fn fill<S: RunStore>(store: &mut S, run: &mut Run, n: u32, count: u32) -> Result<(), Refused>
    requires fits { count * S.size store.old ≤ vec_len run.old.bytes }
    requires there { IsTrue (S.is_sound store.old) → n * S.size store.old + count * S.size store.old ≤ length (S.contents store.old) }
    ensures run { OnOk result (IsTrue (S.is_sound store.old) → IsReadRun (S.size store.old) (S.contents store.old) run.new) }
    ensures fits { run.new.count * S.size store.old ≤ vec_len run.new.bytes }
    ensures kept { OnOk result (IsTrue (S.is_sound store.old) → S.contents store.new ≡ S.contents store.old) }
    ensures refusal { OnlyDevice result }
    ensures counts { CountsDevice result (S.failures store.old) (S.failures store.new) }
    ensures sound { StaysSound result (S.is_sound store.old) (S.is_sound store.new) }
    ensures committed { S.committed store.new ≡ S.committed store.old }
    ensures size { S.size store.new ≡ S.size store.old }
    ensures room { S.room store.new ≡ S.room store.old }
{
    let end = count as usize * store.block_size();
    run.first = n;
    run.count = 0;
    read_front(store, &mut run.bytes, n, end)?;
    run.count = count;
    Ok(())
}

/// Reads the blocks from `n` on into so many bytes at the front. `Device` is a failed access.
fn read_front<S: RunStore>(
    store: &mut S,
    bytes: &mut [u8],
    n: u32,
    end: usize,
) -> Result<(), Refused>
    requires fits { end ≤ length bytes.old }
    requires there { IsTrue (S.is_sound store.old) → n * S.size store.old + end ≤ length (S.contents store.old) }
    ensures value { OnOk result (IsTrue (S.is_sound store.old) → take end bytes.new ≡ bytes_at (S.contents store.old) (n * S.size store.old) end) }
    ensures len { length bytes.new ≡ length bytes.old }
    ensures kept { OnOk result (IsTrue (S.is_sound store.old) → S.contents store.new ≡ S.contents store.old) }
    ensures refusal { OnlyDevice result }
    ensures counts { CountsDevice result (S.failures store.old) (S.failures store.new) }
    ensures sound { StaysSound result (S.is_sound store.old) (S.is_sound store.new) }
    ensures committed { S.committed store.new ≡ S.committed store.old }
    ensures size { S.size store.new ≡ S.size store.old }
    ensures room { S.room store.new ≡ S.room store.old }
{
    store.read_run(n, &mut bytes[..end])
}

/// Forgets the blocks of a run if block `n` is one of them.
pub fn forget(run: &mut Run, n: u32)
    ensures other { (run.new ≡ run.old) ⊎ (run.new ≡ record run.old { count = 0 }) }
    ensures gone { (n < run.new.first) ⊎ (run.new.first + run.new.count ≤ n) }
{
    if n >= run.first && n - run.first < run.count {
        run.count = 0;
    }
}
