//! Stores of blocks of four bytes, and steps that they take.
ghost use Rattle.hd_stores.specs.Stores.{uncommitted, CountsDevice};
ghost use Rattle.hd_dbd.specs.Refusals.{OnlyDevice};
ghost use Rattle.std.specs.Prelude.{◌≡◌, ◌≤◌, ◌<◌, [], length, IsTrue, IfOk, true, false};
ghost use Rattle.hd_bytes.specs.Blocks.{HasBlock};

use hd_dbd::Refused;
use hd_sample::put;
use hd_stores::{BlockStore, RunStore};
use std::alloc::{AllocError, Global};

/// A store in memory, of which no contract says anything: behind so many accesses one fails, and all others pass. An access is a read, a write or a growth.
#[derive(Drop)]
pub struct TestStore {
    pub bytes: Vec<u8>,
    /// How many accesses came, those that failed among them; and how many of these read one block, and how many several.
    pub accesses: u64,
    pub alone: u32,
    pub runs: u32,
    size: usize,
    passes: u64,
    failures: u32,
    room: u32,
    ghost some: { 0 < size },
    ghost small: { size ≤ 32768 },
}

impl TestStore {
    /// The store of these bytes, which fails the access behind so many.
    pub fn new(size: usize, bytes: Vec<u8>, passes: u64) -> TestStore
        requires some { 0 < size }
        requires small { size ≤ 32768 }
        ensures { result.size ≡ size }
    {
        TestStore {
            bytes,
            accesses: 0,
            alone: 0,
            runs: 0,
            size,
            passes,
            failures: 0,
            room: 0,
        }
    }

    /// Counts an access. `Device` says that it is one that fails.
    fn spend(&mut self) -> Result<(), Refused>
        ensures refusal { OnlyDevice result }
        ensures counts { CountsDevice result self.old.failures self.new.failures }
        ensures size { self.new.size ≡ self.old.size }
        ensures room { self.new.room ≡ self.old.room }
    {
        self.accesses = self.accesses.saturating_add(1);
        if self.passes == 0 && self.failures == 0 {
            self.failures += 1;
            return Err(Refused::Device);
        }
        self.passes = self.passes.saturating_sub(1);
        Ok(())
    }

    /// Copies the bytes from a block on.
    fn copy(&self, n: u32, buf: &mut [u8])
        ensures { length buf.new ≡ length buf.old }
    {
        let start = n as usize * self.size;
        put(buf, 0, self.bytes.get(start..).unwrap_or(&[]));
    }
}

impl BlockStore for TestStore {
    ghost size = { λ s. s.size };

    ghost contents = { λ _. [] };

    ghost is_sound = { λ _. false };

    ghost failures = { λ s. s.failures };

    ghost room = { λ s. s.room };

    ghost committed = { λ _. uncommitted };

    fn block_size(&self) -> usize {
        self.size
    }

    fn length(&self) -> u64 {
        self.bytes.len() as u64
    }

    fn read(&mut self, n: u32, buf: &mut [u8]) -> Result<(), Refused> {
        self.spend()?;
        self.alone = self.alone.saturating_add(1);
        self.copy(n, buf);
        Ok(())
    }

    fn write(&mut self, n: u32, bytes: &[u8]) -> Result<(), Refused> {
        self.spend()?;
        let start = self.bytes.len().min(n as usize * self.size);
        put(&mut self.bytes[start..], 0, bytes);
        Ok(())
    }

    fn reserve(&mut self, blocks: u32) -> Result<(), Refused> {
        if blocks <= self.room {
            return Ok(());
        }
        self.room = blocks;
        Ok(())
    }

    fn grow(&mut self, blocks: u32) -> Result<(), Refused> {
        self.spend()?;
        let length = self.bytes.len().saturating_add(blocks as usize * self.size);
        let _ = self.bytes.resize(length, 0);
        self.room = self.room.saturating_sub(blocks);
        Ok(())
    }
}

impl RunStore for TestStore {
    fn read_run(&mut self, n: u32, buf: &mut [u8]) -> Result<(), Refused> {
        self.spend()?;
        self.runs = self.runs.saturating_add(1);
        self.copy(n, buf);
        Ok(())
    }
}

/// A store of so many blocks of four zeros, and a piece of one, which fails the access behind so many.
pub fn zeros(alloc: Global, blocks: usize, passes: u64) -> Result<TestStore, AllocError>
    ensures { IfOk result (λ store. store.size ≡ 4) }
{
    let mut bytes = Vec::new(alloc);
    bytes.resize(blocks.saturating_mul(4).saturating_add(3), 0)?;
    Ok(TestStore::new(4, bytes, passes))
}

/// The store has blocks of four bytes and such a block.
fn has_block<S: BlockStore>(store: &S, n: u32) -> bool
    ensures size { result ≡ true → S.size store.now ≡ 4 }
    ensures there { result ≡ true → IsTrue (S.is_sound store.now) → HasBlock (S.size store.now) (S.contents store.now) n }
{
    store.block_size() == 4 && u64::from(n) * 4 + 4 <= store.length()
}

/// Reads a block of four bytes, or writes four equal ones. `Full` says that the store has no such block.
fn access<S: BlockStore>(store: &mut S, verb: u8, n: u32, byte: u8) -> Result<[u8; 4], Refused> {
    if !has_block(store, n) {
        return Err(Refused::Full);
    }
    let mut block = [byte; 4];
    if verb == b'w' {
        store.write(n, &block)?;
    } else {
        store.read(n, &mut block)?;
    }
    Ok(block)
}

/// A step of three bytes: what is done, a digit, which says to which block or for how many, and the byte that is written.
pub fn parts_of(step: &[u8]) -> (u8, u32, u8) {
    match step {
        [verb, digit, byte] => (*verb, u32::from(digit.wrapping_sub(b'0')), *byte),
        _ => (b' ', 0, 0),
    }
}

/// Takes a step, which `g`rows, reser`v`es, `w`rites or `r`eads, and answers the bytes of the block that it was at, points where it was at none.
pub fn take_step<S: BlockStore>(store: &mut S, step: &[u8]) -> Result<[u8; 4], Refused> {
    let (verb, n, byte) = parts_of(step);
    match verb {
        b'g' => store.grow(n)?,
        b'v' => store.reserve(n)?,
        _ => return access(store, verb, n, byte),
    }
    Ok([b'.'; 4])
}

/// A byte of the block that a step was at, or the letter of a refusal.
fn letter_of(answer: Result<[u8; 4], Refused>) -> u8 {
    match answer {
        Ok(block) => block[0],
        Err(Refused::Device) => b'd',
        Err(Refused::Full) => b'F',
        Err(Refused::Memory) => b'M',
        Err(_) => b'?',
    }
}

/// What a store answers to steps: a byte of the block for each, a point where it was at none, and a letter where it is refused.
pub fn answers_of<S: BlockStore>(store: &mut S, steps: &[u8]) -> [u8; 8] {
    let mut answers = [b' '; 8];
    for (place, step) in steps.chunks(3).enumerate() {
        let answer = letter_of(take_step(store, step));
        if let Some(own) = answers.get_mut(place) {
            *own = answer;
        }
    }
    answers
}

/// Takes steps in a store and in a plain one, each once more where it answers `Device`, and says how many did so; `None` where the two
/// answer otherwise.
pub fn failures_of<S: BlockStore>(
    store: &mut S,
    plain: &mut TestStore,
    steps: &[u8],
) -> Option<u32> {
    let mut failures = 0u32;
    for step in steps.chunks(3) {
        let mut answer = take_step(store, step);
        if answer == Err(Refused::Device) {
            failures = failures.saturating_add(1);
            answer = take_step(store, step);
        }
        if answer != take_step(plain, step) || store.length() != plain.length() {
            return None;
        }
    }
    Some(failures)
}
