ghost use Rattle.std.specs.Prelude.{◌≡◌, ◌≤◌, ℕ, Bool, IsTrue, List, length, IfOk, OnOk, OnErr};
ghost use Rattle.hd_bytes.specs.Ranges.{bytes_at};
ghost use Rattle.hd_journal.specs.Disk.{State, WritesLog, WritesVolume, CutsVolume, Syncs, Marks, HasLog, HasVolume, HasZeros};

/// A call of a disk failed. What stands in its files is known no more, but for what a crash may leave.
#[derive(Clone, Copy, Debug, PartialEq, Eq)]
pub struct Failed;

/// Two files, a volume and its log, as reads and crashes see them.
///
/// After a call that failed no write, sync or change of the length may be asked.
pub trait Disk {
    /// It returns what was written, and a crash leaves what the model of a disk says. Nothing is said of the bytes of a disk that is not honest.
    ghost is_honest: { Bool };

    /// No call has failed.
    ghost is_usable: { Self → Bool };

    /// The bytes of both files, and what crashes may leave of them.
    ghost state: { Self → State };

    /// The device and the number there of the volume's file, by which its log knows it.
    fn identity(&self) -> (u64, u64);

    /// The bytes of the log.
    fn log_len(&self) -> Result<u64, Failed>
        ensures len { IfOk result (λ n. IsTrue is_honest → n ≡ length (state self.now).log) };

    /// The bytes of the volume.
    fn volume_len(&self) -> Result<u64, Failed>
        ensures len { IfOk result (λ n. IsTrue is_honest → n ≡ length (state self.now).volume) };

    /// Fills `buf` with the bytes of the log from byte `at` on.
    fn read_log(&self, at: u64, buf: &mut [u8]) -> Result<(), Failed>
        ensures len { length buf.new ≡ length buf.old }
        ensures value { OnOk result (IsTrue is_honest → buf.new ≡ bytes_at (state self.now).log at (length buf.old)) };

    /// Fills `buf` with the bytes of the volume from byte `at` on.
    fn read_volume(&self, at: u64, buf: &mut [u8]) -> Result<(), Failed>
        ensures len { length buf.new ≡ length buf.old }
        ensures value { OnOk result (IsTrue is_honest → buf.new ≡ bytes_at (state self.now).volume at (length buf.old)) };

    /// Writes `bytes` to the log from byte `at` on, which may be its end.
    fn write_log(&mut self, at: u64, bytes: &[u8]) -> Result<(), Failed>
        requires { IsTrue (is_usable self.old) }
        ensures usable { OnOk result (IsTrue (is_usable self.new)) }
        ensures value { OnOk result (IsTrue is_honest → bytes_at (state self.new).log at (length bytes.now) ≡ bytes.now) }
        ensures writes { IsTrue is_honest → WritesLog at (length bytes.now) (state self.old) (state self.new) };

    /// Writes `bytes` to the volume from byte `at` on, which may be its end.
    fn write_volume(&mut self, at: u64, bytes: &[u8]) -> Result<(), Failed>
        requires { IsTrue (is_usable self.old) }
        ensures usable { OnOk result (IsTrue (is_usable self.new)) }
        ensures value { OnOk result (IsTrue is_honest → bytes_at (state self.new).volume at (length bytes.now) ≡ bytes.now) }
        ensures writes { IsTrue is_honest → WritesVolume at (length bytes.now) (state self.old) (state self.new) };

    /// Makes the volume so many bytes long, with zeros behind its old end.
    fn set_volume_len(&mut self, len: u64) -> Result<(), Failed>
        requires { IsTrue (is_usable self.old) }
        ensures usable { OnOk result (IsTrue (is_usable self.new)) }
        ensures value { OnOk result (IsTrue is_honest → length (state self.new).volume ≡ len) }
        ensures zeros { OnOk result (IsTrue is_honest → HasZeros (length (state self.old).volume) len (state self.new).volume) }
        ensures cuts { IsTrue is_honest → CutsVolume len (state self.old) (state self.new) };

    /// Puts the log on the disk.
    fn sync_log(&mut self) -> Result<(), Failed>
        requires { IsTrue (is_usable self.old) }
        ensures usable { OnOk result (IsTrue (is_usable self.new)) }
        ensures durable { OnOk result (IsTrue is_honest → HasLog (state self.new)) }
        ensures syncs { IsTrue is_honest → Syncs (state self.old) (state self.new) };

    /// Puts the volume on the disk.
    fn sync_volume(&mut self) -> Result<(), Failed>
        requires { IsTrue (is_usable self.old) }
        ensures usable { OnOk result (IsTrue (is_usable self.new)) }
        ensures durable { OnOk result (IsTrue is_honest → HasVolume (state self.new)) }
        ensures syncs { IsTrue is_honest → Syncs (state self.old) (state self.new) };

    /// A commit is done, the first of a journal or one more. There is nothing to do: what a crash leaves, and since which commit, is for the proof alone.
    fn mark(&mut self, is_first: bool) -> Result<(), Failed>
        requires { IsTrue (is_usable self.old) }
        ensures usable { OnOk result (IsTrue (is_usable self.new)) }
        ensures marks { OnOk result (IsTrue is_honest → Marks is_first (state self.old) (state self.new)) }
        ensures fails { OnErr result (IsTrue is_honest → Syncs (state self.old) (state self.new)) };

    /// A process that dies leaves what it had written, so that is one of the outcomes.
    ghost seen_may_stay: { (disk : Self) → (state disk).may_leave (state disk).log (state disk).volume };

    /// This moment is one of those since an earlier one.
    ghost counts_now: { (disk : Self) (t : ℕ) (l v : List ℕ) → t ≤ (state disk).moment → (state disk).may_leave l v → (state disk).left_since t l v };

    /// Since this moment there is no other.
    ghost only_now: { (disk : Self) (l v : List ℕ) → (state disk).left_since (state disk).moment l v → (state disk).may_leave l v };
}
