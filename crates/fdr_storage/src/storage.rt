//! What a storage does.

ghost use Rattle.std.specs.Prelude.{◌≡◌, ◌+◌, ◌^◌, ◌<◌, ◌≤◌, List, ℕ, length, take, replicate, IfOk, IfErr, OnOk, OnErr, IsTrue};
ghost use Rattle.fdr_storage.specs.Disk.{Told, StoredFile, IsSoundDisk, span_of};
ghost use Rattle.fdr_storage.specs.Calls.{Keeps, KeepsMarks, StartsCall, IsUnstarted, Goes, HasSameCounts, HasCallCause, IsUndone, ReadsFile, WritesFile, TearsFile, GrowsFile, IsFileSettled};

use crate::{Numbers, Refusal};
use fdr_io::Failed;

/// A file, by the calls of the system. Each call may fail or be interrupted, and a read or a write may come short. It may
/// stop at any moment: until a sync succeeds, a stop may leave any bytes in the ranges that were written since the last
/// one that did.
pub trait Storage {
    // What storages of this kind tell.
    ghost tells: { Told };

    // What the storage means now.
    ghost disk: { Self → StoredFile };

    /// A call of what stands above begins, with these numbers, which a stop from now on finds until the next one begins.
    /// Nothing is asked of the system.
    fn begin(&mut self, numbers: Numbers) -> Result<(), Failed>
        ensures disk { Keeps (disk self.old) (disk self.new) }
        ensures marks { KeepsMarks (disk self.old) (disk self.new) }
        ensures starts { OnOk result (StartsCall tells numbers (disk self.old) (disk self.new)) }
        ensures unstarted { OnErr result (IsUnstarted tells (disk self.old) (disk self.new)) }
        ensures no_fault { OnOk result (HasSameCounts (disk self.old) (disk self.new)) }
        ensures cause { OnErr result (HasCallCause tells Refusal.Failed (disk self.old) (disk self.new)) };

    /// The length of the file.
    fn length(&mut self) -> Result<u64, Refusal>
        ensures answer { IfOk result (λ n. IsTrue tells.bytes → n ≡ length (disk self.old).held) }
        ensures disk { Keeps (disk self.old) (disk self.new) }
        ensures marks { KeepsMarks (disk self.old) (disk self.new) }
        ensures goes { Goes tells (disk self.old) (disk self.new) }
        ensures no_fault { OnOk result (HasSameCounts (disk self.old) (disk self.new)) }
        ensures cause { IfErr result (λ refusal. HasCallCause tells refusal (disk self.old) (disk self.new)) };

    /// Puts bytes of the file from `at` on at the front of the buffer, and answers how many: at least one where there is
    /// one and the buffer has room.
    fn read_at(&mut self, at: u64, buf: &mut [u8]) -> Result<usize, Refusal>
        ensures bound { IfOk result (λ n. n ≤ length buf.new) }
        ensures reads { IfOk result (λ n. IsTrue tells.bytes → ReadsFile at n (disk self.old).held buf.new) }
        ensures disk { Keeps (disk self.old) (disk self.new) }
        ensures marks { KeepsMarks (disk self.old) (disk self.new) }
        ensures goes { Goes tells (disk self.old) (disk self.new) }
        ensures no_fault { OnOk result (HasSameCounts (disk self.old) (disk self.new)) }
        ensures cause { IfErr result (λ refusal. HasCallCause tells refusal (disk self.old) (disk self.new)) };

    /// Writes the first of these bytes over those of the file from `at` on, and answers how many: at least one where there
    /// is one. Until a sync succeeds, a stop may leave any bytes where they were to go. One that failed may have written
    /// there.
    fn write_at(&mut self, at: u64, bytes: &[u8]) -> Result<usize, Refusal>
        requires { IsTrue tells.bytes → at + length bytes.now ≤ length (disk self.old).held }
        ensures bound { IfOk result (λ n. n ≤ length bytes.now) }
        ensures some { IfOk result (λ n. IsTrue tells.bytes → 0 < length bytes.now → 0 < n) }
        ensures writes { IfOk result (λ n. WritesFile tells at (take n bytes.now) (disk self.old) (disk self.new)) }
        ensures tears { TearsFile tells at (length bytes.now) (disk self.old) (disk self.new) }
        ensures whole { (disk self.new).whole ≡ (disk self.old).whole }
        ensures undone { IfErr result (λ refusal. IsUndone refusal (disk self.old) (disk self.new)) }
        ensures goes { Goes tells (disk self.old) (disk self.new) }
        ensures no_fault { OnOk result (HasSameCounts (disk self.old) (disk self.new)) }
        ensures cause { IfErr result (λ refusal. HasCallCause tells refusal (disk self.old) (disk self.new)) };

    /// Puts zeros at the end of a file of zeros, and answers how many: at least one where there is one. One that failed may
    /// have put some.
    fn grow(&mut self, at: u64, count: usize) -> Result<usize, Refusal>
        requires page { count ≤ 4096 }
        requires fits { at + count < 2 ^ 64 }
        requires zeros { IsTrue tells.bytes → (disk self.old).held ≡ replicate at 0 }
        ensures bound { IfOk result (λ n. n ≤ count) }
        ensures some { IfOk result (λ n. IsTrue tells.bytes → 0 < count → 0 < n) }
        ensures grown { IfOk result (λ n. IsTrue tells.bytes → (disk self.new).held ≡ replicate (at + n) 0) }
        ensures grows { GrowsFile tells at count (disk self.old) (disk self.new) }
        ensures undone { IfErr result (λ refusal. IsUndone refusal (disk self.old) (disk self.new)) }
        ensures goes { Goes tells (disk self.old) (disk self.new) }
        ensures no_fault { OnOk result (HasSameCounts (disk self.old) (disk self.new)) }
        ensures cause { IfErr result (λ refusal. HasCallCause tells refusal (disk self.old) (disk self.new)) };

    /// Makes durable what was written, where the length and the name are. One that did nothing leaves all that was pending
    /// pending.
    fn sync(&mut self) -> Result<(), Refusal>
        ensures settles { OnOk result (IsTrue tells.stops → IsTrue (disk self.old).whole → IsFileSettled (disk self.new)) }
        ensures held { (disk self.new).held ≡ (disk self.old).held }
        ensures no_more { (image : List ℕ) → (disk self.new).may_leave image → (disk self.old).may_leave image }
        ensures pending { OnErr result (Keeps (disk self.old) (disk self.new)) }
        ensures marks { KeepsMarks (disk self.old) (disk self.new) }
        ensures goes { Goes tells (disk self.old) (disk self.new) }
        ensures no_fault { OnOk result (HasSameCounts (disk self.old) (disk self.new)) }
        ensures cause { IfErr result (λ refusal. HasCallCause tells refusal (disk self.old) (disk self.new)) };

    /// Makes durable the bytes and the length. Nothing is claimed until the name is durable too.
    fn sync_all(&mut self) -> Result<(), Refusal>
        ensures flushes { OnOk result (IsTrue tells.stops → IsTrue (disk self.new).flushed) }
        ensures disk { Keeps (disk self.old) (disk self.new) }
        ensures undone { IfErr result (λ refusal. IsUndone refusal (disk self.old) (disk self.new)) }
        ensures whole { (disk self.new).whole ≡ (disk self.old).whole }
        ensures goes { Goes tells (disk self.old) (disk self.new) }
        ensures no_fault { OnOk result (HasSameCounts (disk self.old) (disk self.new)) }
        ensures cause { IfErr result (λ refusal. HasCallCause tells refusal (disk self.old) (disk self.new)) };

    /// Makes durable the name of the file, in its folder. Where the bytes and the length are, all is.
    fn sync_name(&mut self) -> Result<(), Refusal>
        ensures settles { OnOk result (IsTrue tells.stops → IsTrue (disk self.old).flushed → IsFileSettled (disk self.new)) }
        ensures whole { OnOk result (IsTrue tells.stops → IsTrue (disk self.old).flushed → IsTrue (disk self.new).whole) }
        ensures held { (disk self.new).held ≡ (disk self.old).held }
        ensures no_more { (image : List ℕ) → (disk self.new).may_leave image → (disk self.old).may_leave image }
        ensures pending { OnErr result (Keeps (disk self.old) (disk self.new)) }
        ensures marks { OnErr result (KeepsMarks (disk self.old) (disk self.new)) }
        ensures goes { Goes tells (disk self.old) (disk self.new) }
        ensures no_fault { OnOk result (HasSameCounts (disk self.old) (disk self.new)) }
        ensures cause { IfErr result (λ refusal. HasCallCause tells refusal (disk self.old) (disk self.new)) };

    // What holds of each storage.
    ghost sound: { (storage : Self) → IsSoundDisk tells (disk storage) };
}
