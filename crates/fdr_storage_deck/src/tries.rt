//! A call of a storage, made again where a signal interrupted it.

ghost use Rattle.std.specs.Prelude.{◌≡◌, ◌+◌, ◌^◌, ◌<◌, ◌≤◌, ◌++◌, List, ℕ, length, take, drop, replicate, IfOk, OnOk, OnErr, IsTrue};
ghost use Rattle.fdr_io.specs.Told.{Gives};
ghost use Rattle.fdr_storage.specs.Calls.{Keeps, KeepsMarks, Goes, ReadsFile, WritesFile, TearsFile, GrowsFile, IsFileSettled};
ghost use Rattle.fdr_storage_deck.specs.Causes.{GaveUp, NoneFailed};

use fdr_io::Failed;
use fdr_storage::{Outlet, Refusal, Storage, Stream};

/// The length of the file.
pub fn length<S: Storage>(storage: &mut S) -> Result<u64, Failed>
    ensures answer { IfOk result (λ n. IsTrue S.tells.bytes → n ≡ length (S.disk storage.old).held) }
    ensures disk { Keeps (S.disk storage.old) (S.disk storage.new) }
    ensures marks { KeepsMarks (S.disk storage.old) (S.disk storage.new) }
    ensures goes { Goes S.tells (S.disk storage.old) (S.disk storage.new) }
    ensures no_fault { OnOk result (NoneFailed S.tells (S.disk storage.old) (S.disk storage.new)) }
    ensures cause { OnErr result (GaveUp S.tells (S.disk storage.old) (S.disk storage.new)) }
{
    for _attempt in 0..u64::MAX {
        match storage.length() {
            Ok(length) => return Ok(length),
            Err(Refusal::Failed) => return Err(Failed),
            Err(Refusal::Interrupted) => {}
        }
    }
    Err(Failed)
}

/// Puts bytes of the file from `at` on at the front of the buffer, and answers how many.
pub fn read_some<S: Storage>(storage: &mut S, at: u64, buf: &mut [u8]) -> Result<usize, Failed>
    ensures bound { IfOk result (λ n. n ≤ length buf.new) }
    ensures reads { IfOk result (λ n. IsTrue S.tells.bytes → ReadsFile at n (S.disk storage.old).held buf.new) }
    ensures disk { Keeps (S.disk storage.old) (S.disk storage.new) }
    ensures marks { KeepsMarks (S.disk storage.old) (S.disk storage.new) }
    ensures goes { Goes S.tells (S.disk storage.old) (S.disk storage.new) }
    ensures no_fault { OnOk result (NoneFailed S.tells (S.disk storage.old) (S.disk storage.new)) }
    ensures cause { OnErr result (GaveUp S.tells (S.disk storage.old) (S.disk storage.new)) }
{
    for _attempt in 0..u64::MAX {
        match storage.read_at(at, buf) {
            Ok(count) => return Ok(count),
            Err(Refusal::Failed) => return Err(Failed),
            Err(Refusal::Interrupted) => {}
        }
    }
    Err(Failed)
}

/// Writes the first of these bytes over those of the file from `at` on, and answers how many.
pub fn write_some<S: Storage>(storage: &mut S, at: u64, bytes: &[u8]) -> Result<usize, Failed>
    requires { IsTrue S.tells.bytes → at + length bytes.now ≤ length (S.disk storage.old).held }
    ensures bound { IfOk result (λ n. n ≤ length bytes.now) }
    ensures some { IfOk result (λ n. IsTrue S.tells.bytes → 0 < length bytes.now → 0 < n) }
    ensures writes { IfOk result (λ n. WritesFile S.tells at (take n bytes.now) (S.disk storage.old) (S.disk storage.new)) }
    ensures tears { TearsFile S.tells at (length bytes.now) (S.disk storage.old) (S.disk storage.new) }
    ensures whole { (S.disk storage.new).whole ≡ (S.disk storage.old).whole }
    ensures goes { Goes S.tells (S.disk storage.old) (S.disk storage.new) }
    ensures no_fault { OnOk result (NoneFailed S.tells (S.disk storage.old) (S.disk storage.new)) }
    ensures cause { OnErr result (GaveUp S.tells (S.disk storage.old) (S.disk storage.new)) }
{
    for _attempt in 0..u64::MAX {
        match storage.write_at(at, bytes) {
            Ok(count) => return Ok(count),
            Err(Refusal::Failed) => return Err(Failed),
            Err(Refusal::Interrupted) => {}
        }
    }
    Err(Failed)
}

/// Puts zeros at the end of a file of zeros, and answers how many.
pub fn grow<S: Storage>(storage: &mut S, at: u64, count: usize) -> Result<usize, Failed>
    requires page { count ≤ 4096 }
    requires fits { at + count < 2 ^ 64 }
    requires zeros { IsTrue S.tells.bytes → (S.disk storage.old).held ≡ replicate at 0 }
    ensures bound { IfOk result (λ n. n ≤ count) }
    ensures some { IfOk result (λ n. IsTrue S.tells.bytes → 0 < count → 0 < n) }
    ensures grown { IfOk result (λ n. IsTrue S.tells.bytes → (S.disk storage.new).held ≡ replicate (at + n) 0) }
    ensures grows { GrowsFile S.tells at count (S.disk storage.old) (S.disk storage.new) }
    ensures goes { Goes S.tells (S.disk storage.old) (S.disk storage.new) }
    ensures no_fault { OnOk result (NoneFailed S.tells (S.disk storage.old) (S.disk storage.new)) }
    ensures cause { OnErr result (GaveUp S.tells (S.disk storage.old) (S.disk storage.new)) }
{
    for _attempt in 0..u64::MAX {
        match storage.grow(at, count) {
            Ok(grown) => return Ok(grown),
            Err(Refusal::Failed) => return Err(Failed),
            Err(Refusal::Interrupted) => {}
        }
    }
    Err(Failed)
}

/// Makes durable what was written, where the length and the name are. `Failed` leaves all that was pending pending.
pub fn sync<S: Storage>(storage: &mut S) -> Result<(), Failed>
    ensures settles { OnOk result (IsTrue S.tells.stops → IsTrue (S.disk storage.old).whole → IsFileSettled (S.disk storage.new)) }
    ensures held { (S.disk storage.new).held ≡ (S.disk storage.old).held }
    ensures no_more { (image : List ℕ) → (S.disk storage.new).may_leave image → (S.disk storage.old).may_leave image }
    ensures pending { OnErr result (Keeps (S.disk storage.old) (S.disk storage.new)) }
    ensures marks { KeepsMarks (S.disk storage.old) (S.disk storage.new) }
    ensures goes { Goes S.tells (S.disk storage.old) (S.disk storage.new) }
    ensures no_fault { OnOk result (NoneFailed S.tells (S.disk storage.old) (S.disk storage.new)) }
    ensures cause { OnErr result (GaveUp S.tells (S.disk storage.old) (S.disk storage.new)) }
{
    for _attempt in 0..u64::MAX {
        match storage.sync() {
            Ok(()) => return Ok(()),
            Err(Refusal::Failed) => return Err(Failed),
            Err(Refusal::Interrupted) => {}
        }
    }
    Err(Failed)
}

/// Makes durable the bytes and the length.
pub fn sync_all<S: Storage>(storage: &mut S) -> Result<(), Failed>
    ensures flushes { OnOk result (IsTrue S.tells.stops → IsTrue (S.disk storage.new).flushed) }
    ensures disk { Keeps (S.disk storage.old) (S.disk storage.new) }
    ensures whole { (S.disk storage.new).whole ≡ (S.disk storage.old).whole }
    ensures goes { Goes S.tells (S.disk storage.old) (S.disk storage.new) }
    ensures no_fault { OnOk result (NoneFailed S.tells (S.disk storage.old) (S.disk storage.new)) }
    ensures cause { OnErr result (GaveUp S.tells (S.disk storage.old) (S.disk storage.new)) }
{
    for _attempt in 0..u64::MAX {
        match storage.sync_all() {
            Ok(()) => return Ok(()),
            Err(Refusal::Failed) => return Err(Failed),
            Err(Refusal::Interrupted) => {}
        }
    }
    Err(Failed)
}

/// Makes durable the name of the file. `Failed` leaves all that was pending pending.
pub fn sync_name<S: Storage>(storage: &mut S) -> Result<(), Failed>
    ensures settles { OnOk result (IsTrue S.tells.stops → IsTrue (S.disk storage.old).flushed → IsFileSettled (S.disk storage.new)) }
    ensures whole { OnOk result (IsTrue S.tells.stops → IsTrue (S.disk storage.old).flushed → IsTrue (S.disk storage.new).whole) }
    ensures held { (S.disk storage.new).held ≡ (S.disk storage.old).held }
    ensures no_more { (image : List ℕ) → (S.disk storage.new).may_leave image → (S.disk storage.old).may_leave image }
    ensures pending { OnErr result (Keeps (S.disk storage.old) (S.disk storage.new)) }
    ensures marks { OnErr result (KeepsMarks (S.disk storage.old) (S.disk storage.new)) }
    ensures goes { Goes S.tells (S.disk storage.old) (S.disk storage.new) }
    ensures no_fault { OnOk result (NoneFailed S.tells (S.disk storage.old) (S.disk storage.new)) }
    ensures cause { OnErr result (GaveUp S.tells (S.disk storage.old) (S.disk storage.new)) }
{
    for _attempt in 0..u64::MAX {
        match storage.sync_name() {
            Ok(()) => return Ok(()),
            Err(Refusal::Failed) => return Err(Failed),
            Err(Refusal::Interrupted) => {}
        }
    }
    Err(Failed)
}

/// Puts the next bytes of the stream at the front of the buffer, and answers how many.
pub fn read_on<I: Stream>(stream: &mut I, buf: &mut [u8]) -> Result<usize, Failed>
    requires { 0 < length buf.old }
    ensures bound { IfOk result (λ n. n ≤ length buf.new) }
    ensures given { IfOk result (λ n. IsTrue I.tells → Gives (I.rest stream.old) buf.new n) }
    ensures left { IfOk result (λ n. IsTrue I.tells → I.rest stream.new ≡ drop n (I.rest stream.old)) }
    ensures kept { OnErr result (I.rest stream.new ≡ I.rest stream.old) }
{
    for _attempt in 0..u64::MAX {
        match stream.read(buf) {
            Ok(count) => return Ok(count),
            Err(Refusal::Failed) => return Err(Failed),
            Err(Refusal::Interrupted) => {}
        }
    }
    Err(Failed)
}

/// Opens the stream.
pub fn open_stream<I: Stream>(stream: &mut I) -> Result<(), Failed>
    ensures { I.rest stream.new ≡ I.rest stream.old }
{
    for _attempt in 0..u64::MAX {
        match stream.open() {
            Ok(()) => return Ok(()),
            Err(Refusal::Failed) => return Err(Failed),
            Err(Refusal::Interrupted) => {}
        }
    }
    Err(Failed)
}

/// Writes the first of these bytes to the outlet, and answers how many. One that takes none fails.
pub fn write_on<O: Outlet>(outlet: &mut O, bytes: &[u8]) -> Result<usize, Failed>
    requires { 0 < length bytes.now }
    ensures some { IfOk result (λ n. 0 < n) }
    ensures bound { IfOk result (λ n. n ≤ length bytes.now) }
    ensures taken { IfOk result (λ n. IsTrue O.tells → O.written outlet.new ≡ O.written outlet.old ++ take n bytes.now) }
    ensures kept { OnErr result (IsTrue O.tells → O.written outlet.new ≡ O.written outlet.old) }
{
    for _attempt in 0..u64::MAX {
        match outlet.write(bytes) {
            Ok(0) => return Err(Failed),
            Ok(count) => return Ok(count),
            Err(Refusal::Failed) => return Err(Failed),
            Err(Refusal::Interrupted) => {}
        }
    }
    Err(Failed)
}
