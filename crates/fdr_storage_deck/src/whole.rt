//! Reads and writes of whole ranges, however many calls they take.

ghost use Rattle.std.specs.Prelude.{◌≡◌, ◌+◌, ◌^◌, ◌<◌, ◌≤◌, length, replicate, slice_range, OnOk, OnErr, IsTrue};
ghost use Rattle.fdr_storage.specs.Calls.{Keeps, KeepsMarks, Goes, WritesFile, TearsFile};
ghost use Rattle.fdr_storage_deck.specs.Causes.{GaveUp, NoneFailed};
ghost use Rattle.fdr_storage_deck.specs.Runs.{FillsPart};

use crate::tries::{grow, read_some, write_some};
use fdr_io::Failed;
use fdr_storage::Storage;

// Zeros are put by the page.
const PAGE: u64 = 4_096;

/// Writes all these bytes over those from `at` on. `Failed` leaves any bytes there, all of them pending.
pub fn write_whole<S: Storage>(storage: &mut S, at: u64, bytes: &[u8]) -> Result<(), Failed>
    requires fits { at + length bytes.now < 2 ^ 64 }
    requires within { IsTrue S.tells.bytes → at + length bytes.now ≤ length (S.disk storage.old).held }
    ensures writes { OnOk result (WritesFile S.tells at bytes.now (S.disk storage.old) (S.disk storage.new)) }
    ensures tears { TearsFile S.tells at (length bytes.now) (S.disk storage.old) (S.disk storage.new) }
    ensures whole { (S.disk storage.new).whole ≡ (S.disk storage.old).whole }
    ensures goes { Goes S.tells (S.disk storage.old) (S.disk storage.new) }
    ensures no_fault { OnOk result (NoneFailed S.tells (S.disk storage.old) (S.disk storage.new)) }
    ensures cause { OnErr result (GaveUp S.tells (S.disk storage.old) (S.disk storage.new)) }
{
    let mut sent = 0;
    while sent < bytes.len() {
        let count = write_some(storage, at + sent as u64, &bytes[sent..])?;
        if count == 0 {
            return Err(Failed);
        }
        sent += count;
    }
    Ok(())
}

/// Fills the buffer with the bytes from `at` on.
pub fn read_whole<S: Storage>(storage: &mut S, at: u64, buf: &mut [u8]) -> Result<(), Failed>
    requires fits { at + length buf.old < 2 ^ 64 }
    requires within { IsTrue S.tells.bytes → at + length buf.old ≤ length (S.disk storage.old).held }
    ensures reads { OnOk result (IsTrue S.tells.bytes → buf.new ≡ slice_range (S.disk storage.old).held at (at + length buf.new)) }
    ensures disk { Keeps (S.disk storage.old) (S.disk storage.new) }
    ensures marks { KeepsMarks (S.disk storage.old) (S.disk storage.new) }
    ensures goes { Goes S.tells (S.disk storage.old) (S.disk storage.new) }
    ensures no_fault { OnOk result (NoneFailed S.tells (S.disk storage.old) (S.disk storage.new)) }
    ensures cause { OnErr result (GaveUp S.tells (S.disk storage.old) (S.disk storage.new)) }
{
    let mut done = 0;
    while done < buf.len() {
        let count = read_some(storage, at + done as u64, &mut buf[done..])?;
        if count == 0 {
            return Err(Failed);
        }
        done += count;
    }
    Ok(())
}

/// Puts this many zeros into an empty file, a page at a time. `Failed` may have put some.
pub fn fill<S: Storage>(storage: &mut S, size: u64) -> Result<(), Failed>
    requires { IsTrue S.tells.bytes → length (S.disk storage.old).held ≡ 0 }
    ensures filled { OnOk result (IsTrue S.tells.bytes → (S.disk storage.new).held ≡ replicate size 0) }
    ensures begins { FillsPart S.tells size (S.disk storage.old) (S.disk storage.new) }
    ensures goes { Goes S.tells (S.disk storage.old) (S.disk storage.new) }
    ensures no_fault { OnOk result (NoneFailed S.tells (S.disk storage.old) (S.disk storage.new)) }
    ensures cause { OnErr result (GaveUp S.tells (S.disk storage.old) (S.disk storage.new)) }
{
    let mut done = 0;
    while done < size {
        let count = (size - done).min(PAGE) as usize;
        let grown = grow(storage, done, count)?;
        if grown == 0 {
            return Err(Failed);
        }
        done += grown as u64;
    }
    Ok(())
}
