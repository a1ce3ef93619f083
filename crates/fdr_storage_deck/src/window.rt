//! Bytes that are read ahead.

ghost use Rattle.std.specs.Prelude.{◌≡◌, ◌+◌, ◌^◌, ◌<◌, ◌≤◌, List, ℕ, length, slice_range, IfOk, OnOk, OnErr, IsTrue};
ghost use Rattle.fdr_storage.specs.Calls.{Keeps, KeepsMarks, Goes};
ghost use Rattle.fdr_storage_deck.specs.Causes.{GaveUp, NoneFailed};
ghost use Rattle.fdr_storage_deck.specs.Windows.{IsStretch};

use crate::tries::read_some;
use crate::whole::read_whole;
use fdr_io::Failed;
use fdr_storage::Storage;
use std::alloc::{AllocError, Global};

/// How many bytes are read ahead at most.
pub const AHEAD: usize = 65_536;

// How far apart two reads may be for what lies that way to be read ahead: a page, which the system reads whole.
const NEAR: u64 = 4_096;

/// A stretch of a file as it was read last.
#[derive(Drop)]
pub struct Window {
    room: Vec<u8>,
    at: u64,
    len: usize,
    // Where the last read began and ended.
    first: u64,
    last: u64,
    ghost within: { len ≤ length room.items },
}

impl Window {
    /// A window over nothing yet.
    pub fn new(alloc: Global) -> Result<Window, AllocError>
        ensures { IfOk result (λ w. (held : List ℕ) → IsStretch held w.at w.room.items w.len) }
    {
        let room = vec![in alloc; 0; AHEAD]?;
        Ok(Window {
            room,
            at: 0,
            len: 0,
            first: 0,
            last: 0,
        })
    }

    /// Fills the buffer with the file's bytes from `at` on.
    pub fn read<S: Storage>(
        &mut self,
        storage: &mut S,
        at: u64,
        buf: &mut [u8],
    ) -> Result<(), Failed>
        requires seen { IsTrue S.tells.bytes → IsStretch (S.disk storage.old).held self.old.at self.old.room.items self.old.len }
        requires fits { at + length buf.old < 2 ^ 64 }
        requires within { IsTrue S.tells.bytes → at + length buf.old ≤ length (S.disk storage.old).held }
        ensures reads { OnOk result (IsTrue S.tells.bytes → buf.new ≡ slice_range (S.disk storage.old).held at (at + length buf.new)) }
        ensures seen { IsTrue S.tells.bytes → IsStretch (S.disk storage.new).held self.new.at self.new.room.items self.new.len }
        ensures disk { Keeps (S.disk storage.old) (S.disk storage.new) }
        ensures marks { KeepsMarks (S.disk storage.old) (S.disk storage.new) }
        ensures goes { Goes S.tells (S.disk storage.old) (S.disk storage.new) }
        ensures no_fault { OnOk result (NoneFailed S.tells (S.disk storage.old) (S.disk storage.new)) }
        ensures cause { OnErr result (GaveUp S.tells (S.disk storage.old) (S.disk storage.new)) }
    {
        if self.read_ahead(storage, at, buf)? {
            return Ok(());
        }
        read_whole(storage, at, buf)
    }

    /// Fills the buffer from the window, which may be read anew, if all of the bytes are there. Answers whether it did.
    fn read_ahead<S: Storage>(
        &mut self,
        storage: &mut S,
        at: u64,
        buf: &mut [u8],
    ) -> Result<bool, Failed>
        requires { IsTrue S.tells.bytes → IsStretch (S.disk storage.old).held self.old.at self.old.room.items self.old.len }
        ensures reads { IfOk result (λ given. IsTrue given → IsTrue S.tells.bytes
            → buf.new ≡ slice_range (S.disk storage.old).held at (at + length buf.new)) }
        ensures seen { IsTrue S.tells.bytes → IsStretch (S.disk storage.new).held self.new.at self.new.room.items self.new.len }
        ensures disk { Keeps (S.disk storage.old) (S.disk storage.new) }
        ensures marks { KeepsMarks (S.disk storage.old) (S.disk storage.new) }
        ensures goes { Goes S.tells (S.disk storage.old) (S.disk storage.new) }
        ensures no_fault { OnOk result (NoneFailed S.tells (S.disk storage.old) (S.disk storage.new)) }
        ensures cause { OnErr result (GaveUp S.tells (S.disk storage.old) (S.disk storage.new)) }
    {
        let start = self.start_for(at, buf.len());
        self.first = at;
        self.last = at.saturating_add(buf.len() as u64);
        if self.give(at, buf) {
            return Ok(true);
        }
        match start {
            Some(start) if buf.len() < self.room.len() => self.fill(storage, start)?,
            _ => return Ok(false),
        }
        let given = self.give(at, buf);
        Ok(given)
    }

    /// Where the stretch begins that has these bytes, and the next ones where reads go on, or the ones before where they go
    /// back: then as many steps before as there is room for, so that it begins with a byte that a read asks for in its turn.
    fn start_for(&self, at: u64, len: usize) -> Option<u64> {
        if matches!(at.checked_sub(self.last), Some(gap) if gap <= NEAR) {
            return Some(at);
        }
        let before = self.room.len().saturating_sub(len) as u64;
        match self.first.checked_sub(at) {
            Some(step) if step > 0 && step.saturating_sub(len as u64) <= NEAR => {
                Some(at.saturating_sub(before.saturating_sub(before % step)))
            }
            _ => None,
        }
    }

    /// Reads the stretch that begins here. Where that fails the window is over nothing. The system gives what comes before a
    /// place that it can't read, so that an error is one of the first byte.
    fn fill<S: Storage>(&mut self, storage: &mut S, at: u64) -> Result<(), Failed>
        ensures seen { IsTrue S.tells.bytes → IsStretch (S.disk storage.new).held self.new.at self.new.room.items self.new.len }
        ensures disk { Keeps (S.disk storage.old) (S.disk storage.new) }
        ensures marks { KeepsMarks (S.disk storage.old) (S.disk storage.new) }
        ensures goes { Goes S.tells (S.disk storage.old) (S.disk storage.new) }
        ensures no_fault { OnOk result (NoneFailed S.tells (S.disk storage.old) (S.disk storage.new)) }
        ensures cause { OnErr result (GaveUp S.tells (S.disk storage.old) (S.disk storage.new)) }
    {
        self.at = at;
        self.len = 0;
        self.len = read_some(storage, at, &mut self.room)?;
        Ok(())
    }

    /// Fills the buffer with the bytes from `at` on, if all of them are in the window.
    fn give(&self, at: u64, buf: &mut [u8]) -> bool
        ensures { IsTrue result → (held : List ℕ) → IsStretch held self.now.at self.now.room.items self.now.len
            → buf.new ≡ slice_range held at (at + length buf.new) }
    {
        let from = match at.checked_sub(self.at) {
            Some(from) => from,
            None => return false,
        };
        if from > self.len as u64 || buf.len() > self.len - from as usize {
            return false;
        }
        let from = from as usize;
        buf.copy_from_slice(&self.room[from..from + buf.len()]);
        true
    }
}
