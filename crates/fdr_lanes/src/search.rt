//! The search for the sync word of a first subframe.

ghost use Rattle.std.specs.Prelude.{◌+◌, ◌*◌, ◌^◌, ◌≤◌, IfSome, IfNone, length};
ghost use Rattle.fdr_lanes.specs.Syncs.{IsFirstSyncFrom, HasNoSyncFrom, HasNoSyncInBytes};

use crate::candidates::{BLOCK, candidates};
use fdr_bits::word12;
use fdr_frame::SYNC;

/// The first bit from `from` on where the sync word of a first subframe (octal 1107) stands. None where there is none.
pub fn first_sync(bytes: &[u8], from: u64) -> Option<u64>
    requires short { length bytes.now ≤ 2 ^ 60 }
    ensures found { IfSome result (IsFirstSyncFrom bytes.now from) }
    ensures none { IfNone result (HasNoSyncFrom bytes.now from) }
{
    let last = (8 * bytes.len() as u64).checked_sub(12)?;
    let mut p = from;
    while p <= last {
        if p % 8 == 0 {
            p = 8 * next_candidate(bytes, (p / 8) as usize) as u64;
        }
        if word12(bytes, p) == SYNC[0] {
            return Some(p);
        }
        p += 1;
    }
    None
}

// The first byte from `at` on in which the sync word may begin. The last block of bytes that is looked at reaches up to
// the last two, so it may begin before `at`.
fn next_candidate(bytes: &[u8], at: usize) -> usize
    requires short { length bytes.now ≤ 2 ^ 60 }
    requires within { at + 2 ≤ length bytes.now }
    ensures onward { at ≤ result }
    ensures within { result + 2 ≤ length bytes.now }
    ensures none { HasNoSyncInBytes bytes.now at result }
{
    let Some(last_block) = bytes.len().checked_sub(BLOCK + 2) else {
        return at;
    };
    let mut next = at;
    while next < last_block + BLOCK {
        let block = next.min(last_block);
        let found = candidates(bytes, block) >> (next - block);
        if found != 0 {
            return next + found.trailing_zeros() as usize;
        }
        next = block + BLOCK;
    }
    next
}
