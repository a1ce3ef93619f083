//! A block that is read on one side of a twin.

ghost use Rattle.std.specs.Prelude.{◌≡◌, ◌≤◌, ◌<◌, ◌↔◌, None, take, length, IfOk, OnOk, OnErr, IsTrue};
ghost use Rattle.fdr_io.specs.Faults.{Rose};
ghost use Rattle.fdr_slot.specs.Limits.{IsInLimits, sequence_end};
ghost use Rattle.fdr_slot.specs.Places.{image_size};
ghost use Rattle.fdr_recover.specs.Images.{block_numbered, payload_at, session_at};
ghost use Rattle.fdr_twin.specs.Pair.{disk_on};
ghost use Rattle.fdr_twin.specs.Serving.{Serves};
ghost use Rattle.fdr_pair.specs.PairWork.{IsSameContent};
ghost use Rattle.fdr_pair.specs.SideCounts.{CountsBoth};

use fdr_io::Failed;
use fdr_recover::{BlockInfo, block};
use fdr_slot::Header;
use fdr_twin::{Side, Twin};

/// Turns to a side, and puts the payload of the block with a number there at the front of the buffer. Its length and the block's
/// session are answered, both 0 where the number's slot doesn't hold it. The disks of both sides are left.
pub fn block_on<T: Twin>(
    twin: &mut T,
    side: Side,
    h: &Header,
    seq: u64,
    buf: &mut [u8],
) -> Result<BlockInfo, Failed>
    requires limits { IsInLimits h.now }
    requires whole { image_size h.now ≤ (disk_on side (T.pair twin.old)).extent }
    requires fits { seq < sequence_end }
    requires room { h.now.payload ≤ length buf.old }
    ensures payload { IsTrue T.tells.bytes
        → IfOk result (λ info. take info.len buf.new ≡ payload_at h.now (disk_on side (T.pair twin.old)).held seq) }
    ensures session { IsTrue T.tells.bytes
        → IfOk result (λ info. info.session ≡ session_at h.now (disk_on side (T.pair twin.old)).held seq) }
    ensures none { IsTrue T.tells.bytes
        → IfOk result (λ info. (info.len ≡ 0) ↔ (block_numbered h.now (disk_on side (T.pair twin.old)).held seq ≡ None)) }
    ensures bound { IfOk result (λ info. info.len ≤ h.now.payload) }
    ensures old_version { h.now.version ≡ 1 → IfOk result (λ info. info.session ≡ 0) }
    ensures content { IsSameContent (disk_on side (T.pair twin.old)) (disk_on side (T.pair twin.new)) }
    ensures serves { Serves T.tells side (disk_on side (T.pair twin.old)).may_leave (T.pair twin.old) (T.pair twin.new) }
    ensures counts { CountsBoth (T.pair twin.old) (T.pair twin.new) }
    ensures no_fault { OnOk result ((disk_on side (T.pair twin.new)).faults ≡ (disk_on side (T.pair twin.old)).faults) }
    ensures cause { OnErr result (Rose (disk_on side (T.pair twin.old)).faults (disk_on side (T.pair twin.new)).faults) }
{
    twin.turn(side);
    block(twin, h, seq, buf)
}
