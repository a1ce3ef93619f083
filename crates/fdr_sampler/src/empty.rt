//! The slots of a superframe that have nothing.

ghost use Rattle.std.specs.Prelude.{◌≡◌, ◌<◌, ◌≤◌, ◌+◌, ◌*◌, ◌↔◌, IfOk, IsTrue, length};
ghost use Rattle.fdr_sampler.specs.Empty.{AreEmptyRuns, IsEmptyRun, IsEmptySlot};

use crate::sampler::zeros;
use fdr_frame::{SlotKind, slot_kind};
use fdr_layout::Layout;
use fdr_table::{Frame, NoMemory};
use std::alloc::Global;

/// Whether a slot of the superframe has no part, no sync word and no counter.
fn is_empty(frame: Frame, layout: &Layout, slot: u32) -> bool
    requires { slot < length layout.now.slots }
    ensures { IsTrue result ↔ IsEmptySlot frame layout.now slot }
{
    layout.at_slot(slot).is_empty()
        && match slot_kind(u64::from(slot), frame.words, frame.cword, frame.csub) {
            SlotKind::Plain => true,
            SlotKind::Sync | SlotKind::Counter => false,
        }
}

/// How many empty slots follow one another from a slot on, where `next` do from the next one on.
fn run_from(frame: Frame, layout: &Layout, slot: u32, next: u32) -> u32
    requires slots { length layout.now.slots ≡ 64 * frame.words }
    requires slot { slot < 64 * frame.words }
    requires next { IsEmptyRun frame layout.now (slot + 1) next }
    requires within { next < 65536 }
    ensures run { IsEmptyRun frame layout.now slot result }
    ensures more { result ≤ next + 1 }
{
    if is_empty(frame, layout, slot) {
        next + 1
    } else {
        0
    }
}

/// For each slot of the superframe, how many empty slots follow one another from it on.
pub(crate) fn empty_runs(alloc: Global, frame: Frame, layout: &Layout) -> Result<Vec<u32>, NoMemory>
    requires slots { length layout.now.slots ≡ 64 * frame.words }
    ensures { IfOk result (λ v. AreEmptyRuns frame layout.now v.items) }
{
    let count = 64 * frame.words;
    let mut runs = zeros(alloc, count as usize)?;
    let mut run = 0;
    for slots_after in 0..count {
        let slot = count - 1 - slots_after;
        run = run_from(frame, layout, slot, run);
        runs[slot as usize] = run;
    }
    Ok(runs)
}
