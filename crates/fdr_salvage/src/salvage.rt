//! The runs of an image.

ghost use Rattle.std.specs.Prelude.{◌≡◌, ◌+◌, ◌≤◌, All, map, IfOk, OnOk, IsErrOf, IsTrue};
ghost use Rattle.std.specs.List.{sum_by};
ghost use Rattle.fdr_io.specs.Faults.{Rose};
ghost use Rattle.fdr_deck.specs.Calls.{Succeeds};
ghost use Rattle.fdr_slot.specs.Limits.{IsInLimits};
ghost use Rattle.fdr_slot.specs.Places.{image_size};
ghost use Rattle.fdr_recover.specs.Looks.{Looks};
ghost use Rattle.fdr_salvage.specs.Runs.{runs_of, run_numbers, blocks_in_run, run_length, HasBlockNumbers};

use crate::SalvageFault;
use crate::joining::{in_order, join_numbers};
use crate::reading::read_numbers;
use fdr_deck::Deck;
use fdr_slot::Header;
use std::alloc::Global;

/// A run of an image: the valid blocks with the numbers from `first` to `next - 1`.
#[derive(Clone, Copy, Debug, PartialEq, Eq)]
pub struct Run {
    /// The number of its first block.
    pub first: u64,
    /// One more than the number of its last block.
    pub next: u64,
}

/// Finds all runs of the disk's image, in the order of their numbers: looks at all slots, and joins the numbers of the valid ones.
pub fn runs<D: Deck>(alloc: Global, deck: &mut D, h: &Header) -> Result<Vec<Run>, SalvageFault>
    requires limits { IsInLimits h.now }
    requires whole { image_size h.now ≤ (D.state deck.old).extent }
    ensures runs { IsTrue D.tells.bytes → IfOk result (λ v. v.items ≡ map run_numbers (runs_of h.now (D.state deck.old).held)) }
    ensures blocks { IsTrue D.tells.bytes → IfOk result (λ v. map (blocks_in_run h.now (D.state deck.old).held) v.items
        ≡ runs_of h.now (D.state deck.old).held) }

    // whatever the disk tells
    ensures bounds { IfOk result (λ v. All HasBlockNumbers v.items) }
    ensures few { IfOk result (λ v. sum_by run_length v.items ≤ h.now.slots) }
    ensures room { IfOk result (λ v. All (λ (run : Run). run.next ≤ run.first + h.now.slots) v.items) }

    ensures looks { Looks D.tells (D.state deck.old) (D.state deck.new) }
    ensures succeeds { OnOk result (Succeeds (D.state deck.old) (D.state deck.new)) }
    ensures disk_fault { IsErrOf result SalvageFault.DiskFault → Rose (D.state deck.old).disk_faults (D.state deck.new).disk_faults }
    ensures disk_unfailed { (IsErrOf result SalvageFault.DiskFault → ⊥)
        → (D.state deck.new).disk_faults ≡ (D.state deck.old).disk_faults }
    ensures rest { D.same_rest deck.old deck.new }
{
    let mut numbers = Vec::with_capacity(alloc, h.slots as usize)?;
    let mut runs = Vec::with_capacity(alloc, h.slots as usize)?;
    read_numbers(deck, h, &mut numbers)?;
    join_numbers(&in_order(numbers), &mut runs)?;
    Ok(runs)
}
