//! The numbers of the blocks that slots hold.

ghost use Rattle.std.specs.Prelude.{◌≡◌, ◌+◌, ◌<◌, ◌≤◌, [], ◌++◌, length, All, OnOk, IsErrOf, IsTrue};
ghost use Rattle.std.specs.List.{cons_option};
ghost use Rattle.fdr_io.specs.Faults.{Rose};
ghost use Rattle.fdr_deck.specs.Calls.{Succeeds};
ghost use Rattle.fdr_slot.specs.Limits.{IsInLimits, sequence_end};
ghost use Rattle.fdr_slot.specs.Places.{image_size};
ghost use Rattle.fdr_recover.specs.Looks.{Looks};
ghost use Rattle.fdr_salvage.specs.Runs.{slot_number, slot_numbers};

use crate::SalvageFault;
use crate::memory::push;
use fdr_deck::Deck;
use fdr_recover::number_after;
use fdr_slot::Header;

/// Adds the number of the block in a slot, where it holds one.
fn read_number<D: Deck>(
    deck: &mut D,
    h: &Header,
    slot: u32,
    numbers: &mut Vec<u64>,
) -> Result<(), SalvageFault>
    requires limits { IsInLimits h.now }
    requires exists { slot < h.now.slots }
    requires whole { image_size h.now ≤ (D.state deck.old).extent }
    requires fit { All (λ number. number < sequence_end) numbers.old.items }
    ensures numbers { IsTrue D.tells.bytes → OnOk result (numbers.new.items
        ≡ numbers.old.items ++ cons_option (slot_number h.now (D.state deck.old).held slot) []) }
    ensures fit { OnOk result (All (λ number. number < sequence_end) numbers.new.items) }
    ensures few { OnOk result (length numbers.new.items ≤ length numbers.old.items + 1) }
    ensures looks { Looks D.tells (D.state deck.old) (D.state deck.new) }
    ensures succeeds { OnOk result (Succeeds (D.state deck.old) (D.state deck.new)) }
    ensures disk_fault { IsErrOf result SalvageFault.DiskFault → Rose (D.state deck.old).disk_faults (D.state deck.new).disk_faults }
    ensures disk_unfailed { (IsErrOf result SalvageFault.DiskFault → ⊥)
        → (D.state deck.new).disk_faults ≡ (D.state deck.old).disk_faults }
    ensures rest { D.same_rest deck.old deck.new }
{
    let after = number_after(deck, h, slot)?;
    if after == 0 {
        return Ok(());
    }
    push(numbers, after - 1)
}

/// Adds the numbers of the blocks in all slots, slot by slot.
pub(crate) fn read_numbers<D: Deck>(
    deck: &mut D,
    h: &Header,
    numbers: &mut Vec<u64>,
) -> Result<(), SalvageFault>
    requires limits { IsInLimits h.now }
    requires whole { image_size h.now ≤ (D.state deck.old).extent }
    requires empty { numbers.old.items ≡ [] }
    ensures numbers { IsTrue D.tells.bytes
        → OnOk result (numbers.new.items ≡ slot_numbers h.now (D.state deck.old).held h.now.slots) }
    ensures fit { OnOk result (All (λ number. number < sequence_end) numbers.new.items) }
    ensures few { OnOk result (length numbers.new.items ≤ h.now.slots) }
    ensures looks { Looks D.tells (D.state deck.old) (D.state deck.new) }
    ensures succeeds { OnOk result (Succeeds (D.state deck.old) (D.state deck.new)) }
    ensures disk_fault { IsErrOf result SalvageFault.DiskFault → Rose (D.state deck.old).disk_faults (D.state deck.new).disk_faults }
    ensures disk_unfailed { (IsErrOf result SalvageFault.DiskFault → ⊥)
        → (D.state deck.new).disk_faults ≡ (D.state deck.old).disk_faults }
    ensures rest { D.same_rest deck.old deck.new }
{
    for slot in 0..h.slots {
        read_number(deck, h, slot, numbers)?;
    }
    Ok(())
}
