//! What the slots of a deck's disk hold.

ghost use Rattle.std.specs.Prelude.{◌≡◌, ◌<◌, ◌≤◌, ◌+◌, ℕ, option_map, IfOk, OnOk, OnErr, IfSome, IsTrue};
ghost use Rattle.fdr_io.specs.Faults.{Rose};
ghost use Rattle.fdr_deck.specs.Calls.{Succeeds};
ghost use Rattle.fdr_slot.specs.Limits.{IsInLimits, sequence_end};
ghost use Rattle.fdr_slot.specs.Places.{image_size, slot_number_of};
ghost use Rattle.fdr_slot.specs.Heads.{IsValid};
ghost use Rattle.fdr_recover.specs.Blocks.{number_after};
ghost use Rattle.fdr_recover.specs.Images.{head_at, block_of, block_in, block_numbered};
ghost use Rattle.fdr_recover.specs.Looks.{Looks};

use fdr_deck::Deck;
use fdr_io::Failed;
use fdr_slot::{Header, SlotHead, is_valid, read_slot, slot_at, slot_of};

/// The head of a slot.
#[tactic(auto, using(crate::proofs::Placing::slot_within), unfolding(crate::specs::Images::head_at))]
pub fn head_in<D: Deck>(deck: &mut D, h: &Header, slot: u32) -> Result<SlotHead, Failed>
    requires limits { IsInLimits h.now }
    requires exists { slot < h.now.slots }
    requires whole { image_size h.now ≤ (D.state deck.old).extent }
    ensures head { IsTrue D.tells.bytes → IfOk result (λ head. head ≡ head_at h.now (D.state deck.old).held slot) }
    ensures looks { Looks D.tells (D.state deck.old) (D.state deck.new) }
    ensures succeeds { OnOk result (Succeeds (D.state deck.old) (D.state deck.new)) }
    ensures cause { OnErr result (Rose (D.state deck.old).disk_faults (D.state deck.new).disk_faults) }
    ensures rest { D.same_rest deck.old deck.new }
{
    let mut bytes = [0; 16];
    deck.read(slot_at(h, slot), &mut bytes)?;
    Ok(read_slot(&bytes))
}

/// One more than the number of the block in a slot, or 0 where it holds none.
#[tactic(auto, using(crate::proofs::BlockLemmas::numbers_after))]
pub fn number_after<D: Deck>(deck: &mut D, h: &Header, slot: u32) -> Result<u64, Failed>
    requires limits { IsInLimits h.now }
    requires exists { slot < h.now.slots }
    requires whole { image_size h.now ≤ (D.state deck.old).extent }
    ensures number { IsTrue D.tells.bytes
        → IfOk result (λ n. n ≡ number_after (block_in h.now (D.state deck.old).held slot)) }
    ensures bound { IfOk result (λ n. n ≤ sequence_end) }
    ensures place { IfOk result (λ n. (number : ℕ) → n ≡ number + 1 → slot_number_of h.now.slots number ≡ slot) }
    ensures looks { Looks D.tells (D.state deck.old) (D.state deck.new) }
    ensures succeeds { OnOk result (Succeeds (D.state deck.old) (D.state deck.new)) }
    ensures cause { OnErr result (Rose (D.state deck.old).disk_faults (D.state deck.new).disk_faults) }
    ensures rest { D.same_rest deck.old deck.new }
{
    let head = head_in(deck, h, slot)?;
    Ok(if is_valid(&head, h, slot) {
        head.seq + 1
    } else {
        0
    })
}

/// The head of the block with a number, where the number's slot holds it.
#[tactic(auto, using(crate::proofs::BlockLemmas::blocks_at))]
pub fn head_numbered<D: Deck>(
    deck: &mut D,
    h: &Header,
    seq: u64,
) -> Result<Option<SlotHead>, Failed>
    requires limits { IsInLimits h.now }
    requires fits { seq < sequence_end }
    requires whole { image_size h.now ≤ (D.state deck.old).extent }
    ensures held { IsTrue D.tells.bytes → IfOk result (λ head. block_numbered h.now (D.state deck.old).held seq
        ≡ option_map (block_of h.now (D.state deck.old).held (slot_number_of h.now.slots seq)) head) }
    ensures valid { IfOk result (λ head. IfSome head (IsValid h.now (slot_number_of h.now.slots seq))) }
    ensures looks { Looks D.tells (D.state deck.old) (D.state deck.new) }
    ensures succeeds { OnOk result (Succeeds (D.state deck.old) (D.state deck.new)) }
    ensures cause { OnErr result (Rose (D.state deck.old).disk_faults (D.state deck.new).disk_faults) }
    ensures rest { D.same_rest deck.old deck.new }
{
    let slot = slot_of(h, seq);
    let head = head_in(deck, h, slot)?;
    if !is_valid(&head, h, slot) || head.seq != seq {
        return Ok(None);
    }
    Ok(Some(head))
}
