//! The recovered run.

ghost use Rattle.std.specs.Prelude.{◌≡◌, ℕ, ◌+◌, ◌≤◌, List, length, IfOk, OnOk, OnErr, IsTrue};
ghost use Rattle.fdr_io.specs.Faults.{Rose};
ghost use Rattle.fdr_deck.specs.Calls.{Succeeds, HasOneAnnounced};
ghost use Rattle.fdr_slot.specs.Limits.{IsInLimits, sequence_end};
ghost use Rattle.fdr_slot.specs.Places.{image_size};
ghost use Rattle.fdr_recover.specs.Blocks.{Block};
ghost use Rattle.fdr_recover.specs.Images.{next_of, IsNextNumber, blocks_below, recovered_run, IsRecovered};
ghost use Rattle.fdr_recover.specs.Looks.{Looks};
ghost use Rattle.fdr_recover.specs.Stretches.{last_session};

use crate::slots::{head_numbered, number_after};
use fdr_deck::Deck;
use fdr_io::Failed;
use fdr_slot::{Header, session_in};

/// The recovered run of an image: the blocks with the numbers from `first` to `next - 1`. Both are 0 where no slot is valid.
#[derive(Clone, Copy, PartialEq, Eq, Debug)]
pub struct Found {
    /// The number of the first block.
    pub first: u64,
    /// One more than the greatest number.
    pub next: u64,
    /// The session of the last block, `next - 1`; 0 where no slot is valid, and in version 1.
    pub session: u32,
}

/// One more than the greatest number in a valid slot.
fn next_number<D: Deck>(deck: &mut D, h: &Header) -> Result<u64, Failed>
    requires limits { IsInLimits h.now }
    requires whole { image_size h.now ≤ (D.state deck.old).extent }
    ensures next { IsTrue D.tells.bytes → IfOk result (λ n. n ≡ next_of h.now (D.state deck.old).held) }
    ensures bound { IfOk result (λ n. n ≤ sequence_end) }
    ensures looks { Looks D.tells (D.state deck.old) (D.state deck.new) }
    ensures succeeds { OnOk result (Succeeds (D.state deck.old) (D.state deck.new)) }
    ensures cause { OnErr result (Rose (D.state deck.old).disk_faults (D.state deck.new).disk_faults) }
    ensures rest { D.same_rest deck.old deck.new }
{
    let mut next = 0;
    for slot in 0..h.slots {
        next = number_after(deck, h, slot)?.max(next);
    }
    Ok(next)
}

/// Finds the blocks that are below `next`, one after another: down from it by number until a slot doesn't hold the number that is
/// wanted. The first block that is looked at is the last of the run, and has its session.
fn run_below<D: Deck>(deck: &mut D, h: &Header, next: u64) -> Result<Found, Failed>
    requires limits { IsInLimits h.now }
    requires fits { next ≤ sequence_end }
    requires whole { image_size h.now ≤ (D.state deck.old).extent }
    ensures next { IfOk result (λ f. f.next ≡ next) }
    ensures first { IsTrue D.tells.bytes
        → IfOk result (λ f. f.first + length (blocks_below h.now (D.state deck.old).held next) ≡ f.next) }
    ensures session { IsTrue D.tells.bytes
        → IfOk result (λ f. f.session ≡ last_session (blocks_below h.now (D.state deck.old).held next)) }
    ensures old_version { h.now.version ≡ 1 → IfOk result (λ f. f.session ≡ 0) }
    ensures order { IfOk result (λ f. f.first ≤ f.next) }
    ensures bound { IfOk result (λ f. f.next ≤ sequence_end) }
    ensures room { IfOk result (λ f. f.next ≤ f.first + h.now.slots) }
    ensures looks { Looks D.tells (D.state deck.old) (D.state deck.new) }
    ensures fresh { OnOk result (HasOneAnnounced (D.state deck.old) → HasOneAnnounced (D.state deck.new)) }
    ensures faults { OnOk result ((D.state deck.new).disk_faults ≡ (D.state deck.old).disk_faults) }
    ensures cause { OnErr result (Rose (D.state deck.old).disk_faults (D.state deck.new).disk_faults) }
    ensures rest { D.same_rest deck.old deck.new }
{
    let lowest = next.saturating_sub(u64::from(h.slots));
    let mut first = next;
    let mut session = 0;
    while first > lowest {
        let Some(head) = head_numbered(deck, h, first - 1)? else {
            return Ok(Found {
                first,
                next,
                session,
            });
        };
        if first == next {
            session = session_in(h, &head);
        }
        first -= 1;
    }
    Ok(Found {
        first,
        next,
        session,
    })
}

/// Finds the recovered run of the disk, and the session of its last block: looks at all slots for the greatest number, and then down
/// from it by number until a slot doesn't hold the number that is wanted.
#[tactic(auto, using(crate::proofs::BlockLemmas::recovered))]
pub fn scan<D: Deck>(deck: &mut D, h: &Header) -> Result<Found, Failed>
    requires limits { IsInLimits h.now }
    requires whole { image_size h.now ≤ (D.state deck.old).extent }
    ensures next { IsTrue D.tells.bytes → IfOk result (λ f. f.next ≡ next_of h.now (D.state deck.old).held) }
    ensures first { IsTrue D.tells.bytes
        → IfOk result (λ f. f.first + length (recovered_run h.now (D.state deck.old).held) ≡ f.next) }
    ensures session { IsTrue D.tells.bytes
        → IfOk result (λ f. f.session ≡ last_session (recovered_run h.now (D.state deck.old).held)) }
    ensures old_version { h.now.version ≡ 1 → IfOk result (λ f. f.session ≡ 0) }
    ensures greatest { (image : List ℕ) → IsNextNumber h.now image (next_of h.now image) }
    ensures recovered { (image : List ℕ) → IsRecovered h.now image (recovered_run h.now image) }
    ensures only { (image : List ℕ) (run : List Block) → IsRecovered h.now image run
        → run ≡ recovered_run h.now image }

    ensures order { IfOk result (λ f. f.first ≤ f.next) }
    ensures bound { IfOk result (λ f. f.next ≤ sequence_end) }
    ensures room { IfOk result (λ f. f.next ≤ f.first + h.now.slots) }

    ensures looks { Looks D.tells (D.state deck.old) (D.state deck.new) }
    ensures succeeds { OnOk result (Succeeds (D.state deck.old) (D.state deck.new)) }
    ensures cause { OnErr result (Rose (D.state deck.old).disk_faults (D.state deck.new).disk_faults) }
    ensures rest { D.same_rest deck.old deck.new }
{
    let next = next_number(deck, h)?;
    run_below(deck, h, next)
}
