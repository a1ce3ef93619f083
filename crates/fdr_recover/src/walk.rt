//! One walk over the blocks of an image.

ghost use Rattle.std.specs.Prelude.{◌≡◌, ◌+◌, ◌<◌, ◌≤◌, ◌^◌, ℕ, List, [], ◌∷◌, ◌++◌, length, OnOk, OnErr, IsErrOf, IsTrue};
ghost use Rattle.std.specs.List.{cons_option};
ghost use Rattle.fdr_io.specs.Faults.{Rose};
ghost use Rattle.fdr_io.specs.Output.{Emits, EmitsPart};
ghost use Rattle.fdr_slot.specs.Limits.{IsInLimits, most_payload_bytes, sequence_end};
ghost use Rattle.fdr_slot.specs.Places.{image_size};
ghost use Rattle.fdr_recover.specs.Blocks.{Block};
ghost use Rattle.fdr_recover.specs.Images.{block_numbered, blocks_between, recovered_run};
ghost use Rattle.fdr_recover.specs.Looks.{Looks};
ghost use Rattle.fdr_recover.specs.Payloads.{TakesAll, TakesFront, payloads_of};

use crate::{block, scan};
use fdr_deck::Deck;
use fdr_io::{Failed, OutBuffer, Sink};
use fdr_slot::{Header, MAX_PAYLOAD};

/// Takes blocks in their order. What is handed on goes to the sink beside it.
pub trait BlockTaker<O: Sink> {
    // Since the taker and the sink were as they were at first, these blocks were taken.
    ghost has_taken: { Self → O → List Block → Self → O → Type 0 };

    // Since then the taker failed in these blocks.
    ghost failed_in: { Self → O → List Block → O → Type 0 };

    /// Takes the next block: its number, its session and its payload, of 1 to 4,096 bytes, and 268,435,456 at most with those
    /// before it. In version 1 the session is 0. At `Failed` the sink failed.
    fn take(&mut self, number: u64, session: u32, payload: &[u8], out: &mut O) -> Result<(), Failed>
        requires not_empty { 1 ≤ length payload.now }
        requires short { length payload.now ≤ most_payload_bytes }
        requires stands { (first : Self) × (out_first : O) × (blocks : List Block) × has_taken first out_first blocks self.old out.old
            × (length (payloads_of blocks) + length payload.now ≤ 2 ^ 28) }
        ensures all { OnOk result ((first : Self) (out_first : O) (blocks : List Block)
            → has_taken first out_first blocks self.old out.old → has_taken first out_first
            (blocks ++ record { number = number; session = session; payload = payload.now } ∷ []) self.new out.new) }
        ensures part { OnErr result ((first : Self) (out_first : O) (blocks more : List Block)
            → has_taken first out_first blocks self.old out.old → failed_in first out_first
            ((blocks ++ record { number = number; session = session; payload = payload.now } ∷ []) ++ more) out.new) }
        ensures cause { OnErr result (Rose (O.faults out.old) (O.faults out.new)) }
        ensures disk_work { OnOk result (O.faults out.new ≡ O.faults out.old) };
}

/// Gathers the payloads, to be written in large pieces.
impl<O: Sink> BlockTaker<O> for OutBuffer {
    ghost has_taken = { λ first out_first blocks now out_now.
        Emits (O.written out_first) (O.written out_now) first now (payloads_of blocks) };

    ghost failed_in = { λ first out_first blocks out_now.
        EmitsPart (O.written out_first) (O.written out_now) first (payloads_of blocks) };

    fn take(
        &mut self,
        _number: u64,
        _session: u32,
        payload: &[u8],
        out: &mut O,
    ) -> Result<(), Failed> {
        self.add(out, payload)
    }
}

/// Why the blocks of an image weren't all handed on.
#[derive(Clone, Copy, Debug, PartialEq, Eq)]
pub enum BlocksFault {
    /// A slot or a block couldn't be read.
    Disk,
    /// What they were handed to failed.
    Taker,
}

/// Reads the block with a number, and hands it on, where the image has it.
fn walk_block<D: Deck, O: Sink, T: BlockTaker<O>>(
    deck: &mut D,
    h: &Header,
    number: u64,
    taker: &mut T,
    out: &mut O,
) -> Result<(), BlocksFault>
    requires limits { IsInLimits h.now }
    requires whole { image_size h.now ≤ (D.state deck.old).extent }
    requires fits { number < sequence_end }
    requires stands { (first : T) × (out_first : O) × (blocks : List Block) × T.has_taken first out_first blocks taker.old out.old
        × (length (payloads_of blocks) + h.now.payload ≤ 2 ^ 28) }
    ensures all { (first : T) (out_first : O) (blocks : List Block) → T.has_taken first out_first blocks taker.old out.old
        → OnOk result ((more : List Block) × T.has_taken first out_first (blocks ++ more) taker.new out.new
        × (length (payloads_of more) ≤ h.now.payload)
        × (IsTrue D.tells.bytes → more ≡ cons_option (block_numbered h.now (D.state deck.old).held number) [])) }
    ensures part { (first : T) (out_first : O) (blocks : List Block) → T.has_taken first out_first blocks taker.old out.old
        → IsErrOf result BlocksFault.Taker → (more : List Block)
        × ((rest : List Block) → T.failed_in first out_first ((blocks ++ more) ++ rest) out.new)
        × (IsTrue D.tells.bytes → more ≡ cons_option (block_numbered h.now (D.state deck.old).held number) []) }
    ensures same { IsErrOf result BlocksFault.Disk → taker.new ≡ taker.old }
    ensures unwritten { IsErrOf result BlocksFault.Disk → out.new ≡ out.old }
    ensures disk_fault { IsErrOf result BlocksFault.Disk → Rose (D.state deck.old).disk_faults (D.state deck.new).disk_faults }
    ensures disk_unfailed { (IsErrOf result BlocksFault.Disk → ⊥)
        → (D.state deck.new).disk_faults ≡ (D.state deck.old).disk_faults }
    ensures write_fault { IsErrOf result BlocksFault.Taker → Rose (O.faults out.old) (O.faults out.new) }
    ensures write_unfailed { (IsErrOf result BlocksFault.Taker → ⊥) → O.faults out.new ≡ O.faults out.old }
    ensures no_disk_fault { OnOk result ((D.state deck.new).disk_faults ≡ (D.state deck.old).disk_faults) }
    ensures disk_work { OnOk result (O.faults out.new ≡ O.faults out.old) }
    ensures looks { Looks D.tells (D.state deck.old) (D.state deck.new) }
    ensures rest { D.same_rest deck.old deck.new }
{
    let mut payload = [0; MAX_PAYLOAD];
    let Ok(info) = block(deck, h, number, &mut payload) else {
        return Err(BlocksFault::Disk);
    };
    if info.len == 0 {
        return Ok(());
    }
    match taker.take(number, info.session, &payload[..info.len], out) {
        Ok(()) => Ok(()),
        Err(Failed) => Err(BlocksFault::Taker),
    }
}

/// Reads the blocks that the disk's image has of the numbers from `first` on, below `next`, one after another, and hands each on. It
/// passes over a number that its slot doesn't hold. A taker that is at no blocks takes all of them; where the disk fails, those
/// before. It leaves the disk as it is.
pub fn walk_between<D: Deck, O: Sink, T: BlockTaker<O>>(
    deck: &mut D,
    h: &Header,
    first: u64,
    next: u64,
    taker: &mut T,
    out: &mut O,
) -> Result<(), BlocksFault>
    requires limits { IsInLimits h.now }
    requires whole { image_size h.now ≤ (D.state deck.old).extent }
    requires bound { next ≤ sequence_end }
    requires room { next ≤ first + h.now.slots }
    requires ready { T.has_taken taker.old out.old [] taker.old out.old }
    ensures all { OnOk result (TakesAll D.tells (blocks_between h.now (D.state deck.old).held first next)
        (λ blocks. T.has_taken taker.old out.old blocks taker.new out.new)) }
    ensures part { IsErrOf result BlocksFault.Taker → IsTrue D.tells.bytes
        → T.failed_in taker.old out.old (blocks_between h.now (D.state deck.old).held first next) out.new }
    ensures front { IsErrOf result BlocksFault.Disk → TakesFront D.tells (blocks_between h.now (D.state deck.old).held first next)
        (λ blocks. T.has_taken taker.old out.old blocks taker.new out.new) }

    ensures looks { Looks D.tells (D.state deck.old) (D.state deck.new) }
    ensures disk_fault { IsErrOf result BlocksFault.Disk → Rose (D.state deck.old).disk_faults (D.state deck.new).disk_faults }
    ensures disk_unfailed { (IsErrOf result BlocksFault.Disk → ⊥)
        → (D.state deck.new).disk_faults ≡ (D.state deck.old).disk_faults }
    ensures write_fault { IsErrOf result BlocksFault.Taker → Rose (O.faults out.old) (O.faults out.new) }
    ensures write_unfailed { (IsErrOf result BlocksFault.Taker → ⊥) → O.faults out.new ≡ O.faults out.old }
    ensures rest { D.same_rest deck.old deck.new }
{
    for number in first..next {
        walk_block(deck, h, number, taker, out)?;
    }
    Ok(())
}

/// Reads the blocks of the recovered run of the disk's image, one after another, and hands each on. A taker that is at no
/// blocks takes all of them; where the disk fails, those before. It leaves the disk as it is.
pub fn walk_blocks<D: Deck, O: Sink, T: BlockTaker<O>>(
    deck: &mut D,
    h: &Header,
    taker: &mut T,
    out: &mut O,
) -> Result<(), BlocksFault>
    requires limits { IsInLimits h.now }
    requires whole { image_size h.now ≤ (D.state deck.old).extent }
    requires ready { T.has_taken taker.old out.old [] taker.old out.old }
    ensures all { OnOk result (TakesAll D.tells (recovered_run h.now (D.state deck.old).held)
        (λ blocks. T.has_taken taker.old out.old blocks taker.new out.new)) }
    ensures part { IsErrOf result BlocksFault.Taker → IsTrue D.tells.bytes
        → T.failed_in taker.old out.old (recovered_run h.now (D.state deck.old).held) out.new }
    ensures front { IsErrOf result BlocksFault.Disk → TakesFront D.tells (recovered_run h.now (D.state deck.old).held)
        (λ blocks. T.has_taken taker.old out.old blocks taker.new out.new) }

    ensures looks { Looks D.tells (D.state deck.old) (D.state deck.new) }
    ensures disk_fault { IsErrOf result BlocksFault.Disk → Rose (D.state deck.old).disk_faults (D.state deck.new).disk_faults }
    ensures disk_unfailed { (IsErrOf result BlocksFault.Disk → ⊥)
        → (D.state deck.new).disk_faults ≡ (D.state deck.old).disk_faults }
    ensures write_fault { IsErrOf result BlocksFault.Taker → Rose (O.faults out.old) (O.faults out.new) }
    ensures write_unfailed { (IsErrOf result BlocksFault.Taker → ⊥) → O.faults out.new ≡ O.faults out.old }
    ensures rest { D.same_rest deck.old deck.new }
{
    let Ok(found) = scan(deck, h) else {
        return Err(BlocksFault::Disk);
    };
    walk_between(deck, h, found.first, found.next, taker, out)
}
