//! The bits of the blocks that an image holds, session by session.

ghost use Rattle.std.specs.Prelude.{◌≡◌, ◌≢◌, ◌⊎◌, ◌+◌, ◌≤◌, ◌^◌, ℕ, List, [], ◌∷◌, ◌++◌, false, length, OnOk, OnErr, IsErrOf, IsTrue};
ghost use Rattle.fdr_io.specs.Faults.{Rose};
ghost use Rattle.fdr_slot.specs.Limits.{IsInLimits, sequence_end};
ghost use Rattle.fdr_slot.specs.Places.{image_size};
ghost use Rattle.fdr_recover.specs.Blocks.{Block};
ghost use Rattle.fdr_recover.specs.Images.{blocks_between, recovered_run};
ghost use Rattle.fdr_recover.specs.Looks.{Looks};
ghost use Rattle.fdr_recover.specs.Payloads.{payloads_of};
ghost use Rattle.fdr_resync.specs.Past.{ScannerPast};
ghost use Rattle.fdr_readout.specs.Reading.{ReadsEvents, decided_past};
ghost use Rattle.fdr_top.specs.Sessions.{entries_of_blocks, session_text};
ghost use Rattle.fdr_top.specs.SessionsTaken.{HasBegunBlock, HasTakenBlocks, TakesFirstBlocks};

use fdr_deck::Deck;
use fdr_io::{Failed, Sink};
use fdr_line::Line;
use fdr_readout::{EventReader, Taker, take_piece, take_rest};
use fdr_recover::{BlockTaker, BlocksFault, scan, walk_between};
use fdr_slot::Header;
use fdr_table::Table;

/// Reads the bits of blocks by a table, and hands on all gaps, frames and rows that they decide. In version 2 it reads the bits
/// of each session by itself, and hands on the session's line before.
#[derive(Drop)]
pub struct BlockReader<'a, T> {
    pub events: EventReader,
    pub table: &'a Table,
    /// The version of the image.
    pub version: u8,
    /// The session that is read, once one has begun; none in version 1.
    pub open_session: Option<u32>,
    pub taker: T,
}

impl<O: Sink, T: Taker<O>> BlockTaker<O> for BlockReader<'_, T> {
    ghost has_taken = { λ first out_first blocks now out_now. (now.table ≡ first.table) × (now.version ≡ first.version)
        × HasTakenBlocks T.took first.table.now first.version now.open_session now.events blocks first.taker out_first now.taker out_now };

    ghost failed_in = { λ first out_first blocks out_now. T.failed_in first.table.now first.taker out_first out_now
        (entries_of_blocks first.table.now first.version blocks) };

    fn take(
        &mut self,
        number: u64,
        session: u32,
        payload: &[u8],
        out: &mut O,
    ) -> Result<(), Failed> {
        begin_block(self, number, session, out)?;
        take_piece(&mut self.events, self.table, payload, &mut self.taker, out)
    }
}

/// The line of a session: its number, and the number of its first block.
#[tactic(auto, using(fdr_line::proofs::Lengths::numbers), unfolding(crate::specs::Sessions::session_text))]
fn session_line(session: u32, first: u64) -> Line
    ensures { result ≡ session_text session first }
{
    let mut line = Line::new();
    line.add(b"session,");
    line.add_number(u64::from(session));
    line.add(b",");
    line.add_number(first);
    line.add(b"\n");
    line
}

/// Whether a block of a session goes on with the bits that are read: in version 1 each does.
fn goes_on<T>(reader: &BlockReader<'_, T>, session: u32) -> bool
    ensures yes { IsTrue result → (reader.now.version ≢ 2) ⊎ (reader.now.open_session ≡ Some session) }
    ensures second { result ≡ false → reader.now.version ≡ 2 }
    ensures another { result ≡ false → reader.now.open_session ≢ Some session }
{
    reader.version != 2 || reader.open_session == Some(session)
}

/// Ends the session before a block, where the block is of another one, and begins the block's own: hands on what is left of the
/// bits before, and then the line of the new session.
fn begin_block<O: Sink, T: Taker<O>>(
    reader: &mut BlockReader<'_, T>,
    number: u64,
    session: u32,
    out: &mut O,
) -> Result<(), Failed>
    requires stands { (first : T) × (out_first : O) × (blocks : List Block) × HasTakenBlocks T.took reader.old.table.now
        reader.old.version reader.old.open_session reader.old.events blocks first out_first reader.old.taker out.old }
    ensures all { (first : T) (out_first : O) (blocks : List Block) (payload : List ℕ) → HasTakenBlocks T.took reader.old.table.now
        reader.old.version reader.old.open_session reader.old.events blocks first out_first reader.old.taker out.old
        → OnOk result (HasBegunBlock T.took reader.old.table.now reader.old.version reader.new.open_session reader.new.events blocks
        (record { number = number; session = session; payload = payload }) first out_first reader.new.taker out.new) }
    ensures part { (first : T) (out_first : O) (blocks more : List Block) (payload : List ℕ) → HasTakenBlocks T.took
        reader.old.table.now reader.old.version reader.old.open_session reader.old.events blocks first out_first reader.old.taker out.old
        → OnErr result (T.failed_in reader.old.table.now first out_first out.new (entries_of_blocks reader.old.table.now reader.old.version
        ((blocks ++ record { number = number; session = session; payload = payload } ∷ []) ++ more))) }
    ensures table { reader.new.table ≡ reader.old.table }
    ensures version { reader.new.version ≡ reader.old.version }
    ensures cause { OnErr result (Rose (O.faults out.old) (O.faults out.new)) }
    ensures no_fault { OnOk result (O.faults out.new ≡ O.faults out.old) }
    ensures monotone { O.faults out.old ≤ O.faults out.new }
{
    if goes_on(reader, session) {
        return Ok(());
    }
    take_rest(&mut reader.events, reader.table, &mut reader.taker, out)?;
    reader.events.restart();
    reader.taker.line(&session_line(session, number), out)?;
    reader.open_session = Some(session);
    Ok(())
}

/// Hands on what is left of the bits of the last session once no further block comes.
fn end_blocks<O: Sink, T: Taker<O>>(
    reader: &mut BlockReader<'_, T>,
    out: &mut O,
) -> Result<(), BlocksFault>
    requires stands { (first : T) × (out_first : O) × (blocks : List Block) × HasTakenBlocks T.took reader.old.table.now
        reader.old.version reader.old.open_session reader.old.events blocks first out_first reader.old.taker out.old }
    ensures all { (first : T) (out_first : O) (blocks : List Block) → HasTakenBlocks T.took reader.old.table.now
        reader.old.version reader.old.open_session reader.old.events blocks first out_first reader.old.taker out.old
        → OnOk result (T.took reader.old.table.now first out_first reader.new.taker out.new
        (entries_of_blocks reader.old.table.now reader.old.version blocks)) }
    ensures part { (first : T) (out_first : O) (blocks : List Block) → HasTakenBlocks T.took reader.old.table.now
        reader.old.version reader.old.open_session reader.old.events blocks first out_first reader.old.taker out.old
        → OnErr result (T.failed_in reader.old.table.now first out_first out.new
        (entries_of_blocks reader.old.table.now reader.old.version blocks)) }
    ensures cause { OnErr result (Rose (O.faults out.old) (O.faults out.new)) }
    ensures no_fault { OnOk result (O.faults out.new ≡ O.faults out.old) }
    ensures fault { IsErrOf result BlocksFault.Disk → ⊥ }
    ensures reads { OnOk result ((past : ScannerPast) × ReadsEvents reader.old.table.now reader.new.events past) }
    ensures table { reader.new.table ≡ reader.old.table }
    ensures version { reader.new.version ≡ reader.old.version }
{
    match take_rest(&mut reader.events, reader.table, &mut reader.taker, out) {
        Ok(()) => Ok(()),
        Err(Failed) => Err(BlocksFault::Taker),
    }
}

/// Reads the blocks that the disk's image has of the numbers from `first` on, below `next`, one after another, and hands on all
/// that is listed of them.
pub fn take_between<D: Deck, O: Sink, T: Taker<O>>(
    header: &Header,
    blocks: &mut BlockReader<'_, T>,
    first: u64,
    next: u64,
    deck: &mut D,
    out: &mut O,
) -> Result<(), BlocksFault>
    requires fresh { ReadsEvents blocks.old.table.now blocks.old.events (decided_past blocks.old.table.now.frame.words []) }
    requires unopened { blocks.old.open_session ≡ None }
    requires limits { IsInLimits header.now }
    requires whole { image_size header.now ≤ (D.state deck.old).extent }
    requires bound { next ≤ sequence_end }
    requires room { next ≤ first + header.now.slots }
    ensures all { IsTrue D.tells.bytes → OnOk result (T.took blocks.old.table.now blocks.old.taker out.old blocks.new.taker out.new
        (entries_of_blocks blocks.old.table.now blocks.old.version (blocks_between header.now (D.state deck.old).held first next))) }
    ensures part { IsTrue D.tells.bytes → IsErrOf result BlocksFault.Taker
        → T.failed_in blocks.old.table.now blocks.old.taker out.old out.new
        (entries_of_blocks blocks.old.table.now blocks.old.version (blocks_between header.now (D.state deck.old).held first next)) }
    ensures front { IsTrue D.tells.bytes → IsErrOf result BlocksFault.Disk → TakesFirstBlocks T.took blocks.old.table.now
        blocks.old.version (blocks_between header.now (D.state deck.old).held first next)
        blocks.old.taker out.old blocks.new.taker out.new }
    ensures bounded { IsTrue D.tells.bytes
        → OnOk result (length (payloads_of (blocks_between header.now (D.state deck.old).held first next)) ≤ 2 ^ 28) }
    ensures disk_fault { IsErrOf result BlocksFault.Disk → Rose (D.state deck.old).disk_faults (D.state deck.new).disk_faults }
    ensures disk_unfailed { (IsErrOf result BlocksFault.Disk → ⊥)
        → (D.state deck.new).disk_faults ≡ (D.state deck.old).disk_faults }
    ensures write_fault { IsErrOf result BlocksFault.Taker → Rose (O.faults out.old) (O.faults out.new) }
    ensures write_unfailed { (IsErrOf result BlocksFault.Taker → ⊥) → O.faults out.new ≡ O.faults out.old }
    ensures looks { Looks D.tells (D.state deck.old) (D.state deck.new) }
    ensures reads { OnOk result ((past : ScannerPast) × ReadsEvents blocks.old.table.now blocks.new.events past) }
    ensures table { OnOk result (blocks.new.table ≡ blocks.old.table) }
    ensures version { OnOk result (blocks.new.version ≡ blocks.old.version) }
{
    walk_between(deck, header, first, next, blocks, out)?;
    end_blocks(blocks, out)
}

/// Reads the blocks of the recovered run of the disk's image, one after another, and hands on all that is listed of them.
pub fn take_blocks<D: Deck, O: Sink, T: Taker<O>>(
    header: &Header,
    blocks: &mut BlockReader<'_, T>,
    deck: &mut D,
    out: &mut O,
) -> Result<(), BlocksFault>
    requires fresh { ReadsEvents blocks.old.table.now blocks.old.events (decided_past blocks.old.table.now.frame.words []) }
    requires unopened { blocks.old.open_session ≡ None }
    requires limits { IsInLimits header.now }
    requires whole { image_size header.now ≤ (D.state deck.old).extent }
    ensures all { IsTrue D.tells.bytes → OnOk result (T.took blocks.old.table.now blocks.old.taker out.old blocks.new.taker out.new
        (entries_of_blocks blocks.old.table.now blocks.old.version (recovered_run header.now (D.state deck.old).held))) }
    ensures part { IsTrue D.tells.bytes → IsErrOf result BlocksFault.Taker
        → T.failed_in blocks.old.table.now blocks.old.taker out.old out.new
        (entries_of_blocks blocks.old.table.now blocks.old.version (recovered_run header.now (D.state deck.old).held)) }
    ensures front { IsTrue D.tells.bytes → IsErrOf result BlocksFault.Disk → TakesFirstBlocks T.took blocks.old.table.now
        blocks.old.version (recovered_run header.now (D.state deck.old).held)
        blocks.old.taker out.old blocks.new.taker out.new }
    ensures bounded { IsTrue D.tells.bytes
        → OnOk result (length (payloads_of (recovered_run header.now (D.state deck.old).held)) ≤ 2 ^ 28) }
    ensures disk_fault { IsErrOf result BlocksFault.Disk → Rose (D.state deck.old).disk_faults (D.state deck.new).disk_faults }
    ensures disk_unfailed { (IsErrOf result BlocksFault.Disk → ⊥)
        → (D.state deck.new).disk_faults ≡ (D.state deck.old).disk_faults }
    ensures write_fault { IsErrOf result BlocksFault.Taker → Rose (O.faults out.old) (O.faults out.new) }
    ensures write_unfailed { (IsErrOf result BlocksFault.Taker → ⊥) → O.faults out.new ≡ O.faults out.old }
    ensures looks { Looks D.tells (D.state deck.old) (D.state deck.new) }
{
    let Ok(found) = scan(deck, header) else {
        return Err(BlocksFault::Disk);
    };
    take_between(header, blocks, found.first, found.next, deck, out)
}
