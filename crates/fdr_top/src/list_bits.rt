//! The listing of the bits of a deck's input.

ghost use Rattle.std.specs.Prelude.{◌≡◌, ◌≢◌, ◌+◌, ◌≤◌, ℕ, List, [], OnErr, IfOk, ◌⊎◌, OnOk};
ghost use Rattle.fdr_io.specs.Faults.{Rose};
ghost use Rattle.fdr_io.specs.declared.Input.TheVariants as input;
ghost use Rattle.fdr_deck.specs.Calls.{LeavesDisk};
ghost use Rattle.fdr_top.specs.Answers.{IsOwn, KeepsInputAndFaults};
ghost use Rattle.fdr_top.specs.Coding.{HasListed};
ghost use Rattle.fdr_top.specs.Listbits.{ListsInput};
ghost use Rattle.fdr_top.specs.InputTexts.{answer_of};
ghost use Rattle.fdr_io.specs.Limits.{piece_bytes};
ghost use Rattle.fdr_pieces.specs.Limits.{most_input_bytes};
ghost use Rattle.fdr_words.specs.Forms.{list_bits};
ghost use Rattle.fdr_top.specs.Commands.{Works};

use crate::input_end::answer_of;
use crate::outcome::Outcome;
use fdr_check::Sound;
use fdr_deck::Deck;
use fdr_io::{Failed, Sink};
use fdr_pieces::{InputEnd, MAX_INPUT_BYTES, PieceTaker, take_pieces};
use fdr_readout::{EventReader, LineWriter, take_piece, take_rest};
use fdr_table::{NoMemory, Table};
use std::alloc::Global;

/// Lists the pieces of an input by a table. The lines of all that they decide are written before the next piece.
#[derive(Drop)]
struct LineListing<'t> {
    table: &'t Table,
    reader: EventReader,
    lines: LineWriter,
}

impl<'t> LineListing<'t> {
    ghost use Rattle.std.specs.Prelude.{◌≡◌, [], IfOk};
    ghost use Rattle.fdr_readout.specs.Reading.{ReadsEvents, decided_past};

    /// A listing of no pieces.
    fn new(alloc: Global, sound: &'t Sound) -> Result<LineListing<'t>, NoMemory>
        ensures table { IfOk result (λ l. l.table.now ≡ sound.now) }
        ensures fresh { IfOk result (λ l. ReadsEvents sound.now l.reader (decided_past sound.now.frame.words [])) }
        ensures empty { IfOk result (λ l. l.lines ≡ []) }
    {
        Ok(LineListing {
            table: sound.table(),
            reader: EventReader::new(alloc, sound)?,
            lines: LineWriter::new(alloc)?,
        })
    }
}

impl<'t, O: Sink> PieceTaker<O> for LineListing<'t> {
    ghost use Rattle.std.specs.Prelude.{◌≡◌, ◌++◌, ℕ, List};
    ghost use Rattle.fdr_top.specs.Coding.{HasListed, StopsListing};

    type Stop = Failed;

    ghost took = { λ first out_first bytes last now out.
        HasListed O.written first now out_first out bytes last × (O.faults out ≡ O.faults out_first) };

    ghost stopped = { λ first out_first bytes last stop now out.
        StopsListing first.table.now bytes last (record { written = O.written out_first; faults = O.faults out_first })
        (record { written = O.written out; faults = O.faults out }) };

    fn take(&mut self, piece: &[u8], out: &mut O) -> Result<(), Failed> {
        take_piece(&mut self.reader, self.table, piece, &mut self.lines, out)?;
        self.lines.finish(out)
    }
}

/// Writes the listing of the deck's input while it is pulled, and answers why no more was pulled. At `Failed` the sink failed.
fn write_line<D: Deck, O: Sink>(
    listing: &mut LineListing<'_>,
    deck: &mut D,
    out: &mut O,
) -> Result<InputEnd, Failed>
    requires fresh { HasListed O.written listing.old listing.old out.old out.old [] [] }
    ensures all { IfOk result (λ end. ListsInput listing.old.table.now D.tells (D.state deck.old) (D.state deck.new)
        (O.written out.old) (O.written out.new) (answer_of end)) }
    ensures part { OnErr result (ListsInput listing.old.table.now D.tells (D.state deck.old) (D.state deck.new)
        (O.written out.old) (O.written out.new) Outcome.WriteFault) }
    ensures input_fault { IfOk result (λ end. end ≡ InputEnd.Fault → Rose (D.state deck.old).input_faults (D.state deck.new).input_faults) }
    ensures no_input_fault { IfOk result (λ end. end ≢ InputEnd.Fault → (D.state deck.new).input_faults ≡ (D.state deck.old).input_faults) }
    ensures write_fault { OnErr result (Rose (O.faults out.old) (O.faults out.new)) }
    ensures no_fault { OnOk result (O.faults out.new ≡ O.faults out.old) }
    ensures disk { LeavesDisk (D.state deck.old) (D.state deck.new) }
    ensures announced { (D.state deck.new).announced ≡ (D.state deck.old).announced }
    ensures bounded { (D.state deck.new).taken ≤ (D.state deck.old).taken + most_input_bytes + piece_bytes }
{
    let end = take_pieces(listing, MAX_INPUT_BYTES, deck, out)?;
    take_rest(&mut listing.reader, listing.table, &mut listing.lines, out)?;
    listing.lines.finish(out)?;
    Ok(end)
}

/// Lists the bits of the deck's input by a table. All memory is taken before the first pull.
pub fn list_line<D: Deck, O: Sink>(
    alloc: Global,
    sound: &Sound,
    deck: &mut D,
    out: &mut O,
) -> Outcome
    ensures answer { (path : List ℕ) → (result ≡ Outcome.NoMemory) ⊎ IsOwn (list_bits path) result }
    ensures lists { result ≢ Outcome.NoMemory
        → ListsInput sound.now D.tells (D.state deck.old) (D.state deck.new) (O.written out.old) (O.written out.new) result }
    ensures input_fault { result ≡ Outcome.ReadFault input.Line → Rose (D.state deck.old).input_faults (D.state deck.new).input_faults }
    ensures no_input_fault { result ≢ Outcome.ReadFault input.Line → result ≢ Outcome.WriteFault
        → (D.state deck.new).input_faults ≡ (D.state deck.old).input_faults }
    ensures write_fault { result ≡ Outcome.WriteFault → Rose (O.faults out.old) (O.faults out.new) }
    ensures no_write_fault { result ≢ Outcome.WriteFault → O.faults out.new ≡ O.faults out.old }
    ensures no_memory { result ≡ Outcome.NoMemory → O.written out.new ≡ O.written out.old }
    ensures no_memory_faults { result ≡ Outcome.NoMemory → O.faults out.new ≡ O.faults out.old }
    ensures no_memory_input { result ≡ Outcome.NoMemory → KeepsInputAndFaults (D.state deck.old) (D.state deck.new) }
    ensures disk { LeavesDisk (D.state deck.old) (D.state deck.new) }
    ensures announced { (D.state deck.new).announced ≡ (D.state deck.old).announced }
    ensures bounded { (D.state deck.new).taken ≤ (D.state deck.old).taken + most_input_bytes + piece_bytes }
{
    let Ok(mut listing) = LineListing::new(alloc, sound) else {
        return Outcome::NoMemory;
    };
    match write_line(&mut listing, deck, out) {
        Ok(end) => answer_of(end),
        Err(Failed) => Outcome::WriteFault,
    }
}

/// `listbits`: lists the bits of the input by a table.
pub fn listbits<D: Deck, O: Sink>(
    alloc: Global,
    sound: &Sound,
    deck: &mut D,
    out: &mut O,
) -> Outcome
    ensures works { (path : List ℕ) → Works (list_bits path) sound.now (record {
      tells = D.tells;
      old = D.state deck.old;
      new = D.state deck.new;
      written_before = O.written out.old;
      written_now = O.written out.new;
      sink_before = O.faults out.old;
      sink_now = O.faults out.new;
      answer = result;
    }) }
{
    list_line(alloc, sound, deck, out)
}
