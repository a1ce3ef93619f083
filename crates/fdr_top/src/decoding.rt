//! The bits of the levels of a deck's input.

ghost use Rattle.std.specs.Prelude.{◌≡◌, ◌≢◌, ◌+◌, ◌≤◌, ◌++◌, ◌∷◌, ℕ, Bool, List, [], OnErr, OnOk, IfOk, IfErr, ◌⊎◌, length};
ghost use Rattle.fdr_io.specs.Faults.{Rose};
ghost use Rattle.fdr_io.specs.declared.Input.TheVariants as input;
ghost use Rattle.fdr_deck.specs.Calls.{LeavesDisk};
ghost use Rattle.fdr_words.specs.Forms.{decode_levels};
ghost use Rattle.fdr_table.specs.Rows.{TableRows};
ghost use Rattle.fdr_top.specs.Answers.{IsOwn, KeepsInputAndFaults};
ghost use Rattle.fdr_top.specs.Coding.{HasDecoded, SinkState, StopsDecoding, HasMissed};
ghost use Rattle.fdr_top.specs.Commands.{Works};
ghost use Rattle.fdr_top.specs.Decode.{DecodesLevels};
ghost use Rattle.fdr_io.specs.Limits.{piece_bytes};
ghost use Rattle.fdr_pieces.specs.Limits.{most_input_bytes};
ghost use Rattle.fdr_biphase.specs.Packed.{answered_byte, decoded_bytes};
ghost use Rattle.fdr_io.specs.Output.{Emits, EmitsPart};
ghost use Rattle.fdr_biphase.specs.Reading.{RepresentsPacker};
ghost use Rattle.fdr_io.specs.Told.{followed_by};
ghost use Rattle.fdr_top.specs.InputTexts.{WritesFront};

use crate::input_end::answer_of;
use crate::outcome::Outcome;
use fdr_biphase::LevelReader;
use fdr_deck::Deck;
use fdr_io::{Failed, OutBuffer, PIECE, Sink};
use fdr_pieces::{MAX_INPUT_BYTES, PieceTaker, take_pieces};
use std::alloc::Global;

/// Decodes the pieces of an input. The bits are gathered, and go out where no more of them fit.
#[derive(Drop)]
struct Decoding {
    reader: LevelReader,
    text: OutBuffer,
}

/// Why no more levels are decoded.
#[derive(Clone, Copy)]
enum Cut {
    /// This place is missing.
    Missing(u64),
    /// The output failed.
    Output,
}

impl From<Failed> for Cut {
    ghost use Rattle.std.specs.Prelude.{◌≡◌};
    ghost use Rattle.fdr_top.specs.declared.decoding.Cut.TheVariants as cut;

    ghost from_gives = { λ _ result. result ≡ cut.Output };

    fn from(_error: Failed) -> Cut {
        Cut::Output
    }
}

/// Adds the byte that an answer gives, if it gives one.
fn add_answer<O: Sink>(text: &mut OutBuffer, byte: Option<u8>, out: &mut O) -> Result<(), Failed>
    ensures all { OnOk result (Emits (O.written out.old) (O.written out.new) text.old text.new (answered_byte byte)) }
    ensures part { OnErr result (EmitsPart (O.written out.old) (O.written out.new) text.old (answered_byte byte)) }
    ensures cause { OnErr result (Rose (O.faults out.old) (O.faults out.new)) }
    ensures no_fault { OnOk result (O.faults out.new ≡ O.faults out.old) }
{
    match byte {
        Some(byte) => text.add(out, &[byte]),
        None => Ok(()),
    }
}

impl Decoding {
    /// Decodes the levels of a piece.
    fn add<O: Sink>(&mut self, piece: &[u8], out: &mut O) -> Result<(), Cut>
        requires piece { length piece.now ≤ piece_bytes }
        requires reads { (bytes : List ℕ) × (before : SinkState) × HasDecoded self.old bytes before (record { written = O.written out.old; faults = O.faults out.old })
            × (length bytes + length piece.now ≤ most_input_bytes) }
        ensures all { (bytes : List ℕ) (before : SinkState) → HasDecoded self.old bytes before (record { written = O.written out.old; faults = O.faults out.old })
            → OnOk result (HasDecoded self.new (bytes ++ piece.now) before (record { written = O.written out.new; faults = O.faults out.new })) }
        ensures part { (bytes : List ℕ) (before : SinkState) → HasDecoded self.old bytes before (record { written = O.written out.old; faults = O.faults out.old })
            → IfErr result (λ stop. StopsDecoding self.new stop (bytes ++ piece.now) before (record { written = O.written out.new; faults = O.faults out.new })) }
    {
        let mut bytes = [0; PIECE];
        let filled = self.reader.bytes(piece, &mut bytes);
        self.text.add(out, &bytes[..filled.count])?;
        match filled.missing {
            None => Ok(()),
            Some(missing) => Err(Cut::Missing(missing.at)),
        }
    }

    /// Writes what waits, and the last bits, which fill no byte of themselves.
    fn finish<O: Sink>(&mut self, out: &mut O) -> Result<(), Failed>
        requires { (bits : List Bool) × (bytes : List ℕ) × RepresentsPacker self.old.reader.packer bits bytes }
        ensures all { (bytes : List ℕ) (before : SinkState) → HasDecoded self.old bytes before (record { written = O.written out.old; faults = O.faults out.old })
            → OnOk result (O.written out.new ≡ followed_by before.written (decoded_bytes bytes)) }
        ensures part { (bytes : List ℕ) (before : SinkState) → HasDecoded self.old bytes before (record { written = O.written out.old; faults = O.faults out.old })
            → OnErr result (WritesFront (decoded_bytes bytes) before.written (O.written out.new)) }
        ensures missed { (bytes : List ℕ) (at : ℕ) (before : SinkState)
            → HasMissed self.old bytes at before (record { written = O.written out.old; faults = O.faults out.old })
            → (more : List ℕ) → OnOk result (O.written out.new ≡ followed_by before.written (decoded_bytes (bytes ++ more))) }
        ensures missed_part { (bytes : List ℕ) (at : ℕ) (before : SinkState)
            → HasMissed self.old bytes at before (record { written = O.written out.old; faults = O.faults out.old })
            → (more : List ℕ) → OnErr result (WritesFront (decoded_bytes (bytes ++ more)) before.written (O.written out.new)) }
        ensures cause { OnErr result (Rose (O.faults out.old) (O.faults out.new)) }
        ensures no_fault { OnOk result (O.faults out.new ≡ O.faults out.old) }
    {
        let last = self.reader.finish();
        add_answer(&mut self.text, last, out)?;
        self.text.finish(out)
    }

    /// Writes all that is left, and gives this answer, or that the sink failed.
    fn write_rest<O: Sink>(&mut self, answer: Outcome, out: &mut O) -> Outcome
        requires packs { (bits : List Bool) × (bytes : List ℕ) × RepresentsPacker self.old.reader.packer bits bytes }
        requires other { answer ≢ Outcome.WriteFault }
        ensures answer { (result ≡ answer) ⊎ (result ≡ Outcome.WriteFault) }
        ensures all { (bytes : List ℕ) (before : SinkState) → HasDecoded self.old bytes before (record { written = O.written out.old; faults = O.faults out.old })
            → result ≢ Outcome.WriteFault → O.written out.new ≡ followed_by before.written (decoded_bytes bytes) }
        ensures part { (bytes : List ℕ) (before : SinkState) → HasDecoded self.old bytes before (record { written = O.written out.old; faults = O.faults out.old })
            → WritesFront (decoded_bytes bytes) before.written (O.written out.new) }
        ensures missed { (bytes : List ℕ) (at : ℕ) (before : SinkState)
            → HasMissed self.old bytes at before (record { written = O.written out.old; faults = O.faults out.old })
            → (more : List ℕ) → result ≢ Outcome.WriteFault → O.written out.new ≡ followed_by before.written (decoded_bytes (bytes ++ more)) }
        ensures missed_part { (bytes : List ℕ) (at : ℕ) (before : SinkState)
            → HasMissed self.old bytes at before (record { written = O.written out.old; faults = O.faults out.old })
            → (more : List ℕ) → WritesFront (decoded_bytes (bytes ++ more)) before.written (O.written out.new) }
        ensures cause { result ≡ Outcome.WriteFault → Rose (O.faults out.old) (O.faults out.new) }
        ensures no_fault { result ≢ Outcome.WriteFault → O.faults out.new ≡ O.faults out.old }
    {
        match self.finish(out) {
            Ok(()) => answer,
            Err(Failed) => Outcome::WriteFault,
        }
    }
}

impl<O: Sink> PieceTaker<O> for Decoding {
    ghost use Rattle.std.specs.Prelude.{◌++◌, ℕ, List};
    ghost use Rattle.fdr_top.specs.Coding.{HasDecoded, StopsDecoding};

    type Stop = Cut;

    ghost took = { λ first out_first bytes last now out.
        HasDecoded now (bytes ++ last) (record { written = O.written out_first; faults = O.faults out_first })
        (record { written = O.written out; faults = O.faults out }) };

    ghost stopped = { λ first out_first bytes last stop now out.
        StopsDecoding now stop (bytes ++ last) (record { written = O.written out_first; faults = O.faults out_first })
        (record { written = O.written out; faults = O.faults out }) };

    fn take(&mut self, piece: &[u8], out: &mut O) -> Result<(), Cut> {
        self.add(piece, out)
    }
}

/// Writes the bits of the deck's input while it is pulled, and gives the answer.
fn write_bits<D: Deck, O: Sink>(decoding: &mut Decoding, deck: &mut D, out: &mut O) -> Outcome
    requires fresh { HasDecoded decoding.old [] (record { written = O.written out.old; faults = O.faults out.old })
        (record { written = O.written out.old; faults = O.faults out.old }) }
    ensures decodes { DecodesLevels D.tells (D.state deck.old) (D.state deck.new) (O.written out.old) (O.written out.new) result }
    ensures answer { IsOwn decode_levels result }
    ensures input_fault { result ≡ Outcome.ReadFault input.Line → Rose (D.state deck.old).input_faults (D.state deck.new).input_faults }
    ensures no_input_fault { result ≢ Outcome.ReadFault input.Line → result ≢ Outcome.WriteFault
        → (D.state deck.new).input_faults ≡ (D.state deck.old).input_faults }
    ensures write_fault { result ≡ Outcome.WriteFault → Rose (O.faults out.old) (O.faults out.new) }
    ensures no_write_fault { result ≢ Outcome.WriteFault → O.faults out.new ≡ O.faults out.old }
    ensures disk { LeavesDisk (D.state deck.old) (D.state deck.new) }
    ensures announced { (D.state deck.new).announced ≡ (D.state deck.old).announced }
    ensures bounded { (D.state deck.new).taken ≤ (D.state deck.old).taken + most_input_bytes + piece_bytes }
{
    match take_pieces(decoding, MAX_INPUT_BYTES, deck, out) {
        Ok(end) => decoding.write_rest(answer_of(end), out),
        Err(Cut::Missing(at)) => decoding.write_rest(Outcome::CellFault { at }, out),
        Err(Cut::Output) => Outcome::WriteFault,
    }
}

/// Decodes the deck's input. All memory is taken before the first pull.
fn decode_levels<D: Deck, O: Sink>(alloc: Global, deck: &mut D, out: &mut O) -> Outcome
    ensures answer { (result ≡ Outcome.NoMemory) ⊎ IsOwn decode_levels result }
    ensures decodes { result ≢ Outcome.NoMemory
        → DecodesLevels D.tells (D.state deck.old) (D.state deck.new) (O.written out.old) (O.written out.new) result }
    ensures input_fault { result ≡ Outcome.ReadFault input.Line → Rose (D.state deck.old).input_faults (D.state deck.new).input_faults }
    ensures no_input_fault { result ≢ Outcome.ReadFault input.Line → result ≢ Outcome.WriteFault
        → (D.state deck.new).input_faults ≡ (D.state deck.old).input_faults }
    ensures write_fault { result ≡ Outcome.WriteFault → Rose (O.faults out.old) (O.faults out.new) }
    ensures no_write_fault { result ≢ Outcome.WriteFault → O.faults out.new ≡ O.faults out.old }
    ensures no_memory { result ≡ Outcome.NoMemory → O.written out.new ≡ O.written out.old }
    ensures no_memory_faults { result ≡ Outcome.NoMemory → O.faults out.new ≡ O.faults out.old }
    ensures no_memory_input { result ≡ Outcome.NoMemory → KeepsInputAndFaults (D.state deck.old) (D.state deck.new) }
    ensures disk { LeavesDisk (D.state deck.old) (D.state deck.new) }
    ensures announced { (D.state deck.new).announced ≡ (D.state deck.old).announced }
    ensures bounded { (D.state deck.new).taken ≤ (D.state deck.old).taken + most_input_bytes + piece_bytes }
{
    let Ok(text) = OutBuffer::new(alloc) else {
        return Outcome::NoMemory;
    };
    let mut decoding = Decoding {
        reader: LevelReader::new(),
        text,
    };
    write_bits(&mut decoding, deck, out)
}

/// `decode`: reads the bits of the Harvard biphase levels on the input, wherever in a cell it begins, and writes them. Zero bits
/// fill the last byte.
pub fn decode<D: Deck, O: Sink>(alloc: Global, deck: &mut D, out: &mut O) -> Outcome
    ensures works { (t : TableRows) → Works decode_levels t (record {
      tells = D.tells;
      old = D.state deck.old;
      new = D.state deck.new;
      written_before = O.written out.old;
      written_now = O.written out.new;
      sink_before = O.faults out.old;
      sink_now = O.faults out.new;
      answer = result;
    }) }
{
    decode_levels(alloc, deck, out)
}
