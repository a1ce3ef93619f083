//! The levels of the bits of a deck's input.

ghost use Rattle.std.specs.Prelude.{◌≡◌, ◌≢◌, ◌+◌, ◌≤◌, ◌++◌, ℕ, List, [], length, OnErr, OnOk, IfOk, ◌⊎◌};
ghost use Rattle.fdr_io.specs.Faults.{Rose};
ghost use Rattle.fdr_io.specs.declared.Input.TheVariants as input;
ghost use Rattle.fdr_deck.specs.Calls.{LeavesDisk};
ghost use Rattle.fdr_words.specs.Forms.{encode_bytes};
ghost use Rattle.fdr_table.specs.Rows.{TableRows};
ghost use Rattle.fdr_top.specs.Answers.{IsOwn, KeepsInputAndFaults};
ghost use Rattle.fdr_top.specs.Coding.{HasEncoded, SinkState, StopsWriting};
ghost use Rattle.fdr_top.specs.Commands.{Works};
ghost use Rattle.fdr_top.specs.Encode.{EncodesInput, levels_text};
ghost use Rattle.fdr_io.specs.Limits.{piece_bytes};
ghost use Rattle.fdr_pieces.specs.Limits.{most_input_bytes};
ghost use Rattle.fdr_top.specs.InputTexts.{answer_of};

use crate::input_end::answer_of;
use crate::outcome::Outcome;
use fdr_biphase::Encoder;
use fdr_deck::Deck;
use fdr_io::{Failed, OutBuffer, Sink};
use fdr_pieces::{InputEnd, MAX_INPUT_BYTES, PieceTaker, take_pieces};
use std::alloc::Global;

/// How many bytes the levels of a piece fill at most.
const PIECE_LEVELS: usize = 8192;

/// Encodes the pieces of an input. The levels are gathered, and go out where no more of them fit.
#[derive(Drop)]
struct Encoding {
    encoder: Encoder,
    text: OutBuffer,
}

impl Encoding {
    /// Encodes a piece.
    fn add<O: Sink>(&mut self, piece: &[u8], out: &mut O) -> Result<(), Failed>
        requires { length piece.now ≤ piece_bytes }
        ensures all { (bytes : List ℕ) (before : SinkState) → HasEncoded self.old bytes before (record { written = O.written out.old; faults = O.faults out.old })
            → OnOk result (HasEncoded self.new (bytes ++ piece.now) before (record { written = O.written out.new; faults = O.faults out.new })) }
        ensures part { (bytes : List ℕ) (before : SinkState) → HasEncoded self.old bytes before (record { written = O.written out.old; faults = O.faults out.old })
            → OnErr result (StopsWriting levels_text (bytes ++ piece.now) before (record { written = O.written out.new; faults = O.faults out.new })) }
    {
        let mut levels = [0; PIECE_LEVELS];
        self.encoder.bytes(piece, &mut levels);
        self.text.add(out, &levels[..2 * piece.len()])
    }
}

impl<O: Sink> PieceTaker<O> for Encoding {
    ghost use Rattle.std.specs.Prelude.{◌++◌, ℕ, List};
    ghost use Rattle.fdr_top.specs.Coding.{HasEncoded, StopsWriting};
    ghost use Rattle.fdr_top.specs.Encode.{levels_text};

    type Stop = Failed;

    ghost took = { λ first out_first bytes last now out.
        HasEncoded now (bytes ++ last) (record { written = O.written out_first; faults = O.faults out_first })
        (record { written = O.written out; faults = O.faults out }) };

    ghost stopped = { λ first out_first bytes last stop now out.
        StopsWriting levels_text (bytes ++ last) (record { written = O.written out_first; faults = O.faults out_first })
        (record { written = O.written out; faults = O.faults out }) };

    fn take(&mut self, piece: &[u8], out: &mut O) -> Result<(), Failed> {
        self.add(piece, out)
    }
}

/// Writes the levels of the deck's input while it is pulled, and answers why no more was pulled. At `Failed` the sink failed.
fn write_levels<D: Deck, O: Sink>(
    encoding: &mut Encoding,
    deck: &mut D,
    out: &mut O,
) -> Result<InputEnd, Failed>
    requires fresh { HasEncoded encoding.old [] (record { written = O.written out.old; faults = O.faults out.old })
        (record { written = O.written out.old; faults = O.faults out.old }) }
    ensures all { IfOk result (λ end. EncodesInput D.tells (D.state deck.old) (D.state deck.new)
        (O.written out.old) (O.written out.new) (answer_of end)) }
    ensures part { OnErr result (EncodesInput D.tells (D.state deck.old) (D.state deck.new)
        (O.written out.old) (O.written out.new) Outcome.WriteFault) }
    ensures input_fault { IfOk result (λ end. end ≡ InputEnd.Fault → Rose (D.state deck.old).input_faults (D.state deck.new).input_faults) }
    ensures no_input_fault { IfOk result (λ end. end ≢ InputEnd.Fault → (D.state deck.new).input_faults ≡ (D.state deck.old).input_faults) }
    ensures write_fault { OnErr result (Rose (O.faults out.old) (O.faults out.new)) }
    ensures no_fault { OnOk result (O.faults out.new ≡ O.faults out.old) }
    ensures disk { LeavesDisk (D.state deck.old) (D.state deck.new) }
    ensures announced { (D.state deck.new).announced ≡ (D.state deck.old).announced }
    ensures bounded { (D.state deck.new).taken ≤ (D.state deck.old).taken + most_input_bytes + piece_bytes }
{
    let end = take_pieces(encoding, MAX_INPUT_BYTES, deck, out)?;
    encoding.text.finish(out)?;
    Ok(end)
}

/// Encodes the deck's input. All memory is taken before the first pull.
fn encode_bits<D: Deck, O: Sink>(alloc: Global, deck: &mut D, out: &mut O) -> Outcome
    ensures answer { (result ≡ Outcome.NoMemory) ⊎ IsOwn encode_bytes result }
    ensures encodes { result ≢ Outcome.NoMemory
        → EncodesInput D.tells (D.state deck.old) (D.state deck.new) (O.written out.old) (O.written out.new) result }
    ensures input_fault { result ≡ Outcome.ReadFault input.Line → Rose (D.state deck.old).input_faults (D.state deck.new).input_faults }
    ensures no_input_fault { result ≢ Outcome.ReadFault input.Line → result ≢ Outcome.WriteFault
        → (D.state deck.new).input_faults ≡ (D.state deck.old).input_faults }
    ensures write_fault { result ≡ Outcome.WriteFault → Rose (O.faults out.old) (O.faults out.new) }
    ensures no_write_fault { result ≢ Outcome.WriteFault → O.faults out.new ≡ O.faults out.old }
    ensures no_memory { result ≡ Outcome.NoMemory → O.written out.new ≡ O.written out.old }
    ensures no_memory_faults { result ≡ Outcome.NoMemory → O.faults out.new ≡ O.faults out.old }
    ensures no_memory_input { result ≡ Outcome.NoMemory → KeepsInputAndFaults (D.state deck.old) (D.state deck.new) }
    ensures disk { LeavesDisk (D.state deck.old) (D.state deck.new) }
    ensures announced { (D.state deck.new).announced ≡ (D.state deck.old).announced }
    ensures bounded { (D.state deck.new).taken ≤ (D.state deck.old).taken + most_input_bytes + piece_bytes }
{
    let Ok(text) = OutBuffer::new(alloc) else {
        return Outcome::NoMemory;
    };
    let mut encoding = Encoding {
        encoder: Encoder::new(false),
        text,
    };
    match write_levels(&mut encoding, deck, out) {
        Ok(end) => answer_of(end),
        Err(Failed) => Outcome::WriteFault,
    }
}

/// `encode`: writes the Harvard biphase levels of the bits of the input. The level before the first cell is 0.
pub fn encode<D: Deck, O: Sink>(alloc: Global, deck: &mut D, out: &mut O) -> Outcome
    ensures works { (t : TableRows) → Works encode_bytes t (record {
      tells = D.tells;
      old = D.state deck.old;
      new = D.state deck.new;
      written_before = O.written out.old;
      written_now = O.written out.new;
      sink_before = O.faults out.old;
      sink_now = O.faults out.new;
      answer = result;
    }) }
{
    encode_bits(alloc, deck, out)
}
