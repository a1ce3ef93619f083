//! The stream of the trace on a deck's input.

ghost use Rattle.std.specs.Prelude.{◌≡◌, ◌≢◌, ◌≤◌, ◌+◌, ℕ, List, [], ◌∷◌, ◌++◌, Option, length, take, OnOk, OnErr, IfOk, IsTrue, ◌⊎◌};
ghost use Rattle.fdr_io.specs.Faults.{Rose};
ghost use Rattle.fdr_io.specs.Told.{followed_by};
ghost use Rattle.fdr_deck.specs.Calls.{LeavesDisk};
ghost use Rattle.fdr_sampler.specs.Stream.{stream_of};
ghost use Rattle.fdr_bus.specs.declared.BusRecord.{BusRecord};
ghost use Rattle.fdr_stream.specs.Past.{RepresentsStream};
ghost use Rattle.fdr_top.specs.Answers.{IsOwn, KeepsInputAndFaults};
ghost use Rattle.fdr_top.specs.Stream.{Streams, WritesStreamPart};
ghost use Rattle.fdr_top.specs.Streaming.{past_of, due_text, ComesNext, IsStreamed, IsStreamedTo, IsStreamedPart, IsUnbegun};
ghost use Rattle.fdr_table.specs.Rows.{TableRows};
ghost use Rattle.fdr_words.specs.Forms.{stream_line};
ghost use Rattle.fdr_top.specs.Commands.{Works};
ghost use Rattle.fdr_table.specs.Ranges.{IsInRange};
ghost use Rattle.fdr_check.specs.Soundness.{IsSound};

use crate::ends::answer_of_stop;
use crate::outcome::Outcome;
use fdr_bus::{BusRecord, RecordKind};
use fdr_check::Sound;
use fdr_deck::Deck;
use fdr_io::{Failed, Input, Sink, write_whole};
use fdr_slot::MAX_PAYLOAD;
use fdr_stream::{Fed, Stream};
use fdr_table::NoMemory;
use fdr_trace::TraceLine;
use std::alloc::Global;

/// How many bytes of the stream are written at a time.
const PAYLOAD: usize = MAX_PAYLOAD;

/// The seconds of the longest recording.
const MAX_SECONDS: u32 = 1_440_000;

/// More blocks than a recording has: a second has at most 1,024 words of 12 bits, which fill three eighths of a block.
const MANY_BLOCKS: u32 = MAX_SECONDS * 3 / 8 + 1;

/// What is kept while a trace is streamed. It takes all its memory when it is made.
#[derive(Drop)]
struct Recording {
    trace: TraceLine,
    stream: Stream,
}

impl Recording {
    fn new(alloc: Global, sound: &Sound) -> Result<Recording, NoMemory>
        ensures { IfOk result (λ r. IsUnbegun r sound.now) }
    {
        let trace = TraceLine::new(alloc)?;
        let stream = Stream::new(alloc, sound, PAYLOAD as u32)?;
        Ok(Recording { trace, stream })
    }
}

/// Feeds a record to the stream, and writes the blocks that are due at it. `block` has room for one.
fn write_record<O: Sink>(
    stream: &mut Stream,
    next: &BusRecord,
    block: &mut [u8],
    out: &mut O,
) -> Result<(), Failed>
    requires room { length block.old ≡ 4096 }
    requires fed { (t : TableRows) × (records : List BusRecord) × RepresentsStream stream.old (past_of t records) × ComesNext records next.now }
    ensures all { OnOk result ((t : TableRows) (records : List BusRecord) (before : Option (List ℕ))
        → IsStreamed stream.old t records before (O.written out.old) → ComesNext records next.now
        → IsStreamed stream.new t (records ++ next.now ∷ []) before (O.written out.new)) }
    ensures part { OnErr result ((t : TableRows) (records : List BusRecord) (before : Option (List ℕ))
        → IsStreamed stream.old t records before (O.written out.old) → ComesNext records next.now
        → (k : ℕ) × (O.written out.new ≡ followed_by before (take k (due_text t (records ++ next.now ∷ []))))) }
    ensures cause { OnErr result (Rose (O.faults out.old) (O.faults out.new)) }
    ensures no_fault { OnOk result (O.faults out.new ≡ O.faults out.old) }
    ensures monotone { O.faults out.old ≤ O.faults out.new }
{
    for i in 0..MANY_BLOCKS {
        match stream.feed(next, block) {
            Fed::Taken => return Ok(()),
            Fed::Block => write_whole(out, block)?,
        }
    }
    unreachable!()
}

/// Writes the last bytes of the stream.
fn write_rest<O: Sink>(stream: &mut Stream, block: &mut [u8], out: &mut O) -> Result<(), Failed>
    requires room { length block.old ≡ 4096 }
    requires fed { (t : TableRows) × (records : List BusRecord) × RepresentsStream stream.old (past_of t records) }
    ensures all { OnOk result ((t : TableRows) (records : List BusRecord) (before : Option (List ℕ))
        → IsStreamed stream.old t records before (O.written out.old)
        → O.written out.new ≡ followed_by before (stream_of t records)) }
    ensures part { OnErr result ((t : TableRows) (records : List BusRecord) (before : Option (List ℕ))
        → IsStreamed stream.old t records before (O.written out.old)
        → (k : ℕ) × (O.written out.new ≡ followed_by before (take k (stream_of t records)))) }
    ensures cause { OnErr result (Rose (O.faults out.old) (O.faults out.new)) }
    ensures no_fault { OnOk result (O.faults out.new ≡ O.faults out.old) }
    ensures monotone { O.faults out.old ≤ O.faults out.new }
{
    let count = stream.finish(block);
    write_whole(out, &block[..count])
}

/// Streams the records of a trace up to its end, or to where no further one comes, and gives the answer. The last bytes,
/// which fill no block, are not written yet.
fn stream_records<D: Deck, O: Sink>(
    recording: &mut Recording,
    block: &mut [u8],
    deck: &mut D,
    out: &mut O,
) -> Result<Outcome, Failed>
    requires room { length block.old ≡ 4096 }
    requires fresh { (t : TableRows) × IsUnbegun recording.old t }
    ensures all { (t : TableRows) → IsUnbegun recording.old t → IfOk result (λ answer.
        IsStreamedTo t D.tells (D.state deck.old) (D.state deck.new) recording.new.stream (O.written out.old) (O.written out.new) answer) }
    ensures part { (t : TableRows) → IsUnbegun recording.old t → OnErr result (
        IsStreamedPart t D.tells (D.state deck.old) (D.state deck.new) (O.written out.old) (O.written out.new)) }
    ensures cause { OnErr result (Rose (O.faults out.old) (O.faults out.new)) }
    ensures no_fault { OnOk result (O.faults out.new ≡ O.faults out.old) }
    ensures monotone { O.faults out.old ≤ O.faults out.new }
    ensures disk { LeavesDisk (D.state deck.old) (D.state deck.new) }
    ensures announced { (D.state deck.new).announced ≡ (D.state deck.old).announced }
{
    loop {
        let next = match recording.trace.next(deck) {
            Ok(next) => next,
            Err(stop) => return Ok(answer_of_stop(stop)),
        };
        write_record(&mut recording.stream, &next, block, out)?;
        match next.kind {
            RecordKind::Word => {}
            RecordKind::End => return Ok(Outcome::Done),
        }
    }
}

/// Streams the trace of the deck's input, and gives the answer.
fn stream_trace<D: Deck, O: Sink>(recording: &mut Recording, deck: &mut D, out: &mut O) -> Outcome
    requires { (t : TableRows) × IsUnbegun recording.old t }
    ensures answer { (path : List ℕ) → IsOwn (stream_line path) result }
    ensures streams { (t : TableRows) → IsUnbegun recording.old t
        → Streams t D.tells (D.state deck.old) (D.state deck.new) (O.written out.old) (O.written out.new) result }
    ensures input_fault { result ≡ Outcome.ReadFault Input.Line → Rose (D.state deck.old).input_faults (D.state deck.new).input_faults }
    ensures write_fault { result ≡ Outcome.WriteFault → Rose (O.faults out.old) (O.faults out.new) }
    ensures no_write_fault { result ≢ Outcome.WriteFault → O.faults out.new ≡ O.faults out.old }
    ensures part_of_whole { (t : TableRows) → IsUnbegun recording.old t → IsTrue D.tells.input
        → (Rose (D.state deck.old).input_faults (D.state deck.new).input_faults → ⊥)
        → WritesStreamPart t (D.state deck.old) (O.written out.old) (O.written out.new) }
    ensures disk { LeavesDisk (D.state deck.old) (D.state deck.new) }
    ensures announced { (D.state deck.new).announced ≡ (D.state deck.old).announced }
{
    let mut block = [0; PAYLOAD];
    let answer = match stream_records(recording, &mut block, deck, out) {
        Ok(answer) => answer,
        Err(Failed) => return Outcome::WriteFault,
    };
    match write_rest(&mut recording.stream, &mut block, out) {
        Ok(()) => answer,
        Err(Failed) => Outcome::WriteFault,
    }
}

/// Streams the trace of the deck's input by a table.
fn stream_sound<D: Deck, O: Sink>(
    alloc: Global,
    sound: &Sound,
    deck: &mut D,
    out: &mut O,
) -> Outcome
    ensures answer { (path : List ℕ) → (result ≡ Outcome.NoMemory) ⊎ IsOwn (stream_line path) result }
    ensures streams { result ≢ Outcome.NoMemory
        → Streams sound.now D.tells (D.state deck.old) (D.state deck.new) (O.written out.old) (O.written out.new) result }
    ensures input_fault { result ≡ Outcome.ReadFault Input.Line → Rose (D.state deck.old).input_faults (D.state deck.new).input_faults }
    ensures write_fault { result ≡ Outcome.WriteFault → Rose (O.faults out.old) (O.faults out.new) }
    ensures no_write_fault { result ≢ Outcome.WriteFault → O.faults out.new ≡ O.faults out.old }
    ensures part_of_whole { result ≢ Outcome.NoMemory → IsTrue D.tells.input
        → (Rose (D.state deck.old).input_faults (D.state deck.new).input_faults → ⊥)
        → WritesStreamPart sound.now (D.state deck.old) (O.written out.old) (O.written out.new) }
    ensures no_memory { result ≡ Outcome.NoMemory → O.written out.new ≡ O.written out.old }
    ensures no_memory_faults { result ≡ Outcome.NoMemory → O.faults out.new ≡ O.faults out.old }
    ensures no_memory_input { result ≡ Outcome.NoMemory → KeepsInputAndFaults (D.state deck.old) (D.state deck.new) }
    ensures disk { LeavesDisk (D.state deck.old) (D.state deck.new) }
    ensures announced { (D.state deck.new).announced ≡ (D.state deck.old).announced }
{
    match Recording::new(alloc, sound) {
        Ok(mut recording) => stream_trace(&mut recording, deck, out),
        Err(NoMemory) => Outcome::NoMemory,
    }
}

/// `stream`: streams the trace of the input by a table.
pub fn stream<D: Deck, O: Sink>(alloc: Global, sound: &Sound, deck: &mut D, out: &mut O) -> Outcome
    requires in_range { IsInRange sound.now }
    requires sound { IsSound sound.now }
    ensures works { (path : List ℕ) → Works (stream_line path) sound.now (record {
      tells = D.tells;
      old = D.state deck.old;
      new = D.state deck.new;
      written_before = O.written out.old;
      written_now = O.written out.new;
      sink_before = O.faults out.old;
      sink_now = O.faults out.new;
      answer = result;
    }) }
{
    stream_sound(alloc, sound, deck, out)
}
