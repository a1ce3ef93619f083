//! Recordings in a deck in memory as it is made.

ghost use Rattle.std.specs.Prelude.{◌≡◌, ℕ, List, [], map, string_bytes, Some};
ghost use Rattle.fdr_deck.specs.Memory.{held_in, memory_state};
ghost use Rattle.fdr_table.specs.Rows.{TableRows};
ghost use Rattle.fdr_words.specs.Forms.{form_of, record_line};
ghost use Rattle.fdr_recorder.specs.NewBlocks.{MayRecord};
ghost use Rattle.fdr_top.specs.Tables.{ByTable};
ghost use Rattle.fdr_sure.specs.InMemory.{IsRecordedInMemory};

use fdr_deck::MemDeck;
use fdr_io::{Sink, Source};
use fdr_top::{Outcome, run};
use std::alloc::Global;

/// A deck in memory of this image and this input, whose calls with these numbers fail. What `record` and `drill` promise of
/// stops holds of it, whatever these are.
pub fn made_deck(alloc: Global, image: Vec<u8>, input: Vec<u8>, failing: Vec<u64>) -> MemDeck
    ensures may_record { MayRecord (memory_state result) }
    ensures image { held_in result ≡ image.items }
    ensures input { result.input ≡ input.items }
    ensures failing { result.failing ≡ failing.items }
    ensures unused { result.entries ≡ [] }
{
    MemDeck::new(alloc, image, input, failing)
}

/// What a command answered, and the deck in memory that it used.
#[derive(Drop)]
pub struct Ran {
    pub answer: Outcome,
    pub deck: MemDeck,
}

/// Runs a command over a deck in memory as it is made, and hands out the deck with all calls that it saw. Of `record` all
/// promises on stops hold, with no premise on the deck.
pub fn run_in_memory<T: Source, O: Sink>(
    alloc: Global,
    words: &[String],
    table: &mut T,
    image: Vec<u8>,
    input: Vec<u8>,
    failing: Vec<u64>,
    out: &mut O,
) -> Ran
    ensures { (path at : List ℕ) → form_of (map string_bytes words.now) ≡ Some (record_line path at)
        → ByTable (T.rest table.old) (T.rest table.new) result.answer (λ (t : TableRows). IsRecordedInMemory t image.items input.items result.answer result.deck) }
{
    let mut deck = made_deck(alloc, image, input, failing);
    let answer = run(alloc, words, table, &mut deck, out);
    Ran { answer, deck }
}
