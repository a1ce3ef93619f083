//! Commands over objects that never fail, where no fault can stand for an answer, and recordings in a deck in memory as it is
//! made, of which all premises hold.
#![tactic(auto)]

ghost use Rattle.std.specs.Prelude.{◌≡◌, ◌<◌, ◌≤◌, ◌⊎◌, ◌↔◌, true, ℕ, List, Option, length, map, string_bytes, Some, None};
ghost use Rattle.fdr_biphase.specs.Cells.{bits_of_bytes};
ghost use Rattle.fdr_biphase.specs.Phases.{missing_place};
ghost use Rattle.fdr_bus.specs.Records.{good_prefix, has_end};
ghost use Rattle.fdr_deck.specs.Sure.{sure_state};
ghost use Rattle.fdr_pieces.specs.Limits.{most_input_bytes};
ghost use Rattle.fdr_words.specs.Forms.{check_table, decode_levels, drill_image, encode_bytes, exceed_image, form_of, format_image, list_bits, list_image, record_line, recover_image, salvage_image, stream_line, upgrade_image};
ghost use Rattle.fdr_recover.specs.ImageHeader.{image_fault_of, IsFor};
ghost use Rattle.fdr_gen.specs.Trace.{generated_trace};
ghost use Rattle.fdr_exceed.specs.RuleFaults.{rules_fault};
ghost use Rattle.fdr_top.specs.Complete.{HasRoom};
ghost use Rattle.fdr_top.specs.Salvage.{CanBeSalvaged};
ghost use Rattle.fdr_load.specs.Tables.{IsAccepted, table_in};

mod in_memory;

use fdr_deck::SureDeck;
use fdr_io::{NullSink, SureSource};
use fdr_top::{Outcome, run};
pub use in_memory::{Ran, made_deck, run_in_memory};
use std::alloc::Global;

/// Runs a command over a source, a deck and a sink that never fail. Words of no form give `Usage`. A table that is
/// accepted, and for `listbits` a line of at most 268,435,456 bytes, for `stream` a trace with an end record, give `Done`,
/// unless memory ends. So do an input of at most 268,435,456 bytes for `encode`, and for `decode` where no place is missing
/// in its levels; an image without faults for `recover` and `upgrade`, one for the table's frames for `list`, the same with
/// rules without faults for `exceed`, one that can be salvaged for `salvage`, and one of version 2 with numbers enough for all
/// blocks for `record` and `drill`. `format` answers `NotEmpty` where the deck has an image, as a
/// new one has: a deck that never fails can't take room.
pub fn sure_command(
    alloc: Global,
    words: &[String],
    table: &mut SureSource,
    deck: &mut SureDeck,
    out: &mut NullSink,
) -> Outcome
    ensures usage { (result ≡ Outcome.Usage) ↔ (form_of (map string_bytes words.now) ≡ None) }
    ensures report { (path : List ℕ) → form_of (map string_bytes words.now) ≡ Some (check_table path) → IsAccepted table.old
        → (result ≡ Outcome.Done) ⊎ (result ≡ Outcome.NoMemory) }
    ensures recovery { (path : List ℕ) → form_of (map string_bytes words.now) ≡ Some (recover_image path)
        → image_fault_of deck.old.image ≡ None → (result ≡ Outcome.Done) ⊎ (result ≡ Outcome.NoMemory) }
    ensures upgrade { (path : List ℕ) → form_of (map string_bytes words.now) ≡ Some (upgrade_image path)
        → image_fault_of deck.old.image ≡ None → (result ≡ Outcome.Done) ⊎ (result ≡ Outcome.NoMemory) }
    ensures listing { (path : List ℕ) → form_of (map string_bytes words.now) ≡ Some (list_bits path) → IsAccepted table.old
        → length deck.old.input ≤ most_input_bytes → (result ≡ Outcome.Done) ⊎ (result ≡ Outcome.NoMemory) }
    ensures encoding { form_of (map string_bytes words.now) ≡ Some encode_bytes → length deck.old.input ≤ most_input_bytes
        → (result ≡ Outcome.Done) ⊎ (result ≡ Outcome.NoMemory) }
    ensures decoding { form_of (map string_bytes words.now) ≡ Some decode_levels → length deck.old.input ≤ most_input_bytes
        → missing_place (bits_of_bytes deck.old.input) ≡ None → (result ≡ Outcome.Done) ⊎ (result ≡ Outcome.NoMemory) }
    ensures stream { (path : List ℕ) → form_of (map string_bytes words.now) ≡ Some (stream_line path) → IsAccepted table.old
        → has_end (good_prefix deck.old.input) ≡ true → (result ≡ Outcome.Done) ⊎ (result ≡ Outcome.NoMemory) }
    ensures making { (path image : List ℕ) (slots payload : ℕ)
        → form_of (map string_bytes words.now) ≡ Some (format_image path image slots payload) → IsAccepted table.old
        → length deck.old.image ≡ 0 → (result ≡ Outcome.Done) ⊎ (result ≡ Outcome.NoMemory) }
    ensures made_already { (path image : List ℕ) (slots payload : ℕ)
        → form_of (map string_bytes words.now) ≡ Some (format_image path image slots payload) → IsAccepted table.old
        → 0 < length deck.old.image → (result ≡ Outcome.NotEmpty) ⊎ (result ≡ Outcome.NoMemory) }
    ensures recording { (path image : List ℕ) → form_of (map string_bytes words.now) ≡ Some (record_line path image)
        → IsAccepted table.old → has_end (good_prefix deck.old.input) ≡ true
        → HasRoom (table_in table.old) (sure_state deck.old) (good_prefix deck.old.input)
        → (result ≡ Outcome.Done) ⊎ (result ≡ Outcome.NoMemory) }
    ensures image_listing { (path image : List ℕ) → form_of (map string_bytes words.now) ≡ Some (list_image path image)
        → IsAccepted table.old → IsFor (table_in table.old).frame.words deck.old.image
        → (result ≡ Outcome.Done) ⊎ (result ≡ Outcome.NoMemory) }
    ensures salvage { (path image : List ℕ) (ring : Option (ℕ × ℕ))
        → form_of (map string_bytes words.now) ≡ Some (salvage_image path image ring) → IsAccepted table.old
        → CanBeSalvaged (table_in table.old) ring deck.old.image → (result ≡ Outcome.Done) ⊎ (result ≡ Outcome.NoMemory) }
    ensures exceedances { (path image : List ℕ) → form_of (map string_bytes words.now) ≡ Some (exceed_image path image)
        → IsAccepted table.old → rules_fault (table_in table.old) deck.old.input ≡ None
        → IsFor (table_in table.old).frame.words deck.old.image → (result ≡ Outcome.Done) ⊎ (result ≡ Outcome.NoMemory) }
    ensures drill { (path image : List ℕ) (seed frames : ℕ)
        → form_of (map string_bytes words.now) ≡ Some (drill_image path image seed frames) → IsAccepted table.old
        → HasRoom (table_in table.old) (sure_state deck.old) (generated_trace (table_in table.old) seed frames)
        → (result ≡ Outcome.Done) ⊎ (result ≡ Outcome.NoMemory) }
{
    run(alloc, words, table, deck, out)
}
