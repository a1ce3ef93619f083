//! Recordings on two disks over objects that never fail, where no fault can stand for an answer, and on a twin in memory as it
//! is made, of which all premises hold.
#![tactic(auto)]

ghost use Rattle.std.specs.Prelude.{◌≡◌, ◌⊎◌, ◌↔◌, true, false, map, string_bytes};
ghost use Rattle.fdr_deck.specs.Sure.{sure_tells};
ghost use Rattle.fdr_twin.specs.SureSides.{sure_pair};
ghost use Rattle.fdr_load.specs.Tables.{IsAccepted, table_in};
ghost use Rattle.fdr_pair.specs.PairWords.{fits_pair_form};
ghost use Rattle.fdr_pair.specs.PairRun.{IsWholePair};

mod in_memory;

use fdr_io::SureSource;
use fdr_pair::{PairOutcome, run_pair};
use fdr_twin::SureTwin;
pub use in_memory::{PairRan, made_twin, run_pair_in_memory};
use std::alloc::Global;

/// Records on two disks, over a source and a twin that never fail. Words that aren't of the form give `Usage`. A table that is
/// accepted, two images that are alike with numbers enough for all blocks, and a trace with an end record give `Done`, unless
/// memory ends.
pub fn sure_recording(
    alloc: Global,
    words: &[String],
    table: &mut SureSource,
    twin: &mut SureTwin,
) -> PairOutcome
    ensures usage { (result ≡ PairOutcome.Usage) ↔ (fits_pair_form (map string_bytes words.now) ≡ false) }
    ensures recording { fits_pair_form (map string_bytes words.now) ≡ true → IsAccepted table.old
        → IsWholePair (table_in table.old) sure_tells (sure_pair twin.old)
        → (result ≡ PairOutcome.Done) ⊎ (result ≡ PairOutcome.NoMemory) }
{
    run_pair(alloc, words, table, twin)
}
