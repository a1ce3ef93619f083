//! The table of a command.

ghost use Rattle.std.specs.Prelude.{◌≡◌, ◌≢◌, ◌+◌, ◌≤◌, ℕ, List, [], length, IfOk, IfErr, IfSome, Err};
ghost use Rattle.fdr_io.specs.Faults.{Rose};
ghost use Rattle.fdr_io.specs.Told.{preceded_by};
ghost use Rattle.fdr_frame.specs.WordCount.{IsWordCount};
ghost use Rattle.fdr_table.specs.Bounds.{most_table_bytes};
ghost use Rattle.fdr_table.specs.Ranges.{IsInRange};
ghost use Rattle.fdr_table.specs.declared.fault.TableFault.{TableFault};
ghost use Rattle.fdr_check.specs.Soundness.{IsSound};
ghost use Rattle.fdr_load.specs.Limits.{TakesAtMost};
ghost use Rattle.fdr_load.specs.Tables.{IsAccepted, IsTableRefused, table_in};
ghost use Rattle.fdr_top.specs.Stages.{IsOfTable};
ghost use Rattle.fdr_io.specs.Limits.{piece_bytes};
ghost use Rattle.fdr_top.specs.Tables.{load_answer};

use crate::outcome::Outcome;
use fdr_check::Sound;
use fdr_io::{Input, Source};
use fdr_load::LoadFault;
use std::alloc::Global;

/// The answer where a source gives no table.
fn answer_of(fault: LoadFault) -> Outcome
    ensures { result ≡ load_answer fault }
{
    match fault {
        LoadFault::Refused { row, fault } => Outcome::TableRefused { row, fault },
        LoadFault::Failed => Outcome::ReadFault(Input::Table),
        LoadFault::NoMemory => Outcome::NoMemory,
    }
}

/// Reads a source to its end and gives its table, which is sound, or the answer where there is none.
pub fn load_table<T: Source>(alloc: Global, source: &mut T) -> Result<Sound, Outcome>
    ensures table { IfOk result (λ s. (bytes : List ℕ) × IsAccepted bytes × (s ≡ table_in bytes)
        × (T.rest source.old ≡ preceded_by bytes (T.rest source.new))) }
    ensures end { IfOk result (λ s. IfSome (T.rest source.new) (λ left. left ≡ [])) }
    ensures in_range { IfOk result IsInRange }
    ensures sound { IfOk result IsSound }
    ensures word_count { IfOk result (λ s. IsWordCount s.frame.words) }
    ensures refused { (row : ℕ) (f : TableFault) → result ≡ Err (Outcome.TableRefused row f)
        → (bytes : List ℕ) × IsTableRefused bytes row f × (T.rest source.old ≡ preceded_by bytes (T.rest source.new))
        × (length bytes ≤ most_table_bytes → IfSome (T.rest source.new) (λ left. left ≡ []))
        × (length bytes ≤ most_table_bytes + piece_bytes) }
    ensures answers { IfErr result IsOfTable }
    ensures fault { result ≡ Err (Outcome.ReadFault Input.Table) → Rose (T.faults source.old) (T.faults source.new) }
    ensures no_fault { result ≢ Err (Outcome.ReadFault Input.Table) → T.faults source.new ≡ T.faults source.old }
    ensures fault_within_limit { result ≡ Err (Outcome.ReadFault Input.Table)
        → (bytes : List ℕ) × (length bytes ≤ most_table_bytes) × (T.rest source.old ≡ preceded_by bytes (T.rest source.new)) }
    ensures bounded { TakesAtMost (most_table_bytes + piece_bytes) (T.rest source.old) (T.rest source.new) }
    ensures monotone { T.faults source.old ≤ T.faults source.new }
{
    match fdr_load::load_table(alloc, source) {
        Ok(sound) => Ok(sound),
        Err(fault) => Err(answer_of(fault)),
    }
}
