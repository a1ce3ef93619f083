//! Reading and checking the table of a source.

ghost use Rattle.std.specs.Prelude.{◌≡◌, ◌≢◌, ◌+◌, ◌≤◌, ℕ, List, [], length, IfOk, IfSome, Err};
ghost use Rattle.fdr_io.specs.Faults.{Rose};
ghost use Rattle.fdr_io.specs.Limits.{piece_bytes};
ghost use Rattle.fdr_io.specs.Told.{preceded_by};
ghost use Rattle.fdr_frame.specs.WordCount.{IsWordCount};
ghost use Rattle.fdr_table.specs.Bounds.{most_table_bytes};
ghost use Rattle.fdr_table.specs.Ranges.{IsInRange};
ghost use Rattle.fdr_table.specs.declared.fault.TableFault.{TableFault};
ghost use Rattle.fdr_check.specs.Soundness.{IsSound};
ghost use Rattle.fdr_load.specs.Limits.{TakesAtMost};
ghost use Rattle.fdr_load.specs.Tables.{IsAccepted, IsTableRefused, load_fault, table_in};

use crate::reading::{ReadError, read_table_bytes};
use fdr_check::{Sound, check};
use fdr_io::Source;
use fdr_table::{Table, TableError, TableFault};
use std::alloc::Global;

/// Why a source gives no table.
#[derive(Clone, Copy, Debug, PartialEq, Eq)]
pub enum LoadFault {
    /// The table is refused for this fault in this row. Rows are counted from 0.
    Refused { row: u32, fault: TableFault },
    /// The source couldn't be read: its count of faults rose in this call.
    Failed,
    /// There was not enough memory.
    NoMemory,
}

/// Why there is no table, where its bytes give none.
fn fault_of(error: TableError) -> LoadFault
    ensures { result ≡ load_fault error }
{
    match error {
        TableError::Refused(refusal) => LoadFault::Refused {
            row: refusal.row,
            fault: refusal.fault,
        },
        TableError::NoMemory => LoadFault::NoMemory,
    }
}

/// The sound table of these bytes, or why there is none.
#[tactic(auto, unfolding(crate::specs::Tables::fault_in))]
fn table_of(alloc: Global, bytes: &[u8]) -> Result<Sound, LoadFault>
    ensures table { IfOk result (λ s. s ≡ table_in bytes.now) }
    ensures accepted { IfOk result (λ s. IsAccepted bytes.now) }
    ensures within_limit { IfOk result (λ s. length bytes.now ≤ most_table_bytes) }
    ensures in_range { IfOk result IsInRange }
    ensures sound { IfOk result IsSound }
    ensures word_count { IfOk result (λ s. IsWordCount s.frame.words) }
    ensures refused { (row : ℕ) (f : TableFault) → result ≡ Err (LoadFault.Refused row f) → IsTableRefused bytes.now row f }
    ensures no_fault { result ≢ Err LoadFault.Failed }
{
    let table = match Table::read(alloc, bytes) {
        Ok(table) => table,
        Err(error) => return Err(fault_of(error)),
    };
    match check(alloc, table) {
        Ok(sound) => Ok(sound),
        Err(error) => Err(fault_of(error)),
    }
}

/// Reads a source to its end and gives its table, which is sound, or why there is none. Once more bytes than a table may have
/// are read, at most one piece more is.
pub fn load_table<T: Source>(alloc: Global, source: &mut T) -> Result<Sound, LoadFault>
    ensures table { IfOk result (λ s. (bytes : List ℕ) × IsAccepted bytes × (s ≡ table_in bytes)
        × (T.rest source.old ≡ preceded_by bytes (T.rest source.new))) }
    ensures end { IfOk result (λ s. IfSome (T.rest source.new) (λ left. left ≡ [])) }
    ensures in_range { IfOk result IsInRange }
    ensures sound { IfOk result IsSound }
    ensures word_count { IfOk result (λ s. IsWordCount s.frame.words) }
    ensures refused { (row : ℕ) (f : TableFault) → result ≡ Err (LoadFault.Refused row f)
        → (bytes : List ℕ) × IsTableRefused bytes row f × (T.rest source.old ≡ preceded_by bytes (T.rest source.new))
        × (length bytes ≤ most_table_bytes → IfSome (T.rest source.new) (λ left. left ≡ []))
        × (length bytes ≤ most_table_bytes + piece_bytes) }
    ensures fault { result ≡ Err LoadFault.Failed → Rose (T.faults source.old) (T.faults source.new) }
    ensures no_fault { result ≢ Err LoadFault.Failed → T.faults source.new ≡ T.faults source.old }
    ensures fault_within_limit { result ≡ Err LoadFault.Failed
        → (bytes : List ℕ) × (length bytes ≤ most_table_bytes) × (T.rest source.old ≡ preceded_by bytes (T.rest source.new)) }
    ensures bounded { TakesAtMost (most_table_bytes + piece_bytes) (T.rest source.old) (T.rest source.new) }
    ensures monotone { T.faults source.old ≤ T.faults source.new }
{
    match read_table_bytes(alloc, source) {
        Ok(bytes) => table_of(alloc, &bytes),
        Err(ReadError::Failed) => Err(LoadFault::Failed),
        Err(ReadError::NoMemory) => Err(LoadFault::NoMemory),
    }
}
