//! Reading the table's bytes from a source.

ghost use Rattle.std.specs.Prelude.{◌≡◌, ◌+◌, ◌≤◌, ◌<◌, ℕ, List, [], length, IfSome, IfOk, OnOk, vec_len, IsErrOf};
ghost use Rattle.fdr_io.specs.Faults.{Rose};
ghost use Rattle.fdr_io.specs.Limits.{piece_bytes};
ghost use Rattle.fdr_io.specs.Told.{preceded_by};
ghost use Rattle.fdr_table.specs.Bounds.{most_table_bytes};
ghost use Rattle.fdr_load.specs.Limits.{TakesAtMost};

use fdr_io::{Failed, PIECE, Source};
use fdr_table::{MAX_TABLE_BYTES, NoMemory};
use std::alloc::Global;

/// Why bytes weren't read.
#[derive(Clone, Copy, Debug, PartialEq, Eq)]
pub enum ReadError {
    /// The source's count of faults rose.
    Failed,
    /// There was not enough memory for them.
    NoMemory,
}

/// Reads a piece of at most 4,096 bytes to the end of `bytes`, and answers how many; none only at the source's end.
fn read_piece<T: Source>(source: &mut T, bytes: &mut Vec<u8>) -> Result<usize, ReadError>
    ensures counted { IfOk result (λ n. vec_len bytes.new ≡ vec_len bytes.old + n) }
    ensures moved { OnOk result (preceded_by bytes.new.items (T.rest source.new) ≡ preceded_by bytes.old.items (T.rest source.old)) }
    ensures end { IfOk result (λ n. n ≡ 0 → IfSome (T.rest source.new) (λ left. left ≡ [])) }
    ensures failed { IsErrOf result ReadError.Failed → Rose (T.faults source.old) (T.faults source.new) }
    ensures kept { IsErrOf result ReadError.Failed → T.rest source.new ≡ T.rest source.old }
    ensures same { IsErrOf result ReadError.Failed → bytes.new.items ≡ bytes.old.items }
    ensures within_piece { IfOk result (λ n. n ≤ piece_bytes) }
    ensures no_fault { (IsErrOf result ReadError.Failed → ⊥) → T.faults source.new ≡ T.faults source.old }
    ensures bounded { TakesAtMost piece_bytes (T.rest source.old) (T.rest source.new) }
    ensures monotone { T.faults source.old ≤ T.faults source.new }
{
    let mut piece = [0; PIECE];
    match source.read(&mut piece) {
        Ok(n) => match bytes.extend_from_slice(&piece[..n]) {
            Ok(()) => Ok(n),
            Err(_) => Err(ReadError::NoMemory),
        },
        Err(Failed) => Err(ReadError::Failed),
    }
}

/// Reads the source to its end, or until more than the most bytes of a table are read: then at most one piece more.
pub fn read_table_bytes<T: Source>(alloc: Global, source: &mut T) -> Result<Vec<u8>, ReadError>
    ensures taken { IfOk result (λ bytes. T.rest source.old ≡ preceded_by bytes.items (T.rest source.new)) }
    ensures whole { IfOk result (λ bytes. vec_len bytes ≤ most_table_bytes → IfSome (T.rest source.new) (λ left. left ≡ [])) }
    ensures failed { IsErrOf result ReadError.Failed → Rose (T.faults source.old) (T.faults source.new) }
    ensures within_limit { IsErrOf result ReadError.Failed → ((bytes : List ℕ) × (length bytes ≤ most_table_bytes) × (T.rest source.old ≡ preceded_by bytes (T.rest source.new))) }
    ensures bounded { TakesAtMost (most_table_bytes + piece_bytes) (T.rest source.old) (T.rest source.new) }
    ensures within { IfOk result (λ bytes. vec_len bytes ≤ most_table_bytes + piece_bytes) }
    ensures no_fault { (IsErrOf result ReadError.Failed → ⊥) → T.faults source.new ≡ T.faults source.old }
    ensures monotone { T.faults source.old ≤ T.faults source.new }
{
    let mut bytes = Vec::new(alloc);
    while bytes.len() <= MAX_TABLE_BYTES {
        match read_piece(source, &mut bytes) {
            Ok(0) => return Ok(bytes),
            Ok(_) => {}
            Err(error) => return Err(error),
        }
    }
    Ok(bytes)
}
