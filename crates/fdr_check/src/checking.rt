ghost use Rattle.std.specs.Prelude.{◌≡◌, ℕ, Err, Some, None, IfOk};
ghost use Rattle.fdr_table.specs.Answers.{refused};
ghost use Rattle.fdr_table.specs.declared.fault.TableFault.{TableFault};
ghost use Rattle.fdr_check.specs.Faults.{table_fault};
ghost use Rattle.fdr_check.specs.Soundness.{IsSound};

use crate::faults::table_fault;
use crate::sound::Sound;
use fdr_table::{Refusal, Table, TableError};
use std::alloc::Global;

/// Checks a table: answers it as a sound one, or refuses it for its first fault.
pub fn check(alloc: Global, t: Table) -> Result<Sound, TableError>
    ensures table { IfOk result (λ s. s ≡ t) }
    ensures no_fault { IfOk result (λ s. table_fault t ≡ None) }
    ensures sound { IfOk result IsSound }
    ensures refused { (row : ℕ) (f : TableFault) → result ≡ Err (refused row f) → table_fault t ≡ Some (row, f) }
    ensures unsound { (row : ℕ) (f : TableFault) → result ≡ Err (refused row f) → IsSound t → ⊥ }
{
    match table_fault(alloc, &t)? {
        Some((row, fault)) => Err(TableError::Refused(Refusal { row, fault })),
        None => Ok(Sound::new(t)),
    }
}
