//! The report of a table.

ghost use Rattle.std.specs.Prelude.{◌≡◌, ◌⊎◌, ℕ, List, ◌≢◌};
ghost use Rattle.fdr_io.specs.Faults.{Rose};
ghost use Rattle.fdr_top.specs.Answers.{IsOwn};
ghost use Rattle.fdr_top.specs.Check.{Reports};
ghost use Rattle.fdr_words.specs.Forms.{check_table};

use crate::outcome::Outcome;
use fdr_check::{Sound, report};
use fdr_io::{Failed, Sink, write_whole};
use fdr_table::NoMemory;
use std::alloc::Global;

/// `check`: writes the report of a table.
pub fn write_report<O: Sink>(alloc: Global, sound: &Sound, out: &mut O) -> Outcome
    ensures answer { (path : List ℕ) → (result ≡ Outcome.NoMemory) ⊎ IsOwn (check_table path) result }
    ensures reports { Reports sound.now (O.written out.old) (O.written out.new) result }
    ensures write_fault { result ≡ Outcome.WriteFault → Rose (O.faults out.old) (O.faults out.new) }
    ensures no_write_fault { result ≢ Outcome.WriteFault → O.faults out.new ≡ O.faults out.old }
    ensures no_memory { result ≡ Outcome.NoMemory → out.new ≡ out.old }
{
    let text = match report(alloc, sound) {
        Ok(text) => text,
        Err(NoMemory) => return Outcome::NoMemory,
    };
    match write_whole(out, &text) {
        Ok(()) => Outcome::Done,
        Err(Failed) => Outcome::WriteFault,
    }
}
