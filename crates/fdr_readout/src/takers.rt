//! What takes the gaps, the frames and the rows of bits, and lines between them.

ghost use Rattle.std.specs.Prelude.{◌≡◌, ◌≤◌, List, [], ◌∷◌, length, OnOk, OnErr};
ghost use Rattle.fdr_io.specs.Faults.{Rose};
ghost use Rattle.fdr_table.specs.Rows.{TableRows};
ghost use Rattle.fdr_recon.specs.Kept.{IsRow};
ghost use Rattle.fdr_readout.specs.Entries.{Entry, GapEntry, FrameEntry, RowEntry, LineEntry};
ghost use Rattle.fdr_readout.specs.Takers.{TakerLaws};

use fdr_io::{Failed, Sink};
use fdr_listing::Line;
use fdr_recon::Row;
use fdr_table::Table;

/// Takes the gaps, the frames and the rows of bits in their order, and lines between the listings of several bit lists. The
/// rows of a frame follow it. What is handed on goes to the sink beside it.
pub trait Taker<O: Sink> {
    // These entries were taken, from one state of the taker and of the sink to another.
    ghost took: { TableRows → Self → O → Self → O → List Entry → Type 0 };

    // The taker failed in these entries.
    ghost failed_in: { TableRows → Self → O → O → List Entry → Type 0 };

    /// Takes a gap of `bits` bits that begins at bit `from`.
    fn gap(&mut self, from: u64, bits: u64, out: &mut O) -> Result<(), Failed>
        ensures all { (t : TableRows) → OnOk result (took t self.old out.old self.new out.new (GapEntry from bits ∷ [])) }
        ensures part { (t : TableRows) → OnErr result (failed_in t self.old out.old out.new (GapEntry from bits ∷ [])) }
        ensures cause { OnErr result (Rose (O.faults out.old) (O.faults out.new)) }
        ensures no_fault { OnOk result (O.faults out.new ≡ O.faults out.old) }
        ensures monotone { O.faults out.old ≤ O.faults out.new };

    /// Takes a frame, with whether it is linked to the frame before it of the same bits.
    fn frame(&mut self, linked: bool, out: &mut O) -> Result<(), Failed>
        ensures all { (t : TableRows) → OnOk result (took t self.old out.old self.new out.new (FrameEntry linked ∷ [])) }
        ensures part { (t : TableRows) → OnErr result (failed_in t self.old out.old out.new (FrameEntry linked ∷ [])) }
        ensures cause { OnErr result (Rose (O.faults out.old) (O.faults out.new)) }
        ensures no_fault { OnOk result (O.faults out.new ≡ O.faults out.old) }
        ensures monotone { O.faults out.old ≤ O.faults out.new };

    /// Takes a row of the last frame, of one of the table's parameters.
    fn row(&mut self, table: &Table, row: &Row, out: &mut O) -> Result<(), Failed>
        requires { IsRow (length table.now.params) row.now }
        ensures all { OnOk result (took table.now self.old out.old self.new out.new (RowEntry row.now ∷ [])) }
        ensures part { OnErr result (failed_in table.now self.old out.old out.new (RowEntry row.now ∷ [])) }
        ensures cause { OnErr result (Rose (O.faults out.old) (O.faults out.new)) }
        ensures no_fault { OnOk result (O.faults out.new ≡ O.faults out.old) }
        ensures monotone { O.faults out.old ≤ O.faults out.new };

    /// Takes a line of its own, at most 96 bytes, that stands between the listings of two bit lists.
    fn line(&mut self, line: &Line, out: &mut O) -> Result<(), Failed>
        ensures all { (t : TableRows) → OnOk result (took t self.old out.old self.new out.new (LineEntry line.now ∷ [])) }
        ensures part { (t : TableRows) → OnErr result (failed_in t self.old out.old out.new (LineEntry line.now ∷ [])) }
        ensures cause { OnErr result (Rose (O.faults out.old) (O.faults out.new)) }
        ensures no_fault { OnOk result (O.faults out.new ≡ O.faults out.old) }
        ensures monotone { O.faults out.old ≤ O.faults out.new };

    ghost laws: { TakerLaws took failed_in };
}
