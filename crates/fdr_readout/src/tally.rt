//! The taker that counts.

ghost use Rattle.std.specs.Prelude.{◌≡◌};
ghost use Rattle.fdr_readout.specs.Summary.{Tallies, no_summary};
ghost use Rattle.fdr_readout.specs.TakersSound.{tally_laws};

use crate::takers::Taker;
use fdr_io::{Failed, Sink};
use fdr_listing::Line;
use fdr_recon::Row;
use fdr_table::Table;

/// How many frames and rows bits have, and what the rows' values add up to.
#[derive(Clone, Copy, Debug, PartialEq, Eq)]
pub struct Summary {
    /// The accepted frames.
    pub frames: u64,
    /// The rows.
    pub rows: u64,
    /// The sum of the rows' values, modulo `2^64`.
    pub sum: u64,
}

impl Summary {
    /// The summary of nothing.
    pub fn new() -> Self
        ensures { result ≡ no_summary }
    {
        Summary {
            frames: 0,
            rows: 0,
            sum: 0,
        }
    }
}

/// Counts what it takes, except lines, and never fails.
impl<O: Sink> Taker<O> for Summary {
    ghost took = { λ t before out_before now out_now entries. Tallies before now entries };

    ghost failed_in = { λ t before out_before out_now entries. ⊥ };

    fn gap(&mut self, from: u64, bits: u64, out: &mut O) -> Result<(), Failed> {
        Ok(())
    }

    fn frame(&mut self, linked: bool, out: &mut O) -> Result<(), Failed> {
        self.frames = self.frames.wrapping_add(1);
        Ok(())
    }

    fn row(&mut self, table: &Table, row: &Row, out: &mut O) -> Result<(), Failed> {
        self.rows = self.rows.wrapping_add(1);
        self.sum = self.sum.wrapping_add_signed(row.value);
        Ok(())
    }

    fn line(&mut self, line: &Line, out: &mut O) -> Result<(), Failed> {
        Ok(())
    }

    ghost laws = { tally_laws };
}
