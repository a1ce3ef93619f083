ghost use Rattle.std.specs.Prelude.{◌≡◌, None};
ghost use Rattle.fdr_table.specs.Ranges.{IsInRange};
ghost use Rattle.fdr_check.specs.Faults.{table_fault};
ghost use Rattle.fdr_check.specs.Soundness.{IsSound};

use fdr_table::Table;
use std::marker::Model;

/// A sound parameter table.
#[derive(Drop)]
pub struct Sound {
    table: Table,
}

impl Model for Sound {
    ghost use Rattle.fdr_table.specs.Rows.{TableRows};
    ghost use Rattle.fdr_table.specs.Ranges.{IsInRange};
    ghost use Rattle.fdr_check.specs.Soundness.{IsSound};

    ghost Value = { TableRows };

    ghost view = { λ s. s.table };

    ghost invariant = { λ s. IsInRange s.table × IsSound s.table };
}

impl Sound {
    /// The table as a sound one.
    pub(crate) fn new(table: Table) -> Sound
        requires in_range { IsInRange table }
        requires no_fault { table_fault table ≡ None }
        ensures { result ≡ table }
    {
        Sound { table }
    }

    /// The table, with what is known of it.
    pub(crate) fn checked(&self) -> &Table
        ensures table { result.now ≡ self.now }
        ensures in_range { IsInRange self.now }
        ensures sound { IsSound self.now }
    {
        &self.table
    }

    /// The table.
    pub fn table(&self) -> &Table
        ensures { result.now ≡ self.now }
    {
        &self.table
    }

    /// What holds of every sound table. It does no work.
    pub fn holds(&self)
        ensures in_range { IsInRange self.now }
        ensures sound { IsSound self.now }
    {
        let _ = &self.table;
    }
}
