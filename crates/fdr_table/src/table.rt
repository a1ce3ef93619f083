ghost use Rattle.std.specs.Prelude.{◌≡◌, ◌<◌, ℕ, Err, Some, None, IfOk, length, option_map};
ghost use Rattle.fdr_table.specs.Answers.{refused};
ghost use Rattle.fdr_table.specs.Bounds.{most_table_bytes};
ghost use Rattle.fdr_table.specs.Faults.{table_bytes_fault};
ghost use Rattle.fdr_table.specs.Ranges.{HaveOwnNames, IsInRange, IsWithinLimits};
ghost use Rattle.fdr_table.specs.Reading.{records_of, table_of};
ghost use Rattle.fdr_table.specs.declared.fault.TableFault.{TableFault};
ghost use Rattle.fdr_table.specs.declared.fault.TableFault.TheVariants as fault;

use crate::draft::Draft;
use crate::fault::{TableError, TableFault, refused};
use crate::frame::Frame;
use crate::param::Param;
use crate::place::Place;
use std::alloc::Global;
use std::marker::Model;

/// The most bytes of a table.
pub const MAX_TABLE_BYTES: usize = 1_048_576;

// The number that the contracts name: `most_table_bytes` of the definitions.
const _: () = prove!(MAX_TABLE_BYTES == 1_048_576);

/// A parameter table without faults in its rows.
#[derive(Drop)]
pub struct Table {
    frame: Frame,
    params: Vec<Param>,
    places: Vec<Place>,
    rows: u32,
}

impl Model for Table {
    ghost use Rattle.fdr_table.specs.Rows.{TableRows};

    ghost Value = { TableRows };

    ghost use Rattle.fdr_table.specs.Ranges.{IsInRange};
    ghost use Rattle.fdr_table.specs.TableView.{table_view};

    ghost view = { table_view };

    ghost invariant = { λ t. IsInRange (table_view t) };
}

impl Table {
    /// The table of these bytes, or the first fault of its bytes and rows.
    ///
    /// A table of more than 1,048,576 bytes is refused for its size, before any memory is taken. Of any other each row is
    /// judged before the next is read, so that memory is held for one row beside what the rows above it say.
    #[tactic(auto, unfolding(crate::specs::Faults::table_bytes_fault))]
    pub fn read(alloc: Global, bytes: &[u8]) -> Result<Table, TableError>
        ensures table { IfOk result (λ t. t ≡ table_of (records_of bytes.now)) }
        ensures in_range { IfOk result IsInRange }
        ensures names { IfOk result (λ t. HaveOwnNames t.params) }
        ensures limits { IfOk result IsWithinLimits }
        ensures no_fault { IfOk result (λ t. table_bytes_fault bytes.now ≡ None) }
        ensures refused { (row : ℕ) (f : TableFault) → result ≡ Err (refused row f) → table_bytes_fault bytes.now ≡ Some (row, f) }
        ensures too_large { most_table_bytes < length bytes.now → result ≡ Err (refused 0 fault.Size) }
    {
        if MAX_TABLE_BYTES < bytes.len() {
            return Err(refused(0, TableFault::Size));
        }
        let draft = Draft::read(alloc, bytes)?;
        Table::of(draft).ok_or(refused(0, TableFault::NoFrame))
    }

    /// The table of a draft, if it has a frame.
    fn of(draft: Draft) -> Option<Table>
        ensures { result ≡ option_map (λ f. record { frame = f; params = draft.params; places = draft.places; rows = draft.rows }) draft.frame }
    {
        Some(Table {
            frame: draft.frame?,
            params: draft.params.into_vec(),
            places: draft.places,
            rows: draft.rows,
        })
    }

    /// What holds of every table. It does no work.
    pub fn holds(&self)
        ensures in_range { IsInRange self.now }
    {
        let _ = &self.frame;
    }

    /// The shape of the frames.
    pub fn frame(&self) -> Frame
        ensures { result ≡ self.now.frame }
    {
        self.frame
    }

    /// The parameters, in the order of their rows.
    pub fn params(&self) -> &[Param]
        ensures { result.now ≡ self.now.params }
    {
        self.params.as_slice()
    }

    /// The places, in the order of their rows.
    pub fn places(&self) -> &[Place]
        ensures { result.now ≡ self.now.places }
    {
        self.places.as_slice()
    }

    /// How many rows the table has.
    pub fn rows(&self) -> u32
        ensures { result ≡ self.now.rows }
    {
        self.rows
    }
}
