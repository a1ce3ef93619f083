ghost use Rattle.std.specs.Prelude.{◌≡◌, ◌<◌, ◌≤◌, ℕ, [], IfOk, IfErr, Err, Some, None, length};
ghost use Rattle.csv.specs.Records.{fields_of};
ghost use Rattle.fdr_table.specs.Answers.{refused};
ghost use Rattle.fdr_table.specs.Bounds.{most_table_bytes};
ghost use Rattle.fdr_table.specs.Draft.{Fits, IsDraft, IsNextDraft, IsNextFault, with_entry};
ghost use Rattle.fdr_table.specs.Faults.{first_fault};
ghost use Rattle.fdr_table.specs.Reading.{row_kind, records_of};
ghost use Rattle.fdr_table.specs.declared.draft.Entry.TheVariants as entry;
ghost use Rattle.fdr_table.specs.declared.fault.TableFault.{TableFault};
ghost use Rattle.fdr_table.specs.declared.row.RowKind.TheVariants as kind;

use crate::fault::{NoMemory, TableError, TableFault, refused};
use crate::frame::Frame;
use crate::param::Param;
use crate::params::Params;
use crate::place::Place;
use crate::row::{RowKind, field_at, kind_of, read_frame_row, read_param_row, read_place_row};
use crate::rows::want_of_memory;
use csv::{ByteRecord, ReaderBuilder};
use std::alloc::Global;
use std::marker::Model;

/// How many parameters a table may have.
const MAX_PARAMS: usize = 2048;

/// How many places a table may have.
const MAX_PLACES: usize = 8192;

/// What a row without faults says.
#[derive(Drop)]
pub(crate) enum Entry {
    Frame(Frame),
    Param(Param),
    Place(Place),
}

/// The table of the rows read so far, which have no faults.
#[derive(Drop)]
pub(crate) struct Draft {
    pub(crate) frame: Option<Frame>,
    pub(crate) params: Params,
    pub(crate) places: Vec<Place>,
    pub(crate) rows: u32,
}

impl Model for Draft {
    ghost use Rattle.fdr_table.specs.DraftRows.{DraftRows};

    ghost Value = { DraftRows };

    ghost use Rattle.fdr_table.specs.DraftView.{draft_view};
    ghost use Rattle.fdr_table.specs.Draft.{IsDraftInRange};

    ghost view = { draft_view };

    ghost invariant = { λ d. IsDraftInRange (draft_view d) };
}

impl Draft {
    /// The draft of the rows of these bytes, or the first fault of the rows.
    pub(crate) fn read(alloc: Global, bytes: &[u8]) -> Result<Draft, TableError>
        requires { length bytes.now ≤ most_table_bytes }
        ensures draft { IfOk result (λ d. IsDraft (records_of bytes.now) d) }
        ensures refused { (row : ℕ) (f : TableFault) → result ≡ Err (refused row f)
            → first_fault (records_of bytes.now) ≡ Some (row, f) }
    {
        let mut draft = Draft::new(alloc);
        draft.take_rows(alloc, bytes)?;
        Ok(draft)
    }

    /// Adds the rows of these bytes to a draft of no rows.
    fn take_rows(&mut self, alloc: Global, bytes: &[u8]) -> Result<(), TableError>
        requires size { length bytes.now ≤ most_table_bytes }
        requires empty { IsDraft [] self.old }
        ensures draft { IfOk result (λ _. IsDraft (records_of bytes.now) self.new) }
        ensures refused { (row : ℕ) (f : TableFault) → result ≡ Err (refused row f)
            → first_fault (records_of bytes.now) ≡ Some (row, f) }
    {
        let reader = ReaderBuilder::new()
            .has_headers(false)
            .flexible(true)
            .from_reader(alloc, bytes);
        for row in reader.into_byte_records() {
            match row {
                Ok(row) => self.take_row(alloc, &row)?,
                Err(error) => return Err(want_of_memory(&error).into()),
            }
        }
        Ok(())
    }

    /// Adds the next row, or tells its first fault.
    fn take_row(&mut self, alloc: Global, row: &ByteRecord) -> Result<(), TableError>
        requires room { self.old.rows < 4294967295 }
        ensures draft { IfOk result (λ _. IsNextDraft self.old (fields_of row.now) self.new) }
        ensures refused { (number : ℕ) (f : TableFault) → result ≡ Err (refused number f)
            → (number ≡ self.old.rows) × IsNextFault self.old (fields_of row.now) f }
    {
        match self.read_row(row) {
            Ok(entry) => self.add(alloc, entry)?,
            Err(fault) => return Err(refused(self.rows, fault)),
        }
        Ok(())
    }

    /// The draft of no rows.
    fn new(alloc: Global) -> Draft
        ensures { result ≡ record { frame = None; params = []; places = []; rows = 0 } }
    {
        Draft {
            frame: None,
            params: Params::new(alloc),
            places: Vec::new(alloc),
            rows: 0,
        }
    }

    /// What the next row says, or its first fault.
    fn read_row(&self, row: &ByteRecord) -> Result<Entry, TableFault>
        ensures fault { IfErr result (λ f. IsNextFault self.now (fields_of row.now) f) }
        ensures entry { IfOk result (λ e. IsNextDraft self.now (fields_of row.now) (with_entry self.now e)) }
        ensures fits { IfOk result (λ e. Fits self.now e) }
    {
        match kind_of(row) {
            Some(RowKind::Frame) => Ok(Entry::Frame(self.read_frame(row)?)),
            Some(RowKind::Param) => Ok(Entry::Param(self.read_param(row)?)),
            Some(RowKind::Place) => Ok(Entry::Place(self.read_place(row)?)),
            None => Err(TableFault::Shape),
        }
    }

    /// The frame of the next row.
    fn read_frame(&self, row: &ByteRecord) -> Result<Frame, TableFault>
        requires { row_kind (fields_of row.now) ≡ Some kind.Frame }
        ensures fault { IfErr result (λ f. IsNextFault self.now (fields_of row.now) f) }
        ensures frame { IfOk result (λ f. IsNextDraft self.now (fields_of row.now) (with_entry self.now (entry.Frame f))) }
    {
        let frame = read_frame_row(row)?;
        if self.frame.is_some() {
            return Err(TableFault::TwoFrames);
        }
        Ok(frame)
    }

    /// The parameter of the next row.
    fn read_param(&self, row: &ByteRecord) -> Result<Param, TableFault>
        requires { row_kind (fields_of row.now) ≡ Some kind.Param }
        ensures fault { IfErr result (λ f. IsNextFault self.now (fields_of row.now) f) }
        ensures param { IfOk result (λ p. IsNextDraft self.now (fields_of row.now) (with_entry self.now (entry.Param p))) }
        ensures fits { IfOk result (λ p. Fits self.now (entry.Param p)) }
    {
        let named = read_param_row(row, self.rows)?;
        if self.frame.is_none() {
            return Err(TableFault::NoFrame);
        }
        let Some(param) = named else {
            return Err(TableFault::Name);
        };
        if self.params.find(field_at(row, 1)).is_some() {
            return Err(TableFault::Twice);
        }
        if MAX_PARAMS <= self.params.len() {
            return Err(TableFault::Size);
        }
        Ok(param)
    }

    /// The place of the next row.
    fn read_place(&self, row: &ByteRecord) -> Result<Place, TableFault>
        requires { row_kind (fields_of row.now) ≡ Some kind.Place }
        ensures fault { IfErr result (λ f. IsNextFault self.now (fields_of row.now) f) }
        ensures place { IfOk result (λ l. IsNextDraft self.now (fields_of row.now) (with_entry self.now (entry.Place l))) }
        ensures fits { IfOk result (λ l. Fits self.now (entry.Place l)) }
    {
        let param = self.params.find(field_at(row, 1));
        let place = read_place_row(row, param.unwrap_or(0), self.rows)?;
        if self.frame.is_none() {
            return Err(TableFault::NoFrame);
        }
        if param.is_none() {
            return Err(TableFault::Unknown);
        }
        if MAX_PLACES <= self.places.len() {
            return Err(TableFault::Size);
        }
        Ok(place)
    }

    /// Adds what the next row says.
    fn add(&mut self, alloc: Global, entry: Entry) -> Result<(), NoMemory>
        requires fits { Fits self.old entry }
        requires room { self.old.rows < 4294967295 }
        ensures { IfOk result (λ _. self.new ≡ with_entry self.old entry) }
    {
        match entry {
            Entry::Frame(frame) => self.frame = Some(frame),
            Entry::Param(param) => self.params.push(alloc, param)?,
            Entry::Place(place) => {
                if self.places.push(place).is_err() {
                    return Err(NoMemory);
                }
            }
        }
        self.rows += 1;
        Ok(())
    }
}
