//! The taker that writes lines.

ghost use Rattle.std.specs.Prelude.{◌≡◌, ◌+◌, ◌*◌, ◌≤◌, ◌<◌, ◌++◌, ℕ, [], length, map, take, IfOk, OnOk, OnErr};
ghost use Rattle.std.specs.List.{flat_map, range_with_len};
ghost use Rattle.fdr_io.specs.Faults.{Rose};
ghost use Rattle.fdr_io.specs.Told.{followed_by};
ghost use Rattle.fdr_io.specs.Output.{Emits, EmitsPart};
ghost use Rattle.fdr_listing.specs.Text.{row_start_text};
ghost use Rattle.fdr_recon.specs.Kept.{IsRow};
ghost use Rattle.fdr_readout.specs.Listing.{row_line_of};
ghost use Rattle.fdr_readout.specs.Entries.{entry_lines};
ghost use Rattle.fdr_readout.specs.Places.{place_text};
ghost use Rattle.fdr_readout.specs.TakersSound.{text_laws};

use crate::takers::Taker;
use fdr_io::{Failed, OutBuffer, Sink};
use fdr_listing::{Line, NumberTexts, ROW_ROOM, ShortText, gap_line, put_row};
use fdr_recon::Row;
use fdr_table::{NoMemory, Table};
use std::alloc::Global;
use std::marker::Model;

/// How many words the longest subframe has.
const MAX_WORDS: u32 = 1024;

/// How many subframes a frame has.
const SUBFRAMES: u32 = 4;

/// How many values a frame's counter has.
const COUNTERS: u16 = 4096;

/// Writes the lines of what it takes. What a row begins with is ready for each counter, and so are the texts of places and of
/// small numbers. A clause sees it as the bytes that wait to be written.
#[derive(Drop)]
pub struct LineWriter {
    buffer: OutBuffer,
    numbers: NumberTexts,
    starts: Vec<ShortText>,
    places: Vec<ShortText>,
}

impl Model for LineWriter {
    ghost use Rattle.std.specs.Prelude.{ℕ, List, ◌≡◌, map};
    ghost use Rattle.std.specs.List.{range_with_len};
    ghost use Rattle.fdr_listing.specs.Text.{row_start_text};
    ghost use Rattle.fdr_readout.specs.Places.{place_text};

    ghost Value = { List ℕ };

    ghost view = { λ w. w.buffer };

    ghost invariant = { λ w. (w.starts.items ≡ map row_start_text (range_with_len 0 4096))
        × (w.places.items ≡ map place_text (range_with_len 0 4096)) };
}

impl LineWriter {
    /// A writer that has written nothing. This takes all the memory that it needs.
    pub fn new(alloc: Global) -> Result<LineWriter, NoMemory>
        ensures { IfOk result (λ w. w ≡ []) }
    {
        let buffer = empty_buffer(alloc)?;
        let numbers = NumberTexts::new(alloc)?;
        let starts = all_starts(alloc)?;
        let places = all_places(alloc)?;
        Ok(LineWriter {
            buffer,
            numbers,
            starts,
            places,
        })
    }

    /// Writes all that waits. At `Failed` a front part of it went out, and the rest is dropped.
    pub fn finish<S: Sink>(&mut self, out: &mut S) -> Result<(), Failed>
        ensures all { OnOk result (S.written out.new ≡ followed_by (S.written out.old) self.old) }
        ensures part { OnErr result ((k : ℕ) × (S.written out.new ≡ followed_by (S.written out.old) (take k self.old))) }
        ensures empty { self.new ≡ [] }
        ensures cause { OnErr result (Rose (S.faults out.old) (S.faults out.new)) }
        ensures no_fault { OnOk result (S.faults out.new ≡ S.faults out.old) }
        ensures monotone { S.faults out.old ≤ S.faults out.new }
    {
        self.buffer.finish(out)
    }
}

fn empty_buffer(alloc: Global) -> Result<OutBuffer, NoMemory>
    ensures { IfOk result (λ b. b ≡ []) }
{
    OutBuffer::new(alloc).map_err(|_| NoMemory)
}

/// What the lines of rows begin with, for each counter.
fn all_starts(alloc: Global) -> Result<Vec<ShortText>, NoMemory>
    ensures { IfOk result (λ v. v.items ≡ map row_start_text (range_with_len 0 4096)) }
{
    let mut starts = Vec::new(alloc);
    for counter in 0..COUNTERS {
        if starts.push(ShortText::row_start(counter)).is_err() {
            return Err(NoMemory);
        }
    }
    Ok(starts)
}

/// The texts of all places that a frame may have.
fn all_places(alloc: Global) -> Result<Vec<ShortText>, NoMemory>
    ensures { IfOk result (λ v. v.items ≡ map place_text (range_with_len 0 4096)) }
{
    let mut places = Vec::new(alloc);
    for place in 0..SUBFRAMES * MAX_WORDS {
        let subframe = (place / MAX_WORDS + 1) as u8;
        let text = ShortText::row_place(subframe, place % MAX_WORDS + 1);
        if places.push(text).is_err() {
            return Err(NoMemory);
        }
    }
    Ok(places)
}

/// Puts the line of a row of one of the table's parameters.
fn put_row_line(
    buffer: &mut OutBuffer,
    numbers: &NumberTexts,
    starts: &[ShortText],
    places: &[ShortText],
    table: &Table,
    row: &Row,
)
    requires row { IsRow (length table.now.params) row.now }
    requires starts { starts.now ≡ map row_start_text (range_with_len 0 4096) }
    requires places { places.now ≡ map place_text (range_with_len 0 4096) }
    requires room { length buffer.old + 96 ≤ 65536 }
    ensures { buffer.new ≡ buffer.old ++ row_line_of table.now row.now }
{
    let param = &table.params()[row.param as usize];
    let place = MAX_WORDS * (u32::from(row.subframe) - 1) + (row.word - 1);
    put_row(
        buffer,
        numbers,
        &starts[usize::from(row.counter)],
        &places[place as usize],
        &param.name,
        row,
        param.decimals,
    );
}

impl<O: Sink> Taker<O> for LineWriter {
    ghost took = { λ t before out_before now out_now entries.
        Emits (O.written out_before) (O.written out_now) before now (flat_map (entry_lines t) entries) };

    ghost failed_in = { λ t before out_before out_now entries.
        EmitsPart (O.written out_before) (O.written out_now) before (flat_map (entry_lines t) entries) };

    fn gap(&mut self, from: u64, bits: u64, out: &mut O) -> Result<(), Failed> {
        self.buffer.add(out, gap_line(from, bits).bytes())
    }

    fn frame(&mut self, linked: bool, out: &mut O) -> Result<(), Failed> {
        Ok(())
    }

    fn row(&mut self, table: &Table, row: &Row, out: &mut O) -> Result<(), Failed> {
        self.buffer.make_room(out, ROW_ROOM)?;
        put_row_line(
            &mut self.buffer,
            &self.numbers,
            &self.starts,
            &self.places,
            table,
            row,
        );
        Ok(())
    }

    fn line(&mut self, line: &Line, out: &mut O) -> Result<(), Failed> {
        self.buffer.add(out, line.bytes())
    }

    ghost laws = { text_laws O.written };
}
