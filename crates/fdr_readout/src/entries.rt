//! The gaps, the frames and the rows of bits, one after another.

ghost use Rattle.std.specs.Prelude.{◌≡◌, ◌+◌, ◌≤◌, ◌<◌, ◌^◌, ℕ, List, [], ◌∷◌, ◌++◌, length, take, OnOk, OnErr, IfSome, IsSome};
ghost use Rattle.std.specs.List.{flat_map};
ghost use Rattle.fdr_io.specs.Faults.{Rose};
ghost use Rattle.fdr_sync.specs.Events.{AreEvents};
ghost use Rattle.fdr_table.specs.Rows.{TableRows};
ghost use Rattle.fdr_resync.specs.Past.{ScannerPast, known_events, bytes_pushed};
ghost use Rattle.fdr_resync.specs.Answers.{answered_event, answered_frame};
ghost use Rattle.fdr_recon.specs.Rows.{ReadFrame};
ghost use Rattle.fdr_recon.specs.Kept.{IsRow};
ghost use Rattle.fdr_recon.specs.Past.{RepresentsRebuild};
ghost use Rattle.fdr_readout.specs.Entries.{Entry, row_entries, last_frame_entries, event_entries, entries_of};
ghost use Rattle.fdr_readout.specs.Reading.{MayGoOn, ReadsEvents, entries_in};
ghost use Rattle.fdr_readout.specs.Taken.{HasTaken};

use crate::events::EventReader;
use crate::takers::Taker;
use fdr_io::{Failed, Sink};
use fdr_recon::{Rebuild, Row};
use fdr_resync::Event;
use fdr_sync::events_are_unique;
use fdr_table::Table;

/// Hands on a row, if it is listed.
#[tactic(auto, unfolding(crate::specs::Entries::row_entries))]
fn take_row<O: Sink, T: Taker<O>>(
    table: &Table,
    row: Option<Row>,
    taker: &mut T,
    out: &mut O,
) -> Result<(), Failed>
    requires { IfSome row (IsRow (length table.now.params)) }
    ensures all { OnOk result (T.took table.now taker.old out.old taker.new out.new (row_entries row)) }
    ensures part { OnErr result (T.failed_in table.now taker.old out.old out.new (row_entries row)) }
    ensures cause { OnErr result (Rose (O.faults out.old) (O.faults out.new)) }
    ensures no_fault { OnOk result (O.faults out.new ≡ O.faults out.old) }
    ensures monotone { O.faults out.old ≤ O.faults out.new }
{
    match row {
        None => Ok(()),
        Some(row) => taker.row(table, &row, out),
    }
}

/// Hands on the last frame that was read, with whether it is linked to the one before, and its rows.
fn take_frame<O: Sink, T: Taker<O>>(
    rebuild: &Rebuild,
    table: &Table,
    taker: &mut T,
    out: &mut O,
) -> Result<(), Failed>
    requires { (past : List ReadFrame) × (0 < length past) × RepresentsRebuild rebuild.now table.now past }
    ensures all { (past : List ReadFrame) → 0 < length past → RepresentsRebuild rebuild.now table.now past
        → OnOk result (T.took table.now taker.old out.old taker.new out.new (last_frame_entries table.now past)) }
    ensures part { (past : List ReadFrame) → 0 < length past → RepresentsRebuild rebuild.now table.now past
        → OnErr result (T.failed_in table.now taker.old out.old out.new (last_frame_entries table.now past)) }
    ensures cause { OnErr result (Rose (O.faults out.old) (O.faults out.new)) }
    ensures no_fault { OnOk result (O.faults out.new ≡ O.faults out.old) }
    ensures monotone { O.faults out.old ≤ O.faults out.new }
{
    taker.frame(rebuild.linked(), out)?;
    for i in 0..rebuild.rows() {
        take_row(table, rebuild.row(i), taker, out)?;
    }
    Ok(())
}

/// Hands on an event. Where it is a frame, it is the last one that was read, and its rows follow.
fn take_event<O: Sink, T: Taker<O>>(
    rebuild: &Rebuild,
    table: &Table,
    event: Event,
    taker: &mut T,
    out: &mut O,
) -> Result<(), Failed>
    requires { (read : List ReadFrame) × RepresentsRebuild rebuild.now table.now read
        × (IsSome (answered_frame (Some event)) → 0 < length read) }
    ensures all { (read : List ReadFrame) → RepresentsRebuild rebuild.now table.now read
        → (IsSome (answered_frame (Some event)) → 0 < length read)
        → OnOk result (T.took table.now taker.old out.old taker.new out.new (event_entries table.now read (answered_event event))) }
    ensures part { (read : List ReadFrame) → RepresentsRebuild rebuild.now table.now read
        → (IsSome (answered_frame (Some event)) → 0 < length read)
        → OnErr result (T.failed_in table.now taker.old out.old out.new (event_entries table.now read (answered_event event))) }
    ensures cause { OnErr result (Rose (O.faults out.old) (O.faults out.new)) }
    ensures no_fault { OnOk result (O.faults out.new ≡ O.faults out.old) }
    ensures monotone { O.faults out.old ≤ O.faults out.new }
{
    match event {
        Event::Frame { .. } => take_frame(rebuild, table, taker, out),
        Event::Gap { at, bits } => taker.gap(at, bits, out),
    }
}

/// Hands on all events that are known and were not handed on before.
fn take_known<O: Sink, T: Taker<O>>(
    reader: &mut EventReader,
    table: &Table,
    taker: &mut T,
    out: &mut O,
) -> Result<(), Failed>
    requires { (past : ScannerPast) × ReadsEvents table.now reader.old past }
    ensures stands { (past : ScannerPast) → ReadsEvents table.now reader.old past
        → OnOk result (ReadsEvents table.now reader.new (record past { taken = known_events past })) }
    ensures all { (past : ScannerPast) → ReadsEvents table.now reader.old past → OnOk result ((entries : List Entry)
        × T.took table.now taker.old out.old taker.new out.new entries
        × ((more : List ℕ) → MayGoOn past more → entries_in table.now (past.bytes ++ more) (known_events past)
        ≡ entries_in table.now (past.bytes ++ more) past.taken ++ entries)) }
    ensures part { (past : ScannerPast) → ReadsEvents table.now reader.old past → OnErr result ((entries : List Entry)
        × T.failed_in table.now taker.old out.old out.new entries
        × ((more : List ℕ) → MayGoOn past more → (rest : List Entry) × (entries_of table.now (past.bytes ++ more)
        ≡ (entries_in table.now (past.bytes ++ more) past.taken ++ entries) ++ rest))) }
    ensures pushed { bytes_pushed reader.new.scanner ≡ bytes_pushed reader.old.scanner }
    ensures ended { reader.new.scanner.ended ≡ reader.old.scanner.ended }
    ensures cause { OnErr result (Rose (O.faults out.old) (O.faults out.new)) }
    ensures no_fault { OnOk result (O.faults out.new ≡ O.faults out.old) }
    ensures monotone { O.faults out.old ≤ O.faults out.new }
{
    while let Some(event) = reader.next() {
        take_event(&reader.rebuild, table, event, taker, out)?;
    }
    Ok(())
}

/// Takes a piece of at most 4,096 bytes, and hands on all gaps, frames and rows that are decided with it, however the bytes
/// go on. At `Failed` the taker failed in them.
pub fn take_piece<O: Sink, T: Taker<O>>(
    reader: &mut EventReader,
    table: &Table,
    piece: &[u8],
    taker: &mut T,
    out: &mut O,
) -> Result<(), Failed>
    requires piece { length piece.now ≤ 4096 }
    requires stands { (bytes : List ℕ) × (first : T) × (out_first : O)
        × HasTaken T.took table.now reader.old bytes first out_first taker.old out.old × (length bytes + length piece.now ≤ 2 ^ 28) }
    ensures all { (bytes : List ℕ) (first : T) (out_first : O)
        → HasTaken T.took table.now reader.old bytes first out_first taker.old out.old
        → OnOk result (HasTaken T.took table.now reader.new (bytes ++ piece.now) first out_first taker.new out.new) }
    ensures part { (bytes more : List ℕ) (first : T) (out_first : O)
        → HasTaken T.took table.now reader.old bytes first out_first taker.old out.old
        → OnErr result (T.failed_in table.now first out_first out.new (entries_of table.now ((bytes ++ piece.now) ++ more))) }
    ensures step { OnOk result ((entries : List Entry) × T.took table.now taker.old out.old taker.new out.new entries) }
    ensures step_part { OnErr result ((entries : List Entry) × T.failed_in table.now taker.old out.old out.new entries) }
    ensures cause { OnErr result (Rose (O.faults out.old) (O.faults out.new)) }
    ensures no_fault { OnOk result (O.faults out.new ≡ O.faults out.old) }
    ensures monotone { O.faults out.old ≤ O.faults out.new }
{
    reader.push(piece);
    take_known(reader, table, taker, out)
}

/// Hands on what is left once no further byte comes; the reader may be restarted then. At `Failed` the taker failed in it.
pub fn take_rest<O: Sink, T: Taker<O>>(
    reader: &mut EventReader,
    table: &Table,
    taker: &mut T,
    out: &mut O,
) -> Result<(), Failed>
    requires stands { (bytes : List ℕ) × (first : T) × (out_first : O)
        × HasTaken T.took table.now reader.old bytes first out_first taker.old out.old }
    ensures all { (bytes : List ℕ) (first : T) (out_first : O)
        → HasTaken T.took table.now reader.old bytes first out_first taker.old out.old
        → OnOk result (T.took table.now first out_first taker.new out.new (entries_of table.now bytes)) }
    ensures part { (bytes : List ℕ) (first : T) (out_first : O)
        → HasTaken T.took table.now reader.old bytes first out_first taker.old out.old
        → OnErr result (T.failed_in table.now first out_first out.new (entries_of table.now bytes)) }
    ensures events { (bytes : List ℕ) (first : T) (out_first : O) (es : List Rattle.fdr_sync.specs.Events.Event)
        → HasTaken T.took table.now reader.old bytes first out_first taker.old out.old → AreEvents bytes table.now.frame.words es
        → OnOk result (T.took table.now first out_first taker.new out.new (entries_in table.now bytes es)) }
    ensures reads { (bytes : List ℕ) (first : T) (out_first : O)
        → HasTaken T.took table.now reader.old bytes first out_first taker.old out.old
        → OnOk result ((past : ScannerPast) × ReadsEvents table.now reader.new past) }
    ensures step { OnOk result ((entries : List Entry) × T.took table.now taker.old out.old taker.new out.new entries) }
    ensures step_part { OnErr result ((entries : List Entry) × T.failed_in table.now taker.old out.old out.new entries) }
    ensures cause { OnErr result (Rose (O.faults out.old) (O.faults out.new)) }
    ensures no_fault { OnOk result (O.faults out.new ≡ O.faults out.old) }
    ensures monotone { O.faults out.old ≤ O.faults out.new }
{
    events_are_unique();
    reader.finish();
    take_known(reader, table, taker, out)
}
