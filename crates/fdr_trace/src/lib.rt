//! The records of a trace, pulled from a deck's input a piece at a time.
#![tactic(auto)]

ghost use Rattle.std.specs.Prelude.{◌≡◌, ◌≢◌, ◌<◌, ◌≤◌, ◌+◌, ℕ, List, [], ◌++◌, length, Err, IfOk, IfErr, OnOk, OnErr, MatchResult, IsTrue};
ghost use Rattle.fdr_io.specs.Faults.{Rose};
ghost use Rattle.fdr_deck.specs.Calls.{KeepsAnnounced, HasOneAnnounced, LeavesDisk};
ghost use Rattle.fdr_deck.specs.Moments.{Elapses, EachMoment, Within};
ghost use Rattle.fdr_deck.specs.Pull.{KeepsInput};
ghost use Rattle.fdr_bus.specs.Records.{most_records};
ghost use Rattle.fdr_bus.specs.declared.BusRecord.{BusRecord};
ghost use Rattle.fdr_trace.specs.Moments.{PullsForRecord};
ghost use Rattle.fdr_trace.specs.Pulls.{PullsPiece, PullsUntilDecided};
ghost use Rattle.fdr_trace.specs.Reading.{RepresentsTrace, IsNextRecord, IsTraceStopped, IsFilled, TakesRecord, RefusesRecord};

use circular_buffer::HeapCircularBuffer;
use fdr_bus::{BusRecord, TraceFault, parse};
use fdr_deck::Deck;
use fdr_io::{Failed, PIECE};
use std::alloc::{AllocError, Global};
use std::marker::Model;

/// The most good records that a trace has.
pub const MAX_RECORDS: u64 = 4_294_967_296;

/// How many bytes a record has.
const RECORD: usize = 16;

/// Why no further record of a trace comes.
#[derive(Clone, Copy, Debug, PartialEq, Eq)]
pub enum TraceStop {
    /// The record of number `index`, after the good ones, isn't good.
    Refused { index: u64, fault: TraceFault },
    /// The input couldn't be read: its count of faults rose.
    Failed,
}

/// Reads the records of a trace from a deck's input. It keeps less than a record beside the piece that was pulled last.
#[derive(Drop)]
pub struct TraceLine {
    waiting: HeapCircularBuffer<u8>,
    /// Room for the piece that is pulled.
    piece: [u8; PIECE],
    time: u64,
    count: u64,
}

impl Model for TraceLine {
    ghost use Rattle.fdr_trace.specs.Kept.{TraceKept, IsTraceKept};

    ghost Value = { TraceKept };

    ghost use Rattle.fdr_trace.specs.View.{trace_kept};

    ghost view = { trace_kept };

    ghost invariant = { λ t. IsTraceKept (trace_kept t) t.waiting.capacity };
}

impl TraceLine {
    /// Makes room for a piece of a trace. Fails only where memory ends; no other call here takes any.
    pub fn new(alloc: Global) -> Result<TraceLine, AllocError>
        ensures { IfOk result (λ trace. RepresentsTrace trace [] []) }
    {
        let waiting = HeapCircularBuffer::with_capacity(alloc, RECORD + PIECE)?;
        Ok(TraceLine {
            waiting,
            piece: [0; PIECE],
            time: 0,
            count: 0,
        })
    }

    /// The next record of the trace, which may be its end. It pulls only where less than a record waits. It
    /// leaves the deck's disk and its announced number.
    #[inline(always)]
    pub fn next<D: Deck>(&mut self, deck: &mut D) -> Result<BusRecord, TraceStop>
        requires { (bytes : List ℕ) × (records : List BusRecord) × RepresentsTrace self.old bytes records }
        ensures next { (bytes : List ℕ) (records : List BusRecord) → RepresentsTrace self.old bytes records
            → (more : List ℕ) × PullsUntilDecided D.tells (D.state deck.old) (D.state deck.new) bytes more
            × MatchResult result (IsNextRecord self.new (bytes ++ more) records)
            (IsTraceStopped D.tells (D.state deck.old) (D.state deck.new) (bytes ++ more) records)
            × PullsForRecord D.tells (D.state deck.old) (D.state deck.new) bytes more records }
        ensures no_fault { result ≢ Err TraceStop.Failed → (D.state deck.new).input_faults ≡ (D.state deck.old).input_faults }
        ensures disk { LeavesDisk (D.state deck.old) (D.state deck.new) }
        ensures announced { KeepsAnnounced (D.state deck.old) (D.state deck.new) }
        ensures fresh { (D.state deck.old).taken < (D.state deck.new).taken → HasOneAnnounced (D.state deck.new) }
        ensures time { Elapses D.tells (D.state deck.old) (D.state deck.new) }
        ensures rest { D.same_rest deck.old deck.new }
    {
        if self.count() == MAX_RECORDS {
            return Err(self.refused(TraceFault::Many));
        }
        match self.fill(deck) {
            Ok(()) => self.read(),
            Err(stop) => Err(stop),
        }
    }

    /// How many records were read.
    fn count(&self) -> u64
        ensures { result ≡ self.now.count }
    {
        self.count
    }

    /// Reads the record that waits.
    fn read(&mut self) -> Result<BusRecord, TraceStop>
        requires waits { 16 ≤ length self.old.waiting }
        requires more_to_come { self.old.count < most_records }
        ensures good { IfOk result (TakesRecord self.old self.new) }
        ensures bad { IfErr result (RefusesRecord self.old self.new) }
    {
        let bytes = self.take();
        match parse(&bytes, self.time()) {
            Ok(record) => {
                self.count_one(record.time);
                Ok(record)
            }
            Err(fault) => Err(self.refused(fault)),
        }
    }

    fn time(&self) -> u64
        ensures { result ≡ self.now.time }
    {
        self.time
    }

    /// Counts a record of this time.
    fn count_one(&mut self, time: u64)
        requires { self.old.count < most_records }
        ensures { self.new ≡ record self.old { time = time; count = self.old.count + 1 } }
    {
        self.time = time;
        self.count += 1;
    }

    fn refused(&self, fault: TraceFault) -> TraceStop
        ensures { result ≡ TraceStop.Refused self.now.count fault }
    {
        TraceStop::Refused {
            index: self.count,
            fault,
        }
    }

    /// How many bytes wait.
    fn waiting(&self) -> usize
        ensures { result ≡ length self.now.waiting }
    {
        self.waiting.len()
    }

    /// Pulls until a whole record waits.
    fn fill<D: Deck>(&mut self, deck: &mut D) -> Result<(), TraceStop>
        requires { (bytes : List ℕ) × (records : List BusRecord) × RepresentsTrace self.old bytes records × (length records < most_records) }
        ensures filled { (bytes : List ℕ) (records : List BusRecord) → RepresentsTrace self.old bytes records
            → length records < most_records
            → (more : List ℕ) × PullsUntilDecided D.tells (D.state deck.old) (D.state deck.new) bytes more
            × MatchResult result (λ done. IsFilled self.new (bytes ++ more) records)
            (IsTraceStopped D.tells (D.state deck.old) (D.state deck.new) (bytes ++ more) records)
            × PullsForRecord D.tells (D.state deck.old) (D.state deck.new) bytes more records }
        ensures no_fault { result ≢ Err TraceStop.Failed → (D.state deck.new).input_faults ≡ (D.state deck.old).input_faults }
        ensures disk { LeavesDisk (D.state deck.old) (D.state deck.new) }
        ensures announced { KeepsAnnounced (D.state deck.old) (D.state deck.new) }
        ensures fresh { (D.state deck.old).taken < (D.state deck.new).taken → HasOneAnnounced (D.state deck.new) }
        ensures time { Elapses D.tells (D.state deck.old) (D.state deck.new) }
        ensures rest { D.same_rest deck.old deck.new }
    {
        while self.waiting() < RECORD {
            match self.pull(deck) {
                Ok(0) => return Err(self.refused(TraceFault::Truncated)),
                Ok(_) => {}
                Err(Failed) => return Err(TraceStop::Failed),
            }
        }
        Ok(())
    }

    /// Pulls a piece after what waits, and answers how many bytes came; none only at the input's end.
    #[inline(never)]
    fn pull<D: Deck>(&mut self, deck: &mut D) -> Result<usize, Failed>
        requires room { length self.old.waiting ≤ 16 }
        ensures pulled { IfOk result (λ n. (piece : List ℕ) × (length piece ≡ n) × (self.new.waiting ≡ self.old.waiting ++ piece)
            × PullsPiece D.tells (D.state deck.old) (D.state deck.new) piece) }
        ensures kept { OnErr result (KeepsInput (D.state deck.old) (D.state deck.new)) }
        ensures same { OnErr result (self.new.waiting ≡ self.old.waiting) }
        ensures cause { OnErr result (Rose (D.state deck.old).input_faults (D.state deck.new).input_faults) }
        ensures monotone { (D.state deck.old).input_faults ≤ (D.state deck.new).input_faults }
        ensures disk { LeavesDisk (D.state deck.old) (D.state deck.new) }
        ensures announced { KeepsAnnounced (D.state deck.old) (D.state deck.new) }
        ensures fresh { OnOk result (HasOneAnnounced (D.state deck.new)) }
        ensures time { Elapses D.tells (D.state deck.old) (D.state deck.new) }
        ensures moments { EachMoment D.tells (D.state deck.old) (D.state deck.new) (Within (D.state deck.old) (D.state deck.new)) }
        ensures rest { D.same_rest deck.old deck.new }
        ensures kept_time { self.new.time ≡ self.old.time }
        ensures kept_count { self.new.count ≡ self.old.count }
    {
        let n = deck.pull(&mut self.piece)?;
        self.waiting.fill_from_slice(&self.piece[..n]);
        Ok(n)
    }

    /// Takes the bytes of the next record.
    fn take(&mut self) -> [u8; 16]
        requires { 16 ≤ length self.old.waiting }
        ensures bytes { self.old.waiting ≡ result ++ self.new.waiting }
        ensures time { self.new.time ≡ self.old.time }
        ensures count { self.new.count ≡ self.old.count }
    {
        let (front, _behind) = self.waiting.as_slices();
        if front.len() < RECORD {
            return self.take_over_end();
        }
        let mut bytes = [0; RECORD];
        bytes.copy_from_slice(&front[..RECORD]);
        self.waiting.truncate_front(self.waiting.len() - RECORD);
        bytes
    }

    /// Takes the bytes of the next record, which go over the end of the room.
    #[inline(never)]
    fn take_over_end(&mut self) -> [u8; 16]
        requires { 16 ≤ length self.old.waiting }
        ensures bytes { self.old.waiting ≡ result ++ self.new.waiting }
        ensures time { self.new.time ≡ self.old.time }
        ensures count { self.new.count ≡ self.old.count }
    {
        let mut bytes = [0; RECORD];
        self.waiting.read_into(&mut bytes);
        bytes
    }
}
