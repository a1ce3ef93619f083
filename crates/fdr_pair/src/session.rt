//! A recording of a trace on two disks.

ghost use Rattle.std.specs.Prelude.{◌≡◌, IfOk};

use crate::{PairFault, PairRings};
use fdr_bus::BusRecord;
use fdr_check::Sound;
use fdr_slot::MAX_PAYLOAD;
use fdr_stream::{Fed, Stream};
use fdr_table::NoMemory;
use fdr_twin::Twin;
use std::alloc::Global;

/// The memory of a recording.
#[derive(Drop)]
pub struct RecordingRoom {
    // These stay where they were made, so that a session is small where it is moved.
    stream: Box<Stream>,
    block: Box<[u8; MAX_PAYLOAD]>,
}

impl RecordingRoom {
    ghost use Rattle.std.specs.Prelude.{◌≤◌, IfOk};
    ghost use Rattle.fdr_slot.specs.Limits.{least_payload_bytes, most_payload_bytes};
    ghost use Rattle.fdr_pair.specs.Room.{IsRoomFor};

    /// Takes the memory of a recording by a table, whose blocks have this many bytes. No later call of it takes any.
    pub fn new(alloc: Global, sound: &Sound, payload: u32) -> Result<RecordingRoom, NoMemory>
        requires low { least_payload_bytes ≤ payload }
        requires high { payload ≤ most_payload_bytes }
        ensures { IfOk result (λ room. IsRoomFor sound.now payload room) }
    {
        let stream = Stream::new(alloc, sound, payload)?;
        Ok(RecordingRoom {
            stream: boxed(alloc, stream)?,
            block: boxed(alloc, [0; MAX_PAYLOAD])?,
        })
    }
}

/// A recording of a trace in the images on both disks of a twin, as long as one of them hasn't failed. A call that is refused
/// consumes it.
#[derive(Drop)]
pub struct PairSession {
    rings: PairRings,
    session: u32,
    stream: Box<Stream>,
    block: Box<[u8; MAX_PAYLOAD]>,
}

impl PairSession {
    ghost use Rattle.std.specs.Prelude.{◌≡◌, ◌≤◌, ◌+◌, [], ◌++◌, Err, length, IfOk, OnOk};
    ghost use Rattle.fdr_slot.specs.Limits.{sequence_end};
    ghost use Rattle.fdr_table.specs.Rows.{TableRows};
    ghost use Rattle.fdr_recorder.specs.Past.{RecordingPast, MayFeedRecording, recording_with_record, past_at_start, blocks_due_at, rest_of, recorded_of, all_blocks};
    ghost use Rattle.fdr_pair.specs.Room.{IsRoomFor};
    ghost use Rattle.fdr_pair.specs.PairPast.{RepresentsPair};
    ghost use Rattle.fdr_pair.specs.PairRecording.{AreSettled, BothFailed, PairHasEnded, PairRecordsAll, PairRecordsFirst};

    /// A recording in these rings, of a session with this number.
    pub fn new(room: RecordingRoom, rings: PairRings, session: u32) -> PairSession
        ensures stands { (t : TableRows) → IsRoomFor t rings.header.payload room
            → RepresentsPair result (past_at_start t rings.header rings.next session) }
        ensures rings { result.rings ≡ rings }
    {
        PairSession {
            rings,
            session,
            stream: room.stream,
            block: room.block,
        }
    }

    /// The number of the next block.
    pub fn next(&self) -> u64
        ensures { result ≡ self.now.rings.next }
    {
        self.rings.next()
    }

    /// Feeds the next record of the trace: each block that is due at it is put on each side that hasn't failed, and announced
    /// after it is durable there. `SeqEnd` is answered where there is no number left for one of them, and the blocks before it
    /// are on the sides; `DiskFault` where both sides have failed.
    #[inline(always)]
    pub fn feed<T: Twin>(self, twin: &mut T, r: &BusRecord) -> Result<PairSession, PairFault>
        requires stands { (past : RecordingPast) × RepresentsPair self past × MayFeedRecording past r.now }
        requires settled { AreSettled T.tells self.rings (T.pair twin.old) }
        ensures stands { (past : RecordingPast) → RepresentsPair self past → MayFeedRecording past r.now
            → IfOk result (λ s. RepresentsPair s (recording_with_record past r.now)) }
        ensures records { (past : RecordingPast) → RepresentsPair self past → MayFeedRecording past r.now
            → PairRecordsFirst T.tells self.rings (blocks_due_at past r.now) (T.pair twin.old) (T.pair twin.new) }
        ensures recorded { (past : RecordingPast) → RepresentsPair self past → MayFeedRecording past r.now
            → IfOk result (λ s. PairRecordsAll T.tells self.rings s.rings (blocks_due_at past r.now) (T.pair twin.old) (T.pair twin.new)) }
        ensures seq_end { (past : RecordingPast) → RepresentsPair self past → MayFeedRecording past r.now → result ≡ Err PairFault.SeqEnd
            → PairHasEnded T.tells self.rings (blocks_due_at past r.now) (T.pair twin.old) (T.pair twin.new) }
        ensures room { (past : RecordingPast) → RepresentsPair self past → MayFeedRecording past r.now
            → OnOk result (self.rings.next + length (blocks_due_at past r.now) ≤ sequence_end) }
        ensures both_failed { result ≡ Err PairFault.DiskFault → BothFailed T.tells self.rings (T.pair twin.old) (T.pair twin.new) }
    {
        let PairSession {
            mut rings,
            session,
            mut stream,
            mut block,
        } = self;
        loop {
            match stream.feed(r, &mut *block) {
                Fed::Taken => {
                    return Ok(PairSession {
                        rings,
                        session,
                        stream,
                        block,
                    });
                }
                Fed::Block => {
                    let payload = rings.header().payload as usize;
                    rings = match rings.record(twin, session, &block[..payload]) {
                        Ok(rings) => rings,
                        Err(fault) => return Err(fault),
                    };
                }
            }
        }
    }

    /// Ends the recording: what is left of the stream is put on the sides as a last block, and announced. Answers the rings,
    /// which are after it. Where nothing is left, nothing is done.
    pub fn close<T: Twin>(self, twin: &mut T) -> Result<PairRings, PairFault>
        requires stands { (past : RecordingPast) × RepresentsPair self past }
        requires settled { AreSettled T.tells self.rings (T.pair twin.old) }
        ensures all { (past : RecordingPast) → RepresentsPair self past → all_blocks past ≡ recorded_of past ++ rest_of past }
        ensures untouched { (past : RecordingPast) → RepresentsPair self past → rest_of past ≡ [] → twin.new ≡ twin.old }
        ensures records { (past : RecordingPast) → RepresentsPair self past
            → PairRecordsFirst T.tells self.rings (rest_of past) (T.pair twin.old) (T.pair twin.new) }
        ensures recorded { (past : RecordingPast) → RepresentsPair self past
            → IfOk result (λ r. PairRecordsAll T.tells self.rings r (rest_of past) (T.pair twin.old) (T.pair twin.new)) }
        ensures seq_end { (past : RecordingPast) → RepresentsPair self past → result ≡ Err PairFault.SeqEnd
            → PairHasEnded T.tells self.rings (rest_of past) (T.pair twin.old) (T.pair twin.new) }
        ensures both_failed { result ≡ Err PairFault.DiskFault → BothFailed T.tells self.rings (T.pair twin.old) (T.pair twin.new) }
    {
        let PairSession {
            rings,
            session,
            mut stream,
            mut block,
        } = self;
        let count = stream.finish(&mut *block);
        if count == 0 {
            return Ok(rings);
        }
        rings.record(twin, session, &block[..count])
    }
}

/// Puts a value where it stays.
fn boxed<T: Drop>(alloc: Global, value: T) -> Result<Box<T>, NoMemory>
    ensures { IfOk result (λ b. b.value ≡ value) }
{
    match Box::new(alloc, value) {
        Ok(boxed) => Ok(boxed),
        Err(_) => Err(NoMemory),
    }
}
