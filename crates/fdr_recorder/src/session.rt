//! A recording of a trace.

ghost use Rattle.std.specs.Prelude.{◌≡◌, ◌≢◌, ◌⊎◌, ◌↔◌, ◌<◌, ◌≤◌, ◌+◌, ℕ, [], ◌∷◌, ◌++◌, Err, Some, None, length, IfOk, OnOk, OnErr, IsTrue};
ghost use Rattle.fdr_io.specs.Faults.{Rose};
ghost use Rattle.fdr_deck.specs.Disk.{KeepsDisk, LearnsExtent};
ghost use Rattle.fdr_deck.specs.Calls.{IsDiskWork, KeepsAnnounced};
ghost use Rattle.fdr_deck.specs.Moments.{EachMoment};
ghost use Rattle.fdr_slot.specs.Limits.{least_payload_bytes, most_payload_bytes, sequence_end};
ghost use Rattle.fdr_slot.specs.declared.image.ImageFault.{ImageFault};
ghost use Rattle.fdr_slot.specs.declared.image.ImageFault.TheVariants as image_fault;
ghost use Rattle.fdr_recover.specs.ImageHeader.{IsFor, image_fault_of, header_in};
ghost use Rattle.fdr_ring.specs.Rings.{IsRing, IsSureRing};
ghost use Rattle.fdr_stream.specs.Past.{RepresentsStream, stream_made};
ghost use Rattle.fdr_recorder.specs.Recording.{RecordsFirstOf, RecordsAllOf, HasEnded};

use crate::SessionFault;
use fdr_bus::BusRecord;
use fdr_check::Sound;
use fdr_deck::Deck;
use fdr_recover::{RingFault, read_header_for};
use fdr_ring::Ring;
use fdr_slot::MAX_PAYLOAD;
use fdr_stream::{Fed, Stream};
use fdr_table::NoMemory;
use std::alloc::Global;

/// A recording of a trace in the image on a deck's disk. A call that is refused consumes it.
#[derive(Drop)]
pub struct Session {
    ring: Ring,
    session: u32,
    // These stay where they were made, so that a session is small where it is moved.
    stream: Box<Stream>,
    block: Box<[u8; MAX_PAYLOAD]>,
    ghost current: { ring.header.version ≡ 2 },
}

impl Session {
    ghost use Rattle.fdr_recorder.specs.Past.{RecordingPast, MayFeedRecording, RepresentsRecording, recording_with_record, blocks_due_at, rest_of, recorded_of, all_blocks};
    ghost use Rattle.fdr_recorder.specs.Starting.{AnnouncesLast, Starts, IsStarted};

    /// Starts a recording by a table in the image on the disk, and announces its next number. The session's number is one
    /// more, modulo 2^32, than that of the image's last block, or 1 where it has none. `Image` names the first fault of the
    /// length and the bytes; `WordsDiffer` is answered where the image is for other words than the table has, and else
    /// `OldVersion` where it is of version 1. Only where a session is answered or the disk failed was the disk written, and
    /// announced was nothing but `next`.
    pub fn start<D: Deck>(
        alloc: Global,
        sound: &Sound,
        deck: &mut D,
    ) -> Result<Session, SessionFault>
        ensures numbers { result ≢ Err SessionFault.SeqEnd }
        ensures image { IsTrue D.tells.bytes
            → (why : ImageFault) → result ≡ Err (SessionFault.Image why) → image_fault_of (D.state deck.old).held ≡ Some why }
        ensures small { (why : ImageFault) → result ≡ Err (SessionFault.Image why)
            → (why ≡ image_fault.Small) ↔ ((D.state deck.new).extent < 64) }
        ensures small_always { (D.state deck.new).extent < 64
            → (result ≡ Err (SessionFault.Image image_fault.Small)) ⊎ (result ≡ Err SessionFault.DiskFault) }
        ensures words { (image table : ℕ) → result ≡ Err (SessionFault.WordsDiffer image table)
            → (table ≡ sound.now.frame.words) × (image ≢ table)
            × (IsTrue D.tells.bytes → IsFor image (D.state deck.old).held) }
        ensures no_memory { IsTrue D.tells.bytes → result ≡ Err SessionFault.NoMemory
            → IsFor sound.now.frame.words (D.state deck.old).held }
        ensures memory_current { IsTrue D.tells.bytes → result ≡ Err SessionFault.NoMemory
            → (header_in (D.state deck.old).held).version ≡ 2 }
        ensures good { IsTrue D.tells.bytes → OnOk result (IsFor sound.now.frame.words (D.state deck.old).held) }
        ensures current { IsTrue D.tells.bytes → OnOk result ((header_in (D.state deck.old).held).version ≡ 2) }
        ensures old_version { result ≡ Err SessionFault.OldVersion → IsTrue D.tells.bytes
            → IsFor sound.now.frame.words (D.state deck.old).held × ((header_in (D.state deck.old).held).version ≡ 1) }
        ensures started { IfOk result (λ s. IsStarted D.tells sound.now s (D.state deck.old) (D.state deck.new)) }
        ensures starts { Starts D.tells (header_in (D.state deck.old).held) (D.state deck.old) (D.state deck.new) }
        ensures refused { OnErr result (KeepsAnnounced (D.state deck.old) (D.state deck.new)) }
        ensures learns { LearnsExtent D.tells (D.state deck.old) (D.state deck.new) }
        ensures untouched { result ≢ Err SessionFault.DiskFault
            → OnErr result (KeepsDisk (D.state deck.old) (D.state deck.new)) }
        ensures looked { result ≢ Err SessionFault.DiskFault
            → OnErr result (IsDiskWork D.tells (D.state deck.old).may_leave (D.state deck.old) (D.state deck.new)) }
        ensures announced_last { EachMoment D.tells (D.state deck.old) (D.state deck.new)
            (AnnouncesLast (D.state deck.old) (D.state deck.new)) }
        ensures no_fault { result ≢ Err SessionFault.DiskFault
            → (D.state deck.new).disk_faults ≡ (D.state deck.old).disk_faults }
        ensures cause { result ≡ Err SessionFault.DiskFault
            → Rose (D.state deck.old).disk_faults (D.state deck.new).disk_faults }
        ensures rest { D.same_rest deck.old deck.new }
    {
        let words = sound.table().frame().words;
        let header = read_header_for(deck, words)?;
        if header.version == 1 {
            return Err(SessionFault::OldVersion);
        }
        let memory = memory_of(alloc, sound, header.payload)?;
        let ring = Ring::attach(deck, header)?;
        let session = ring.session().wrapping_add(1);
        deck.announce(ring.next());
        Ok(Session {
            ring,
            session,
            stream: memory.stream,
            block: memory.block,
        })
    }

    /// Feeds the next record of the trace: each block that is due at it is added to the image, and announced once it is
    /// durable. `SeqEnd` is answered where there is no number left for one of them, and the blocks before it stand. It
    /// is inlined: at most records no block is due.
    #[inline(always)]
    pub fn feed<D: Deck>(self, deck: &mut D, r: &BusRecord) -> Result<Session, SessionFault>
        requires stands { (past : RecordingPast) × RepresentsRecording self past × MayFeedRecording past r.now }
        requires fact { IsRing D.tells self.ring.header self.ring.next (D.state deck.old) }
        ensures only { OnErr result (result ≡ Err SessionFault.DiskFault ⊎ result ≡ Err SessionFault.SeqEnd) }
        ensures stands { (past : RecordingPast) → RepresentsRecording self past → MayFeedRecording past r.now
            → IfOk result (λ s. RepresentsRecording s (recording_with_record past r.now)) }
        ensures header { IfOk result (λ s. s.ring.header ≡ self.ring.header) }
        ensures next { (past : RecordingPast) → RepresentsRecording self past → MayFeedRecording past r.now
            → IfOk result (λ s. s.ring.next ≡ self.ring.next + length (blocks_due_at past r.now)) }
        ensures fact { IfOk result (λ s. IsRing D.tells s.ring.header s.ring.next (D.state deck.new)) }
        ensures records { (past : RecordingPast) → RepresentsRecording self past → MayFeedRecording past r.now
            → RecordsFirstOf D.tells self.ring.header self.ring.next (blocks_due_at past r.now) (D.state deck.old) (D.state deck.new) }
        ensures recorded { (past : RecordingPast) → RepresentsRecording self past → MayFeedRecording past r.now → OnOk result
            (RecordsAllOf D.tells self.ring.header self.ring.next (blocks_due_at past r.now) (D.state deck.old) (D.state deck.new)) }
        ensures seq_end { (past : RecordingPast) → RepresentsRecording self past → MayFeedRecording past r.now → result ≡ Err SessionFault.SeqEnd
            → HasEnded D.tells self.ring.header self.ring.next (blocks_due_at past r.now) (D.state deck.old) (D.state deck.new) }
        ensures room { (past : RecordingPast) → RepresentsRecording self past → MayFeedRecording past r.now
            → OnOk result (self.ring.next + length (blocks_due_at past r.now) ≤ sequence_end) }
        ensures cause { result ≡ Err SessionFault.DiskFault
            → Rose (D.state deck.old).disk_faults (D.state deck.new).disk_faults }
        ensures rest { D.same_rest deck.old deck.new }
    {
        let Session {
            mut ring,
            session,
            mut stream,
            mut block,
        } = self;
        loop {
            match stream.feed(r, &mut *block) {
                Fed::Taken => {
                    return Ok(Session {
                        ring,
                        session,
                        stream,
                        block,
                    });
                }
                Fed::Block => {
                    let payload = ring.header().payload as usize;
                    ring = add(ring, deck, session, &block[..payload])?;
                }
            }
        }
    }

    /// Ends the recording: what is left of the stream is added as a last block, and announced. Answers the next number of
    /// the image.
    pub fn close<D: Deck>(self, deck: &mut D) -> Result<u64, SessionFault>
        requires stands { (past : RecordingPast) × RepresentsRecording self past }
        requires fact { IsRing D.tells self.ring.header self.ring.next (D.state deck.old) }
        ensures only { OnErr result (result ≡ Err SessionFault.DiskFault ⊎ result ≡ Err SessionFault.SeqEnd) }
        ensures all { (past : RecordingPast) → RepresentsRecording self past → all_blocks past ≡ recorded_of past ++ rest_of past }
        ensures next { (past : RecordingPast) → RepresentsRecording self past
            → IfOk result (λ n. n ≡ self.ring.next + length (rest_of past)) }
        ensures records { (past : RecordingPast) → RepresentsRecording self past
            → RecordsFirstOf D.tells self.ring.header self.ring.next (rest_of past) (D.state deck.old) (D.state deck.new) }
        ensures recorded { (past : RecordingPast) → RepresentsRecording self past → OnOk result
            (RecordsAllOf D.tells self.ring.header self.ring.next (rest_of past) (D.state deck.old) (D.state deck.new)) }
        ensures seq_end { (past : RecordingPast) → RepresentsRecording self past → result ≡ Err SessionFault.SeqEnd
            → HasEnded D.tells self.ring.header self.ring.next (rest_of past) (D.state deck.old) (D.state deck.new) }
        ensures room { IfOk result (λ n. n ≤ sequence_end) }
        ensures cause { result ≡ Err SessionFault.DiskFault
            → Rose (D.state deck.old).disk_faults (D.state deck.new).disk_faults }
        ensures rest { D.same_rest deck.old deck.new }
    {
        let Session {
            ring,
            session,
            mut stream,
            mut block,
        } = self;
        let count = stream.finish(&mut *block);
        if count == 0 {
            return Ok(ring.next());
        }
        let ring = add(ring, deck, session, &block[..count])?;
        Ok(ring.next())
    }

    /// The number of the image's next block.
    pub fn next(&self) -> u64
        ensures { result ≡ self.now.ring.next }
    {
        self.ring.next()
    }
}

/// Puts a value where it stays.
fn boxed<T: Drop>(alloc: Global, value: T) -> Result<Box<T>, NoMemory>
    ensures { IfOk result (λ b. b.value ≡ value) }
{
    match Box::new(alloc, value) {
        Ok(boxed) => Ok(boxed),
        Err(_) => Err(NoMemory),
    }
}

/// The memory of a recording.
#[derive(Drop)]
struct Memory {
    stream: Box<Stream>,
    block: Box<[u8; MAX_PAYLOAD]>,
}

/// Takes all memory of a recording by a table, in blocks of `payload` bytes.
fn memory_of(alloc: Global, sound: &Sound, payload: u32) -> Result<Memory, NoMemory>
    requires low { least_payload_bytes ≤ payload }
    requires high { payload ≤ most_payload_bytes }
    ensures stream { IfOk result (λ m. RepresentsStream m.stream.value (stream_made sound.now payload)) }
    ensures block { IfOk result (λ m. length m.block.value ≡ 4096) }
{
    let stream = Stream::new(alloc, sound, payload)?;
    let stream = boxed(alloc, stream)?;
    let block = boxed(alloc, [0; MAX_PAYLOAD])?;
    Ok(Memory { stream, block })
}

/// Adds a block of a session and announces it. The call stays one: at most records no block is due.
#[inline(never)]
fn add<D: Deck>(ring: Ring, deck: &mut D, session: u32, bytes: &[u8]) -> Result<Ring, RingFault>
    requires fact { IsRing D.tells ring.header ring.next (D.state deck.old) }
    requires current { ring.header.version ≡ 2 }
    requires some_bytes { 0 < length bytes.now }
    requires fits { length bytes.now ≤ ring.header.payload }
    ensures seq_end { (result ≡ Err RingFault.SeqEnd) ↔ (ring.next ≡ sequence_end) }
    ensures untouched { result ≡ Err RingFault.SeqEnd → deck.new ≡ deck.old }
    ensures only { OnErr result (result ≡ Err RingFault.SeqEnd ⊎ result ≡ Err RingFault.DiskFault) }
    ensures ring { IfOk result (λ r. (r.header ≡ ring.header) × (r.next ≡ ring.next + 1)) }
    ensures fact { IfOk result (λ r. IsRing D.tells r.header r.next (D.state deck.new)) }
    ensures records { RecordsFirstOf D.tells ring.header ring.next
        (record { number = ring.next; session = session; payload = bytes.now } ∷ []) (D.state deck.old) (D.state deck.new) }
    ensures recorded { OnOk result (RecordsAllOf D.tells ring.header ring.next
        (record { number = ring.next; session = session; payload = bytes.now } ∷ []) (D.state deck.old) (D.state deck.new)) }
    ensures cause { result ≡ Err RingFault.DiskFault
        → Rose (D.state deck.old).disk_faults (D.state deck.new).disk_faults }
    ensures rest { D.same_rest deck.old deck.new }
{
    let prepared = ring.prepare(deck, session, bytes)?;
    let ring = prepared.commit(deck)?;
    deck.announce(ring.next());
    Ok(ring)
}
