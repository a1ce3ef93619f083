//! The recording of all that a source gives, in the image on a deck's disk.

ghost use Rattle.std.specs.Prelude.{◌≡◌, ◌≢◌, ◌+◌, ◌≤◌, [], Ok, Err, IfOk, IfErr, IsTrue};
ghost use Rattle.fdr_io.specs.Faults.{Rose};
ghost use Rattle.fdr_deck.specs.Calls.{IsDiskWork};
ghost use Rattle.fdr_deck.specs.Disk.{KeepsDisk, LearnsExtent};
ghost use Rattle.fdr_deck.specs.Pull.{KeepsInput};
ghost use Rattle.fdr_recover.specs.ImageHeader.{IsFor, header_in};
ghost use Rattle.fdr_recorder.specs.Ends.{CutsSession, IsRefusedAtStart};
ghost use Rattle.fdr_recorder.specs.NewBlocks.{next_in};
ghost use Rattle.fdr_recorder.specs.Past.{RecordingPast};
ghost use Rattle.fdr_recorder.specs.Supplied.{Continues, HasFedAll, IsBegun, RecordsSupply};
ghost use Rattle.fdr_recorder.specs.Supply.{RecordSupply};

use crate::source::{RecordSource, SourceEnd};
use crate::{Session, SessionFault};
use fdr_bus::RecordKind;
use fdr_check::Sound;
use fdr_deck::Deck;
use fdr_trace::TraceStop;
use std::alloc::Global;

/// A session that was fed all records of a source, and how the source ended.
#[derive(Drop)]
struct Fed {
    session: Session,
    end: SourceEnd,
}

/// A recording that was closed: how its source ended, and the image's next number.
#[derive(Drop)]
struct Closed {
    end: SourceEnd,
    next: u64,
}

/// A recording of all that a source gives.
#[derive(Drop)]
pub struct Recorded {
    /// How the source ended.
    pub end: SourceEnd,
    /// How many blocks were recorded.
    pub blocks: u64,
}

/// Records the records of a source up to their end, or to where no further one comes.
fn record_records<D: Deck, S: RecordSource<D>>(
    mut session: Session,
    source: &mut S,
    deck: &mut D,
) -> Result<Fed, SessionFault>
    requires { (from : RecordSupply) × (past : RecordingPast) × S.gave from source.old [] [] × IsBegun D.tells session past (D.state deck.old) }
    ensures fed { (from : RecordSupply) (past : RecordingPast) → S.gave from source.old [] [] → IsBegun D.tells session past (D.state deck.old)
        → IfOk result (λ f. HasFedAll from D.tells past f.session (D.state deck.old) (D.state deck.new) f.end) }
    ensures ended { (from : RecordSupply) (past : RecordingPast) → S.gave from source.old [] [] → IsBegun D.tells session past (D.state deck.old)
        → IfErr result (λ fault. Continues from D.tells past (D.state deck.old) (D.state deck.new) (Err fault)) }
    ensures only { IfErr result CutsSession }
    ensures input_fault { IfOk result (λ f. f.end ≡ SourceEnd.Stopped TraceStop.Failed
        → Rose (D.state deck.old).input_faults (D.state deck.new).input_faults) }
    ensures disk_fault { IfErr result (λ fault. fault ≡ SessionFault.DiskFault
        → Rose (D.state deck.old).disk_faults (D.state deck.new).disk_faults) }
    ensures no_disk_fault { IfOk result (λ f. (D.state deck.new).disk_faults ≡ (D.state deck.old).disk_faults) }
    ensures no_fault_if_cut { IfErr result (λ fault. fault ≢ SessionFault.DiskFault
        → (D.state deck.new).disk_faults ≡ (D.state deck.old).disk_faults) }
    ensures unpulled { S.is_still source.old → KeepsInput (D.state deck.old) (D.state deck.new)
        × ((D.state deck.new).input_faults ≡ (D.state deck.old).input_faults) }
    ensures extent { (D.state deck.new).extent ≡ (D.state deck.old).extent }
{
    loop {
        let next = match source.next_record(deck) {
            Ok(next) => next,
            Err(why) => {
                let end = SourceEnd::Stopped(why);
                return Ok(Fed { session, end });
            }
        };
        session = match session.feed(deck, &next) {
            Ok(session) => session,
            Err(fault) => return Err(fault),
        };
        match next.kind {
            RecordKind::Word => {}
            RecordKind::End => {
                let end = SourceEnd::Ended;
                return Ok(Fed { session, end });
            }
        }
    }
}

/// Records all that a source gives in a session that was just started.
fn record_all<D: Deck, S: RecordSource<D>>(
    session: Session,
    source: &mut S,
    deck: &mut D,
) -> Result<Closed, SessionFault>
    requires { (from : RecordSupply) × (past : RecordingPast) × S.gave from source.old [] [] × IsBegun D.tells session past (D.state deck.old) }
    ensures closed { (from : RecordSupply) (past : RecordingPast) → S.gave from source.old [] [] → IsBegun D.tells session past (D.state deck.old)
        → IfOk result (λ r. Continues from D.tells past (D.state deck.old) (D.state deck.new) (Ok r.end)) }
    ensures ended { (from : RecordSupply) (past : RecordingPast) → S.gave from source.old [] [] → IsBegun D.tells session past (D.state deck.old)
        → IfErr result (λ fault. Continues from D.tells past (D.state deck.old) (D.state deck.new) (Err fault)) }
    ensures next { IfOk result (λ r. r.next ≡ (D.state deck.new).announced) }
    ensures later { IfOk result (λ r. session.ring.next ≤ r.next) }
    ensures only { IfErr result CutsSession }
    ensures input_fault { IfOk result (λ r. r.end ≡ SourceEnd.Stopped TraceStop.Failed
        → Rose (D.state deck.old).input_faults (D.state deck.new).input_faults) }
    ensures disk_fault { IfErr result (λ fault. fault ≡ SessionFault.DiskFault
        → Rose (D.state deck.old).disk_faults (D.state deck.new).disk_faults) }
    ensures no_disk_fault { IfOk result (λ r. (D.state deck.new).disk_faults ≡ (D.state deck.old).disk_faults) }
    ensures no_fault_if_cut { IfErr result (λ fault. fault ≢ SessionFault.DiskFault
        → (D.state deck.new).disk_faults ≡ (D.state deck.old).disk_faults) }
    ensures unpulled { S.is_still source.old → KeepsInput (D.state deck.old) (D.state deck.new)
        × ((D.state deck.new).input_faults ≡ (D.state deck.old).input_faults) }
    ensures extent { (D.state deck.new).extent ≡ (D.state deck.old).extent }
{
    let fed = record_records(session, source, deck)?;
    let end = fed.end;
    match fed.session.close(deck) {
        Ok(next) => Ok(Closed { end, next }),
        Err(fault) => Err(fault),
    }
}

/// Records all that a source gives in the image on the deck's disk, by a table. All memory is taken before the disk is written.
/// Where the session is refused or cut short, the fault says why; else the answer says how the source ended.
pub fn record_source<D: Deck, S: RecordSource<D>>(
    alloc: Global,
    sound: &Sound,
    source: &mut S,
    deck: &mut D,
) -> Result<Recorded, SessionFault>
    requires { (from : RecordSupply) × S.gave from source.old [] [] }
    ensures recorded { (from : RecordSupply) → S.gave from source.old [] []
        → IfOk result (λ r. RecordsSupply from sound.now D.tells (D.state deck.old) (D.state deck.new) (Ok r.end)) }
    ensures ended { (from : RecordSupply) → S.gave from source.old [] []
        → IfErr result (λ fault. RecordsSupply from sound.now D.tells (D.state deck.old) (D.state deck.new) (Err fault)) }
    ensures blocks { IfOk result (λ r. IsTrue D.tells.bytes → next_in (D.state deck.old).held + r.blocks ≡ (D.state deck.new).announced) }
    ensures memory { IfErr result (λ fault. fault ≡ SessionFault.NoMemory → 64 ≤ (D.state deck.new).extent) }
    ensures memory_good { IfErr result (λ fault. fault ≡ SessionFault.NoMemory → IsTrue D.tells.bytes
        → IsFor sound.now.frame.words (D.state deck.old).held) }
    ensures memory_current { IfErr result (λ fault. fault ≡ SessionFault.NoMemory → IsTrue D.tells.bytes
        → (header_in (D.state deck.old).held).version ≡ 2) }
    ensures untouched { IfErr result (λ fault. IsRefusedAtStart fault → KeepsDisk (D.state deck.old) (D.state deck.new)) }
    ensures looked { IfErr result (λ fault. IsRefusedAtStart fault
        → IsDiskWork D.tells (D.state deck.old).may_leave (D.state deck.old) (D.state deck.new)) }
    ensures announced { IfErr result (λ fault. IsRefusedAtStart fault → (D.state deck.new).announced ≡ (D.state deck.old).announced) }
    ensures input { IfErr result (λ fault. IsRefusedAtStart fault → KeepsInput (D.state deck.old) (D.state deck.new)
        × ((D.state deck.new).input_faults ≡ (D.state deck.old).input_faults)) }
    ensures unpulled { S.is_still source.old → KeepsInput (D.state deck.old) (D.state deck.new)
        × ((D.state deck.new).input_faults ≡ (D.state deck.old).input_faults) }
    ensures learns { LearnsExtent D.tells (D.state deck.old) (D.state deck.new) }
    ensures input_fault { IfOk result (λ r. r.end ≡ SourceEnd.Stopped TraceStop.Failed
        → Rose (D.state deck.old).input_faults (D.state deck.new).input_faults) }
    ensures disk_fault { IfErr result (λ fault. fault ≡ SessionFault.DiskFault
        → Rose (D.state deck.old).disk_faults (D.state deck.new).disk_faults) }
    ensures no_disk_fault { IfOk result (λ r. (D.state deck.new).disk_faults ≡ (D.state deck.old).disk_faults) }
    ensures no_fault_if_cut { IfErr result (λ fault. fault ≢ SessionFault.DiskFault
        → (D.state deck.new).disk_faults ≡ (D.state deck.old).disk_faults) }
{
    let session = match Session::start(alloc, sound, deck) {
        Ok(session) => session,
        Err(fault) => return Err(fault),
    };
    let first = session.next();
    let closed = record_all(session, source, deck)?;
    Ok(Recorded {
        end: closed.end,
        blocks: closed.next - first,
    })
}
