//! The recording of a whole trace on two disks.

ghost use Rattle.std.specs.Prelude.{[], Err, IfOk, IfErr, MatchResult};
ghost use Rattle.fdr_trace.specs.Reading.{RepresentsTrace};
ghost use Rattle.fdr_recorder.specs.Past.{RecordingPast};
ghost use Rattle.fdr_pair.specs.Traces.{HasFedTrace, IsPairBegun, PairRecordsTrace};

use crate::{PairFault, PairSession};
use fdr_bus::RecordKind;
use fdr_recorder::SourceEnd;
use fdr_trace::TraceLine;
use fdr_twin::Twin;

/// A session that was fed all records of a trace, and how the trace ended.
#[derive(Drop)]
struct Fed {
    session: PairSession,
    end: SourceEnd,
}

/// Feeds the records of the trace on the twin's line up to their end, or to where no further one comes.
fn feed_trace<T: Twin>(
    mut session: PairSession,
    trace: &mut TraceLine,
    twin: &mut T,
) -> Result<Fed, PairFault>
    requires { (past : RecordingPast) × RepresentsTrace trace.old [] [] × IsPairBegun T.tells session past (T.pair twin.old) }
    ensures fed { (past : RecordingPast) → RepresentsTrace trace.old [] [] → IsPairBegun T.tells session past (T.pair twin.old)
        → IfOk result (λ f. HasFedTrace T.tells past session.rings f.session (T.pair twin.old) (T.pair twin.new) f.end) }
    ensures ended { (past : RecordingPast) → RepresentsTrace trace.old [] [] → IsPairBegun T.tells session past (T.pair twin.old)
        → IfErr result (λ fault. PairRecordsTrace T.tells past session.rings (T.pair twin.old) (T.pair twin.new) (Err fault)) }
{
    loop {
        let next = match trace.next(twin) {
            Ok(next) => next,
            Err(why) => {
                let end = SourceEnd::Stopped(why);
                return Ok(Fed { session, end });
            }
        };
        session = match session.feed(twin, &next) {
            Ok(session) => session,
            Err(fault) => return Err(fault),
        };
        match next.kind {
            RecordKind::Word => {}
            RecordKind::End => {
                let end = SourceEnd::Ended;
                return Ok(Fed { session, end });
            }
        }
    }
}

/// Records the trace on the twin's line in a session that was just started, on both sides or on the one that hasn't failed, and
/// answers how the trace ended. `DiskFault` is answered only where both sides have failed, and `SeqEnd` only where there is no
/// number left for a block.
pub fn record_trace<T: Twin>(
    session: PairSession,
    trace: &mut TraceLine,
    twin: &mut T,
) -> Result<SourceEnd, PairFault>
    requires { (past : RecordingPast) × RepresentsTrace trace.old [] [] × IsPairBegun T.tells session past (T.pair twin.old) }
    ensures { (past : RecordingPast) → RepresentsTrace trace.old [] [] → IsPairBegun T.tells session past (T.pair twin.old)
        → PairRecordsTrace T.tells past session.rings (T.pair twin.old) (T.pair twin.new) result }
{
    let fed = match feed_trace(session, trace, twin) {
        Ok(fed) => fed,
        Err(fault) => return Err(fault),
    };
    let end = fed.end;
    match fed.session.close(twin) {
        Ok(_rings) => Ok(end),
        Err(fault) => Err(fault),
    }
}
