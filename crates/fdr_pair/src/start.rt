//! The start of a recording on two disks.

ghost use Rattle.std.specs.Prelude.{IfOk, IfErr};
ghost use Rattle.fdr_pair.specs.PairStarting.{IsPairStarted, IsStartRefused};

use crate::attach::go_on;
use crate::join::join_sides;
use crate::open::open_sides;
use crate::outcome::PairOutcome;
use crate::runs::find_runs;
use crate::{PairSession, RecordingRoom};
use fdr_check::Sound;
use fdr_trace::TraceLine;
use fdr_twin::Twin;
use std::alloc::Global;

/// A recording on two disks that was just started, and the reader of its trace.
#[derive(Drop)]
pub struct PairStart {
    /// The recording.
    pub session: PairSession,
    /// The reader.
    pub trace: TraceLine,
}

/// Starts a recording by a table in the images on both disks of a twin. The headers of both are read, and memory is taken. Then
/// the runs are compared, the side that is behind is brought up to the one that leads, each ring is attached, and the next number
/// is announced. A side that fails is left aside, except where the lead fails while the other is brought up to it.
pub fn start_pair<T: Twin>(
    alloc: Global,
    sound: &Sound,
    twin: &mut T,
) -> Result<PairStart, PairOutcome>
    ensures started { IfOk result (λ s. IsPairStarted sound.now T.tells s (T.pair twin.old) (T.pair twin.new)) }
    ensures refused { IfErr result (λ why. IsStartRefused sound.now T.tells (T.pair twin.old) (T.pair twin.new) why) }
{
    let words = sound.table().frame().words;
    let opened = open_sides(twin, words)?;
    let Ok(room) = RecordingRoom::new(alloc, sound, opened.header.payload) else {
        return Err(PairOutcome::NoMemory);
    };
    let Ok(trace) = TraceLine::new(alloc) else {
        return Err(PairOutcome::NoMemory);
    };
    let runs = find_runs(twin, &opened)?;
    let joined = join_sides(twin, opened.header, &runs)?;
    let number = joined.found.session.wrapping_add(1);
    let rings = go_on(twin, opened.header, joined)?;
    let session = PairSession::new(room, rings, number);
    Ok(PairStart { session, trace })
}
