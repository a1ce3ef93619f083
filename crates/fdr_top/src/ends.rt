//! The answers to how a trace and a recording ended.

ghost use Rattle.std.specs.Prelude.{◌≡◌};
ghost use Rattle.fdr_top.specs.Ends.{answer_of_stop, session_refusal, source_answer};

use crate::outcome::Outcome;
use fdr_io::Input;
use fdr_recorder::{SessionFault, SourceEnd};
use fdr_trace::TraceStop;

/// The answer where no further record of a trace comes and all was written or recorded.
pub fn answer_of_stop(stop: TraceStop) -> Outcome
    ensures { result ≡ answer_of_stop stop }
{
    match stop {
        TraceStop::Refused { index, fault } => Outcome::TraceRefused { index, fault },
        TraceStop::Failed => Outcome::ReadFault(Input::Line),
    }
}

/// The answer where all that a source gave is recorded.
pub fn source_answer(end: SourceEnd) -> Outcome
    ensures { result ≡ source_answer end }
{
    match end {
        SourceEnd::Ended => Outcome::Done,
        SourceEnd::Stopped(why) => answer_of_stop(why),
    }
}

/// The answer where a session is refused or cut short.
pub fn session_refusal(fault: SessionFault) -> Outcome
    ensures { result ≡ session_refusal fault }
{
    match fault {
        SessionFault::Image(fault) => Outcome::ImageRefused(fault),
        SessionFault::WordsDiffer { image, table } => Outcome::WordsDiffer { image, table },
        SessionFault::OldVersion => Outcome::OldVersion,
        SessionFault::DiskFault => Outcome::DiskFault,
        SessionFault::SeqEnd => Outcome::SeqEnd,
        SessionFault::NoMemory => Outcome::NoMemory,
    }
}
