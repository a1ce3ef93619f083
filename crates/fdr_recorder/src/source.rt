//! What gives the records of a recording.

ghost use Rattle.std.specs.Prelude.{◌≡◌, ◌≢◌, ◌<◌, ◌++◌, ⊤, false, ℕ, List, Err, IfOk, MatchResult};
ghost use Rattle.fdr_bus.specs.declared.BusRecord.{BusRecord};
ghost use Rattle.fdr_bus.specs.Records.{is_end};
ghost use Rattle.fdr_deck.specs.Calls.{HasOneAnnounced, KeepsAnnounced, LeavesDisk};
ghost use Rattle.fdr_deck.specs.Moments.{Elapses};
ghost use Rattle.fdr_trace.specs.Moments.{PullsForRecord};
ghost use Rattle.fdr_trace.specs.Pulls.{PullsUntilDecided};
ghost use Rattle.fdr_recorder.specs.Supply.{RecordSupply, GivesNext, HasRunOut};

use fdr_bus::BusRecord;
use fdr_deck::Deck;
use fdr_gen::Gen;
use fdr_trace::{TraceLine, TraceStop};

/// How a source of records ended.
#[derive(Clone, Copy, Debug, PartialEq, Eq)]
pub enum SourceEnd {
    /// It gave an end record, which is its last.
    Ended,
    /// No further record of its trace came.
    Stopped(TraceStop),
}

/// Gives the records of a recording, one after another, and may pull them from the input of a deck.
pub trait RecordSource<D: Deck> {
    // The source gave these records of this supply, and these bytes were pulled for them.
    ghost gave: { RecordSupply → Self → List ℕ → List BusRecord → Type 0 };

    // How many records may still come, at most.
    ghost left: { Self → ℕ };

    // It gives its records without the deck.
    ghost is_still: { Self → Type 0 };

    /// The next record, which may be the end, or why no further one comes. It isn't asked after the end.
    fn next_record(&mut self, deck: &mut D) -> Result<BusRecord, TraceStop>
        requires { (from : RecordSupply) × (bytes : List ℕ) × (records : List BusRecord) × gave from self.old bytes records }
        ensures next { (from : RecordSupply) (bytes : List ℕ) (records : List BusRecord) → gave from self.old bytes records
            → (more : List ℕ) × PullsUntilDecided D.tells (D.state deck.old) (D.state deck.new) bytes more
            × MatchResult result (GivesNext from (gave from self.new) (bytes ++ more) records)
            (HasRunOut from D.tells (D.state deck.old) (D.state deck.new) (bytes ++ more) records)
            × PullsForRecord D.tells (D.state deck.old) (D.state deck.new) bytes more records }
        ensures fewer { (from : RecordSupply) (bytes : List ℕ) (records : List BusRecord) → gave from self.old bytes records
            → IfOk result (λ r. is_end r ≡ false → left self.new < left self.old) }
        ensures still { is_still self.old → is_still self.new × (deck.new ≡ deck.old) }
        ensures no_fault { result ≢ Err TraceStop.Failed
            → (D.state deck.new).input_faults ≡ (D.state deck.old).input_faults }
        ensures disk { LeavesDisk (D.state deck.old) (D.state deck.new) }
        ensures announced { KeepsAnnounced (D.state deck.old) (D.state deck.new) }
        ensures fresh { (D.state deck.old).taken < (D.state deck.new).taken → HasOneAnnounced (D.state deck.new) }
        ensures time { Elapses D.tells (D.state deck.old) (D.state deck.new) };
}

/// The trace on the deck's input.
impl<D: Deck> RecordSource<D> for TraceLine {
    ghost use Rattle.fdr_recorder.specs.Supply.{HasRead, most_to_read};

    ghost gave = { λ from trace bytes records. HasRead from trace bytes records };

    ghost left = { λ trace. most_to_read trace };

    ghost is_still = { λ trace. ⊥ };

    fn next_record(&mut self, deck: &mut D) -> Result<BusRecord, TraceStop> {
        self.next(deck)
    }
}

/// A trace that is generated.
impl<D: Deck> RecordSource<D> for Gen {
    ghost use Rattle.fdr_recorder.specs.Supply.{HasDrawn, left_to_draw};

    ghost gave = { λ from generator bytes records. HasDrawn from generator bytes records };

    ghost left = { λ generator. left_to_draw generator };

    ghost is_still = { λ generator. ⊤ };

    fn next_record(&mut self, deck: &mut D) -> Result<BusRecord, TraceStop> {
        match self.next() {
            Some(next) => Ok(next),
            None => unreachable!(),
        }
    }
}
