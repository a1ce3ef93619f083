//! What follows of the definitions of a recording.

ghost use Rattle.std.specs.Prelude.{◌≡◌, ℕ, List, ◌++◌, ◌-◌};
ghost use Rattle.fdr_bus.specs.declared.BusRecord.{BusRecord};
ghost use Rattle.fdr_slot.specs.Limits.{IsInLimits};
ghost use Rattle.fdr_slot.specs.declared.image.Header.{Header};
ghost use Rattle.fdr_recover.specs.Blocks.{Block};
ghost use Rattle.fdr_ring.specs.Runs.{IsTail};
ghost use Rattle.fdr_recorder.specs.Keeping.{RecoversPrefix, RecoversPrefixAfter};
ghost use Rattle.fdr_recorder.specs.Past.{RecordingPast, MayFeedRecording, recording_with_record, recorded_of, blocks_due_at};

/// What is promised doesn't wear away over recordings of which each begins on the image that the one before it left, however
/// it was stopped. It does no work.
pub fn keeps_chain()
    ensures { (h : Header) (entry image : List ℕ) (whole old new : List Block) (announced : ℕ)
        → IsTail (h.slots - 2) whole old → RecoversPrefix h entry old new announced image → RecoversPrefixAfter h whole new image }
{}

/// A further record changes none of the blocks that were due before it: those of all records one after another are those of
/// the whole stream. It does no work.
pub fn blocks_join()
    ensures { (past : RecordingPast) (r : BusRecord) → IsInLimits past.header → MayFeedRecording past r
        → recorded_of (recording_with_record past r) ≡ recorded_of past ++ blocks_due_at past r }
{}
