//! Two sides that kept one recording.

ghost use Rattle.std.specs.Prelude.{◌≡◌, ◌+◌, ◌-◌, ◌*◌, ◌%◌, ◌≤◌, max, ℕ, List};
ghost use Rattle.fdr_bus.specs.declared.BusRecord.{BusRecord};
ghost use Rattle.fdr_slot.specs.Limits.{IsInLimits};
ghost use Rattle.fdr_recover.specs.Blocks.{Block};
ghost use Rattle.fdr_recover.specs.ImageHeader.{header_in};
ghost use Rattle.fdr_recover.specs.Payloads.{run_in};
ghost use Rattle.fdr_pair.specs.Brought.{brought_run};
ghost use Rattle.fdr_recorder.specs.NewBlocks.{new_blocks, past_in};
ghost use Rattle.fdr_recorder.specs.Past.{RecordingPast};
ghost use Rattle.fdr_table.specs.Ranges.{IsInRange};
ghost use Rattle.fdr_table.specs.Rows.{TableRows};
ghost use Rattle.fdr_check.specs.Soundness.{IsSound};
ghost use Rattle.fdr_readout.specs.Survival.{AreInBoth, lines_at, sampled_since};
ghost use Rattle.fdr_laws.specs.Sides.{AreInStep, EndsWithBlocks, HasRoomForRecording, HoldsRecording, ListsBack, SurvivesInBoth};

/// A law, and no work: it doesn't matter which of two sides is read that kept one recording. A side that holds all of it lists it
/// back as what was sampled, whatever it held before. So does the image of a recording that had room for it, and on two disks the
/// lead's and the other's. Of each frame that survives on
/// both sides, in whichever run on each, both list the rows that were sampled since the later of the two runs began, with the same
/// lines; and where its superframe begins in both runs, the same lines and no others.
pub fn sides_list_the_same()
    ensures lists_back { (past : RecordingPast) (run : List Block) (image : List ℕ) → IsInRange past.table → IsSound past.table
        → IsInLimits past.header → HoldsRecording past run image → ListsBack past image }
    ensures recorded { (t : TableRows) (records : List BusRecord) (entry image : List ℕ)
        → EndsWithBlocks (header_in entry) (run_in entry) (new_blocks t entry records) image → HasRoomForRecording t entry records
        → HoldsRecording (past_in t entry records) (run_in entry) image }
    ensures brought { (t : TableRows) (records : List BusRecord) (lead follower image : List ℕ) → IsInLimits (header_in lead)
        → AreInStep (header_in lead) lead follower
        → EndsWithBlocks (header_in lead) (brought_run (header_in lead) lead follower) (new_blocks t lead records) image
        → HasRoomForRecording t lead records → HoldsRecording (past_in t lead records) (brought_run (header_in lead) lead follower) image }
    ensures rows { (t : TableRows) (records : List BusRecord) (b c : List ℕ) (q j m r k l f : ℕ) → IsInRange t → IsSound t
        → SurvivesInBoth t records b q j m c r k l f
        → AreInBoth t (sampled_since t records (max j k) f) b (q + 48 * t.frame.words * (f - j)) c (r + 48 * t.frame.words * (f - k)) }
    ensures lines { (t : TableRows) (records : List BusRecord) (b c : List ℕ) (q j m r k l f : ℕ) → IsInRange t → IsSound t
        → SurvivesInBoth t records b q j m c r k l f → f % 16 ≤ f - max j k
        → lines_at t b (q + 48 * t.frame.words * (f - j)) ≡ lines_at t c (r + 48 * t.frame.words * (f - k)) }
{}
