//! What bits list as; what a recording reads back as, whole and where only some of it survives.

ghost use Rattle.std.specs.Prelude.{◌≡◌, ℕ, ◌+◌, ◌*◌, ◌%◌, ◌<◌, ◌≤◌, List};
ghost use Rattle.fdr_bus.specs.declared.BusRecord.{BusRecord};
ghost use Rattle.fdr_table.specs.Ranges.{IsInRange};
ghost use Rattle.fdr_table.specs.Rows.{TableRows};
ghost use Rattle.fdr_check.specs.Soundness.{IsSound};
ghost use Rattle.fdr_sampler.specs.Stream.{stream_of};
ghost use Rattle.fdr_readout.specs.Listing.{ListsEvents, listing_of};
ghost use Rattle.fdr_readout.specs.SampledRows.{sampled_listing, whole_frames};
ghost use Rattle.fdr_readout.specs.Survival.{StandIn, IsClearBefore, Survives, AreListed, AreInBoth, sampled_since, lines_at};

/// A law, and no work: the listing of any bits, by any table, is that of their accepted frames and gaps. The bits have exactly
/// one list of these, and the listing has their lines in that order.
pub fn lists_events()
    ensures { (t : TableRows) (b : List ℕ) → ListsEvents t b }
{}

/// A law, and no work: the listing of a recording's bytes is the sampled rows of its whole frames, in order, and one gap of
/// the bits that remain. It holds of every trace and of every sound table.
pub fn reads_back()
    ensures { (t : TableRows) (records : List BusRecord) → IsInRange t → IsSound t
        → listing_of t (stream_of t records) ≡ sampled_listing t records }
{}

/// A law, and no work: frames of a recording that survive in any bits at all are listed from them, with the counters and
/// the values that were sampled. It holds of every trace and of every sound table, whatever the other bits are. And the
/// first frames of a recording survive in its own bytes, since nothing comes before them.
pub fn survives()
    ensures listed { (t : TableRows) (records : List BusRecord) (b : List ℕ) (q j m : ℕ) → IsInRange t → IsSound t
        → Survives t records b q j m → AreListed t records b q j m }
    ensures itself { (t : TableRows) (records : List BusRecord) (m : ℕ) → IsInRange t → IsSound t
        → 1 ≤ m → m ≤ whole_frames t records → Survives t records (stream_of t records) 0 0 m }
{}

/// A law, and no work: damage elsewhere changes nothing of what is listed of a surviving run. The run may survive in two bit
/// lists, wherever it is in each. Then the rows of its samples, those whose parts all lie inside it, have the
/// same lines in both listings; and each frame whose superframe begins inside it has the same lines and no others. It does
/// survive wherever its bits stand, unless what is before them there looks like a frame that reaches into them.
pub fn damage_elsewhere()
    ensures survives { (t : TableRows) (records : List BusRecord) (b c : List ℕ) (q r j m : ℕ) → Survives t records b q j m
        → StandIn b q (48 * t.frame.words * m) c r → IsClearBefore c t.frame.words r → Survives t records c r j m }
    ensures rows { (t : TableRows) (records : List BusRecord) (b c : List ℕ) (q r j m : ℕ) → IsInRange t → IsSound t
        → Survives t records b q j m → Survives t records c r j m → (i : ℕ) → i < m
        → AreInBoth t (sampled_since t records j (j + i)) b (q + 48 * t.frame.words * i) c (r + 48 * t.frame.words * i) }
    ensures frames { (t : TableRows) (records : List BusRecord) (b c : List ℕ) (q r j m : ℕ) → IsInRange t → IsSound t
        → Survives t records b q j m → Survives t records c r j m → (i : ℕ) → i < m → (j + i) % 16 ≤ i
        → lines_at t b (q + 48 * t.frame.words * i) ≡ lines_at t c (r + 48 * t.frame.words * i) }
{}
