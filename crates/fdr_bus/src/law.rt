//! What holds of the good records of any bytes.

ghost use Rattle.std.specs.Prelude.{◌≡◌, ◌≤◌, ◌-◌, ◌++◌, ◌↔◌, ℕ, true, List, None, Some, length};
ghost use Rattle.fdr_bus.specs.Records.{IsDecided, IsGoodPrefix, good_prefix, has_end, trace_fault};
ghost use Rattle.fdr_bus.specs.Words.{bus_bit, label_of};
ghost use Rattle.fdr_bus.specs.declared.BusRecord.{BusRecord};
ghost use Rattle.fdr_bus.specs.declared.TraceFault.{TraceFault};

/// A law, and no work: the records that are read one after the other are the longest list of good records at the front of
/// the bytes, and no other list is.
pub fn good_prefix_is_longest()
    ensures longest { (bytes : List ℕ) → IsGoodPrefix bytes (good_prefix bytes) }
    ensures only { (bytes : List ℕ) (records : List BusRecord) → IsGoodPrefix bytes records → records ≡ good_prefix bytes }
{}

/// A law, and no work: what decides a trace decides it whatever follows.
pub fn decided_stays()
    ensures { (bytes more : List ℕ) → IsDecided bytes → good_prefix (bytes ++ more) ≡ good_prefix bytes }
{}

/// A law, and no work: a trace has no fault exactly where its good records have an end, and the number of the first bad
/// record is how many good ones there are.
pub fn fault_is_after_the_good_records()
    ensures none { (bytes : List ℕ) → (trace_fault bytes ≡ None) ↔ (has_end (good_prefix bytes) ≡ true) }
    ensures number { (bytes : List ℕ) (index : ℕ) (why : TraceFault) → trace_fault bytes ≡ Some (index, why) → index ≡ length (good_prefix bytes) }
{}

/// A law, and no work: the label has the first eight bits of the word the other way round.
pub fn label_has_the_first_bits()
    ensures { (word i : ℕ) → 1 ≤ i → i ≤ 8 → bus_bit (label_of word) (9 - i) ≡ bus_bit word i }
{}
