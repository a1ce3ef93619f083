//! What holds of every generated trace.

ghost use Rattle.std.specs.Prelude.{◌≡◌, ◌≤◌, ℕ, Some, true, slice_get, take};
ghost use Rattle.std.specs.Option.{unwrap_or};
ghost use Rattle.fdr_bus.specs.declared.BusRecord.{BusRecord};
ghost use Rattle.fdr_bus.specs.Records.{has_end};
ghost use Rattle.fdr_bus.specs.Words.{bits_at, is_odd, label_of, sdi_of};
ghost use Rattle.fdr_table.specs.Rows.{ParamRow, TableRows};
ghost use Rattle.fdr_table.specs.Ranges.{IsParamInRange};
ghost use Rattle.fdr_gen.specs.Trace.{MayFollow, generated_trace, most_frames, sender_of, bus_word_of};

/// A law, and no work: each record of a generated trace may follow those before it, and there is an end record. So the end
/// is the last record, and a recorder may be fed with the trace.
pub fn stays_good()
    ensures follows { (t : TableRows) (seed frames n : ℕ) (r : BusRecord) → frames ≤ most_frames
        → slice_get (generated_trace t seed frames) n ≡ Some r → MayFollow (take n (generated_trace t seed frames)) r }
    ensures ends { (t : TableRows) (seed frames : ℕ) → has_end (generated_trace t seed frames) ≡ true }
{}

/// A law, and no work: a generated word reads as its parameter's, with bits 11 to 31 of the drawn number and odd parity.
pub fn reads_back()
    ensures label { (p : ParamRow) (number : ℕ) → IsParamInRange p → label_of (bus_word_of (sender_of p) number) ≡ p.label }
    ensures sdi { (p : ParamRow) (number : ℕ) → IsParamInRange p
        → sdi_of (bus_word_of (sender_of p) number) ≡ unwrap_or p.sdi 0 }
    ensures data_bits { (p : ParamRow) (number : ℕ) → IsParamInRange p
        → bits_at (bus_word_of (sender_of p) number) 11 21 ≡ bits_at number 11 21 }
    ensures odd { (p : ParamRow) (number : ℕ) → IsParamInRange p → is_odd (bus_word_of (sender_of p) number) ≡ true }
{}
