//! What holds of cells, and of levels that are read as cells.

ghost use Rattle.std.specs.Prelude.{◌≡◌, ◌+◌, ◌-◌, ◌*◌, ◌/◌, ◌%◌, ◌≤◌, ◌++◌, ℕ, Bool, true, not, List, None, Some, All, length, map, drop, replicate};
ghost use Rattle.fdr_biphase.specs.Cells.{Cells, cells_of};
ghost use Rattle.fdr_biphase.specs.Phases.{fails_at, phase_bits, missing_place, cell_bits};
ghost use Rattle.fdr_biphase.specs.Past.{DecoderPast, RepresentsDecoder};
ghost use Rattle.fdr_biphase.specs.declared.decoder.Decoder.{Decoder};

/// A law, and no work: bits have cells, and no other levels are their cells.
pub fn cells_are_unique()
    ensures cells { (first : Bool) (bits : List Bool) → Cells first bits (cells_of first bits) }
    ensures only { (first : Bool) (bits levels : List Bool) → Cells first bits levels → levels ≡ cells_of first bits }
{}

/// A law, and no work: of the cells of bits any number of levels may be struck from the front. The rest reads as the bits
/// whose cells are whole, whatever the level was before the first cell. Where the rest begins in the middle of a cell and
/// all these bits are 1, cells could begin at any place, and the bits are the same.
pub fn bits_of_cells()
    ensures bits { (first : Bool) (bits : List Bool) (struck : ℕ) → struck ≤ 2 * length bits
        → cell_bits (drop struck (cells_of first bits)) ≡ drop ((struck + 1) / 2) bits }
    ensures fits { (first : Bool) (bits : List Bool) (struck : ℕ) → struck ≤ 2 * length bits
        → fails_at (drop struck (cells_of first bits)) (struck % 2) ≡ None }
    ensures none_missing { (first : Bool) (bits : List Bool) (struck : ℕ) → struck ≤ 2 * length bits
        → missing_place (drop struck (cells_of first bits)) ≡ None }
    ensures both_fit { (first : Bool) (bits : List Bool) (struck phase : ℕ) → struck ≤ 2 * length bits → struck % 2 ≡ 1 → phase ≤ 1
        → All (λ bit. bit ≡ true) (drop ((struck + 1) / 2) bits) → fails_at (drop struck (cells_of first bits)) phase ≡ None }
    ensures same_bits { (first : Bool) (bits : List Bool) (struck phase : ℕ) → struck ≤ 2 * length bits → struck % 2 ≡ 1 → phase ≤ 1
        → All (λ bit. bit ≡ true) (drop ((struck + 1) / 2) bits)
        → phase_bits (drop struck (cells_of first bits)) phase ≡ drop ((struck + 1) / 2) bits }
{}

/// A law, and no work: levels that are all turned, as by a pair of wires that were exchanged, read as the same bits.
pub fn turned_levels()
    ensures bits { (levels : List Bool) → cell_bits (map not levels) ≡ cell_bits levels }
    ensures missing { (levels : List Bool) → missing_place (map not levels) ≡ missing_place levels }
{}

/// A law, and no work: where both phases fit, all bits of both are 1, and phase 0 has at most one bit more than phase 1. So a
/// decoder that answers the bits of both has at most one bit that waits.
pub fn one_bit_waits()
    ensures even { (levels : List Bool) → fails_at levels 0 ≡ None → fails_at levels 1 ≡ None
        → phase_bits levels 0 ≡ replicate (length levels / 2) true }
    ensures odd { (levels : List Bool) → fails_at levels 0 ≡ None → fails_at levels 1 ≡ None
        → phase_bits levels 1 ≡ replicate ((length levels - 1) / 2) true }
{}

/// A law, and no work: a place that is missing stays so, with the bits before it, however the levels go on. No answer of a
/// decoder is taken back, and no place is missing in the levels that it represents.
pub fn bits_stay()
    ensures missing { (levels more : List Bool) (at : ℕ) → missing_place levels ≡ Some at → missing_place (levels ++ more) ≡ Some at }
    ensures bits { (levels more : List Bool) (at : ℕ) → missing_place levels ≡ Some at → cell_bits (levels ++ more) ≡ cell_bits levels }
    ensures answered { (d : Decoder) (past : DecoderPast) (more : List Bool) → RepresentsDecoder d past
        → (next : List Bool) × (cell_bits (past.levels ++ more) ≡ past.bits ++ next) }
    ensures none_missing { (d : Decoder) (past : DecoderPast) → RepresentsDecoder d past → missing_place past.levels ≡ None }
{}
