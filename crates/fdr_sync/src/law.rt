//! What the frames and the gaps of any bits are.

ghost use Rattle.std.specs.Prelude.{ℕ, List};
ghost use Rattle.fdr_sync.specs.Events.{EventsAreUnique};

/// A law, and no work: any bits have exactly one list of accepted frames, and exactly one list of frames and gaps. It holds
/// of every number of words in a subframe.
pub fn events_are_unique()
    ensures { (bytes : List ℕ) (words : ℕ) → EventsAreUnique bytes words }
{}
