//! What holds of the events of bytes, and of bytes that go on.

ghost use Rattle.std.specs.Prelude.{◌≡◌, ◌+◌, ◌*◌, ◌<◌, ◌++◌, ◌∷◌, ◌==◌, [], ℕ, List, Some, All, true, length, slice_get};
ghost use Rattle.std.specs.List.{list_any};
ghost use Rattle.fdr_bits.specs.Bits.{bits_in};
ghost use Rattle.fdr_frame.specs.WordCount.{IsWordCount};
ghost use Rattle.fdr_sync.specs.Accepted.{accepted_frames};
ghost use Rattle.fdr_sync.specs.Events.{Event, Frame, decided_events, events_of};
ghost use Rattle.fdr_resync.specs.Past.{ScannerKept, ScannerPast, RepresentsScanner, known_events};
ghost use Rattle.fdr_resync.specs.Adjacency.{ends_with_frame};

/// A law, and no work: what is decided of bytes stays so, however they go on and wherever they end, and nothing else does: any
/// events that all longer bytes begin with are among the first decided ones. Further accepted frames end after these bytes. The events that a scanner has given are the first of those that are known, and the next one is
/// next among all events, whatever comes.
pub fn stays_decided()
    ensures frames { (bytes more : List ℕ) (w : ℕ) → IsWordCount w → (next : List ℕ)
        × (accepted_frames (bytes ++ more) w ≡ accepted_frames bytes w ++ next) × All (λ x. bits_in bytes < x + 48 * w) next }
    ensures decided { (bytes more : List ℕ) (w : ℕ) → IsWordCount w → (next : List Event)
        × (decided_events (bytes ++ more) w ≡ decided_events bytes w ++ next) }
    ensures empty { (w : ℕ) → IsWordCount w → decided_events [] w ≡ [] }
    ensures events { (bytes more : List ℕ) (w : ℕ) → IsWordCount w → (next : List Event)
        × (events_of (bytes ++ more) w ≡ decided_events bytes w ++ next) }
    ensures longest { (bytes : List ℕ) (w : ℕ) (es : List Event)
        → ((more : List ℕ) → (next : List Event) × (events_of (bytes ++ more) w ≡ es ++ next))
        → (rest : List Event) × (decided_events bytes w ≡ es ++ rest) }
    ensures taken { (k : ScannerKept) (past : ScannerPast) → RepresentsScanner k past → (next : List Event)
        × (known_events past ≡ past.taken ++ next) }
    ensures next { (k : ScannerKept) (past : ScannerPast) (more : List ℕ) (e : Event) → RepresentsScanner k past
        → IsWordCount past.words → (past.finished ≡ true → more ≡ [])
        → slice_get (known_events past) (length past.taken) ≡ Some e → (after : List Event)
        × (events_of (past.bytes ++ more) past.words ≡ past.taken ++ e ∷ after) }
{}

/// A law, and no work: a frame begins where another one ends exactly where the event before it is a frame.
pub fn adjacent_after_a_frame()
    ensures { (bytes : List ℕ) (w at : ℕ) (before after : List Event) → IsWordCount w
        → events_of bytes w ≡ before ++ Frame at ∷ after
        → list_any (λ x. x + 48 * w == at) (accepted_frames bytes w) ≡ ends_with_frame before }
{}
