//! What the contracts of calls of a deck say of both sides of a twin.

ghost use Rattle.std.specs.Prelude.{◌≡◌, ℕ, List, Bool, IsTrue};
ghost use Rattle.fdr_deck.specs.Calls.{IsDiskWork};
ghost use Rattle.fdr_twin.specs.declared.side.Side.{Side};
ghost use Rattle.fdr_twin.specs.Serving.{Serves};

use crate::Twin;

/// A law, and no work: calls of a deck that announce nothing, pull nothing and leave the rest serve the side that the twin is
/// turned to, and leave the other. So what a ring says of its deck is said of each side of a twin. Here the property of the
/// images is one that is decided; the lemma `serves` has it for each property.
pub fn calls_serve_one_side<T: Twin>()
    ensures { (holds : List ℕ → Bool) (side : Side) (old new : T) → (T.pair old).turned ≡ side → T.same_rest old new
        → IsDiskWork T.tells (λ image. IsTrue (holds image)) (T.state old) (T.state new) → Serves T.tells side (λ image. IsTrue (holds image)) (T.pair old) (T.pair new) }
{}
