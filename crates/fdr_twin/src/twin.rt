//! What a twin does.

ghost use Rattle.fdr_twin.specs.Pair.{Pair, seen};
ghost use Rattle.fdr_twin.specs.Same.{IsSameState, Turns};
ghost use Rattle.fdr_twin.specs.Rest.{HasSameRest};
ghost use Rattle.fdr_twin.specs.Sound.{IsSoundPair};

use crate::Side;
use fdr_deck::Deck;

/// Two disks with one input and one announced number. Each disk may fail, and has a count of its own of its faults. As
/// a deck a twin is the disk that it is turned to; calls of the input and announcements are the same on both sides. Each call
/// of a deck leaves the other disk as it is, whatever it does to its own.
pub trait Twin: Deck {
    // What both sides mean, and what they share.
    ghost pair: { Self → Pair };

    /// Turns to this side. Nothing else changes, and it is no event: no moment falls within it.
    fn turn(&mut self, side: Side)
        ensures turns { Turns side (pair self.old) (pair self.new) };

    // As a deck it means what the side that it is turned to means.
    ghost faces: { (twin : Self) → IsSameState (Self.state twin) (seen (pair twin).turned (pair twin)) };

    // What holds of each twin.
    ghost sound_pair: { (twin : Self) → IsSoundPair Self.tells (pair twin) };

    // What a call leaves that has the same rest.
    ghost leaves_rest: { (old new : Self) → Self.same_rest old new → HasSameRest (pair old) (pair new) };
}
