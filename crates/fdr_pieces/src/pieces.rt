//! The loop over the pieces of an input.

ghost use Rattle.std.specs.Prelude.{◌≡◌, ◌≢◌, ◌+◌, ◌≤◌, ℕ, List, [], ◌++◌, length, IfOk, IfErr, OnOk, OnErr};
ghost use Rattle.fdr_io.specs.Faults.{Rose};
ghost use Rattle.fdr_io.specs.Limits.{piece_bytes};
ghost use Rattle.fdr_deck.specs.Calls.{LeavesDisk};
ghost use Rattle.fdr_pieces.specs.Limits.{most_input_bytes};
ghost use Rattle.fdr_pieces.specs.Pieces.{EndsInput, LeavesStops, PullsPieces, before_last, last_piece};

use fdr_deck::Deck;
use fdr_io::{Failed, PIECE};

/// The most bytes of an input that are taken.
pub const MAX_INPUT_BYTES: usize = 268_435_456;

// The number that the contracts name: `most_input_bytes` of the definitions.
const _: () = prove!(MAX_INPUT_BYTES == 268_435_456);

/// Why no more of an input was pulled.
#[derive(Clone, Copy, Debug, PartialEq, Eq)]
pub enum InputEnd {
    /// The input is at its end.
    End,
    /// A pull failed.
    Fault,
    /// More bytes came than are taken.
    TooLong,
}

/// Takes the pieces of an input, one after another. What it makes of them goes out by a value of type `O` beside it.
pub trait PieceTaker<O> {
    /// Why it takes no more.
    type Stop;

    // Since the taker and what is beside it were as they were at first, these bytes were taken, and then a last piece.
    ghost took: { Self → O → List ℕ → List ℕ → Self → O → Type 0 };

    // After these bytes it stopped in a last piece, for this reason.
    ghost stopped: { Self → O → List ℕ → List ℕ → Self.Stop → Self → O → Type 0 };

    /// Takes a piece of at most 4,096 bytes. After a stop it takes no more.
    fn take(&mut self, piece: &[u8], out: &mut O) -> Result<(), Self::Stop>
        requires piece { length piece.now ≤ piece_bytes }
        requires taking { (first : Self) × (out_first : O) × (bytes last : List ℕ) × took first out_first bytes last self.old out.old
            × (length (bytes ++ last) + length piece.now ≤ most_input_bytes) }
        ensures all { (first : Self) (out_first : O) (bytes last : List ℕ) → took first out_first bytes last self.old out.old
            → OnOk result (took first out_first (bytes ++ last) piece.now self.new out.new) }
        ensures part { (first : Self) (out_first : O) (bytes last : List ℕ) → took first out_first bytes last self.old out.old
            → IfErr result (λ stop. stopped first out_first (bytes ++ last) piece.now stop self.new out.new) };
}

/// Pulls the input to its end, or until more than `limit` bytes came, or a pull failed, or the taker stopped. Each piece is
/// taken before the next is pulled, and of all of them at most `limit` bytes, which may be up to 268,435,456.
pub fn take_pieces<D: Deck, O, T: PieceTaker<O>>(
    taker: &mut T,
    limit: usize,
    deck: &mut D,
    out: &mut O,
) -> Result<InputEnd, T::Stop>
    requires limit { limit ≤ most_input_bytes }
    requires fresh { T.took taker.old out.old [] [] taker.old out.old }
    ensures all { IfOk result (λ end. (pulled : List ℕ) × PullsPieces limit D.tells (D.state deck.old) (D.state deck.new) pulled
        × EndsInput limit D.tells (D.state deck.new) pulled end
        × T.took taker.old out.old (before_last limit (D.state deck.old) (D.state deck.new) pulled)
        (last_piece limit (D.state deck.old) (D.state deck.new) pulled) taker.new out.new) }
    ensures part { IfErr result (λ stop. (pulled : List ℕ) × PullsPieces limit D.tells (D.state deck.old) (D.state deck.new) pulled
        × T.stopped taker.old out.old (before_last limit (D.state deck.old) (D.state deck.new) pulled)
        (last_piece limit (D.state deck.old) (D.state deck.new) pulled) stop taker.new out.new) }
    ensures fault { IfOk result (λ end. end ≡ InputEnd.Fault → Rose (D.state deck.old).input_faults (D.state deck.new).input_faults) }
    ensures no_fault { IfOk result (λ end. end ≢ InputEnd.Fault → (D.state deck.new).input_faults ≡ (D.state deck.old).input_faults) }
    ensures stop_quiet { OnErr result ((D.state deck.new).input_faults ≡ (D.state deck.old).input_faults) }
    ensures disk { LeavesDisk (D.state deck.old) (D.state deck.new) }
    ensures stops { LeavesStops D.tells (D.state deck.old) (D.state deck.new) }
    ensures announced { (D.state deck.new).announced ≡ (D.state deck.old).announced }
    ensures bounded { (D.state deck.new).taken ≤ (D.state deck.old).taken + limit + piece_bytes }
{
    let mut piece = [0; PIECE];
    let mut left = limit;
    loop {
        let count = match deck.pull(&mut piece) {
            Ok(0) => return Ok(InputEnd::End),
            Ok(count) => count,
            Err(Failed) => return Ok(InputEnd::Fault),
        };
        let taken = count.min(left);
        taker.take(&piece[..taken], out)?;
        if taken < count {
            return Ok(InputEnd::TooLong);
        }
        left -= taken;
    }
}
