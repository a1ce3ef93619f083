//! What is answered at the end of an input.

ghost use Rattle.std.specs.Prelude.{◌≡◌};
ghost use Rattle.fdr_top.specs.InputTexts.{answer_of};

use crate::outcome::Outcome;
use fdr_io::Input;
use fdr_pieces::InputEnd;

/// The answer where all was written.
pub fn answer_of(end: InputEnd) -> Outcome
    ensures { result ≡ answer_of end }
{
    match end {
        InputEnd::End => Outcome::Done,
        InputEnd::Fault => Outcome::ReadFault(Input::Line),
        InputEnd::TooLong => Outcome::TooLong,
    }
}
