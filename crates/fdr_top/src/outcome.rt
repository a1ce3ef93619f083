//! What a command answers.

ghost use Rattle.std.specs.Prelude.{◌≡◌, ◌≤◌, length};
ghost use Rattle.fdr_top.specs.Outcome.{status_of, text_of, input_text};

use fdr_bus::TraceFault;
use fdr_exceed::{RuleFault, rule_fault_text};
use fdr_io::Input;
use fdr_line::Line;
use fdr_messages::{image_message, table_message, trace_message, words_message};
use fdr_slot::ImageFault;
use fdr_table::TableFault;

/// The program's name, which its messages begin with.
const PROGRAM: &[u8] = b"fdr";

/// The answer of a command. Its number is the exit status of the program.
#[derive(Clone, Copy, Debug, PartialEq, Eq)]
pub enum Outcome {
    /// The words are right, the input was read to its end, and all was written.
    Done,
    /// The words of the command line are none of the forms.
    Usage,
    /// The table is refused for this fault in this row.
    TableRefused {
        row: u32,
        fault: TableFault,
    },
    /// The trace is refused for this fault of the record after the good ones, whose number is its index.
    TraceRefused {
        index: u64,
        fault: TraceFault,
    },
    /// What the disk holds is refused as an image.
    ImageRefused(ImageFault),
    /// An image is made only where there is none.
    NotEmpty,
    /// The image is for frames of other words than the table's.
    WordsDiffer {
        /// The words in a subframe of what the image is for.
        image: u32,
        /// The words in a subframe by the table.
        table: u32,
    },
    /// A block was to be recorded, and there is no number left for it.
    SeqEnd,
    /// The table or the input could not be read.
    ReadFault(Input),
    /// The output could not be written; a front part of it was.
    WriteFault,
    /// The disk failed.
    DiskFault,
    /// The input has more than 268,435,456 bytes; the text of the first 268,435,456 was written.
    TooLong,
    /// There was not enough memory.
    NoMemory,
    /// The image is of version 1, and only one of version 2 is recorded in.
    OldVersion,
    /// The level doesn't change at a place where a cell would begin, wherever the input's cells began; the bits before it
    /// were written.
    CellFault {
        /// The place, counted from 0 over all levels.
        at: u64,
    },
    /// The rules are refused for this fault in this record, counted from 0.
    RuleRefused {
        row: u32,
        fault: RuleFault,
    },
}

impl Outcome {
    /// The exit status.
    pub fn status(&self) -> u8
        ensures { result ≡ status_of self.now }
    {
        match self {
            Outcome::Done => 0,
            Outcome::Usage => 1,
            Outcome::TableRefused { .. } => 2,
            Outcome::TraceRefused { .. } => 3,
            Outcome::ImageRefused(_) => 4,
            Outcome::NotEmpty => 5,
            Outcome::WordsDiffer { .. } => 6,
            Outcome::SeqEnd => 7,
            Outcome::ReadFault(_) => 8,
            Outcome::WriteFault => 9,
            Outcome::DiskFault => 10,
            Outcome::TooLong => 11,
            Outcome::NoMemory => 12,
            Outcome::OldVersion => 13,
            Outcome::CellFault { .. } => 14,
            Outcome::RuleRefused { .. } => 17,
        }
    }

    /// What to tell the user, without a line feed; nothing where all went well.
    #[tactic(auto, using(fdr_line::proofs::Lengths::numbers))]
    pub fn text(&self) -> Line
        ensures { result ≡ text_of self.now }
    {
        let mut line = Line::new();
        match self {
            Outcome::Done => {}
            Outcome::Usage => line.add(b"fdr: usage"),
            Outcome::TableRefused { row, fault } => return table_message(PROGRAM, *row, fault),
            Outcome::TraceRefused { index, fault } => return trace_message(PROGRAM, *index, fault),
            Outcome::ImageRefused(fault) => return image_message(PROGRAM, fault),
            Outcome::NotEmpty => line.add(b"fdr: image is not empty"),
            Outcome::WordsDiffer { image, table } => return words_message(PROGRAM, *image, *table),
            Outcome::SeqEnd => line.add(b"fdr: sequence numbers are used up"),
            Outcome::ReadFault(input) => line.add(input_text(input)),
            Outcome::WriteFault => line.add(b"fdr: output cannot be written"),
            Outcome::DiskFault => line.add(b"fdr: disk fault"),
            Outcome::TooLong => line.add(b"fdr: input too long"),
            Outcome::NoMemory => line.add(b"fdr: no memory"),
            Outcome::OldVersion => line.add(b"fdr: image is version 1"),
            Outcome::CellFault { at } => {
                line.add(b"fdr: no transition at level ");
                line.add_number(*at);
            }
            Outcome::RuleRefused { row, fault } => {
                line.add(b"fdr: rule row ");
                line.add_number(u64::from(*row));
                line.add(b": ");
                line.add(rule_fault_text(*fault).bytes());
            }
        }
        line
    }
}

/// Which input could not be read, in words.
fn input_text(input: &Input) -> &'static [u8]
    ensures text { result.now ≡ input_text input.now }
    ensures short { length result.now ≤ 40 }
{
    match input {
        Input::Table => b"fdr: table cannot be read",
        Input::Line => b"fdr: input cannot be read",
    }
}
