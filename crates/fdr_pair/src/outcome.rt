//! What recording on two disks answers.

ghost use Rattle.std.specs.Prelude.{◌≡◌, ◌≤◌, length};
ghost use Rattle.fdr_pair.specs.PairOutcome.{pair_status_of, pair_text_of, pair_input_text, side_image_text};

use fdr_bus::TraceFault;
use fdr_io::Input;
use fdr_line::Line;
use fdr_messages::{image_fault_words, table_message, trace_message, words_message};
use fdr_slot::ImageFault;
use fdr_table::TableFault;
use fdr_twin::Side;

/// The program's name, which its messages begin with.
const PROGRAM: &[u8] = b"fdrpair";

/// The answer of a recording on two disks. Its number is the exit status of the program.
#[derive(Clone, Copy, Debug, PartialEq, Eq)]
pub enum PairOutcome {
    /// The words are right, the trace was read to its end record, and all was recorded.
    Done,
    /// The words of the command line aren't those of the one form.
    Usage,
    /// The table is refused for this fault in this row.
    TableRefused {
        row: u32,
        fault: TableFault,
    },
    /// The trace is refused for this fault of the record after the good ones, whose number is its index.
    TraceRefused {
        index: u64,
        fault: TraceFault,
    },
    /// What this disk holds is refused as an image.
    ImageRefused {
        side: Side,
        fault: ImageFault,
    },
    /// The images are for frames of other words than the table's.
    WordsDiffer {
        /// The words in a subframe of what the images are for.
        image: u32,
        /// The words in a subframe by the table.
        table: u32,
    },
    /// A block was to be recorded, and there is no number left for it.
    SeqEnd,
    /// The table or the input could not be read.
    ReadFault(Input),
    /// Both disks failed.
    DiskFault,
    /// There was not enough memory.
    NoMemory,
    /// The images are of version 1, and only such of version 2 are recorded in.
    OldVersion,
    /// The images differ in the slots, the payload, the words or the version that their headers name.
    HeadersDiffer,
    /// Both images hold a block of this number, the least of those that differ in length, session or payload. On a twin that
    /// doesn't tell its bytes it may also be a block that was there and no longer is.
    BlocksDiffer {
        seq: u64,
    },
    /// This disk leads: it has blocks that the other lacks. It failed before they were put on the other.
    LeadFault(Side),
    /// The image of this disk lacks blocks that the other's doesn't hold any more.
    FarBehind(Side),
}

impl PairOutcome {
    /// The exit status.
    pub fn status(&self) -> u8
        ensures { result ≡ pair_status_of self.now }
    {
        match self {
            PairOutcome::Done => 0,
            PairOutcome::Usage => 1,
            PairOutcome::TableRefused { .. } => 2,
            PairOutcome::TraceRefused { .. } => 3,
            PairOutcome::ImageRefused { .. } => 4,
            PairOutcome::WordsDiffer { .. } => 6,
            PairOutcome::SeqEnd => 7,
            PairOutcome::ReadFault(_) => 8,
            PairOutcome::DiskFault => 10,
            PairOutcome::NoMemory => 12,
            PairOutcome::OldVersion => 13,
            PairOutcome::HeadersDiffer => 15,
            PairOutcome::BlocksDiffer { .. } => 16,
            PairOutcome::LeadFault(_) => 18,
            PairOutcome::FarBehind(_) => 19,
        }
    }

    /// What to tell the user, without a line feed; nothing where all went well.
    #[tactic(auto, using(fdr_line::proofs::Lengths::numbers))]
    pub fn text(&self) -> Line
        ensures { result ≡ pair_text_of self.now }
    {
        let mut line = Line::new();
        match self {
            PairOutcome::Done => {}
            PairOutcome::Usage => line.add(b"fdrpair: usage"),
            PairOutcome::TableRefused { row, fault } => return table_message(PROGRAM, *row, fault),
            PairOutcome::TraceRefused { index, fault } => {
                return trace_message(PROGRAM, *index, fault);
            }
            PairOutcome::ImageRefused { side, fault } => {
                line.add(side_image_text(side));
                line.add(b": ");
                line.add(image_fault_words(fault));
            }
            PairOutcome::WordsDiffer { image, table } => {
                return words_message(PROGRAM, *image, *table);
            }
            PairOutcome::SeqEnd => line.add(b"fdrpair: sequence numbers are used up"),
            PairOutcome::ReadFault(input) => line.add(input_text(input)),
            PairOutcome::DiskFault => line.add(b"fdrpair: disk fault"),
            PairOutcome::NoMemory => line.add(b"fdrpair: no memory"),
            PairOutcome::OldVersion => line.add(b"fdrpair: image is version 1"),
            PairOutcome::HeadersDiffer => line.add(b"fdrpair: headers differ"),
            PairOutcome::BlocksDiffer { seq } => {
                line.add(b"fdrpair: block ");
                line.add_number(*seq);
                line.add(b" differs");
            }
            PairOutcome::LeadFault(_) => line.add(b"fdrpair: lead disk fault"),
            PairOutcome::FarBehind(side) => {
                line.add(side_image_text(side));
                line.add(b" is too far behind");
            }
        }
        line
    }
}

/// Which input could not be read, in words.
fn input_text(input: &Input) -> &'static [u8]
    ensures text { result.now ≡ pair_input_text input.now }
    ensures short { length result.now ≤ 40 }
{
    match input {
        Input::Table => b"fdrpair: table cannot be read",
        Input::Line => b"fdrpair: input cannot be read",
    }
}

/// Which image a message is of, in words.
fn side_image_text(side: &Side) -> &'static [u8]
    ensures text { result.now ≡ side_image_text side.now }
    ensures short { length result.now ≤ 40 }
{
    match side {
        Side::First => b"fdrpair: first image",
        Side::Second => b"fdrpair: second image",
    }
}
