ghost use Rattle.std.specs.Prelude.{◌≡◌};
ghost use Rattle.fdr_table.specs.Answers.{refused};

use std::alloc::AllocError;

/// There wasn't enough memory.
#[derive(Clone, Copy, Debug, PartialEq, Eq)]
pub struct NoMemory;

impl From<AllocError> for NoMemory {
    fn from(_error: AllocError) -> NoMemory {
        NoMemory
    }
}

/// What is wrong with a table.
#[derive(Clone, Copy, Debug, PartialEq, Eq)]
pub enum TableFault {
    /// The row's letter isn't `F`, `P` or `L`, or the row has another count of fields.
    Shape,
    /// The field isn't a value that may be there. Fields are counted from 0, the letter's.
    Number {
        field: u8,
    },
    /// No frame row is above the row, or the table has no row.
    NoFrame,
    /// A second frame row.
    TwoFrames,
    /// The parameter's name isn't 1 to 16 letters, digits, `_`, `-` and `.`.
    Name,
    /// The parameter's name is in a row above.
    Twice,
    /// The place's name is in no parameter's row above.
    Unknown,
    /// The table has too many bytes, parameters or places.
    Size,
    /// The counter's word or a place's word is above the number of words in a subframe.
    Place,
    /// The place is on the word of the sync words.
    OnSync,
    /// An occurrence of the place is in the counter's word.
    OnCounter,
    /// Places in two rows share a bit: the first such bit of the superframe, by its word slot's word, 1 to 1024, and the
    /// bit of that word, 1 to 12.
    Overlap {
        first: u32,
        second: u32,
        word: u32,
        bit: u8,
    },
    /// The parameter's parts aren't numbered from 1 with none missing, the places of one part differ in width, or the
    /// widths of the parts don't add to the parameter's.
    Parts,
    /// A part of the parameter doesn't occur in a superframe as often as its rate declares.
    Rate {
        declared: u32,
        counted: u32,
    },
    /// All parts together occur more than 262,144 times in a superframe.
    TooMany,
}

/// A refused table: the row, counted from 0, and its fault.
#[derive(Clone, Copy, Debug, PartialEq, Eq)]
pub struct Refusal {
    pub row: u32,
    pub fault: TableFault,
}

/// Why a table wasn't read.
#[derive(Clone, Copy, Debug, PartialEq, Eq)]
pub enum TableError {
    Refused(Refusal),
    NoMemory,
}

impl From<NoMemory> for TableError {
    ghost use Rattle.std.specs.Prelude.{◌≡◌};
    ghost use Rattle.fdr_table.specs.declared.fault.TableError.TheVariants as error;

    ghost from_gives = { λ _ result. result ≡ error.NoMemory };

    fn from(_error: NoMemory) -> TableError {
        TableError::NoMemory
    }
}

/// The table is refused at this row.
pub(crate) fn refused(row: u32, fault: TableFault) -> TableError
    ensures { result ≡ refused row fault }
{
    TableError::Refused(Refusal { row, fault })
}
