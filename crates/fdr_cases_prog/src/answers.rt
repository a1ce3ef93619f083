//! Answers whose texts are compared: each, also those that no command of a script has, and the faults of a table in its last row.

use fdr_bus::TraceFault;
use fdr_exceed::RuleFault;
use fdr_io::Input;
use fdr_slot::ImageFault;
use fdr_table::TableFault;
use fdr_top::Outcome;

/// The greatest number of a row.
pub const LAST_ROW: u32 = u32::MAX;

/// Each fault of a table.
pub const TABLE_FAULTS: &[TableFault] = &[
    TableFault::Shape,
    TableFault::Number { field: 12 },
    TableFault::NoFrame,
    TableFault::TwoFrames,
    TableFault::Name,
    TableFault::Twice,
    TableFault::Unknown,
    TableFault::Size,
    TableFault::Place,
    TableFault::OnSync,
    TableFault::OnCounter,
    TableFault::Overlap {
        first: 8191,
        second: LAST_ROW,
        word: 1024,
        bit: 12,
    },
    TableFault::Parts,
    TableFault::Rate {
        declared: 64,
        counted: 16,
    },
    TableFault::TooMany,
];

/// Each other answer, in the order of the statuses.
pub const ANSWERS: &[Outcome] = &[
    Outcome::Done,
    Outcome::Usage,
    Outcome::TableRefused {
        row: 0,
        fault: TableFault::Shape,
    },
    Outcome::TraceRefused {
        index: 0,
        fault: TraceFault::Kind,
    },
    Outcome::TraceRefused {
        index: 1,
        fault: TraceFault::Back,
    },
    Outcome::TraceRefused {
        index: 2,
        fault: TraceFault::Late,
    },
    Outcome::TraceRefused {
        index: u64::MAX,
        fault: TraceFault::Truncated,
    },
    Outcome::TraceRefused {
        index: 4_294_967_296,
        fault: TraceFault::Many,
    },
    Outcome::ImageRefused(ImageFault::Small),
    Outcome::ImageRefused(ImageFault::Closed),
    Outcome::ImageRefused(ImageFault::Magic),
    Outcome::ImageRefused(ImageFault::Geometry),
    Outcome::ImageRefused(ImageFault::Short),
    Outcome::NotEmpty,
    Outcome::WordsDiffer {
        image: 64,
        table: 1024,
    },
    Outcome::SeqEnd,
    Outcome::ReadFault(Input::Table),
    Outcome::ReadFault(Input::Line),
    Outcome::WriteFault,
    Outcome::DiskFault,
    Outcome::TooLong,
    Outcome::NoMemory,
    Outcome::OldVersion,
    Outcome::CellFault { at: 15 },
    Outcome::CellFault {
        at: 18_446_744_073_709_551_615,
    },
    Outcome::RuleRefused {
        row: 0,
        fault: RuleFault::Unknown,
    },
    Outcome::RuleRefused {
        row: 4_294_967_295,
        fault: RuleFault::Number { field: 4 },
    },
];
