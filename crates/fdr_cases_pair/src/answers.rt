//! Each answer's status and text. The cases of whole commands have the text of each fault of a table and of a trace.

use fdr_bus::TraceFault;
use fdr_io::Input;
use fdr_pair::PairOutcome;
use fdr_slot::ImageFault;
use fdr_table::TableFault;
use fdr_twin::Side;

/// Each answer, its status and its text.
const ANSWERS: &[(PairOutcome, u8, &[u8])] = &[
    (PairOutcome::Done, 0, b""),
    (PairOutcome::Usage, 1, b"fdrpair: usage"),
    (
        PairOutcome::TableRefused {
            row: u32::MAX,
            fault: TableFault::Overlap {
                first: 8191,
                second: u32::MAX,
                word: 1024,
                bit: 12,
            },
        },
        2,
        b"fdrpair: table row 4294967295: overlap with row 8191 at word 1024 bit 12",
    ),
    (
        PairOutcome::TraceRefused {
            index: u64::MAX,
            fault: TraceFault::Truncated,
        },
        3,
        b"fdrpair: trace record 18446744073709551615: truncated",
    ),
    (
        PairOutcome::WordsDiffer {
            image: 64,
            table: 1024,
        },
        6,
        b"fdrpair: image has 64 words, table has 1024",
    ),
    (
        PairOutcome::SeqEnd,
        7,
        b"fdrpair: sequence numbers are used up",
    ),
    (
        PairOutcome::ReadFault(Input::Table),
        8,
        b"fdrpair: table cannot be read",
    ),
    (
        PairOutcome::ReadFault(Input::Line),
        8,
        b"fdrpair: input cannot be read",
    ),
    (PairOutcome::DiskFault, 10, b"fdrpair: disk fault"),
    (PairOutcome::NoMemory, 12, b"fdrpair: no memory"),
    (PairOutcome::OldVersion, 13, b"fdrpair: image is version 1"),
    (PairOutcome::HeadersDiffer, 15, b"fdrpair: headers differ"),
    (
        PairOutcome::BlocksDiffer { seq: 5 },
        16,
        b"fdrpair: block 5 differs",
    ),
    (
        PairOutcome::BlocksDiffer {
            seq: 281_474_976_710_655,
        },
        16,
        b"fdrpair: block 281474976710655 differs",
    ),
    (
        PairOutcome::LeadFault(Side::First),
        18,
        b"fdrpair: lead disk fault",
    ),
    (
        PairOutcome::LeadFault(Side::Second),
        18,
        b"fdrpair: lead disk fault",
    ),
    (
        PairOutcome::FarBehind(Side::First),
        19,
        b"fdrpair: first image is too far behind",
    ),
    (
        PairOutcome::FarBehind(Side::Second),
        19,
        b"fdrpair: second image is too far behind",
    ),
];

#[test]
fn says_each_answer(rt: HostRuntime) {
    for &(answer, status, text) in ANSWERS {
        assert!(rt;
            answer.status() == status && answer.text().bytes() == text,
            "{answer:?}"
        );
    }
}

/// Faults of an image, and the texts where it is the first and where it is the second.
const IMAGE_FAULTS: &[(ImageFault, &[u8], &[u8])] = &[
    (
        ImageFault::Small,
        b"fdrpair: first image: too small",
        b"fdrpair: second image: too small",
    ),
    (
        ImageFault::Closed,
        b"fdrpair: first image: header closed",
        b"fdrpair: second image: header closed",
    ),
    (
        ImageFault::Magic,
        b"fdrpair: first image: not a recorder image",
        b"fdrpair: second image: not a recorder image",
    ),
    (
        ImageFault::Geometry,
        b"fdrpair: first image: geometry",
        b"fdrpair: second image: geometry",
    ),
    (
        ImageFault::Short,
        b"fdrpair: first image: shorter than its ring",
        b"fdrpair: second image: shorter than its ring",
    ),
];

#[test]
fn says_which_image_is_refused(rt: HostRuntime) {
    for &(fault, first, second) in IMAGE_FAULTS {
        for (side, text) in [(Side::First, first), (Side::Second, second)] {
            let answer = PairOutcome::ImageRefused { side, fault };
            assert!(rt;
                answer.status() == 4 && answer.text().bytes() == text,
                "{answer:?}"
            );
        }
    }
}
