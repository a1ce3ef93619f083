//! The deck over a storage in memory: calls that come short, are interrupted or fail.

use crate::calls::{Call, DONE, FAILED, Given, Step, gives};
use crate::disks::copied;
use fdr_storage::{MemStorage, MemStream, Outcome};
use fdr_storage_deck::{ImageFile, StorageDeck, Window};
use std::io::sink;
use std::process::Abort;

/// A file of these bytes and the outcomes of its calls, an input and those of its reads, and calls of the deck over both.
struct Case {
    bytes: &'static [u8],
    outcomes: &'static [Outcome],
    line: &'static [u8],
    reads: &'static [Outcome],
    steps: &'static [Step<'static>],
}

/// A call that is whole. Four of them open a file that is there: two looks, the opening itself and the lock.
const W: Outcome = Outcome::Whole;

fn image_of(rt: &(impl Abort + AllocGlobal), case: &Case) -> ImageFile<MemStorage> {
    let outcomes = case.outcomes.to_vec(rt.alloc()).expect(rt, "a table");
    let storage = MemStorage::new(rt.alloc(), copied(rt, case.bytes), outcomes);
    ImageFile::new(storage.expect(rt, "a storage"), true)
}

/// Whether the deck over this file answers as the case says.
fn answers(rt: &(impl Abort + AllocGlobal), image: ImageFile<MemStorage>, case: &Case) -> bool {
    let outcomes = case.reads.to_vec(rt.alloc()).expect(rt, "a table");
    let stream = MemStream::new(copied(rt, case.line), outcomes);
    let mut deck = StorageDeck::new(image, stream, sink());
    gives(&mut deck, case.steps)
}

const CASES: &[Case] = &[
    // short and interrupted calls move all bytes
    Case {
        bytes: &[0, 1, 2, 3, 4, 5, 6, 7],
        outcomes: &[
            W,
            W,
            W,
            W,
            Outcome::Interrupted,
            W,
            W,
            Outcome::Short(1),
            Outcome::Interrupted,
            Outcome::Short(2),
            W,
            Outcome::Short(2),
            Outcome::Interrupted,
            Outcome::Short(1),
        ],
        line: &[],
        reads: &[],
        steps: &[
            (Call::Size, Ok(Given::Size(8))),
            (Call::Write(2, &[12, 13, 14, 15]), DONE),
            (Call::Read(1), Ok(Given::Bytes([1, 12, 13, 14]))),
            (Call::Read(4), Ok(Given::Bytes([14, 15, 6, 7]))),
        ],
    },
    // calls that fail are told
    Case {
        bytes: &[1, 2, 3],
        outcomes: &[W, W, W, W, Outcome::Failed, W, Outcome::Failed],
        line: &[],
        reads: &[],
        steps: &[
            (Call::Size, FAILED),
            (Call::Size, Ok(Given::Size(3))),
            (Call::Sync, FAILED),
            (Call::Sync, DONE),
        ],
    },
    // an empty file is filled, whose folder is opened first
    Case {
        bytes: &[],
        outcomes: &[W, W, W, W, W, W, Outcome::Short(5), Outcome::Interrupted],
        line: &[],
        reads: &[],
        steps: &[
            (Call::Provide(5_000), DONE),
            (Call::Size, Ok(Given::Size(5_000))),
            (Call::Read(4_996), Ok(Given::Bytes([0; 4]))),
        ],
    },
    // pulls go on after an interruption
    Case {
        bytes: &[0],
        outcomes: &[],
        line: &[7, 8, 9],
        reads: &[Outcome::Interrupted, Outcome::Short(2), Outcome::Failed],
        steps: &[
            (Call::Pull, Ok(Given::Pulled(2, [7, 8, 0]))),
            (Call::Pull, FAILED),
            (Call::Pull, Ok(Given::Pulled(1, [9, 0, 0]))),
            (Call::Pull, Ok(Given::Pulled(0, [0; 3]))),
        ],
    },
];

#[test]
fn calls_come_short_are_interrupted_or_fail(rt: HostRuntime) {
    for case in CASES {
        assert!(rt; answers(&rt, image_of(&rt, case), case));
    }
}

/// Reads through a window.
const READS: Case = Case {
    bytes: &[0, 1, 2, 3, 4, 5, 6, 7],
    outcomes: &[],
    line: &[],
    reads: &[],
    steps: &[
        (Call::Read(0), Ok(Given::Bytes([0, 1, 2, 3]))),
        (Call::Read(3), Ok(Given::Bytes([3, 4, 5, 6]))),
    ],
};

#[test]
fn reads_through_a_window_give_the_bytes(rt: HostRuntime) {
    let window = Window::new(rt.alloc()).expect(&rt, "a window");
    assert!(rt; answers(&rt, image_of(&rt, &READS).seen_through(window), &READS));
}
