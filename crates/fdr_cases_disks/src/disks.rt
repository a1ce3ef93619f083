//! Disks with their input, some of whose calls fail.

use crate::calls::{Call, DONE, FAILED, Given, Step, gives};
use fdr_deck::{MemDeck, SureDeck, Tear};
use std::process::Abort;

/// A copy of these bytes.
pub fn copied(rt: &(impl Abort + AllocGlobal), bytes: &[u8]) -> Vec<u8> {
    bytes.to_vec(rt.alloc()).expect(rt, "a copy")
}

/// A copy of the numbers of calls.
pub fn calls_of(rt: &(impl Abort + AllocGlobal), numbers: &[u64]) -> Vec<u64> {
    numbers.to_vec(rt.alloc()).expect(rt, "the calls")
}

/// A call that is stopped, how what is pending is torn, and the image after it.
type Stop = (u64, Tear, &'static [u8]);

/// A disk with an input, and which of its calls fail; calls of it; and stops within them.
struct Case {
    image: &'static [u8],
    line: &'static [u8],
    failing: &'static [u64],
    steps: &'static [Step<'static>],
    calls: u64,
    told: u64,
    stops: &'static [Stop],
}

fn deck_of(rt: &(impl Abort + AllocGlobal), case: &Case) -> MemDeck {
    MemDeck::new(
        rt.alloc(),
        copied(rt, case.image),
        copied(rt, case.line),
        calls_of(rt, case.failing),
    )
}

/// Whether a stop within a call leaves this image.
fn leaves(rt: &(impl Abort + AllocGlobal), deck: &MemDeck, stop: &Stop) -> bool {
    let &(call, tear, image) = stop;
    assert!(rt; call < deck.calls());
    let left = deck.stop(rt.alloc(), call, tear).expect(rt, "a stop");
    left.as_slice() == image
}

fn has_calls(deck: &MemDeck, case: &Case) -> bool {
    deck.calls() == case.calls && deck.told() == case.told
}

/// Whether all is as the case says.
fn holds(rt: &(impl Abort + AllocGlobal), case: &Case) -> bool {
    let mut deck = deck_of(rt, case);
    let mut holds = gives(&mut deck, case.steps) && has_calls(&deck, case);
    for stop in case.stops {
        holds = holds && leaves(rt, &deck, stop);
    }
    holds
}

/// Eight zeros after four bytes are written.
const WRITTEN: &[u8] = &[0, 0, 1, 2, 3, 4, 0, 0];

const CASES: &[Case] = &[
    // a pull that fails takes nothing
    Case {
        image: &[],
        line: &[1, 2, 3, 4],
        failing: &[1],
        steps: &[
            (Call::Pull, Ok(Given::Pulled(3, [1, 2, 3]))),
            (Call::Pull, FAILED),
            (Call::Pull, Ok(Given::Pulled(1, [4, 0, 0]))),
            (Call::Pull, Ok(Given::Pulled(0, [0, 0, 0]))),
        ],
        calls: 4,
        told: 0,
        stops: &[],
    },
    // bytes that are written and made durable, where the first sync fails
    Case {
        image: &[0; 8],
        line: &[],
        failing: &[2],
        steps: &[
            (Call::Announce(7), DONE),
            (Call::Write(2, &[1, 2, 3, 4]), DONE),
            (Call::Sync, FAILED),
            (Call::Sync, DONE),
            (Call::Read(2), Ok(Given::Bytes([1, 2, 3, 4]))),
        ],
        calls: 6,
        told: 7,
        stops: &[
            (1, Tear::Old, &[0; 8]),
            (1, Tear::New, WRITTEN),
            (1, Tear::Half, &[0, 0, 1, 2, 0, 0, 0, 0]),
            (1, Tear::Fill(0xEE), &[0, 0, 0xEE, 0xEE, 0xEE, 0xEE, 0, 0]),
            (3, Tear::Old, &[0; 8]),
            (4, Tear::Old, WRITTEN),
        ],
    },
    // a write that fails
    Case {
        image: &[7; 7],
        line: &[],
        failing: &[1],
        steps: &[
            (Call::Write(1, &[1, 2, 3, 4, 5]), FAILED),
            (Call::Size, Ok(Given::Size(7))),
            (Call::Read(0), Ok(Given::Bytes([7; 4]))),
        ],
        calls: 5,
        told: 0,
        stops: &[
            (2, Tear::Old, &[7; 7]),
            (2, Tear::New, &[7, 1, 2, 3, 4, 5, 7]),
            (2, Tear::Half, &[7, 1, 2, 7, 7, 7, 7]),
            (2, Tear::Fill(9), &[7, 9, 9, 9, 9, 9, 7]),
        ],
    },
    // an empty disk that is provided
    Case {
        image: &[],
        line: &[],
        failing: &[],
        steps: &[(Call::Provide(4), DONE), (Call::Size, Ok(Given::Size(4)))],
        calls: 2,
        told: 0,
        stops: &[
            (0, Tear::Old, &[]),
            (0, Tear::Half, &[0, 0]),
            (0, Tear::New, &[0; 4]),
        ],
    },
];

#[test]
fn stops_tear_what_is_pending(rt: HostRuntime) {
    for case in CASES {
        assert!(rt; holds(&rt, case));
    }
}

/// Calls of a disk that never fails.
const SURE_STEPS: &[Step<'static>] = &[
    (Call::Write(1, &[1, 2]), DONE),
    (Call::Read(0), Ok(Given::Bytes([9, 1, 2, 9]))),
    (Call::Pull, Ok(Given::Pulled(3, [5, 6, 7]))),
    (Call::Pull, Ok(Given::Pulled(1, [8, 0, 0]))),
    (Call::Pull, Ok(Given::Pulled(0, [0, 0, 0]))),
];

#[test]
fn a_sure_disk_keeps_bytes_and_gives_its_line(rt: HostRuntime) {
    let image = copied(&rt, &[9; 4]);
    assert!(rt; image.len() > 0);
    let mut deck = SureDeck::new(image, copied(&rt, &[5, 6, 7, 8]));
    assert!(rt; gives(&mut deck, SURE_STEPS));
}
