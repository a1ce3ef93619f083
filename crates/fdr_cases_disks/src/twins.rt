//! Twins of disks, one of which may fail or die.

use crate::calls::{Call, DONE, FAILED, Given, answer};
use crate::disks::{calls_of, copied};
use fdr_deck::Tear;
use fdr_io::Failed;
use fdr_twin::{MemTwin, Side, SureTwin, Twin};
use std::process::Abort;

/// A side, a call of it, and what it answers.
pub type SideStep<'a> = (Side, Call<'a>, Result<Given, Failed>);

/// Whether these calls, one after the other, have these answers.
pub fn gives_by_side<T: Twin>(twin: &mut T, steps: &[SideStep<'_>]) -> bool {
    for (side, call, wanted) in steps {
        twin.turn(*side);
        if answer(twin, *call) != *wanted {
            return false;
        }
    }
    true
}

/// A call that is stopped, how what is pending is torn, and the images of both disks after it.
type Stop = (u64, Tear, &'static [u8], &'static [u8]);

/// A twin of two disks that are the same, with an input of three bytes; which of its calls fail, and from which call on each disk
/// is dead; calls of it; and stops within them.
struct Case {
    image: &'static [u8],
    failing: &'static [u64],
    dead: (Option<u64>, Option<u64>),
    steps: &'static [SideStep<'static>],
    calls: u64,
    told: u64,
    stops: &'static [Stop],
}

fn twin_of(rt: &(impl Abort + AllocGlobal), case: &Case) -> MemTwin {
    MemTwin::new(
        rt.alloc(),
        copied(rt, case.image),
        copied(rt, case.image),
        copied(rt, &[7, 8, 9]),
        calls_of(rt, case.failing),
        case.dead.0,
        case.dead.1,
    )
}

/// Whether a stop within a call leaves these images.
fn leaves(rt: &(impl Abort + AllocGlobal), twin: &MemTwin, stop: &Stop) -> bool {
    let &(call, tear, first, second) = stop;
    assert!(rt; call < twin.calls());
    let (left_first, left_second) = twin.stop(rt.alloc(), call, tear).expect(rt, "a stop");
    left_first.as_slice() == first && left_second.as_slice() == second
}

fn has_calls(twin: &MemTwin, case: &Case) -> bool {
    twin.calls() == case.calls && twin.told() == case.told
}

/// Whether all is as the case says.
fn holds(rt: &(impl Abort + AllocGlobal), case: &Case) -> bool {
    let mut twin = twin_of(rt, case);
    let mut holds = gives_by_side(&mut twin, case.steps) && has_calls(&twin, case);
    for stop in case.stops {
        holds = holds && leaves(rt, &twin, stop);
    }
    holds
}

/// The first image after its write is durable.
const SETTLED: &[u8] = &[0, 1, 2, 0];

/// An image before a write.
const NONE: &[u8] = &[0, 0, 0, 0];

const CASES: &[Case] = &[
    // what is pending is torn on each side
    Case {
        image: NONE,
        failing: &[],
        dead: (None, None),
        steps: &[
            (Side::First, Call::Write(1, &[1, 2]), DONE),
            (Side::First, Call::Sync, DONE),
            (Side::Second, Call::Write(1, &[3, 4, 5]), DONE),
            (Side::First, Call::Sync, DONE),
            (Side::First, Call::Read(0), Ok(Given::Bytes([0, 1, 2, 0]))),
            (Side::Second, Call::Read(0), Ok(Given::Bytes([0, 3, 4, 5]))),
        ],
        calls: 10,
        told: 0,
        stops: &[
            (1, Tear::New, SETTLED, NONE),
            (1, Tear::Fill(9), &[0, 9, 9, 0], NONE),
            (2, Tear::Half, &[0, 1, 0, 0], NONE),
            (4, Tear::Old, SETTLED, NONE),
            (4, Tear::New, SETTLED, &[0, 3, 4, 5]),
            (4, Tear::Half, SETTLED, &[0, 3, 0, 0]),
            (9, Tear::Fill(9), SETTLED, &[0, 9, 9, 9]),
        ],
    },
    // listed calls fail on the side that they are of
    Case {
        image: NONE,
        failing: &[1, 4],
        dead: (None, None),
        steps: &[
            (Side::First, Call::Write(1, &[1, 2, 3]), FAILED),
            (Side::Second, Call::Write(1, &[4, 5, 6]), DONE),
            (Side::Second, Call::Sync, FAILED),
            (Side::First, Call::Read(0), Ok(Given::Bytes([0, 0, 0, 0]))),
            (Side::Second, Call::Read(0), Ok(Given::Bytes([0, 4, 5, 6]))),
        ],
        calls: 9,
        told: 0,
        stops: &[
            (8, Tear::New, &[0, 1, 2, 3], &[0, 4, 5, 6]),
            (8, Tear::Old, NONE, NONE),
        ],
    },
    // a dead disk fails from its call on
    Case {
        image: NONE,
        failing: &[],
        dead: (None, Some(3)),
        steps: &[
            (Side::Second, Call::Write(1, &[1]), DONE),
            (Side::Second, Call::Sync, DONE),
            (Side::Second, Call::Sync, FAILED),
            (Side::Second, Call::Read(0), FAILED),
            (Side::Second, Call::Pull, Ok(Given::Pulled(3, [7, 8, 9]))),
            (Side::First, Call::Write(1, &[2]), DONE),
            (Side::First, Call::Read(0), Ok(Given::Bytes([0, 2, 0, 0]))),
        ],
        calls: 10,
        told: 0,
        stops: &[(9, Tear::New, &[0, 2, 0, 0], &[0, 1, 0, 0])],
    },
    Case {
        image: NONE,
        failing: &[],
        dead: (Some(1), None),
        steps: &[
            (Side::First, Call::Write(1, &[1]), FAILED),
            (Side::Second, Call::Write(1, &[1]), DONE),
        ],
        calls: 4,
        told: 0,
        stops: &[],
    },
    // the input and the announced number are of no side
    Case {
        image: NONE,
        failing: &[0],
        dead: (Some(0), Some(0)),
        steps: &[
            (Side::First, Call::Pull, FAILED),
            (Side::First, Call::Announce(5), DONE),
            (Side::Second, Call::Pull, Ok(Given::Pulled(3, [7, 8, 9]))),
            (Side::First, Call::Pull, Ok(Given::Pulled(0, [0, 0, 0]))),
        ],
        calls: 3,
        told: 5,
        stops: &[],
    },
    // empty disks are provided
    Case {
        image: &[],
        failing: &[1],
        dead: (None, None),
        steps: &[
            (Side::First, Call::Provide(4), DONE),
            (Side::Second, Call::Provide(2), FAILED),
            (Side::Second, Call::Size, Ok(Given::Size(0))),
        ],
        calls: 3,
        told: 0,
        stops: &[
            (0, Tear::Half, &[0, 0], &[]),
            (1, Tear::Old, NONE, &[]),
            (2, Tear::New, NONE, &[0, 0]),
        ],
    },
];

#[test]
fn stops_tear_what_is_pending_on_each_side(rt: HostRuntime) {
    for case in CASES {
        assert!(rt; holds(&rt, case));
    }
}

/// Calls of a twin that never fails.
const SURE_STEPS: &[SideStep<'static>] = &[
    (Side::First, Call::Write(1, &[1, 2]), DONE),
    (Side::Second, Call::Write(1, &[3]), DONE),
    (Side::Second, Call::Sync, DONE),
    (Side::First, Call::Read(0), Ok(Given::Bytes([0, 1, 2, 0]))),
    (Side::Second, Call::Read(0), Ok(Given::Bytes([9, 3, 9, 9]))),
    (Side::First, Call::Pull, Ok(Given::Pulled(3, [7, 8, 9]))),
    (Side::Second, Call::Pull, Ok(Given::Pulled(1, [10, 0, 0]))),
    (Side::Second, Call::Pull, Ok(Given::Pulled(0, [0, 0, 0]))),
];

#[test]
fn a_sure_twin_keeps_both_sides(rt: HostRuntime) {
    let (first, second) = (copied(&rt, &[0; 4]), copied(&rt, &[9; 4]));
    assert!(rt; first.len() > 0 && second.len() > 0);
    let mut twin = SureTwin::new(first, second, copied(&rt, &[7, 8, 9, 10]));
    assert!(rt; gives_by_side(&mut twin, SURE_STEPS));
}
