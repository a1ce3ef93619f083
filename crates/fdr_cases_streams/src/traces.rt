//! First records of short traces.

use fdr_bus::{BusRecord, RecordKind, TraceFault};
use fdr_deck::MemDeck;
use fdr_trace::{TraceLine, TraceStop};
use std::process::Abort;

const WORD: &[u8] = &[1, 3, 0, 0, 0, 0, 0x14, 0xc1, 0, 0, 0, 0, 0, 0, 0x3d, 0x09];

/// The same without its last byte.
const WORD_CUT: &[u8] = &[1, 3, 0, 0, 0, 0, 0x14, 0xc1, 0, 0, 0, 0, 0, 0, 0x3d];

const END: &[u8] = &[2, 0, 0, 0, 0, 0, 0, 0, 0, 0, 0, 0, 0, 0x3d, 0x09, 0];

const OTHER_KIND: &[u8] = &[3, 0, 0, 0, 0, 0, 0, 0, 0, 0, 0, 0, 0, 0, 0, 0];

const TOO_LATE: &[u8] = &[2, 0, 0, 0, 0, 0, 0, 0, 0, 0, 1, 0x4f, 0x46, 0xb0, 0x40, 1];

/// The first record of a line, with the numbers of the calls that fail.
fn first_of(
    rt: &(impl Abort + AllocGlobal),
    line: &[u8],
    failing: &[u64],
) -> Result<BusRecord, TraceStop> {
    let line = Vec::from_slice(rt.alloc(), line).expect(rt, "a line");
    let failing = Vec::from_slice(rt.alloc(), failing).expect(rt, "the calls that fail");
    let mut deck = MemDeck::new(rt.alloc(), Vec::new(rt.alloc()), line, failing);
    let mut trace = TraceLine::new(rt.alloc()).expect(rt, "a trace");
    trace.next(&mut deck)
}

#[test]
fn reads_a_word_and_an_end(rt: HostRuntime) {
    let word = BusRecord {
        kind: RecordKind::Word,
        bus: 3,
        word: 0x14c1,
        time: 15_625,
    };
    let end = BusRecord {
        kind: RecordKind::End,
        bus: 0,
        word: 0,
        time: 4_000_000,
    };
    assert!(rt; first_of(&rt, WORD, &[]) == Ok(word) && first_of(&rt, END, &[]) == Ok(end));
}

/// Lines whose first record is refused.
const REFUSED: &[(&[u8], TraceFault)] = &[
    (OTHER_KIND, TraceFault::Kind),
    (TOO_LATE, TraceFault::Late),
    (&[], TraceFault::Truncated),
    (WORD_CUT, TraceFault::Truncated),
];

#[test]
fn refuses_what_is_not_a_record(rt: HostRuntime) {
    for &(line, fault) in REFUSED {
        assert!(rt; first_of(&rt, line, &[]) == Err(TraceStop::Refused { index: 0, fault }));
    }
    assert!(rt; first_of(&rt, WORD, &[0]) == Err(TraceStop::Failed));
}
