//! Worked slots of a stream of frames.

use fdr_frame::{SlotKind, counter_of, slot_kind, subframe_of, word_of};

/// Slots of a stream, with their kinds, counters, subframes and words.
const SLOTS: &[(u64, SlotKind, u16, u8, u32)] = &[
    (0, SlotKind::Sync, 0, 1, 1),
    (1, SlotKind::Plain, 0, 1, 2),
    (63, SlotKind::Plain, 0, 1, 64),
    (64, SlotKind::Sync, 0, 2, 1),
    (255, SlotKind::Counter, 0, 4, 64),
    (256, SlotKind::Sync, 1, 1, 1),
    (256 * 4096 + 255, SlotKind::Counter, 0, 4, 64),
];

#[test]
fn places_slots(rt: HostRuntime) {
    for &(k, kind, counter, subframe, word) in SLOTS {
        assert!(rt;
            slot_kind(k, 64, 64, 4) == kind
                && counter_of(k, 64) == counter
                && subframe_of(k, 64) == subframe
                && word_of(k, 64) == word,
            "{k}"
        );
    }
}
