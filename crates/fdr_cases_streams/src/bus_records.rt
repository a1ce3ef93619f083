//! Worked words of a bus, and records of them.

use fdr_bus::{BusRecord, RecordKind, TraceFault, field, is_odd, label, parse, sdi};

/// Words with their labels, their SDIs, and whether their parity is odd.
const WORDS: &[(u32, u8, u8, bool)] = &[
    (0x0000_14c1, 0o203, 0, true),
    (0x8000_14c1, 0o203, 0, false),
    (0x8abc_de13, 0o310, 2, true),
    (0x8000_0113, 0o310, 1, true),
    (0x8000_0213, 0o310, 2, true),
];

#[test]
fn reads_fields_of_words(rt: HostRuntime) {
    for &(word, octal, source, is_sound) in WORDS {
        assert!(rt;
            label(word) == octal && sdi(word) == source && is_odd(word) == is_sound,
            "{word}"
        );
    }
    assert!(rt;
        field(0x0000_14c1, 11, 12) == 5
            && field(0x8abc_de13, 9, 20) == 0xabcde
            && field(0x8abc_de13, 32, 1) == 1
            && field(0x8abc_de13, 1, 32) == 0x8abc_de13
    );
}

#[test]
fn reads_records(rt: HostRuntime) {
    let word = [1, 0, 0, 0, 0, 0, 0x14, 0xc1, 0, 0, 0, 0, 0, 0, 0x3d, 0x09];
    let read = BusRecord {
        kind: RecordKind::Word,
        bus: 0,
        word: 0x14c1,
        time: 15_625,
    };
    assert!(rt;
        parse(&word, 0) == Ok(read)
            && parse(&word, 15_625) == Ok(read)
            && parse(&word, 15_626) == Err(TraceFault::Back)
    );

    let end = [2, 0, 0, 0, 0, 0, 0, 0, 0, 0, 0, 0, 0, 0x3d, 0x09, 0];
    let last = BusRecord {
        kind: RecordKind::End,
        bus: 0,
        word: 0,
        time: 4_000_000,
    };
    assert!(rt; parse(&end, 15_625) == Ok(last));
}
