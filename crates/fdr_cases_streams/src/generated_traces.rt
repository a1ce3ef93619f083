//! Worked traces. The words were computed by another program, except the first one of seed 1.

use fdr_bus::{BusRecord, RecordKind};
use fdr_check::check;
use fdr_gen::Gen;
use fdr_table::Table;
use std::process::Abort;

const ONE: &[u8] = b"F,64,2,1\nP,ALT,0,203,,11,12,U,1,1,0,0,16\nL,ALT,1,1,10,0,1,12,0,1\n";

const TWO: &[u8] =
    b"F,64,2,1\nP,ALT,0,203,,11,12,U,1,1,0,0,16\nP,POS,3,310,2,11,12,U,1,1,0,0,16\nL,ALT,1,1,10,0,1,12,0,1\nL,POS,1,1,11,0,1,12,0,1\n";

const NONE: &[u8] = b"F,64,2,1\n";

fn generator_of(rt: &(impl Abort + AllocGlobal), table: &[u8], seed: u64) -> Gen {
    let table = Table::read(rt.alloc(), table).expect(rt, "a table");
    let sound = check(rt.alloc(), table).expect(rt, "a sound table");
    Gen::new(rt.alloc(), &sound, seed, 1).expect(rt, "a generator")
}

fn word(bus: u8, word: u32, second: u8) -> Option<BusRecord> {
    Some(BusRecord {
        kind: RecordKind::Word,
        bus,
        word,
        time: 1_000_000 * u64::from(second),
    })
}

const END: Option<BusRecord> = Some(BusRecord {
    kind: RecordKind::End,
    bus: 0,
    word: 0,
    time: 4_000_000,
});

/// Words by seed 1, with the seconds that they come at.
const SEED_1: &[(u32, u8)] = &[
    (0xec57_6cc1, 0),
    (0x0268_84c1, 1),
    (0x25fa_e0c1, 2),
    (0x6203_54c1, 3),
];

#[test]
fn gives_the_trace_of_seed_1(rt: HostRuntime) {
    let mut generator = generator_of(&rt, ONE, 1);
    for &(bits, second) in SEED_1 {
        assert!(rt; generator.next() == word(0, bits, second));
    }
    assert!(rt; generator.next() == END && generator.next() == None && generator.next() == None);
}

/// Buses and words by another seed, with the seconds that they come at.
const IN_TURN: &[(u8, u32, u8)] = &[
    (0, 0xa2d5_d4c1, 0),
    (3, 0x8199_6613, 0),
    (0, 0xa4d9_30c1, 1),
    (3, 0x700c_6213, 1),
    (0, 0x14f0_d4c1, 2),
    (3, 0x2a5b_6613, 2),
    (0, 0x37a2_48c1, 3),
    (3, 0xa854_8213, 3),
];

#[test]
fn gives_each_parameter_a_word_in_turn(rt: HostRuntime) {
    let mut generator = generator_of(&rt, TWO, 0xfedc_ba98_7654_3210);
    for &(bus, bits, second) in IN_TURN {
        assert!(rt; generator.next() == word(bus, bits, second));
    }
    assert!(rt; generator.next() == END && generator.next() == None);
}

#[test]
fn gives_the_end_alone_without_parameters(rt: HostRuntime) {
    let mut generator = generator_of(&rt, NONE, 1);
    assert!(rt; generator.next() == END && generator.next() == None);
}
