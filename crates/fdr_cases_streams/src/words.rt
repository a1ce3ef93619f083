//! Words of worked recordings.

ghost use Rattle.std.specs.Prelude.{◌≡◌, ◌+◌, ◌<◌, ◌≤◌, IsTrue};
ghost use Rattle.fdr_bus.specs.Records.{last_time};
ghost use Rattle.fdr_bus.specs.declared.RecordKind.TheVariants.{Word};
ghost use Rattle.fdr_table.specs.Rows.{TableRows};
ghost use Rattle.fdr_sampler.specs.Past.{sampler_made, RepresentsSampler};

use fdr_bus::{BusRecord, RecordKind};
use fdr_check::check;
use fdr_layout::Layout;
use fdr_sampler::Sampler;
use fdr_table::Table;
use std::process::Abort;

const COUNTER_SECOND: &[u8] =
    b"F,64,2,1\nP,ALT,0,203,,11,12,U,1,1,0,0,16\nL,ALT,1,1,10,0,1,12,0,1\n";

const COUNTER_LAST: &[u8] = b"F,64,64,4\nP,ALT,0,203,,11,12,U,1,1,0,0,16\nL,ALT,1,1,2,0,1,12,0,1\n";

/// A position of two parts, one in each of two frames.
const POSITION: &[u8] =
    b"F,64,2,1\nP,POS,1,310,,9,20,U,1,1,0,0,1\nL,POS,1,1,20,0,1,12,0,16\nL,POS,2,1,20,0,1,8,1,16\n";

/// Three parameters of one label: of one SDI, of any, and of another bus.
const ONE_LABEL: &[u8] =
    b"F,64,64,4\nP,ONE,0,203,1,11,12,U,1,1,0,0,16\nL,ONE,1,1,10,0,1,12,0,1\nP,ANY,0,203,,11,12,U,1,1,0,0,16\nL,ANY,1,1,11,0,1,12,0,1\nP,OTH,1,203,2,11,12,U,1,1,0,0,16\nL,OTH,1,1,12,0,1,12,0,1\n";

/// An altitude and a bit that tells whether it is fresh, once a second in words 10 and 11. The altitude's age is the time
/// from 0 to its word in the third subframe; that of the bit is two seconds.
const AGED: &[u8] =
    b"F,64,2,1\nP,ALT,0,203,,11,12,U,1,1,0,0,64,2140625\nL,ALT,1,1234,10,0,1,12,0,1\nP,OK,0,203,,11,1,V,1,1,0,0,64,2000000\nL,OK,1,1234,11,0,1,1,0,1\n";

/// The same, where the altitude's age is a microsecond less.
const AGED_LESS: &[u8] =
    b"F,64,2,1\nP,ALT,0,203,,11,12,U,1,1,0,0,64,2140624\nL,ALT,1,1234,10,0,1,12,0,1\nP,OK,0,203,,11,1,V,1,1,0,0,64,2000000\nL,OK,1,1234,11,0,1,1,0,1\n";

fn sampler_of(rt: &(impl Abort + AllocGlobal), table: &[u8]) -> Sampler
    ensures { (t : TableRows) × RepresentsSampler result (sampler_made t) }
{
    let table = Table::read(rt.alloc(), table).expect(rt, "a table");
    let sound = check(rt.alloc(), table).expect(rt, "a sound table");
    let layout = Layout::make(rt.alloc(), &sound).expect(rt, "a layout");
    Sampler::new(rt.alloc(), layout, &sound).expect(rt, "a sampler")
}

fn word(bus: u8, word: u32, time: u64) -> BusRecord
    ensures kind { result.kind ≡ Word }
    ensures time { result.time ≡ time }
{
    BusRecord {
        kind: RecordKind::Word,
        bus,
        word,
        time,
    }
}

/// The first words of the recording of one bus word.
fn words_of(
    rt: &(impl Abort + AllocGlobal),
    sampler: Sampler,
    r: &BusRecord,
    count: usize,
) -> Vec<u16>
    requires stands { (t : TableRows) × RepresentsSampler sampler (sampler_made t) }
    requires kind { r.now.kind ≡ Word }
    requires in_time { r.now.time ≤ last_time }
    requires within_frame { count ≤ 4096 }
{
    let mut sampler = sampler;
    let mut words = Vec::new(rt.alloc());
    while sampler.due(r.time) {
        assert!(rt; words.len() < count, "too many words");
        words.push(sampler.next_word()).expect(rt, "room");
    }
    sampler.bus(r);
    while words.len() < count {
        words.push(sampler.next_word()).expect(rt, "room");
    }
    words
}

/// The words that aren't empty slots' of a recording of no bus words, with their slots.
fn drawn_words(rt: &(impl Abort + AllocGlobal), sampler: Sampler, count: u32) -> Vec<(u32, u16)>
    requires stands { (t : TableRows) × RepresentsSampler sampler (sampler_made t) }
    requires within_frame { count ≤ 4096 }
{
    let mut sampler = sampler;
    let mut words = Vec::new(rt.alloc());
    let mut slot = 0;
    while slot < count {
        words.push((slot, sampler.next_word())).expect(rt, "room");
        slot += 1;
        slot += sampler.draw_empty_slots(count - slot);
    }
    words
}

/// Slots of a frame without words, and what they hold.
const SLOTS: &[(usize, u16)] = &[
    (0, 0x247),
    (1, 0),
    (2, 0),
    (9, 0),
    (63, 0),
    (64, 0x5b8),
    (65, 0),
    (128, 0xa47),
    (192, 0xdb8),
    (255, 0),
    (256, 0x247),
    (257, 1),
];

// The word is of even parity, so it isn't held.
#[test]
fn begins_each_subframe_by_its_sync_word(rt: HostRuntime) {
    let sampler = sampler_of(&rt, COUNTER_SECOND);
    let words = words_of(&rt, sampler, &word(0, 0x8000_14c1, 0), 512);
    for &(k, value) in SLOTS {
        assert!(rt; words.get(k).copied() == Some(value), "slot {k}");
    }
}

/// Words with their times, and what slot 1 holds.
const ALTITUDES: &[(u32, u32, u16)] = &[
    (0x14c1, 15_625, 5),
    (0x14c1, 15_626, 0),
    (0x8000_14c1, 15_625, 0),
];

// Slot 1 is sampled at 15,625 microseconds.
#[test]
fn holds_a_word_at_the_time_of_a_slot(rt: HostRuntime) {
    for &(bits, time, altitude) in ALTITUDES {
        let sampler = sampler_of(&rt, COUNTER_LAST);
        let words = words_of(&rt, sampler, &word(0, bits, u64::from(time)), 512);
        assert!(rt; words.get(1).copied() == Some(altitude), "at {time}");
        assert!(rt; words.get(255).copied() == Some(0) && words.get(511).copied() == Some(1));
    }
}

/// Buses and words, and what the parameters of one SDI, of any, and of another bus hold.
const BY_SDI: &[(u8, u32, u16, u16, u16)] = &[
    (0, 0x14c1, 0, 5, 0),
    (0, 0x8000_15c1, 5, 5, 0),
    (0, 0x8000_16c1, 0, 5, 0),
    (1, 0x8000_16c1, 0, 0, 5),
    (1, 0x14c1, 0, 0, 0),
    (0, 0x15c1, 0, 0, 0),
];

#[test]
fn holds_words_by_bus_and_sdi(rt: HostRuntime) {
    for &(bus, bits, one, any, other) in BY_SDI {
        let sampler = sampler_of(&rt, ONE_LABEL);
        let words = words_of(&rt, sampler, &word(bus, bits, 0), 64);
        assert!(rt; words.get(9).copied() == Some(one), "one SDI of {bits}");
        assert!(rt; words.get(10).copied() == Some(any), "any SDI of {bits}");
        assert!(rt;
            words.get(11).copied() == Some(other),
            "another bus of {bits}"
        );
    }
}

/// Tables and words, what the third and the first altitude are, and whether the first is fresh.
const FRESH: &[(&[u8], u32, u16, u16, u16)] = &[
    (AGED, 0x14c1, 5, 5, 1),
    (AGED_LESS, 0x14c1, 4095, 5, 1),
    (AGED, 0x8000_14c1, 4095, 4095, 0),
];

// Slot 137 is sampled at 2,140,625 microseconds. A word of even parity isn't held, so nothing is ever fresh.
#[test]
fn takes_a_word_that_is_fresh(rt: HostRuntime) {
    for &(table, bits, third, first, fresh) in FRESH {
        let sampler = sampler_of(&rt, table);
        let words = words_of(&rt, sampler, &word(0, bits, 0), 256);
        for (slot, value) in [
            (9, first),
            (10, fresh),
            (73, first),
            (74, fresh),
            (137, third),
            (138, 0),
            (201, 4095),
            (202, 0),
        ] {
            assert!(rt; words.get(slot).copied() == Some(value), "slot {slot}");
        }
    }
}

/// Times of a position, and its parts.
const PARTS: &[(u32, u16, u16)] = &[(0, 0xcde, 0xab), (296_875, 0xcde, 0xab), (1_000_000, 0, 0)];

// Both parts have pieces of the value at the first part's slot, which is sampled at 296,875 microseconds.
#[test]
fn takes_a_value_at_its_first_part(rt: HostRuntime) {
    for &(time, low, high) in PARTS {
        let sampler = sampler_of(&rt, POSITION);
        let words = words_of(&rt, sampler, &word(1, 0x8abc_de13, u64::from(time)), 512);
        assert!(rt;
            words.get(19).copied() == Some(low) && words.get(275).copied() == Some(high),
            "at {time}"
        );
    }
}

/// Slots that are drawn, and what they hold.
const DRAWN: &[(u32, u16)] = &[
    (0, 0x247),
    (1, 0),
    (9, 0),
    (64, 0x5b8),
    (128, 0xa47),
    (192, 0xdb8),
    (256, 0x247),
    (257, 1),
    (265, 0),
];

// The parameter's word is in word 10 of subframe 1, and the counter in word 2.
#[test]
fn draws_empty_slots_at_once(rt: HostRuntime) {
    let words = drawn_words(&rt, sampler_of(&rt, COUNTER_SECOND), 300);
    assert!(rt; words.as_slice() == DRAWN);
}
