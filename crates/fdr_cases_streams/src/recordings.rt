//! Worked recordings in an image.

use fdr_bus::{BusRecord, RecordKind};
use fdr_check::{Sound, check};
use fdr_deck::{Deck, MemDeck};
use fdr_recorder::{Session, SessionFault};
use fdr_ring::format;
use fdr_slot::{Header, ImageFault};
use fdr_table::Table;
use std::process::Abort;

const TABLE: &[u8] = b"F,64,2,1\nP,A,0,1,,11,12,U,1,1,0,0,16\nL,A,1,1,20,0,1,12,0,1\n";

const IMAGE: Header = Header {
    slots: 4,
    payload: 64,
    words: 64,
    version: 2,
};

const WIDE: Header = Header {
    slots: 4,
    payload: 64,
    words: 256,
    version: 2,
};

// Of the table's words, without sessions.
const OLD: Header = Header {
    slots: 4,
    payload: 64,
    words: 64,
    version: 1,
};

// Of a bus that the table doesn't read.
const FIRST: BusRecord = BusRecord {
    kind: RecordKind::Word,
    bus: 7,
    word: 0,
    time: 0,
};

// The 64 words of the second before it fill 96 bytes.
const SECOND: BusRecord = BusRecord {
    kind: RecordKind::Word,
    bus: 7,
    word: 0,
    time: 1_000_000,
};

const END: BusRecord = BusRecord {
    kind: RecordKind::End,
    bus: 0,
    word: 0,
    time: 1_000_000,
};

fn sound_table(rt: &(impl Abort + AllocGlobal)) -> Sound {
    let table = Table::read(rt.alloc(), TABLE).expect(rt, "a table");
    check(rt.alloc(), table).expect(rt, "a sound table")
}

fn empty_deck(rt: &impl AllocGlobal) -> MemDeck {
    let alloc = rt.alloc();
    MemDeck::new(alloc, Vec::new(alloc), Vec::new(alloc), Vec::new(alloc))
}

/// Records these, and answers the next number after each call.
fn numbers<D: Deck>(rt: &(impl Abort + AllocGlobal), deck: &mut D) -> [u64; 5] {
    let sound = sound_table(rt);
    let none = Session::start(rt.alloc(), &sound, deck).expect(rt, "a recording");
    let at_start = none.next();
    let one = none.feed(deck, &FIRST).expect(rt, "the first word");
    let at_first = one.next();
    let two = one.feed(deck, &SECOND).expect(rt, "the second word");
    let at_second = two.next();
    let three = two.feed(deck, &END).expect(rt, "the end");
    let at_end = three.next();
    let at_close = three.close(deck).expect(rt, "the rest");
    [at_start, at_first, at_second, at_end, at_close]
}

#[test]
fn records_a_trace(rt: HostRuntime) {
    let mut deck = empty_deck(&rt);
    format(&mut deck, &IMAGE).expect(&rt, "an image");
    assert!(rt; numbers(&rt, &mut deck) == [0, 0, 1, 1, 2] && deck.told() == 2);
    let image = deck.image();
    let first = [
        0x5a, 0, 0, 64, 0, 0, 0, 1, 0, 0, 0, 0, 0, 0, 0, 0, 0x47, 0x02, 0x00,
    ];
    let last = [0x5a, 0, 0, 32, 0, 0, 0, 1, 0, 0, 0, 0, 0, 0, 0, 1];
    assert!(rt;
        image.len() == 384 && image[64..].starts_with(&first) && image[144..].starts_with(&last)
    );
}

/// Why a recording by the table isn't started.
fn refusal<D: Deck>(rt: &(impl Abort + AllocGlobal), deck: &mut D) -> Option<SessionFault> {
    Session::start(rt.alloc(), &sound_table(rt), deck).err()
}

#[test]
fn refuses_what_is_no_image_for_the_table(rt: HostRuntime) {
    let mut deck = empty_deck(&rt);
    let small = refusal(&rt, &mut deck);
    assert!(rt; matches!(small, Some(SessionFault::Image(ImageFault::Small))));
    format(&mut deck, &WIDE).expect(&rt, "an image");
    let differ = refusal(&rt, &mut deck);
    assert!(rt;
        matches!(
            differ,
            Some(SessionFault::WordsDiffer {
                image: 256,
                table: 64
            })
        )
    );
    let mut old = empty_deck(&rt);
    format(&mut old, &OLD).expect(&rt, "an old image");
    assert!(rt; matches!(refusal(&rt, &mut old), Some(SessionFault::OldVersion)));
}
