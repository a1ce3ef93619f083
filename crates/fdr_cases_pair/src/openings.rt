//! Worked starts on two disks: what is answered of both headers.

use crate::pairs::{ALIVE, Dead, Given, twin_of};
use fdr_pair::{LivingSides, Opened, PairOutcome, open_sides};
use fdr_slot::{Header, ImageFault};
use fdr_twin::Side;
use std::process::Abort;

/// A ring of 4 slots of 64 bytes, in 384 bytes.
const SMALL: Header = Header {
    slots: 4,
    payload: 64,
    words: 64,
    version: 2,
};

// The bytes of its header.
const SMALL_BYTES: [u8; 20] = [
    0x5a, 0xa5, 0x46, 0x44, 0x52, 0x37, 0x31, 0x37, 0, 0, 0, 4, 0, 0, 0, 64, 0, 0, 0, 64,
];

// Bytes of the header with other values: an image of version 1, of 5 slots, of 65 bytes in a slot, for 128 words.
const VERSION_1: (usize, u8) = (1, 0);

const FIVE_SLOTS: (usize, u8) = (11, 5);

const LONGER_SLOTS: (usize, u8) = (15, 65);

const MORE_WORDS: (usize, u8) = (19, 128);

// An empty ring in 1,000 bytes, with this byte of the header or after it changed.
fn image(change: (usize, u8)) -> [u8; 1_000] {
    let mut image = [0; 1_000];
    for (place, byte) in image.iter_mut().zip(&SMALL_BYTES) {
        *place = *byte;
    }
    let (at, byte) = change;
    if let Some(place) = image.get_mut(at) {
        *place = byte;
    }
    image
}

// An empty ring in 1,000 bytes.
fn ring() -> [u8; 1_000] {
    image((0, 0x5a))
}

// The first bytes of an image.
fn front(image: &[u8; 1_000], count: usize) -> &[u8] {
    image.get(..count).unwrap_or(image)
}

/// Both sides as they are opened for subframes of this many words, and from which calls on they are dead.
#[derive(Clone, Copy)]
struct Opening<'a> {
    first: &'a [u8],
    second: &'a [u8],
    words: u32,
    dead: Dead,
}

impl<'a> Opening<'a> {
    // Both sides for subframes of 64 words, where neither is dead.
    fn of(first: &'a [u8], second: &'a [u8]) -> Opening<'a> {
        Opening {
            first,
            second,
            words: 64,
            dead: ALIVE,
        }
    }

    // What opening both answers, and in how many calls. No byte of either changes.
    fn answer(self, rt: &(impl Abort + AllocGlobal)) -> (Result<Opened, PairOutcome>, u64) {
        let given = Given {
            dead: self.dead,
            ..Given::of(self.first, self.second, &[])
        };
        let mut twin = twin_of(rt, given);
        let answer = open_sides(&mut twin, self.words);
        assert!(rt;
            twin.image(Side::First) == self.first && twin.image(Side::Second) == self.second
        );
        (answer, twin.calls())
    }

    // Whether that is the answer.
    fn gives(self, rt: &(impl Abort + AllocGlobal), expected: Result<Opened, PairOutcome>) -> bool {
        self.answer(rt).0 == expected
    }

    // Whether this image is refused.
    fn refuses(self, rt: &(impl Abort + AllocGlobal), side: Side, fault: ImageFault) -> bool {
        self.gives(rt, Err(PairOutcome::ImageRefused { side, fault }))
    }
}

// From which calls on each disk is dead.
fn dead(first: Option<u64>, second: Option<u64>) -> Dead {
    Dead { first, second }
}

fn opened(living: LivingSides) -> Result<Opened, PairOutcome> {
    Ok(Opened {
        header: SMALL,
        living,
    })
}

#[test]
fn opens_two_good_sides(rt: HostRuntime) {
    let ring = ring();
    let other = image((63, 1));
    let both = opened(LivingSides::Both);
    let sides = Opening::of(front(&ring, 400), front(&ring, 400));
    let exact = Opening::of(front(&ring, 400), front(&ring, 384));
    let both_exact = Opening::of(front(&other, 384), front(&ring, 384));
    // A side that dies after its header is read isn't noticed yet.
    let late = Opening {
        dead: dead(Some(2), Some(4)),
        ..sides
    };
    assert!(rt;
        sides.answer(&rt) == (both, 4)
            && exact.gives(&rt, both)
            && both_exact.gives(&rt, both)
            && late.gives(&rt, both)
    );
}

// The first of both images that is refused is named, whatever is wrong with the other, and for whatever words. The other
// side's failure changes nothing.
fn names_the_first(rt: &(impl Abort + AllocGlobal), bad: &[u8], fault: ImageFault) -> bool {
    let ring = ring();
    let closed = image((0, 0));
    let (good, closed) = (front(&ring, 400), front(&closed, 384));
    let second_bad = Opening::of(good, bad);
    let other_words = Opening {
        words: 128,
        ..second_bad
    };
    let first_dead = Opening {
        dead: dead(Some(0), None),
        ..second_bad
    };
    let both_bad = Opening::of(bad, closed);
    let second_dead = Opening {
        dead: dead(None, Some(0)),
        ..both_bad
    };
    Opening::of(bad, good).refuses(rt, Side::First, fault)
        && other_words.refuses(rt, Side::Second, fault)
        && first_dead.refuses(rt, Side::Second, fault)
        && both_bad.refuses(rt, Side::First, fault)
        && second_dead.refuses(rt, Side::First, fault)
        && Opening::of(closed, bad).refuses(rt, Side::First, ImageFault::Closed)
}

/// The length, a byte of the header with another value, and the fault.
const BAD_IMAGES: &[(usize, (usize, u8), ImageFault)] = &[
    (0, (0, 0x5a), ImageFault::Small),
    (63, (0, 0), ImageFault::Small),
    (384, (0, 0), ImageFault::Closed),
    (384, (7, b'8'), ImageFault::Magic),
    (384, (11, 3), ImageFault::Geometry),
    (384, (15, 63), ImageFault::Geometry),
    (384, (19, 65), ImageFault::Geometry),
    (383, (0, 0x5a), ImageFault::Short),
];

#[test]
fn names_the_first_image_that_is_refused(rt: HostRuntime) {
    for &(length, change, fault) in BAD_IMAGES {
        let image = image(change);
        let bad = image.get(..length).expect(&rt, "a length");
        assert!(rt; names_the_first(&rt, bad, fault), "{length} {change:?}");
    }
}

// Whether both orders of a ring and this image are answered as headers that differ, for whatever words.
fn differs(rt: &(impl Abort + AllocGlobal), other: &[u8]) -> bool {
    let ring = ring();
    let differ = Err(PairOutcome::HeadersDiffer);
    let mut is_refused = true;
    for words in [64, 128, 256] {
        let one = Opening {
            words,
            ..Opening::of(front(&ring, 400), other)
        };
        let two = Opening {
            words,
            ..Opening::of(other, front(&ring, 400))
        };
        is_refused = is_refused && one.gives(rt, differ) && two.gives(rt, differ);
    }
    is_refused
}

#[test]
fn refuses_headers_that_differ(rt: HostRuntime) {
    for change in [FIVE_SLOTS, LONGER_SLOTS, MORE_WORDS, VERSION_1] {
        assert!(rt; differs(&rt, &image(change)), "{change:?}");
    }
}

/// From which calls on each disk is dead: at most one of them is.
const ONE_DEAD: &[(Option<u64>, Option<u64>)] = &[(None, None), (Some(0), None), (None, Some(0))];

#[test]
fn refuses_other_words_before_an_old_version(rt: HostRuntime) {
    let (ring, old) = (ring(), image(VERSION_1));
    let (ring, old) = (front(&ring, 400), front(&old, 400));
    let differ = Err(PairOutcome::WordsDiffer {
        image: 64,
        table: 128,
    });
    let is_old = Err(PairOutcome::OldVersion);
    for &(first, second) in ONE_DEAD {
        let both_old = Opening {
            dead: dead(first, second),
            ..Opening::of(old, old)
        };
        let other_words = Opening {
            words: 128,
            ..both_old
        };
        let new_too = Opening {
            first: ring,
            second: ring,
            ..other_words
        };
        assert!(rt;
            both_old.gives(&rt, is_old)
                && other_words.gives(&rt, differ)
                && new_too.gives(&rt, differ),
            "{first:?} {second:?}"
        );
    }
    // the version of a side that has failed doesn't count
    let second_dead = Opening {
        dead: dead(None, Some(0)),
        ..Opening::of(old, ring)
    };
    let first_dead = Opening {
        dead: dead(Some(0), None),
        ..Opening::of(ring, old)
    };
    assert!(rt; second_dead.gives(&rt, is_old) && first_dead.gives(&rt, is_old));
}

// A ring beside an image that is dead from a call on, on this side.
fn leaving<'a>(ring: &'a [u8], aside: &'a [u8], side: Side, call: u64) -> Opening<'a> {
    match side {
        Side::First => Opening {
            dead: dead(Some(call), None),
            ..Opening::of(aside, ring)
        },
        Side::Second => Opening {
            dead: dead(None, Some(call)),
            ..Opening::of(ring, aside)
        },
    }
}

/// Which side is dead, from which call on, which is left, and in how many calls that is answered.
const FAILING_SIDES: &[(Side, u64, LivingSides, u64)] = &[
    (Side::First, 0, LivingSides::OnlySecond, 3),
    (Side::First, 1, LivingSides::OnlySecond, 4),
    (Side::Second, 0, LivingSides::OnlyFirst, 3),
    (Side::Second, 1, LivingSides::OnlyFirst, 3),
    (Side::Second, 2, LivingSides::OnlyFirst, 3),
    (Side::Second, 3, LivingSides::OnlyFirst, 4),
];

// The first side's two calls are 0 and 1, the second's are 1 and 2 where the first fails at once, else 2 and 3.
#[test]
fn leaves_a_side_aside_that_fails(rt: HostRuntime) {
    let ring = ring();
    for change in [(0, 0x5a), LONGER_SLOTS, (0, 0)] {
        let aside = image(change);
        for &(side, call, left, calls) in FAILING_SIDES {
            let one = leaving(front(&ring, 400), front(&aside, 400), side, call);
            assert!(rt; one.answer(&rt) == (opened(left), calls), "{call}");
        }
    }
}

/// From which calls on each disk is dead.
const BOTH_DEAD: &[(u64, u64)] = &[(0, 0), (1, 0), (1, 2), (1, 3), (0, 2)];

#[test]
fn refuses_two_failed_sides(rt: HostRuntime) {
    let ring = ring();
    let fault = Err(PairOutcome::DiskFault);
    for &(first, second) in BOTH_DEAD {
        let failed = Opening {
            dead: dead(Some(first), Some(second)),
            ..Opening::of(front(&ring, 400), front(&ring, 400))
        };
        let other_words = Opening {
            words: 128,
            ..failed
        };
        assert!(rt;
            failed.gives(&rt, fault) && other_words.gives(&rt, fault),
            "{first} {second}"
        );
    }
    let empty = Opening {
        dead: dead(Some(0), Some(0)),
        ..Opening::of(&[], &[])
    };
    assert!(rt; empty.gives(&rt, fault));
}
