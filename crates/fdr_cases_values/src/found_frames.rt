//! Worked lists of bits, with 64 words a subframe: a frame has 3,072 bits, and sync words at 0, 768, 1,536 and 2,304.

ghost use Rattle.std.specs.Prelude.{◌<◌};

use fdr_sync::{Gap, accepted_frames, frame_at, gaps, next_frame};

const WORDS: u32 = 64;

// Puts words of 12 bits at these bits, over zeros.
fn put_words(bytes: &mut [u8], words: &[(u32, u16)]) {
    for &(at, word) in words {
        for j in 0..12 {
            let p = at as usize + j;
            if (word >> j) & 1 == 1 && p / 8 < bytes.len() {
                bytes[p / 8] |= 1 << (p % 8);
            }
        }
    }
}

// A frame with a counter in word 2 and a value in word 10, both of subframe 1.
fn put_frame(bytes: &mut [u8], at: u32, counter: u16, value: u16)
    requires { at < 10000 }
{
    let words = [
        (at, 0x247),
        (at + 12, counter),
        (at + 108, value),
        (at + 768, 0x5b8),
        (at + 1536, 0xa47),
        (at + 2304, 0xdb8),
    ];
    put_words(bytes, &words);
}

/// A sync word alone at bit 0; words of the true frame spell the other three at 768, 1,536 and 2,304.
const FALSE_FRAME: &[(u32, u16)] = &[
    (0, 0x247),
    (760, 0x800),
    (772, 0x05b),
    (1528, 0x700),
    (1540, 0x0a4),
    (2296, 0x800),
    (2308, 0x0db),
];

/// Bits, and the first frame from each on.
const NEXT_FRAMES: &[(u64, Option<u64>)] = &[
    (0, Some(0)),
    (1, Some(100)),
    (101, Some(3172)),
    (3173, None),
];

/// Bits, and whether a frame begins at each.
const FRAMES_AT: &[(u64, bool)] = &[
    (0, true),
    (1, false),
    (100, true),
    (3172, true),
    (u64::MAX, false),
];

/// What is in no frame.
const GAPS: &[Gap] = &[
    Gap {
        at: 3072,
        bits: 100,
    },
    Gap { at: 6244, bits: 4 },
];

#[test]
fn takes_the_false_frame_that_comes_first(rt: HostRuntime) {
    let mut bytes = [0u8; 781];
    put_words(&mut bytes, FALSE_FRAME);
    put_frame(&mut bytes, 100, 0, 0);
    put_frame(&mut bytes, 3172, 1, 7);
    for &(from, found) in NEXT_FRAMES {
        assert!(rt; next_frame(&bytes, from, WORDS) == found, "{from}");
    }
    for &(at, is_frame) in FRAMES_AT {
        assert!(rt; frame_at(&bytes, at, WORDS) == is_frame, "{at}");
    }
    let frames = accepted_frames(rt.alloc(), &bytes, WORDS).expect(&rt, "frames");
    assert!(rt; frames.as_slice() == [0, 3172].as_slice());
    let gaps = gaps(rt.alloc(), &bytes, WORDS).expect(&rt, "gaps");
    assert!(rt; gaps.as_slice() == GAPS);
}

/// Bit 48 of a frame is left out, so all that follows it is a bit earlier.
const STRUCK_OUT: &[(u32, u16)] = &[
    (0, 0x247),
    (107, 5),
    (767, 0x5b8),
    (1535, 0xa47),
    (2303, 0xdb8),
];

#[test]
fn finds_no_frame_where_a_bit_is_struck_out(rt: HostRuntime) {
    let mut bytes = [0u8; 384];
    put_words(&mut bytes, STRUCK_OUT);
    let frames = accepted_frames(rt.alloc(), &bytes, WORDS).expect(&rt, "frames");
    assert!(rt; frames.is_empty());
    let gaps = gaps(rt.alloc(), &bytes, WORDS).expect(&rt, "gaps");
    assert!(rt; gaps.as_slice() == [Gap { at: 0, bits: 3072 }].as_slice());
}
