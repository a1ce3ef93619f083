//! Worked lists of bits, and the fast bodies beside plain ones.

ghost use Rattle.std.specs.Prelude.{◌^◌, ◌≤◌, length};

use fdr_bits::word12;
use fdr_lanes::{first_sync, unpack};

// The first sync word by looking at each bit.
fn plain_first_sync(bytes: &[u8], from: u64) -> Option<u64>
    requires { length bytes.now ≤ 2 ^ 60 }
{
    let last = (8 * bytes.len() as u64).checked_sub(12)?;
    for p in from..last + 1 {
        if word12(bytes, p) == 0x247 {
            return Some(p);
        }
    }
    None
}

/// Bits, and the first sync word from each on.
const SYNC_WORDS: &[(u64, Option<u64>)] = &[
    (0, Some(0)),
    (1, Some(20)),
    (21, None),
    (u64::MAX, None),
];

#[test]
fn finds_the_first_sync_word(rt: HostRuntime) {
    // The word is at bits 0 and 20, and its first eight bits at bit 32.
    let bytes = [0x47, 0x02, 0x70, 0x24, 0x47];
    for &(from, found) in SYNC_WORDS {
        assert!(rt; first_sync(&bytes, from) == found, "{from}");
    }
}

#[test]
fn finds_what_a_plain_search_finds(rt: HostRuntime) {
    let mut bytes = [0u8; 200];
    let mut state: u32 = 1;
    for round in 0..16u32 {
        for byte in bytes.iter_mut() {
            state = state.wrapping_mul(1664525).wrapping_add(1013904223);
            // Mostly bytes that a sync word has at some phase.
            *byte = match (state >> 24) % (round + 4) {
                0 => 0x47,
                1 => 0x72,
                2 => 0x24,
                3 => 0x02,
                _ => ((state >> 16) & 0xff) as u8,
            };
        }
        for end in [0, 1, 2, 33, 34, 35, 65, 66, 67, 200] {
            let bytes = &bytes[..end];
            for from in 0..8 * end as u64 + 2 {
                assert!(rt;
                    first_sync(bytes, from) == plain_first_sync(bytes, from),
                    "{end}, {from}"
                );
            }
        }
    }
}

#[test]
fn reads_words_in_a_row(rt: HostRuntime) {
    let bytes = [0x47, 0x32, 0x12, 0xff, 0x0f];
    let mut words = [0; 3];
    unpack(&bytes, 0, &mut words);
    assert!(rt; words == [0x247, 0x123, 0xfff]);
    unpack(&bytes, 4, &mut words);
    assert!(rt; words == [0x324, 0xf12, 0x0ff]);
}

#[test]
fn reads_the_words_that_single_reads_give(rt: HostRuntime) {
    let mut bytes = [0u8; 100];
    let mut state: u32 = 1;
    for byte in bytes.iter_mut() {
        state = state.wrapping_mul(1664525).wrapping_add(1013904223);
        *byte = (state >> 24) as u8;
    }
    for from in 0..24u64 {
        for count in 0..65usize {
            let mut words = [0xffff; 64];
            let words = &mut words[..count];
            if from + 12 * count as u64 <= 800 {
                unpack(&bytes, from, words);
                for (i, word) in words.iter().enumerate() {
                    assert!(rt;
                        *word == word12(&bytes, from + 12 * i as u64),
                        "{i}, {from}"
                    );
                }
            }
        }
    }
}
