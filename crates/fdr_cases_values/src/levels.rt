//! Worked bytes and their levels, and levels together beside one by one.

ghost use Rattle.std.specs.Prelude.{◌≤◌, length};

use fdr_biphase::{Decoder, Encoder, LevelReader};

// What is decoded of the levels that bytes pack: the bits, packed, how many they are, and the missing place.
fn decoded(levels: &[u8]) -> (u64, u32, Option<u64>)
    requires { length levels.now ≤ 8 }
{
    let mut decoder = Decoder::new();
    let mut bits = 0;
    let mut count = 0;
    for i in 0..8 * levels.len() {
        let level = (levels[i / 8] >> (i % 8)) & 1 == 1;
        match decoder.push(level) {
            Ok(Some(bit)) => {
                bits |= u64::from(bit) << (count % 64);
                count += 1;
            }
            Ok(None) => {}
            Err(missing) => return (bits, count, Some(missing.at)),
        }
    }
    if let Some(bit) = decoder.finish() {
        bits |= u64::from(bit) << (count % 64);
        count += 1;
    }
    (bits, count, None)
}

#[test]
fn encodes_after_a_low_level(rt: HostRuntime) {
    let mut encoder = Encoder::new(false);
    assert!(rt; encoder.byte(0x47) == [0xd5, 0x2c]);
}

#[test]
fn decodes_levels_and_turned_levels(rt: HostRuntime) {
    assert!(rt;
        decoded(&[0xd5, 0x2c]) == (0x47, 8, None) && decoded(&[0x2a, 0xd3]) == (0x47, 8, None)
    );
}

#[test]
fn decodes_from_the_middle_of_a_cell(rt: HostRuntime) {
    assert!(rt; decoded(&[0x6a, 0x96]) == (0x23, 7, None));
}

#[test]
fn names_the_place_where_no_phase_is_left(rt: HostRuntime) {
    assert!(rt; decoded(&[0x6a, 0x16]) == (0x23, 7, Some(15)));
}

#[test]
fn decodes_where_both_phases_fit(rt: HostRuntime) {
    assert!(rt; decoded(&[0x55]) == (0x0f, 4, None) && decoded(&[]) == (0, 0, None));
}

// What a decoder gives of these levels one by one: the bytes that its bits fill, how many they are, and the missing place.
fn one_by_one(levels: &[u8]) -> ([u8; 24], usize, Option<u64>)
    requires { length levels.now ≤ 24 }
{
    let mut decoder = Decoder::new();
    let mut bytes = [0; 24];
    let mut byte = 0;
    let mut count = 0;
    for i in 0..8 * levels.len() {
        let level = (levels[i / 8] >> (i % 8)) & 1 == 1;
        match decoder.push(level) {
            Ok(Some(bit)) => {
                byte |= u8::from(bit) << (count % 8);
                count += 1;
                if count % 8 == 0 {
                    bytes[count / 8 - 1] = byte;
                    byte = 0;
                }
            }
            Ok(None) => {}
            Err(missing) => return (bytes, count / 8, Some(missing.at)),
        }
    }
    (bytes, count / 8, None)
}

// What a reader gives of these levels together.
fn together(levels: &[u8]) -> ([u8; 24], usize, Option<u64>)
    requires { length levels.now ≤ 24 }
{
    let mut bytes = [0; 24];
    let filled = LevelReader::new().bytes(levels, &mut bytes);
    (bytes, filled.count, filled.missing.map(|m| m.at))
}

// The levels of drawn bits, from the middle of a cell on or from its begin. From one place on they are turned, so that there
// a cell doesn't begin, or its bit is another.
fn drawn_levels(middle: bool, turned: usize) -> [u8; 24] {
    let drawn = [
        0x9e, 0x37, 0x79, 0xb9, 0x7f, 0x4a, 0x7c, 0x15, 0xf3, 0x9c, 0xc0, 0x60, 0x5c,
    ];
    let mut cells = [0; 26];
    Encoder::new(false).bytes(&drawn, &mut cells);
    let mut levels = [0; 24];
    for i in 0..24 {
        let from_middle = (cells[i] >> 1) | (cells[i + 1] << 7);
        let here = if middle { from_middle } else { cells[i] };
        let others = match turned {
            t if t <= 8 * i => 0xff,
            t if t < 8 * i + 8 => 0xff << (t % 8),
            _ => 0,
        };
        levels[i] = here ^ others;
    }
    levels
}

#[test]
fn words_decode_as_their_levels(rt: HostRuntime) {
    for turned in 50..140 {
        let whole = drawn_levels(false, turned);
        let begun = drawn_levels(true, turned);
        assert!(rt;
            together(&whole) == one_by_one(&whole) && together(&begun) == one_by_one(&begun)
        );
    }
    let whole = drawn_levels(false, 192);
    let begun = drawn_levels(true, 192);
    for count in 0..25 {
        assert!(rt;
            together(&whole[..count]) == one_by_one(&whole[..count])
                && together(&begun[..count]) == one_by_one(&begun[..count])
        );
    }
}
