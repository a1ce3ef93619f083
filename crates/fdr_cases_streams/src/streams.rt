//! Worked recordings.

ghost use Rattle.std.specs.Prelude.{◌≡◌, ◌<◌, ◌≤◌, ℕ, None};
ghost use Rattle.fdr_bus.specs.Records.{last_time};
ghost use Rattle.fdr_table.specs.Rows.{TableRows};
ghost use Rattle.fdr_stream.specs.Past.{StreamPast, stream_made, stream_with_record, MayFeedStream, RepresentsStream};

use fdr_bits::pack_pair;
use fdr_bus::{BusRecord, RecordKind};
use fdr_check::check;
use fdr_stream::{Fed, Stream};
use fdr_table::Table;
use std::process::Abort;

const TABLE: &[u8] = b"F,64,2,1\nP,ALT,0,203,,11,12,U,1,1,0,0,16\nL,ALT,1,1,10,0,1,12,0,1\n";

/// The same altitude in two words, one after the other.
const DOUBLED: &[u8] =
    b"F,64,2,1\nP,ALT,0,203,,11,12,U,1,1,0,0,16\nL,ALT,1,1,10,0,1,12,0,1\nP,SAME,0,203,,11,12,U,1,1,0,0,16\nL,SAME,1,1,11,0,1,12,0,1\n";

const PAYLOAD: usize = 64;

/// More blocks than any of the recordings has.
const MANY: usize = 16;

fn stream_by(rt: &(impl Abort + AllocGlobal), table: &[u8]) -> Stream
    ensures { (t : TableRows) × RepresentsStream result (stream_made t 64) }
{
    let table = Table::read(rt.alloc(), table).expect(rt, "a table");
    let sound = check(rt.alloc(), table).expect(rt, "a sound table");
    Stream::new(rt.alloc(), &sound, 64).expect(rt, "a stream")
}

/// Feeds a record until it is taken, appends the blocks that come of it, and answers their number.
fn feed(rt: &impl Abort, stream: &mut Stream, next: &BusRecord, bytes: &mut Vec<u8>) -> usize
    requires { (past : StreamPast) × RepresentsStream stream.old past × MayFeedStream past next.now × (past.begun ≡ None) × (past.payload ≡ 64) }
    ensures { (past : StreamPast) → RepresentsStream stream.old past → MayFeedStream past next.now → past.begun ≡ None
        → (blocks : ℕ) × RepresentsStream stream.new (stream_with_record (record past { blocks = blocks }) next.now) }
{
    for blocks in 0..MANY {
        let mut out = [0; PAYLOAD];
        match stream.feed(next, &mut out) {
            Fed::Taken => return blocks,
            Fed::Block => bytes.extend_from_slice(&out).expect(rt, "room"),
        }
    }
    None.expect(rt, "fewer blocks")
}

/// The recording of a bus word at its start and of an end, by this table: how many blocks were given before the rest, and
/// all bytes.
fn recording(rt: &(impl Abort + AllocGlobal), table: &[u8], word: u32, end: u64) -> (usize, Vec<u8>)
    requires { end ≤ last_time }
{
    let mut stream = stream_by(rt, table);
    let mut bytes = Vec::new(rt.alloc());
    let first = BusRecord {
        kind: RecordKind::Word,
        bus: 0,
        word,
        time: 0,
    };
    feed(rt, &mut stream, &first, &mut bytes);
    let last = BusRecord {
        kind: RecordKind::End,
        bus: 0,
        word: 0,
        time: end,
    };
    let blocks = feed(rt, &mut stream, &last, &mut bytes);
    let mut out = [0; PAYLOAD];
    let rest = stream.finish(&mut out);
    bytes.extend_from_slice(&out[..rest]).expect(rt, "room");
    (blocks, bytes)
}

/// Ends of a recording, how many blocks are given by then, and how many bytes it has.
const BLOCKS: &[(u32, usize, usize)] = &[
    (0, 0, 0),
    (1, 0, 2),
    (656_250, 0, 63),
    (671_875, 1, 65),
    (4_000_000, 6, 384),
    (4_000_001, 6, 386),
];

// The 43rd word ends amid a byte, and the byte before is the 64th.
#[test]
fn gives_a_block_as_soon_as_it_is_whole(rt: HostRuntime) {
    for &(end, blocks, len) in BLOCKS {
        let (given, bytes) = recording(&rt, TABLE, 0, u64::from(end));
        assert!(rt; given == blocks, "blocks up to {end}");
        assert!(rt; bytes.len() == len, "bytes up to {end}");
    }
}

/// Places in a recording, and the bytes there.
const BYTES: &[(usize, u8)] = &[
    (0, 0x47),
    (1, 0x02),
    (2, 0x00),
    (13, 0x50),
    (14, 0x00),
    (96, 0xb8),
    (97, 0x05),
    (192, 0x47),
    (193, 0x0a),
    (288, 0xb8),
    (289, 0x0d),
    (383, 0x00),
    (384, 0x47),
    (385, 0x02),
];

// Word 10 of each subframe 1 has the altitude.
#[test]
fn packs_the_words_of_a_frame(rt: HostRuntime) {
    let (_, bytes) = recording(&rt, TABLE, 0x14c1, 4_000_001);
    for &(at, value) in BYTES {
        assert!(rt; bytes.get(at).copied() == Some(value), "byte {at}");
    }
}

/// The words of a recording by the table of the altitude in two words, where it is 0xabc.
fn doubled_word(slot: usize) -> u16
    ensures { result < 4096 }
{
    match slot {
        0 | 256 => 0x247,
        64 => 0x5b8,
        128 => 0xa47,
        192 => 0xdb8,
        9 | 10 | 265 | 266 => 0xabc,
        257 => 1,
        _ => 0,
    }
}

/// The first of these words, packed in pairs. Four zero bits follow an odd number of them.
fn packed_words(rt: &(impl Abort + AllocGlobal), count: usize) -> Vec<u8> {
    let mut bytes = Vec::new(rt.alloc());
    for pair in 0..count / 2 {
        let words = pack_pair(doubled_word(2 * pair), doubled_word(2 * pair + 1));
        bytes.extend_from_slice(&words).expect(rt, "room");
    }
    if count % 2 == 1 {
        let last = pack_pair(doubled_word(count - 1), 0);
        bytes.extend_from_slice(&last[..2]).expect(rt, "room");
    }
    bytes
}

/// The same words are recorded up to this time, and packed.
fn expect_packed(rt: &(impl Abort + AllocGlobal), count: usize, end: u64)
    requires { end ≤ last_time }
{
    let (_, bytes) = recording(rt, DOUBLED, 0x802a_f0c1, end);
    let expected = packed_words(rt, count);
    assert!(rt; bytes.as_slice() == expected.as_slice(), "{count} words");
}

/// Numbers of words, and when so many are recorded.
const FIRST_WORDS: &[(usize, u32)] = &[
    (1, 15_625),
    (2, 31_250),
    (10, 156_250),
    (11, 171_875),
    (42, 656_250),
];

// A word slot lasts 15,625 microseconds.
#[test]
fn packs_the_words_of_a_block_as_their_pairs(rt: HostRuntime) {
    for &(count, end) in FIRST_WORDS {
        expect_packed(&rt, count, u64::from(end));
    }
}

/// The same of further blocks.
const FURTHER_WORDS: &[(usize, u32)] = &[
    (43, 671_875),
    (85, 1_328_125),
    (86, 1_343_750),
    (267, 4_171_875),
    (300, 4_687_500),
];

#[test]
fn packs_the_words_of_further_blocks_as_their_pairs(rt: HostRuntime) {
    for &(count, end) in FURTHER_WORDS {
        expect_packed(&rt, count, u64::from(end));
    }
}
