//! Summaries of worked frames. The cases of commands have their listings.

ghost use Rattle.std.specs.Prelude.{◌≡◌, ◌<◌, ◌≤◌, [], length, All};
ghost use Rattle.fdr_readout.specs.Reading.{ReadsEvents, decided_past};

use crate::frames::frame_of;
use fdr_bits::pack_pair;
use fdr_check::check;
use fdr_io::{Failed, NullSink, Sink};
use fdr_readout::{EventReader, Summary, Taker, take_piece, take_rest};
use fdr_table::Table;
use std::alloc::Global;
use std::process::Abort;

/// A position of two parts, one in each of two frames, and a signed altitude in steps of a half in each frame.
const TABLE: &[u8] = b"F,64,2,1
P,POS,1,310,,9,20,U,1,1,0,0,1
L,POS,1,1,20,0,1,12,0,16
L,POS,2,1,20,0,1,8,1,16
P,ALT,0,203,,11,12,S,1,2,0,1,16
L,ALT,1,1,10,0,1,12,0,1
";

/// More bytes than any of the lines has.
const MANY: usize = 2000;

fn add_frame(rt: &impl Abort, bytes: &mut Vec<u8>, words: &[u16; 256])
    requires { All (λ word. word < 4096) words.now }
{
    for pair in 0..128 {
        let packed = pack_pair(words[2 * pair], words[2 * pair + 1]);
        bytes.extend_from_slice(&packed).expect(rt, "memory");
    }
}

/// Hands on all that these bytes hold.
fn take_all<O: Sink, T: Taker<O>>(
    reader: &mut EventReader,
    table: &Table,
    bytes: &[u8],
    taker: &mut T,
    out: &mut O,
) -> Result<(), Failed>
    requires short { length bytes.now ≤ 2000 }
    requires fresh { ReadsEvents table.now reader.old (decided_past table.now.frame.words []) }
{
    let Ok(()) = take_piece(reader, table, bytes, taker, out) else {
        return Err(Failed);
    };
    take_rest(reader, table, taker, out)
}

/// The summary of the frames in these bytes.
fn summary_of(rt: &impl Abort, alloc: Global, bytes: &[u8]) -> Summary {
    let table = Table::read(alloc, TABLE).expect(rt, "a table");
    let sound = check(alloc, table).expect(rt, "a sound table");
    assert!(rt; sound.table().frame().words == 64 && bytes.len() <= MANY);
    let mut reader = EventReader::new(alloc, &sound).expect(rt, "memory");
    let mut summary = Summary::new();
    let mut out = NullSink::new();
    let taken = take_all(&mut reader, sound.table(), bytes, &mut summary, &mut out);
    assert!(rt; taken == Ok(()));
    summary
}

// Each frame has a row of the altitude, and the second one of the position, which is 0. A half below zero is rounded down.
#[test]
fn adds_up_values_below_zero(rt: HostRuntime) {
    let alloc = rt.alloc();
    let mut bytes = Vec::new(alloc);
    add_frame(&rt, &mut bytes, &frame_of(0, 0xfff, 0));
    add_frame(&rt, &mut bytes, &frame_of(1, 0xfff, 0));
    let summary = Summary {
        frames: 2,
        rows: 3,
        sum: u64::MAX - 1,
    };
    assert!(rt; summary_of(&rt, alloc, &bytes) == summary);
}

/// The bytes without the one at this place.
fn without_byte(rt: &impl Abort, alloc: Global, bytes: &[u8], place: usize) -> Vec<u8> {
    let mut left = Vec::new(alloc);
    for (i, byte) in bytes.iter().enumerate() {
        if i != place {
            left.push(*byte).expect(rt, "memory");
        }
    }
    left
}

// The last frame of one superframe, of which a byte is missing, and two frames of the next. The position has its low twelve
// bits in the first of them, and is 703,710.
#[test]
fn counts_what_survives_a_cut(rt: HostRuntime) {
    let alloc = rt.alloc();
    let mut frames = Vec::new(alloc);
    add_frame(&rt, &mut frames, &frame_of(15, 5, 0));
    add_frame(&rt, &mut frames, &frame_of(16, 0xfff, 0xcde));
    add_frame(&rt, &mut frames, &frame_of(17, 0, 0xab));
    let bytes = without_byte(&rt, alloc, &frames, 100);
    let summary = Summary {
        frames: 2,
        rows: 3,
        sum: 703_709,
    };
    assert!(rt; summary_of(&rt, alloc, &bytes) == summary);
}
