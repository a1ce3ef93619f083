//! Pairs of images, and recordings in them.

use fdr_deck::{MemDeck, Tear};
use fdr_io::MemSource;
use fdr_pair::{PairOutcome, run_pair};
use fdr_recover::{block, read_image_header, scan};
use fdr_slot::{MAX_PAYLOAD, SEQUENCE_END};
use fdr_twin::{MemTwin, Side};
use std::process::Abort;

/// A table with an altitude in word 10 of the first subframe, and the counter in word 2 of it.
const ALTITUDE: &str = "F,64,2,1\nP,ALT,0,203,,11,12,U,1,1,0,0,16\nL,ALT,1,1,10,0,1,12,0,1\n";

/// The header of an image of 16 slots of 64 bytes for subframes of 64 words, in version 2.
const SIXTEEN: [u8; 20] = [
    0x5a, 0xa5, 0x46, 0x44, 0x52, 0x37, 0x31, 0x37, 0, 0, 0, 16, 0, 0, 0, 64, 0, 0, 0, 64,
];

/// The altitude 5 at 0, which is a word of label 203 on bus 0 with odd parity, and the end of the trace after one frame. It
/// gives six blocks.
pub const ONE_FRAME: [u8; 32] = [
    1, 0, 0, 0, 0, 0, 0x14, 0xc1, 0, 0, 0, 0, 0, 0, 0, 0, 2, 0, 0, 0, 0, 0, 0, 0, 0, 0, 0, 0, 0,
    0x3d, 0x09, 0,
];

/// An end before the first word. It gives no blocks.
pub const NO_WORDS: [u8; 16] = [2, 0, 0, 0, 0, 0, 0, 0, 0, 0, 0, 0, 0, 0, 0, 0];

/// Where the gate of the block with number 5 is.
pub const GATE_OF_SLOT_5: usize = 64 + 5 * 80;

/// An image of 16 slots of 64 bytes without blocks.
pub fn empty_image() -> [u8; 1344] {
    let mut image = [0; 1344];
    for (place, byte) in image.iter_mut().zip(&SIXTEEN) {
        *place = *byte;
    }
    image
}

/// A copy of these bytes.
pub fn copied(rt: &(impl Abort + AllocGlobal), bytes: &[u8]) -> Vec<u8> {
    bytes.to_vec(rt.alloc()).expect(rt, "a copy")
}

/// From which call on each disk is dead, if it is.
#[derive(Clone, Copy)]
pub struct Dead {
    /// The first disk.
    pub first: Option<u64>,
    /// The second disk.
    pub second: Option<u64>,
}

/// Neither disk is dead.
pub const ALIVE: Dead = Dead {
    first: None,
    second: None,
};

/// What a recording finds: both images, its line, which calls fail, and which disks are dead.
#[derive(Clone, Copy)]
pub struct Given<'a> {
    pub first: &'a [u8],
    pub second: &'a [u8],
    pub line: &'a [u8],
    pub failing: &'a [u64],
    pub dead: Dead,
}

impl<'a> Given<'a> {
    /// Both images and a line, where nothing fails.
    pub fn of(first: &'a [u8], second: &'a [u8], line: &'a [u8]) -> Given<'a> {
        Given {
            first,
            second,
            line,
            failing: &[],
            dead: ALIVE,
        }
    }
}

/// What a recording answered and left: both images, the number that was announced last, and how many calls it made.
#[derive(Drop)]
pub struct Left {
    pub outcome: PairOutcome,
    pub first: Vec<u8>,
    pub second: Vec<u8>,
    pub told: u64,
    pub calls: u64,
}

/// What is left on a twin after an answer.
pub fn left_on(rt: &(impl Abort + AllocGlobal), outcome: PairOutcome, twin: &MemTwin) -> Left {
    Left {
        outcome,
        first: copied(rt, twin.image(Side::First)),
        second: copied(rt, twin.image(Side::Second)),
        told: twin.told(),
        calls: twin.calls(),
    }
}

/// The words of a recording.
pub fn record_words(rt: &(impl Abort + AllocGlobal)) -> Vec<String> {
    let mut words = Vec::new(rt.alloc());
    for word in ["record", "t1.csv", "first.img", "second.img"] {
        let word = word.to_string(rt.alloc()).expect(rt, "a word");
        words.push(word).expect(rt, "room");
    }
    words
}

/// The bytes of the table of the altitude.
pub fn altitude_bytes(rt: &(impl Abort + AllocGlobal)) -> Vec<u8> {
    copied(rt, ALTITUDE.as_bytes())
}

/// A twin of these images with this line, some of whose calls fail, without clauses.
pub fn twin_of(rt: &(impl Abort + AllocGlobal), given: Given<'_>) -> MemTwin {
    MemTwin::new(
        rt.alloc(),
        copied(rt, given.first),
        copied(rt, given.second),
        copied(rt, given.line),
        given.failing.to_vec(rt.alloc()).expect(rt, "the calls"),
        given.dead.first,
        given.dead.second,
    )
}

// What a recording by the table of the altitude answers, and its twin. Without clauses, so that tests are proved
// without those of `run_pair`.
fn recorded_on(rt: &(impl Abort + AllocGlobal), given: Given<'_>) -> (PairOutcome, MemTwin) {
    let words = record_words(rt);
    let mut table = MemSource::new(altitude_bytes(rt), Vec::new(rt.alloc()));
    let mut twin = twin_of(rt, given);
    let outcome = run_pair(rt.alloc(), &words, &mut table, &mut twin);
    (outcome, twin)
}

/// Records by the table of the altitude.
pub fn record(rt: &(impl Abort + AllocGlobal), given: Given<'_>) -> Left {
    let (outcome, twin) = recorded_on(rt, given);
    left_on(rt, outcome, &twin)
}

/// How many calls a recording makes.
pub fn calls_of(rt: &(impl Abort + AllocGlobal), given: Given<'_>) -> u64 {
    record(rt, given).calls
}

/// The run that an image holds: the number of its first block, the next one, and the session of its last block.
pub type Run = (u64, u64, u32);

/// How a recording ended: its answer, the number that was announced last, and the run of each image.
#[derive(Clone, Copy)]
pub struct Ending {
    pub outcome: PairOutcome,
    pub told: u64,
    pub first: Run,
    pub second: Run,
}

impl Ending {
    /// The greater of the next numbers of both sides.
    pub fn next(&self) -> u64 {
        self.first.1.max(self.second.1)
    }
}

/// How a recording ends.
pub fn ended(rt: &(impl Abort + AllocGlobal), given: Given<'_>) -> Ending {
    let left = record(rt, given);
    Ending {
        outcome: left.outcome,
        told: left.told,
        first: run_of(rt, &left.first),
        second: run_of(rt, &left.second),
    }
}

/// Two images.
#[derive(Drop)]
pub struct Images {
    pub first: Vec<u8>,
    pub second: Vec<u8>,
}

impl Images {
    /// A recording of this line in them, where nothing fails.
    pub fn with<'a>(&'a self, line: &'a [u8]) -> Given<'a> {
        Given::of(&self.first, &self.second, line)
    }
}

/// What a stop within a call leaves: both images, and the greatest number that was announced before that call.
#[derive(Drop)]
pub struct Stop {
    pub images: Images,
    pub told: u64,
}

/// What stops of a recording leave, one within each of its calls.
pub fn stops(rt: &(impl Abort + AllocGlobal), given: Given<'_>, tear: Tear) -> Vec<Stop> {
    let (_, twin) = recorded_on(rt, given);
    let mut stops = Vec::new(rt.alloc());
    for call in 0..twin.calls() {
        stops
            .push(stopped(rt, &twin, call, tear))
            .expect(rt, "room");
    }
    stops
}

fn stopped(rt: &(impl Abort + AllocGlobal), twin: &MemTwin, call: u64, tear: Tear) -> Stop {
    assert!(rt; call < twin.calls());
    let (first, second) = twin.stop(rt.alloc(), call, tear).expect(rt, "a stop");
    Stop {
        images: Images { first, second },
        told: twin.told_at(call),
    }
}

/// The first side's image after one frame is recorded on two such images.
pub fn recorded_over(rt: &(impl Abort + AllocGlobal), image: &[u8]) -> Vec<u8> {
    let left = record(rt, Given::of(image, image, &ONE_FRAME));
    assert!(rt; left.outcome == PairOutcome::Done);
    left.first
}

/// The first side's image after one frame is recorded on two images without blocks.
pub fn recorded_image(rt: &(impl Abort + AllocGlobal)) -> Vec<u8> {
    recorded_over(rt, &empty_image())
}

/// An image with another byte at this place.
pub fn with_byte(rt: &(impl Abort + AllocGlobal), image: &[u8], at: usize, byte: u8) -> Vec<u8> {
    let mut image = copied(rt, image);
    let place = image.get_mut(at).expect(rt, "a place");
    *place = byte;
    image
}

// An image whose slot 5 has only zeros, the image of a disk that never had its block.
fn without_slot_5(rt: &(impl Abort + AllocGlobal), image: &[u8]) -> Vec<u8> {
    let mut image = copied(rt, image);
    for byte in image.iter_mut().skip(GATE_OF_SLOT_5).take(80) {
        *byte = 0;
    }
    image
}

/// The first image has six blocks, and the second lacks the last of them: its slot has only zeros.
pub fn one_behind(rt: &(impl Abort + AllocGlobal)) -> Images {
    let first = recorded_image(rt);
    let second = without_slot_5(rt, &first);
    Images { first, second }
}

// A disk with a copy of this image.
fn deck_of(rt: &(impl Abort + AllocGlobal), image: &[u8]) -> MemDeck {
    let alloc = rt.alloc();
    MemDeck::new(alloc, copied(rt, image), Vec::new(alloc), Vec::new(alloc))
}

/// The run that an image holds.
pub fn run_of(rt: &(impl Abort + AllocGlobal), image: &[u8]) -> Run {
    let mut deck = deck_of(rt, image);
    let header = read_image_header(&mut deck).expect(rt, "a header");
    let found = scan(&mut deck, &header).expect(rt, "a run");
    (found.first, found.next, found.session)
}

// The payload of the block with this number.
fn payload_of(rt: &(impl Abort + AllocGlobal), image: &[u8], seq: u64) -> Vec<u8> {
    let mut deck = deck_of(rt, image);
    let header = read_image_header(&mut deck).expect(rt, "a header");
    let mut payload = [0; MAX_PAYLOAD];
    assert!(rt; seq < SEQUENCE_END);
    let info = block(&mut deck, &header, seq, &mut payload).expect(rt, "a block");
    copied(rt, &payload[..info.len])
}

/// The payloads of the run that an image holds.
pub fn recovered(rt: &(impl Abort + AllocGlobal), image: &[u8]) -> Vec<u8> {
    let (first, next, _) = run_of(rt, image);
    let mut payloads = Vec::new(rt.alloc());
    for seq in first..next {
        let payload = payload_of(rt, image, seq);
        payloads.extend_from_slice(&payload).expect(rt, "room");
    }
    payloads
}
