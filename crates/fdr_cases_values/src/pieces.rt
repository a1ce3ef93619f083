//! Lists of bits that come in pieces, beside a search of the whole. With 64 words a subframe, a frame has 3,072 bits, and
//! sync words at 0, 768, 1,536 and 2,304.

ghost use Rattle.std.specs.Prelude.{◌≡◌, ◌+◌, ◌^◌, ◌≤◌, false, length};
ghost use Rattle.fdr_resync.specs.Past.{bytes_pushed};

use fdr_resync::{Event, Scanner};
use fdr_sync::{Gap, accepted_frames, gaps};
use std::process::Abort;

const WORDS: u32 = 64;

const SYNC: [u16; 4] = [0x247, 0x5b8, 0xa47, 0xdb8];

// Puts a word of 12 bits at bit `at`.
fn put_word(bytes: &mut [u8], at: usize, word: u16)
    requires { at ≤ 2 ^ 20 }
{
    for j in 0..12usize {
        let p = at + j;
        let bit = ((word >> j) & 1) as u8;
        if p / 8 < bytes.len() {
            bytes[p / 8] = (bytes[p / 8] & !(1 << (p % 8))) | (bit << (p % 8));
        }
    }
}

// Puts the four sync words of a frame at bit `at`.
fn put_frame(bytes: &mut [u8], at: usize)
    requires { at ≤ 2 ^ 19 }
{
    for (k, word) in SYNC.iter().enumerate() {
        put_word(bytes, at + 768 * k, *word);
    }
}

// Takes all events that are decided.
fn take_all(rt: &impl Abort, scanner: &mut Scanner, events: &mut Vec<Event>)
    ensures pushed { bytes_pushed scanner.new ≡ bytes_pushed scanner.old }
    ensures ended { scanner.new.ended ≡ scanner.old.ended }
    ensures words { scanner.new.words ≡ scanner.old.words }
{
    while let Some(event) = scanner.take() {
        events.push(event).expect(rt, "room for an event");
    }
}

// The events of bytes that are pushed in pieces of this size, each of which must be taken whole.
fn scanned(
    rt: &(impl Abort + AllocGlobal),
    scanner: &mut Scanner,
    bytes: &[u8],
    size: usize,
) -> Vec<Event>
    requires empty { bytes_pushed scanner.old ≡ 0 }
    requires open { scanner.old.ended ≡ false }
    requires not_empty { 1 ≤ size }
    requires small { size ≤ 4096 }
    requires limit { length bytes.now ≤ 2 ^ 20 }
{
    let mut events = Vec::new(rt.alloc());
    let mut at = 0;
    while at < bytes.len() {
        let end = bytes.len().min(at + size);
        assert!(rt; scanner.push(&bytes[at..end]) == end - at);
        at = end;
        take_all(rt, scanner, &mut events);
    }
    scanner.finish();
    take_all(rt, scanner, &mut events);
    events
}

// Half of these bytes are sync words of first subframes, one after another, the rest is noise.
fn put_noise(bytes: &mut [u8]) {
    let mut state: u32 = 1;
    let half = bytes.len() / 2;
    for (i, byte) in bytes.iter_mut().enumerate() {
        state = state.wrapping_mul(1664525).wrapping_add(1013904223);
        let [highest, _, _, _] = state.to_be_bytes();
        *byte = match i % 3 {
            _ if i >= half => highest,
            0 => 0x47,
            1 => 0x72,
            _ => 0x24,
        };
    }
}

// The frames and the gaps of these events.
fn parted(rt: &(impl Abort + AllocGlobal), events: &[Event]) -> (Vec<u64>, Vec<Gap>) {
    let mut frames = Vec::new(rt.alloc());
    let mut gaps = Vec::new(rt.alloc());
    for event in events {
        match *event {
            Event::Frame { at } => frames.push(at).expect(rt, "room for a frame"),
            Event::Gap { at, bits } => gaps.push(Gap { at, bits }).expect(rt, "room for a gap"),
        }
    }
    (frames, gaps)
}

#[test]
fn gives_what_a_search_of_the_whole_gives(rt: HostRuntime) {
    let mut bytes = [0u8; 9000];
    put_noise(&mut bytes);
    for at in [0, 3072, 6145, 20011, 30000, 40001, 43073, 50000] {
        put_frame(&mut bytes, at);
    }
    let plain_frames = accepted_frames(rt.alloc(), &bytes, WORDS).expect(&rt, "frames");
    let plain_gaps = gaps(rt.alloc(), &bytes, WORDS).expect(&rt, "gaps");
    assert!(rt; plain_frames.len() > 5);
    let mut scanner = Scanner::new(rt.alloc(), WORDS).expect(&rt, "a scanner");
    for size in [1, 7, 4096] {
        scanner.restart();
        let events = scanned(&rt, &mut scanner, &bytes, size);
        let (frames, gaps) = parted(&rt, events.as_slice());
        assert!(rt;
            frames.as_slice() == plain_frames.as_slice()
                && gaps.as_slice() == plain_gaps.as_slice(),
            "{size}"
        );
    }
}

#[test]
fn reads_the_words_of_a_frame(rt: HostRuntime) {
    let mut bytes = [0u8; 400];
    put_frame(&mut bytes, 13);
    put_word(&mut bytes, 25, 0xabc);
    let mut scanner = Scanner::new(rt.alloc(), WORDS).expect(&rt, "a scanner");
    assert!(rt;
        scanner.push(&bytes) == 400 && scanner.take() == Some(Event::Gap { at: 0, bits: 13 })
    );
    let event = scanner.take();
    assert!(rt; event == Some(Event::Frame { at: 13 }));
    let mut words = [0; 256];
    scanner.frame_words(&mut words);
    assert!(rt;
        (words[0], words[1], words[2], words[64]) == (0x247, 0xabc, 0, 0x5b8)
            && scanner.take() == None
    );
    scanner.finish();
    assert!(rt;
        scanner.take()
            == Some(Event::Gap {
                at: 3085,
                bits: 115
            })
            && scanner.take() == None
    );
}
