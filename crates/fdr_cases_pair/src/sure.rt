//! Recordings on a twin in memory as it is made, and on one that never fails.

use crate::pairs::{
    Left, NO_WORDS, ONE_FRAME, altitude_bytes, copied, empty_image, left_on, record_words,
    recorded_image, recovered, run_of,
};
use fdr_io::{MemSource, SureSource};
use fdr_pair::PairOutcome;
use fdr_pair_sure::{made_twin, run_pair_in_memory, sure_recording};
use fdr_twin::SureTwin;
use std::process::Abort;

// What is left on a twin as it is made of these images.
fn left_as_made(rt: &(impl Abort + AllocGlobal), first: &[u8], second: &[u8]) -> Left {
    let twin = made_twin(
        rt.alloc(),
        copied(rt, first),
        copied(rt, second),
        copied(rt, &ONE_FRAME),
        Vec::new(rt.alloc()),
        None,
        Some(3),
    );
    left_on(rt, PairOutcome::Done, &twin)
}

#[test]
fn a_made_twin_has_its_images(rt: HostRuntime) {
    let first = recorded_image(&rt);
    let second = empty_image();
    let left = left_as_made(&rt, &first, &second);
    assert!(rt;
        left.first == first
            && left.second.as_slice() == second.as_slice()
            && left.told == 0
            && left.calls == 0
    );
}

// Records one frame on two images without blocks, the second of which is dead from some call on, if it is.
fn ran(rt: &(impl Abort + AllocGlobal), dead_second: Option<u64>) -> Left {
    let words = record_words(rt);
    let mut table = MemSource::new(altitude_bytes(rt), Vec::new(rt.alloc()));
    let ran = run_pair_in_memory(
        rt.alloc(),
        &words,
        &mut table,
        copied(rt, &empty_image()),
        copied(rt, &empty_image()),
        copied(rt, &ONE_FRAME),
        Vec::new(rt.alloc()),
        None,
        dead_second,
    );
    left_on(rt, ran.answer, &ran.twin)
}

#[test]
fn a_recording_hands_out_its_twin(rt: HostRuntime) {
    let whole = ran(&rt, None);
    let first = recovered(&rt, &whole.first);
    assert!(rt;
        whole.outcome == PairOutcome::Done
            && whole.told == 6
            && first.len() == 384
            && first == recovered(&rt, &whole.second)
    );
    let alone = ran(&rt, Some(0));
    assert!(rt;
        alone.outcome == PairOutcome::Done
            && run_of(&rt, &alone.first) == (0, 6, 1)
            && run_of(&rt, &alone.second) == (0, 0, 0)
    );
}

// A twin that never fails, of two images without blocks and this line.
fn sure_twin(rt: &(impl Abort + AllocGlobal), line: &[u8]) -> SureTwin {
    let first = copied(rt, &empty_image());
    let second = copied(rt, &empty_image());
    assert!(rt; first.len() > 0 && second.len() > 0);
    SureTwin::new(first, second, copied(rt, line))
}

// What a recording by these words and this table answers where neither its table nor its twin fails.
fn sure_answer(
    rt: &(impl Abort + AllocGlobal),
    words: &[String],
    table: Vec<u8>,
    line: &[u8],
) -> PairOutcome {
    let mut table = SureSource::new(table);
    let mut twin = sure_twin(rt, line);
    sure_recording(rt.alloc(), words, &mut table, &mut twin)
}

#[test]
fn a_recording_that_cannot_fail_is_done(rt: HostRuntime) {
    let words = record_words(&rt);
    for line in [&ONE_FRAME[..], &NO_WORDS[..]] {
        assert!(rt; sure_answer(&rt, &words, altitude_bytes(&rt), line) == PairOutcome::Done);
    }
    assert!(rt; sure_answer(&rt, &[], Vec::new(rt.alloc()), &[]) == PairOutcome::Usage);
}
