//! Recordings on two disks in which a call fails, both disks die, or a stop is followed by another run.

use crate::pairs::{
    Dead, Given, NO_WORDS, ONE_FRAME, calls_of, empty_image, ended, one_behind, run_of, stops,
};
use fdr_deck::Tear;
use fdr_io::Input;
use fdr_pair::PairOutcome;
use fdr_twin::Side;
use std::process::Abort;

#[test]
fn each_call_fails_once(rt: HostRuntime) {
    let empty = empty_image();
    let given = Given::of(&empty, &empty, &ONE_FRAME);
    let mut read_failed = false;
    for call in 0..calls_of(&rt, given) {
        let failing = &[call];
        let end = ended(&rt, Given { failing, ..given });
        let is_read = end.outcome == PairOutcome::ReadFault(Input::Line);
        let is_done = end.outcome == PairOutcome::Done && end.told == 6;
        assert!(rt; end.told == end.next() && (is_read && !read_failed || is_done));
        read_failed = read_failed || is_read;
    }
    assert!(rt; read_failed);
}

#[test]
fn each_call_fails_once_where_one_is_behind(rt: HostRuntime) {
    let images = one_behind(&rt);
    let given = images.with(&NO_WORDS);
    for call in 0..calls_of(&rt, given) {
        let failing = &[call];
        let end = ended(&rt, Given { failing, ..given });
        let is_told = match end.outcome {
            PairOutcome::LeadFault(Side::First) => end.told == 0,
            PairOutcome::Done | PairOutcome::ReadFault(Input::Line) => {
                end.told == 5 || end.told == 6
            }
            _ => false,
        };
        assert!(rt; is_told && end.next() == 6);
    }
}

#[test]
fn a_run_after_a_stop_brings_both_together(rt: HostRuntime) {
    let images = one_behind(&rt);
    for stop in stops(&rt, images.with(&NO_WORDS), Tear::Half).iter() {
        let again = ended(&rt, stop.images.with(&NO_WORDS));
        assert!(rt;
            again.outcome == PairOutcome::Done
                && again.told == 6
                && again.first == (0, 6, 1)
                && again.second == (0, 6, 1)
        );
    }
}

#[test]
fn both_die_one_after_the_other(rt: HostRuntime) {
    let empty = empty_image();
    let given = Given::of(&empty, &empty, &ONE_FRAME);
    let mut some_are_done = false;
    for call in 0..calls_of(&rt, given) {
        let dead = Dead {
            first: Some(call),
            second: Some(call.saturating_add(7)),
        };
        let end = ended(&rt, Given { dead, ..given });
        let is_done = end.outcome == PairOutcome::Done;
        let is_answer = if is_done {
            end.told == 6
        } else {
            end.outcome == PairOutcome::DiskFault
        };
        assert!(rt; is_answer && end.told <= end.next());
        some_are_done = some_are_done || is_done;
    }
    assert!(rt; some_are_done);
}

// An image whose one block is of the greatest session.
fn image_of_the_greatest_session(rt: &impl Abort) -> [u8; 1344] {
    let mut image = empty_image();
    let head = [
        0x5a, 0, 0, 64, 0xff, 0xff, 0xff, 0xff, 0, 0, 0, 0, 0, 0, 0, 0,
    ];
    for (at, byte) in head.iter().chain(&[1; 64]).enumerate() {
        *image.get_mut(64 + at).expect(rt, "a slot") = *byte;
    }
    image
}

#[test]
fn the_session_after_the_greatest_is_0(rt: HostRuntime) {
    let image = image_of_the_greatest_session(&rt);
    let end = ended(&rt, Given::of(&image, &image, &ONE_FRAME));
    assert!(rt;
        run_of(&rt, &image) == (0, 1, u32::MAX)
            && end.outcome == PairOutcome::Done
            && end.first == (0, 7, 0)
            && end.second == (0, 7, 0)
    );
}
