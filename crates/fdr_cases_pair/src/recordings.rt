//! Recordings on two disks, of which either may fail.

use crate::pairs::{
    ALIVE, Dead, GATE_OF_SLOT_5, Given, Images, Left, NO_WORDS, ONE_FRAME, calls_of, empty_image,
    ended, one_behind, record, recorded_image, recorded_over, recovered, run_of, stops, with_byte,
};
use fdr_deck::Tear;
use fdr_pair::PairOutcome;
use fdr_slot::ImageFault;
use fdr_twin::Side;
use std::process::Abort;

// Where the payload of the block with number 5 is.
const PAYLOAD_OF_SLOT_5: usize = GATE_OF_SLOT_5 + 16;

#[test]
fn records_on_both(rt: HostRuntime) {
    let empty = empty_image();
    let left = record(&rt, Given::of(&empty, &empty, &ONE_FRAME));
    let first = recovered(&rt, &left.first);
    assert!(rt;
        left.outcome == PairOutcome::Done
            && left.told == 6
            && first.len() == 384
            && first == recovered(&rt, &left.second)
            && run_of(&rt, &left.first) == (0, 6, 1)
    );
}

// The first call of a recording on two images without blocks that changes the second.
fn first_write_on_second(rt: &(impl Abort + AllocGlobal), given: Given<'_>) -> u64 {
    let mut write = None;
    for (call, stop) in stops(rt, given, Tear::Fill(0xee)).iter().enumerate() {
        if write.is_none() && stop.images.second.as_slice() != given.second {
            write = Some(call as u64);
        }
    }
    write.expect(rt, "a write")
}

#[test]
fn goes_on_where_the_second_dies(rt: HostRuntime) {
    let empty = empty_image();
    let given = Given::of(&empty, &empty, &ONE_FRAME);
    let dead = Dead {
        first: None,
        second: Some(first_write_on_second(&rt, given)),
    };
    let end = ended(&rt, Given { dead, ..given });
    assert!(rt; end.outcome == PairOutcome::Done && end.told == 6 && end.first == (0, 6, 1));
}

#[test]
fn fails_where_both_are_dead(rt: HostRuntime) {
    let empty = empty_image();
    let dead = Dead {
        first: Some(0),
        second: Some(0),
    };
    let given = Given::of(&empty, &empty, &ONE_FRAME);
    let left = record(&rt, Given { dead, ..given });
    assert!(rt; left.outcome == PairOutcome::DiskFault && left.told == 0);
}

#[test]
fn the_one_behind_is_brought_up(rt: HostRuntime) {
    let images = one_behind(&rt);
    let left = record(&rt, images.with(&NO_WORDS));
    assert!(rt;
        run_of(&rt, &images.second) == (0, 5, 1)
            && left.outcome == PairOutcome::Done
            && left.told == 6
            && run_of(&rt, &left.first) == (0, 6, 1)
            && run_of(&rt, &left.second) == (0, 6, 1)
            && recovered(&rt, &left.first) == recovered(&rt, &left.second)
    );
}

// What a recording of one frame on these images answers, where it announces nothing and changes neither.
fn refusal_of(rt: &(impl Abort + AllocGlobal), first: &[u8], second: &[u8]) -> PairOutcome {
    let left = record(rt, Given::of(first, second, &ONE_FRAME));
    assert!(rt;
        left.told == 0 && left.first.as_slice() == first && left.second.as_slice() == second
    );
    left.outcome
}

// An image that three recordings of one frame each went round.
fn third_image(rt: &(impl Abort + AllocGlobal)) -> Vec<u8> {
    let second = recorded_over(rt, &recorded_image(rt));
    recorded_over(rt, &second)
}

#[test]
fn refuses_images_that_cannot_be_brought_together(rt: HostRuntime) {
    let empty = empty_image();
    let third = third_image(&rt);
    let six = recorded_image(&rt);
    let other = with_byte(&rt, &six, PAYLOAD_OF_SLOT_5, 0xff);
    let small = PairOutcome::ImageRefused {
        side: Side::Second,
        fault: ImageFault::Small,
    };
    assert!(rt;
        run_of(&rt, &third) == (3, 18, 3)
            && refusal_of(&rt, &third, &empty) == PairOutcome::FarBehind(Side::Second)
            && refusal_of(&rt, &empty, &third) == PairOutcome::FarBehind(Side::First)
            && refusal_of(&rt, &six, &[]) == small
            && refusal_of(&rt, &six, &other) == PairOutcome::BlocksDiffer { seq: 5 }
    );
}

// The next number of an image whose run is a front part of these blocks.
fn next_in(rt: &(impl Abort + AllocGlobal), image: &[u8], blocks: &[u8]) -> u64 {
    let (start, next, _) = run_of(rt, image);
    let payloads = recovered(rt, image);
    assert!(rt; start == 0 && payloads.len() as u64 / 64 == next && blocks.starts_with(&payloads));
    next
}

// The next numbers of both images.
fn next_of_each(rt: &(impl Abort + AllocGlobal), images: &Images, blocks: &[u8]) -> (u64, u64) {
    (
        next_in(rt, &images.first, blocks),
        next_in(rt, &images.second, blocks),
    )
}

// Whether the stops of a recording leave on each side ever more of these blocks: all that were announced by then, at most one more
// on the first, and at most this many more on the second.
fn leaves_more(
    rt: &(impl Abort + AllocGlobal),
    given: Given<'_>,
    blocks: &[u8],
    tear: Tear,
    ahead: u64,
) -> bool {
    let mut holds = true;
    let mut before = (0, 0);
    for stop in stops(rt, given, tear).iter() {
        let now = next_of_each(rt, &stop.images, blocks);
        holds = holds
            && before.0 <= now.0
            && before.1 <= now.1
            && stop.told <= now.1
            && now.1 <= now.0
            && now.0.saturating_sub(stop.told) <= 1
            && now.1.saturating_sub(stop.told) <= ahead;
        before = now;
    }
    holds
}

#[test]
fn a_stop_leaves_the_announced_blocks_on_each(rt: HostRuntime) {
    let empty = empty_image();
    let given = Given::of(&empty, &empty, &ONE_FRAME);
    let whole = recovered(&rt, &record(&rt, given).first);
    // Where what is pending is lost, the second has the announced blocks alone.
    assert!(rt; leaves_more(&rt, given, &whole, Tear::Old, 0));
    for tear in [Tear::New, Tear::Half, Tear::Fill(0x5a)] {
        assert!(rt; leaves_more(&rt, given, &whole, tear, 1));
    }
}

// How a recording ends where the lead dies: the other side goes on alone, it isn't brought up to the lead yet, or both have all.
#[derive(Clone, Copy, PartialEq, Eq)]
enum End {
    Alone,
    LeadFault,
    Both,
}

// How a recording ended in which the first of these images died, which leads.
fn end_of(rt: &(impl Abort + AllocGlobal), images: &Images, left: &Left) -> End {
    let next = run_of(rt, &left.second).1;
    if left.outcome == PairOutcome::LeadFault(Side::First) {
        assert!(rt; left.first == images.first && left.told == 0 && next == 5);
        return End::LeadFault;
    }
    assert!(rt; left.outcome == PairOutcome::Done && left.told == next && (next == 5 || next == 6));
    if next == 5 { End::Alone } else { End::Both }
}

// The calls up to the last one on the lead while both are compared: two for each header, one for each of 16 slots and for each
// block of a run of six and of one of five, and two on each side for each of five blocks, but for the last two on the other.
const CALLS_BEFORE_BRINGING: u64 = 4 + (16 + 6) + (16 + 5) + 5 * 4 - 2;

// And up to the one that gives the block that the other side hasn't: the last two while both are compared, those on the other side,
// which is opened by the same calls as its run was found, a look at a gate and a sync, and two for the block.
const CALLS_BEFORE_BROUGHT: u64 = CALLS_BEFORE_BRINGING + 2 + (16 + 5) + 2 + 2;

#[test]
fn the_first_dies_at_each_call(rt: HostRuntime) {
    let images = one_behind(&rt);
    let given = images.with(&NO_WORDS);
    let calls = calls_of(&rt, given);
    assert!(rt; CALLS_BEFORE_BROUGHT < calls);
    for call in 0..calls {
        let dead = Dead {
            first: Some(call),
            ..ALIVE
        };
        let left = record(&rt, Given { dead, ..given });
        let end = if call < CALLS_BEFORE_BRINGING {
            End::Alone
        } else if call < CALLS_BEFORE_BROUGHT {
            End::LeadFault
        } else {
            End::Both
        };
        assert!(rt; end_of(&rt, &images, &left) == end, "{call}");
    }
}
