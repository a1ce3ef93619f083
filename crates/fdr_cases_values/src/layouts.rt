//! Layouts of worked tables.

ghost use Rattle.std.specs.Prelude.{◌≤◌, IfOk, length};

use fdr_check::check;
use fdr_layout::{Layout, Part, Sample};
use fdr_table::{Table, TableError};
use std::alloc::Global;

/// A position of two parts, one in each of two frames, and an altitude in every frame.
const TWO_FRAMES: &[u8] =
    b"F,64,2,1\nP,POS,0,1,,9,20,U,1,1,0,0,1\nL,POS,1,1,20,0,1,12,0,16\nL,POS,2,1,20,0,1,8,1,16\nP,ALT,0,2,,11,12,U,1,1,0,0,16\nL,ALT,1,1,10,0,1,12,0,1\n";

/// Two parameters of one sample each in one word, the second of them in the lower bits.
const SHARED_SLOT: &[u8] =
    b"F,64,2,1\nP,A,0,1,,11,8,U,1,1,0,0,1\nL,A,1,1,10,0,5,8,0,16\nP,B,0,2,,11,4,U,1,1,0,0,1\nL,B,1,1,10,0,1,4,0,16\n";

/// The layout of a table. The shortest superframe has 4,096 word slots.
fn layout_of(alloc: Global, text: &[u8]) -> Result<Layout, TableError>
    ensures { IfOk result (λ l. 4096 ≤ length l.slots) }
{
    let table = Table::read(alloc, text)?;
    let sound = check(alloc, table)?;
    sound.holds();
    let Ok(layout) = Layout::make(alloc, &sound) else {
        return Err(TableError::NoMemory);
    };
    Ok(layout)
}

#[test]
fn a_sample_ends_in_the_cycle_of_its_last_part(rt: HostRuntime) {
    let layout = layout_of(rt.alloc(), TWO_FRAMES).expect(&rt, "a layout");

    let altitude = Sample {
        number: 2,
        param: 1,
        index: 1,
        first: 265,
        last: 265,
    };
    let position = Sample {
        number: 0,
        param: 0,
        index: 0,
        first: 19,
        last: 275,
    };
    let low = Part {
        slot: 19,
        lsb: 1,
        width: 12,
        shift: 0,
        sample: 0,
    };
    let high = Part {
        slot: 275,
        lsb: 1,
        width: 8,
        shift: 12,
        sample: 0,
    };
    assert!(rt;
        layout.ending_in(1) == [altitude, position].as_slice()
            && layout.ending_in(0).len() == 1
            && layout.ending_in(15).len() == 1
            && layout.samples() == 17
            && layout.parts(0) == [low, high].as_slice()
            && layout.at_slot(19) == [low].as_slice()
            && layout.at_slot(275) == [high].as_slice()
            && layout.at_slot(20).is_empty()
    );
}

/// The parts of a slot come by their lowest bits, whatever the order of their parameters.
#[test]
fn parts_of_a_slot_come_by_lowest_bit(rt: HostRuntime) {
    let layout = layout_of(rt.alloc(), SHARED_SLOT).expect(&rt, "a layout");
    let low = Part {
        slot: 9,
        lsb: 1,
        width: 4,
        shift: 0,
        sample: 1,
    };
    let high = Part {
        slot: 9,
        lsb: 5,
        width: 8,
        shift: 0,
        sample: 0,
    };
    assert!(rt; layout.at_slot(9) == [low, high].as_slice());
}
