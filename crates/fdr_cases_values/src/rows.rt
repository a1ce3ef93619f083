//! Rows of worked tables.

ghost use Rattle.std.specs.Prelude.{◌≡◌, ◌<◌, All};

use crate::frames::frame_of;
use fdr_check::check;
use fdr_layout::Layout;
use fdr_recon::{Rebuild, Row};
use fdr_table::Table;
use std::alloc::Global;
use std::process::Abort;

/// An altitude in each frame.
const ALTITUDE: &[u8] = b"F,64,2,1\nP,ALT,0,203,,11,12,U,1,1,0,0,16\nL,ALT,1,1,10,0,1,12,0,1\n";

/// A position of two parts, one in each of two frames, and an altitude in each frame.
const POSITION: &[u8] = b"F,64,2,1
P,POS,1,310,,9,20,U,1,1,0,0,1
L,POS,1,1,20,0,1,12,0,16
L,POS,2,1,20,0,1,8,1,16
P,ALT,0,203,,11,12,U,1,1,0,0,16
L,ALT,1,1,10,0,1,12,0,1
";

fn rebuild_by(rt: &impl Abort, alloc: Global, table: &[u8]) -> Rebuild
    ensures { result.frame.words ≡ 64 }
{
    let table = Table::read(alloc, table).expect(rt, "a table");
    let sound = check(alloc, table).expect(rt, "a sound table");
    assert!(rt; sound.table().frame().words == 64);
    let layout = Layout::make(alloc, &sound).expect(rt, "memory");
    Rebuild::new(alloc, layout, &sound).expect(rt, "memory")
}

fn altitude(param: u32, counter: u16, value: i64) -> Option<Row> {
    Some(Row {
        counter,
        subframe: 1,
        word: 10,
        param,
        value,
    })
}

fn position(counter: u16, value: i64) -> Option<Row> {
    Some(Row {
        counter,
        subframe: 1,
        word: 20,
        param: 0,
        value,
    })
}

// The counter counts from 4095 to 0.
#[test]
fn lists_an_altitude_of_each_frame(rt: HostRuntime) {
    let mut rebuild = rebuild_by(&rt, rt.alloc(), ALTITUDE);
    assert!(rt; rebuild.rows() == 0);
    rebuild.frame(true, &frame_of(4095, 5, 0));
    assert!(rt; rebuild.rows() == 1 && rebuild.row(0) == altitude(0, 4095, 5));
    rebuild.frame(true, &frame_of(0, 5, 0));
    assert!(rt; rebuild.rows() == 1 && rebuild.row(0) == altitude(0, 0, 5));
}

/// A table with an altitude of this scale in each frame.
fn table_with(rt: &impl Abort, alloc: Global, scale: &str) -> String {
    format!(in alloc; "F,64,2,1\nP,ALT,0,203,,11,12,{scale},16\nL,ALT,1,1,10,0,1,12,0,1\n").expect(
        rt, "memory",
    )
}

/// The value of a raw number by a table.
fn value_by(rt: &impl Abort, alloc: Global, table: &[u8], raw: u16) -> i64 {
    let table = Table::read(alloc, table).expect(rt, "a table");
    let param = table.params().first().expect(rt, "a parameter");
    assert!(rt; param.width == 12 && raw < 4096);
    param.value(u32::from(raw))
}

/// The only row of a frame with this raw number.
fn row_by(rt: &impl Abort, alloc: Global, table: &[u8], raw: u16) -> Option<Row> {
    assert!(rt; raw < 4096);
    let mut rebuild = rebuild_by(rt, alloc, table);
    rebuild.frame(false, &frame_of(0, raw, 0));
    assert!(rt; rebuild.rows() == 1);
    rebuild.row(0)
}

/// Scales that are small on the way, that fall with the raw number, and that are larger.
const SCALES: &[&str] = &[
    "U,1,1,0,0",
    "S,1,2,0,1",
    "S,3,7,-100,1",
    "U,-1,3,7,2",
    "S,0,1,5,0",
    "U,2048,1,0,0",
    "U,2049,1,0,0",
    "U,268501,1000,0,0",
    "U,268502,1000,0,0",
    "S,1000000000,1,0,0",
    "S,1,1000000000,-1000000000000000,9",
];

#[test]
fn values_are_those_of_the_table(rt: HostRuntime) {
    let alloc = rt.alloc();
    for &scale in SCALES {
        let table = table_with(&rt, alloc, scale);
        let table = table.as_bytes();
        for raw in [0, 1, 7, 0x7ff, 0x800, 0xffe, 0xfff] {
            let value = value_by(&rt, alloc, table, raw);
            assert!(rt;
                row_by(&rt, alloc, table, raw) == altitude(0, 0, value),
                "{raw} by {scale}"
            );
        }
    }
}

// The low twelve bits of the position are in a frame of cycle 0, the high eight in the next one.
#[test]
fn joins_the_parts_of_a_position(rt: HostRuntime) {
    let mut rebuild = rebuild_by(&rt, rt.alloc(), POSITION);
    rebuild.frame(false, &frame_of(0, 5, 0xcde));
    assert!(rt; rebuild.rows() == 1 && rebuild.row(0) == altitude(1, 0, 5));
    rebuild.frame(true, &frame_of(1, 5, 0xab));
    assert!(rt;
        rebuild.rows() == 2
            && rebuild.row(0) == altitude(1, 1, 5)
            && rebuild.row(1) == position(0, 703_710)
    );
}

/// The counter of a frame, whether the next one is adjacent, and its counter.
const APART: &[(u8, bool, u8)] = &[(0, false, 1), (0, true, 17), (2, true, 1)];

// A frame that is apart, or whose counter isn't the next, is joined with none before it.
#[test]
fn joins_no_parts_over_a_gap(rt: HostRuntime) {
    for &(before, adjacent, counter) in APART {
        let counter = u16::from(counter);
        let first = frame_of(u16::from(before), 5, 0xcde);
        let second = frame_of(counter, 5, 0xab);
        let mut rebuild = rebuild_by(&rt, rt.alloc(), POSITION);
        rebuild.frame(false, &first);
        rebuild.frame(adjacent, &second);
        assert!(rt;
            rebuild.rows() == 2
                && rebuild.row(0) == altitude(1, counter, 5)
                && rebuild.row(1) == None
        );
    }
}
