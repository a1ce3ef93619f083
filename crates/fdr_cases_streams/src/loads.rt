//! Tables that are loaded.

use fdr_io::MemSource;
use fdr_load::{LoadFault, load_table};
use fdr_table::TableFault;
use std::process::Abort;

const TABLE: &[u8] = b"F,64,2,1\nP,A,0,1,,11,12,U,1,1,0,0,16\nL,A,1,1,20,0,1,12,0,1\n";

/// A source of these bytes, of which no call fails.
fn source_of(rt: &(impl Abort + AllocGlobal), bytes: &[u8]) -> MemSource {
    let bytes = Vec::from_slice(rt.alloc(), bytes).expect(rt, "a source");
    MemSource::new(bytes, Vec::new(rt.alloc()))
}

#[test]
fn loads_a_table(rt: HostRuntime) {
    let mut source = source_of(&rt, TABLE);
    let sound = load_table(rt.alloc(), &mut source).expect(&rt, "a table");
    assert!(rt; sound.table().frame().words == 64);
}

#[test]
fn refuses_a_second_frame_row(rt: HostRuntime) {
    let mut source = source_of(&rt, b"F,64,2,1\nF,64,2,1\n");
    let refused = LoadFault::Refused {
        row: 1,
        fault: TableFault::TwoFrames,
    };
    assert!(rt; load_table(rt.alloc(), &mut source).err() == Some(refused));
}
