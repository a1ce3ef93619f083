//! A day and an hour by an ordinary table: 22,500 frames of 1,536 bytes.

use fdr_bus::{RecordKind, parse};
use fdr_slot::{Header, in_limits};
use fdr_table::Table;
use std::alloc::Global;
use std::process::Abort;

/// A table of 256 words a subframe.
const ORDINARY: &[u8] = b"F,256,256,4
P,ALT,0,203,0,12,18,S,1,1,0,0,64
L,ALT,1,1234,20,0,1,12,0,1
L,ALT,2,1234,21,0,1,6,0,1
P,IAS,0,206,,17,12,U,1,2,0,1,64
L,IAS,1,1234,30,0,1,12,0,1
P,VRTG,1,333,,17,12,S,1,1,0,3,512
L,VRTG,1,1234,8,32,1,12,0,1
P,FLT,2,260,,11,12,U,1,1,0,0,1
L,FLT,1,2,100,0,1,12,0,16
P,GEAR,3,270,,11,1,U,1,1,0,0,64
L,GEAR,1,1234,21,0,7,1,0,1
P,HDG,1,320,,17,12,U,1,1,0,0,32
L,HDG,1,13,50,0,1,12,0,1
P,PIT,1,324,,17,12,S,1,1,0,1,32
L,PIT,1,12,51,0,1,12,0,1
";

/// The end of a trace after 25 hours.
const END: [u8; 16] = [2, 0, 0, 0, 0, 0, 0, 0, 0, 0, 0, 0x14, 0xf4, 0x6b, 0x04, 0];

/// The words in a subframe by a table.
fn words_by(rt: &impl Abort, alloc: Global, table: &[u8]) -> u32 {
    let table = Table::read(alloc, table).expect(rt, "a table");
    table.frame().words
}

#[test]
fn twenty_five_hours_are_within_the_limits(rt: HostRuntime) {
    let header = Header {
        slots: 8_448,
        payload: 4_096,
        words: words_by(&rt, rt.alloc(), ORDINARY),
        version: 2,
    };
    let bytes: u64 = 22_500 * 1_536;
    let blocks = bytes.div_ceil(4_096);
    let record = parse(&END, 0).expect(&rt, "an end");
    assert!(rt;
        header.words == 256
            && in_limits(&header)
            && bytes == 34_560_000
            && blocks == 8_438
            && blocks <= u64::from(header.slots).saturating_sub(2)
            && record.kind == RecordKind::End
            && record.time == 90_000_000_000
    );
}
