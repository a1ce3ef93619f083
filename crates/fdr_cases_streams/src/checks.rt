//! Worked checks of tables and a report. The cases of whole commands have each fault and other reports.

use fdr_check::{check, report};
use fdr_table::{Refusal, Table, TableError, TableFault};
use std::alloc::Global;

/// The third place meets both places above it, the second of them at the lower bit.
const TWICE_CROSSED: &[u8] =
    b"F,64,2,1\nP,A,0,1,,11,8,U,1,1,0,0,16\nL,A,1,1,20,0,5,4,0,1\nL,A,2,1,20,0,1,4,0,1\nP,B,0,2,,11,7,U,1,1,0,0,16\nL,B,1,1,20,0,3,7,0,1\n";

/// The counter's word is past the subframe, and the place is on a sync word.
const COUNTER_BEYOND: &[u8] =
    b"F,64,65,1\nP,ALT,0,203,,11,12,U,1,1,0,0,16\nL,ALT,1,1,1,0,1,12,0,1\n";

/// A part in two places, the row of the later one first: the samples take their occurrences in order.
const TWO_PLACES: &[u8] =
    b"F,64,2,1\nP,A,0,1,,11,12,U,1,1,0,0,32\nL,A,1,3,10,0,1,12,0,1\nL,A,1,1,10,0,1,12,0,1\n";

/// The report of a table.
fn report_of(alloc: Global, text: &[u8]) -> Result<Vec<u8>, TableError> {
    let table = Table::read(alloc, text)?;
    let sound = check(alloc, table)?;
    Ok(report(alloc, &sound)?)
}

/// Whether a table is refused so.
fn is_refused(alloc: Global, text: &[u8], row: u32, fault: TableFault) -> bool {
    report_of(alloc, text).err() == Some(TableError::Refused(Refusal { row, fault }))
}

#[test]
fn refuses_the_first_fault(rt: HostRuntime) {
    assert!(rt; is_refused(rt.alloc(), COUNTER_BEYOND, 0, TableFault::Place));
    let first_above = TableFault::Overlap {
        first: 2,
        second: 5,
        word: 20,
        bit: 5,
    };
    assert!(rt; is_refused(rt.alloc(), TWICE_CROSSED, 5, first_above));
}

#[test]
fn reports_on_a_sound_table(rt: HostRuntime) {
    let report = report_of(rt.alloc(), TWO_PLACES).expect(&rt, "a report");
    assert!(rt; report.as_slice() == b"frame,64,1,32\nparam,A,32,even\n".as_slice());
}
