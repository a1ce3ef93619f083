//! Worked lines.

use fdr_io::{MemSink, OutBuffer};
use fdr_listing::{Line, NumberTexts, ShortText, gap_line, put_row, row_line, value_text};
use fdr_recon::Row;
use fdr_table::Name;
use std::alloc::Global;
use std::process::Abort;

/// Values, their decimals and their texts.
const VALUES: &[(i64, u8, &[u8])] = &[
    (0, 0, b"0"),
    (0, 1, b"0.0"),
    (-1, 1, b"-0.1"),
    (12345, 0, b"12345"),
    (12345, 2, b"123.45"),
    (5, 9, b"0.000000005"),
    (i64::MIN, 9, b"-9223372036.854775808"),
];

#[test]
fn writes_values(rt: HostRuntime) {
    for &(value, decimals, text) in VALUES {
        assert!(rt;
            decimals <= 9 && value_text(value, decimals).bytes() == text,
            "{value}, {decimals}"
        );
    }
}

#[tactic(auto, using(fdr_line::proofs::Lengths::numbers))]
#[test]
fn writes_lines(rt: HostRuntime) {
    let name = Name::new(b"VRTG").expect(&rt, "a name");
    let row = Row {
        counter: 4095,
        subframe: 4,
        word: 1024,
        param: 0,
        value: -1,
    };
    let mut line = Line::new();
    line.add(b"frames ");
    line.add_number(0);
    assert!(rt;
        row_line(&row, &name, 3).bytes() == b"row,4095,4,1024,VRTG,-0.001\n".as_slice()
            && gap_line(0, 3072).bytes() == b"gap,0,3072\n".as_slice()
            && line.bytes() == b"frames 0".as_slice()
    );
}

/// The line of a row out of texts that are ready.
fn put_together(rt: &impl Abort, alloc: Global, row: &Row, name: &Name, decimals: u8) -> Vec<u8> {
    assert!(rt; row.counter < 4096 && row.subframe <= 4 && row.word <= 1024 && decimals <= 9);
    let mut buffer = OutBuffer::new(alloc).expect(rt, "memory");
    let numbers = NumberTexts::new(alloc).expect(rt, "memory");
    let start = ShortText::row_start(row.counter);
    let place = ShortText::row_place(row.subframe, row.word);
    put_row(&mut buffer, &numbers, &start, &place, name, row, decimals);
    let mut sink = MemSink::new(alloc, Vec::new(alloc));
    buffer.finish(&mut sink).expect(rt, "a write");
    Vec::from_slice(alloc, sink.bytes()).expect(rt, "memory")
}

/// Whether these are a row's line.
fn is_line_of(rt: &impl Abort, line: &[u8], row: &Row, name: &Name, decimals: u8) -> bool {
    assert!(rt; row.counter < 4096 && row.subframe <= 4 && row.word <= 1024 && decimals <= 9);
    line == row_line(row, name, decimals).bytes()
}

/// Counters, subframes, words, values, and their decimals.
const ROWS: &[(u16, u8, u32, i64, u8)] = &[
    (0, 1, 1, 0, 0),
    (7, 2, 10, -1, 0),
    (89, 3, 999, -1, 1),
    (4095, 4, 1024, i64::MIN, 9),
    (512, 4, 64, i64::MAX, 2),
    (1, 1, 2, 4095, 0),
    (1, 1, 2, 4096, 0),
    (1, 1, 2, -40959, 1),
    (1, 1, 2, 409605, 2),
    (1, 1, 2, 5, 3),
    (1, 1, 2, -4096099, 3),
    (1, 1, 2, 10001, 4),
];

/// The shortest name and a longest one.
const NAMES: &[&[u8]] = &[b"A", b"SIXTEEN_LETTERS_"];

#[test]
fn puts_together_the_line_of_a_row(rt: HostRuntime) {
    for &name in NAMES {
        let name = Name::new(name).expect(&rt, "a name");
        for &(counter, subframe, word, value, decimals) in ROWS {
            let row = Row {
                counter,
                subframe,
                word,
                param: 0,
                value,
            };
            let line = put_together(&rt, rt.alloc(), &row, &name, decimals);
            assert!(rt;
                is_line_of(&rt, &line, &row, &name, decimals),
                "{counter}, {value}"
            );
        }
    }
}
