//! Worked command lines. Their words are parted by one space.

use fdr_pair::{PairRequest, PairWordsFault, read_pair_words};
use std::process::Abort;

fn read(rt: &(impl Abort + AllocGlobal), line: &str) -> Result<PairRequest, PairWordsFault> {
    let mut words = Vec::new(rt.alloc());
    for word in line.split(' ') {
        let word = word.to_string(rt.alloc()).expect(rt, "a word");
        words.push(word).expect(rt, "room");
    }
    read_pair_words(rt.alloc(), words.as_slice())
}

/// Lines, and the paths that they name.
const PATHS: &[(&str, &str, &str, &str)] = &[
    ("record t1.csv a.img b.img", "t1.csv", "a.img", "b.img"),
    ("record t a a", "t", "a", "a"),
    ("record record record record", "record", "record", "record"),
    ("record t.csv disk/a=-1 b-", "t.csv", "disk/a=-1", "b-"),
];

#[test]
fn reads_three_paths(rt: HostRuntime) {
    for &(line, table, first, second) in PATHS {
        let request = read(&rt, line).expect(&rt, line);
        assert!(rt;
            request.table.text() == table
                && request.first.text() == first
                && request.second.text() == second,
            "{line}"
        );
    }
}

/// Lines that are refused.
const REFUSED: &[&str] = &[
    "",
    "record",
    "record t",
    "record t a",
    "record t a b more",
    "record t a b ",
    " record t a b",
    "record  a b",
    "record t  b",
    "record t a ",
    "record - a b",
    "record t -a b",
    "record t a --",
    "record t a --slots",
    "record t a b --slots 16",
    "record -- t a b",
    "-record t a b",
    "--seed=1 t a b",
    "Record t a b",
    "records t a b",
    "recor t a b",
    "list t a b",
    "t a b record",
];

#[test]
fn refuses_other_words(rt: HostRuntime) {
    for &line in REFUSED {
        let answer = read(&rt, line);
        assert!(rt; answer.err() == Some(PairWordsFault::Usage), "{line}");
    }
    let none = read_pair_words(rt.alloc(), &[]);
    assert!(rt; none.err() == Some(PairWordsFault::Usage));
}
