//! The header of an image of version 1, which no command makes.

use fdr_slot::{Header, in_limits, write_header};

const FIRST: Header = Header {
    slots: 4,
    payload: 64,
    words: 64,
    version: 1,
};

const NO_VERSION: Header = Header {
    version: 0,
    ..FIRST
};

const THIRD: Header = Header {
    version: 3,
    ..FIRST
};

/// The gate, the version, the magic, and how many slots of how many bytes there are for subframes of how many words.
const START: [u8; 20] = [
    0x5a, 0, 0x46, 0x44, 0x52, 0x37, 0x31, 0x37, 0, 0, 0, 4, 0, 0, 0, 0x40, 0, 0, 0, 0x40,
];

#[test]
fn a_header_of_version_1_is_written(rt: HostRuntime) {
    let bytes = write_header(&FIRST);
    assert!(rt;
        bytes.starts_with(&START)
            && bytes[20..] == [0; 44]
            && in_limits(&FIRST)
            && !in_limits(&NO_VERSION)
            && !in_limits(&THIRD)
    );
}
