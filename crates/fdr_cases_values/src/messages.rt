//! The texts of faults. The cases of whole commands have each of them, with the name of the program `fdr`.

use fdr_bus::TraceFault;
use fdr_messages::{image_message, table_message, trace_message, words_message};
use fdr_slot::ImageFault;
use fdr_table::TableFault;

#[test]
fn says_what_is_wrong(rt: HostRuntime) {
    let overlap = TableFault::Overlap {
        first: u32::MAX - 1,
        second: u32::MAX,
        word: 7,
        bit: 12,
    };
    assert!(rt;
        table_message(b"fdr", u32::MAX, &overlap).bytes()
            == b"fdr: table row 4294967295: overlap with row 4294967294 at word 7 bit 12".as_slice()
            && trace_message(b"fdrpair", 2, &TraceFault::Back).bytes()
                == b"fdrpair: trace record 2: time goes back".as_slice()
            && image_message(b"fdr", &ImageFault::Short).bytes()
                == b"fdr: image: shorter than its ring".as_slice()
            && words_message(b"fdr", 64, 128).bytes()
                == b"fdr: image has 64 words, table has 128".as_slice()
    );
}
