//! Worked bits, words and fields.

use fdr_bits::{bit, get_bits, pack_pair, put_bits, word12};

#[test]
fn packs_and_reads_words(rt: HostRuntime) {
    let bytes = pack_pair(0x247, 0x123);
    assert!(rt;
        bytes == [0x47, 0x32, 0x12]
            && word12(&bytes, 0) == 0x247
            && word12(&bytes, 12) == 0x123
            && word12(&bytes, 5) == 0x192
    );
    for (p, is_set) in [
        (0, true),
        (3, false),
        (6, true),
        (9, true),
        (20, true),
        (23, false),
    ] {
        assert!(rt; bit(&bytes, p) == is_set, "{p}");
    }
}

#[test]
fn writes_and_reads_fields(rt: HostRuntime) {
    assert!(rt;
        put_bits(0xfff, 5, 4, 0x3) == 0xf3f
            && put_bits(0x000, 12, 1, 1) == 0x800
            && put_bits(0x123, 1, 12, 0xabc) == 0xabc
            && get_bits(0xf3f, 5, 4) == 0x3
            && get_bits(0xabc, 9, 4) == 0xa
    );
}
