//! Worked tables: what is read of their rows, which texts are the same table, which are refused, and values by them.

use fdr_table::{Name, Param, PathText, Place, Refusal, Table, TableError, TableFault};
use std::alloc::Global;
use std::process::Abort;

/// One parameter of 12 bits in one word of each frame.
const ALT: &[u8] = b"F,64,2,1\nP,ALT,0,203,,11,12,U,1,1,0,0,16\nL,ALT,1,1,10,0,1,12,0,1\n";

/// Two parameters, with the limits of most fields.
const LIMITS: &[u8] =
    b"F,1024,1024,4\nP,Z9._-,255,377,3,1,32,S,-1000000000,1000000000,-1000000000000000,9,262144\nP,B,0,0,,32,1,U,1000000000,1,1000000000000000,0,1\nL,B,4,24,1024,0,12,1,0,1\nL,Z9._-,1,1234,1,1024,1,12,15,16\n";

/// Whether this is the parameter of the table `ALT`.
fn is_altitude(param: &Param) -> bool {
    param.name.bytes() == b"ALT".as_slice()
        && (param.bus, param.label, param.sdi) == (0, 0o203, None)
        && (param.lsb, param.width, param.signed) == (11, 12, false)
        && (param.num, param.den, param.offset) == (1, 1, 0)
        && (param.decimals, param.rate, param.row) == (0, 16, 1)
        && (param.age, param.tells) == (None, false)
}

/// Whether this is the place of the table `ALT`.
fn is_altitude_place(place: &Place) -> bool {
    (place.param, place.part, place.subs) == (0, 1, 1)
        && (place.word, place.step) == (10, 0)
        && (place.lsb, place.width) == (1, 12)
        && (place.cycle, place.period, place.row) == (0, 1, 2)
}

#[test]
fn reads_a_table(rt: HostRuntime) {
    let table = Table::read(rt.alloc(), ALT).expect(&rt, "a table");
    let frame = table.frame();
    assert!(rt;
        (frame.words, frame.cword, frame.csub) == (64, 2, 1)
            && table.rows() == 3
            && matches!(table.params(), [param] if is_altitude(param))
            && matches!(table.places(), [place] if is_altitude_place(place))
    );
}

/// Whether this is the first parameter of the table `LIMITS`.
fn is_wide(param: &Param) -> bool {
    param.name.bytes() == b"Z9._-".as_slice()
        && (param.bus, param.label, param.sdi) == (255, 0o377, Some(3))
        && (param.lsb, param.width, param.signed) == (1, 32, true)
        && (param.num, param.den) == (-1_000_000_000, 1_000_000_000)
        && param.offset == -1_000_000_000_000_000
        && (param.decimals, param.rate, param.row) == (9, 262_144, 1)
}

/// Whether this is the second parameter of the table `LIMITS`.
fn is_narrow(param: &Param) -> bool {
    param.name.bytes() == b"B".as_slice()
        && (param.label, param.lsb, param.width) == (0, 32, 1)
        && (param.num, param.offset) == (1_000_000_000, 1_000_000_000_000_000)
}

/// Whether these are the places of the table `LIMITS`.
fn are_at_limits(first: &Place, second: &Place) -> bool {
    (first.param, first.part, first.subs) == (1, 4, 10)
        && (first.word, first.lsb, first.row) == (1024, 12, 3)
        && (second.param, second.part, second.subs) == (0, 1, 15)
        && (second.word, second.step) == (1, 1024)
        && (second.cycle, second.period, second.row) == (15, 16, 4)
}

#[test]
fn reads_fields_at_their_limits(rt: HostRuntime) {
    let table = Table::read(rt.alloc(), LIMITS).expect(&rt, "a table");
    let frame = table.frame();
    assert!(rt;
        (frame.words, frame.cword, frame.csub) == (1024, 1024, 4)
            && table.rows() == 5
            && matches!(table.params(), [wide, narrow] if is_wide(wide) && is_narrow(narrow))
            && matches!(table.places(), [first, second] if are_at_limits(first, second))
    );
}

/// A table whose second row is that of a parameter with this width, this sign and these fields after its rate.
fn with_param(rt: &(impl Abort + AllocGlobal), width: &str, sign: &str, rest: &str) -> String {
    let text = format!(in rt.alloc(); "F,64,2,1\nP,OK,0,203,,11,{width},{sign},1,1,0,0,16{rest}\n");
    text.expect(rt, "a text")
}

/// Widths, signs and the fields after the rate, and what is read of them: whether it is signed, its age, and whether it tells.
const SIGNS: &[(&str, &str, &str, bool, Option<u64>, bool)] = &[
    ("12", "U", "", false, None, false),
    ("12", "S", ",", true, None, false),
    ("1", "U", ",1", false, Some(1), false),
    ("1", "S", ",064000000", true, Some(64_000_000), false),
    ("1", "V", "", false, None, true),
    ("1", "V", ",2000000", false, Some(2_000_000), true),
];

#[test]
fn reads_signs_and_ages(rt: HostRuntime) {
    for &(width, sign, rest, signed, age, tells) in SIGNS {
        let text = with_param(&rt, width, sign, rest);
        let table = Table::read(rt.alloc(), text.as_bytes()).expect(&rt, "a table");
        let param = table.params().first().expect(&rt, "a parameter");
        assert!(rt;
            (param.signed, param.age, param.tells) == (signed, age, tells),
            "{text}"
        );
    }
}

/// Whether this is another text of the table `ALT`.
fn is_alt(alloc: Global, text: &[u8]) -> bool {
    let Ok(table) = Table::read(alloc, text) else {
        return false;
    };
    let ([param], [place]) = (table.params(), table.places()) else {
        return false;
    };
    table.frame().words == 64
        && table.rows() == 3
        && param.name.bytes() == b"ALT".as_slice()
        && param.sdi.is_none()
        && param.offset == 0
        && (place.word, place.period, place.row) == (10, 1, 2)
}

/// Other texts of the table `ALT`.
const TEXTS: &[&[u8]] = &[
    b"F,64,2,1\nP,ALT,0,203,,11,12,U,1,1,0,0,16\nL,ALT,1,1,10,0,1,12,0,1",
    b"F,64,2,1\rP,ALT,0,203,,11,12,U,1,1,0,0,16\rL,ALT,1,1,10,0,1,12,0,1\r",
    b"F,64,2,1\r\nP,ALT,0,203,,11,12,U,1,1,0,0,16\r\nL,ALT,1,1,10,0,1,12,0,1\r\n",
    b"\xEF\xBB\xBFF,64,2,1\nP,ALT,0,203,,11,12,U,1,1,0,0,16\nL,ALT,1,1,10,0,1,12,0,1\n",
    b"\n\nF,64,2,1\n\r\n\nP,ALT,0,203,,11,12,U,1,1,0,0,16\nL,ALT,1,1,10,0,1,12,0,1\n\n",
    b"\"F\",64,\"2\",1\nP,\"A\"LT,0,203,\"\",11,12,U,1,1,0,0,16\nL,ALT,1,1,10,0,1,12,0,\"1",
    b"F,0064,02,1\nP,ALT,000,203,,11,0012,U,1,1,-0,0,16\nL,ALT,1,1,10,0,1,12,0,01\n",
];

#[test]
fn reads_other_texts_of_the_same_table(rt: HostRuntime) {
    for &text in TEXTS {
        assert!(rt; is_alt(rt.alloc(), text));
    }
}

/// Whether the table is refused so.
fn is_refused(alloc: Global, text: &[u8], row: u32, fault: TableFault) -> bool {
    Table::read(alloc, text).err() == Some(TableError::Refused(Refusal { row, fault }))
}

/// Texts, the row that is refused, and its first fault.
const FAULTS: &[(&str, u32, TableFault)] = &[
    ("P,A B,0,203,,11,12,U,1,1,0,0,16\n", 0, TableFault::NoFrame),
    ("F,64,1025,5\n", 0, TableFault::Number { field: 2 }),
    (
        "F,64,2,1\nP,A B,0,400,,11,12,U,1,1,0,0,0\n",
        1,
        TableFault::Number { field: 3 },
    ),
    (
        "F,64,2,1\nP,A B,0,203,,11,12,U,1,1,0,0,0\n",
        1,
        TableFault::Number { field: 12 },
    ),
    (
        "F,64,2,1\nL,A,1,1, 10,0,1,12,0,1\n",
        1,
        TableFault::Number { field: 4 },
    ),
    (
        "F,64,2,1\nL,A,1,1,10,0,1,12,5,3\n",
        1,
        TableFault::Number { field: 9 },
    ),
    (
        "F,64,2,1\nL,A,1,1,10,0,1,12,16,3\n",
        1,
        TableFault::Number { field: 8 },
    ),
    (
        "F,64,2,1\nL,A,1,1,10,0,1,12,4,4\n",
        1,
        TableFault::Number { field: 8 },
    ),
];

#[test]
fn refuses_the_first_fault_of_a_row(rt: HostRuntime) {
    for &(text, row, fault) in FAULTS {
        assert!(rt;
            is_refused(rt.alloc(), text.as_bytes(), row, fault),
            "{text}"
        );
    }
}

/// Widths, signs and the fields after the rate, and the field that is refused.
const REFUSED_SIGNS: &[(&str, &str, &str, u8)] = &[
    ("33", "V", "", 6),
    ("1", "v", "", 7),
    ("1", "U", ",-1", 13),
    ("1", "U", ", ", 13),
];

#[test]
fn refuses_signs_and_ages(rt: HostRuntime) {
    for &(width, sign, rest, field) in REFUSED_SIGNS {
        let text = with_param(&rt, width, sign, rest);
        let fault = TableFault::Number { field };
        assert!(rt; is_refused(rt.alloc(), text.as_bytes(), 1, fault), "{text}");
    }
}

#[test]
fn reads_a_table_of_the_most_bytes(rt: HostRuntime) {
    let most = vec![in rt.alloc(); b'X'; 1_048_576].expect(&rt, "the most bytes");
    assert!(rt; is_refused(rt.alloc(), most.as_slice(), 0, TableFault::Shape));
    let over = vec![in rt.alloc(); b'X'; 1_048_577].expect(&rt, "a byte more");
    assert!(rt; is_refused(rt.alloc(), over.as_slice(), 0, TableFault::Size));
}

/// What is wrong with a table of the first row and then `count` rows with a parameter each.
fn fault_of_params(rt: &(impl Abort + AllocGlobal), count: u32) -> Option<TableError> {
    let mut text = "F,64,2,1\n".to_string(rt.alloc()).expect(rt, "a text");
    for i in 0..count {
        let row = format!(in rt.alloc(); "P,N{i},0,203,,11,12,U,1,1,0,0,16\n").expect(rt, "a row");
        text.push_str(row.as_str()).expect(rt, "room for a row");
    }
    Table::read(rt.alloc(), text.as_bytes()).err()
}

/// What is wrong with the table `ALT` with `count` places in place of its own.
fn fault_of_places(rt: &(impl Abort + AllocGlobal), count: u32) -> Option<TableError> {
    let rows = "F,64,2,1\nP,ALT,0,203,,11,12,U,1,1,0,0,16\n";
    let mut text = rows.to_string(rt.alloc()).expect(rt, "a text");
    for _ in 0..count {
        text.push_str("L,ALT,1,1,10,0,1,12,0,1\n")
            .expect(rt, "room for a row");
    }
    Table::read(rt.alloc(), text.as_bytes()).err()
}

/// A table is refused for its size at this row.
fn too_many(row: u32) -> Option<TableError> {
    Some(TableError::Refused(Refusal {
        row,
        fault: TableFault::Size,
    }))
}

#[test]
fn refuses_too_many_rows(rt: HostRuntime) {
    assert!(rt;
        fault_of_params(&rt, 2048) == None
            && fault_of_params(&rt, 2049) == too_many(2049)
            && fault_of_places(&rt, 8192) == None
            && fault_of_places(&rt, 8193) == too_many(8194)
    );
}

/// The value of a raw number that the first parameter of a table can hold.
fn first_value(rt: &(impl Abort + AllocGlobal), text: &[u8], raw: u32) -> i64 {
    let table = Table::read(rt.alloc(), text).expect(rt, "a table");
    let param = table.params().first().expect(rt, "a parameter");
    value_at(param, raw).expect(rt, "a value")
}

/// The value of a raw number that the parameter's field can hold.
fn value_at(param: &Param, raw: u32) -> Option<i64> {
    if 1 << param.width <= u64::from(raw) {
        return None;
    }
    Some(param.value(raw))
}

#[test]
fn values_are_rounded_down(rt: HostRuntime) {
    let signed: &[u8] = b"F,64,2,1\nP,A,0,1,,11,12,S,1,2,0,0,1\n";
    let unsigned: &[u8] = b"F,64,2,1\nP,A,0,1,,11,12,U,1,2,0,0,1\n";
    let falling: &[u8] = b"F,64,2,1\nP,A,0,1,,11,12,U,-1,3,7,2,1\n";
    assert!(rt;
        first_value(&rt, signed, 0) == 0
            && first_value(&rt, signed, 0x7FF) == 1023
            && first_value(&rt, signed, 0x800) == -1024
            && first_value(&rt, signed, 0xFFF) == -1
            && first_value(&rt, unsigned, 0xFFF) == 2047
            && first_value(&rt, falling, 1) == 6
    );
}

/// An altitude whose values are half of its twelve bits, with their sign, in tenths.
const HALVES: &[u8] = b"F,64,2,1\nP,ALT,0,203,,11,12,S,1,2,0,1,16\nL,ALT,1,1,10,0,1,12,0,1\n";

#[test]
fn half_of_minus_one_is_minus_one_tenth(rt: HostRuntime) {
    let table = Table::read(rt.alloc(), HALVES).expect(&rt, "a table");
    assert!(rt;
        matches!(table.params(), [param] if param.decimals == 1)
            && first_value(&rt, HALVES, 0xFFF) == -1
            && first_value(&rt, HALVES, 0) == 0
    );
}

#[test]
fn values_at_the_limits(rt: HostRuntime) {
    let highest: &[u8] = b"F,64,2,1\nP,A,0,1,,1,32,U,1000000000,1,1000000000000000,0,1\n";
    let lowest: &[u8] = b"F,64,2,1\nP,A,0,1,,1,32,U,-1000000000,1,-1000000000000000,0,1\n";
    let signed: &[u8] = b"F,64,2,1\nP,A,0,1,,1,32,S,1000000000,1,-1000000000000000,0,1\n";
    assert!(rt;
        first_value(&rt, highest, 0xFFFF_FFFF) == 4_295_967_295_000_000_000
            && first_value(&rt, lowest, 0xFFFF_FFFF) == -4_295_967_295_000_000_000
            && first_value(&rt, signed, 0x8000_0000) == -2_148_483_648_000_000_000
    );
}

#[test]
fn names_and_paths(rt: HostRuntime) {
    let longest = Name::new(b"ABCabc019_-.WXYZ").expect(&rt, "16 bytes");
    assert!(rt;
        longest.bytes() == b"ABCabc019_-.WXYZ".as_slice()
            && longest.copied().bytes() == b"ABCabc019_-.WXYZ".as_slice()
            && Name::new(b"ABCabc019_-.WXYZ0").is_none()
            && Name::new(b"").is_none()
            && Name::new(b"A B").is_none()
    );
    let path = PathText::new(rt.alloc(), "t1.csv").expect(&rt, "a path");
    assert!(rt; path.text() == "t1.csv");
}
