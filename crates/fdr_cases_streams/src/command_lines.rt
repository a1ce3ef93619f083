//! Worked command lines. Their words are parted by one space.

use fdr_words::{Request, WordsFault, read_words};
use std::process::Abort;

fn read(rt: &(impl Abort + AllocGlobal), line: &str) -> Result<Request, WordsFault> {
    let mut args = Vec::new(rt.alloc());
    for word in line.split(' ') {
        let arg = word.to_string(rt.alloc()).expect(rt, "a word");
        args.push(arg).expect(rt, "room for a word");
    }
    read_words(rt.alloc(), args.as_slice())
}

/// The name of the command that is asked for.
fn command_of(request: &Request) -> &'static str {
    match request {
        Request::CheckTable { .. } => "check",
        Request::StreamLine { .. } => "stream",
        Request::ListBits { .. } => "listbits",
        Request::Encode => "encode",
        Request::Decode => "decode",
        Request::FormatImage { .. } => "format",
        Request::RecordLine { .. } => "record",
        Request::RecoverImage { .. } => "recover",
        Request::ListImage { .. } => "list",
        Request::Drill { .. } => "drill",
        Request::Upgrade { .. } => "upgrade",
        Request::Salvage { .. } => "salvage",
        Request::Exceed { .. } => "exceed",
    }
}

/// The numbers of the two options, 0 where the command has none.
fn numbers_of(request: &Request) -> (u64, u32) {
    match request {
        Request::FormatImage { slots, payload, .. } => (u64::from(*slots), *payload),
        Request::Drill { seed, frames, .. } => (*seed, *frames),
        Request::Salvage {
            ring: Some((slots, payload)),
            ..
        } => (u64::from(*slots), *payload),
        _ => (0, 0),
    }
}

/// Whether this is what a line asks for: the command, the table and the image that it names, its numbers, and whether it writes.
fn asks_for(
    rt: &(impl Abort + AllocGlobal),
    line: &str,
    command: &str,
    (table, image): (Option<&str>, Option<&str>),
    numbers: (u64, u32),
    writes: bool,
) -> bool {
    let request = read(rt, line).expect(rt, line);
    command_of(&request) == command
        && request.table() == table
        && request.image() == image
        && numbers_of(&request) == numbers
        && request.writes() == writes
}

/// Lines, the table and the image that they name, and whether the image is written.
const COMMANDS: &[(&str, Option<&str>, Option<&str>, bool)] = &[
    ("check t1.csv", Some("t1.csv"), None, false),
    ("stream t1.csv", Some("t1.csv"), None, false),
    ("listbits t1.csv", Some("t1.csv"), None, false),
    ("encode", None, None, false),
    ("decode", None, None, false),
    ("record t1.csv a.img", Some("t1.csv"), Some("a.img"), true),
    ("recover a.img", None, Some("a.img"), false),
    ("list t1.csv a.img", Some("t1.csv"), Some("a.img"), false),
    ("upgrade a.img", None, Some("a.img"), true),
    ("salvage t1.csv a.img", Some("t1.csv"), Some("a.img"), false),
    ("exceed t1.csv a.img", Some("t1.csv"), Some("a.img"), false),
];

#[test]
fn reads_each_command(rt: HostRuntime) {
    for &(line, table, image, writes) in COMMANDS {
        let (command, _) = line.split_once(' ').unwrap_or((line, ""));
        assert!(rt;
            asks_for(&rt, line, command, (table, image), (0, 0), writes),
            "{line}"
        );
    }
}

/// Lines, their commands, and the numbers of their two options.
const OPTIONS: &[(&str, &str, (u64, u32))] = &[
    ("format t i --payload=64 --slots 016", "format", (16, 64)),
    (
        "--slots=16 format --payload 0000000064 t i",
        "format",
        (16, 64),
    ),
    (
        "format --slots 65536 t --payload 4096 i",
        "format",
        (65_536, 4096),
    ),
    ("format t i --slots 4 --payload 64", "format", (4, 64)),
    ("drill t i --seed 1 --frames 10", "drill", (1, 10)),
    ("drill t i --frames=10 --seed=1", "drill", (1, 10)),
    ("--frames 0000000010 drill --seed=01 t i", "drill", (1, 10)),
    ("drill t i --seed=0 --frames=1", "drill", (0, 1)),
    (
        "drill t --seed=4294967295 i --frames=100000",
        "drill",
        (4_294_967_295, 100_000),
    ),
    ("salvage t i --slots 16 --payload 64", "salvage", (16, 64)),
    (
        "--payload=4096 salvage t --slots=65536 i",
        "salvage",
        (65_536, 4096),
    ),
];

#[test]
fn reads_options_anywhere(rt: HostRuntime) {
    for &(line, command, numbers) in OPTIONS {
        let writes = command != "salvage";
        assert!(rt;
            asks_for(&rt, line, command, (Some("t"), Some("i")), numbers, writes),
            "{line}"
        );
    }
}

/// Lines that are refused.
const REFUSED: &[&str] = &[
    "",
    "listbits",
    "listbits t more",
    "listbits ",
    "check -",
    "check --",
    "--help t",
    "--version",
    "stream",
    "encode t",
    "decode --slots 16",
    "encodes",
    "record t",
    "record t i --slots 16",
    "record t i --seed 1",
    "record t i more",
    "list t",
    "list t i --slots 16",
    "list t i more",
    "lists t i",
    "recover i --slots 16",
    "recover t i",
    "format t i",
    "format t i --slots 16",
    "format t i --slots 16 --slots 16 --payload 64",
    "format t i --slots=16 --payload=",
    "format t i --slots=16 --payload",
    "format t i --payload --slots=16 64",
    "format t i --slots 3 --payload 64",
    "format t i --slots 65537 --payload 64",
    "format t i --slots 4 --payload 63",
    "format t i --slots 4 --payload 4097",
    "format t i --slots 00000000004 --payload 64",
    "format t i --slots +4 --payload 64",
    "format t i --seed=1 --frames=1",
    "drill t i",
    "drill t i --seed 1",
    "drill t i --frames 1",
    "drill t --seed=1 --frames=1",
    "drill t i --seed=1 --frames=0",
    "drill t i --seed=1 --frames=100001",
    "drill t i --seed=4294967296 --frames=1",
    "drill t i --seed=1 --seed=1",
    "drill t i --slots=16 --payload=64",
    "upgrade",
    "upgrade t i",
    "upgrade i --slots 16",
    "salvage",
    "salvage t",
    "salvage t i more",
    "salvage t i --slots 16",
    "salvage t i --payload 64",
    "salvage t i --slots 3 --payload 64",
    "salvage t i --slots 16 --payload 4097",
    "salvage t i --seed=1 --frames=1",
    "exceed t",
    "exceed t i more",
    "exceed t i --slots 16 --payload 64",
];

#[test]
fn refuses_other_words(rt: HostRuntime) {
    for &line in REFUSED {
        assert!(rt; read(&rt, line).err() == Some(WordsFault::Usage), "{line}");
    }
    let none = read_words(rt.alloc(), &[]);
    assert!(rt; none.err() == Some(WordsFault::Usage));
}

#[test]
fn refuses_any_number_of_words(rt: HostRuntime) {
    let mut args = Vec::new(rt.alloc());
    for _ in 0..20_000 {
        let arg = "check".to_string(rt.alloc()).expect(&rt, "a word");
        args.push(arg).expect(&rt, "room for a word");
    }
    let answer = read_words(rt.alloc(), args.as_slice());
    assert!(rt; answer.err() == Some(WordsFault::Usage));
}
