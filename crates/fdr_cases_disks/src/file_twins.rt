//! The twin over two files.

use crate::calls::{Call, DONE, FAILED, Given};
use crate::fakes::OtherFolder;
use crate::on_disk::{has_at, put, remove};
use crate::twins::{SideStep, gives_by_side};
use fdr_adapters::{StorageTwin, image_over, twin_over};
use fdr_storage::{Named, Stream};
use fdr_twin::{Side, Twin};
use std::fs::File;
use std::io::{ErrorKind, Write};
use std::process::Abort;
use std::rt::Files;

/// Two files, of which the second may become shorter between two calls of a twin over them.
#[derive(Clone, Copy)]
struct Case<'a> {
    first: &'a str,
    second: &'a str,
    steps: &'a [SideStep<'a>],
    is_cut: bool,
    then: &'a [SideStep<'a>],
    /// What the twin says, and why a call of each side did nothing, where that was no fault.
    said: &'a [u8],
    why: (Option<ErrorKind>, Option<ErrorKind>),
}

/// Whether the calls of the twin are answered so.
fn answers<T: Twin>(rt: &(impl Files + Abort), twin: &mut T, case: &Case<'_>) -> bool {
    let is_begun = gives_by_side(twin, case.steps);
    if case.is_cut {
        put(rt, case.second, b"abc");
    }
    is_begun && gives_by_side(twin, case.then)
}

/// The same, with the causes.
fn passes<S: Named + Drop, I: Stream + Drop, A: Write + Drop>(
    rt: &(impl Files + Abort),
    twin: StorageTwin<S, I, A>,
    case: &Case<'_>,
) -> bool {
    let mut twin = twin;
    answers(rt, &mut twin, case) && (twin.why(Side::First), twin.why(Side::Second)) == case.why
}

/// Whether all is as the case says, on these files.
fn is_so(
    rt: &(impl Files<File = File> + AllocGlobal + Abort),
    files: &impl Files<File = File>,
    case: &Case<'_>,
) -> bool {
    let mut said = Vec::new(rt.alloc());
    let first = image_over(files, case.first, true);
    let second = image_over(files, case.second, true);
    let twin = twin_over(first, second, b"abc".as_slice(), &mut said);
    passes(rt, twin, case) && said.as_slice() == case.said
}

/// Two files that stay whole, and nothing is said.
const CASE: Case<'static> = Case {
    first: "first.img",
    second: "second.img",
    steps: &[],
    is_cut: false,
    then: &[],
    said: b"",
    why: (None, None),
};

/// Bytes that each side keeps, and a pull.
const KEPT: Case<'static> = Case {
    steps: &[
        (Side::First, Call::Write(50, &[7]), DONE),
        (Side::First, Call::Sync, DONE),
        (Side::First, Call::Read(49), Ok(Given::Bytes([0, 7, 0, 0]))),
        (Side::Second, Call::Write(50, &[8]), DONE),
        (Side::Second, Call::Sync, DONE),
        (Side::Second, Call::Read(49), Ok(Given::Bytes([0, 8, 0, 0]))),
        (Side::Second, Call::Pull, Ok(Given::Pulled(3, *b"abc"))),
    ],
    ..CASE
};

/// The first side goes on alone, where the second became shorter.
const CUT: Case<'static> = Case {
    steps: &[
        (Side::Second, Call::Write(50, &[8]), DONE),
        (Side::Second, Call::Sync, DONE),
    ],
    is_cut: true,
    then: &[
        (Side::Second, Call::Write(50, &[9]), FAILED),
        (Side::Second, Call::Write(50, &[9]), FAILED),
        (Side::First, Call::Write(50, &[9]), DONE),
        (Side::First, Call::Sync, DONE),
        (Side::First, Call::Read(49), Ok(Given::Bytes([0, 9, 0, 0]))),
        (Side::First, Call::Announce(3), DONE),
    ],
    said: b"fdrpair: second.img: became shorter\nfault second\nack 3\n",
    ..CASE
};

/// A file that is missing is no fault.
const MISSING: Case<'static> = Case {
    second: "missing.img",
    steps: &[
        (Side::First, Call::Size, Ok(Given::Size(100))),
        (Side::Second, Call::Size, Ok(Given::Size(0))),
    ],
    why: (None, Some(ErrorKind::NotFound)),
    ..CASE
};

/// Whether the first file has this byte at its place, and the second that one.
fn have(rt: &(impl Files + AllocGlobal + Abort), first: u8, second: u8) -> bool {
    has_at(rt, CASE.first, 50, &[first]) && has_at(rt, CASE.second, 50, &[second])
}

/// Whether all is so of two files that are there.
fn are_files(rt: &(impl Files<File = File> + AllocGlobal + Abort)) -> bool {
    is_so(rt, rt, &KEPT) && have(rt, 7, 8) && is_so(rt, rt, &CUT) && is_so(rt, rt, &MISSING)
}

#[test]
fn each_side_is_a_file(rt: HostRuntime) {
    put(&rt, CASE.first, &[0; 100]);
    put(&rt, CASE.second, &[0; 100]);
    assert!(rt; are_files(&rt));
    remove(&rt, CASE.first);
    remove(&rt, CASE.second);
}

/// The calls of a disk.
const CALLS: &[Call<'static>] = &[
    Call::Size,
    Call::Provide(100),
    Call::ReadNothing,
    Call::WriteNothing,
    Call::Sync,
];

/// Each side, and what is said of it where it is a folder.
const FOLDERS: &[(Side, &[u8])] = &[
    (Side::First, b"fdrpair: .: is a folder\nfault first\n"),
    (Side::Second, b"fdrpair: .: is a folder\nfault second\n"),
];

#[test]
fn each_call_that_fails_is_told_of_its_side_once(rt: HostRuntime) {
    for call in CALLS {
        for &(side, said) in FOLDERS {
            let step = (side, *call, FAILED);
            let case = Case {
                first: ".",
                second: ".",
                steps: &[step, step],
                said,
                ..CASE
            };
            assert!(rt; is_so(&rt, &rt, &case));
        }
    }
}

/// A folder that isn't there and one that is no folder, and what is said of the first side, whose name can't be synced in it.
const OTHER_FOLDERS: &[(&str, &[u8])] = &[
    (
        "missing",
        b"fdrpair: first.img: no such file\nfault first\n",
    ),
    (
        "/dev/null",
        b"fdrpair: first.img: is no file\nfault first\n",
    ),
];

/// A first sync of a file, which is one of its name too.
const SYNC: Case<'static> = Case {
    steps: &[
        (Side::First, Call::WriteNothing, DONE),
        (Side::First, Call::Sync, FAILED),
    ],
    ..CASE
};

#[test]
fn a_sync_that_is_not_whole_is_a_fault(rt: HostRuntime) {
    put(&rt, CASE.first, &[0; 100]);
    for &(folder, said) in OTHER_FOLDERS {
        let case = Case { said, ..SYNC };
        assert!(rt; is_so(&rt, &OtherFolder::new(&rt, folder), &case));
    }
    remove(&rt, CASE.first);
}
