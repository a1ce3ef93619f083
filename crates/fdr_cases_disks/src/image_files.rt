//! Files that hold images, as decks.

use crate::calls::{Call, DONE, FAILED, Given, Step};
use crate::fakes::OtherFolder;
use crate::file_decks::{Calls, Meanwhile, NO_CALLS, passes};
use crate::on_disk::{has_at, holds, is_there, put, remove};
use fdr_adapters::{deck_over, image_over};
use fdr_storage_deck::Window;
use std::fs;
use std::fs::File;
use std::io::{ErrorKind, sink};
use std::os::unix::fs::{MetadataExt, symlink};
use std::process::Abort;
use std::rt::Files;

/// What is at a path before, calls of a disk over it, and what is at the path then.
#[derive(Clone, Copy)]
struct Case<'a> {
    path: &'a str,
    before: Option<&'a [u8]>,
    writes: bool,
    calls: Calls<'a>,
    left: Option<&'a [u8]>,
}

/// Whether exactly this is at the path. It is removed.
fn is_left(rt: &(impl Files + AllocGlobal + Abort), path: &str, left: Option<&[u8]>) -> bool {
    match left {
        Some(bytes) => {
            let is_held = holds(rt, path, bytes);
            remove(rt, path);
            is_held
        }
        None => !is_there(rt, path),
    }
}

/// Whether all is as the case says, on these files.
fn is_so(
    rt: &(impl Files<File = File> + AllocGlobal + Abort),
    files: &impl Files<File = File>,
    case: &Case<'_>,
) -> bool {
    if let Some(bytes) = case.before {
        put(rt, case.path, bytes);
    }
    let deck = deck_over(
        image_over(files, case.path, case.writes),
        b"".as_slice(),
        sink(),
    );
    passes(rt, case.path, deck, &case.calls) && is_left(rt, case.path, case.left)
}

/// A path at which nothing is before, nor then.
const CASE: Case<'static> = Case {
    path: "image.bin",
    before: None,
    writes: true,
    calls: NO_CALLS,
    left: None,
};

/// An image that is made.
const MAKE: Step<'static> = (Call::Provide(4100), DONE);

/// Why a look at a file failed that is missing.
const MISSING: Option<ErrorKind> = Some(ErrorKind::NotFound);

/// An image that isn't made.
const REFUSED: Step<'static> = (Call::Provide(4100), FAILED);

/// A write to it that fails.
const UNWRITTEN: Step<'static> = (Call::Write(4095, &[7, 8]), FAILED);

/// An image that is made, whose file becomes shorter then, and is written to.
const SHORTENED: Calls<'static> = Calls {
    first: &[MAKE],
    meanwhile: Meanwhile::Put(b"abc"),
    then: &[UNWRITTEN],
    why: Some(ErrorKind::UnexpectedEof),
    discards: true,
};

/// An image that can't be made, as there are bytes.
const NOT_EMPTY: Calls<'static> = Calls {
    first: &[REFUSED],
    why: Some(ErrorKind::AlreadyExists),
    discards: true,
    ..NO_CALLS
};

/// A look at a file of four bytes.
const LOOK: Calls<'static> = Calls {
    first: &[(Call::Size, Ok(Given::Size(4)))],
    discards: true,
    ..NO_CALLS
};

const BUSY: Option<ErrorKind> = Some(ErrorKind::ResourceBusy);

const CASES: &[Case<'static>] = &[
    // what was made is discarded, and what was there stays
    Case {
        calls: Calls {
            first: &[(Call::Size, Ok(Given::Size(0))), MAKE],
            why: MISSING,
            discards: true,
            ..NO_CALLS
        },
        ..CASE
    },
    Case {
        before: Some(b"used"),
        calls: LOOK,
        left: Some(b"used"),
        ..CASE
    },
    Case {
        before: Some(b"used"),
        calls: NOT_EMPTY,
        left: Some(b"used"),
        ..CASE
    },
    Case {
        before: Some(b"used"),
        writes: false,
        calls: NOT_EMPTY,
        left: Some(b"used"),
        ..CASE
    },
    // a lock that another holds is an error
    Case {
        calls: Calls {
            first: &[MAKE],
            meanwhile: Meanwhile::Ask(&[(true, BUSY), (false, BUSY)]),
            why: MISSING,
            discards: true,
            ..NO_CALLS
        },
        ..CASE
    },
    Case {
        before: Some(b"used"),
        writes: false,
        calls: Calls {
            meanwhile: Meanwhile::Ask(&[(false, None), (true, BUSY)]),
            ..LOOK
        },
        left: Some(b"used"),
        ..CASE
    },
    // a file that became shorter isn't made longer
    Case {
        calls: Calls {
            discards: false,
            ..SHORTENED
        },
        left: Some(b"abc"),
        ..CASE
    },
    Case {
        calls: SHORTENED,
        ..CASE
    },
    // one that was there stays, and is empty
    Case {
        before: Some(b""),
        calls: SHORTENED,
        left: Some(b""),
        ..CASE
    },
    // a name that another file got in the meantime stays
    Case {
        calls: Calls {
            first: &[MAKE],
            meanwhile: Meanwhile::Replace(b"other"),
            why: MISSING,
            discards: true,
            ..NO_CALLS
        },
        left: Some(b"other"),
        ..CASE
    },
];

#[test]
fn a_file_holds_an_image(rt: HostRuntime) {
    for case in CASES {
        assert!(rt; is_so(&rt, &rt, case));
    }
    remove(&rt, "moved.bin");
}

/// An image that can't be made in its folder.
const UNMADE: Calls<'static> = Calls {
    first: &[REFUSED],
    discards: true,
    ..NO_CALLS
};

/// A folder that can't be opened, and one that can't be synced.
const FOLDERS: &[(&str, ErrorKind)] = &[
    ("missing", ErrorKind::NotFound),
    ("/dev/null", ErrorKind::InvalidInput),
];

#[test]
fn an_image_that_cannot_be_made_leaves_no_file(rt: HostRuntime) {
    for &(folder, kind) in FOLDERS {
        let files = OtherFolder::new(&rt, folder);
        let why = Some(kind);
        // One that was there stays, and is empty.
        for left in [None, Some(b"".as_slice())] {
            let case = Case {
                before: left,
                calls: Calls { why, ..UNMADE },
                left,
                ..CASE
            };
            assert!(rt; is_so(&rt, &files, &case), "{folder}");
        }
    }
}

/// What is no file, and why a disk over it fails. A device has no length of its own, so that it would count as an empty file, and
/// a link to no file is no missing image.
const NO_FILES: &[(&str, ErrorKind)] = &[
    ("/dev/null", ErrorKind::InvalidInput),
    (".", ErrorKind::IsADirectory),
    ("link.bin", ErrorKind::NotFound),
];

/// Whether a disk writes, and a call of it that fails.
const REFUSED_CALLS: &[(bool, &[Step<'static>])] = &[
    (false, &[(Call::Size, FAILED)]),
    (true, &[(Call::Size, FAILED)]),
    (true, &[REFUSED]),
];

/// Whether the disk over the file at this path answers so.
fn passes_at(
    rt: &(impl Files<File = File> + Abort),
    path: &str,
    writes: bool,
    calls: &Calls<'_>,
) -> bool {
    let deck = deck_over(image_over(rt, path, writes), b"".as_slice(), sink());
    passes(rt, path, deck, calls)
}

/// Whether such calls of a disk over what is no file fail for this.
fn is_refused(rt: &(impl Files<File = File> + Abort), path: &str, kind: ErrorKind) -> bool {
    for &(writes, first) in REFUSED_CALLS {
        let why = Some(kind);
        let calls = Calls {
            first,
            why,
            ..NO_CALLS
        };
        if !passes_at(rt, path, writes, &calls) {
            return false;
        }
    }
    true
}

#[test]
fn what_is_no_file_is_refused(rt: HostRuntime) {
    symlink(&rt, "target.bin", "link.bin").expect(&rt, "a link");
    for &(path, kind) in NO_FILES {
        assert!(rt; is_refused(&rt, path, kind), "{path}");
    }
    assert!(rt; !is_there(&rt, "target.bin"));
    remove(&rt, "link.bin");
}

/// An image that is made, and two bytes over the border of a page of it.
const STORED: Calls<'static> = Calls {
    first: &[
        MAKE,
        (Call::Read(4096), Ok(Given::Bytes([0; 4]))),
        (Call::Write(4095, &[7, 8]), DONE),
        (Call::Sync, DONE),
        (Call::Read(4094), Ok(Given::Bytes([0, 7, 8, 0]))),
    ],
    why: MISSING,
    ..NO_CALLS
};

/// The file then, before these bytes and after them.
fn is_stored(rt: &(impl Files + AllocGlobal + Abort), path: &str) -> bool {
    has_at(rt, path, 0, &[0; 4095]) && has_at(rt, path, 4095, &[7, 8, 0, 0, 0])
}

/// Whether the file takes the room of its bytes on the disk, and others than its owner and its group may not open it, and its group
/// not for writing.
fn is_taken(rt: &(impl Files + Abort), path: &str) -> bool {
    let file = fs::metadata(rt, path).expect(rt, "a file");
    file.len() == 4100 && file.blocks() >= 9 && file.mode() & 0o137 == 0
}

#[test]
fn the_room_of_an_image_is_taken(rt: HostRuntime) {
    let path = "room.bin";
    assert!(rt; passes_at(&rt, path, true, &STORED) && is_stored(&rt, path) && is_taken(&rt, path));
    remove(&rt, path);
}

/// Puts a file of so many numbers.
fn put_numbers(rt: &(impl Files + AllocGlobal + Abort), path: &str, count: usize) {
    let mut bytes = vec![in rt.alloc(); 0u8; count].expect(rt, "the numbers");
    for (number, byte) in bytes.iter_mut().enumerate() {
        *byte = (number % 251) as u8;
    }
    put(rt, path, &bytes);
}

/// Reads of such a file in a window, over its end, before it, far from it and near the read before, and at the end of the file.
/// The file becomes shorter then.
const READS: Calls<'static> = Calls {
    first: &[
        (Call::Read(0), Ok(Given::Bytes([0, 1, 2, 3]))),
        (Call::Read(65_532), Ok(Given::Bytes([21, 22, 23, 24]))),
        (Call::Read(65_534), Ok(Given::Bytes([23, 24, 25, 26]))),
        (Call::Read(8), Ok(Given::Bytes([8, 9, 10, 11]))),
        (Call::Read(70_000), Ok(Given::Bytes([222, 223, 224, 225]))),
        (Call::Read(70_008), Ok(Given::Bytes([230, 231, 232, 233]))),
        (Call::Read(74_000), Ok(Given::Bytes([206, 207, 208, 209]))),
        (Call::Read(139_996), Ok(Given::Bytes([189, 190, 191, 192]))),
    ],
    meanwhile: Meanwhile::Put(&[0, 1, 2, 3, 4, 5, 6, 7, 8, 9, 10, 11]),
    then: &[
        (Call::Read(8), Ok(Given::Bytes([8, 9, 10, 11]))),
        (Call::Read(70_000), FAILED),
    ],
    why: Some(ErrorKind::UnexpectedEof),
    ..NO_CALLS
};

/// Whether the disk over the file at this path answers so, seen through a window.
fn passes_seen(
    rt: &(impl Files<File = File> + AllocGlobal + Abort),
    path: &str,
    calls: &Calls<'_>,
) -> bool {
    let window = Window::new(rt.alloc()).expect(rt, "a window");
    let image = image_over(rt, path, false).seen_through(window);
    passes(rt, path, deck_over(image, b"".as_slice(), sink()), calls)
}

#[test]
fn a_window_gives_the_bytes_of_the_file(rt: HostRuntime) {
    let path = "window.bin";
    put_numbers(&rt, path, 140_000);
    assert!(rt; passes_seen(&rt, path, &READS));
    remove(&rt, path);
}
