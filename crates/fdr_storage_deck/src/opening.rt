//! A file that is opened by its name.

ghost use Rattle.std.specs.Prelude.{◌≡◌, false, IfOk, OnOk, OnErr, IsTrue};
ghost use Rattle.fdr_storage.specs.Names.{Idles, Fails};
ghost use Rattle.fdr_storage_deck.specs.Finds.{Agrees};

use fdr_io::Failed;
use fdr_storage::{Absence, Kind, Lock, Named, Node};

/// What opening a file by its name found.
#[derive(Clone, Copy, Debug, PartialEq, Eq)]
pub enum Found {
    /// A file, which is open and whose lock is taken.
    Open,
    /// This file, which is open. The system has no lock to give.
    Unlocked(Node),
    /// Nothing has this name.
    Missing,
    /// What has this name is no file.
    NoFile(Kind),
    /// A link that leads to nothing.
    Link,
}

/// Opens the file of this name, for this run alone where it writes it, and takes its lock. What is there and is no file isn't
/// opened: a named pipe would be waited for, and a device has no length of its own.
pub fn open_by_name<S: Named>(named: &mut S, writes: bool) -> Result<Found, Failed>
    ensures found { IfOk result (λ found. IsTrue S.tells.bytes → Agrees found (S.there named.new)) }
    ensures idles { OnOk result (Idles S.tells (S.disk named.old) (S.disk named.new)) }
    ensures fails { OnErr result (Fails S.tells (S.disk named.old) (S.disk named.new)) }
{
    match named.look() {
        Ok(look) => match look.kind {
            Kind::File => open_file(named, writes),
            kind => Ok(Found::NoFile(kind)),
        },
        Err(Absence::NotFound) => find_link(named),
        Err(Absence::Failed) => Err(Failed),
    }
}

// Opens what is a file, unless it became something else, or nothing, since it was looked at.
fn open_file<S: Named>(named: &mut S, writes: bool) -> Result<Found, Failed>
    ensures found { IfOk result (λ found. IsTrue S.tells.bytes → Agrees found (S.there named.new)) }
    ensures idles { OnOk result (Idles S.tells (S.disk named.old) (S.disk named.new)) }
    ensures fails { OnErr result (Fails S.tells (S.disk named.old) (S.disk named.new)) }
{
    match named.open(writes) {
        Ok(()) => lock_file(named, writes),
        Err(Absence::NotFound) => find_link(named),
        Err(Absence::Failed) => Err(Failed),
    }
}

// Takes the lock of what is open, where that is a file.
fn lock_file<S: Named>(named: &mut S, alone: bool) -> Result<Found, Failed>
    ensures found { IfOk result (λ found. IsTrue S.tells.bytes → Agrees found (S.there named.new)) }
    ensures idles { OnOk result (Idles S.tells (S.disk named.old) (S.disk named.new)) }
    ensures fails { OnErr result (Fails S.tells (S.disk named.old) (S.disk named.new)) }
{
    let look = named.look_at_open()?;
    match look.kind {
        Kind::File => {}
        kind => return Ok(Found::NoFile(kind)),
    }
    match named.lock(alone)? {
        Lock::Taken => Ok(Found::Open),
        Lock::Missing => Ok(Found::Unlocked(look.node)),
    }
}

// Whether there is nothing, or a link that leads to nothing.
fn find_link<S: Named>(named: &mut S) -> Result<Found, Failed>
    requires { IsTrue S.tells.bytes → S.there named.old ≡ false }
    ensures found { IfOk result (λ found. IsTrue S.tells.bytes → Agrees found (S.there named.new)) }
    ensures idles { OnOk result (Idles S.tells (S.disk named.old) (S.disk named.new)) }
    ensures fails { OnErr result (Fails S.tells (S.disk named.old) (S.disk named.new)) }
{
    match named.look_at_name() {
        Ok(()) => Ok(Found::Link),
        Err(Absence::NotFound) => Ok(Found::Missing),
        Err(Absence::Failed) => Err(Failed),
    }
}
