//! What is done with a file by its name.

ghost use Rattle.std.specs.Prelude.{◌≡◌, Bool, [], true, false, length, IfOk, IfErr, OnOk, OnErr, IsTrue};
ghost use Rattle.fdr_storage.specs.Names.{Idles, Fails, Misses, IsAbsent};
ghost use Rattle.fdr_storage.specs.declared.named.Kind.TheVariants as kind;
ghost use Rattle.fdr_storage.specs.declared.named.Lock.TheVariants as lock;

use crate::Storage;
use fdr_io::Failed;
use std::io::ErrorKind;

/// What has a name, or is open.
#[derive(Clone, Copy, Debug, PartialEq, Eq)]
pub enum Kind {
    File,
    Folder,
    /// A device, a named pipe or a socket.
    Other,
}

/// Which file of the system it is: two names lead to one file where both numbers are the same.
#[derive(Clone, Copy, Debug, PartialEq, Eq)]
pub struct Node {
    pub device: u64,
    pub number: u64,
}

/// What was seen at a look.
#[derive(Clone, Copy, Debug, PartialEq, Eq)]
pub struct Look {
    pub kind: Kind,
    pub node: Node,
}

/// Why a call by name did nothing of what it is for.
#[derive(Clone, Copy, Debug, PartialEq, Eq)]
pub enum Absence {
    /// Nothing has this name, or it is a link that leads to nothing.
    NotFound,
    /// It failed.
    Failed,
}

/// What came of taking a lock.
#[derive(Clone, Copy, Debug, PartialEq, Eq)]
pub enum Lock {
    Taken,
    /// The system has no lock to give, as on some file systems.
    Missing,
}

/// A storage that is a file by its name. A call of the storage before the file is open fails. What isn't there has no
/// bytes.
pub trait Named: Storage {
    // Whether there is something of this name, where it is told.
    ghost there: { Self → Bool };

    /// The name, as it was given.
    fn name(&self) -> &str;

    /// What has this name. A link is followed.
    fn look(&mut self) -> Result<Look, Absence>
        ensures file { IfOk result (λ look. IsTrue Self.tells.bytes → look.kind ≡ kind.File) }
        ensures idles { OnOk result (Idles Self.tells (Self.disk self.old) (Self.disk self.new)) }
        ensures misses { IfErr result (λ absence. Misses Self.tells absence (Self.disk self.old) (Self.disk self.new)) }
        ensures absent { IfErr result (λ absence. IsAbsent Self.tells absence (there self.old)) }
        ensures there { there self.new ≡ there self.old };

    /// Whether something has this name, be it a link that leads to nothing.
    fn look_at_name(&mut self) -> Result<(), Absence>
        ensures found { OnOk result (IsTrue Self.tells.bytes → there self.old ≡ true) }
        ensures idles { OnOk result (Idles Self.tells (Self.disk self.old) (Self.disk self.new)) }
        ensures misses { IfErr result (λ absence. Misses Self.tells absence (Self.disk self.old) (Self.disk self.new)) }
        ensures absent { IfErr result (λ absence. IsAbsent Self.tells absence (there self.old)) }
        ensures there { there self.new ≡ there self.old };

    /// Opens the file, for reading alone or for writing too.
    fn open(&mut self, writes: bool) -> Result<(), Absence>
        ensures idles { OnOk result (Idles Self.tells (Self.disk self.old) (Self.disk self.new)) }
        ensures misses { IfErr result (λ absence. Misses Self.tells absence (Self.disk self.old) (Self.disk self.new)) }
        ensures absent { IfErr result (λ absence. IsAbsent Self.tells absence (there self.old)) }
        ensures there { there self.new ≡ there self.old };

    /// What is open.
    fn look_at_open(&mut self) -> Result<Look, Failed>
        ensures file { IfOk result (λ look. IsTrue Self.tells.bytes → look.kind ≡ kind.File) }
        ensures idles { OnOk result (Idles Self.tells (Self.disk self.old) (Self.disk self.new)) }
        ensures fails { OnErr result (Fails Self.tells (Self.disk self.old) (Self.disk self.new)) }
        ensures there { there self.new ≡ there self.old };

    /// Takes the lock of the whole file that is open, for this run alone or shared with others. It fails where another run
    /// holds it in a way that forbids this. The system takes a lock back when the file is closed, and so at the end of the
    /// run, however it ends.
    fn lock(&mut self, alone: bool) -> Result<Lock, Failed>
        ensures taken { IfOk result (λ got. IsTrue Self.tells.bytes → got ≡ lock.Taken) }
        ensures idles { OnOk result (Idles Self.tells (Self.disk self.old) (Self.disk self.new)) }
        ensures fails { OnErr result (Fails Self.tells (Self.disk self.old) (Self.disk self.new)) }
        ensures there { there self.new ≡ there self.old };

    /// Opens the folder that has the name, so that the name can be made durable.
    fn open_folder(&mut self) -> Result<(), Failed>
        ensures idles { OnOk result (Idles Self.tells (Self.disk self.old) (Self.disk self.new)) }
        ensures fails { OnErr result (Fails Self.tells (Self.disk self.old) (Self.disk self.new)) }
        ensures there { there self.new ≡ there self.old };

    /// Makes an empty file of this name, and opens it for reading and writing. It fails where something has this name.
    fn make(&mut self) -> Result<(), Failed>
        ensures made { OnOk result (IsTrue Self.tells.bytes → there self.old ≡ false) }
        ensures idles { OnOk result (Idles Self.tells (Self.disk self.old) (Self.disk self.new)) }
        ensures fails { OnErr result (Fails Self.tells (Self.disk self.old) (Self.disk self.new)) };

    /// Takes all bytes from the file that is open.
    fn empty(&mut self) -> Result<(), Failed>
        ensures empty { OnOk result (IsTrue Self.tells.bytes → (Self.disk self.new).held ≡ []) };

    /// Takes the name away.
    fn remove(&mut self) -> Result<(), Failed>
        ensures gone { OnOk result (IsTrue Self.tells.bytes → there self.new ≡ false) };

    /// The kind of the last error, if there was one.
    fn last_error(&self) -> Option<ErrorKind>;

    // What isn't there has no bytes.
    ghost absent: { (named : Self) → IsTrue Self.tells.bytes → there named ≡ false → (Self.disk named).held ≡ [] };
}
