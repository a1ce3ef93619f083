//! The file that holds an image, over a storage.

ghost use Rattle.std.specs.Prelude.{◌≡◌, ◌⊎◌, ◌+◌, ◌<◌, ◌≤◌, List, ℕ, [], None, false, length, slice_range, IfOk, OnOk, OnErr, IsTrue};
ghost use Rattle.std.specs.Option.{ForSome};
ghost use Rattle.fdr_deck.specs.Disk.{IsZeros};
ghost use Rattle.fdr_storage.specs.Calls.{Keeps, Goes, StartsCall, WritesFile, TearsFile, IsFileSettled};
ghost use Rattle.fdr_storage.specs.Names.{Idles};
ghost use Rattle.fdr_storage_deck.specs.Causes.{GaveUp, NoneFailed};
ghost use Rattle.fdr_storage_deck.specs.declared.image_file.Provided.TheVariants as provided;
ghost use Rattle.fdr_storage_deck.specs.Windows.{IsStretch};
ghost use Rattle.fdr_storage_deck.specs.Runs.{HasFreshNumber, Runs, RunsBy, HasBegun, FillsPart, IsFileFilled, extent_of};

use crate::Window;
use crate::opening::{Found, open_by_name};
use crate::tries::{length, sync, sync_all, sync_name};
use crate::whole::{fill, read_whole, write_whole};
use fdr_io::Failed;
use fdr_storage::{Kind, Named, Node, Numbers};
use std::io::ErrorKind;

// What `provide` did to the file.
#[derive(Clone, Copy)]
enum Provided {
    Nothing,
    Filled,
    Made,
}

/// The file that holds an image. It is opened, and its lock taken, at the first call that needs it, for reading alone where
/// the program never writes it. Its length is asked for until it isn't 0, and kept from then on.
///
/// Of the system it relies on this. While the lock is held nothing else writes the file. A sync that succeeds makes
/// durable all that was written before it. After a sync that failed nothing is claimed, and the command ends: Linux
/// takes the pages as written from then on, so that a later sync that succeeds says nothing of them. A write over bytes
/// that are there needs no more room, which isn't so where a file system writes elsewhere, as one that copies on write.
#[derive(Drop)]
pub struct ImageFile<S: Named + Drop> {
    storage: S,
    writes: bool,
    is_open: bool,
    // Which file is open, where the system has no lock to give.
    unlocked: Option<Node>,
    // The file that it may not be, where no lock tells that it is.
    apart_from: Option<Node>,
    provided: Provided,
    // Why it refused a call by itself.
    refusal: Option<ErrorKind>,
    extent: u64,
    window: Option<Window>,
    // Its length and its name are durable.
    lasting: bool,
    ghost known: { IsTrue S.tells.bytes → 0 < extent → extent ≡ length (S.disk storage).held },
    ghost seen: { IsTrue S.tells.bytes → ForSome window (λ w. IsStretch (S.disk storage).held w.at w.room.items w.len) },
    ghost lasts: { IsTrue S.tells.stops → IsTrue lasting → IsTrue (S.disk storage).whole },
}

impl<S: Named + Drop> ImageFile<S> {
    /// The file in this storage, which isn't open yet.
    pub fn new(storage: S, writes: bool) -> Self
        ensures storage { result.storage ≡ storage }
        ensures extent { result.extent ≡ 0 }
        ensures provided { result.provided ≡ provided.Nothing }
    {
        ImageFile {
            storage,
            writes,
            is_open: false,
            unlocked: None,
            apart_from: None,
            provided: Provided::Nothing,
            refusal: None,
            extent: 0,
            window: None,
            lasting: false,
        }
    }

    /// The same file, read through this window, which is over nothing yet.
    pub fn seen_through(self, window: Window) -> Self
        requires { (held : List ℕ) → IsStretch held window.at window.room.items window.len }
        ensures storage { result.storage ≡ self.storage }
        ensures extent { result.extent ≡ self.extent }
    {
        let mut image = self;
        image.window = Some(window);
        image
    }

    // Opens the file where it isn't open. Answers whether it is there.
    fn ready(&mut self) -> Result<bool, Failed>
        ensures missing { IfOk result (λ there. there ≡ false → IsTrue S.tells.bytes → (S.disk self.new.storage).held ≡ []) }
        ensures extent { self.new.extent ≡ self.old.extent }
        ensures idles { OnOk result (Idles S.tells (S.disk self.old.storage) (S.disk self.new.storage)) }
        ensures disk { Keeps (S.disk self.old.storage) (S.disk self.new.storage) }
        ensures goes { Goes S.tells (S.disk self.old.storage) (S.disk self.new.storage) }
        ensures no_fault { OnOk result (NoneFailed S.tells (S.disk self.old.storage) (S.disk self.new.storage)) }
        ensures cause { OnErr result (GaveUp S.tells (S.disk self.old.storage) (S.disk self.new.storage)) }
    {
        if self.is_open {
            return Ok(true);
        }
        match open_by_name(&mut self.storage, self.writes)? {
            Found::Open => {
                self.is_open = true;
                Ok(true)
            }
            Found::Unlocked(node) if self.apart_from == Some(node) => {
                self.refusal = Some(ErrorKind::ResourceBusy);
                Err(Failed)
            }
            Found::Unlocked(node) => {
                self.unlocked = Some(node);
                self.is_open = true;
                Ok(true)
            }
            Found::Missing => Ok(false),
            Found::NoFile(kind) => {
                self.refusal = Some(kind_error(kind));
                Err(Failed)
            }
            Found::Link => Err(Failed),
        }
    }

    // Makes the file and takes its lock.
    fn make(&mut self) -> Result<(), Failed>
        ensures extent { self.new.extent ≡ self.old.extent }
        ensures disk { Keeps (S.disk self.old.storage) (S.disk self.new.storage) }
        ensures goes { Goes S.tells (S.disk self.old.storage) (S.disk self.new.storage) }
        ensures no_fault { OnOk result (NoneFailed S.tells (S.disk self.old.storage) (S.disk self.new.storage)) }
        ensures cause { OnErr result (GaveUp S.tells (S.disk self.old.storage) (S.disk self.new.storage)) }
    {
        self.storage.make()?;
        self.storage.lock(true)?;
        self.is_open = true;
        self.provided = Provided::Made;
        Ok(())
    }

    /// Undoes what `provide` did: a file that it made is removed, unless another has its name by now, and one that it filled is
    /// empty again. The lock is held until then, so that no other run has begun to use the file.
    pub fn discard(&mut self)
        ensures { self.old.provided ≡ provided.Nothing → self.new.storage ≡ self.old.storage }
    {
        match self.provided {
            Provided::Nothing => {}
            Provided::Filled => {
                self.forget();
                let _ = self.storage.empty();
            }
            Provided::Made => {
                self.forget();
                remove_own(&mut self.storage);
            }
        }
    }

    // What is known of the file no longer holds.
    fn forget(&mut self)
        ensures storage { self.new.storage ≡ self.old.storage }
        ensures extent { self.new.extent ≡ 0 }
        ensures window { self.new.window ≡ None }
        ensures lasting { self.new.lasting ≡ false }
    {
        self.extent = 0;
        self.window = None;
        self.lasting = false;
    }

    /// The name of the file, as it was given.
    pub fn name(&self) -> &str {
        self.storage.name()
    }

    /// Which file is open, where the system has no lock to give.
    pub fn unlocked(&self) -> Option<Node> {
        self.unlocked
    }

    /// Where this file turns out to be that one, and has no lock that would tell so, opening it is refused.
    pub fn keep_apart_from(&mut self, other: Option<Node>)
        ensures storage { self.new.storage ≡ self.old.storage }
        ensures extent { self.new.extent ≡ self.old.extent }
    {
        self.apart_from = other;
    }

    /// Why a call was refused or failed last, if one was or did.
    pub fn why(&self) -> Option<ErrorKind> {
        self.refusal.or(self.storage.last_error())
    }

    /// Begins a call: no other number is announced since.
    pub fn begin(&mut self, numbers: &mut Numbers) -> Result<(), Failed>
        ensures disk { Keeps (S.disk self.old.storage) (S.disk self.new.storage) }
        ensures extent { self.new.extent ≡ self.old.extent }
        ensures runs { Runs S.tells numbers.old numbers.new (S.disk self.old.storage) (S.disk self.new.storage) }
        ensures starts { OnOk result (StartsCall S.tells numbers.old (S.disk self.old.storage) (S.disk self.new.storage)) }
        ensures begun { OnOk result (HasBegun S.tells numbers.old numbers.new (S.disk self.new.storage)) }
        ensures no_fault { OnOk result (NoneFailed S.tells (S.disk self.old.storage) (S.disk self.new.storage)) }
        ensures cause { OnErr result (GaveUp S.tells (S.disk self.old.storage) (S.disk self.new.storage)) }
    {
        self.storage.begin(*numbers)?;
        numbers.announced.begin_anew();
        Ok(())
    }

    /// The length of the file, which is asked for until it isn't 0 and kept from then on. A file that isn't there has length 0.
    /// A link that leads to no file is there, so that this is an error.
    pub fn size(&mut self, numbers: &mut Numbers) -> Result<u64, Failed>
        ensures answer { IfOk result (λ n. n ≡ extent_of S.tells (S.disk self.new.storage) self.new.extent) }
        ensures known { 0 < self.old.extent → self.new.extent ≡ self.old.extent }
        ensures err { OnErr result (self.new.extent ≡ self.old.extent) }
        ensures disk { Keeps (S.disk self.old.storage) (S.disk self.new.storage) }
        ensures runs { Runs S.tells numbers.old numbers.new (S.disk self.old.storage) (S.disk self.new.storage) }
        ensures fresh { OnOk result (HasFreshNumber numbers.new) }
        ensures no_fault { OnOk result (NoneFailed S.tells (S.disk self.old.storage) (S.disk self.new.storage)) }
        ensures cause { OnErr result (GaveUp S.tells (S.disk self.old.storage) (S.disk self.new.storage)) }
    {
        self.begin(numbers)?;
        if self.extent == 0 && self.ready()? {
            self.extent = length(&mut self.storage)?;
        }
        Ok(self.extent)
    }

    /// Fills the buffer with the bytes from `at` on. Where no call of the system failed, but the file ended, it became shorter.
    pub fn read(&mut self, numbers: &mut Numbers, at: u64, buf: &mut [u8]) -> Result<(), Failed>
        requires { at + length buf.old ≤ extent_of S.tells (S.disk self.old.storage) self.old.extent }
        ensures reads { OnOk result (IsTrue S.tells.bytes → buf.new ≡ slice_range (S.disk self.old.storage).held at (at + length buf.new)) }
        ensures extent { self.new.extent ≡ self.old.extent }
        ensures disk { Keeps (S.disk self.old.storage) (S.disk self.new.storage) }
        ensures runs { Runs S.tells numbers.old numbers.new (S.disk self.old.storage) (S.disk self.new.storage) }
        ensures fresh { OnOk result (HasFreshNumber numbers.new) }
        ensures no_fault { OnOk result (NoneFailed S.tells (S.disk self.old.storage) (S.disk self.new.storage)) }
        ensures cause { OnErr result (GaveUp S.tells (S.disk self.old.storage) (S.disk self.new.storage)) }
    {
        let _extent = self.extent;
        self.begin(numbers)?;
        self.ready()?;
        let outcome = match &mut self.window {
            Some(window) => window.read(&mut self.storage, at, buf),
            None => read_whole(&mut self.storage, at, buf),
        };
        if outcome.is_err() && self.storage.last_error().is_none() {
            self.refusal = Some(ErrorKind::UnexpectedEof);
        }
        outcome
    }

    /// Writes the bytes over those from `at` on. A file that became shorter since its length was learned isn't made longer
    /// again: that is an error, and nothing is written.
    pub fn write(&mut self, numbers: &mut Numbers, at: u64, bytes: &[u8]) -> Result<(), Failed>
        requires { at + length bytes.now ≤ extent_of S.tells (S.disk self.old.storage) self.old.extent }
        ensures writes { OnOk result (WritesFile S.tells at bytes.now (S.disk self.old.storage) (S.disk self.new.storage)) }
        ensures tears { TearsFile S.tells at (length bytes.now) (S.disk self.old.storage) (S.disk self.new.storage) }
        ensures extent { self.new.extent ≡ self.old.extent }
        ensures runs { Runs S.tells numbers.old numbers.new (S.disk self.old.storage) (S.disk self.new.storage) }
        ensures fresh { OnOk result (HasFreshNumber numbers.new) }
        ensures no_fault { OnOk result (NoneFailed S.tells (S.disk self.old.storage) (S.disk self.new.storage)) }
        ensures cause { OnErr result (GaveUp S.tells (S.disk self.old.storage) (S.disk self.new.storage)) }
    {
        self.begin(numbers)?;
        self.ready()?;
        if length(&mut self.storage)? < self.extent {
            self.refusal = Some(ErrorKind::UnexpectedEof);
            return Err(Failed);
        }
        self.window = None;
        write_whole(&mut self.storage, at, bytes)
    }

    /// Makes durable what was written; at the first time the length and the name of the file too.
    pub fn sync(&mut self, numbers: &mut Numbers) -> Result<(), Failed>
        ensures settles { OnOk result (IsTrue S.tells.stops → IsFileSettled (S.disk self.new.storage)) }
        ensures held { (S.disk self.new.storage).held ≡ (S.disk self.old.storage).held }
        ensures no_more { (image : List ℕ) → (S.disk self.new.storage).may_leave image → (S.disk self.old.storage).may_leave image }
        ensures pending { OnErr result (Keeps (S.disk self.old.storage) (S.disk self.new.storage)) }
        ensures extent { self.new.extent ≡ self.old.extent }
        ensures runs { Runs S.tells numbers.old numbers.new (S.disk self.old.storage) (S.disk self.new.storage) }
        ensures fresh { OnOk result (HasFreshNumber numbers.new) }
        ensures no_fault { OnOk result (NoneFailed S.tells (S.disk self.old.storage) (S.disk self.new.storage)) }
        ensures cause { OnErr result (GaveUp S.tells (S.disk self.old.storage) (S.disk self.new.storage)) }
    {
        self.begin(numbers)?;
        self.ready()?;
        if self.lasting {
            return sync(&mut self.storage);
        }
        self.storage.open_folder()?;
        self.sync_first()
    }

    // Makes durable the bytes, the length and the name, whose folder is open.
    fn sync_first(&mut self) -> Result<(), Failed>
        ensures settles { OnOk result (IsTrue S.tells.stops → IsFileSettled (S.disk self.new.storage)) }
        ensures held { (S.disk self.new.storage).held ≡ (S.disk self.old.storage).held }
        ensures no_more { (image : List ℕ) → (S.disk self.new.storage).may_leave image → (S.disk self.old.storage).may_leave image }
        ensures pending { OnErr result (Keeps (S.disk self.old.storage) (S.disk self.new.storage)) }
        ensures extent { self.new.extent ≡ self.old.extent }
        ensures goes { Goes S.tells (S.disk self.old.storage) (S.disk self.new.storage) }
        ensures no_fault { OnOk result (NoneFailed S.tells (S.disk self.old.storage) (S.disk self.new.storage)) }
        ensures cause { OnErr result (GaveUp S.tells (S.disk self.old.storage) (S.disk self.new.storage)) }
    {
        sync_all(&mut self.storage)?;
        sync_name(&mut self.storage)?;
        self.lasting = true;
        Ok(())
    }

    // Opens the folder, and the file, which is there and empty or is made.
    fn take_empty(&mut self) -> Result<(), Failed>
        ensures empty { OnOk result (IsTrue S.tells.bytes → length (S.disk self.new.storage).held ≡ 0) }
        ensures extent { self.new.extent ≡ self.old.extent }
        ensures disk { Keeps (S.disk self.old.storage) (S.disk self.new.storage) }
        ensures goes { Goes S.tells (S.disk self.old.storage) (S.disk self.new.storage) }
        ensures no_fault { OnOk result (NoneFailed S.tells (S.disk self.old.storage) (S.disk self.new.storage)) }
        ensures cause { OnErr result (extent_of S.tells (S.disk self.old.storage) self.old.extent ≡ 0
            → GaveUp S.tells (S.disk self.old.storage) (S.disk self.new.storage)) }
    {
        self.storage.open_folder()?;
        if !self.ready()? {
            return self.make();
        }
        if length(&mut self.storage)? > 0 {
            self.refusal = Some(ErrorKind::AlreadyExists);
            return Err(Failed);
        }
        self.provided = Provided::Filled;
        Ok(())
    }

    /// Gives an empty file this many zeros, or makes it with them, and makes durable that it, they and its name are there. Their
    /// room is taken now. Where the length is known and isn't 0, this does nothing.
    /// A file that isn't empty though nothing was known of it is an error, and stays as it is.
    pub fn provide(&mut self, numbers: &mut Numbers, size: u64) -> Result<(), Failed>
        ensures filled { OnOk result (extent_of S.tells (S.disk self.old.storage) self.old.extent ≡ 0 → IsFileFilled S.tells size (S.disk self.new.storage)) }
        ensures size { OnOk result (extent_of S.tells (S.disk self.old.storage) self.old.extent ≡ 0 → self.new.extent ≡ size) }
        ensures part { OnErr result (extent_of S.tells (S.disk self.old.storage) self.old.extent ≡ 0
            → FillsPart S.tells size (S.disk self.old.storage) (S.disk self.new.storage)) }
        ensures err { OnErr result (self.new.extent ≡ self.old.extent) }
        ensures extent { 0 < extent_of S.tells (S.disk self.old.storage) self.old.extent → self.new.extent ≡ self.old.extent }
        ensures disk { 0 < extent_of S.tells (S.disk self.old.storage) self.old.extent → Keeps (S.disk self.old.storage) (S.disk self.new.storage) }
        ensures runs { RunsBy S.tells
            (λ image. (S.disk self.old.storage).may_leave image ⊎ ((extent_of S.tells (S.disk self.old.storage) self.old.extent ≡ 0) × IsZeros size image))
            numbers.old numbers.new (S.disk self.old.storage) (S.disk self.new.storage) }
        ensures fresh { OnOk result (HasFreshNumber numbers.new) }
        ensures no_fault { OnOk result (NoneFailed S.tells (S.disk self.old.storage) (S.disk self.new.storage)) }
        ensures cause { OnErr result (extent_of S.tells (S.disk self.old.storage) self.old.extent ≡ 0
            → GaveUp S.tells (S.disk self.old.storage) (S.disk self.new.storage)) }
    {
        self.begin(numbers)?;
        if self.extent > 0 {
            return Ok(());
        }
        self.take_empty()?;
        self.window = None;
        self.lasting = false;
        fill(&mut self.storage, size)?;
        self.sync_first()?;
        self.extent = size;
        Ok(())
    }
}

// Takes the name of the file that is open away, unless it is another's by now.
fn remove_own<S: Named>(named: &mut S) {
    if let (Ok(own), Ok(look)) = (named.look_at_open(), named.look())
        && own.node == look.node
    {
        let _ = named.remove();
    }
}

fn kind_error(kind: Kind) -> ErrorKind {
    match kind {
        Kind::Folder => ErrorKind::IsADirectory,
        Kind::File | Kind::Other => ErrorKind::InvalidInput,
    }
}
