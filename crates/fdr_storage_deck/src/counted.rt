//! The file that holds an image, and the count of its faults.

ghost use Rattle.std.specs.Prelude.{◌≡◌, ◌⊎◌, ◌+◌, ◌<◌, ◌≤◌, List, ℕ, length, slice_range, IfOk, IsErr, OnOk, OnErr, IsTrue};
ghost use Rattle.fdr_io.specs.Faults.{next_count};
ghost use Rattle.fdr_deck.specs.Disk.{IsZeros};
ghost use Rattle.fdr_storage.specs.Calls.{Keeps, StartsCall, WritesFile, TearsFile, IsFileSettled};
ghost use Rattle.fdr_storage_deck.specs.Causes.{GaveUp, NoneFailed};
ghost use Rattle.fdr_storage_deck.specs.Runs.{HasFreshNumber, Runs, RunsBy, HasBegun, FillsPart, IsFileFilled, extent_of};

use crate::ImageFile;
use fdr_io::Failed;
use fdr_storage::{Named, Numbers};
use std::io::ErrorKind;

/// The file that holds an image, with the count of its calls that failed. No call counts a fault but where one of the storage
/// failed.
#[derive(Drop)]
pub struct CountedFile<S: Named + Drop> {
    image: ImageFile<S>,
    faults: u64,
}

/// An error is a fault, which is counted.
pub fn count<T: Drop>(faults: &mut u64, outcome: Result<T, Failed>) -> Result<T, Failed>
    ensures value { IfOk result (λ x. outcome ≡ Ok x) }
    ensures failed { OnErr result (IsErr outcome) }
    ensures no_fault { OnOk result (faults.new ≡ faults.old) }
    ensures counted { OnErr result (faults.new ≡ next_count faults.old) }
    ensures monotone { faults.old ≤ faults.new }
{
    if outcome.is_err() {
        *faults = faults.saturating_add(1);
    }
    outcome
}

impl<S: Named + Drop> CountedFile<S> {
    /// This file, of which no call failed yet.
    pub fn new(image: ImageFile<S>) -> Self
        ensures image { result.image ≡ image }
        ensures faults { result.faults ≡ 0 }
    {
        CountedFile { image, faults: 0 }
    }

    /// Begins a call: no other number is announced since.
    pub fn begin(&mut self, numbers: &mut Numbers) -> Result<(), Failed>
        ensures disk { Keeps (S.disk self.old.image.storage) (S.disk self.new.image.storage) }
        ensures extent { self.new.image.extent ≡ self.old.image.extent }
        ensures runs { Runs S.tells numbers.old numbers.new (S.disk self.old.image.storage) (S.disk self.new.image.storage) }
        ensures starts { OnOk result (StartsCall S.tells numbers.old (S.disk self.old.image.storage) (S.disk self.new.image.storage)) }
        ensures begun { OnOk result (HasBegun S.tells numbers.old numbers.new (S.disk self.new.image.storage)) }
        ensures no_fault { OnOk result (NoneFailed S.tells (S.disk self.old.image.storage) (S.disk self.new.image.storage)) }
        ensures cause { OnErr result (GaveUp S.tells (S.disk self.old.image.storage) (S.disk self.new.image.storage)) }
        ensures faults { self.new.faults ≡ self.old.faults }
    {
        self.image.begin(numbers)
    }

    /// The length of the file, which is asked for until it isn't 0 and kept from then on. A file that isn't there has length 0.
    /// A link that leads to no file is there, so that this is an error.
    pub fn size(&mut self, numbers: &mut Numbers) -> Result<u64, Failed>
        ensures answer { IfOk result (λ n. n ≡ extent_of S.tells (S.disk self.new.image.storage) self.new.image.extent) }
        ensures known { 0 < self.old.image.extent → self.new.image.extent ≡ self.old.image.extent }
        ensures err { OnErr result (self.new.image.extent ≡ self.old.image.extent) }
        ensures disk { Keeps (S.disk self.old.image.storage) (S.disk self.new.image.storage) }
        ensures runs { Runs S.tells numbers.old numbers.new (S.disk self.old.image.storage) (S.disk self.new.image.storage) }
        ensures fresh { OnOk result (HasFreshNumber numbers.new) }
        ensures no_fault { OnOk result (NoneFailed S.tells (S.disk self.old.image.storage) (S.disk self.new.image.storage)) }
        ensures cause { OnErr result (GaveUp S.tells (S.disk self.old.image.storage) (S.disk self.new.image.storage)) }
        ensures kept { OnOk result (self.new.faults ≡ self.old.faults) }
        ensures counted { OnErr result (self.new.faults ≡ next_count self.old.faults) }
        ensures monotone { self.old.faults ≤ self.new.faults }
    {
        let outcome = self.image.size(numbers);
        count(&mut self.faults, outcome)
    }

    /// Fills the buffer with the bytes from `at` on.
    pub fn read(&mut self, numbers: &mut Numbers, at: u64, buf: &mut [u8]) -> Result<(), Failed>
        requires { at + length buf.old ≤ extent_of S.tells (S.disk self.old.image.storage) self.old.image.extent }
        ensures reads { OnOk result (IsTrue S.tells.bytes → buf.new ≡ slice_range (S.disk self.old.image.storage).held at (at + length buf.new)) }
        ensures extent { self.new.image.extent ≡ self.old.image.extent }
        ensures disk { Keeps (S.disk self.old.image.storage) (S.disk self.new.image.storage) }
        ensures runs { Runs S.tells numbers.old numbers.new (S.disk self.old.image.storage) (S.disk self.new.image.storage) }
        ensures fresh { OnOk result (HasFreshNumber numbers.new) }
        ensures no_fault { OnOk result (NoneFailed S.tells (S.disk self.old.image.storage) (S.disk self.new.image.storage)) }
        ensures cause { OnErr result (GaveUp S.tells (S.disk self.old.image.storage) (S.disk self.new.image.storage)) }
        ensures kept { OnOk result (self.new.faults ≡ self.old.faults) }
        ensures counted { OnErr result (self.new.faults ≡ next_count self.old.faults) }
        ensures monotone { self.old.faults ≤ self.new.faults }
    {
        let outcome = self.image.read(numbers, at, buf);
        count(&mut self.faults, outcome)
    }

    /// Writes the bytes over those from `at` on. A file that became shorter since its length was learned isn't made longer
    /// again: that is an error, and nothing is written.
    pub fn write(&mut self, numbers: &mut Numbers, at: u64, bytes: &[u8]) -> Result<(), Failed>
        requires { at + length bytes.now ≤ extent_of S.tells (S.disk self.old.image.storage) self.old.image.extent }
        ensures writes { OnOk result (WritesFile S.tells at bytes.now (S.disk self.old.image.storage) (S.disk self.new.image.storage)) }
        ensures tears { TearsFile S.tells at (length bytes.now) (S.disk self.old.image.storage) (S.disk self.new.image.storage) }
        ensures extent { self.new.image.extent ≡ self.old.image.extent }
        ensures runs { Runs S.tells numbers.old numbers.new (S.disk self.old.image.storage) (S.disk self.new.image.storage) }
        ensures fresh { OnOk result (HasFreshNumber numbers.new) }
        ensures no_fault { OnOk result (NoneFailed S.tells (S.disk self.old.image.storage) (S.disk self.new.image.storage)) }
        ensures cause { OnErr result (GaveUp S.tells (S.disk self.old.image.storage) (S.disk self.new.image.storage)) }
        ensures kept { OnOk result (self.new.faults ≡ self.old.faults) }
        ensures counted { OnErr result (self.new.faults ≡ next_count self.old.faults) }
        ensures monotone { self.old.faults ≤ self.new.faults }
    {
        let outcome = self.image.write(numbers, at, bytes);
        count(&mut self.faults, outcome)
    }

    /// Makes durable what was written; at the first time the length and the name of the file too.
    pub fn sync(&mut self, numbers: &mut Numbers) -> Result<(), Failed>
        ensures settles { OnOk result (IsTrue S.tells.stops → IsFileSettled (S.disk self.new.image.storage)) }
        ensures held { (S.disk self.new.image.storage).held ≡ (S.disk self.old.image.storage).held }
        ensures no_more { (image : List ℕ) → (S.disk self.new.image.storage).may_leave image → (S.disk self.old.image.storage).may_leave image }
        ensures pending { OnErr result (Keeps (S.disk self.old.image.storage) (S.disk self.new.image.storage)) }
        ensures extent { self.new.image.extent ≡ self.old.image.extent }
        ensures runs { Runs S.tells numbers.old numbers.new (S.disk self.old.image.storage) (S.disk self.new.image.storage) }
        ensures fresh { OnOk result (HasFreshNumber numbers.new) }
        ensures no_fault { OnOk result (NoneFailed S.tells (S.disk self.old.image.storage) (S.disk self.new.image.storage)) }
        ensures cause { OnErr result (GaveUp S.tells (S.disk self.old.image.storage) (S.disk self.new.image.storage)) }
        ensures kept { OnOk result (self.new.faults ≡ self.old.faults) }
        ensures counted { OnErr result (self.new.faults ≡ next_count self.old.faults) }
        ensures monotone { self.old.faults ≤ self.new.faults }
    {
        let outcome = self.image.sync(numbers);
        count(&mut self.faults, outcome)
    }

    /// Gives an empty file this many zeros, or makes it with them, and makes durable that it, they and its name are there. Their
    /// room is taken now. Where the length is known and isn't 0, this does nothing.
    /// A file that isn't empty though nothing was known of it is an error, and stays as it is.
    pub fn provide(&mut self, numbers: &mut Numbers, size: u64) -> Result<(), Failed>
        ensures filled { OnOk result (extent_of S.tells (S.disk self.old.image.storage) self.old.image.extent ≡ 0 → IsFileFilled S.tells size (S.disk self.new.image.storage)) }
        ensures size { OnOk result (extent_of S.tells (S.disk self.old.image.storage) self.old.image.extent ≡ 0 → self.new.image.extent ≡ size) }
        ensures part { OnErr result (extent_of S.tells (S.disk self.old.image.storage) self.old.image.extent ≡ 0
            → FillsPart S.tells size (S.disk self.old.image.storage) (S.disk self.new.image.storage)) }
        ensures err { OnErr result (self.new.image.extent ≡ self.old.image.extent) }
        ensures extent { 0 < extent_of S.tells (S.disk self.old.image.storage) self.old.image.extent → self.new.image.extent ≡ self.old.image.extent }
        ensures disk { 0 < extent_of S.tells (S.disk self.old.image.storage) self.old.image.extent → Keeps (S.disk self.old.image.storage) (S.disk self.new.image.storage) }
        ensures runs { RunsBy S.tells
            (λ image. (S.disk self.old.image.storage).may_leave image ⊎ ((extent_of S.tells (S.disk self.old.image.storage) self.old.image.extent ≡ 0) × IsZeros size image))
            numbers.old numbers.new (S.disk self.old.image.storage) (S.disk self.new.image.storage) }
        ensures fresh { OnOk result (HasFreshNumber numbers.new) }
        ensures no_fault { OnOk result (NoneFailed S.tells (S.disk self.old.image.storage) (S.disk self.new.image.storage)) }
        ensures cause { OnErr result (extent_of S.tells (S.disk self.old.image.storage) self.old.image.extent ≡ 0
            → GaveUp S.tells (S.disk self.old.image.storage) (S.disk self.new.image.storage)) }
        ensures kept { OnOk result (self.new.faults ≡ self.old.faults) }
        ensures counted { OnErr result (self.new.faults ≡ next_count self.old.faults) }
        ensures monotone { self.old.faults ≤ self.new.faults }
    {
        let outcome = self.image.provide(numbers, size);
        count(&mut self.faults, outcome)
    }

    /// The name of the file, as it was given.
    pub fn name(&self) -> &str {
        self.image.name()
    }

    /// Where both turn out to be one file, and no lock tells so, opening this one is refused.
    pub fn keep_apart_from(&mut self, other: &CountedFile<S>)
        ensures storage { self.new.image.storage ≡ self.old.image.storage }
        ensures extent { self.new.image.extent ≡ self.old.image.extent }
        ensures faults { self.new.faults ≡ self.old.faults }
    {
        self.image.keep_apart_from(other.image.unlocked());
    }

    /// Whether no call failed.
    pub fn has_no_fault(&self) -> bool {
        self.faults == 0
    }

    /// Whether the last call was the first that failed.
    pub fn has_one_fault(&self) -> bool {
        self.faults == 1
    }

    /// Undoes what `provide` did to the file.
    pub fn discard(&mut self) {
        self.image.discard();
    }

    /// Why a call was refused or failed last, if one was or did.
    pub fn why(&self) -> Option<ErrorKind> {
        self.image.why()
    }
}
