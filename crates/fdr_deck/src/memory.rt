//! The deck in memory whose listed calls fail.

ghost use Rattle.std.specs.Prelude.{◌≡◌, ◌⊎◌, ℕ, ◌+◌, ◌<◌, ◌≤◌, ◌↔◌, List, [], Vec, length, drop, min, max, replicate, IfOk, IsOk, IsErr, OnOk, OnErr, IsTrue, IsFalse, Contains, slice_get, Some, ⊤};
ghost use Rattle.std.specs.declared.alloc.Global.{Global};
ghost use Rattle.fdr_io.specs.Faults.{Rose, next_count};
ghost use Rattle.fdr_io.specs.Told.{Gives};
ghost use Rattle.fdr_deck.specs.State.{State};
ghost use Rattle.fdr_deck.specs.Disk.{IsSettled, KeepsDisk, LearnsExtent, Reads, Tears, Writes, Provides, Begins, Torn, IsZeros};
ghost use Rattle.fdr_deck.specs.Moments.{Elapses, EachMoment, IsNow, Within, WithinProvide};
ghost use Rattle.fdr_deck.specs.Pull.{GivesPiece, KeepsInput};
ghost use Rattle.fdr_deck.specs.Calls.{Passes, KeepsAnnounced, HasOneAnnounced, Succeeds, LeavesDisk, Announces};
ghost use Rattle.fdr_deck.specs.Announced.{least_announced, greatest_announced};
ghost use Rattle.fdr_deck.specs.Memory.{memory_state, memory_tells, held_in, left_in, held_by, current, FitsDisk, MayStopWithin, IsEntered, IsUnentered, IsListed, HasOneCallMore, IsFailedCall, KeepsPulled};
ghost use Rattle.fdr_deck.specs.MemorySound.{memory_is_sound};
ghost use Rattle.fdr_deck.specs.Stops.{stopped_image};
ghost use Rattle.fdr_deck.specs.declared.calls.Entry.{Entry};
ghost use Rattle.fdr_deck.specs.declared.calls.Call.TheVariants.{Pass, Write, FailedWrite, Sync, Provide, FailedProvide};

use crate::calls::{Call, Entry, Numbers, pull_began};
use crate::image::{copy_from, copy_of, patch, zeros_of};
use crate::stops::{Tear, stop_at};
use crate::{Announced, Deck, NoMemory};
use fdr_io::{Failed, copy_next};
use std::alloc::Global;
use std::marker::Model;

/// A deck in memory that tells all, and whose listed calls fail. It keeps a list of its calls, so
/// that what a stop within each of them leaves can be had afterwards.
#[derive(Drop)]
pub struct MemDeck {
    alloc: Global,
    // What the disk held at first, and what it holds now if it was changed since.
    first: Vec<u8>,
    changed: Option<Vec<u8>>,
    entries: Vec<Entry>,
    numbers: Numbers,
    input: Vec<u8>,
    disk_faults: u64,
    input_faults: u64,
    failing: Vec<u64>,
}

impl Model for MemDeck {
    ghost use Rattle.std.specs.Prelude.{◌≡◌, ◌≤◌, length, drop};
    ghost use Rattle.fdr_deck.specs.Memory.{Memory, current, held_after, AreInside};

    ghost Value = { Memory };

    ghost view = { λ d. record {
      first = d.first.items;
      entries = d.entries.items;
      numbers = d.numbers;
      input = drop d.numbers.taken d.input.items;
      disk_faults = d.disk_faults;
      input_faults = d.input_faults;
      failing = d.failing.items;
    } };

    ghost invariant = { λ d. (d.numbers.taken ≤ length d.input.items)
        × (held_after d.entries.items d.first.items ≡ current d.first.items d.changed)
        × AreInside d.entries.items d.first.items };
}

impl MemDeck {
    /// A settled deck of this image and this input, of which nothing is pulled yet. The calls whose
    /// numbers are listed fail. Calls are numbered from 0, and announcements have no number; nor has
    /// a call that finds no memory, which fails and does nothing. It takes no memory yet.
    #[tactic(auto, unfolding(crate::specs::Memory::held_after, crate::specs::Memory::left_after, crate::specs::Memory::AreInside))]
    pub fn new(alloc: Global, image: Vec<u8>, input: Vec<u8>, failing: Vec<u64>) -> MemDeck
        ensures image { held_in result ≡ image.items }
        ensures settled { IsSettled (memory_state result) }
        ensures input { result.input ≡ input.items }
        ensures taken { result.numbers.taken ≡ 0 }
        ensures pulled_before { result.numbers.pulled_before ≡ 0 }
        ensures announced { result.numbers.announced.number ≡ 0 }
        ensures least { least_announced result.numbers.announced ≡ 0 }
        ensures greatest { greatest_announced result.numbers.announced ≡ 0 }
        ensures disk_faults { result.disk_faults ≡ 0 }
        ensures input_faults { result.input_faults ≡ 0 }
        ensures failing { result.failing ≡ failing.items }
        ensures next { result.entries ≡ [] }
    {
        MemDeck {
            alloc,
            first: image,
            changed: None,
            entries: Vec::new(alloc),
            numbers: Numbers {
                announced: Announced::new(),
                taken: 0,
                pulled_before: 0,
            },
            input,
            disk_faults: 0,
            input_faults: 0,
            failing,
        }
    }

    /// The bytes that the disk holds.
    pub fn image(&self) -> &[u8]
        ensures { result.now ≡ held_in self.now }
    {
        match &self.changed {
            Some(image) => image,
            None => &self.first,
        }
    }

    /// The announced number.
    pub fn told(&self) -> u64
        ensures { result ≡ self.now.numbers.announced.number }
    {
        self.numbers.announced.told()
    }

    /// How many calls there were, announcements aside.
    pub fn calls(&self) -> u64
        ensures { result ≡ length self.now.entries }
    {
        self.entries.len() as u64
    }

    /// The greatest number that was announced as this call began.
    pub fn told_at(&self, call: u64) -> u64
        requires { call < length self.now.entries }
        ensures { (e : Entry) → slice_get self.now.entries call ≡ Some e → result ≡ greatest_announced e.numbers.announced }
    {
        self.entries[call as usize].numbers.announced.greatest()
    }

    /// One image that a stop within this call may leave: the pending ranges hold what `tear` says.
    pub fn stop(&self, alloc: Global, call: u64, tear: Tear) -> Result<Vec<u8>, NoMemory>
        requires { call < length self.now.entries }
        ensures left { IfOk result (λ image. MayStopWithin self.now call image.items) }
        ensures image { IfOk result (λ image. image.items ≡ stopped_image tear self.now call) }
    {
        stop_at(alloc, &self.entries, call as usize, &self.first, tear)
    }

    // Whether the next call is listed.
    fn fails(&self) -> bool
        ensures { IsTrue result ↔ IsListed self.now }
    {
        is_listed(&self.failing, self.entries.len() as u64)
    }

    // Enters a call that leaves what the disk holds.
    fn enter(&mut self, call: Call) -> Result<(), NoMemory>
        requires kept { (held : List ℕ) → held_by call held ≡ held }
        requires inside { FitsDisk call (held_in self.old) }
        ensures entered { OnOk result (IsEntered call self.old self.new) }
        ensures unentered { OnErr result (IsUnentered self.old self.new) }
        ensures pulled { KeepsPulled self.old self.new }
        ensures disk_faults { self.new.disk_faults ≡ self.old.disk_faults }
    {
        let entry = Entry {
            call,
            numbers: self.numbers,
        };
        match self.entries.push(entry) {
            Ok(()) => {
                self.numbers.announced.begin_anew();
                return Ok(());
            }
            Err(_) => return Err(NoMemory),
        }
    }

    /// Counts a fault of the disk.
    fn count_fault(&mut self) -> Failed
        ensures unentered { IsUnentered self.old self.new }
        ensures pulled { KeepsPulled self.old self.new }
        ensures disk_faults { self.new.disk_faults ≡ next_count self.old.disk_faults }
        ensures monotone { self.old.disk_faults ≤ self.new.disk_faults }
    {
        self.disk_faults = self.disk_faults.saturating_add(1);
        Failed
    }

    /// Counts a fault of the input.
    fn count_input_fault(&mut self) -> Failed
        ensures unentered { IsUnentered self.old self.new }
        ensures input_faults { self.new.input_faults ≡ next_count self.old.input_faults }
        ensures monotone { self.old.input_faults ≤ self.new.input_faults }
        ensures input { self.new.input ≡ self.old.input }
        ensures disk_faults { self.new.disk_faults ≡ self.old.disk_faults }
    {
        self.input_faults = self.input_faults.saturating_add(1);
        Failed
    }

    // Counts a fault of the disk, and enters the call that failed where there is memory for it.
    fn fail(&mut self, call: Call) -> Failed
        requires kept { (held : List ℕ) → held_by call held ≡ held }
        requires inside { FitsDisk call (held_in self.old) }
        ensures entered { IsEntered call self.old self.new ⊎ IsUnentered self.old self.new }
        ensures pulled { KeepsPulled self.old self.new }
        ensures disk_faults { self.new.disk_faults ≡ next_count self.old.disk_faults }
        ensures monotone { self.old.disk_faults ≤ self.new.disk_faults }
    {
        match self.enter(call) {
            Ok(()) => self.count_fault(),
            Err(NoMemory) => self.count_fault(),
        }
    }

    // A write. Where it finds no memory it fails.
    fn put(&mut self, at: usize, bytes: &[u8]) -> Result<(), Failed>
        requires { at + length bytes.now ≤ length (held_in self.old) }
        ensures entered { OnOk result ((copy : Vec ℕ Global) × (copy.items ≡ bytes.now) × IsEntered (Write at copy) self.old self.new) }
        ensures no_fault { OnOk result (self.new.disk_faults ≡ self.old.disk_faults) }
        ensures unentered { OnErr result (IsUnentered self.old self.new) }
        ensures disk_faults { OnErr result (self.new.disk_faults ≡ next_count self.old.disk_faults) }
        ensures monotone { self.old.disk_faults ≤ self.new.disk_faults }
        ensures pulled { KeepsPulled self.old self.new }
    {
        match self.enter_write(at, bytes) {
            Ok(()) => Ok(()),
            Err(NoMemory) => Err(self.count_fault()),
        }
    }

    // An empty disk is provided. Where there is no memory that fails.
    fn make(&mut self, size: usize) -> Result<(), Failed>
        requires { length (held_in self.old) ≡ 0 }
        ensures entered { OnOk result (IsEntered (Provide size) self.old self.new) }
        ensures no_fault { OnOk result (self.new.disk_faults ≡ self.old.disk_faults) }
        ensures unentered { OnErr result (IsUnentered self.old self.new) }
        ensures disk_faults { OnErr result (self.new.disk_faults ≡ next_count self.old.disk_faults) }
        ensures monotone { self.old.disk_faults ≤ self.new.disk_faults }
        ensures pulled { KeepsPulled self.old self.new }
    {
        match self.enter_provide(size) {
            Ok(()) => Ok(()),
            Err(NoMemory) => Err(self.count_fault()),
        }
    }

    // A write that fails.
    fn fail_write(&mut self, at: usize, bytes: &[u8]) -> Failed
        requires { at + length bytes.now ≤ length (held_in self.old) }
        ensures entered { ((copy : Vec ℕ Global) × (copy.items ≡ bytes.now) × IsEntered (FailedWrite at copy) self.old self.new)
            ⊎ IsUnentered self.old self.new }
        ensures pulled { KeepsPulled self.old self.new }
        ensures disk_faults { self.new.disk_faults ≡ next_count self.old.disk_faults }
        ensures monotone { self.old.disk_faults ≤ self.new.disk_faults }
    {
        match copy_of(self.alloc, bytes) {
            Ok(copy) => self.fail(Call::FailedWrite { at, bytes: copy }),
            Err(NoMemory) => self.count_fault(),
        }
    }

    // Enters a pull, which fails where it is listed and where there is no memory for it.
    fn pass_pull(&mut self) -> Result<(), Failed>
        ensures entered { OnOk result (IsEntered Pass self.old self.new) }
        ensures no_fault { OnOk result (self.new.input_faults ≡ self.old.input_faults) }
        ensures failed { OnErr result (IsEntered Pass self.old self.new ⊎ IsUnentered self.old self.new) }
        ensures input_faults { OnErr result (self.new.input_faults ≡ next_count self.old.input_faults) }
        ensures monotone { self.old.input_faults ≤ self.new.input_faults }
        ensures input { self.new.input ≡ self.old.input }
        ensures taken { self.new.numbers.taken ≡ self.old.numbers.taken }
        ensures pulled_before { self.new.numbers.pulled_before ≡ self.old.numbers.pulled_before }
        ensures disk_faults { self.new.disk_faults ≡ self.old.disk_faults }
        ensures listed { IsListed self.old → IsErr result }
        ensures unlisted { OnErr result (IsFailedCall self.old self.new) }
        ensures numbered { OnOk result (HasOneCallMore self.old self.new) }
    {
        let fails = self.fails();
        match self.enter(Call::Pass) {
            Ok(()) => {
                if fails {
                    return Err(self.count_input_fault());
                }
                Ok(())
            }
            Err(NoMemory) => Err(self.count_input_fault()),
        }
    }

    // Announces this number.
    fn tell(&mut self, count: u64)
        ensures announced { self.new.numbers.announced.number ≡ count }
        ensures least { least_announced self.new.numbers.announced ≡ min (least_announced self.old.numbers.announced) count }
        ensures greatest { greatest_announced self.new.numbers.announced ≡ max (greatest_announced self.old.numbers.announced) count }
        ensures pulled { KeepsPulled self.old self.new }
        ensures entries { self.new.entries ≡ self.old.entries }
        ensures first { self.new.first ≡ self.old.first }
        ensures failing { self.new.failing ≡ self.old.failing }
        ensures disk_faults { self.new.disk_faults ≡ self.old.disk_faults }
    {
        self.numbers.announced.announce(count);
    }

    // Takes the next bytes of the input.
    fn take_next(&mut self, buf: &mut [u8]) -> usize
        requires { 0 < length buf.old }
        ensures bound { result ≤ length buf.new }
        ensures full { result ≡ min (length self.old.input) (length buf.new) }
        ensures given { Gives self.old.input buf.new result }
        ensures left { self.new.input ≡ drop result self.old.input }
        ensures taken { self.new.numbers.taken ≡ self.old.numbers.taken + result }
        ensures began { 0 < result → self.new.numbers.pulled_before ≡ self.old.numbers.taken }
        ensures ended { result ≡ 0 → self.new.numbers.pulled_before ≡ self.old.numbers.pulled_before }
        ensures announced { self.new.numbers.announced ≡ self.old.numbers.announced }
        ensures entries { self.new.entries ≡ self.old.entries }
        ensures first { self.new.first ≡ self.old.first }
        ensures failing { self.new.failing ≡ self.old.failing }
        ensures disk_faults { self.new.disk_faults ≡ self.old.disk_faults }
        ensures input_faults { self.new.input_faults ≡ self.old.input_faults }
    {
        let n = copy_next(&self.input, self.numbers.taken, buf);
        self.numbers.pulled_before = pull_began(n, self.numbers.taken, self.numbers.pulled_before);
        self.numbers.taken += n;
        n
    }

    // A call that leaves the disk, but where it is a sync, and fails where it is listed.
    fn pass(&mut self, call: Call) -> Result<(), Failed>
        requires kept { (held : List ℕ) → held_by call held ≡ held }
        requires inside { FitsDisk call (held_in self.old) }
        ensures entered { OnOk result (IsEntered call self.old self.new) }
        ensures no_fault { OnOk result (self.new.disk_faults ≡ self.old.disk_faults) }
        ensures failed { OnErr result (IsEntered Pass self.old self.new ⊎ IsUnentered self.old self.new) }
        ensures disk_faults { OnErr result (self.new.disk_faults ≡ next_count self.old.disk_faults) }
        ensures monotone { self.old.disk_faults ≤ self.new.disk_faults }
        ensures pulled { KeepsPulled self.old self.new }
        ensures listed { IsListed self.old → IsErr result }
        ensures unlisted { OnErr result (IsFailedCall self.old self.new) }
        ensures numbered { OnOk result (HasOneCallMore self.old self.new) }
    {
        if self.fails() {
            return Err(self.fail(Call::Pass));
        }
        match self.enter(call) {
            Ok(()) => Ok(()),
            Err(NoMemory) => Err(self.count_fault()),
        }
    }

    // Writes the bytes there, and enters the write.
    fn enter_write(&mut self, at: usize, bytes: &[u8]) -> Result<(), NoMemory>
        requires { at + length bytes.now ≤ length (held_in self.old) }
        ensures entered { OnOk result ((copy : Vec ℕ Global) × (copy.items ≡ bytes.now) × IsEntered (Write at copy) self.old self.new) }
        ensures unentered { OnErr result (IsUnentered self.old self.new) }
        ensures pulled { KeepsPulled self.old self.new }
        ensures disk_faults { self.new.disk_faults ≡ self.old.disk_faults }
    {
        let copy = copy_of(self.alloc, bytes)?;
        let mut image = take_image(self.alloc, &mut self.changed, &self.first)?;
        let entry = Entry {
            call: Call::Write { at, bytes: copy },
            numbers: self.numbers,
        };
        match self.entries.push(entry) {
            Ok(()) => {
                patch(&mut image, at, bytes);
                self.changed = Some(image);
                self.numbers.announced.begin_anew();
                return Ok(());
            }
            Err(_) => {
                self.changed = Some(image);
                return Err(NoMemory);
            }
        }
    }

    // Gives the empty disk zeros, and enters that.
    fn enter_provide(&mut self, size: usize) -> Result<(), NoMemory>
        requires { length (held_in self.old) ≡ 0 }
        ensures entered { OnOk result (IsEntered (Provide size) self.old self.new) }
        ensures unentered { OnErr result (IsUnentered self.old self.new) }
        ensures pulled { KeepsPulled self.old self.new }
        ensures disk_faults { self.new.disk_faults ≡ self.old.disk_faults }
    {
        let zeros = zeros_of(self.alloc, size)?;
        let entry = Entry {
            call: Call::Provide { size },
            numbers: self.numbers,
        };
        match self.entries.push(entry) {
            Ok(()) => {
                self.changed = Some(zeros);
                self.numbers.announced.begin_anew();
                return Ok(());
            }
            Err(_) => return Err(NoMemory),
        }
    }
}

impl Deck for MemDeck {
    ghost tells = { memory_tells };

    ghost state = { memory_state };

    ghost same_rest = { λ old new. ⊤ };

    ghost sound = { memory_is_sound };

    ghost rest_here = { λ deck. tt };

    ghost rest_then = { λ old middle new first second. tt };

    fn size(&mut self) -> Result<u64, Failed>
        ensures answer { IfOk result (λ n. n ≡ (memory_state self.new).extent) }
        ensures learns { LearnsExtent memory_tells (memory_state self.old) (memory_state self.new) }
        ensures disk { KeepsDisk (memory_state self.old) (memory_state self.new) }
        ensures passes { Passes memory_tells (memory_state self.old) (memory_state self.new) }
        ensures succeeds { OnOk result (Succeeds (memory_state self.old) (memory_state self.new)) }
        ensures cause { OnErr result (Rose (memory_state self.old).disk_faults (memory_state self.new).disk_faults) }
        ensures moments { EachMoment memory_tells (memory_state self.old) (memory_state self.new) (Within (memory_state self.old) (memory_state self.new)) }
        ensures listed { IsListed self.old → IsErr result }
        ensures unlisted { OnErr result (IsFailedCall self.old self.new) }
        ensures numbered { OnOk result (HasOneCallMore self.old self.new) }
        ensures failing { self.new.failing ≡ self.old.failing }
        ensures entered { OnOk result (IsEntered Pass self.old self.new) }
        ensures failed { OnErr result (IsEntered Pass self.old self.new ⊎ IsUnentered self.old self.new) }
    {
        self.pass(Call::Pass)?;
        Ok(self.image().len() as u64)
    }

    fn provide(&mut self, size: u64) -> Result<(), Failed>
        ensures provides { OnOk result ((memory_state self.old).extent ≡ 0 → Provides memory_tells size (memory_state self.new)) }
        ensures begins { OnErr result ((memory_state self.old).extent ≡ 0 → Begins memory_tells size (memory_state self.old) (memory_state self.new)) }
        ensures extent { 0 < (memory_state self.old).extent → (memory_state self.new).extent ≡ (memory_state self.old).extent }
        ensures disk { 0 < (memory_state self.old).extent → KeepsDisk (memory_state self.old) (memory_state self.new) }
        ensures passes { Passes memory_tells (memory_state self.old) (memory_state self.new) }
        ensures succeeds { OnOk result (Succeeds (memory_state self.old) (memory_state self.new)) }
        ensures cause { OnErr result (Rose (memory_state self.old).disk_faults (memory_state self.new).disk_faults) }
        ensures moments { EachMoment memory_tells (memory_state self.old) (memory_state self.new) (WithinProvide size (memory_state self.old) (memory_state self.new)) }
        ensures listed { IsListed self.old → IsErr result }
        ensures unlisted { OnErr result (IsFailedCall self.old self.new) }
        ensures numbered { OnOk result (HasOneCallMore self.old self.new) }
        ensures failing { self.new.failing ≡ self.old.failing }
        ensures entered { OnOk result ((memory_state self.old).extent ≡ 0 → IsEntered (Provide size) self.old self.new) }
        ensures failed { OnErr result ((memory_state self.old).extent ≡ 0
            → IsEntered (FailedProvide size) self.old self.new ⊎ IsUnentered self.old self.new) }
        ensures passed { OnOk result (0 < (memory_state self.old).extent → IsEntered Pass self.old self.new) }
        ensures refused { OnErr result (0 < (memory_state self.old).extent → IsEntered Pass self.old self.new ⊎ IsUnentered self.old self.new) }
        // one that failed and has a number may leave zeros of every length
        ensures zeros { OnErr result (HasOneCallMore self.old self.new → length (held_in self.old) ≡ 0
            → (image : List ℕ) → IsZeros size image → left_in self.new image) }
    {
        if !self.image().is_empty() {
            self.pass(Call::Pass)?;
            return Ok(());
        }
        let size = size as usize;
        if self.fails() {
            return Err(self.fail(Call::FailedProvide { size }));
        }
        self.make(size)?;
        Ok(())
    }

    fn read(&mut self, at: u64, buf: &mut [u8]) -> Result<(), Failed>
        requires { at + length buf.old ≤ (memory_state self.old).extent }
        ensures reads { OnOk result (Reads memory_tells at (memory_state self.old) buf.new) }
        ensures extent { (memory_state self.new).extent ≡ (memory_state self.old).extent }
        ensures disk { KeepsDisk (memory_state self.old) (memory_state self.new) }
        ensures passes { Passes memory_tells (memory_state self.old) (memory_state self.new) }
        ensures succeeds { OnOk result (Succeeds (memory_state self.old) (memory_state self.new)) }
        ensures cause { OnErr result (Rose (memory_state self.old).disk_faults (memory_state self.new).disk_faults) }
        ensures moments { EachMoment memory_tells (memory_state self.old) (memory_state self.new) (Within (memory_state self.old) (memory_state self.new)) }
        ensures listed { IsListed self.old → IsErr result }
        ensures unlisted { OnErr result (IsFailedCall self.old self.new) }
        ensures numbered { OnOk result (HasOneCallMore self.old self.new) }
        ensures failing { self.new.failing ≡ self.old.failing }
        ensures entered { OnOk result (IsEntered Pass self.old self.new) }
        ensures failed { OnErr result (IsEntered Pass self.old self.new ⊎ IsUnentered self.old self.new) }
    {
        self.pass(Call::Pass)?;
        copy_from(self.image(), at as usize, buf);
        Ok(())
    }

    fn write(&mut self, at: u64, bytes: &[u8]) -> Result<(), Failed>
        requires { at + length bytes.now ≤ (memory_state self.old).extent }
        ensures writes { OnOk result (Writes memory_tells at bytes.now (memory_state self.old) (memory_state self.new)) }
        ensures tears { Tears memory_tells at (length bytes.now) (memory_state self.old) (memory_state self.new) }
        ensures extent { (memory_state self.new).extent ≡ (memory_state self.old).extent }
        ensures passes { Passes memory_tells (memory_state self.old) (memory_state self.new) }
        ensures succeeds { OnOk result (Succeeds (memory_state self.old) (memory_state self.new)) }
        ensures cause { OnErr result (Rose (memory_state self.old).disk_faults (memory_state self.new).disk_faults) }
        ensures moments { EachMoment memory_tells (memory_state self.old) (memory_state self.new) (Within (memory_state self.old) (memory_state self.new)) }
        ensures listed { IsListed self.old → IsErr result }
        ensures unlisted { OnErr result (IsFailedCall self.old self.new) }
        ensures numbered { OnOk result (HasOneCallMore self.old self.new) }
        ensures failing { self.new.failing ≡ self.old.failing }
        ensures entered { OnOk result ((copy : Vec ℕ Global) × (copy.items ≡ bytes.now) × IsEntered (Write at copy) self.old self.new) }
        ensures failed { OnErr result (((copy : Vec ℕ Global) × (copy.items ≡ bytes.now) × IsEntered (FailedWrite at copy) self.old self.new)
            ⊎ IsUnentered self.old self.new) }
        // a failed write that has a number is pending
        ensures torn { OnErr result (HasOneCallMore self.old self.new
            → (from image : List ℕ) → left_in self.old from → Torn at (length bytes.now) from image → left_in self.new image) }
    {
        let at = at as usize;
        if self.fails() {
            return Err(self.fail_write(at, bytes));
        }
        self.put(at, bytes)?;
        Ok(())
    }

    fn sync(&mut self) -> Result<(), Failed>
        ensures settles { OnOk result (IsTrue memory_tells.stops → IsSettled (memory_state self.new)) }
        ensures held { (memory_state self.new).held ≡ (memory_state self.old).held }
        ensures no_more { (image : List ℕ) → (memory_state self.new).may_leave image → (memory_state self.old).may_leave image }
        ensures pending { OnErr result (KeepsDisk (memory_state self.old) (memory_state self.new)) }
        ensures extent { (memory_state self.new).extent ≡ (memory_state self.old).extent }
        ensures passes { Passes memory_tells (memory_state self.old) (memory_state self.new) }
        ensures succeeds { OnOk result (Succeeds (memory_state self.old) (memory_state self.new)) }
        ensures cause { OnErr result (Rose (memory_state self.old).disk_faults (memory_state self.new).disk_faults) }
        ensures moments { EachMoment memory_tells (memory_state self.old) (memory_state self.new) (Within (memory_state self.old) (memory_state self.new)) }
        ensures listed { IsListed self.old → IsErr result }
        ensures unlisted { OnErr result (IsFailedCall self.old self.new) }
        ensures numbered { OnOk result (HasOneCallMore self.old self.new) }
        ensures failing { self.new.failing ≡ self.old.failing }
        ensures entered { OnOk result (IsEntered Sync self.old self.new) }
        ensures failed { OnErr result (IsEntered Pass self.old self.new ⊎ IsUnentered self.old self.new) }
    {
        self.pass(Call::Sync)?;
        Ok(())
    }

    fn announce(&mut self, count: u64)
        ensures announces { Announces count (memory_state self.old) (memory_state self.new) }
        ensures disk { LeavesDisk (memory_state self.old) (memory_state self.new) }
        ensures input { KeepsInput (memory_state self.old) (memory_state self.new) }
        ensures input_faults { (memory_state self.new).input_faults ≡ (memory_state self.old).input_faults }
        ensures time { Elapses memory_tells (memory_state self.old) (memory_state self.new) }
        ensures moments { EachMoment memory_tells (memory_state self.old) (memory_state self.new) (IsNow (memory_state self.new)) }
        ensures entries { self.new.entries ≡ self.old.entries }
        ensures first { self.new.first ≡ self.old.first }
        ensures failing { self.new.failing ≡ self.old.failing }
    {
        self.tell(count);
    }

    fn pull(&mut self, buf: &mut [u8]) -> Result<usize, Failed>
        requires { 0 < length buf.old }
        ensures bound { IfOk result (λ n. n ≤ length buf.new) }
        ensures pulls { IfOk result (GivesPiece memory_tells (memory_state self.old) (memory_state self.new) buf.new) }
        ensures kept { OnErr result (KeepsInput (memory_state self.old) (memory_state self.new)) }
        ensures cause { OnErr result (Rose (memory_state self.old).input_faults (memory_state self.new).input_faults) }
        ensures monotone { (memory_state self.old).input_faults ≤ (memory_state self.new).input_faults }
        ensures disk { LeavesDisk (memory_state self.old) (memory_state self.new) }
        ensures announced { KeepsAnnounced (memory_state self.old) (memory_state self.new) }
        ensures fresh { OnOk result (HasOneAnnounced (memory_state self.new)) }
        ensures time { Elapses memory_tells (memory_state self.old) (memory_state self.new) }
        ensures moments { EachMoment memory_tells (memory_state self.old) (memory_state self.new) (Within (memory_state self.old) (memory_state self.new)) }
        ensures listed { IsListed self.old → IsErr result }
        ensures unlisted { OnErr result (IsFailedCall self.old self.new) }
        ensures numbered { OnOk result (HasOneCallMore self.old self.new) }
        ensures failing { self.new.failing ≡ self.old.failing }
        ensures entered { OnOk result (IsEntered Pass self.old self.new) }
        ensures failed { OnErr result (IsEntered Pass self.old self.new ⊎ IsUnentered self.old self.new) }
        ensures full { IfOk result (λ n. n ≡ min (length self.old.input) (length buf.new)) }
    {
        self.pass_pull()?;
        Ok(self.take_next(buf))
    }
}

// Whether this call is one of those that fail.
fn is_listed(failing: &[u64], call: u64) -> bool
    ensures { IsTrue result ↔ Contains failing.now call }
{
    failing.contains(&call)
}

// Takes what the disk holds, or a copy of it where it was never changed.
fn take_image(
    alloc: Global,
    changed: &mut Option<Vec<u8>>,
    first: &[u8],
) -> Result<Vec<u8>, NoMemory>
    ensures taken { IfOk result (λ image. image.items ≡ current first.now changed.old) }
    ensures kept { OnErr result (changed.new ≡ changed.old) }
{
    match changed.take() {
        Some(image) => Ok(image),
        None => copy_of(alloc, first),
    }
}
