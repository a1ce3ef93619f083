//! The twin in memory whose listed calls fail.

ghost use Rattle.std.specs.Prelude.{◌≡◌, ◌⊎◌, ℕ, ◌+◌, ◌<◌, ◌≤◌, ◌↔◌, List, [], Vec, length, drop, min, max, IfOk, IsErr, OnOk, OnErr, IsTrue, None, Contains, slice_get, Some};
ghost use Rattle.std.specs.declared.alloc.Global.{Global};
ghost use Rattle.fdr_io.specs.Faults.{Rose, next_count};
ghost use Rattle.fdr_io.specs.Told.{Gives};
ghost use Rattle.fdr_deck.specs.Disk.{IsSettled, KeepsDisk, LearnsExtent, Reads, Tears, Writes, Provides, Begins, Torn, IsZeros};
ghost use Rattle.fdr_deck.specs.Moments.{Elapses, EachMoment, IsNow, Within, WithinProvide};
ghost use Rattle.fdr_deck.specs.Pull.{GivesPiece, KeepsInput};
ghost use Rattle.fdr_deck.specs.Calls.{Passes, KeepsAnnounced, HasOneAnnounced, Succeeds, LeavesDisk, Announces};
ghost use Rattle.fdr_deck.specs.Announced.{least_announced, greatest_announced};
ghost use Rattle.fdr_deck.specs.Memory.{MayStopWithin, memory_state, memory_tells, held_in, left_in, held_by, FitsDisk, IsEntered, IsUnentered, KeepsPulled};
ghost use Rattle.fdr_deck.specs.Stops.{stopped_image};
ghost use Rattle.fdr_deck.specs.MemorySound.{memory_is_sound};
ghost use Rattle.fdr_deck.specs.declared.calls.Call.TheVariants.{Pass, Write, FailedWrite, Sync, Provide, FailedProvide};
ghost use Rattle.fdr_twin.specs.declared.calls.TwinEntry.{TwinEntry};
ghost use Rattle.fdr_twin.specs.declared.calls.SideCall.TheVariants.{Passed, Wrote, FailedToWrite, Synced, Provided, FailedToProvide};
ghost use Rattle.fdr_twin.specs.declared.side.Side.TheVariants as side;
ghost use Rattle.fdr_twin.specs.Same.{Turns};
ghost use Rattle.fdr_twin.specs.Rest.{HasSameRest};
ghost use Rattle.fdr_twin.specs.TwinMemory.{TwinMemory, call_of, side_memory, memory_on, twin_state, twin_pair, counts_on, dead_on, raise, IsTwinEntered, IsTwinFailed, IsTwinLost};
ghost use Rattle.fdr_twin.specs.TwinMemory.{IsTwinListed, IsDeadBy, IsToFail, HasOneTwinCallMore, IsFailedTwinCall, IsUnpulled, IsFailedPull};
ghost use Rattle.fdr_twin.specs.TwinFaces.{twin_faces};
ghost use Rattle.fdr_twin.specs.TwinSound.{twin_is_sound, twin_rest_here, twin_rest_then};

use crate::calls::{SideCall, Snapshot, Span, TwinEntry};
use crate::stops::stop_side;
use crate::{Side, Twin};
use fdr_deck::{Announced, Deck, NoMemory, Tear, copy_from, copy_of, patch, zeros_of};
use fdr_io::{Failed, copy_next};
use std::alloc::Global;
use std::marker::Model;

/// Two disks in memory, with one input and one announced number, that tell all. The calls whose numbers are listed fail, and
/// a disk may be dead from some call on. It keeps a list of its calls, so that what a stop within each of them leaves of both
/// disks can be had afterwards.
#[derive(Drop)]
pub struct MemTwin {
    alloc: Global,
    turned: Side,
    // What each disk held at first, and what it holds now if it was changed since.
    first: Vec<u8>,
    first_changed: Option<Vec<u8>>,
    second: Vec<u8>,
    second_changed: Option<Vec<u8>>,
    entries: Vec<TwinEntry>,
    span: Span,
    input: Vec<u8>,
    input_faults: u64,
    failing: Vec<u64>,
    // The call from which on all calls of a disk fail.
    dead_first: Option<u64>,
    dead_second: Option<u64>,
}

impl Model for MemTwin {
    ghost use Rattle.std.specs.Prelude.{drop};
    ghost use Rattle.fdr_twin.specs.TwinMemory.{TwinMemory, IsWholeTwin};

    ghost Value = { TwinMemory };

    ghost view = { λ d. record {
      turned = d.turned;
      first = d.first.items;
      second = d.second.items;
      entries = d.entries.items;
      span = d.span;
      input = drop d.span.taken d.input.items;
      input_faults = d.input_faults;
      failing = d.failing.items;
      dead_first = d.dead_first;
      dead_second = d.dead_second;
    } };

    ghost invariant = { λ d. IsWholeTwin d.first.items d.second.items d.first_changed d.second_changed d.entries.items d.span d.input.items };
}

impl MemTwin {
    /// Two settled disks with these images and this input, of which nothing is pulled yet, turned to the first one. The calls
    /// whose numbers are listed fail; and from the call of the given number on, all calls of that disk fail. Calls of both
    /// disks and pulls are numbered together, from 0. Announcements and turns have no number; nor has a call that finds no
    /// memory, which fails and does nothing. It takes no memory yet.
    #[tactic(auto, unfolding(fdr_deck::specs::Memory::held_after, fdr_deck::specs::Memory::left_after, fdr_deck::specs::Memory::AreInside, crate::specs::TwinMemory::entries_on))]
    pub fn new(
        alloc: Global,
        first: Vec<u8>,
        second: Vec<u8>,
        input: Vec<u8>,
        failing: Vec<u64>,
        dead_first: Option<u64>,
        dead_second: Option<u64>,
    ) -> MemTwin
        ensures turned { result.turned ≡ side.First }
        ensures first { held_in (memory_on side.First result) ≡ first.items }
        ensures second { held_in (memory_on side.Second result) ≡ second.items }
        ensures first_settled { IsSettled (memory_state (memory_on side.First result)) }
        ensures second_settled { IsSettled (memory_state (memory_on side.Second result)) }
        ensures input { result.input ≡ input.items }
        ensures taken { result.span.taken ≡ 0 }
        ensures pulled_before { result.span.pulled_before ≡ 0 }
        ensures announced { result.span.announced.number ≡ 0 }
        ensures least { least_announced result.span.announced ≡ 0 }
        ensures greatest { greatest_announced result.span.announced ≡ 0 }
        ensures first_faults { result.span.first_faults ≡ 0 }
        ensures second_faults { result.span.second_faults ≡ 0 }
        ensures input_faults { result.input_faults ≡ 0 }
        ensures first_lost { result.span.first_lost ≡ None }
        ensures second_lost { result.span.second_lost ≡ None }
        ensures failing { result.failing ≡ failing.items }
        ensures dead_first { result.dead_first ≡ dead_first }
        ensures dead_second { result.dead_second ≡ dead_second }
        ensures next { result.entries ≡ [] }
    {
        MemTwin {
            alloc,
            turned: Side::First,
            first,
            first_changed: None,
            second,
            second_changed: None,
            entries: Vec::new(alloc),
            span: Span {
                announced: Announced::new(),
                taken: 0,
                pulled_before: 0,
                first_faults: 0,
                second_faults: 0,
                first_lost: None,
                second_lost: None,
            },
            input,
            input_faults: 0,
            failing,
            dead_first,
            dead_second,
        }
    }

    /// The bytes that the disk of a side holds.
    pub fn image(&self, side: Side) -> &[u8]
        ensures { result.now ≡ held_in (memory_on side self.now) }
    {
        match side {
            Side::First => match &self.first_changed {
                Some(image) => image,
                None => &self.first,
            },
            Side::Second => match &self.second_changed {
                Some(image) => image,
                None => &self.second,
            },
        }
    }

    /// The announced number.
    pub fn told(&self) -> u64
        ensures { result ≡ self.now.span.announced.number }
    {
        self.span.announced.told()
    }

    /// How many calls there were of both disks and of the input, announcements aside.
    pub fn calls(&self) -> u64
        ensures { result ≡ length self.now.entries }
    {
        self.entries.len() as u64
    }

    /// The greatest number that was announced as this call began.
    pub fn told_at(&self, call: u64) -> u64
        requires { call < length self.now.entries }
        ensures { (e : TwinEntry) → slice_get self.now.entries call ≡ Some e → result ≡ greatest_announced e.span.announced }
    {
        self.entries[call as usize].span.announced.greatest()
    }

    /// One image of each disk that a stop within this call may leave: the pending ranges of both hold what `tear` says.
    pub fn stop(&self, alloc: Global, call: u64, tear: Tear) -> Result<(Vec<u8>, Vec<u8>), NoMemory>
        requires { call < length self.now.entries }
        ensures first_left { IfOk result (λ images. MayStopWithin (memory_on side.First self.now) call images.0.items) }
        ensures second_left { IfOk result (λ images. MayStopWithin (memory_on side.Second self.now) call images.1.items) }
        ensures first_image { IfOk result (λ images. images.0.items ≡ stopped_image tear (memory_on side.First self.now) call) }
        ensures second_image { IfOk result (λ images. images.1.items ≡ stopped_image tear (memory_on side.Second self.now) call) }
    {
        let call = call as usize;
        let first = stop_side(alloc, &self.entries, call, Side::First, &self.first, tear)?;
        let second = stop_side(alloc, &self.entries, call, Side::Second, &self.second, tear)?;
        Ok((first, second))
    }

    // What the disk holds that it is turned to.
    fn side_image(&self) -> &[u8]
        ensures { result.now ≡ held_in (side_memory self.now) }
    {
        self.image(self.turned)
    }

    // Whether the next call is listed.
    fn is_listed(&self) -> bool
        ensures { IsTrue result ↔ IsTwinListed self.now }
    {
        is_among(&self.failing, self.entries.len() as u64)
    }

    // Whether the disk that it is turned to is dead by the next call.
    fn is_dead(&self) -> bool
        ensures { IsTrue result ↔ IsDeadBy (dead_on self.now.turned self.now) (length self.now.entries) }
    {
        let call = self.entries.len() as u64;
        match self.turned {
            Side::First => is_dead_by(self.dead_first, call),
            Side::Second => is_dead_by(self.dead_second, call),
        }
    }

    // Whether the next call of the disk that it is turned to is to fail.
    fn fails(&self) -> bool
        ensures { IsTrue result ↔ IsToFail self.now }
    {
        self.is_listed() || self.is_dead()
    }

    // Enters a call that leaves what the disk holds.
    fn enter(&mut self, call: SideCall) -> Result<(), NoMemory>
        requires kept { (held : List ℕ) → held_by (call_of call) held ≡ held }
        requires inside { FitsDisk (call_of call) (held_in (side_memory self.old)) }
        ensures entered { OnOk result (IsTwinEntered call self.old self.new) }
        ensures counts { OnOk result ((self.new.span.first_faults ≡ self.old.span.first_faults) × (self.new.span.second_faults ≡ self.old.span.second_faults)) }
        ensures pulled { OnOk result (KeepsPulled (side_memory self.old) (side_memory self.new)) }
        ensures unentered { OnErr result (self.new ≡ self.old) }
    {
        let entry = TwinEntry {
            side: self.turned,
            call,
            span: self.span,
        };
        match self.entries.push(entry) {
            Ok(()) => {
                self.span.announced.begin_anew();
                self.span.first_lost = None;
                self.span.second_lost = None;
                Ok(())
            }
            Err(_) => Err(NoMemory),
        }
    }

    // Enters a call that leaves this on the disk.
    fn enter_changed(&mut self, call: SideCall, image: Vec<u8>) -> Result<(), NoMemory>
        requires is { image.items ≡ held_by (call_of call) (held_in (side_memory self.old)) }
        requires inside { FitsDisk (call_of call) (held_in (side_memory self.old)) }
        ensures entered { OnOk result (IsTwinEntered call self.old self.new) }
        ensures counts { OnOk result ((self.new.span.first_faults ≡ self.old.span.first_faults) × (self.new.span.second_faults ≡ self.old.span.second_faults)) }
        ensures pulled { OnOk result (KeepsPulled (side_memory self.old) (side_memory self.new)) }
        ensures unentered { OnErr result (self.new ≡ self.old) }
    {
        let entry = TwinEntry {
            side: self.turned,
            call,
            span: self.span,
        };
        match self.entries.push(entry) {
            Ok(()) => {
                self.span.announced.begin_anew();
                self.span.first_lost = None;
                self.span.second_lost = None;
                match self.turned {
                    Side::First => {
                        self.first_changed = Some(image);
                        return Ok(());
                    }
                    Side::Second => {
                        self.second_changed = Some(image);
                        return Ok(());
                    }
                }
            }
            Err(_) => return Err(NoMemory),
        }
    }

    // Counts a fault of the side, of a call that was entered.
    fn count(&mut self)
        requires entered { (self.old.span.first_lost ≡ None) × (self.old.span.second_lost ≡ None) }
        ensures raised { self.new ≡ record self.old { span = raise self.old.turned self.old.span } }
        ensures monotone { (side_memory self.old).disk_faults ≤ (side_memory self.new).disk_faults }
    {
        match self.turned {
            Side::First => self.span.first_faults = self.span.first_faults.saturating_add(1),
            Side::Second => self.span.second_faults = self.span.second_faults.saturating_add(1),
        }
    }

    // Counts a fault of the side, of a call that found no memory: the count is the last one from now on.
    fn lose(&mut self)
        ensures lost { IsTwinLost self.old self.new }
        ensures monotone { (side_memory self.old).disk_faults ≤ (side_memory self.new).disk_faults }
    {
        let snapshot = Snapshot {
            announced: self.span.announced,
            first_faults: self.span.first_faults,
            second_faults: self.span.second_faults,
        };
        match self.turned {
            Side::First => {
                if self.span.first_lost.is_none() {
                    self.span.first_lost = Some(snapshot);
                    self.span.first_faults = u64::MAX;
                }
            }
            Side::Second => {
                if self.span.second_lost.is_none() {
                    self.span.second_lost = Some(snapshot);
                    self.span.second_faults = u64::MAX;
                }
            }
        }
    }

    // Counts a fault of the side, and enters the call that failed where there is memory for it.
    fn fail(&mut self, call: SideCall) -> Failed
        requires kept { (held : List ℕ) → held_by (call_of call) held ≡ held }
        requires inside { FitsDisk (call_of call) (held_in (side_memory self.old)) }
        ensures entered { IsEntered (call_of call) (side_memory self.old) (side_memory self.new) ⊎ IsUnentered (side_memory self.old) (side_memory self.new) }
        ensures made { IsTwinFailed call self.old self.new ⊎ IsTwinLost self.old self.new }
        ensures pulled { KeepsPulled (side_memory self.old) (side_memory self.new) }
        ensures rose { Rose (side_memory self.old).disk_faults (side_memory self.new).disk_faults }
        ensures monotone { (side_memory self.old).disk_faults ≤ (side_memory self.new).disk_faults }
        ensures rest { HasSameRest (twin_pair self.old) (twin_pair self.new) }
    {
        match self.enter(call) {
            Ok(()) => self.count(),
            Err(NoMemory) => self.lose(),
        }
        Failed
    }

    // A call that leaves the disk, but where it is a sync, and fails where it is listed.
    fn pass(&mut self, call: SideCall) -> Result<(), Failed>
        requires kept { (held : List ℕ) → held_by (call_of call) held ≡ held }
        requires inside { FitsDisk (call_of call) (held_in (side_memory self.old)) }
        ensures entered { OnOk result (IsEntered (call_of call) (side_memory self.old) (side_memory self.new)) }
        ensures no_fault { OnOk result ((side_memory self.new).disk_faults ≡ (side_memory self.old).disk_faults) }
        ensures failed { OnErr result (IsEntered Pass (side_memory self.old) (side_memory self.new) ⊎ IsUnentered (side_memory self.old) (side_memory self.new)) }
        ensures rose { OnErr result (Rose (side_memory self.old).disk_faults (side_memory self.new).disk_faults) }
        ensures monotone { (side_memory self.old).disk_faults ≤ (side_memory self.new).disk_faults }
        ensures made { OnOk result (IsTwinEntered call self.old self.new) }
        ensures unmade { OnErr result (IsTwinFailed Passed self.old self.new ⊎ IsTwinLost self.old self.new) }
        ensures listed { IsToFail self.old → IsErr result }
        ensures unlisted { OnErr result (IsFailedTwinCall self.old self.new) }
        ensures pulled { KeepsPulled (side_memory self.old) (side_memory self.new) }
        ensures rest { HasSameRest (twin_pair self.old) (twin_pair self.new) }
    {
        if self.fails() {
            return Err(self.fail(SideCall::Passed));
        }
        match self.enter(call) {
            Ok(()) => Ok(()),
            Err(NoMemory) => {
                self.lose();
                Err(Failed)
            }
        }
    }

    // Writes the bytes there, and enters the write.
    fn enter_write(&mut self, at: usize, bytes: &[u8]) -> Result<(), NoMemory>
        requires { at + length bytes.now ≤ length (held_in (side_memory self.old)) }
        ensures entered { OnOk result ((copy : Vec ℕ Global) × (copy.items ≡ bytes.now) × IsTwinEntered (Wrote at copy) self.old self.new) }
        ensures counts { OnOk result ((self.new.span.first_faults ≡ self.old.span.first_faults) × (self.new.span.second_faults ≡ self.old.span.second_faults)) }
        ensures pulled { OnOk result (KeepsPulled (side_memory self.old) (side_memory self.new)) }
        ensures unentered { OnErr result (self.new ≡ self.old) }
    {
        let copy = copy_of(self.alloc, bytes)?;
        let mut image = copy_of(self.alloc, self.side_image())?;
        patch(&mut image, at, bytes);
        self.enter_changed(SideCall::Wrote { at, bytes: copy }, image)
    }

    // A write. Where it finds no memory it fails.
    fn put(&mut self, at: usize, bytes: &[u8]) -> Result<(), Failed>
        requires { at + length bytes.now ≤ length (held_in (side_memory self.old)) }
        ensures entered { OnOk result ((copy : Vec ℕ Global) × (copy.items ≡ bytes.now) × IsEntered (Write at copy) (side_memory self.old) (side_memory self.new)) }
        ensures no_fault { OnOk result ((side_memory self.new).disk_faults ≡ (side_memory self.old).disk_faults) }
        ensures unentered { OnErr result (IsUnentered (side_memory self.old) (side_memory self.new)) }
        ensures rose { OnErr result (Rose (side_memory self.old).disk_faults (side_memory self.new).disk_faults) }
        ensures monotone { (side_memory self.old).disk_faults ≤ (side_memory self.new).disk_faults }
        ensures made { OnOk result ((copy : Vec ℕ Global) × (copy.items ≡ bytes.now) × IsTwinEntered (Wrote at copy) self.old self.new) }
        ensures lost { OnErr result (IsTwinLost self.old self.new) }
        ensures pulled { KeepsPulled (side_memory self.old) (side_memory self.new) }
        ensures rest { HasSameRest (twin_pair self.old) (twin_pair self.new) }
    {
        match self.enter_write(at, bytes) {
            Ok(()) => Ok(()),
            Err(NoMemory) => {
                self.lose();
                Err(Failed)
            }
        }
    }

    // A write that fails.
    fn fail_write(&mut self, at: usize, bytes: &[u8]) -> Failed
        requires { at + length bytes.now ≤ length (held_in (side_memory self.old)) }
        ensures entered { ((copy : Vec ℕ Global) × (copy.items ≡ bytes.now) × IsEntered (FailedWrite at copy) (side_memory self.old) (side_memory self.new))
            ⊎ IsUnentered (side_memory self.old) (side_memory self.new) }
        ensures made { ((copy : Vec ℕ Global) × (copy.items ≡ bytes.now) × IsTwinFailed (FailedToWrite at copy) self.old self.new)
            ⊎ IsTwinLost self.old self.new }
        ensures pulled { KeepsPulled (side_memory self.old) (side_memory self.new) }
        ensures rose { Rose (side_memory self.old).disk_faults (side_memory self.new).disk_faults }
        ensures monotone { (side_memory self.old).disk_faults ≤ (side_memory self.new).disk_faults }
        ensures rest { HasSameRest (twin_pair self.old) (twin_pair self.new) }
    {
        match copy_of(self.alloc, bytes) {
            Ok(copy) => self.fail(SideCall::FailedToWrite { at, bytes: copy }),
            Err(NoMemory) => {
                self.lose();
                Failed
            }
        }
    }

    // Announces this number.
    fn tell(&mut self, count: u64)
        ensures announced { self.new.span.announced.number ≡ count }
        ensures least { least_announced self.new.span.announced ≡ min (least_announced self.old.span.announced) count }
        ensures greatest { greatest_announced self.new.span.announced ≡ max (greatest_announced self.old.span.announced) count }
        ensures pulled { KeepsPulled (side_memory self.old) (side_memory self.new) }
        ensures entries { (side_memory self.new).entries ≡ (side_memory self.old).entries }
        ensures first { (side_memory self.new).first ≡ (side_memory self.old).first }
        ensures disk_faults { (side_memory self.new).disk_faults ≡ (side_memory self.old).disk_faults }
        ensures only { self.new ≡ record self.old { span = record self.old.span { announced = self.new.span.announced } } }
        ensures rest { HasSameRest (twin_pair self.old) (twin_pair self.new) }
    {
        self.span.announced.announce(count);
    }

    // An empty disk is provided. Where there is no memory that fails.
    fn make(&mut self, size: usize) -> Result<(), Failed>
        requires { length (held_in (side_memory self.old)) ≡ 0 }
        ensures entered { OnOk result (IsEntered (Provide size) (side_memory self.old) (side_memory self.new)) }
        ensures no_fault { OnOk result ((side_memory self.new).disk_faults ≡ (side_memory self.old).disk_faults) }
        ensures unentered { OnErr result (IsUnentered (side_memory self.old) (side_memory self.new)) }
        ensures rose { OnErr result (Rose (side_memory self.old).disk_faults (side_memory self.new).disk_faults) }
        ensures monotone { (side_memory self.old).disk_faults ≤ (side_memory self.new).disk_faults }
        ensures made { OnOk result (IsTwinEntered (Provided size) self.old self.new) }
        ensures lost { OnErr result (IsTwinLost self.old self.new) }
        ensures pulled { KeepsPulled (side_memory self.old) (side_memory self.new) }
        ensures rest { HasSameRest (twin_pair self.old) (twin_pair self.new) }
    {
        match self.enter_provide(size) {
            Ok(()) => Ok(()),
            Err(NoMemory) => {
                self.lose();
                Err(Failed)
            }
        }
    }

    // Gives the empty disk zeros, and enters that.
    fn enter_provide(&mut self, size: usize) -> Result<(), NoMemory>
        requires { length (held_in (side_memory self.old)) ≡ 0 }
        ensures entered { OnOk result (IsTwinEntered (Provided size) self.old self.new) }
        ensures counts { OnOk result ((self.new.span.first_faults ≡ self.old.span.first_faults) × (self.new.span.second_faults ≡ self.old.span.second_faults)) }
        ensures pulled { OnOk result (KeepsPulled (side_memory self.old) (side_memory self.new)) }
        ensures unentered { OnErr result (self.new ≡ self.old) }
    {
        let zeros = zeros_of(self.alloc, size)?;
        self.enter_changed(SideCall::Provided { size }, zeros)
    }

    // Enters a pull, which fails where it is listed and where there is no memory for it.
    fn pass_pull(&mut self) -> Result<(), Failed>
        ensures entered { OnOk result (IsTwinEntered Passed self.old self.new) }
        ensures no_fault { OnOk result (self.new.input_faults ≡ self.old.input_faults) }
        ensures failed { OnErr result (IsEntered Pass (side_memory self.old) (side_memory self.new) ⊎ IsUnentered (side_memory self.old) (side_memory self.new)) }
        ensures unmade { OnErr result (IsTwinEntered Passed self.old self.new ⊎ IsUnpulled self.old self.new) }
        ensures listed { IsTwinListed self.old → IsErr result }
        ensures unlisted { OnErr result (IsFailedPull self.old self.new) }
        ensures input_faults { OnErr result (self.new.input_faults ≡ next_count self.old.input_faults) }
        ensures monotone { self.old.input_faults ≤ self.new.input_faults }
        ensures input { self.new.input ≡ self.old.input }
        ensures taken { self.new.span.taken ≡ self.old.span.taken }
        ensures pulled_before { self.new.span.pulled_before ≡ self.old.span.pulled_before }
        ensures disk_faults { (side_memory self.new).disk_faults ≡ (side_memory self.old).disk_faults }
        ensures rest { HasSameRest (twin_pair self.old) (twin_pair self.new) }
    {
        let fails = self.is_listed();
        match self.enter(SideCall::Passed) {
            Ok(()) => {
                if fails {
                    self.count_input();
                    return Err(Failed);
                }
                return Ok(());
            }
            Err(NoMemory) => {
                self.count_input();
                return Err(Failed);
            }
        }
    }

    // Counts a fault of the input.
    fn count_input(&mut self)
        ensures raised { self.new ≡ record self.old { input_faults = next_count self.old.input_faults } }
        ensures monotone { self.old.input_faults ≤ self.new.input_faults }
    {
        self.input_faults = self.input_faults.saturating_add(1);
    }

    // Takes the next bytes of the input.
    fn take_next(&mut self, buf: &mut [u8]) -> usize
        requires { 0 < length buf.old }
        ensures bound { result ≤ length buf.new }
        ensures full { result ≡ min (length self.old.input) (length buf.new) }
        ensures given { Gives self.old.input buf.new result }
        ensures left { self.new.input ≡ drop result self.old.input }
        ensures taken { self.new.span.taken ≡ self.old.span.taken + result }
        ensures began { 0 < result → self.new.span.pulled_before ≡ self.old.span.taken }
        ensures ended { result ≡ 0 → self.new.span.pulled_before ≡ self.old.span.pulled_before }
        ensures announced { self.new.span.announced ≡ self.old.span.announced }
        ensures span { self.new.span ≡ record self.old.span { taken = self.new.span.taken; pulled_before = self.new.span.pulled_before } }
        ensures entries { self.new.entries ≡ self.old.entries }
        ensures turned { self.new.turned ≡ self.old.turned }
        ensures first { self.new.first ≡ self.old.first }
        ensures second { self.new.second ≡ self.old.second }
        ensures failing { self.new.failing ≡ self.old.failing }
        ensures dead_first { self.new.dead_first ≡ self.old.dead_first }
        ensures dead_second { self.new.dead_second ≡ self.old.dead_second }
        ensures input_faults { self.new.input_faults ≡ self.old.input_faults }
    {
        let n = copy_next(&self.input, self.span.taken, buf);
        if n > 0 {
            self.span.pulled_before = self.span.taken;
        }
        self.span.taken += n;
        n
    }
}

impl Deck for MemTwin {
    ghost tells = { memory_tells };

    ghost state = { twin_state };

    ghost same_rest = { λ old new. HasSameRest (twin_pair old) (twin_pair new) };

    ghost sound = { λ d. memory_is_sound (side_memory d) };

    ghost rest_here = { twin_rest_here };

    ghost rest_then = { twin_rest_then };

    fn size(&mut self) -> Result<u64, Failed>
        ensures answer { IfOk result (λ n. n ≡ (twin_state self.new).extent) }
        ensures learns { LearnsExtent memory_tells (twin_state self.old) (twin_state self.new) }
        ensures disk { KeepsDisk (twin_state self.old) (twin_state self.new) }
        ensures passes { Passes memory_tells (twin_state self.old) (twin_state self.new) }
        ensures succeeds { OnOk result (Succeeds (twin_state self.old) (twin_state self.new)) }
        ensures cause { OnErr result (Rose (twin_state self.old).disk_faults (twin_state self.new).disk_faults) }
        ensures moments { EachMoment memory_tells (twin_state self.old) (twin_state self.new) (Within (twin_state self.old) (twin_state self.new)) }
        ensures rest { HasSameRest (twin_pair self.old) (twin_pair self.new) }
        ensures listed { IsToFail self.old → IsErr result }
        ensures unlisted { OnErr result (IsFailedTwinCall self.old self.new) }
        ensures entered { OnOk result (IsTwinEntered Passed self.old self.new) }
        ensures failed { OnErr result (IsTwinFailed Passed self.old self.new ⊎ IsTwinLost self.old self.new) }
    {
        self.pass(SideCall::Passed)?;
        Ok(self.side_image().len() as u64)
    }

    fn provide(&mut self, size: u64) -> Result<(), Failed>
        ensures provides { OnOk result ((twin_state self.old).extent ≡ 0 → Provides memory_tells size (twin_state self.new)) }
        ensures begins { OnErr result ((twin_state self.old).extent ≡ 0 → Begins memory_tells size (twin_state self.old) (twin_state self.new)) }
        ensures extent { 0 < (twin_state self.old).extent → (twin_state self.new).extent ≡ (twin_state self.old).extent }
        ensures disk { 0 < (twin_state self.old).extent → KeepsDisk (twin_state self.old) (twin_state self.new) }
        ensures passes { Passes memory_tells (twin_state self.old) (twin_state self.new) }
        ensures succeeds { OnOk result (Succeeds (twin_state self.old) (twin_state self.new)) }
        ensures cause { OnErr result (Rose (twin_state self.old).disk_faults (twin_state self.new).disk_faults) }
        ensures moments { EachMoment memory_tells (twin_state self.old) (twin_state self.new) (WithinProvide size (twin_state self.old) (twin_state self.new)) }
        ensures rest { HasSameRest (twin_pair self.old) (twin_pair self.new) }
        ensures listed { IsToFail self.old → IsErr result }
        ensures unlisted { OnErr result (IsFailedTwinCall self.old self.new) }
        ensures entered { OnOk result ((twin_state self.old).extent ≡ 0 → IsTwinEntered (Provided size) self.old self.new) }
        ensures failed { OnErr result ((twin_state self.old).extent ≡ 0
            → IsTwinFailed (FailedToProvide size) self.old self.new ⊎ IsTwinLost self.old self.new) }
        ensures passed { OnOk result (0 < (twin_state self.old).extent → IsTwinEntered Passed self.old self.new) }
        ensures refused { OnErr result (0 < (twin_state self.old).extent → IsTwinFailed Passed self.old self.new ⊎ IsTwinLost self.old self.new) }
        // one that failed and has a number may leave zeros of every length
        ensures zeros { OnErr result (HasOneTwinCallMore self.old self.new → (twin_state self.old).extent ≡ 0
            → (image : List ℕ) → IsZeros size image → (twin_state self.new).may_leave image) }
    {
        if !self.side_image().is_empty() {
            self.pass(SideCall::Passed)?;
            return Ok(());
        }
        let size = size as usize;
        if self.fails() {
            return Err(self.fail(SideCall::FailedToProvide { size }));
        }
        self.make(size)?;
        Ok(())
    }

    fn read(&mut self, at: u64, buf: &mut [u8]) -> Result<(), Failed>
        requires { at + length buf.old ≤ (twin_state self.old).extent }
        ensures reads { OnOk result (Reads memory_tells at (twin_state self.old) buf.new) }
        ensures extent { (twin_state self.new).extent ≡ (twin_state self.old).extent }
        ensures disk { KeepsDisk (twin_state self.old) (twin_state self.new) }
        ensures passes { Passes memory_tells (twin_state self.old) (twin_state self.new) }
        ensures succeeds { OnOk result (Succeeds (twin_state self.old) (twin_state self.new)) }
        ensures cause { OnErr result (Rose (twin_state self.old).disk_faults (twin_state self.new).disk_faults) }
        ensures moments { EachMoment memory_tells (twin_state self.old) (twin_state self.new) (Within (twin_state self.old) (twin_state self.new)) }
        ensures rest { HasSameRest (twin_pair self.old) (twin_pair self.new) }
        ensures listed { IsToFail self.old → IsErr result }
        ensures unlisted { OnErr result (IsFailedTwinCall self.old self.new) }
        ensures entered { OnOk result (IsTwinEntered Passed self.old self.new) }
        ensures failed { OnErr result (IsTwinFailed Passed self.old self.new ⊎ IsTwinLost self.old self.new) }
    {
        self.pass(SideCall::Passed)?;
        copy_from(self.side_image(), at as usize, buf);
        Ok(())
    }

    fn write(&mut self, at: u64, bytes: &[u8]) -> Result<(), Failed>
        requires { at + length bytes.now ≤ (twin_state self.old).extent }
        ensures writes { OnOk result (Writes memory_tells at bytes.now (twin_state self.old) (twin_state self.new)) }
        ensures tears { Tears memory_tells at (length bytes.now) (twin_state self.old) (twin_state self.new) }
        ensures extent { (twin_state self.new).extent ≡ (twin_state self.old).extent }
        ensures passes { Passes memory_tells (twin_state self.old) (twin_state self.new) }
        ensures succeeds { OnOk result (Succeeds (twin_state self.old) (twin_state self.new)) }
        ensures cause { OnErr result (Rose (twin_state self.old).disk_faults (twin_state self.new).disk_faults) }
        ensures moments { EachMoment memory_tells (twin_state self.old) (twin_state self.new) (Within (twin_state self.old) (twin_state self.new)) }
        ensures rest { HasSameRest (twin_pair self.old) (twin_pair self.new) }
        ensures listed { IsToFail self.old → IsErr result }
        ensures unlisted { OnErr result (IsFailedTwinCall self.old self.new) }
        ensures entered { OnOk result ((copy : Vec ℕ Global) × (copy.items ≡ bytes.now) × IsTwinEntered (Wrote at copy) self.old self.new) }
        ensures failed { OnErr result (((copy : Vec ℕ Global) × (copy.items ≡ bytes.now) × IsTwinFailed (FailedToWrite at copy) self.old self.new)
            ⊎ IsTwinLost self.old self.new) }
        // a failed write that has a number is pending
        ensures torn { OnErr result (HasOneTwinCallMore self.old self.new → (from image : List ℕ) → (twin_state self.old).may_leave from
            → Torn at (length bytes.now) from image → (twin_state self.new).may_leave image) }
    {
        let at = at as usize;
        if self.fails() {
            return Err(self.fail_write(at, bytes));
        }
        self.put(at, bytes)?;
        Ok(())
    }

    fn sync(&mut self) -> Result<(), Failed>
        ensures settles { OnOk result (IsTrue memory_tells.stops → IsSettled (twin_state self.new)) }
        ensures held { (twin_state self.new).held ≡ (twin_state self.old).held }
        ensures no_more { (image : List ℕ) → (twin_state self.new).may_leave image → (twin_state self.old).may_leave image }
        ensures pending { OnErr result (KeepsDisk (twin_state self.old) (twin_state self.new)) }
        ensures extent { (twin_state self.new).extent ≡ (twin_state self.old).extent }
        ensures passes { Passes memory_tells (twin_state self.old) (twin_state self.new) }
        ensures succeeds { OnOk result (Succeeds (twin_state self.old) (twin_state self.new)) }
        ensures cause { OnErr result (Rose (twin_state self.old).disk_faults (twin_state self.new).disk_faults) }
        ensures moments { EachMoment memory_tells (twin_state self.old) (twin_state self.new) (Within (twin_state self.old) (twin_state self.new)) }
        ensures rest { HasSameRest (twin_pair self.old) (twin_pair self.new) }
        ensures listed { IsToFail self.old → IsErr result }
        ensures unlisted { OnErr result (IsFailedTwinCall self.old self.new) }
        ensures entered { OnOk result (IsTwinEntered Synced self.old self.new) }
        ensures failed { OnErr result (IsTwinFailed Passed self.old self.new ⊎ IsTwinLost self.old self.new) }
    {
        self.pass(SideCall::Synced)?;
        Ok(())
    }

    fn announce(&mut self, count: u64)
        ensures announces { Announces count (twin_state self.old) (twin_state self.new) }
        ensures disk { LeavesDisk (twin_state self.old) (twin_state self.new) }
        ensures input { KeepsInput (twin_state self.old) (twin_state self.new) }
        ensures input_faults { (twin_state self.new).input_faults ≡ (twin_state self.old).input_faults }
        ensures time { Elapses memory_tells (twin_state self.old) (twin_state self.new) }
        ensures moments { EachMoment memory_tells (twin_state self.old) (twin_state self.new) (IsNow (twin_state self.new)) }
        ensures rest { HasSameRest (twin_pair self.old) (twin_pair self.new) }
        ensures only { self.new ≡ record self.old { span = record self.old.span { announced = self.new.span.announced } } }
    {
        self.tell(count);
    }

    fn pull(&mut self, buf: &mut [u8]) -> Result<usize, Failed>
        requires { 0 < length buf.old }
        ensures bound { IfOk result (λ n. n ≤ length buf.new) }
        ensures pulls { IfOk result (GivesPiece memory_tells (twin_state self.old) (twin_state self.new) buf.new) }
        ensures kept { OnErr result (KeepsInput (twin_state self.old) (twin_state self.new)) }
        ensures cause { OnErr result (Rose (twin_state self.old).input_faults (twin_state self.new).input_faults) }
        ensures monotone { (twin_state self.old).input_faults ≤ (twin_state self.new).input_faults }
        ensures disk { LeavesDisk (twin_state self.old) (twin_state self.new) }
        ensures announced { KeepsAnnounced (twin_state self.old) (twin_state self.new) }
        ensures fresh { OnOk result (HasOneAnnounced (twin_state self.new)) }
        ensures time { Elapses memory_tells (twin_state self.old) (twin_state self.new) }
        ensures moments { EachMoment memory_tells (twin_state self.old) (twin_state self.new) (Within (twin_state self.old) (twin_state self.new)) }
        ensures rest { HasSameRest (twin_pair self.old) (twin_pair self.new) }
        ensures listed { IsTwinListed self.old → IsErr result }
        ensures unlisted { OnErr result (IsFailedPull self.old self.new) }
        ensures entered { OnOk result (IsTwinEntered Passed self.old self.new) }
        ensures failed { OnErr result (IsTwinEntered Passed self.old self.new ⊎ IsUnpulled self.old self.new) }
        ensures counted { OnErr result (self.new.input_faults ≡ next_count self.old.input_faults) }
        ensures full { IfOk result (λ n. n ≡ min (length self.old.input) (length buf.new)) }
    {
        self.pass_pull()?;
        Ok(self.take_next(buf))
    }
}

impl Twin for MemTwin {
    ghost pair = { twin_pair };

    fn turn(&mut self, side: Side)
        ensures turns { Turns side (twin_pair self.old) (twin_pair self.new) }
        ensures only { self.new ≡ record self.old { turned = side } }
    {
        self.turned = side;
    }

    ghost faces = { λ d. twin_faces d.turned d };

    ghost sound_pair = { twin_is_sound };

    ghost leaves_rest = { λ old new same. same };
}

// Whether the number is one of these.
fn is_among(failing: &[u64], call: u64) -> bool
    ensures { IsTrue result ↔ Contains failing.now call }
{
    failing.contains(&call)
}

// Whether a disk that is dead from the call of this number on is so by this call.
fn is_dead_by(dead: Option<u64>, call: u64) -> bool
    ensures { IsTrue result ↔ IsDeadBy dead call }
{
    match dead {
        Some(from) => from <= call,
        None => false,
    }
}
