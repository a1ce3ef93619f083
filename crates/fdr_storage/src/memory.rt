//! The storage in memory, whose calls fail, come short or are interrupted by a table.

ghost use Rattle.std.specs.Prelude.{◌≡◌, ℕ, ◌+◌, ◌^◌, ◌<◌, ◌≤◌, [], ◌∷◌, ◌++◌, Vec, length, replicate, false, IfOk, OnOk, OnErr};
ghost use Rattle.std.proofs.Common.{◌∙◌};
ghost use Rattle.std.specs.declared.alloc.Global.{Global};
ghost use Rattle.fdr_io.specs.Faults.{next_count};
ghost use Rattle.fdr_deck.specs.Disk.{patched};
ghost use Rattle.fdr_storage.specs.Memory.{memory_told, memory_disk, bytes_after};
ghost use Rattle.fdr_storage.specs.MemorySound.{storage_is_sound};
ghost use Rattle.fdr_storage.specs.Calls.{IsFileSettled, ReadsFile};
ghost use Rattle.fdr_storage.specs.Names.{Idles, Fails};
ghost use Rattle.fdr_storage.specs.Disk.{span_of, begun_of};
ghost use Rattle.fdr_storage.specs.declared.entries.Step.TheVariants.{Write, Grow};

use crate::entries::{Entry, Step, enter, moved, next_outcome};
use crate::{Absence, Kind, Lock, Look, Named, Node, Numbers, Outcome, Refusal, Storage};
use fdr_deck::{Announced, NoMemory, copy_of, patch, zeros_of};
use fdr_io::Failed;
use std::alloc::Global;
use std::io::ErrorKind;

// What is seen of it.
const LOOK: Look = Look {
    kind: Kind::File,
    node: Node {
        device: 0,
        number: 0,
    },
};

/// A storage in memory that tells all. What each call of the system does is said by a table. It keeps a list of its calls,
/// so that what a stop within each of them leaves can be had afterwards. A call that finds no memory fails.
#[derive(Drop)]
pub struct MemStorage {
    alloc: Global,
    first: Vec<u8>,
    held: Vec<u8>,
    entries: Vec<Entry>,
    begun: Numbers,
    outcomes: Vec<Outcome>,
    next: usize,
    faults: u64,
    interruptions: u64,
    whole: bool,
    flushed: bool,
    there: bool,
    ghost absent: { there ≡ false → held.items ≡ [] },
    ghost same: { bytes_after entries.items first.items ≡ held.items },
    ghost fits: { length held.items < 2 ^ 64 },
}

impl MemStorage {
    /// A settled storage with these bytes.
    #[tactic(auto, unfolding(crate::specs::Memory::bytes_after, crate::specs::Memory::leavings_after))]
    pub fn new(
        alloc: Global,
        first: Vec<u8>,
        outcomes: Vec<Outcome>,
    ) -> Result<MemStorage, NoMemory>
        ensures held { IfOk result (λ s. bytes_after s.entries.items s.first.items ≡ first.items) }
        ensures settled { IfOk result (λ s. IsFileSettled (memory_disk s.first.items s.entries.items s.begun s.faults s.interruptions s.whole s.flushed)) }
    {
        let held = copy_of(alloc, &first)?;
        Ok(MemStorage {
            alloc,
            first,
            held,
            entries: Vec::new(alloc),
            begun: Numbers {
                announced: Announced::new(),
                taken: 0,
                pulled_before: 0,
            },
            outcomes,
            next: 0,
            faults: 0,
            interruptions: 0,
            whole: false,
            flushed: false,
            there: true,
        })
    }

    /// The same storage, of whose name there is nothing.
    pub fn without_name(self) -> MemStorage
        requires { self.held.items ≡ [] }
        ensures storage { result.held.items ≡ self.held.items }
        ensures there { result.there ≡ false }
    {
        let mut storage = self;
        storage.there = false;
        storage
    }

    // What comes of a call that leaves the storage as it is.
    fn idle_call(&mut self) -> Result<(), Failed>
        ensures idles { OnOk result (Idles memory_told
            (memory_disk self.old.first.items self.old.entries.items self.old.begun self.old.faults self.old.interruptions self.old.whole self.old.flushed)
            (memory_disk self.new.first.items self.new.entries.items self.new.begun self.new.faults self.new.interruptions self.new.whole self.new.flushed)) }
        ensures fails { OnErr result (Fails memory_told
            (memory_disk self.old.first.items self.old.entries.items self.old.begun self.old.faults self.old.interruptions self.old.whole self.old.flushed)
            (memory_disk self.new.first.items self.new.entries.items self.new.begun self.new.faults self.new.interruptions self.new.whole self.new.flushed)) }
        ensures there { self.new.there ≡ self.old.there }
    {
        match next_outcome(&self.outcomes, &mut self.next) {
            Outcome::Interrupted | Outcome::Failed => {
                add_one(&mut self.faults);
                Err(Failed)
            }
            Outcome::Whole | Outcome::Short(_) => Ok(()),
        }
    }

    /// The bytes that are held.
    pub fn bytes(&self) -> &[u8]
        ensures { result.now ≡ bytes_after self.now.entries.items self.now.first.items }
    {
        &self.held
    }
}

impl Storage for MemStorage {
    ghost tells = { memory_told };

    ghost disk = { λ s. memory_disk s.first.items s.entries.items s.begun s.faults s.interruptions s.whole s.flushed };

    ghost sound = { λ s. storage_is_sound s.first.items s.entries.items s.begun s.faults s.interruptions s.whole s.flushed s.held.items s.same s.fits };

    fn begin(&mut self, numbers: Numbers) -> Result<(), Failed> {
        match enter(&mut self.entries, Step::Begin, numbers) {
            Ok(()) => {
                self.begun = begun_with(numbers);
                return Ok(());
            }
            Err(NoMemory) => {
                add_one(&mut self.faults);
                return Err(Failed);
            }
        }
    }

    fn length(&mut self) -> Result<u64, Refusal> {
        match next_outcome(&self.outcomes, &mut self.next) {
            Outcome::Interrupted => {
                add_one(&mut self.interruptions);
                return Err(Refusal::Interrupted);
            }
            Outcome::Failed => {
                add_one(&mut self.faults);
                return Err(Refusal::Failed);
            }
            Outcome::Whole | Outcome::Short(_) => return Ok(self.held.len() as u64),
        }
    }

    fn read_at(&mut self, at: u64, buf: &mut [u8]) -> Result<usize, Refusal> {
        match next_outcome(&self.outcomes, &mut self.next) {
            Outcome::Interrupted => {
                add_one(&mut self.interruptions);
                return Err(Refusal::Interrupted);
            }
            Outcome::Failed => {
                add_one(&mut self.faults);
                return Err(Refusal::Failed);
            }
            outcome => return Ok(copy_some(&self.held, at as usize, outcome, buf)),
        }
    }

    fn write_at(&mut self, at: u64, bytes: &[u8]) -> Result<usize, Refusal> {
        let at = at as usize;
        match next_outcome(&self.outcomes, &mut self.next) {
            Outcome::Interrupted => {
                add_one(&mut self.interruptions);
                return Err(Refusal::Interrupted);
            }
            Outcome::Failed => {
                let count = bytes.len();
                self.flushed = false;
                match enter(&mut self.entries, Step::Tear { at, count }, self.begun) {
                    Ok(()) => {
                        add_one(&mut self.faults);
                        return Err(Refusal::Failed);
                    }
                    Err(NoMemory) => {
                        add_one(&mut self.faults);
                        return Err(Refusal::Failed);
                    }
                }
            }
            outcome => {
                let count = moved(outcome, bytes.len());
                self.flushed = false;
                self.there = true;
                match put(
                    self.alloc,
                    &mut self.entries,
                    &mut self.held,
                    self.begun,
                    at,
                    &bytes[..count],
                ) {
                    Ok(()) => return Ok(count),
                    Err(NoMemory) => {
                        add_one(&mut self.faults);
                        return Err(Refusal::Failed);
                    }
                }
            }
        }
    }

    fn grow(&mut self, at: u64, count: usize) -> Result<usize, Refusal> {
        let at = at as usize;
        match next_outcome(&self.outcomes, &mut self.next) {
            Outcome::Interrupted => {
                add_one(&mut self.interruptions);
                return Err(Refusal::Interrupted);
            }
            Outcome::Failed => {
                self.whole = false;
                self.flushed = false;
                match enter(
                    &mut self.entries,
                    Step::Pad { most: at + count },
                    self.begun,
                ) {
                    Ok(()) => {
                        add_one(&mut self.faults);
                        return Err(Refusal::Failed);
                    }
                    Err(NoMemory) => {
                        add_one(&mut self.faults);
                        return Err(Refusal::Failed);
                    }
                }
            }
            outcome => {
                let grown = moved(outcome, count);
                self.whole = false;
                self.flushed = false;
                self.there = true;
                match lengthen(
                    self.alloc,
                    &mut self.entries,
                    &mut self.held,
                    self.begun,
                    at + grown,
                ) {
                    Ok(()) => return Ok(grown),
                    Err(NoMemory) => {
                        add_one(&mut self.faults);
                        return Err(Refusal::Failed);
                    }
                }
            }
        }
    }

    fn sync(&mut self) -> Result<(), Refusal> {
        match next_outcome(&self.outcomes, &mut self.next) {
            Outcome::Interrupted => {
                add_one(&mut self.interruptions);
                return Err(Refusal::Interrupted);
            }
            Outcome::Failed => {
                add_one(&mut self.faults);
                return Err(Refusal::Failed);
            }
            Outcome::Whole | Outcome::Short(_) => {
                if !self.whole {
                    return Ok(());
                }
                match enter(&mut self.entries, Step::Sync, self.begun) {
                    Ok(()) => return Ok(()),
                    Err(NoMemory) => {
                        add_one(&mut self.faults);
                        return Err(Refusal::Failed);
                    }
                }
            }
        }
    }

    fn sync_all(&mut self) -> Result<(), Refusal> {
        match next_outcome(&self.outcomes, &mut self.next) {
            Outcome::Interrupted => {
                add_one(&mut self.interruptions);
                return Err(Refusal::Interrupted);
            }
            Outcome::Failed => {
                add_one(&mut self.faults);
                return Err(Refusal::Failed);
            }
            Outcome::Whole | Outcome::Short(_) => {
                self.flushed = true;
                return Ok(());
            }
        }
    }

    fn sync_name(&mut self) -> Result<(), Refusal> {
        match next_outcome(&self.outcomes, &mut self.next) {
            Outcome::Interrupted => {
                add_one(&mut self.interruptions);
                return Err(Refusal::Interrupted);
            }
            Outcome::Failed => {
                add_one(&mut self.faults);
                return Err(Refusal::Failed);
            }
            Outcome::Whole | Outcome::Short(_) => {
                if !self.flushed {
                    return Ok(());
                }
                match enter(&mut self.entries, Step::Sync, self.begun) {
                    Ok(()) => {
                        self.whole = true;
                        return Ok(());
                    }
                    Err(NoMemory) => {
                        add_one(&mut self.faults);
                        return Err(Refusal::Failed);
                    }
                }
            }
        }
    }
}

impl Named for MemStorage {
    ghost there = { λ s. s.there };

    fn name(&self) -> &str {
        "memory"
    }

    fn look(&mut self) -> Result<Look, Absence> {
        match self.idle_call() {
            Ok(()) if self.there => Ok(LOOK),
            Ok(()) => Err(Absence::NotFound),
            Err(Failed) => Err(Absence::Failed),
        }
    }

    fn look_at_name(&mut self) -> Result<(), Absence> {
        match self.idle_call() {
            Ok(()) if self.there => Ok(()),
            Ok(()) => Err(Absence::NotFound),
            Err(Failed) => Err(Absence::Failed),
        }
    }

    fn open(&mut self, _writes: bool) -> Result<(), Absence> {
        match self.idle_call() {
            Ok(()) if self.there => Ok(()),
            Ok(()) => Err(Absence::NotFound),
            Err(Failed) => Err(Absence::Failed),
        }
    }

    fn look_at_open(&mut self) -> Result<Look, Failed> {
        self.idle_call()?;
        Ok(LOOK)
    }

    fn lock(&mut self, _alone: bool) -> Result<Lock, Failed> {
        self.idle_call()?;
        Ok(Lock::Taken)
    }

    fn open_folder(&mut self) -> Result<(), Failed> {
        self.idle_call()
    }

    fn make(&mut self) -> Result<(), Failed> {
        self.idle_call()?;
        if self.there {
            add_one(&mut self.faults);
            return Err(Failed);
        }
        self.there = true;
        Ok(())
    }

    // Its calls can't be undone.
    fn empty(&mut self) -> Result<(), Failed> {
        Err(Failed)
    }

    // Its calls can't be undone.
    fn remove(&mut self) -> Result<(), Failed> {
        Err(Failed)
    }

    fn last_error(&self) -> Option<ErrorKind> {
        None
    }

    ghost absent = { λ s told gone. s.same ∙ s.absent gone };
}

// Counts one more.
fn add_one(count: &mut u64)
    ensures { count.new ≡ next_count count.old }
{
    *count = count.saturating_add(1);
}

// Writes these bytes there, and enters that.
fn put(
    alloc: Global,
    entries: &mut Vec<Entry>,
    held: &mut Vec<u8>,
    begun: Numbers,
    at: usize,
    bytes: &[u8],
) -> Result<(), NoMemory>
    requires { at + length bytes.now ≤ length held.old.items }
    ensures entered { OnOk result ((copy : Vec ℕ Global) × (copy.items ≡ bytes.now)
        × (entries.new.items ≡ entries.old.items ++ (record { step = Write at copy; numbers = begun } ∷ []))) }
    ensures written { OnOk result (held.new.items ≡ patched at bytes.now held.old.items) }
    ensures unentered { OnErr result (entries.new.items ≡ entries.old.items) }
    ensures unwritten { OnErr result (held.new.items ≡ held.old.items) }
{
    let copy = copy_of(alloc, bytes)?;
    enter(entries, Step::Write { at, bytes: copy }, begun)?;
    patch(held, at, bytes);
    Ok(())
}

// These numbers, once a call began.
fn begun_with(numbers: Numbers) -> Numbers
    ensures { span_of result ≡ begun_of numbers }
{
    let mut begun = numbers;
    begun.announced.begin_anew();
    begun
}

// Copies some bytes from there on to the front of the buffer.
fn copy_some(held: &[u8], at: usize, outcome: Outcome, buf: &mut [u8]) -> usize
    ensures bound { result ≤ length buf.new }
    ensures reads { ReadsFile at result held.now buf.new }
{
    let left = match held.get(at..) {
        Some(left) => left,
        None => return 0,
    };
    let count = moved(outcome, left.len().min(buf.len()));
    buf[..count].copy_from_slice(&left[..count]);
    count
}

// Puts zeros at the end of a file of zeros, up to this length, and enters that.
fn lengthen(
    alloc: Global,
    entries: &mut Vec<Entry>,
    held: &mut Vec<u8>,
    begun: Numbers,
    most: usize,
) -> Result<(), NoMemory>
    ensures entered { OnOk result (entries.new.items ≡ entries.old.items ++ (record { step = Grow most; numbers = begun } ∷ [])) }
    ensures grown { OnOk result (held.new.items ≡ replicate most 0) }
    ensures unentered { OnErr result (entries.new.items ≡ entries.old.items) }
    ensures ungrown { OnErr result (held.new.items ≡ held.old.items) }
{
    let zeros = zeros_of(alloc, most)?;
    enter(entries, Step::Grow { most }, begun)?;
    *held = zeros;
    Ok(())
}
