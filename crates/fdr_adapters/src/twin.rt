//! The twin over two storages and a stream.

ghost use Rattle.std.specs.Prelude.{◌≡◌};
ghost use Rattle.fdr_deck.specs.Announced.{least_announced, greatest_announced};
ghost use Rattle.fdr_twin.specs.Rest.{HasSameRest};
ghost use Rattle.fdr_twin.specs.declared.side.Side.TheVariants as side;
ghost use Rattle.fdr_adapters.specs.FaultLines.{side_fault_text};
ghost use Rattle.fdr_adapters.specs.Twins.{twin_tells, twin_disk, pair_over, state_over, pair_faces, twin_state_is_sound, pair_is_sound};
ghost use Rattle.fdr_adapters.specs.Twins.{pair_rest_here, pair_rest_then, twin_disk_is_measured};

use crate::tell_cause;
use fdr_deck::{Announced, Deck};
use fdr_io::{Failed, PIECE};
use fdr_storage::{Named, Numbers, Stream};
use fdr_storage_deck::{CountedFile, ImageFile, ack_line, count, take};
use fdr_twin::{Side, Twin};
use std::io::{ErrorKind, Write};
use std::mem::swap;

/// The twin over two files in storages and a stream. Its announcements are lines that go to a writer. There it also says once of a
/// disk that it failed, since the recording may go on with the other. It tells what its storages and its stream do, but no
/// moments: the two disks have no time in common.
#[derive(Drop)]
pub struct StorageTwin<S: Named + Drop, I: Stream + Drop, A: Write + Drop> {
    turned: Side,
    // The disk of the side that it is turned to.
    current: CountedFile<S>,
    other: CountedFile<S>,
    stream: I,
    acknowledgements: A,
    numbers: Numbers,
    input_faults: u64,
}

/// The line of the first fault of a disk.
fn fault_line(side: Side) -> &'static [u8]
    ensures { result.now ≡ side_fault_text side }
{
    match side {
        Side::First => b"fault first\n",
        Side::Second => b"fault second\n",
    }
}

// Tells why a disk failed, and that it did. That it can't be written changes nothing.
fn tell_fault<S: Named + Drop>(
    acknowledgements: &mut impl Write,
    side: Side,
    disk: &CountedFile<S>,
) {
    if let Some(cause) = disk.why() {
        tell_cause(acknowledgements, "fdrpair", disk.name(), cause);
    }
    let _ = acknowledgements.write_all(fault_line(side));
}

impl<S: Named + Drop, I: Stream + Drop, A: Write + Drop> StorageTwin<S, I, A> {
    /// A twin over these files, whose input is what this stream gives, turned to the first side.
    pub fn new(first: ImageFile<S>, second: ImageFile<S>, stream: I, acknowledgements: A) -> Self
        ensures turned { result.turned ≡ side.First }
        ensures first { result.current.image ≡ first }
        ensures second { result.other.image ≡ second }
        ensures stream { result.stream ≡ stream }
        ensures first_faults { result.current.faults ≡ 0 }
        ensures second_faults { result.other.faults ≡ 0 }
        ensures announced { result.numbers.announced.number ≡ 0 }
        ensures least { least_announced result.numbers.announced ≡ 0 }
        ensures greatest { greatest_announced result.numbers.announced ≡ 0 }
        ensures taken { result.numbers.taken ≡ 0 }
        ensures pulled_before { result.numbers.pulled_before ≡ 0 }
        ensures input_faults { result.input_faults ≡ 0 }
    {
        StorageTwin {
            turned: Side::First,
            current: CountedFile::new(first),
            other: CountedFile::new(second),
            stream,
            acknowledgements,
            numbers: Numbers {
                announced: Announced::new(),
                taken: 0,
                pulled_before: 0,
            },
            input_faults: 0,
        }
    }

    /// Why a call of the disk of this side did nothing, where that was no fault, which it has told already.
    pub fn why(&self, side: Side) -> Option<ErrorKind> {
        let disk = if self.turned == side {
            &self.current
        } else {
            &self.other
        };
        if disk.has_no_fault() {
            disk.why()
        } else {
            None
        }
    }

    /// Why a read of the stream failed last, if one did.
    pub fn why_of_input(&self) -> Option<ErrorKind> {
        self.stream.last_error()
    }
}

impl<S: Named + Drop, I: Stream + Drop, A: Write + Drop> Deck for StorageTwin<S, I, A> {
    ghost tells = { twin_tells S.tells I.tells };

    ghost state = { λ t. state_over (twin_disk S.tells (S.disk t.current.image.storage) t.current.image.extent t.current.faults)
        (I.rest t.stream) t.numbers t.input_faults };

    ghost same_rest = { λ old new. HasSameRest
        (pair_over old.turned
        (twin_disk S.tells (S.disk old.current.image.storage) old.current.image.extent old.current.faults)
        (twin_disk S.tells (S.disk old.other.image.storage) old.other.image.extent old.other.faults)
        (I.rest old.stream) old.numbers old.input_faults)
        (pair_over new.turned
        (twin_disk S.tells (S.disk new.current.image.storage) new.current.image.extent new.current.faults)
        (twin_disk S.tells (S.disk new.other.image.storage) new.other.image.extent new.other.faults)
        (I.rest new.stream) new.numbers new.input_faults) };

    ghost sound = { λ t. twin_state_is_sound S.tells I.tells
        (twin_disk S.tells (S.disk t.current.image.storage) t.current.image.extent t.current.faults)
        (I.rest t.stream) t.numbers t.input_faults
        (twin_disk_is_measured S.tells (S.disk t.current.image.storage) t.current.image.extent t.current.faults) };

    ghost rest_here = { λ t. pair_rest_here t.turned
        (twin_disk S.tells (S.disk t.current.image.storage) t.current.image.extent t.current.faults)
        (twin_disk S.tells (S.disk t.other.image.storage) t.other.image.extent t.other.faults)
        (I.rest t.stream) t.numbers t.input_faults };

    ghost rest_then = { λ old middle new first second. pair_rest_then
        (pair_over old.turned
        (twin_disk S.tells (S.disk old.current.image.storage) old.current.image.extent old.current.faults)
        (twin_disk S.tells (S.disk old.other.image.storage) old.other.image.extent old.other.faults)
        (I.rest old.stream) old.numbers old.input_faults)
        (pair_over middle.turned
        (twin_disk S.tells (S.disk middle.current.image.storage) middle.current.image.extent middle.current.faults)
        (twin_disk S.tells (S.disk middle.other.image.storage) middle.other.image.extent middle.other.faults)
        (I.rest middle.stream) middle.numbers middle.input_faults)
        (pair_over new.turned
        (twin_disk S.tells (S.disk new.current.image.storage) new.current.image.extent new.current.faults)
        (twin_disk S.tells (S.disk new.other.image.storage) new.other.image.extent new.other.faults)
        (I.rest new.stream) new.numbers new.input_faults)
        (λ t m since. since) first second };

    #[tactic(auto, using(crate::proofs::TwinRests::twin_rest))]
    fn size(&mut self) -> Result<u64, Failed> {
        let outcome = self.current.size(&mut self.numbers);
        if outcome.is_err() && self.current.has_one_fault() {
            tell_fault(&mut self.acknowledgements, self.turned, &self.current);
        }
        outcome
    }

    #[tactic(auto, using(crate::proofs::TwinRests::twin_rest))]
    fn provide(&mut self, size: u64) -> Result<(), Failed> {
        let outcome = self.current.provide(&mut self.numbers, size);
        if outcome.is_err() && self.current.has_one_fault() {
            tell_fault(&mut self.acknowledgements, self.turned, &self.current);
        }
        outcome
    }

    #[tactic(auto, using(crate::proofs::TwinRests::twin_rest))]
    fn read(&mut self, at: u64, buf: &mut [u8]) -> Result<(), Failed> {
        let outcome = self.current.read(&mut self.numbers, at, buf);
        if outcome.is_err() && self.current.has_one_fault() {
            tell_fault(&mut self.acknowledgements, self.turned, &self.current);
        }
        outcome
    }

    #[tactic(auto, using(crate::proofs::TwinRests::twin_rest))]
    fn write(&mut self, at: u64, bytes: &[u8]) -> Result<(), Failed> {
        let outcome = self.current.write(&mut self.numbers, at, bytes);
        if outcome.is_err() && self.current.has_one_fault() {
            tell_fault(&mut self.acknowledgements, self.turned, &self.current);
        }
        outcome
    }

    #[tactic(auto, using(crate::proofs::TwinRests::twin_rest))]
    fn sync(&mut self) -> Result<(), Failed> {
        let outcome = self.current.sync(&mut self.numbers);
        if outcome.is_err() && self.current.has_one_fault() {
            tell_fault(&mut self.acknowledgements, self.turned, &self.current);
        }
        outcome
    }

    // That an acknowledgement can't be written changes nothing.
    #[tactic(auto, using(crate::proofs::TwinRests::twin_rest))]
    fn announce(&mut self, count: u64) {
        self.numbers.announced.announce(count);
        let _ = self.acknowledgements.write_all(ack_line(count).bytes());
    }

    #[tactic(auto, using(crate::proofs::TwinRests::twin_rest))]
    fn pull(&mut self, buf: &mut [u8]) -> Result<usize, Failed> {
        let room = buf.len().min(PIECE);
        let outcome = take(
            &mut self.current,
            &mut self.stream,
            &mut self.numbers,
            &mut buf[..room],
        );
        count(&mut self.input_faults, outcome)
    }
}

impl<S: Named + Drop, I: Stream + Drop, A: Write + Drop> Twin for StorageTwin<S, I, A> {
    ghost pair = { λ t. pair_over t.turned
        (twin_disk S.tells (S.disk t.current.image.storage) t.current.image.extent t.current.faults)
        (twin_disk S.tells (S.disk t.other.image.storage) t.other.image.extent t.other.faults)
        (I.rest t.stream) t.numbers t.input_faults };

    #[tactic(auto, using(crate::proofs::TwinRests::turns_over, crate::proofs::TwinRests::turns_here))]
    fn turn(&mut self, side: Side) {
        if self.turned != side {
            swap(&mut self.current, &mut self.other);
            self.current.keep_apart_from(&self.other);
            self.turned = side;
        }
    }

    ghost faces = { λ t. pair_faces t.turned
        (twin_disk S.tells (S.disk t.current.image.storage) t.current.image.extent t.current.faults)
        (twin_disk S.tells (S.disk t.other.image.storage) t.other.image.extent t.other.faults)
        (I.rest t.stream) t.numbers t.input_faults };

    ghost sound_pair = { λ t. pair_is_sound S.tells I.tells t.turned
        (twin_disk S.tells (S.disk t.current.image.storage) t.current.image.extent t.current.faults)
        (twin_disk S.tells (S.disk t.other.image.storage) t.other.image.extent t.other.faults)
        (I.rest t.stream) t.numbers t.input_faults
        (twin_disk_is_measured S.tells (S.disk t.current.image.storage) t.current.image.extent t.current.faults)
        (twin_disk_is_measured S.tells (S.disk t.other.image.storage) t.other.image.extent t.other.faults) };

    ghost leaves_rest = { λ old new same. same };
}
