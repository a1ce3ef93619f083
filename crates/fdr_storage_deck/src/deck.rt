//! The deck over a storage and a stream.

ghost use Rattle.std.specs.Prelude.{◌≡◌, ◌<◌, ◌≤◌, length, drop, IfOk, OnOk, OnErr, IsTrue, ⊤};
ghost use Rattle.fdr_io.specs.Faults.{next_count};
ghost use Rattle.fdr_io.specs.Told.{Gives};
ghost use Rattle.fdr_deck.specs.Announced.{least_announced, greatest_announced};
ghost use Rattle.fdr_storage.specs.Calls.{Keeps, StartsCall};
ghost use Rattle.fdr_storage_deck.specs.Acknowledgements.{ack_text};
ghost use Rattle.fdr_storage_deck.specs.Runs.{Runs, Takes};
ghost use Rattle.fdr_storage_deck.specs.State.{deck_tells, deck_state, deck_is_sound};

use crate::counted::count;
use crate::tries::read_on;
use crate::{CountedFile, ImageFile};
use fdr_deck::{Announced, Deck};
use fdr_io::{Failed, PIECE};
use fdr_line::Line;
use fdr_storage::{Named, Numbers, Stream};
use std::io::{ErrorKind, Write};

/// The deck over a file in a storage and a stream. Its announcements are lines that go to a writer.
#[derive(Drop)]
pub struct StorageDeck<S: Named + Drop, I: Stream + Drop, A: Write + Drop> {
    disk: CountedFile<S>,
    stream: I,
    acknowledgements: A,
    numbers: Numbers,
    input_faults: u64,
}

/// Takes the next bytes of the stream. Where more would be taken than 64 bits hold, that is an error, and none are taken.
pub fn take<S: Named + Drop, I: Stream>(
    disk: &mut CountedFile<S>,
    stream: &mut I,
    numbers: &mut Numbers,
    buf: &mut [u8],
) -> Result<usize, Failed>
    requires { 0 < length buf.old }
    ensures bound { IfOk result (λ n. n ≤ length buf.new) }
    ensures given { IfOk result (λ n. IsTrue I.tells → Gives (I.rest stream.old) buf.new n) }
    ensures left { IfOk result (λ n. IsTrue I.tells → I.rest stream.new ≡ drop n (I.rest stream.old)) }
    ensures kept { OnErr result (I.rest stream.new ≡ I.rest stream.old) }
    ensures keeps { Keeps (S.disk disk.old.image.storage) (S.disk disk.new.image.storage) }
    ensures faults { disk.new.faults ≡ disk.old.faults }
    ensures extent { disk.new.image.extent ≡ disk.old.image.extent }
    ensures starts { OnOk result (StartsCall S.tells numbers.old (S.disk disk.old.image.storage) (S.disk disk.new.image.storage)) }
    ensures takes { IfOk result (λ n. Takes n numbers.old numbers.new) }
    ensures runs { OnErr result (Runs S.tells numbers.old numbers.new (S.disk disk.old.image.storage) (S.disk disk.new.image.storage)) }
{
    disk.begin(numbers)?;
    if numbers.taken.checked_add(buf.len() as u64).is_none() {
        return Err(Failed);
    }
    let n = read_on(stream, buf)?;
    if n > 0 {
        numbers.pulled_before = numbers.taken;
    }
    numbers.taken += n as u64;
    Ok(n)
}

/// The line of an announcement, `ack COUNT`, which goes out in one write.
#[tactic(auto, using(fdr_line::proofs::Lengths::numbers))]
pub fn ack_line(count: u64) -> Line
    ensures { result ≡ ack_text count }
{
    let mut line = Line::new();
    line.add(b"ack ");
    line.add_number(count);
    line.add(b"\n");
    line
}

impl<S: Named + Drop, I: Stream + Drop, A: Write + Drop> StorageDeck<S, I, A> {
    /// A deck over this file, whose input is what this stream gives.
    pub fn new(image: ImageFile<S>, stream: I, acknowledgements: A) -> Self
        ensures image { result.disk.image ≡ image }
        ensures stream { result.stream ≡ stream }
        ensures announced { result.numbers.announced.number ≡ 0 }
        ensures least { least_announced result.numbers.announced ≡ 0 }
        ensures greatest { greatest_announced result.numbers.announced ≡ 0 }
        ensures taken { result.numbers.taken ≡ 0 }
        ensures pulled_before { result.numbers.pulled_before ≡ 0 }
        ensures disk_faults { result.disk.faults ≡ 0 }
        ensures input_faults { result.input_faults ≡ 0 }
    {
        StorageDeck {
            disk: CountedFile::new(image),
            stream,
            acknowledgements,
            numbers: Numbers {
                announced: Announced::new(),
                taken: 0,
                pulled_before: 0,
            },
            input_faults: 0,
        }
    }

    /// Undoes what `provide` did to the file.
    pub fn discard(&mut self) {
        self.disk.discard();
    }

    /// Why a call of the disk was refused or failed last, if one was or did.
    pub fn why(&self) -> Option<ErrorKind> {
        self.disk.why()
    }

    /// Why a read of the stream failed last, if one did.
    pub fn why_of_input(&self) -> Option<ErrorKind> {
        self.stream.last_error()
    }
}

impl<S: Named + Drop, I: Stream + Drop, A: Write + Drop> Deck for StorageDeck<S, I, A> {
    ghost tells = { deck_tells S.tells I.tells };

    ghost state = { λ d. deck_state S.tells (S.disk d.disk.image.storage) d.disk.image.extent (I.rest d.stream) d.numbers d.disk.faults d.input_faults };

    ghost same_rest = { λ old new. ⊤ };

    ghost sound = { λ d. deck_is_sound S.tells I.tells (S.disk d.disk.image.storage) d.disk.image.extent (I.rest d.stream) d.numbers d.disk.faults d.input_faults
        (S.sound d.disk.image.storage) };

    ghost rest_here = { λ deck. tt };

    ghost rest_then = { λ old middle new first second. tt };

    fn size(&mut self) -> Result<u64, Failed> {
        self.disk.size(&mut self.numbers)
    }

    fn provide(&mut self, size: u64) -> Result<(), Failed> {
        self.disk.provide(&mut self.numbers, size)
    }

    fn read(&mut self, at: u64, buf: &mut [u8]) -> Result<(), Failed> {
        self.disk.read(&mut self.numbers, at, buf)
    }

    fn write(&mut self, at: u64, bytes: &[u8]) -> Result<(), Failed> {
        self.disk.write(&mut self.numbers, at, bytes)
    }

    fn sync(&mut self) -> Result<(), Failed> {
        self.disk.sync(&mut self.numbers)
    }

    // That an acknowledgement can't be written changes nothing.
    fn announce(&mut self, count: u64) {
        self.numbers.announced.announce(count);
        let _ = self.acknowledgements.write_all(ack_line(count).bytes());
    }

    fn pull(&mut self, buf: &mut [u8]) -> Result<usize, Failed> {
        let room = buf.len().min(PIECE);
        let outcome = take(
            &mut self.disk,
            &mut self.stream,
            &mut self.numbers,
            &mut buf[..room],
        );
        count(&mut self.input_faults, outcome)
    }
}
