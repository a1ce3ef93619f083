//! The payloads of the blocks that an image holds.

ghost use Rattle.std.specs.Prelude.{◌≡◌, ◌≢◌, ◌⊎◌, ◌≤◌, ℕ, List, [], IsTrue};
ghost use Rattle.fdr_io.specs.Faults.{Rose};
ghost use Rattle.fdr_io.specs.Told.{followed_by};
ghost use Rattle.fdr_slot.specs.Limits.{IsInLimits};
ghost use Rattle.fdr_slot.specs.Places.{image_size};
ghost use Rattle.fdr_recover.specs.Images.{recovered_run};
ghost use Rattle.fdr_recover.specs.Looks.{Looks};
ghost use Rattle.fdr_top.specs.InputTexts.{WritesFront};
ghost use Rattle.fdr_recover.specs.Payloads.{payloads_of};
ghost use Rattle.fdr_top.specs.Recover.{header_refusal};
ghost use Rattle.fdr_words.specs.Forms.{recover_image};
ghost use Rattle.fdr_top.specs.Commands.{Works};
ghost use Rattle.fdr_table.specs.Rows.{TableRows};
ghost use Rattle.fdr_top.specs.Refusals.{HasHeader};

use crate::outcome::Outcome;
use fdr_deck::Deck;
use fdr_io::{Failed, OutBuffer, Sink};
use fdr_recover::{BlocksFault, RingFault, read_image_header, walk_blocks};
use fdr_slot::Header;
use std::alloc::Global;

/// The answer where the header of an image isn't read.
pub fn refusal(fault: RingFault) -> Outcome
    ensures { result ≡ header_refusal fault }
{
    match fault {
        RingFault::Image(fault) => Outcome::ImageRefused(fault),
        RingFault::NotEmpty | RingFault::DiskFault | RingFault::SeqEnd => Outcome::DiskFault,
    }
}

/// Writes the payloads of the recovered run, one after another, and gives the answer.
fn write_run<D: Deck, O: Sink>(
    deck: &mut D,
    h: &Header,
    buffer: &mut OutBuffer,
    out: &mut O,
) -> Outcome
    requires limits { IsInLimits h.now }
    requires whole { image_size h.now ≤ (D.state deck.old).extent }
    requires empty { buffer.old ≡ [] }
    ensures all { result ≡ Outcome.Done → IsTrue D.tells.bytes
        → O.written out.new ≡ followed_by (O.written out.old) (payloads_of (recovered_run h.now (D.state deck.old).held)) }
    ensures part { IsTrue D.tells.bytes
        → WritesFront (payloads_of (recovered_run h.now (D.state deck.old).held)) (O.written out.old) (O.written out.new) }
    ensures answer { (result ≡ Outcome.Done) ⊎ ((result ≡ Outcome.WriteFault) ⊎ (result ≡ Outcome.DiskFault)) }
    ensures disk_fault { result ≡ Outcome.DiskFault → Rose (D.state deck.old).disk_faults (D.state deck.new).disk_faults }
    ensures write_fault { result ≡ Outcome.WriteFault → Rose (O.faults out.old) (O.faults out.new) }
    ensures disk_unfailed { result ≢ Outcome.DiskFault → (D.state deck.new).disk_faults ≡ (D.state deck.old).disk_faults }
    ensures sink_unfailed { result ≢ Outcome.WriteFault → O.faults out.new ≡ O.faults out.old }
    ensures looks { Looks D.tells (D.state deck.old) (D.state deck.new) }
{
    match walk_blocks(deck, h, buffer, out) {
        Ok(()) => {}
        Err(BlocksFault::Disk) => return Outcome::DiskFault,
        Err(BlocksFault::Taker) => return Outcome::WriteFault,
    }
    match buffer.finish(out) {
        Ok(()) => Outcome::Done,
        Err(Failed) => Outcome::WriteFault,
    }
}

/// `recover`: writes the payloads of the blocks that the deck's image holds.
pub fn recover<D: Deck, O: Sink>(alloc: Global, deck: &mut D, out: &mut O) -> Outcome
    ensures works { (image : List ℕ) (t : TableRows) → Works (recover_image image) t (record {
      tells = D.tells;
      old = D.state deck.old;
      new = D.state deck.new;
      written_before = O.written out.old;
      written_now = O.written out.new;
      sink_before = O.faults out.old;
      sink_now = O.faults out.new;
      answer = result;
    }) }
    ensures memory { result ≡ Outcome.NoMemory → HasHeader D.tells (D.state deck.old) (D.state deck.new) }
{
    let header = match read_image_header(deck) {
        Ok(header) => header,
        Err(fault) => return refusal(fault),
    };
    let Ok(mut buffer) = OutBuffer::new(alloc) else {
        return Outcome::NoMemory;
    };
    write_run(deck, &header, &mut buffer, out)
}
