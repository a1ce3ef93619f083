//! Making an image.

ghost use Rattle.std.specs.Prelude.{◌≡◌, ◌≤◌, ℕ, List, Option, ◌≢◌};
ghost use Rattle.fdr_frame.specs.WordCount.{IsWordCount};
ghost use Rattle.fdr_top.specs.Answers.{IsOwn};
ghost use Rattle.fdr_top.specs.Format.{Makes, new_header};
ghost use Rattle.fdr_slot.specs.Limits.{least_payload_bytes, least_slot_count, most_payload_bytes, most_slot_count};
ghost use Rattle.fdr_words.specs.Forms.{format_image};
ghost use Rattle.fdr_top.specs.Commands.{Works};

use crate::outcome::Outcome;
use fdr_check::Sound;
use fdr_deck::Deck;
use fdr_recover::RingFault;
use fdr_slot::Header;
use std::alloc::Global;

/// The header of a new image for the frames of a table.
fn new_header(sound: &Sound, slots: u32, payload: u32) -> Header
    ensures { result ≡ new_header slots payload sound.now.frame.words }
{
    Header {
        slots,
        payload,
        words: sound.table().frame().words,
        version: 2,
    }
}

/// Makes an image without blocks on a disk of length 0, and gives the answer.
fn make_image<D: Deck>(sound: &Sound, slots: u32, payload: u32, deck: &mut D) -> Outcome
    requires least_slots { least_slot_count ≤ slots }
    requires most_slots { slots ≤ most_slot_count }
    requires least_payload { least_payload_bytes ≤ payload }
    requires most_payload { payload ≤ most_payload_bytes }
    requires word_count { IsWordCount sound.now.frame.words }
    ensures answer { (path image : List ℕ) → IsOwn (format_image path image slots payload) result }
    ensures makes { Makes (new_header slots payload sound.now.frame.words) D.tells (D.state deck.old) (D.state deck.new) result }
    ensures no_disk_fault { result ≢ Outcome.DiskFault → (D.state deck.new).disk_faults ≡ (D.state deck.old).disk_faults }
{
    let header = new_header(sound, slots, payload);
    match fdr_ring::format(deck, &header) {
        Ok(_) => Outcome::Done,
        Err(RingFault::NotEmpty) => Outcome::NotEmpty,
        Err(_) => Outcome::DiskFault,
    }
}

/// `format`: makes an image without blocks for a table's frames.
pub fn format<D: Deck>(sound: &Sound, slots: u32, payload: u32, deck: &mut D) -> Outcome
    requires least_slots { least_slot_count ≤ slots }
    requires most_slots { slots ≤ most_slot_count }
    requires least_payload { least_payload_bytes ≤ payload }
    requires most_payload { payload ≤ most_payload_bytes }
    requires word_count { IsWordCount sound.now.frame.words }
    ensures works { (path image : List ℕ) (written : Option (List ℕ)) (faults : ℕ)
        → Works (format_image path image slots payload) sound.now (record {
          tells = D.tells;
          old = D.state deck.old;
          new = D.state deck.new;
          written_before = written;
          written_now = written;
          sink_before = faults;
          sink_now = faults;
          answer = result;
        }) }
{
    make_image(sound, slots, payload, deck)
}
