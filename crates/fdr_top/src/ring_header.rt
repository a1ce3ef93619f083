//! Images that are read by a ring in place of their header.

ghost use Rattle.std.specs.Prelude.{◌≡◌, ◌≢◌, ◌≤◌, Some, None, Err, IfOk, IfErr, IfSome, OnOk, IsTrue};
ghost use Rattle.fdr_io.specs.Faults.{Rose};
ghost use Rattle.fdr_frame.specs.WordCount.{IsWordCount};
ghost use Rattle.fdr_slot.specs.Headers.{header_of};
ghost use Rattle.fdr_slot.specs.Limits.{IsInLimits};
ghost use Rattle.fdr_slot.specs.Places.{image_size};
ghost use Rattle.fdr_words.specs.Forms.{IsRingInBounds};
ghost use Rattle.fdr_top.specs.List.{RefusesOpening};
ghost use Rattle.fdr_top.specs.Recover.{OnlyLooks};
ghost use Rattle.fdr_top.specs.Refusals.{IsReadable, RefusesBy, RefusesLength, ring_fault};
ghost use Rattle.fdr_top.specs.Salvage.{IsOpenedBy, salvage_header};

use crate::listing::{ImageReader, open_image, words_of};
use crate::outcome::Outcome;
use crate::upgrading::VERSION_2;
use fdr_check::Sound;
use fdr_deck::Deck;
use fdr_readout::EventReader;
use fdr_slot::{Header, ImageFault, image_size};
use std::alloc::Global;

/// The version that the first bytes of an image tell.
#[tactic(auto, unfolding(fdr_slot::specs::Headers::header_of))]
fn version_in(bytes: &[u8; 64]) -> u8
    ensures tells { result ≡ (header_of bytes.now).version }
    ensures least { 1 ≤ result }
    ensures most { result ≤ 2 }
{
    if bytes[1] == VERSION_2 { 2 } else { 1 }
}

/// Reads what an image has in place of a header where its slots and their payload are given: its length, which has to be that of
/// the ring, and its version.
fn read_ring<D: Deck>(
    sound: &Sound,
    slots: u32,
    payload: u32,
    deck: &mut D,
) -> Result<Header, Outcome>
    requires word_count { IsWordCount sound.now.frame.words }
    requires ring { IsRingInBounds slots payload }
    ensures limits { IfOk result IsInLimits }
    ensures whole { IfOk result (λ h. image_size h ≤ (D.state deck.new).extent) }
    ensures header { IsTrue D.tells.bytes
        → IfOk result (λ h. h ≡ salvage_header sound.now (Some (slots, payload)) (D.state deck.old).held) }
    ensures fits { OnOk result (ring_fault (slots, payload) (D.state deck.new).extent ≡ None) }
    ensures refused { IfErr result (RefusesLength (slots, payload) (D.state deck.new)) }
    ensures shut { IfErr result RefusesOpening }
    ensures not_memory { result ≢ Err Outcome.NoMemory }
    ensures looks { OnlyLooks D.tells (D.state deck.old) (D.state deck.new) }
    ensures disk_fault { result ≡ Err Outcome.DiskFault → Rose (D.state deck.old).disk_faults (D.state deck.new).disk_faults }
    ensures no_disk_fault { result ≢ Err Outcome.DiskFault → (D.state deck.new).disk_faults ≡ (D.state deck.old).disk_faults }
{
    let Ok(size) = deck.size() else {
        return Err(Outcome::DiskFault);
    };
    if size < 64 {
        return Err(Outcome::ImageRefused(ImageFault::Small));
    }
    let mut bytes = [0; 64];
    let Ok(()) = deck.read(0, &mut bytes) else {
        return Err(Outcome::DiskFault);
    };
    let header = Header {
        slots,
        payload,
        words: words_of(sound),
        version: version_in(&bytes),
    };
    if size < image_size(&header) {
        return Err(Outcome::ImageRefused(ImageFault::Short));
    }
    Ok(header)
}

/// Opens the deck's image by a ring in place of its header, and takes all memory for reading its bits.
fn open_ring<D: Deck>(
    alloc: Global,
    sound: &Sound,
    slots: u32,
    payload: u32,
    deck: &mut D,
) -> Result<ImageReader, Outcome>
    requires word_count { IsWordCount sound.now.frame.words }
    requires ring { IsRingInBounds slots payload }
    ensures opened { IfOk result (IsOpenedBy (Some (slots, payload)) sound.now D.tells (D.state deck.old) (D.state deck.new)) }
    ensures refused { IfErr result (RefusesLength (slots, payload) (D.state deck.new)) }
    ensures shut { IfErr result RefusesOpening }
    ensures memory { IfErr result (λ answer. answer ≡ Outcome.NoMemory → ring_fault (slots, payload) (D.state deck.new).extent ≡ None) }
    ensures looks { OnlyLooks D.tells (D.state deck.old) (D.state deck.new) }
    ensures disk_fault { result ≡ Err Outcome.DiskFault → Rose (D.state deck.old).disk_faults (D.state deck.new).disk_faults }
    ensures no_disk_fault { result ≢ Err Outcome.DiskFault → (D.state deck.new).disk_faults ≡ (D.state deck.old).disk_faults }
{
    let header = match read_ring(sound, slots, payload, deck) {
        Ok(header) => header,
        Err(answer) => return Err(answer),
    };
    let Ok(events) = EventReader::new(alloc, sound) else {
        return Err(Outcome::NoMemory);
    };
    Ok(ImageReader { header, events })
}

/// Opens the deck's image by its header, or by slots and their payload where they are given, and takes all memory for reading
/// its bits.
pub fn open_by<D: Deck>(
    alloc: Global,
    sound: &Sound,
    ring: Option<(u32, u32)>,
    deck: &mut D,
) -> Result<ImageReader, Outcome>
    requires word_count { IsWordCount sound.now.frame.words }
    requires ring { IfSome ring (λ r. IsRingInBounds r.0 r.1) }
    ensures opened { IfOk result (IsOpenedBy ring sound.now D.tells (D.state deck.old) (D.state deck.new)) }
    ensures refused { IfErr result (RefusesBy ring sound.now D.tells (D.state deck.old) (D.state deck.new)) }
    ensures shut { IfErr result RefusesOpening }
    ensures memory { IfErr result (λ answer. answer ≡ Outcome.NoMemory → IsReadable ring D.tells (D.state deck.old) (D.state deck.new)) }
    ensures looks { OnlyLooks D.tells (D.state deck.old) (D.state deck.new) }
    ensures disk_fault { result ≡ Err Outcome.DiskFault → Rose (D.state deck.old).disk_faults (D.state deck.new).disk_faults }
    ensures no_disk_fault { result ≢ Err Outcome.DiskFault → (D.state deck.new).disk_faults ≡ (D.state deck.old).disk_faults }
{
    match ring {
        Some((slots, payload)) => open_ring(alloc, sound, slots, payload, deck),
        None => open_image(alloc, sound, deck),
    }
}
