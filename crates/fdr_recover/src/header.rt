//! The header of the image on a disk, for the frames of a table.

ghost use Rattle.std.specs.Prelude.{◌≡◌, ◌≢◌, ◌≤◌, ◌<◌, ◌↔◌, ℕ, None, Some, Err, IfOk, OnOk, IsTrue};
ghost use Rattle.fdr_io.specs.Faults.{Rose};
ghost use Rattle.fdr_deck.specs.Disk.{KeepsDisk, LearnsExtent};
ghost use Rattle.fdr_deck.specs.Calls.{IsDiskWork, Succeeds};
ghost use Rattle.fdr_slot.specs.Limits.{IsInLimits};
ghost use Rattle.fdr_slot.specs.Places.{image_size};
ghost use Rattle.fdr_slot.specs.declared.image.ImageFault.{ImageFault};
ghost use Rattle.fdr_slot.specs.declared.image.ImageFault.TheVariants as image_fault;
ghost use Rattle.fdr_recover.specs.ImageHeader.{IsFor, image_fault_of, header_in};

use crate::{HeaderFault, read_image_header};
use fdr_deck::Deck;
use fdr_slot::Header;

/// Reads the header of the image on the disk, which has to be for frames of `words` words in a subframe: `Image` with the first
/// fault of the length and the bytes, then `WordsDiffer`, or `DiskFault`. It leaves the disk as it is.
pub fn read_header_for<D: Deck>(deck: &mut D, words: u32) -> Result<Header, HeaderFault>
    ensures read { IsTrue D.tells.bytes → IfOk result (λ h. h ≡ header_in (D.state deck.old).held) }
    ensures for_words { IfOk result (λ h. h.words ≡ words) }
    ensures good { IsTrue D.tells.bytes → OnOk result (IsFor words (D.state deck.old).held) }
    ensures limits { IfOk result IsInLimits }
    ensures whole { IfOk result (λ h. image_size h ≤ (D.state deck.new).extent) }
    ensures first_fault { IsTrue D.tells.bytes
        → (why : ImageFault) → result ≡ Err (HeaderFault.Image why) → image_fault_of (D.state deck.old).held ≡ Some why }
    ensures small { (why : ImageFault) → result ≡ Err (HeaderFault.Image why)
        → (why ≡ image_fault.Small) ↔ ((D.state deck.new).extent < 64) }
    ensures differ { (image table : ℕ) → result ≡ Err (HeaderFault.WordsDiffer image table)
        → (table ≡ words) × (image ≢ table) × (64 ≤ (D.state deck.new).extent)
        × (IsTrue D.tells.bytes → IsFor image (D.state deck.old).held) }

    ensures learns { LearnsExtent D.tells (D.state deck.old) (D.state deck.new) }
    ensures disk { KeepsDisk (D.state deck.old) (D.state deck.new) }
    ensures disk_work { IsDiskWork D.tells (D.state deck.old).may_leave (D.state deck.old) (D.state deck.new) }
    ensures succeeds { result ≢ Err HeaderFault.DiskFault → Succeeds (D.state deck.old) (D.state deck.new) }
    ensures cause { result ≡ Err HeaderFault.DiskFault → Rose (D.state deck.old).disk_faults (D.state deck.new).disk_faults }
    ensures rest { D.same_rest deck.old deck.new }
{
    let header = read_image_header(deck)?;
    if header.words != words {
        return Err(HeaderFault::WordsDiffer {
            image: header.words,
            table: words,
        });
    }
    Ok(header)
}
