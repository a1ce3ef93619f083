//! The header of the image on a disk.

ghost use Rattle.std.specs.Prelude.{◌≡◌, ◌≢◌, ◌≤◌, ◌<◌, ◌↔◌, ℕ, take, None, Some, Err, IfOk, OnOk, IsTrue};
ghost use Rattle.fdr_io.specs.Faults.{Rose};
ghost use Rattle.fdr_deck.specs.Disk.{KeepsDisk, LearnsExtent};
ghost use Rattle.fdr_deck.specs.Calls.{IsDiskWork, Succeeds};
ghost use Rattle.fdr_slot.specs.Limits.{IsInLimits};
ghost use Rattle.fdr_slot.specs.Places.{image_size};
ghost use Rattle.fdr_slot.specs.declared.image.ImageFault.{ImageFault};
ghost use Rattle.fdr_slot.specs.declared.image.ImageFault.TheVariants as fault;
ghost use Rattle.fdr_recover.specs.ImageHeader.{image_fault_of, header_in};

use crate::RingFault;
use fdr_deck::Deck;
use fdr_slot::{Header, ImageFault, read_header};

/// Reads the header of the image on the disk: `Image` with the first fault of the length and the
/// bytes, or `DiskFault`. It leaves the disk as it is.
pub fn read_image_header<D: Deck>(deck: &mut D) -> Result<Header, RingFault>
    ensures read { IsTrue D.tells.bytes → IfOk result (λ h. h ≡ header_in (D.state deck.old).held) }
    ensures good { IsTrue D.tells.bytes → OnOk result (image_fault_of (D.state deck.old).held ≡ None) }
    ensures first_fault { IsTrue D.tells.bytes
        → (why : ImageFault) → result ≡ Err (RingFault.Image why) → image_fault_of (D.state deck.old).held ≡ Some why }
    ensures small { (why : ImageFault) → result ≡ Err (RingFault.Image why)
        → (why ≡ fault.Small) ↔ ((D.state deck.new).extent < 64) }
    ensures only { result ≢ Err RingFault.NotEmpty × result ≢ Err RingFault.SeqEnd }
    ensures limits { IfOk result IsInLimits }
    ensures whole { IfOk result (λ h. image_size h ≤ (D.state deck.new).extent) }

    ensures learns { LearnsExtent D.tells (D.state deck.old) (D.state deck.new) }
    ensures disk { KeepsDisk (D.state deck.old) (D.state deck.new) }
    ensures disk_work { IsDiskWork D.tells (D.state deck.old).may_leave (D.state deck.old) (D.state deck.new) }
    ensures succeeds { result ≢ Err RingFault.DiskFault → Succeeds (D.state deck.old) (D.state deck.new) }
    ensures cause { result ≡ Err RingFault.DiskFault → Rose (D.state deck.old).disk_faults (D.state deck.new).disk_faults }
    ensures rest { D.same_rest deck.old deck.new }
{
    let size = deck.size()?;
    if size < 64 {
        return Err(RingFault::Image(ImageFault::Small));
    }
    let mut bytes = [0; 64];
    deck.read(0, &mut bytes)?;
    Ok(read_header(&bytes, size)?)
}
