//! A new image.

ghost use Rattle.std.specs.Prelude.{◌≡◌, ◌≢◌, ◌⊎◌, ℕ, ◌+◌, ◌≤◌, ◌<◌, [], ◌∷◌, Err, OnOk, IfOk, OnErr, IsTrue, drop, replicate};
ghost use Rattle.fdr_io.specs.Faults.{Rose};
ghost use Rattle.fdr_deck.specs.Disk.{IsSettled, LearnsExtent, KeepsDisk, patched};
ghost use Rattle.fdr_deck.specs.Calls.{IsDiskWork, Succeeds};
ghost use Rattle.fdr_slot.specs.Limits.{IsInLimits};
ghost use Rattle.fdr_slot.specs.Places.{image_size};
ghost use Rattle.fdr_slot.specs.Headers.{header_bytes};
ghost use Rattle.fdr_recover.specs.Images.{next_of, recovered_run};
ghost use Rattle.fdr_ring.specs.Formatting.{FormattingStop, IsFormatted, Making, fresh_image};
ghost use Rattle.fdr_ring.specs.Rings.{IsSureRing};

use crate::write::open_gate;
use crate::{Ring, RingFault};
use fdr_deck::Deck;
use fdr_io::Failed;
use fdr_slot::{Header, image_size, write_header};

/// Writes a header after its closed gate and makes that durable, and then opens the gate.
fn lay_header<D: Deck>(deck: &mut D, h: &Header) -> Result<(), Failed>
    requires limits { IsInLimits h.now }
    requires extent { (D.state deck.old).extent ≡ image_size h.now }
    requires zeros { IsTrue D.tells.bytes → (D.state deck.old).held ≡ replicate (image_size h.now) 0 }
    requires settled { IsTrue D.tells.stops → IsSettled (D.state deck.old) }
    ensures disk_work { IsDiskWork D.tells (FormattingStop h.now) (D.state deck.old) (D.state deck.new) }
    ensures held { OnOk result (IsTrue D.tells.bytes → (D.state deck.new).held ≡ fresh_image h.now) }
    ensures settled { OnOk result (IsTrue D.tells.stops → IsSettled (D.state deck.new)) }
    ensures extent { (D.state deck.new).extent ≡ (D.state deck.old).extent }
    ensures succeeds { OnOk result (Succeeds (D.state deck.old) (D.state deck.new)) }
    ensures cause { OnErr result (Rose (D.state deck.old).disk_faults (D.state deck.new).disk_faults) }
    ensures rest { D.same_rest deck.old deck.new }
{
    let bytes = write_header(h);
    deck.write(1, &bytes[1..])?;
    deck.sync()?;
    open_gate(deck, 0)
}

/// Makes an image without blocks on a disk of length 0, and answers its ring. `NotEmpty` is answered
/// exactly where the length isn't 0, and otherwise `DiskFault`. A stop at any moment leaves an image
/// that is too small or closed, or the whole one.
pub fn format<D: Deck>(deck: &mut D, h: &Header) -> Result<Ring, RingFault>
    requires { IsInLimits h.now }
    ensures empty { OnOk result ((D.state deck.old).extent ≡ 0) }
    ensures not_empty { result ≡ Err RingFault.NotEmpty → 0 < (D.state deck.new).extent }
    ensures learns { result ≡ Err RingFault.NotEmpty → LearnsExtent D.tells (D.state deck.old) (D.state deck.new) }
    ensures unchanged { result ≡ Err RingFault.NotEmpty → KeepsDisk (D.state deck.old) (D.state deck.new) }
    ensures only { OnErr result (result ≡ Err RingFault.NotEmpty ⊎ result ≡ Err RingFault.DiskFault) }
    ensures ring { IfOk result (λ r. (r.header ≡ h.now) × (r.next ≡ 0) × (r.session ≡ 0)) }
    ensures fact { IfOk result (λ r. IsSureRing D.tells r.header r.next (D.state deck.new)) }
    ensures held { OnOk result (IsTrue D.tells.bytes → (D.state deck.new).held ≡ fresh_image h.now) }
    ensures formatted { OnOk result (IsTrue D.tells.bytes → IsFormatted h.now (D.state deck.new).held) }
    ensures run { OnOk result (IsTrue D.tells.bytes → recovered_run h.now (D.state deck.new).held ≡ []) }
    ensures settled { OnOk result (IsTrue D.tells.stops → IsSettled (D.state deck.new)) }
    ensures extent { OnOk result ((D.state deck.new).extent ≡ image_size h.now) }
    ensures disk_work { IsDiskWork D.tells (Making h.now (D.state deck.old)) (D.state deck.old) (D.state deck.new) }
    ensures succeeds { result ≢ Err RingFault.DiskFault → Succeeds (D.state deck.old) (D.state deck.new) }
    ensures cause { result ≡ Err RingFault.DiskFault → Rose (D.state deck.old).disk_faults (D.state deck.new).disk_faults }
    ensures rest { D.same_rest deck.old deck.new }
{
    if deck.size()? != 0 {
        return Err(RingFault::NotEmpty);
    }
    deck.provide(image_size(h))?;
    lay_header(deck, h)?;
    Ok(Ring {
        header: *h,
        next: 0,
        session: 0,
    })
}
