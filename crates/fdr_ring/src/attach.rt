//! An image that is opened again.

ghost use Rattle.std.specs.Prelude.{◌≡◌, ◌+◌, ◌≤◌, IfOk, OnOk, OnErr, IsTrue};
ghost use Rattle.fdr_io.specs.Faults.{Rose};
ghost use Rattle.fdr_deck.specs.Disk.{IsSettled};
ghost use Rattle.fdr_slot.specs.Limits.{IsInLimits, sequence_end};
ghost use Rattle.fdr_slot.specs.Places.{image_size};
ghost use Rattle.fdr_recover.specs.Images.{recovered_run};
ghost use Rattle.fdr_recover.specs.Stretches.{last_session};
ghost use Rattle.fdr_ring.specs.Closing.{ClosesGate, HasClosedGate};
ghost use Rattle.fdr_ring.specs.Rings.{IsSureRing, IsAttaching, ChangesImage, HasAttached};

use crate::close::close_open_gate;
use fdr_deck::Deck;
use fdr_io::Failed;
use fdr_recover::{Found, scan};
use fdr_slot::{Header, gate_at};

/// Closes a gate where it is open, and makes what the disk holds durable, whoever wrote it.
fn shut_gate<D: Deck>(deck: &mut D, at: u64) -> Result<(), Failed>
    requires { at + 1 ≤ (D.state deck.old).extent }
    ensures closes { ClosesGate D.tells at (D.state deck.old) (D.state deck.new) }
    ensures closed { OnOk result (HasClosedGate D.tells at (D.state deck.old) (D.state deck.new)) }
    ensures settled { OnOk result (IsTrue D.tells.stops → IsSettled (D.state deck.new)) }
    ensures cause { OnErr result (Rose (D.state deck.old).disk_faults (D.state deck.new).disk_faults) }
    ensures rest { D.same_rest deck.old deck.new }
{
    close_open_gate(deck, at)?;
    deck.sync()
}

/// Finds the run, closes the gate of the slot of the next number where it is open, and makes what the
/// disk holds durable.
pub fn close_next<D: Deck>(deck: &mut D, h: &Header) -> Result<Found, Failed>
    requires limits { IsInLimits h.now }
    requires whole { image_size h.now ≤ (D.state deck.old).extent }
    ensures bound { IfOk result (λ f. f.next ≤ sequence_end) }
    ensures session { IsTrue D.tells.bytes
        → IfOk result (λ f. f.session ≡ last_session (recovered_run h.now (D.state deck.old).held)) }
    ensures old_version { h.now.version ≡ 1 → IfOk result (λ f. f.session ≡ 0) }
    ensures fact { IfOk result (λ f. IsSureRing D.tells h.now f.next (D.state deck.new)) }
    ensures attached { IfOk result (λ f. HasAttached D.tells h.now f.next (D.state deck.old) (D.state deck.new)) }
    ensures changes { ChangesImage D.tells (IsAttaching h.now) (D.state deck.old) (D.state deck.new) }
    ensures cause { OnErr result (Rose (D.state deck.old).disk_faults (D.state deck.new).disk_faults) }
    ensures rest { D.same_rest deck.old deck.new }
{
    let found = scan(deck, h)?;
    shut_gate(deck, gate_at(h, found.next))?;
    Ok(found)
}
