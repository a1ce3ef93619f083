//! A gate that is closed where it is open.

ghost use Rattle.std.specs.Prelude.{◌+◌, ◌≤◌, OnOk, OnErr};
ghost use Rattle.fdr_io.specs.Faults.{Rose};
ghost use Rattle.fdr_ring.specs.Closing.{ClosesGate, HasClosedGate};

use fdr_deck::Deck;
use fdr_io::Failed;
use fdr_slot::OPEN;

/// Writes a gate closed where it is open. Nothing else is written, and what was written isn't durable
/// yet.
pub fn close_open_gate<D: Deck>(deck: &mut D, at: u64) -> Result<(), Failed>
    requires { at + 1 ≤ (D.state deck.old).extent }
    ensures closes { ClosesGate D.tells at (D.state deck.old) (D.state deck.new) }
    ensures closed { OnOk result (HasClosedGate D.tells at (D.state deck.old) (D.state deck.new)) }
    ensures cause { OnErr result (Rose (D.state deck.old).disk_faults (D.state deck.new).disk_faults) }
    ensures rest { D.same_rest deck.old deck.new }
{
    let mut gate = [0];
    deck.read(at, &mut gate)?;
    if gate[0] != OPEN {
        return Ok(());
    }
    deck.write(at, &[0])
}
