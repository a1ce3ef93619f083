//! A ring, and a block that is prepared in it.

ghost use Rattle.std.specs.Prelude.{◌≤◌, ◌<◌, IsTrue};
ghost use Rattle.fdr_slot.specs.Limits.{in_limits, sequence_end};

use crate::attach::close_next;
use crate::place::place_block;
use crate::write::open_gate;
use fdr_deck::Deck;
use fdr_recover::RingFault;
use fdr_slot::{Header, SEQUENCE_END, gate_at};

/// An image that is open for blocks. A call that is refused consumes it.
#[derive(Drop)]
pub struct Ring {
    pub(crate) header: Header,
    pub(crate) next: u64,
    pub(crate) session: u32,
    ghost limits: { IsTrue (in_limits header) },
    ghost bound: { next ≤ sequence_end },
}

/// A block that is written after a closed gate.
#[derive(Drop)]
pub struct Prepared {
    header: Header,
    next: u64,
    session: u32,
    ghost limits: { IsTrue (in_limits header) },
    ghost bound: { next < sequence_end },
}

impl Ring {
    ghost use Rattle.std.specs.Prelude.{◌≡◌, ◌≤◌};
    ghost use Rattle.fdr_slot.specs.Limits.{IsInLimits, sequence_end};

    /// The number of the next block, at most 2^48.
    pub fn next(&self) -> u64
        ensures number { result ≡ self.now.next }
        ensures bound { result ≤ sequence_end }
    {
        self.next
    }

    /// The session of the block before the next one, or 0 where there is none or the image is of
    /// version 1.
    pub fn session(&self) -> u32
        ensures number { result ≡ self.now.session }
    {
        self.session
    }

    /// The header of the image.
    pub fn header(&self) -> Header
        ensures header { result ≡ self.now.header }
        ensures limits { IsInLimits result }
    {
        self.header
    }
}

impl Ring {
    ghost use Rattle.std.specs.Prelude.{◌≡◌, ◌⊎◌, ◌↔◌, ◌<◌, ◌≤◌, Err, length, IfOk, OnOk, OnErr};
    ghost use Rattle.fdr_io.specs.Faults.{Rose};
    ghost use Rattle.fdr_slot.specs.Limits.{sequence_end};
    ghost use Rattle.fdr_ring.specs.Rings.{IsRing, IsPrepared, IsPreparing, ChangesImage, HasPlaced};

    /// Writes a block of 1 to `payload` bytes, of a session, after the closed gate of its slot, and
    /// closes the gate of the slot after it, and makes both durable by one sync. In version 1 the
    /// session is 0. Nothing else is written. At every moment a stop leaves all blocks except the two
    /// oldest. `SeqEnd` is answered, without a call of the deck, exactly where there is no number left,
    /// and otherwise `DiskFault`.
    pub fn prepare<D: Deck>(
        self,
        deck: &mut D,
        session: u32,
        bytes: &[u8],
    ) -> Result<Prepared, RingFault>
        requires fact { IsRing D.tells self.header self.next (D.state deck.old) }
        requires session { self.header.version ≡ 1 → session ≡ 0 }
        requires some_bytes { 0 < length bytes.now }
        requires fits { length bytes.now ≤ self.header.payload }
        ensures seq_end { (result ≡ Err RingFault.SeqEnd) ↔ (self.next ≡ sequence_end) }
        ensures untouched { result ≡ Err RingFault.SeqEnd → deck.new ≡ deck.old }
        ensures only { OnErr result (result ≡ Err RingFault.SeqEnd ⊎ result ≡ Err RingFault.DiskFault) }
        ensures prepared { IfOk result (λ p. (p.header ≡ self.header) × (p.next ≡ self.next) × (p.session ≡ session)) }
        ensures fact { IfOk result (λ p. IsPrepared D.tells p.header p.next (D.state deck.new)) }
        ensures placed { OnOk result
            (HasPlaced D.tells self.header self.next session bytes.now (D.state deck.old) (D.state deck.new)) }
        ensures changes { ChangesImage D.tells (IsPreparing self.header self.next (length bytes.now))
            (D.state deck.old) (D.state deck.new) }
        ensures cause { result ≡ Err RingFault.DiskFault
            → Rose (D.state deck.old).disk_faults (D.state deck.new).disk_faults }
        ensures rest { D.same_rest deck.old deck.new }
    {
        if self.next == SEQUENCE_END {
            return Err(RingFault::SeqEnd);
        }
        place_block(deck, &self.header, self.next, session, bytes)?;
        Ok(Prepared {
            header: self.header,
            next: self.next,
            session,
        })
    }
}

impl Ring {
    ghost use Rattle.std.specs.Prelude.{◌≡◌, ◌≤◌, Err, IfOk, OnErr, IsTrue};
    ghost use Rattle.fdr_io.specs.Faults.{Rose};
    ghost use Rattle.fdr_slot.specs.Limits.{IsInLimits};
    ghost use Rattle.fdr_slot.specs.Places.{image_size};
    ghost use Rattle.fdr_recover.specs.Images.{recovered_run};
    ghost use Rattle.fdr_recover.specs.Stretches.{last_session};
    ghost use Rattle.fdr_ring.specs.Rings.{IsSureRing, IsAttaching, ChangesImage, HasAttached};

    /// Opens an image again: finds its next number, closes the gate of that number's slot where it is
    /// open, and makes what the disk holds durable, whoever wrote it: a block that was found isn't
    /// lost to a later stop. Nothing else is written. At every moment a stop leaves all blocks except
    /// the oldest. Only `DiskFault` is answered besides.
    pub fn attach<D: Deck>(deck: &mut D, h: Header) -> Result<Ring, RingFault>
        requires limits { IsInLimits h }
        requires whole { image_size h ≤ (D.state deck.old).extent }
        ensures only { OnErr result (result ≡ Err RingFault.DiskFault) }
        ensures header { IfOk result (λ r. r.header ≡ h) }
        ensures session { IsTrue D.tells.bytes
            → IfOk result (λ r. r.session ≡ last_session (recovered_run h (D.state deck.old).held)) }
        ensures old_version { h.version ≡ 1 → IfOk result (λ r. r.session ≡ 0) }
        ensures fact { IfOk result (λ r. IsSureRing D.tells r.header r.next (D.state deck.new)) }
        ensures attached { IfOk result (λ r. HasAttached D.tells h r.next (D.state deck.old) (D.state deck.new)) }
        ensures changes { ChangesImage D.tells (IsAttaching h) (D.state deck.old) (D.state deck.new) }
        ensures cause { OnErr result (Rose (D.state deck.old).disk_faults (D.state deck.new).disk_faults) }
        ensures rest { D.same_rest deck.old deck.new }
    {
        let found = close_next(deck, &h)?;
        Ok(Ring {
            header: h,
            next: found.next,
            session: found.session,
        })
    }
}

impl Prepared {
    ghost use Rattle.std.specs.Prelude.{◌≡◌, ◌+◌, Err, Some, IfOk, OnOk, OnErr, IsTrue};
    ghost use Rattle.fdr_io.specs.Faults.{Rose};
    ghost use Rattle.fdr_deck.specs.Disk.{IsSettled};
    ghost use Rattle.fdr_deck.specs.Calls.{Succeeds};
    ghost use Rattle.fdr_recover.specs.Blocks.{Block};
    ghost use Rattle.fdr_ring.specs.Gates.{image_with_open_gate, waiting_block};
    ghost use Rattle.fdr_ring.specs.Runs.{HasAdded};
    ghost use Rattle.fdr_ring.specs.Rings.{IsPrepared, IsSureRing, IsCommitting, ChangesImage};

    /// Opens the gate of the prepared block and makes that durable: the block is after the run, and
    /// the ring's next number is one more. Nothing else is written. At every moment a stop leaves the
    /// run as it was, or with the block. Only `DiskFault` is answered besides.
    pub fn commit<D: Deck>(self, deck: &mut D) -> Result<Ring, RingFault>
        requires { IsPrepared D.tells self.header self.next (D.state deck.old) }
        ensures only { OnErr result (result ≡ Err RingFault.DiskFault) }
        ensures ring { IfOk result (λ r. (r.header ≡ self.header) × (r.next ≡ self.next + 1) × (r.session ≡ self.session)) }
        ensures held { OnOk result (IsTrue D.tells.bytes
            → (D.state deck.new).held ≡ image_with_open_gate self.header (D.state deck.old).held self.next) }
        ensures fact { IfOk result (λ r. IsSureRing D.tells r.header r.next (D.state deck.new)) }
        ensures added { OnOk result (IsTrue D.tells.bytes
            → (b : Block) → waiting_block self.header (D.state deck.old).held self.next ≡ Some b
            → HasAdded self.header b (D.state deck.old).held (D.state deck.new).held) }
        ensures settled { OnOk result (IsTrue D.tells.stops → IsSettled (D.state deck.new)) }
        ensures changes { ChangesImage D.tells (IsCommitting self.header self.next) (D.state deck.old) (D.state deck.new) }
        ensures succeeds { OnOk result (Succeeds (D.state deck.old) (D.state deck.new)) }
        ensures cause { OnErr result (Rose (D.state deck.old).disk_faults (D.state deck.new).disk_faults) }
        ensures rest { D.same_rest deck.old deck.new }
    {
        open_gate(deck, gate_at(&self.header, self.next))?;
        Ok(Ring {
            header: self.header,
            next: self.next + 1,
            session: self.session,
        })
    }
}
