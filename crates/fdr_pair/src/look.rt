//! A side that is opened.

ghost use Rattle.std.specs.Prelude.{◌≡◌, ◌+◌, ◌-◌, ◌≤◌, Err, IfOk, OnOk, OnErr, IsTrue};
ghost use Rattle.fdr_io.specs.Faults.{Rose};
ghost use Rattle.fdr_deck.specs.Disk.{IsSettled};
ghost use Rattle.fdr_slot.specs.Limits.{IsInLimits, sequence_end};
ghost use Rattle.fdr_slot.specs.Places.{image_size};
ghost use Rattle.fdr_recover.specs.Images.{next_of, recovered_run};
ghost use Rattle.fdr_recover.specs.Stretches.{last_session};
ghost use Rattle.fdr_ring.specs.Runs.{last_blocks};
ghost use Rattle.fdr_ring.specs.Rings.{IsSureRing, IsAttaching, OfSettled};
ghost use Rattle.fdr_twin.specs.Pair.{seen, disk_on};
ghost use Rattle.fdr_twin.specs.Serving.{Serves};
ghost use Rattle.fdr_pair.specs.PairWork.{IsSameContent};
ghost use Rattle.fdr_pair.specs.Differ.{HasFound};
ghost use Rattle.fdr_pair.specs.SideCounts.{CountsBoth};

use fdr_io::Failed;
use fdr_recover::{Found, RingFault, scan};
use fdr_ring::Ring;
use fdr_slot::Header;
use fdr_twin::{Side, Twin};

/// Turns to a side and finds its run. The disks of both sides are left.
pub fn scan_on<T: Twin>(twin: &mut T, side: Side, h: &Header) -> Result<Found, Failed>
    requires limits { IsInLimits h.now }
    requires whole { image_size h.now ≤ (disk_on side (T.pair twin.old)).extent }
    ensures next { IsTrue T.tells.bytes → IfOk result (λ f. f.next ≡ next_of h.now (disk_on side (T.pair twin.old)).held) }
    ensures session { IsTrue T.tells.bytes
        → IfOk result (λ f. f.session ≡ last_session (recovered_run h.now (disk_on side (T.pair twin.old)).held)) }
    ensures found { IsTrue T.tells.bytes → IfOk result (λ f. HasFound h.now f (disk_on side (T.pair twin.old)).held) }
    ensures order { IfOk result (λ f. f.first ≤ f.next) }
    ensures bound { IfOk result (λ f. f.next ≤ sequence_end) }
    ensures room { IfOk result (λ f. f.next ≤ f.first + h.now.slots) }
    ensures content { IsSameContent (disk_on side (T.pair twin.old)) (disk_on side (T.pair twin.new)) }
    ensures no_fault { OnOk result ((disk_on side (T.pair twin.new)).faults ≡ (disk_on side (T.pair twin.old)).faults) }
    ensures held { (disk_on side (T.pair twin.new)).held ≡ (disk_on side (T.pair twin.old)).held }
    ensures serves { Serves T.tells side (disk_on side (T.pair twin.old)).may_leave (T.pair twin.old) (T.pair twin.new) }
    ensures counts { CountsBoth (T.pair twin.old) (T.pair twin.new) }
    ensures cause { OnErr result (Rose (disk_on side (T.pair twin.old)).faults (disk_on side (T.pair twin.new)).faults) }
{
    twin.turn(side);
    scan(twin, h)
}

/// Turns to a side and opens its image again, as `attach` of a ring does. The other side is left.
pub fn attach_on<T: Twin>(twin: &mut T, side: Side, h: Header) -> Result<Ring, RingFault>
    requires limits { IsInLimits h }
    requires whole { image_size h ≤ (disk_on side (T.pair twin.old)).extent }
    ensures next { IsTrue T.tells.bytes → IfOk result (λ r. r.next ≡ next_of h (disk_on side (T.pair twin.old)).held) }
    ensures session { IsTrue T.tells.bytes
        → IfOk result (λ r. r.session ≡ last_session (recovered_run h (disk_on side (T.pair twin.old)).held)) }
    ensures header { IfOk result (λ r. r.header ≡ h) }
    ensures old_version { h.version ≡ 1 → IfOk result (λ r. r.session ≡ 0) }
    ensures fact { IfOk result (λ r. IsSureRing T.tells r.header r.next (seen side (T.pair twin.new))) }
    ensures serves { Serves T.tells side (OfSettled (seen side (T.pair twin.old)) (IsAttaching h)) (T.pair twin.old) (T.pair twin.new) }
    ensures counts { CountsBoth (T.pair twin.old) (T.pair twin.new) }
    ensures extent { (disk_on side (T.pair twin.new)).extent ≡ (disk_on side (T.pair twin.old)).extent }
    ensures keeps { IsTrue T.tells.bytes
        → IsAttaching h (disk_on side (T.pair twin.old)).held (disk_on side (T.pair twin.new)).held }
    ensures run { OnOk result (IsTrue T.tells.bytes → recovered_run h (disk_on side (T.pair twin.new)).held
        ≡ last_blocks (h.slots - 1) (recovered_run h (disk_on side (T.pair twin.old)).held)) }
    ensures settled { OnOk result (IsTrue T.tells.stops → IsSettled (seen side (T.pair twin.new))) }
    ensures no_fault { OnOk result ((disk_on side (T.pair twin.new)).faults ≡ (disk_on side (T.pair twin.old)).faults) }
    ensures only { OnErr result (result ≡ Err RingFault.DiskFault) }
    ensures cause { OnErr result (Rose (disk_on side (T.pair twin.old)).faults (disk_on side (T.pair twin.new)).faults) }
{
    twin.turn(side);
    Ring::attach(twin, h)
}
