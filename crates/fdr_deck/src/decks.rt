//! What a deck does.

ghost use Rattle.std.specs.Prelude.{◌≡◌, ℕ, ◌+◌, ◌<◌, ◌≤◌, List, length, IfOk, OnOk, OnErr, IsTrue};
ghost use Rattle.fdr_io.specs.Faults.{Rose};
ghost use Rattle.fdr_deck.specs.State.{Tells, State};
ghost use Rattle.fdr_deck.specs.Disk.{IsSettled, KeepsDisk, LearnsExtent, Reads, Tears, Writes, Provides, Begins};
ghost use Rattle.fdr_deck.specs.Moments.{Elapses, EachMoment, IsNow, Within, WithinProvide, IsSoundDeck};
ghost use Rattle.fdr_deck.specs.Pull.{GivesPiece, KeepsInput};
ghost use Rattle.fdr_deck.specs.Calls.{Passes, KeepsAnnounced, HasOneAnnounced, Succeeds, LeavesDisk, Announces};

use fdr_io::Failed;

/// A disk, an input and an announced number. The disk and the input may fail, and each counts
/// its faults. The disk may stop at any moment: until a sync succeeds, a stop may leave any bytes in
/// the ranges that were written since the last one that did.
pub trait Deck {
    // What decks of this kind tell.
    ghost tells: { Tells };

    // What the deck means now.
    ghost state: { Self → State };

    // The later deck has the same rest as the earlier one: what a kind of deck has besides all this
    // is as it was.
    ghost same_rest: { Self → Self → Type 0 };

    /// The length of the disk. A deck over a file may learn it by the first such call.
    fn size(&mut self) -> Result<u64, Failed>
        ensures answer { IfOk result (λ n. n ≡ (state self.new).extent) }
        ensures learns { LearnsExtent tells (state self.old) (state self.new) }
        ensures disk { KeepsDisk (state self.old) (state self.new) }
        ensures passes { Passes tells (state self.old) (state self.new) }
        ensures succeeds { OnOk result (Succeeds (state self.old) (state self.new)) }
        ensures cause { OnErr result (Rose (state self.old).disk_faults (state self.new).disk_faults) }
        ensures moments { EachMoment tells (state self.old) (state self.new) (Within (state self.old) (state self.new)) }
        ensures rest { same_rest self.old self.new };

    /// Gives a disk of length 0 this many zeros, which a stop then leaves. `Failed` leaves zeros of
    /// some length up to that many. A disk of another length stays as it is.
    fn provide(&mut self, size: u64) -> Result<(), Failed>
        ensures provides { OnOk result ((state self.old).extent ≡ 0 → Provides tells size (state self.new)) }
        ensures begins { OnErr result ((state self.old).extent ≡ 0 → Begins tells size (state self.old) (state self.new)) }
        ensures extent { 0 < (state self.old).extent → (state self.new).extent ≡ (state self.old).extent }
        ensures disk { 0 < (state self.old).extent → KeepsDisk (state self.old) (state self.new) }
        ensures passes { Passes tells (state self.old) (state self.new) }
        ensures succeeds { OnOk result (Succeeds (state self.old) (state self.new)) }
        ensures cause { OnErr result (Rose (state self.old).disk_faults (state self.new).disk_faults) }
        ensures moments { EachMoment tells (state self.old) (state self.new) (WithinProvide size (state self.old) (state self.new)) }
        ensures rest { same_rest self.old self.new };

    /// Fills the buffer with the bytes of the disk from `at` on.
    fn read(&mut self, at: u64, buf: &mut [u8]) -> Result<(), Failed>
        requires { at + length buf.old ≤ (state self.old).extent }
        ensures reads { OnOk result (Reads tells at (state self.old) buf.new) }
        ensures extent { (state self.new).extent ≡ (state self.old).extent }
        ensures disk { KeepsDisk (state self.old) (state self.new) }
        ensures passes { Passes tells (state self.old) (state self.new) }
        ensures succeeds { OnOk result (Succeeds (state self.old) (state self.new)) }
        ensures cause { OnErr result (Rose (state self.old).disk_faults (state self.new).disk_faults) }
        ensures moments { EachMoment tells (state self.old) (state self.new) (Within (state self.old) (state self.new)) }
        ensures rest { same_rest self.old self.new };

    /// Writes the bytes over those from `at` on. Until a sync succeeds, a stop may leave any bytes
    /// in this range. `Failed` leaves any bytes there.
    fn write(&mut self, at: u64, bytes: &[u8]) -> Result<(), Failed>
        requires { at + length bytes.now ≤ (state self.old).extent }
        ensures writes { OnOk result (Writes tells at bytes.now (state self.old) (state self.new)) }
        ensures tears { Tears tells at (length bytes.now) (state self.old) (state self.new) }
        ensures extent { (state self.new).extent ≡ (state self.old).extent }
        ensures passes { Passes tells (state self.old) (state self.new) }
        ensures succeeds { OnOk result (Succeeds (state self.old) (state self.new)) }
        ensures cause { OnErr result (Rose (state self.old).disk_faults (state self.new).disk_faults) }
        ensures moments { EachMoment tells (state self.old) (state self.new) (Within (state self.old) (state self.new)) }
        ensures rest { same_rest self.old self.new };

    /// Makes what was written durable: at `Ok` a stop leaves what the disk holds. `Failed` leaves
    /// all that was pending pending.
    fn sync(&mut self) -> Result<(), Failed>
        ensures settles { OnOk result (IsTrue tells.stops → IsSettled (state self.new)) }
        ensures held { (state self.new).held ≡ (state self.old).held }
        ensures no_more { (image : List ℕ) → (state self.new).may_leave image → (state self.old).may_leave image }
        ensures pending { OnErr result (KeepsDisk (state self.old) (state self.new)) }
        ensures extent { (state self.new).extent ≡ (state self.old).extent }
        ensures passes { Passes tells (state self.old) (state self.new) }
        ensures succeeds { OnOk result (Succeeds (state self.old) (state self.new)) }
        ensures cause { OnErr result (Rose (state self.old).disk_faults (state self.new).disk_faults) }
        ensures moments { EachMoment tells (state self.old) (state self.new) (Within (state self.old) (state self.new)) }
        ensures rest { same_rest self.old self.new };

    /// Announces that what has numbers below `count` is kept. It is never refused.
    fn announce(&mut self, count: u64)
        ensures announces { Announces count (state self.old) (state self.new) }
        ensures disk { LeavesDisk (state self.old) (state self.new) }
        ensures input { KeepsInput (state self.old) (state self.new) }
        ensures input_faults { (state self.new).input_faults ≡ (state self.old).input_faults }
        ensures time { Elapses tells (state self.old) (state self.new) }
        ensures moments { EachMoment tells (state self.old) (state self.new) (IsNow (state self.new)) }
        ensures rest { same_rest self.old self.new };

    /// Puts the next bytes of the input at the front of the buffer and answers how many, 0 at the
    /// end alone. `Failed` took none.
    fn pull(&mut self, buf: &mut [u8]) -> Result<usize, Failed>
        requires { 0 < length buf.old }
        ensures bound { IfOk result (λ n. n ≤ length buf.new) }
        ensures pulls { IfOk result (GivesPiece tells (state self.old) (state self.new) buf.new) }
        ensures kept { OnErr result (KeepsInput (state self.old) (state self.new)) }
        ensures cause { OnErr result (Rose (state self.old).input_faults (state self.new).input_faults) }
        ensures monotone { (state self.old).input_faults ≤ (state self.new).input_faults }
        ensures disk { LeavesDisk (state self.old) (state self.new) }
        ensures announced { KeepsAnnounced (state self.old) (state self.new) }
        ensures fresh { OnOk result (HasOneAnnounced (state self.new)) }
        ensures time { Elapses tells (state self.old) (state self.new) }
        ensures moments { EachMoment tells (state self.old) (state self.new) (Within (state self.old) (state self.new)) }
        ensures rest { same_rest self.old self.new };

    // What holds of each deck.
    ghost sound: { (deck : Self) → IsSoundDeck tells (state deck) };

    // A deck has its own rest.
    ghost rest_here: { (deck : Self) → same_rest deck deck };

    // What is the same from deck to deck is the same from the first to the last.
    ghost rest_then: { (old middle new : Self) → same_rest old middle → same_rest middle new → same_rest old new };
}
