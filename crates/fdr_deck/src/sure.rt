//! The deck in memory that never fails.

ghost use Rattle.std.specs.Prelude.{◌≡◌, ℕ, ◌+◌, ◌<◌, ◌≤◌, List, length, min, vec_len, IfOk, IsOk, OnOk, OnErr, IsTrue, ⊤};
ghost use Rattle.fdr_deck.specs.Disk.{IsSettled, KeepsDisk, LearnsExtent, Reads, Tears, Writes, Provides, Begins};
ghost use Rattle.fdr_deck.specs.Moments.{Elapses, EachMoment, IsNow, Within, WithinProvide};
ghost use Rattle.fdr_deck.specs.Pull.{GivesPiece, KeepsInput};
ghost use Rattle.fdr_deck.specs.Calls.{Passes, KeepsAnnounced, HasOneAnnounced, Succeeds, LeavesDisk, Announces};
ghost use Rattle.fdr_deck.specs.Announced.{least_announced, greatest_announced};
ghost use Rattle.fdr_deck.specs.Sure.{sure_state, sure_tells, sure_is_sound};
ghost use Rattle.fdr_io.specs.Faults.{Rose};

use crate::calls::pull_began;
use crate::image::{copy_from, patch};
use crate::{Announced, Deck};
use fdr_io::{Failed, copy_next};
use std::marker::Model;

/// A deck in memory that tells its bytes and its input, and never fails.
#[derive(Drop)]
pub struct SureDeck {
    image: Vec<u8>,
    input: Vec<u8>,
    // How many bytes of the input were pulled.
    at: usize,
    pulled_before: usize,
    announced: Announced,
}

impl Model for SureDeck {
    ghost use Rattle.std.specs.Prelude.{◌<◌, ◌≤◌, length, drop};
    ghost use Rattle.fdr_deck.specs.Sure.{Sure};

    ghost Value = { Sure };

    ghost view = { λ d. record {
      image = d.image.items;
      input = drop d.at d.input.items;
      taken = d.at;
      pulled_before = d.pulled_before;
      announced = d.announced;
    } };

    ghost invariant = { λ d. (0 < length d.image.items) × (d.at ≤ length d.input.items) };
}

impl SureDeck {
    /// A deck of this image, which isn't empty, and this input, of which nothing is pulled yet.
    pub fn new(image: Vec<u8>, input: Vec<u8>) -> SureDeck
        requires { 0 < vec_len image }
        ensures image { result.image ≡ image.items }
        ensures input { result.input ≡ input.items }
        ensures taken { result.taken ≡ 0 }
        ensures pulled_before { result.pulled_before ≡ 0 }
        ensures announced { result.announced.number ≡ 0 }
        ensures least { least_announced result.announced ≡ 0 }
        ensures greatest { greatest_announced result.announced ≡ 0 }
    {
        SureDeck {
            image,
            input,
            at: 0,
            pulled_before: 0,
            announced: Announced::new(),
        }
    }
}

impl Deck for SureDeck {
    ghost tells = { sure_tells };

    ghost state = { sure_state };

    ghost same_rest = { λ old new. ⊤ };

    ghost sound = { sure_is_sound };

    ghost rest_here = { λ deck. tt };

    ghost rest_then = { λ old middle new first second. tt };

    fn size(&mut self) -> Result<u64, Failed>
        ensures answer { IfOk result (λ n. n ≡ (sure_state self.new).extent) }
        ensures learns { LearnsExtent sure_tells (sure_state self.old) (sure_state self.new) }
        ensures disk { KeepsDisk (sure_state self.old) (sure_state self.new) }
        ensures passes { Passes sure_tells (sure_state self.old) (sure_state self.new) }
        ensures succeeds { OnOk result (Succeeds (sure_state self.old) (sure_state self.new)) }
        ensures cause { OnErr result (Rose (sure_state self.old).disk_faults (sure_state self.new).disk_faults) }
        ensures moments { EachMoment sure_tells (sure_state self.old) (sure_state self.new) (Within (sure_state self.old) (sure_state self.new)) }
        ensures sure { IsOk result }
    {
        self.announced.begin_anew();
        Ok(self.image.len() as u64)
    }

    fn provide(&mut self, size: u64) -> Result<(), Failed>
        ensures provides { OnOk result ((sure_state self.old).extent ≡ 0 → Provides sure_tells size (sure_state self.new)) }
        ensures begins { OnErr result ((sure_state self.old).extent ≡ 0 → Begins sure_tells size (sure_state self.old) (sure_state self.new)) }
        ensures extent { 0 < (sure_state self.old).extent → (sure_state self.new).extent ≡ (sure_state self.old).extent }
        ensures disk { 0 < (sure_state self.old).extent → KeepsDisk (sure_state self.old) (sure_state self.new) }
        ensures passes { Passes sure_tells (sure_state self.old) (sure_state self.new) }
        ensures succeeds { OnOk result (Succeeds (sure_state self.old) (sure_state self.new)) }
        ensures cause { OnErr result (Rose (sure_state self.old).disk_faults (sure_state self.new).disk_faults) }
        ensures moments { EachMoment sure_tells (sure_state self.old) (sure_state self.new) (WithinProvide size (sure_state self.old) (sure_state self.new)) }
        ensures sure { IsOk result }
    {
        self.announced.begin_anew();
        Ok(())
    }

    fn read(&mut self, at: u64, buf: &mut [u8]) -> Result<(), Failed>
        requires { at + length buf.old ≤ (sure_state self.old).extent }
        ensures reads { OnOk result (Reads sure_tells at (sure_state self.old) buf.new) }
        ensures extent { (sure_state self.new).extent ≡ (sure_state self.old).extent }
        ensures disk { KeepsDisk (sure_state self.old) (sure_state self.new) }
        ensures passes { Passes sure_tells (sure_state self.old) (sure_state self.new) }
        ensures succeeds { OnOk result (Succeeds (sure_state self.old) (sure_state self.new)) }
        ensures cause { OnErr result (Rose (sure_state self.old).disk_faults (sure_state self.new).disk_faults) }
        ensures moments { EachMoment sure_tells (sure_state self.old) (sure_state self.new) (Within (sure_state self.old) (sure_state self.new)) }
        ensures sure { IsOk result }
    {
        self.announced.begin_anew();
        copy_from(&self.image, at as usize, buf);
        Ok(())
    }

    fn write(&mut self, at: u64, bytes: &[u8]) -> Result<(), Failed>
        requires { at + length bytes.now ≤ (sure_state self.old).extent }
        ensures writes { OnOk result (Writes sure_tells at bytes.now (sure_state self.old) (sure_state self.new)) }
        ensures tears { Tears sure_tells at (length bytes.now) (sure_state self.old) (sure_state self.new) }
        ensures extent { (sure_state self.new).extent ≡ (sure_state self.old).extent }
        ensures passes { Passes sure_tells (sure_state self.old) (sure_state self.new) }
        ensures succeeds { OnOk result (Succeeds (sure_state self.old) (sure_state self.new)) }
        ensures cause { OnErr result (Rose (sure_state self.old).disk_faults (sure_state self.new).disk_faults) }
        ensures moments { EachMoment sure_tells (sure_state self.old) (sure_state self.new) (Within (sure_state self.old) (sure_state self.new)) }
        ensures sure { IsOk result }
    {
        self.announced.begin_anew();
        patch(&mut self.image, at as usize, bytes);
        Ok(())
    }

    fn sync(&mut self) -> Result<(), Failed>
        ensures settles { OnOk result (IsTrue sure_tells.stops → IsSettled (sure_state self.new)) }
        ensures held { (sure_state self.new).held ≡ (sure_state self.old).held }
        ensures no_more { (image : List ℕ) → (sure_state self.new).may_leave image → (sure_state self.old).may_leave image }
        ensures pending { OnErr result (KeepsDisk (sure_state self.old) (sure_state self.new)) }
        ensures extent { (sure_state self.new).extent ≡ (sure_state self.old).extent }
        ensures passes { Passes sure_tells (sure_state self.old) (sure_state self.new) }
        ensures succeeds { OnOk result (Succeeds (sure_state self.old) (sure_state self.new)) }
        ensures cause { OnErr result (Rose (sure_state self.old).disk_faults (sure_state self.new).disk_faults) }
        ensures moments { EachMoment sure_tells (sure_state self.old) (sure_state self.new) (Within (sure_state self.old) (sure_state self.new)) }
        ensures sure { IsOk result }
    {
        self.announced.begin_anew();
        Ok(())
    }

    fn announce(&mut self, count: u64)
        ensures announces { Announces count (sure_state self.old) (sure_state self.new) }
        ensures disk { LeavesDisk (sure_state self.old) (sure_state self.new) }
        ensures input { KeepsInput (sure_state self.old) (sure_state self.new) }
        ensures input_faults { (sure_state self.new).input_faults ≡ (sure_state self.old).input_faults }
        ensures time { Elapses sure_tells (sure_state self.old) (sure_state self.new) }
        ensures moments { EachMoment sure_tells (sure_state self.old) (sure_state self.new) (IsNow (sure_state self.new)) }
    {
        self.announced.announce(count);
    }

    fn pull(&mut self, buf: &mut [u8]) -> Result<usize, Failed>
        requires { 0 < length buf.old }
        ensures bound { IfOk result (λ n. n ≤ length buf.new) }
        ensures pulls { IfOk result (GivesPiece sure_tells (sure_state self.old) (sure_state self.new) buf.new) }
        ensures kept { OnErr result (KeepsInput (sure_state self.old) (sure_state self.new)) }
        ensures cause { OnErr result (Rose (sure_state self.old).input_faults (sure_state self.new).input_faults) }
        ensures monotone { (sure_state self.old).input_faults ≤ (sure_state self.new).input_faults }
        ensures disk { LeavesDisk (sure_state self.old) (sure_state self.new) }
        ensures announced { KeepsAnnounced (sure_state self.old) (sure_state self.new) }
        ensures fresh { OnOk result (HasOneAnnounced (sure_state self.new)) }
        ensures time { Elapses sure_tells (sure_state self.old) (sure_state self.new) }
        ensures moments { EachMoment sure_tells (sure_state self.old) (sure_state self.new) (Within (sure_state self.old) (sure_state self.new)) }
        ensures sure { IsOk result }
        ensures full { IfOk result (λ n. n ≡ min (length self.old.input) (length buf.new)) }
    {
        self.announced.begin_anew();
        let n = copy_next(&self.input, self.at, buf);
        self.pulled_before = pull_began(n, self.at, self.pulled_before);
        self.at += n;
        Ok(n)
    }
}
