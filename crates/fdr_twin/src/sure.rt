//! The twin in memory that never fails.

ghost use Rattle.std.specs.Prelude.{◌≡◌, ℕ, ◌+◌, ◌<◌, ◌≤◌, List, length, min, vec_len, IfOk, IsOk, OnOk, OnErr, IsTrue};
ghost use Rattle.fdr_io.specs.Faults.{Rose};
ghost use Rattle.fdr_deck.specs.Disk.{IsSettled, KeepsDisk, LearnsExtent, Reads, Tears, Writes, Provides, Begins};
ghost use Rattle.fdr_deck.specs.Moments.{Elapses, EachMoment, IsNow, Within, WithinProvide};
ghost use Rattle.fdr_deck.specs.Pull.{GivesPiece, KeepsInput};
ghost use Rattle.fdr_deck.specs.Calls.{Passes, KeepsAnnounced, HasOneAnnounced, Succeeds, LeavesDisk, Announces};
ghost use Rattle.fdr_deck.specs.Announced.{least_announced, greatest_announced};
ghost use Rattle.fdr_deck.specs.Sure.{sure_tells, sure_is_sound};
ghost use Rattle.fdr_twin.specs.declared.side.Side.TheVariants as side;
ghost use Rattle.fdr_twin.specs.Same.{Turns};
ghost use Rattle.fdr_twin.specs.Rest.{HasSameRest};
ghost use Rattle.fdr_twin.specs.SureSides.{sure_image, sure_on, sure_twin_state, sure_pair, sure_faces, sure_twin_is_sound, sure_rest_here, sure_rest_then};

use crate::{Side, Twin};
use fdr_deck::{Announced, Deck, copy_from, patch};
use fdr_io::{Failed, copy_next};
use std::marker::Model;

/// Two disks in memory that tell their bytes and their input, and never fail.
#[derive(Drop)]
pub struct SureTwin {
    turned: Side,
    first: Vec<u8>,
    second: Vec<u8>,
    input: Vec<u8>,
    // How many bytes of the input were pulled.
    at: usize,
    pulled_before: usize,
    announced: Announced,
}

impl Model for SureTwin {
    ghost use Rattle.std.specs.Prelude.{◌<◌, ◌≤◌, length, drop};
    ghost use Rattle.fdr_twin.specs.SureSides.{SureSides};

    ghost Value = { SureSides };

    ghost view = { λ d. record {
      turned = d.turned;
      first = d.first.items;
      second = d.second.items;
      input = drop d.at d.input.items;
      taken = d.at;
      pulled_before = d.pulled_before;
      announced = d.announced;
    } };

    ghost invariant = { λ d. (0 < length d.first.items) × (0 < length d.second.items) × (d.at ≤ length d.input.items) };
}

impl SureTwin {
    /// A twin of these images, which aren't empty, and this input, of which nothing is pulled yet, turned to the first side.
    pub fn new(first: Vec<u8>, second: Vec<u8>, input: Vec<u8>) -> SureTwin
        requires first_bytes { 0 < vec_len first }
        requires second_bytes { 0 < vec_len second }
        ensures turned { result.turned ≡ side.First }
        ensures first { result.first ≡ first.items }
        ensures second { result.second ≡ second.items }
        ensures input { result.input ≡ input.items }
        ensures taken { result.taken ≡ 0 }
        ensures pulled_before { result.pulled_before ≡ 0 }
        ensures announced { result.announced.number ≡ 0 }
        ensures least { least_announced result.announced ≡ 0 }
        ensures greatest { greatest_announced result.announced ≡ 0 }
    {
        SureTwin {
            turned: Side::First,
            first,
            second,
            input,
            at: 0,
            pulled_before: 0,
            announced: Announced::new(),
        }
    }

    // What the disk holds that it is turned to.
    fn side_image(&self) -> &[u8]
        ensures { result.now ≡ sure_image self.now.turned self.now.first self.now.second }
    {
        match self.turned {
            Side::First => &self.first,
            Side::Second => &self.second,
        }
    }
}

impl Deck for SureTwin {
    ghost tells = { sure_tells };

    ghost state = { sure_twin_state };

    ghost same_rest = { λ old new. HasSameRest (sure_pair old) (sure_pair new) };

    ghost sound = { λ s. sure_is_sound (sure_on s.turned s) };

    ghost rest_here = { sure_rest_here };

    ghost rest_then = { sure_rest_then };

    #[tactic(auto, using(crate::specs::SureSides::sure_rest))]
    fn size(&mut self) -> Result<u64, Failed>
        ensures answer { IfOk result (λ n. n ≡ (sure_twin_state self.new).extent) }
        ensures learns { LearnsExtent sure_tells (sure_twin_state self.old) (sure_twin_state self.new) }
        ensures disk { KeepsDisk (sure_twin_state self.old) (sure_twin_state self.new) }
        ensures passes { Passes sure_tells (sure_twin_state self.old) (sure_twin_state self.new) }
        ensures succeeds { OnOk result (Succeeds (sure_twin_state self.old) (sure_twin_state self.new)) }
        ensures cause { OnErr result (Rose (sure_twin_state self.old).disk_faults (sure_twin_state self.new).disk_faults) }
        ensures moments { EachMoment sure_tells (sure_twin_state self.old) (sure_twin_state self.new) (Within (sure_twin_state self.old) (sure_twin_state self.new)) }
        ensures rest { HasSameRest (sure_pair self.old) (sure_pair self.new) }
        ensures sure { IsOk result }
    {
        self.announced.begin_anew();
        Ok(self.side_image().len() as u64)
    }

    #[tactic(auto, using(crate::specs::SureSides::sure_rest))]
    fn provide(&mut self, size: u64) -> Result<(), Failed>
        ensures provides { OnOk result ((sure_twin_state self.old).extent ≡ 0 → Provides sure_tells size (sure_twin_state self.new)) }
        ensures begins { OnErr result ((sure_twin_state self.old).extent ≡ 0 → Begins sure_tells size (sure_twin_state self.old) (sure_twin_state self.new)) }
        ensures extent { 0 < (sure_twin_state self.old).extent → (sure_twin_state self.new).extent ≡ (sure_twin_state self.old).extent }
        ensures disk { 0 < (sure_twin_state self.old).extent → KeepsDisk (sure_twin_state self.old) (sure_twin_state self.new) }
        ensures passes { Passes sure_tells (sure_twin_state self.old) (sure_twin_state self.new) }
        ensures succeeds { OnOk result (Succeeds (sure_twin_state self.old) (sure_twin_state self.new)) }
        ensures cause { OnErr result (Rose (sure_twin_state self.old).disk_faults (sure_twin_state self.new).disk_faults) }
        ensures moments { EachMoment sure_tells (sure_twin_state self.old) (sure_twin_state self.new) (WithinProvide size (sure_twin_state self.old) (sure_twin_state self.new)) }
        ensures rest { HasSameRest (sure_pair self.old) (sure_pair self.new) }
        ensures sure { IsOk result }
    {
        self.announced.begin_anew();
        Ok(())
    }

    #[tactic(auto, using(crate::specs::SureSides::sure_rest))]
    fn read(&mut self, at: u64, buf: &mut [u8]) -> Result<(), Failed>
        requires { at + length buf.old ≤ (sure_twin_state self.old).extent }
        ensures reads { OnOk result (Reads sure_tells at (sure_twin_state self.old) buf.new) }
        ensures extent { (sure_twin_state self.new).extent ≡ (sure_twin_state self.old).extent }
        ensures disk { KeepsDisk (sure_twin_state self.old) (sure_twin_state self.new) }
        ensures passes { Passes sure_tells (sure_twin_state self.old) (sure_twin_state self.new) }
        ensures succeeds { OnOk result (Succeeds (sure_twin_state self.old) (sure_twin_state self.new)) }
        ensures cause { OnErr result (Rose (sure_twin_state self.old).disk_faults (sure_twin_state self.new).disk_faults) }
        ensures moments { EachMoment sure_tells (sure_twin_state self.old) (sure_twin_state self.new) (Within (sure_twin_state self.old) (sure_twin_state self.new)) }
        ensures rest { HasSameRest (sure_pair self.old) (sure_pair self.new) }
        ensures sure { IsOk result }
    {
        self.announced.begin_anew();
        copy_from(self.side_image(), at as usize, buf);
        Ok(())
    }

    #[tactic(auto, using(crate::specs::SureSides::sure_rest))]
    fn write(&mut self, at: u64, bytes: &[u8]) -> Result<(), Failed>
        requires { at + length bytes.now ≤ (sure_twin_state self.old).extent }
        ensures writes { OnOk result (Writes sure_tells at bytes.now (sure_twin_state self.old) (sure_twin_state self.new)) }
        ensures tears { Tears sure_tells at (length bytes.now) (sure_twin_state self.old) (sure_twin_state self.new) }
        ensures extent { (sure_twin_state self.new).extent ≡ (sure_twin_state self.old).extent }
        ensures passes { Passes sure_tells (sure_twin_state self.old) (sure_twin_state self.new) }
        ensures succeeds { OnOk result (Succeeds (sure_twin_state self.old) (sure_twin_state self.new)) }
        ensures cause { OnErr result (Rose (sure_twin_state self.old).disk_faults (sure_twin_state self.new).disk_faults) }
        ensures moments { EachMoment sure_tells (sure_twin_state self.old) (sure_twin_state self.new) (Within (sure_twin_state self.old) (sure_twin_state self.new)) }
        ensures rest { HasSameRest (sure_pair self.old) (sure_pair self.new) }
        ensures sure { IsOk result }
    {
        self.announced.begin_anew();
        match self.turned {
            Side::First => {
                patch(&mut self.first, at as usize, bytes);
                return Ok(());
            }
            Side::Second => {
                patch(&mut self.second, at as usize, bytes);
                return Ok(());
            }
        }
    }

    #[tactic(auto, using(crate::specs::SureSides::sure_rest))]
    fn sync(&mut self) -> Result<(), Failed>
        ensures settles { OnOk result (IsTrue sure_tells.stops → IsSettled (sure_twin_state self.new)) }
        ensures held { (sure_twin_state self.new).held ≡ (sure_twin_state self.old).held }
        ensures no_more { (image : List ℕ) → (sure_twin_state self.new).may_leave image → (sure_twin_state self.old).may_leave image }
        ensures pending { OnErr result (KeepsDisk (sure_twin_state self.old) (sure_twin_state self.new)) }
        ensures extent { (sure_twin_state self.new).extent ≡ (sure_twin_state self.old).extent }
        ensures passes { Passes sure_tells (sure_twin_state self.old) (sure_twin_state self.new) }
        ensures succeeds { OnOk result (Succeeds (sure_twin_state self.old) (sure_twin_state self.new)) }
        ensures cause { OnErr result (Rose (sure_twin_state self.old).disk_faults (sure_twin_state self.new).disk_faults) }
        ensures moments { EachMoment sure_tells (sure_twin_state self.old) (sure_twin_state self.new) (Within (sure_twin_state self.old) (sure_twin_state self.new)) }
        ensures rest { HasSameRest (sure_pair self.old) (sure_pair self.new) }
        ensures sure { IsOk result }
    {
        self.announced.begin_anew();
        Ok(())
    }

    #[tactic(auto, using(crate::specs::SureSides::sure_rest))]
    fn announce(&mut self, count: u64)
        ensures announces { Announces count (sure_twin_state self.old) (sure_twin_state self.new) }
        ensures disk { LeavesDisk (sure_twin_state self.old) (sure_twin_state self.new) }
        ensures input { KeepsInput (sure_twin_state self.old) (sure_twin_state self.new) }
        ensures input_faults { (sure_twin_state self.new).input_faults ≡ (sure_twin_state self.old).input_faults }
        ensures time { Elapses sure_tells (sure_twin_state self.old) (sure_twin_state self.new) }
        ensures moments { EachMoment sure_tells (sure_twin_state self.old) (sure_twin_state self.new) (IsNow (sure_twin_state self.new)) }
        ensures rest { HasSameRest (sure_pair self.old) (sure_pair self.new) }
    {
        self.announced.announce(count);
    }

    #[tactic(auto, using(crate::specs::SureSides::sure_rest))]
    fn pull(&mut self, buf: &mut [u8]) -> Result<usize, Failed>
        requires { 0 < length buf.old }
        ensures bound { IfOk result (λ n. n ≤ length buf.new) }
        ensures pulls { IfOk result (GivesPiece sure_tells (sure_twin_state self.old) (sure_twin_state self.new) buf.new) }
        ensures kept { OnErr result (KeepsInput (sure_twin_state self.old) (sure_twin_state self.new)) }
        ensures cause { OnErr result (Rose (sure_twin_state self.old).input_faults (sure_twin_state self.new).input_faults) }
        ensures monotone { (sure_twin_state self.old).input_faults ≤ (sure_twin_state self.new).input_faults }
        ensures disk { LeavesDisk (sure_twin_state self.old) (sure_twin_state self.new) }
        ensures announced { KeepsAnnounced (sure_twin_state self.old) (sure_twin_state self.new) }
        ensures fresh { OnOk result (HasOneAnnounced (sure_twin_state self.new)) }
        ensures time { Elapses sure_tells (sure_twin_state self.old) (sure_twin_state self.new) }
        ensures moments { EachMoment sure_tells (sure_twin_state self.old) (sure_twin_state self.new) (Within (sure_twin_state self.old) (sure_twin_state self.new)) }
        ensures rest { HasSameRest (sure_pair self.old) (sure_pair self.new) }
        ensures sure { IsOk result }
        ensures full { IfOk result (λ n. n ≡ min (length self.old.input) (length buf.new)) }
    {
        self.announced.begin_anew();
        let n = copy_next(&self.input, self.at, buf);
        if n > 0 {
            self.pulled_before = self.at;
        }
        self.at += n;
        Ok(n)
    }
}

impl Twin for SureTwin {
    ghost pair = { sure_pair };

    fn turn(&mut self, side: Side)
        ensures turns { Turns side (sure_pair self.old) (sure_pair self.new) }
        ensures only { self.new ≡ record self.old { turned = side } }
    {
        self.turned = side;
    }

    ghost faces = { λ s. sure_faces s.turned s };

    ghost sound_pair = { sure_twin_is_sound };

    ghost leaves_rest = { λ old new same. same };
}
