//! The headers of both images, with which a recording on two disks starts.

ghost use Rattle.std.specs.Prelude.{◌≡◌, ◌≢◌, Some, None, IfOk, IfErr, IsTrue};
ghost use Rattle.fdr_twin.specs.Pair.{disk_on};
ghost use Rattle.fdr_twin.specs.Serving.{Serves};
ghost use Rattle.fdr_twin.specs.declared.side.Side.TheVariants as side;
ghost use Rattle.fdr_pair.specs.PairWork.{PairWork, IsLookedAt};
ghost use Rattle.fdr_pair.specs.Opening.{side_header, header_after, common_header, frame_refusal, opening, LooksAtSide, ReadsHeader};
ghost use Rattle.fdr_pair.specs.Opening.{AreCountsBelowMost, AreLiving, OnLiving, IsHeaderAnswer, IsHeaderOn, IsOpeningRefusal, IsRefusedByHeaders};
ghost use Rattle.fdr_pair.specs.SideCounts.{CountsBoth};

use crate::outcome::PairOutcome;
use fdr_recover::{RingFault, read_image_header};
use fdr_slot::{Header, ImageFault};
use fdr_twin::{Side, Twin};

/// What reading the header of a side gives.
#[derive(Clone, Copy, PartialEq, Eq, Debug)]
pub enum SideHeader {
    /// The header of its image.
    Read(Header),
    /// What the disk holds isn't an image, for this fault.
    Refused(ImageFault),
    /// The disk failed: its count of faults rose.
    Failed,
}

/// Which sides of a twin haven't failed, where at least one hasn't.
#[derive(Clone, Copy, PartialEq, Eq, Debug)]
pub enum LivingSides {
    /// Both sides.
    Both,
    /// The first side alone.
    OnlyFirst,
    /// The second side alone.
    OnlySecond,
}

/// The sides that a recording can go on with, and the header that their images have in common.
#[derive(Clone, Copy, PartialEq, Eq, Debug)]
pub struct Opened {
    /// The header.
    pub header: Header,
    /// The sides that haven't failed.
    pub living: LivingSides,
}

// What was read of a side's header, as the answer of reading it on a deck.
fn side_header(read: Result<Header, RingFault>) -> SideHeader
    ensures { result ≡ side_header read }
{
    match read {
        Ok(header) => SideHeader::Read(header),
        Err(RingFault::Image(fault)) => SideHeader::Refused(fault),
        // No image is made, and no block is added.
        Err(RingFault::DiskFault | RingFault::NotEmpty | RingFault::SeqEnd) => SideHeader::Failed,
    }
}

/// Turns to a side and reads the header of its image. The disks of both sides are left.
pub fn header_on<T: Twin>(twin: &mut T, side: Side) -> SideHeader
    ensures reads { ReadsHeader T.tells side result (T.pair twin.old) (T.pair twin.new) }
    ensures serves { Serves T.tells side (disk_on side (T.pair twin.old)).may_leave (T.pair twin.old) (T.pair twin.new) }
    ensures counts { CountsBoth (T.pair twin.old) (T.pair twin.new) }
{
    twin.turn(side);
    let read = read_image_header(twin);
    side_header(read)
}

// The header of the sides that haven't failed, or the first refusal by what was read of each side.
fn common_header(first: SideHeader, second: SideHeader) -> Result<Opened, PairOutcome>
    ensures { result ≡ common_header first second }
{
    match first {
        SideHeader::Refused(fault) => Err(PairOutcome::ImageRefused {
            side: Side::First,
            fault,
        }),
        SideHeader::Read(header) => match second {
            SideHeader::Refused(fault) => Err(PairOutcome::ImageRefused {
                side: Side::Second,
                fault,
            }),
            SideHeader::Failed => Ok(Opened {
                header,
                living: LivingSides::OnlyFirst,
            }),
            SideHeader::Read(other) => {
                if header != other {
                    return Err(PairOutcome::HeadersDiffer);
                }
                Ok(Opened {
                    header,
                    living: LivingSides::Both,
                })
            }
        },
        SideHeader::Failed => match second {
            SideHeader::Refused(fault) => Err(PairOutcome::ImageRefused {
                side: Side::Second,
                fault,
            }),
            SideHeader::Failed => Err(PairOutcome::DiskFault),
            SideHeader::Read(header) => Ok(Opened {
                header,
                living: LivingSides::OnlySecond,
            }),
        },
    }
}

// What is wrong with a header for the frames of a table with these words in a subframe.
fn frame_refusal(header: &Header, words: u32) -> Option<PairOutcome>
    ensures { result ≡ frame_refusal words header.now }
{
    if header.words != words {
        return Some(PairOutcome::WordsDiffer {
            image: header.words,
            table: words,
        });
    }
    if header.version == 1 {
        return Some(PairOutcome::OldVersion);
    }
    None
}

// The answer of opening both sides, by what was read of each.
fn opening(first: SideHeader, second: SideHeader, words: u32) -> Result<Opened, PairOutcome>
    ensures { result ≡ opening words first second }
{
    let opened = common_header(first, second)?;
    match frame_refusal(&opened.header, words) {
        Some(refusal) => Err(refusal),
        None => Ok(opened),
    }
}

/// Reads the headers of both sides, for the frames of a table with these words in a subframe: the header that is common to the
/// sides that haven't failed, or the first refusal. A side that fails is left aside; where both fail, the answer is `DiskFault`.
/// The disks of both sides are left, and nothing is pulled or announced.
pub fn open_sides<T: Twin>(twin: &mut T, words: u32) -> Result<Opened, PairOutcome>
    ensures exact { IsTrue T.tells.bytes → AreCountsBelowMost (T.pair twin.new) → result ≡ opening words
        (header_after (T.pair twin.old).first (T.pair twin.new).first)
        (header_after (T.pair twin.old).second (T.pair twin.new).second) }
    ensures refused { IfErr result (λ why. IsHeaderAnswer why → IsTrue T.tells.bytes
        → IsRefusedByHeaders words (T.pair twin.old) (T.pair twin.new) why) }
    ensures living { IfOk result (λ o. AreLiving o.living (T.pair twin.old) (T.pair twin.new)) }
    ensures header { IfOk result (λ o. OnLiving o.living
        (λ side. IsHeaderOn T.tells o.header side (T.pair twin.old) (T.pair twin.new))) }
    ensures words { IfOk result (λ o. o.header.words ≡ words) }
    ensures version { IfOk result (λ o. o.header.version ≡ 2) }
    ensures cause { IfErr result (λ why. IsOpeningRefusal words why (T.pair twin.old) (T.pair twin.new)) }
    ensures first { LooksAtSide T.tells side.First (T.pair twin.old) (T.pair twin.new) }
    ensures second { LooksAtSide T.tells side.Second (T.pair twin.old) (T.pair twin.new) }
    ensures work { PairWork T.tells (IsLookedAt (T.pair twin.old)) (T.pair twin.old) (T.pair twin.new) }
{
    let first = header_on(twin, Side::First);
    let second = header_on(twin, Side::Second);
    opening(first, second, words)
}
