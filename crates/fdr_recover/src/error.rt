//! Why a call of the ring is refused, or no header is answered.

use fdr_io::Failed;
use fdr_slot::ImageFault;

/// Why a call of the ring is refused.
#[derive(Clone, Copy, PartialEq, Eq, Debug)]
pub enum RingFault {
    /// An image is made only on a disk of length 0.
    NotEmpty,
    /// What the disk holds isn't an image.
    Image(ImageFault),
    /// The disk failed: its count of faults rose in this call.
    DiskFault,
    /// There is no number left for a block.
    SeqEnd,
}

impl From<Failed> for RingFault {
    ghost use Rattle.std.specs.Prelude.{◌≡◌};
    ghost use Rattle.fdr_recover.specs.declared.error.RingFault.TheVariants as fault;

    ghost from_gives = { λ _ result. result ≡ fault.DiskFault };

    fn from(_error: Failed) -> RingFault {
        RingFault::DiskFault
    }
}

impl From<ImageFault> for RingFault {
    ghost use Rattle.std.specs.Prelude.{◌≡◌};
    ghost use Rattle.fdr_recover.specs.declared.error.RingFault.TheVariants as fault;

    ghost from_gives = { λ why result. result ≡ fault.Image why };

    fn from(why: ImageFault) -> RingFault {
        RingFault::Image(why)
    }
}

/// Why the header of an image for the frames of a table isn't answered.
#[derive(Clone, Copy, PartialEq, Eq, Debug)]
pub enum HeaderFault {
    /// What the disk holds isn't an image.
    Image(ImageFault),
    /// The image is for frames of other words than the table's.
    WordsDiffer {
        /// The words in a subframe of what the image is for.
        image: u32,
        /// The words in a subframe by the table.
        table: u32,
    },
    /// The disk failed: its count of faults rose in this call.
    DiskFault,
}

impl From<RingFault> for HeaderFault {
    ghost use Rattle.std.specs.Prelude.{◌≡◌};
    ghost use Rattle.fdr_recover.specs.HeaderFaults.{header_fault};

    ghost from_gives = { λ why result. result ≡ header_fault why };

    fn from(why: RingFault) -> HeaderFault {
        match why {
            RingFault::Image(why) => HeaderFault::Image(why),
            // The header is read of an image that is there, and no block is added.
            RingFault::NotEmpty | RingFault::DiskFault | RingFault::SeqEnd => {
                HeaderFault::DiskFault
            }
        }
    }
}
