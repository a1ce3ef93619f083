//! Why a session is refused.

use fdr_recover::{HeaderFault, RingFault};
use fdr_slot::ImageFault;
use fdr_table::NoMemory;

/// Why a session is refused. It is consumed then.
#[derive(Clone, Copy, PartialEq, Eq, Debug)]
pub enum SessionFault {
    /// What the disk holds isn't an image.
    Image(ImageFault),
    /// The image is for frames of other words than the table's.
    WordsDiffer {
        /// The words in a subframe of what the image is for.
        image: u32,
        /// The words in a subframe by the table.
        table: u32,
    },
    /// The image is of version 1, which has no sessions.
    OldVersion,
    /// The disk failed: its count of faults rose in this call.
    DiskFault,
    /// There is no number left for a block.
    SeqEnd,
    /// Memory ended.
    NoMemory,
}

impl From<RingFault> for SessionFault {
    ghost use Rattle.std.specs.Prelude.{◌≡◌};
    ghost use Rattle.fdr_recorder.specs.Faults.{session_fault};

    ghost from_gives = { λ why result. result ≡ session_fault why };

    fn from(why: RingFault) -> SessionFault {
        match why {
            RingFault::Image(why) => SessionFault::Image(why),
            RingFault::SeqEnd => SessionFault::SeqEnd,
            // Only an image that is made answers that the disk isn't empty.
            RingFault::NotEmpty | RingFault::DiskFault => SessionFault::DiskFault,
        }
    }
}

impl From<HeaderFault> for SessionFault {
    ghost use Rattle.std.specs.Prelude.{◌≡◌};
    ghost use Rattle.fdr_recorder.specs.Faults.{session_header_fault};

    ghost from_gives = { λ why result. result ≡ session_header_fault why };

    fn from(why: HeaderFault) -> SessionFault {
        match why {
            HeaderFault::Image(why) => SessionFault::Image(why),
            HeaderFault::WordsDiffer { image, table } => SessionFault::WordsDiffer { image, table },
            HeaderFault::DiskFault => SessionFault::DiskFault,
        }
    }
}

impl From<NoMemory> for SessionFault {
    ghost use Rattle.std.specs.Prelude.{◌≡◌};
    ghost use Rattle.fdr_recorder.specs.declared.error.SessionFault.TheVariants as fault;

    ghost from_gives = { λ _ result. result ≡ fault.NoMemory };

    fn from(_error: NoMemory) -> SessionFault {
        SessionFault::NoMemory
    }
}
