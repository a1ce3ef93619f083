//! Why the runs of an image aren't answered.

use fdr_io::Failed;
use std::alloc::AllocError;

/// Why the runs of an image aren't answered.
#[derive(Clone, Copy, Debug, PartialEq, Eq)]
pub enum SalvageFault {
    /// The disk failed: its count of faults rose in this call.
    DiskFault,
    /// There wasn't enough memory.
    NoMemory,
}

impl From<Failed> for SalvageFault {
    ghost use Rattle.std.specs.Prelude.{◌≡◌};
    ghost use Rattle.fdr_salvage.specs.declared.fault.SalvageFault.TheVariants as fault;

    ghost from_gives = { λ _ result. result ≡ fault.DiskFault };

    fn from(_error: Failed) -> SalvageFault {
        SalvageFault::DiskFault
    }
}

impl From<AllocError> for SalvageFault {
    ghost use Rattle.std.specs.Prelude.{◌≡◌};
    ghost use Rattle.fdr_salvage.specs.declared.fault.SalvageFault.TheVariants as fault;

    ghost from_gives = { λ _ result. result ≡ fault.NoMemory };

    fn from(_error: AllocError) -> SalvageFault {
        SalvageFault::NoMemory
    }
}
