//! Why an array isn't made or opened.

use vv_journal::OpenFault;
use vv_units::{Damage, DiskFault, NoMemory};

/// Why an array isn't made or opened.
#[derive(Clone, Copy, Debug, PartialEq, Eq)]
pub enum ArrayFault {
    /// The image isn't formatted: it is too short, and this is its length; or this is its first byte.
    NotFormatted { found: u64 },
    /// The first thing that is wrong with the image.
    Damaged(Damage),
    /// The disk failed.
    Disk(DiskFault),
    NoMemory,
}

impl From<NoMemory> for ArrayFault {
    ghost use Rattle.std.specs.Prelude.{◌≡◌};
    ghost use Rattle.vv_array.specs.declared.fault.ArrayFault.TheVariants as array;

    ghost from_gives = { λ none e. e ≡ array.NoMemory };

    fn from(_none: NoMemory) -> ArrayFault {
        ArrayFault::NoMemory
    }
}

impl From<DiskFault> for ArrayFault {
    ghost use Rattle.std.specs.Prelude.{◌≡◌};
    ghost use Rattle.vv_array.specs.declared.fault.ArrayFault.TheVariants as array;

    ghost from_gives = { λ fault e. e ≡ array.Disk fault };

    fn from(fault: DiskFault) -> ArrayFault {
        ArrayFault::Disk(fault)
    }
}

impl From<OpenFault> for ArrayFault {
    ghost use Rattle.std.specs.Prelude.{◌≡◌};
    ghost use Rattle.vv_array.specs.OpeningSteps.{fault_of_open};

    ghost from_gives = { λ fault e. e ≡ fault_of_open fault };

    fn from(fault: OpenFault) -> ArrayFault {
        match fault {
            OpenFault::NotFormatted { found } => ArrayFault::NotFormatted { found },
            OpenFault::Damaged(damage) => ArrayFault::Damaged(damage),
            OpenFault::Disk(fault) => ArrayFault::Disk(fault),
        }
    }
}
