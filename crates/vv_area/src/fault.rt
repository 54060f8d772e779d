//! Why an area is not taken.

use std::alloc::AllocError;
use vv_record::RecordFault;

/// Why bytes are not taken as tables.
#[derive(Clone, Copy, Debug, PartialEq, Eq)]
pub enum AreaFault {
    /// They are the spelling of no tables, as the field at this place shows. The rules never answer it.
    Bad { at: usize },
    /// The tables break a rule, and this was found: 0, or at rule 6 the least place of an entry that breaks it. What
    /// reads an area never answers it.
    Rule { rule: u64, found: u64 },
    /// There was no memory to look at them.
    NoMemory,
}

impl From<RecordFault> for AreaFault {
    ghost use Rattle.std.specs.Prelude.{◌≡◌};
    ghost use Rattle.vv_area.specs.Faults.{fault_of};

    ghost from_gives = { λ fault e. e ≡ fault_of fault };

    fn from(fault: RecordFault) -> AreaFault {
        match fault {
            RecordFault::Bad { at } => AreaFault::Bad { at },
            RecordFault::NoMemory => AreaFault::NoMemory,
        }
    }
}

impl From<AllocError> for AreaFault {
    ghost use Rattle.std.specs.Prelude.{◌≡◌};
    ghost use Rattle.vv_area.specs.declared.fault.AreaFault.TheVariants.{NoMemory};

    ghost from_gives = { λ fault e. e ≡ NoMemory };

    fn from(_: AllocError) -> AreaFault {
        AreaFault::NoMemory
    }
}
