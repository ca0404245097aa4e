//! Why bytes or parts are refused.
ghost use Rattle.std.specs.Prelude.{◌≡◌};
ghost use Rattle.scenario_image.specs.Fault.{fault_name};
ghost use Rattle.scenario_image.specs.declared.fault.LoadFault.TheVariants.{NoMemory};

use std::alloc::{AllocError, AllocFailed};
use std::error::Error;
use std::fmt;

/// Why bytes or parts make no scenario.
#[derive(Clone, Copy, Debug, PartialEq, Eq)]
pub enum LoadFault {
    /// There are fewer bytes than the layout takes, by the counts in them as they stand.
    L1,
    /// The bytes do not begin as an image does.
    L2,
    /// A number is out of its range.
    L3,
    /// Bytes are left over.
    L4,
    /// A sender or receiver is without exactly one flow that names it or exactly one outgoing link,
    /// or a router has no or more than 16 outgoing links.
    L5,
    /// A flow does not go from a sender to a receiver, a link goes into the node that it leaves, or
    /// a route is not a router's, for a sender or receiver, over a link that leaves the router.
    L6,
    /// Some flow's path, for data or for acknowledgements, comes to a router without a route for the
    /// path's end, or to a sender or receiver that is not the path's end.
    L7,
    /// Some flow's path comes to a node again.
    L8,
    /// There was no memory.
    NoMemory,
}

impl LoadFault {
    /// What the fault is written as.
    fn name(self) -> &'static str
        ensures { result.now ≡ fault_name self }
    {
        match self {
            LoadFault::L1 => "L1",
            LoadFault::L2 => "L2",
            LoadFault::L3 => "L3",
            LoadFault::L4 => "L4",
            LoadFault::L5 => "L5",
            LoadFault::L6 => "L6",
            LoadFault::L7 => "L7",
            LoadFault::L8 => "L8",
            LoadFault::NoMemory => "no memory",
        }
    }
}

impl fmt::Display for LoadFault {
    ghost use Rattle.std.specs.Prelude.{Some};
    ghost use Rattle.scenario_image.specs.Fault.{fault_name};

    ghost output = { λ fault. Some (fault_name fault) };

    fn fmt<W: fmt::Write>(&self, f: &mut fmt::Formatter<W>) -> fmt::Result {
        f.write_str(self.name())
    }
}

impl Error for LoadFault {}

impl From<AllocError> for LoadFault {
    ghost from_gives = { λ _ fault. fault ≡ NoMemory };

    fn from(_error: AllocError) -> LoadFault {
        LoadFault::NoMemory
    }
}

impl<T: Drop> From<AllocFailed<T>> for LoadFault {
    ghost from_gives = { λ _ fault. fault ≡ NoMemory };

    fn from(_error: AllocFailed<T>) -> LoadFault {
        LoadFault::NoMemory
    }
}
