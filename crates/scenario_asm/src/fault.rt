//! What is wrong with a text.
ghost use Rattle.std.specs.Prelude.{◌≡◌};
ghost use Rattle.scenario_asm.specs.Faults.{code_of};

use std::alloc::{AllocError, AllocFailed};
use std::fmt;
use thiserror::Error;

/// What is wrong with a line, or with the text as a whole.
#[derive(Clone, Copy)]
pub enum Fault {
    /// A byte outside 0x20 to 0x7E.
    E1,
    /// The first word is no statement.
    E2,
    /// The statement has another number of words.
    E3,
    /// A word of the wrong form: no number, no name or none of the fixed words, where one is asked.
    E4,
    /// A number out of its range, RWND below MSS, or a `lose` number that is not above the link's
    /// last one.
    E5,
    /// A declared name is taken, or a router has a route to this destination already.
    E6,
    /// A used name is unknown.
    E7,
    /// A used name is that of something else than what is asked: of another sort, of a node of
    /// another kind, of the node where the link begins, or of a link that doesn't leave the router.
    E8,
    /// Too many nodes, links or flows, outgoing links of one router, or `lose` statements of one
    /// link.
    E9,
    /// Not exactly one `sim`.
    E10,
    /// A number out of its range once the whole text is known: a flow that starts at the end or
    /// later, fewer than two nodes, no link or no flow.
    L3,
    /// A sender or receiver without exactly one flow or without exactly one outgoing link, or a
    /// router without an outgoing link.
    L5,
    /// On some flow's path a router without a route to the path's end, or another end.
    L7,
    /// Some flow's path returns to a node.
    L8,
}

impl Fault {
    /// The code by which the program names the fault.
    pub fn code(self) -> &'static str
        ensures { result.now ≡ code_of self }
    {
        match self {
            Fault::E1 => "E1",
            Fault::E2 => "E2",
            Fault::E3 => "E3",
            Fault::E4 => "E4",
            Fault::E5 => "E5",
            Fault::E6 => "E6",
            Fault::E7 => "E7",
            Fault::E8 => "E8",
            Fault::E9 => "E9",
            Fault::E10 => "E10",
            Fault::L3 => "L3",
            Fault::L5 => "L5",
            Fault::L7 => "L7",
            Fault::L8 => "L8",
        }
    }
}

impl fmt::Display for Fault {
    ghost use Rattle.std.specs.Prelude.{Some};
    ghost use Rattle.scenario_asm.specs.Faults.{code_of};

    ghost output = { λ fault. Some (code_of fault) };

    fn fmt<W: fmt::Write>(&self, f: &mut fmt::Formatter<W>) -> fmt::Result {
        f.write_str(self.code())
    }
}

impl fmt::Debug for Fault {
    fn fmt<W: fmt::Write>(&self, f: &mut fmt::Formatter<W>) -> fmt::Result {
        f.write_str(self.code())
    }
}

/// Why a text gives no scenario.
#[derive(Debug, Drop, Error)]
pub enum AsmFault {
    /// The text's first fault.
    #[error("refused {fault} line {line}")]
    At {
        /// The line, counted from 1; 0 for a fault of the text as a whole.
        line: u64,
        /// What is wrong there.
        fault: Fault,
    },
    /// Memory ran out.
    #[error("no memory")]
    NoMemory,
}

impl From<AllocError> for AsmFault {
    ghost use Rattle.scenario_asm.specs.declared.fault.AsmFault.TheVariants.{NoMemory};

    ghost from_gives = { λ _ e. e ≡ NoMemory };

    fn from(_error: AllocError) -> AsmFault {
        AsmFault::NoMemory
    }
}

impl<T: Drop> From<AllocFailed<T>> for AsmFault {
    ghost use Rattle.scenario_asm.specs.declared.fault.AsmFault.TheVariants.{NoMemory};

    ghost from_gives = { λ _ e. e ≡ NoMemory };

    fn from(_error: AllocFailed<T>) -> AsmFault {
        AsmFault::NoMemory
    }
}
