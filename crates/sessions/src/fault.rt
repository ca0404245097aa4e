//! How a session can end otherwise than done.
ghost use Rattle.std.specs.Prelude.{◌≡◌};
ghost use Rattle.sessions.specs.Faults.{status_of};

use crate::figures_fault::FiguresFault;
use crate::source::SourceFail;
use net_machine::StepFault;
use scenario_asm::{AsmFault, Fault};
use scenario_image::LoadFault;
use std::alloc::{AllocError, AllocFailed};
use std::error::Error;
use std::fmt;
use window_engine::{EngineFault, SinkFail};

/// Why a session is not done. Its `Display` is the note for standard error, ended by LF.
#[derive(Debug, Drop)]
pub enum SessionFault {
    /// The input has more bytes than an input may have.
    TooLong,
    /// The text's first fault.
    Refused {
        /// The line, counted from 1; 0 for a fault of the text as a whole.
        line: u64,
        /// What is wrong there.
        fault: Fault,
    },
    /// The image's first fault.
    RefusedImage(LoadFault),
    /// The command line is not one of this program.
    CommandLine(clap::Error),
    /// There is no such code to explain.
    NoSuchCode,
    /// A word of the command line is not UTF-8.
    WordsNotUtf8,
    /// The groups that the command line names are none, or not as many as the nodes.
    Groups,
    /// The command line asks for figures that cannot be.
    Figures(FiguresFault),
    /// The input could not be read.
    ReadFailed,
    /// The file of this name, as it is shown, could not be opened or read.
    CannotRead(String),
    /// The output could not be written.
    WriteFailed,
    /// Memory ran out.
    NoMemory,
    /// The run has more events than there may be.
    CountFull,
    /// A worker did not give back what it ran.
    NoWorker,
}

impl SessionFault {
    /// The status with which the program ends.
    pub fn status(&self) -> u8
        ensures { result ≡ status_of self.now }
    {
        match self {
            SessionFault::TooLong | SessionFault::Refused { .. } | SessionFault::RefusedImage(_) =>
                1,
            SessionFault::CommandLine(_)
            | SessionFault::NoSuchCode
            | SessionFault::WordsNotUtf8
            | SessionFault::Groups
            | SessionFault::Figures(_) => 2,
            SessionFault::ReadFailed | SessionFault::CannotRead(_) | SessionFault::WriteFailed => 3,
            SessionFault::NoMemory | SessionFault::CountFull | SessionFault::NoWorker => 4,
        }
    }
}

impl fmt::Display for SessionFault {
    ghost use Rattle.sessions.specs.Faults.{note_of};

    ghost output = { note_of };

    fn fmt<W: fmt::Write>(&self, f: &mut fmt::Formatter<W>) -> fmt::Result {
        match self {
            SessionFault::TooLong => f.write_str("refused I1\n"),
            SessionFault::Refused { line, fault } => {
                let code = fault.code();
                write!(f, "refused {code} line {line}\n")
            }
            SessionFault::RefusedImage(fault) => write!(f, "refused {fault}\n"),
            SessionFault::CommandLine(error) => write!(f, "{error}"),
            SessionFault::NoSuchCode => f.write_str(
                "error: no such code; there are E1 to E10, L1 to L8, I1, B1 to B5, M and groups\n",
            ),
            SessionFault::WordsNotUtf8 => f.write_str("error: a word is not valid UTF-8\n"),
            SessionFault::Groups => f.write_str("refused groups\n"),
            SessionFault::Figures(FiguresFault::NoMoment) => {
                f.write_str("error: --from takes a moment, as 1.5s, 20ms or 10000ns\n")
            }
            SessionFault::Figures(FiguresFault::NoStep) => f.write_str(
                "error: --every takes a time above 0, as 1.5s or 20ms, and --series wants --every\n",
            ),
            SessionFault::Figures(FiguresFault::TooManyRows) => f.write_str(
                "error: more than 10000000 rows; --every takes a longer step\n",
            ),
            SessionFault::ReadFailed => f.write_str("read failed\n"),
            SessionFault::CannotRead(file) => write!(f, "cannot read {file}\n"),
            SessionFault::WriteFailed => f.write_str("write failed\n"),
            SessionFault::NoMemory => f.write_str("no memory\n"),
            SessionFault::CountFull => f.write_str("count full\n"),
            SessionFault::NoWorker => f.write_str("no worker\n"),
        }
    }
}

impl Error for SessionFault {}

impl From<AllocError> for SessionFault {
    ghost use Rattle.sessions.specs.declared.fault.SessionFault.TheVariants.{NoMemory};

    ghost from_gives = { λ _ e. e ≡ NoMemory };

    fn from(_error: AllocError) -> SessionFault {
        SessionFault::NoMemory
    }
}

impl From<FiguresFault> for SessionFault {
    ghost use Rattle.sessions.specs.declared.fault.SessionFault.TheVariants.{Figures};

    ghost from_gives = { λ fault e. e ≡ Figures fault };

    fn from(fault: FiguresFault) -> SessionFault {
        SessionFault::Figures(fault)
    }
}

impl From<SourceFail> for SessionFault {
    ghost use Rattle.sessions.specs.declared.fault.SessionFault.TheVariants.{ReadFailed};

    ghost from_gives = { λ _ e. e ≡ ReadFailed };

    fn from(_fail: SourceFail) -> SessionFault {
        SessionFault::ReadFailed
    }
}

impl From<SinkFail> for SessionFault {
    ghost use Rattle.sessions.specs.declared.fault.SessionFault.TheVariants.{WriteFailed};

    ghost from_gives = { λ _ e. e ≡ WriteFailed };

    fn from(_fail: SinkFail) -> SessionFault {
        SessionFault::WriteFailed
    }
}

impl From<StepFault> for SessionFault {
    ghost use Rattle.sessions.specs.Faults.{of_step};

    ghost from_gives = { λ fault e. e ≡ of_step fault };

    fn from(fault: StepFault) -> SessionFault {
        match fault {
            StepFault::NoMemory => SessionFault::NoMemory,
            StepFault::CountFull => SessionFault::CountFull,
        }
    }
}

impl From<EngineFault> for SessionFault {
    ghost use Rattle.sessions.specs.Faults.{of_engine};

    ghost from_gives = { λ fault e. e ≡ of_engine fault };

    fn from(fault: EngineFault) -> SessionFault {
        match fault {
            EngineFault::NoMemory => SessionFault::NoMemory,
            EngineFault::CountFull => SessionFault::CountFull,
            EngineFault::Sink { .. } => SessionFault::WriteFailed,
            EngineFault::NoWorker | EngineFault::Failed => SessionFault::NoWorker,
        }
    }
}

impl From<debug_session::DialogueFault> for SessionFault {
    ghost use Rattle.sessions.specs.Faults.{of_commands};

    ghost from_gives = { λ fault e. e ≡ of_commands fault };

    fn from(fault: debug_session::DialogueFault) -> SessionFault {
        match fault {
            debug_session::DialogueFault::NoMemory => SessionFault::NoMemory,
            debug_session::DialogueFault::OutputFailed => SessionFault::WriteFailed,
        }
    }
}

impl From<AsmFault> for SessionFault {
    ghost use Rattle.sessions.specs.Faults.{of_text};

    ghost from_gives = { λ fault e. e ≡ of_text fault };

    fn from(fault: AsmFault) -> SessionFault {
        match fault {
            AsmFault::At { line, fault } => SessionFault::Refused { line, fault },
            AsmFault::NoMemory => SessionFault::NoMemory,
        }
    }
}

impl From<LoadFault> for SessionFault {
    ghost use Rattle.sessions.specs.Faults.{of_image};

    ghost from_gives = { λ fault e. e ≡ of_image fault };

    fn from(fault: LoadFault) -> SessionFault {
        match fault {
            LoadFault::NoMemory => SessionFault::NoMemory,
            _ => SessionFault::RefusedImage(fault),
        }
    }
}
