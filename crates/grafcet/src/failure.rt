//! Why a command fails.
ghost use Rattle.std.specs.Prelude.{◌≡◌};
ghost use Rattle.grafcet.specs.declared.failure.Failure.{Failure};
ghost use Rattle.faults.specs.declared.Fault.{Fault};

use faults::{CodeFault, Fault};
use std::alloc::AllocError;
use std::{fmt, io};
use telling::cause::cause_of;

#[derive(Drop)]
pub enum Failure {
    /// The arguments cannot be read.
    Arguments(io::Error),
    /// They name no command.
    Usage,
    /// The file cannot be read.
    Unreadable(io::Error),
    /// The file is refused.
    Refused(Fault),
    /// The reason is told already.
    Reported,
    /// The code file has the name of the chart.
    OverChart,
    /// The code file cannot be written.
    Unsaved(io::Error),
    /// The output cannot be written.
    Unwritable(io::Error),
    OutOfMemory,
}

const USAGE: &str = "grafcet
       grafcet compile CHART OUT
       grafcet load FILE
       grafcet scan CODE FRAME..
       grafcet campaign CHART IMAGE CALLS";

impl Failure {
    fn words(&self) -> &'static str {
        match self {
            Failure::Arguments(_) => "the arguments cannot be read",
            Failure::Usage => USAGE,
            Failure::Unreadable(_) => "cannot be read",
            Failure::Refused(fault) => cause_of(*fault),
            Failure::Reported => "refused",
            Failure::OverChart => "the code file would take the place of the chart",
            Failure::Unsaved(_) => "the code file cannot be written",
            Failure::Unwritable(_) => "the output cannot be written",
            Failure::OutOfMemory => "out of memory",
        }
    }

    // The system's own reason, where there is one.
    fn error(&self) -> Option<&io::Error> {
        match self {
            Failure::Arguments(e)
            | Failure::Unreadable(e)
            | Failure::Unsaved(e)
            | Failure::Unwritable(e) => Some(e),
            _ => None,
        }
    }
}

impl fmt::Display for Failure {
    fn fmt<W: fmt::Write>(&self, f: &mut fmt::Formatter<W>) -> fmt::Result {
        if let Failure::Refused(fault) = self {
            let place = fault.place();
            write!(f, "byte {place}: ")?;
        }
        f.write_str(self.words())?;
        match self.error() {
            Some(e) => write!(f, ": {e}"),
            None => Ok(()),
        }
    }
}

impl From<AllocError> for Failure {
    ghost from_gives = { λ _ r. r ≡ Failure.OutOfMemory };

    fn from(_e: AllocError) -> Failure {
        Failure::OutOfMemory
    }
}

impl From<io::Error> for Failure {
    ghost from_gives = { λ e r. r ≡ Failure.Unwritable e };

    fn from(e: io::Error) -> Failure {
        Failure::Unwritable(e)
    }
}

impl From<CodeFault> for Failure {
    ghost from_gives = { λ e r. r ≡ Failure.Refused (Fault.Code e) };

    fn from(e: CodeFault) -> Failure {
        Failure::Refused(Fault::from(e))
    }
}
