//! Scan tokens. `sample` makes the first, `work` turns it into the second, and `deliver` or `abandon` takes that. A campaign
//! makes a token for each of its calls that wants one, also out of turn, and takes it back; it hands out that of the scan that
//! is open in the end, which `close` works and abandons. All of these do so by the functions of this file, which no other crate
//! can call: only this file can make a token or take one apart.
ghost use Rattle.std.specs.Prelude.{◌≡◌};

use faults::Fault;

/// Allows one `work`.
pub struct SampledScan {
    frame: u64,
}

impl SampledScan {
    pub(crate) fn opened(frame: u64) -> SampledScan
        ensures { result ≡ record { frame = frame } }
    {
        SampledScan { frame }
    }

    pub(crate) fn spent(self) -> u64
        ensures { result ≡ self.frame }
    {
        let SampledScan { frame } = self;
        frame
    }
}

/// Allows one `deliver` or one `abandon`.
pub struct WorkedScan {
    frame: u64,
}

impl WorkedScan {
    pub(crate) fn opened(frame: u64) -> WorkedScan
        ensures { result ≡ record { frame = frame } }
    {
        WorkedScan { frame }
    }

    pub(crate) fn spent(self) -> u64
        ensures { result ≡ self.frame }
    {
        let WorkedScan { frame } = self;
        frame
    }
}

/// A refused call: its token, handed back, and the fault.
pub struct Held<T> {
    pub scan: T,
    pub fault: Fault,
}

/// The token of the open scan, if a scan is open.
pub enum OpenScan {
    Nothing,
    Sampled(SampledScan),
    Worked(WorkedScan),
}
