//! Why there is no closed loop.
use pcap_records::CaptureFault;
use run_files::RunFault;
use std::alloc::AllocError;

/// Why there is no closed loop.
#[derive(Debug, Drop)]
pub enum LoopFault {
    /// There is no scenario.
    NoScenario,
    /// The capture or the scenarios are refused, as by a rehearsal; or memory ran out.
    Refused(RunFault),
    /// The capture with other times is refused. No capture is known that leads to it.
    BadRecording(CaptureFault),
    /// After the allowed rounds a packet still moved, or the moved packets make other connections.
    NotSettled,
}

impl From<RunFault> for LoopFault {
    ghost use Rattle.std.specs.Prelude.{◌≡◌};
    ghost use Rattle.closed_loop.specs.declared.fault.LoopFault.TheVariants.{Refused};

    ghost from_gives = { λ error fault. fault ≡ Refused error };

    fn from(error: RunFault) -> LoopFault {
        LoopFault::Refused(error)
    }
}

/// Why rounds end without a closed loop.
#[derive(Debug, Drop)]
pub(crate) enum RoundFault {
    Memory,
    BadRecording(CaptureFault),
    NotSettled,
}

impl From<AllocError> for RoundFault {
    fn from(_error: AllocError) -> RoundFault {
        RoundFault::Memory
    }
}

impl RoundFault {
    ghost use Rattle.std.specs.Prelude.{IsOk};
    ghost use Rattle.closed_loop.specs.Faults.{IsFaultOf};

    /// The same as a fault of the closed loop.
    pub(crate) fn whole(self) -> LoopFault
        ensures { (scenarios : _) → (answer : _) → IsOk answer → IsFaultOf result scenarios answer }
    {
        match self {
            RoundFault::Memory => LoopFault::Refused(RunFault::Memory),
            RoundFault::BadRecording(fault) => LoopFault::BadRecording(fault),
            RoundFault::NotSettled => LoopFault::NotSettled,
        }
    }
}
