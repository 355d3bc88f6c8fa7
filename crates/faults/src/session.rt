ghost use Rattle.std.specs.Prelude.{◌≡◌};
ghost use Rattle.faults.specs.Numbers.{session_number, session_cause};
ghost use Rattle.faults.specs.declared.session.SessionFault.TheVariants.{Unlawful};

use crate::causes::Cause;

// Why a session refuses a call, in the order of the numbers.
#[derive(Clone, Copy, PartialEq, Eq, Debug)]
pub enum SessionFault {
    NotHeld,
    BeyondEnd,
    EmptyRange,
    RangePastEnd,
    Unlawful(Cause),
    ClipboardEmpty,
    PastEmpty,
    FutureEmpty,
    HoldsOut,
    ExtentLimit,
    ElementLimit,
    FewCells,
    BeyondTally,
    OutputShort,
    RenderTooLong,
    NoSample,
    CellsOutside,
}

impl SessionFault {
    pub fn number(self) -> u16
        ensures { result ≡ session_number self }
    {
        match self {
            SessionFault::NotHeld => 1,
            SessionFault::BeyondEnd => 2,
            SessionFault::EmptyRange => 3,
            SessionFault::RangePastEnd => 4,
            SessionFault::Unlawful(_) => 5,
            SessionFault::ClipboardEmpty => 6,
            SessionFault::PastEmpty => 7,
            SessionFault::FutureEmpty => 8,
            SessionFault::HoldsOut => 9,
            SessionFault::ExtentLimit => 10,
            SessionFault::ElementLimit => 11,
            SessionFault::FewCells => 12,
            SessionFault::BeyondTally => 13,
            SessionFault::OutputShort => 14,
            SessionFault::RenderTooLong => 15,
            SessionFault::NoSample => 17,
            SessionFault::CellsOutside => 18,
        }
    }

    // The kind's cause inside, 0 where there is none.
    pub fn cause(self) -> u16
        ensures { result ≡ session_cause self }
    {
        match self {
            SessionFault::Unlawful(cause) => cause.number(),
            _ => 0,
        }
    }
}

impl From<Cause> for SessionFault {
    ghost from_gives = { λ c r. r ≡ Unlawful c };

    fn from(c: Cause) -> SessionFault {
        SessionFault::Unlawful(c)
    }
}
