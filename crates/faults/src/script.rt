ghost use Rattle.std.specs.Prelude.{◌≡◌};
ghost use Rattle.faults.specs.Numbers.{script_number, script_cause, stop_number};
ghost use Rattle.faults.specs.declared.script.ScriptFault.TheVariants.{Refused};
ghost use Rattle.faults.specs.declared.script.Stop.TheVariants.{BadReel};

use crate::reel::ReelFault;
use crate::session::SessionFault;

// Why a script's record is refused: by the session, or for its own shape.
#[derive(Clone, Copy, PartialEq, Eq, Debug)]
pub enum ScriptFault {
    Refused(SessionFault),
    UnknownKind,
    PayloadLength,
}

impl ScriptFault {
    pub fn number(self) -> u16
        ensures { result ≡ script_number self }
    {
        match self {
            ScriptFault::Refused(fault) => fault.number(),
            ScriptFault::UnknownKind => 23,
            ScriptFault::PayloadLength => 24,
        }
    }

    // The kind's cause inside, 0 where there is none.
    pub fn cause(self) -> u16
        ensures { result ≡ script_cause self }
    {
        match self {
            ScriptFault::Refused(fault) => fault.cause(),
            _ => 0,
        }
    }
}

impl From<SessionFault> for ScriptFault {
    ghost from_gives = { λ f r. r ≡ Refused f };

    fn from(f: SessionFault) -> ScriptFault {
        ScriptFault::Refused(f)
    }
}

// Why a run of a script stopped: at its end, before a record whose reply has no room or that is cut
// short, or before the first record of a track over bytes that are no reel.
#[derive(Clone, Copy, PartialEq, Eq, Debug)]
pub enum Stop {
    End,
    NoRoom,
    CutShort,
    BadReel(ReelFault),
}

impl Stop {
    pub fn code(self) -> u16
        ensures { result ≡ stop_number self }
    {
        match self {
            Stop::End => 0,
            Stop::NoRoom => 14,
            Stop::CutShort => 22,
            Stop::BadReel(fault) => fault.number(),
        }
    }
}

impl From<ReelFault> for Stop {
    ghost from_gives = { λ f r. r ≡ BadReel f };

    fn from(f: ReelFault) -> Stop {
        Stop::BadReel(f)
    }
}
