ghost use Rattle.std.specs.Prelude.{◌≡◌};
ghost use Rattle.profile.specs.declared.fault.SurveyFault.TheVariants.{Reel, Session, NoMemory};

use faults::{ReelFault, SessionFault};
use std::alloc::{AllocError, AllocFailed};

// Why there is no survey: the bytes are no reel, the numbers make no element, or memory is wanting.
#[derive(Clone, Copy, PartialEq, Eq, Debug)]
pub enum SurveyFault {
    Reel(ReelFault),
    Session(SessionFault),
    NoMemory,
}

// Each conversion is written out, since the clauses above name what `?` gives, and a derived one does not say it.
impl From<ReelFault> for SurveyFault {
    ghost from_gives = { λ f r. r ≡ Reel f };

    fn from(f: ReelFault) -> SurveyFault {
        SurveyFault::Reel(f)
    }
}

impl From<SessionFault> for SurveyFault {
    ghost from_gives = { λ f r. r ≡ Session f };

    fn from(f: SessionFault) -> SurveyFault {
        SurveyFault::Session(f)
    }
}

impl From<AllocError> for SurveyFault {
    ghost from_gives = { λ _ r. r ≡ NoMemory };

    fn from(_e: AllocError) -> SurveyFault {
        SurveyFault::NoMemory
    }
}

impl<T: Drop> From<AllocFailed<T>> for SurveyFault {
    ghost from_gives = { λ _ r. r ≡ NoMemory };

    fn from(_e: AllocFailed<T>) -> SurveyFault {
        SurveyFault::NoMemory
    }
}
