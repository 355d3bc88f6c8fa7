ghost use Rattle.std.specs.Prelude.{◌≡◌};
ghost use Rattle.faults.specs.Numbers.{reel_number};

use std::fmt;

// Why bytes are no reel, each with its number.
#[derive(Clone, Copy, PartialEq, Eq, Debug)]
pub enum ReelFault {
    OddBytes = 19,
    TooLong = 21,
}

impl ReelFault {
    pub fn number(self) -> u16
        ensures { result ≡ reel_number self }
    {
        self as u16
    }
}

impl fmt::Display for ReelFault {
    fn fmt<W: fmt::Write>(&self, f: &mut fmt::Formatter<W>) -> fmt::Result {
        let text = match self {
            ReelFault::OddBytes => "an odd number of bytes is no PCM reel",
            ReelFault::TooLong => "the reel has more than 1,073,741,824 samples",
        };
        f.write_str(text)
    }
}
