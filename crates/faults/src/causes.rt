ghost use Rattle.std.specs.Prelude.{◌≡◌};
ghost use Rattle.faults.specs.Numbers.{cause_number};

use std::fmt;

// Why two numbers make no element of a kind, in the order of the numbers. `Other` is for kinds made
// elsewhere.
#[derive(Clone, Copy, PartialEq, Eq, Debug)]
pub enum Cause {
    NoExtent,
    PastReel,
    NoTempo,
    TempoAboveLimit,
    ExtentAboveLimit,
    Other(u16),
}

impl Cause {
    pub fn number(self) -> u16
        ensures { result ≡ cause_number self }
    {
        match self {
            Cause::NoExtent => 1,
            Cause::PastReel => 2,
            Cause::NoTempo => 3,
            Cause::TempoAboveLimit => 4,
            Cause::ExtentAboveLimit => 5,
            Cause::Other(n) => n,
        }
    }
}

impl fmt::Display for Cause {
    fn fmt<W: fmt::Write>(&self, f: &mut fmt::Formatter<W>) -> fmt::Result {
        let text = match self {
            Cause::Other(n) => {
                let n = *n;
                return write!(f, "the kind refuses the element with cause {n}");
            }
            Cause::NoExtent => "the element would be empty",
            Cause::PastReel => "the element would pass the reel's end",
            Cause::NoTempo => "the tempo is 0",
            Cause::TempoAboveLimit => "the tempo is above 16,777,215 microseconds a beat",
            Cause::ExtentAboveLimit => "the element would have an extent above 1,073,741,824",
        };
        f.write_str(text)
    }
}
