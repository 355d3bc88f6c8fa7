ghost use Rattle.std.specs.Prelude.{◌≡◌};

use audio::Levels;

// The levels of samples, laid out as C has it.
#[repr(C)]
#[derive(Clone, Copy, PartialEq, Eq, Debug)]
pub struct Summary {
    pub frames: u32,
    pub low: i16,
    pub high: i16,
    pub clipped: u32,
}

impl From<Levels> for Summary {
    ghost use Rattle.speed.specs.Summaries.{told};

    ghost from_gives = { λ s r. r ≡ told s };

    fn from(s: Levels) -> Summary {
        Summary {
            frames: s.frames,
            low: s.low,
            high: s.high,
            clipped: s.clipped,
        }
    }
}
