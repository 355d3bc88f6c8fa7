ghost use Rattle.std.specs.Prelude.{◌≡◌};
ghost use Rattle.audio.specs.Audio.{audio, audio_reel};
ghost use Rattle.audio.specs.Lawfulness.{audio_laws};

use crate::clip::Clip;
use crate::levels::Levels;
use crate::measure::{louder, measure};
use faults::Cause;
use kinds::{Kind, Tally};
use reels::Reel;

// The kind of audio elements over a reel.
#[derive(Clone, Copy, Drop)]
pub struct Audio<R> {
    reel: R,
}

impl<R> Audio<R> {
    pub fn new(reel: R) -> Audio<R>
        ensures { audio_reel result ≡ reel }
    {
        Audio { reel }
    }
}

impl<R: Reel> Kind for Audio<R> {
    type Element = Clip;

    type Summary = Levels;

    type Atom = i16;

    ghost meaning = { λ k. audio (R.Reel.samples (audio_reel k)) };

    ghost laws = { λ k. audio_laws (R.Reel.samples (audio_reel k)) (R.Reel.bounds (audio_reel k)) };

    // Refuses an element of no frame, then one past the reel's end, and nothing else.
    fn make(&self, a: u32, b: u32) -> Result<Clip, Cause> {
        if b == 0 {
            return Err(Cause::NoExtent);
        }
        let len = self.reel.len();
        if a > len || b > len - a {
            return Err(Cause::PastReel);
        }
        Ok(Clip {
            start: a,
            frames: b,
        })
    }

    fn tell(&self, e: Clip) -> (u32, u32) {
        (e.start, e.frames)
    }

    fn extent(&self, e: Clip) -> u32 {
        e.frames
    }

    fn part(&self, e: Clip, d: u32, m: u32) -> Clip {
        Clip {
            start: e.start.saturating_add(d),
            frames: m,
        }
    }

    fn summary(&self, e: Clip) -> Levels {
        measure(&self.reel, e.start, e.frames)
    }

    fn empty(&self) -> Levels {
        Levels::default()
    }

    fn join(&self, s: Levels, t: Levels) -> Levels {
        louder(s, t)
    }

    fn width(&self, s: Levels) -> u32 {
        s.frames
    }
}

impl<R: Reel> Tally for Audio<R> {
    ghost tallied = { λ _ s. s.clipped };

    fn tally(&self, s: Levels) -> u64 {
        s.clipped as u64
    }
}
