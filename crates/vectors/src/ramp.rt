ghost use Rattle.std.specs.Prelude.{◌≡◌, ◌≤◌, min};
ghost use Rattle.vectors.specs.Ramp.{ramp_samples, ramp_keeps};

use reels::Reel;

// A reel of computed samples, as long as is wanted: sample i is i mod 1,000. It copies by the
// trait's own `copy_to`.
#[derive(Clone, Copy)]
pub(crate) struct Ramp {
    frames: u32,
    ghost few: { frames ≤ 1073741824 },
}

impl Ramp {
    pub(crate) fn new(frames: u32) -> Ramp
        ensures { result.frames ≡ min frames 1073741824 }
    {
        Ramp {
            frames: frames.min(1073741824),
        }
    }
}

impl Reel for Ramp {
    ghost samples = { λ r. ramp_samples r.frames };

    ghost bounds = { λ r. ramp_keeps r.frames r.few };

    fn len(&self) -> u32 {
        self.frames
    }

    fn sample(&self, i: u32) -> Option<i16> {
        if i < self.frames {
            Some((i % 1000) as i16)
        } else {
            None
        }
    }
}
