ghost use Rattle.std.specs.Prelude.{◌≡◌};

// The summary of audio: how many frames, the lowest and the highest sample, and how many samples
// stand at either end of the range.
#[derive(Clone, Copy, PartialEq, Eq, Debug)]
pub struct Levels {
    pub frames: u32,
    pub low: i16,
    pub high: i16,
    pub clipped: u32,
}

// The levels of no samples.
impl Default for Levels {
    ghost use Rattle.audio.specs.Audio.{no_samples};

    ghost is_default = { λ s. s ≡ no_samples };

    fn default() -> Levels {
        Levels {
            frames: 0,
            low: 32767,
            high: -32768,
            clipped: 0,
        }
    }
}
