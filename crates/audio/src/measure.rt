ghost use Rattle.std.specs.Prelude.{◌≡◌, ◌+◌, ◌^◌, ◌<◌, ◌≤◌, min, length, FitsSigned};
ghost use Rattle.std.specs.Int.{w16};
ghost use Rattle.std.specs.List.{AllByRecursion};
ghost use Rattle.reels.specs.Samples.{stretch};
ghost use Rattle.kinds.specs.Kinds.{total};
ghost use Rattle.audio.specs.Audio.{audio, count_at_end, joined_levels};

use crate::levels::Levels;
use reels::Reel;

// How many samples are copied at a time.
const BLOCK: usize = 512;

// Two summaries joined, where their numbers fit.
pub(crate) fn louder(s: Levels, t: Levels) -> Levels
    ensures { s.frames + t.frames < 2 ^ 32 → s.clipped + t.clipped < 2 ^ 32 → result ≡ joined_levels s t }
{
    Levels {
        frames: s.frames.saturating_add(t.frames),
        low: s.low.min(t.low),
        high: s.high.max(t.high),
        clipped: s.clipped.saturating_add(t.clipped),
    }
}

// The levels of the stretch of so many frames from `start` on, as far as the reel has them, a block
// at a time.
pub(crate) fn measure<R: Reel>(reel: &R, start: u32, frames: u32) -> Levels
    ensures { result ≡ total (audio (R.samples reel.now)) (stretch (R.samples reel.now) start frames) }
{
    let mut scratch = [0i16; BLOCK];
    let mut sum = Levels::default();
    let end = start.saturating_add(frames).min(reel.len());
    for at in (start..end).step_by(BLOCK) {
        sum = louder(sum, measure_block(reel, at, end - at, &mut scratch));
    }
    sum
}

// The same, for as many frames as fit the scratch block.
fn measure_block<R: Reel>(reel: &R, start: u32, frames: u32, scratch: &mut [i16; BLOCK]) -> Levels
    ensures { result ≡ total (audio (R.samples reel.now)) (stretch (R.samples reel.now) start (min frames 512)) }
{
    let most = (frames as usize).min(BLOCK);
    let n = reel.copy_to(start, &mut scratch[0..most]);
    levels_of(&scratch[0..n])
}

// The levels of a block of samples.
fn levels_of(block: &[i16]) -> Levels
    requires few { length block.now ≤ 512 }
    requires fit { AllByRecursion (FitsSigned w16) block.now }
    ensures { result ≡ total (audio block.now) block.now }
{
    let mut low = 32767i16;
    let mut high = -32768i16;
    let mut clipped = 0u32;
    for &s in block {
        low = low.min(s);
        high = high.max(s);
        clipped += at_end(s);
    }
    Levels {
        frames: block.len() as u32,
        low,
        high,
        clipped,
    }
}

// 1 at either end of the range, else 0.
fn at_end(s: i16) -> u32
    ensures { result ≡ count_at_end s }
{
    if s == -32768 || s == 32767 { 1 } else { 0 }
}
