ghost use Rattle.std.specs.Prelude.{◌≡◌, map, pos, ◌*ℤ◌};
ghost use Rattle.reels.specs.Gain.{gain_below, gain_by, floor256, held, scaled};
ghost use Rattle.reels.specs.Keeps.{gain_keeps};
ghost use Rattle.reels.specs.Samples.{Copied};

use crate::reel::Reel;

// A layer over any reel: each sample times n / 256, rounded down, then held within 16 bits.
#[derive(Clone, Copy, Drop)]
pub struct Gain<R> {
    below: R,
    n: u16,
}

impl<R> Gain<R> {
    pub fn new(below: R, n: u16) -> Gain<R>
        ensures { (gain_below result ≡ below) × (gain_by result ≡ n) }
    {
        Gain { below, n }
    }
}

impl<R: Reel> Reel for Gain<R> {
    ghost samples = { λ s. map (scaled (gain_by s)) (R.Reel.samples (gain_below s)) };

    ghost bounds = { λ s. gain_keeps (gain_by s) (R.Reel.samples (gain_below s)) (R.Reel.bounds (gain_below s)) };

    fn len(&self) -> u32 {
        self.below.len()
    }

    fn sample(&self, i: u32) -> Option<i16> {
        self.below.sample(i).map(|s| scale(s, self.n))
    }

    fn copy_to(&self, start: u32, block: &mut [i16]) -> usize
        ensures { Copied (map (scaled (gain_by self.now)) (R.Reel.samples (gain_below self.now))) start block.old block.new result }
    {
        let n = self.below.copy_to(start, block);
        amplify(&mut block[0..n], self.n);
        n
    }
}

// Scales each sample of the block in place.
fn amplify(block: &mut [i16], n: u16)
    ensures { block.new ≡ map (scaled n) block.old }
{
    for s in block.iter_mut() {
        *s = scale(*s, n);
    }
}

fn scale(s: i16, n: u16) -> i16
    ensures { result ≡ scaled n s }
{
    hold(part256(product(s, n)))
}

fn product(s: i16, n: u16) -> i32
    ensures { result ≡ s *ℤ pos n }
{
    s as i32 * n as i32
}

fn part256(x: i32) -> i32
    ensures { result ≡ floor256 x }
{
    x >> 8
}

fn hold(x: i32) -> i16
    ensures { result ≡ held x }
{
    x.clamp(-32768, 32767) as i16
}
