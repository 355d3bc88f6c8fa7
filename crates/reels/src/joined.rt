ghost use Rattle.std.specs.Prelude.{◌≡◌, ◌+◌, ◌≤◌, ◌++◌, length};
ghost use Rattle.reels.specs.Joined.{joined_first, joined_second};
ghost use Rattle.reels.specs.Keeps.{joined_keeps};
ghost use Rattle.reels.specs.Samples.{Copied, cut, stretch};

use crate::reel::{Reel, fitting};
use faults::LIMIT;

// A layer over any two reels: the first followed by the second, ending at the limit.
#[derive(Clone, Copy, Drop)]
pub struct Joined<P, Q> {
    first: P,
    second: Q,
}

impl<P, Q> Joined<P, Q> {
    pub fn new(first: P, second: Q) -> Joined<P, Q>
        ensures { (joined_first result ≡ first) × (joined_second result ≡ second) }
    {
        Joined { first, second }
    }
}

#[tactic(auto, using(crate::proofs::Lists::joined_long))]
impl<P: Reel, Q: Reel> Reel for Joined<P, Q> {
    ghost samples = { λ s. cut (P.Reel.samples (joined_first s) ++ Q.Reel.samples (joined_second s)) };

    ghost bounds = { λ s. joined_keeps (P.Reel.samples (joined_first s)) (Q.Reel.samples (joined_second s)) (P.Reel.bounds (joined_first s)) (Q.Reel.bounds (joined_second s)) };

    fn len(&self) -> u32 {
        (self.first.len() + self.second.len()).min(LIMIT)
    }

    fn sample(&self, i: u32) -> Option<i16> {
        if i >= LIMIT {
            return None;
        }
        let before = self.first.len();
        if i < before {
            self.first.sample(i)
        } else {
            self.second.sample(i - before)
        }
    }

    fn copy_to(&self, start: u32, block: &mut [i16]) -> usize
        ensures { Copied (cut (P.Reel.samples (joined_first self.now) ++ Q.Reel.samples (joined_second self.now))) start block.old block.new result }
    {
        let n = fitting(self.len(), start, block.len());
        if n == 0 {
            return 0;
        }
        copy_both(&self.first, &self.second, start, &mut block[0..n]);
        n
    }
}

// Fills the block, which lies within the two reels, from `start` on.
fn copy_both<P: Reel, Q: Reel>(first: &P, second: &Q, start: u32, block: &mut [i16])
    requires { start + length block.old ≤ length (P.Reel.samples first.now ++ Q.Reel.samples second.now) }
    ensures { block.new ≡ stretch (P.Reel.samples first.now ++ Q.Reel.samples second.now) start (length block.old) }
{
    let before = first.len();
    if start < before {
        let n = first.copy_to(start, block);
        second.copy_to(0, &mut block[n..]);
    } else {
        second.copy_to(start - before, block);
    }
}
