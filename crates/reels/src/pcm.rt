ghost use Rattle.std.specs.Prelude.{◌≡◌, ◌+◌, ◌*◌, ◌<◌, ◌≤◌, map, length, IfOk, Some, None, MatchResult};
ghost use Rattle.reels.specs.Keeps.{pcm_keeps};
ghost use Rattle.reels.specs.Pcm.{pairs, pcm_bytes, pcm_samples, pcm_refusal};
ghost use Rattle.reels.specs.Samples.{Bounds, Copied};

use crate::reel::{Reel, fitting};
use faults::{LIMIT, ReelFault};

// A reel of bytes in pairs, the low byte first.
#[derive(Clone, Copy)]
pub struct Pcm<'a> {
    bytes: &'a [u8],
}

impl<'a> Pcm<'a> {
    // Refuses an odd number of bytes, then more than the limit, and nothing else.
    pub fn new(bytes: &'a [u8]) -> Result<Pcm<'a>, ReelFault>
        ensures refusal { MatchResult result (λ _. pcm_refusal bytes.now ≡ None) (λ f. pcm_refusal bytes.now ≡ Some f) }
        ensures reel { IfOk result (λ p. (pcm_bytes p ≡ bytes.now) × (pcm_samples (pcm_bytes p) ≡ pairs bytes.now)) }
    {
        if bytes.len() % 2 != 0 {
            return Err(ReelFault::OddBytes);
        }
        if bytes.len() > 2 * LIMIT as usize {
            return Err(ReelFault::TooLong);
        }
        Ok(Pcm { bytes })
    }
}

#[tactic(auto, using(crate::proofs::Pairs::pcm_long))]
impl<'a> Reel for Pcm<'a> {
    ghost samples = { λ s. pcm_samples (pcm_bytes s) };

    ghost bounds = { λ s. pcm_keeps (pcm_bytes s) };

    fn len(&self) -> u32 {
        (self.bytes.len() / 2).min(LIMIT as usize) as u32
    }

    fn sample(&self, i: u32) -> Option<i16> {
        if i >= self.len() {
            return None;
        }
        let at = 2 * i as usize;
        Some(i16::from_le_bytes([self.bytes[at], self.bytes[at + 1]]))
    }

    fn copy_to(&self, start: u32, block: &mut [i16]) -> usize
        ensures { Copied (pcm_samples (pcm_bytes self.now)) start block.old block.new result }
    {
        let n = fitting(self.len(), start, block.len());
        if n == 0 {
            return 0;
        }
        let from = 2 * start as usize;
        take_pairs(&self.bytes[from..from + 2 * n], &mut block[0..n]);
        n
    }
}

// Fills the block from as many pairs of bytes. The bytes go by index: of what a zip of `iter_mut`
// writes, a proof knows nothing.
fn take_pairs(bytes: &[u8], block: &mut [i16])
    requires { length bytes.now ≡ 2 * length block.old }
    ensures { block.new ≡ pairs bytes.now }
{
    for (i, s) in block.iter_mut().enumerate() {
        *s = i16::from_le_bytes([bytes[2 * i], bytes[2 * i + 1]]);
    }
}
